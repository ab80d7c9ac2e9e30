//! Loads and stores of elements that registers take in turn, by beats.
#![tactic(auto)]

ghost use Rattle.hm_vil.specs.Inter.{is_inter};

use hm_families::{Family, RowOf};
use hm_isa::Vector;

/// The family of a row V28.
#[derive(Clone, Copy)]
pub struct Interleaved;

impl Family for Interleaved {
    ghost rows = { is_inter };

    fn has(v: &Vector) -> bool {
        match v {
            Vector::V28(_) => true,
            _ => false,
        }
    }
}

/// An instruction that loads or stores elements that two or four vector registers take in turn: a row V28.
pub type Inter = RowOf<Interleaved>;
