//! Loads and stores of elements one behind another, by beats.
#![tactic(auto)]

ghost use Rattle.hm_vmem.specs.Straight.{is_straight};

use hm_families::{Family, RowOf};
use hm_isa::Vector;

/// The family of the rows V24 and V25.
#[derive(Clone, Copy)]
pub struct Contiguous;

impl Family for Contiguous {
    ghost rows = { is_straight };

    fn has(v: &Vector) -> bool {
        match v {
            Vector::V24(_) | Vector::V25(_) => true,
            _ => false,
        }
    }
}

/// An instruction that loads or stores elements one behind another: one of the rows V24 and V25.
pub type Straight = RowOf<Contiguous>;
