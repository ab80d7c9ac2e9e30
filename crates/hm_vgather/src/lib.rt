//! Loads and stores at addresses that stand in vector registers, by beats.
#![tactic(auto)]

ghost use Rattle.hm_vgather.specs.Gather.{is_gather};

use hm_families::{Family, RowOf};
use hm_isa::Vector;

/// The family of the rows V26 and V27.
#[derive(Clone, Copy)]
pub struct Gathers;

impl Family for Gathers {
    ghost rows = { is_gather };

    fn has(v: &Vector) -> bool {
        match v {
            Vector::V26(_) | Vector::V27(_) => true,
            _ => false,
        }
    }
}

/// An instruction that loads or stores at addresses that a vector register has or gives: one of the rows V26 and V27.
pub type Gather = RowOf<Gathers>;
