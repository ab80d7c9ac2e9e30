//! How two vector instructions may overlap: where they may stand, and the rules of a step of the younger.
#![tactic(auto)]

mod ends;
mod overlap;
mod rule;

pub use ends::{eci, ending, window};
pub use overlap::{first_rule, lawful};
pub use rule::{Rule, Window};
