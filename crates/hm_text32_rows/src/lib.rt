//! The texts of the rows of two halfwords that are no vector rows: the mnemonic and the operands of each, and the address that its label names.
#![tactic(auto)]

mod memory;
mod mnemonics;
mod others;
mod rows;
mod targets;

pub use others::other_text;
pub use rows::row_text;
pub use targets::{has_label, target};
