//! The texts of the rows of one halfword: the mnemonic and the operands of each, and the address that its label names.
#![tactic(auto)]

mod mnemonics;
mod rows;
mod shapes;
mod targets;

pub use rows::row_text;
pub use targets::{has_label, target};
