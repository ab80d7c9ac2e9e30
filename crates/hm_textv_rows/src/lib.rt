//! The text of each vector row: its mnemonic, its suffix and its operands.
#![tactic(auto)]

mod memory;
mod mnemonics;
mod rows;
mod suffixes;

pub use rows::{row_text, sum_mnemonic};
pub use suffixes::{by_sign, size_number};
