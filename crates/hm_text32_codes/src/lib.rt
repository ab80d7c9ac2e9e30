//! The candidate code of a text of a row of two halfwords that is no vector row; that of each row's own texts is its code.
#![tactic(auto)]

mod arith_codes;
mod codes;
mod constants;
mod data_codes;
mod fields;
mod jumps;
mod memory_codes;
mod names;
mod number_codes;
mod operands;
mod system_codes;

pub use codes::code_in;
