//! The instruction of each item of an array text's code.
#![tactic(auto)]

mod rows;

pub use rows::instr_of;
