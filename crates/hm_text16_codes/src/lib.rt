//! The candidate code of a text of a row of one halfword; that of each row's own text is its code.
#![tactic(auto)]

mod codes;
mod names;
mod operands;

pub use codes::code_in;
