//! The candidate code of a text of a vector row; that of each row's own texts is its code.
#![tactic(auto)]

mod access;
mod codes;
mod names;
mod operands;

pub use codes::code_in;
