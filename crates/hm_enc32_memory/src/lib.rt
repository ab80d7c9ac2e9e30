//! The codes of two halfwords of rows that load and store and are no vector rows, T12 to T15, read and written: DDI0553,
//! "T32 instruction set encoding", the 32-bit codes.
#![tactic(auto)]

mod decode;
mod encode;
mod lists;

pub use decode::find_memory;
pub use encode::{
    base_of_pair, base_of_stack, base_of_wide_access, encode_t12, encode_t13, encode_t15,
};
pub use lists::{base_of_wide_list, encode_t14};
