//! The codes of the vector rows with core registers or the predicate, V10 and V17 to V23, read and written: DDI0553, "M-profile
//! Vector Extension".
#![tactic(auto)]

mod predicate;
mod registers;
mod sums;

pub use predicate::{decode_predicate, encode_v20, encode_v21};
pub use registers::{
    base_of_dup, base_of_offsets, base_of_scalar, decode_register, encode_v10, encode_v17,
    encode_v18, encode_v19,
};
pub use sums::{base_of_dot, base_of_extreme, decode_total, encode_v22, encode_v23};
