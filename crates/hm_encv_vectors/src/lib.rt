//! The codes of the vector rows on vectors alone, V1 to V9 and V11 to V16, read and written: DDI0553, "M-profile Vector Extension".
#![tactic(auto)]

mod ones;
mod pairs;
mod shifts;

pub use ones::{
    base_of_narrowing, base_of_one, base_of_reverse, decode_one, encode_v12, encode_v13,
    encode_v14, encode_v15, encode_v16,
};
pub use pairs::{
    base_of_add, base_of_bitwise, base_of_carry, base_of_complex_sum, base_of_doubling,
    base_of_high, base_of_signed, base_of_vector_shift, decode_pair, encode_v1, encode_v2,
    encode_v3, encode_v4, encode_v5, encode_v6, encode_v7, encode_v8, encode_v9,
};
pub use shifts::{base_of_constant_shift, decode_v11, encode_v11};
