//! The codes of two halfwords of rows of data processing, T1 to T11 and T20, read and written: DDI0553, "T32 instruction set encoding",
//! the 32-bit codes.
#![tactic(auto)]

mod arith;
mod decode_data;
mod decode_fields;
mod encode_data;

pub use arith::{
    base_of_accumulate, base_of_bits, base_of_long_product, base_of_operation, base_of_select,
    base_of_wide_extend, base_of_wide_shift, encode_t8, encode_t9, encode_t10, encode_t11,
    encode_t20, find_arith,
};
pub use decode_data::find_data;
pub use encode_data::{
    base_of_extract, base_of_half, base_of_saturate, base_of_wide_sum, data_operation, encode_t1,
    encode_t2, encode_t3, encode_t4, encode_t5, encode_t6, encode_t7,
};
