//! Functions of lanes, and words and registers as rows take and give them.
#![tactic(auto)]

mod functions;
mod words;

pub use functions::{
    LaneFn, clamped, cut, extended_lane, halved, is_outside, lane_product, lane_value, saturates,
};
pub use words::{
    Operand, any_both, both, element_size, lanes_saturate, lanes_word, merge, merge_active, nibble,
    note_operand, operand_word, size, slice, splat, truths, word_place,
};
