//! The forms of vector rows that make the predicate: comparisons, the first elements, P0 inverted, and the mask of a block.
#![tactic(auto)]

mod block;
mod compare;
mod count;
mod invert;

pub use block::{beat_block, touch_block};
pub use compare::{Comparison, beat_compare, touch_compare};
pub use count::{beat_count, touch_count};
pub use invert::{beat_invert, touch_invert};
