//! The forms of vector rows that give elements of a vector register, merged word by word under the predicate.
#![tactic(auto)]

mod carry;
mod complex_sum;
mod constants;
mod lanes;
mod long_product;
mod narrowing;
mod offsets;
mod reversed;
mod select;
mod shift;
mod widening;
mod words;

pub use carry::{beat_carry, touch_carry};
pub use complex_sum::{beat_complex_sum, touch_complex_sum};
pub use constants::{beat_constant, touch_constant};
pub use lanes::{Lanes, beat_lanes, touch_lanes};
pub use long_product::{beat_long_product, touch_long_product};
pub use narrowing::{beat_narrowing, touch_narrowing};
pub use offsets::{Steps, beat_offsets, touch_offsets};
pub use reversed::{beat_reversed, touch_reversed};
pub use select::{beat_select, touch_select};
pub use shift::{beat_shift, touch_shift};
pub use widening::{Widening, beat_widening, touch_widening};
