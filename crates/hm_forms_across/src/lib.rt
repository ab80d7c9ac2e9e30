//! The forms of vector rows that go across a vector register into core registers: sums and extremes of its active elements.
#![tactic(auto)]

mod extremes;
mod long_sums;
mod sums;
mod terms;

pub use extremes::{beat_extreme, touch_extreme};
pub use long_sums::{LongSums, beat_long, touch_long};
pub use sums::{Sums, beat_sum, touch_sum};
pub use terms::Terms;
