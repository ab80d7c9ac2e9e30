//! The soak: generated work whose instructions overlap and are interrupted, and the line that says whether it came out as in order.
#![tactic(auto)]

mod code;
mod flat;
mod making;
mod rows;
mod runs;
mod shown;
mod ticks;

pub use making::make;
pub use shown::summary;
