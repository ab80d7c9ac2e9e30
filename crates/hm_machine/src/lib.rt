//! The machine: ticks of a schedule, outcomes, and what a run shows.
#![tactic(auto)]

mod checkpoint;
mod conclusion;
mod cursor;
mod entry;
mod load;
mod machine;
mod memory_text;
mod reel;
mod start;
mod tape;
mod tick;

pub use hm_exc::{Broken, Slot};
pub use hm_run::{Offence, Outcome, Reason, Turn, Who};
pub use hm_window::{Rule, Window};
pub use load::LoadErr;
pub use machine::Machine;
pub use start::Start;
pub use tape::{Past, Tape};
