//! The runs of a shake: ticks of the letter O with interrupts at drawn moments, the kinds of outcomes that come of them, and what is proved of both.
#![tactic(auto)]

mod cuts;
mod draws;
mod found;
mod head;
mod interrupts;
mod kinds;
mod laws;
mod making;
mod plan;
mod stretches;
mod whole;

pub use cuts::{cut, without};
pub use found::{Found, Tally};
pub use head::Head;
pub use interrupts::interrupts_of;
pub use kinds::{Ended, Kind, kind_of};
pub use laws::{cut_law, letters_law, reports_law, whole_law};
pub use making::shaken;
pub use plan::Plan;
pub use stretches::{Stretch, interrupts_in, schedule_of, ticks_in};
pub use whole::whole_ticks;
