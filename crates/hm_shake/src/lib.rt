//! A shake: runs of one image under many schedules that are made from a seed, counted, and a short schedule for each kind of outcome.
#![tactic(auto)]

mod counting;
mod ended;
mod filing;
mod naming;
mod repeats;
mod shaking;
mod shrinking;
mod texts;

pub use counting::Progress;
pub use filing::Written;
pub use naming::{add_name, names_law};
pub use repeats::Repeater;
pub use shaking::{Findings, shake};
pub use shrinking::shrink;
pub use texts::counts_text;
