//! A run shown tick by tick: as lines of text, or as a page.
#![tactic(auto)]

mod changes;
mod instrs;
mod lines;
mod marks;
mod modes;
mod page;
mod progress;
mod running;
mod stands;

pub use running::{Form, Ticks, trace};
