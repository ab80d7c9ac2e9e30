//! Journals of a run: the reports at tick 0 and from there on at each so many ticks, as JSON text.
#![tactic(auto)]

mod formats;
mod journal;
mod laws;
mod reading;
mod running;
mod writing;

pub use journal::{Journal, JournalErr, MOST_CHECKPOINTS};
pub use laws::{comparison_law, first_format_law, journal_law, own_journal_law};
pub use reading::read_journal;
pub use running::{compare, write_journal};
