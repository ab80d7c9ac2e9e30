//! Instructions as they are executed, and those that a run decoded of late, so that it decodes those of a loop once.
#![tactic(auto)]

mod decoded;
mod recent;
mod table;

pub use decoded::{Decoded, Whole};
pub use recent::Cached;
pub use table::{keep, kept, vector_anew, vector_at};
