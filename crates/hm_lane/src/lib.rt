//! Vector registers as lanes, the predicate, and how the masks advance.
#![tactic(auto)]

mod lanes;
mod laws;
mod masks;

pub use lanes::{Size, bytes, per_word, word};
pub use laws::{finish_law, lanes_law, predicate_law};
pub use masks::{advance, context, finish, is_unpredicated, mask_at, merge, predicate};
