//! Vector rows that load and store, by beats.
#![tactic(auto)]

mod beats;
mod elements;
mod found;
mod laws;
mod touches;
mod ways;
mod words;

pub use beats::{beat_move, check_move};
pub use elements::{Element, Elements, byte_count};
pub use laws::moves_law;
pub use touches::touch_move;
pub use ways::{Addresses, Contiguous, Interleaved, Move, Offsets, Way};
