//! Images in files of Intel HEX: read, with the first refusal, and written.
#![tactic(auto)]

mod areas;
mod collect;
mod laws;
mod reading;
mod record;
mod writing;

pub use laws::hex_law;
pub use reading::read_hex;
pub use writing::write_hex;
