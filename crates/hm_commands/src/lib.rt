//! The commands of the program: the system's words, the calls on a host, and the top call.
#![tactic(auto)]

mod arguments;
mod laws;
mod outside;
mod status;
mod top;

pub use arguments::words_of;
pub use laws::{effect_law, hex_run_law, kernel_file_law, listings_exist};
pub use outside::read_all;
pub use status::Status;
pub use top::{conclude, failure, helium, refuse, say_usage};
