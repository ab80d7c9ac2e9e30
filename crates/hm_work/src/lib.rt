//! What each command makes of the bytes of its files: what is written, printed and answered, or why it is refused; and what an image and its file of
//! Intel HEX have in common.
#![tactic(auto)]

mod commands;
mod images;
mod laws;
mod machine;
mod tapes;
mod work;

pub use commands::perform;
pub use laws::same_run_law;
pub use tapes::{RunInput, read_run};
pub use work::{Finish, Output, Refusal, Stop};
