//! Exceptions: the entry that stacks a frame, and the return that compares and restores (DDI0553, "Exception handling").
#![tactic(auto)]

mod entry;
mod exit;
mod frame;
mod memory;
mod rules;
mod types;

pub use entry::enter;
pub use exit::{leave, newest};
pub use frame::psr_window;
pub use types::{Activation, Acts, Broken, EnterErr, Slot};
