//! The debugger: scripts that go through a run in both directions, and what they print.
#![tactic(auto)]

mod checking;
mod command;
mod errors;
mod flash;
mod laws;
mod memory;
mod places;
mod running;

pub use checking::check_script;
pub use errors::ScriptErr;
pub use laws::{answer_law, script_law, thread_law};
pub use running::script;
