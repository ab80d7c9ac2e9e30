//! The words of the program's command line: which command they ask for, and which files it reads.
#![tactic(auto)]

mod command;
mod laws;
mod numbers;
mod words;

pub use command::{Command, Source, run_reads};
pub use laws::words_of_commands;
pub use numbers::{Every, Planned, Range, Ticks};
pub use words::{parse, read_source};
