//! What a letter of a schedule does to the registers, the memory, the output and the position, of the thread and of handlers.
#![tactic(auto)]

mod cpu;
mod letters;
mod running;
mod service;
mod step_ends;
mod trial;
mod younger;

pub use cpu::Cpu;
pub use letters::{DecodedTable, Letters, Uncached};
pub use service::OUTPUT;
pub use step_ends::{LetterEnd, StepEnd};
pub use trial::ready;
