//! Why a step does not go on.

use hm_run::{Cause, Offence};
use hm_window::Rule;

/// Why a step of an instruction does not go on: it stops, or it breaks a rule of overlap.
#[derive(Clone, Copy)]
pub enum StepEnd {
    /// The instruction stops.
    Stopped(Cause),
    /// It breaks a rule of overlap.
    Broken(Rule),
}

/// Why a letter does not go on: a step of an instruction does not, or a handler breaks what is asked of handlers.
#[derive(Clone, Copy)]
pub enum LetterEnd {
    /// A step of an instruction does not.
    Step(StepEnd),
    /// A handler breaks what is asked of handlers.
    Offends(Offence),
}
