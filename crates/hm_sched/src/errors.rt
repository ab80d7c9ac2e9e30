//! Why a schedule is refused.

ghost use Rattle.std.specs.Prelude.{◌≡◌};
ghost use Rattle.hm_sched.specs.declared.errors.SchedErr.TheVariants.{OutOfMemory};

use std::alloc::AllocFailed;
use thiserror::Error;

/// What is bad in a line of a schedule's text. The first four lines are its head, and in format 2 the fifth; each other one has a count, steps
/// and interrupts.
#[derive(Clone, Copy, Debug)]
pub enum LineKind {
    /// The first line, which names the format.
    Header,
    /// The second line, which says whether exceptions are entered.
    Entries,
    /// The third line, the bytes in which handlers may store.
    Region,
    /// The fourth line, the lowest address of the main stack.
    Floor,
    /// The fifth line of format 2, the lowest address of the process stack.
    Process,
    /// How many ticks are alike.
    Count,
    /// The letters of a tick.
    Steps,
    /// The interrupts that arrive in a tick.
    Irq,
    /// The end of a line.
    Newline,
}

/// Why a schedule is refused. Lines are numbered from 1, and the first are the head.
#[derive(Clone, Copy, Debug, Error)]
pub enum SchedErr {
    /// A line is bad in itself.
    #[error("a line of the schedule is bad")]
    Line { line: u32, kind: LineKind },
    /// At this line the sum of the counts passes 16,777,216.
    #[error("the schedule has too many ticks")]
    TooManyTicks { line: u32 },
    /// Memory was wanted and refused.
    #[error("out of memory")]
    OutOfMemory,
}

impl<T: Drop> From<AllocFailed<T>> for SchedErr {
    ghost from_gives = { λ _ e. e ≡ OutOfMemory };

    fn from(_: AllocFailed<T>) -> Self {
        SchedErr::OutOfMemory
    }
}
