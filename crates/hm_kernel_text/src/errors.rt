//! Why a text is refused.

ghost use Rattle.std.specs.Prelude.{◌≡◌};
ghost use Rattle.hm_kernel_text.specs.declared.errors.KernelErr.TheVariants.{OutOfMemory};

use std::alloc::{AllocError, AllocFailed};
use thiserror::Error;

/// What is bad first in a line. Where more than one thing is, it is the first of these.
#[derive(Clone, Copy, Debug)]
pub enum KernelKind {
    /// The line is missing, has no end, or is not of the form that is asked for at its place.
    Syntax,
    /// It is the 17th of its form, or its expression has more than 64 names and numbers.
    Large,
    /// It names a new array as an earlier one, or one that is not there.
    Name,
    /// A number or an address is out of its bounds, or there are more values than elements.
    Range,
    /// An array shares a byte with an earlier one.
    Overlap,
    /// The expression needs more than eight registers.
    Deep,
}

/// Why a text is refused.
#[derive(Clone, Copy, Debug, Error)]
pub enum KernelErr {
    /// The first bad line, by its number from 1 on, and what is bad in it first.
    #[error("a line of the kernel is bad")]
    Line { line: u32, kind: KernelKind },
    /// Memory was wanted and refused.
    #[error("out of memory")]
    OutOfMemory,
}

impl From<AllocError> for KernelErr {
    ghost from_gives = { λ _ e. e ≡ OutOfMemory };

    fn from(_: AllocError) -> Self {
        KernelErr::OutOfMemory
    }
}

impl<T: Drop> From<AllocFailed<T>> for KernelErr {
    ghost from_gives = { λ _ e. e ≡ OutOfMemory };

    fn from(_: AllocFailed<T>) -> Self {
        KernelErr::OutOfMemory
    }
}

impl From<hm_base::OutOfMemory> for KernelErr {
    ghost from_gives = { λ _ e. e ≡ OutOfMemory };

    fn from(_: hm_base::OutOfMemory) -> Self {
        KernelErr::OutOfMemory
    }
}
