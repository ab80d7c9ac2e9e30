//! Why a source is refused.

ghost use Rattle.std.specs.Prelude.{◌≡◌};
ghost use Rattle.hm_asm.specs.declared.errors.AsmErr.TheVariants as refusals;

use hm_base::OutOfMemory;
use hm_line::{AsmKind, TextErr};
use std::alloc::{AllocError, AllocFailed};
use thiserror::Error;

/// Why a source is refused.
#[derive(Clone, Copy, Debug, Error)]
pub enum AsmErr {
    /// A line is refused. Lines are counted from 1, and columns are bytes of the line, counted from 1.
    #[error("a line of the source is refused")]
    Line {
        line: u32,
        column: u32,
        kind: AsmKind,
    },
    /// Memory was wanted and refused.
    #[error("out of memory")]
    OutOfMemory,
}

impl From<AllocError> for AsmErr {
    ghost from_gives = { λ _ e. e ≡ refusals.OutOfMemory };

    fn from(_: AllocError) -> Self {
        AsmErr::OutOfMemory
    }
}

impl<T: Drop> From<AllocFailed<T>> for AsmErr {
    ghost from_gives = { λ _ e. e ≡ refusals.OutOfMemory };

    fn from(_: AllocFailed<T>) -> Self {
        AsmErr::OutOfMemory
    }
}

impl From<OutOfMemory> for AsmErr {
    ghost from_gives = { λ _ e. e ≡ refusals.OutOfMemory };

    fn from(_: OutOfMemory) -> Self {
        AsmErr::OutOfMemory
    }
}

/// The refusal of a line, where the line has this number.
pub fn refused(number: u32, e: TextErr) -> AsmErr
    ensures told { result ≡ AsmErr.Line number e.column e.kind }
{
    AsmErr::Line {
        line: number,
        column: e.column,
        kind: e.kind,
    }
}
