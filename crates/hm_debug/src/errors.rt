//! Why a text is no script, or is not done.

use thiserror::Error;

/// Why a text is no script, or is not done.
#[derive(Clone, Copy, Debug, Error)]
pub enum ScriptErr {
    /// The first line, from 1 on, that is no command, or that is not ended.
    #[error("a line of the script is no command")]
    Line { line: u32 },
    /// There are more than 1,000 lines, an unended last one counted.
    #[error("the script has too many lines")]
    TooManyLines,
    /// Memory was wanted and refused.
    #[error("out of memory")]
    OutOfMemory,
}
