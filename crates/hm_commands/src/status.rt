//! How a run of the program ends.

ghost use Rattle.std.specs.Prelude.{◌≡◌};
ghost use Rattle.hm_commands.specs.Effect.{code_of};

/// How a run ends.
#[derive(Clone, Copy)]
pub enum Status {
    /// What was asked came about: a run halted.
    Done,
    /// A run ended otherwise.
    Ended,
    /// The words ask for nothing.
    Usage,
    /// What was asked is refused.
    Refused,
    /// The host failed.
    HostFault,
    /// Memory was wanted.
    NoMemory,
}

impl Status {
    /// The number that the program ends with, 0 to 5.
    pub fn code(self) -> u8
        ensures { result ≡ code_of self }
    {
        match self {
            Status::Done => 0,
            Status::Ended => 1,
            Status::Usage => 2,
            Status::Refused => 3,
            Status::HostFault => 4,
            Status::NoMemory => 5,
        }
    }
}
