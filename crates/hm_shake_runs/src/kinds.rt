//! Kinds of outcomes: what is told of an outcome but for when and where.

ghost use Rattle.std.specs.Prelude.{◌≡◌};
ghost use Rattle.hm_shake_runs.specs.Kinds.{kind_of, left_kind, offence_kind};

use hm_base::FaultKind;
use hm_exc::{Broken, Slot};
use hm_run::{Offence, Outcome, Reason, Who};

/// What kind of outcome a run came to: the outcome, but for its tick, its addresses and its values.
#[derive(Clone, Copy, PartialEq, Eq)]
pub enum Kind {
    /// It halted, after so many instructions of the thread.
    Halted { reason: Reason, n: u64 },
    /// A fault.
    Fault { who: Who, kind: FaultKind },
    /// A rule of overlap was broken.
    Rule,
    /// A handler returned with another value in a register.
    Register { name: Slot },
    /// A handler changed its frame.
    Frame,
    /// A handler returned to another value than it was given.
    Return,
    /// A handler stored where it may not.
    Store,
    /// A handler called the host.
    Call,
    /// The thread read what an entry or a handler wrote.
    Tainted,
    /// A frame did not fit on its stack.
    Stack,
    /// The output was full.
    Output,
    /// The ticks were out.
    Ticks,
}

/// The kind of how a return differs from its entry.
fn left_kind(broken: Broken) -> Kind
    ensures value { result ≡ left_kind broken }
{
    match broken {
        Broken::ExcReturn { .. } => Kind::Return,
        Broken::Register { name, .. } => Kind::Register { name },
        Broken::Frame { .. } => Kind::Frame,
    }
}

/// The kind of what a handler did that it may not do.
fn offence_kind(what: Offence) -> Kind
    ensures value { result ≡ offence_kind what }
{
    match what {
        Offence::Left(broken) => left_kind(broken),
        Offence::Store { .. } => Kind::Store,
        Offence::Call { .. } => Kind::Call,
    }
}

/// The kind of an outcome.
pub fn kind_of(outcome: Outcome) -> Kind
    ensures value { result ≡ kind_of outcome }
{
    match outcome {
        Outcome::Halted { reason, n } => Kind::Halted { reason, n },
        Outcome::Fault { who, fault, .. } => Kind::Fault {
            who,
            kind: fault.kind,
        },
        Outcome::RuleBroken { .. } => Kind::Rule,
        Outcome::HandlerBroken { what, .. } => offence_kind(what),
        Outcome::TaintedRead { .. } => Kind::Tainted,
        Outcome::StackSpent { .. } => Kind::Stack,
        Outcome::OutputFull { .. } => Kind::Output,
        Outcome::OutOfTicks => Kind::Ticks,
    }
}

/// How a run ended: its kind of outcome, and the ticks that it began.
#[derive(Clone, Copy)]
pub struct Ended {
    pub kind: Kind,
    pub ticks: u32,
}
