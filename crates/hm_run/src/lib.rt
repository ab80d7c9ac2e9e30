//! What a run is, and how it ends: the types that the definitions of the beat machine speak of.
#![tactic(auto)]

use hm_base::{Fault, Stop};
use hm_exc::Broken;
use hm_window::Rule;

/// Why a program halts.
#[derive(Clone, Copy, Debug, PartialEq, Eq)]
pub enum Reason {
    /// A BKPT with this number.
    Break(u8),
    /// The call EXIT of semihosting, with the value of r1.
    Exit(u32),
}

/// Why an instruction is not done to its end.
#[derive(Clone, Copy)]
pub enum Cause {
    /// It halts the program.
    Halt(Reason),
    /// What it writes has no room in the output.
    Full,
    /// It has a fault, reads a tainted byte, or stores where it may not.
    Stop(Stop),
}

/// What a handler did that it may not do.
#[derive(Clone, Copy, Debug)]
pub enum Offence {
    /// Its return differs from its entry.
    Left(Broken),
    /// A store of it, from this address on, has a byte where it may not store, and is not done.
    Store { addr: u32 },
    /// It had a breakpoint, at this address.
    Call { pc: u32 },
}

/// Whose fault it is.
#[derive(Clone, Copy, Debug, PartialEq, Eq)]
pub enum Who {
    /// An instruction of the thread.
    Thread,
    /// An instruction of a handler.
    Handler,
    /// The entry of an exception.
    Entry,
}

/// How a run ends. n is how many instructions of the thread were retired; ticks and steps are numbered from 1.
#[derive(Clone, Copy, Debug)]
pub enum Outcome {
    /// The thread halted.
    Halted {
        reason: Reason,
        n: u64,
    },
    /// An instruction has a fault, or the entry of an exception has one.
    Fault {
        who: Who,
        fault: Fault,
        pc: u32,
        n: u64,
    },
    /// A step of the younger instruction, or the position at a tick's end, breaks a rule of overlap.
    RuleBroken {
        tick: u32,
        step: u32,
        rule: Rule,
    },
    /// A handler did what it may not do.
    HandlerBroken {
        tick: u32,
        what: Offence,
    },
    /// The thread's instruction at `pc` reads, from `addr` on, a byte that an entry or a handler wrote last.
    TaintedRead {
        tick: u32,
        pc: u32,
        addr: u32,
    },
    /// The frame of an entry has no room below the stack pointer `sp`.
    StackSpent {
        tick: u32,
        sp: u32,
    },
    /// What the program writes has no room in the output.
    OutputFull {
        tick: u32,
    },
    /// The last tick ended without another outcome, or there are no ticks, or no more are given.
    OutOfTicks,
}

/// What a tick came to.
#[derive(Clone, Copy, Debug)]
pub enum Turn {
    /// The run goes on.
    Running,
    /// The run has ended, in this tick or before it.
    Ended(Outcome),
}
