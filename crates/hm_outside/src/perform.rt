//! A test's code, done here.

ghost use Rattle.std.specs.Prelude.{◌≡◌, ◌<◌, IsTrue, not};
ghost use Rattle.hm_thumb.specs.Families.{is_vector_row};

use crate::case::Case;
use crate::touched::add_touch;
use hm_base::Stop;
use hm_beat::BeatWise;
use hm_decode::fetch;
use hm_exec::{Any, any, refuse, step};
use hm_isa::{Below, Flow, Instr, Vector};
use hm_lane::context;
use hm_mem::Mem;
use hm_regs::Regs;
use std::alloc::AllocError;
use std::fmt::{self, Write};

/// How many instructions a test may take that does not tell.
const MOST: u32 = 1000;

/// How a test ends.
#[derive(Clone, Copy)]
pub enum Ending {
    Done,
    Stopped(Stop),
    /// It was this breakpoint.
    Break(u8),
    /// It was a return from a handler to this value.
    Return(u32),
    TooLong,
    /// A beat did otherwise than its check said.
    Unforeseen,
}

/// Writes a name and the word that belongs to it.
fn write_word<W: fmt::Write>(f: &mut fmt::Formatter<W>, name: &str, word: u32) -> fmt::Result {
    write!(f, "{name} {word:08x}")
}

/// Writes why a test stops.
fn write_stop<W: fmt::Write>(f: &mut fmt::Formatter<W>, stop: Stop) -> fmt::Result {
    match stop {
        Stop::Fault(fault) => write!(f, "fault {:?} {:08x}", fault.kind, fault.addr),
        Stop::Tainted { addr } => write_word(f, "tainted", addr),
        Stop::Denied { addr } => write_word(f, "denied", addr),
    }
}

impl fmt::Display for Ending {
    fn fmt<W: fmt::Write>(&self, f: &mut fmt::Formatter<W>) -> fmt::Result {
        match self {
            Ending::Done => f.write_str("done"),
            Ending::Stopped(stop) => write_stop(f, *stop),
            Ending::Break(k) => write!(f, "breakpoint {k:02x}"),
            Ending::Return(value) => write_word(f, "return", *value),
            Ending::TooLong => f.write_str("too long"),
            Ending::Unforeseen => f.write_str("unforeseen"),
        }
    }
}

/// Does a vector instruction by the beats of a test.
fn vector_step(v: &Vector, case: &Case, regs: &mut Regs, mem: &mut Mem) -> Result<(), Ending> {
    context(regs);
    if let Some(fault) = refuse(v, regs) {
        return Err(Ending::Stopped(Stop::Fault(fault)));
    }
    let row = any(v);
    for b in case.first_beat.get() as u8..case.past_beat.get() as u8 {
        let foreseen = row.check(b, regs, mem);
        let done = row.beat(b, regs, mem);
        if done != foreseen {
            return Err(Ending::Unforeseen);
        }
        if let Err(stop) = done {
            return Err(Ending::Stopped(stop));
        }
    }
    regs.pc = regs.pc.wrapping_add(4);
    Ok(())
}

/// Does an instruction that is no vector row.
fn other_step(i: &Instr, regs: &mut Regs, mem: &mut Mem) -> Result<(), Ending>
    requires { IsTrue (not (is_vector_row i.now)) }
{
    match step(i, regs, mem) {
        Ok(Flow::Next) => Ok(()),
        Ok(Flow::Break { k }) => Err(Ending::Break(k)),
        Ok(Flow::Return { value }) => Err(Ending::Return(value)),
        Err(stop) => Err(Ending::Stopped(stop)),
    }
}

/// Does the instruction at the program counter.
fn next_step(case: &Case, regs: &mut Regs, mem: &mut Mem) -> Result<(), Ending> {
    let i = match fetch(mem, regs.pc) {
        Ok(i) => i,
        Err(fault) => return Err(Ending::Stopped(Stop::Fault(fault))),
    };
    match &i {
        Instr::Scalar(_) | Instr::Branch(_) => other_step(&i, regs, mem),
        Instr::Vector(v) => vector_step(v, case, regs, mem),
    }
}

/// Does so many instructions.
fn count_down(count: u32, case: &Case, regs: &mut Regs, mem: &mut Mem) -> Result<(), Ending> {
    for _ in 0..count {
        next_step(case, regs, mem)?;
    }
    Ok(())
}

/// Does the code of a test, until the program counter stands behind it.
fn go_behind(case: &Case, regs: &mut Regs, mem: &mut Mem) -> Result<(), Ending> {
    for _ in 0..MOST {
        if regs.pc == case.behind {
            return Ok(());
        }
        next_step(case, regs, mem)?;
    }
    Err(Ending::TooLong)
}

/// Does the code of a test.
pub fn perform(case: &Case, regs: &mut Regs, mem: &mut Mem) -> Ending {
    let ended = match case.steps {
        Some(count) => count_down(count, case, regs, mem),
        None => go_behind(case, regs, mem),
    };
    match ended {
        Ok(()) => Ending::Done,
        Err(ending) => ending,
    }
}

/// The line of the family of a vector instruction.
fn family_line(row: &Any) -> &'static str {
    match row {
        Any::Arith(_) => "family Arith",
        Any::Wide(_) => "family Wide",
        Any::Reduce(_) => "family Reduce",
        Any::Perm(_) => "family Perm",
        Any::Compare(_) => "family Compare",
        Any::Straight(_) => "family Straight",
        Any::Gather(_) => "family Gather",
        Any::Inter(_) => "family Inter",
    }
}

/// Adds what a beat of a vector instruction touches, and the family, a line each.
fn add_vector(v: &Vector, b: Below<4>, regs: &Regs, lines: &mut String) -> Result<(), AllocError>
    requires { IsTrue regs.now.fpca }
{
    let row = any(v);
    add_touch(&row.touch(b.get() as u8, regs), lines)?;
    writeln!(lines, "{}", family_line(&row))
}

/// Adds the lines of what the first beat of a test touches: none if there is no context, or no vector instruction.
pub fn add_first_touch(
    case: &Case,
    mem: &Mem,
    regs: &Regs,
    lines: &mut String,
) -> Result<(), AllocError> {
    let i = match fetch(mem, regs.pc) {
        Ok(i) => i,
        Err(_) => return Ok(()),
    };
    match &i {
        Instr::Vector(v) if regs.fpca => add_vector(v, case.first_beat, regs, lines),
        _ => Ok(()),
    }
}
