//! What a vector instruction answers, by its text.

ghost use Rattle.std.specs.Prelude.{◌<◌, IfOk, IsTrue};

use crate::words::{Broken, Named, Stopped, read_number};
use anyhow::{Context, Result, bail, ensure};
use hm_base::{Places, Stop};
use hm_beat::{BeatWise, Touch};
use hm_exec::{Any, any, refuse};
use hm_isa::{Instr, Vector};
use hm_mem::Mem;
use hm_regs::Regs;
use hm_text::{Labels, parse_instr};
use hm_window::{Window, lawful};
use std::alloc::{AllocError, Global};
use std::fmt::Write;
use std::str::SplitWhitespace;

/// An instruction that is a vector one.
fn vector_of(i: Instr) -> Option<Vector> {
    match i {
        Instr::Vector(vector) => Some(vector),
        Instr::Scalar(_) | Instr::Branch(_) => None,
    }
}

/// The vector instruction of a text; none where the instruction is no vector one.
fn vector(alloc: Global, text: &str) -> Result<Option<Vector>> {
    match parse_instr(text.as_bytes(), 8, &Labels::new(alloc)) {
        Ok(i) => Ok(vector_of(i)),
        Err(e) => bail!("{text}: {e:?}"),
    }
}

/// The vector instruction of a text, to be done by beats; none where the instruction is no vector one.
fn row(alloc: Global, text: &str) -> Result<Option<Any>> {
    match vector(alloc, text)? {
        Some(vector) => Ok(Some(any(&vector))),
        None => Ok(None),
    }
}

/// The registers of a thread that has a context, all else as after a reset, at 8.
fn with_context() -> Regs
    ensures { IsTrue result.fpca }
{
    let mut regs = Regs::start(0, 8);
    regs.fpca = true;
    regs
}

/// Adds the names of places.
fn add_places(text: &mut String, places: &Places) -> Result<(), AllocError> {
    for k in 0..places.len() {
        write!(text, " {}", Named(places.at(k)))?;
    }
    Ok(())
}

/// The names of the places that a beat reads and writes.
fn touch_text(alloc: Global, touch: &Touch) -> Result<String, AllocError> {
    let mut text = String::from_str(alloc, "reads")?;
    add_places(&mut text, &touch.reads)?;
    text.push_str(" writes")?;
    add_places(&mut text, &touch.writes)?;
    Ok(text)
}

/// The next word, a beat.
fn read_beat(words: &mut SplitWhitespace<'_>) -> Result<u8>
    ensures below { IfOk result (λ beat. beat < 4) }
{
    let beat = read_number(words)?;
    ensure!(beat < 4, "no beat");
    Ok(beat as u8)
}

/// The registers with these VPR and FPSCR.
fn read_status(words: &mut SplitWhitespace<'_>) -> Result<Regs>
    ensures context { IfOk result (λ regs. IsTrue regs.fpca) }
{
    let mut regs = with_context();
    regs.vpr = read_number(words)?;
    regs.fpscr = read_number(words)?;
    Ok(regs)
}

/// The places that a beat of an instruction reads and writes: VPR, FPSCR and beat.
pub fn touched(alloc: Global, text: &str, words: &mut SplitWhitespace<'_>) -> Result<String> {
    let row = row(alloc, text)?.context("no vector instruction")?;
    let regs = read_status(words)?;
    let beat = read_beat(words)?;
    Ok(touch_text(alloc, &row.touch(beat, &regs))?)
}

/// How many beats are done of two instructions.
fn position(words: &mut SplitWhitespace<'_>) -> Result<Window>
    ensures below { IfOk result (λ at. at.a < 4) }
{
    let a = read_number(words)?;
    let b = read_number(words)?;
    ensure!(a < 4 && b < 4, "no position");
    Ok(Window {
        a: a as u8,
        b: b as u8,
    })
}

/// The registers with these r0 and r1.
fn read_bases(words: &mut SplitWhitespace<'_>) -> Result<Regs>
    ensures context { IfOk result (λ regs. IsTrue regs.fpca) }
{
    let mut regs = with_context();
    regs.r[0] = read_number(words)?;
    regs.r[1] = read_number(words)?;
    Ok(regs)
}

/// Whether the next beat of the younger of two instructions may be done, or which rule it breaks.
fn overlap_text(
    alloc: Global,
    at: Window,
    older: Option<&Any>,
    younger: Option<&Any>,
    regs: &Regs,
    mem: &Mem,
) -> Result<String, AllocError>
    requires position { at.a < 4 }
    requires context { IsTrue regs.now.fpca }
{
    match lawful(at, older, younger, regs, mem) {
        Ok(()) => String::from_str(alloc, "lawful"),
        Err(rule) => Broken(rule).to_string(alloc),
    }
}

/// Whether the next beat of the younger of two instructions, with `|` between them, may be done: the beats done of each, r0 and r1.
pub fn overlapped(
    alloc: Global,
    texts: &str,
    words: &mut SplitWhitespace<'_>,
    mem: &Mem,
) -> Result<String> {
    let at = position(words)?;
    let regs = read_bases(words)?;
    let (older, younger) = texts.split_once(" | ").context("no two instructions")?;
    let older = row(alloc, older)?;
    let younger = row(alloc, younger)?;
    Ok(overlap_text(alloc, at, older.as_ref(), younger.as_ref(), &regs, mem)?)
}

/// Whether an instruction is refused before its first beat: FPSCR and lr.
pub fn refused(alloc: Global, text: &str, words: &mut SplitWhitespace<'_>) -> Result<String> {
    let vector = vector(alloc, text)?.context("no vector instruction")?;
    let mut regs = with_context();
    regs.fpscr = read_number(words)?;
    regs.lr = read_number(words)?;
    match refuse(&vector, &regs) {
        Some(fault) => Ok(Stopped(Stop::Fault(fault)).to_string(alloc)?),
        None => Ok(String::from_str(alloc, "none")?),
    }
}
