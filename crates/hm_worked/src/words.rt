//! The words of lines, and of answers.

ghost use Rattle.std.specs.Prelude.{IfOk};
ghost use Rattle.hm_mem.specs.Devices.{IsLen};

use anyhow::{Context, Result, bail};
use hm_base::{Place, Stop};
use hm_mem::Access;
use hm_window::Rule;
use std::alloc::AllocError;
use std::fmt;
use std::ops::Range;
use std::str::SplitWhitespace;

/// The next word, a number in hexadecimal.
pub fn read_number(words: &mut SplitWhitespace<'_>) -> Result<u32> {
    let word = words.next().context("a number is wanted")?;
    u32::from_str_radix(word, 16).context("no number")
}

/// The next word, how many bytes an access has.
pub fn length(words: &mut SplitWhitespace<'_>) -> Result<u32>
    ensures { IfOk result IsLen }
{
    match words.next() {
        Some("1") => Ok(1),
        Some("2") => Ok(2),
        Some("4") => Ok(4),
        _ => bail!("no length"),
    }
}

/// The next two words, an address and the one behind the last.
pub fn addresses(words: &mut SplitWhitespace<'_>) -> Result<Range<u32>> {
    Ok(read_number(words)?..read_number(words)?)
}

/// The next word, how an access is aligned.
pub fn alignment(words: &mut SplitWhitespace<'_>) -> Result<Access> {
    match words.next() {
        Some("scalar") => Ok(Access::Scalar),
        Some("strict") => Ok(Access::Strict),
        Some("vector") => Ok(Access::Vector),
        _ => bail!("no alignment"),
    }
}

/// Adds the lines of a text, which has `;` between them.
pub fn add_lines(text: &str, bytes: &mut Vec<u8>) -> Result<(), AllocError> {
    for byte in text.as_bytes() {
        bytes.push(if *byte == b';' { b'\n' } else { *byte })?;
    }
    bytes.push(b'\n')?;
    Ok(())
}

/// A place, by its name.
#[derive(Clone, Copy)]
pub struct Named(pub Place);

impl fmt::Display for Named {
    fn fmt<W: fmt::Write>(&self, f: &mut fmt::Formatter<W>) -> fmt::Result {
        match self.0 {
            Place::R(14) => f.write_str("lr"),
            Place::R(n) => write!(f, "r{n}"),
            Place::QWord(k) => write!(f, "q{}.{}", k / 4, k % 4),
            Place::P0(b) => write!(f, "p0.{b}"),
            Place::Mask01 => f.write_str("mask01"),
            Place::Mask23 => f.write_str("mask23"),
            Place::Carry => f.write_str("carry"),
            Place::Ltp => f.write_str("ltpsize"),
            Place::Sticky => f.write_str("qc"),
        }
    }
}

/// A rule that is broken.
#[derive(Clone, Copy)]
pub struct Broken(pub Rule);

impl fmt::Display for Broken {
    fn fmt<W: fmt::Write>(&self, f: &mut fmt::Formatter<W>) -> fmt::Result {
        match self.0 {
            Rule::Register { place } => write!(f, "register {}", Named(place)),
            Rule::Memory { addr } => write!(f, "memory {addr:08x}"),
            rule => write!(f, "{rule:?}"),
        }
    }
}

/// Why an access or an instruction stops.
#[derive(Clone, Copy)]
pub struct Stopped(pub Stop);

impl fmt::Display for Stopped {
    fn fmt<W: fmt::Write>(&self, f: &mut fmt::Formatter<W>) -> fmt::Result {
        match self.0 {
            Stop::Fault(fault) => write!(f, "{:?} {:08x}", fault.kind, fault.addr),
            Stop::Tainted { addr } => write!(f, "tainted {addr:08x}"),
            Stop::Denied { addr } => write!(f, "denied {addr:08x}"),
        }
    }
}
