//! Machines, from their sources and schedules to what they show.

use crate::words::addresses;
use anyhow::{Context, Result, bail, ensure};
use hm_asm::assemble;
use hm_base::Image;
use hm_machine::Machine;
use hm_sched::{Schedule, parse, print};
use std::alloc::Global;
use std::fmt::Write;
use std::str::SplitWhitespace;

/// The most bytes that a source may have.
const LONGEST: usize = 16_777_216;

/// The image of a source.
pub fn image_of(alloc: Global, source: &[u8]) -> Result<Image> {
    ensure!(source.len() <= LONGEST, "the source is too long");
    match assemble(alloc, source) {
        Ok(image) => Ok(image),
        Err(e) => bail!("{e}: {e:?}"),
    }
}

/// The machine at the start of a run.
pub fn started(alloc: Global, source: &[u8], schedule: &[u8]) -> Result<Machine> {
    let image = image_of(alloc, source)?;
    Ok(Machine::load(alloc, &image, parse(alloc, schedule)?)?)
}

/// Whether a line is one of a report's.
pub fn has_line(report: &[u8], line: &str) -> bool {
    report
        .split(|byte| *byte == b'\n')
        .any(|piece| piece == line.as_bytes())
}

/// The bytes from one address up to another, in hexadecimal, and `--` where none is.
pub fn bytes_text(
    alloc: Global,
    words: &mut SplitWhitespace<'_>,
    machine: &Machine,
) -> Result<String> {
    let mut text = String::new(alloc);
    for addr in addresses(words)? {
        match machine.byte(addr) {
            Some(byte) => write!(text, "{byte:02x}")?,
            None => text.push_str("--")?,
        }
    }
    Ok(text)
}

/// How many bytes are tainted from one address up to another.
pub fn taint_text(
    alloc: Global,
    words: &mut SplitWhitespace<'_>,
    machine: &Machine,
) -> Result<String> {
    let tainted = addresses(words)?.filter(|addr| machine.tainted(*addr));
    Ok(tainted.count().to_string(alloc)?)
}

/// The report, and the first 48 bytes of SRAM.
pub fn shown(alloc: Global, machine: &Machine) -> Result<Vec<u8>> {
    let mut text = machine.report(alloc)?;
    for addr in 0x2000_0000_u32..0x2000_0030 {
        text.push(machine.byte(addr).context("no memory there")?)?;
    }
    Ok(text)
}

/// A schedule as it is printed, with `;` for the ends of its lines, and how many ticks and lines of ticks it has.
fn printed(alloc: Global, schedule: &Schedule) -> Result<String> {
    let mut text = String::new(alloc);
    for byte in print(alloc, schedule)? {
        text.push(if byte == b'\n' { ';' } else { byte as char })?;
    }
    let (ticks, lines) = (schedule.ticks(), schedule.lines());
    write!(text, " ticks {ticks} lines {lines}")?;
    Ok(text)
}

/// A schedule as it is printed, or why it is refused.
pub fn schedule_text(alloc: Global, schedule: &[u8]) -> Result<String> {
    match parse(alloc, schedule) {
        Ok(schedule) => printed(alloc, &schedule),
        Err(e) => Ok(format!(in alloc; "{e:?}")?),
    }
}
