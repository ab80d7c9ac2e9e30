//! Schedules and their files.

use crate::input::text;
use anyhow::{Context, Result, bail, ensure};
use hm_sched::{SchedErr, Schedule, parse, plain, print};
use std::alloc::{AllocError, Global};
use std::fmt::Write;

/// The most lines of a schedule that are shown.
const MOST: usize = 5;

/// Adds the interrupts of a line, as one number.
fn add_irq(out: &mut String, irq: &[u32; 8]) -> Result<(), AllocError> {
    let mut is_first = true;
    for word in irq.iter().rev() {
        if !is_first {
            write!(out, "{word:08x}")?;
        } else if *word != 0 {
            write!(out, "{word:x}")?;
            is_first = false;
        }
    }
    if is_first {
        out.push('0')?;
    }
    Ok(())
}

/// Adds the first lines of a schedule.
fn add_lines(out: &mut String, schedule: &Schedule) -> Result<(), AllocError> {
    for k in 0..schedule.lines() {
        if k < MOST {
            let line = schedule.line(k);
            let letters = line.letters.as_slice().escape_ascii();
            write!(out, ", {}*{letters} irq ", line.count)?;
            add_irq(out, &line.irq)?;
        }
    }
    Ok(())
}

/// What stands before the lines of a schedule, and how many ticks and lines it has, in words.
fn head(alloc: Global, schedule: &Schedule) -> Result<String, AllocError> {
    let (format, entries) = (schedule.format(), schedule.entries());
    let (lo, hi) = schedule.region();
    let (floor, process) = (schedule.floor(), schedule.process());
    let (ticks, lines) = (schedule.ticks(), schedule.lines());
    format!(in alloc;
        "format {format}, entries {entries}, region {lo:x} {hi:x}, floors {floor:x} {process:x}, {ticks} ticks in {lines} lines"
    )
}

/// A schedule in words, up to its first lines.
fn shown(alloc: Global, schedule: &Schedule) -> Result<String, AllocError> {
    let mut out = head(alloc, schedule)?;
    add_lines(&mut out, schedule)?;
    Ok(out)
}

/// A schedule in words, or what its file is refused for.
fn outcome(alloc: Global, read: Result<Schedule, SchedErr>) -> Result<String, AllocError> {
    match read {
        Ok(schedule) => shown(alloc, &schedule),
        Err(e) => format!(in alloc; "{e:?}"),
    }
}

/// The schedule of a file, or what that is refused for.
pub fn read(alloc: Global, file: &[u8]) -> Result<String> {
    Ok(outcome(alloc, parse(alloc, file))?)
}

/// The file of the schedule of a file.
pub fn printed(alloc: Global, file: &[u8]) -> Result<String> {
    let schedule = parse(alloc, file)?;
    let file = print(alloc, &schedule)?;
    Ok(format!(in alloc; "\"{}\"", file.escape_ascii())?)
}

/// The schedule of so many plain ticks.
pub fn plain_ticks(alloc: Global, input: &[u8]) -> Result<String> {
    let count = text(input)?.parse::<u32>().context("no number")?;
    Ok(outcome(alloc, plain(alloc, count))?)
}

/// A line that is to be added: how many ticks, their letters, and those of interrupts 0 to 31 that arrive in each.
fn parts(line: &str) -> Result<(u32, &str, u32)> {
    let (count, rest) = line.split_once('*').context("no count")?;
    let (letters, irq) = rest.split_once('/').context("no interrupts")?;
    let count = count.parse::<u32>().context("no count")?;
    let irq = u32::from_str_radix(irq, 16).context("no interrupts")?;
    Ok((count, letters, irq))
}

/// Adds a line to a schedule.
#[tactic(auto, using(hm_sched::proofs::WordLaws::low_named))]
fn add(schedule: &mut Schedule, line: &str) -> Result<Result<(), SchedErr>> {
    let (count, letters, irq) = parts(line)?;
    let irq = [irq, 0, 0, 0, 0, 0, 0, 0];
    ensure!(count >= 1 && count <= 99_999_999, "no count");
    match letters {
        "" => Ok(schedule.add(count, b"", &irq)),
        "W" => Ok(schedule.add(count, b"W", &irq)),
        "O" => Ok(schedule.add(count, b"O", &irq)),
        "OO" => Ok(schedule.add(count, b"OO", &irq)),
        _ => bail!("no such letters"),
    }
}

/// The schedule of a file with lines that are added, and which of these are refused.
pub fn added(alloc: Global, base: &[u8], input: &[u8]) -> Result<String> {
    let mut schedule = parse(alloc, base)?;
    let mut out = String::new(alloc);
    for line in text(input)?.split(' ') {
        if let Err(e) = add(&mut schedule, line)? {
            write!(out, "{e:?}, ")?;
        }
    }
    out.push_str(&shown(alloc, &schedule)?)?;
    Ok(out)
}
