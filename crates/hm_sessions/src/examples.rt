//! Assembles the shipped examples, runs each under its schedule, and prints what they come to, the plan of the instructions that were run, and the
//! rows of a page of two ticks; or shakes them; or runs the code of a soak, so that it can be timed.

use crate::shakes::write_shake;
use crate::soaks::write_soak;
use anyhow::{Context, Result, bail, ensure};
use hm_asm::assemble;
use hm_base::Image;
use hm_machine::Machine;
use hm_plan::plan;
use hm_sched::{parse, print};
use hm_trace::{Form, Ticks, trace};
use std::alloc::Global;
use std::fs;
use std::io::Write;
use std::ops::Range;

/// The most bytes that a source may have.
const LONGEST: usize = 16_777_216;

/// The most instructions that a plan may have.
const MOST: u64 = 262_144;

/// How many lines of a schedule stand before its first ticks.
const HEAD_LINES: usize = 4;

/// How many lines of a report are printed: the outcome, the mode, and r0 to r4.
const LINES: usize = 7;

/// What is printed of SRAM: its first bytes, where a copy goes, and a word in which handlers count.
const COPIED: Range<u32> = 0x2000_0000..0x2000_0018;

const COUNTED: Range<u32> = 0x2000_1000..0x2000_1004;

/// The image of a source.
fn image_of(alloc: Global, source: &[u8]) -> Result<Image> {
    ensure!(source.len() <= LONGEST, "the source is too long");
    match assemble(alloc, source) {
        Ok(image) => Ok(image),
        Err(e) => bail!("{e}: {e:?}"),
    }
}

/// Runs an image to the end under a schedule.
fn run(alloc: Global, image: &Image, schedule: &[u8]) -> Result<Machine> {
    let schedule = parse(alloc, schedule)?;
    let mut machine = Machine::load(alloc, image, schedule)?;
    let _outcome = machine.run();
    Ok(machine)
}

/// The plan of so many instructions of an image, its lines one behind another.
fn plan_text(alloc: Global, image: &Image, instructions: u64) -> Result<String> {
    ensure!(instructions <= MOST, "too many instructions for a plan");
    let planned = plan(alloc, image, instructions as u32)?;
    let file = String::from_utf8(print(alloc, &planned)?)?;
    let mut text = String::from_str(alloc, "plan")?;
    for line in file.lines().skip(HEAD_LINES) {
        text.push(' ')?;
        text.push_str(line)?;
    }
    Ok(text)
}

/// The rows of a page of ticks 8 and 9, one behind another.
fn page_rows(alloc: Global, image: &Image, schedule: &[u8]) -> Result<String> {
    let ticks = Ticks { first: 8, last: 9 };
    let page = trace(alloc, Form::Page, image, parse(alloc, schedule)?, ticks)?;
    let page = String::from_utf8(page)?;
    let mut text = String::new(alloc);
    for row in page.lines().filter(|line| line.starts_with("<tr class=")) {
        text.push_str(row)?;
        text.push('\n')?;
    }
    Ok(text)
}

/// The bytes at addresses, in hexadecimal.
fn memory_text(alloc: Global, machine: &Machine, addresses: Range<u32>) -> Result<String> {
    let mut bytes = Vec::new(alloc);
    for address in addresses {
        bytes.push(machine.byte(address).context("no memory there")?)?;
    }
    Ok(hex::encode(alloc, bytes)?)
}

/// Writes the first lines of a machine's report.
fn write_report<W: Write>(out: &mut W, alloc: Global, machine: &Machine) -> Result<()> {
    let report = String::from_utf8(machine.report(alloc)?)?;
    for line in report.lines().take(LINES) {
        writeln!(out, "{line}")?;
    }
    Ok(())
}

/// Writes an address, and the bytes of a machine from there on.
fn write_memory<W: Write>(
    out: &mut W,
    alloc: Global,
    machine: &Machine,
    addresses: Range<u32>,
) -> Result<()> {
    let start = addresses.start;
    let bytes = memory_text(alloc, machine, addresses)?;
    writeln!(out, "{start:08x} {bytes}")?;
    Ok(())
}

/// Writes the name of an example, and what its machine shows.
fn write_example<W: Write>(
    out: &mut W,
    alloc: Global,
    name: &str,
    machine: &Machine,
) -> Result<()> {
    writeln!(out, "{name}")?;
    write_report(out, alloc, machine)?;
    write_memory(out, alloc, machine, COPIED)?;
    write_memory(out, alloc, machine, COUNTED)
}

/// Writes the plan of so many instructions of an example, and rows of its page.
fn write_texts<W: Write>(
    out: &mut W,
    alloc: Global,
    image: &Image,
    instructions: u64,
    schedule: &[u8],
) -> Result<()> {
    writeln!(out, "{}", plan_text(alloc, image, instructions)?)?;
    write!(out, "{}", page_rows(alloc, image, schedule)?)?;
    Ok(())
}

/// Runs an example, and writes what it comes to, its plan and rows of its page.
fn write_run<W: Write>(
    out: &mut W,
    alloc: Global,
    name: &str,
    image: &Image,
    schedule: &[u8],
) -> Result<()> {
    let machine = run(alloc, image, schedule).context(format_args!("{name}"))?;
    write_example(out, alloc, name, &machine)?;
    write_texts(out, alloc, image, machine.retired(), schedule)
}

/// The name of an example, and of one behind a number and a colon, in how many runs it is shaken.
fn asked(word: &str) -> Result<(&str, Option<u32>)> {
    match word.split_once(':') {
        Some((runs, name)) => Ok((name, Some(runs.parse::<u32>()?))),
        None => Ok((word, None)),
    }
}

/// Runs or shakes the image of a source under a schedule.
fn write_image<W: Write>(
    out: &mut W,
    alloc: Global,
    name: &str,
    runs: Option<u32>,
    source: &[u8],
    schedule: &[u8],
) -> Result<()> {
    let image = image_of(alloc, source).context(format_args!("{name}"))?;
    match runs {
        Some(runs) => write_shake(out, alloc, name, &image, schedule, runs),
        None => write_run(out, alloc, name, &image, schedule),
    }
}

/// Reads the files of an example, and runs or shakes it.
fn write_named_example<W: Write>(
    out: &mut W,
    rt: &HostRuntime,
    name: &str,
    runs: Option<u32>,
) -> Result<()> {
    let alloc = rt.alloc();
    let source = fs::read(rt, &format!(in alloc; "{name}.s")?)?;
    let schedule = fs::read(rt, &format!(in alloc; "{name}.sched")?)?;
    write_image(out, alloc, name, runs, &source, &schedule)
}

/// Takes the example that is named: it is run, and behind a number and a colon it is shaken in so many runs. Behind `soak:` stands which soak is run.
pub fn write_word<W: Write>(out: &mut W, rt: &HostRuntime, word: &str) -> Result<()> {
    if let Some(soak) = word.strip_prefix("soak:") {
        return write_soak(out, rt.alloc(), soak);
    }
    let (name, runs) = asked(word)?;
    write_named_example(out, rt, name, runs)
}
