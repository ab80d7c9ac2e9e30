//! Reading the file of a schedule.

ghost use Rattle.std.specs.Prelude.{◌≡◌, ◌+◌, ◌≤◌, [], length, option_and_then, Ok, IfOk};
ghost use Rattle.hm_text_base.specs.Reading.{Reads};
ghost use Rattle.hm_text_base.specs.Numbers.{hex8_in};
ghost use Rattle.hm_text_base.specs.Spans.{lines_of};
ghost use Rattle.hm_sched.specs.Schedule.{Sched, most_irq, first_line};
ghost use Rattle.hm_sched.specs.Written.{IsFile};
ghost use Rattle.hm_sched.specs.ReadLine.{said, ticks_in};
ghost use Rattle.hm_sched.specs.ReadFile.{line_at, header_in, entries_in, region_in, floor_in, process_in, process_from, on_line, lines_in, with_lines};
ghost use Rattle.hm_sched.specs.ReadFile.{addresses_in, bounded_floor, file_in, Gives};

use crate::errors::{LineKind, SchedErr};
use crate::tick_text::{Ticks, read_ticks};
use crate::{Schedule, first_line, most_irq};
use hm_base::{SRAM_SIZE, SRAM_START};
use hm_text_base::{read_hex8, span};
use std::alloc::Global;

/// The first address past SRAM.
const SRAM_END: u32 = SRAM_START + SRAM_SIZE;

/// The refusal of a line, for what it should be.
fn refused(line: u32, kind: LineKind) -> SchedErr
    ensures { result ≡ SchedErr.Line line kind }
{
    SchedErr::Line { line, kind }
}

/// The next line, which should be of this kind, and what follows it.
#[tactic(auto, using(hm_text_base::proofs::LineLaws::lines_span))]
fn next_line(bytes: &[u8], line: u32, kind: LineKind) -> Result<(&[u8], &[u8]), SchedErr>
    ensures line { Reads (λ x. (x.0.now, lines_of x.1.now)) result (line_at line kind (lines_of bytes.now)) }
    ensures shorter { IfOk result (λ x. length x.1.now + 1 ≤ length bytes.now) }
{
    if bytes.is_empty() {
        return Err(refused(line, kind));
    }
    let (text, from) = span(b'\n', bytes);
    if from.is_empty() {
        return Err(refused(line, LineKind::Newline));
    }
    Ok((text, &from[1..]))
}

/// The format that a first line names.
#[tactic(auto, unfolding(crate::specs::ReadFile::header_in))]
fn read_header(text: &[u8]) -> Option<u32>
    ensures { result ≡ header_in text.now }
{
    if text == b"helium-schedule 1".as_slice() {
        return Some(1);
    }
    if text == b"helium-schedule 2".as_slice() {
        return Some(2);
    }
    None
}

/// Whether exceptions enter.
#[tactic(auto, unfolding(crate::specs::ReadFile::entries_in))]
fn read_entries(text: &[u8]) -> Option<bool>
    ensures { result ≡ entries_in text.now }
{
    if text == b"entries no".as_slice() {
        return Some(false);
    }
    if text == b"entries yes".as_slice() {
        return Some(true);
    }
    None
}

/// The region between two addresses of eight digits, where they are its ends.
fn region_between(low: &[u8], high: &[u8]) -> Option<(u32, u32)>
    ensures { result ≡ addresses_in low.now high.now }
{
    let lo = read_hex8(low)?;
    let hi = read_hex8(high)?;
    if lo < SRAM_START || hi < lo || hi > SRAM_END {
        return None;
    }
    Some((lo, hi))
}

/// The region that a third line says, by its lowest address and the first one past it.
#[tactic(auto, unfolding(crate::specs::ReadFile::region_in))]
fn read_region(text: &[u8]) -> Option<(u32, u32)>
    ensures { result ≡ region_in text.now }
{
    let (low, from) = span(b' ', text.strip_prefix(b"region ")?);
    if from.is_empty() {
        return None;
    }
    region_between(low, &from[1..])
}

/// An address of eight digits, where it may be that of a floor.
fn read_floor_address(digits: &[u8]) -> Option<u32>
    ensures { result ≡ option_and_then bounded_floor (hex8_in digits.now) }
{
    let floor = read_hex8(digits)?;
    if floor < SRAM_START || floor > SRAM_END {
        return None;
    }
    Some(floor)
}

/// The floor of the main stack, which a fourth line says.
#[tactic(auto, unfolding(crate::specs::ReadFile::floor_in))]
fn read_floor(text: &[u8]) -> Option<u32>
    ensures { result ≡ floor_in text.now }
{
    read_floor_address(text.strip_prefix(b"floor ")?)
}

/// The floor of the process stack, which a fifth line says.
#[tactic(auto, unfolding(crate::specs::ReadFile::process_in))]
fn read_process(text: &[u8]) -> Option<u32>
    ensures { result ≡ process_in text.now }
{
    read_floor_address(text.strip_prefix(b"process ")?)
}

/// The floor of the process stack, and what follows its line: in format 1 it has none and is the floor of the main stack.
#[tactic(auto, unfolding(crate::specs::ReadFile::process_from))]
fn process_line(format: u32, floor: u32, bytes: &[u8]) -> Result<(u32, &[u8]), SchedErr>
    ensures { Reads (λ x. (x.0, lines_of x.1.now)) result (process_from format floor (lines_of bytes.now)) }
{
    if format == 1 {
        return Ok((floor, bytes));
    }
    let (fifth, rest) = next_line(bytes, 5, LineKind::Process)?;
    let Some(process) = read_process(fifth) else {
        return Err(refused(5, LineKind::Process));
    };
    Ok((process, rest))
}

/// What a line of ticks says, where interrupts are below `most`, or its refusal.
fn tick_line(most: u32, text: &[u8], line: u32) -> Result<Ticks<'_>, SchedErr>
    requires eight { most ≤ 256 }
    ensures { Reads said result (on_line line (ticks_in most text.now)) }
{
    match read_ticks(most, text) {
        Ok(ticks) => Ok(ticks),
        Err(kind) => Err(refused(line, kind)),
    }
}

/// A schedule that has no lines, with the lines of ticks that the bytes write.
fn with_lines(schedule: Schedule, bytes: &[u8]) -> Result<Schedule, SchedErr>
    requires fresh { schedule.lines ≡ [] }
    ensures { Gives (λ s. s) result
        (with_lines schedule (lines_in (most_irq schedule.format) (first_line schedule.format) 0 (lines_of bytes.now).0 (lines_of bytes.now).1)) }
{
    let mut schedule = schedule;
    let mut rest = bytes;
    let format = schedule.format();
    let most = most_irq(format);
    let mut line = first_line(format);
    while !rest.is_empty() {
        let (text, after) = next_line(rest, line, LineKind::Newline)?;
        let ticks = tick_line(most, text, line)?;
        schedule.add(ticks.count, ticks.letters, &ticks.irq)?;
        line += 1;
        rest = after;
    }
    Ok(schedule)
}

/// The schedule that a file writes: the lines of its head, each of which may be refused, and then its lines of ticks.
#[tactic(auto, unfolding(crate::specs::ReadFile::file_in))]
fn read_file(alloc: Global, bytes: &[u8]) -> Result<Schedule, SchedErr>
    ensures { Gives (λ s. s) result (file_in bytes.now) }
{
    let (first, rest) = next_line(bytes, 1, LineKind::Header)?;
    let Some(format) = read_header(first) else {
        return Err(refused(1, LineKind::Header));
    };
    let (second, rest) = next_line(rest, 2, LineKind::Entries)?;
    let Some(entries) = read_entries(second) else {
        return Err(refused(2, LineKind::Entries));
    };
    let (third, rest) = next_line(rest, 3, LineKind::Region)?;
    let Some((lo, hi)) = read_region(third) else {
        return Err(refused(3, LineKind::Region));
    };
    let (fourth, rest) = next_line(rest, 4, LineKind::Floor)?;
    let Some(floor) = read_floor(fourth) else {
        return Err(refused(4, LineKind::Floor));
    };
    let (process, rest) = process_line(format, floor, rest)?;
    with_lines(
        Schedule::of_format(alloc, format, entries, lo, hi, floor, process),
        rest,
    )
}

/// The schedule that the bytes of a file write, in time that is linear in them.
///
/// Refuses Line, with its number and what is bad in it, at the first line that is bad in itself, and TooManyTicks at
/// the line whose count takes the sum past 16,777,216, whichever comes first; and OutOfMemory.
pub fn parse(alloc: Global, bytes: &[u8]) -> Result<Schedule, SchedErr>
    // What is read is written so.
    ensures found { IfOk result (λ s. IsFile bytes.now s) }
    // What is written so is read, unless memory was wanted.
    ensures only { (s : Sched) → IsFile bytes.now s → Gives (λ s. s) result (Ok s) }
    // Which refusal it is.
    ensures exact { Gives (λ s. s) result (file_in bytes.now) }
{
    read_file(alloc, bytes)
}
