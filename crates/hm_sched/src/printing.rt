//! Printing the file of a schedule.

ghost use Rattle.std.specs.Prelude.{◌≡◌, ◌/◌, ◌%◌, ◌^◌, ◌<◌, ◌++◌, ◌↔◌, map, ◌==◌, IsTrue, IfOk};
ghost use Rattle.std.specs.List.{All, flat_map};
ghost use Rattle.hm_text_base.specs.Spans.{line};
ghost use Rattle.hm_text_base.specs.Texts.{hex8};
ghost use Rattle.hm_sched.specs.Words.{number_of};
ghost use Rattle.hm_sched.specs.Schedule.{line_of};
ghost use Rattle.hm_sched.specs.Written.{ticks_text, irq_text, header_text, entries_text, region_text, process_lines, head_lines, IsFile};
ghost use Rattle.hm_sched.specs.Printed.{ones_from, printed, tick_text, file_text};

use crate::{Line, Schedule};
use hm_base::OutOfMemory;
use hm_text_base::{decimal, hex8, text};
use std::alloc::Global;

/// Whether the interrupt of this number is among those of the words: bit n % 32 of word n / 32 stands for interrupt n.
pub fn has_irq(irq: &[u32; 8], n: u32) -> bool
    requires there { n < 256 }
    ensures value { result ≡ (number_of irq.now / 2 ^ n % 2 == 1) }
{
    (irq[n as usize / 32] >> (n % 32)) % 2 == 1
}

/// Whether no word has a bit.
fn is_empty(irq: &[u32; 8]) -> bool
    ensures value { IsTrue result ↔ All (λ word. word ≡ 0) irq.now }
{
    irq.iter().all(|word| *word == 0)
}

/// Adds the interrupts, where there are some.
fn add_irq(alloc: Global, out: &mut Vec<u8>, irq: &[u32; 8]) -> Result<(), OutOfMemory>
    ensures { IfOk result (λ _. out.new.items ≡ out.old.items ++ irq_text (ones_from 256 0 (number_of irq.now))) }
{
    if is_empty(irq) {
        return Ok(());
    }
    text(out, b" irq")?;
    for n in 0..256u32 {
        if has_irq(irq, n) {
            text(out, b" ")?;
            decimal(alloc, out, n as u64)?;
        }
    }
    Ok(())
}

/// Adds what each tick of a line does: its letters, or `-` where there is none, and its interrupts.
pub fn print_tick(alloc: Global, out: &mut Vec<u8>, ticks: &Line) -> Result<(), OutOfMemory>
    ensures added { IfOk result (λ _. out.new.items ≡ out.old.items ++ tick_text (line_of ticks.now)) }
{
    if ticks.letters.is_empty() {
        text(out, b"-")?;
    } else {
        text(out, ticks.letters.as_slice())?;
    }
    add_irq(alloc, out, &ticks.irq)
}

/// Adds a line of ticks.
fn add_line(alloc: Global, out: &mut Vec<u8>, ticks: &Line) -> Result<(), OutOfMemory>
    ensures { IfOk result (λ _. out.new.items ≡ out.old.items ++ line (ticks_text (printed (line_of ticks.now)))) }
{
    if ticks.count != 1 {
        decimal(alloc, out, ticks.count as u64)?;
        text(out, b"*")?;
    }
    print_tick(alloc, out, ticks)?;
    text(out, b"\n")
}

/// Adds the lines of ticks.
fn add_lines(alloc: Global, out: &mut Vec<u8>, lines: &[Line]) -> Result<(), OutOfMemory>
    ensures { IfOk result (λ _. out.new.items ≡ out.old.items ++ flat_map line (map (λ t. ticks_text (printed t)) (map line_of lines.now))) }
{
    for ticks in lines {
        add_line(alloc, out, ticks)?;
    }
    Ok(())
}

/// Adds the line that names the format.
fn add_header(out: &mut Vec<u8>, format: u32) -> Result<(), OutOfMemory>
    ensures { IfOk result (λ _. out.new.items ≡ out.old.items ++ line (header_text format)) }
{
    text(
        out,
        if format == 1 {
            b"helium-schedule 1\n"
        } else {
            b"helium-schedule 2\n"
        },
    )
}

/// Adds the line that says whether exceptions are entered.
fn add_entries(out: &mut Vec<u8>, entries: bool) -> Result<(), OutOfMemory>
    ensures { IfOk result (λ _. out.new.items ≡ out.old.items ++ line (entries_text entries)) }
{
    text(
        out,
        if entries {
            b"entries yes\n"
        } else {
            b"entries no\n"
        },
    )
}

/// Adds the line of the region.
fn add_region(out: &mut Vec<u8>, lo: u32, hi: u32) -> Result<(), OutOfMemory>
    ensures { IfOk result (λ _. out.new.items ≡ out.old.items ++ line (region_text lo hi)) }
{
    text(out, b"region ")?;
    hex8(out, lo)?;
    text(out, b" ")?;
    hex8(out, hi)?;
    text(out, b"\n")
}

/// Adds a line of a word and an address.
fn add_address(out: &mut Vec<u8>, word: &[u8], address: u32) -> Result<(), OutOfMemory>
    ensures { IfOk result (λ _. out.new.items ≡ out.old.items ++ line (word.now ++ hex8 address)) }
{
    text(out, word)?;
    hex8(out, address)?;
    text(out, b"\n")
}

/// Adds the line of the process stack's floor, which format 1 lacks.
fn add_process(out: &mut Vec<u8>, format: u32, process: u32) -> Result<(), OutOfMemory>
    ensures { IfOk result (λ _. out.new.items ≡ out.old.items ++ flat_map line (process_lines format process)) }
{
    if format == 1 {
        return Ok(());
    }
    add_address(out, b"process ", process)
}

/// Adds the lines that say what the schedule has beside its ticks.
fn add_head(out: &mut Vec<u8>, s: &Schedule) -> Result<(), OutOfMemory>
    ensures { IfOk result (λ _. out.new.items ≡ out.old.items ++ flat_map line (head_lines s.now)) }
{
    add_header(out, s.format)?;
    add_entries(out, s.entries)?;
    add_region(out, s.lo, s.hi)?;
    add_address(out, b"floor ", s.floor)?;
    add_process(out, s.format, s.process)
}

/// The file of a schedule. A count of 1 is left out.
pub fn print(alloc: Global, s: &Schedule) -> Result<Vec<u8>, OutOfMemory>
    ensures text { IfOk result (λ bytes. bytes.items ≡ file_text s.now) }
    // So it is read back.
    ensures file { IfOk result (λ bytes. IsFile bytes.items s.now) }
{
    let mut out = Vec::new(alloc);
    add_head(&mut out, s)?;
    add_lines(alloc, &mut out, &s.lines)?;
    Ok(out)
}
