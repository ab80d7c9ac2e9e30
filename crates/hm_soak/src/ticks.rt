//! The schedules of a soak: the one of pairs that overlap and are interrupted, and the one of instructions in order.

ghost use Rattle.std.specs.Prelude.{◌≡◌, ◌+◌, ◌<◌, ◌≤◌, [], ◌∷◌, length, IfOk};
ghost use Rattle.std.specs.List.{All};
ghost use Rattle.hm_sched.specs.Schedule.{IsLetter, TickLine, low_irq, most_ticks, plain_line, total};
ghost use Rattle.hm_soak.specs.Lines.{with_lines};
ghost use Rattle.hm_soak_laws.specs.Schedule.{both, in_order_schedule, pair_lines, pairs, schedule, twice};

use crate::code::OPERATIONS;
use hm_base::{OutOfMemory, SRAM_START};
use hm_sched::{SchedErr, Schedule, plain};
use std::alloc::Global;

/// The lowest address to which the handler may store.
const FLOOR: u32 = 0x2000_f000;

/// How many instructions come before the handler's: the head, those that fill four registers, the operations, the breakpoint.
const LENGTH: u32 = 4 + 3 * 4 + OPERATIONS + 1;

/// Adds a line that there is room for: ticks in which these of interrupts 0 to 31 arrive.
fn add(lines: &mut Schedule, count: u32, letters: &[u8], irq: u32) -> Result<(), OutOfMemory>
    requires some { 1 ≤ count }
    requires few { length letters.now ≤ 8 }
    requires each_letter { All IsLetter letters.now }
    requires room { total lines.old.lines + count ≤ most_ticks }
    ensures added { let line : TickLine = record { count = count; letters = letters.now; irq = low_irq irq } in
        IfOk result (λ _. lines.new ≡ with_lines (line ∷ []) lines.old) }
{
    match lines.add(count, letters, &[irq, 0, 0, 0, 0, 0, 0, 0]) {
        Ok(()) => Ok(()),
        Err(SchedErr::OutOfMemory) => Err(OutOfMemory),
        Err(_) => unreachable!(),
    }
}

/// Adds so many ticks of one whole instruction each.
fn add_wholes(lines: &mut Schedule, count: u32) -> Result<(), OutOfMemory>
    requires some { 1 ≤ count }
    requires room { total lines.old.lines + count ≤ most_ticks }
    ensures added { IfOk result (λ _. lines.new ≡ with_lines (plain_line count ∷ []) lines.old) }
{
    add(lines, count, b"W", 0)
}

/// Adds so many ticks of two steps of the older instruction.
fn add_twice(lines: &mut Schedule, count: u32) -> Result<(), OutOfMemory>
    requires some { 1 ≤ count }
    requires room { total lines.old.lines + count ≤ most_ticks }
    ensures added { IfOk result (λ _. lines.new ≡ with_lines (twice count ∷ []) lines.old) }
{
    add(lines, count, b"OO", 0)
}

/// Adds a tick of a step of the older instruction and one of the younger, in which these of interrupts 0 to 31 arrive.
fn add_both(lines: &mut Schedule, irq: u32) -> Result<(), OutOfMemory>
    requires room { total lines.old.lines + 1 ≤ most_ticks }
    ensures added { IfOk result (λ _. lines.new ≡ with_lines (both irq ∷ []) lines.old) }
{
    add(lines, 1, b"OY", irq)
}

/// Adds the lines of pair p, of which every 64th is interrupted, for the three ticks of the handler.
fn add_pair(lines: &mut Schedule, p: u32) -> Result<(), OutOfMemory>
    requires room { total lines.old.lines + 5 ≤ most_ticks }
    ensures added { IfOk result (λ _. lines.new ≡ with_lines (pair_lines p) lines.old) }
{
    add_twice(lines, 1)?;
    if p % 64 == 0 {
        add_both(lines, 1)?;
        add_wholes(lines, 3)
    } else {
        add_both(lines, 0)
    }
}

/// Adds the lines of the pairs 1 to 4,095.
fn add_pairs(lines: &mut Schedule) -> Result<(), OutOfMemory>
    requires room { total lines.old.lines ≤ 16 }
    ensures added { IfOk result (λ _. lines.new ≡ with_lines (pairs 4095 1) lines.old) }
    ensures few { IfOk result (λ _. total lines.new.lines ≤ 20491) }
{
    for k in 0..OPERATIONS - 1 {
        add_pair(lines, k + 1)?;
    }
    Ok(())
}

/// The schedule of every soak.
pub fn soak_schedule(alloc: Global) -> Result<Schedule, OutOfMemory>
    ensures value { IfOk result (λ s. s ≡ schedule) }
{
    let mut lines = Schedule::begin(alloc, true, SRAM_START, SRAM_START, FLOOR);
    add_wholes(&mut lines, 16)?;
    add_pairs(&mut lines)?;
    add_twice(&mut lines, 2)?;
    add_wholes(&mut lines, 1)?;
    Ok(lines)
}

/// The schedule of the instructions of a soak in order, one a tick.
pub fn plain_schedule(alloc: Global) -> Result<Schedule, OutOfMemory>
    ensures value { IfOk result (λ s. s ≡ in_order_schedule) }
{
    match plain(alloc, LENGTH) {
        Ok(schedule) => Ok(schedule),
        Err(SchedErr::OutOfMemory) => Err(OutOfMemory),
        Err(_) => unreachable!(),
    }
}
