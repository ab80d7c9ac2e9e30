//! A tick as a line of text.

ghost use Rattle.std.specs.Prelude.{◌≡◌, ◌++◌, IfOk};
ghost use Rattle.std.specs.List.{flat_map};
ghost use Rattle.hm_codes.specs.Listing.{IsListing, Listing};
ghost use Rattle.hm_machine.specs.Shown.{timed_of};
ghost use Rattle.hm_mem.specs.Memory.{flash_at};
ghost use Rattle.hm_trace.specs.Changes.{changes};
ghost use Rattle.hm_trace.specs.Lines.{beat_mark, beats_text, changes_part, end_part, head_part, mark_text, pc_part, progress_part, retired_part, steps_part};
ghost use Rattle.hm_trace.specs.Lines.{tick_line, where_part};
ghost use Rattle.hm_trace.specs.Stands.{past_of};

use crate::changes::add_changes;
use crate::instrs::add_instr;
use crate::marks::Mark;
use crate::modes::add_mode;
use crate::progress::{Progress, progresses};
use crate::stands::{Before, pc_of};
use hm_base::OutOfMemory;
use hm_machine::{Machine, Outcome};
use hm_regs::Regs;
use hm_report_lines::outcome_line;
use hm_sched::print_tick;
use hm_text_base::{decimal, hex8, separator, text};
use std::alloc::Global;

/// Adds what entered or returned, with the number of the exception that entered.
fn add_mark(alloc: Global, out: &mut Vec<u8>, mark: Mark, number: u16) -> Result<(), OutOfMemory>
    ensures added { IfOk result (λ _. out.new.items ≡ out.old.items ++ mark_text mark number) }
{
    match mark {
        Mark::Nothing => Ok(()),
        Mark::Entry => {
            text(out, b" entry ")?;
            decimal(alloc, out, u64::from(number))
        }
        Mark::Return => text(out, b" return"),
        Mark::Both => {
            text(out, b" return entry ")?;
            decimal(alloc, out, u64::from(number))
        }
    }
}

/// Adds the tick, its letters and interrupts, and what entered or returned.
fn add_tick_part(
    alloc: Global,
    out: &mut Vec<u8>,
    before: &Before,
    mark: Mark,
    machine: &Machine,
) -> Result<(), OutOfMemory>
    ensures added { IfOk result (λ _. out.new.items ≡ out.old.items ++ steps_part (past_of before.now) mark (timed_of machine.now)) }
{
    text(out, b"tick ")?;
    decimal(alloc, out, u64::from(machine.ticks()))?;
    separator(out)?;
    print_tick(alloc, out, &before.line)?;
    add_mark(alloc, out, mark, machine.regs().ipsr)
}

/// Adds pc.
fn add_pc(out: &mut Vec<u8>, machine: &Machine) -> Result<(), OutOfMemory>
    ensures added { IfOk result (λ _. out.new.items ≡ out.old.items ++ pc_part (timed_of machine.now)) }
{
    text(out, b" pc ")?;
    hex8(out, pc_of(machine))
}

/// Adds how many instructions are retired.
#[tactic(auto, unfolding(crate::specs::Lines::retired_part))]
fn add_retired(alloc: Global, out: &mut Vec<u8>, machine: &Machine) -> Result<(), OutOfMemory>
    ensures added { IfOk result (λ _. out.new.items ≡ out.old.items ++ retired_part (timed_of machine.now)) }
{
    text(out, b" retired ")?;
    decimal(alloc, out, machine.retired())
}

/// Adds where the run stands after the tick: who runs, pc, and how many instructions are retired.
#[tactic(auto, unfolding(crate::specs::Lines::where_part))]
fn add_where(alloc: Global, out: &mut Vec<u8>, machine: &Machine) -> Result<(), OutOfMemory>
    ensures added { IfOk result (λ _. out.new.items ≡ out.old.items ++ where_part (timed_of machine.now)) }
{
    separator(out)?;
    add_mode(alloc, out, machine)?;
    add_pc(out, machine)?;
    add_retired(alloc, out, machine)
}

/// Adds what the line of a tick begins with.
fn add_head(
    alloc: Global,
    out: &mut Vec<u8>,
    before: &Before,
    mark: Mark,
    machine: &Machine,
) -> Result<(), OutOfMemory>
    ensures added { IfOk result (λ _. out.new.items ≡ out.old.items ++ head_part (past_of before.now) mark (timed_of machine.now)) }
{
    add_tick_part(alloc, out, before, mark, machine)?;
    add_where(alloc, out, machine)
}

/// Adds whether beat k is one of those that are done.
fn add_beat(out: &mut Vec<u8>, done: u8, k: u8) -> Result<(), OutOfMemory>
    ensures added { IfOk result (λ _. out.new.items ≡ out.old.items ++ beat_mark done k) }
{
    if k < done {
        text(out, b"#")
    } else {
        text(out, b".")
    }
}

/// Adds the four beats of an instruction.
#[tactic(auto, unfolding(crate::specs::Lines::beats_text))]
fn add_beats(out: &mut Vec<u8>, done: u8) -> Result<(), OutOfMemory>
    ensures added { IfOk result (λ _. out.new.items ≡ out.old.items ++ beats_text done) }
{
    text(out, b"[")?;
    add_beat(out, done, 0)?;
    add_beat(out, done, 1)?;
    add_beat(out, done, 2)?;
    add_beat(out, done, 3)?;
    text(out, b"]")
}

/// Adds an instruction: its beats that are done, its address and its text.
fn add_progress(out: &mut Vec<u8>, machine: &Machine, progress: Progress) -> Result<(), OutOfMemory>
    ensures added { (listing : Listing) → IsListing (flash_at machine.now.memory) listing
        → IfOk result (λ _. out.new.items ≡ out.old.items ++ progress_part listing progress) }
{
    text(out, b" | ")?;
    add_beats(out, progress.after)?;
    separator(out)?;
    add_instr(out, machine, progress.addr)
}

/// Adds instructions.
fn add_progresses(
    out: &mut Vec<u8>,
    machine: &Machine,
    shown: &[Progress],
) -> Result<(), OutOfMemory>
    ensures added { (listing : Listing) → IsListing (flash_at machine.now.memory) listing
        → IfOk result (λ _. out.new.items ≡ out.old.items ++ flat_map (progress_part listing) shown.now) }
{
    for progress in shown {
        add_progress(out, machine, *progress)?;
    }
    Ok(())
}

/// Adds what changed, where something did.
fn add_changes_part(
    alloc: Global,
    out: &mut Vec<u8>,
    before: &Regs,
    after: &Regs,
) -> Result<(), OutOfMemory>
    ensures added { IfOk result (λ _. out.new.items ≡ out.old.items ++ changes_part (changes before.now after.now)) }
{
    let mut changed = Vec::new(alloc);
    add_changes(alloc, &mut changed, before, after)?;
    if changed.is_empty() {
        return Ok(());
    }
    text(out, b" |")?;
    text(out, &changed)
}

/// Adds how the run ended, where it did, and the end of the line.
fn add_end(alloc: Global, out: &mut Vec<u8>, outcome: Option<Outcome>) -> Result<(), OutOfMemory>
    ensures added { IfOk result (λ _. out.new.items ≡ out.old.items ++ end_part outcome) }
{
    if outcome.is_none() {
        return text(out, b"\n");
    }
    // the line of an outcome ends as the line of a tick does
    let line = outcome_line(alloc, outcome)?;
    text(out, b" | ")?;
    text(out, &line)
}

/// Adds the line of a tick, of which this is what was before it, what entered or returned, and where the machine stands after it.
#[tactic(auto, unfolding(crate::specs::Lines::tick_line))]
pub fn add_line(
    alloc: Global,
    out: &mut Vec<u8>,
    before: &Before,
    mark: Mark,
    machine: &Machine,
) -> Result<(), OutOfMemory>
    ensures added { (listing : Listing) → IsListing (flash_at machine.now.memory) listing
        → IfOk result (λ _. out.new.items ≡ out.old.items ++ tick_line listing (past_of before.now) mark (timed_of machine.now)) }
{
    let shown = progresses(before, mark, machine);
    add_head(alloc, out, before, mark, machine)?;
    add_progresses(out, machine, shown.as_slice())?;
    add_changes_part(alloc, out, &before.regs, machine.regs())?;
    add_end(alloc, out, machine.outcome())
}
