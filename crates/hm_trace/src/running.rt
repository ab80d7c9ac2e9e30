//! The ticks of a run, each as it is shown.

ghost use Rattle.std.specs.Prelude.{◌≡◌, ℕ, suc, ◌+◌, ◌-◌, ◌≤◌, ◌<◌, ◌%◌, List, ◌++◌, IfOk, IfErr};
ghost use Rattle.hm_base.specs.Image.{Segment, flash_byte};
ghost use Rattle.hm_codes.specs.Listing.{IsListing, Listing};
ghost use Rattle.hm_machine.specs.Shown.{Shows, timed_of};
ghost use Rattle.hm_machine.specs.Calls.{LoadRefuses};
ghost use Rattle.hm_mem.specs.Memory.{flash_at};
ghost use Rattle.hm_sched.specs.Schedule.{Sched, most_ticks};
ghost use Rattle.hm_state.specs.Start.{reset_pc};
ghost use Rattle.hm_trace.specs.Marks.{mark_seen};
ghost use Rattle.hm_trace.specs.Stands.{past_of};
ghost use Rattle.hm_trace.specs.Traces.{end_line, head_in, tail_in, tick_in, ticks_from, trace_text};

use crate::lines::add_line;
use crate::marks::{Mark, mark_of};
use crate::page::{add_page_head, add_page_tail, add_rows};
use crate::stands::{Before, copied_active, kept_before};
use hm_base::{Image, OutOfMemory};
use hm_machine::{LoadErr, Machine};
use hm_sched::Schedule;
use hm_text_base::{decimal, text};
use std::alloc::Global;

/// How a trace is written.
#[derive(Clone, Copy)]
pub enum Form {
    /// As lines of text, one for each tick.
    Lines,
    /// As one page of HTML that needs nothing else.
    Page,
}

/// Ticks of a run, from one to another: the first of a run is tick 1. There are at most 10,000.
#[derive(Clone, Copy)]
pub struct Ticks {
    pub first: u32,
    pub last: u32,
    pub ghost some: { 1 ≤ first },
    pub ghost order: { first ≤ last },
    pub ghost few: { last < first + 10000 },
    pub ghost most: { last ≤ most_ticks },
}

/// Adds a tick in a form.
fn add_tick(
    alloc: Global,
    out: &mut Vec<u8>,
    form: Form,
    before: &Before,
    mark: Mark,
    machine: &Machine,
) -> Result<(), OutOfMemory>
    ensures added { (listing : Listing) → IsListing (flash_at machine.now.memory) listing
        → IfOk result (λ _. out.new.items ≡ out.old.items ++ tick_in form listing (past_of before.now) mark (timed_of machine.now)) }
{
    match form {
        Form::Lines => add_line(alloc, out, before, mark, machine),
        Form::Page => add_rows(alloc, out, before, mark, machine),
    }
}

/// Does a tick. The answer is what entered or returned in it.
fn tick(machine: &mut Machine) -> Mark
    ensures shows { (image : List Segment) (s : Sched) (t : ℕ) → Shows image s t machine.old → Shows image s (suc t) machine.new }
    ensures mark { result ≡ mark_seen machine.old machine.new }
{
    let depth = machine.active().len();
    let entries = machine.entries();
    let _turn = machine.tick();
    mark_of(depth, machine.active().len(), entries < machine.entries())
}

/// Does so many ticks, as far as the run goes, and adds each.
fn add_ticks(
    alloc: Global,
    out: &mut Vec<u8>,
    form: Form,
    machine: &mut Machine,
    count: u32,
) -> Result<(), OutOfMemory>
    ensures shows { (image : List Segment) (s : Sched) (t : ℕ) → Shows image s t machine.old → IfOk result (λ _. Shows image s (t + count) machine.new) }
    ensures added { (image : List Segment) (s : Sched) (t : ℕ) (listing : Listing) → IsListing (flash_byte image) listing → Shows image s t machine.old
        → IfOk result (λ _. out.new.items ≡ out.old.items ++ ticks_from form listing image s t count) }
{
    for _k in 0..count {
        let active = copied_active(alloc, machine)?;
        let Some(before) = kept_before(machine, active) else {
            return Ok(());
        };
        let mark = tick(machine);
        add_tick(alloc, out, form, &before, mark, machine)?;
    }
    Ok(())
}

/// Adds what stands before the ticks.
fn add_head(out: &mut Vec<u8>, form: Form) -> Result<(), OutOfMemory>
    ensures added { IfOk result (λ _. out.new.items ≡ out.old.items ++ head_in form) }
{
    match form {
        Form::Lines => Ok(()),
        Form::Page => add_page_head(out),
    }
}

/// Adds the last tick of a run, where it has ended.
fn add_end_line(alloc: Global, out: &mut Vec<u8>, machine: &Machine) -> Result<(), OutOfMemory>
    ensures added { IfOk result (λ _. out.new.items ≡ out.old.items ++ end_line (timed_of machine.now).outcome (timed_of machine.now).ticks) }
{
    if machine.outcome().is_none() {
        return Ok(());
    }
    text(out, b"end ")?;
    decimal(alloc, out, u64::from(machine.ticks()))?;
    text(out, b"\n")
}

/// Adds what stands behind the ticks.
fn add_tail(
    alloc: Global,
    out: &mut Vec<u8>,
    form: Form,
    machine: &Machine,
) -> Result<(), OutOfMemory>
    ensures added { IfOk result (λ _. out.new.items ≡ out.old.items ++ tail_in form (timed_of machine.now)) }
{
    match form {
        Form::Lines => add_end_line(alloc, out, machine),
        Form::Page => add_page_tail(alloc, out, machine),
    }
}

/// The trace of a run of an image under a schedule, from one tick to another, as far as the run goes (docs/TRACE.md).
///
/// Ticks before the first are done and not shown, so they take no more than a run does, and no memory. It is refused as by `Machine::load`.
pub fn trace(
    alloc: Global,
    form: Form,
    image: &Image,
    schedule: Schedule,
    ticks: Ticks,
) -> Result<Vec<u8>, LoadErr>
    ensures text { IfOk result (λ out. (listing : Listing) → IsListing (flash_byte image.now) listing
        → out.items ≡ trace_text form listing image.now schedule ticks.first ticks.last) }
    ensures odd { IfOk result (λ _. reset_pc image.now % 2 ≡ 1) }
    ensures refused { IfErr result (λ e. LoadRefuses image.now e) }
{
    let mut machine = Machine::load(alloc, image, schedule)?;
    machine.pass(ticks.first - 1);
    let mut out = Vec::new(alloc);
    add_head(&mut out, form)?;
    add_ticks(
        alloc,
        &mut out,
        form,
        &mut machine,
        ticks.last + 1 - ticks.first,
    )?;
    add_tail(alloc, &mut out, form, &machine)?;
    Ok(out)
}
