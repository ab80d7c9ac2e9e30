//! A tick as rows of a page, in HTML, and what stands around them.

ghost use Rattle.std.specs.Prelude.{◌≡◌, ◌++◌, IfOk};
ghost use Rattle.std.specs.List.{flat_map};
ghost use Rattle.hm_codes.specs.Listing.{IsListing, Listing};
ghost use Rattle.hm_machine.specs.Shown.{timed_of};
ghost use Rattle.hm_mem.specs.Memory.{flash_at};
ghost use Rattle.hm_trace.specs.Pages.{bar_start, box, boxes, changes_cell, column, columns, ended_row, entry_row, group_start, group_text, hue, mark_rows};
ghost use Rattle.hm_trace.specs.Pages.{page_head, page_start, page_tail, progress_group, return_row, row_end, row_start, steps_cell, style, tag_text};
ghost use Rattle.hm_trace.specs.Pages.{tick_cell, tick_row, tick_rows, where_cells};
ghost use Rattle.hm_trace.specs.Stands.{past_of};

use crate::changes::add_changes;
use crate::instrs::add_instr;
use crate::marks::Mark;
use crate::modes::add_mode;
use crate::progress::{Progress, progresses};
use crate::stands::{Before, pc_of};
use hm_base::OutOfMemory;
use hm_machine::{Machine, Outcome};
use hm_report_lines::outcome_line;
use hm_sched::print_tick;
use hm_text_base::{decimal, hex8, separator, text};
use std::alloc::Global;

/// How the page looks: a box of 12 pixels a beat, filled in the instruction's colour where the tick did it, and pale where it was done before; two columns of
/// instructions in each row.
const STYLE: &[u8] = b"<style>\
    body{font:13px/1.4 monospace;margin:1em;color:#222}\
    table{border-collapse:collapse}\
    td,th{padding:1px 9px;text-align:left;white-space:nowrap;vertical-align:top;border-bottom:1px solid #e8e8e8}\
    th{position:sticky;top:0;background:#fff;border-bottom:2px solid #888}\
    i{display:inline-block;width:12px;height:12px;margin:0 1px 0 0;vertical-align:-2px;box-sizing:border-box;border:1px solid hsl(var(--h) 45% 60%)}\
    i.n{background:hsl(var(--h) 65% 45%)}\
    i.d{background:hsl(var(--h) 60% 86%)}\
    div{display:grid;grid-template-columns:repeat(2,minmax(25em,max-content));grid-auto-flow:dense}\
    .c0{grid-column:1}\
    .c1{grid-column:2}\
    span:nth-child(2):nth-last-child(2),span:nth-child(3){grid-row:2}\
    span{color:hsl(var(--h) 70% 27%)}\
    .d1 td{background:#fff5dc}\
    .d2 td{background:#ffe9b8}\
    .d3 td,.d4 td,.d5 td,.d6 td,.d7 td,.d8 td{background:#ffdc94}\
    .e td{background:#b3261e;color:#fff}\
    .r td{background:#1e6b45;color:#fff}\
    .o td{background:#333;color:#fff}\
    </style>\n";

/// Adds the box of beat k of an instruction.
fn add_box(out: &mut Vec<u8>, before: u8, after: u8, k: u8) -> Result<(), OutOfMemory>
    ensures added { IfOk result (λ _. out.new.items ≡ out.old.items ++ box before after k) }
{
    if k < before {
        text(out, b"<i class=d></i>")
    } else if k < after {
        text(out, b"<i class=n></i>")
    } else {
        text(out, b"<i></i>")
    }
}

/// Adds the four boxes of an instruction.
#[tactic(auto, unfolding(crate::specs::Pages::boxes))]
fn add_boxes(out: &mut Vec<u8>, before: u8, after: u8) -> Result<(), OutOfMemory>
    ensures added { IfOk result (λ _. out.new.items ≡ out.old.items ++ boxes before after) }
{
    add_box(out, before, after, 0)?;
    add_box(out, before, after, 1)?;
    add_box(out, before, after, 2)?;
    add_box(out, before, after, 3)
}

/// The colour of the instruction at an address, as an angle: those of neighbours lie far apart.
fn hue(addr: u32) -> u64
    ensures value { result ≡ hue addr }
{
    u64::from(addr) * 34 % 360
}

/// The column of the instruction at an address: an instruction of two halfwords and the one behind it never share theirs.
fn column(addr: u32) -> u64
    ensures value { result ≡ column addr }
{
    u64::from(addr) / 4 % 2
}

/// What stands between the texts of a page.
#[derive(Clone, Copy)]
enum Tag {
    /// The beginning of a row of a class.
    Row,
    /// The beginning of its first cell.
    FirstCell,
    /// The beginning of another cell.
    Cell,
    /// The beginning of the cell of a bar, which stands for a row.
    Bar,
    /// The beginning of the cell of instructions.
    Grid,
    /// Its end, and the beginning of the next cell.
    GridEnd,
    /// The beginning of an instruction in a column.
    Group,
    /// The beginning of its colour.
    Hue,
    /// The beginning of its boxes.
    Boxes,
    /// Its end.
    GroupEnd,
}

/// Adds what stands between texts.
#[tactic(auto, unfolding(crate::specs::Pages::tag_text))]
fn add_tag(out: &mut Vec<u8>, tag: Tag) -> Result<(), OutOfMemory>
    ensures added { IfOk result (λ _. out.new.items ≡ out.old.items ++ tag_text tag) }
{
    match tag {
        Tag::Row => text(out, b"<tr class="),
        Tag::FirstCell => text(out, b"><td>"),
        Tag::Cell => text(out, b"<td>"),
        Tag::Bar => text(out, b"><td><td colspan=6>"),
        Tag::Grid => text(out, b"<td><div>"),
        Tag::GridEnd => text(out, b"</div><td>"),
        Tag::Group => text(out, b"<span class=c"),
        Tag::Hue => text(out, b" style=--h:"),
        Tag::Boxes => text(out, b">"),
        Tag::GroupEnd => text(out, b"</span>"),
    }
}

/// Adds an instruction up to its boxes: its column and its colour.
#[tactic(auto, unfolding(crate::specs::Pages::group_start))]
fn add_group_start(alloc: Global, out: &mut Vec<u8>, addr: u32) -> Result<(), OutOfMemory>
    ensures added { IfOk result (λ _. out.new.items ≡ out.old.items ++ group_start addr) }
{
    add_tag(out, Tag::Group)?;
    decimal(alloc, out, column(addr))?;
    add_tag(out, Tag::Hue)?;
    decimal(alloc, out, hue(addr))?;
    add_tag(out, Tag::Boxes)
}

/// Adds an address, and what stands there.
fn add_group_text(out: &mut Vec<u8>, machine: &Machine, addr: u32) -> Result<(), OutOfMemory>
    ensures added { (listing : Listing) → IsListing (flash_at machine.now.memory) listing
        → IfOk result (λ _. out.new.items ≡ out.old.items ++ group_text listing addr) }
{
    separator(out)?;
    add_instr(out, machine, addr)?;
    add_tag(out, Tag::GroupEnd)
}

/// Adds an instruction: its boxes, its address and its text, in its column and its colour.
fn add_group(
    alloc: Global,
    out: &mut Vec<u8>,
    machine: &Machine,
    progress: Progress,
) -> Result<(), OutOfMemory>
    ensures added { (listing : Listing) → IsListing (flash_at machine.now.memory) listing
        → IfOk result (λ _. out.new.items ≡ out.old.items ++ progress_group listing progress) }
{
    add_group_start(alloc, out, progress.addr)?;
    add_boxes(out, progress.before, progress.after)?;
    add_group_text(out, machine, progress.addr)
}

/// Adds instructions.
fn add_groups(
    alloc: Global,
    out: &mut Vec<u8>,
    machine: &Machine,
    shown: &[Progress],
) -> Result<(), OutOfMemory>
    ensures added { (listing : Listing) → IsListing (flash_at machine.now.memory) listing
        → IfOk result (λ _. out.new.items ≡ out.old.items ++ flat_map (progress_group listing) shown.now) }
{
    for progress in shown {
        add_group(alloc, out, machine, *progress)?;
    }
    Ok(())
}

/// Adds a row that is a bar of a kind, up to its text.
fn add_bar_start(out: &mut Vec<u8>, kind: &[u8]) -> Result<(), OutOfMemory>
    ensures added { IfOk result (λ _. out.new.items ≡ out.old.items ++ bar_start kind.now) }
{
    add_tag(out, Tag::Row)?;
    text(out, kind)?;
    add_tag(out, Tag::Bar)
}

/// Adds the bar of a return.
fn add_return_row(out: &mut Vec<u8>) -> Result<(), OutOfMemory>
    ensures added { IfOk result (λ _. out.new.items ≡ out.old.items ++ return_row) }
{
    add_bar_start(out, b"r")?;
    text(out, b"return\n")
}

/// Adds the bar of an entry.
fn add_entry_row(alloc: Global, out: &mut Vec<u8>, number: u16) -> Result<(), OutOfMemory>
    ensures added { IfOk result (λ _. out.new.items ≡ out.old.items ++ entry_row number) }
{
    add_bar_start(out, b"e")?;
    text(out, b"entry ")?;
    decimal(alloc, out, u64::from(number))?;
    text(out, b"\n")
}

/// Adds the bars of what entered or returned, with the number of the exception that entered.
fn add_mark_rows(
    alloc: Global,
    out: &mut Vec<u8>,
    mark: Mark,
    number: u16,
) -> Result<(), OutOfMemory>
    ensures added { IfOk result (λ _. out.new.items ≡ out.old.items ++ mark_rows mark number) }
{
    match mark {
        Mark::Nothing => Ok(()),
        Mark::Entry => add_entry_row(alloc, out, number),
        Mark::Return => add_return_row(out),
        Mark::Both => {
            add_return_row(out)?;
            add_entry_row(alloc, out, number)
        }
    }
}

/// Adds the bar of how the run ended, where it did.
fn add_ended(alloc: Global, out: &mut Vec<u8>, outcome: Option<Outcome>) -> Result<(), OutOfMemory>
    ensures added { IfOk result (λ _. out.new.items ≡ out.old.items ++ ended_row outcome) }
{
    if outcome.is_none() {
        return Ok(());
    }
    let line = outcome_line(alloc, outcome)?;
    add_bar_start(out, b"o")?;
    text(out, &line)
}

/// Adds the cell of the tick, whose row tells how many handlers were active before it.
#[tactic(auto, unfolding(crate::specs::Pages::tick_cell))]
fn add_tick_cell(
    alloc: Global,
    out: &mut Vec<u8>,
    before: &Before,
    machine: &Machine,
) -> Result<(), OutOfMemory>
    ensures added { IfOk result (λ _. out.new.items ≡ out.old.items ++ tick_cell (past_of before.now) (timed_of machine.now)) }
{
    add_tag(out, Tag::Row)?;
    text(out, b"d")?;
    decimal(alloc, out, before.active.len() as u64)?;
    add_tag(out, Tag::FirstCell)?;
    decimal(alloc, out, u64::from(machine.ticks()))
}

/// Adds the cell of its letters and interrupts, and the beginning of that of its instructions.
#[tactic(auto, unfolding(crate::specs::Pages::steps_cell))]
fn add_steps_cell(alloc: Global, out: &mut Vec<u8>, before: &Before) -> Result<(), OutOfMemory>
    ensures added { IfOk result (λ _. out.new.items ≡ out.old.items ++ steps_cell (past_of before.now)) }
{
    add_tag(out, Tag::Cell)?;
    print_tick(alloc, out, &before.line)?;
    add_tag(out, Tag::Grid)
}

/// Adds the end of the cell of its instructions, and the cells of where the run stands after the tick.
#[tactic(auto, unfolding(crate::specs::Pages::where_cells))]
fn add_where_cells(alloc: Global, out: &mut Vec<u8>, machine: &Machine) -> Result<(), OutOfMemory>
    ensures added { IfOk result (λ _. out.new.items ≡ out.old.items ++ where_cells (timed_of machine.now)) }
{
    add_tag(out, Tag::GridEnd)?;
    add_mode(alloc, out, machine)?;
    add_tag(out, Tag::Cell)?;
    hex8(out, pc_of(machine))?;
    add_tag(out, Tag::Cell)?;
    decimal(alloc, out, machine.retired())
}

/// Adds the cell of what changed.
#[tactic(auto, unfolding(crate::specs::Pages::changes_cell))]
fn add_changes_cell(
    alloc: Global,
    out: &mut Vec<u8>,
    before: &Before,
    machine: &Machine,
) -> Result<(), OutOfMemory>
    ensures added { IfOk result (λ _. out.new.items ≡ out.old.items ++ changes_cell (past_of before.now) (timed_of machine.now)) }
{
    add_tag(out, Tag::Cell)?;
    add_changes(alloc, out, &before.regs, machine.regs())?;
    text(out, b"\n")
}

/// Adds the row of a tick up to its instructions.
#[tactic(auto, unfolding(crate::specs::Pages::row_start))]
fn add_row_start(
    alloc: Global,
    out: &mut Vec<u8>,
    before: &Before,
    machine: &Machine,
) -> Result<(), OutOfMemory>
    ensures added { IfOk result (λ _. out.new.items ≡ out.old.items ++ row_start (past_of before.now) (timed_of machine.now)) }
{
    add_tick_cell(alloc, out, before, machine)?;
    add_steps_cell(alloc, out, before)
}

/// Adds the row of a tick behind them.
#[tactic(auto, unfolding(crate::specs::Pages::row_end))]
fn add_row_end(
    alloc: Global,
    out: &mut Vec<u8>,
    before: &Before,
    machine: &Machine,
) -> Result<(), OutOfMemory>
    ensures added { IfOk result (λ _. out.new.items ≡ out.old.items ++ row_end (past_of before.now) (timed_of machine.now)) }
{
    add_where_cells(alloc, out, machine)?;
    add_changes_cell(alloc, out, before, machine)
}

/// Adds the row of a tick.
#[tactic(auto, unfolding(crate::specs::Pages::tick_row))]
fn add_row(
    alloc: Global,
    out: &mut Vec<u8>,
    before: &Before,
    mark: Mark,
    machine: &Machine,
) -> Result<(), OutOfMemory>
    ensures added { (listing : Listing) → IsListing (flash_at machine.now.memory) listing
        → IfOk result (λ _. out.new.items ≡ out.old.items ++ tick_row listing (past_of before.now) mark (timed_of machine.now)) }
{
    let shown = progresses(before, mark, machine);
    add_row_start(alloc, out, before, machine)?;
    add_groups(alloc, out, machine, shown.as_slice())?;
    add_row_end(alloc, out, before, machine)
}

/// Adds the rows of a tick, of which this is what was before it, what entered or returned, and where the machine stands after it.
pub fn add_rows(
    alloc: Global,
    out: &mut Vec<u8>,
    before: &Before,
    mark: Mark,
    machine: &Machine,
) -> Result<(), OutOfMemory>
    ensures added { (listing : Listing) → IsListing (flash_at machine.now.memory) listing
        → IfOk result (λ _. out.new.items ≡ out.old.items ++ tick_rows listing (past_of before.now) mark (timed_of machine.now)) }
{
    add_row(alloc, out, before, mark, machine)?;
    add_mark_rows(alloc, out, mark, machine.regs().ipsr)?;
    add_ended(alloc, out, machine.outcome())
}

/// Adds the first lines of the page.
#[tactic(auto, unfolding(crate::specs::Pages::page_start))]
fn add_page_start(out: &mut Vec<u8>) -> Result<(), OutOfMemory>
    ensures added { IfOk result (λ _. out.new.items ≡ out.old.items ++ page_start) }
{
    text(
        out,
        b"<!doctype html>\n<html lang=en><meta charset=utf-8><title>helium-trace</title>\n",
    )
}

/// Adds how the page looks.
#[tactic(auto, unfolding(crate::specs::Pages::style))]
fn add_style(out: &mut Vec<u8>) -> Result<(), OutOfMemory>
    ensures added { IfOk result (λ _. out.new.items ≡ out.old.items ++ style) }
{
    text(out, STYLE)
}

/// Adds the heads of the columns.
#[tactic(auto, unfolding(crate::specs::Pages::columns))]
fn add_columns(out: &mut Vec<u8>) -> Result<(), OutOfMemory>
    ensures added { IfOk result (λ _. out.new.items ≡ out.old.items ++ columns) }
{
    text(
        out,
        b"<table><thead><tr>\
        <th>tick\
        <th>letters\
        <th>beats, in a column by the address: done before the tick are pale, done in it are full\
        <th>then runs\
        <th>pc\
        <th>retired\
        <th>changed\
        <tbody>\n",
    )
}

/// Adds what stands before the rows of a page.
pub fn add_page_head(out: &mut Vec<u8>) -> Result<(), OutOfMemory>
    ensures added { IfOk result (λ _. out.new.items ≡ out.old.items ++ page_head) }
{
    add_page_start(out)?;
    add_style(out)?;
    add_columns(out)
}

/// Adds what stands behind them: the last tick, where the run has ended.
pub fn add_page_tail(alloc: Global, out: &mut Vec<u8>, machine: &Machine) -> Result<(), OutOfMemory>
    ensures added { IfOk result (λ _. out.new.items ≡ out.old.items ++ page_tail (timed_of machine.now).outcome (timed_of machine.now).ticks) }
{
    if machine.outcome().is_none() {
        return text(out, b"</table>\n");
    }
    text(out, b"</table><p>end ")?;
    decimal(alloc, out, u64::from(machine.ticks()))?;
    text(out, b"\n")
}
