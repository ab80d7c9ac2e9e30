//! The stretches of a run: drawn gaps, and an interrupt behind each.

ghost use Rattle.std.specs.Prelude.{◌≡◌, ℕ, ◌+◌, ◌*◌, ◌≤◌, ◌<◌, ◌++◌, IfOk, length, map};
ghost use Rattle.std.specs.List.{All};
ghost use Rattle.hm_sched.specs.Schedule.{most_irq, most_ticks, total};
ghost use Rattle.hm_shake_runs.specs.Shaken.{digits, gap_part, interrupt_part, longest_gap, many_pairs, pairs, shaken, tail_part};
ghost use Rattle.hm_shake_runs.specs.Stretches.{IsStretch, stretch_line};

use crate::draws::{first, part};
use crate::plan::Plan;
use crate::stretches::{Stretch, ticks_in};
use hm_base::{OutOfMemory, draw};
use hm_sched::MOST_TICKS;
use std::alloc::Global;

/// The most interrupts of a run.
const MOST_INTERRUPTS: u32 = 262_144;

/// How many binary digits a number has, up to a limit.
fn digits(most: u32, n: u32) -> u32
    ensures value { result ≡ digits most n }
    ensures few { result ≤ most }
{
    if most == 0 || n == 0 {
        return 0;
    }
    1 + digits(most - 1, n / 2)
}

/// The longest gap between two interrupts of a run: from the plain run's ticks down to one, halved from group to group of the runs.
fn longest_gap(plan: Plan, run: u32) -> u32
    requires one { run < plan.runs }
    ensures value { result ≡ longest_gap plan run }
    ensures most { result ≤ most_ticks }
{
    plan.ticks >> (digits(25, plan.ticks) * run / plan.runs)
}

/// How many interrupts a run has.
fn many_pairs(ticks: u32, gap: u32) -> u32
    requires begun { ticks ≤ most_ticks }
    requires gap { gap ≤ most_ticks }
    ensures value { result ≡ many_pairs ticks gap }
    ensures room { result * (gap + 1) ≤ most_ticks }
{
    let wanted = 8 * ticks / (gap + 1) + 8;
    let room = MOST_TICKS / (gap + 1);
    wanted.min(room).min(MOST_INTERRUPTS)
}

/// Adds a gap, where it has a tick, of one to four letters: by two draws.
fn add_gap(out: &mut Vec<Stretch>, gap: u32, x: u32) -> Result<(), OutOfMemory>
    requires few { gap ≤ most_ticks }
    ensures added { IfOk result (λ _. out.new.items ≡ out.old.items ++ gap_part gap x) }
{
    let count = part(draw(draw(x)), gap + 1);
    if count > 0 {
        out.push(Stretch {
            count,
            letters: 1 + part(draw(x), 4) as u8,
            irq: None,
        })?;
    }
    Ok(())
}

/// Adds a tick of one to four letters in which one of some interrupts arrives: by two draws.
fn add_interrupt(out: &mut Vec<Stretch>, irqs: &[u8], x: u32) -> Result<(), OutOfMemory>
    requires some { 0 < length irqs.now }
    requires few { length irqs.now ≤ 240 }
    ensures added { IfOk result (λ _. out.new.items ≡ out.old.items ++ interrupt_part irqs.now x) }
{
    let which = part(draw(draw(x)), irqs.len() as u32);
    out.push(Stretch {
        count: 1,
        letters: 1 + part(draw(x), 4) as u8,
        irq: Some(irqs[which as usize]),
    })?;
    Ok(())
}

/// Adds so many gaps, with an interrupt behind each.
fn add_pairs(
    out: &mut Vec<Stretch>,
    count: u32,
    gap: u32,
    irqs: &[u8],
    x: u32,
) -> Result<(), OutOfMemory>
    requires some { 0 < length irqs.now }
    requires few { length irqs.now ≤ 240 }
    requires gap { gap ≤ most_ticks }
    ensures added { IfOk result (λ _. out.new.items ≡ out.old.items ++ pairs count gap irqs.now x) }
{
    let mut x = x;
    for _k in 0..count {
        add_gap(out, gap, x)?;
        x = draw(draw(x));
        add_interrupt(out, irqs, x)?;
        x = draw(draw(x));
    }
    Ok(())
}

/// Adds the ticks that are left up to the limit, each of four letters.
fn add_tail(out: &mut Vec<Stretch>) -> Result<(), OutOfMemory>
    requires room { total (map stretch_line out.old.items) ≤ most_ticks }
    ensures added { IfOk result (λ _. out.new.items ≡ out.old.items ++ tail_part (total (map stretch_line out.old.items))) }
{
    let left = MOST_TICKS - ticks_in(out);
    if left > 0 {
        out.push(Stretch {
            count: left,
            letters: 4,
            irq: None,
        })?;
    }
    Ok(())
}

/// The stretches of a run, by its number and what it is made from, where these interrupts are drawn from.
pub fn shaken(alloc: Global, plan: Plan, irqs: &[u8], run: u32) -> Result<Vec<Stretch>, OutOfMemory>
    requires one { run < plan.runs }
    requires some { 0 < length irqs.now }
    requires few { length irqs.now ≤ 240 }
    ensures value { IfOk result (λ xs. xs.items ≡ shaken plan irqs.now run) }
    ensures all_ticks { IfOk result (λ xs. total (map stretch_line xs.items) ≡ most_ticks) }
    ensures sound { (format : ℕ) → All (λ n. n < most_irq format) irqs.now → IfOk result (λ xs. All (IsStretch (most_irq format)) xs.items) }
{
    let gap = longest_gap(plan, run);
    let mut out = Vec::new(alloc);
    add_pairs(
        &mut out,
        many_pairs(plan.ticks, gap),
        gap,
        irqs,
        first(plan.seed, run),
    )?;
    add_tail(&mut out)?;
    Ok(out)
}
