//! The interrupts that are drawn from.

ghost use Rattle.std.specs.Prelude.{◌≡◌, ◌<◌, ◌≤◌, [], IfOk, length};
ghost use Rattle.std.specs.List.{All};
ghost use Rattle.hm_sched.specs.Schedule.{most_irq};
ghost use Rattle.hm_shake_runs.specs.Heads.{all_or, interrupts_of, is_named, named};

use hm_base::OutOfMemory;
use hm_sched::{Schedule, has_irq, most_irq};
use std::alloc::Global;

/// Whether a line of a schedule names an interrupt.
fn is_named(s: &Schedule, n: u32) -> bool
    requires there { n < 256 }
    ensures value { result ≡ is_named s.now.lines n }
{
    for k in 0..s.lines() {
        if has_irq(&s.line(k).irq, n) {
            return true;
        }
    }
    false
}

/// The interrupts that the lines of a schedule name, rising.
fn named(alloc: Global, s: &Schedule) -> Result<Vec<u8>, OutOfMemory>
    ensures value { IfOk result (λ irqs. irqs.items ≡ named s.now) }
{
    let mut irqs = Vec::new(alloc);
    for n in 0..most_irq(s.format()) {
        if is_named(s, n) {
            irqs.push(n as u8)?;
        }
    }
    Ok(irqs)
}

/// All interrupts that a format names, rising.
fn all(alloc: Global, format: u32) -> Result<Vec<u8>, OutOfMemory>
    ensures value { IfOk result (λ irqs. irqs.items ≡ all_or format []) }
{
    let mut irqs = Vec::new(alloc);
    for n in 0..most_irq(format) {
        irqs.push(n as u8)?;
    }
    Ok(irqs)
}

/// The interrupts that are drawn from: those that the lines of a schedule name, or where these name none, all that its format names.
pub fn interrupts_of(alloc: Global, s: &Schedule) -> Result<Vec<u8>, OutOfMemory>
    ensures value { IfOk result (λ irqs. irqs.items ≡ interrupts_of s.now) }
    ensures some { IfOk result (λ irqs. 0 < length irqs.items) }
    ensures few { IfOk result (λ irqs. length irqs.items ≤ 240) }
    ensures each { IfOk result (λ irqs. All (λ n. n < most_irq s.now.format) irqs.items) }
{
    let irqs = named(alloc, s)?;
    if irqs.is_empty() {
        return all(alloc, s.format());
    }
    Ok(irqs)
}
