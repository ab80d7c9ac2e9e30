//! Stretches cut off, and without interrupts.

ghost use Rattle.std.specs.Prelude.{◌≡◌, ◌≤◌, IfOk};
ghost use Rattle.std.specs.List.{All};
ghost use Rattle.hm_shake_runs.specs.Stretches.{cut, without};

use crate::stretches::Stretch;
use hm_base::OutOfMemory;
use std::alloc::Global;

/// The first so many ticks of stretches.
pub fn cut(alloc: Global, stretches: &[Stretch], ticks: u32) -> Result<Vec<Stretch>, OutOfMemory>
    requires some { All (λ x. 1 ≤ x.count) stretches.now }
    ensures value { IfOk result (λ xs. xs.items ≡ cut ticks stretches.now) }
{
    let mut out = Vec::new(alloc);
    let mut left = ticks;
    for stretch in stretches {
        let count = stretch.count.min(left);
        if count > 0 {
            out.push(Stretch {
                count,
                letters: stretch.letters,
                irq: stretch.irq,
            })?;
        }
        left -= count;
    }
    Ok(out)
}

/// Stretches without so many interrupts, behind the first `kept` of them.
pub fn without(
    alloc: Global,
    stretches: &[Stretch],
    kept: usize,
    count: usize,
) -> Result<Vec<Stretch>, OutOfMemory>
    ensures value { IfOk result (λ xs. xs.items ≡ without kept count stretches.now) }
{
    let mut out = Vec::new(alloc);
    let mut before = kept;
    let mut left = count;
    for stretch in stretches {
        let mut one = *stretch;
        if one.irq.is_some() {
            if before > 0 {
                before -= 1;
            } else if left > 0 {
                left -= 1;
                one.irq = None;
            }
        }
        out.push(one)?;
    }
    Ok(out)
}
