//! How a machine gets to a tick of its run.

ghost use Rattle.std.specs.Prelude.{◌≡◌, ◌⊎◌, ℕ, ◌+◌, ◌-◌, ◌*◌, ◌^◌, ◌<◌, ◌≤◌, List, length, IfOk, OnOk, IsSome};
ghost use Rattle.hm_base.specs.Image.{Segment};
ghost use Rattle.hm_machine.specs.Shown.{Shown, Shows, fixed_of};
ghost use Rattle.hm_machine.specs.Tapes.{AreApart, AreKept, ShowsTick, first_of};
ghost use Rattle.hm_sched.specs.Schedule.{Sched};

use crate::checkpoint::Checkpoint;
use crate::machine::Machine;
use hm_base::OutOfMemory;
use std::alloc::Global;

/// So many checkpoints are kept at most.
pub const CHECKPOINTS: u32 = 64;

/// The checkpoints of a run, `apart` ticks from one another, from its start, where the machine is, as far as the run goes. The machine goes on so far.
pub fn filled(
    alloc: Global,
    apart: u32,
    machine: &mut Machine,
) -> Result<Vec<Checkpoint>, OutOfMemory>
    requires small { apart < 2 ^ 24 }
    requires start { (image : List Segment) × (s : Sched) × Shows image s 0 machine.old }
    ensures some { IfOk result (λ v. 0 < length v.items) }
    ensures first { IfOk result (λ v. first_of v.items machine.new.output machine.new ≡ machine.old) }
    ensures kept { IfOk result (λ v. AreKept (fixed_of machine.new) machine.new.output v.items) }
    ensures lie { IfOk result (λ v. AreApart machine.old (fixed_of machine.new) machine.new.output apart v.items) }
    ensures goes_on { OnOk result ((image : List Segment) (s : Sched) → Shows image s 0 machine.old → (t : ℕ) × Shows image s t machine.new) }
    ensures fixed { OnOk result (fixed_of machine.new ≡ fixed_of machine.old) }
    // The last of them was reached, and there are 64 of them, or the run ended before the next.
    ensures reached { IfOk result (λ v. (length v.items - 1) * apart ≤ machine.new.ticks) }
    ensures all { IfOk result (λ v. (length v.items ≡ 64)
        ⊎ ((length v.items ≤ 64) × (machine.new.ticks < length v.items * apart) × IsSome machine.new.outcome)) }
{
    let mut kept = Vec::new(alloc);
    kept.push(machine.checkpoint(alloc)?)?;
    let mut reached = 0;
    for _k in 1..CHECKPOINTS {
        machine.pass(apart);
        reached += apart;
        if machine.ticks() < reached {
            return Ok(kept);
        }
        kept.push(machine.checkpoint(alloc)?)?;
    }
    Ok(kept)
}

/// The last of some checkpoints that lies at a tick or before it.
fn nearest(count: usize, apart: u32, tick: u32) -> usize
    requires apart { 0 < apart }
    requires some { 0 < count }
    ensures below { result < count }
    ensures before { result * apart ≤ tick }
{
    ((tick / apart) as usize).min(count - 1)
}

/// Brings a machine to a tick of its run, from the tick at which it is or from a checkpoint. `output` is that of the whole run.
pub fn bring(
    kept: &Vec<Checkpoint>,
    output: &[u8],
    apart: u32,
    place: u32,
    tick: u32,
    machine: &mut Machine,
)
    requires apart { 0 < apart }
    requires some { 0 < length kept.now.items }
    requires kept { AreKept (fixed_of machine.old) output.now kept.now.items }
    ensures shows { (start : Shown) → AreApart start (fixed_of machine.old) output.now apart kept.now.items → ShowsTick start place machine.old
        → ShowsTick start tick machine.new }
    ensures fixed { fixed_of machine.new ≡ fixed_of machine.old }
{
    let near = nearest(kept.len(), apart, tick);
    let from = near as u32 * apart;
    if from <= place && place <= tick {
        machine.pass(tick - place);
        return;
    }
    let checkpoint = &kept[near];
    machine.back(checkpoint, &output[..checkpoint.written]);
    machine.pass(tick - from);
}
