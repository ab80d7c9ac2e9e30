//! The two runs of a soak.

ghost use Rattle.std.specs.Prelude.{◌≡◌, ◌↔◌, ◌%◌, ◌^◌, ◌<◌, ◌&&◌, List, None, IfOk, IsTrue, cond, length, nat_eq, not};
ghost use Rattle.hm_base.specs.Image.{Segment};
ghost use Rattle.hm_machine.specs.Shown.{Shows, timed_of};
ghost use Rattle.hm_sched.specs.Schedule.{Sched};
ghost use Rattle.hm_soak.specs.Runs.{CountsEntries, IsOver};
ghost use Rattle.hm_soak_laws.specs.Schedule.{in_order_schedule};
ghost use Rattle.hm_state.specs.Start.{reset_pc};
ghost use Rattle.hm_state.specs.State.{regs_of};

use crate::ticks::plain_schedule;
use hm_base::{Image, OutOfMemory};
use hm_machine::{LoadErr, Machine};
use hm_sched::Schedule;
use std::alloc::Global;

/// The machine at the start of a schedule, for an image whose reset address is odd.
pub fn load(alloc: Global, image: &Image, s: Schedule) -> Result<Machine, OutOfMemory>
    requires odd { reset_pc image.now % 2 ≡ 1 }
    ensures shows { IfOk result (λ m. Shows image.now s 0 m) }
{
    match Machine::load(alloc, image, s) {
        Ok(machine) => Ok(machine),
        Err(LoadErr::OutOfMemory) => Err(OutOfMemory),
        Err(LoadErr::Reset { .. }) => unreachable!(),
    }
}

/// Whether a run goes on.
fn is_running(machine: &Machine) -> bool
    ensures { IsTrue result ↔ (machine.now.outcome ≡ None) }
{
    machine.outcome().is_none()
}

/// Whether a machine is in thread mode: it handles no exception.
fn is_in_thread(machine: &Machine) -> bool
    ensures { result ≡ nat_eq (regs_of (timed_of machine.now).config.state).ipsr 0 }
{
    machine.regs().ipsr == 0
}

/// 1 for a tick that begins in the thread and ends in a handler, else 0.
fn entry(begins_in_thread: bool, ends_in_thread: bool) -> u32
    ensures { result ≡ cond (begins_in_thread && not ends_in_thread) 1 0 }
{
    u32::from(begins_in_thread && !ends_in_thread)
}

/// Runs a machine to its end. It gives how many ticks began in the thread and ended in a handler.
pub fn run_counting(machine: &mut Machine) -> u32
    requires few { length machine.old.left < 2 ^ 32 }
    requires lines { 0 < length machine.old.schedule.lines }
    ensures over { (image : List Segment) (s : Sched) → Shows image s 0 machine.old → IsOver image s machine.new }
    ensures entered { (image : List Segment) (s : Sched) → Shows image s 0 machine.old → CountsEntries image s result }
{
    let mut entries = 0;
    while is_running(machine) {
        let begins = is_in_thread(machine);
        let _turn = machine.tick();
        let ends = is_in_thread(machine);
        entries += entry(begins, ends);
    }
    entries
}

/// The machine at the end of the run of its instructions in order.
pub fn run_plainly(alloc: Global, image: &Image) -> Result<Machine, OutOfMemory>
    requires odd { reset_pc image.now % 2 ≡ 1 }
    ensures over { IfOk result (λ m. IsOver image.now in_order_schedule m) }
{
    let schedule = plain_schedule(alloc)?;
    let mut machine = load(alloc, image, schedule)?;
    let _outcome = machine.run();
    Ok(machine)
}
