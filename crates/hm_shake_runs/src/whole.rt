//! Ticks of whole instructions, with the region and the floors of a head.

ghost use Rattle.std.specs.Prelude.{◌≡◌, ◌≤◌, false, IfOk};
ghost use Rattle.hm_sched.specs.Schedule.{most_ticks};
ghost use Rattle.hm_shake_runs.specs.Heads.{whole_ticks};

use crate::head::Head;
use hm_base::OutOfMemory;
use hm_sched::{SchedErr, Schedule};
use std::alloc::Global;

/// What a head says, but that no exception enters.
fn without_entries(head: &Head) -> Head
    ensures value { result ≡ record head.now { entries = false } }
{
    Head {
        format: head.format,
        entries: false,
        lo: head.lo,
        hi: head.hi,
        floor: head.floor,
        process: head.process,
    }
}

/// A schedule of so many ticks of one whole instruction each, without interrupts, in which no exception enters: its region and its floors are those of a head.
pub fn whole_ticks(alloc: Global, head: &Head, ticks: u32) -> Result<Schedule, OutOfMemory>
    requires few { ticks ≤ most_ticks }
    ensures value { IfOk result (λ s. s ≡ whole_ticks head.now ticks) }
{
    let mut s = without_entries(head).begin(alloc);
    if ticks == 0 {
        return Ok(s);
    }
    match s.add(ticks, b"W", &[0; 8]) {
        Ok(()) => Ok(s),
        Err(SchedErr::OutOfMemory) => Err(OutOfMemory),
        Err(_) => unreachable!(),
    }
}
