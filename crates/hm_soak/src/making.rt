//! The work of a soak.

ghost use Rattle.std.specs.Prelude.{◌≡◌, IfOk};
ghost use Rattle.hm_soak_laws.specs.Image.{IsSoak};
ghost use Rattle.hm_soak_laws.specs.Schedule.{schedule};

use crate::flat::soak_image;
use crate::ticks::soak_schedule;
use hm_base::{Image, OutOfMemory};
use hm_sched::Schedule;
use std::alloc::Global;

/// The image of a number: its vectors, the instructions that its draws say, and a handler; and the schedule that every soak has. Nothing but
/// want of memory is refused.
pub fn make(alloc: Global, number: u32) -> Result<(Image, Schedule), OutOfMemory>
    ensures image { IfOk result (λ made. IsSoak number made.0) }
    ensures schedule { IfOk result (λ made. made.1 ≡ schedule) }
{
    let image = soak_image(alloc, number)?;
    let schedule = soak_schedule(alloc)?;
    Ok((image, schedule))
}
