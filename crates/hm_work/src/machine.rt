//! A run of an image to its end.

ghost use Rattle.std.specs.Prelude.{◌≡◌};
ghost use Rattle.hm_work.specs.Run.{RunsToEnd, is_halted};

use crate::work::{Refusal, Stop};
use hm_base::Image;
use hm_machine::{LoadErr, Machine, Outcome};
use hm_sched::Schedule;
use std::alloc::Global;

impl From<LoadErr> for Stop {
    ghost use Rattle.hm_work.specs.Run.{load_stop};

    ghost from_gives = { λ e stop. stop ≡ load_stop e };

    fn from(e: LoadErr) -> Stop {
        match e {
            LoadErr::Reset { value } => Stop::Refused(Refusal::Reset { value }),
            LoadErr::OutOfMemory => Stop::NoMemory,
        }
    }
}

/// A machine that has run the image under the schedule to the end.
pub fn run_to_end(alloc: Global, image: &Image, schedule: Schedule) -> Result<Machine, Stop>
    ensures { RunsToEnd image.now schedule result }
{
    let mut machine = Machine::load(alloc, image, schedule)?;
    let _outcome = machine.run();
    Ok(machine)
}

/// Whether a run halted.
pub fn is_halted(outcome: Option<Outcome>) -> bool
    ensures { result ≡ is_halted outcome }
{
    matches!(outcome, Some(Outcome::Halted { .. }))
}
