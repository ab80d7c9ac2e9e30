//! A shake: many runs of one image, counted, and a short schedule for each kind of outcome.

ghost use Rattle.std.specs.Prelude.{◌≡◌, ◌≤◌, ◌%◌, IfOk, IfErr};
ghost use Rattle.hm_base.specs.Image.{flash_byte};
ghost use Rattle.hm_codes.specs.Listing.{IsListing, Listing};
ghost use Rattle.hm_machine.specs.Calls.{LoadRefuses};
ghost use Rattle.hm_shake.specs.Findings.{FindsFor};
ghost use Rattle.hm_state.specs.Start.{reset_pc};

use crate::counting::{Given, Progress, do_runs, report_of};
use crate::filing::{Written, files_of};
use crate::naming::files_fit;
use crate::repeats::Repeater;
use hm_base::Image;
use hm_machine::LoadErr;
use hm_sched::Schedule;
use hm_shake_runs::{Found, Head, Kind, Plan, interrupts_of};
use std::alloc::Global;

/// What a shake found: the kind of the plain run's outcome, the kinds that came, the report of the runs that halt, and a schedule for each kind that is
/// not the plain run's.
#[derive(Drop)]
pub struct Findings {
    pub plain: Kind,
    pub kinds: Vec<Found>,
    pub report: Option<Vec<u8>>,
    pub files: Vec<Written>,
}

/// Runs an image under so many schedules, made from a seed, and gives what was found. Of the schedule its head is taken, and the interrupts that its lines
/// name. The image is loaded once. It is refused as by `Machine::load`.
pub fn shake<P: Progress>(
    alloc: Global,
    image: &Image,
    schedule: &Schedule,
    runs: u32,
    seed: u32,
    progress: &mut P,
) -> Result<Findings, LoadErr>
    requires some { 1 ≤ runs }
    requires few { runs ≤ 1000000 }
    ensures finds { (listing : Listing) → IsListing (flash_byte image.now) listing → IfOk result (λ f. FindsFor listing image.now seed runs schedule.now f) }
    ensures odd { IfOk result (λ _. reset_pc image.now % 2 ≡ 1) }
    ensures refused { IfErr result (λ e. LoadRefuses image.now e) }
{
    let head = Head::of(schedule);
    let mut repeater = Repeater::of(alloc, image, head)?;
    let plainly = repeater.plain(alloc, head)?;
    let given = Given {
        head,
        irqs: interrupts_of(alloc, schedule)?,
        plan: Plan {
            seed,
            runs,
            ticks: plainly.ticks,
        },
    };
    let kinds = do_runs(alloc, &given, &mut repeater, progress)?;
    let report = report_of(alloc, &given, &mut repeater, &kinds)?;
    let files = files_of(alloc, &given, &mut repeater, plainly.kind, &kinds, progress)?;
    files_fit(&files);
    Ok(Findings {
        plain: plainly.kind,
        kinds,
        report,
        files,
    })
}
