//! The runs of a shake, counted.

ghost use Rattle.std.specs.Prelude.{◌≡◌, ◌<◌, List, IfOk, IfSome, None, false};
ghost use Rattle.std.specs.List.{All};
ghost use Rattle.hm_base.specs.Image.{Segment, flash_byte};
ghost use Rattle.hm_codes.specs.Listing.{IsListing, Listing};
ghost use Rattle.hm_run_laws.specs.Runs.{shown_out};
ghost use Rattle.hm_run.specs.Report.{report_text};
ghost use Rattle.hm_shake.specs.Counts.{AreCounted};
ghost use Rattle.hm_shake.specs.Ends.{ended_under, ends_in};
ghost use Rattle.hm_shake.specs.Findings.{CanShake, IsFoundIn, IsReport};
ghost use Rattle.hm_shake.specs.Kinds.{is_halt};
ghost use Rattle.hm_shake.specs.Repeats.{Repeats, StandsOver};
ghost use Rattle.hm_shake_runs.specs.Shaken.{shaken_schedule};

use crate::ended::is_halted;
use crate::repeats::Repeater;
use hm_base::OutOfMemory;
use hm_shake_runs::{Ended, Found, Head, Plan, Tally, shaken};
use std::alloc::Global;

/// Who is told how far a shake is.
pub trait Progress {
    /// So many runs of all are done; it is told after each run.
    fn done(&mut self, runs: u32, all: u32);

    /// A schedule is made shorter, and has so many interrupts left; it is told before each try.
    fn shortening(&mut self, interrupts: usize);
}

/// What is shaken: the head of all schedules, the interrupts that are drawn from, and from what the schedules are made.
#[derive(Drop)]
pub struct Given {
    pub head: Head,
    pub irqs: Vec<u8>,
    pub plan: Plan,
}

/// Does a run.
fn do_run(
    alloc: Global,
    given: &Given,
    repeater: &mut Repeater,
    run: u32,
) -> Result<Ended, OutOfMemory>
    requires repeats { (image : List Segment) × Repeats image given.now.head repeater.old }
    requires sound { CanShake given.now }
    requires one { run < given.now.plan.runs }
    ensures ended { (image : List Segment) (listing : Listing) → IsListing (flash_byte image) listing → Repeats image given.now.head repeater.old
        → IfOk result (λ e. e ≡ ended_under listing image (shaken_schedule given.now.plan given.now.head given.now.irqs.items run)) }
    ensures over { (image : List Segment) → Repeats image given.now.head repeater.old
        → IfOk result (λ _. StandsOver image (shaken_schedule given.now.plan given.now.head given.now.irqs.items run) repeater.new) }
    ensures again { (image : List Segment) → Repeats image given.now.head repeater.old → Repeats image given.now.head repeater.new }
{
    let stretches = shaken(alloc, given.plan, &given.irqs, run)?;
    repeater.run(alloc, given.head, &stretches)
}

/// Does all runs, and counts them: the kinds that came, in the order in which they came first.
pub fn do_runs<P: Progress>(
    alloc: Global,
    given: &Given,
    repeater: &mut Repeater,
    progress: &mut P,
) -> Result<Vec<Found>, OutOfMemory>
    requires repeats { (image : List Segment) × Repeats image given.now.head repeater.old }
    requires sound { CanShake given.now }
    ensures kinds { (image : List Segment) (listing : Listing) → IsListing (flash_byte image) listing → Repeats image given.now.head repeater.old
        → IfOk result (λ v. AreCounted (ends_in listing image given.now.plan given.now.head given.now.irqs.items) given.now.plan.runs v.items) }
    ensures runs { IfOk result (λ v. All (λ x. x.run < given.now.plan.runs) v.items) }
    ensures again { (image : List Segment) → Repeats image given.now.head repeater.old → Repeats image given.now.head repeater.new }
{
    let mut tally = Tally::new(alloc);
    for run in 0..given.plan.runs {
        let ended = do_run(alloc, given, repeater, run)?;
        tally.note(ended, run)?;
        progress.done(run + 1, given.plan.runs);
    }
    Ok(tally.kinds)
}

/// The report of a run.
fn report_under(
    alloc: Global,
    given: &Given,
    repeater: &mut Repeater,
    run: u32,
) -> Result<Vec<u8>, OutOfMemory>
    requires repeats { (image : List Segment) × Repeats image given.now.head repeater.old }
    requires sound { CanShake given.now }
    requires one { run < given.now.plan.runs }
    ensures report { (image : List Segment) (listing : Listing) → IsListing (flash_byte image) listing → Repeats image given.now.head repeater.old
        → IfOk result (λ out. out.items ≡ report_text (shown_out listing image (shaken_schedule given.now.plan given.now.head given.now.irqs.items run))) }
    ensures again { (image : List Segment) → Repeats image given.now.head repeater.old → Repeats image given.now.head repeater.new }
{
    do_run(alloc, given, repeater, run)?;
    repeater.report(alloc)
}

/// The report of the runs that halt, where one did.
pub fn report_of(
    alloc: Global,
    given: &Given,
    repeater: &mut Repeater,
    kinds: &[Found],
) -> Result<Option<Vec<u8>>, OutOfMemory>
    requires repeats { (image : List Segment) × Repeats image given.now.head repeater.old }
    requires sound { CanShake given.now }
    requires runs { All (λ x. x.run < given.now.plan.runs) kinds.now }
    ensures report { (image : List Segment) (listing : Listing) → IsListing (flash_byte image) listing → Repeats image given.now.head repeater.old
        → All (IsFoundIn listing image given.now.plan given.now.head given.now.irqs.items) kinds.now
        → IfOk result (λ r. IfSome r (λ bytes. IsReport listing image given.now.plan given.now.head given.now.irqs.items bytes.items)) }
    ensures none { IfOk result (λ r. r ≡ None → All (λ x. is_halt x.kind ≡ false) kinds.now) }
    ensures again { (image : List Segment) → Repeats image given.now.head repeater.old → Repeats image given.now.head repeater.new }
{
    for found in kinds {
        if is_halted(found.kind) {
            let report = report_under(alloc, given, repeater, found.run)?;
            return Ok(Some(report));
        }
    }
    Ok(None)
}
