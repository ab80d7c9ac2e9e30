//! The files of a shake: a short schedule for each kind of outcome that is not the plain run's.

ghost use Rattle.std.specs.Prelude.{◌<◌, List, IfOk};
ghost use Rattle.std.specs.List.{All};
ghost use Rattle.hm_base.specs.Image.{Segment, flash_byte};
ghost use Rattle.hm_codes.specs.Listing.{IsListing, Listing};
ghost use Rattle.hm_shake.specs.Findings.{AreFiled, CanShake, IsFiled, IsFoundIn};
ghost use Rattle.hm_shake.specs.Repeats.{Repeats};

use crate::counting::{Given, Progress};
use crate::ended::same_kind;
use crate::repeats::Repeater;
use crate::shrinking::shrink;
use hm_base::OutOfMemory;
use hm_sched::print;
use hm_shake_runs::{Ended, Found, Kind, interrupts_in, schedule_of, shaken, ticks_in};
use std::alloc::Global;

/// A schedule that was found: the kind of outcome that it gives, its ticks, in how many of its lines an interrupt arrives, and its file.
#[derive(Drop)]
pub struct Written {
    pub kind: Kind,
    pub ticks: u32,
    pub interrupts: usize,
    pub bytes: Vec<u8>,
}

/// The file of a kind that came: the schedule of its run of the fewest ticks, made shorter.
fn shortest<P: Progress>(
    alloc: Global,
    given: &Given,
    repeater: &mut Repeater,
    found: Found,
    progress: &mut P,
) -> Result<Written, OutOfMemory>
    requires repeats { (image : List Segment) × Repeats image given.now.head repeater.old }
    requires sound { CanShake given.now }
    requires one { found.run < given.now.plan.runs }
    ensures filed { (image : List Segment) (listing : Listing) → IsListing (flash_byte image) listing → Repeats image given.now.head repeater.old
        → IsFoundIn listing image given.now.plan given.now.head given.now.irqs.items found
        → IfOk result (λ w. IsFiled listing image given.now.plan given.now.head given.now.irqs.items found w) }
    ensures again { (image : List Segment) → Repeats image given.now.head repeater.old → Repeats image given.now.head repeater.new }
{
    let stretches = shaken(alloc, given.plan, &given.irqs, found.run)?;
    let ended = Ended {
        kind: found.kind,
        ticks: found.ticks,
    };
    let best = shrink(alloc, repeater, given.head, ended, &stretches, progress)?;
    let schedule = schedule_of(alloc, &given.head, &best)?;
    Ok(Written {
        kind: found.kind,
        ticks: ticks_in(&best),
        interrupts: interrupts_in(&best),
        bytes: print(alloc, &schedule)?,
    })
}

/// The files of the kinds that are not the plain run's.
pub fn files_of<P: Progress>(
    alloc: Global,
    given: &Given,
    repeater: &mut Repeater,
    plain: Kind,
    kinds: &[Found],
    progress: &mut P,
) -> Result<Vec<Written>, OutOfMemory>
    requires repeats { (image : List Segment) × Repeats image given.now.head repeater.old }
    requires sound { CanShake given.now }
    requires runs { All (λ x. x.run < given.now.plan.runs) kinds.now }
    ensures files { (image : List Segment) (listing : Listing) → IsListing (flash_byte image) listing → Repeats image given.now.head repeater.old
        → All (IsFoundIn listing image given.now.plan given.now.head given.now.irqs.items) kinds.now
        → IfOk result (λ v. AreFiled (IsFiled listing image given.now.plan given.now.head given.now.irqs.items) plain kinds.now v.items) }
{
    let mut files = Vec::new(alloc);
    for found in kinds {
        if !same_kind(found.kind, plain) {
            let file = shortest(alloc, given, repeater, *found, progress)?;
            files.push(file)?;
        }
    }
    Ok(files)
}
