//! Schedules made shorter, as long as the outcome stays.

ghost use Rattle.std.specs.Prelude.{◌≡◌, ◌≤◌, ◌<◌, List, IfOk, IfSome, None, map};
ghost use Rattle.std.specs.List.{All};
ghost use Rattle.hm_base.specs.Image.{Segment, flash_byte};
ghost use Rattle.hm_codes.specs.Listing.{IsListing, Listing};
ghost use Rattle.hm_sched.specs.Schedule.{most_irq, most_ticks, total};
ghost use Rattle.hm_shake.specs.Repeats.{Repeats};
ghost use Rattle.hm_shake.specs.Shorter.{LeavesOut};
ghost use Rattle.hm_shake_runs.specs.Heads.{bare};
ghost use Rattle.hm_shake.specs.Ends.{AllNeeded, EndsAs, EndsInLast, EndsOtherwise, ended_under};
ghost use Rattle.hm_shake_runs.specs.Stretches.{IsStretch, interrupts_in, stretch_line, with_stretches, without};

use crate::counting::Progress;
use crate::ended::same_kind;
use crate::repeats::Repeater;
use hm_base::OutOfMemory;
use hm_shake_runs::{Ended, Head, Kind, Stretch, cut, interrupts_in, without};
use std::alloc::Global;

/// Takes out so many interrupts, behind the first `kept` of them, and cuts off behind the tick that ends the run; None where the outcome is another without
/// them.
fn shorter(
    alloc: Global,
    repeater: &mut Repeater,
    head: Head,
    kind: Kind,
    stretches: &[Stretch],
    kept: usize,
    size: usize,
) -> Result<Option<Vec<Stretch>>, OutOfMemory>
    requires repeats { (image : List Segment) × Repeats image head repeater.old }
    requires sound { All (IsStretch (most_irq head.format)) stretches.now }
    requires room { total (map stretch_line stretches.now) ≤ most_ticks }
    ensures kind { (image : List Segment) (listing : Listing) → IsListing (flash_byte image) listing → Repeats image head repeater.old
        → IfOk result (λ o. IfSome o (λ xs. EndsAs listing image kind (with_stretches xs.items (bare head)))) }
    ensures last { (image : List Segment) (listing : Listing) → IsListing (flash_byte image) listing → Repeats image head repeater.old
        → IfOk result (λ o. IfSome o (λ xs. EndsInLast listing image head xs.items)) }
    ensures other { (image : List Segment) (listing : Listing) → IsListing (flash_byte image) listing → Repeats image head repeater.old
        → IfOk result (λ o. o ≡ None → EndsOtherwise listing image kind (with_stretches (without kept size stretches.now) (bare head))) }
    ensures less { kept < interrupts_in stretches.now → 0 < size
        → IfOk result (λ o. IfSome o (λ xs. interrupts_in xs.items < interrupts_in stretches.now)) }
    ensures leaves { IfOk result (λ o. IfSome o (λ xs. LeavesOut xs.items stretches.now)) }
    ensures sound { IfOk result (λ o. IfSome o (λ xs. All (IsStretch (most_irq head.format)) xs.items)) }
    ensures again { (image : List Segment) → Repeats image head repeater.old → Repeats image head repeater.new }
{
    let fewer = without(alloc, stretches, kept, size)?;
    let ended = repeater.run(alloc, head, &fewer)?;
    if same_kind(ended.kind, kind) {
        return Ok(Some(cut(alloc, &fewer, ended.ticks)?));
    }
    Ok(None)
}

/// Takes out so many interrupts at a time, from the first on, wherever the outcome stays without them; cut off behind the tick that ends it.
fn thinned<P: Progress>(
    alloc: Global,
    repeater: &mut Repeater,
    head: Head,
    kind: Kind,
    stretches: Vec<Stretch>,
    size: usize,
    progress: &mut P,
) -> Result<Vec<Stretch>, OutOfMemory>
    requires repeats { (image : List Segment) × Repeats image head repeater.old }
    requires sound { All (IsStretch (most_irq head.format)) stretches.items }
    requires room { total (map stretch_line stretches.items) ≤ most_ticks }
    requires some { 0 < size }
    ensures kind { (image : List Segment) (listing : Listing) → IsListing (flash_byte image) listing → Repeats image head repeater.old
        → EndsAs listing image kind (with_stretches stretches.items (bare head))
        → IfOk result (λ xs. EndsAs listing image kind (with_stretches xs.items (bare head))) }
    ensures last { (image : List Segment) (listing : Listing) → IsListing (flash_byte image) listing → Repeats image head repeater.old
        → EndsInLast listing image head stretches.items → IfOk result (λ xs. EndsInLast listing image head xs.items) }
    ensures leaves { IfOk result (λ xs. LeavesOut xs.items stretches.items) }
    ensures sound { IfOk result (λ xs. All (IsStretch (most_irq head.format)) xs.items) }
    ensures again { (image : List Segment) → Repeats image head repeater.old → Repeats image head repeater.new }
{
    let mut best = stretches;
    let mut left = interrupts_in(&best);
    let mut kept = 0;
    while kept < left {
        progress.shortening(left);
        match shorter(alloc, repeater, head, kind, &best, kept, size)? {
            Some(fewer) => {
                left = interrupts_in(&fewer);
                best = fewer;
            }
            None => kept = kept.saturating_add(size),
        }
    }
    Ok(best)
}

/// Takes out the first interrupt that can be left out alone, and cuts off behind the tick that ends the run; None where without any one of them the outcome
/// is another.
fn without_one<P: Progress>(
    alloc: Global,
    repeater: &mut Repeater,
    head: Head,
    kind: Kind,
    stretches: &[Stretch],
    progress: &mut P,
) -> Result<Option<Vec<Stretch>>, OutOfMemory>
    requires repeats { (image : List Segment) × Repeats image head repeater.old }
    requires sound { All (IsStretch (most_irq head.format)) stretches.now }
    requires room { total (map stretch_line stretches.now) ≤ most_ticks }
    ensures kind { (image : List Segment) (listing : Listing) → IsListing (flash_byte image) listing → Repeats image head repeater.old
        → IfOk result (λ o. IfSome o (λ xs. EndsAs listing image kind (with_stretches xs.items (bare head)))) }
    ensures last { (image : List Segment) (listing : Listing) → IsListing (flash_byte image) listing → Repeats image head repeater.old
        → IfOk result (λ o. IfSome o (λ xs. EndsInLast listing image head xs.items)) }
    ensures needed { (image : List Segment) (listing : Listing) → IsListing (flash_byte image) listing → Repeats image head repeater.old
        → IfOk result (λ o. o ≡ None → AllNeeded listing image head kind stretches.now) }
    ensures less { IfOk result (λ o. IfSome o (λ xs. interrupts_in xs.items < interrupts_in stretches.now)) }
    ensures leaves { IfOk result (λ o. IfSome o (λ xs. LeavesOut xs.items stretches.now)) }
    ensures sound { IfOk result (λ o. IfSome o (λ xs. All (IsStretch (most_irq head.format)) xs.items)) }
    ensures again { (image : List Segment) → Repeats image head repeater.old → Repeats image head repeater.new }
{
    let left = interrupts_in(stretches);
    for kept in 0..left {
        progress.shortening(left);
        let fewer = shorter(alloc, repeater, head, kind, stretches, kept, 1)?;
        if fewer.is_some() {
            return Ok(fewer);
        }
    }
    Ok(None)
}

/// Takes out interrupts one at a time, until without any one of those that are left the outcome is another.
fn needed<P: Progress>(
    alloc: Global,
    repeater: &mut Repeater,
    head: Head,
    kind: Kind,
    stretches: Vec<Stretch>,
    progress: &mut P,
) -> Result<Vec<Stretch>, OutOfMemory>
    requires repeats { (image : List Segment) × Repeats image head repeater.old }
    requires sound { All (IsStretch (most_irq head.format)) stretches.items }
    requires room { total (map stretch_line stretches.items) ≤ most_ticks }
    ensures kind { (image : List Segment) (listing : Listing) → IsListing (flash_byte image) listing → Repeats image head repeater.old
        → EndsAs listing image kind (with_stretches stretches.items (bare head))
        → IfOk result (λ xs. EndsAs listing image kind (with_stretches xs.items (bare head))) }
    ensures last { (image : List Segment) (listing : Listing) → IsListing (flash_byte image) listing → Repeats image head repeater.old
        → EndsInLast listing image head stretches.items → IfOk result (λ xs. EndsInLast listing image head xs.items) }
    ensures needed { (image : List Segment) (listing : Listing) → IsListing (flash_byte image) listing → Repeats image head repeater.old
        → IfOk result (λ xs. AllNeeded listing image head kind xs.items) }
    ensures fewer { IfOk result (λ xs. total (map stretch_line xs.items) ≤ total (map stretch_line stretches.items)) }
    ensures leaves { IfOk result (λ xs. LeavesOut xs.items stretches.items) }
    ensures sound { IfOk result (λ xs. All (IsStretch (most_irq head.format)) xs.items) }
    ensures again { (image : List Segment) → Repeats image head repeater.old → Repeats image head repeater.new }
{
    let mut best = stretches;
    while let Some(fewer) = without_one(alloc, repeater, head, kind, &best, progress)? {
        best = fewer;
    }
    Ok(best)
}

/// Stretches under which an image has the same kind of outcome, made shorter: cut off behind the tick that ended the run, and then with interrupts taken out
/// as long as the outcome stays, first all, then half of them at a time, and so on down to each alone, until no one of them can be left out.
pub fn shrink<P: Progress>(
    alloc: Global,
    repeater: &mut Repeater,
    head: Head,
    ended: Ended,
    stretches: &[Stretch],
    progress: &mut P,
) -> Result<Vec<Stretch>, OutOfMemory>
    requires repeats { (image : List Segment) × Repeats image head repeater.old }
    requires sound { All (IsStretch (most_irq head.format)) stretches.now }
    requires room { total (map stretch_line stretches.now) ≤ most_ticks }
    ensures kind { (image : List Segment) (listing : Listing) → IsListing (flash_byte image) listing → Repeats image head repeater.old
        → ended ≡ ended_under listing image (with_stretches stretches.now (bare head))
        → IfOk result (λ xs. EndsAs listing image ended.kind (with_stretches xs.items (bare head))) }
    ensures last { (image : List Segment) (listing : Listing) → IsListing (flash_byte image) listing → Repeats image head repeater.old
        → ended ≡ ended_under listing image (with_stretches stretches.now (bare head))
        → IfOk result (λ xs. EndsInLast listing image head xs.items) }
    ensures needed { (image : List Segment) (listing : Listing) → IsListing (flash_byte image) listing → Repeats image head repeater.old
        → IfOk result (λ xs. AllNeeded listing image head ended.kind xs.items) }
    ensures few { IfOk result (λ xs. total (map stretch_line xs.items) ≤ ended.ticks) }
    ensures fewer { IfOk result (λ xs. total (map stretch_line xs.items) ≤ total (map stretch_line stretches.now)) }
    ensures leaves { IfOk result (λ xs. LeavesOut xs.items stretches.now) }
    ensures sound { IfOk result (λ xs. All (IsStretch (most_irq head.format)) xs.items) }
    ensures again { (image : List Segment) → Repeats image head repeater.old → Repeats image head repeater.new }
{
    let mut best = cut(alloc, stretches, ended.ticks)?;
    let mut size = interrupts_in(&best);
    while size > 0 {
        best = thinned(alloc, repeater, head, ended.kind, best, size, progress)?;
        size /= 2;
    }
    needed(alloc, repeater, head, ended.kind, best, progress)
}
