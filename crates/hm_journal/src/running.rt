//! The journal of a run: written, and compared with another run.

ghost use Rattle.std.specs.Prelude.{◌≡◌, ◌↔◌, ◌*◌, ◌/◌, ◌+◌, ◌≤◌, List, length, map, string_bytes, IfOk, IfErr, OnOk, IsTrue};
ghost use Rattle.hm_base.specs.Image.{Segment, flash_byte};
ghost use Rattle.hm_codes.specs.Listing.{Listing, IsListing};
ghost use Rattle.hm_journal.specs.Journals.{IsJournalFile, journal_text, most_checkpoints};
ghost use Rattle.hm_journal.specs.Runs.{AreOfRun, IsCompareErr, IsOfRun, IsWriteErr, journal_of, report_at};
ghost use Rattle.hm_journal.specs.Views.{checkpoint_of};
ghost use Rattle.hm_machine.specs.Taped.{Tapes};
ghost use Rattle.hm_sched.specs.Schedule.{Sched, most_ticks, ticks_of};

use crate::formats::is_report;
use crate::journal::{Checkpoint, FORMAT, Journal, JournalErr, MOST_CHECKPOINTS};
use crate::writing::journal_text;
use hm_base::OutOfMemory;
use hm_machine::Tape;
use std::alloc::Global;

/// The report at a tick that the run begins.
fn report_at(alloc: Global, tape: &mut Tape, tick: u32) -> Result<String, OutOfMemory>
    requires { tick ≤ tape.old.last }
    ensures stays { tape.new ≡ tape.old }
    ensures report { IfOk result (λ r. (image : List Segment) (s : Sched) (listing : Listing) → IsListing (flash_byte image) listing → Tapes image s tape.old
        → string_bytes r ≡ report_at listing image s tick) }
{
    let Ok(machine) = tape.at(tick) else {
        unreachable!()
    };
    let bytes = machine.report(alloc)?;
    match String::from_utf8(bytes) {
        Ok(report) => Ok(report),
        Err(_) => unreachable!(),
    }
}

/// The checkpoints of the run.
fn checkpoints(alloc: Global, tape: &mut Tape, every: u32) -> Result<Vec<Checkpoint>, OutOfMemory>
    requires { 1 ≤ every }
    ensures stays { tape.new ≡ tape.old }
    ensures checkpoints { IfOk result
        (λ v. (image : List Segment) (s : Sched) (listing : Listing) → IsListing (flash_byte image) listing → Tapes image s tape.old
        → map checkpoint_of v.items ≡ (journal_of listing image s every).checkpoints) }
{
    let last = tape.last() as u64;
    let step = every as u64;
    let mut checkpoints = Vec::new(alloc);
    for k in 0..last / step + 1 {
        let tick = (k * step) as u32;
        let report = report_at(alloc, tape, tick)?;
        checkpoints.push(Checkpoint { tick, report })?;
    }
    Ok(checkpoints)
}

/// Writes the journal of the run, of format 2, with a checkpoint at tick 0 and from there on at each so many ticks. TooMany exactly where the ticks
/// of the schedule, divided by `every`, and one more are more than `MOST_CHECKPOINTS`. The tape is as it was.
pub fn write_journal(alloc: Global, tape: &mut Tape, every: u32) -> Result<Vec<u8>, JournalErr>
    requires some { 1 ≤ every }
    ensures stays { tape.new ≡ tape.old }
    ensures text { IfOk result (λ out. (image : List Segment) (s : Sched) (listing : Listing) → IsListing (flash_byte image) listing → Tapes image s tape.old
        → out.items ≡ journal_text (journal_of listing image s every)) }
    ensures few { OnOk result ((image : List Segment) (s : Sched) → Tapes image s tape.old → length (ticks_of s.lines) / every + 1 ≤ most_checkpoints) }
    ensures refused { IfErr result (λ e. (image : List Segment) (s : Sched) → Tapes image s tape.old → IsWriteErr s every e) }
    // It is read back, where it is read at all.
    ensures reads_back { IfOk result
        (λ out. (image : List Segment) (s : Sched) (listing : Listing) → IsListing (flash_byte image) listing → Tapes image s tape.old
        → every ≤ most_ticks → IsJournalFile out.items (journal_of listing image s every)) }
{
    if tape.scheduled() / every + 1 > MOST_CHECKPOINTS {
        return Err(JournalErr::TooMany);
    }
    let checkpoints = checkpoints(alloc, tape, every)?;
    let text = journal_text(alloc, FORMAT, every, &checkpoints)?;
    Ok(text.into_bytes())
}

/// Whether a checkpoint of a journal of a format is the run's.
fn is_of_run(
    alloc: Global,
    format: u32,
    x: &Checkpoint,
    tape: &mut Tape,
) -> Result<bool, OutOfMemory>
    ensures stays { tape.new ≡ tape.old }
    ensures told { IfOk result (λ b. (image : List Segment) (s : Sched) (listing : Listing) → IsListing (flash_byte image) listing → Tapes image s tape.old
        → (IsTrue b ↔ IsOfRun listing image s format (checkpoint_of x.now))) }
{
    let Ok(machine) = tape.at(x.tick) else {
        return Ok(false);
    };
    let report = machine.report(alloc)?;
    Ok(is_report(format, &report, x.report.as_bytes()))
}

/// Whether checkpoints of a journal of a format are the run's.
fn compare_all(
    alloc: Global,
    format: u32,
    checkpoints: &[Checkpoint],
    tape: &mut Tape,
) -> Result<(), JournalErr>
    ensures stays { tape.new ≡ tape.old }
    ensures same { OnOk result ((image : List Segment) (s : Sched) (listing : Listing) → IsListing (flash_byte image) listing → Tapes image s tape.old
        → AreOfRun listing image s format (map checkpoint_of checkpoints.now)) }
    ensures refused { IfErr result (λ e. (image : List Segment) (s : Sched) (listing : Listing) → IsListing (flash_byte image) listing → Tapes image s tape.old
        → IsCompareErr listing image s format (map checkpoint_of checkpoints.now) e) }
{
    for x in checkpoints {
        if !is_of_run(alloc, format, x, tape)? {
            return Err(JournalErr::Differs { tick: x.tick });
        }
    }
    Ok(())
}

/// Compares a journal with the run. Ok exactly where the run begins each checkpoint's tick and has its report there, without the system's line for a journal of
/// format 1, else Differs at the first that is not so. The journal may end before the run does. The tape is as it was.
pub fn compare(alloc: Global, j: &Journal, tape: &mut Tape) -> Result<(), JournalErr>
    ensures stays { tape.new ≡ tape.old }
    ensures same { OnOk result ((image : List Segment) (s : Sched) (listing : Listing) → IsListing (flash_byte image) listing → Tapes image s tape.old
        → AreOfRun listing image s j.now.format j.now.checkpoints) }
    ensures refused { IfErr result (λ e. (image : List Segment) (s : Sched) (listing : Listing) → IsListing (flash_byte image) listing → Tapes image s tape.old
        → IsCompareErr listing image s j.now.format j.now.checkpoints e) }
{
    compare_all(alloc, j.format, &j.checkpoints, tape)
}
