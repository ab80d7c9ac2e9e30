//! What the commands that show a run tick by tick come to.

ghost use Rattle.std.specs.Prelude.{◌≡◌, ◌+◌, ◌≤◌, List, Result, get_or, length, map, [], All};
ghost use Rattle.hm_base.specs.Image.{Segment};
ghost use Rattle.hm_codes.specs.Listing.{Listing};
ghost use Rattle.hm_work.specs.Images.{image_of};
ghost use Rattle.hm_host.specs.Host.{longest};
ghost use Rattle.hm_sched.specs.ReadFile.{Gives as GivesSchedule};
ghost use Rattle.hm_words.specs.Words.{source_meant, source_reads};
ghost use Rattle.hm_work.specs.Commands.{AreListings, IsCompared, IsDebugOutcome, IsJournalOutcome, IsMigrateOutcome, IsReplayOutcome, OfRun};
ghost use Rattle.hm_work.specs.Commands.{UnlessRefused, journal_written, last_read, tick_outcome};
ghost use Rattle.hm_work.specs.RunInputs.{GivesRun};
ghost use Rattle.hm_work.specs.Run.{reset_refusal, schedule_in};
ghost use Rattle.hm_work.specs.Work.{GivesOne};

use crate::images::read_any;
use crate::work::{Finish, Stop};
use hm_base::Image;
use hm_debug::{check_script, script};
use hm_journal::{Journal, JournalErr, MOST_CHECKPOINTS, compare, read_journal, write_journal};
use hm_machine::{Machine, Tape};
use hm_sched::{SchedErr, Schedule, parse, plain};
use hm_words::{Every, Source, Ticks};
use std::alloc::Global;

/// An image and a schedule, as they were read.
#[derive(Drop)]
pub struct RunInput {
    pub image: Image,
    pub schedule: Schedule,
}

/// The schedule of a run, from the contents of the files that were read: behind the image, where it is a file.
pub fn read_schedule(
    alloc: Global,
    schedule: &Source<'_>,
    contents: &[Vec<u8>],
) -> Result<Schedule, SchedErr>
    requires each { 1 + length (source_reads (source_meant schedule.now)) ≤ length contents.now }
    requires short { All (λ bytes. length bytes.items ≤ longest) contents.now }
    ensures exact { GivesSchedule (λ s. s) result (schedule_in (source_meant schedule.now) (get_or (map (λ bytes. bytes.items) contents.now) 1 [])) }
{
    match schedule {
        Source::Plain(ticks) => plain(alloc, ticks.count),
        Source::File(_) => parse(alloc, &contents[1]),
    }
}

/// The contents of the last file of a command that reads one behind an image and a schedule.
fn last_of<'a>(schedule: &Source<'_>, contents: &'a [Vec<u8>]) -> &'a [u8]
    requires each { length contents.now ≡ 2 + length (source_reads (source_meant schedule.now)) }
    ensures value { result.now ≡ last_read (source_meant schedule.now) (map (λ bytes. bytes.items) contents.now) }
{
    match schedule {
        Source::Plain(_) => &contents[1],
        Source::File(_) => &contents[2],
    }
}

/// An image and a schedule, from the contents of the files that were read.
pub fn read_run(
    alloc: Global,
    schedule: &Source<'_>,
    contents: &[Vec<u8>],
) -> Result<RunInput, Stop>
    requires each { 1 + length (source_reads (source_meant schedule.now)) ≤ length contents.now }
    requires short { All (λ bytes. length bytes.items ≤ longest) contents.now }
    ensures input { let all = map (λ bytes. bytes.items) contents.now in
        GivesRun (image_of (get_or all 0 [])) (schedule_in (source_meant schedule.now) (get_or all 1 [])) result }
{
    let image = read_any(alloc, &contents[0])?;
    let schedule = read_schedule(alloc, schedule, contents)?;
    Ok(RunInput { image, schedule })
}

/// The answers of a script over a run, which are to be printed.
fn answers<'a>(alloc: Global, input: RunInput, text: &[u8]) -> Result<Finish<'a>, Stop>
    ensures outcome { (listings : List Segment → Listing) → AreListings listings
        → GivesOne (IsDebugOutcome listings text.now input.image input.schedule) result }
{
    check_script(text)?;
    let RunInput { image, schedule } = input;
    let mut tape = Tape::new(alloc, &image, schedule)?;
    let answers = script(alloc, &mut tape, text)?;
    Ok(Finish::printed(answers))
}

/// Does a script over a run, from the contents of the files.
pub fn debug<'a>(
    alloc: Global,
    schedule: &Source<'_>,
    contents: &[Vec<u8>],
) -> Result<Finish<'a>, Stop>
    requires each { length contents.now ≡ 2 + length (source_reads (source_meant schedule.now)) }
    requires short { All (λ bytes. length bytes.items ≤ longest) contents.now }
    ensures outcome { (listings : List Segment → Listing) → AreListings listings → let all = map (λ bytes. bytes.items) contents.now in
        GivesOne (OfRun (image_of (get_or all 0 [])) (schedule_in (source_meant schedule.now) (get_or all 1 []))
        (IsDebugOutcome listings (last_read (source_meant schedule.now) all))) result }
{
    let input = read_run(alloc, schedule, contents)?;
    answers(alloc, input, last_of(schedule, contents))
}

/// The journal of a run, which is to be written.
fn write<'a>(alloc: Global, input: RunInput, every: Every, out: &'a str) -> Result<Finish<'a>, Stop>
    ensures outcome { (listings : List Segment → Listing) → AreListings listings
        → GivesOne (IsJournalOutcome listings every.ticks out.now input.image input.schedule) result }
{
    let RunInput { image, schedule } = input;
    // One with too many checkpoints is refused before the run, but behind the reset address.
    if schedule.ticks() / every.ticks + 1 > MOST_CHECKPOINTS {
        Machine::load(alloc, &image, schedule)?;
        return Err(Stop::from(JournalErr::TooMany));
    }
    let mut tape = Tape::new(alloc, &image, schedule)?;
    let bytes = write_journal(alloc, &mut tape, every.ticks)?;
    Ok(Finish::written(out, bytes))
}

/// Writes the journal of a run, from the contents of the files.
pub fn journal<'a>(
    alloc: Global,
    schedule: &Source<'_>,
    every: Every,
    contents: &[Vec<u8>],
    out: &'a str,
) -> Result<Finish<'a>, Stop>
    requires each { length contents.now ≡ 1 + length (source_reads (source_meant schedule.now)) }
    requires short { All (λ bytes. length bytes.items ≤ longest) contents.now }
    ensures outcome { (listings : List Segment → Listing) → AreListings listings → let all = map (λ bytes. bytes.items) contents.now in
        GivesOne (OfRun (image_of (get_or all 0 [])) (schedule_in (source_meant schedule.now) (get_or all 1 []))
        (IsJournalOutcome listings every.ticks out.now)) result }
{
    let input = read_run(alloc, schedule, contents)?;
    write(alloc, input, every, out)
}

/// Compares a journal with a run. The report at a tick is to be printed.
fn check<'a>(
    alloc: Global,
    input: RunInput,
    journal: &Journal,
    tick: Ticks,
) -> Result<Finish<'a>, Stop>
    ensures outcome { (listings : List Segment → Listing) → AreListings listings
        → GivesOne (UnlessRefused (reset_refusal input.image)
        (IsCompared listings input.image input.schedule (tick_outcome listings input.image input.schedule tick.count) journal.now)) result }
{
    let RunInput { image, schedule } = input;
    let mut tape = Tape::new(alloc, &image, schedule)?;
    compare(alloc, journal, &mut tape)?;
    let machine = tape.at(tick.count)?;
    let report = machine.report(alloc)?;
    Ok(Finish::printed(report))
}

/// Checks a journal against a run, from the contents of the files. The report at a tick is to be printed.
pub fn replay<'a>(
    alloc: Global,
    schedule: &Source<'_>,
    tick: Ticks,
    contents: &[Vec<u8>],
) -> Result<Finish<'a>, Stop>
    requires each { length contents.now ≡ 2 + length (source_reads (source_meant schedule.now)) }
    requires short { All (λ bytes. length bytes.items ≤ longest) contents.now }
    ensures outcome { (listings : List Segment → Listing) → AreListings listings → let all = map (λ bytes. bytes.items) contents.now in
        GivesOne (OfRun (image_of (get_or all 0 [])) (schedule_in (source_meant schedule.now) (get_or all 1 []))
        (IsReplayOutcome listings (last_read (source_meant schedule.now) all) tick.count)) result }
{
    let input = read_run(alloc, schedule, contents)?;
    let journal = read_journal(alloc, last_of(schedule, contents))?;
    check(alloc, input, &journal, tick)
}

/// Compares a journal with a run. The run's journal, with the same distance of checkpoints, is to be written.
fn rewrite<'a>(
    alloc: Global,
    input: RunInput,
    given: &Journal,
    out: &'a str,
) -> Result<Finish<'a>, Stop>
    ensures outcome { (listings : List Segment → Listing) → AreListings listings
        → GivesOne (UnlessRefused (reset_refusal input.image)
        (IsCompared listings input.image input.schedule (journal_written listings given.now.every out.now input.image input.schedule) given.now)) result }
{
    let RunInput { image, schedule } = input;
    let mut tape = Tape::new(alloc, &image, schedule)?;
    compare(alloc, given, &mut tape)?;
    let bytes = write_journal(alloc, &mut tape, given.every())?;
    Ok(Finish::written(out, bytes))
}

/// Checks a journal of format 1 or 2 against a run, from the contents of the files, and writes the run's journal in format 2.
pub fn migrate<'a>(
    alloc: Global,
    schedule: &Source<'_>,
    contents: &[Vec<u8>],
    out: &'a str,
) -> Result<Finish<'a>, Stop>
    requires each { length contents.now ≡ 2 + length (source_reads (source_meant schedule.now)) }
    requires short { All (λ bytes. length bytes.items ≤ longest) contents.now }
    ensures outcome { (listings : List Segment → Listing) → AreListings listings → let all = map (λ bytes. bytes.items) contents.now in
        GivesOne (OfRun (image_of (get_or all 0 [])) (schedule_in (source_meant schedule.now) (get_or all 1 []))
        (IsMigrateOutcome listings (last_read (source_meant schedule.now) all) out.now)) result }
{
    let input = read_run(alloc, schedule, contents)?;
    let journal = read_journal(alloc, last_of(schedule, contents))?;
    rewrite(alloc, input, &journal, out)
}
