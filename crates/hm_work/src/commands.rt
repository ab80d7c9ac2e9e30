//! What each command comes to, from the bytes of the files that it reads. No command calls the host.

ghost use Rattle.std.specs.Prelude.{◌≡◌, ◌≤◌, List, [], Result, Ok, length, map, All};
ghost use Rattle.hm_base.specs.Image.{Segment};
ghost use Rattle.hm_codes.specs.Listing.{Listing};
ghost use Rattle.hm_work.specs.Images.{image_of};
ghost use Rattle.hm_host.specs.Host.{longest};
ghost use Rattle.hm_sched.specs.Schedule.{Sched, plain};
ghost use Rattle.hm_sched.specs.ReadFile.{Gives as GivesSchedule};
ghost use Rattle.hm_sched.specs.declared.errors.SchedErr.{SchedErr};
ghost use Rattle.hm_words.specs.Words.{run, source_meant, meant, reads_of};
ghost use Rattle.hm_work.specs.Work.{Gives, GivesOne};
ghost use Rattle.hm_work.specs.Commands.{AreListings, ComesTo, IsAsmOutcome, IsDisOutcome, IsKernelOutcome, IsSoakOutcome, hex_outcome, plan_outcome};
ghost use Rattle.hm_work.specs.Commands.{run_outcome, seq_outcome};

use crate::images::read_any;
use crate::machine::{is_halted, run_to_end};
use crate::tapes::{debug, journal, migrate, read_schedule, replay};
use crate::work::{Finish, Output, Stop};
use hm_asm::{assemble, listing};
use hm_elf::write_image;
use hm_ihex::write_hex;
use hm_kernel::compile;
use hm_plan::plan;
use hm_sched::{SchedErr, Schedule, plain, print};
use hm_soak::summary;
use hm_words::{Command, Planned, Range, Source, Ticks};
use std::alloc::Global;

/// The schedule of so many ticks of one whole instruction each. It is refused for want of memory alone.
fn plain_schedule(alloc: Global, ticks: Ticks) -> Result<Schedule, SchedErr>
    ensures { GivesSchedule (λ s. s) result (Ok (plain ticks.count)) }
{
    plain(alloc, ticks.count)
}

/// Runs an image under a schedule, as it was read. Its memory is to be written, and its report to be printed.
fn run_under<'a>(
    alloc: Global,
    image: &[u8],
    schedule: Result<Schedule, SchedErr>,
    memory: &'a str,
) -> Result<Finish<'a>, Stop>
    requires short { length image.now ≤ longest }
    ensures { (listings : List Segment → Listing) → AreListings listings → (read : Result Sched SchedErr) → GivesSchedule (λ s. s) schedule read
        → Gives (run_outcome listings (image_of image.now) read memory.now) result }
{
    let image = read_any(alloc, image)?;
    let schedule = schedule?;
    let machine = run_to_end(alloc, &image, schedule)?;
    Ok(Finish {
        done: is_halted(machine.outcome()),
        file: Some(Output {
            name: memory,
            bytes: machine.memory_file(alloc)?,
        }),
        text: Some(machine.report(alloc)?),
    })
}

/// Runs an image under the schedule of its source, from the contents of the files.
fn run<'a>(
    alloc: Global,
    schedule: &Source<'_>,
    contents: &[Vec<u8>],
    memory: &'a str,
) -> Result<Finish<'a>, Stop>
    requires each { length contents.now ≡ length (reads_of (run [] (source_meant schedule.now) [])) }
    requires short { All (λ bytes. length bytes.items ≤ longest) contents.now }
    ensures { (listings : List Segment → Listing) → AreListings listings
        → GivesOne (ComesTo listings (run [] (source_meant schedule.now) memory.now) (map (λ bytes. bytes.items) contents.now)) result }
{
    let read = read_schedule(alloc, schedule, contents);
    run_under(alloc, &contents[0], read, memory)
}

/// Runs so many whole instructions of an image in order. The report is to be printed, of a fault the first line alone.
fn seq<'a>(alloc: Global, image: &[u8], ticks: Ticks) -> Result<Finish<'a>, Stop>
    requires short { length image.now ≤ longest }
    ensures { (listings : List Segment → Listing) → AreListings listings → Gives (seq_outcome listings (image_of image.now) ticks.count) result }
{
    let image = read_any(alloc, image)?;
    let schedule = plain_schedule(alloc, ticks)?;
    let machine = run_to_end(alloc, &image, schedule)?;
    Ok(Finish {
        done: is_halted(machine.outcome()),
        file: None,
        text: Some(machine.short_report(alloc)?),
    })
}

/// Lists a range of an image's flash. The listing is to be printed.
fn dis<'a>(alloc: Global, image: &[u8], range: Range) -> Result<Finish<'a>, Stop>
    requires short { length image.now ≤ longest }
    ensures { GivesOne (IsDisOutcome (image_of image.now) range.lo range.hi) result }
{
    let image = read_any(alloc, image)?;
    let lines = listing(alloc, &image, range.lo, range.hi)?;
    Ok(Finish::printed(lines))
}

/// Assembles a source. Its image is to be written, as an ELF file.
fn asm<'a>(alloc: Global, source: &[u8], out: &'a str) -> Result<Finish<'a>, Stop>
    requires short { length source.now ≤ longest }
    ensures { GivesOne (IsAsmOutcome source.now out.now) result }
{
    let image = assemble(alloc, source)?;
    let bytes = write_image(alloc, &image)?;
    Ok(Finish::written(out, bytes))
}

/// Runs the generated work of a number. The summary is to be printed.
fn soak<'a>(alloc: Global, number: u32) -> Result<Finish<'a>, Stop>
    ensures { GivesOne (IsSoakOutcome number) result }
{
    let summary = summary(alloc, number)?;
    Ok(Finish::printed(summary))
}

/// Plans so many instructions of an image. The schedule is to be written.
fn plan_to<'a>(
    alloc: Global,
    image: &[u8],
    count: Planned,
    out: &'a str,
) -> Result<Finish<'a>, Stop>
    requires short { length image.now ≤ longest }
    ensures { (listings : List Segment → Listing) → AreListings listings → Gives (plan_outcome listings (image_of image.now) count.count out.now) result }
{
    let image = read_any(alloc, image)?;
    let schedule = plan(alloc, &image, count.count)?;
    Ok(Finish::written(out, print(alloc, &schedule)?))
}

/// Writes an image of any form as Intel HEX.
fn hex_to<'a>(alloc: Global, image: &[u8], out: &'a str) -> Result<Finish<'a>, Stop>
    requires short { length image.now ≤ longest }
    ensures { Gives (hex_outcome (image_of image.now) out.now) result }
{
    let image = read_any(alloc, image)?;
    Ok(Finish::written(out, write_hex(alloc, &image)?))
}

/// Compiles a text of the array language. Its image is to be written, as an ELF file.
fn kernel<'a>(alloc: Global, source: &[u8], out: &'a str) -> Result<Finish<'a>, Stop>
    requires short { length source.now ≤ longest }
    ensures { GivesOne (IsKernelOutcome source.now out.now) result }
{
    let image = compile(alloc, source)?;
    let bytes = write_image(alloc, &image)?;
    Ok(Finish::written(out, bytes))
}

/// What a command comes to, from the contents of its files in order.
pub fn perform<'a>(
    alloc: Global,
    command: &Command<'a>,
    contents: &[Vec<u8>],
) -> Result<Finish<'a>, Stop>
    requires each { length contents.now ≡ length (reads_of (meant command.now)) }
    requires short { All (λ bytes. length bytes.items ≤ longest) contents.now }
    ensures { (listings : List Segment → Listing) → AreListings listings
        → GivesOne (ComesTo listings (meant command.now) (map (λ bytes. bytes.items) contents.now)) result }
{
    match command {
        Command::Run {
            schedule,
            memory,
            ..
        } => run(alloc, schedule, contents, memory),
        Command::Seq { ticks, .. } => seq(alloc, &contents[0], *ticks),
        Command::Dis { range, .. } => dis(alloc, &contents[0], *range),
        Command::Asm { out, .. } => asm(alloc, &contents[0], out),
        Command::Soak { number } => soak(alloc, *number),
        Command::Debug { schedule, .. } => debug(alloc, schedule, contents),
        Command::Journal {
            schedule,
            every,
            out,
            ..
        } => journal(alloc, schedule, *every, contents, out),
        Command::Replay { schedule, tick, .. } => replay(alloc, schedule, *tick, contents),
        Command::Migrate { schedule, out, .. } => migrate(alloc, schedule, contents, out),
        Command::Plan { count, out, .. } => plan_to(alloc, &contents[0], *count, out),
        Command::Hex { out, .. } => hex_to(alloc, &contents[0], out),
        Command::Kernel { out, .. } => kernel(alloc, &contents[0], out),
    }
}
