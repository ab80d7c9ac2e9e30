//! The top call: words, reads, the trace, and the written file or the print.

ghost use Rattle.std.specs.Prelude.{◌≡◌, ◌≤◌, List, Some, map, option_map, string_bytes, All, length};
ghost use Rattle.hm_base.specs.Image.{Segment};
ghost use Rattle.hm_codes.specs.Listing.{Listing};
ghost use Rattle.hm_work.specs.Commands.{AreListings};
ghost use Rattle.hm_work.specs.Work.{GivesOne, finish_of};
ghost use Rattle.hm_host.specs.Host.{longest};
ghost use Rattle.helium_trace.specs.Effects.{ComesTo, IsTraceOutcome, Traces, form_for, traced};
ghost use Rattle.helium_trace.specs.Words.{asked_of, meant, reads_of};

use crate::words::{Command, parse};
use hm_commands::{Status, conclude, read_all, refuse, say_usage};
use hm_host::{Host, HostErr};
use hm_trace::{Form, trace};
use hm_work::{Finish, Refusal, RunInput, Stop, read_run};
use std::alloc::Global;

/// What is to be done with a trace: it is printed, or its page is written to a file.
fn finish<'a>(page: Option<&'a str>, bytes: Vec<u8>) -> Finish<'a>
    ensures value { finish_of result ≡ traced (option_map (λ out. out.now) page.entry) bytes.items }
{
    match page {
        Some(name) => Finish::written(name, bytes),
        None => Finish::printed(bytes),
    }
}

/// The form of a trace.
fn form_of(page: Option<&str>) -> Form
    ensures value { result ≡ form_for (option_map (λ out. out.now) page.entry) }
{
    if page.is_some() {
        Form::Page
    } else {
        Form::Lines
    }
}

/// The trace of a run, which is to be printed or written.
fn traced<'a>(alloc: Global, input: RunInput, command: &Command<'a>) -> Result<Finish<'a>, Stop>
    ensures outcome { (listings : List Segment → Listing) → AreListings listings
        → GivesOne (IsTraceOutcome listings (meant command.now) input.image input.schedule) result }
{
    let RunInput { image, schedule } = input;
    let bytes = trace(
        alloc,
        form_of(command.page),
        &image,
        schedule,
        command.ticks,
    )?;
    Ok(finish(command.page, bytes))
}

/// What the words come to, from the contents of the files in order.
fn perform<'a>(
    alloc: Global,
    command: &Command<'a>,
    contents: &[Vec<u8>],
) -> Result<Finish<'a>, Stop>
    requires each { length contents.now ≡ length (reads_of (meant command.now)) }
    requires short { All (λ bytes. length bytes.items ≤ longest) contents.now }
    ensures outcome { (listings : List Segment → Listing) → AreListings listings
        → GivesOne (ComesTo listings (meant command.now) (map (λ bytes. bytes.items) contents.now)) result }
{
    let input = read_run(alloc, &command.schedule, contents)?;
    traced(alloc, input, command)
}

/// Does what the words ask for.
fn obey<H: Host>(alloc: Global, command: &Command<'_>, host: &mut H) -> Status
    ensures effect { (listings : List Segment → Listing) → AreListings listings
        → Traces listings (Some (meant command.now)) (H.state host.old) (H.state host.new) result }
{
    let Ok(names) = command.reads(alloc) else {
        return Status::NoMemory;
    };
    match read_all(alloc, &names, host) {
        Ok(contents) => conclude(alloc, perform(alloc, command, &contents), host),
        Err(HostErr::TooLarge) => refuse(alloc, Refusal::FileTooLarge, host),
        Err(HostErr::Failed) => Status::HostFault,
        Err(HostErr::OutOfMemory) => Status::NoMemory,
    }
}

/// Does what the words ask for: it reads the image and the schedule, runs, and prints the trace or writes its page.
///
/// The text is made before the first byte of it is written or printed, by one call of the host. Want of memory prints nothing.
pub fn helium_trace<H: Host>(alloc: Global, words: &[String], host: &mut H) -> Status
    ensures effect { (listings : List Segment → Listing) → AreListings listings
        → Traces listings (asked_of (map string_bytes words.now)) (H.state host.old) (H.state host.new) result }
{
    match parse(words) {
        Some(command) => obey(alloc, &command, host),
        None => say_usage(alloc, b"helium-trace: usage\n", host),
    }
}
