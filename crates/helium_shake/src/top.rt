//! The top call: words, reads, the shake, the files that are written, and the print.

ghost use Rattle.std.specs.Prelude.{◌≡◌, ◌≤◌, ◌∷◌, [], List, Some, Err, All, length, map, string_bytes};
ghost use Rattle.hm_base.specs.Image.{Segment};
ghost use Rattle.hm_codes.specs.Listing.{Listing};
ghost use Rattle.hm_commands.specs.Calls.{MakesCalls, answer_way, way_of};
ghost use Rattle.hm_work.specs.Commands.{AreListings};
ghost use Rattle.hm_host.specs.Host.{Counts, Stays, Writes, longest};
ghost use Rattle.helium_shake.specs.Effects.{Carries, Effect, GivesEffect, IsEffectFor, IsRunEffect, Shakes, WritesFiles, calls_for, file_of};
ghost use Rattle.helium_shake.specs.Effects.{found_effect, refused_effect, status_for, write_call};
ghost use Rattle.helium_shake.specs.Texts.{file_name};
ghost use Rattle.helium_shake.specs.Words.{asked_of, meant};

use crate::command::Command;
use crate::texts::{file_name, findings_text};
use crate::words::parse;
use hm_commands::{Status, failure, read_all, refuse, say_usage};
use hm_host::{Host, HostErr};
use hm_shake::{Findings, Progress, Written, shake};
use hm_words::Source;
use hm_work::{Refusal, RunInput, Stop, read_run};
use std::alloc::Global;

/// What is found of an image under a schedule.
fn found<P: Progress>(
    alloc: Global,
    command: &Command<'_>,
    input: &RunInput,
    progress: &mut P,
) -> Result<Findings, Stop>
    ensures effect { (listings : List Segment → Listing) → AreListings listings
        → GivesEffect (IsRunEffect listings (meant command.now) input.now.image input.now.schedule) (meant command.now).schedule result }
{
    let findings = shake(
        alloc,
        &input.image,
        &input.schedule,
        command.runs,
        command.seed,
        progress,
    )?;
    Ok(findings)
}

/// What the words come to, from the contents of the image and of the schedule.
fn perform<P: Progress>(
    alloc: Global,
    command: &Command<'_>,
    contents: &[Vec<u8>],
    progress: &mut P,
) -> Result<Findings, Stop>
    requires each { length contents.now ≡ 2 }
    requires short { All (λ bytes. length bytes.items ≤ longest) contents.now }
    ensures effect { (listings : List Segment → Listing) → AreListings listings
        → GivesEffect (IsEffectFor listings (meant command.now) (map (λ bytes. bytes.items) contents.now)) (meant command.now).schedule result }
{
    let input = read_run(alloc, &Source::File(command.schedule), contents)?;
    found(alloc, command, &input, progress)
}

/// Writes the file of a kind.
fn write_file<H: Host>(
    alloc: Global,
    schedule: &str,
    file: &Written,
    host: &mut H,
) -> Result<(), HostErr>
    ensures files { Writes (file_name schedule.now file.now.kind) file.now.bytes.items (H.state host.old).files (H.state host.new).files result }
    ensures printed { Stays (H.state host.old).printed (H.state host.new).printed }
    ensures calls { MakesCalls (write_call (file_of schedule.now file.now) ∷ []) (H.state host.old).calls (H.state host.new).calls (answer_way result) }
    ensures count { Counts (H.state host.old).faults (H.state host.new).faults result }
{
    match file_name(alloc, schedule, file.kind) {
        Ok(name) => host.write(alloc, name.as_str(), &file.bytes),
        Err(_) => Err(HostErr::OutOfMemory),
    }
}

/// Writes the files, one after another.
fn write_files<H: Host>(
    alloc: Global,
    schedule: &str,
    files: &[Written],
    host: &mut H,
) -> Result<(), HostErr>
    ensures files { WritesFiles (map (file_of schedule.now) files.now) (H.state host.old).files (H.state host.new).files result }
    ensures printed { Stays (H.state host.old).printed (H.state host.new).printed }
    ensures calls { MakesCalls (map write_call (map (file_of schedule.now) files.now)) (H.state host.old).calls (H.state host.new).calls (answer_way result) }
    ensures count { Counts (H.state host.old).faults (H.state host.new).faults result }
{
    for file in files {
        write_file(alloc, schedule, file, host)?;
    }
    Ok(())
}

/// The status of what was found: `Ended` where a kind has a file.
fn status_of(findings: &Findings) -> Status
    ensures value { result ≡ status_for findings.now.files.items }
{
    if findings.files.is_empty() {
        Status::Done
    } else {
        Status::Ended
    }
}

/// Tells what was found: it writes the files, and then prints the text.
fn tell<H: Host>(alloc: Global, schedule: &str, findings: &Findings, host: &mut H) -> Status
    ensures effect { Carries (found_effect schedule.now findings.now) (H.state host.old) (H.state host.new) result }
    ensures calls { MakesCalls (calls_for (found_effect schedule.now findings.now)) (H.state host.old).calls (H.state host.new).calls (way_of result) }
{
    let Ok(said) = findings_text(alloc, schedule, findings) else {
        return Status::NoMemory;
    };
    match write_files(alloc, schedule, &findings.files, host) {
        Err(e) => failure(e),
        Ok(()) => match host.print(alloc, &said) {
            Err(e) => failure(e),
            Ok(()) => status_of(findings),
        },
    }
}

/// Says why it is refused.
fn say_refused<H: Host>(alloc: Global, why: Refusal, host: &mut H) -> Status
    ensures effect { Carries (refused_effect why) (H.state host.old) (H.state host.new) result }
    ensures calls { MakesCalls (calls_for (refused_effect why)) (H.state host.old).calls (H.state host.new).calls (way_of result) }
{
    refuse(alloc, why, host)
}

/// Tells what was found, or why it is refused.
fn conclude<H: Host>(
    alloc: Global,
    schedule: &str,
    found: Result<Findings, Stop>,
    host: &mut H,
) -> Status
    ensures effect { (e : Effect) → GivesEffect (λ x. x ≡ e) schedule.now found → Carries e (H.state host.old) (H.state host.new) result }
    ensures calls { (e : Effect) → GivesEffect (λ x. x ≡ e) schedule.now found
        → MakesCalls (calls_for e) (H.state host.old).calls (H.state host.new).calls (way_of result) }
    ensures wanted { found ≡ Err Stop.NoMemory → (result ≡ Status.NoMemory) × (H.state host.new ≡ H.state host.old) }
{
    match found {
        Ok(findings) => tell(alloc, schedule, &findings, host),
        Err(Stop::Refused(why)) => say_refused(alloc, why, host),
        Err(Stop::NoMemory) => Status::NoMemory,
    }
}

/// Does what the words ask for.
fn obey<H: Host, P: Progress>(
    alloc: Global,
    command: &Command<'_>,
    host: &mut H,
    progress: &mut P,
) -> Status
    ensures effect { (listings : List Segment → Listing) → AreListings listings
        → Shakes listings (Some (meant command.now)) (H.state host.old) (H.state host.new) result }
{
    match read_all(alloc, &[command.image, command.schedule], host) {
        Ok(contents) => {
            let found = perform(alloc, command, &contents, progress);
            conclude(alloc, command.schedule, found, host)
        }
        Err(HostErr::TooLarge) => say_refused(alloc, Refusal::FileTooLarge, host),
        Err(HostErr::Failed) => Status::HostFault,
        Err(HostErr::OutOfMemory) => Status::NoMemory,
    }
}

/// Does what the words ask for: it reads the image and the schedule, runs, writes a schedule for each kind of outcome that is not the plain run's, and prints
/// what was found.
///
/// The text is made before the first file is written, and printed behind the last. Want of memory prints nothing.
pub fn helium_shake<H: Host, P: Progress>(
    alloc: Global,
    words: &[String],
    host: &mut H,
    progress: &mut P,
) -> Status
    ensures effect { (listings : List Segment → Listing) → AreListings listings
        → Shakes listings (asked_of (map string_bytes words.now)) (H.state host.old) (H.state host.new) result }
{
    match parse(words) {
        Some(command) => obey(alloc, &command, host, progress),
        None => say_usage(alloc, b"helium-shake: usage\n", host),
    }
}
