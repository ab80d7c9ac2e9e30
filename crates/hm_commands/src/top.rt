//! The top call: words, reads, the command, the written file, the print.

ghost use Rattle.std.specs.Prelude.{◌≡◌, ◌<◌, ◌++◌, List, Some, None, Err, map, option_map, string_bytes, IfOk};
ghost use Rattle.hm_base.specs.Image.{Segment};
ghost use Rattle.hm_codes.specs.Listing.{Listing};
ghost use Rattle.hm_work.specs.Commands.{AreListings};
ghost use Rattle.hm_commands.specs.Headline.{RunsInOrder, RunsToHeadline};
ghost use Rattle.hm_host.specs.Host.{FileMap, Rose, Stays};
ghost use Rattle.hm_words.specs.Words.{form_of, meant};
ghost use Rattle.hm_work.specs.Work.{Outcome, Gives, output_pair, refuses};
ghost use Rattle.hm_commands.specs.Effect.{Carries, Does, DoesEffect, Effect, IsComplete, IsEffect, StaysOrMakesAll, calls_for, effect_for, reads_for};
ghost use Rattle.hm_commands.specs.Effect.{usage_by, usage_effect, refused_line, failure_of};
ghost use Rattle.hm_commands.specs.Calls.{MakesCalls, print_calls, read_calls, way_of, write_calls};

use crate::outside::{print_text, read_all, write_file};
use crate::status::Status;
use hm_base::OutOfMemory;
use hm_host::{Host, HostErr};
use hm_text_base::text;
use hm_words::{Command, parse};
use hm_work::{Finish, Output, Refusal, Stop, perform};
use std::alloc::Global;

/// The status of a host's error, of which `TooLarge` comes of reads alone.
pub fn failure(e: HostErr) -> Status
    ensures value { result ≡ failure_of e }
{
    match e {
        HostErr::Failed | HostErr::TooLarge => Status::HostFault,
        HostErr::OutOfMemory => Status::NoMemory,
    }
}

/// Writes the file, prints the text, and ends with the status.
pub fn carry_out<H: Host>(
    alloc: Global,
    status: Status,
    file: &Option<Output<'_>>,
    text: &Option<Vec<u8>>,
    host: &mut H,
) -> Status
    requires { IsComplete status }
    ensures effect { Carries (record { status = status; file = option_map output_pair file.now; text = option_map (λ text. text.items) text.now })
        (H.state host.old) (H.state host.new) result }
    ensures calls { MakesCalls (write_calls (option_map output_pair file.now) ++ print_calls (option_map (λ text. text.items) text.now))
        (H.state host.old).calls (H.state host.new).calls (way_of result) }
    ensures spent { result ≡ Status.NoMemory
        → StaysOrMakesAll (write_calls (option_map output_pair file.now) ++ print_calls (option_map (λ text. text.items) text.now)) (H.state host.old)
        (H.state host.new) }
{
    match write_file(alloc, file, host) {
        Err(e) => failure(e),
        Ok(()) => match print_text(alloc, text, host) {
            Err(e) => failure(e),
            Ok(()) => status,
        },
    }
}

/// The line of a refusal.
fn make_refused_line(alloc: Global, why: Refusal) -> Result<Vec<u8>, OutOfMemory>
    ensures { IfOk result (λ line. line.items ≡ refused_line why) }
{
    let mut line = Vec::new(alloc);
    text(&mut line, b"helium: refused ")?;
    why.add_text(alloc, &mut line)?;
    text(&mut line, b"\n")?;
    Ok(line)
}

/// Prints the line that says how a program is used.
pub fn say_usage<H: Host>(alloc: Global, line: &[u8], host: &mut H) -> Status
    ensures effect { Carries (usage_by line.now) (H.state host.old) (H.state host.new) result }
    ensures calls { MakesCalls (calls_for (usage_by line.now)) (H.state host.old).calls (H.state host.new).calls (way_of result) }
{
    match line.to_vec(alloc) {
        Ok(line) => carry_out(alloc, Status::Usage, &None, &Some(line), host),
        Err(_) => Status::NoMemory,
    }
}

/// Says why a command is refused.
pub fn refuse<H: Host>(alloc: Global, why: Refusal, host: &mut H) -> Status
    ensures effect { Carries (effect_for (refuses why)) (H.state host.old) (H.state host.new) result }
    ensures calls { MakesCalls (calls_for (effect_for (refuses why))) (H.state host.old).calls (H.state host.new).calls (way_of result) }
{
    match make_refused_line(alloc, why) {
        Ok(line) => carry_out(alloc, Status::Refused, &None, &Some(line), host),
        Err(_) => Status::NoMemory,
    }
}

/// Does what a command comes to.
pub fn conclude<H: Host>(alloc: Global, outcome: Result<Finish<'_>, Stop>, host: &mut H) -> Status
    ensures effect { (o : Outcome) → Gives o outcome.entry → Carries (effect_for o) (H.state host.old) (H.state host.new) result }
    ensures calls { (o : Outcome) → Gives o outcome.entry
        → MakesCalls (calls_for (effect_for o)) (H.state host.old).calls (H.state host.new).calls (way_of result) }
    ensures spent { (o : Outcome) → Gives o outcome.entry → result ≡ Status.NoMemory
        → StaysOrMakesAll (calls_for (effect_for o)) (H.state host.old) (H.state host.new) }
    ensures wanted { outcome.entry ≡ Err Stop.NoMemory → (result ≡ Status.NoMemory) × (H.state host.new ≡ H.state host.old) }
{
    match outcome {
        Ok(finish) => {
            let status = if finish.done {
                Status::Done
            } else {
                Status::Ended
            };
            carry_out(alloc, status, &finish.file, &finish.text, host)
        }
        Err(Stop::Refused(why)) => refuse(alloc, why, host),
        Err(Stop::NoMemory) => Status::NoMemory,
    }
}

/// Does a command.
fn obey<H: Host>(alloc: Global, command: &Command<'_>, host: &mut H) -> Status
    ensures effect { (listings : List Segment → Listing) → AreListings listings
        → Does listings (Some (meant command.now)) (H.state host.old) (H.state host.new) result }
{
    let Ok(names) = command.reads(alloc) else {
        return Status::NoMemory;
    };
    match read_all(alloc, &names, host) {
        Ok(contents) => conclude(alloc, perform(alloc, command, &contents), host),
        Err(HostErr::TooLarge) => refuse(alloc, Refusal::FileTooLarge, host),
        Err(HostErr::Failed) => Status::HostFault,
        Err(HostErr::OutOfMemory) => Status::NoMemory,
    }
}

/// Does what the words ask for: it reads, runs, writes the file and prints the text.
///
/// Each text is made before the first is written, the file is written by one call of the host, and then the text is
/// printed by one. Want of memory prints nothing.
pub fn helium<H: Host>(alloc: Global, words: &[String], host: &mut H) -> Status
    // Where the host tells its files, one effect of the words is what the call does: its status, its file, its text and its calls.
    ensures effect { (listings : List Segment → Listing) → AreListings listings → (F : FileMap) → (H.state host.old).files ≡ Some F
        → (e : Effect) × IsEffect listings (map string_bytes words.now) F e
        × DoesEffect (read_calls F (reads_for (form_of (map string_bytes words.now)))) e (H.state host.old) (H.state host.new) result }
    // Of a run that is reported the headline and its riders hold.
    ensures headline { RunsToHeadline (map string_bytes words.now) (H.state host.old) (H.state host.new) result }
    // What `seq` shows is what so many instructions in order come to.
    ensures order { RunsInOrder (map string_bytes words.now) (H.state host.old) (H.state host.new) result }
    // Words that are no form are answered by the usage line, whatever the host tells.
    ensures usage { form_of (map string_bytes words.now) ≡ None → Carries usage_effect (H.state host.old) (H.state host.new) result }
    ensures usage_only { result ≡ Status.Usage → form_of (map string_bytes words.now) ≡ None }
    // The host's fault is answered only where its count rose or stands at its last value, and always where it rose.
    ensures fault { result ≡ Status.HostFault → Rose (H.state host.old).faults (H.state host.new).faults }
    ensures fault_always { (H.state host.old).faults < (H.state host.new).faults → result ≡ Status.HostFault }
    // Want of memory prints nothing.
    ensures memory { result ≡ Status.NoMemory → Stays (H.state host.old).printed (H.state host.new).printed }
{
    match parse(words) {
        Some(command) => obey(alloc, &command, host),
        None => say_usage(alloc, b"helium: usage\n", host),
    }
}
