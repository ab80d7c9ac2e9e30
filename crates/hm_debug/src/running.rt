//! Doing a script: each command, at the place where the one before it left off.

ghost use Rattle.std.specs.Prelude.{◌≡◌, ◌≤◌, List, IfOk, IfErr, OnOk};
ghost use Rattle.hm_base.specs.Image.{Segment, flash_byte};
ghost use Rattle.hm_codes.specs.Listing.{IsListing, Listing};
ghost use Rattle.hm_debug.specs.Answers.{Gives, IsAnswered, answer, answers};
ghost use Rattle.hm_debug.specs.Commands.{Fits, Says};
ghost use Rattle.hm_debug.specs.Films.{Film, IsFilm, film_of};
ghost use Rattle.hm_debug.specs.Scripts.{IsScript, SayAll, ScriptStops};
ghost use Rattle.hm_debug.specs.declared.command.Command.{Command};
ghost use Rattle.hm_machine.specs.Taped.{Tapes};
ghost use Rattle.hm_sched.specs.Schedule.{Sched};
ghost use Rattle.hm_text_base.specs.Spans.{lines_of};

use crate::checking::{check_script, next_line};
use crate::command::{Command, read_command};
use crate::errors::ScriptErr;
use crate::flash::add_listing;
use crate::memory::add_memory;
use crate::places::{go_to, go_until, machine_at, tell_tick};
use hm_base::OutOfMemory;
use hm_machine::Tape;
use hm_text_base::text;
use std::alloc::Global;

/// Adds the report at a tick, and answers that tick.
fn show(alloc: Global, out: &mut Vec<u8>, tape: &mut Tape, tick: u32) -> Result<u32, OutOfMemory>
    requires within { tick ≤ tape.old.last }
    ensures stays { tape.new ≡ tape.old }
    ensures within { IfOk result (λ place. place ≤ tape.old.last) }
    ensures gives { (f : Film) → IsFilm f tape.old
        → IfOk result (λ place. Gives (answer f Command.Show tick) out.old.items out.new.items place) }
{
    let report = machine_at(tape, tick).report(alloc)?;
    text(out, &report)?;
    Ok(tick)
}

/// Adds bytes of memory at a tick, and answers that tick.
fn show_memory(
    out: &mut Vec<u8>,
    tape: &mut Tape,
    addr: u32,
    len: u32,
    tick: u32,
) -> Result<u32, OutOfMemory>
    requires fits { Fits (Command.Memory addr len) }
    requires within { tick ≤ tape.old.last }
    ensures stays { tape.new ≡ tape.old }
    ensures within { IfOk result (λ place. place ≤ tape.old.last) }
    ensures gives { (f : Film) → IsFilm f tape.old
        → IfOk result (λ place. Gives (answer f (Command.Memory addr len) tick) out.old.items out.new.items place) }
{
    add_memory(out, machine_at(tape, tick), addr, len)?;
    Ok(tick)
}

/// Adds lines of the listing, told at a tick, and answers that tick: no tick changes flash.
fn show_listing(
    out: &mut Vec<u8>,
    tape: &mut Tape,
    addr: u32,
    count: u32,
    tick: u32,
) -> Result<u32, OutOfMemory>
    requires fits { Fits (Command.Listing addr count) }
    requires within { tick ≤ tape.old.last }
    ensures stays { tape.new ≡ tape.old }
    ensures within { IfOk result (λ place. place ≤ tape.old.last) }
    ensures gives { (f : Film) → IsFilm f tape.old
        → IfOk result (λ place. Gives (answer f (Command.Listing addr count) tick) out.old.items out.new.items place) }
{
    add_listing(out, machine_at(tape, tick), addr, count)?;
    Ok(tick)
}

/// Does a command at a place: adds its answer, and gives the place after it.
fn answer(
    alloc: Global,
    out: &mut Vec<u8>,
    tape: &mut Tape,
    command: Command,
    place: u32,
) -> Result<u32, OutOfMemory>
    requires fits { Fits command }
    requires within { place ≤ tape.old.last }
    ensures stays { tape.new ≡ tape.old }
    ensures within { IfOk result (λ next. next ≤ tape.old.last) }
    ensures gives { (f : Film) → IsFilm f tape.old → IfOk result (λ next. Gives (answer f command place) out.old.items out.new.items next) }
{
    let last = tape.last();
    match command {
        Command::Goto { tick } => go_to(alloc, out, last, tick),
        Command::Step => go_to(alloc, out, last, place + 1),
        Command::Back => tell_tick(alloc, out, place.saturating_sub(1)),
        Command::Until { addr } => go_until(alloc, out, tape, addr, place),
        Command::Show => show(alloc, out, tape, place),
        Command::Memory { addr, len } => show_memory(out, tape, addr, len, place),
        Command::Listing { addr, count } => show_listing(out, tape, addr, count, place),
    }
}

/// Does the command that a line says.
fn do_line(
    alloc: Global,
    out: &mut Vec<u8>,
    tape: &mut Tape,
    line: &[u8],
    place: u32,
) -> Result<u32, OutOfMemory>
    requires said { (c : Command) × Says line.now c }
    requires within { place ≤ tape.old.last }
    ensures stays { tape.new ≡ tape.old }
    ensures within { IfOk result (λ next. next ≤ tape.old.last) }
    ensures gives { (f : Film) (c : Command) → IsFilm f tape.old → Says line.now c
        → IfOk result (λ next. Gives (answer f c place) out.old.items out.new.items next) }
{
    match read_command(line) {
        Some(command) => answer(alloc, out, tape, command, place),
        None => unreachable!(),
    }
}

/// Does all lines of a script, from tick 0 on.
fn do_lines(alloc: Global, tape: &mut Tape, text: &[u8]) -> Result<Vec<u8>, OutOfMemory>
    requires said { (cs : List Command) × SayAll (lines_of text.now) cs }
    ensures stays { tape.new ≡ tape.old }
    ensures answers { (f : Film) (cs : List Command) → IsFilm f tape.old → SayAll (lines_of text.now) cs → IfOk result (λ out. out.items ≡ answers f cs 0) }
{
    let mut out = Vec::new(alloc);
    let mut place = 0;
    let mut rest = text;
    while let Some((line, after)) = next_line(rest) {
        place = do_line(alloc, &mut out, tape, line, place)?;
        rest = after;
    }
    Ok(out)
}

/// What a script answers on the run that a tape holds, from tick 0 on.
///
/// `goto N`, `step`, `back` and `until ADDR` go to a tick and answer `tick T`, or `end T` with the last tick T of the run where it has
/// none that was asked for; `show`, `mem ADDR LEN` and `dis ADDR COUNT` answer the report, bytes of memory and lines of the listing there.
/// Each answer is that of the tick, whatever was shown before. The script is read whole before its first command is done: the refusals are
/// those of `check_script`, and OutOfMemory.
pub fn script(alloc: Global, tape: &mut Tape, text: &[u8]) -> Result<Vec<u8>, ScriptErr>
    ensures answers { IfOk result (λ out. (image : List Segment) (s : Sched) (listing : Listing) → IsListing (flash_byte image) listing → Tapes image s tape.old
        → IsAnswered (film_of listing image s) text.now out.items) }
    ensures stays { tape.new ≡ tape.old }
    ensures fine { OnOk result ((cs : List Command) × IsScript text.now cs) }
    ensures refused { IfErr result (λ e. ScriptStops text.now e) }
{
    check_script(text)?;
    match do_lines(alloc, tape, text) {
        Ok(out) => Ok(out),
        Err(_no_memory) => Err(ScriptErr::OutOfMemory),
    }
}
