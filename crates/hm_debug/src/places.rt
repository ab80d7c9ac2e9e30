//! Going to a tick of the run, and the line that names it.

ghost use Rattle.std.specs.Prelude.{◌≡◌, ◌+◌, ◌-◌, ◌≤◌, ◌++◌, ◌&&◌, codes, nat_eq, IfOk, IfSome};
ghost use Rattle.std.specs.Fmt.{decimal};
ghost use Rattle.hm_debug.specs.Answers.{Gives, at_end, at_tick, found_or_end, next_at, reaches, stay, to_tick};
ghost use Rattle.hm_debug.specs.Films.{Film, IsFilm, ShowsTick};
ghost use Rattle.hm_machine.specs.Shown.{timed_of};
ghost use Rattle.hm_machine.specs.TapeLending.{TapeStays};
ghost use Rattle.std.specs.Borrow.{sem};

use hm_base::OutOfMemory;
use hm_machine::{Machine, Tape, Window};
use hm_regs::Regs;
use hm_text_base::{decimal, text};
use std::alloc::Global;

/// The machine at a tick that the run begins.
pub fn machine_at(tape: &mut Tape, tick: u32) -> &Machine
    requires within { tick ≤ tape.old.last }
    ensures* stays { sem 𝓛 (TapeStays tape.entry) }
    ensures shows { ShowsTick tape.old tick result.now }
{
    match tape.at(tick) {
        Ok(machine) => machine,
        Err(_past) => unreachable!(),
    }
}

/// Adds a line of words and of a tick, and answers that tick.
fn tell(alloc: Global, out: &mut Vec<u8>, words: &[u8], tick: u32) -> Result<u32, OutOfMemory>
    ensures gives { IfOk result (λ place. Gives (stay tick (words.now ++ decimal tick ++ codes "\n")) out.old.items out.new.items place) }
{
    text(out, words)?;
    decimal(alloc, out, u64::from(tick))?;
    text(out, b"\n")?;
    Ok(tick)
}

/// Adds the line of a tick, and answers that tick.
pub fn tell_tick(alloc: Global, out: &mut Vec<u8>, tick: u32) -> Result<u32, OutOfMemory>
    ensures gives { IfOk result (λ place. Gives (at_tick tick) out.old.items out.new.items place) }
{
    tell(alloc, out, b"tick ", tick)
}

/// Adds the line of the last tick, where none is as was asked for, and answers that tick.
fn tell_end(alloc: Global, out: &mut Vec<u8>, last: u32) -> Result<u32, OutOfMemory>
    ensures gives { IfOk result (λ place. Gives (at_end last) out.old.items out.new.items place) }
{
    tell(alloc, out, b"end ", last)
}

/// Goes to a tick of a run, or to its last one.
pub fn go_to(alloc: Global, out: &mut Vec<u8>, last: u32, tick: u32) -> Result<u32, OutOfMemory>
    ensures gives { IfOk result (λ place. Gives (to_tick last tick) out.old.items out.new.items place) }
{
    if tick <= last {
        tell_tick(alloc, out, tick)
    } else {
        tell_end(alloc, out, last)
    }
}

/// Whether with these registers and at this position the thread is between two instructions, of which the next is at an address.
fn is_at(regs: &Regs, window: Window, addr: u32) -> bool
    ensures value { result ≡ (nat_eq regs.now.ipsr 0 && nat_eq window.a 0 && nat_eq window.b 0 && nat_eq regs.now.pc addr) }
{
    regs.ipsr == 0 && window.a == 0 && window.b == 0 && regs.pc == addr
}

/// Whether the thread has come to an address.
#[tactic(auto, unfolding(hm_state::specs::State::regs_of))]
fn reaches(machine: &Machine, addr: u32) -> bool
    ensures value { result ≡ reaches addr (timed_of machine.now) }
{
    is_at(machine.regs(), machine.position(), addr)
}

/// Whether it has at the end of a tick.
fn reaches_at(tape: &mut Tape, tick: u32, addr: u32) -> bool
    requires within { tick ≤ tape.old.last }
    ensures stays { tape.new ≡ tape.old }
    ensures value { (f : Film) → IsFilm f tape.old → result ≡ reaches addr (f.at tick) }
{
    reaches(machine_at(tape, tick), addr)
}

/// The next later tick at whose end the thread has come to an address. It goes through the run once.
fn next_reaching(tape: &mut Tape, addr: u32, place: u32) -> Option<u32>
    requires within { place ≤ tape.old.last }
    ensures stays { tape.new ≡ tape.old }
    ensures within { IfSome result (λ tick. tick ≤ tape.old.last) }
    ensures next { (f : Film) → IsFilm f tape.old → result ≡ next_at (λ u. reaches addr (f.at u)) place (tape.old.last - place) }
{
    let last = tape.last();
    for tick in place..last {
        if reaches_at(tape, tick + 1, addr) {
            return Some(tick + 1);
        }
    }
    None
}

/// Goes to the next later tick at whose end the thread has come to an address, or to the last one.
pub fn go_until(
    alloc: Global,
    out: &mut Vec<u8>,
    tape: &mut Tape,
    addr: u32,
    place: u32,
) -> Result<u32, OutOfMemory>
    requires within { place ≤ tape.old.last }
    ensures stays { tape.new ≡ tape.old }
    ensures within { IfOk result (λ tick. tick ≤ tape.old.last) }
    ensures gives { (f : Film) → IsFilm f tape.old
        → IfOk result (λ tick. Gives (found_or_end tape.old.last (next_at (λ u. reaches addr (f.at u)) place (tape.old.last - place))) out.old.items
        out.new.items tick) }
{
    match next_reaching(tape, addr, place) {
        Some(tick) => tell_tick(alloc, out, tick),
        None => tell_end(alloc, out, tape.last()),
    }
}
