//! What a tick does: its letters, and what comes at its end.
//!
//! Results are tested for Err first, and `?` is not used: so a tick's way is one run of code without copies of results.

ghost use Rattle.std.specs.Prelude.{◌≡◌, ℕ, ◌+◌, ◌^◌, ◌<◌, ◌≤◌, nat_eq, List, length, None, OnOk};
ghost use Rattle.std.specs.Vec.{vec_capacity};
ghost use Rattle.hm_codes.specs.Listing.{Listing, IsListing};
ghost use Rattle.hm_cpu.specs.Cpus.{nested_of, CountsNone, IsPosition, IsSoundUnder, IsSoundUnderSome, KeepsFlash};
ghost use Rattle.hm_run_laws.specs.Nested.{at_step, letter, letters as letters_done};
ghost use Rattle.hm_run_laws.specs.Runs.{Pointers, ended, tick_end};
ghost use Rattle.hm_machine.specs.Ticked.{ticked, Came};
ghost use Rattle.hm_machine.specs.Shown.{run_with};
ghost use Rattle.hm_mem.specs.Memory.{memory_of, flash_at};
ghost use Rattle.hm_mem.specs.Seen.{with_dev};
ghost use Rattle.hm_run.specs.Program.{most_output};
ghost use Rattle.hm_run.specs.Timed.{counted_with};
ghost use Rattle.hm_sched.specs.Schedule.{Sched, TickLine, younger_letter};

use crate::conclusion::{EarlyEnd, conclude};
use crate::entry::enter_picked;
use hm_cpu::{Cpu, Letters};
use hm_mem::{Dev, Mem};
use hm_run::Outcome;
use hm_sys::{arrive_all, count};
use hm_window::ending;

/// What a letter of a schedule does, the `step`-th of its tick.
#[inline(always)]
fn letter_at<L: Letters>(step: u32, l: u8, decoder: &mut L, x: &mut Cpu) -> Result<(), EarlyEnd>
    requires count { (x.old.retired < 2 ^ 61) × (x.old.older_steps < 2 ^ 61) }
    requires position { IsPosition x.old }
    requires room { vec_capacity x.old.output ≡ most_output }
    requires sound { IsSoundUnderSome x.old }
    ensures value { (listing : Listing) (s : Sched) → IsListing (flash_at (memory_of x.old.mem)) listing → IsSoundUnder s x.old
        → ticked result x.new ≡ at_step step (nat_eq l younger_letter) (letter listing s l (nested_of x.old)) }
    ensures sound { (s : Sched) → IsSoundUnder s x.old → OnOk result (IsSoundUnder s x.new) }
    ensures moves { KeepsFlash x.old x.new }
    ensures position { OnOk result (IsPosition x.new) }
    ensures count { (x.new.retired ≤ x.old.retired + 4) × (x.new.older_steps ≤ x.old.older_steps + 4) }
{
    if let Err(end) = decoder.letter(l, x) {
        return Err(EarlyEnd {
            step,
            younger: l == b'Y',
            end,
        });
    }
    Ok(())
}

/// The letters of a tick, one after another: as bytes, eight at most.
#[inline(always)]
fn do_letters<L: Letters>(letters: &[u8], decoder: &mut L, x: &mut Cpu) -> Result<(), EarlyEnd>
    requires few { length letters.now ≤ 8 }
    requires count { (x.old.retired < 2 ^ 60) × (x.old.older_steps < 2 ^ 60) }
    requires position { IsPosition x.old }
    requires room { vec_capacity x.old.output ≡ most_output }
    requires sound { IsSoundUnderSome x.old }
    ensures value { (listing : Listing) (s : Sched) → IsListing (flash_at (memory_of x.old.mem)) listing → IsSoundUnder s x.old
        → ticked result x.new ≡ letters_done listing s 0 letters.now (nested_of x.old) }
    ensures sound { (s : Sched) → IsSoundUnder s x.old → OnOk result (IsSoundUnder s x.new) }
    ensures moves { KeepsFlash x.old x.new }
    ensures position { OnOk result (IsPosition x.new) }
    ensures count { (x.new.retired ≤ x.old.retired + 32) × (x.new.older_steps ≤ x.old.older_steps + 32) }
{
    let mut step = 0;
    for l in letters {
        step += 1;
        if let Err(early) = letter_at(step, *l, decoder, x) {
            return Err(early);
        }
    }
    Ok(())
}

/// What comes at the end of a tick that did not end the run: SysTick counts, and then interrupts become pending.
fn count_and_arrive(irq: &[u32; 8], mem: &mut Mem)
    ensures value { memory_of mem.new ≡ with_dev (counted_with irq.now (memory_of mem.old).devices) (memory_of mem.old) }
{
    let dev: &mut Dev = mem.dev_mut();
    count(dev);
    arrive_all(dev, irq);
}

/// The end of a tick, by its number, how many letters it has, its interrupts, and whether exceptions may enter: the position is judged, and what was
/// counted and became pending may let an exception enter. The answer is whether one did, or how the run ends here.
#[inline(always)]
fn end_tick(
    tick: u32,
    count: u32,
    irq: &[u32; 8],
    may_enter: bool,
    x: &mut Cpu,
) -> Result<bool, Outcome>
    requires sound { IsSoundUnderSome x.old }
    requires position { IsPosition x.old }
    ensures value { (s : Sched) (line : TickLine) (es : List Pointers) → s.entries ≡ may_enter → line.irq ≡ irq.now → length line.letters ≡ count
        → IsSoundUnder s x.old
        → Came result (nested_of x.new) tick es (tick_end s line (run_with None (nested_of x.old) tick es)) }
    ensures moves { KeepsFlash x.old x.new }
    ensures position { OnOk result (IsPosition x.new) }
    ensures count { CountsNone x.old x.new }
{
    if let Err(rule) = ending(x.window) {
        return Err(Outcome::RuleBroken {
            tick,
            step: count,
            rule,
        });
    }
    count_and_arrive(irq, &mut x.mem);
    if !may_enter {
        return Ok(false);
    }
    enter_picked(tick, x)
}

/// A tick, by its number, its letters, its interrupts, and whether exceptions may enter at its end. The answer is whether one did, or how the run ends
/// in the tick.
#[inline(always)]
pub fn tick<L: Letters>(
    tick: u32,
    letters: &[u8],
    irq: &[u32; 8],
    may_enter: bool,
    decoder: &mut L,
    x: &mut Cpu,
) -> Result<bool, Outcome>
    requires few { length letters.now ≤ 8 }
    requires count { (x.old.retired < 2 ^ 60) × (x.old.older_steps < 2 ^ 60) }
    requires position { IsPosition x.old }
    requires room { vec_capacity x.old.output ≡ most_output }
    requires sound { IsSoundUnderSome x.old }
    ensures value { (listing : Listing) (s : Sched) (line : TickLine) (t : ℕ) (es : List Pointers) → IsListing (flash_at (memory_of x.old.mem)) listing
        → s.entries ≡ may_enter → line.letters ≡ letters.now → line.irq ≡ irq.now → t + 1 ≡ tick → IsSoundUnder s x.old
        → Came result (nested_of x.new) tick es
        (ended s line (run_with None (nested_of x.old) t es) (letters_done listing s 0 line.letters (nested_of x.old))) }
    ensures moves { KeepsFlash x.old x.new }
    ensures position { OnOk result (IsPosition x.new) }
    ensures count { (x.new.retired ≤ x.old.retired + 33) × (x.new.older_steps ≤ x.old.older_steps + 33) }
{
    if let Err(early) = do_letters(letters, decoder, x) {
        return Err(conclude(tick, early, x));
    }
    end_tick(tick, letters.len() as u32, irq, may_enter, x)
}
