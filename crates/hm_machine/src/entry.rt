//! Exceptions that enter at the end of a tick.

ghost use Rattle.std.specs.Prelude.{◌≡◌, ◌<◌, true, List, None, Some, OnOk};
ghost use Rattle.hm_cpu.specs.Cpus.{config_of, nested_of, CountsNone, IsPosition, IsSoundUnder, IsSoundUnderSome, KeepsFlash};
ghost use Rattle.hm_run_laws.specs.Entries.{least_active, mask_of, refused, running_priority};
ghost use Rattle.hm_run_laws.specs.Runs.{Pointers, enters, picks as picks_of};
ghost use Rattle.hm_machine.specs.Ticked.{picks, Came};
ghost use Rattle.hm_machine.specs.Shown.{run_with};
ghost use Rattle.hm_mem.specs.Memory.{memory_of};
ghost use Rattle.hm_sched.specs.Schedule.{Sched};
ghost use Rattle.hm_window.specs.Positions.{may_end};

use hm_base::{Fault, FaultKind};
use hm_cpu::Cpu;
use hm_exc::{EnterErr, enter, newest};
use hm_regs::Regs;
use hm_run::{Outcome, Who};
use hm_sys::{candidate, priority};
use hm_window::Window;

/// The priority number of the thread, below all exceptions.
const OF_THREAD: u16 = 256;

/// The priority number from which on exceptions are masked: 0 where PRIMASK is set, else BASEPRI where it is not 0.
fn mask(r: &Regs) -> u16
    ensures value { result ≡ mask_of r.now.primask r.now.basepri }
{
    if r.primask {
        0
    } else if r.basepri == 0 {
        OF_THREAD
    } else {
        r.basepri as u16
    }
}

/// The priority number of the newest exception, which is more urgent than those that it interrupted, or of the thread.
fn active_priority(x: &Cpu) -> u16
    requires sound { IsSoundUnderSome x.now }
    ensures value { result ≡ least_active (memory_of x.now.mem).devices (nested_of x.now).acts }
{
    if x.acts.is_empty() {
        return OF_THREAD;
    }
    priority(x.mem.dev(), newest(&x.acts).number)
}

/// The priority number of what runs, or that of what masks, where it is lower.
fn running_priority(x: &Cpu) -> u16
    requires sound { IsSoundUnderSome x.now }
    ensures value { result ≡ running_priority (memory_of x.now.mem).devices (mask_of x.now.regs.primask x.now.regs.basepri) (nested_of x.now).acts }
{
    mask(&x.regs).min(active_priority(x))
}

/// How a run ends where an exception may not enter.
fn refused(tick: u32, why: EnterErr, x: &Cpu) -> Outcome
    ensures value { result ≡ refused tick (config_of x.now) why }
{
    match why {
        EnterErr::StackSpent { sp } => Outcome::StackSpent { tick, sp },
        EnterErr::Vector { addr } => Outcome::Fault {
            who: Who::Entry,
            fault: Fault {
                kind: FaultKind::Vector,
                addr,
            },
            pc: x.regs.pc,
            n: x.retired,
        },
    }
}

/// Exception `e`, which was picked, enters; or the answer is how the run ends, and nothing is changed.
fn enter_exception(tick: u32, e: u16, x: &mut Cpu) -> Result<bool, Outcome>
    requires sound { IsSoundUnderSome x.old }
    requires picked { picks x.old ≡ Some e }
    requires position { may_end x.old.window.a x.old.window.b ≡ true }
    ensures value { (s : Sched) (es : List Pointers) → IsSoundUnder s x.old
        → Came result (nested_of x.new) tick es (enters s (Some e) (run_with None (nested_of x.old) tick es)) }
    ensures moves { KeepsFlash x.old x.new }
    ensures position { OnOk result (IsPosition x.new) }
    ensures count { CountsNone x.old x.new }
{
    // the packed words are put together again, since each number fits its type
    x.regs.in_range();
    match enter(&mut x.regs, &mut x.mem, x.window, e, &mut x.acts) {
        Ok(()) => {
            x.window = Window { a: 0, b: 0 };
            Ok(true)
        }
        Err(why) => Err(refused(tick, why, x)),
    }
}

/// The exception that is picked enters, where there is one. The answer is whether one did, or how the run ends.
#[inline(never)]
pub fn enter_picked(tick: u32, x: &mut Cpu) -> Result<bool, Outcome>
    requires sound { IsSoundUnderSome x.old }
    requires position { may_end x.old.window.a x.old.window.b ≡ true }
    ensures value { (s : Sched) (es : List Pointers) → IsSoundUnder s x.old
        → let y = run_with None (nested_of x.old) tick es in Came result (nested_of x.new) tick es (enters s (picks_of y) y) }
    ensures moves { KeepsFlash x.old x.new }
    ensures position { IsPosition x.old → OnOk result (IsPosition x.new) }
    ensures count { CountsNone x.old x.new }
{
    let current = running_priority(x);
    match candidate(x.mem.dev(), current) {
        Some(e) => enter_exception(tick, e, x),
        None => Ok(false),
    }
}
