//! The instructions that are shown of a tick, and the beats of each.

ghost use Rattle.std.specs.Prelude.{◌≡◌, ◌+◌, ◌≤◌, ◌<◌, ◌++◌, length};
ghost use Rattle.arrayvec.specs.ArrayVec.{array_vec_len};
ghost use Rattle.hm_machine.specs.Shown.{timed_of};
ghost use Rattle.hm_trace.specs.Progresses.{base_of, count_of, done_progress, end_of, goes_on, is_cut, is_left, is_refused_entry, left_of, older_before};
ghost use Rattle.hm_trace.specs.Progresses.{older_progress, progresses, progresses_at, shown_if, stays_at, younger_before, younger_progress};
ghost use Rattle.hm_trace.specs.Stands.{past_of};

use crate::marks::Mark;
use crate::stands::{Before, Stand, interrupted, interrupted_by, stand_of};
use arrayvec::ArrayVec;
use hm_machine::{Machine, Outcome, Who};

/// The most instructions that are shown of a tick.
pub const MOST_SHOWN: usize = 3;

/// An instruction in a tick: the beats of it that are done before the tick and after it.
#[derive(Clone, Copy, Default)]
pub struct Progress {
    pub addr: u32,
    pub before: u8,
    pub after: u8,
}

/// Where the letters of a tick ended: where stands what an entry at its end interrupted, else where the run stands.
fn end_of(mark: Mark, machine: &Machine) -> Stand
    ensures value { result ≡ end_of mark (timed_of machine.now) }
{
    if mark.enters() {
        interrupted(machine)
    } else {
        stand_of(machine)
    }
}

/// Whether a run ended before its ticks were out.
fn is_cut(outcome: Option<Outcome>) -> bool
    ensures value { result ≡ is_cut outcome }
{
    match outcome {
        None | Some(Outcome::OutOfTicks) => false,
        Some(_) => true,
    }
}

/// Whether an entry was refused, behind all letters of a tick.
fn is_refused_entry(outcome: Option<Outcome>) -> bool
    ensures value { result ≡ is_refused_entry outcome }
{
    matches!(
        outcome,
        Some(
            Outcome::StackSpent { .. }
                | Outcome::Fault {
                    who: Who::Entry,
                    ..
                }
        )
    )
}

/// How often a letter stands among those of a tick.
fn count_of(letter: u8, letters: &[u8]) -> usize
    requires few { length letters.now ≤ 8 }
    ensures value { result ≡ count_of letter letters.now }
{
    let mut count = 0;
    for c in letters {
        count += usize::from(letter == *c);
    }
    count
}

/// Whether the letters of a tick did beats of one older instruction and no more.
fn goes_on(letters: &[u8], from: Stand, to: Stand) -> bool
    requires few { length letters.now ≤ 8 }
    ensures value { result ≡ goes_on letters.now from to }
{
    count_of(b'W', letters) == 0
        && to.pc == from.pc
        && usize::from(to.older) == usize::from(from.older) + count_of(b'O', letters)
}

/// Whether a run that ended among the letters of a tick stands at the same address as before it, with no fewer beats.
fn stays_at(from: Stand, to: Stand) -> bool
    ensures value { result ≡ stays_at from to }
{
    to.pc == from.pc && from.older <= to.older
}

/// Whether the instruction at which a tick began is not done behind its letters.
fn is_left(before: &Before, mark: Mark, to: Stand, outcome: Option<Outcome>) -> bool
    ensures value { result ≡ is_left (past_of before.now) mark to outcome }
{
    if mark.returns() {
        return false;
    }
    if is_cut(outcome) && !is_refused_entry(outcome) {
        stays_at(before.stand, to)
    } else {
        goes_on(before.line.letters.as_slice(), before.stand, to)
    }
}

/// How many handlers of before are left where so many are active: all of those, but for one that entered.
fn left_of(mark: Mark, depth: usize) -> usize
    ensures value { result ≡ left_of mark depth }
{
    if mark.enters() {
        depth.saturating_sub(1)
    } else {
        depth
    }
}

/// Where what the letters of a tick ended at stood before the tick: where the run did, or what the oldest of the handlers that returned had interrupted.
fn base_of(before: &Before, mark: Mark, depth: usize) -> Stand
    ensures value { result ≡ base_of (past_of before.now) mark depth }
{
    if mark.returns() {
        interrupted_by(&before.active, left_of(mark, depth), before.stand)
    } else {
        before.stand
    }
}

/// The beats that were done before a tick of the instruction at which its letters ended, where that is the older one of before, or one behind it.
fn older_before(same: bool, base: Stand, to: Stand) -> u8
    ensures value { result ≡ older_before same base to }
{
    if same && to.pc == base.pc {
        base.older
    } else if to.pc == base.pc.wrapping_add(4) {
        base.younger
    } else {
        0
    }
}

/// The beats that were done before it of the one behind that.
fn younger_before(same: bool, base: Stand, to: Stand) -> u8
    ensures value { result ≡ younger_before same base to }
{
    if same && to.pc == base.pc {
        base.younger
    } else {
        0
    }
}

/// The instruction at which the letters of a tick ended.
fn older_progress(same: bool, base: Stand, to: Stand) -> Progress
    ensures value { result ≡ older_progress same base to }
{
    Progress {
        addr: to.pc,
        before: older_before(same, base, to),
        after: to.older,
    }
}

/// The instruction behind the one at which the letters of a tick ended.
fn younger_progress(same: bool, base: Stand, to: Stand) -> Progress
    ensures value { result ≡ younger_progress same base to }
{
    Progress {
        addr: to.pc.wrapping_add(4),
        before: younger_before(same, base, to),
        after: to.younger,
    }
}

/// The instruction at which a tick began, where it is done.
fn done_progress(from: Stand) -> Progress
    ensures value { result ≡ done_progress from }
{
    Progress {
        addr: from.pc,
        before: from.older,
        after: 4,
    }
}

/// Adds an instruction that is to be shown.
fn show_if(is_shown: bool, progress: Progress, shown: &mut ArrayVec<Progress, MOST_SHOWN>)
    requires room { array_vec_len shown.old < 3 }
    ensures added { shown.new.items ≡ shown.old.items ++ shown_if is_shown progress }
    ensures more { array_vec_len shown.new ≤ array_vec_len shown.old + 1 }
{
    if is_shown {
        shown.push(progress);
    }
}

/// The instructions that are shown of a tick that began at a place and whose letters ended at another.
fn progresses_at(
    left: bool,
    cut: bool,
    from: Stand,
    older: Progress,
    younger: Progress,
) -> ArrayVec<Progress, MOST_SHOWN>
    ensures value { result.items ≡ progresses_at left cut from older younger }
{
    let mut shown = ArrayVec::new();
    show_if(!left, done_progress(from), &mut shown);
    show_if(left || cut || older.after > 0, older, &mut shown);
    show_if(younger.after > 0, younger, &mut shown);
    shown
}

/// The instructions that are shown of a tick.
pub fn progresses(before: &Before, mark: Mark, machine: &Machine) -> ArrayVec<Progress, MOST_SHOWN>
    ensures value { result.items ≡ progresses (past_of before.now) mark (timed_of machine.now) }
{
    let to = end_of(mark, machine);
    let outcome = machine.outcome();
    let left = is_left(before, mark, to, outcome);
    let base = base_of(before, mark, machine.active().len());
    let same = left || mark.returns();
    progresses_at(
        left,
        is_cut(outcome),
        before.stand,
        older_progress(same, base, to),
        younger_progress(same, base, to),
    )
}
