//! Where a program stands, and what is kept of a run before a tick.

ghost use Rattle.std.specs.Prelude.{◌≡◌, ◌<◌, [], None, reverse, IfOk, IfSome, IfNone, slice_get, slice_index};
ghost use Rattle.hm_base.specs.Image.{word_at};
ghost use Rattle.hm_machine.specs.Shown.{timed_of};
ghost use Rattle.hm_sched.specs.Schedule.{line_of};
ghost use Rattle.hm_trace.specs.Stands.{first_line, interrupted_or, newest_or, past_at, past_of, stand_in, stand_of};

use arrayvec::ArrayVec;
use hm_base::OutOfMemory;
use hm_exc::{Activation, psr_window};
use hm_machine::Machine;
use hm_regs::Regs;
use hm_sched::Line;
use std::alloc::Global;

/// Where a program stands: its next instruction, and the beats that are done of it and of the one behind it.
#[derive(Clone, Copy)]
pub struct Stand {
    pub pc: u32,
    pub older: u8,
    pub younger: u8,
}

/// What a tick is to do, and what is kept of the run before it: where it stands, what the entries of the handlers that are active put away, the oldest first,
/// and its registers.
#[derive(Drop)]
pub struct Before {
    pub line: Line,
    pub stand: Stand,
    pub active: Vec<Activation>,
    pub regs: Regs,
}

/// A copy of a line of a schedule.
fn copied(line: &Line) -> Line
    ensures same { line_of result ≡ line_of line.now }
{
    Line {
        count: line.count,
        letters: ArrayVec::try_from(line.letters.as_slice()).unwrap(),
        irq: line.irq,
    }
}

/// The address of a run's next instruction.
#[tactic(auto, unfolding(hm_state::specs::State::regs_of))]
pub fn pc_of(machine: &Machine) -> u32
    ensures value { result ≡ (timed_of machine.now).config.state.pc }
{
    machine.regs().pc
}

/// Where a run stands.
pub fn stand_of(machine: &Machine) -> Stand
    ensures value { result ≡ stand_of (timed_of machine.now) }
{
    let position = machine.position();
    Stand {
        pc: pc_of(machine),
        older: position.a,
        younger: position.b,
    }
}

/// The word xPSR in the frame of an entry.
fn stacked_status(x: &Activation) -> u32
    ensures value { result ≡ word_at (slice_index x.now.bytes) 28 }
{
    let low = u32::from(x.bytes[28]) + 0x100 * u32::from(x.bytes[29]);
    let high = u32::from(x.bytes[30]) + 0x100 * u32::from(x.bytes[31]);
    low + 0x1_0000 * high
}

/// Where stands what an entry interrupted.
fn stand_in(x: &Activation) -> Stand
    ensures value { result ≡ stand_in x.now }
{
    let position = psr_window(stacked_status(x));
    Stand {
        pc: x.regs.pc,
        older: position.a,
        younger: position.b,
    }
}

/// Where stands what the newest handler interrupted; with no handler, where the run stands.
pub fn interrupted(machine: &Machine) -> Stand
    ensures value { result ≡ newest_or (timed_of machine.now).acts (stand_of (timed_of machine.now)) }
{
    let active = machine.active();
    if active.is_empty() {
        return stand_of(machine);
    }
    stand_in(&active[active.len() - 1])
}

/// Where stands what handler k interrupted, the oldest first; with none, this.
pub fn interrupted_by(active: &[Activation], k: usize, with_none: Stand) -> Stand
    ensures value { result ≡ interrupted_or (slice_get active.now k) with_none }
{
    match active.get(k) {
        Some(x) => stand_in(x),
        None => with_none,
    }
}

/// A copy of what the entries of the handlers that are active put away, the oldest first.
pub fn copied_active(alloc: Global, machine: &Machine) -> Result<Vec<Activation>, OutOfMemory>
    ensures same { IfOk result (λ active. reverse active.items ≡ (timed_of machine.now).acts) }
{
    Ok(machine.active().to_vec(alloc)?)
}

/// What is kept of a run before its next tick, with what its handlers put away; None where it has none.
pub fn kept_before(machine: &Machine, active: Vec<Activation>) -> Option<Before>
    requires same { reverse active.items ≡ (timed_of machine.now).acts }
    ensures runs { IfSome result (λ b. (machine.now.outcome ≡ None) × (past_of b ≡ past_at (first_line machine.now.left) (timed_of machine.now))) }
    // Of a machine that shows a run this is that it has ended, since such a schedule has lines.
    ensures none { IfNone result (machine.now.outcome ≡ None → machine.now.schedule.lines ≡ []) }
{
    let line = machine.next_line()?;
    Some(Before {
        line: copied(line),
        stand: stand_of(machine),
        active,
        regs: *machine.regs(),
    })
}
