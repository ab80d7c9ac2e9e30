//! How a run ends by a tick whose letters do not all go on.

ghost use Rattle.std.specs.Prelude.{◌≡◌, ℕ, ◌+◌, ◌%◌, ◌^◌, ◌<◌, if◌then◌else◌, List, map, Some};
ghost use Rattle.hm_cpu.specs.Cpus.{config_of, nested_of, step_ended, CountsOne};
ghost use Rattle.hm_run_laws.specs.Nested.{Ended};
ghost use Rattle.hm_run_laws.specs.Runs.{Pointers, stopped_under, stops, stacked_of};
ghost use Rattle.hm_machine.specs.Ticked.{early_ended, Stays};
ghost use Rattle.hm_machine.specs.Shown.{run_with};
ghost use Rattle.hm_order.specs.Machine.{Config, Stopped};
ghost use Rattle.hm_exc.specs.declared.types.Activation.{Activation};
ghost use Rattle.hm_run.specs.Timed.{outcome_of, outcome_of_stop, retired_by, who_runs};
ghost use Rattle.hm_state.specs.State.{State};

use hm_base::Stop;
use hm_cpu::{Cpu, LetterEnd, StepEnd};
use hm_run::{Cause, Offence, Outcome, Who};

/// Why the letters of a tick do not all go on.
#[derive(Clone, Copy)]
pub struct EarlyEnd {
    /// In which step of the tick.
    pub step: u32,
    /// Whether that was the younger's.
    pub younger: bool,
    pub end: LetterEnd,
}

/// The outcome of a stop that is no halt, of the instruction at `pc` of what runs.
fn stop_outcome(tick: u32, stop: Stop, who: Who, pc: u32, n: u64) -> Outcome
    ensures value { (acts : List Activation) (c : Config State) → who_runs acts ≡ who → c.n ≡ n → result ≡ outcome_of_stop tick acts c pc stop }
{
    match stop {
        Stop::Fault(fault) => Outcome::Fault { who, fault, pc, n },
        Stop::Tainted { addr } => Outcome::TaintedRead { tick, pc, addr },
        Stop::Denied { addr } => Outcome::HandlerBroken {
            tick,
            what: Offence::Store { addr },
        },
    }
}

/// The address of the instruction that stops: the younger of two stands 4 bytes on.
fn pc_of(pc: u32, younger: bool) -> u32
    ensures value { result ≡ (if younger then (pc + 4) % 2 ^ 32 else pc) }
{
    if younger { pc.wrapping_add(4) } else { pc }
}

/// Who runs.
fn who_runs(x: &Cpu) -> Who
    ensures value { result ≡ who_runs (map stacked_of (nested_of x.now).acts) }
{
    if x.acts.is_empty() {
        Who::Thread
    } else {
        Who::Handler
    }
}

/// The outcome of an instruction of what runs that stops.
fn outcome_of(tick: u32, cause: Cause, younger: bool, x: &Cpu) -> Outcome
    requires count { x.now.retired < 2 ^ 63 }
    ensures value { result ≡ outcome_of tick (map stacked_of (nested_of x.now).acts) (config_of x.now) (record { cause = cause; younger = younger }) }
{
    match cause {
        Cause::Halt(reason) => Outcome::Halted {
            reason,
            n: x.retired + 1,
        },
        Cause::Full => Outcome::OutputFull { tick },
        Cause::Stop(stop) => stop_outcome(
            tick,
            stop,
            who_runs(x),
            pc_of(x.regs.pc, younger),
            x.retired,
        ),
    }
}

/// Counts a step of the older instruction.
fn count_step(younger: bool, x: &mut Cpu)
    requires { x.old.older_steps < 2 ^ 63 }
    ensures value { x.new ≡ record x.old { older_steps = if younger then x.old.older_steps else x.old.older_steps + 1 } }
{
    if !younger {
        x.older_steps += 1;
    }
}

/// Counts an instruction that halts as retired.
fn count_halt(cause: Cause, x: &mut Cpu)
    requires { x.old.retired < 2 ^ 63 }
    ensures value { x.new ≡ record x.old { retired = retired_by cause x.old.retired } }
{
    match cause {
        Cause::Halt(_) => x.retired += 1,
        Cause::Full | Cause::Stop(_) => {}
    }
}

/// Counts an instruction that stops, where it is the thread's.
fn count_stop(cause: Cause, younger: bool, x: &mut Cpu)
    requires count { (x.old.retired < 2 ^ 63) × (x.old.older_steps < 2 ^ 63) }
    ensures config { config_of x.new ≡ stopped_under (nested_of x.old).acts (config_of x.old) (record { cause = cause; younger = younger }) }
    ensures kept { Stays x.old x.new }
    ensures count { CountsOne x.old x.new }
{
    if !x.acts.is_empty() {
        return;
    }
    count_step(younger, x);
    count_halt(cause, x);
}

/// How a run ends by an instruction of what runs that stops.
fn stopped(tick: u32, cause: Cause, younger: bool, x: &mut Cpu) -> Outcome
    requires count { (x.old.retired < 2 ^ 63) × (x.old.older_steps < 2 ^ 63) }
    ensures ended { (k : ℕ) (es : List Pointers) → run_with (Some result) (nested_of x.new) tick es
        ≡ stops tick k younger (Ended (Stopped (config_of x.old) cause) (nested_of x.old).acts) es }
    ensures kept { Stays x.old x.new }
    ensures count { CountsOne x.old x.new }
{
    let outcome = outcome_of(tick, cause, younger, x);
    count_stop(cause, younger, x);
    outcome
}

/// How a run ends by a step that does not go on.
fn conclude_step(tick: u32, step: u32, younger: bool, end: StepEnd, x: &mut Cpu) -> Outcome
    requires count { (x.old.retired < 2 ^ 63) × (x.old.older_steps < 2 ^ 63) }
    ensures ended { (es : List Pointers) → run_with (Some result) (nested_of x.new) tick es
        ≡ stops tick step younger (Ended (step_ended end (config_of x.old)) (nested_of x.old).acts) es }
    ensures kept { Stays x.old x.new }
    ensures count { CountsOne x.old x.new }
{
    match end {
        StepEnd::Stopped(cause) => stopped(tick, cause, younger, x),
        StepEnd::Broken(rule) => Outcome::RuleBroken { tick, step, rule },
    }
}

/// How a run ends by a tick whose letters do not all go on.
#[cold]
#[inline(never)]
pub fn conclude(tick: u32, early: EarlyEnd, x: &mut Cpu) -> Outcome
    requires count { (x.old.retired < 2 ^ 63) × (x.old.older_steps < 2 ^ 63) }
    ensures ended { (es : List Pointers) → let e = early_ended early (nested_of x.old) in
        run_with (Some result) (nested_of x.new) tick es ≡ stops tick e.step e.younger e.end es }
    ensures kept { Stays x.old x.new }
    ensures count { CountsOne x.old x.new }
{
    match early.end {
        LetterEnd::Step(end) => { conclude_step(tick, early.step, early.younger, end, x) }
        LetterEnd::Offends(what) => Outcome::HandlerBroken { tick, what },
    }
}
