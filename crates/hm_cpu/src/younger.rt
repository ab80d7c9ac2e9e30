//! The steps of the younger of two vector instructions.

ghost use Rattle.std.specs.Prelude.{◌≡◌, ℕ, ◌+◌, ◌<◌, ◌≤◌, List, IsTrue, Some, None, length};
ghost use Rattle.hm_codes.specs.Listing.{Listing, IsListing};
ghost use Rattle.hm_exec.specs.Families.{row_of};
ghost use Rattle.hm_cpu.specs.Cpus.{config_of, step_ended, reached_younger, state_in, CountsNone, IsPosition, Keeps};
ghost use Rattle.hm_mem.specs.Memory.{Memory, memory_of, flash_at};
ghost use Rattle.hm_order.specs.Machine.{Config, did, fault_end, younger};
ghost use Rattle.hm_rows.specs.Rows.{vector_tree};
ghost use Rattle.hm_run.specs.Program.{core, fault_rule, rows, step_rule};
ghost use Rattle.hm_window.specs.Overlap.{first_rule};
ghost use Rattle.hm_state.specs.State.{State, state_of};

use crate::cpu::{Cpu, beat};
use crate::step_ends::StepEnd;
use hm_base::Stop;
use hm_exec::{Any, refuse};
use hm_recent::{Cached, vector_at};
use hm_regs::Regs;
use hm_run::Cause;
use hm_window::{Rule, Window, first_rule};

/// The first rule that the next beat of `w`, the younger, breaks against `v`, whatever comes of that beat.
fn overlap_rule(v: &Any, w: &Any, at: Window, regs: &Regs) -> Option<Rule>
    requires position { at.a < 4 }
    requires context { 2 ≤ at.a → IsTrue regs.now.fpca }
    ensures value { (m : Memory) (output : List ℕ)
        → result ≡ first_rule (Some (vector_tree (row_of v.now) m.around)) (Some (vector_tree (row_of w.now) m.around)) at.a at.b (state_of regs.now m output) }
    ensures in_time { result ≡ None → (2 ≤ at.a) × (at.b < 2) }
{
    first_rule(at, Some(v), Some(w), regs)
}

/// The first rule that the next beat of `w`, the younger, breaks against `v`, but for a fault of that beat.
pub fn step_rule(v: &Any, w: &Any, at: Window, regs: &Regs) -> Option<Rule>
    requires position { at.a < 4 }
    requires context { 0 < at.a → IsTrue regs.now.fpca }
    ensures value { (m : Memory) (output : List ℕ) (n steps : ℕ)
        → result ≡ step_rule m.around (Some (row_of v.now)) (Some (row_of w.now))
        (record { a = at.a; b = at.b; n = n; steps = steps; state = state_of regs.now m output }) }
    ensures in_time { result ≡ None → (2 ≤ at.a) × (at.b < 2) }
{
    if let Some(rule) = overlap_rule(v, w, at, regs) {
        return Some(rule);
    }
    match refuse(w.row(), regs) {
        Some(_) => Some(Rule::YoungerFault),
        None => None,
    }
}

/// What a younger beat that stops comes to: a fault breaks a rule.
fn end_of(cause: Cause) -> StepEnd
    ensures value { (listing : Listing) (m : Memory) (c : Config State) → step_ended result c ≡ fault_end (core listing m.around) (fault_rule cause) c cause }
{
    match cause {
        Cause::Halt(_) | Cause::Full => StepEnd::Broken(Rule::YoungerFault),
        Cause::Stop(Stop::Fault(_)) => StepEnd::Broken(Rule::YoungerFault),
        Cause::Stop(_) => StepEnd::Stopped(cause),
    }
}

/// The next beat of `w`, the younger.
fn younger_beat(w: &Any, x: &mut Cpu) -> Result<(), StepEnd>
    requires few { x.old.window.b < 2 }
    requires position { IsPosition x.old }
    requires context { IsTrue x.old.regs.fpca }
    ensures value { (listing : Listing) → let around = (memory_of x.old.mem).around in
        reached_younger result x.new ≡ did (core listing around) (config_of x.old) (((rows around).act (row_of w.now) x.old.window.b).run (state_in x.old)) }
    ensures kept { Keeps x.old x.new }
    ensures count { CountsNone x.old x.new }
{
    match beat(w, x.window.b, &mut x.regs, &mut x.mem) {
        Ok(()) => {
            x.window.b += 1;
            Ok(())
        }
        Err(cause) => Err(end_of(cause)),
    }
}

/// The next beat of the younger instruction, unless it breaks a rule.
pub fn younger(recent: &mut [Cached], x: &mut Cpu) -> Result<(), StepEnd>
    requires some { 0 < length recent.old }
    requires position { IsPosition x.old }
    ensures value { (listing : Listing) → IsListing (flash_at (memory_of x.old.mem)) listing
        → reached_younger result x.new ≡ younger (core listing (memory_of x.old.mem).around) (config_of x.old) }
    ensures kept { Keeps x.old x.new }
    ensures count { CountsNone x.old x.new }
    ensures places { length recent.new ≡ length recent.old }
{
    let Some(v) = vector_at(recent, &x.mem, x.regs.pc) else {
        return Err(StepEnd::Broken(Rule::NotVector));
    };
    let Some(w) = vector_at(recent, &x.mem, x.regs.pc + 4) else {
        return Err(StepEnd::Broken(Rule::NotVector));
    };
    match step_rule(&v, &w, x.window, &x.regs) {
        Some(rule) => Err(StepEnd::Broken(rule)),
        None => younger_beat(&w, x),
    }
}
