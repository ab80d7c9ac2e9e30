//! The rules of a step of the younger of two vector instructions.

ghost use Rattle.std.specs.Prelude.{◌≡◌, ℕ, ◌<◌, ◌≤◌, IsTrue, List, None, option_map};
ghost use Rattle.hm_beat.specs.Laws.{run};
ghost use Rattle.hm_mem.specs.Memory.{Memory, memory_of};
ghost use Rattle.hm_state.specs.State.{state_of};
ghost use Rattle.hm_window.specs.Overlap.{first_rule, judged, lawful_rule, rule_of_clash, rule_of_end, rule_of_stop};

use crate::rule::{Rule, Window};
use hm_base::Stop;
use hm_beat::{BeatWise, Clash, meet_left};
use hm_mem::Mem;
use hm_regs::Regs;

/// The rule that a clash breaks.
fn rule_of(clash: Clash) -> Rule
    ensures value { result ≡ rule_of_clash clash }
{
    match clash {
        Clash::Register(place) => Rule::Register { place },
        Clash::Memory { addr } => Rule::Memory { addr },
    }
}

/// The rule that a beat which stops breaks: it has a fault. A stop for taint breaks none.
fn rule_of_stop(stop: Stop) -> Option<Rule>
    ensures value { result ≡ rule_of_stop stop }
{
    match stop {
        Stop::Fault(_) => Some(Rule::YoungerFault),
        Stop::Tainted { addr: _ } | Stop::Denied { addr: _ } => None,
    }
}

/// The first rule that the next beat of `younger` breaks against `older`, but for a fault of that beat: NotVector exactly where
/// one of the two is none; then Order, Register at the first place, Memory at the lowest byte.
///
/// `at.a` is at most 3, and where it is 2 or more there is a context.
pub fn first_rule<A: BeatWise, B: BeatWise>(
    at: Window,
    older: Option<&A>,
    younger: Option<&B>,
    r: &Regs,
) -> Option<Rule>
    requires position { at.a < 4 }
    requires context { 2 ≤ at.a → IsTrue r.now.fpca }
    ensures value { (m : Memory) (output : List ℕ)
        → result ≡ first_rule (option_map (λ x. A.tree x.now m.around) older.entry) (option_map (λ x. B.tree x.now m.around) younger.entry) at.a at.b
        (state_of r.now m output) }
    ensures in_time { result ≡ None → (2 ≤ at.a) × (at.b < 2) }
{
    let Some(v) = older else {
        return Some(Rule::NotVector);
    };
    let Some(w) = younger else {
        return Some(Rule::NotVector);
    };
    if at.a < 2 || at.b >= 2 {
        return Some(Rule::Order);
    }
    match meet_left(v, at.a, w, at.b, r) {
        Some(clash) => Some(rule_of(clash)),
        None => None,
    }
}

/// The rule that beat `b` of `w`, the younger, breaks where it has a fault.
fn beat_rule<B: BeatWise>(w: &B, b: u8, r: &Regs, m: &Mem) -> Option<Rule>
    requires beat { b < 4 }
    requires context { IsTrue r.now.fpca }
    ensures value { (output : List ℕ) → let x = memory_of m.now in result ≡ rule_of_end (run (B.tree w.now x.around b) r.now x output) }
{
    match w.check(b, r, m) {
        Ok(()) => None,
        Err(stop) => rule_of_stop(stop),
    }
}

/// Whether the next beat of `younger` may be done while `older` has beats left, by the registers and the memory as they are: else the
/// first rule that it breaks. NotVector comes exactly where one of the two is none; then Order, Register at the first place, Memory at
/// the lowest byte, and YoungerFault where the beat has a fault. (Whether an instruction is refused before its first beat is no
/// matter of beats.)
///
/// `at.a` is at most 3, and where it is 2 or more there is a context.
pub fn lawful<A: BeatWise, B: BeatWise>(
    at: Window,
    older: Option<&A>,
    younger: Option<&B>,
    r: &Regs,
    m: &Mem,
) -> Result<(), Rule>
    requires position { at.a < 4 }
    requires context { 2 ≤ at.a → IsTrue r.now.fpca }
    ensures value { (output : List ℕ) → let x = memory_of m.now in
        result ≡ judged (lawful_rule (option_map (λ v. A.tree v.now x.around) older.entry) (option_map (λ w. B.tree w.now x.around) younger.entry) at.a at.b
        (state_of r.now x output)) }
{
    if let Some(rule) = first_rule(at, older, younger, r) {
        return Err(rule);
    }
    let Some(w) = younger else {
        return Err(Rule::NotVector);
    };
    match beat_rule(w, at.b, r, m) {
        Some(rule) => Err(rule),
        None => Ok(()),
    }
}
