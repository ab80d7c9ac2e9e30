//! Whether the next beat of the older instruction goes on, and then the first of the younger: both are tried, and what that changes is undone.

ghost use Rattle.std.specs.Prelude.{◌≡◌, ℕ, ◌+◌, ◌^◌, ◌<◌, ◌++◌, List, [], IsTrue, Some};
ghost use Rattle.hm_beat.specs.Touches.{span_bytes, spanned, stores_in};
ghost use Rattle.hm_codes.specs.Listing.{Listing, IsListing};
ghost use Rattle.hm_exec.specs.Families.{row_of};
ghost use Rattle.hm_cpu.specs.Trials.{HoldsAll, standing};
ghost use Rattle.hm_mem.specs.Memory.{flash_at, memory_of};
ghost use Rattle.hm_order.specs.Machine.{younger};
ghost use Rattle.hm_rows.specs.Rows.{vector_tree};
ghost use Rattle.hm_run.specs.Program.{core, vector_of};
ghost use Rattle.hm_run.specs.Ready.{goes_on, is_ready};
ghost use Rattle.hm_state.specs.State.{state_of};
ghost use Rattle.hm_undo.specs.Undo.{IsSameBut};

use crate::cpu::beat;
use crate::younger::step_rule;
use hm_base::Span;
use hm_beat::BeatWise;
use hm_exec::Any;
use hm_mem::Mem;
use hm_recent::vector_anew;
use hm_regs::Regs;
use hm_undo::{Held, undone_law};
use hm_window::Window;

/// Whether the first beat of the younger goes on where three of `v` are done: it breaks no rule and does not stop.
fn follows(v: &Any, regs: &Regs, mem: &Mem) -> bool
    requires context { IsTrue regs.now.fpca }
    requires room { regs.now.pc + 4 < 2 ^ 32 }
    ensures value { (listing : Listing) (output : List ℕ) (n steps : ℕ) → let m = memory_of mem.now in
        IsListing (flash_at m) listing → vector_of (listing regs.now.pc) ≡ Some (row_of v.now)
        → result ≡ goes_on (younger (core listing m.around) (standing 3 0 n steps (state_of regs.now m output))) }
{
    let Some(w) = vector_anew(mem, regs.pc + 4) else {
        return false;
    };
    let at = Window { a: 3, b: 0 };
    match step_rule(v, &w, at, regs) {
        Some(_) => false,
        None => w.check(0, regs, mem).is_ok(),
    }
}

/// The same where two are done of `v`, whose third goes on too. Where it stores, that stays.
fn goes(v: &Any, regs: &Regs, mem: &mut Mem) -> bool
    requires context { IsTrue regs.now.fpca }
    requires room { regs.now.pc + 4 < 2 ^ 32 }
    ensures value { (listing : Listing) (output : List ℕ) (n steps : ℕ) → let m = memory_of mem.old in
        IsListing (flash_at m) listing → vector_of (listing regs.now.pc) ≡ Some (row_of v.now)
        → result ≡ is_ready (core listing m.around) (standing 2 0 n steps (state_of regs.now m output)) }
    ensures same { let m = memory_of mem.old in IsSameBut (stores_in (vector_tree (row_of v.now) m.around 2) regs.now m []) m (memory_of mem.new) }
{
    let mut after = *regs;
    match beat(v, 2, &mut after, mem) {
        Ok(()) => follows(v, &after, mem),
        Err(_) => false,
    }
}

/// The same, where so many bytes from an address on, and those of the rest, are put back.
fn tried(v: &Any, regs: &Regs, mem: &mut Mem, addr: u32, len: u32, rest: &[Span]) -> bool
    requires context { IsTrue regs.now.fpca }
    requires room { regs.now.pc + 4 < 2 ^ 32 }
    ensures value { (listing : Listing) (output : List ℕ) (n steps : ℕ) → let m = memory_of mem.old in
        IsListing (flash_at m) listing → vector_of (listing regs.now.pc) ≡ Some (row_of v.now)
        → result ≡ is_ready (core listing m.around) (standing 2 0 n steps (state_of regs.now m output)) }
    ensures same { (others : List ℕ) → let m = memory_of mem.old in
        HoldsAll (stores_in (vector_tree (row_of v.now) m.around 2) regs.now m []) (others ++ (span_bytes addr len ++ spanned rest.now))
        → IsSameBut others m (memory_of mem.new) }
{
    if len > 0 {
        let held = Held::of(mem, addr);
        let result = tried(v, regs, mem, addr.wrapping_add(1), len - 1, rest);
        held.put_back(mem);
        return result;
    }
    match rest {
        [] => goes(v, regs, mem),
        [span, others @ ..] => tried(v, regs, mem, span.addr, span.len, others),
    }
}

/// Whether the older instruction has two beats done and the younger none, the third goes on, and then the first of the younger, so that an
/// `O` and then a `Y` would go on (DDI0553, "Beat-wise execution"). Nothing is changed.
pub fn ready(regs: &Regs, at: Window, mem: &mut Mem) -> bool
    requires context { 0 < at.a → IsTrue regs.now.fpca }
    ensures value { (listing : Listing) (output : List ℕ) (n steps : ℕ) → let m = memory_of mem.old in
        IsListing (flash_at m) listing → result ≡ is_ready (core listing m.around) (standing at.a at.b n steps (state_of regs.now m output)) }
    ensures same { memory_of mem.new ≡ memory_of mem.old }
{
    if at.a != 2 {
        return false;
    }
    if at.b != 0 {
        return false;
    }
    let Some(v) = vector_anew(mem, regs.pc) else {
        return false;
    };
    let touch = v.touch(2, regs);
    mem.sized();
    let result = tried(&v, regs, mem, 0, 0, touch.stores.as_slice());
    mem.sized();
    undone_law();
    result
}
