//! The return from an exception.

ghost use Rattle.std.specs.Prelude.{ℕ, ◌≡◌, ◌+◌, ◌-◌, ◌*◌, ◌/◌, ◌%◌, ◌^◌, ◌<◌, ◌≤◌, List, ◌∷◌, IsTrue, IfOk, OnOk, OnErr, slice_index, reverse, take};
ghost use Rattle.std.specs.Result.{result_err};
ghost use Rattle.arrayvec.specs.ArrayVec.{array_vec_len};
ghost use Rattle.hm_exc.specs.Entry.{FitsEntry, actor_under, main_after, newest_first, process_after, window_in};
ghost use Rattle.hm_exc.specs.Frame.{frame_size, frame_words};
ghost use Rattle.hm_exc.specs.Return.{Unbroken, return_rule};
ghost use Rattle.hm_exc.specs.declared.types.Activation.{Activation};
ghost use Rattle.hm_mem.specs.Memory.{byte_at, memory_of};
ghost use Rattle.hm_mem.specs.Seen.{with_actor};
ghost use Rattle.hm_regs.specs.Stacks.{uses_process};

use crate::frame::{frame_size, is_set, main_after, psr_block, psr_window};
use crate::memory::word;
use crate::rules::difference;
use crate::types::{Activation, Acts, Broken};
use hm_mem::{Actor, Mem};
use hm_regs::Regs;
use hm_window::Window;

/// Word `k` of the frame, as it stands in memory.
fn stacked(m: &Mem, x: &Activation, k: u32) -> u32
    requires fits { FitsEntry x.now }
    requires frame { (j : ℕ) → j < frame_size x.now.long → byte_at (memory_of m.now) (x.now.frame + j) ≡ slice_index x.now.bytes j }
    requires word { 4 * k < frame_size x.now.long }
    ensures value { result ≡ slice_index (frame_words x.now.regs (window_in x.now)) k }
{
    x.regs.in_range();
    let _pc = x.regs.pc;
    let _it = x.regs.it;
    word(m, x.frame + 4 * k)
}

/// r0 to r12: r4 to r11 as they are, and the others from the frame.
fn core_registers(r: &Regs, m: &Mem, x: &Activation) -> [u32; 13]
    requires fits { FitsEntry x.now }
    requires frame { (j : ℕ) → j < frame_size x.now.long → byte_at (memory_of m.now) (x.now.frame + j) ≡ slice_index x.now.bytes j }
    requires core { (k : ℕ) → 4 ≤ k → k < 12 → slice_index r.now.r k ≡ slice_index x.now.regs.r k }
    ensures value { result ≡ x.now.regs.r }
{
    x.regs.in_range();
    r.in_range();
    let mut core = r.r;
    for k in 0_u32..4 {
        core[k as usize] = stacked(m, x, k);
    }
    core[12] = stacked(m, x, 4);
    core
}

/// A word of Q0 to Q3: from the frame, or as it was at the entry where the frame has no context.
fn low_vector(m: &Mem, x: &Activation, k: u32) -> u32
    requires fits { FitsEntry x.now }
    requires frame { (j : ℕ) → j < frame_size x.now.long → byte_at (memory_of m.now) (x.now.frame + j) ≡ slice_index x.now.bytes j }
    requires low { k < 16 }
    ensures value { result ≡ slice_index x.now.regs.qw k }
{
    x.regs.in_range();
    if x.long {
        stacked(m, x, 8 + k)
    } else {
        x.regs.qw[k as usize]
    }
}

/// The vector registers: Q4 to Q7 as they are.
fn vectors(r: &Regs, m: &Mem, x: &Activation) -> [u32; 32]
    requires fits { FitsEntry x.now }
    requires frame { (j : ℕ) → j < frame_size x.now.long → byte_at (memory_of m.now) (x.now.frame + j) ≡ slice_index x.now.bytes j }
    requires high { (k : ℕ) → 16 ≤ k → k < 32 → slice_index r.now.qw k ≡ slice_index x.now.regs.qw k }
    ensures value { result ≡ x.now.regs.qw }
{
    x.regs.in_range();
    r.in_range();
    let mut words = r.qw;
    for k in 0_u32..16 {
        words[k as usize] = low_vector(m, x, k);
    }
    words
}

/// FPSCR: from the frame, or as it was at the entry where the frame has no context.
fn fpscr(m: &Mem, x: &Activation) -> u32
    requires fits { FitsEntry x.now }
    requires frame { (j : ℕ) → j < frame_size x.now.long → byte_at (memory_of m.now) (x.now.frame + j) ≡ slice_index x.now.bytes j }
    ensures value { result ≡ x.now.regs.fpscr }
{
    x.regs.in_range();
    if x.long {
        stacked(m, x, 24)
    } else {
        x.regs.fpscr
    }
}

/// VPR: from the frame, or as it was at the entry where the frame has no context.
fn vpr(m: &Mem, x: &Activation) -> u32
    requires fits { FitsEntry x.now }
    requires frame { (j : ℕ) → j < frame_size x.now.long → byte_at (memory_of m.now) (x.now.frame + j) ≡ slice_index x.now.bytes j }
    ensures value { result ≡ x.now.regs.vpr }
{
    x.regs.in_range();
    if x.long {
        stacked(m, x, 25)
    } else {
        x.regs.vpr
    }
}

/// Whether a return to this value takes its frame from the process stack (DDI0553, "EXC_RETURN").
fn is_process(value: u32, x: &Activation) -> bool
    requires fits { FitsEntry x.now }
    requires value { value ≡ x.now.value }
    ensures used { result ≡ uses_process x.now.regs }
    ensures selected { result ≡ x.now.regs.spsel }
{
    is_set(value, 2)
}

/// The pointer of the stack on which the frame lies.
fn frame_pointer(r: &Regs, x: &Activation, process: bool) -> u32
    requires used { process ≡ uses_process x.now.regs }
    requires stack { r.now.sp ≡ main_after x.now }
    requires process { r.now.other ≡ process_after x.now }
    ensures value { result ≡ x.now.frame }
{
    if process { r.other } else { r.sp }
}

/// The pointer of the other stack.
fn other_pointer(r: &Regs, x: &Activation, process: bool) -> u32
    requires used { process ≡ uses_process x.now.regs }
    requires stack { r.now.sp ≡ main_after x.now }
    requires process { r.now.other ≡ process_after x.now }
    ensures value { result ≡ x.now.regs.other }
{
    if process { r.sp } else { r.other }
}

/// The stack pointer above the frame, by the bit of xPSR that says whether bit 2 of it was set.
fn stack_above(frame: u32, x: &Activation, psr: u32) -> u32
    requires fits { FitsEntry x.now }
    requires stack { frame ≡ x.now.frame }
    requires aligned { psr / 2 ^ 9 % 2 ≡ x.now.regs.sp / 4 % 2 }
    ensures value { result ≡ x.now.regs.sp }
{
    let _sp = x.regs.sp;
    frame + frame_size(x.long) + 4 * ((psr >> 9) % 2)
}

/// The registers after a return in which nothing differs: from the frame, and where that has no context Q0 to Q3, FPSCR and VPR as they were.
fn restored(r: &Regs, m: &Mem, x: &Activation, process: bool, psr: u32, at: Window) -> Regs
    requires fits { FitsEntry x.now }
    requires used { process ≡ uses_process x.now.regs }
    requires selected { process ≡ x.now.regs.spsel }
    requires same { (value : ℕ) × Unbroken r.now (byte_at (memory_of m.now)) value x.now }
    requires psr { psr ≡ slice_index (frame_words x.now.regs (window_in x.now)) 7 }
    requires position { at ≡ window_in x.now }
    ensures value { result ≡ x.now.regs }
{
    let _it = x.regs.it;
    Regs {
        r: core_registers(r, m, x),
        sp: stack_above(frame_pointer(r, x, process), x, psr),
        other: other_pointer(r, x, process),
        lr: stacked(m, x, 5),
        pc: stacked(m, x, 6),
        n: is_set(psr, 31),
        z: is_set(psr, 30),
        c: is_set(psr, 29),
        v: is_set(psr, 28),
        q: is_set(psr, 27),
        it: psr_block(psr, at),
        fpscr: fpscr(m, x),
        vpr: vpr(m, x),
        qw: vectors(r, m, x),
        fpca: x.long,
        primask: r.primask,
        spsel: process,
        basepri: r.basepri,
        ipsr: (psr % 512) as u16,
    }
}

/// The position in the xPSR of the frame.
fn position(x: &Activation, psr: u32) -> Window
    requires fits { FitsEntry x.now }
    requires psr { psr ≡ slice_index (frame_words x.now.regs (window_in x.now)) 7 }
    ensures value { result ≡ window_in x.now }
{
    let _it = x.regs.it;
    psr_window(psr)
}

/// The newest activation, of one or more.
pub fn newest(acts: &Acts) -> Activation
    requires some { 0 < array_vec_len acts.now }
    ensures listed { newest_first acts.now ≡ result ∷ reverse (take (array_vec_len acts.now - 1) acts.now.items) }
    ensures value { (x : Activation) (rest : List Activation) → newest_first acts.now ≡ x ∷ rest → result ≡ x }
{
    acts.as_slice()[acts.len() - 1]
}

/// Takes the newest activation away, of one or more.
fn drop_newest(acts: &mut Acts)
    requires some { 0 < array_vec_len acts.old }
    ensures value { (x : Activation) (rest : List Activation) → newest_first acts.old ≡ x ∷ rest → newest_first acts.new ≡ rest }
{
    acts.truncate(acts.len() - 1);
}

/// Who accesses the memory: the handler of the newest activation, or the thread.
fn actor_of(acts: &Acts) -> Actor
    ensures value { result ≡ actor_under (newest_first acts.now) }
{
    if acts.is_empty() {
        Actor::Thread
    } else {
        Actor::Handler {
            frame: main_after(&newest(acts)),
        }
    }
}

/// A handler returns to `value`. Where nothing differs from the entry that put the newest activation away, the registers and the position are again those
/// of that activation, which is taken away, and the handler before it, or the thread, accesses the memory from then on (DDI0553, "Exception return"). Else the
/// first difference is told, and nothing is changed. `acts` is not empty, and an entry made the newest.
pub fn leave(r: &mut Regs, m: &mut Mem, value: u32, acts: &mut Acts) -> Result<Window, Broken>
    requires some { 0 < array_vec_len acts.old }
    requires fits { (x : Activation) (rest : List Activation) → newest_first acts.old ≡ x ∷ rest → FitsEntry x }
    ensures broken { (x : Activation) (rest : List Activation) → newest_first acts.old ≡ x ∷ rest
        → result_err result ≡ return_rule r.old (byte_at (memory_of m.old)) value x }
    ensures registers { (x : Activation) (rest : List Activation) → newest_first acts.old ≡ x ∷ rest → OnOk result (r.new ≡ x.regs) }
    ensures position { (x : Activation) (rest : List Activation) → newest_first acts.old ≡ x ∷ rest → IfOk result (λ w. w ≡ window_in x) }
    ensures memory { (x : Activation) (rest : List Activation) → newest_first acts.old ≡ x ∷ rest
        → OnOk result (memory_of m.new ≡ with_actor (actor_under rest) (memory_of m.old)) }
    ensures acts { (x : Activation) (rest : List Activation) → newest_first acts.old ≡ x ∷ rest → OnOk result (newest_first acts.new ≡ rest) }
    ensures same_registers { OnErr result (r.new ≡ r.old) }
    ensures same_memory { OnErr result (memory_of m.new ≡ memory_of m.old) }
    ensures same_acts { OnErr result (acts.new ≡ acts.old) }
{
    let x = newest(acts);
    if let Some(b) = difference(r, m, value, &x) {
        return Err(b);
    }
    let psr = stacked(m, &x, 7);
    let at = position(&x, psr);
    let process = is_process(value, &x);
    *r = restored(r, m, &x, process, psr, at);
    drop_newest(acts);
    m.set_actor(actor_of(acts));
    Ok(at)
}
