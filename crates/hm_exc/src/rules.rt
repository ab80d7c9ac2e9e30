//! What a return compares with its entry.

ghost use Rattle.std.specs.Prelude.{ℕ, ◌≡◌, ◌+◌, ◌-◌, ◌*◌, ◌<◌, ◌≤◌, IsTrue, None, slice_index};
ghost use Rattle.hm_exc.specs.Entry.{main_after, process_after};
ghost use Rattle.hm_exc.specs.Frame.{frame_size};
ghost use Rattle.hm_exc.specs.Return.{Unbroken, core_rule, differing, first_from, frame_rule, mask_rule, return_rule, stack_rule, vector_rule};
ghost use Rattle.hm_mem.specs.Memory.{byte_at, memory_of};
ghost use Rattle.hm_mem.specs.Seen.{lies_in_sram};

use crate::frame::{frame_size, main_after, process_after};
use crate::memory::byte;
use crate::types::{Activation, Broken, Slot};
use hm_base::Place;
use hm_mem::Mem;
use hm_regs::Regs;

/// How one thing that a handler has to leave as it was differs.
fn differing(name: Slot, entry: u32, now: u32) -> Option<Broken>
    ensures value { result ≡ differing name entry now }
    ensures same { result ≡ None → now ≡ entry }
{
    if entry == now {
        None
    } else {
        Some(Broken::Register { name, entry, now })
    }
}

/// The first byte of the frame that differs.
fn frame_difference(m: &Mem, x: &Activation) -> Option<Broken>
    requires in_sram { IsTrue (lies_in_sram (frame_size x.now.long) x.now.frame) }
    ensures value { result ≡ first_from (frame_rule (byte_at (memory_of m.now)) x.now) 0 (frame_size x.now.long) }
    ensures same { result ≡ None → (k : ℕ) → k < frame_size x.now.long → byte_at (memory_of m.now) (x.now.frame + k) ≡ slice_index x.now.bytes k }
{
    for k in 0..frame_size(x.long) {
        let addr = x.frame + k;
        if byte(m, addr) != x.bytes[k as usize] {
            return Some(Broken::Frame { addr });
        }
    }
    None
}

/// The first of r4 to r11 that differs.
fn core_difference(r: &Regs, x: &Activation) -> Option<Broken>
    ensures value { result ≡ first_from (core_rule r.now x.now) 4 8 }
    ensures same { result ≡ None → (k : ℕ) → 4 ≤ k → k < 12 → slice_index r.now.r k ≡ slice_index x.now.regs.r k }
{
    for k in 4_u8..12 {
        let name = Slot::Reg(Place::R(k));
        let found = differing(name, x.regs.r[k as usize], r.r[k as usize]);
        if let Some(difference) = found {
            return Some(difference);
        }
    }
    None
}

/// The first word of Q4 to Q7 that differs.
fn vector_difference(r: &Regs, x: &Activation) -> Option<Broken>
    ensures value { result ≡ first_from (vector_rule r.now x.now) 16 16 }
    ensures same { result ≡ None → (k : ℕ) → 16 ≤ k → k < 32 → slice_index r.now.qw k ≡ slice_index x.now.regs.qw k }
{
    for k in 16_u8..32 {
        let name = Slot::Reg(Place::QWord(k));
        let found = differing(name, x.regs.qw[k as usize], r.qw[k as usize]);
        if let Some(difference) = found {
            return Some(difference);
        }
    }
    None
}

/// The first of the two stack pointers that differs, the main one and then that of the process stack.
fn stack_difference(r: &Regs, x: &Activation) -> Option<Broken>
    ensures value { result ≡ stack_rule r.now x.now }
    ensures same { result ≡ None → (r.now.sp ≡ main_after x.now) × (r.now.other ≡ process_after x.now) }
{
    if let Some(difference) = differing(Slot::Reg(Place::R(13)), main_after(x), r.sp) {
        return Some(difference);
    }
    differing(Slot::Psp, process_after(x), r.other)
}

/// The first of PRIMASK and BASEPRI that differs.
fn mask_difference(r: &Regs, x: &Activation) -> Option<Broken>
    ensures value { result ≡ mask_rule r.now x.now }
    ensures same { result ≡ None → (r.now.primask ≡ x.now.regs.primask) × (r.now.basepri ≡ x.now.regs.basepri) }
{
    if let Some(difference) = differing(
        Slot::Primask,
        u32::from(x.regs.primask),
        u32::from(r.primask),
    ) {
        return Some(difference);
    }
    differing(Slot::Basepri, x.regs.basepri as u32, r.basepri as u32)
}

/// The first difference of a return to `value` from the entry that put `x` away: of the value, of SP and PSP, of the bytes of the frame from the
/// lowest, of r4 to r11, of the words of Q4 to Q7, and of PRIMASK and BASEPRI.
pub fn difference(r: &Regs, m: &Mem, value: u32, x: &Activation) -> Option<Broken>
    requires in_sram { IsTrue (lies_in_sram (frame_size x.now.long) x.now.frame) }
    ensures value { result ≡ return_rule r.now (byte_at (memory_of m.now)) value x.now }
    ensures same { result ≡ None → Unbroken r.now (byte_at (memory_of m.now)) value x.now }
{
    if value != x.value {
        return Some(Broken::ExcReturn { value });
    }
    if let Some(b) = stack_difference(r, x) {
        return Some(b);
    }
    if let Some(b) = frame_difference(m, x) {
        return Some(b);
    }
    if let Some(b) = core_difference(r, x) {
        return Some(b);
    }
    if let Some(b) = vector_difference(r, x) {
        return Some(b);
    }
    mask_difference(r, x)
}
