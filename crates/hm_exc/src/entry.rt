//! The entry of an exception.

ghost use Rattle.std.specs.Prelude.{ℕ, ◌≡◌, ◌+◌, ◌-◌, ◌*◌, ◌%◌, ◌^◌, ◌<◌, ◌≤◌, ◌&&◌, nat_le, IsTrue, OnOk, OnErr, ◌∷◌, slice_index, if◌then◌else◌};
ghost use Rattle.std.specs.Result.{result_err};
ghost use Rattle.arrayvec.specs.ArrayVec.{array_vec_len};
ghost use Rattle.hm_exc.specs.Entry.{CanEnter, FitsEntry, Passes, activation, entered_memory, entered_registers, entry_refusal, main_after, newest_first};
ghost use Rattle.hm_exc.specs.Entry.{vector_of, window_in};
ghost use Rattle.hm_exc.specs.Frame.{floor_for, frame_size, vector_address};
ghost use Rattle.hm_exc.specs.Written.{written};
ghost use Rattle.hm_mem.specs.Memory.{memory_of};
ghost use Rattle.hm_mem.specs.Seen.{IsSameElsewhere, lies_in_sram, seen, with_dev};
ghost use Rattle.hm_mem.specs.declared.Actor.{Actor};
ghost use Rattle.hm_sys.specs.Exceptions.{IsException, accepted, end_number};

use crate::frame::{activation, frame_size, main_after, process_after};
use crate::memory::{is_vector, word};
use crate::types::{Activation, Acts, EnterErr};
use hm_mem::{Access, Actor, Dev, Mem, lies_in_sram};
use hm_regs::Regs;
use hm_sys::accept;
use hm_window::Window;

/// Writes the bytes of a frame, as the entry.
fn write_frame(m: &mut Mem, x: &Activation)
    requires actor { (memory_of m.old).around.actor ≡ Actor.Entry }
    requires in_sram { IsTrue (lies_in_sram (frame_size x.now.long) x.now.frame) }
    ensures seen { seen (memory_of m.new) ≡ written x.now (frame_size x.now.long) (seen (memory_of m.old)) }
    ensures kept { IsSameElsewhere (memory_of m.old) (memory_of m.new) }
{
    for k in 0..frame_size(x.long) {
        m.put(x.frame + k, 1, Access::Scalar, x.bytes[k as usize] as u32);
    }
}

/// An exception is no longer pending.
fn take(m: &mut Mem, e: u16)
    requires exception { IsException e }
    ensures memory { memory_of m.new ≡ with_dev (accepted e (memory_of m.old).devices) (memory_of m.old) }
{
    accept(m.dev_mut(), e);
}

/// What an entry does to the memory: the frame is written, the exception is no longer pending, and from then on its handler accesses the memory.
pub fn stack(m: &mut Mem, x: &Activation)
    requires exception { IsException x.now.number }
    requires in_sram { IsTrue (lies_in_sram (frame_size x.now.long) x.now.frame) }
    ensures seen { seen (memory_of m.new) ≡ entered_memory x.now (seen (memory_of m.old)) }
    ensures passes { Passes (Actor.Handler (main_after x.now)) (memory_of m.old) (memory_of m.new) }
{
    m.set_actor(Actor::Entry);
    write_frame(m, x);
    take(m, x.number);
    m.set_actor(Actor::Handler {
        frame: main_after(x),
    });
}

/// Where the vector of an exception stands (DDI0553, "Vector tables").
fn vector_address(d: &Dev, e: u16) -> u32
    requires exception { e < end_number }
    ensures value { result ≡ vector_address d.now e }
{
    d.vtor.wrapping_add(4 * e as u32)
}

/// The registers in the handler of an activation, with this vector: it uses the main stack.
fn entered(x: &Activation, vector: u32) -> Regs
    ensures value { (r : Regs) (w : Window) (e : ℕ) → x.now ≡ activation r w e → result ≡ entered_registers r e vector }
{
    let main = main_after(x);
    let process = process_after(x);
    Regs {
        sp: main,
        other: process,
        lr: x.value,
        pc: vector - vector % 2,
        it: 0,
        fpca: false,
        spsel: false,
        ipsr: x.number,
        ..x.regs
    }
}

/// The lowest address of a frame on the stack in use.
fn floor_for(m: &Mem, r: &Regs) -> u32
    ensures value { result ≡ floor_for (memory_of m.now).around.bounds r.now }
{
    if r.uses_process() {
        m.process()
    } else {
        m.floor()
    }
}

/// Whether the frame lies in SRAM, from the floor of its stack on.
fn has_room(m: &Mem, x: &Activation) -> bool
    ensures value { result ≡ (nat_le (floor_for (memory_of m.now).around.bounds x.now.regs) x.now.frame && lies_in_sram (frame_size x.now.long) x.now.frame) }
{
    floor_for(m, &x.regs) <= x.frame && lies_in_sram(frame_size(x.long), x.frame)
}

/// Exception `e`, 15 to 255, enters, where the position is `w`: its frame is stacked, the registers are those of its handler, and its activation is the newest
/// (DDI0553, "Exception entry"). The handler accesses the memory from then on.
///
/// A tick may end at `w`, the exception number is below 512, the IT byte is 0 or has a bit among its lowest four, and it is 0 inside an instruction; SPSEL is
/// false in a handler. `acts` is not full.
///
/// Refused are, and then nothing is changed, StackSpent with SP exactly where the frame does not lie in SRAM from the floor of its stack on, and else
/// Vector with the address in the vector table exactly where no word of memory with bit 0 set stands there.
pub fn enter(r: &mut Regs, m: &mut Mem, w: Window, e: u16, acts: &mut Acts) -> Result<(), EnterErr>
    requires state { CanEnter r.old w }
    requires exception { IsException e }
    requires depth { array_vec_len acts.old < 8 }
    ensures refused { result_err result ≡ entry_refusal (memory_of m.old).around.bounds r.old (seen (memory_of m.old)) e }
    ensures registers { OnOk result (r.new ≡ entered_registers r.old e (vector_of (seen (memory_of m.old)) e)) }
    ensures memory { OnOk result (seen (memory_of m.new) ≡ entered_memory (activation r.old w e) (seen (memory_of m.old))) }
    ensures passes { OnOk result (Passes (Actor.Handler (main_after (activation r.old w e))) (memory_of m.old) (memory_of m.new)) }
    ensures acts { OnOk result (newest_first acts.new ≡ activation r.old w e ∷ newest_first acts.old) }
    ensures fits { OnOk result (FitsEntry (activation r.old w e)) }
    ensures position { window_in (activation r.old w e) ≡ w }
    ensures same_registers { OnErr result (r.new ≡ r.old) }
    ensures same_memory { OnErr result (memory_of m.new ≡ memory_of m.old) }
    ensures same_acts { OnErr result (acts.new ≡ acts.old) }
{
    let x = activation(r, w, e);
    if !has_room(m, &x) {
        return Err(EnterErr::StackSpent { sp: r.sp });
    }
    let addr = vector_address(m.dev(), e);
    if !is_vector(m, addr) {
        return Err(EnterErr::Vector { addr });
    }
    let vector = word(m, addr);
    stack(m, &x);
    *r = entered(&x, vector);
    acts.push(x);
    Ok(())
}
