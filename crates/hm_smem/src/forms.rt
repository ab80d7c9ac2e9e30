//! Rows that load or store one number, by their forms of address.

ghost use Rattle.std.specs.Prelude.{◌≡◌, ℕ, ◌≤◌, ◌<◌, ◌*◌, ◌%◌, ◌^◌, OnErr};
ghost use Rattle.hm_mem.specs.Memory.{memory_of};
ghost use Rattle.hm_thumb.specs.MemoryRows.{indexed, literal, moved, offset, s14, s15, s16, s17, shifted, t12};
ghost use Rattle.hm_thumb.specs.Steps.{IsDone};

use crate::bases::chosen;
use crate::single::{Back, access_at, access_row};
use hm_base::{Place, Stop};
use hm_isa::{AccessName, Indexed, Literal, Offset, S14, S15, S16, S17, Shifted, T12};
use hm_mem::Mem;
use hm_regs::Regs;
use hm_thumb::{Way, base_of};

/// `ldr rt,label`
pub fn s14(i: &S14, regs: &mut Regs, mem: &mut Mem) -> Result<Way, Stop>
    ensures done { IsDone (s14 i.now regs.old) regs.old regs.new (memory_of mem.old) (memory_of mem.new) result }
{
    let addr = base_of(15, regs).wrapping_add(4 * i.i.get());
    access_at(AccessName::Ldr, i.t.get(), addr, regs, mem)
}

/// `str`, `strh`, `strb`, `ldrsb`, `ldr`, `ldrh`, `ldrb` or `ldrsh` with `rt,[rn,rm]`
pub fn s15(i: &S15, regs: &mut Regs, mem: &mut Mem) -> Result<Way, Stop>
    ensures done { IsDone (s15 i.now regs.old) regs.old regs.new (memory_of mem.old) (memory_of mem.new) result }
{
    let base = regs.get(Place::R(i.n.get() as u8));
    let index = regs.get(Place::R(i.m.get() as u8));
    access_at(i.name, i.t.get(), base.wrapping_add(index), regs, mem)
}

/// `str`, `ldr`, `strb`, `ldrb`, `strh` or `ldrh` with `rt,[rn,#i]`
pub fn s16(i: &S16, regs: &mut Regs, mem: &mut Mem) -> Result<Way, Stop>
    ensures done { IsDone (s16 i.now regs.old) regs.old regs.new (memory_of mem.old) (memory_of mem.new) result }
{
    let base = regs.get(Place::R(i.n.get() as u8));
    let name = i.name.access();
    let addr = base.wrapping_add(name.size() * i.i.get());
    access_at(name, i.t.get(), addr, regs, mem)
}

/// `str` or `ldr rt,[sp,#4i]`
pub fn s17(i: &S17, regs: &mut Regs, mem: &mut Mem) -> Result<Way, Stop>
    ensures done { IsDone (s17 i.now regs.old) regs.old regs.new (memory_of mem.old) (memory_of mem.new) result }
{
    let addr = regs.get(Place::R(13)).wrapping_add(4 * i.i.get());
    access_at(i.name.access(), i.t.get(), addr, regs, mem)
}

/// An address up or down by so many bytes.
fn moved(add: bool, n: u32, addr: u32) -> u32
    ensures value { result ≡ moved add n addr }
{
    if add {
        addr.wrapping_add(n)
    } else {
        addr.wrapping_sub(n)
    }
}

/// A load or store of two halfwords at an offset upward, as `strb.w rt,[rn,#i]`
fn offset(i: &Offset, regs: &mut Regs, mem: &mut Mem) -> Result<Way, Stop>
    ensures done { IsDone (offset i.now regs.old) regs.old regs.new (memory_of mem.old) (memory_of mem.new) result }
{
    let base = regs.get(Place::R(i.n.value as u8));
    let addr = base.wrapping_add(i.i.value);
    access_at(i.name, i.t.value, addr, regs, mem)
}

/// A load or store of two halfwords at an offset downward, or with writeback, as `strb.w rt,[rn,#-i]`, `[rn,#i]!` or `[rn],#i`
fn indexed(i: &Indexed, regs: &mut Regs, mem: &mut Mem) -> Result<Way, Stop>
    ensures done { IsDone (indexed i.now regs.old) regs.old regs.new (memory_of mem.old) (memory_of mem.new) result }
{
    let base = regs.get(Place::R(i.n.value as u8));
    let to = moved(i.u.value == 1, i.i.value, base);
    let addr = chosen(i.p.value == 1, to, base);
    let back = Back {
        w: i.w.value == 1,
        n: i.n.value,
        to,
    };
    access_row(i.name, i.t.value, addr, back, regs, mem)
}

/// A word shifted left.
fn shifted_left(x: u32, n: u32) -> u32
    requires few { n < 4 }
    ensures value { result ≡ x * 2 ^ n % 2 ^ 32 }
{
    let wide = (x as u64) << n;
    (wide % 0x1_0000_0000) as u32
}

/// A load or store of two halfwords at an offset in a register, as `strb.w rt,[rn,rm,lsl #i]`
fn shifted(i: &Shifted, regs: &mut Regs, mem: &mut Mem) -> Result<Way, Stop>
    ensures done { IsDone (shifted i.now regs.old) regs.old regs.new (memory_of mem.old) (memory_of mem.new) result }
{
    let base = regs.get(Place::R(i.n.value as u8));
    let index = shifted_left(regs.get(Place::R(i.m.value as u8)), i.i.value);
    let addr = base.wrapping_add(index);
    access_at(i.name, i.t.value, addr, regs, mem)
}

/// A load of two halfwords at an offset from pc, as `ldrb.w rt,[pc,#i]`
fn literal(i: &Literal, regs: &mut Regs, mem: &mut Mem) -> Result<Way, Stop>
    ensures done { IsDone (literal i.now regs.old) regs.old regs.new (memory_of mem.old) (memory_of mem.new) result }
{
    let addr = moved(i.u.value == 1, i.i.value, base_of(15, regs));
    access_at(i.name, i.t.value, addr, regs, mem)
}

/// `str.w`, `strh.w`, `strb.w`, `ldr.w`, `ldrh.w`, `ldrb.w`, `ldrsh.w` or `ldrsb.w`
pub fn t12(i: &T12, regs: &mut Regs, mem: &mut Mem) -> Result<Way, Stop>
    ensures done { IsDone (t12 i.now regs.old) regs.old regs.new (memory_of mem.old) (memory_of mem.new) result }
{
    match i {
        T12::Offset(i) => offset(i, regs, mem),
        T12::Indexed(i) => indexed(i, regs, mem),
        T12::Shifted(i) => shifted(i, regs, mem),
        T12::Literal(i) => literal(i, regs, mem),
    }
}
