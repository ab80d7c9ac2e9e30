//! The rows T3 to T7: longer constants, saturation, and fields of bits.

ghost use Rattle.std.specs.Prelude.{◌≡◌, ◌≤◌, ◌<◌, ◌^◌};
ghost use Rattle.hm_thumb.specs.DataRows.{bits_with, half_put, put_saturated, saturated, t3, t4, t5, t6, t7};

use crate::operands::{reg_or_zero, shifted_register};
use crate::sums::sum_of;
use hm_base::{Place, bits};
use hm_isa::words::{SIGN, imm5, imm12, imm16, sign_extended};
use hm_isa::{Below, ExtractName, HalfName, SaturateName, T3, T4, T5, T6, T7};
use hm_regs::{Regs, put_bits};
use hm_thumb::base_of;

/// `addw`, `subw rd,rn,#i12`
pub fn add(i: &T3, regs: &mut Regs)
    ensures regs { regs.new ≡ t3 i.now regs.old }
{
    let x = base_of(i.n.get(), regs);
    let y = imm12(i.i, i.i3, i.i8);
    regs.set(Place::R(i.d.get() as u8), sum_of(i.name, x, y).result);
}

/// A halfword as a word, or in the high half of another.
fn half_put(name: HalfName, x: u32, old: u32) -> u32
    requires { x < 2 ^ 16 }
    ensures value { result ≡ half_put name x old }
{
    match name {
        HalfName::Movw => x,
        HalfName::Movt => (x << 16) + old % 0x1_0000,
    }
}

/// `movw`, `movt rd,#i16`
pub fn move_half(i: &T4, regs: &mut Regs)
    ensures regs { regs.new ≡ t4 i.now regs.old }
{
    let d = Place::R(i.d.get() as u8);
    let x = imm16(i.i4, i.i, i.i3, i.i8);
    regs.set(d, half_put(i.name, x, regs.get(d)));
}

/// The nearest number to a word with its sign: from -2 ^ s, or from 0, to 2 ^ s - 1.
fn saturated(name: SaturateName, s: u32, x: u32) -> u32
    requires { s < 32 }
    ensures value { result ≡ saturated name s x }
{
    let top = (1u32 << s) - 1;
    if x < SIGN {
        return x.min(top);
    }
    match name {
        SaturateName::Ssat => x.max(!top),
        SaturateName::Usat => 0,
    }
}

/// Puts the nearest number to `x` into register `d`; where it is another one, Q tells it.
fn put_saturated(d: u32, y: u32, x: u32, regs: &mut Regs)
    requires { d ≤ 14 }
    ensures regs { regs.new ≡ put_saturated d y x regs.old }
{
    regs.set(Place::R(d as u8), y);
    regs.q = regs.q || y != x;
}

/// `ssat rd,#s+1,rn`, `usat rd,#s,rn`
pub fn saturate(i: &T5, regs: &mut Regs)
    ensures regs { regs.new ≡ t5 i.now regs.old }
{
    let ty = Below::new(2 * i.sh.get());
    let x = shifted_register(ty, i.i3, i.i2, i.n.get(), regs).result;
    let y = saturated(i.name, i.s.get(), x);
    put_saturated(i.d.get(), y, x, regs);
}

/// So many bits with their sign or with zeros.
fn bits_with(name: ExtractName, width: u32, x: u32) -> u32
    requires some { 1 ≤ width }
    requires few { width ≤ 32 }
    requires below { x < 2 ^ width }
    ensures value { result ≡ bits_with name width x }
{
    match name {
        ExtractName::Sbfx if width < 32 => sign_extended(width, x),
        _ => x,
    }
}

/// `sbfx`, `ubfx rd,rn,#lsb,#w+1`
pub fn extract(i: &T6, regs: &mut Regs)
    ensures regs { regs.new ≡ t6 i.now regs.old }
{
    let lsb = imm5(i.i3, i.i2);
    let w = i.w.get();
    let x = bits(regs.get(Place::R(i.n.get() as u8)), lsb + w, lsb);
    regs.set(Place::R(i.d.get() as u8), bits_with(i.name, w + 1, x));
}

/// `bfi rd,rn,#lsb,#width`, `bfc rd,#lsb,#width`
pub fn insert(i: &T7, regs: &mut Regs)
    ensures regs { regs.new ≡ t7 i.now regs.old }
{
    let lsb = imm5(i.i3, i.i2);
    let d = Place::R(i.d.get() as u8);
    let x = reg_or_zero(i.n.get(), regs);
    let word = regs.get(d);
    regs.set(d, put_bits(word, i.e.get(), lsb, x));
}
