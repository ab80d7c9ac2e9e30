//! Shifts by a register, extension, reversal and choice in 32-bit codes.

ghost use Rattle.std.specs.Prelude.{◌≡◌, ℕ, ◌<◌, ◌≤◌, cond};
ghost use Rattle.hm_thumb.specs.ArithRows.{bits_of, otherwise, put_told, t8, t9, t10, t20, wide_shift_of};
ghost use Rattle.hm_thumb.specs.RegisterRows.{reg_or_zero};
ghost use Rattle.hm_thumb.specs.Blocks.{condition_holds};

use crate::bytes::{extended_by, swapped};
use crate::operands::reg_or_zero;
use hm_base::Place;
use hm_isa::words::{ShiftType, Shifted, rotated, shift_c};
use hm_isa::{BitsName, SelectName, SwapName, T8, T9, T10, T20, WideShiftName};
use hm_regs::Regs;
use hm_thumb::{condition_holds, set_nzc};

/// How the row shifts.
fn shift_of(name: WideShiftName) -> ShiftType
    ensures value { result ≡ wide_shift_of name }
{
    match name {
        WideShiftName::Lsl => ShiftType::Lsl,
        WideShiftName::Lsr => ShiftType::Lsr,
        WideShiftName::Asr => ShiftType::Asr,
        WideShiftName::Ror => ShiftType::Ror,
    }
}

/// Puts what was shifted into register `d`; where `s` is 1, N, Z and C tell it.
fn put_told(s: u32, d: u32, x: Shifted, regs: &mut Regs)
    requires { d ≤ 14 }
    ensures regs { regs.new ≡ put_told s d x regs.old }
{
    regs.set(Place::R(d as u8), x.result);
    if s == 1 {
        set_nzc(regs, x);
    }
}

/// `lsl.w`, `lsr.w`, `asr.w`, `ror.w rd,rn,rm`
pub fn shift(i: &T8, regs: &mut Regs)
    ensures regs { regs.new ≡ t8 i.now regs.old }
{
    let x = regs.get(Place::R(i.n.get() as u8));
    let count = regs.get(Place::R(i.m.get() as u8)) % 256;
    let shifted = shift_c(shift_of(i.name), x, count, regs.c);
    put_told(i.s.get(), i.d.get(), shifted, regs);
}

/// `sxth.w`, `uxth.w`, `sxtb.w`, `uxtb.w rd,rm,ror #8r`
pub fn extend(i: &T9, regs: &mut Regs)
    ensures regs { regs.new ≡ t9 i.now regs.old }
{
    let x = regs.get(Place::R(i.m.get() as u8));
    let turned = rotated(x, 8 * i.r.get());
    regs.set(Place::R(i.d.get() as u8), extended_by(i.name, turned));
}

/// The bytes or bits of a word in reverse order, or how many of the highest bits are 0.
fn bits_of(name: BitsName, x: u32) -> u32
    ensures value { result ≡ bits_of name x }
{
    match name {
        BitsName::Rev => swapped(SwapName::Rev, x),
        BitsName::Rev16 => swapped(SwapName::Rev16, x),
        BitsName::Rbit => x.reverse_bits(),
        BitsName::Revsh => swapped(SwapName::Revsh, x),
        BitsName::Clz => x.leading_zeros(),
    }
}

/// `rev.w`, `rev16.w`, `rbit`, `revsh.w`, `clz rd,rm`
pub fn reorder(i: &T10, regs: &mut Regs)
    ensures regs { regs.new ≡ t10 i.now regs.old }
{
    let x = regs.get(Place::R(i.m.get() as u8));
    regs.set(Place::R(i.d.get() as u8), bits_of(i.name, x));
}

/// What the row makes of its second operand.
fn otherwise(name: SelectName, y: u32) -> u32
    ensures value { result ≡ otherwise name y }
{
    match name {
        SelectName::Csel => y,
        SelectName::Csinc => y.wrapping_add(1),
        SelectName::Csinv => !y,
        SelectName::Csneg => y.wrapping_neg(),
    }
}

/// The first operand where the condition holds, and else what the row makes of the second.
fn chosen(i: &T20, regs: &Regs) -> u32
    ensures value { let y = reg_or_zero i.now.m.value regs.now in
        result ≡ cond (condition_holds i.now.c.value regs.now) (reg_or_zero i.now.n.value regs.now) (otherwise i.now.name y) }
{
    if condition_holds(i.c.get(), regs) {
        reg_or_zero(i.n.get(), regs)
    } else {
        otherwise(i.name, reg_or_zero(i.m.get(), regs))
    }
}

/// `csel`, `csinc`, `csinv`, `csneg rd,rn,rm,cond`
pub fn select(i: &T20, regs: &mut Regs)
    ensures regs { regs.new ≡ t20 i.now regs.old }
{
    regs.set(Place::R(i.d.get() as u8), chosen(i, regs));
}
