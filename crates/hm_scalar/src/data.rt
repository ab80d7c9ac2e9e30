//! The rows T1 and T2: operations with a constant, as `and.w rd,rn,#c`, or with a shifted register, as `and.w rd,rn,rm,lsl #k`.

ghost use Rattle.std.specs.Prelude.{◌≡◌, ◌<◌};
ghost use Rattle.hm_thumb.specs.DataRows.{data_row, put_data_sum, put_if, put_logical, t1, t2};

use crate::operands::{reg_or_zero, shifted_register};
use hm_base::Place;
use hm_isa::words::{Shifted, expand_imm_c, imm12};
use hm_isa::{DataName, T1, T2};
use hm_regs::Regs;
use hm_thumb::{Sum, add_with_carry, set_nzc, set_nzcv};

/// Puts a result into register `d`, if there is one.
fn put_if(d: u32, x: u32, regs: &mut Regs)
    requires { d < 16 }
    ensures regs { regs.new ≡ put_if d x regs.old }
{
    if d != 15 {
        regs.set(Place::R(d as u8), x);
    }
}

/// Puts the result of a logical operation into register `d`; with `s` N, Z and C tell it.
fn put_logical(s: u32, d: u32, x: u32, carry: bool, regs: &mut Regs)
    requires { d < 16 }
    ensures regs { regs.new ≡ put_logical s d x carry regs.old }
{
    put_if(d, x, regs);
    if s == 1 {
        set_nzc(regs, Shifted { result: x, carry });
    }
}

/// Puts a sum into register `d`; with `s` the flags tell it.
fn put_data_sum(s: u32, d: u32, x: Sum, regs: &mut Regs)
    requires { d < 16 }
    ensures regs { regs.new ≡ put_data_sum s d x regs.old }
{
    put_if(d, x.result, regs);
    if s == 1 {
        set_nzcv(regs, x);
    }
}

/// Does an operation on two operands. The second has the carry for C where the result is no sum.
fn operate(name: DataName, s: u32, d: u32, x: u32, second: Shifted, regs: &mut Regs)
    requires { d < 16 }
    ensures regs { regs.new ≡ data_row name s d x second regs.old }
{
    let c = regs.c;
    let y = second.result;
    let out = second.carry;
    match name {
        DataName::And => put_logical(s, d, x & y, out, regs),
        DataName::Bic => put_logical(s, d, x & !y, out, regs),
        DataName::Orr => put_logical(s, d, x | y, out, regs),
        DataName::Orn => put_logical(s, d, x | !y, out, regs),
        DataName::Eor => put_logical(s, d, x ^ y, out, regs),
        DataName::Add => put_data_sum(s, d, add_with_carry(x, y, false), regs),
        DataName::Adc => put_data_sum(s, d, add_with_carry(x, y, c), regs),
        DataName::Sbc => put_data_sum(s, d, add_with_carry(x, !y, c), regs),
        DataName::Sub => put_data_sum(s, d, add_with_carry(x, !y, true), regs),
        DataName::Rsb => put_data_sum(s, d, add_with_carry(!x, y, true), regs),
    }
}

/// An operation with a constant, as `and.w rd,rn,#c`
pub fn with_constant(i: &T1, regs: &mut Regs)
    ensures regs { regs.new ≡ t1 i.now regs.old }
{
    let x = reg_or_zero(i.n.get(), regs);
    let y = expand_imm_c(imm12(i.i, i.i3, i.i8), regs.c);
    operate(i.name, i.s.get(), i.d.get(), x, y, regs);
}

/// An operation with a shifted register, as `and.w rd,rn,rm,lsl #k`
pub fn with_register(i: &T2, regs: &mut Regs)
    ensures regs { regs.new ≡ t2 i.now regs.old }
{
    let x = reg_or_zero(i.n.get(), regs);
    let y = shifted_register(i.ty, i.i3, i.i2, i.m.get(), regs);
    operate(i.name, i.s.get(), i.d.get(), x, y, regs);
}
