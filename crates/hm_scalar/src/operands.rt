//! Operands of 32-bit codes: registers, and registers that are shifted.

ghost use Rattle.std.specs.Prelude.{◌≡◌, ◌<◌, ◌≤◌};
ghost use Rattle.hm_isa.specs.Words.{imm5};
ghost use Rattle.hm_thumb.specs.DataRows.{imm_shift_c, rrx_c};
ghost use Rattle.hm_thumb.specs.RegisterRows.{reg, reg_or_zero};

use hm_base::Place;
use hm_isa::Below;
use hm_isa::words::{SIGN, Shifted, imm5, is_by_carry, shift_c, shift_number, shift_type};
use hm_regs::Regs;

/// A register, where 15 stands for 0.
pub fn reg_or_zero(n: u32, regs: &Regs) -> u32
    requires { n < 16 }
    ensures value { result ≡ reg_or_zero n regs.now }
{
    if n == 15 {
        0
    } else {
        regs.get(Place::R(n as u8))
    }
}

/// A word shifted right by one bit, with the carry in front, and the bit that was shifted out.
fn rrx_c(x: u32, carry: bool) -> Shifted
    ensures value { result ≡ rrx_c x carry }
{
    let front = if carry { SIGN } else { 0 };
    Shifted {
        result: x / 2 + front,
        carry: x % 2 == 1,
    }
}

/// A word shifted as the number of a type and an amount say, and the carry.
pub fn imm_shift_c(ty: Below<4>, k: u32, x: u32, carry: bool) -> Shifted
    ensures value { result ≡ imm_shift_c ty.value k x carry }
{
    if is_by_carry(ty, k) {
        return rrx_c(x, carry);
    }
    shift_c(shift_type(ty), x, shift_number(ty, k), carry)
}

/// Register `n`, shifted as the bits `ty`, `i3` and `i2` of a code say, and the carry.
pub fn shifted_register(ty: Below<4>, i3: Below<8>, i2: Below<4>, n: u32, regs: &Regs) -> Shifted
    requires { n ≤ 14 }
    ensures value { result ≡ imm_shift_c ty.value (imm5 i3.value i2.value) (reg n regs.now) regs.now.c }
{
    imm_shift_c(ty, imm5(i3, i2), regs.get(Place::R(n as u8)), regs.c)
}
