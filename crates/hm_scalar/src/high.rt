//! Rows that name all sixteen registers, and sums with pc and sp.

ghost use Rattle.std.specs.Prelude.{◌≡◌, ℕ, ◌<◌};
ghost use Rattle.hm_thumb.specs.Does.{Ends};
ghost use Rattle.hm_thumb.specs.RegisterRows.{put_any, s6, s7, s8, s9, s10};

use crate::sums::sum_of;
use hm_base::Place;
use hm_isa::{S6, S7, S8, S9, S10, SumName};
use hm_regs::Regs;
use hm_thumb::{Way, base_of, operand, set_nzcv};

/// Puts a result into register `d`; into pc, by a branch.
fn put_any(d: u32, x: u32, regs: &mut Regs) -> Way
    requires { d < 16 }
    ensures value { Ends result regs.new ≡ put_any d x regs.old }
{
    if d == 15 {
        Way::To { addr: x - x % 2 }
    } else {
        regs.set(Place::R(d as u8), x);
        Way::On
    }
}

/// `add rd,rm`
pub fn add(i: &S6, regs: &mut Regs) -> Way
    ensures value { Ends result regs.new ≡ s6 i.now regs.old }
{
    let d = i.d.get();
    let x = operand(d, regs).wrapping_add(operand(i.m.get(), regs));
    put_any(d, x, regs)
}

/// `cmp rd,rm`
pub fn compare(i: &S7, regs: &mut Regs)
    ensures regs { regs.new ≡ s7 i.now regs.old }
{
    let x = regs.get(Place::R(i.d.get() as u8));
    let y = regs.get(Place::R(i.m.get() as u8));
    set_nzcv(regs, sum_of(SumName::Sub, x, y));
}

/// `mov rd,rm`
pub fn copy(i: &S8, regs: &mut Regs) -> Way
    ensures value { Ends result regs.new ≡ s8 i.now regs.old }
{
    let x = operand(i.m.get(), regs);
    put_any(i.d.get(), x, regs)
}

/// `add rd,pc,#4i`, `add rd,sp,#4i`
pub fn add_base(i: &S9, regs: &mut Regs)
    ensures regs { regs.new ≡ s9 i.now regs.old }
{
    let x = base_of(i.name.register(), regs).wrapping_add(4 * i.i.get());
    regs.set(Place::R(i.d.get() as u8), x);
}

/// `add sp,#4i`, `sub sp,#4i`
pub fn move_stack(i: &S10, regs: &mut Regs)
    ensures regs { regs.new ≡ s10 i.now regs.old }
{
    let x = sum_of(i.name, regs.get(Place::R(13)), 4 * i.i.get());
    regs.set(Place::R(13), x.result);
}
