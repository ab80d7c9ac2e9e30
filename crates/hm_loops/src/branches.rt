//! `bx`, `blx`, `cbz`, `cbnz`, `b` and `bl`.

ghost use Rattle.std.specs.Prelude.{◌≡◌, ℕ, ◌+◌, ◌%◌, ◌^◌, ◌≤◌, ◌<◌, OnErr};
ghost use Rattle.hm_thumb.specs.BranchRows.{always, branch_if, conditional, is_taken, link, linked, s23, s24, s25, t16, wide_always, wide_conditional};
ghost use Rattle.hm_thumb.specs.Does.{Ends};
ghost use Rattle.hm_thumb.specs.RegisterRows.{put};
ghost use Rattle.hm_thumb.specs.Steps.{ended};

use hm_base::{Fault, Place};
use hm_isa::{JumpName, S23, S24, S25, T16, WideAlways, WideBranchName, ZeroName};
use hm_regs::Regs;
use hm_thumb::{Way, blx_write, bx_write, condition_holds};

/// Leaves the address of the next instruction in lr, with bit 0 set.
fn set_link(bytes: u32, regs: &mut Regs)
    ensures regs { regs.new ≡ put 14 (link ((regs.old.pc + bytes) % 2 ^ 32)) regs.old }
{
    let next = regs.pc.wrapping_add(bytes);
    regs.set(Place::R(14), next - next % 2 + 1);
}

/// `bx`, `blx rm`
pub fn jump(i: &S23, regs: &mut Regs) -> Result<Way, Fault>
    ensures value { ended result regs.new ≡ s23 i.now regs.old }
    ensures stopped { OnErr result (regs.new ≡ regs.old) }
{
    let x = regs.get(Place::R(i.m.get() as u8));
    match i.name {
        JumpName::Bx => bx_write(x, regs),
        JumpName::Blx => {
            let way = blx_write(x, regs)?;
            set_link(2, regs);
            Ok(way)
        }
    }
}

/// Where taken, a branch to so many bytes from the address of the instruction plus 4.
pub fn branch_if(taken: bool, bytes: u32, regs: &Regs) -> Way
    ensures way { Ends result regs.now ≡ branch_if taken bytes regs.now }
{
    if taken {
        Way::To {
            addr: regs.pc.wrapping_add(4).wrapping_add(bytes),
        }
    } else {
        Way::On
    }
}

/// `cbz`, `cbnz rn,label`
pub fn zero(i: &S24, regs: &Regs) -> Way
    ensures way { Ends result regs.now ≡ s24 i.now regs.now }
{
    let x = regs.get(Place::R(i.n.get() as u8));
    let taken = match i.name {
        ZeroName::Cbz => x == 0,
        ZeroName::Cbnz => x != 0,
    };
    branch_if(taken, 2 * i.i.get(), regs)
}

/// A branch of one halfword: under a condition, as `beq label`, or `b label`
pub fn branch(i: &S25, regs: &Regs) -> Way
    ensures way { Ends result regs.now ≡ s25 i.now regs.now }
{
    match i {
        S25::Conditional(i) => branch_if(condition_holds(i.c.get(), regs), i.distance(), regs),
        S25::Always(i) => branch_if(true, i.distance(), regs),
    }
}

/// `b.w`, `bl label`
fn wide_always(i: &WideAlways, regs: &mut Regs) -> Way
    ensures way { Ends result regs.new ≡ wide_always i.now regs.old }
{
    match i.name {
        WideBranchName::B => {}
        WideBranchName::Bl => set_link(4, regs),
    }
    branch_if(true, i.distance(), regs)
}

/// A branch of two halfwords: under a condition, as `beq.w label`, or `b.w` or `bl label`
pub fn wide_branch(i: &T16, regs: &mut Regs) -> Way
    ensures way { Ends result regs.new ≡ t16 i.now regs.old }
{
    match i {
        T16::Conditional(i) => branch_if(condition_holds(i.c.get(), regs), i.distance(), regs),
        T16::Always(i) => wide_always(i, regs),
    }
}
