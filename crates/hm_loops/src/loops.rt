//! Low-overhead loops. lr counts the iterations or the elements that are left.

ghost use Rattle.std.specs.Prelude.{◌≡◌, ℕ, ◌<◌, ◌≤◌, OnErr};
ghost use Rattle.hm_thumb.specs.Does.{Ends, goes};
ghost use Rattle.hm_thumb.specs.LoopRows.{again, back, dls, dlstp, elements, enter, loop_end_row, put_size, t23, wls, wlstp};
ghost use Rattle.hm_thumb.specs.RegisterRows.{put, reg};
ghost use Rattle.hm_thumb.specs.Steps.{ended};

use crate::branches::branch_if;
use hm_base::{Fault, FaultKind, Place};
use hm_isa::{Dls, Dlstp, LoopEnd, LoopEndName, T23, Wls, Wlstp};
use hm_regs::Regs;
use hm_thumb::Way;

/// Backward by so many halfwords.
fn back(v: u32, regs: &Regs) -> Way
    requires { v < 2048 }
    ensures way { Ends result regs.now ≡ back v regs.now }
{
    Way::To {
        addr: regs.pc.wrapping_add(4).wrapping_sub(2 * v),
    }
}

/// `dls lr,rn`
fn dls(i: &Dls, regs: &mut Regs) -> Way
    ensures way { Ends result regs.new ≡ dls i.now regs.old }
{
    let count = regs.get(Place::R(i.n.get() as u8));
    regs.set(Place::R(14), count);
    Way::On
}

/// `wls lr,rn,label`
fn wls(i: &Wls, regs: &mut Regs) -> Way
    ensures way { Ends result regs.new ≡ wls i.now regs.old }
{
    let count = regs.get(Place::R(i.n.get() as u8));
    if count == 0 {
        return branch_if(true, 2 * i.v.get(), regs);
    }
    regs.set(Place::R(14), count);
    Way::On
}

/// `dlstp lr,rn`
fn dlstp(i: &Dlstp, regs: &mut Regs) -> Way
    ensures way { Ends result regs.new ≡ dlstp i.now regs.old }
{
    let count = regs.get(Place::R(i.n.get() as u8));
    regs.set(Place::R(14), count);
    regs.set(Place::Ltp, i.z.get());
    Way::On
}

/// `wlstp lr,rn,label`
fn wlstp(i: &Wlstp, regs: &mut Regs) -> Way
    ensures way { Ends result regs.new ≡ wlstp i.now regs.old }
{
    let size = i.z.get();
    let count = regs.get(Place::R(i.n.get() as u8));
    if count == 0 {
        return branch_if(true, 2 * i.v.get(), regs);
    }
    regs.set(Place::R(14), count);
    regs.set(Place::Ltp, size);
    Way::On
}

/// `le lr,label`, which is no end for a loop over elements: a context is to have LTPSIZE 4.
fn le_lr(v: u32, regs: &mut Regs) -> Result<Way, Fault>
    requires { v < 2048 }
    ensures value { ended result regs.new ≡ loop_end_row LoopEndName.LeLr v regs.old }
    ensures stopped { OnErr result (regs.new ≡ regs.old) }
{
    if regs.fpca && regs.get(Place::Ltp) != 4 {
        return Err(Fault {
            kind: FaultKind::InvState,
            addr: regs.pc,
        });
    }
    let left = regs.get(Place::R(14));
    if left <= 1 {
        return Ok(Way::On);
    }
    regs.set(Place::R(14), left - 1);
    Ok(back(v, regs))
}

/// How much an iteration takes off: the elements of a vector, or one where LTPSIZE says no size.
fn elements(regs: &Regs) -> u32
    ensures value { result ≡ elements regs.now }
{
    let size = regs.get(Place::Ltp);
    if size < 4 { 1 << (4 - size) } else { 1 }
}

/// `letp lr,label`
fn letp(v: u32, regs: &mut Regs) -> Way
    requires { v < 2048 }
    ensures way { Ends result regs.new ≡ loop_end_row LoopEndName.Letp v regs.old }
{
    let step = elements(regs);
    let left = regs.get(Place::R(14));
    if left <= step {
        regs.set(Place::Ltp, 4);
        return Way::On;
    }
    regs.set(Place::R(14), left - step);
    back(v, regs)
}

/// `le lr,label`, `letp lr,label` and `le label`
fn loop_end(i: &LoopEnd, regs: &mut Regs) -> Result<Way, Fault>
    ensures value { ended result regs.new ≡ loop_end_row i.now.name i.now.v.value regs.old }
    ensures stopped { OnErr result (regs.new ≡ regs.old) }
{
    let v = i.v.get();
    match i.name {
        LoopEndName::LeLr => le_lr(v, regs),
        LoopEndName::Letp => Ok(letp(v, regs)),
        LoopEndName::Le => Ok(back(v, regs)),
    }
}

/// `dls`, `wls`, `dlstp`, `wlstp`, `le`, `letp` or `lctp`
pub fn loop_row(i: &T23, regs: &mut Regs) -> Result<Way, Fault>
    ensures value { ended result regs.new ≡ t23 i.now regs.old }
    ensures stopped { OnErr result (regs.new ≡ regs.old) }
{
    match i {
        T23::Dls(i) => Ok(dls(i, regs)),
        T23::Wls(i) => Ok(wls(i, regs)),
        T23::Dlstp(i) => Ok(dlstp(i, regs)),
        T23::Wlstp(i) => Ok(wlstp(i, regs)),
        T23::End(i) => loop_end(i, regs),
        T23::Lctp => {
            regs.set(Place::Ltp, 4);
            Ok(Way::On)
        }
    }
}
