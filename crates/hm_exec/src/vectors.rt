//! Vector instructions: their families, and which are refused.

ghost use Rattle.std.specs.Prelude.{◌≡◌, ℕ, List, not, ◌&&◌, ◌||◌, nat_eq, nat_lt};
ghost use Rattle.hm_base.specs.declared.Place.TheVariants.{Ltp};
ghost use Rattle.hm_exec.specs.Families.{row_of};
ghost use Rattle.hm_mem.specs.Memory.{Memory};
ghost use Rattle.hm_regs.specs.Place.{value_at};
ghost use Rattle.hm_rows.specs.Rows.{refuse, writes_lr};
ghost use Rattle.hm_state.specs.State.{state_of};

use crate::families::Any;
use hm_base::{Fault, FaultKind, Place};
use hm_isa::Vector;
use hm_regs::Regs;
use hm_rows::kind;
use hm_varith::Arith;
use hm_vcmp::Compare;
use hm_vgather::Gather;
use hm_vil::Inter;
use hm_vmem::Straight;
use hm_vperm::Perm;
use hm_vred::Reduce;
use hm_vwide::Wide;

/// A vector instruction, by its family.
pub fn any(v: &Vector) -> Any
    ensures row { row_of result ≡ v.now }
{
    if let Some(row) = Arith::of(v) {
        return Any::Arith(row);
    }
    if let Some(row) = Wide::of(v) {
        return Any::Wide(row);
    }
    if let Some(row) = Reduce::of(v) {
        return Any::Reduce(row);
    }
    if let Some(row) = Perm::of(v) {
        return Any::Perm(row);
    }
    if let Some(row) = Compare::of(v) {
        return Any::Compare(row);
    }
    if let Some(row) = Straight::of(v) {
        return Any::Straight(row);
    }
    if let Some(row) = Gather::of(v) {
        return Any::Gather(row);
    }
    match Inter::of(v) {
        Some(row) => Any::Inter(row),
        None => unreachable!(),
    }
}

/// Whether one of the beats of a row writes lr.
fn writes_lr(v: &Vector) -> bool
    ensures value { result ≡ writes_lr v.now }
{
    let kind = kind(v);
    kind.writes_lr()
}

/// Whether a vector instruction may not run here: inside an IT block, or where it writes lr and lr counts elements that
/// are left.
fn is_refused(v: &Vector, r: &Regs) -> bool
    ensures value { result ≡ (not (nat_eq r.now.it 0) || (writes_lr v.now && nat_lt (value_at Ltp r.now) 4 && r.now.fpca)) }
{
    let counts = r.get(Place::Ltp) < 4 && r.fpca;
    r.it != 0 || (counts && writes_lr(v))
}

/// The fault of a vector instruction that may not run here: InvState at pc, inside an IT block, or where it writes lr and lr
/// counts elements that are left (DDI0553, "INVSTATE UsageFault" and "Loop tail predication").
pub fn refuse(v: &Vector, r: &Regs) -> Option<Fault>
    ensures value { (m : Memory) (output : List ℕ) → result ≡ refuse v.now (state_of r.now m output) }
{
    if is_refused(v, r) {
        Some(Fault {
            kind: FaultKind::InvState,
            addr: r.pc,
        })
    } else {
        None
    }
}
