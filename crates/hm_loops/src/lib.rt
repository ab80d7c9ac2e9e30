//! The branch rows.
#![tactic(auto)]

mod branches;
mod loops;
mod tables;

ghost use Rattle.std.specs.Prelude.{◌≡◌, ℕ, IsTrue, OnErr};
ghost use Rattle.hm_mem.specs.Memory.{memory_of};
ghost use Rattle.hm_mem.specs.Seen.{IsSameElsewhere, seen};
ghost use Rattle.hm_thumb.specs.Does.{in_machine};
ghost use Rattle.hm_thumb.specs.Families.{is_branch_row};
ghost use Rattle.hm_thumb.specs.Rows.{branch_does, made};
ghost use Rattle.hm_thumb.specs.Steps.{IsDone, ended, step, stepped};

use hm_base::Stop;
use hm_isa::{Branch, Flow, Instr, width};
use hm_mem::Mem;
use hm_regs::Regs;
use hm_thumb::{Way, begin, settle};

/// What an instruction of these rows does, and how it ends; or it stops and changes nothing.
fn act(i: &Branch, regs: &mut Regs, mem: &mut Mem) -> Result<Way, Stop>
    ensures done { IsDone (branch_does i.now regs.old) regs.old regs.new (memory_of mem.old) (memory_of mem.new) result }
{
    match i {
        Branch::S23(i) => branches::jump(i, regs).map_err(Stop::Fault),
        Branch::S24(i) => Ok(branches::zero(i, regs)),
        Branch::S25(i) => Ok(branches::branch(i, regs)),
        Branch::T16(i) => Ok(branches::wide_branch(i, regs)),
        Branch::T17(i) => tables::table_branch(i, regs, mem),
        Branch::T23(i) => loops::loop_row(i, regs).map_err(Stop::Fault),
    }
}

/// Does an instruction of these rows; or stops, and then nothing is changed but that a context may have been made.
pub fn step(i: &Instr, regs: &mut Regs, mem: &mut Mem) -> Result<Flow, Stop>
    requires row { IsTrue (is_branch_row i.now) }
    ensures value { let m = memory_of mem.old in stepped result regs.new (memory_of mem.new) ≡ step (in_machine m.around) i.now regs.old (seen m) }
    ensures stopped { OnErr result ((regs.new ≡ made i.now regs.old) × (memory_of mem.new ≡ memory_of mem.old)) }
    ensures kept { IsSameElsewhere (memory_of mem.old) (memory_of mem.new) }
{
    if !begin(i, regs) {
        return Ok(settle(width(i), Way::On, regs));
    }
    match i {
        Instr::Branch(row) => match act(row, regs, mem) {
            Ok(way) => Ok(settle(width(i), way, regs)),
            Err(stop) => Err(stop),
        },
        _ => unreachable!(),
    }
}
