//! `tbb` and `tbh`.

ghost use Rattle.std.specs.Prelude.{◌≡◌, ℕ, ◌+◌, ◌*◌, ◌%◌, ◌^◌, true};
ghost use Rattle.hm_mem.specs.Memory.{memory_of};
ghost use Rattle.hm_thumb.specs.BranchRows.{branch_if, t17, table_width};
ghost use Rattle.hm_thumb.specs.Does.{Ends};
ghost use Rattle.hm_thumb.specs.RegisterRows.{operand, reg};
ghost use Rattle.hm_thumb.specs.Steps.{IsDone};

use hm_base::{Place, Stop};
use hm_isa::{T17, TableName};
use hm_mem::{Access, Mem};
use hm_regs::Regs;
use hm_thumb::{Way, operand};

/// How many bytes a number of the table has.
fn table_width(name: TableName) -> u32
    ensures value { result ≡ table_width name }
{
    match name {
        TableName::Tbb => 1,
        TableName::Tbh => 2,
    }
}

/// Where the number stands that the row loads.
fn entry(i: &T17, regs: &Regs) -> u32
    ensures value { result ≡ (operand i.now.n.value regs.now + table_width i.now.name * reg i.now.m.value regs.now) % 2 ^ 32 }
{
    let index = regs.get(Place::R(i.m.get() as u8));
    let base = operand(i.n.get(), regs);
    match i.name {
        TableName::Tbb => base.wrapping_add(index),
        TableName::Tbh => base.wrapping_add(index).wrapping_add(index),
    }
}

/// Forward by twice a number.
fn forward(x: u32, regs: &Regs) -> Way
    ensures way { Ends result regs.now ≡ branch_if true (2 * x) regs.now }
{
    Way::To {
        addr: operand(15, regs).wrapping_add(x).wrapping_add(x),
    }
}

/// `tbb [rn,rm]`, `tbh [rn,rm,lsl #1]`
pub fn table_branch(i: &T17, regs: &Regs, mem: &mut Mem) -> Result<Way, Stop>
    ensures done { IsDone (t17 i.now regs.now) regs.now regs.now (memory_of mem.old) (memory_of mem.new) result }
{
    let x = mem.load(entry(i, regs), table_width(i.name), Access::Scalar)?;
    Ok(forward(x, regs))
}
