//! A vector instruction of any family.

ghost use Rattle.std.specs.Prelude.{◌≡◌};
ghost use Rattle.hm_exec.specs.Families.{row_of};
ghost use Rattle.hm_rows.specs.Rows.{kind_of, kind_seen};

use hm_base::Stop;
use hm_beat::{BeatWise, Touch};
use hm_isa::Vector;
use hm_mem::Mem;
use hm_regs::Regs;
use hm_rows::Kind;
use hm_varith::Arith;
use hm_vcmp::Compare;
use hm_vgather::Gather;
use hm_vil::Inter;
use hm_vmem::Straight;
use hm_vperm::Perm;
use hm_vred::Reduce;
use hm_vwide::Wide;

/// A vector instruction, by its family.
#[derive(Clone, Copy)]
pub enum Any {
    /// Lane arithmetic and immediates
    Arith(Arith),
    /// Widening and narrowing
    Wide(Wide),
    /// Sums and extremes into core registers
    Reduce(Reduce),
    /// Reversal, duplication, carries and offsets
    Perm(Perm),
    /// Comparisons and the predicate
    Compare(Compare),
    /// Loads and stores of elements one behind another
    Straight(Straight),
    /// Loads and stores at addresses that stand in vector registers
    Gather(Gather),
    /// Loads and stores of elements that registers take in turn
    Inter(Inter),
}

impl Any {
    /// The vector row that it is.
    pub fn row(&self) -> &Vector
        ensures value { result.now ≡ row_of self.now }
    {
        match self {
            Any::Arith(x) => &x.row,
            Any::Wide(x) => &x.row,
            Any::Reduce(x) => &x.row,
            Any::Perm(x) => &x.row,
            Any::Compare(x) => &x.row,
            Any::Straight(x) => &x.row,
            Any::Gather(x) => &x.row,
            Any::Inter(x) => &x.row,
        }
    }

    /// What kind of row it is.
    fn kind(&self) -> &Kind
        ensures value { kind_seen result.now ≡ kind_of (row_of self.now) }
    {
        match self {
            Any::Arith(x) => &x.kind,
            Any::Wide(x) => &x.kind,
            Any::Reduce(x) => &x.kind,
            Any::Perm(x) => &x.kind,
            Any::Compare(x) => &x.kind,
            Any::Straight(x) => &x.kind,
            Any::Gather(x) => &x.kind,
            Any::Inter(x) => &x.kind,
        }
    }
}

impl BeatWise for Any {
    ghost use Rattle.hm_rows.specs.Rows.{vector_tree, vector_whole};
    ghost use Rattle.hm_rows.proofs.Rows.{row_laws};

    ghost tree = { λ x. vector_tree (row_of x) };

    ghost whole = { λ x. vector_whole (row_of x) };

    ghost laws = { λ x. row_laws (row_of x) };

    fn touch(&self, b: u8, r: &Regs) -> Touch {
        let kind = self.kind();
        kind.touch(b, r)
    }

    fn check(&self, b: u8, r: &Regs, m: &Mem) -> Result<(), Stop> {
        let kind = self.kind();
        kind.check(b, r, m)
    }

    fn beat(&self, b: u8, r: &mut Regs, m: &mut Mem) -> Result<(), Stop> {
        let kind = self.kind();
        kind.beat(b, r, m)
    }
}
