//! The families of vector rows: each is told by which rows it has, and its rows are done by beats as their kinds are.
#![tactic(auto)]

ghost use Rattle.std.specs.Prelude.{◌≡◌, ⊤, Bool, IfSome, IsTrue, is_some};
ghost use Rattle.hm_isa.specs.declared.Vector.{Vector};
ghost use Rattle.hm_rows.specs.Rows.{kind_of, kind_seen};

use hm_base::Stop;
use hm_beat::{BeatWise, Touch};
use hm_isa::Vector;
use hm_mem::Mem;
use hm_regs::Regs;
use hm_rows::{Kind, kind};
use std::alloc::AllocError;
use std::marker::PhantomData;

/// A family of vector rows.
pub trait Family {
    /// The rows that it has.
    ghost rows: { Vector → Bool };

    /// Whether a row is of this family.
    fn has(v: &Vector) -> bool
        ensures value { result ≡ rows v.now };
}

/// A vector instruction of a family, with its kind, which all its beats take.
pub struct RowOf<F: Family> {
    pub row: Vector,
    pub kind: Kind,
    family: PhantomData<F>,
    pub ghost is_of_it: { IsTrue (F.rows row) },
    pub ghost of_kind: { kind_seen kind ≡ kind_of row },
}

impl<F: Family> Clone for RowOf<F> {
    ghost is_clone = { λ x y. y ≡ x };

    ghost is_infallible = { λ _. ⊤ };

    fn clone(&self) -> Result<RowOf<F>, AllocError> {
        Ok(*self)
    }
}

impl<F: Family> Copy for RowOf<F> {}

impl<F: Family> RowOf<F> {
    /// The instruction as one of this family; None exactly where it is of another.
    pub fn of(v: &Vector) -> Option<Self>
        ensures family { is_some result ≡ F.rows v.now }
        ensures row { IfSome result (λ x. x.row ≡ v.now) }
    {
        if F::has(v) {
            Some(RowOf {
                row: *v,
                kind: kind(v),
                family: PhantomData,
            })
        } else {
            None
        }
    }
}

impl<F: Family> BeatWise for RowOf<F> {
    ghost use Rattle.hm_rows.specs.Rows.{vector_tree, vector_whole};
    ghost use Rattle.hm_rows.proofs.Rows.{row_laws};

    ghost tree = { λ x. vector_tree x.row };

    ghost whole = { λ x. vector_whole x.row };

    ghost laws = { λ x. row_laws x.row };

    fn touch(&self, b: u8, r: &Regs) -> Touch {
        self.kind.touch(b, r)
    }

    fn check(&self, b: u8, r: &Regs, m: &Mem) -> Result<(), Stop> {
        self.kind.check(b, r, m)
    }

    fn beat(&self, b: u8, r: &mut Regs, m: &mut Mem) -> Result<(), Stop> {
        self.kind.beat(b, r, m)
    }
}
