//! What comes before each instruction: the condition of its IT block, and the context that it makes.

ghost use Rattle.std.specs.Prelude.{◌≡◌, ◌||◌};
ghost use Rattle.hm_thumb.specs.Families.{loads_or_stores};
ghost use Rattle.hm_thumb.specs.LoopRows.{loops_over_elements};
ghost use Rattle.hm_thumb.specs.Rows.{is_breakpoint, is_vector_loop, made, needs_context, runs, reaches_vectors};

use crate::ways::is_passed;
use hm_isa::{Branch, Instr, LoopEndName, Scalar, T23};
use hm_lane::context;
use hm_regs::Regs;

/// Whether it is `bkpt`.
fn is_breakpoint(i: &Scalar) -> bool
    ensures value { result ≡ is_breakpoint i.now }
{
    matches!(i, Scalar::S18(_))
}

/// Whether it reaches the vector registers, FPSCR or VPR.
fn reaches_vectors(i: &Scalar) -> bool
    ensures value { result ≡ reaches_vectors i.now }
{
    matches!(i, Scalar::T15(_) | Scalar::T21(_) | Scalar::T22(_))
}

/// Whether it begins or ends a loop over elements: `dlstp`, `wlstp` or `letp`.
fn loops_over_elements(i: &T23) -> bool
    ensures value { result ≡ loops_over_elements i.now }
{
    match i {
        T23::Dlstp(_) | T23::Wlstp(_) => true,
        T23::End(i) => matches!(i.name, LoopEndName::Letp),
        _ => false,
    }
}

/// Whether it is a branch of a loop over elements.
fn is_vector_loop(i: &Branch) -> bool
    ensures value { result ≡ is_vector_loop i.now }
{
    match i {
        Branch::T23(i) => loops_over_elements(i),
        _ => false,
    }
}

/// Whether an instruction runs: `bkpt` does whatever the condition is.
#[inline(always)]
fn runs(i: &Instr, regs: &Regs) -> bool
    ensures value { result ≡ runs i.now regs.now }
{
    match i {
        Instr::Scalar(i) => is_breakpoint(i) || is_passed(regs),
        _ => is_passed(regs),
    }
}

/// Whether an instruction needs the context of the vector registers.
fn needs_context(i: &Instr) -> bool
    ensures value { result ≡ needs_context i.now }
{
    match i {
        Instr::Scalar(i) => reaches_vectors(i),
        Instr::Branch(i) => is_vector_loop(i),
        Instr::Vector(_) => false,
    }
}

/// Begins an instruction: whether it runs, and the context is made that it needs before anything of it may stop.
#[inline(always)]
pub fn begin(i: &Instr, regs: &mut Regs) -> bool
    ensures runs { result ≡ runs i.now regs.old }
    ensures made { regs.new ≡ made i.now regs.old }
{
    let runs = runs(i, regs);
    if runs && needs_context(i) {
        context(regs);
    }
    runs
}

/// Whether an instruction is of the rows that load or store.
pub fn loads_or_stores(i: &Scalar) -> bool
    ensures value { result ≡ loads_or_stores i.now }
{
    matches!(
        i,
        Scalar::S14(_)
            | Scalar::S15(_)
            | Scalar::S16(_)
            | Scalar::S17(_)
            | Scalar::S20(_)
            | Scalar::T12(_)
            | Scalar::T13(_)
            | Scalar::T14(_)
            | Scalar::T15(_)
    )
}
