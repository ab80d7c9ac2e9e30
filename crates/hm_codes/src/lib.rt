//! The instruction that stands at an address: there is at most one, since no two instructions have one code.
#![tactic(auto)]

ghost use Rattle.std.specs.Prelude.{◌≡◌, ℕ, Result};
ghost use Rattle.hm_base.specs.declared.Fault.{Fault};
ghost use Rattle.hm_isa.specs.declared.Instr.{Instr};
ghost use Rattle.hm_isa.specs.Code.{halfwords};
ghost use Rattle.hm_codes.specs.Listing.{IsFetched, Listing, IsListing};

/// The law of listings: a code tells its instruction, and so each flash has a listing, and one alone.
///
/// It does nothing; its clauses are theorems about the codes.
pub fn one_listing()
    ensures there { (flash : ℕ → ℕ) → (listing : Listing) × IsListing flash listing }
    ensures one { (flash : ℕ → ℕ) (a : ℕ) (x y : Result Instr Fault) → IsFetched flash a x → IsFetched flash a y → x ≡ y }
    ensures code_tells { (i j : Instr) → halfwords i ≡ halfwords j → i ≡ j }
{}
