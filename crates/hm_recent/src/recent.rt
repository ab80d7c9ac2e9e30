//! Instructions that a run decoded of late, so that it decodes those of a loop once.

ghost use Rattle.std.specs.Prelude.{◌≡◌, ℕ, ◌%◌, [], ◌∷◌, Err, IfErr, IfOk, IfSome, IsTrue, Some};
ghost use Rattle.hm_codes.specs.Listing.{HalvesStand, IsFetched, Stands};
ghost use Rattle.hm_recent.specs.Decodings.{instr_of};
ghost use Rattle.hm_recent.specs.Halves.{code_of};
ghost use Rattle.hm_isa.specs.Code.{halfwords};
ghost use Rattle.hm_mem.specs.Memory.{memory_of, flash_at};

use crate::decoded::Decoded;
use hm_base::Fault;
use hm_decode::fetch;
use hm_mem::Mem;

/// An instruction, by the halfword at its address and the next one: its code is both, or the first alone. One in the last halfword of flash has
/// no next one, and is not known again.
#[derive(Clone, Copy)]
pub(crate) struct Entry {
    halves: Option<(u16, u16)>,
    pub(crate) instr: Decoded,
    pub ghost code: { (first second : ℕ) → halves ≡ Some (first, second) → halfwords (instr_of instr) ≡ code_of first second },
}

/// A place for an instruction that a run decoded of late. Of several each address has one, which it shares with others.
#[derive(Clone, Copy)]
pub struct Cached {
    pub(crate) entry: Option<Entry>,
}

/// The halfword at an address and the next one, where the address is even and both are in flash.
pub(crate) fn halves_at(m: &Mem, addr: u32) -> Option<(u16, u16)>
    ensures even { IfSome result (λ h. addr % 2 ≡ 0) }
    ensures stand { IfSome result (λ h. HalvesStand (flash_at (memory_of m.now)) (h.0 ∷ h.1 ∷ []) addr) }
{
    m.halves(addr)
}

impl Cached {
    ghost use Rattle.hm_recent.specs.Kept.{instr_in};

    /// One with no instruction yet.
    pub const EMPTY: Cached = Cached { entry: None };

    /// Whether the instruction that is kept in a place is that of these halfwords, where there are two.
    #[inline(always)]
    pub(crate) fn holds(&self, halves: Option<(u16, u16)>) -> bool
        ensures code { IsTrue result → (d : Decoded) × (h : ℕ × ℕ) × (instr_in self.now ≡ Some d) × (halves ≡ Some h)
            × (halfwords (instr_of d) ≡ code_of h.0 h.1) }
    {
        let Some(entry) = &self.entry else {
            return false;
        };
        match (entry.halves, halves) {
            (Some(kept), Some(here)) => kept.0 == here.0 && kept.1 == here.1,
            _ => false,
        }
    }

    /// The instruction that stands at an address, decoded, or the fault where none does: apart from `keep`, so that a look-up that finds is small.
    #[cold]
    #[inline(never)]
    pub(crate) fn decoded(m: &Mem, addr: u32) -> Result<Cached, Fault>
        ensures kept { IfOk result (λ cached. (d : Decoded) × (instr_in cached ≡ Some d) × Stands (flash_at (memory_of m.now)) addr (instr_of d)) }
        ensures fault { IfErr result (λ fault. IsFetched (flash_at (memory_of m.now)) addr (Err fault)) }
    {
        let halves = halves_at(m, addr);
        let instr = Decoded::of(fetch(m, addr)?);
        Ok(Cached {
            entry: Some(Entry { halves, instr }),
        })
    }
}
