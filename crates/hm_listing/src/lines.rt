//! The lines of a listing, one behind another.

ghost use Rattle.std.specs.Prelude.{◌≡◌, ◌<◌, ◌≤◌, ◌+◌, ◌*◌, ◌%◌, ◌++◌, List, ℕ, length, IfOk, IfSome, IfNone};
ghost use Rattle.hm_base.specs.Image.{flash_size};
ghost use Rattle.hm_codes.specs.Listing.{Stands, half_at};
ghost use Rattle.hm_isa.specs.Code.{halfwords, width_of};
ghost use Rattle.hm_isa.specs.declared.Instr.{Instr};
ghost use Rattle.hm_listing.specs.Listings.{Entry, IsEntry, IsListed, entry_line, halves_from, halves_of, shown};
ghost use Rattle.hm_mem.specs.Memory.{flash_at, memory_of};

use crate::entry::{half_line, instr_line};
use hm_base::OutOfMemory;
use hm_decode::fetch;
use hm_isa::{Instr, width};
use hm_mem::Mem;

/// The halfword of flash at an address.
fn half_of(m: &Mem, at: u32) -> u16
    requires even { at % 2 ≡ 0 }
    requires within { at + 2 ≤ flash_size }
    ensures value { result ≡ half_at (flash_at (memory_of m.now)) at }
{
    m.half(at).unwrap()
}

/// The second halfword of an instruction that stands at an address, where it has two.
fn second_of(m: &Mem, at: u32, i: &Instr) -> Option<u16>
    requires stands { Stands (flash_at (memory_of m.now)) at i.now }
    ensures code { halves_from (half_at (flash_at (memory_of m.now)) at) result ≡ halfwords i.now }
{
    if width(i) == 2 {
        return None;
    }
    Some(half_of(m, at + 2))
}

/// Adds the line of an instruction that stands at an address.
fn add_shown(out: &mut Vec<u8>, m: &Mem, at: u32, i: &Instr) -> Result<(), OutOfMemory>
    requires stands { Stands (flash_at (memory_of m.now)) at i.now }
    ensures added { IfOk result (λ _. out.new.items ≡ out.old.items ++ entry_line at (shown i.now)) }
{
    instr_line(out, at, half_of(m, at), second_of(m, at, i), i)
}

/// The instruction that stands at an address and ends at `hi` or before.
fn whole_at(m: &Mem, at: u32, hi: u32) -> Option<Instr>
    requires before { at < hi }
    ensures found { IfSome result (λ i. Stands (flash_at (memory_of m.now)) at i × (at + width_of i ≤ hi)) }
    ensures none { IfNone result ((i : Instr) → Stands (flash_at (memory_of m.now)) at i → hi < at + width_of i) }
{
    match fetch(m, at) {
        Ok(i) => { if width(&i) <= hi - at { Some(i) } else { None } }
        Err(_fault) => None,
    }
}

/// Adds the line at an even address below `hi`, which is even and at most 00100000: it shows the instruction that stands there and ends at
/// `hi` or before, else the halfword. The answer is where the next line stands. It is refused only where memory was wanted.
pub fn add_line(out: &mut Vec<u8>, m: &Mem, at: u32, hi: u32) -> Result<u32, OutOfMemory>
    requires even { (at % 2 ≡ 0) × (hi % 2 ≡ 0) }
    requires before { at < hi }
    requires within { hi ≤ flash_size }
    ensures added { IfOk result (λ next. (e : Entry) × IsEntry (flash_at (memory_of m.now)) at hi e × (out.new.items ≡ out.old.items ++ entry_line at e)
        × (next ≡ at + 2 * length (halves_of e))) }
    ensures goes_on { IfOk result (λ next. (at < next) × (next ≤ hi) × (next % 2 ≡ 0)) }
{
    match whole_at(m, at, hi) {
        Some(i) => {
            add_shown(out, m, at, &i)?;
            Ok(at + width(&i))
        }
        None => {
            half_line(out, at, half_of(m, at))?;
            Ok(at + 2)
        }
    }
}

/// Adds the lines from an address up to another.
pub fn add_lines(out: &mut Vec<u8>, m: &Mem, lo: u32, hi: u32) -> Result<(), OutOfMemory>
    requires even { (lo % 2 ≡ 0) × (hi % 2 ≡ 0) }
    requires order { lo ≤ hi }
    requires within { hi ≤ flash_size }
    ensures added { IfOk result (λ _. (lines : List ℕ) × IsListed (flash_at (memory_of m.now)) lo hi lines × (out.new.items ≡ out.old.items ++ lines)) }
{
    let mut at = lo;
    while at < hi {
        at = add_line(out, m, at, hi)?;
    }
    Ok(())
}
