//! Tables of what a run decoded of late. Each address has one place of a table, which it shares with others.

ghost use Rattle.std.specs.Prelude.{◌≡◌, ◌+◌, ◌^◌, ◌<◌, length, Err, IfErr, IsSome, OnOk, Some, option_map};
ghost use Rattle.hm_codes.specs.Listing.{IsFetched, IsListing, Listing};
ghost use Rattle.hm_exec.specs.Families.{row_of};
ghost use Rattle.hm_mem.specs.Memory.{memory_of, flash_at};
ghost use Rattle.hm_recent.specs.Kept.{kept_of, HasKept};
ghost use Rattle.hm_recent.specs.Places.{place_of};
ghost use Rattle.hm_run.specs.Program.{vector_of};

use crate::decoded::Decoded;
use crate::recent::{Cached, halves_at};
use hm_base::Fault;
use hm_decode::fetch;
use hm_exec::Any;
use hm_mem::Mem;

/// The place of an address, of so many.
#[inline(always)]
fn place_of(count: usize, addr: u32) -> usize
    requires some { 0 < count }
    ensures value { result ≡ place_of count addr }
    ensures below { result < count }
{
    (addr / 2) as usize % count
}

/// Keeps the instruction that stands at an address, or tells the fault where none does. One that is kept is not decoded anew.
#[inline(always)]
pub fn keep(recent: &mut [Cached], m: &Mem, addr: u32) -> Result<(), Fault>
    requires some { 0 < length recent.old }
    ensures kept { OnOk result (HasKept recent.new (flash_at (memory_of m.now)) addr) }
    ensures fault { IfErr result (λ fault. IsFetched (flash_at (memory_of m.now)) addr (Err fault)) }
    ensures places { length recent.new ≡ length recent.old }
{
    let place = place_of(recent.len(), addr);
    if recent[place].holds(halves_at(m, addr)) {
        return Ok(());
    }
    recent[place] = Cached::decoded(m, addr)?;
    Ok(())
}

/// The instruction that is kept of an address.
pub fn kept(recent: &[Cached], addr: u32) -> &Decoded
    requires some { 0 < length recent.now }
    requires there { IsSome (kept_of recent.now addr) }
    ensures value { kept_of recent.now addr ≡ Some result.now }
{
    match &recent[place_of(recent.len(), addr)].entry {
        Some(entry) => &entry.instr,
        None => unreachable!(),
    }
}

/// The vector instruction that stands at an address, where one does.
pub fn vector_at(recent: &mut [Cached], mem: &Mem, addr: u32) -> Option<Any>
    requires some { 0 < length recent.old }
    ensures row { (listing : Listing) → IsListing (flash_at (memory_of mem.now)) listing → option_map row_of result ≡ vector_of (listing addr) }
    ensures room { IsSome result → addr + 4 < 2 ^ 32 }
    ensures places { length recent.new ≡ length recent.old }
{
    match keep(recent, mem, addr) {
        Ok(()) => kept(recent, addr).as_vector(),
        Err(_) => None,
    }
}

/// The vector instruction that stands at an address, where one does, decoded anew.
pub fn vector_anew(mem: &Mem, addr: u32) -> Option<Any>
    ensures row { (listing : Listing) → IsListing (flash_at (memory_of mem.now)) listing → option_map row_of result ≡ vector_of (listing addr) }
    ensures room { IsSome result → addr + 4 < 2 ^ 32 }
{
    match fetch(mem, addr) {
        Ok(i) => Decoded::of(i).as_vector(),
        Err(_) => None,
    }
}
