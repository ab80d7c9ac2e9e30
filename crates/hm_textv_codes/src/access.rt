//! The candidate codes of texts of loads and stores.

ghost use Rattle.std.specs.Prelude.{◌≡◌, ◌<◌, ◌+◌, ◌^◌};
ghost use Rattle.hm_isa.specs.MemoryCodes.{code_v24, code_v25, code_v26, code_v28};
ghost use Rattle.hm_isa.specs.Standing.{◌↑◌};
ghost use Rattle.hm_isa.specs.declared.Vector.TheVariants as vector;
ghost use Rattle.hm_isa.specs.declared.memory.V24.{V24};
ghost use Rattle.hm_isa.specs.declared.memory.V25.{V25};
ghost use Rattle.hm_isa.specs.declared.memory.V26.{V26};
ghost use Rattle.hm_isa.specs.declared.memory.V28.{V28};
ghost use Rattle.hm_textv_codes.specs.Asked.{IsCodeOf, operands_of};

use crate::names::{access_in, interleaved_in};
use crate::operands::{Kind, Operands};

/// Fields of a row that loads or stores.
fn of_access(base: u64, l: u8, n: u64, d: u32, z: u32, i: u32) -> u64
    requires { (base < 2 ^ 62) × (n < 2 ^ 34) }
    ensures { result ≡ base + l ↑ 20 + n ↑ 16 + d ↑ 13 + z ↑ 7 + i }
{
    base + (u64::from(l) << 20)
        + (n << 16)
        + (u64::from(d) << 13)
        + (u64::from(z) << 7)
        + u64::from(i)
}

/// How an offset is used, where it stands in a code.
fn index_code(o: &Operands) -> u64
    ensures value { result ≡ o.now.before ↑ 24 + o.now.added ↑ 23 + o.now.back ↑ 21 }
    ensures small { result < 2 ^ 60 }
{
    (u64::from(o.before) << 24) + (u64::from(o.added) << 23) + (u64::from(o.back) << 21)
}

/// Rows V27.
#[tactic(auto, using(crate::proofs::Told::access_told))]
pub fn code_at_addresses(mnemonic: &[u8], o: &Operands) -> Option<u64>
    ensures { IsCodeOf vector.V27 mnemonic.now o.now result }
{
    let l = access_in(mnemonic)?.0;
    let base = 0xfd00_1e00 + (u64::from(o.added) << 23) + (u64::from(o.back) << 21);
    Some(of_access(base, l, 2 * u64::from(o.second), o.first, 0, o.third / 4))
}

/// A row V24 or V25, of elements that have the size y in memory: a store where l is 0, and else a load.
#[tactic(auto, using(crate::proofs::Fields::in_elements, crate::proofs::Fields::is_narrower))]
fn offset_code(l: u8, y: u32, o: &Operands) -> u64
    requires { y < 3 }
    ensures v24 { (i : V24) → l ≡ i.l.value → y ≡ i.z.value → o.now ≡ operands_of (vector.V24 i) → result ≡ code_v24 i }
    ensures v25 { (i : V25) → l ≡ i.l.value → y ≡ i.h.value → o.now ≡ operands_of (vector.V25 i) → result ≡ code_v25 i }
{
    let n = u64::from(o.second);
    let i = o.third >> y;
    if o.size == y {
        return of_access(0xec00_1e00 + index_code(o), l, n, o.first, y, i);
    }
    let base = 0xec00_0e00 + (u64::from(o.sign) << 28) + index_code(o) + (u64::from(y) << 19);
    of_access(base, l, n, o.first, o.size, i)
}

/// A row V26, of elements that have the size y in memory: a store where l is 0, and else a load.
fn offsets_code(l: u8, y: u32, o: &Operands) -> u64
    requires { y < 3 }
    ensures { (i : V26) → l ≡ i.l.value → y ≡ i.y.value → o.now ≡ operands_of (vector.V26 i) → result ≡ code_v26 i }
{
    let base = 0xec80_0e00
        + (u64::from(o.sign) << 28)
        + (u64::from(y / 2) << 6)
        + (u64::from(y % 2) << 4)
        + (u64::from(o.third) << 1);
    of_access(base, l, u64::from(o.second), o.first, o.size, o.fourth)
}

/// A row V28 of part p, of four registers where f is 1: a store where l is 0, and else a load.
fn interleaved_code(f: u8, l: u8, p: u8, o: &Operands) -> u64
    ensures { (i : V28) → f ≡ i.f.value → l ≡ i.l.value → p ≡ i.p.value → o.now ≡ operands_of (vector.V28 i) → result ≡ code_v28 i }
{
    let base = 0xfc80_1e00 + (u64::from(p) << 5) + (u64::from(o.back) << 21);
    if f == 0 {
        return of_access(base, l, u64::from(o.third), o.first, o.size, 0);
    }
    of_access(base, l, u64::from(o.fifth), o.first, o.size, 1)
}

/// Rows V24 to V26 and V28, whose base is a core register.
#[tactic(auto, using(crate::proofs::Told::access_told, crate::proofs::Told::interleaved_told, crate::proofs::Told::not_interleaved))]
pub fn code_at_base(mnemonic: &[u8], o: &Operands) -> Option<u64>
    ensures v24 { IsCodeOf vector.V24 mnemonic.now o.now result }
    ensures v25 { IsCodeOf vector.V25 mnemonic.now o.now result }
    ensures v26 { IsCodeOf vector.V26 mnemonic.now o.now result }
    ensures v28 { IsCodeOf vector.V28 mnemonic.now o.now result }
{
    if let Some((f, l, p)) = interleaved_in(mnemonic) {
        return Some(interleaved_code(f, l, p, o));
    }
    let (l, y) = access_in(mnemonic)?;
    match o.third_kind {
        Kind::Vector => Some(offsets_code(l, y, o)),
        Kind::Missing | Kind::Word | Kind::Number => Some(offset_code(l, y, o)),
    }
}
