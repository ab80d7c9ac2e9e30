//! Parts of a word with their signs, and bytes in reverse order.

ghost use Rattle.std.specs.Prelude.{◌≡◌, ℕ, ◌<◌, ◌^◌};
ghost use Rattle.hm_thumb.specs.RegisterRows.{byte_at, extended_by, half_of, s11, s12, swapped};

use hm_base::Place;
use hm_isa::words::sign_extended;
use hm_isa::{ExtendName, S11, S12, SwapName};
use hm_regs::Regs;

/// The low halfword or byte of a word, with its sign or with zeros.
pub fn extended_by(name: ExtendName, x: u32) -> u32
    ensures value { result ≡ extended_by name x }
{
    match name {
        ExtendName::Sxth => sign_extended(16, x),
        ExtendName::Sxtb => sign_extended(8, x),
        ExtendName::Uxth => x % 0x1_0000,
        ExtendName::Uxtb => x % 0x100,
    }
}

/// `sxth`, `sxtb`, `uxth`, `uxtb rd,rm`
pub fn extend(i: &S11, regs: &mut Regs)
    ensures regs { regs.new ≡ s11 i.now regs.old }
{
    let x = regs.get(Place::R(i.m.get() as u8));
    regs.set(Place::R(i.d.get() as u8), extended_by(i.name, x));
}

/// Byte `k` of a word, of which byte 0 is the lowest.
fn byte_at(k: u32, x: u32) -> u32
    requires { k < 4 }
    ensures value { result ≡ byte_at k x }
    ensures below { result < 2 ^ 8 }
{
    (x >> (8 * k)) % 0x100
}

/// A halfword of two bytes, the higher one first.
fn half_of(high: u32, low: u32) -> u32
    requires high { high < 2 ^ 8 }
    requires low { low < 2 ^ 8 }
    ensures value { result ≡ half_of high low }
    ensures below { result < 2 ^ 16 }
{
    high * 0x100 + low
}

/// The bytes of a word, of each halfword, or of the low halfword with its sign, in reverse order.
pub fn swapped(name: SwapName, x: u32) -> u32
    ensures value { result ≡ swapped name x }
{
    let low = half_of(byte_at(0, x), byte_at(1, x));
    let high = half_of(byte_at(2, x), byte_at(3, x));
    match name {
        SwapName::Rev => low * 0x1_0000 + high,
        SwapName::Rev16 => high * 0x1_0000 + low,
        SwapName::Revsh => sign_extended(16, low),
    }
}

/// `rev`, `rev16`, `revsh rd,rm`
pub fn swap(i: &S12, regs: &mut Regs)
    ensures regs { regs.new ≡ s12 i.now regs.old }
{
    let x = regs.get(Place::R(i.m.get() as u8));
    regs.set(Place::R(i.d.get() as u8), swapped(i.name, x));
}
