//! The fields of codes of two halfwords, each by the place of its lowest bit: read, and placed; and names with the bit that says whether
//! elements are signed.
#![tactic(auto)]

ghost use Rattle.std.specs.Prelude.{◌≡◌, ◌≢◌, ◌<◌, ◌+◌, ◌*◌, ◌/◌, ◌%◌, ◌^◌, ◌⊎◌, ℕ, Bool, ◌||◌, nat_eq, IsTrue, MatchOption, IfSome, IfNone};
ghost use Rattle.hm_code_fields.specs.Names.{FindsNames, TellsSigns};
ghost use Rattle.hm_isa.specs.Rules.{is_general};
ghost use Rattle.hm_isa.specs.Code.{mask_code, step_code};

use hm_isa::{Below, Bit, ElementSize, QRegister, Register};

/// The number in the bits of w from this place up, as many as `size`.
pub fn bits(w: u32, position: u32, size: u32) -> u32
    requires position { position < 32 }
    requires size { size < 32 }
    ensures value { result ≡ w / 2 ^ position % 2 ^ size }
{
    (w >> position) % (1 << size)
}

/// The bit of w at this place.
pub fn bit(w: u32, position: u32) -> Bit
    requires { position < 32 }
    ensures value { result.value ≡ w / 2 ^ position % 2 }
{
    Below::new(bits(w, position, 1))
}

/// The vector register whose number stands at this place of w.
pub fn q_register(w: u32, position: u32) -> QRegister
    requires { position < 32 }
    ensures value { result.value ≡ w / 2 ^ position % 8 }
{
    Below::new(bits(w, position, 3))
}

/// The size of elements whose number stands at this place of w, or None where that is 3.
pub fn size_at(w: u32, position: u32) -> Option<ElementSize>
    requires { position < 32 }
    ensures value { MatchOption result (w / 2 ^ position % 4 ≡ 3) (λ z. z.value ≡ w / 2 ^ position % 4) }
{
    let z = bits(w, position, 2);
    if z == 3 {
        return None;
    }
    Some(Below::new(z))
}

/// Whether the core register of this number is neither SP nor PC.
pub fn is_general(n: u32) -> bool
    ensures value { result ≡ is_general n }
{
    n != 13 && n != 15
}

/// The core register whose number stands at this place of w, or None where it is SP or PC.
pub fn general(w: u32, position: u32) -> Option<Register>
    requires { position < 32 }
    ensures value { IfSome result (λ r. r.value ≡ w / 2 ^ position % 16) }
    ensures not_sp { IfSome result (λ r. r.value ≢ 13) }
    ensures not_pc { IfSome result (λ r. r.value ≢ 15) }
    ensures none { IfNone result ((w / 2 ^ position % 16 ≡ 13) ⊎ (w / 2 ^ position % 16 ≡ 15)) }
{
    let r = bits(w, position, 4);
    if !is_general(r) {
        return None;
    }
    Some(Below::new(r))
}

/// The name and the letter u of a code without its other fields: u is bit 28 where the name says by it whether elements are signed; else
/// that bit belongs to the name's own code, and u is 0. `name_of` finds a name by its code without fields, and `says_sign` tells which
/// names say so.
pub fn name_and_sign<N: Copy, F: Fn(u32) -> Option<N>, G: Fn(N) -> bool>(
    rest: u32,
    name_of: F,
    says_sign: G,
) -> Option<(N, Bit)>
    requires name_callable { F.IsAlwaysCallable name_of }
    requires sign_callable { G.IsAlwaysCallable says_sign }
    ensures found { (base : N → ℕ) → FindsNames base (F.post name_of) → IfSome result (λ p. base p.0 + p.1.value * 2 ^ 28 ≡ rest) }
    ensures signs { (has_sign : N → Bool) → TellsSigns has_sign (G.post says_sign) → IfSome result (λ p. IsTrue (has_sign p.0 || nat_eq p.1.value 0)) }
    ensures none { (base : N → ℕ) (has_sign : N → Bool) → FindsNames base (F.post name_of) → TellsSigns has_sign (G.post says_sign)
        → IfNone result ((x : N) (u : ℕ) → u < 2 → IsTrue (has_sign x || nat_eq u 0) → base x + u * 2 ^ 28 ≡ rest → ⊥) }
{
    if let Some(name) = name_of(rest) {
        return Some((name, Below::new(0)));
    }
    let name = name_of(rest.checked_sub(1 << 28)?)?;
    if says_sign(name) {
        Some((name, Below::new(1)))
    } else {
        None
    }
}

/// Three vector registers, where they stand in a code: n at bit 17, d at bit 13 and m at bit 1.
pub fn place_registers(n: QRegister, d: QRegister, m: QRegister) -> u32
    ensures value { result ≡ n.value * 2 ^ 17 + d.value * 2 ^ 13 + m.value * 2 ^ 1 }
{
    (n.get() << 17) + (d.get() << 13) + (m.get() << 1)
}

/// The mask of a block, whose bit 3 is bit 22 of w, and the others bits 15 to 13.
pub fn mask(w: u32) -> Below<16>
    ensures value { result.value ≡ w / 2 ^ 22 % 2 * 8 + w / 2 ^ 13 % 8 }
{
    Below::new(bits(w, 22, 1) * 8 + bits(w, 13, 3))
}

/// The mask of a block, where it stands in a code.
pub fn place_mask(k: Below<16>) -> u32
    ensures value { result ≡ mask_code k.value }
{
    ((k.get() / 8) << 22) + ((k.get() % 8) << 13)
}

/// The power of a step, whose bit 1 is bit 7 of w, and bit 0 bit 0.
pub fn step(w: u32) -> Below<4>
    ensures value { result.value ≡ w / 2 ^ 7 % 2 * 2 + w % 2 }
{
    Below::new(bits(w, 7, 1) * 2 + w % 2)
}

/// The power of a step, where it stands in a code.
pub fn place_step(k: Below<4>) -> u32
    ensures value { result ≡ step_code k.value }
{
    ((k.get() / 2) << 7) + k.get() % 2
}
