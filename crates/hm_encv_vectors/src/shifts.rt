//! The row of shifts by a constant.

ghost use Rattle.std.specs.Prelude.{◌≡◌, ◌<◌, ◌+◌, ◌*◌, ◌/◌, ◌%◌, ◌^◌, ℕ, Some, IsTrue, IfSome, IfNone};
ghost use Rattle.hm_isa.specs.declared.vectors.ConstantShiftName.{ConstantShiftName};
ghost use Rattle.hm_isa.specs.declared.vectors.V11.{V11};
ghost use Rattle.hm_isa.specs.Code.{constant_shift_base, code_v11};
ghost use Rattle.hm_isa.specs.Rules.{has_size, is_shifted_by, shift_has_sign};

use hm_code_fields::{bit, bits, name_and_sign, q_register};
use hm_isa::{Below, Bit, ConstantShiftName, V11};

/// The operation of the row V11 whose code without its fields is this.
fn shift_name(base: u32) -> Option<ConstantShiftName>
    ensures found { IfSome result (λ x. constant_shift_base x ≡ base) }
    ensures each { (x : ConstantShiftName) → constant_shift_base x ≡ base → result ≡ Some x }
{
    match base {
        0xef80_0050 => Some(ConstantShiftName::Shr),
        0xef80_0250 => Some(ConstantShiftName::Rshr),
        0xef80_0750 => Some(ConstantShiftName::Qshl),
        0xff80_0650 => Some(ConstantShiftName::Qshlu),
        0xef80_0550 => Some(ConstantShiftName::Shl),
        0xff80_0450 => Some(ConstantShiftName::Sri),
        0xff80_0550 => Some(ConstantShiftName::Sli),
        _ => None,
    }
}

/// The code of a name of the row V11 without its fields.
pub fn base_of_constant_shift(name: ConstantShiftName) -> u32
    ensures value { result ≡ constant_shift_base name }
{
    match name {
        ConstantShiftName::Shr => 0xef80_0050,
        ConstantShiftName::Rshr => 0xef80_0250,
        ConstantShiftName::Qshl => 0xef80_0750,
        ConstantShiftName::Qshlu => 0xff80_0650,
        ConstantShiftName::Shl => 0xef80_0550,
        ConstantShiftName::Sri => 0xff80_0450,
        ConstantShiftName::Sli => 0xff80_0550,
    }
}

/// Whether the name of a shift says whether elements are signed.
fn says_sign(x: ConstantShiftName) -> bool
    ensures value { result ≡ shift_has_sign x }
{
    matches!(
        x,
        ConstantShiftName::Shr | ConstantShiftName::Rshr | ConstantShiftName::Qshl
    )
}

/// The operation of the row V11 and its bit `u`, of a code without its other fields.
fn signed_shift(rest: u32) -> Option<(ConstantShiftName, Bit)>
    ensures found { IfSome result (λ p. constant_shift_base p.0 + p.1.value * 2 ^ 28 ≡ rest) }
    ensures signs { IfSome result (λ p. IsTrue (is_shifted_by p.0 p.1.value)) }
    ensures none { IfNone result ((x : ConstantShiftName) (u : ℕ) → u < 2 → IsTrue (is_shifted_by x u) → constant_shift_base x + u * 2 ^ 28 ≡ rest → ⊥) }
{
    name_and_sign(rest, shift_name, says_sign)
}

/// The size and the shift in w, or None where they are of no size.
fn sized_shift(w: u32) -> Option<Below<64>>
    ensures value { IfSome result (λ x. x.value ≡ w / 2 ^ 16 % 64) }
    ensures size { IfSome result (λ x. IsTrue (has_size x.value)) }
    ensures none { IfNone result (w / 2 ^ 16 % 64 < 8) }
{
    let x = bits(w, 16, 6);
    if x < 8 {
        return None;
    }
    Some(Below::new(x))
}

/// The shift of elements by a constant whose code is w, with the first halfword in bits 31 to 16, or None exactly where none of them
/// has it: DDI0553, "T32 instruction set encoding", the 32-bit codes.
pub fn decode_v11(w: u32) -> Option<V11>
    ensures found { IfSome result (λ r. code_v11 r ≡ w) }
    ensures none { IfNone result ((r : V11) → code_v11 r ≡ w → ⊥) }
{
    let x = sized_shift(w)?;
    let d = q_register(w, 13);
    let m = q_register(w, 1);
    let (name, u) = signed_shift(w - (x.get() << 16) - (d.get() << 13) - (m.get() << 1))?;
    Some(V11 { name, u, x, d, m })
}

/// The code of a shift of elements by a constant, with the first halfword in bits 31 to 16.
pub fn encode_v11(r: &V11) -> u32
    ensures value { result ≡ code_v11 r.now }
{
    base_of_constant_shift(r.name)
        + (r.u.get() << 28)
        + (r.x.get() << 16)
        + (r.d.get() << 13)
        + (r.m.get() << 1)
}
