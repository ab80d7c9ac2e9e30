//! Rows of a vector and core registers.

ghost use Rattle.std.specs.Prelude.{◌≡◌, ◌<◌, ◌+◌, ◌*◌, ◌^◌, ℕ, Some, IsTrue, IfSome, IfNone};
ghost use Rattle.hm_isa.specs.declared.vectors.ScalarName.{ScalarName};
ghost use Rattle.hm_isa.specs.declared.vectors.Element.{Element};
ghost use Rattle.hm_isa.specs.declared.vectors.OffsetsName.{OffsetsName};
ghost use Rattle.hm_isa.specs.declared.vectors.V10.{V10};
ghost use Rattle.hm_isa.specs.declared.vectors.V17.{V17};
ghost use Rattle.hm_isa.specs.declared.vectors.V18.{V18};
ghost use Rattle.hm_isa.specs.declared.vectors.V19.{V19};
ghost use Rattle.hm_isa.specs.Code.{scalar_base, dup_base, offsets_base};
ghost use Rattle.hm_isa.specs.Code.{code_v10, code_v17, code_v18, code_v19, vector_code};
ghost use Rattle.hm_isa.specs.Rules.{has_sign, is_signed_by};

use hm_code_fields::{bit, bits, general, name_and_sign, place_step, q_register, size_at, step};
use hm_isa::{
    Below, Bit, Element, Offsets, OffsetsName, ScalarName, V10, V17, V18, V19, Vector,
    WrappedOffsets,
};

/// The operation of the row V10 whose code without its fields is this.
fn scalar_name(base: u32) -> Option<ScalarName>
    ensures found { IfSome result (λ x. scalar_base x ≡ base) }
    ensures each { (x : ScalarName) → scalar_base x ≡ base → result ≡ Some x }
{
    match base {
        0xee01_0f40 => Some(ScalarName::Add),
        0xee01_1f40 => Some(ScalarName::Sub),
        0xee01_1e60 => Some(ScalarName::Mul),
        0xee00_0f40 => Some(ScalarName::Hadd),
        0xee00_1f40 => Some(ScalarName::Hsub),
        0xee00_0f60 => Some(ScalarName::Qadd),
        0xee00_1f60 => Some(ScalarName::Qsub),
        0xee01_0e60 => Some(ScalarName::Qdmulh),
        0xfe01_0e60 => Some(ScalarName::Qrdmulh),
        0xee01_0e40 => Some(ScalarName::Mla),
        0xee01_1e40 => Some(ScalarName::Mlas),
        _ => None,
    }
}

/// The code of a name of the row V10 without its fields.
pub fn base_of_scalar(name: ScalarName) -> u32
    ensures value { result ≡ scalar_base name }
{
    match name {
        ScalarName::Add => 0xee01_0f40,
        ScalarName::Sub => 0xee01_1f40,
        ScalarName::Mul => 0xee01_1e60,
        ScalarName::Hadd => 0xee00_0f40,
        ScalarName::Hsub => 0xee00_1f40,
        ScalarName::Qadd => 0xee00_0f60,
        ScalarName::Qsub => 0xee00_1f60,
        ScalarName::Qdmulh => 0xee01_0e60,
        ScalarName::Qrdmulh => 0xfe01_0e60,
        ScalarName::Mla => 0xee01_0e40,
        ScalarName::Mlas => 0xee01_1e40,
    }
}

/// Whether the name of an operation says whether elements are signed.
fn says_sign(x: ScalarName) -> bool
    ensures value { result ≡ has_sign x }
{
    matches!(
        x,
        ScalarName::Hadd
            | ScalarName::Hsub
            | ScalarName::Qadd
            | ScalarName::Qsub
            | ScalarName::Mla
            | ScalarName::Mlas
    )
}

/// The operation of the row V10 and its bit `u`, of a code without its other fields.
fn signed_scalar(rest: u32) -> Option<(ScalarName, Bit)>
    ensures found { IfSome result (λ p. scalar_base p.0 + p.1.value * 2 ^ 28 ≡ rest) }
    ensures signs { IfSome result (λ p. IsTrue (is_signed_by p.0 p.1.value)) }
    ensures none { IfNone result ((x : ScalarName) (u : ℕ) → u < 2 → IsTrue (is_signed_by x u) → scalar_base x + u * 2 ^ 28 ≡ rest → ⊥) }
{
    name_and_sign(rest, scalar_name, says_sign)
}

/// Operations of elements and a core register
fn decode_v10(w: u32) -> Option<V10>
    ensures found { IfSome result (λ r. code_v10 r ≡ w) }
    ensures none { IfNone result ((r : V10) → code_v10 r ≡ w → ⊥) }
{
    let z = size_at(w, 20)?;
    let n = q_register(w, 17);
    let d = q_register(w, 13);
    let m = general(w, 0)?;
    let (name, u) = signed_scalar(
        w - (z.get() << 20) - (n.get() << 17) - (d.get() << 13) - m.get(),
    )?;
    Some(V10 {
        name,
        u,
        z,
        n,
        d,
        m,
    })
}

/// The code of an operation of elements and a core register, with the first halfword in bits 31 to 16.
pub fn encode_v10(r: &V10) -> u32
    ensures value { result ≡ code_v10 r.now }
{
    base_of_scalar(r.name)
        + (r.u.get() << 28)
        + (r.z.get() << 20)
        + (r.n.get() << 17)
        + (r.d.get() << 13)
        + r.m.get()
}

/// `vshlc`
fn decode_v17(w: u32) -> Option<V17>
    ensures found { IfSome result (λ r. code_v17 r ≡ w) }
    ensures none { IfNone result ((r : V17) → code_v17 r ≡ w → ⊥) }
{
    let k = Below::new(bits(w, 16, 5));
    let d = q_register(w, 13);
    let m = general(w, 0)?;
    if w - (k.get() << 16) - (d.get() << 13) - m.get() != 0xeea0_0fc0 {
        return None;
    }
    Some(V17 { k, d, m })
}

/// The code of `vshlc`, with the first halfword in bits 31 to 16.
pub fn encode_v17(r: &V17) -> u32
    ensures value { result ≡ code_v17 r.now }
{
    0xeea0_0fc0 + (r.k.get() << 16) + (r.d.get() << 13) + r.m.get()
}

/// The elements of the row V18 whose code without its fields is this.
fn dup_size(base: u32) -> Option<Element>
    ensures found { IfSome result (λ x. dup_base x ≡ base) }
    ensures none { IfNone result ((x : Element) → dup_base x ≡ base → ⊥) }
{
    match base {
        0xeee0_0b10 => Some(Element::Bytes),
        0xeea0_0b30 => Some(Element::Halves),
        0xeea0_0b10 => Some(Element::Words),
        _ => None,
    }
}

/// The code of a size of the row V18 without its fields.
pub fn base_of_dup(size: Element) -> u32
    ensures value { result ≡ dup_base size }
{
    match size {
        Element::Bytes => 0xeee0_0b10,
        Element::Halves => 0xeea0_0b30,
        Element::Words => 0xeea0_0b10,
    }
}

/// `vdup`
fn decode_v18(w: u32) -> Option<V18>
    ensures found { IfSome result (λ r. code_v18 r ≡ w) }
    ensures none { IfNone result ((r : V18) → code_v18 r ≡ w → ⊥) }
{
    let d = q_register(w, 17);
    let t = general(w, 12)?;
    let size = dup_size(w - (d.get() << 17) - (t.get() << 12))?;
    Some(V18 { size, d, t })
}

/// The code of `vdup`, with the first halfword in bits 31 to 16.
pub fn encode_v18(r: &V18) -> u32
    ensures value { result ≡ code_v18 r.now }
{
    base_of_dup(r.size) + (r.d.get() << 17) + (r.t.get() << 12)
}

/// The direction of the row V19 whose code without its fields is this.
fn offsets_name(base: u32) -> Option<OffsetsName>
    ensures found { IfSome result (λ x. offsets_base x ≡ base) }
    ensures none { IfNone result ((x : OffsetsName) → offsets_base x ≡ base → ⊥) }
{
    match base {
        0xee01_0f60 => Some(OffsetsName::Up),
        0xee01_1f60 => Some(OffsetsName::Down),
        _ => None,
    }
}

/// The code of a name of the row V19 without its fields.
pub fn base_of_offsets(name: OffsetsName) -> u32
    ensures value { result ≡ offsets_base name }
{
    match name {
        OffsetsName::Up => 0xee01_0f60,
        OffsetsName::Down => 0xee01_1f60,
    }
}

/// `vidup`, `vddup`, `viwdup`, `vdwdup`: 7 in place of a register stands for none
fn decode_v19(w: u32) -> Option<V19>
    ensures found { IfSome result (λ r. code_v19 r ≡ w) }
    ensures none { IfNone result ((r : V19) → code_v19 r ≡ w → ⊥) }
{
    let z = size_at(w, 20)?;
    let n = Below::new(bits(w, 17, 3));
    let d = q_register(w, 13);
    let k = step(w);
    let r = bits(w, 1, 3);
    let name = offsets_name(
        w - (z.get() << 20) - (n.get() << 17) - (d.get() << 13) - place_step(k) - (r << 1),
    )?;
    if r == 7 {
        return Some(V19::Free(Offsets { name, z, n, d, k }));
    }
    let r = Below::of(r)?;
    Some(V19::Wrapped(WrappedOffsets {
        name,
        z,
        n,
        d,
        k,
        r,
    }))
}

/// The code of `vidup`, `vddup`, `viwdup`, `vdwdup`, with the first halfword in bits 31 to 16.
pub fn encode_v19(r: &V19) -> u32
    ensures value { result ≡ code_v19 r.now }
{
    match r {
        V19::Free(r) => {
            base_of_offsets(r.name)
                + 0xe
                + (r.z.get() << 20)
                + (r.n.get() << 17)
                + (r.d.get() << 13)
                + place_step(r.k)
        }
        V19::Wrapped(r) => {
            base_of_offsets(r.name)
                + (r.z.get() << 20)
                + (r.n.get() << 17)
                + (r.d.get() << 13)
                + place_step(r.k)
                + (r.r.get() << 1)
        }
    }
}

/// The instruction of the rows V10, V17, V18 and V19 whose code is w, with the first halfword in bits 31 to 16, or None exactly where none of them
/// has it: DDI0553, "T32 instruction set encoding", the 32-bit codes.
pub fn decode_register(w: u32) -> Option<Vector>
    ensures found { IfSome result (λ v. vector_code v ≡ w) }
    ensures no_v10 { IfNone result ((r : V10) → code_v10 r ≡ w → ⊥) }
    ensures no_v17 { IfNone result ((r : V17) → code_v17 r ≡ w → ⊥) }
    ensures no_v18 { IfNone result ((r : V18) → code_v18 r ≡ w → ⊥) }
    ensures no_v19 { IfNone result ((r : V19) → code_v19 r ≡ w → ⊥) }
{
    if let Some(r) = decode_v10(w) {
        return Some(Vector::V10(r));
    }
    if let Some(r) = decode_v17(w) {
        return Some(Vector::V17(r));
    }
    if let Some(r) = decode_v18(w) {
        return Some(Vector::V18(r));
    }
    if let Some(r) = decode_v19(w) {
        return Some(Vector::V19(r));
    }
    None
}
