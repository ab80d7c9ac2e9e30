//! Rows that set or use the predicate.

ghost use Rattle.std.specs.Prelude.{◌≡◌, IfSome, IfNone};
ghost use Rattle.hm_isa.specs.declared.vectors.CompareVectors.{CompareVectors};
ghost use Rattle.hm_isa.specs.declared.vectors.CompareScalar.{CompareScalar};
ghost use Rattle.hm_isa.specs.declared.vectors.Block.{Block};
ghost use Rattle.hm_isa.specs.declared.vectors.Select.{Select};
ghost use Rattle.hm_isa.specs.declared.vectors.Tail.{Tail};
ghost use Rattle.hm_isa.specs.declared.vectors.V20.{V20};
ghost use Rattle.hm_isa.specs.declared.vectors.V21.{V21};
ghost use Rattle.hm_isa.specs.Code.{code_compare_vectors, code_compare_scalar, code_block, code_select, code_tail, code_v20, code_v21, vector_code};

use hm_code_fields::{bit, bits, general, mask, place_mask, place_registers, q_register, size_at};
use hm_isa::{Below, Block, CompareScalar, CompareVectors, Select, Tail, V20, V21, Vector};

/// `vcmp` and `vpt` of two vectors: the condition's bits 2 to 0 are bits 12, 0 and 7
fn decode_compare_vectors(w: u32) -> Option<CompareVectors>
    ensures found { IfSome result (λ r. code_compare_vectors r ≡ w) }
    ensures none { IfNone result ((r : CompareVectors) → code_compare_vectors r ≡ w → ⊥) }
{
    let k = mask(w);
    let z = size_at(w, 20)?;
    let n = q_register(w, 17);
    let high = bits(w, 12, 1);
    let middle = bits(w, 0, 1);
    let low = bits(w, 7, 1);
    let m = q_register(w, 1);
    let c = Below::new(high * 4 + middle * 2 + low);
    let r = CompareVectors { k, z, n, c, m };
    if encode_compare_vectors(&r) != w {
        return None;
    }
    Some(r)
}

/// `vcmp` and `vpt` of two vectors
fn encode_compare_vectors(r: &CompareVectors) -> u32
    ensures value { result ≡ code_compare_vectors r.now }
{
    0xfe01_0f00
        + place_mask(r.k)
        + (r.z.get() << 20)
        + (r.n.get() << 17)
        + ((r.c.get() / 4) << 12)
        + ((r.c.get() % 2) << 7)
        + (r.m.get() << 1)
        + r.c.get() / 2 % 2
}

/// `vcmp` and `vpt` of a vector and a core register or zero: the condition's bits 2 to 0 are bits 12, 5 and 7
fn decode_compare_scalar(w: u32) -> Option<CompareScalar>
    ensures found { IfSome result (λ r. code_compare_scalar r ≡ w) }
    ensures none { IfNone result ((r : CompareScalar) → code_compare_scalar r ≡ w → ⊥) }
{
    let k = mask(w);
    let z = size_at(w, 20)?;
    let n = q_register(w, 17);
    let high = bits(w, 12, 1);
    let middle = bits(w, 5, 1);
    let low = bits(w, 7, 1);
    let m = bits(w, 0, 4);
    if m == 13 {
        return None;
    }
    let c = Below::new(high * 4 + middle * 2 + low);
    let m = Below::new(m);
    let r = CompareScalar { k, z, n, c, m };
    if encode_compare_scalar(&r) != w {
        return None;
    }
    Some(r)
}

/// `vcmp` and `vpt` of a vector and a core register or zero
fn encode_compare_scalar(r: &CompareScalar) -> u32
    ensures value { result ≡ code_compare_scalar r.now }
{
    0xfe01_0f40
        + place_mask(r.k)
        + (r.z.get() << 20)
        + (r.n.get() << 17)
        + ((r.c.get() / 4) << 12)
        + ((r.c.get() % 2) << 7)
        + ((r.c.get() / 2 % 2) << 5)
        + r.m.get()
}

/// Comparisons
fn decode_v20(w: u32) -> Option<V20>
    ensures found { IfSome result (λ r. code_v20 r ≡ w) }
    ensures none { IfNone result ((r : V20) → code_v20 r ≡ w → ⊥) }
{
    if let Some(r) = decode_compare_vectors(w) {
        return Some(V20::Vectors(r));
    }
    if let Some(r) = decode_compare_scalar(w) {
        return Some(V20::Scalar(r));
    }
    None
}

/// The code of `vcmp`, `vpt`, with the first halfword in bits 31 to 16.
pub fn encode_v20(r: &V20) -> u32
    ensures value { result ≡ code_v20 r.now }
{
    match r {
        V20::Vectors(r) => encode_compare_vectors(r),
        V20::Scalar(r) => encode_compare_scalar(r),
    }
}

/// `vpst`, `vpnot`
fn decode_block(w: u32) -> Option<Block>
    ensures found { IfSome result (λ r. code_block r ≡ w) }
    ensures none { IfNone result ((r : Block) → code_block r ≡ w → ⊥) }
{
    let k = mask(w);
    if w - place_mask(k) != 0xfe31_0f4d {
        return None;
    }
    Some(Block { k })
}

/// `vpsel`
fn decode_select(w: u32) -> Option<Select>
    ensures found { IfSome result (λ r. code_select r ≡ w) }
    ensures none { IfNone result ((r : Select) → code_select r ≡ w → ⊥) }
{
    let n = q_register(w, 17);
    let d = q_register(w, 13);
    let m = q_register(w, 1);
    if w - place_registers(n, d, m) != 0xfe31_0f01 {
        return None;
    }
    Some(Select { n, d, m })
}

/// `vctp`
fn decode_tail(w: u32) -> Option<Tail>
    ensures found { IfSome result (λ r. code_tail r ≡ w) }
    ensures none { IfNone result ((r : Tail) → code_tail r ≡ w → ⊥) }
{
    let z = Below::new(bits(w, 20, 2));
    let n = general(w, 16)?;
    if w - (z.get() << 20) - (n.get() << 16) != 0xf000_e801 {
        return None;
    }
    Some(Tail { z, n })
}

/// What sets or uses the predicate
fn decode_v21(w: u32) -> Option<V21>
    ensures found { IfSome result (λ r. code_v21 r ≡ w) }
    ensures none { IfNone result ((r : V21) → code_v21 r ≡ w → ⊥) }
{
    if let Some(r) = decode_block(w) {
        return Some(V21::Block(r));
    }
    if let Some(r) = decode_select(w) {
        return Some(V21::Select(r));
    }
    if let Some(r) = decode_tail(w) {
        return Some(V21::Tail(r));
    }
    None
}

/// The code of `vpst`, `vpnot`, `vpsel`, `vctp`, with the first halfword in bits 31 to 16.
pub fn encode_v21(r: &V21) -> u32
    ensures value { result ≡ code_v21 r.now }
{
    match r {
        V21::Block(r) => 0xfe31_0f4d + place_mask(r.k),
        V21::Select(r) => 0xfe31_0f01 + place_registers(r.n, r.d, r.m),
        V21::Tail(r) => 0xf000_e801 + (r.z.get() << 20) + (r.n.get() << 16),
    }
}

/// The instruction of the rows V20 and V21 whose code is w, with the first halfword in bits 31 to 16, or None exactly where none of them
/// has it: DDI0553, "T32 instruction set encoding", the 32-bit codes.
pub fn decode_predicate(w: u32) -> Option<Vector>
    ensures found { IfSome result (λ v. vector_code v ≡ w) }
    ensures no_v20 { IfNone result ((r : V20) → code_v20 r ≡ w → ⊥) }
    ensures no_v21 { IfNone result ((r : V21) → code_v21 r ≡ w → ⊥) }
{
    if let Some(r) = decode_v20(w) {
        return Some(Vector::V20(r));
    }
    if let Some(r) = decode_v21(w) {
        return Some(Vector::V21(r));
    }
    None
}
