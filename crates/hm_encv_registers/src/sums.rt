//! Rows of sums and extremes of a vector.

ghost use Rattle.std.specs.Prelude.{◌≡◌, IfSome, IfNone};
ghost use Rattle.hm_isa.specs.declared.vectors.Element.{Element};
ghost use Rattle.hm_isa.specs.declared.vectors.ExtremeName.{ExtremeName};
ghost use Rattle.hm_isa.specs.declared.vectors.Sum.{Sum};
ghost use Rattle.hm_isa.specs.declared.vectors.Dot.{Dot};
ghost use Rattle.hm_isa.specs.declared.vectors.LongSum.{LongSum};
ghost use Rattle.hm_isa.specs.declared.vectors.LongDot.{LongDot};
ghost use Rattle.hm_isa.specs.declared.vectors.V22.{V22};
ghost use Rattle.hm_isa.specs.declared.vectors.V23.{V23};
ghost use Rattle.hm_isa.specs.Code.{dot_base, extreme_base, code_sum, code_dot, code_long_sum, code_long_dot, code_v22, code_v23, vector_code};

use hm_code_fields::{bit, bits, general, q_register, size_at};
use hm_isa::{Below, Dot, Element, ExtremeName, LongDot, LongSum, Sum, V22, V23, Vector};

/// `vaddv` or `vaddva`
fn decode_sum(w: u32) -> Option<Sum>
    ensures found { IfSome result (λ r. code_sum r ≡ w) }
    ensures none { IfNone result ((r : Sum) → code_sum r ≡ w → ⊥) }
{
    let u = bit(w, 28);
    let z = size_at(w, 18)?;
    let l = Below::new(bits(w, 13, 3));
    let a = bit(w, 5);
    let m = q_register(w, 1);
    let r = Sum { u, z, l, a, m };
    if encode_sum(&r) != w {
        return None;
    }
    Some(r)
}

/// `vaddv` or `vaddva`
fn encode_sum(r: &Sum) -> u32
    ensures value { result ≡ code_sum r.now }
{
    0xeef1_0f00
        + (r.u.get() << 28)
        + (r.z.get() << 18)
        + (r.l.get() << 13)
        + (r.a.get() << 5)
        + (r.m.get() << 1)
}

/// The elements of `vmladav` and `vmladava` whose code without its fields is this.
fn dot_size(base: u32) -> Option<Element>
    ensures found { IfSome result (λ x. dot_base x ≡ base) }
    ensures none { IfNone result ((x : Element) → dot_base x ≡ base → ⊥) }
{
    match base {
        0xeef0_0f00 => Some(Element::Bytes),
        0xeef0_0e00 => Some(Element::Halves),
        0xeef1_0e00 => Some(Element::Words),
        _ => None,
    }
}

/// The code of a size of `vmladav` and `vmladava`, of the row V22, without its fields.
pub fn base_of_dot(size: Element) -> u32
    ensures value { result ≡ dot_base size }
{
    match size {
        Element::Bytes => 0xeef0_0f00,
        Element::Halves => 0xeef0_0e00,
        Element::Words => 0xeef1_0e00,
    }
}

/// `vmladav` or `vmladava`
fn decode_dot(w: u32) -> Option<Dot>
    ensures found { IfSome result (λ r. code_dot r ≡ w) }
    ensures none { IfNone result ((r : Dot) → code_dot r ≡ w → ⊥) }
{
    let u = bit(w, 28);
    let n = q_register(w, 17);
    let l = Below::new(bits(w, 13, 3));
    let a = bit(w, 5);
    let m = q_register(w, 1);
    let size = dot_size(
        w - (u.get() << 28) - (n.get() << 17) - (l.get() << 13) - (a.get() << 5) - (m.get() << 1),
    )?;
    Some(Dot {
        size,
        u,
        n,
        l,
        a,
        m,
    })
}

/// `vmladav` or `vmladava`
fn encode_dot(r: &Dot) -> u32
    ensures value { result ≡ code_dot r.now }
{
    base_of_dot(r.size)
        + (r.u.get() << 28)
        + (r.n.get() << 17)
        + (r.l.get() << 13)
        + (r.a.get() << 5)
        + (r.m.get() << 1)
}

/// `vaddlv` or `vaddlva`
fn decode_long_sum(w: u32) -> Option<LongSum>
    ensures found { IfSome result (λ r. code_long_sum r ≡ w) }
    ensures none { IfNone result ((r : LongSum) → code_long_sum r ≡ w → ⊥) }
{
    let u = bit(w, 28);
    let h = Below::of(bits(w, 20, 3))?;
    let l = Below::new(bits(w, 13, 3));
    let a = bit(w, 5);
    let m = q_register(w, 1);
    let r = LongSum { u, h, l, a, m };
    if encode_long_sum(&r) != w {
        return None;
    }
    Some(r)
}

/// `vaddlv` or `vaddlva`
fn encode_long_sum(r: &LongSum) -> u32
    ensures value { result ≡ code_long_sum r.now }
{
    0xee89_0f00
        + (r.u.get() << 28)
        + (r.h.get() << 20)
        + (r.l.get() << 13)
        + (r.a.get() << 5)
        + (r.m.get() << 1)
}

/// `vmlaldav` or `vmlaldava`
fn decode_long_dot(w: u32) -> Option<LongDot>
    ensures found { IfSome result (λ r. code_long_dot r ≡ w) }
    ensures none { IfNone result ((r : LongDot) → code_long_dot r ≡ w → ⊥) }
{
    let u = bit(w, 28);
    let h = Below::of(bits(w, 20, 3))?;
    let n = q_register(w, 17);
    let s = bit(w, 16);
    let l = Below::new(bits(w, 13, 3));
    let a = bit(w, 5);
    let m = q_register(w, 1);
    let r = LongDot {
        u,
        h,
        n,
        s,
        l,
        a,
        m,
    };
    if encode_long_dot(&r) != w {
        return None;
    }
    Some(r)
}

/// `vmlaldav` or `vmlaldava`
fn encode_long_dot(r: &LongDot) -> u32
    ensures value { result ≡ code_long_dot r.now }
{
    0xee80_0e00
        + (r.u.get() << 28)
        + (r.h.get() << 20)
        + (r.n.get() << 17)
        + (r.s.get() << 16)
        + (r.l.get() << 13)
        + (r.a.get() << 5)
        + (r.m.get() << 1)
}

/// Sums
fn decode_v22(w: u32) -> Option<V22>
    ensures found { IfSome result (λ r. code_v22 r ≡ w) }
    ensures none { IfNone result ((r : V22) → code_v22 r ≡ w → ⊥) }
{
    if let Some(r) = decode_sum(w) {
        return Some(V22::Sum(r));
    }
    if let Some(r) = decode_dot(w) {
        return Some(V22::Dot(r));
    }
    if let Some(r) = decode_long_sum(w) {
        return Some(V22::LongSum(r));
    }
    if let Some(r) = decode_long_dot(w) {
        return Some(V22::LongDot(r));
    }
    None
}

/// The code of `vaddv`, `vaddva`, `vmladav`, `vmladava`, `vaddlv`, `vaddlva`, `vmlaldav` or `vmlaldava`, with the first halfword in bits 31 to 16.
pub fn encode_v22(r: &V22) -> u32
    ensures value { result ≡ code_v22 r.now }
{
    match r {
        V22::Sum(r) => encode_sum(r),
        V22::Dot(r) => encode_dot(r),
        V22::LongSum(r) => encode_long_sum(r),
        V22::LongDot(r) => encode_long_dot(r),
    }
}

/// The operation of the row V23 whose code without its fields is this.
fn extreme_name(base: u32) -> Option<ExtremeName>
    ensures found { IfSome result (λ x. extreme_base x ≡ base) }
    ensures none { IfNone result ((x : ExtremeName) → extreme_base x ≡ base → ⊥) }
{
    match base {
        0xeee2_0f00 => Some(ExtremeName::Max),
        0xeee2_0f80 => Some(ExtremeName::Min),
        _ => None,
    }
}

/// The code of a name of the row V23 without its fields.
pub fn base_of_extreme(name: ExtremeName) -> u32
    ensures value { result ≡ extreme_base name }
{
    match name {
        ExtremeName::Max => 0xeee2_0f00,
        ExtremeName::Min => 0xeee2_0f80,
    }
}

/// `vmaxv`, `vminv`
fn decode_v23(w: u32) -> Option<V23>
    ensures found { IfSome result (λ r. code_v23 r ≡ w) }
    ensures none { IfNone result ((r : V23) → code_v23 r ≡ w → ⊥) }
{
    let u = bit(w, 28);
    let z = size_at(w, 18)?;
    let t = general(w, 12)?;
    let m = q_register(w, 1);
    let name = extreme_name(
        w - (u.get() << 28) - (z.get() << 18) - (t.get() << 12) - (m.get() << 1),
    )?;
    Some(V23 { name, u, z, t, m })
}

/// The code of `vmaxv`, `vminv`, with the first halfword in bits 31 to 16.
pub fn encode_v23(r: &V23) -> u32
    ensures value { result ≡ code_v23 r.now }
{
    base_of_extreme(r.name)
        + (r.u.get() << 28)
        + (r.z.get() << 18)
        + (r.t.get() << 12)
        + (r.m.get() << 1)
}

/// The instruction of the rows V22 and V23 whose code is w, with the first halfword in bits 31 to 16, or None exactly where none of them
/// has it: DDI0553, "T32 instruction set encoding", the 32-bit codes.
pub fn decode_total(w: u32) -> Option<Vector>
    ensures found { IfSome result (λ v. vector_code v ≡ w) }
    ensures no_v22 { IfNone result ((r : V22) → code_v22 r ≡ w → ⊥) }
    ensures no_v23 { IfNone result ((r : V23) → code_v23 r ≡ w → ⊥) }
{
    if let Some(r) = decode_v22(w) {
        return Some(Vector::V22(r));
    }
    if let Some(r) = decode_v23(w) {
        return Some(Vector::V23(r));
    }
    None
}
