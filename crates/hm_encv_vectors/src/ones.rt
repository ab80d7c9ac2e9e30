//! Rows of one vector, and of an immediate.

ghost use Rattle.std.specs.Prelude.{◌≡◌, IfSome, IfNone};
ghost use Rattle.hm_isa.specs.declared.vectors.OneName.{OneName};
ghost use Rattle.hm_isa.specs.declared.vectors.ReverseName.{ReverseName};
ghost use Rattle.hm_isa.specs.declared.vectors.NarrowingName.{NarrowingName};
ghost use Rattle.hm_isa.specs.declared.vectors.LongBytes.{LongBytes};
ghost use Rattle.hm_isa.specs.declared.vectors.LongHalves.{LongHalves};
ghost use Rattle.hm_isa.specs.declared.vectors.LongFull.{LongFull};
ghost use Rattle.hm_isa.specs.declared.vectors.OneElement.{OneElement};
ghost use Rattle.hm_isa.specs.declared.vectors.Invert.{Invert};
ghost use Rattle.hm_isa.specs.declared.vectors.V12.{V12};
ghost use Rattle.hm_isa.specs.declared.vectors.V13.{V13};
ghost use Rattle.hm_isa.specs.declared.vectors.V14.{V14};
ghost use Rattle.hm_isa.specs.declared.vectors.V15.{V15};
ghost use Rattle.hm_isa.specs.declared.vectors.V16.{V16};
ghost use Rattle.hm_isa.specs.Code.{code_long_bytes, code_long_halves, code_long_full, code_one_element, code_invert};
ghost use Rattle.hm_isa.specs.Code.{one_base, reverse_base, narrowing_base, code_v12, code_v13, code_v14, code_v15, code_v16, vector_code};
ghost use Rattle.hm_isa.specs.Rules.{is_reversed};

use hm_code_fields::{bit, bits, q_register, size_at};
use hm_isa::{
    Below, ElementSize, Invert, LongBytes, LongFull, LongHalves, NarrowingName, OneElement,
    OneName, QRegister, ReverseName, V12, V13, V14, V15, V16, Vector,
};

/// `vshllb`, `vshllt` of 8 bits by less than 8
fn decode_long_bytes(w: u32) -> Option<LongBytes>
    ensures found { IfSome result (λ r. code_long_bytes r ≡ w) }
    ensures none { IfNone result ((r : LongBytes) → code_long_bytes r ≡ w → ⊥) }
{
    let u = bit(w, 28);
    let k = Below::new(bits(w, 16, 3));
    let t = bit(w, 12);
    let d = q_register(w, 13);
    let m = q_register(w, 1);
    let r = LongBytes { u, k, t, d, m };
    if encode_long_bytes(&r) != w {
        return None;
    }
    Some(r)
}

/// `vshllb`, `vshllt` of 8 bits by less than 8
fn encode_long_bytes(r: &LongBytes) -> u32
    ensures value { result ≡ code_long_bytes r.now }
{
    0xeea8_0f40
        + (r.u.get() << 28)
        + (r.k.get() << 16)
        + (r.t.get() << 12)
        + (r.d.get() << 13)
        + (r.m.get() << 1)
}

/// `vshllb`, `vshllt` of 16 bits by less than 16
fn decode_long_halves(w: u32) -> Option<LongHalves>
    ensures found { IfSome result (λ r. code_long_halves r ≡ w) }
    ensures none { IfNone result ((r : LongHalves) → code_long_halves r ≡ w → ⊥) }
{
    let u = bit(w, 28);
    let k = Below::new(bits(w, 16, 4));
    let t = bit(w, 12);
    let d = q_register(w, 13);
    let m = q_register(w, 1);
    let r = LongHalves { u, k, t, d, m };
    if encode_long_halves(&r) != w {
        return None;
    }
    Some(r)
}

/// `vshllb`, `vshllt` of 16 bits by less than 16
fn encode_long_halves(r: &LongHalves) -> u32
    ensures value { result ≡ code_long_halves r.now }
{
    0xeeb0_0f40
        + (r.u.get() << 28)
        + (r.k.get() << 16)
        + (r.t.get() << 12)
        + (r.d.get() << 13)
        + (r.m.get() << 1)
}

/// `vshllb`, `vshllt` by the size of the elements
fn decode_long_full(w: u32) -> Option<LongFull>
    ensures found { IfSome result (λ r. code_long_full r ≡ w) }
    ensures none { IfNone result ((r : LongFull) → code_long_full r ≡ w → ⊥) }
{
    let u = bit(w, 28);
    let z = bit(w, 18);
    let t = bit(w, 12);
    let d = q_register(w, 13);
    let m = q_register(w, 1);
    let r = LongFull { u, z, t, d, m };
    if encode_long_full(&r) != w {
        return None;
    }
    Some(r)
}

/// `vshllb`, `vshllt` by the size of the elements
fn encode_long_full(r: &LongFull) -> u32
    ensures value { result ≡ code_long_full r.now }
{
    0xee31_0e01
        + (r.u.get() << 28)
        + (r.z.get() << 18)
        + (r.t.get() << 12)
        + (r.d.get() << 13)
        + (r.m.get() << 1)
}

/// `vshllb`, `vshllt`, `vmovlb`, `vmovlt`
fn decode_v12(w: u32) -> Option<V12>
    ensures found { IfSome result (λ r. code_v12 r ≡ w) }
    ensures none { IfNone result ((r : V12) → code_v12 r ≡ w → ⊥) }
{
    if let Some(r) = decode_long_bytes(w) {
        return Some(V12::Bytes(r));
    }
    if let Some(r) = decode_long_halves(w) {
        return Some(V12::Halves(r));
    }
    if let Some(r) = decode_long_full(w) {
        return Some(V12::Full(r));
    }
    None
}

/// The code of `vshllb`, `vshllt`, `vmovlb`, `vmovlt`, with the first halfword in bits 31 to 16.
pub fn encode_v12(r: &V12) -> u32
    ensures value { result ≡ code_v12 r.now }
{
    match r {
        V12::Bytes(r) => encode_long_bytes(r),
        V12::Halves(r) => encode_long_halves(r),
        V12::Full(r) => encode_long_full(r),
    }
}

/// The operation of the row V13 on elements whose code without its fields is this.
fn one_name(base: u32) -> Option<OneName>
    ensures found { IfSome result (λ x. one_base x ≡ base) }
    ensures none { IfNone result ((x : OneName) → one_base x ≡ base → ⊥) }
{
    match base {
        0xffb0_0440 => Some(OneName::Cls),
        0xffb0_04c0 => Some(OneName::Clz),
        0xffb1_0340 => Some(OneName::Abs),
        0xffb1_03c0 => Some(OneName::Neg),
        0xffb0_0740 => Some(OneName::Qabs),
        0xffb0_07c0 => Some(OneName::Qneg),
        _ => None,
    }
}

/// The code of a name of the row V13 on elements without its fields.
pub fn base_of_one(name: OneName) -> u32
    ensures value { result ≡ one_base name }
{
    match name {
        OneName::Cls => 0xffb0_0440,
        OneName::Clz => 0xffb0_04c0,
        OneName::Abs => 0xffb1_0340,
        OneName::Neg => 0xffb1_03c0,
        OneName::Qabs => 0xffb0_0740,
        OneName::Qneg => 0xffb0_07c0,
    }
}

/// `vcls`, `vclz`, `vabs`, `vneg`, `vqabs`, `vqneg`
fn decode_one_element(w: u32) -> Option<OneElement>
    ensures found { IfSome result (λ r. code_one_element r ≡ w) }
    ensures none { IfNone result ((r : OneElement) → code_one_element r ≡ w → ⊥) }
{
    let z = size_at(w, 18)?;
    let d = q_register(w, 13);
    let m = q_register(w, 1);
    let name = one_name(w - (z.get() << 18) - (d.get() << 13) - (m.get() << 1))?;
    Some(OneElement { name, z, d, m })
}

/// `vcls`, `vclz`, `vabs`, `vneg`, `vqabs`, `vqneg`
fn encode_one_element(r: &OneElement) -> u32
    ensures value { result ≡ code_one_element r.now }
{
    base_of_one(r.name) + (r.z.get() << 18) + (r.d.get() << 13) + (r.m.get() << 1)
}

/// `vmvn`
fn decode_invert(w: u32) -> Option<Invert>
    ensures found { IfSome result (λ r. code_invert r ≡ w) }
    ensures none { IfNone result ((r : Invert) → code_invert r ≡ w → ⊥) }
{
    let d = q_register(w, 13);
    let m = q_register(w, 1);
    if w - (d.get() << 13) - (m.get() << 1) != 0xffb0_05c0 {
        return None;
    }
    Some(Invert { d, m })
}

/// Operations on one vector
fn decode_v13(w: u32) -> Option<V13>
    ensures found { IfSome result (λ r. code_v13 r ≡ w) }
    ensures none { IfNone result ((r : V13) → code_v13 r ≡ w → ⊥) }
{
    if let Some(r) = decode_one_element(w) {
        return Some(V13::Elements(r));
    }
    if let Some(r) = decode_invert(w) {
        return Some(V13::Not(r));
    }
    None
}

/// The code of an operation on one vector, with the first halfword in bits 31 to 16.
pub fn encode_v13(r: &V13) -> u32
    ensures value { result ≡ code_v13 r.now }
{
    match r {
        V13::Elements(r) => encode_one_element(r),
        V13::Not(r) => 0xffb0_05c0 + (r.d.get() << 13) + (r.m.get() << 1),
    }
}

/// The operation of the row V14 whose code without its fields is this.
fn reverse_name(base: u32) -> Option<ReverseName>
    ensures found { IfSome result (λ x. reverse_base x ≡ base) }
    ensures none { IfNone result ((x : ReverseName) → reverse_base x ≡ base → ⊥) }
{
    match base {
        0xffb0_0040 => Some(ReverseName::Rev64),
        0xffb0_00c0 => Some(ReverseName::Rev32),
        0xffb0_0140 => Some(ReverseName::Rev16),
        _ => None,
    }
}

/// The code of a name of the row V14 without its fields.
pub fn base_of_reverse(name: ReverseName) -> u32
    ensures value { result ≡ reverse_base name }
{
    match name {
        ReverseName::Rev64 => 0xffb0_0040,
        ReverseName::Rev32 => 0xffb0_00c0,
        ReverseName::Rev16 => 0xffb0_0140,
    }
}

/// Whether elements are smaller than their groups, and results overwrite no word that is still to be read.
fn may_reverse(name: ReverseName, z: ElementSize, d: QRegister, m: QRegister) -> bool
    ensures value { result ≡ is_reversed name z.value d.value m.value }
{
    match name {
        ReverseName::Rev64 => d.get() != m.get(),
        ReverseName::Rev32 => z.get() < 2,
        ReverseName::Rev16 => z.get() == 0,
    }
}

/// `vrev64`, `vrev32`, `vrev16`
fn decode_v14(w: u32) -> Option<V14>
    ensures found { IfSome result (λ r. code_v14 r ≡ w) }
    ensures none { IfNone result ((r : V14) → code_v14 r ≡ w → ⊥) }
{
    let z = size_at(w, 18)?;
    let d = q_register(w, 13);
    let m = q_register(w, 1);
    let name = reverse_name(w - (z.get() << 18) - (d.get() << 13) - (m.get() << 1))?;
    if !may_reverse(name, z, d, m) {
        return None;
    }
    Some(V14 { name, z, d, m })
}

/// The code of `vrev64`, `vrev32`, `vrev16`, with the first halfword in bits 31 to 16.
pub fn encode_v14(r: &V14) -> u32
    ensures value { result ≡ code_v14 r.now }
{
    base_of_reverse(r.name) + (r.z.get() << 18) + (r.d.get() << 13) + (r.m.get() << 1)
}

/// `vmov`, `vmvn`, `vorr`, `vbic` with an immediate
fn decode_v15(w: u32) -> Option<V15>
    ensures found { IfSome result (λ r. code_v15 r ≡ w) }
    ensures none { IfNone result ((r : V15) → code_v15 r ≡ w → ⊥) }
{
    let i = bit(w, 28);
    let i3 = Below::new(bits(w, 16, 3));
    let d = q_register(w, 13);
    let cm = Below::of(bits(w, 8, 4))?;
    let op = bit(w, 5);
    let i4 = Below::new(bits(w, 0, 4));
    let r = V15 {
        i,
        i3,
        d,
        cm,
        op,
        i4,
    };
    if encode_v15(&r) != w {
        return None;
    }
    Some(r)
}

/// The code of `vmov`, `vmvn`, `vorr`, `vbic` with an immediate, with the first halfword in bits 31 to 16.
pub fn encode_v15(r: &V15) -> u32
    ensures value { result ≡ code_v15 r.now }
{
    0xef80_0050
        + (r.i.get() << 28)
        + (r.i3.get() << 16)
        + (r.d.get() << 13)
        + (r.cm.get() << 8)
        + (r.op.get() << 5)
        + r.i4.get()
}

/// The operation of the row V16 whose code without its fields is this.
fn narrowing_name(base: u32) -> Option<NarrowingName>
    ensures found { IfSome result (λ x. narrowing_base x ≡ base) }
    ensures none { IfNone result ((x : NarrowingName) → narrowing_base x ≡ base → ⊥) }
{
    match base {
        0xfe31_0e81 => Some(NarrowingName::Plain),
        0xee31_0e81 => Some(NarrowingName::ToUnsigned),
        0xee33_0e01 => Some(NarrowingName::Signed),
        0xfe33_0e01 => Some(NarrowingName::Unsigned),
        _ => None,
    }
}

/// The code of a name of the row V16 without its fields.
pub fn base_of_narrowing(name: NarrowingName) -> u32
    ensures value { result ≡ narrowing_base name }
{
    match name {
        NarrowingName::Plain => 0xfe31_0e81,
        NarrowingName::ToUnsigned => 0xee31_0e81,
        NarrowingName::Signed => 0xee33_0e01,
        NarrowingName::Unsigned => 0xfe33_0e01,
    }
}

/// `vmovnb`, `vmovnt`, `vqmovnb`, `vqmovnt`, `vqmovunb` or `vqmovunt`
fn decode_v16(w: u32) -> Option<V16>
    ensures found { IfSome result (λ r. code_v16 r ≡ w) }
    ensures none { IfNone result ((r : V16) → code_v16 r ≡ w → ⊥) }
{
    let z = bit(w, 18);
    let t = bit(w, 12);
    let d = q_register(w, 13);
    let m = q_register(w, 1);
    let name = narrowing_name(
        w - (z.get() << 18) - (t.get() << 12) - (d.get() << 13) - (m.get() << 1),
    )?;
    Some(V16 { name, z, t, d, m })
}

/// The code of `vmovnb`, `vmovnt`, `vqmovnb`, `vqmovnt`, `vqmovunb` or `vqmovunt`, with the first halfword in bits 31 to 16.
pub fn encode_v16(r: &V16) -> u32
    ensures value { result ≡ code_v16 r.now }
{
    base_of_narrowing(r.name)
        + (r.z.get() << 18)
        + (r.t.get() << 12)
        + (r.d.get() << 13)
        + (r.m.get() << 1)
}

/// The instruction of the rows V12 to V16 whose code is w, with the first halfword in bits 31 to 16, or None exactly where none of them
/// has it: DDI0553, "T32 instruction set encoding", the 32-bit codes.
pub fn decode_one(w: u32) -> Option<Vector>
    ensures found { IfSome result (λ v. vector_code v ≡ w) }
    ensures no_v12 { IfNone result ((r : V12) → code_v12 r ≡ w → ⊥) }
    ensures no_v13 { IfNone result ((r : V13) → code_v13 r ≡ w → ⊥) }
    ensures no_v14 { IfNone result ((r : V14) → code_v14 r ≡ w → ⊥) }
    ensures no_v15 { IfNone result ((r : V15) → code_v15 r ≡ w → ⊥) }
    ensures no_v16 { IfNone result ((r : V16) → code_v16 r ≡ w → ⊥) }
{
    if let Some(r) = decode_v12(w) {
        return Some(Vector::V12(r));
    }
    if let Some(r) = decode_v13(w) {
        return Some(Vector::V13(r));
    }
    if let Some(r) = decode_v14(w) {
        return Some(Vector::V14(r));
    }
    if let Some(r) = decode_v15(w) {
        return Some(Vector::V15(r));
    }
    if let Some(r) = decode_v16(w) {
        return Some(Vector::V16(r));
    }
    None
}
