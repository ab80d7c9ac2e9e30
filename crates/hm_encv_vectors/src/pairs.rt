//! Rows of two vectors.

ghost use Rattle.std.specs.Prelude.{◌≡◌, IfSome, IfNone};
ghost use Rattle.hm_isa.specs.declared.vectors.AddName.{AddName};
ghost use Rattle.hm_isa.specs.declared.vectors.BitwiseName.{BitwiseName};
ghost use Rattle.hm_isa.specs.declared.vectors.SignedName.{SignedName};
ghost use Rattle.hm_isa.specs.declared.vectors.VectorShiftName.{VectorShiftName};
ghost use Rattle.hm_isa.specs.declared.vectors.DoublingName.{DoublingName};
ghost use Rattle.hm_isa.specs.declared.vectors.HighName.{HighName};
ghost use Rattle.hm_isa.specs.declared.vectors.CarryName.{CarryName};
ghost use Rattle.hm_isa.specs.declared.vectors.ComplexSumName.{ComplexSumName};
ghost use Rattle.hm_isa.specs.declared.vectors.V1.{V1};
ghost use Rattle.hm_isa.specs.declared.vectors.V2.{V2};
ghost use Rattle.hm_isa.specs.declared.vectors.V3.{V3};
ghost use Rattle.hm_isa.specs.declared.vectors.V4.{V4};
ghost use Rattle.hm_isa.specs.declared.vectors.V5.{V5};
ghost use Rattle.hm_isa.specs.declared.vectors.V6.{V6};
ghost use Rattle.hm_isa.specs.declared.vectors.V7.{V7};
ghost use Rattle.hm_isa.specs.declared.vectors.V8.{V8};
ghost use Rattle.hm_isa.specs.declared.vectors.V9.{V9};
ghost use Rattle.hm_isa.specs.Code.{add_base, bitwise_base, signed_base, vector_shift_base, doubling_base, high_base, carry_base, complex_sum_base};
ghost use Rattle.hm_isa.specs.Code.{code_v1, code_v2, code_v3, code_v4, code_v5, code_v6, code_v7, code_v8, code_v9, vector_code};
ghost use Rattle.hm_isa.specs.Rules.{is_complex_sum, is_widened};

use hm_code_fields::{bit, place_registers, q_register, size_at};
use hm_isa::{
    AddName, BitwiseName, CarryName, ComplexSumName, DoublingName, ElementSize, HighName,
    QRegister, SignedName, V1, V2, V3, V4, V5, V6, V7, V8, V9, Vector, VectorShiftName,
};

/// The operation of the row V1 whose code without its fields is this.
fn add_name(base: u32) -> Option<AddName>
    ensures found { IfSome result (λ x. add_base x ≡ base) }
    ensures none { IfNone result ((x : AddName) → add_base x ≡ base → ⊥) }
{
    match base {
        0xef00_0840 => Some(AddName::Add),
        0xff00_0840 => Some(AddName::Sub),
        0xef00_0950 => Some(AddName::Mul),
        _ => None,
    }
}

/// The code of a name of the row V1 without its fields.
pub fn base_of_add(name: AddName) -> u32
    ensures value { result ≡ add_base name }
{
    match name {
        AddName::Add => 0xef00_0840,
        AddName::Sub => 0xff00_0840,
        AddName::Mul => 0xef00_0950,
    }
}

/// `vadd`, `vsub`, `vmul` of elements
fn decode_v1(w: u32) -> Option<V1>
    ensures found { IfSome result (λ r. code_v1 r ≡ w) }
    ensures none { IfNone result ((r : V1) → code_v1 r ≡ w → ⊥) }
{
    let z = size_at(w, 20)?;
    let n = q_register(w, 17);
    let d = q_register(w, 13);
    let m = q_register(w, 1);
    let name = add_name(w - (z.get() << 20) - place_registers(n, d, m))?;
    Some(V1 { name, z, n, d, m })
}

/// The code of `vadd`, `vsub`, `vmul` of elements, with the first halfword in bits 31 to 16.
pub fn encode_v1(r: &V1) -> u32
    ensures value { result ≡ code_v1 r.now }
{
    base_of_add(r.name) + (r.z.get() << 20) + place_registers(r.n, r.d, r.m)
}

/// The operation of the row V2 whose code without its fields is this.
fn bitwise_name(base: u32) -> Option<BitwiseName>
    ensures found { IfSome result (λ x. bitwise_base x ≡ base) }
    ensures none { IfNone result ((x : BitwiseName) → bitwise_base x ≡ base → ⊥) }
{
    match base {
        0xef00_0150 => Some(BitwiseName::And),
        0xef10_0150 => Some(BitwiseName::Bic),
        0xef20_0150 => Some(BitwiseName::Orr),
        0xef30_0150 => Some(BitwiseName::Orn),
        0xff00_0150 => Some(BitwiseName::Eor),
        _ => None,
    }
}

/// The code of a name of the row V2 without its fields.
pub fn base_of_bitwise(name: BitwiseName) -> u32
    ensures value { result ≡ bitwise_base name }
{
    match name {
        BitwiseName::And => 0xef00_0150,
        BitwiseName::Bic => 0xef10_0150,
        BitwiseName::Orr => 0xef20_0150,
        BitwiseName::Orn => 0xef30_0150,
        BitwiseName::Eor => 0xff00_0150,
    }
}

/// `vand`, `vbic`, `vorr`, `vorn`, `veor`
fn decode_v2(w: u32) -> Option<V2>
    ensures found { IfSome result (λ r. code_v2 r ≡ w) }
    ensures none { IfNone result ((r : V2) → code_v2 r ≡ w → ⊥) }
{
    let n = q_register(w, 17);
    let d = q_register(w, 13);
    let m = q_register(w, 1);
    let name = bitwise_name(w - place_registers(n, d, m))?;
    Some(V2 { name, n, d, m })
}

/// The code of `vand`, `vbic`, `vorr`, `vorn`, `veor`, with the first halfword in bits 31 to 16.
pub fn encode_v2(r: &V2) -> u32
    ensures value { result ≡ code_v2 r.now }
{
    base_of_bitwise(r.name) + place_registers(r.n, r.d, r.m)
}

/// The operation of the row V3 whose code without its fields is this.
fn signed_name(base: u32) -> Option<SignedName>
    ensures found { IfSome result (λ x. signed_base x ≡ base) }
    ensures none { IfNone result ((x : SignedName) → signed_base x ≡ base → ⊥) }
{
    match base {
        0xef00_0640 => Some(SignedName::Max),
        0xef00_0650 => Some(SignedName::Min),
        0xef00_0740 => Some(SignedName::Abd),
        0xef00_0040 => Some(SignedName::Hadd),
        0xef00_0140 => Some(SignedName::Rhadd),
        0xef00_0240 => Some(SignedName::Hsub),
        0xef00_0050 => Some(SignedName::Qadd),
        0xef00_0250 => Some(SignedName::Qsub),
        _ => None,
    }
}

/// The code of a name of the row V3 without its fields.
pub fn base_of_signed(name: SignedName) -> u32
    ensures value { result ≡ signed_base name }
{
    match name {
        SignedName::Max => 0xef00_0640,
        SignedName::Min => 0xef00_0650,
        SignedName::Abd => 0xef00_0740,
        SignedName::Hadd => 0xef00_0040,
        SignedName::Rhadd => 0xef00_0140,
        SignedName::Hsub => 0xef00_0240,
        SignedName::Qadd => 0xef00_0050,
        SignedName::Qsub => 0xef00_0250,
    }
}

/// `vmax`, `vmin`, `vabd`, `vhadd`, `vrhadd`, `vhsub`, `vqadd`, `vqsub` of elements
fn decode_v3(w: u32) -> Option<V3>
    ensures found { IfSome result (λ r. code_v3 r ≡ w) }
    ensures none { IfNone result ((r : V3) → code_v3 r ≡ w → ⊥) }
{
    let u = bit(w, 28);
    let z = size_at(w, 20)?;
    let n = q_register(w, 17);
    let d = q_register(w, 13);
    let m = q_register(w, 1);
    let name = signed_name(w - (u.get() << 28) - (z.get() << 20) - place_registers(n, d, m))?;
    Some(V3 {
        name,
        u,
        z,
        n,
        d,
        m,
    })
}

/// The code of `vmax`, `vmin`, `vabd`, `vhadd`, `vrhadd`, `vhsub`, `vqadd`, `vqsub` of elements, with the first halfword in bits 31 to 16.
pub fn encode_v3(r: &V3) -> u32
    ensures value { result ≡ code_v3 r.now }
{
    base_of_signed(r.name) + (r.u.get() << 28) + (r.z.get() << 20) + place_registers(r.n, r.d, r.m)
}

/// The operation of the row V4 whose code without its fields is this.
fn vector_shift_name(base: u32) -> Option<VectorShiftName>
    ensures found { IfSome result (λ x. vector_shift_base x ≡ base) }
    ensures none { IfNone result ((x : VectorShiftName) → vector_shift_base x ≡ base → ⊥) }
{
    match base {
        0xef00_0440 => Some(VectorShiftName::Shl),
        0xef00_0450 => Some(VectorShiftName::Qshl),
        0xef00_0540 => Some(VectorShiftName::Rshl),
        0xef00_0550 => Some(VectorShiftName::Qrshl),
        _ => None,
    }
}

/// The code of a name of the row V4 without its fields.
pub fn base_of_vector_shift(name: VectorShiftName) -> u32
    ensures value { result ≡ vector_shift_base name }
{
    match name {
        VectorShiftName::Shl => 0xef00_0440,
        VectorShiftName::Qshl => 0xef00_0450,
        VectorShiftName::Rshl => 0xef00_0540,
        VectorShiftName::Qrshl => 0xef00_0550,
    }
}

/// `vshl`, `vqshl`, `vrshl`, `vqrshl` by elements
fn decode_v4(w: u32) -> Option<V4>
    ensures found { IfSome result (λ r. code_v4 r ≡ w) }
    ensures none { IfNone result ((r : V4) → code_v4 r ≡ w → ⊥) }
{
    let u = bit(w, 28);
    let z = size_at(w, 20)?;
    let n = q_register(w, 17);
    let d = q_register(w, 13);
    let m = q_register(w, 1);
    let name = vector_shift_name(w - (u.get() << 28) - (z.get() << 20) - place_registers(n, d, m))?;
    Some(V4 {
        name,
        u,
        z,
        n,
        d,
        m,
    })
}

/// The code of `vshl`, `vqshl`, `vrshl`, `vqrshl` by elements, with the first halfword in bits 31 to 16.
pub fn encode_v4(r: &V4) -> u32
    ensures value { result ≡ code_v4 r.now }
{
    base_of_vector_shift(r.name)
        + (r.u.get() << 28)
        + (r.z.get() << 20)
        + place_registers(r.n, r.d, r.m)
}

/// The operation of the row V5 whose code without its fields is this.
fn doubling_name(base: u32) -> Option<DoublingName>
    ensures found { IfSome result (λ x. doubling_base x ≡ base) }
    ensures none { IfNone result ((x : DoublingName) → doubling_base x ≡ base → ⊥) }
{
    match base {
        0xef00_0b40 => Some(DoublingName::Qdmulh),
        0xff00_0b40 => Some(DoublingName::Qrdmulh),
        _ => None,
    }
}

/// The code of a name of the row V5 without its fields.
pub fn base_of_doubling(name: DoublingName) -> u32
    ensures value { result ≡ doubling_base name }
{
    match name {
        DoublingName::Qdmulh => 0xef00_0b40,
        DoublingName::Qrdmulh => 0xff00_0b40,
    }
}

/// `vqdmulh`, `vqrdmulh`
fn decode_v5(w: u32) -> Option<V5>
    ensures found { IfSome result (λ r. code_v5 r ≡ w) }
    ensures none { IfNone result ((r : V5) → code_v5 r ≡ w → ⊥) }
{
    let z = size_at(w, 20)?;
    let n = q_register(w, 17);
    let d = q_register(w, 13);
    let m = q_register(w, 1);
    let name = doubling_name(w - (z.get() << 20) - place_registers(n, d, m))?;
    Some(V5 { name, z, n, d, m })
}

/// The code of `vqdmulh`, `vqrdmulh`, with the first halfword in bits 31 to 16.
pub fn encode_v5(r: &V5) -> u32
    ensures value { result ≡ code_v5 r.now }
{
    base_of_doubling(r.name) + (r.z.get() << 20) + place_registers(r.n, r.d, r.m)
}

/// Whether results of two words overwrite no word that is still to be read.
fn may_widen(z: ElementSize, d: QRegister, n: QRegister, m: QRegister) -> bool
    ensures value { result ≡ is_widened z.value d.value n.value m.value }
{
    z.get() != 2 || (d.get() != n.get() && d.get() != m.get())
}

/// `vmullb`, `vmullt`
fn decode_v6(w: u32) -> Option<V6>
    ensures found { IfSome result (λ r. code_v6 r ≡ w) }
    ensures none { IfNone result ((r : V6) → code_v6 r ≡ w → ⊥) }
{
    let u = bit(w, 28);
    let z = size_at(w, 20)?;
    let t = bit(w, 12);
    let n = q_register(w, 17);
    let d = q_register(w, 13);
    let m = q_register(w, 1);
    if !may_widen(z, d, n, m) {
        return None;
    }
    let r = V6 { u, z, t, n, d, m };
    if encode_v6(&r) != w {
        return None;
    }
    Some(r)
}

/// The code of `vmullb`, `vmullt`, with the first halfword in bits 31 to 16.
pub fn encode_v6(r: &V6) -> u32
    ensures value { result ≡ code_v6 r.now }
{
    0xee01_0e00
        + (r.u.get() << 28)
        + (r.z.get() << 20)
        + (r.t.get() << 12)
        + place_registers(r.n, r.d, r.m)
}

/// The operation of the row V7 whose code without its fields is this.
fn high_name(base: u32) -> Option<HighName>
    ensures found { IfSome result (λ x. high_base x ≡ base) }
    ensures none { IfNone result ((x : HighName) → high_base x ≡ base → ⊥) }
{
    match base {
        0xee01_0e01 => Some(HighName::Mulh),
        0xee01_1e01 => Some(HighName::Rmulh),
        _ => None,
    }
}

/// The code of a name of the row V7 without its fields.
pub fn base_of_high(name: HighName) -> u32
    ensures value { result ≡ high_base name }
{
    match name {
        HighName::Mulh => 0xee01_0e01,
        HighName::Rmulh => 0xee01_1e01,
    }
}

/// `vmulh`, `vrmulh`
fn decode_v7(w: u32) -> Option<V7>
    ensures found { IfSome result (λ r. code_v7 r ≡ w) }
    ensures none { IfNone result ((r : V7) → code_v7 r ≡ w → ⊥) }
{
    let u = bit(w, 28);
    let z = size_at(w, 20)?;
    let n = q_register(w, 17);
    let d = q_register(w, 13);
    let m = q_register(w, 1);
    let name = high_name(w - (u.get() << 28) - (z.get() << 20) - place_registers(n, d, m))?;
    Some(V7 {
        name,
        u,
        z,
        n,
        d,
        m,
    })
}

/// The code of `vmulh`, `vrmulh`, with the first halfword in bits 31 to 16.
pub fn encode_v7(r: &V7) -> u32
    ensures value { result ≡ code_v7 r.now }
{
    base_of_high(r.name) + (r.u.get() << 28) + (r.z.get() << 20) + place_registers(r.n, r.d, r.m)
}

/// The operation of the row V8 whose code without its fields is this.
fn carry_name(base: u32) -> Option<CarryName>
    ensures found { IfSome result (λ x. carry_base x ≡ base) }
    ensures none { IfNone result ((x : CarryName) → carry_base x ≡ base → ⊥) }
{
    match base {
        0xee30_0f00 => Some(CarryName::Adc),
        0xee30_1f00 => Some(CarryName::Adci),
        0xfe30_0f00 => Some(CarryName::Sbc),
        0xfe30_1f00 => Some(CarryName::Sbci),
        _ => None,
    }
}

/// The code of a name of the row V8 without its fields.
pub fn base_of_carry(name: CarryName) -> u32
    ensures value { result ≡ carry_base name }
{
    match name {
        CarryName::Adc => 0xee30_0f00,
        CarryName::Adci => 0xee30_1f00,
        CarryName::Sbc => 0xfe30_0f00,
        CarryName::Sbci => 0xfe30_1f00,
    }
}

/// `vadc`, `vadci`, `vsbc`, `vsbci`
fn decode_v8(w: u32) -> Option<V8>
    ensures found { IfSome result (λ r. code_v8 r ≡ w) }
    ensures none { IfNone result ((r : V8) → code_v8 r ≡ w → ⊥) }
{
    let n = q_register(w, 17);
    let d = q_register(w, 13);
    let m = q_register(w, 1);
    let name = carry_name(w - place_registers(n, d, m))?;
    Some(V8 { name, n, d, m })
}

/// The code of `vadc`, `vadci`, `vsbc`, `vsbci`, with the first halfword in bits 31 to 16.
pub fn encode_v8(r: &V8) -> u32
    ensures value { result ≡ code_v8 r.now }
{
    base_of_carry(r.name) + place_registers(r.n, r.d, r.m)
}

/// The operation of the row V9 whose code without its fields is this.
fn complex_sum_name(base: u32) -> Option<ComplexSumName>
    ensures found { IfSome result (λ x. complex_sum_base x ≡ base) }
    ensures none { IfNone result ((x : ComplexSumName) → complex_sum_base x ≡ base → ⊥) }
{
    match base {
        0xfe00_0f00 => Some(ComplexSumName::Cadd),
        0xee00_0f00 => Some(ComplexSumName::Hcadd),
        _ => None,
    }
}

/// The code of a name of the row V9 without its fields.
pub fn base_of_complex_sum(name: ComplexSumName) -> u32
    ensures value { result ≡ complex_sum_base name }
{
    match name {
        ComplexSumName::Cadd => 0xfe00_0f00,
        ComplexSumName::Hcadd => 0xee00_0f00,
    }
}

/// Whether results overwrite no neighbour that is still to be read.
fn may_be_complex_sum(z: ElementSize, d: QRegister, m: QRegister) -> bool
    ensures value { result ≡ is_complex_sum z.value d.value m.value }
{
    z.get() != 2 || d.get() != m.get()
}

/// `vcadd`, `vhcadd`
fn decode_v9(w: u32) -> Option<V9>
    ensures found { IfSome result (λ r. code_v9 r ≡ w) }
    ensures none { IfNone result ((r : V9) → code_v9 r ≡ w → ⊥) }
{
    let z = size_at(w, 20)?;
    let t = bit(w, 12);
    let n = q_register(w, 17);
    let d = q_register(w, 13);
    let m = q_register(w, 1);
    let name = complex_sum_name(w - (z.get() << 20) - (t.get() << 12) - place_registers(n, d, m))?;
    if !may_be_complex_sum(z, d, m) {
        return None;
    }
    Some(V9 {
        name,
        z,
        t,
        n,
        d,
        m,
    })
}

/// The code of `vcadd`, `vhcadd`, with the first halfword in bits 31 to 16.
pub fn encode_v9(r: &V9) -> u32
    ensures value { result ≡ code_v9 r.now }
{
    base_of_complex_sum(r.name)
        + (r.z.get() << 20)
        + (r.t.get() << 12)
        + place_registers(r.n, r.d, r.m)
}

/// The instruction of the rows V1 to V9 whose code is w, with the first halfword in bits 31 to 16, or None exactly where none of them
/// has it: DDI0553, "T32 instruction set encoding", the 32-bit codes.
pub fn decode_pair(w: u32) -> Option<Vector>
    ensures found { IfSome result (λ v. vector_code v ≡ w) }
    ensures no_v1 { IfNone result ((r : V1) → code_v1 r ≡ w → ⊥) }
    ensures no_v2 { IfNone result ((r : V2) → code_v2 r ≡ w → ⊥) }
    ensures no_v3 { IfNone result ((r : V3) → code_v3 r ≡ w → ⊥) }
    ensures no_v4 { IfNone result ((r : V4) → code_v4 r ≡ w → ⊥) }
    ensures no_v5 { IfNone result ((r : V5) → code_v5 r ≡ w → ⊥) }
    ensures no_v6 { IfNone result ((r : V6) → code_v6 r ≡ w → ⊥) }
    ensures no_v7 { IfNone result ((r : V7) → code_v7 r ≡ w → ⊥) }
    ensures no_v8 { IfNone result ((r : V8) → code_v8 r ≡ w → ⊥) }
    ensures no_v9 { IfNone result ((r : V9) → code_v9 r ≡ w → ⊥) }
{
    if let Some(r) = decode_v1(w) {
        return Some(Vector::V1(r));
    }
    if let Some(r) = decode_v2(w) {
        return Some(Vector::V2(r));
    }
    if let Some(r) = decode_v3(w) {
        return Some(Vector::V3(r));
    }
    if let Some(r) = decode_v4(w) {
        return Some(Vector::V4(r));
    }
    if let Some(r) = decode_v5(w) {
        return Some(Vector::V5(r));
    }
    if let Some(r) = decode_v6(w) {
        return Some(Vector::V6(r));
    }
    if let Some(r) = decode_v7(w) {
        return Some(Vector::V7(r));
    }
    if let Some(r) = decode_v8(w) {
        return Some(Vector::V8(r));
    }
    if let Some(r) = decode_v9(w) {
        return Some(Vector::V9(r));
    }
    None
}
