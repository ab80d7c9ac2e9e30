//! The rows of the vector codes: DDI0553, "M-profile Vector Extension".

ghost use Rattle.std.specs.Prelude.{◌≡◌, ◌≢◌, ◌<◌, ◌≤◌, ◌*◌, IsTrue};
ghost use Rattle.hm_isa.specs.Letters.{constant_shift_amount, constant_shift_bits, constant_shift_size};
ghost use Rattle.hm_isa.specs.Words.{zero_as_32};
ghost use Rattle.hm_isa.specs.Rules.{has_size, is_reversed, is_shifted_by, is_signed_by, is_complex_sum, is_widened};

use crate::fields::{Below, Bit, ElementSize, QRegister, Register};
use crate::words::zero_as_32;

/// The size of the elements of V18, `vdup`, and of a sum of products of V22, `vmladav` and `vmladava`, where it tells codes apart as a name does:
/// DDI0553, "VDUP" and "VMLADAV".
#[derive(Clone, Copy)]
pub enum Element {
    /// 8 bits
    Bytes,
    /// 16 bits
    Halves,
    /// 32 bits
    Words,
}

/// The operation of the row V1, `vadd`, `vsub` or `vmul`: DDI0553, "VADD (vector)", "VSUB (vector)" and "VMUL (vector)".
#[derive(Clone, Copy)]
pub enum AddName {
    /// `vadd`
    Add,
    /// `vsub`
    Sub,
    /// `vmul`
    Mul,
}

/// `vadd`, `vsub`, `vmul` of elements, as `vadd.i32 qd,qn,qm`: DDI0553, "VADD (vector)", "VSUB (vector)" and "VMUL (vector)".
#[derive(Clone, Copy)]
pub struct V1 {
    pub name: AddName,
    /// The size of the elements.
    pub z: ElementSize,
    /// The register of the first operands.
    pub n: QRegister,
    /// The register that gets the result.
    pub d: QRegister,
    /// The register of the second operands.
    pub m: QRegister,
}

/// The operation of the row V2, `vand`, `vbic`, `vorr`, `vorn` or `veor`: DDI0553, "VAND", "VBIC (register)", "VORR", "VORN" and "VEOR".
#[derive(Clone, Copy)]
pub enum BitwiseName {
    /// `vand`
    And,
    /// `vbic`
    Bic,
    /// `vorr`
    Orr,
    /// `vorn`
    Orn,
    /// `veor`
    Eor,
}

/// `vand`, `vbic`, `vorr`, `vorn`, `veor qd,qn,qm`: DDI0553, "VAND", "VBIC (register)", "VORR", "VORN" and "VEOR".
#[derive(Clone, Copy)]
pub struct V2 {
    pub name: BitwiseName,
    /// The register of the first operands.
    pub n: QRegister,
    /// The register that gets the result.
    pub d: QRegister,
    /// The register of the second operands.
    pub m: QRegister,
}

/// The operation of the row V3, `vmax`, `vmin`, `vabd`, `vhadd`, `vrhadd`, `vhsub`, `vqadd` or `vqsub`: DDI0553, "VMAX, VMAXA", "VMIN,
/// VMINA", "VABD", "VHADD", "VRHADD", "VHSUB", "VQADD" and "VQSUB".
#[derive(Clone, Copy)]
pub enum SignedName {
    /// `vmax`
    Max,
    /// `vmin`
    Min,
    /// `vabd`
    Abd,
    /// `vhadd`
    Hadd,
    /// `vrhadd`
    Rhadd,
    /// `vhsub`
    Hsub,
    /// `vqadd`
    Qadd,
    /// `vqsub`
    Qsub,
}

/// `vmax`, `vmin`, `vabd`, `vhadd`, `vrhadd`, `vhsub`, `vqadd`, `vqsub` of elements, as `vmax.s8 qd,qn,qm`: DDI0553, "VMAX,
/// VMAXA", "VMIN, VMINA", "VABD", "VHADD", "VRHADD", "VHSUB", "VQADD" and "VQSUB".
#[derive(Clone, Copy)]
pub struct V3 {
    pub name: SignedName,
    /// 1 for unsigned elements.
    pub u: Bit,
    /// The size of the elements.
    pub z: ElementSize,
    /// The register of the first operands.
    pub n: QRegister,
    /// The register that gets the result.
    pub d: QRegister,
    /// The register of the second operands.
    pub m: QRegister,
}

/// The operation of the row V4, `vshl`, `vqshl`, `vrshl` or `vqrshl`: DDI0553, "VSHL", "VQSHL, VQSHLU", "VRSHL" and "VQRSHL".
#[derive(Clone, Copy)]
pub enum VectorShiftName {
    /// `vshl`
    Shl,
    /// `vqshl`
    Qshl,
    /// `vrshl`
    Rshl,
    /// `vqrshl`
    Qrshl,
}

/// `vshl`, `vqshl`, `vrshl`, `vqrshl` of elements by elements, as `vshl.s8 qd,qm,qn`: DDI0553, "VSHL", "VQSHL, VQSHLU", "VRSHL" and
/// "VQRSHL". A count is the signed low byte of an element, and shifts to the right where it is negative.
#[derive(Clone, Copy)]
pub struct V4 {
    pub name: VectorShiftName,
    /// 1 for unsigned elements.
    pub u: Bit,
    /// The size of the elements.
    pub z: ElementSize,
    /// The register of the counts.
    pub n: QRegister,
    /// The register that gets the result.
    pub d: QRegister,
    /// The register that is shifted.
    pub m: QRegister,
}

/// The operation of the row V5, `vqdmulh` or `vqrdmulh`: DDI0553, "VQDMULH, VQRDMULH (vector)".
#[derive(Clone, Copy)]
pub enum DoublingName {
    /// `vqdmulh`
    Qdmulh,
    /// `vqrdmulh`
    Qrdmulh,
}

/// `vqdmulh`, `vqrdmulh`, as `vqdmulh.s8 qd,qn,qm`: DDI0553, "VQDMULH, VQRDMULH (vector)".
#[derive(Clone, Copy)]
pub struct V5 {
    pub name: DoublingName,
    /// The size of the elements.
    pub z: ElementSize,
    /// The register of the first operands.
    pub n: QRegister,
    /// The register that gets the result.
    pub d: QRegister,
    /// The register of the second operands.
    pub m: QRegister,
}

/// `vmullb`, `vmullt`, as `vmullb.s8 qd,qn,qm`: DDI0553, "VMULL (integer)".
#[derive(Clone, Copy)]
pub struct V6 {
    /// 1 for unsigned elements.
    pub u: Bit,
    /// The size of the elements.
    pub z: ElementSize,
    /// 1 for the elements with odd numbers.
    pub t: Bit,
    /// The register of the first operands.
    pub n: QRegister,
    /// The register that gets the result.
    pub d: QRegister,
    /// The register of the second operands.
    pub m: QRegister,
    pub ghost rule: { IsTrue (is_widened z.value d.value n.value m.value) },
}

/// The operation of the row V7, `vmulh` or `vrmulh`: DDI0553, "VMULH, VRMULH".
#[derive(Clone, Copy)]
pub enum HighName {
    /// `vmulh`
    Mulh,
    /// `vrmulh`
    Rmulh,
}

/// `vmulh`, `vrmulh`, as `vmulh.s8 qd,qn,qm`: DDI0553, "VMULH, VRMULH".
#[derive(Clone, Copy)]
pub struct V7 {
    pub name: HighName,
    /// 1 for unsigned elements.
    pub u: Bit,
    /// The size of the elements.
    pub z: ElementSize,
    /// The register of the first operands.
    pub n: QRegister,
    /// The register that gets the result.
    pub d: QRegister,
    /// The register of the second operands.
    pub m: QRegister,
}

/// The operation of the row V8, `vadc`, `vadci`, `vsbc` or `vsbci`: DDI0553, "VADC" and "VSBC".
#[derive(Clone, Copy)]
pub enum CarryName {
    /// `vadc`
    Adc,
    /// `vadci`, which begins with a carry of 0
    Adci,
    /// `vsbc`
    Sbc,
    /// `vsbci`, which begins with a carry of 1
    Sbci,
}

/// `vadc`, `vadci`, `vsbc`, `vsbci`, as `vadc.i32 qd,qn,qm`: DDI0553, "VADC" and "VSBC".
#[derive(Clone, Copy)]
pub struct V8 {
    pub name: CarryName,
    /// The register of the first operands.
    pub n: QRegister,
    /// The register that gets the result.
    pub d: QRegister,
    /// The register of the second operands.
    pub m: QRegister,
}

/// The operation of the row V9, `vcadd` or `vhcadd`: DDI0553, "VCADD" and "VHCADD".
#[derive(Clone, Copy)]
pub enum ComplexSumName {
    /// `vcadd`
    Cadd,
    /// `vhcadd`
    Hcadd,
}

/// `vcadd`, `vhcadd`, as `vcadd.i8 qd,qn,qm,#90`: DDI0553, "VCADD" and "VHCADD".
#[derive(Clone, Copy)]
pub struct V9 {
    pub name: ComplexSumName,
    /// The size of the elements.
    pub z: ElementSize,
    /// 1 for a rotation by 270 degrees, 0 for one by 90.
    pub t: Bit,
    /// The register of the first operands.
    pub n: QRegister,
    /// The register that gets the result.
    pub d: QRegister,
    /// The register of the second operands.
    pub m: QRegister,
    pub ghost rule: { IsTrue (is_complex_sum z.value d.value m.value) },
}

/// The operation of the row V10, `vadd`, `vsub`, `vmul`, `vhadd`, `vhsub`, `vqadd`, `vqsub`, `vqdmulh`, `vqrdmulh`, `vmla` or `vmlas`:
/// DDI0553, the forms with a scalar of "VADD (vector)", "VSUB (vector)", "VMUL (vector)", "VHADD", "VHSUB", "VQADD", "VQSUB" and
/// "VQDMULH, VQRDMULH (vector)", and "VMLA (vector by scalar plus vector)" and "VMLAS (vector by vector plus scalar)".
#[derive(Clone, Copy)]
pub enum ScalarName {
    /// `vadd`
    Add,
    /// `vsub`
    Sub,
    /// `vmul`
    Mul,
    /// `vhadd`
    Hadd,
    /// `vhsub`
    Hsub,
    /// `vqadd`
    Qadd,
    /// `vqsub`
    Qsub,
    /// `vqdmulh`
    Qdmulh,
    /// `vqrdmulh`
    Qrdmulh,
    /// `vmla`
    Mla,
    /// `vmlas`
    Mlas,
}

/// `vadd`, `vsub`, `vmul`, `vhadd`, `vhsub`, `vqadd`, `vqsub`, `vqdmulh`, `vqrdmulh`, `vmla`, `vmlas` of elements and a core
/// register, as `vadd.i8 qd,qn,rm`: DDI0553, the forms with a scalar of "VADD (vector)", "VSUB (vector)", "VMUL (vector)", "VHADD",
/// "VHSUB", "VQADD", "VQSUB" and "VQDMULH, VQRDMULH (vector)", and "VMLA (vector by scalar plus vector)" and "VMLAS (vector by vector
/// plus scalar)". `u` is 0 where the name says nothing of signs.
#[derive(Clone, Copy)]
pub struct V10 {
    pub name: ScalarName,
    /// 1 for unsigned elements.
    pub u: Bit,
    /// The size of the elements.
    pub z: ElementSize,
    /// The register of the first operands.
    pub n: QRegister,
    /// The register that gets the result.
    pub d: QRegister,
    /// The register of the second operand.
    pub m: Register,
    pub ghost signs: { IsTrue (is_signed_by name u.value) },
    pub ghost not_sp: { m.value ≢ 13 },
    pub ghost not_pc: { m.value ≢ 15 },
}

/// The operation of the row V11, `vshr`, `vrshr`, `vqshl`, `vqshlu`, `vshl`, `vsri` or `vsli`: DDI0553, "VSHR", "VRSHR", "VQSHL, VQSHLU",
/// "VSHL", "VSRI" and "VSLI".
#[derive(Clone, Copy)]
pub enum ConstantShiftName {
    /// `vshr`
    Shr,
    /// `vrshr`
    Rshr,
    /// `vqshl`
    Qshl,
    /// `vqshlu`
    Qshlu,
    /// `vshl`
    Shl,
    /// `vsri`
    Sri,
    /// `vsli`
    Sli,
}

/// `vshr`, `vrshr`, `vqshl`, `vqshlu`, `vshl`, `vsri`, `vsli` of elements by a constant, as `vshr.s8 qd,qm,#k`: DDI0553, "VSHR",
/// "VRSHR", "VQSHL, VQSHLU", "VSHL", "VSRI" and "VSLI". `u` is 0 where the name says nothing of signs.
#[derive(Clone, Copy)]
pub struct V11 {
    pub name: ConstantShiftName,
    /// 1 for unsigned elements.
    pub u: Bit,
    /// The size of the elements and the shift.
    ///
    /// The highest bit that is 1 tells the size: 8 to 15 is one of 8 bits, 16 to 31 of 16, 32 to 63 of 32. A shift by k to the
    /// left is the size and k, and one to the right twice the size less k.
    pub x: Below<64>,
    /// The register that gets the result.
    pub d: QRegister,
    /// The register that is shifted.
    pub m: QRegister,
    pub ghost signs: { IsTrue (is_shifted_by name u.value) },
    pub ghost size: { IsTrue (has_size x.value) },
}

impl V11 {
    /// V11: the size of the elements, which the highest bit of `x` tells: DDI0553, "VSHR", "VRSHR", "VQSHL, VQSHLU", "VSHL", "VSRI" and "VSLI".
    pub fn element_size(&self) -> ElementSize
        ensures value { result.value ≡ constant_shift_size self.now.x.value }
    {
        match self.x.get() {
            0..=15 => Below::new(0),
            16..=31 => Below::new(1),
            _ => Below::new(2),
        }
    }

    /// V11: how many bits the elements have: DDI0553, "VSHR", "VRSHR", "VQSHL, VQSHLU", "VSHL", "VSRI" and "VSLI".
    fn bits(&self) -> u32
        ensures value { result ≡ constant_shift_bits self.now.x.value }
        ensures least { result ≤ self.now.x.value }
        ensures most { self.now.x.value < 2 * result }
        ensures word { result ≤ 32 }
    {
        8 << self.element_size().get()
    }

    /// V11: by how many places it shifts, from 1 to 32 to the right and from 0 to 31 to the left: DDI0553, "VSHR", "VRSHR", "VQSHL, VQSHLU",
    /// "VSHL", "VSRI" and "VSLI".
    pub fn amount(&self) -> u32
        ensures value { result ≡ constant_shift_amount self.now.name self.now.x.value }
        ensures most { result ≤ 32 }
    {
        let x = self.x.get();
        let bits = self.bits();
        match self.name {
            ConstantShiftName::Shr | ConstantShiftName::Rshr | ConstantShiftName::Sri => {
                2 * bits - x
            }
            ConstantShiftName::Qshl
            | ConstantShiftName::Qshlu
            | ConstantShiftName::Shl
            | ConstantShiftName::Sli => x - bits,
        }
    }
}

/// `vshllb`, `vshllt` of 8 bits by less than 8, as `vshllb.s8 qd,qm,#k`; by 0 they are `vmovlb`, `vmovlt`. V12: DDI0553, "VSHLL"
/// and "VMOVL".
#[derive(Clone, Copy)]
pub struct LongBytes {
    /// 1 for unsigned elements.
    pub u: Bit,
    /// The shift.
    pub k: Below<8>,
    /// 1 for the elements with odd numbers.
    pub t: Bit,
    /// The register that gets the result.
    pub d: QRegister,
    /// The register of the operand.
    pub m: QRegister,
}

/// `vshllb`, `vshllt` of 16 bits by less than 16, as `vshllb.s16 qd,qm,#k`; by 0 they are `vmovlb`, `vmovlt`. V12: DDI0553,
/// "VSHLL" and "VMOVL".
#[derive(Clone, Copy)]
pub struct LongHalves {
    /// 1 for unsigned elements.
    pub u: Bit,
    /// The shift.
    pub k: Below<16>,
    /// 1 for the elements with odd numbers.
    pub t: Bit,
    /// The register that gets the result.
    pub d: QRegister,
    /// The register of the operand.
    pub m: QRegister,
}

/// `vshllb`, `vshllt` by the size of the elements, as `vshllb.s8 qd,qm,#8`. V12: DDI0553, "VSHLL".
#[derive(Clone, Copy)]
pub struct LongFull {
    /// 1 for unsigned elements.
    pub u: Bit,
    /// 0 for elements of 8 bits, 1 for 16.
    pub z: Bit,
    /// 1 for the elements with odd numbers.
    pub t: Bit,
    /// The register that gets the result.
    pub d: QRegister,
    /// The register of the operand.
    pub m: QRegister,
}

/// `vshllb`, `vshllt`, `vmovlb`, `vmovlt`: DDI0553, "VSHLL" and "VMOVL".
#[derive(Clone, Copy)]
pub enum V12 {
    Bytes(LongBytes),
    Halves(LongHalves),
    Full(LongFull),
}

/// The operation of the row V13 on elements, `vcls`, `vclz`, `vabs`, `vneg`, `vqabs` or `vqneg`: DDI0553, "VCLS", "VCLZ", "VABS
/// (vector)", "VNEG (vector)", "VQABS" and "VQNEG".
#[derive(Clone, Copy)]
pub enum OneName {
    /// `vcls`
    Cls,
    /// `vclz`
    Clz,
    /// `vabs`
    Abs,
    /// `vneg`
    Neg,
    /// `vqabs`
    Qabs,
    /// `vqneg`
    Qneg,
}

/// `vcls`, `vclz`, `vabs`, `vneg`, `vqabs`, `vqneg`, as `vabs.s8 qd,qm`. V13: DDI0553, "VCLS", "VCLZ", "VABS (vector)", "VNEG (vector)", "VQABS"
/// and "VQNEG".
#[derive(Clone, Copy)]
pub struct OneElement {
    pub name: OneName,
    /// The size of the elements.
    pub z: ElementSize,
    /// The register that gets the result.
    pub d: QRegister,
    /// The register of the operand.
    pub m: QRegister,
}

/// `vmvn qd,qm`. V13: DDI0553, "VMVN (register)".
#[derive(Clone, Copy)]
pub struct Invert {
    /// The register that gets the result.
    pub d: QRegister,
    /// The register of the operand.
    pub m: QRegister,
}

/// Operations on one vector, `vcls`, `vclz`, `vabs`, `vneg`, `vqabs`, `vqneg` and `vmvn`: DDI0553, "VCLS", "VCLZ", "VABS (vector)", "VNEG
/// (vector)", "VQABS", "VQNEG" and "VMVN (register)".
#[derive(Clone, Copy)]
pub enum V13 {
    Elements(OneElement),
    Not(Invert),
}

/// The operation of the row V14, `vrev64`, `vrev32` or `vrev16`: DDI0553, "VREV64", "VREV32" and "VREV16".
#[derive(Clone, Copy)]
pub enum ReverseName {
    /// `vrev64`
    Rev64,
    /// `vrev32`
    Rev32,
    /// `vrev16`
    Rev16,
}

/// `vrev64`, `vrev32`, `vrev16`, as `vrev64.8 qd,qm`: DDI0553, "VREV64", "VREV32" and "VREV16".
#[derive(Clone, Copy)]
pub struct V14 {
    pub name: ReverseName,
    /// The size of the elements.
    pub z: ElementSize,
    /// The register that gets the result.
    pub d: QRegister,
    /// The register of the operand.
    pub m: QRegister,
    pub ghost rule: { IsTrue (is_reversed name z.value d.value m.value) },
}

/// `vmov`, `vmvn`, `vorr`, `vbic` with an immediate, as `vmov.i32 qd,#x`: DDI0553, "VMOV (immediate) (vector)", "VMVN (immediate)",
/// "VORR (immediate)" and "VBIC (immediate)".
///
/// The immediate has eight bits, i, i3 and i4 from the highest on.
#[derive(Clone, Copy)]
pub struct V15 {
    /// Bit 7 of the immediate.
    pub i: Bit,
    /// Bits 6 to 4 of the immediate.
    pub i3: Below<8>,
    /// The register that gets the result.
    pub d: QRegister,
    /// The size of the elements, where the immediate stands in them and, with `op`, the operation.
    ///
    /// 15 would be an immediate in floating point, which is no value of this row.
    pub cm: Below<15>,
    /// Which one of the two operations that share a `cm`.
    pub op: Bit,
    /// Bits 3 to 0 of the immediate.
    pub i4: Below<16>,
}

/// The operation of the row V16, `vmovnb`, `vmovnt`, `vqmovunb`, `vqmovunt`, `vqmovnb` or `vqmovnt`: DDI0553, "VMOVN", "VQMOVN" and
/// "VQMOVUN".
#[derive(Clone, Copy)]
pub enum NarrowingName {
    /// `vmovnb` and `vmovnt`
    Plain,
    /// `vqmovunb` and `vqmovunt`
    ToUnsigned,
    /// `vqmovnb` and `vqmovnt` of signed elements
    Signed,
    /// `vqmovnb` and `vqmovnt` of unsigned elements
    Unsigned,
}

/// `vmovnb`, `vmovnt`, `vqmovunb`, `vqmovunt`, `vqmovnb`, `vqmovnt`, as `vmovnb.i16 qd,qm`: DDI0553, "VMOVN", "VQMOVN" and
/// "VQMOVUN".
#[derive(Clone, Copy)]
pub struct V16 {
    pub name: NarrowingName,
    /// 0 for elements of 16 bits to 8, 1 for 32 to 16.
    pub z: Bit,
    /// 1 for the upper part of each wide element.
    pub t: Bit,
    /// The register that gets the result.
    pub d: QRegister,
    /// The register of the operand.
    pub m: QRegister,
}

/// `vshlc qd,rm,#k`, 32 coded 0: DDI0553, "VSHLC".
#[derive(Clone, Copy)]
pub struct V17 {
    /// The shift, where 0 stands for 32.
    pub k: Below<32>,
    /// The register that is shifted.
    pub d: QRegister,
    /// The register of the bits that come in and go out.
    pub m: Register,
    pub ghost not_sp: { m.value ≢ 13 },
    pub ghost not_pc: { m.value ≢ 15 },
}

impl V17 {
    /// V17: by how many places it shifts, from 1 to 32: DDI0553, "VSHLC".
    pub fn amount(&self) -> u32
        ensures value { result ≡ zero_as_32 self.now.k.value }
        ensures some { 1 ≤ result }
        ensures most { result ≤ 32 }
    {
        zero_as_32(self.k.get())
    }
}

/// `vdup.8`, `vdup.16`, `vdup.32 qd,rt`: DDI0553, "VDUP".
#[derive(Clone, Copy)]
pub struct V18 {
    /// The size of the elements.
    pub size: Element,
    /// The register that gets the result.
    pub d: QRegister,
    /// The register of the operand.
    pub t: Register,
    pub ghost not_sp: { t.value ≢ 13 },
    pub ghost not_pc: { t.value ≢ 15 },
}

/// Which way the offsets of the row V19 go, up by `vidup` and `viwdup`, or down by `vddup` and `vdwdup`: DDI0553, "VIDUP, VIWDUP" and
/// "VDDUP, VDWDUP".
#[derive(Clone, Copy)]
pub enum OffsetsName {
    /// `vidup`, `viwdup`
    Up,
    /// `vddup`, `vdwdup`
    Down,
}

/// `vidup`, `vddup`, as `vidup.u8 qd,rn,#2^k`. V19: DDI0553, "VIDUP, VIWDUP" and "VDDUP, VDWDUP".
#[derive(Clone, Copy)]
pub struct Offsets {
    pub name: OffsetsName,
    /// The size of the elements.
    pub z: ElementSize,
    /// The first offset is in r(2n).
    pub n: Below<8>,
    /// The register that gets the result.
    pub d: QRegister,
    /// The step is 2 to this power.
    pub k: Below<4>,
}

/// `viwdup`, `vdwdup`, as `viwdup.u8 qd,rn,rm,#2^k`. V19: DDI0553, "VIDUP, VIWDUP" and "VDDUP, VDWDUP".
#[derive(Clone, Copy)]
pub struct WrappedOffsets {
    pub name: OffsetsName,
    /// The size of the elements.
    pub z: ElementSize,
    /// The first offset is in r(2n).
    pub n: Below<8>,
    /// The register that gets the result.
    pub d: QRegister,
    /// The step is 2 to this power.
    pub k: Below<4>,
    /// The offsets go round at r(2r + 1).
    pub r: Below<6>,
}

/// Offsets from a register, `vidup`, `vddup`, `viwdup` and `vdwdup`: DDI0553, "VIDUP, VIWDUP" and "VDDUP, VDWDUP".
#[derive(Clone, Copy)]
pub enum V19 {
    Free(Offsets),
    Wrapped(WrappedOffsets),
}

/// `vcmp` and `vpt` of two vectors, as `vcmp.i8 eq,qn,qm`. V20: DDI0553, "VCMP (vector)" and "VPT".
#[derive(Clone, Copy)]
pub struct CompareVectors {
    /// The mask of `vpt`; 0 for `vcmp`.
    pub k: Below<16>,
    /// The size of the elements.
    pub z: ElementSize,
    /// The register of the first operands.
    pub n: QRegister,
    /// The condition: eq, ne, cs, hi, ge, lt, gt, le.
    pub c: Below<8>,
    /// The register of the second operands.
    pub m: QRegister,
}

/// `vcmp` and `vpt` of a vector and a core register, as `vcmp.i8 eq,qn,rm`, or zero, which is 15 as `m`. V20: DDI0553, "VCMP (vector)" and
/// "VPT".
#[derive(Clone, Copy)]
pub struct CompareScalar {
    /// The mask of `vpt`; 0 for `vcmp`.
    pub k: Below<16>,
    /// The size of the elements.
    pub z: ElementSize,
    /// The register of the first operands.
    pub n: QRegister,
    /// The condition: eq, ne, cs, hi, ge, lt, gt, le.
    pub c: Below<8>,
    /// The register of the second operand, or 15.
    pub m: Register,
    pub ghost not_sp: { m.value ≢ 13 },
}

/// Comparisons, `vcmp` and `vpt`: DDI0553, "VCMP (vector)" and "VPT".
#[derive(Clone, Copy)]
pub enum V20 {
    Vectors(CompareVectors),
    Scalar(CompareScalar),
}

/// `vpst` with the mask `k` of a block, or `vpnot` where it is 0. V21: DDI0553, "VPST" and "VPNOT".
#[derive(Clone, Copy)]
pub struct Block {
    pub k: Below<16>,
}

/// `vpsel qd,qn,qm`. V21: DDI0553, "VPSEL".
#[derive(Clone, Copy)]
pub struct Select {
    /// The register of the first operands.
    pub n: QRegister,
    /// The register that gets the result.
    pub d: QRegister,
    /// The register of the second operands.
    pub m: QRegister,
}

/// `vctp.8 rn`, `vctp.16`, `vctp.32`, `vctp.64`. V21: DDI0553, "VCTP".
#[derive(Clone, Copy)]
pub struct Tail {
    /// The size of the elements: 0 to 3 are 8, 16, 32 and 64 bits.
    pub z: Below<4>,
    /// The register with the number of elements.
    pub n: Register,
    pub ghost not_sp: { n.value ≢ 13 },
    pub ghost not_pc: { n.value ≢ 15 },
}

/// What sets or uses the predicate, `vpst`, `vpnot`, `vpsel` and `vctp`: DDI0553, "VPST", "VPNOT", "VPSEL" and "VCTP".
#[derive(Clone, Copy)]
pub enum V21 {
    Block(Block),
    Select(Select),
    Tail(Tail),
}

/// `vaddv`, `vaddva`, as `vaddva.s8 rl,qm`: the elements of a vector, added up. V22: DDI0553, "VADDV".
#[derive(Clone, Copy)]
pub struct Sum {
    /// 1 for unsigned elements.
    pub u: Bit,
    /// The size of the elements.
    pub z: ElementSize,
    /// The sum is in r(2l).
    pub l: Below<8>,
    /// Whether the sum goes on from the old value.
    pub a: Bit,
    /// The register of the operands.
    pub m: QRegister,
}

/// `vmladav`, `vmladava`, as `vmladava.s8 rl,qn,qm`: products of elements, added up. V22: DDI0553, "VMLADAV".
#[derive(Clone, Copy)]
pub struct Dot {
    /// The size of the elements.
    pub size: Element,
    /// 1 for unsigned elements.
    pub u: Bit,
    /// The register of the first operands.
    pub n: QRegister,
    /// The sum is in r(2l).
    pub l: Below<8>,
    /// Whether the sum goes on from the old value.
    pub a: Bit,
    /// The register of the second operands.
    pub m: QRegister,
}

/// `vaddlv`, `vaddlva`, as `vaddlva.s32 rl,rh,qm`: words, added up in 64 bits. V22: DDI0553, "VADDLV".
#[derive(Clone, Copy)]
pub struct LongSum {
    /// 1 for unsigned elements.
    pub u: Bit,
    /// The high word of the sum is in r(2h + 1).
    pub h: Below<6>,
    /// The low word of the sum is in r(2l).
    pub l: Below<8>,
    /// Whether the sum goes on from the old value.
    pub a: Bit,
    /// The register of the operands.
    pub m: QRegister,
}

/// `vmlaldav`, `vmlaldava`, as `vmlaldava.s16 rl,rh,qn,qm`: products, added up in 64 bits. V22: DDI0553, "VMLALDAV".
#[derive(Clone, Copy)]
pub struct LongDot {
    /// 1 for unsigned elements.
    pub u: Bit,
    /// The high word of the sum is in r(2h + 1).
    pub h: Below<6>,
    /// The register of the first operands.
    pub n: QRegister,
    /// 0 for elements of 16 bits, 1 for 32.
    pub s: Bit,
    /// The low word of the sum is in r(2l).
    pub l: Below<8>,
    /// Whether the sum goes on from the old value.
    pub a: Bit,
    /// The register of the second operands.
    pub m: QRegister,
}

/// Sums, `vaddv`, `vaddva`, `vmladav`, `vmladava`, `vaddlv`, `vaddlva`, `vmlaldav` and `vmlaldava`: DDI0553, "VADDV", "VMLADAV", "VADDLV"
/// and "VMLALDAV".
#[derive(Clone, Copy)]
pub enum V22 {
    Sum(Sum),
    Dot(Dot),
    LongSum(LongSum),
    LongDot(LongDot),
}

/// The operation of the row V23, `vmaxv` or `vminv`: DDI0553, "VMAXV, VMAXAV" and "VMINV, VMINAV".
#[derive(Clone, Copy)]
pub enum ExtremeName {
    /// `vmaxv`
    Max,
    /// `vminv`
    Min,
}

/// `vmaxv`, `vminv`, as `vmaxv.s8 rt,qm`: DDI0553, "VMAXV, VMAXAV" and "VMINV, VMINAV".
#[derive(Clone, Copy)]
pub struct V23 {
    pub name: ExtremeName,
    /// 1 for unsigned elements.
    pub u: Bit,
    /// The size of the elements.
    pub z: ElementSize,
    /// The register of the result, from whose old value it begins.
    pub t: Register,
    /// The register of the operands.
    pub m: QRegister,
    pub ghost not_sp: { t.value ≢ 13 },
    pub ghost not_pc: { t.value ≢ 15 },
}
