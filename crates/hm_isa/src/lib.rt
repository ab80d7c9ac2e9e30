//! Instructions as values: each field keeps its range, and each row its rules.
#![tactic(auto)]

ghost use Rattle.std.specs.Prelude.{◌≡◌, ◌*◌, length};
ghost use Rattle.hm_isa.specs.Code.{halves_by_width, width_of};
ghost use Rattle.hm_isa.specs.Widths.{branch_by_width, scalar_by_width};

mod arith;
mod data;
mod distances;
mod fields;
mod jumps;
mod memory;
mod narrow;
mod system;
mod vectors;
mod wide;
mod widths;
pub mod words;

pub use arith::Accumulate;
pub use arith::AccumulateName;
pub use arith::BitsName;
pub use arith::LongProduct;
pub use arith::LongProductName;
pub use arith::Operation;
pub use arith::OperationName;
pub use arith::SelectName;
pub use arith::T8;
pub use arith::T9;
pub use arith::T10;
pub use arith::T11;
pub use arith::T20;
pub use arith::WideShiftName;
pub use data::DataName;
pub use data::ExtractName;
pub use data::HalfName;
pub use data::SaturateName;
pub use data::T1;
pub use data::T2;
pub use data::T3;
pub use data::T4;
pub use data::T5;
pub use data::T6;
pub use data::T7;
pub use fields::Below;
pub use fields::Bit;
pub use fields::Byte;
pub use fields::ElementSize;
pub use fields::Low;
pub use fields::QRegister;
pub use fields::Register;
pub use jumps::Dls;
pub use jumps::Dlstp;
pub use jumps::LoopEnd;
pub use jumps::LoopEndName;
pub use jumps::T16;
pub use jumps::T17;
pub use jumps::T23;
pub use jumps::TableName;
pub use jumps::WideAlways;
pub use jumps::WideBranchName;
pub use jumps::WideConditional;
pub use jumps::Wls;
pub use jumps::Wlstp;
pub use memory::V24;
pub use memory::V25;
pub use memory::V26;
pub use memory::V27;
pub use memory::V28;
pub use narrow::AccessName;
pub use narrow::Always;
pub use narrow::BaseName;
pub use narrow::ByteName;
pub use narrow::Conditional;
pub use narrow::ExtendName;
pub use narrow::HintName;
pub use narrow::JumpName;
pub use narrow::ListName;
pub use narrow::LogicName;
pub use narrow::MaskingName;
pub use narrow::PlainName;
pub use narrow::S1;
pub use narrow::S2;
pub use narrow::S3;
pub use narrow::S4;
pub use narrow::S5;
pub use narrow::S6;
pub use narrow::S7;
pub use narrow::S8;
pub use narrow::S9;
pub use narrow::S10;
pub use narrow::S11;
pub use narrow::S12;
pub use narrow::S13;
pub use narrow::S14;
pub use narrow::S15;
pub use narrow::S16;
pub use narrow::S17;
pub use narrow::S18;
pub use narrow::S19;
pub use narrow::S20;
pub use narrow::S21;
pub use narrow::S23;
pub use narrow::S24;
pub use narrow::S25;
pub use narrow::ShiftName;
pub use narrow::SumName;
pub use narrow::SwapName;
pub use narrow::WordName;
pub use narrow::ZeroName;
pub use system::Barrier;
pub use system::BarrierName;
pub use system::LaneMoveName;
pub use system::Mrs;
pub use system::Msr;
pub use system::ReadName;
pub use system::SystemMoveName;
pub use system::T18;
pub use system::T19;
pub use system::T21;
pub use system::T22;
pub use system::WrittenName;
pub use vectors::AddName;
pub use vectors::BitwiseName;
pub use vectors::Block;
pub use vectors::CarryName;
pub use vectors::CompareScalar;
pub use vectors::CompareVectors;
pub use vectors::ComplexSumName;
pub use vectors::ConstantShiftName;
pub use vectors::Dot;
pub use vectors::DoublingName;
pub use vectors::Element;
pub use vectors::ExtremeName;
pub use vectors::HighName;
pub use vectors::Invert;
pub use vectors::LongBytes;
pub use vectors::LongDot;
pub use vectors::LongFull;
pub use vectors::LongHalves;
pub use vectors::LongSum;
pub use vectors::NarrowingName;
pub use vectors::Offsets;
pub use vectors::OffsetsName;
pub use vectors::OneElement;
pub use vectors::OneName;
pub use vectors::ReverseName;
pub use vectors::ScalarName;
pub use vectors::Select;
pub use vectors::SignedName;
pub use vectors::Sum;
pub use vectors::Tail;
pub use vectors::V1;
pub use vectors::V2;
pub use vectors::V3;
pub use vectors::V4;
pub use vectors::V5;
pub use vectors::V6;
pub use vectors::V7;
pub use vectors::V8;
pub use vectors::V9;
pub use vectors::V10;
pub use vectors::V11;
pub use vectors::V12;
pub use vectors::V13;
pub use vectors::V14;
pub use vectors::V15;
pub use vectors::V16;
pub use vectors::V17;
pub use vectors::V18;
pub use vectors::V19;
pub use vectors::V20;
pub use vectors::V21;
pub use vectors::V22;
pub use vectors::V23;
pub use vectors::VectorShiftName;
pub use vectors::WrappedOffsets;
pub use wide::Indexed;
pub use wide::Literal;
pub use wide::Offset;
pub use wide::PairName;
pub use wide::Shifted;
pub use wide::StackName;
pub use wide::T12;
pub use wide::T13;
pub use wide::T14;
pub use wide::T15;
pub use wide::WideListName;
pub use widths::ByWidth;
pub use widths::NarrowRow;
pub use widths::WideRow;
pub use widths::by_width;

/// An instruction of the scalar rows: neither a branch nor a vector instruction.
#[derive(Clone, Copy)]
pub enum Scalar {
    /// `lsls`, `lsrs`, `asrs rd,rm,#i`
    S1(S1),
    /// `adds`, `subs rd,rn,rm`
    S2(S2),
    /// `adds`, `subs rd,rn,#i`
    S3(S3),
    /// `movs`, `cmp`, `adds`, `subs rd,#i`
    S4(S4),
    /// `ands`, `eors`, `lsls`, `lsrs`, `asrs`, `adcs`, `sbcs`, `rors`, `tst`, `rsbs`, `cmp`, `cmn`, `orrs`, `muls`, `bics`, `mvns rd,rm`
    S5(S5),
    /// `add rd,rm` of any registers
    S6(S6),
    /// `cmp rd,rm`, one of them r8 or higher
    S7(S7),
    /// `mov rd,rm` of any registers
    S8(S8),
    /// `add rd,pc,#4i`, `add rd,sp,#4i`
    S9(S9),
    /// `add sp,#4i`, `sub sp,#4i`
    S10(S10),
    /// `sxth`, `sxtb`, `uxth`, `uxtb`
    S11(S11),
    /// `rev`, `rev16`, `revsh`
    S12(S12),
    /// `cpsie i`, `cpsid i`
    S13(S13),
    /// `ldr rt,label`
    S14(S14),
    /// `str`, `strh`, `strb`, `ldrsb`, `ldr`, `ldrh`, `ldrb`, `ldrsh rt,[rn,rm]`
    S15(S15),
    /// `str`, `ldr`, `strb`, `ldrb`, `strh`, `ldrh rt,[rn,#i]`
    S16(S16),
    /// `str`, `ldr rt,[sp,#4i]`
    S17(S17),
    /// `bkpt #i`
    S18(S18),
    /// `nop`, `yield`, `wfe`, `wfi`, `sev`
    S19(S19),
    /// `push`, `pop`, `stm`, `ldm`
    S20(S20),
    /// `it`
    S21(S21),
    /// `and.w`, `bic.w`, `orr.w`, `orn.w`, `eor.w`, `add.w`, `adc.w`, `sbc.w`, `sub.w`, `rsb.w rd,rn,#c`, and so
    /// `tst.w`, `teq.w`, `cmn.w`, `cmp.w`, `mov.w`, `mvn.w`
    T1(T1),
    /// `and.w`, `bic.w`, `orr.w`, `orn.w`, `eor.w`, `add.w`, `adc.w`, `sbc.w`, `sub.w`, `rsb.w rd,rn,rm,lsl #k`, and so
    /// `tst.w`, `teq.w`, `cmn.w`, `cmp.w`, `mvn.w`, `mov.w`, `lsl.w`, `lsr.w`, `asr.w`, `ror.w`, `rrx`
    T2(T2),
    /// `addw`, `subw`
    T3(T3),
    /// `movw`, `movt`
    T4(T4),
    /// `ssat`, `usat`
    T5(T5),
    /// `sbfx`, `ubfx`
    T6(T6),
    /// `bfi`, `bfc`
    T7(T7),
    /// `lsl.w`, `lsr.w`, `asr.w`, `ror.w rd,rn,rm`
    T8(T8),
    /// `sxth.w`, `uxth.w`, `sxtb.w`, `uxtb.w`
    T9(T9),
    /// `rev.w`, `rev16.w`, `rbit`, `revsh.w`, `clz`
    T10(T10),
    /// `mul`, `mla`, `mls`, `smull`, `umull`, `smlal`, `umlal`, `sdiv`, `udiv`
    T11(T11),
    /// `strb.w`, `strh.w`, `str.w`, `ldrb.w`, `ldrh.w`, `ldr.w`, `ldrsb.w`, `ldrsh.w`
    T12(T12),
    /// `strd`, `ldrd`
    T13(T13),
    /// `stmia.w`, `ldmia.w`, `stmdb`, `ldmdb`
    T14(T14),
    /// `vpush`, `vpop`
    T15(T15),
    /// `mrs`, `msr`
    T18(T18),
    /// `nop.w`, `dsb`, `dmb`, `isb`
    T19(T19),
    /// `csel`, `csinc`, `csinv`, `csneg`
    T20(T20),
    /// `vmrs`, `vmsr`
    T21(T21),
    /// `vmov.32` of a lane
    T22(T22),
}

/// An instruction of the branch rows.
#[derive(Clone, Copy)]
pub enum Branch {
    /// `bx`, `blx rm`
    S23(S23),
    /// `cbz`, `cbnz rn,label`
    S24(S24),
    /// `b label`, under a condition or none
    S25(S25),
    /// `b.w label`, under a condition or none, and `bl label`
    T16(T16),
    /// `tbb`, `tbh`
    T17(T17),
    /// `dls`, `wls`, `dlstp`, `wlstp`, `le`, `letp`, `lctp`
    T23(T23),
}

/// An instruction of the vector rows: DDI0553, "M-profile Vector Extension".
#[derive(Clone, Copy)]
pub enum Vector {
    /// `vadd`, `vsub`, `vmul` of elements
    V1(V1),
    /// `vand`, `vbic`, `vorr`, `vorn`, `veor`
    V2(V2),
    /// `vmax`, `vmin`, `vabd`, `vhadd`, `vrhadd`, `vhsub`, `vqadd`, `vqsub`
    V3(V3),
    /// `vshl`, `vqshl`, `vrshl`, `vqrshl` by elements
    V4(V4),
    /// `vqdmulh`, `vqrdmulh`
    V5(V5),
    /// `vmullb`, `vmullt`
    V6(V6),
    /// `vmulh`, `vrmulh`
    V7(V7),
    /// `vadc`, `vadci`, `vsbc`, `vsbci`
    V8(V8),
    /// `vcadd`, `vhcadd`
    V9(V9),
    /// `vadd`, `vsub`, `vmul`, `vhadd`, `vhsub`, `vqadd`, `vqsub`, `vqdmulh`, `vqrdmulh`, `vmla`, `vmlas` of elements and a core register
    V10(V10),
    /// `vshr`, `vrshr`, `vqshl`, `vqshlu`, `vshl`, `vsri`, `vsli` by a constant
    V11(V11),
    /// `vshllb`, `vshllt`, `vmovlb`, `vmovlt`
    V12(V12),
    /// `vcls`, `vclz`, `vabs`, `vneg`, `vqabs`, `vqneg`, `vmvn`
    V13(V13),
    /// `vrev64`, `vrev32`, `vrev16`
    V14(V14),
    /// `vmov`, `vmvn`, `vorr`, `vbic` with an immediate
    V15(V15),
    /// `vmovnb`, `vmovnt`, `vqmovunb`, `vqmovunt`, `vqmovnb`, `vqmovnt`
    V16(V16),
    /// `vshlc`
    V17(V17),
    /// `vdup`
    V18(V18),
    /// `vidup`, `vddup`, `viwdup`, `vdwdup`
    V19(V19),
    /// `vcmp`, `vpt`
    V20(V20),
    /// `vpst`, `vpnot`, `vpsel`, `vctp`
    V21(V21),
    /// `vaddv`, `vaddva`, `vmladav`, `vmladava`, `vaddlv`, `vaddlva`, `vmlaldav`, `vmlaldava`
    V22(V22),
    /// `vmaxv`, `vminv`
    V23(V23),
    /// `vldrb`, `vldrh`, `vldrw`, `vstrb`, `vstrh`, `vstrw` of elements one after another
    V24(V24),
    /// `vldrb`, `vldrh`, `vstrb`, `vstrh` of narrower elements in memory
    V25(V25),
    /// `vldrb`, `vldrh`, `vldrw`, `vstrb`, `vstrh`, `vstrw` at offsets in a vector
    V26(V26),
    /// `vldrw`, `vstrw` at addresses in a vector
    V27(V27),
    /// `vld20`, `vld21`, `vld40`, `vld41`, `vld42`, `vld43`, `vst20`, `vst21`, `vst40`, `vst41`, `vst42`, `vst43`
    V28(V28),
}

/// An instruction. Each value is one of a row, with its fields in range.
#[derive(Clone, Copy)]
pub enum Instr {
    Scalar(Scalar),
    Branch(Branch),
    Vector(Vector),
}

/// What has become of an instruction that did not stop.
#[derive(Clone, Copy)]
pub enum Flow {
    /// It is done, and the program counter has moved.
    Next,
    /// It was `bkpt #k`, which changes nothing.
    Break { k: u8 },
    /// In a handler it branched to this value, which ends the handler. The branch is not done.
    Return { value: u32 },
}

/// How many bytes the code of a scalar instruction has: 2 or 4. A tick asks for this, so the row is not copied.
fn scalar_width(i: &Scalar) -> u32
    ensures { result ≡ 2 * length (halves_by_width (scalar_by_width i.now)) }
{
    match i {
        Scalar::T1(_) | Scalar::T2(_) | Scalar::T3(_) | Scalar::T4(_) | Scalar::T5(_) => 4,
        Scalar::T6(_) | Scalar::T7(_) | Scalar::T8(_) | Scalar::T9(_) | Scalar::T10(_) => 4,
        Scalar::T11(_) | Scalar::T12(_) | Scalar::T13(_) | Scalar::T14(_) | Scalar::T15(_) => 4,
        Scalar::T18(_) | Scalar::T19(_) | Scalar::T20(_) | Scalar::T21(_) | Scalar::T22(_) => 4,
        _ => 2,
    }
}

/// How many bytes the code of a branch has: 2 or 4.
fn branch_width(i: &Branch) -> u32
    ensures { result ≡ 2 * length (halves_by_width (branch_by_width i.now)) }
{
    match i {
        Branch::S23(_) | Branch::S24(_) | Branch::S25(_) => 2,
        Branch::T16(_) | Branch::T17(_) | Branch::T23(_) => 4,
    }
}

/// How many bytes the code of an instruction has: 2 or 4.
pub fn width(i: &Instr) -> u32
    ensures { result ≡ width_of i.now }
{
    match i {
        Instr::Scalar(i) => scalar_width(i),
        Instr::Branch(i) => branch_width(i),
        Instr::Vector(_) => 4,
    }
}
