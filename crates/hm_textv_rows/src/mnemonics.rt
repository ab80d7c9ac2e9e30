//! The mnemonics of vector rows.

ghost use Rattle.std.specs.Prelude.{◌≡◌, ◌<◌};
ghost use Rattle.hm_textv_rows.specs.Mnemonics.{access_mnemonic, add_mnemonic, bitwise_mnemonic, block_letters, carry_mnemonic, compare_condition};
ghost use Rattle.hm_textv_rows.specs.Mnemonics.{complex_sum_mnemonic, constant_merge_mnemonic, constant_move_mnemonic, constant_shift_mnemonic};
ghost use Rattle.hm_textv_rows.specs.Mnemonics.{doubling_mnemonic, extreme_mnemonic, high_mnemonic, narrowing_mnemonic, offsets_mnemonic, one_mnemonic};
ghost use Rattle.hm_textv_rows.specs.Mnemonics.{pair_mnemonic, quad_mnemonic, reverse_mnemonic, scalar_mnemonic, signed_mnemonic, vector_shift_mnemonic};
ghost use Rattle.hm_textv_rows.specs.Mnemonics.{wrapped_mnemonic};

use hm_isa::{
    AddName, Below, Bit, BitwiseName, CarryName, ComplexSumName, ConstantShiftName, DoublingName,
    ExtremeName, HighName, NarrowingName, OffsetsName, OneName, ReverseName, ScalarName,
    SignedName, VectorShiftName,
};

/// The mnemonic of a row V1.
pub fn add_mnemonic(name: AddName) -> &'static str
    ensures { result.now ≡ add_mnemonic name }
{
    match name {
        AddName::Add => "vadd",
        AddName::Sub => "vsub",
        AddName::Mul => "vmul",
    }
}

/// The mnemonic of a row V2.
pub fn bitwise_mnemonic(name: BitwiseName) -> &'static str
    ensures { result.now ≡ bitwise_mnemonic name }
{
    match name {
        BitwiseName::And => "vand",
        BitwiseName::Bic => "vbic",
        BitwiseName::Orr => "vorr",
        BitwiseName::Orn => "vorn",
        BitwiseName::Eor => "veor",
    }
}

/// The mnemonic of a row V3.
pub fn signed_mnemonic(name: SignedName) -> &'static str
    ensures { result.now ≡ signed_mnemonic name }
{
    match name {
        SignedName::Max => "vmax",
        SignedName::Min => "vmin",
        SignedName::Abd => "vabd",
        SignedName::Hadd => "vhadd",
        SignedName::Rhadd => "vrhadd",
        SignedName::Hsub => "vhsub",
        SignedName::Qadd => "vqadd",
        SignedName::Qsub => "vqsub",
    }
}

/// The mnemonic of a row V4.
pub fn vector_shift_mnemonic(name: VectorShiftName) -> &'static str
    ensures { result.now ≡ vector_shift_mnemonic name }
{
    match name {
        VectorShiftName::Shl => "vshl",
        VectorShiftName::Qshl => "vqshl",
        VectorShiftName::Rshl => "vrshl",
        VectorShiftName::Qrshl => "vqrshl",
    }
}

/// The mnemonic of a row V5.
pub fn doubling_mnemonic(name: DoublingName) -> &'static str
    ensures { result.now ≡ doubling_mnemonic name }
{
    match name {
        DoublingName::Qdmulh => "vqdmulh",
        DoublingName::Qrdmulh => "vqrdmulh",
    }
}

/// The mnemonic of a row V7.
pub fn high_mnemonic(name: HighName) -> &'static str
    ensures { result.now ≡ high_mnemonic name }
{
    match name {
        HighName::Mulh => "vmulh",
        HighName::Rmulh => "vrmulh",
    }
}

/// The mnemonic of a row V8.
pub fn carry_mnemonic(name: CarryName) -> &'static str
    ensures { result.now ≡ carry_mnemonic name }
{
    match name {
        CarryName::Adc => "vadc",
        CarryName::Adci => "vadci",
        CarryName::Sbc => "vsbc",
        CarryName::Sbci => "vsbci",
    }
}

/// The mnemonic of a row V9.
pub fn complex_sum_mnemonic(name: ComplexSumName) -> &'static str
    ensures { result.now ≡ complex_sum_mnemonic name }
{
    match name {
        ComplexSumName::Cadd => "vcadd",
        ComplexSumName::Hcadd => "vhcadd",
    }
}

/// The mnemonic of a row V10.
pub fn scalar_mnemonic(name: ScalarName) -> &'static str
    ensures { result.now ≡ scalar_mnemonic name }
{
    match name {
        ScalarName::Add => "vadd",
        ScalarName::Sub => "vsub",
        ScalarName::Mul => "vmul",
        ScalarName::Hadd => "vhadd",
        ScalarName::Hsub => "vhsub",
        ScalarName::Qadd => "vqadd",
        ScalarName::Qsub => "vqsub",
        ScalarName::Qdmulh => "vqdmulh",
        ScalarName::Qrdmulh => "vqrdmulh",
        ScalarName::Mla => "vmla",
        ScalarName::Mlas => "vmlas",
    }
}

/// The mnemonic of a row V11.
pub fn constant_shift_mnemonic(name: ConstantShiftName) -> &'static str
    ensures { result.now ≡ constant_shift_mnemonic name }
{
    match name {
        ConstantShiftName::Shr => "vshr",
        ConstantShiftName::Rshr => "vrshr",
        ConstantShiftName::Qshl => "vqshl",
        ConstantShiftName::Qshlu => "vqshlu",
        ConstantShiftName::Shl => "vshl",
        ConstantShiftName::Sri => "vsri",
        ConstantShiftName::Sli => "vsli",
    }
}

/// The mnemonic of a row V13.
pub fn one_mnemonic(name: OneName) -> &'static str
    ensures { result.now ≡ one_mnemonic name }
{
    match name {
        OneName::Cls => "vcls",
        OneName::Clz => "vclz",
        OneName::Abs => "vabs",
        OneName::Neg => "vneg",
        OneName::Qabs => "vqabs",
        OneName::Qneg => "vqneg",
    }
}

/// The mnemonic of a row V14.
pub fn reverse_mnemonic(name: ReverseName) -> &'static str
    ensures { result.now ≡ reverse_mnemonic name }
{
    match name {
        ReverseName::Rev64 => "vrev64",
        ReverseName::Rev32 => "vrev32",
        ReverseName::Rev16 => "vrev16",
    }
}

/// The mnemonic of a row V19, from one register.
pub fn offsets_mnemonic(name: OffsetsName) -> &'static str
    ensures { result.now ≡ offsets_mnemonic name }
{
    match name {
        OffsetsName::Up => "vidup",
        OffsetsName::Down => "vddup",
    }
}

/// The mnemonic of a row V19, going round.
pub fn wrapped_mnemonic(name: OffsetsName) -> &'static str
    ensures { result.now ≡ wrapped_mnemonic name }
{
    match name {
        OffsetsName::Up => "viwdup",
        OffsetsName::Down => "vdwdup",
    }
}

/// The mnemonic of a row V23.
pub fn extreme_mnemonic(name: ExtremeName) -> &'static str
    ensures { result.now ≡ extreme_mnemonic name }
{
    match name {
        ExtremeName::Max => "vmaxv",
        ExtremeName::Min => "vminv",
    }
}

/// The mnemonic of a row V15 that moves its constant, but for elements of 64 bits.
pub fn constant_move_mnemonic(op: Bit) -> &'static str
    ensures { result.now ≡ constant_move_mnemonic op.value }
{
    if op.get() == 0 { "vmov" } else { "vmvn" }
}

/// The mnemonic of a row V15 that merges its constant.
pub fn constant_merge_mnemonic(op: Bit) -> &'static str
    ensures { result.now ≡ constant_merge_mnemonic op.value }
{
    if op.get() == 0 { "vorr" } else { "vbic" }
}

/// The mnemonic of a row V16: with b for the lower part of each wide element, or t for the upper.
pub fn narrowing_mnemonic(name: NarrowingName, t: Bit) -> &'static str
    ensures { result.now ≡ narrowing_mnemonic name t.value }
{
    match (name, t.get() == 0) {
        (NarrowingName::Plain, true) => "vmovnb",
        (NarrowingName::Plain, false) => "vmovnt",
        (NarrowingName::ToUnsigned, true) => "vqmovunb",
        (NarrowingName::ToUnsigned, false) => "vqmovunt",
        (NarrowingName::Signed | NarrowingName::Unsigned, true) => "vqmovnb",
        (NarrowingName::Signed | NarrowingName::Unsigned, false) => "vqmovnt",
    }
}

/// The letters of a block by its mask: t where an instruction has the sense of the first, e where it has the other.
pub fn block_letters(mask: Below<16>) -> &'static str
    ensures { result.now ≡ block_letters mask.value }
{
    match mask.get() {
        1 => "ttt",
        2 => "tt",
        3 => "tte",
        4 => "t",
        5 => "tee",
        6 => "te",
        7 => "tet",
        9 => "eee",
        10 => "ee",
        11 => "eet",
        12 => "e",
        13 => "ett",
        14 => "et",
        15 => "ete",
        _ => "",
    }
}

/// The condition of a comparison, which has numbers of its own.
pub fn compare_condition(c: Below<8>) -> &'static str
    ensures { result.now ≡ compare_condition c.value }
{
    match c.get() {
        0 => "eq",
        1 => "ne",
        2 => "cs",
        3 => "hi",
        4 => "ge",
        5 => "lt",
        6 => "gt",
        _ => "le",
    }
}

/// The mnemonic of a store where l is 0, or of a load, of elements that have the size y in memory.
pub fn access_mnemonic(l: Bit, y: u32) -> &'static str
    requires { y < 3 }
    ensures { result.now ≡ access_mnemonic l.value y }
{
    match (l.get() == 0, y) {
        (true, 0) => "vstrb",
        (true, 1) => "vstrh",
        (true, _) => "vstrw",
        (false, 0) => "vldrb",
        (false, 1) => "vldrh",
        (false, _) => "vldrw",
    }
}

/// The mnemonic of a part of two registers whose elements take turns in memory.
pub fn pair_mnemonic(l: Bit, p: Below<4>) -> &'static str
    requires { p.value < 2 }
    ensures { result.now ≡ pair_mnemonic l.value p.value }
{
    match (l.get() == 0, p.get()) {
        (true, 0) => "vst20",
        (true, _) => "vst21",
        (false, 0) => "vld20",
        (false, _) => "vld21",
    }
}

/// The mnemonic of a part of four registers whose elements take turns in memory.
pub fn quad_mnemonic(l: Bit, p: Below<4>) -> &'static str
    ensures { result.now ≡ quad_mnemonic l.value p.value }
{
    match (l.get() == 0, p.get()) {
        (true, 0) => "vst40",
        (true, 1) => "vst41",
        (true, 2) => "vst42",
        (true, _) => "vst43",
        (false, 0) => "vld40",
        (false, 1) => "vld41",
        (false, 2) => "vld42",
        (false, _) => "vld43",
    }
}
