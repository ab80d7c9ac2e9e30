//! The mnemonics of rows of two halfwords, and the names of special registers.

ghost use Rattle.std.specs.Prelude.{◌≡◌};
ghost use Rattle.hm_text32_rows.specs.Mnemonics.{accumulate_mnemonic, barrier_mnemonic, bits_mnemonic, bits_suffix, carry_mnemonic};
ghost use Rattle.hm_text32_rows.specs.Mnemonics.{data_mnemonic};
ghost use Rattle.hm_text32_rows.specs.Mnemonics.{extract_mnemonic, half_mnemonic, long_mnemonic, move_mnemonic};
ghost use Rattle.hm_text32_rows.specs.Mnemonics.{operation_mnemonic};
ghost use Rattle.hm_text32_rows.specs.Mnemonics.{pair_mnemonic, read_name};
ghost use Rattle.hm_text32_rows.specs.Mnemonics.{saturate_shift, saturate_mnemonic, select_mnemonic, shift_mnemonic, stack_mnemonic, test_mnemonic};
ghost use Rattle.hm_text32_rows.specs.Mnemonics.{shift_mnemonic_with_flags};
ghost use Rattle.hm_text32_rows.specs.Mnemonics.{wide_branch_mnemonic, wide_branch_suffix};
ghost use Rattle.hm_text32_rows.specs.Mnemonics.{wide_list_mnemonic, wide_list_suffix, wide_shift_mnemonic, wide_sum_mnemonic, written_name};

use hm_isa::{
    AccumulateName, BarrierName, Below, Bit, BitsName, DataName, ExtractName, HalfName,
    LongProductName, OperationName, PairName, ReadName, SaturateName, SelectName, StackName,
    SumName, WideBranchName, WideListName, WideShiftName, WrittenName,
};

/// The mnemonic of a row T3.
pub fn wide_sum_mnemonic(name: SumName) -> &'static str
    ensures { result.now ≡ wide_sum_mnemonic name }
{
    match name {
        SumName::Add => "addw",
        SumName::Sub => "subw",
    }
}

/// The mnemonic of a row T4.
pub fn half_mnemonic(name: HalfName) -> &'static str
    ensures { result.now ≡ half_mnemonic name }
{
    match name {
        HalfName::Movw => "movw",
        HalfName::Movt => "movt",
    }
}

/// The mnemonic of a row T5.
pub fn saturate_mnemonic(name: SaturateName) -> &'static str
    ensures { result.now ≡ saturate_mnemonic name }
{
    match name {
        SaturateName::Ssat => "ssat",
        SaturateName::Usat => "usat",
    }
}

/// The mnemonic of a row T6.
pub fn extract_mnemonic(name: ExtractName) -> &'static str
    ensures { result.now ≡ extract_mnemonic name }
{
    match name {
        ExtractName::Sbfx => "sbfx",
        ExtractName::Ubfx => "ubfx",
    }
}

/// The mnemonic of a row T10.
pub fn bits_mnemonic(name: BitsName) -> &'static str
    ensures { result.now ≡ bits_mnemonic name }
{
    match name {
        BitsName::Rev => "rev",
        BitsName::Rev16 => "rev16",
        BitsName::Rbit => "rbit",
        BitsName::Revsh => "revsh",
        BitsName::Clz => "clz",
    }
}

/// The mnemonic of a row T11.
pub fn operation_mnemonic(name: OperationName) -> &'static str
    ensures { result.now ≡ operation_mnemonic name }
{
    match name {
        OperationName::Mul => "mul",
        OperationName::Sdiv => "sdiv",
        OperationName::Udiv => "udiv",
    }
}

/// The mnemonic of a row T11.
pub fn accumulate_mnemonic(name: AccumulateName) -> &'static str
    ensures { result.now ≡ accumulate_mnemonic name }
{
    match name {
        AccumulateName::Mla => "mla",
        AccumulateName::Mls => "mls",
    }
}

/// The mnemonic of a row T11.
pub fn long_mnemonic(name: LongProductName) -> &'static str
    ensures { result.now ≡ long_mnemonic name }
{
    match name {
        LongProductName::Smull => "smull",
        LongProductName::Umull => "umull",
        LongProductName::Smlal => "smlal",
        LongProductName::Umlal => "umlal",
    }
}

/// The mnemonic of a row T20.
pub fn select_mnemonic(name: SelectName) -> &'static str
    ensures { result.now ≡ select_mnemonic name }
{
    match name {
        SelectName::Csel => "csel",
        SelectName::Csinc => "csinc",
        SelectName::Csinv => "csinv",
        SelectName::Csneg => "csneg",
    }
}

/// The mnemonic of a row T19.
pub fn barrier_mnemonic(name: BarrierName) -> &'static str
    ensures { result.now ≡ barrier_mnemonic name }
{
    match name {
        BarrierName::Dsb => "dsb",
        BarrierName::Dmb => "dmb",
        BarrierName::Isb => "isb",
    }
}

/// The name of a special register.
pub fn read_name(name: ReadName) -> &'static str
    ensures { result.now ≡ read_name name }
{
    match name {
        ReadName::Apsr => "apsr",
        ReadName::Ipsr => "ipsr",
        ReadName::Msp => "msp",
        ReadName::Psp => "psp",
        ReadName::Primask => "primask",
        ReadName::Basepri => "basepri",
        ReadName::Control => "control",
    }
}

/// The name of a special register.
pub fn written_name(name: WrittenName) -> &'static str
    ensures { result.now ≡ written_name name }
{
    match name {
        WrittenName::Apsr => "apsr",
        WrittenName::Msp => "msp",
        WrittenName::Psp => "psp",
        WrittenName::Primask => "primask",
        WrittenName::Basepri => "basepri",
        WrittenName::Control => "control",
    }
}

/// The mnemonic of a row T8, with s where the flags tell the result.
pub fn wide_shift_mnemonic(name: WideShiftName, s: Bit) -> &'static str
    ensures { result.now ≡ wide_shift_mnemonic name s.value }
{
    match name {
        WideShiftName::Lsl => shift_mnemonic_with_flags(Below::new(0), s),
        WideShiftName::Lsr => shift_mnemonic_with_flags(Below::new(1), s),
        WideShiftName::Asr => shift_mnemonic_with_flags(Below::new(2), s),
        WideShiftName::Ror => shift_mnemonic_with_flags(Below::new(3), s),
    }
}

/// What stands behind the mnemonic of a row T10.
pub fn bits_suffix(name: BitsName) -> &'static str
    ensures { result.now ≡ bits_suffix name }
{
    match name {
        BitsName::Rbit | BitsName::Clz => "",
        BitsName::Rev | BitsName::Rev16 | BitsName::Revsh => ".w",
    }
}

/// How a row T5 shifts: by `lsl`, or by `asr` where sh is 1.
pub fn saturate_shift(sh: Bit) -> &'static str
    ensures { result.now ≡ saturate_shift sh.value }
{
    shift_mnemonic(Below::new(2 * sh.get()))
}

/// The mnemonic of a row T15.
pub fn stack_mnemonic(name: StackName) -> &'static str
    ensures { result.now ≡ stack_mnemonic name }
{
    match name {
        StackName::Vpush => "vpush",
        StackName::Vpop => "vpop",
    }
}

/// The mnemonic of a row T2 of three registers, with s where the flags tell the result.
pub fn data_mnemonic(name: DataName, s: Bit) -> &'static str
    ensures { result.now ≡ data_mnemonic name s.value }
{
    match (name, s.get() == 0) {
        (DataName::And, true) => "and",
        (DataName::And, false) => "ands",
        (DataName::Bic, true) => "bic",
        (DataName::Bic, false) => "bics",
        (DataName::Orr, true) => "orr",
        (DataName::Orr, false) => "orrs",
        (DataName::Orn, true) => "orn",
        (DataName::Orn, false) => "orns",
        (DataName::Eor, true) => "eor",
        (DataName::Eor, false) => "eors",
        (DataName::Add, true) => "add",
        (DataName::Add, false) => "adds",
        (DataName::Adc, true) => "adc",
        (DataName::Adc, false) => "adcs",
        (DataName::Sbc, true) => "sbc",
        (DataName::Sbc, false) => "sbcs",
        (DataName::Sub, true) => "sub",
        (DataName::Sub, false) => "subs",
        (DataName::Rsb, true) => "rsb",
        (DataName::Rsb, false) => "rsbs",
    }
}

/// The mnemonic of a row T2 that is a test; nothing for the other names.
pub fn test_mnemonic(name: DataName) -> &'static str
    ensures { result.now ≡ test_mnemonic name }
{
    match name {
        DataName::And => "tst",
        DataName::Eor => "teq",
        DataName::Add => "cmn",
        DataName::Sub => "cmp",
        DataName::Bic
        | DataName::Orr
        | DataName::Orn
        | DataName::Adc
        | DataName::Sbc
        | DataName::Rsb => "",
    }
}

/// The mnemonic of a row T2 with no first register; nothing for the other names.
pub fn move_mnemonic(name: DataName, s: Bit) -> &'static str
    ensures { result.now ≡ move_mnemonic name s.value }
{
    match (name, s.get() == 0) {
        (DataName::Orr, true) => "mov",
        (DataName::Orr, false) => "movs",
        (DataName::Orn, true) => "mvn",
        (DataName::Orn, false) => "mvns",
        (DataName::And, _) | (DataName::Bic, _) | (DataName::Eor, _) | (DataName::Add, _) => "",
        (DataName::Adc, _) | (DataName::Sbc, _) | (DataName::Sub, _) | (DataName::Rsb, _) => "",
    }
}

/// A shift by its number.
pub fn shift_mnemonic(ty: Below<4>) -> &'static str
    ensures { result.now ≡ shift_mnemonic ty.value }
{
    match ty.get() {
        0 => "lsl",
        1 => "lsr",
        2 => "asr",
        _ => "ror",
    }
}

/// A shift as a mnemonic, with s where the flags tell the result.
pub fn shift_mnemonic_with_flags(ty: Below<4>, s: Bit) -> &'static str
    ensures { result.now ≡ shift_mnemonic_with_flags ty.value s.value }
{
    if s.get() == 0 {
        return shift_mnemonic(ty);
    }
    match ty.get() {
        0 => "lsls",
        1 => "lsrs",
        2 => "asrs",
        _ => "rors",
    }
}

/// A shift through the carry, with s where the flags tell the result.
pub fn carry_mnemonic(s: Bit) -> &'static str
    ensures { result.now ≡ carry_mnemonic s.value }
{
    if s.get() == 0 { "rrx" } else { "rrxs" }
}

/// The mnemonic of a row T13.
pub fn pair_mnemonic(name: PairName) -> &'static str
    ensures { result.now ≡ pair_mnemonic name }
{
    match name {
        PairName::Strd => "strd",
        PairName::Ldrd => "ldrd",
    }
}

/// The mnemonic of a row T14.
pub fn wide_list_mnemonic(name: WideListName) -> &'static str
    ensures { result.now ≡ wide_list_mnemonic name }
{
    match name {
        WideListName::Stmia => "stmia",
        WideListName::Ldmia => "ldmia",
        WideListName::Stmdb => "stmdb",
        WideListName::Ldmdb => "ldmdb",
    }
}

/// The suffix of a row T14: those that a row of one halfword has too are wide.
pub fn wide_list_suffix(name: WideListName) -> &'static str
    ensures { result.now ≡ wide_list_suffix name }
{
    match name {
        WideListName::Stmia => ".w",
        WideListName::Ldmia => ".w",
        WideListName::Stmdb => "",
        WideListName::Ldmdb => "",
    }
}

/// The mnemonic of a row T16 without a condition.
pub fn wide_branch_mnemonic(name: WideBranchName) -> &'static str
    ensures { result.now ≡ wide_branch_mnemonic name }
{
    match name {
        WideBranchName::B => "b",
        WideBranchName::Bl => "bl",
    }
}

/// The suffix of a row T16 without a condition: the branch that a row of one halfword has too is wide.
pub fn wide_branch_suffix(name: WideBranchName) -> &'static str
    ensures { result.now ≡ wide_branch_suffix name }
{
    match name {
        WideBranchName::B => ".w",
        WideBranchName::Bl => "",
    }
}
