//! Names of rows, by their mnemonics.

ghost use Rattle.std.specs.Prelude.{◌≡◌};
ghost use Rattle.hm_text_rows.specs.Names.{named, named_with_bit, sum_names};
ghost use Rattle.hm_text32_rows.specs.Mnemonics.{accumulate_mnemonic, barrier_mnemonic, bits_mnemonic, data_mnemonic, extract_mnemonic};
ghost use Rattle.hm_text32_rows.specs.Mnemonics.{half_mnemonic, long_mnemonic, operation_mnemonic, pair_mnemonic, saturate_mnemonic};
ghost use Rattle.hm_text32_rows.specs.Mnemonics.{select_mnemonic, stack_mnemonic, table_mnemonic, wide_branch_mnemonic};
ghost use Rattle.hm_text32_rows.specs.Mnemonics.{wide_list_mnemonic, wide_sum_mnemonic};
ghost use Rattle.hm_text32_codes.specs.Names.{accumulate_names, barrier_names, bits_names, data_names, extract_names, half_names};
ghost use Rattle.hm_text32_codes.specs.Names.{kind_in, kind_mnemonic, long_names, move_kinds};
ghost use Rattle.hm_text32_codes.specs.Names.{operation_names, pair_names, saturate_names, select_names};
ghost use Rattle.hm_text32_codes.specs.Names.{stack_names, table_names, kinds_of_shifts, wide_branch_names, wide_list_names};

use hm_isa::{
    AccumulateName, BarrierName, BitsName, DataName, ExtractName, HalfName, LongProductName,
    OperationName, PairName, SaturateName, SelectName, StackName, SumName, TableName,
    WideBranchName, WideListName,
};
use hm_text_rows::named;

/// What a mnemonic of rows T1, T2 and T8 says; a number 1 behind a name or alone says that the flags tell the result: DDI0553,
/// "Data-processing (modified immediate)", "Data-processing (shifted register)" and, of T8, as "LSL (register)".
#[derive(Clone, Copy)]
pub enum DataKind {
    /// A register for the result and a first one.
    Three(DataName, u32),
    /// A test, with no register for the result.
    Test(DataName),
    /// `mov` or `mvn`, with no first register.
    Move(DataName, u32),
    /// A shift through the carry.
    Carry(u32),
    /// A shift by a constant or by a register: 0 to 3 are `lsl`, `lsr`, `asr` and `ror`.
    Shift(u32, u32),
}

/// The name of a row T1 or T2 of two registers or more, and 1 where the mnemonic ends in `s`.
fn data_name(mnemonic: &[u8]) -> Option<(DataName, u32)>
    ensures { result ≡ named_with_bit data_mnemonic data_names mnemonic.now }
{
    let names = &[
        ((DataName::And, 0), "and"),
        ((DataName::And, 1), "ands"),
        ((DataName::Bic, 0), "bic"),
        ((DataName::Bic, 1), "bics"),
        ((DataName::Orr, 0), "orr"),
        ((DataName::Orr, 1), "orrs"),
        ((DataName::Orn, 0), "orn"),
        ((DataName::Orn, 1), "orns"),
        ((DataName::Eor, 0), "eor"),
        ((DataName::Eor, 1), "eors"),
        ((DataName::Add, 0), "add"),
        ((DataName::Add, 1), "adds"),
        ((DataName::Adc, 0), "adc"),
        ((DataName::Adc, 1), "adcs"),
        ((DataName::Sbc, 0), "sbc"),
        ((DataName::Sbc, 1), "sbcs"),
        ((DataName::Sub, 0), "sub"),
        ((DataName::Sub, 1), "subs"),
        ((DataName::Rsb, 0), "rsb"),
        ((DataName::Rsb, 1), "rsbs"),
    ];
    named(names, mnemonic)
}

/// What a mnemonic of a test, of `mov` or of `mvn` says.
fn move_kind(mnemonic: &[u8]) -> Option<DataKind>
    ensures { result ≡ named kind_mnemonic move_kinds mnemonic.now }
{
    let kinds = &[
        (DataKind::Test(DataName::And), "tst"),
        (DataKind::Test(DataName::Eor), "teq"),
        (DataKind::Test(DataName::Add), "cmn"),
        (DataKind::Test(DataName::Sub), "cmp"),
        (DataKind::Move(DataName::Orr, 0), "mov"),
        (DataKind::Move(DataName::Orr, 1), "movs"),
        (DataKind::Move(DataName::Orn, 0), "mvn"),
        (DataKind::Move(DataName::Orn, 1), "mvns"),
    ];
    named(kinds, mnemonic)
}

/// What the mnemonic of a shift says.
fn kind_of_shift(mnemonic: &[u8]) -> Option<DataKind>
    ensures { result ≡ named kind_mnemonic kinds_of_shifts mnemonic.now }
{
    let kinds = &[
        (DataKind::Carry(0), "rrx"),
        (DataKind::Carry(1), "rrxs"),
        (DataKind::Shift(0, 0), "lsl"),
        (DataKind::Shift(0, 1), "lsls"),
        (DataKind::Shift(1, 0), "lsr"),
        (DataKind::Shift(1, 1), "lsrs"),
        (DataKind::Shift(2, 0), "asr"),
        (DataKind::Shift(2, 1), "asrs"),
        (DataKind::Shift(3, 0), "ror"),
        (DataKind::Shift(3, 1), "rors"),
    ];
    named(kinds, mnemonic)
}

/// What a mnemonic of rows T1, T2 and T8 says.
pub fn data_kind(mnemonic: &[u8]) -> Option<DataKind>
    ensures { result ≡ kind_in mnemonic.now }
{
    if let Some((name, s)) = data_name(mnemonic) {
        return Some(DataKind::Three(name, s));
    }
    if let Some(kind) = move_kind(mnemonic) {
        return Some(kind);
    }
    kind_of_shift(mnemonic)
}

/// The name of a row T3.
pub fn wide_sum_name(mnemonic: &[u8]) -> Option<SumName>
    ensures { result ≡ named wide_sum_mnemonic sum_names mnemonic.now }
{
    let names = &[(SumName::Add, "addw"), (SumName::Sub, "subw")];
    named(names, mnemonic)
}

/// The name of a row T4.
pub fn half_name(mnemonic: &[u8]) -> Option<HalfName>
    ensures { result ≡ named half_mnemonic half_names mnemonic.now }
{
    let names = &[(HalfName::Movw, "movw"), (HalfName::Movt, "movt")];
    named(names, mnemonic)
}

/// The name of a row T5.
pub fn saturate_name(mnemonic: &[u8]) -> Option<SaturateName>
    ensures { result ≡ named saturate_mnemonic saturate_names mnemonic.now }
{
    let names = &[(SaturateName::Ssat, "ssat"), (SaturateName::Usat, "usat")];
    named(names, mnemonic)
}

/// The name of a row T6.
pub fn extract_name(mnemonic: &[u8]) -> Option<ExtractName>
    ensures { result ≡ named extract_mnemonic extract_names mnemonic.now }
{
    let names = &[(ExtractName::Sbfx, "sbfx"), (ExtractName::Ubfx, "ubfx")];
    named(names, mnemonic)
}

/// The name of a row T10.
pub fn bits_name(mnemonic: &[u8]) -> Option<BitsName>
    ensures { result ≡ named bits_mnemonic bits_names mnemonic.now }
{
    let names = &[
        (BitsName::Rev, "rev"),
        (BitsName::Rev16, "rev16"),
        (BitsName::Rbit, "rbit"),
        (BitsName::Revsh, "revsh"),
        (BitsName::Clz, "clz"),
    ];
    named(names, mnemonic)
}

/// The name of a row T11 of a product or a quotient.
pub fn operation_name(mnemonic: &[u8]) -> Option<OperationName>
    ensures { result ≡ named operation_mnemonic operation_names mnemonic.now }
{
    let names = &[
        (OperationName::Mul, "mul"),
        (OperationName::Sdiv, "sdiv"),
        (OperationName::Udiv, "udiv"),
    ];
    named(names, mnemonic)
}

/// The name of a row T11 that adds a product or takes it off.
pub fn accumulate_name(mnemonic: &[u8]) -> Option<AccumulateName>
    ensures { result ≡ named accumulate_mnemonic accumulate_names mnemonic.now }
{
    let names = &[(AccumulateName::Mla, "mla"), (AccumulateName::Mls, "mls")];
    named(names, mnemonic)
}

/// The name of a row T11 of a product of 64 bits.
pub fn long_name(mnemonic: &[u8]) -> Option<LongProductName>
    ensures { result ≡ named long_mnemonic long_names mnemonic.now }
{
    let names = &[
        (LongProductName::Smull, "smull"),
        (LongProductName::Umull, "umull"),
        (LongProductName::Smlal, "smlal"),
        (LongProductName::Umlal, "umlal"),
    ];
    named(names, mnemonic)
}

/// The name of a row T13.
pub fn pair_name(mnemonic: &[u8]) -> Option<PairName>
    ensures { result ≡ named pair_mnemonic pair_names mnemonic.now }
{
    let names = &[(PairName::Strd, "strd"), (PairName::Ldrd, "ldrd")];
    named(names, mnemonic)
}

/// The name of a row T14.
pub fn wide_list_name(mnemonic: &[u8]) -> Option<WideListName>
    ensures { result ≡ named wide_list_mnemonic wide_list_names mnemonic.now }
{
    let names = &[
        (WideListName::Stmia, "stmia"),
        (WideListName::Ldmia, "ldmia"),
        (WideListName::Stmdb, "stmdb"),
        (WideListName::Ldmdb, "ldmdb"),
    ];
    named(names, mnemonic)
}

/// The name of a row T15.
pub fn stack_name(mnemonic: &[u8]) -> Option<StackName>
    ensures { result ≡ named stack_mnemonic stack_names mnemonic.now }
{
    let names = &[(StackName::Vpush, "vpush"), (StackName::Vpop, "vpop")];
    named(names, mnemonic)
}

/// The name of a row T16 without a condition.
pub fn wide_branch_name(mnemonic: &[u8]) -> Option<WideBranchName>
    ensures { result ≡ named wide_branch_mnemonic wide_branch_names mnemonic.now }
{
    let names = &[(WideBranchName::B, "b"), (WideBranchName::Bl, "bl")];
    named(names, mnemonic)
}

/// The name of a row T17.
pub fn table_name(mnemonic: &[u8]) -> Option<TableName>
    ensures { result ≡ named table_mnemonic table_names mnemonic.now }
{
    let names = &[(TableName::Tbb, "tbb"), (TableName::Tbh, "tbh")];
    named(names, mnemonic)
}

/// The name of a barrier, a row T19.
pub fn barrier_name(mnemonic: &[u8]) -> Option<BarrierName>
    ensures { result ≡ named barrier_mnemonic barrier_names mnemonic.now }
{
    let names = &[
        (BarrierName::Dsb, "dsb"),
        (BarrierName::Dmb, "dmb"),
        (BarrierName::Isb, "isb"),
    ];
    named(names, mnemonic)
}

/// The name of a row T20.
pub fn select_name(mnemonic: &[u8]) -> Option<SelectName>
    ensures { result ≡ named select_mnemonic select_names mnemonic.now }
{
    let names = &[
        (SelectName::Csel, "csel"),
        (SelectName::Csinc, "csinc"),
        (SelectName::Csinv, "csinv"),
        (SelectName::Csneg, "csneg"),
    ];
    named(names, mnemonic)
}
