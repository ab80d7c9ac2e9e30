//! The mnemonics of the rows of one halfword.

ghost use Rattle.std.specs.Prelude.{◌≡◌, ◌≤◌, ◌<◌, ◌%◌};
ghost use Rattle.hm_text16_rows.specs.Mnemonics.{block_condition, byte_mnemonic, hint_mnemonic, jump_mnemonic, letters_above};
ghost use Rattle.hm_text16_rows.specs.Mnemonics.{logic_mnemonic, masking_mnemonic};
ghost use Rattle.hm_text16_rows.specs.Mnemonics.{plain_mnemonic, shift_mnemonic, stack_sum_mnemonic, sum_mnemonic, swap_mnemonic, word_mnemonic, zero_mnemonic};

use hm_isa::{
    ByteName, HintName, JumpName, LogicName, MaskingName, PlainName, ShiftName, SumName, SwapName,
    WordName, ZeroName,
};
use hm_text_rows::access_mnemonic;
use hm_tokens::condition_name;

/// Of a row S1.
pub fn shift_mnemonic(name: ShiftName) -> &'static str
    ensures { result.now ≡ shift_mnemonic name }
{
    match name {
        ShiftName::Lsl => "lsls",
        ShiftName::Lsr => "lsrs",
        ShiftName::Asr => "asrs",
    }
}

/// Of rows S2 and S3.
pub fn sum_mnemonic(name: SumName) -> &'static str
    ensures { result.now ≡ sum_mnemonic name }
{
    match name {
        SumName::Add => "adds",
        SumName::Sub => "subs",
    }
}

/// Of a row S10.
pub fn stack_sum_mnemonic(name: SumName) -> &'static str
    ensures { result.now ≡ stack_sum_mnemonic name }
{
    match name {
        SumName::Add => "add",
        SumName::Sub => "sub",
    }
}

/// Of a row S4.
pub fn byte_mnemonic(name: ByteName) -> &'static str
    ensures { result.now ≡ byte_mnemonic name }
{
    match name {
        ByteName::Mov => "movs",
        ByteName::Cmp => "cmp",
        ByteName::Add => "adds",
        ByteName::Sub => "subs",
    }
}

/// Of a row S5.
pub fn logic_mnemonic(name: LogicName) -> &'static str
    ensures { result.now ≡ logic_mnemonic name }
{
    match name {
        LogicName::Ands => "ands",
        LogicName::Eors => "eors",
        LogicName::Lsls => "lsls",
        LogicName::Lsrs => "lsrs",
        LogicName::Asrs => "asrs",
        LogicName::Adcs => "adcs",
        LogicName::Sbcs => "sbcs",
        LogicName::Rors => "rors",
        LogicName::Tst => "tst",
        LogicName::Rsbs => "rsbs",
        LogicName::Cmp => "cmp",
        LogicName::Cmn => "cmn",
        LogicName::Orrs => "orrs",
        LogicName::Muls => "muls",
        LogicName::Bics => "bics",
        LogicName::Mvns => "mvns",
    }
}

/// Of a row S12.
pub fn swap_mnemonic(name: SwapName) -> &'static str
    ensures { result.now ≡ swap_mnemonic name }
{
    match name {
        SwapName::Rev => "rev",
        SwapName::Rev16 => "rev16",
        SwapName::Revsh => "revsh",
    }
}

/// Of a row S13.
pub fn masking_mnemonic(name: MaskingName) -> &'static str
    ensures { result.now ≡ masking_mnemonic name }
{
    match name {
        MaskingName::Cpsie => "cpsie",
        MaskingName::Cpsid => "cpsid",
    }
}

/// Of a row S16.
pub fn plain_mnemonic(name: PlainName) -> &'static str
    ensures { result.now ≡ plain_mnemonic name }
{
    access_mnemonic(name.access())
}

/// Of a row S17.
pub fn word_mnemonic(name: WordName) -> &'static str
    ensures { result.now ≡ word_mnemonic name }
{
    access_mnemonic(name.access())
}

/// Of a row S19.
pub fn hint_mnemonic(name: HintName) -> &'static str
    ensures { result.now ≡ hint_mnemonic name }
{
    match name {
        HintName::Nop => "nop",
        HintName::Yield => "yield",
        HintName::Wfe => "wfe",
        HintName::Wfi => "wfi",
        HintName::Sev => "sev",
    }
}

/// Of a row S23.
pub fn jump_mnemonic(name: JumpName) -> &'static str
    ensures { result.now ≡ jump_mnemonic name }
{
    match name {
        JumpName::Bx => "bx",
        JumpName::Blx => "blx",
    }
}

/// Of a row S24.
pub fn zero_mnemonic(name: ZeroName) -> &'static str
    ensures { result.now ≡ zero_mnemonic name }
{
    match name {
        ZeroName::Cbz => "cbz",
        ZeroName::Cbnz => "cbnz",
    }
}

/// The condition of a block, `al` among them.
pub fn block_condition(c: u32) -> &'static str
    requires { c < 15 }
    ensures { result.now ≡ block_condition c }
{
    if c == 14 { "al" } else { condition_name(c) }
}

/// The letters of a block under a condition with an even number: t where the bit of the mask is 0, for each bit above its lowest 1.
fn even_letters(mask: u32) -> &'static str
    requires { mask ≤ 16 }
    ensures { result.now ≡ letters_above 0 mask }
{
    match mask {
        1 => "ttt",
        2 => "tt",
        3 => "tte",
        4 => "t",
        5 => "tet",
        6 => "te",
        7 => "tee",
        9 => "ett",
        10 => "et",
        11 => "ete",
        12 => "e",
        13 => "eet",
        14 => "ee",
        15 => "eee",
        _ => "",
    }
}

/// The letters of a block, behind `it`: under a condition with an odd number a mask is 16 less the one under an even number.
#[tactic(auto, using(crate::proofs::Letters::odd_letters))]
pub fn block_letters(c: u32, mask: u32) -> &'static str
    requires { mask < 16 }
    ensures { result.now ≡ letters_above (c % 2) mask }
{
    if c % 2 == 0 {
        even_letters(mask)
    } else {
        even_letters(16 - mask)
    }
}
