//! Names of rows, by their mnemonics.

ghost use Rattle.std.specs.Prelude.{◌≡◌, ◌<◌, IfSome};
ghost use Rattle.hm_text_rows.specs.Names.{block_masks, named, sum_names};
ghost use Rattle.hm_text16_rows.specs.Mnemonics.{block_first_word, byte_mnemonic, hint_mnemonic, jump_mnemonic, logic_mnemonic, masking_mnemonic};
ghost use Rattle.hm_text16_rows.specs.Mnemonics.{plain_mnemonic, shift_mnemonic, stack_sum_mnemonic, sum_mnemonic, swap_mnemonic, word_mnemonic};
ghost use Rattle.hm_text16_rows.specs.Mnemonics.{zero_mnemonic};
ghost use Rattle.hm_text16_codes.specs.Names.{byte_names, hint_names, jump_names, logic_names, masking_names, plain_names, shift_names, swap_names};
ghost use Rattle.hm_text16_codes.specs.Names.{word_names, zero_names};

use hm_isa::{
    ByteName, HintName, JumpName, LogicName, MaskingName, PlainName, ShiftName, SumName, SwapName,
    WordName, ZeroName,
};
use hm_text_rows::named;

/// The name of a row S1.
pub fn shift_name(mnemonic: &[u8]) -> Option<ShiftName>
    ensures { result ≡ named shift_mnemonic shift_names mnemonic.now }
{
    let names = &[
        (ShiftName::Lsl, "lsls"),
        (ShiftName::Lsr, "lsrs"),
        (ShiftName::Asr, "asrs"),
    ];
    named(names, mnemonic)
}

/// The name of a row S2 or S3.
pub fn sum_name(mnemonic: &[u8]) -> Option<SumName>
    ensures { result ≡ named sum_mnemonic sum_names mnemonic.now }
{
    let names = &[(SumName::Add, "adds"), (SumName::Sub, "subs")];
    named(names, mnemonic)
}

/// The name of a row S4.
pub fn byte_name(mnemonic: &[u8]) -> Option<ByteName>
    ensures { result ≡ named byte_mnemonic byte_names mnemonic.now }
{
    let names = &[
        (ByteName::Mov, "movs"),
        (ByteName::Cmp, "cmp"),
        (ByteName::Add, "adds"),
        (ByteName::Sub, "subs"),
    ];
    named(names, mnemonic)
}

/// The name of a row S5.
pub fn logic_name(mnemonic: &[u8]) -> Option<LogicName>
    ensures { result ≡ named logic_mnemonic logic_names mnemonic.now }
{
    let names = &[
        (LogicName::Ands, "ands"),
        (LogicName::Eors, "eors"),
        (LogicName::Lsls, "lsls"),
        (LogicName::Lsrs, "lsrs"),
        (LogicName::Asrs, "asrs"),
        (LogicName::Adcs, "adcs"),
        (LogicName::Sbcs, "sbcs"),
        (LogicName::Rors, "rors"),
        (LogicName::Tst, "tst"),
        (LogicName::Rsbs, "rsbs"),
        (LogicName::Cmp, "cmp"),
        (LogicName::Cmn, "cmn"),
        (LogicName::Orrs, "orrs"),
        (LogicName::Muls, "muls"),
        (LogicName::Bics, "bics"),
        (LogicName::Mvns, "mvns"),
    ];
    named(names, mnemonic)
}

/// The name of a row S10.
pub fn stack_sum_name(mnemonic: &[u8]) -> Option<SumName>
    ensures { result ≡ named stack_sum_mnemonic sum_names mnemonic.now }
{
    let names = &[(SumName::Add, "add"), (SumName::Sub, "sub")];
    named(names, mnemonic)
}

/// The name of a row S12.
pub fn swap_name(mnemonic: &[u8]) -> Option<SwapName>
    ensures { result ≡ named swap_mnemonic swap_names mnemonic.now }
{
    let names = &[
        (SwapName::Rev, "rev"),
        (SwapName::Rev16, "rev16"),
        (SwapName::Revsh, "revsh"),
    ];
    named(names, mnemonic)
}

/// The name of a row S13.
pub fn masking_name(mnemonic: &[u8]) -> Option<MaskingName>
    ensures { result ≡ named masking_mnemonic masking_names mnemonic.now }
{
    let names = &[(MaskingName::Cpsie, "cpsie"), (MaskingName::Cpsid, "cpsid")];
    named(names, mnemonic)
}

/// The name of a row S16.
pub fn plain_name(mnemonic: &[u8]) -> Option<PlainName>
    ensures { result ≡ named plain_mnemonic plain_names mnemonic.now }
{
    let names = &[
        (PlainName::Str, "str"),
        (PlainName::Ldr, "ldr"),
        (PlainName::Strb, "strb"),
        (PlainName::Ldrb, "ldrb"),
        (PlainName::Strh, "strh"),
        (PlainName::Ldrh, "ldrh"),
    ];
    named(names, mnemonic)
}

/// The name of a row S17.
pub fn word_name(mnemonic: &[u8]) -> Option<WordName>
    ensures { result ≡ named word_mnemonic word_names mnemonic.now }
{
    let names = &[(WordName::Str, "str"), (WordName::Ldr, "ldr")];
    named(names, mnemonic)
}

/// The name of a row S19.
pub fn hint_name(mnemonic: &[u8]) -> Option<HintName>
    ensures { result ≡ named hint_mnemonic hint_names mnemonic.now }
{
    let names = &[
        (HintName::Nop, "nop"),
        (HintName::Yield, "yield"),
        (HintName::Wfe, "wfe"),
        (HintName::Wfi, "wfi"),
        (HintName::Sev, "sev"),
    ];
    named(names, mnemonic)
}

/// The name of a row S23.
pub fn jump_name(mnemonic: &[u8]) -> Option<JumpName>
    ensures { result ≡ named jump_mnemonic jump_names mnemonic.now }
{
    let names = &[(JumpName::Bx, "bx"), (JumpName::Blx, "blx")];
    named(names, mnemonic)
}

/// The name of a row S24.
pub fn zero_name(mnemonic: &[u8]) -> Option<ZeroName>
    ensures { result ≡ named zero_mnemonic zero_names mnemonic.now }
{
    let names = &[(ZeroName::Cbz, "cbz"), (ZeroName::Cbnz, "cbnz")];
    named(names, mnemonic)
}

/// The mask of a row S21 under a condition with the low bit 0; under another it is 16 less this.
pub fn even_mask(mnemonic: &[u8]) -> Option<u32>
    ensures value { result ≡ named (block_first_word 0) block_masks mnemonic.now }
    ensures below { IfSome result (λ mask. mask < 16) }
{
    let masks = &[
        (1, "itttt"),
        (2, "ittt"),
        (3, "ittte"),
        (4, "itt"),
        (5, "ittet"),
        (6, "itte"),
        (7, "ittee"),
        (8, "it"),
        (9, "itett"),
        (10, "itet"),
        (11, "itete"),
        (12, "ite"),
        (13, "iteet"),
        (14, "itee"),
        (15, "iteee"),
    ];
    named(masks, mnemonic)
}
