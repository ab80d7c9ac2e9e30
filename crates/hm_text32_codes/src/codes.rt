//! The candidate code of a text: whether the row of this code has the text is asked later.

ghost use Rattle.std.specs.Prelude.{map};
ghost use Rattle.hm_text32_codes.specs.Asked.{IsBareCode, IsCodeAt, IsCodeIn, IsOtherCodeIn};
ghost use Rattle.hm_tokens.specs.Tokens.{tok};

use crate::data_codes::kind_code;
use crate::jumps::code_at_label;
use crate::names::data_kind;
use crate::operands::{Operands, read_wide_operands};
use hm_text_base::span;
use hm_text_rows::first_word;
use hm_tokens::Token;

/// All rows.
fn code_of(mnemonic: &[u8], o: &Operands, pc: u32, a: u32) -> Option<u64>
    ensures row { IsCodeAt (λ r. r) mnemonic.now o.now pc a result }
    ensures bare { IsBareCode mnemonic.now o.now result }
{
    if let Some(kind) = data_kind(mnemonic) {
        return Some(kind_code(kind, o));
    }
    code_at_label(mnemonic, o, pc, a)
}

/// A number for tokens at `pc`, where a label names `a`: the code of the row with these tokens, where there is one; else any, or None.
pub fn code_in(tokens: &[Token<'_>], pc: u32, a: u32) -> Option<u64>
    ensures code { IsCodeIn (map tok tokens.now) pc a result }
    ensures other { IsOtherCodeIn (map tok tokens.now) result }
{
    let (mnemonic, suffix) = span(b'.', first_word(tokens));
    let o = read_wide_operands(suffix, tokens);
    code_of(mnemonic, &o, pc, a)
}
