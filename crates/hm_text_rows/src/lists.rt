//! Lists of registers in braces.

ghost use Rattle.std.specs.Prelude.{◌≡◌, ◌≤◌, ◌<◌, ◌+◌, ◌++◌, length};
ghost use Rattle.hm_isa.specs.Rules.{listed_in};
ghost use Rattle.hm_text_rows.specs.Shapes.{braces, listed, registers_from};
ghost use Rattle.hm_tokens.specs.Texts.{text_tokens};
ghost use Rattle.hm_tokens.specs.Tokens.{mark_token};

use crate::shapes::{marked, r, with};
use hm_tokens::{InstrText, Mark};

/// Whether register k stands in a list.
pub fn is_listed(list: u32, k: u32) -> bool
    requires { k < 16 }
    ensures { result ≡ listed_in list k }
{
    (list >> k) % 2 == 1
}

/// The text with those of n registers from register k on that stand in a list, the first behind a mark and the others behind commas.
fn and_registers(text: InstrText, before: Mark, k: u32, n: u32, list: u32) -> InstrText
    requires below { k + n ≤ 16 }
    requires room { length text.operands.items + length (listed (mark_token before) (registers_from n k list)) ≤ 38 }
    ensures tokens { text_tokens result ≡ text_tokens text ++ listed (mark_token before) (registers_from n k list) }
    ensures room { length result.operands.items ≡ length text.operands.items + length (listed (mark_token before) (registers_from n k list)) }
{
    if n == 0 {
        return text;
    }
    if !is_listed(list, k) {
        return and_registers(text, before, k + 1, n - 1, list);
    }
    and_registers(
        with(marked(text, before), r(k)),
        Mark::Comma,
        k + 1,
        n - 1,
        list,
    )
}

/// The text with a list of registers in braces, of at most fourteen.
pub fn with_list(text: InstrText, list: u32) -> InstrText
    requires room { length text.operands.items ≤ 8 }
    requires few { length (registers_from 16 0 list) ≤ 14 }
    ensures { text_tokens result ≡ text_tokens text ++ braces list }
{
    marked(
        and_registers(text, Mark::OpenBrace, 0, 16, list),
        Mark::CloseBrace,
    )
}
