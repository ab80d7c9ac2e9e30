//! Rows whose last operand may be a label: whether tokens are a row's, which is its label, whether this names an address, and
//! what is printed. The table of a row says what stands before its label, and whether it has one.

ghost use Rattle.std.specs.Prelude.{◌≡◌, ◌≤◌, ◌↔◌, List, IsTrue, length, map, option_map};
ghost use Rattle.hm_text_tables.specs.Labels.{AreLabelled, Labelled, label_where, with_label};
ghost use Rattle.hm_text_rows.specs.Labels.{Reaches, printed_with};
ghost use Rattle.hm_tokens.specs.Texts.{text_tokens};
ghost use Rattle.hm_tokens.specs.Tokens.{Tok, tok};

use arrayvec::ArrayString;
use hm_text_rows::{is_label, split_last};
use hm_tokens::{InstrText, Token};

/// Whether tokens are a text and a label behind it.
fn is_labelled(text: &InstrText, tokens: &[Token<'_>]) -> bool
    ensures { IsTrue result ↔ Labelled (text_tokens text.now) (map tok tokens.now) }
{
    match split_last(tokens) {
        Some((front, last)) => {
            if is_label(last) {
                text.has(front)
            } else {
                false
            }
        }
        None => false,
    }
}

/// Whether tokens are those of a row with this text, which stands before its label where it has one.
pub fn has_text(text: &InstrText, has_label: bool, tokens: &[Token<'_>]) -> bool
    ensures is { IsTrue result ↔ AreLabelled has_label (text_tokens text.now) (map tok tokens.now) }
{
    if has_label {
        is_labelled(text, tokens)
    } else {
        text.has(tokens)
    }
}

/// Whether the label of a row, which names `target` if the row has one, names an address.
pub fn reaches(target: Option<u32>, address: u32) -> bool
    ensures is { IsTrue result ↔ Reaches target address }
{
    match target {
        Some(named) => named == address,
        None => true,
    }
}

/// The label among the tokens of a row: the last of them, where the row has one.
pub fn label_in<'a>(has_label: bool, tokens: &[Token<'a>]) -> Option<Token<'a>>
    ensures label { (row : List Tok) (t : Tok) → with_label has_label row t ≡ map tok tokens.now → option_map tok result ≡ label_where has_label t }
{
    if !has_label {
        return None;
    }
    match split_last(tokens) {
        Some((_front, last)) => Some(last),
        None => None,
    }
}

/// What is printed of a row with this text, and with the address that its label names, where it has one.
pub fn print_with(text: &InstrText, address: Option<u32>) -> ArrayString<96>
    requires room { length (printed_with (text_tokens text.now) address) ≤ 96 }
    ensures text { result.bytes ≡ printed_with (text_tokens text.now) address }
{
    match address {
        Some(address) => text.print_at(address),
        None => text.print(),
    }
}
