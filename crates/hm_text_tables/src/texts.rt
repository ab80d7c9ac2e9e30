//! Whether tokens are a row's, whether a row has a label, and what is printed of one; vector rows have texts of their own.

ghost use Rattle.std.specs.Prelude.{◌≡◌, ◌↔◌, IsTrue, Some, map};
ghost use Rattle.hm_isa.specs.declared.Instr.{Instr};
ghost use Rattle.hm_isa.specs.declared.widths.ByWidth.{ByWidth};
ghost use Rattle.hm_isa.specs.Widths.{by_width};
ghost use Rattle.hm_text_tables.specs.Tables.{AreRowTokens, IsRowOf, has_label, printed_by};
ghost use Rattle.hm_text32_rows.specs.Rows.{other_tokens};
ghost use Rattle.hm_tokens.specs.Tokens.{tok};

use crate::labels::{has_text, print_with, reaches};
use arrayvec::ArrayString;
use hm_isa::{ByWidth, Instr, NarrowRow, WideRow, by_width};
use hm_tokens::Token;

/// The text of a row of one halfword that stands at `pc`.
pub fn print_narrow(row: &NarrowRow, pc: u32) -> ArrayString<96>
    ensures text { result.bytes ≡ printed_by (ByWidth.Narrow row.now) pc }
{
    print_with(
        &hm_text16_rows::row_text(row),
        hm_text16_rows::target(row, pc),
    )
}

/// The text of a row of two halfwords, no vector row, that stands at `pc`.
pub fn print_wide(row: &WideRow, pc: u32) -> ArrayString<96>
    ensures text { result.bytes ≡ printed_by (ByWidth.Wide row.now) pc }
{
    print_with(
        &hm_text32_rows::row_text(row),
        hm_text32_rows::target(row, pc),
    )
}

/// Whether the last operand of a row is a label.
pub fn has_label(i: &Instr) -> bool
    ensures value { result ≡ has_label i.now }
{
    match by_width(i) {
        ByWidth::Narrow(row) => hm_text16_rows::has_label(&row),
        ByWidth::Wide(row) => hm_text32_rows::has_label(&row),
        ByWidth::Vector(_) => false,
    }
}

/// Whether tokens are those of a row's other text.
fn is_other(row: &WideRow, tokens: &[Token<'_>]) -> bool
    ensures { IsTrue result ↔ (other_tokens row.now ≡ Some (map tok tokens.now)) }
{
    match hm_text32_rows::other_text(row) {
        Some(text) => text.has(tokens),
        None => false,
    }
}

/// Whether tokens are those of a row of one halfword.
fn is_narrow_text(row: &NarrowRow, tokens: &[Token<'_>]) -> bool
    ensures { IsTrue result ↔ AreRowTokens (ByWidth.Narrow row.now) (map tok tokens.now) }
{
    has_text(
        &hm_text16_rows::row_text(row),
        hm_text16_rows::has_label(row),
        tokens,
    )
}

/// Whether tokens are those of a row of two halfwords, no vector row.
fn is_wide_text(row: &WideRow, tokens: &[Token<'_>]) -> bool
    ensures { IsTrue result ↔ AreRowTokens (ByWidth.Wide row.now) (map tok tokens.now) }
{
    let printed = has_text(
        &hm_text32_rows::row_text(row),
        hm_text32_rows::has_label(row),
        tokens,
    );
    let other = is_other(row, tokens);
    printed || other
}

/// Whether an instruction is a row, no vector row, that stands at `pc` and has these tokens, with a label that names an address.
pub fn is_row_at(i: &Instr, tokens: &[Token<'_>], pc: u32, address: u32) -> bool
    ensures { IsTrue result ↔ IsRowOf (map tok tokens.now) pc address i.now }
{
    match by_width(i) {
        ByWidth::Narrow(row) => {
            let is_text = is_narrow_text(&row, tokens);
            is_text && reaches(hm_text16_rows::target(&row, pc), address)
        }
        ByWidth::Wide(row) => {
            let is_text = is_wide_text(&row, tokens);
            is_text && reaches(hm_text32_rows::target(&row, pc), address)
        }
        ByWidth::Vector(_) => false,
    }
}
