//! Rows that are no vector rows, read from tokens: that of the code that these are given, if it has them.

ghost use Rattle.std.specs.Prelude.{◌≡◌, IfSome, Option, Some, map, option_map};
ghost use Rattle.hm_isa.specs.declared.Instr.{Instr};
ghost use Rattle.hm_isa.specs.declared.widths.ByWidth.{ByWidth};
ghost use Rattle.hm_isa.specs.declared.widths.NarrowRow.{NarrowRow};
ghost use Rattle.hm_isa.specs.declared.widths.WideRow.{WideRow};
ghost use Rattle.hm_isa.specs.Widths.{by_width};
ghost use Rattle.hm_isa.specs.Code.{width_of};
ghost use Rattle.hm_text_tables.specs.Tables.{HasTokens, IsRowOf, Seen, label_of};
ghost use Rattle.hm_tokens.specs.Ranges.{normal};
ghost use Rattle.hm_tokens.specs.Tokens.{Tok, tok};

use crate::labels::label_in;
use crate::texts::{has_label, is_row_at};
use hm_enc16::decode16;
use hm_enc32::decode32;
use hm_isa::{Instr, width};
use hm_tokens::{Token, single_registers};

/// What is the same for each row with a text, wherever it stands and whatever its label names.
#[derive(Clone, Copy)]
pub struct Shape<'a> {
    /// How many bytes its code has.
    pub width: u32,
    /// Its label, which is the last token: a number or a name. None where it has none.
    pub label: Option<Token<'a>>,
}

/// The last code of one halfword.
const LAST_NARROW: u64 = 0xffff;

/// The last code of 32 bits.
const LAST_WIDE: u64 = 0xffff_ffff;

/// The row of one halfword that has these tokens, of which none is a range.
fn narrow_row(tokens: &[Token<'_>], pc: u32, address: u32) -> Option<Instr>
    ensures found { IfSome result (λ i. IsRowOf (map tok tokens.now) pc address i) }
    ensures only { (i : Instr) (r : NarrowRow) → by_width i ≡ ByWidth.Narrow r → IsRowOf (map tok tokens.now) pc address i → result ≡ Some i }
{
    let code = hm_text16_codes::code_in(tokens, pc, address)?;
    if code > LAST_NARROW {
        return None;
    }
    let i = decode16(code as u16)?;
    if is_row_at(&i, tokens, pc, address) {
        return Some(i);
    }
    None
}

/// The row of two halfwords, no vector row, that has these tokens, of which none is a range.
fn wide_row(tokens: &[Token<'_>], pc: u32, address: u32) -> Option<Instr>
    ensures found { IfSome result (λ i. IsRowOf (map tok tokens.now) pc address i) }
    ensures only { (i : Instr) (r : WideRow) → by_width i ≡ ByWidth.Wide r → IsRowOf (map tok tokens.now) pc address i → result ≡ Some i }
{
    let code = hm_text32_codes::code_in(tokens, pc, address)?;
    if code > LAST_WIDE {
        return None;
    }
    let i = decode32(code as u32)?;
    if is_row_at(&i, tokens, pc, address) {
        return Some(i);
    }
    None
}

/// The row, no vector row, that has these tokens, of which none is a range.
fn row_with(tokens: &[Token<'_>], pc: u32, address: u32) -> Option<Instr>
    ensures found { IfSome result (λ i. IsRowOf (map tok tokens.now) pc address i) }
    ensures only { (i : Instr) → IsRowOf (map tok tokens.now) pc address i → result ≡ Some i }
{
    match narrow_row(tokens, pc, address) {
        Some(i) => Some(i),
        None => wide_row(tokens, pc, address),
    }
}

/// The row, no vector row, that stands at `pc` and has these tokens, with single registers or ranges in its list, where its label,
/// if it has one, names `address`; `dsb`, `dmb` and `isb` alone are those of `#15`. None where there is no such row.
pub fn read_row(tokens: &[Token<'_>], pc: u32, address: u32) -> Option<Instr>
    ensures found { IfSome result (λ i. IsRowOf (normal (map tok tokens.now)) pc address i) }
    ensures only { (i : Instr) → IsRowOf (normal (map tok tokens.now)) pc address i → result ≡ Some i }
{
    let single = single_registers(tokens)?;
    row_with(single.as_slice(), pc, address)
}

/// The shape of tokens of which none is a range. Each text with a label is that of a row at 0 whose label names 4.
fn single_shape<'a>(tokens: &[Token<'a>]) -> Option<Shape<'a>>
    ensures found { IfSome result (λ s. (i : Instr) × (t : Tok) × HasTokens i t (map tok tokens.now) × (s.width ≡ width_of i)
        × (option_map tok s.label ≡ label_of i t)) }
    ensures only { (i : Instr) (t : Tok) → HasTokens i t (map tok tokens.now)
        → option_map {U = Seen} (λ s. (s.width, option_map tok s.label)) result ≡ Some (width_of i, label_of i t) }
{
    let i = row_with(tokens, 0, 4)?;
    let label = label_in(has_label(&i), tokens);
    Some(Shape {
        width: width(&i),
        label,
    })
}

/// What is the same for each row, no vector row, with these tokens, wherever it stands and whatever its label names. None where no
/// row has them.
pub fn read_shape<'a>(tokens: &[Token<'a>]) -> Option<Shape<'a>>
    ensures found { IfSome result (λ s. (i : Instr) × (t : Tok) × HasTokens i t (normal (map tok tokens.now)) × (s.width ≡ width_of i)
        × (option_map tok s.label ≡ label_of i t)) }
    ensures only { (i : Instr) (t : Tok) → HasTokens i t (normal (map tok tokens.now))
        → option_map {U = Seen} (λ s. (s.width, option_map tok s.label)) result ≡ Some (width_of i, label_of i t) }
{
    let single = single_registers(tokens)?;
    single_shape(single.as_slice())
}
