//! All tables: rows that are no vector rows, and then these; a text is of one of them at most.

ghost use Rattle.std.specs.Prelude.{◌≡◌, IfSome, Option, Some, option_map};
ghost use Rattle.hm_isa.specs.declared.Instr.{Instr};
ghost use Rattle.hm_isa.specs.Code.{width_of};
ghost use Rattle.hm_text_tables.specs.Tables.{HasText, IsRowAt, IsTokenText, IsVectorText, Seen, label_of, target};
ghost use Rattle.hm_text_rows.specs.Labels.{Reaches};
ghost use Rattle.hm_tokens.specs.Tokens.{Tok, tok};

use crate::reading::{Shape, read_row, read_shape};
use hm_isa::Instr;
use hm_textv::parse_v;
use hm_tokens::read_tokens;

/// The shape of a text of a row that is no vector row.
fn token_shape(text: &[u8]) -> Option<Shape<'_>>
    ensures found { IfSome result (λ s. (i : Instr) × (t : Tok) × IsTokenText text.now i t × (s.width ≡ width_of i)
        × (option_map tok s.label ≡ label_of i t)) }
    ensures only { (i : Instr) (t : Tok) → IsTokenText text.now i t
        → option_map {U = Seen} (λ s. (s.width, option_map tok s.label)) result ≡ Some (width_of i, label_of i t) }
{
    let tokens = read_tokens(text)?;
    read_shape(tokens.as_slice())
}

/// The shape of a text of a vector row.
fn vector_shape(text: &[u8]) -> Option<Shape<'_>>
    ensures found { IfSome result (λ s. (i : Instr) × (t : Tok) × IsVectorText text.now i × (s.width ≡ width_of i) × (option_map tok s.label ≡ label_of i t)) }
    ensures only { (i : Instr) (t : Tok) → IsVectorText text.now i
        → option_map {U = Seen} (λ s. (s.width, option_map tok s.label)) result ≡ Some (width_of i, label_of i t) }
{
    match parse_v(text) {
        Some(_row) => Some(Shape {
            width: 4,
            label: None,
        }),
        None => None,
    }
}

/// The shape of a text that some row has; None where none has it.
pub fn row_shape(text: &[u8]) -> Option<Shape<'_>>
    ensures found { IfSome result (λ s. (i : Instr) × (t : Tok) × HasText i t text.now × (s.width ≡ width_of i) × (option_map tok s.label ≡ label_of i t)) }
    ensures only { (i : Instr) (t : Tok) → HasText i t text.now
        → option_map {U = Seen} (λ s. (s.width, option_map tok s.label)) result ≡ Some (width_of i, label_of i t) }
{
    match token_shape(text) {
        Some(shape) => Some(shape),
        None => vector_shape(text),
    }
}

/// The row, no vector row, with a text that stands at `pc` and has a label, if it has one, that names an address.
fn token_row(text: &[u8], pc: u32, address: u32) -> Option<Instr>
    ensures found { IfSome result (λ i. (t : Tok) × IsTokenText text.now i t × Reaches (target i pc) address) }
    ensures only { (i : Instr) (t : Tok) → IsTokenText text.now i t → Reaches (target i pc) address → result ≡ Some i }
{
    let tokens = read_tokens(text)?;
    read_row(tokens.as_slice(), pc, address)
}

/// The vector row with a text.
fn vector_row(text: &[u8]) -> Option<Instr>
    ensures found { IfSome result (λ i. IsVectorText text.now i) }
    ensures only { (i : Instr) → IsVectorText text.now i → result ≡ Some i }
{
    match parse_v(text) {
        Some(v) => Some(Instr::Vector(v)),
        None => None,
    }
}

/// The row with a text that stands at `pc` and has a label, if it has one, that names an address; None where there is none.
pub fn row_at(text: &[u8], pc: u32, address: u32) -> Option<Instr>
    ensures found { IfSome result (λ i. IsRowAt text.now pc address i) }
    ensures only { (i : Instr) → IsRowAt text.now pc address i → result ≡ Some i }
{
    match token_row(text, pc, address) {
        Some(i) => Some(i),
        None => vector_row(text),
    }
}
