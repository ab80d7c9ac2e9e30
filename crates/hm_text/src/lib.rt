//! Instructions as text: printed, their width told of a text alone, and read where the labels are known.
#![tactic(auto)]

ghost use Rattle.std.specs.Prelude.{◌≡◌, ◌↔◌, ℕ, ◌%◌, Ok, Err, MatchResult, IfOk, option_map};
ghost use Rattle.std.specs.FinMap as map;
ghost use Rattle.hm_isa.specs.declared.Instr.{Instr};
ghost use Rattle.hm_line.specs.declared.errors.TextErr.{TextErr};
ghost use Rattle.hm_line.specs.Texts.{IsOfForm};
ghost use Rattle.hm_text_tables.specs.Refusals.{IsAtFirstWord, IsShapeRefused, IsTextRefused};
ghost use Rattle.hm_text_tables.specs.Texts.{HasWidth, IsOnlyShape, IsShape, IsTextOf};
ghost use Rattle.hm_tokens.specs.Tokens.{tok};

use hm_isa::Instr;
pub use hm_line::{AsmKind, Labels, TextErr};
use hm_line::{Form, check_form, column, last_column};
use hm_text_tables::{Shape, address_in, row_at, row_shape};
pub use hm_text_tables::{print_instr, text_law};
use hm_tokens::skip;

/// The refusal of a text that no row has.
fn no_row(text: &[u8]) -> TextErr
    ensures kind { result.kind ≡ AsmKind.Row }
    ensures column { IsAtFirstWord text.now result.column }
{
    TextErr {
        column: column(text, skip(text)),
        kind: AsmKind::Row,
    }
}

/// The shape of a text that is of the form.
fn formed_shape(text: &[u8]) -> Result<Shape<'_>, TextErr>
    requires form { IsOfForm Form.Instruction text.now }
    ensures told { MatchResult result (λ s. IsShape text.now s.width (option_map tok s.label)) (λ e. IsShapeRefused e.kind text.now e.column) }
    ensures only { IfOk result (λ s. IsOnlyShape text.now s.width (option_map tok s.label)) }
{
    match row_shape(text) {
        Some(shape) => Ok(shape),
        None => Err(no_row(text)),
    }
}

/// The shape of a text of an instruction.
fn shape_of(text: &[u8]) -> Result<Shape<'_>, TextErr>
    ensures told { MatchResult result (λ s. IsShape text.now s.width (option_map tok s.label)) (λ e. IsShapeRefused e.kind text.now e.column) }
    ensures only { IfOk result (λ s. IsOnlyShape text.now s.width (option_map tok s.label)) }
{
    match check_form(Form::Instruction, text) {
        Ok(()) => formed_shape(text),
        Err(column) => Err(TextErr {
            column,
            kind: AsmKind::Syntax,
        }),
    }
}

/// How many bytes the code of the instruction has that a text names, wherever it stands and whatever its label names: 2 or 4. A text
/// that is not of the form is refused as Syntax, at the first token or byte that leaves it; one that no row has is refused as Row,
/// at its first word.
pub fn shape(text: &[u8]) -> Result<u32, TextErr>
    ensures width { (n : ℕ) → (HasWidth text.now n ↔ (result ≡ Ok n)) }
    ensures refused { (e : TextErr) → (IsShapeRefused e.kind text.now e.column ↔ (result ≡ Err e)) }
{
    match shape_of(text) {
        Ok(shape) => Ok(shape.width),
        Err(e) => Err(e),
    }
}

/// The instruction that a text names, which stands at `pc`, where the labels say what names name. Besides what `shape` refuses, a
/// name that is not defined is refused as Missing, and an address that no instruction with this text names from `pc` as Offset,
/// both at the label.
pub fn parse_instr(text: &[u8], pc: u32, labels: &Labels) -> Result<Instr, TextErr>
    requires even { pc % 2 ≡ 0 }
    ensures read { (i : Instr) → (IsTextOf text.now pc (map.get labels.now) i ↔ (result ≡ Ok i)) }
    ensures refused { (e : TextErr) → (IsTextRefused e.kind text.now pc (map.get labels.now) e.column ↔ (result ≡ Err e)) }
{
    match shape_of(text) {
        Ok(shape) => match address_in(shape.label, labels) {
            Some(address) => match row_at(text, pc, address) {
                Some(i) => Ok(i),
                None => Err(TextErr {
                    column: last_column(text),
                    kind: AsmKind::Offset,
                }),
            },
            None => Err(TextErr {
                column: last_column(text),
                kind: AsmKind::Missing,
            }),
        },
        Err(e) => Err(e),
    }
}
