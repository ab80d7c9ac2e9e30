//! The lines of a source, and what each of them says.

ghost use Rattle.std.specs.Prelude.{◌≡◌, ◌<◌, ◌≤◌, ◌^◌, ◌∷◌, length, IfErr, IfOk, IsOk, option_map};
ghost use Rattle.hm_source.specs.Lines.{name_column, name_of, shifted, source_lines, text_column, text_of};
ghost use Rattle.hm_source.specs.Unread.{IsUnread};
ghost use Rattle.hm_source.specs.Shown.{ShowsSaid};
ghost use Rattle.hm_source.specs.Statements.{Said, Says};
ghost use Rattle.hm_line.specs.Sources.{IsLine};

use crate::statements::{Statement, read_statement};
use hm_line::{AsmKind, SourceLine, TextErr, read_line};
use hm_text_base::span;

/// A line of a source that is of the form, and what it says.
#[derive(Clone, Copy)]
pub struct Line<'a> {
    pub parts: SourceLine<'a>,
    pub statement: Statement<'a>,
}

/// The first line of a text that has a byte, and what stands behind its end.
pub fn first_line(text: &[u8]) -> (&[u8], &[u8])
    requires some { 0 < length text.now }
    ensures first { source_lines text.now ≡ result.0.now ∷ source_lines result.1.now }
    ensures within { length result.0.now ≤ length text.now }
    ensures shorter { length result.1.now < length text.now }
{
    let (line, from) = span(b'\n', text);
    if from.is_empty() {
        (line, from)
    } else {
        (line, &from[1..])
    }
}

impl Line<'_> {
    /// A refusal of its text, as one of the line; a column past 4,294,967,295 is told as that.
    pub fn refusal(&self, e: TextErr) -> TextErr
        requires some { 0 < self.now.parts.column }
        ensures kind { result.kind ≡ e.kind }
        ensures column { result.column ≡ shifted self.now.parts.column e.column }
    {
        TextErr {
            column: (self.parts.column - 1).saturating_add(e.column),
            kind: e.kind,
        }
    }
}

/// Reads a line whose parts are known.
fn with_statement(parts: SourceLine<'_>) -> Result<Line<'_>, TextErr>
    requires small { length parts.instruction.now < 2 ^ 31 }
    ensures said { IfOk result (λ l. (said : Said) × Says parts.entry.instruction.now said × ShowsSaid parts.entry.instruction.now l.statement said) }
    ensures only { (said : Said) → Says parts.entry.instruction.now said → IfOk result (λ l. ShowsSaid parts.entry.instruction.now l.statement said) }
    ensures same { IfOk result (λ l. l.parts ≡ parts.entry) }
    ensures none { IfErr result (λ e. ((said : Said) → Says parts.entry.instruction.now said → ⊥) × (e.kind ≡ AsmKind.Row) × (e.column ≡ parts.entry.column)) }
{
    match read_statement(parts.instruction) {
        Some(statement) => Ok(Line { parts, statement }),
        None => Err(TextErr {
            column: parts.column,
            kind: AsmKind::Row,
        }),
    }
}

/// Reads a line: its parts, and what it says. Where it is not of the form that is Syntax, and where it says nothing that there is,
/// Row.
pub fn read_source_line(line: &[u8]) -> Result<Line<'_>, TextErr>
    requires small { length line.now < 2 ^ 31 }
    ensures form { IsOk result → IsLine line.now }
    ensures said { IfOk result (λ l. (said : Said) × Says (text_of line.now) said × ShowsSaid (text_of line.now) l.statement said) }
    ensures only { (said : Said) → Says (text_of line.now) said → IfOk result (λ l. ShowsSaid (text_of line.now) l.statement said) }
    ensures text { IfOk result (λ l. l.parts.instruction.now ≡ text_of line.now) }
    ensures label { IfOk result (λ l. option_map (λ n. n.now) l.parts.label ≡ name_of line.now) }
    ensures columns { IfOk result (λ l. (l.parts.label_column ≡ name_column line.now) × (l.parts.column ≡ text_column line.now)) }
    ensures counted { IfOk result (λ l. 0 < l.parts.column) }
    ensures refused { IfErr result (λ e. IsUnread e.kind line.now e.column) }
{
    match read_line(line) {
        Ok(parts) => with_statement(parts),
        Err(column) => Err(TextErr {
            column,
            kind: AsmKind::Syntax,
        }),
    }
}
