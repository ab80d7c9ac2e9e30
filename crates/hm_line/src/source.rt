//! A line of a source.

ghost use Rattle.std.specs.Prelude.{◌≡◌, ◌≤◌, ◌↔◌, ℕ, length, IfOk, IfSome, IsOk, Err, option_map};
ghost use Rattle.hm_text_base.specs.Reading.{ReadsSome};
ghost use Rattle.hm_line.specs.Sources.{before_comment, has_bad_label, instruction_of, label_of, IsLine, IsLineRefused};
ghost use Rattle.hm_line.specs.Texts.{IsOfForm, IsRefused, column};
ghost use Rattle.hm_tokens.specs.Tokens.{skip};

use crate::form::Form;
use crate::reading::{check_form, column};
use crate::tokens::{behind_mark, word_in_front};
use hm_text_base::span;
use hm_tokens::{Mark, is_label_name, skip};

/// A line of a source that is of the form.
#[derive(Clone, Copy)]
pub struct SourceLine<'a> {
    /// The name of its label, where it has one.
    pub label: Option<&'a [u8]>,
    /// The column of its first token.
    pub label_column: u32,
    /// Its instruction or directive, from the first word on, without the comment; empty where it has none.
    pub instruction: &'a [u8],
    /// The column of that.
    pub column: u32,
}

/// The first word and what stands behind its `:`, where `:` follows it.
fn label_of(text: &[u8]) -> Option<(&[u8], &[u8])>
    ensures read { ReadsSome (λ x. (x.0.now, x.1.now)) result (label_of text.now) }
    ensures shorter { IfSome result (λ x. length x.1.now ≤ length text.now) }
{
    let (word, rest) = word_in_front(text)?;
    let behind = behind_mark(Mark::Colon, rest)?;
    Some((word, behind))
}

/// Reads a line whose label, where it has one, is known, and what stands behind that.
fn labelled<'a>(
    text: &'a [u8],
    label: Option<&'a [u8]>,
    behind: &'a [u8],
) -> Result<SourceLine<'a>, u32>
    requires { length behind.now ≤ length text.now }
    ensures fits { IsOk result ↔ IsOfForm Form.Line text.entry.now }
    ensures refused { (c : ℕ) → (IsRefused Form.Line text.entry.now c ↔ (result ≡ Err c)) }
    ensures label { IfOk result (λ l. option_map (λ n. n.now) l.label ≡ option_map (λ n. n.now) label.entry) }
    ensures instruction { IfOk result (λ l. l.instruction.now ≡ skip behind.entry.now) }
    ensures columns { IfOk result (λ l. (l.label_column ≡ column text.entry.now (skip text.entry.now)) × (l.column ≡ column text.entry.now l.instruction.now)) }
{
    match check_form(Form::Line, text) {
        Ok(()) => {
            let instruction = skip(behind);
            Ok(SourceLine {
                label,
                label_column: column(text, skip(text)),
                instruction,
                column: column(text, instruction),
            })
        }
        Err(column) => Err(column),
    }
}

/// Reads a line of a source: its label, and its instruction or directive without the comment from `@` on. A line that is
/// not of the form is answered with the column of its first refusal, from 1.
pub fn read_line(line: &[u8]) -> Result<SourceLine<'_>, u32>
    ensures fits { IsOk result ↔ IsLine line.now }
    ensures refused { (c : ℕ) → (IsLineRefused line.now c ↔ (result ≡ Err c)) }
    ensures label { IfOk result (λ l. option_map (λ n. n.now) l.label ≡ option_map (λ x. x.0) (label_of (before_comment line.now))) }
    ensures instruction { IfOk result (λ l. l.instruction.now ≡ instruction_of (before_comment line.now)) }
    ensures columns { IfOk result (λ l. (l.label_column ≡ column (before_comment line.now) (skip (before_comment line.now)))
        × (l.column ≡ column (before_comment line.now) l.instruction.now)) }
{
    let (text, _comment) = span(b'@', line);
    match label_of(text) {
        Some((name, behind)) => {
            if is_label_name(name) {
                labelled(text, Some(name), behind)
            } else {
                Err(column(text, skip(text)))
            }
        }
        None => labelled(text, None, text),
    }
}
