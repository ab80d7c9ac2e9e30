//! The first pass: where each line stands, and the labels.

ghost use Rattle.std.specs.Prelude.{◌≡◌, ◌<◌, ◌^◌, ℕ, List, length, true, IfOk, IfErr, IsOk, MatchResult, option_map};
ghost use Rattle.std.specs.FinMap.{empty};
ghost use Rattle.hm_asm.specs.FirstPass.{AreFine, IsFine, is_new, with_name};
ghost use Rattle.hm_source.specs.Lines.{name_of, source_lines};
ghost use Rattle.hm_source.specs.Places.{HasPlace, next_place};
ghost use Rattle.hm_asm.specs.Refusals.{IsFirstErr, IsLineErr};
ghost use Rattle.hm_source.specs.Shown.{ShowsSaid};
ghost use Rattle.hm_source.specs.Statements.{Said};

use crate::errors::{AsmErr, refused};
use hm_base::OutOfMemory;
use hm_line::{AsmKind, Labels, TextErr};
use hm_source::{Line, behind_statement, first_line, read_source_line};
use std::alloc::Global;

/// Gives the label of a line, if it has one, its address; false where the name is there already.
fn define(labels: &mut Labels, label: Option<&[u8]>, at: u32) -> Result<bool, OutOfMemory>
    ensures told { IfOk result (λ new. new ≡ is_new labels.old (option_map (λ n. n.now) label.entry)) }
    ensures added { IfOk result (λ new. new ≡ true → labels.new ≡ with_name labels.old (option_map (λ n. n.now) label.entry) at) }
{
    match label {
        Some(name) => labels.add(name, at),
        None => Ok(true),
    }
}

/// Where the next line stands behind one that was read, if this has its place.
fn place(line: &Line<'_>, at: u32) -> Result<u32, TextErr>
    ensures place { (text : List ℕ) (said : Said) → ShowsSaid text line.now.statement said
        → MatchResult result (λ b. HasPlace said at × (b ≡ next_place said at))
        (λ e. (HasPlace said at → ⊥) × (e.kind ≡ AsmKind.Place) × (e.column ≡ line.now.parts.column)) }
{
    match behind_statement(line.statement, at) {
        Some(next) => Ok(next),
        None => Err(TextErr {
            column: line.parts.column,
            kind: AsmKind::Place,
        }),
    }
}

/// The refusal of a line whose label is there already.
fn double(line: &Line<'_>) -> TextErr
    ensures kind { result.kind ≡ AsmKind.Double }
    ensures column { result.column ≡ line.now.parts.label_column }
{
    TextErr {
        column: line.parts.label_column,
        kind: AsmKind::Double,
    }
}

/// Does the first pass on a line that has a number and stands at an address, and answers where the next line stands.
fn take_line(line: &[u8], number: u32, at: u32, labels: &mut Labels) -> Result<u32, AsmErr>
    requires small { length line.now < 2 ^ 31 }
    ensures fine { IfOk result (λ next. (said : Said) × IsFine labels.old at line.now said × (next ≡ next_place said at)) }
    ensures named { IsOk result → labels.new ≡ with_name labels.old (name_of line.now) at }
    ensures refused { IfErr result (λ e. IsLineErr labels.old at line.now number e) }
{
    let read = match read_source_line(line) {
        Ok(read) => read,
        Err(e) => return Err(refused(number, e)),
    };
    if !define(labels, read.parts.label, at)? {
        return Err(refused(number, double(&read)));
    }
    match place(&read, at) {
        Ok(next) => Ok(next),
        Err(e) => Err(refused(number, e)),
    }
}

/// The labels of a source, where the first pass refuses none of its lines.
pub fn first_pass(alloc: Global, source: &[u8]) -> Result<Labels, AsmErr>
    requires small { length source.now < 2 ^ 31 }
    ensures fine { IfOk result (λ labels. AreFine empty 0 (source_lines source.now) labels) }
    ensures refused { IfErr result (λ e. IsFirstErr source.now e) }
{
    let mut labels = Labels::new(alloc);
    let mut at = 0;
    let mut number = 1;
    let mut rest = source;
    while !rest.is_empty() {
        let (line, behind) = first_line(rest);
        at = take_line(line, number, at, &mut labels)?;
        number += 1;
        rest = behind;
    }
    Ok(labels)
}
