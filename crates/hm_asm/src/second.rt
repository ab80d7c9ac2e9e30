//! The second pass: the bytes of each line, where the labels are known.

ghost use Rattle.std.specs.Prelude.{◌≡◌, ◌<◌, ◌≤◌, ◌%◌, ◌^◌, ℕ, List, length, IfOk, IfErr, OnOk};
ghost use Rattle.std.specs.FinMap.{empty, get};
ghost use Rattle.hm_source.specs.Directives.{Directed, Fits, bytes_each};
ghost use Rattle.hm_asm.specs.FirstPass.{AreFine, IsFine};
ghost use Rattle.hm_source.specs.Lines.{shifted, source_lines, text_column, text_of};
ghost use Rattle.hm_asm.specs.Making.{after_line, place_of, with_bytes};
ghost use Rattle.hm_source.specs.Places.{HasRoom};
ghost use Rattle.hm_asm.specs.Refusals.{IsSaidErr, IsSecondErr};
ghost use Rattle.hm_asm.specs.SecondPass.{AreAsked, AreBytes, AreGiven, low_bytes, number_of};
ghost use Rattle.hm_asm.specs.Ready.{IsReady, IsReadyAsked, IsReadyList};
ghost use Rattle.hm_source.specs.Shown.{ShowsDirected, ShowsValues, datum};
ghost use Rattle.hm_asm.specs.Segments.{joined};
ghost use Rattle.hm_source.specs.Statements.{Said, Says, directive, instruction};
ghost use Rattle.hm_base.specs.Image.{Segment};
ghost use Rattle.hm_line.specs.Labels.{LabelMap};
ghost use Rattle.hm_line.specs.Texts.{column};
ghost use Rattle.hm_text_tables.specs.Texts.{HasWidth};
ghost use Rattle.hm_tokens.specs.Tokens.{skip};

use crate::errors::{AsmErr, refused};
use crate::making::Making;
use hm_base::{Image, OutOfMemory};
use hm_code_bytes::code_bytes;
use hm_line::{AsmKind, Labels, TextErr, behind_mark, column};
use hm_source::{
    DatumSize, Directive, Item, Line, Statement, Values, first_line, item_at, padding,
    read_source_line,
};
use hm_text::parse_instr;
use hm_tokens::{Mark, skip};
use std::alloc::Global;

/// The number that an item stands for, of which a list keeps the low bytes. None where its name is not defined.
fn number_of(size: DatumSize, item: Item<'_>, labels: &Labels) -> Option<u64>
    requires fits { Fits size (datum item) }
    ensures value { result ≡ number_of (get labels.now) size (datum item.entry) }
{
    match item {
        Item::Literal { minus, number } => {
            if minus {
                Some(size.limit() - number)
            } else {
                Some(number)
            }
        }
        Item::Name(name) => Some(u64::from(labels.get(name)?)),
        Item::Beyond(name, more) => Some(u64::from(labels.get(name)?) + more),
    }
}

/// Adds the low bytes of a number.
fn add_number(out: &mut Making, size: DatumSize, number: u64) -> Result<(), OutOfMemory>
    requires room { HasRoom (place_of out.old) (bytes_each size) }
    ensures added { OnOk result (out.new ≡ with_bytes out.old (low_bytes (bytes_each size) number)) }
{
    let bytes = number.to_le_bytes();
    out.add(&bytes[..size.bytes() as usize])
}

/// The refusal of an item whose name is not defined, by what stands from it on of a line's text.
fn missing(line: &Line<'_>, from: &[u8]) -> TextErr
    requires within { length from.now ≤ length line.now.parts.instruction.now }
    requires counted { 0 < line.now.parts.column }
    ensures kind { result.kind ≡ AsmKind.Missing }
    ensures column { result.column ≡ shifted line.now.parts.column (column line.now.parts.instruction.now (skip from.now)) }
{
    line.refusal(TextErr {
        column: column(line.parts.instruction, skip(from)),
        kind: AsmKind::Missing,
    })
}

/// Adds the values of a list that a line has.
fn add_values(
    values: &Values<'_>,
    line: &Line<'_>,
    number: u32,
    labels: &Labels,
    out: &mut Making,
) -> Result<(), AsmErr>
    requires counted { 0 < line.now.parts.column }
    requires ready { IsReadyList line.now.parts.instruction.now values.now (place_of out.old) }
    ensures given { (a : Directed) → ShowsValues line.now.parts.instruction.now values.now a
        → IfOk result (λ _. (bs : List ℕ) × AreAsked (get labels.now) (place_of out.old) a bs × (out.new ≡ with_bytes out.old bs)) }
    ensures refused { (a : Directed) → ShowsValues line.now.parts.instruction.now values.now a
        → IfErr result (λ e. IsSaidErr (get labels.now) (place_of out.old) line.now.parts.instruction.now line.now.parts.column number (directive a) e) }
{
    let mut rest = values.list;
    while let Some((item, behind)) = item_at(rest) {
        let Some(value) = number_of(values.size, item, labels) else {
            return Err(refused(number, missing(line, rest)));
        };
        if add_number(out, values.size, value).is_err() {
            return Err(AsmErr::OutOfMemory);
        }
        match behind_mark(Mark::Comma, behind) {
            Some(more) => rest = more,
            None => return Ok(()),
        }
    }
    Ok(())
}

/// Adds the code of the instruction that a line names.
fn add_instruction(
    line: &Line<'_>,
    number: u32,
    labels: &Labels,
    out: &mut Making,
) -> Result<(), AsmErr>
    requires counted { 0 < line.now.parts.column }
    requires even { place_of out.old % 2 ≡ 0 }
    requires room { (n : ℕ) → HasWidth line.now.parts.instruction.now n → HasRoom (place_of out.old) n }
    ensures given { (n : ℕ) → IfOk result
        (λ _. (bs : List ℕ) × AreBytes (get labels.now) (place_of out.old) line.now.parts.instruction.now (instruction n) bs
        × (out.new ≡ with_bytes out.old bs)) }
    ensures refused { (n : ℕ) → IfErr result
        (λ e. IsSaidErr (get labels.now) (place_of out.old) line.now.parts.instruction.now line.now.parts.column number (instruction n) e) }
{
    match parse_instr(line.parts.instruction, out.place(), labels) {
        Ok(i) => {
            let code = code_bytes(&i);
            out.add(code.as_slice())?;
            Ok(())
        }
        Err(e) => Err(refused(number, line.refusal(e))),
    }
}

/// Adds what a directive of a line asks for.
fn add_asked(
    asked: &Directive<'_>,
    line: &Line<'_>,
    number: u32,
    labels: &Labels,
    out: &mut Making,
) -> Result<(), AsmErr>
    requires counted { 0 < line.now.parts.column }
    requires ready { IsReadyAsked line.now.parts.instruction.now asked.now (place_of out.old) }
    ensures given { (a : Directed) → ShowsDirected line.now.parts.instruction.now asked.now a
        → IfOk result (λ _. (bs : List ℕ) × AreAsked (get labels.now) (place_of out.old) a bs × (out.new ≡ after_line out.old (directive a) bs)) }
    ensures refused { (a : Directed) → ShowsDirected line.now.parts.instruction.now asked.now a
        → IfErr result (λ e. IsSaidErr (get labels.now) (place_of out.old) line.now.parts.instruction.now line.now.parts.column number (directive a) e) }
{
    match asked {
        Directive::Org(to) => {
            out.move_to(*to)?;
            Ok(())
        }
        Directive::Align(multiple) => {
            let count = padding(multiple.bytes(), out.place());
            out.add_zeros(count)?;
            Ok(())
        }
        Directive::Space(count) => {
            out.add_zeros(*count)?;
            Ok(())
        }
        Directive::Values(values) => add_values(values, line, number, labels, out),
    }
}

/// Adds what a line gives that was read.
fn add_statement(
    line: &Line<'_>,
    number: u32,
    labels: &Labels,
    out: &mut Making,
) -> Result<(), AsmErr>
    requires ready { IsReady line.now (place_of out.old) }
    ensures given { (said : Said) → Says line.now.parts.instruction.now said
        → IfOk result (λ _. (bs : List ℕ) × AreBytes (get labels.now) (place_of out.old) line.now.parts.instruction.now said bs
        × (out.new ≡ after_line out.old said bs)) }
    ensures refused { (said : Said) → Says line.now.parts.instruction.now said
        → IfErr result (λ e. IsSaidErr (get labels.now) (place_of out.old) line.now.parts.instruction.now line.now.parts.column number said e) }
{
    match &line.statement {
        Statement::Nothing => Ok(()),
        Statement::Instruction(_width) => add_instruction(line, number, labels, out),
        Statement::Directive(asked) => add_asked(asked, line, number, labels, out),
    }
}

/// Does the second pass on a line that has a number, and in which the first pass found no fault.
fn add_line(line: &[u8], number: u32, labels: &Labels, out: &mut Making) -> Result<(), AsmErr>
    requires small { length line.now < 2 ^ 31 }
    requires fine { (m : LabelMap) × (said : Said) × IsFine m (place_of out.old) line.now said }
    ensures given { (said : Said) → Says (text_of line.now) said
        → IfOk result (λ _. (bs : List ℕ) × AreBytes (get labels.now) (place_of out.old) (text_of line.now) said bs × (out.new ≡ after_line out.old said bs)) }
    ensures refused { (said : Said) → Says (text_of line.now) said
        → IfErr result (λ e. IsSaidErr (get labels.now) (place_of out.old) (text_of line.now) (text_column line.now) number said e) }
{
    match read_source_line(line) {
        Ok(read) => add_statement(&read, number, labels, out),
        Err(e) => Err(refused(number, e)),
    }
}

/// The image of a source in which the first pass found no fault, and these labels.
pub fn second_pass(alloc: Global, source: &[u8], labels: &Labels) -> Result<Image, AsmErr>
    requires small { length source.now < 2 ^ 31 }
    requires fine { AreFine empty 0 (source_lines source.now) labels.now }
    ensures given { IfOk result (λ image. (pieces : List Segment) × AreGiven (get labels.now) 0 (source_lines source.now) pieces × (image ≡ joined pieces)) }
    ensures refused { IfErr result (λ e. IsSecondErr (get labels.now) (source_lines source.now) e) }
{
    let mut out = Making::new(alloc);
    let mut number = 1;
    let mut rest = source;
    while !rest.is_empty() {
        let (line, behind) = first_line(rest);
        add_line(line, number, labels, &mut out)?;
        number += 1;
        rest = behind;
    }
    let image = out.finish()?;
    Ok(image)
}
