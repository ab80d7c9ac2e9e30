//! Lines of assembly: their parts, what they say, and where that has its place.

use crate::input::{hexadecimal, text};
use anyhow::{Context, Result, bail, ensure};
use hm_line::{AsmKind, Labels, TextErr, behind_mark, number_at, operand_column};
use hm_source::{
    DatumSize, Directive, Item, Line, Statement, behind_statement, first_line, fits, item_at,
    read_source_line,
};
use hm_tokens::Mark;
use std::alloc::{AllocError, Global};
use std::fmt::Write;
use std::str::SplitWhitespace;

/// The most bytes that a line may have here.
const LONGEST: usize = 16_777_216;

/// Adds what a directive says, in words.
fn add_directive(out: &mut String, directive: Directive<'_>) -> Result<(), AllocError> {
    match directive {
        Directive::Org(to) => write!(out, "org {to:x}"),
        Directive::Align(multiple) => write!(out, "align {}", multiple.bytes()),
        Directive::Space(count) => write!(out, "space {count:x}"),
        Directive::Values(values) => {
            let count = values.count;
            let bytes = values.size.bytes();
            let list = values.list.escape_ascii();
            write!(out, "{count} of {bytes} in \"{list}\"")
        }
    }
}

/// Adds what a line says, in words.
fn add_statement(out: &mut String, statement: Statement<'_>) -> Result<(), AllocError> {
    match statement {
        Statement::Nothing => out.push_str("nothing"),
        Statement::Instruction(width) => write!(out, "instruction of {width}"),
        Statement::Directive(directive) => add_directive(out, directive),
    }
}

/// The parts of a line with their columns, and what it says.
fn parts(alloc: Global, line: &Line<'_>) -> Result<String, AllocError> {
    let parts = line.parts;
    let mut out = String::new(alloc);
    if let Some(label) = parts.label {
        write!(out, "{}: ", label.escape_ascii())?;
    }
    let front = parts.label_column;
    let column = parts.column;
    let instruction = parts.instruction.escape_ascii();
    write!(out, "from {front}, \"{instruction}\" at {column}, ")?;
    add_statement(&mut out, line.statement)?;
    Ok(out)
}

/// The column of an operand of a text, counted from 0.
pub fn operand(alloc: Global, words: &mut SplitWhitespace<'_>, input: &[u8]) -> Result<String> {
    let n = hexadecimal(words)?;
    Ok(format!(in alloc; "{:?}", operand_column(input, n))?)
}

/// What a line of a source is read as.
pub fn line(alloc: Global, input: &[u8]) -> Result<String> {
    ensure!(input.len() <= LONGEST, "the line is too long");
    let text = match read_source_line(input) {
        Ok(line) => parts(alloc, &line),
        Err(e) => format!(in alloc; "{:?} at {}", e.kind, e.column),
    };
    Ok(text?)
}

/// Where the next line stands behind one at an address.
pub fn place(alloc: Global, words: &mut SplitWhitespace<'_>, input: &[u8]) -> Result<String> {
    ensure!(input.len() <= LONGEST, "the line is too long");
    let at = hexadecimal(words)?;
    let Ok(line) = read_source_line(input) else {
        bail!("the line is refused");
    };
    let text = match behind_statement(line.statement, at) {
        Some(next) => format!(in alloc; "{next:x}"),
        None => String::from_str(alloc, "none"),
    };
    Ok(text?)
}

/// A refusal at a column of a line's text, as one of the line.
pub fn shift(alloc: Global, words: &mut SplitWhitespace<'_>, input: &[u8]) -> Result<String> {
    ensure!(input.len() <= LONGEST, "the line is too long");
    let column = hexadecimal(words)?;
    let Ok(line) = read_source_line(input) else {
        bail!("the line is refused");
    };
    let kind = AsmKind::Missing;
    let e = line.refusal(TextErr { column, kind });
    Ok(format!(in alloc; "{:?} at {:x}", e.kind, e.column)?)
}

/// The first line, and what stands behind its end.
pub fn first(alloc: Global, input: &[u8]) -> Result<String> {
    ensure!(!input.is_empty(), "there is no line");
    let (line, behind) = first_line(input);
    let line = line.escape_ascii();
    let behind = behind.escape_ascii();
    Ok(format!(in alloc; "\"{line}\" \"{behind}\"")?)
}

/// Adds an item of a list, in words.
fn add_item(out: &mut String, item: Item<'_>) -> Result<(), AllocError> {
    match item {
        Item::Literal { minus, number } => {
            let sign = if minus { "-" } else { "" };
            write!(out, "{sign}{number}")
        }
        Item::Name(name) => write!(out, "{}", name.escape_ascii()),
        Item::Beyond(name, more) => write!(out, "{}+{more}", name.escape_ascii()),
    }
}

/// An item, whether values of one, two and four bytes have it, and what stands behind it and a comma.
pub fn item(alloc: Global, input: &[u8]) -> Result<String, AllocError> {
    let Some((item, behind)) = item_at(input) else {
        return String::from_str(alloc, "none");
    };
    let byte = fits(DatumSize::Byte, item);
    let half = fits(DatumSize::Half, item);
    let word = fits(DatumSize::Word, item);
    let more = behind_mark(Mark::Comma, behind)
        .unwrap_or(b"")
        .escape_ascii();
    let mut out = String::new(alloc);
    add_item(&mut out, item)?;
    write!(out, " {byte} {half} {word} \"{more}\"")?;
    Ok(out)
}

/// A number, and what stands behind it.
pub fn front(alloc: Global, input: &[u8]) -> Result<String, AllocError> {
    match number_at(input) {
        Some((number, rest)) => format!(in alloc; "{number} \"{}\"", rest.escape_ascii()),
        None => String::from_str(alloc, "none"),
    }
}

/// Gives a name an address, if it is new, and adds whether it is.
fn try_new(out: &mut String, labels: &mut Labels, name: &str, address: &str) -> Result<()> {
    let address = u32::from_str_radix(address, 16).context("no address")?;
    let added = labels.add(name.as_bytes(), address)?;
    out.push_str(if added { "new " } else { "old " })?;
    Ok(())
}

/// Adds the address that a name has.
fn add_address(out: &mut String, labels: &Labels, name: &str) -> Result<()> {
    match labels.get(name.as_bytes()) {
        Some(address) => write!(out, "{address:x} ")?,
        None => out.push_str("none ")?,
    }
    Ok(())
}

/// Gives a name an address, where one stands behind it and the name is new, or tells the address that it has.
fn try_label(out: &mut String, labels: &mut Labels, text: &str) -> Result<()> {
    match text.split_once('=') {
        Some((name, address)) => try_new(out, labels, name, address),
        None => add_address(out, labels, text),
    }
}

/// What comes of labels, one behind another.
pub fn labels(alloc: Global, input: &[u8]) -> Result<String> {
    let mut out = String::new(alloc);
    let mut labels = Labels::new(alloc);
    for name in text(input)?.split(' ') {
        try_label(&mut out, &mut labels, name)?;
    }
    out.push_str("end")?;
    Ok(out)
}
