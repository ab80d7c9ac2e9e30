//! Instructions, their codes and their texts, of all tables.

use anyhow::{Context, Result, bail, ensure};
use hm_enc16::{decode16, encode16};
use hm_enc32::{decode32, encode32};
use hm_encv::{decodev, encodev};
use hm_isa::{ByWidth, Instr, by_width, width};
use hm_text::{AsmKind, Labels, TextErr, parse_instr, print_instr, shape};
use hm_textv::parse_v;

/// The instruction whose code is two halfwords, the first in bits 31 to 16; of one table alone.
fn long_instruction(code: u32) -> Result<Option<Instr>> {
    match (decode32(code), decodev(code)) {
        (Some(_), Some(_)) => bail!("two tables have the code"),
        (Some(i), None) => Ok(Some(i)),
        (None, Some(v)) => Ok(Some(Instr::Vector(v))),
        (None, None) => Ok(None),
    }
}

/// The instruction of a code, which is one halfword where it is below 10000.
pub fn instruction(code: u32) -> Result<Option<Instr>> {
    if code <= 0xffff {
        return Ok(decode16(code as u16));
    }
    long_instruction(code)
}

/// The code of an instruction.
pub fn code_of(i: &Instr) -> u32 {
    match by_width(i) {
        ByWidth::Narrow(_) => encode16(i) as u32,
        ByWidth::Wide(_) => encode32(i),
        ByWidth::Vector(v) => encodev(&v),
    }
}

/// Checks the code of an instruction.
pub fn check_code(i: &Instr, code: u32) -> Result<()> {
    let here = code_of(i);
    ensure!(here == code, "here {here:04x}");
    Ok(())
}

/// Checks the width that a text tells alone.
fn check_width(text: &str, width: u32) -> Result<()> {
    let here = shape(text.as_bytes());
    ensure!(here == Ok(width), "here {here:?}");
    Ok(())
}

/// Checks that a text at an address is read as the code.
pub fn check_read(labels: &Labels, address: u32, code: u32, text: &str) -> Result<()> {
    ensure!(address % 2 == 0, "an odd address");
    match parse_instr(text.as_bytes(), address, labels) {
        Ok(i) => {
            check_width(text, width(&i))?;
            check_code(&i, code)
        }
        Err(e) => bail!("here {e:?}"),
    }
}

/// Checks that the instruction of a code at an address has the code and prints the text.
pub fn check_printed(address: u32, code: u32, text: &str) -> Result<()> {
    ensure!(address % 2 == 0, "an odd address");
    let i = instruction(code)?.context("of no instruction")?;
    let here = print_instr(&i, address);
    ensure!(here.as_str() == text, "here {here}");
    check_code(&i, code)
}

/// Checks that no instruction has a code.
pub fn check_none(code: u32) -> Result<()> {
    match instruction(code)? {
        Some(i) => bail!("here {}", print_instr(&i, 0)),
        None => Ok(()),
    }
}

/// Checks that a text tells no width where it is refused for what it is, and tells one where it is refused for its label.
fn check_told(text: &str, refusal: TextErr) -> Result<()> {
    let here = shape(text.as_bytes());
    match refusal.kind {
        AsmKind::Missing | AsmKind::Offset => ensure!(here.is_ok(), "it has no width"),
        _ => ensure!(here == Err(refusal), "its width is {here:?}"),
    }
    Ok(())
}

/// Checks how a text at an address is refused.
pub fn check_refused(labels: &Labels, address: u32, text: &str, told: TextErr) -> Result<()> {
    ensure!(address % 2 == 0, "an odd address");
    match parse_instr(text.as_bytes(), address, labels) {
        Ok(i) => bail!("here {:04x}", code_of(&i)),
        Err(here) => ensure!(here == told, "here {here:?}"),
    }
    check_told(text, told)
}

/// The table, by its name, of the rows with a text.
fn table_of(text: &[u8]) -> Result<&'static str> {
    match (shape(text), parse_v(text)) {
        (Err(_), None) => Ok("none"),
        (Ok(2), None) => Ok("narrow"),
        (Ok(4), None) => Ok("wide"),
        (Ok(4), Some(_)) => Ok("vector"),
        _ => bail!("shape and parse_v differ"),
    }
}

/// Checks which table's rows have a text, and so which width it tells.
pub fn check_table(table: &str, text: &str) -> Result<()> {
    let here = table_of(text.as_bytes())?;
    ensure!(here == table, "here {here}");
    Ok(())
}
