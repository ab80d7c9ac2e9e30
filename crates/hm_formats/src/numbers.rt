//! Numbers as they are read and written, and texts cut at a mark.

use crate::input::{hexadecimal, text};
use anyhow::{Context, Result, bail};
use hm_text_base::{binary_digit, decimal, hex_bytes, hex2, hex8, read_hex8, span};
use std::alloc::{AllocError, Global};
use std::str::SplitWhitespace;

/// The number that decimal digits give.
fn read_decimal(input: &[u8]) -> Result<u64> {
    text(input)?.parse::<u64>().context("no number")
}

/// The word that eight hexadecimal digits give, in another form than that.
pub fn word(alloc: Global, input: &[u8]) -> Result<String, AllocError> {
    match read_hex8(input) {
        Some(n) => format!(in alloc; "0x{n:x}"),
        None => String::from_str(alloc, "none"),
    }
}

/// Adds a number in a form.
fn add_number(alloc: Global, out: &mut Vec<u8>, form: &str, n: u64) -> Result<()> {
    match form {
        "hex2" => hex2(out, u8::try_from(n).context("too large")?)?,
        "hex8" => hex8(out, u32::try_from(n).context("too large")?)?,
        "bit" => binary_digit(out, n != 0)?,
        "decimal" => decimal(alloc, out, n)?,
        _ => bail!("no such form"),
    }
    Ok(())
}

/// A number, bytes or a text behind `x `, as the next word says.
pub fn written(alloc: Global, words: &mut SplitWhitespace<'_>, input: &[u8]) -> Result<String> {
    let form = words.next().context("a form is wanted")?;
    let mut out = Vec::from_slice(alloc, b"x ")?;
    match form {
        "text" => hm_text_base::text(&mut out, input)?,
        "bytes" => hex_bytes(alloc, &mut out, input)?,
        _ => add_number(alloc, &mut out, form, read_decimal(input)?)?,
    }
    Ok(String::from_utf8(out)?)
}

/// What stands before a mark, and the rest.
pub fn cut(alloc: Global, words: &mut SplitWhitespace<'_>, input: &[u8]) -> Result<String> {
    let mark = u8::try_from(hexadecimal(words)?).context("no mark")?;
    let (front, rest) = span(mark, input);
    let front = front.escape_ascii();
    let rest = rest.escape_ascii();
    Ok(format!(in alloc; "\"{front}\" \"{rest}\"")?)
}
