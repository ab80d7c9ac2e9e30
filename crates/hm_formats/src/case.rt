//! A line of a file of cases.

use anyhow::{Context, Result};
use std::alloc::Global;

/// A line: words, bytes in quotes, and behind them what the answer is told to be.
#[derive(Drop)]
pub struct Case<'a> {
    /// What is asked, in words.
    pub asked: &'a str,
    /// What it is asked of.
    pub input: Vec<u8>,
    /// The answer; nothing where nothing is asked.
    pub told: &'a str,
}

/// The byte that is escaped behind a backslash, and the text behind it.
fn escape(text: &str) -> Option<(u8, &str)> {
    let (letter, rest) = text.split_at_checked(1)?;
    match letter {
        "0" => Some((0, rest)),
        "n" => Some((b'\n', rest)),
        "r" => Some((b'\r', rest)),
        "t" => Some((b'\t', rest)),
        "x" => {
            let (digits, rest) = rest.split_at_checked(2)?;
            Some((u8::from_str_radix(digits, 16).ok()?, rest))
        }
        _ => None,
    }
}

/// Adds what stands behind a backslash.
fn add_escaped(bytes: &mut Vec<u8>, text: &str) -> Result<()> {
    let (byte, rest) = escape(text).context("no such escape")?;
    bytes.push(byte)?;
    bytes.extend_from_slice(rest.as_bytes())?;
    Ok(())
}

/// The bytes that a text with escapes stands for.
fn unescaped(alloc: Global, text: &str) -> Result<Vec<u8>> {
    let (plain, rest) = text.split_once('\\').unwrap_or((text, ""));
    let mut bytes = Vec::from_slice(alloc, plain.as_bytes())?;
    if plain.len() < text.len() {
        for piece in rest.split('\\') {
            add_escaped(&mut bytes, piece)?;
        }
    }
    Ok(bytes)
}

impl Case<'_> {
    /// Reads a line.
    pub fn read(alloc: Global, line: &str) -> Result<Case<'_>> {
        let (asked, rest) = line.split_once('"').context("no quotes")?;
        let (input, told) = rest.split_once('"').context("quotes are left open")?;
        Ok(Case {
            asked,
            input: unescaped(alloc, input)?,
            told: told.strip_prefix(' ').unwrap_or(""),
        })
    }

    /// Whether it asks nothing, and has bytes that later lines go by: in place of those before, or behind them.
    pub fn is_base(&self) -> bool {
        matches!(self.asked, "base " | "more ")
    }

    /// Puts its bytes there.
    pub fn add_to(&self, base: &mut Vec<u8>) -> Result<()> {
        if self.asked == "base " {
            base.clear();
        }
        base.extend_from_slice(&self.input)?;
        Ok(())
    }
}
