//! The words of a line of instructions.

use anyhow::{Context, Result};
use hm_base::FaultKind;
use hm_text::AsmKind;
use std::str::SplitWhitespace;

/// The next word of a line.
pub fn word<'a>(words: &mut SplitWhitespace<'a>) -> Result<&'a str> {
    words.next().context("another word is wanted")
}

/// The next word of a line, a column.
pub fn column(words: &mut SplitWhitespace<'_>) -> Result<u32> {
    word(words)?.parse::<u32>().context("no column")
}

/// The kind of a refusal by its name.
pub fn refusal_kind(name: &str) -> Option<AsmKind> {
    match name {
        "syntax" => Some(AsmKind::Syntax),
        "row" => Some(AsmKind::Row),
        "missing" => Some(AsmKind::Missing),
        "offset" => Some(AsmKind::Offset),
        _ => None,
    }
}

/// The kind of a fault by its name.
pub fn fault_kind(name: &str) -> Option<FaultKind> {
    match name {
        "fetch" => Some(FaultKind::Fetch),
        "undefined" => Some(FaultKind::Undefined),
        _ => None,
    }
}

/// The words of a line, and the text in quotes behind them, where there is one.
pub fn parts(line: &str) -> Result<(SplitWhitespace<'_>, Option<&str>)> {
    match line.split_once('"') {
        Some((words, rest)) => {
            let text = rest.strip_suffix('"').context("the quote is open")?;
            Ok((words.split_whitespace(), Some(text)))
        }
        None => Ok((line.split_whitespace(), None)),
    }
}
