//! Assembly text as tokens, and the names of registers and conditions.

use arrayvec::ArrayVec;
use hm_tokens::{
    InstrText, Mark, Part, Token, condition_name, read_condition, read_register, read_tokens,
    read_vector, register_name, single_registers, vector_name,
};
use std::alloc::{AllocError, Global};
use std::fmt::Write;

/// How many tokens there are, and each of them: words and marks as they are, numbers in parentheses.
fn shown(alloc: Global, tokens: &[Token<'_>]) -> Result<String, AllocError> {
    let count = tokens.len();
    let mut out = format!(in alloc; "{count}:")?;
    for token in tokens {
        match token {
            Token::Word(word) => write!(out, " {}", word.escape_ascii())?,
            Token::Number(number) => write!(out, " ({number})")?,
            Token::Mark(mark) => write!(out, " {}", mark.text())?,
        }
    }
    Ok(out)
}

/// The tokens of a text.
pub fn tokens(alloc: Global, input: &[u8]) -> Result<String, AllocError> {
    match read_tokens(input) {
        Some(tokens) => shown(alloc, tokens.as_slice()),
        None => String::from_str(alloc, "none"),
    }
}

/// The tokens of a text with single registers in place of ranges.
pub fn single(alloc: Global, input: &[u8]) -> Result<String, AllocError> {
    if let Some(tokens) = read_tokens(input) {
        if let Some(registers) = single_registers(tokens.as_slice()) {
            return shown(alloc, registers.as_slice());
        }
    }
    String::from_str(alloc, "none")
}

/// The number of a core register, and the name of that number.
pub fn register(alloc: Global, input: &[u8]) -> Result<String, AllocError> {
    match read_register(input) {
        Some(n) => format!(in alloc; "{n} {}", register_name(n)),
        None => String::from_str(alloc, "none"),
    }
}

/// The number of a vector register, and the name of that number.
pub fn vector(alloc: Global, input: &[u8]) -> Result<String, AllocError> {
    match read_vector(input) {
        Some(n) => format!(in alloc; "{n} {}", vector_name(n)),
        None => String::from_str(alloc, "none"),
    }
}

/// The number of a condition, and the name of that number.
pub fn condition(alloc: Global, input: &[u8]) -> Result<String, AllocError> {
    match read_condition(input) {
        Some(n) => format!(in alloc; "{n} {}", condition_name(n)),
        None => String::from_str(alloc, "none"),
    }
}

/// `vpte.s16 gt,q1,#4294967295`, which is no row's.
fn example() -> InstrText {
    let mut operands = ArrayVec::new();
    operands.push(Part::Word("gt"));
    operands.push(Part::Mark(Mark::Comma));
    operands.push(Part::Word("q1"));
    operands.push(Part::Mark(Mark::Comma));
    operands.push(Part::Mark(Mark::Hash));
    operands.push(Part::Number(0xffff_ffff));
    InstrText {
        mnemonic: "vpt",
        letters: "e",
        suffix: ".s16",
        operands,
    }
}

/// Whether a text is that of the example.
pub fn compared(alloc: Global, input: &[u8]) -> Result<String, AllocError> {
    let relation = match read_tokens(input) {
        Some(tokens) => {
            if example().has(tokens.as_slice()) {
                "same"
            } else {
                "other"
            }
        }
        None => "none",
    };
    String::from_str(alloc, relation)
}
