//! The answers to what files of cases ask.

use crate::input::made;
use crate::{assembly, images, lines, numbers, schedules, tokens};
use anyhow::{Context, Result, bail, ensure};
use hm_line::{Form, check_form, last_column};
use hm_text_base::read_number;
use hm_tokens::is_label_name;
use std::alloc::Global;
use std::str::SplitWhitespace;

/// What is asked of a word, or of an instruction's line, and is told whatever its bytes are.
fn of_text(alloc: Global, ask: &str, input: &[u8]) -> Result<String> {
    let answer = match ask {
        "number" => format!(in alloc; "{:?}", read_number(input)),
        "word" => numbers::word(alloc, input),
        "name" => is_label_name(input).to_string(alloc),
        "form" => format!(in alloc; "{:?}", check_form(Form::Instruction, input)),
        "last" => last_column(input).to_string(alloc),
        "item" => lines::item(alloc, input),
        "front" => lines::front(alloc, input),
        _ => return of_line(alloc, ask, input),
    };
    Ok(answer?)
}

/// What is asked of tokens, and is told whatever their bytes are.
fn of_tokens(alloc: Global, ask: &str, input: &[u8]) -> Result<String> {
    let answer = match ask {
        "tokens" => tokens::tokens(alloc, input),
        "single" => tokens::single(alloc, input),
        "register" => tokens::register(alloc, input),
        "vector" => tokens::vector(alloc, input),
        "condition" => tokens::condition(alloc, input),
        "compare" => tokens::compared(alloc, input),
        _ => return of_text(alloc, ask, input),
    };
    Ok(answer?)
}

/// What is asked of a line, a source or an image, and may be refused.
fn of_line(alloc: Global, ask: &str, input: &[u8]) -> Result<String> {
    match ask {
        "labels" => lines::labels(alloc, input),
        "line" => lines::line(alloc, input),
        "first" => lines::first(alloc, input),
        "source" => assembly::assembled(alloc, input),
        "refusal" => assembly::refusal(alloc, input),
        "elf" => images::written(alloc, input),
        "again" => images::read_back(alloc, input),
        "plain" => schedules::plain_ticks(alloc, input),
        _ => bail!("no such question"),
    }
}

/// The answer to a question that has these words behind the first.
fn with_words(
    alloc: Global,
    base: &[u8],
    ask: &str,
    words: &mut SplitWhitespace<'_>,
    input: &[u8],
) -> Result<String> {
    match ask {
        "write" => numbers::written(alloc, words, input),
        "cut" => numbers::cut(alloc, words, input),
        "operand" => lines::operand(alloc, words, input),
        "place" => lines::place(alloc, words, input),
        "shift" => lines::shift(alloc, words, input),
        "listing" => assembly::listed(alloc, words, input),
        "image" => images::read(alloc, &made(alloc, base, words, input)?),
        "schedule" => schedules::read(alloc, &made(alloc, base, words, input)?),
        "print" => schedules::printed(alloc, &made(alloc, base, words, input)?),
        "add" => schedules::added(alloc, base, input),
        _ => of_tokens(alloc, ask, input),
    }
}

/// The answer to a question, of which every word has to be understood.
pub fn answer(alloc: Global, base: &[u8], asked: &str, input: &[u8]) -> Result<String> {
    let mut words = asked.split_whitespace();
    let ask = words.next().context("a question is wanted")?;
    let answer = with_words(alloc, base, ask, &mut words, input)?;
    ensure!(words.next().is_none(), "a word is left");
    Ok(answer)
}
