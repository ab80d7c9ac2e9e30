//! Does worked cases, which stand in files, and compares what they come to with what the files say.
#![tactic(auto)]

mod accesses;
mod bench;
mod runs;
mod tapes;
mod vectors;
mod words;

use anyhow::{Context, Result};
use bench::Bench;
use std::alloc::Global;
use std::io::Write;

/// What a file comes to.
#[derive(Clone, Copy)]
struct Tally {
    runs: u32,
    answers: u32,
    differ: u32,
}

/// What a line says.
enum Said<'a> {
    /// Nothing: it is empty, or a comment.
    Nothing,
    /// From here on is the run of this name.
    Run(&'a str),
    /// What is to be done.
    Deed(&'a str),
    /// A question, and its answer.
    Question(&'a str, &'a str),
}

/// Reads a line.
fn read_line(line: &str) -> Said<'_> {
    if line.is_empty() || line.starts_with('#') {
        return Said::Nothing;
    }
    if let Some(name) = line.strip_prefix("run ") {
        return Said::Run(name);
    }
    match line.split_once(" = ") {
        Some((question, answer)) => Said::Question(question, answer),
        None => Said::Deed(line),
    }
}

/// One more.
fn count(number: &mut u32) {
    *number = number.saturating_add(1);
}

/// Asks a question, and writes its answer where that is another.
fn try_question<W: Write>(
    out: &mut W,
    alloc: Global,
    bench: &mut Bench,
    tally: &mut Tally,
    question: &str,
    wanted: &str,
) -> Result<()> {
    let answer = bench.answer(alloc, question)?;
    count(&mut tally.answers);
    if answer.as_str() != wanted {
        count(&mut tally.differ);
        let run = bench.run();
        writeln!(out, "{run}: {question} = {answer}, told {wanted}")?;
    }
    Ok(())
}

/// Does what a line says.
fn try_line<W: Write>(
    out: &mut W,
    alloc: Global,
    bench: &mut Bench,
    tally: &mut Tally,
    line: &str,
) -> Result<()> {
    match read_line(line) {
        Said::Nothing => Ok(()),
        Said::Run(name) => {
            count(&mut tally.runs);
            bench.begin(name)
        }
        Said::Deed(deed) => bench.obey(alloc, deed),
        Said::Question(question, wanted) => {
            try_question(out, alloc, bench, tally, question, wanted)
        }
    }
}

/// Does what the lines of a file say.
fn try_file<W: Write>(out: &mut W, alloc: Global, name: &str, text: &str) -> Result<Tally> {
    let mut bench = Bench::new(alloc);
    let mut tally = Tally {
        runs: 0,
        answers: 0,
        differ: 0,
    };
    for (number, line) in (1_u32..).zip(text.lines()) {
        try_line(out, alloc, &mut bench, &mut tally, line).context(format_args!(
            "{name}:{number}"
        ))?;
    }
    Ok(tally)
}

/// Does what the lines of a file say. Writes where an answer is another, and how many runs and answers there are.
pub fn write_answers<W: Write>(out: &mut W, alloc: Global, name: &str, text: &str) -> Result<()> {
    let Tally {
        runs,
        answers,
        differ,
    } = try_file(out, alloc, name, text)?;
    writeln!(
        out,
        "{name}: {runs} runs, {answers} answers, {differ} differ"
    )?;
    Ok(())
}
