//! The cases of all files: of formats and instructions, worked runs, what another implementation gives, command lines on a host in memory and calls on
//! hosts, compared with what the files say that they come to; and the shipped examples and the soak.
#![tactic(auto)]

mod content;
mod cut;
mod examples;
mod named;
mod session;
mod shakes;
mod soaks;
mod trial;

use anyhow::{Context, Result};
use examples::write_word;
use hm_formats::{write_cases, write_instructions};
use hm_host::OsHost;
use hm_outside::write_vectors;
use hm_worked::write_answers;
use session::{Session, Taken};
use std::io::{BufWriter, Write};
use std::{env, fs, io};

/// How many cases and facts a file has, and how many of the facts do not hold.
#[derive(Clone, Copy, Default)]
struct Tally {
    cases: u32,
    facts: u32,
    differ: u32,
}

impl Tally {
    /// Counts a line.
    fn count(&mut self, taken: Taken) {
        match taken {
            Taken::Nothing => {}
            Taken::Case => self.cases = self.cases.saturating_add(1),
            Taken::Fact { holds } => {
                self.facts = self.facts.saturating_add(1);
                if !holds {
                    self.differ = self.differ.saturating_add(1);
                }
            }
        }
    }
}

/// Takes the lines of a file. Writes each that does not hold, and how many there are.
fn write_file<W: Write>(out: &mut W, session: &mut Session, name: &str, text: &str) -> Result<()> {
    let mut tally = Tally::default();
    for (line, text) in (1..).zip(text.lines()) {
        let taken = session.take(text).context(format_args!("{name}:{line}"))?;
        if let Taken::Fact { holds: false } = taken {
            writeln!(out, "{name}:{line}: {text}")?;
        }
        tally.count(taken);
    }
    let Tally {
        cases,
        facts,
        differ,
    } = tally;
    writeln!(out, "{name}: {cases} cases, {facts} facts, {differ} differ")?;
    Ok(())
}

/// Takes the text of a file, by the folder that it stands in.
fn write_text<W: Write>(out: &mut W, rt: &HostRuntime, name: &str, text: &str) -> Result<()> {
    let alloc = rt.alloc();
    match name.split_once('/') {
        Some(("formats", _)) => write_cases(out, alloc, name, text),
        Some(("instructions", _)) => write_instructions(out, alloc, name, text),
        Some(("worked", _)) => write_answers(out, alloc, name, text),
        Some(("outside", _)) => write_vectors(out, alloc, name, text),
        _ => {
            let mut session = Session::new(alloc, OsHost::new(rt.clone()?));
            write_file(out, &mut session, name, text)
        }
    }
}

/// Takes a file.
fn write_named<W: Write>(out: &mut W, rt: &HostRuntime, name: &str) -> Result<()> {
    let text = fs::read_to_string(rt, name)?;
    write_text(out, rt, name, &text)
}

/// Takes the words: one that ends in `.txt` names a file, any other an example.
fn main(rt: HostRuntime) -> Result<()> {
    let mut out = BufWriter::new(rt.alloc(), io::writer(&rt))?;
    for word in env::args(&rt)?.skip(1) {
        if word.ends_with(".txt") {
            write_named(&mut out, &rt, &word)?;
        } else {
            write_word(&mut out, &rt, &word)?;
        }
    }
    out.flush()?;
    Ok(())
}
