//! Files and lines as their formats say, what is read and written of them, and instructions as codes and as texts, and what there is to execute at an
//! address, compared with tables.
#![tactic(auto)]

mod answer;
mod assembly;
mod case;
mod images;
mod input;
mod instructions;
mod lines;
mod numbers;
mod schedules;
mod setting;
mod tokens;
mod words;

use answer::answer;
use anyhow::{Context, Result, ensure};
use case::Case;
pub use setting::write_instructions;
use std::alloc::Global;
use std::io::Write;

/// How many cases a file has, and how many of them come out otherwise than told.
#[derive(Clone, Copy)]
struct Counts {
    cases: usize,
    differ: usize,
}

/// Tries the case of a line, and writes what it comes to where that is not as told.
fn try_case<W: Write>(
    out: &mut W,
    alloc: Global,
    line: usize,
    base: &[u8],
    case: &Case<'_>,
) -> Result<bool> {
    ensure!(!case.told.is_empty(), "nothing is told");
    let here = answer(alloc, base, case.asked, &case.input)?;
    if here.as_str() == case.told {
        return Ok(true);
    }
    let asked = case.asked.trim();
    let told = case.told;
    writeln!(out, "{line}: {asked}: {here}, told {told}")?;
    Ok(false)
}

/// Takes a line that is neither empty nor a comment: bytes that later lines go by, or a case.
fn take_line<W: Write>(
    out: &mut W,
    alloc: Global,
    line: usize,
    text: &str,
    base: &mut Vec<u8>,
    counts: &mut Counts,
) -> Result<()> {
    let case = Case::read(alloc, text)?;
    if case.is_base() {
        return case.add_to(base);
    }
    counts.cases = counts.cases.saturating_add(1);
    if !try_case(out, alloc, line, base, &case)? {
        counts.differ = counts.differ.saturating_add(1);
    }
    Ok(())
}

/// Tries the cases of a file, and writes what differs and how many cases there are.
pub fn write_cases<W: Write>(out: &mut W, alloc: Global, name: &str, text: &str) -> Result<()> {
    let mut base = Vec::new(alloc);
    let mut counts = Counts {
        cases: 0,
        differ: 0,
    };
    writeln!(out, "{name}")?;
    for (line, text) in (1..).zip(text.lines()) {
        if !text.is_empty() && !text.starts_with('#') {
            take_line(out, alloc, line, text, &mut base, &mut counts).context(format_args!(
                "{name}:{line}"
            ))?;
        }
    }
    let Counts { cases, differ } = counts;
    writeln!(out, "{cases} cases, {differ} differ")?;
    Ok(())
}
