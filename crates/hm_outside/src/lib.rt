//! Compares what instructions do here with what another implementation says that they do.
#![tactic(auto)]

mod case;
mod contents;
mod outcome;
mod perform;
mod register;
mod touched;

use anyhow::{Context, Result};
use case::{Case, read_cases};
use contents::blank_flash;
use outcome::differences;
use std::alloc::Global;
use std::io::{self, Write};

/// Writes a line for each difference, behind the place and the row of its test.
fn write_one<W: Write>(out: &mut W, name: &str, case: &Case, differences: &str) -> io::Result<()> {
    let line = case.line;
    let row = &case.row;
    for difference in differences.lines() {
        writeln!(out, "{name}:{line}: {row}: {difference}")?;
    }
    Ok(())
}

/// Writes what differs in each test, and gives how many tests differ.
fn write_cases<W: Write>(out: &mut W, alloc: Global, name: &str, cases: &[Case]) -> Result<usize> {
    let flash = blank_flash(alloc)?;
    let mut differ = 0_usize;
    for case in cases {
        let found = differences(alloc, case, &flash)?;
        write_one(out, name, case, &found)?;
        if !found.is_empty() {
            differ = differ.saturating_add(1);
        }
    }
    Ok(differ)
}

/// Compares the tests of a file. Writes what differs, and how many tests there are and differ.
pub fn write_vectors<W: Write>(out: &mut W, alloc: Global, name: &str, text: &str) -> Result<()> {
    let cases = read_cases(alloc, text).context(format_args!("{name}"))?;
    let differ = write_cases(out, alloc, name, &cases)?;
    let count = cases.len();
    writeln!(out, "{name}: {count} vectors, {differ} differ")?;
    Ok(())
}
