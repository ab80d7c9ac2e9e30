//! The text that is printed, and the names of the files that are written.

ghost use Rattle.std.specs.Prelude.{◌≡◌, ◌++◌, IfOk, option_map, string_bytes};
ghost use Rattle.std.specs.List.{flat_map};
ghost use Rattle.helium_shake.specs.Texts.{file_line, file_name, findings_text, report_or_none};

use hm_base::OutOfMemory;
use hm_shake::{Findings, Written, add_name, counts_text};
use hm_shake_runs::Kind;
use hm_text_base::{decimal, text};
use std::alloc::Global;

/// Adds the name of the file of a kind, behind that of the schedule.
fn add_file_name(
    alloc: Global,
    out: &mut Vec<u8>,
    schedule: &str,
    kind: Kind,
) -> Result<(), OutOfMemory>
    ensures added { IfOk result (λ _. out.new.items ≡ out.old.items ++ file_name schedule.now kind) }
{
    text(out, schedule.as_bytes())?;
    text(out, b".")?;
    add_name(alloc, out, kind)
}

/// The name of the file of a kind, behind that of the schedule.
pub fn file_name(alloc: Global, schedule: &str, kind: Kind) -> Result<String, OutOfMemory>
    ensures value { IfOk result (λ name. string_bytes name ≡ file_name schedule.now kind) }
{
    let mut name = Vec::new(alloc);
    add_file_name(alloc, &mut name, schedule, kind)?;
    match String::from_utf8(name) {
        Ok(name) => Ok(name),
        Err(_) => unreachable!(),
    }
}

/// Adds the line of a file.
fn add_file_line(
    alloc: Global,
    out: &mut Vec<u8>,
    schedule: &str,
    file: &Written,
) -> Result<(), OutOfMemory>
    ensures added { IfOk result (λ _. out.new.items ≡ out.old.items ++ file_line schedule.now file.now) }
{
    add_file_name(alloc, out, schedule, file.kind)?;
    text(out, b" ticks ")?;
    decimal(alloc, out, u64::from(file.ticks))?;
    text(out, b" interrupts ")?;
    decimal(alloc, out, file.interrupts as u64)?;
    text(out, b"\n")?;
    Ok(())
}

/// Adds the lines of the files.
fn add_file_lines(
    alloc: Global,
    out: &mut Vec<u8>,
    schedule: &str,
    files: &[Written],
) -> Result<(), OutOfMemory>
    ensures added { IfOk result (λ _. out.new.items ≡ out.old.items ++ flat_map (file_line schedule.now) files.now) }
{
    for file in files {
        add_file_line(alloc, out, schedule, file)?;
    }
    Ok(())
}

/// Adds a report, where there is one.
fn add_report(out: &mut Vec<u8>, report: &Option<Vec<u8>>) -> Result<(), OutOfMemory>
    ensures added { IfOk result (λ _. out.new.items ≡ out.old.items ++ report_or_none (option_map (λ report. report.items) report.now)) }
{
    match report {
        Some(report) => text(out, report),
        None => Ok(()),
    }
}

/// The text of what was found: how often each kind came, the files, and the report of the runs that halt.
pub fn findings_text(
    alloc: Global,
    schedule: &str,
    findings: &Findings,
) -> Result<Vec<u8>, OutOfMemory>
    ensures value { IfOk result (λ out. out.items ≡ findings_text schedule.now findings.now (option_map (λ report. report.items) findings.now.report)) }
{
    let mut out = counts_text(alloc, findings.plain, &findings.kinds)?;
    add_file_lines(alloc, &mut out, schedule, &findings.files)?;
    add_report(&mut out, &findings.report)?;
    Ok(out)
}
