//! Reports as journals of each format have them.

ghost use Rattle.std.specs.Prelude.{◌≡◌, ◌↔◌, ◌≤◌, ◌++◌, take, drop, length, IsTrue};
ghost use Rattle.hm_journal.specs.Formats.{behind_line, report_in, without_system};

use crate::journal::FIRST_FORMAT;
use hm_text_base::span;

/// Where the first line begins that is the system's, or the end where there is none.
fn system_at(report: &[u8]) -> usize
    ensures within { result ≤ length report.now }
    ensures cut { without_system report.now ≡ take result report.now ++ behind_line (drop result report.now) }
{
    let mut begins = true;
    for at in 0..report.len() {
        if begins && report[at..].starts_with(b"system ") {
            return at;
        }
        begins = report[at] == b'\n';
    }
    report.len()
}

/// What stands behind the first end of a line.
fn behind_line(text: &[u8]) -> &[u8]
    ensures value { result.now ≡ behind_line text.now }
{
    let (_, rest) = span(b'\n', text);
    if rest.is_empty() {
        return rest;
    }
    &rest[1..]
}

/// What a journal of a format has of a report, in two parts: up to the line that it lacks, and behind that.
fn parts_in(format: u32, report: &[u8]) -> (&[u8], &[u8])
    ensures value { report_in format report.now ≡ result.0.now ++ result.1.now }
{
    if format != FIRST_FORMAT {
        return report.split_at(report.len());
    }
    let (before, line) = report.split_at(system_at(report));
    (before, behind_line(line))
}

/// Whether a text is what a journal of a format has of a report.
pub fn is_report(format: u32, report: &[u8], text: &[u8]) -> bool
    ensures value { IsTrue result ↔ (text.now ≡ report_in format report.now) }
{
    let (before, behind) = parts_in(format, report);
    match text.strip_prefix(before) {
        Some(rest) => rest == behind,
        None => false,
    }
}
