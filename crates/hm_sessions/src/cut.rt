//! A command line on hosts whose calls fail one after another.

use crate::named::Named;
use anyhow::Result;
use hm_commands::{Status, helium};
use hm_host::{FailList, Files, MemHost};
use std::alloc::Global;

/// Copies of these files.
pub fn files_of(alloc: Global, given: &[Named]) -> Result<Files> {
    let mut files = Files::new(alloc);
    for file in given {
        files.add(&file.name, file.bytes.as_slice().to_vec(alloc)?)?;
    }
    Ok(files)
}

/// A host with copies of these files.
pub fn host_of(alloc: Global, given: &[Named], failing: FailList) -> Result<MemHost> {
    let files = files_of(alloc, given)?;
    Ok(MemHost::new(alloc, files, failing))
}

/// The words of a command line.
pub fn words_of(alloc: Global, line: &str) -> Result<Vec<String>> {
    let mut words = Vec::new(alloc);
    for word in line.split_whitespace() {
        words.push(String::from_str(alloc, word)?)?;
    }
    Ok(words)
}

/// A command line, with the files that its host has and the one that it writes; no name where it writes none.
#[derive(Clone, Copy)]
pub struct CommandLine<'a> {
    pub given: &'a [Named],
    pub words: &'a [String],
    pub written: &'a str,
}

/// What a command line leaves: the status that it ends with, and its host.
#[derive(Drop)]
struct Outcome {
    status: Status,
    host: MemHost,
}

/// Does a command line on a new host.
fn outcome_of(alloc: Global, command: CommandLine<'_>, failing: FailList) -> Result<Outcome> {
    let mut host = host_of(alloc, command.given, failing)?;
    let status = helium(alloc, command.words, &mut host);
    Ok(Outcome { status, host })
}

/// Does a command line on a new host, on which the call of this number fails.
fn outcome_failing(alloc: Global, command: CommandLine<'_>, call: usize) -> Result<Outcome> {
    let mut failing = FailList::new(alloc);
    failing.add(call as u64)?;
    outcome_of(alloc, command, failing)
}

/// Whether hosts have the same bytes for a file, or both none.
pub fn same_file(one: &MemHost, other: &MemHost, name: &str) -> bool {
    match (one.file(name), other.file(name)) {
        (Some(bytes), Some(others)) => bytes == others,
        (None, None) => true,
        _ => false,
    }
}

/// Whether a command line ended at its call of this number, with the file that it writes, and the given ones, as they are on another host.
fn is_cut(cut: &Outcome, call: usize, expected: &MemHost, command: CommandLine<'_>) -> bool {
    let mut files = command.given.iter();
    cut.status == Status::HostFault
        && cut.host.calls() == call.checked_add(1)
        && cut.host.printed().is_empty()
        && same_file(&cut.host, expected, command.written)
        && files.all(|file| same_file(&cut.host, expected, &file.name))
}

/// Whether a command line whose call of this number fails ends there, with all files as they are on another host.
fn is_cut_at(
    alloc: Global,
    command: CommandLine<'_>,
    call: usize,
    expected: &MemHost,
) -> Result<bool> {
    let cut = outcome_failing(alloc, command, call)?;
    Ok(is_cut(&cut, call, expected, command))
}

/// Whether a command line makes so many calls and, with a further one to fail, ends as where none fails.
fn is_whole(
    alloc: Global,
    command: CommandLine<'_>,
    count: usize,
    whole: &Outcome,
) -> Result<bool> {
    let next = outcome_failing(alloc, command, count)?;
    Ok(
        next.status == whole.status
            && next.host.calls() == Some(count)
            && next.host.printed() == whole.host.printed()
            && same_file(&next.host, &whole.host, command.written),
    )
}

/// Whether each of so many calls that fails ends a command line, with all files as they were; behind the write, as they are in the end.
fn is_cut_at_each(
    alloc: Global,
    command: CommandLine<'_>,
    count: usize,
    before: &MemHost,
    after: &MemHost,
) -> Result<bool> {
    let prints = !after.printed().is_empty();
    for call in 0..count {
        let is_behind_write = prints && call + 1 == count;
        let expected = if is_behind_write { after } else { before };
        if !is_cut_at(alloc, command, call, expected)? {
            return Ok(false);
        }
    }
    Ok(true)
}

/// Whether a command line makes so many calls, of which each that fails ends it with status 4 and nothing printed.
///
/// The file that it writes is then as it was; where the call behind the write fails, it stands whole. A further call
/// that is to fail changes nothing.
pub fn each_call_fails(alloc: Global, command: CommandLine<'_>, count: usize) -> Result<bool> {
    let before = host_of(alloc, command.given, FailList::new(alloc))?;
    let whole = outcome_of(alloc, command, FailList::new(alloc))?;
    Ok(
        is_cut_at_each(alloc, command, count, &before, &whole.host)?
            && is_whole(alloc, command, count, &whole)?,
    )
}
