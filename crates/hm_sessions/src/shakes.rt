//! What a shake of an example finds.

use anyhow::{Context, Result, ensure};
use hm_base::Image;
use hm_machine::Machine;
use hm_sched::{Schedule, parse};
use hm_shake::{Findings, Progress, Repeater, Written, counts_text, shake};
use hm_shake_runs::{Found, Head, Kind, Plan, cut, interrupts_in, interrupts_of, kind_of, shaken};
use std::alloc::Global;
use std::io::Write;

/// The seed of the schedules of a shake.
const SEED: u32 = 1;

/// The most runs of a shake.
const MOST_RUNS: u32 = 1_000_000;

/// How often it was told how far a shake is.
#[derive(Drop)]
struct Quiet {
    runs: u32,
    tries: u32,
}

impl Progress for Quiet {
    fn done(&mut self, _runs: u32, _all: u32) {
        self.runs = self.runs.saturating_add(1);
    }

    fn shortening(&mut self, _interrupts: usize) {
        self.tries = self.tries.saturating_add(1);
    }
}

/// Whether two shakes wrote the same files.
fn same_files(a: &Findings, b: &Findings) -> bool {
    if a.files.len() != b.files.len() {
        return false;
    }
    for k in 0..a.files.len() {
        if a.files[k].bytes != b.files[k].bytes {
            return false;
        }
    }
    true
}

/// The kind of outcome of an image under the schedule of a file.
fn kind_under(alloc: Global, image: &Image, file: &[u8]) -> Result<Kind> {
    let schedule = parse(alloc, file)?;
    let mut machine = Machine::load(alloc, image, schedule)?;
    Ok(kind_of(machine.run()))
}

/// From what the schedules of a shake are made.
fn plan_of(alloc: Global, image: &Image, schedule: &Schedule, runs: u32) -> Result<Plan> {
    ensure!(1 <= runs && runs <= MOST_RUNS, "no shake has so many runs");
    let head = Head::of(schedule);
    let mut repeater = Repeater::of(alloc, image, head)?;
    Ok(Plan {
        seed: SEED,
        runs,
        ticks: repeater.plain(alloc, head)?.ticks,
    })
}

/// What was counted of a kind.
fn found_of(kinds: &[Found], kind: Kind) -> Option<Found> {
    for found in kinds {
        if found.kind == kind {
            return Some(*found);
        }
    }
    None
}

/// In how many ticks of a run, up to the one that ended it, an interrupt arrives.
fn interrupts_of_run(
    alloc: Global,
    schedule: &Schedule,
    plan: Plan,
    found: Found,
) -> Result<usize> {
    ensure!(found.run < plan.runs, "there is no such run");
    let irqs = interrupts_of(alloc, schedule)?;
    let stretches = shaken(alloc, plan, &irqs, found.run)?;
    Ok(interrupts_in(&cut(alloc, &stretches, found.ticks)?))
}

/// Writes the ticks and the interrupts of the run that came to a kind, and those of the schedule that was made of it, which is to have no more.
fn write_sizes<W: Write>(
    out: &mut W,
    found: Found,
    interrupts: usize,
    written: &Written,
) -> Result<()> {
    let run = found.run;
    let ticks = found.ticks;
    writeln!(out, "run {run} ticks {ticks} interrupts {interrupts}")?;
    let ticks = written.ticks;
    let left = written.interrupts;
    writeln!(out, "file ticks {ticks} interrupts {left}")?;
    ensure!(
        ticks <= found.ticks && left <= interrupts,
        "a schedule became longer"
    );
    Ok(())
}

/// Writes the schedule that was found for a kind, which is to give it, behind the sizes of the run that it was made of.
fn write_found<W: Write>(
    out: &mut W,
    alloc: Global,
    image: &Image,
    schedule: &Schedule,
    plan: Plan,
    kinds: &[Found],
    written: &Written,
) -> Result<()> {
    let kind = kind_under(alloc, image, &written.bytes)?;
    ensure!(kind == written.kind, "a schedule gives another outcome");
    let found = found_of(kinds, kind).context("no run came to it")?;
    let interrupts = interrupts_of_run(alloc, schedule, plan, found)?;
    write_sizes(out, found, interrupts, written)?;
    out.write_all(&written.bytes)?;
    Ok(())
}

/// What a shake finds, which is to tell how far it is.
fn told_shake(alloc: Global, image: &Image, schedule: &Schedule, runs: u32) -> Result<Findings> {
    ensure!(1 <= runs && runs <= MOST_RUNS, "no shake has so many runs");
    let mut quiet = Quiet { runs: 0, tries: 0 };
    let found = shake(alloc, image, schedule, runs, SEED, &mut quiet)?;
    ensure!(
        quiet.runs == runs && (found.files.is_empty() || quiet.tries > 0),
        "it was not told how far a shake is"
    );
    Ok(found)
}

/// How often each kind of outcome came, as a text. Two shakes from one seed are to have this and their schedules in common.
fn counts_in_common(alloc: Global, one: &Findings, other: &Findings) -> Result<Vec<u8>> {
    let counts = counts_text(alloc, one.plain, &one.kinds)?;
    ensure!(
        counts == counts_text(alloc, other.plain, &other.kinds)? && same_files(one, other),
        "a seed gives two answers"
    );
    Ok(counts)
}

/// Writes how often each kind of outcome came in a shake of so many runs, and shakes once more for the same.
fn write_counts<W: Write>(
    out: &mut W,
    alloc: Global,
    image: &Image,
    schedule: &Schedule,
    runs: u32,
    found: &Findings,
) -> Result<()> {
    let again = told_shake(alloc, image, schedule, runs)?;
    out.write_all(&counts_in_common(alloc, found, &again)?)?;
    Ok(())
}

/// Writes the schedules that a shake found.
fn write_schedules<W: Write>(
    out: &mut W,
    alloc: Global,
    image: &Image,
    schedule: &Schedule,
    plan: Plan,
    found: &Findings,
) -> Result<()> {
    for written in &found.files {
        write_found(out, alloc, image, schedule, plan, &found.kinds, written)?;
    }
    Ok(())
}

/// Writes the name of an example, how often each kind of outcome came in so many runs, and the schedules that were found, which come from a seed twice.
fn write_findings<W: Write>(
    out: &mut W,
    alloc: Global,
    name: &str,
    image: &Image,
    schedule: &Schedule,
    runs: u32,
) -> Result<()> {
    let plan = plan_of(alloc, image, schedule, runs)?;
    writeln!(out, "shake {name} {runs}")?;
    let found = told_shake(alloc, image, schedule, runs)?;
    write_counts(out, alloc, image, schedule, runs, &found)?;
    write_schedules(out, alloc, image, schedule, plan, &found)
}

/// Writes what a shake of an example in so many runs finds. Of the schedule's file its head and the interrupts are taken.
pub fn write_shake<W: Write>(
    out: &mut W,
    alloc: Global,
    name: &str,
    image: &Image,
    file: &[u8],
    runs: u32,
) -> Result<()> {
    let schedule = parse(alloc, file)?;
    write_findings(out, alloc, name, image, &schedule, runs)
}
