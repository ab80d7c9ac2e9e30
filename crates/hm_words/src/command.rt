//! What words ask for.

ghost use Rattle.std.specs.Prelude.{◌≡◌, ℕ, List, [], ◌∷◌, ◌++◌, map, IfOk};
ghost use Rattle.hm_words.specs.Words.{source_meant, source_reads, meant, reads_of};

use crate::numbers::{Every, Planned, Range, Ticks};
use std::alloc::{AllocError, Global};

/// Where the schedule of a run comes from.
#[derive(Clone, Copy)]
pub enum Source<'a> {
    /// So many ticks of one whole instruction each.
    Plain(Ticks),
    /// A file.
    File(&'a str),
}

/// What the words ask for.
#[derive(Clone, Copy)]
pub enum Command<'a> {
    /// To run an image under a schedule, to write its memory to a file, and to print the report.
    Run {
        image: &'a str,
        schedule: Source<'a>,
        memory: &'a str,
    },
    /// To run so many whole instructions of an image in order, and to print the report, of a fault the first line alone.
    Seq {
        image: &'a str,
        ticks: Ticks,
    },
    /// To print the listing of a range of an image.
    Dis {
        image: &'a str,
        range: Range,
    },
    /// To assemble a source, and to write its image to a file.
    Asm {
        source: &'a str,
        out: &'a str,
    },
    /// To run the generated work of a number, and to print the summary.
    Soak {
        number: u32,
    },
    /// To print the answers of a script over a run.
    Debug {
        image: &'a str,
        schedule: Source<'a>,
        script: &'a str,
    },
    /// To write the journal of a run to a file, with a checkpoint every so many ticks.
    Journal {
        image: &'a str,
        schedule: Source<'a>,
        every: Every,
        out: &'a str,
    },
    /// To check a journal against a run, and to print the report at a tick.
    Replay {
        image: &'a str,
        schedule: Source<'a>,
        journal: &'a str,
        tick: Ticks,
    },
    /// To check a journal against a run, and to write the run's journal, in the format of today, to a file.
    Migrate {
        image: &'a str,
        schedule: Source<'a>,
        journal: &'a str,
        out: &'a str,
    },
    /// To write the dense schedule of so many instructions to a file.
    Plan {
        image: &'a str,
        count: Planned,
        out: &'a str,
    },
    /// To write an image to a file, as Intel HEX.
    Hex {
        image: &'a str,
        out: &'a str,
    },
    /// To compile a text of the array language, and to write its image to a file.
    Kernel {
        source: &'a str,
        out: &'a str,
    },
}

/// Adds the file of a schedule, where it is one.
fn add_source<'a>(names: &mut Vec<&'a str>, schedule: &Source<'a>) -> Result<(), AllocError>
    ensures added { IfOk result (λ _. map (λ name. name.now) names.new.items
        ≡ map (λ name. name.now) names.old.items ++ source_reads (source_meant schedule.now)) }
{
    match schedule {
        Source::Plain(_) => Ok(()),
        Source::File(name) => {
            names.push(*name)?;
            Ok(())
        }
    }
}

/// The files of a run: its image, and the file of its schedule, where it has one.
pub fn run_reads<'a>(
    alloc: Global,
    image: &'a str,
    schedule: &Source<'a>,
) -> Result<Vec<&'a str>, AllocError>
    ensures names { IfOk result (λ names. map (λ name. name.now) names.items ≡ image.now ∷ source_reads (source_meant schedule.now)) }
{
    let mut names = Vec::new(alloc);
    names.push(image)?;
    add_source(&mut names, schedule)?;
    Ok(names)
}

/// The files of a run, and behind them one more.
fn run_reads_and<'a>(
    alloc: Global,
    image: &'a str,
    schedule: &Source<'a>,
    last: &'a str,
) -> Result<Vec<&'a str>, AllocError>
    ensures names { IfOk result (λ names. map (λ name. name.now) names.items ≡ image.now ∷ (source_reads (source_meant schedule.now) ++ last.now ∷ [])) }
{
    let mut names = run_reads(alloc, image, schedule)?;
    names.push(last)?;
    Ok(names)
}

/// One file alone.
fn one_read<'a>(alloc: Global, name: &'a str) -> Result<Vec<&'a str>, AllocError>
    ensures names { IfOk result (λ names. map (λ name. name.now) names.items ≡ name.now ∷ []) }
{
    let mut names = Vec::new(alloc);
    names.push(name)?;
    Ok(names)
}

impl<'a> Command<'a> {
    /// The files that the command reads, in order.
    pub fn reads(&self, alloc: Global) -> Result<Vec<&'a str>, AllocError>
        ensures names { IfOk result (λ names. map (λ name. name.now) names.items ≡ reads_of (meant self.now)) }
    {
        match self {
            Command::Run {
                image,
                schedule,
                ..
            } => run_reads(alloc, image, schedule),
            Command::Seq { image, .. } => one_read(alloc, image),
            Command::Dis { image, .. } => one_read(alloc, image),
            Command::Asm { source, .. } => one_read(alloc, source),
            Command::Soak { .. } => Ok(Vec::new(alloc)),
            Command::Debug {
                image,
                schedule,
                script,
            } => run_reads_and(alloc, image, schedule, script),
            Command::Journal {
                image,
                schedule,
                ..
            } => run_reads(alloc, image, schedule),
            Command::Replay {
                image,
                schedule,
                journal,
                ..
            } => run_reads_and(alloc, image, schedule, journal),
            Command::Migrate {
                image,
                schedule,
                journal,
                ..
            } => run_reads_and(alloc, image, schedule, journal),
            Command::Plan { image, .. } => one_read(alloc, image),
            Command::Hex { image, .. } => one_read(alloc, image),
            Command::Kernel { source, .. } => one_read(alloc, source),
        }
    }
}
