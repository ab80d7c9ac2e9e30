//! The soak's code, run as often as is asked, so that it can be timed: under its schedule, one whole instruction a tick, or under its plan, of which it
//! is told how dense it is.

use anyhow::{Context, Result, bail, ensure};
use hm_base::Image;
use hm_machine::Machine;
use hm_plan::plan;
use hm_sched::{Schedule, plain};
use hm_soak::make;
use std::alloc::Global;
use std::io::Write;

/// How many instructions a soak has.
const INSTRUCTIONS: u32 = 4113;

/// How the ticks of a run are given.
#[derive(Clone, Copy)]
enum Ticks {
    Overlapped,
    Plain,
    Planned,
}

/// What the lines of a schedule do by beats, a beat a letter: how many beats, and in how many ticks.
#[derive(Clone, Copy, Default)]
struct Beats {
    beats: u64,
    ticks: u64,
}

/// The code of a soak, with its ticks.
fn soak(alloc: Global, number: u32, ticks: Ticks) -> Result<(Image, Schedule)> {
    let (image, overlapped) = make(alloc, number)?;
    let schedule = match ticks {
        Ticks::Overlapped => overlapped,
        Ticks::Plain => plain(alloc, INSTRUCTIONS)?,
        Ticks::Planned => plan(alloc, &image, INSTRUCTIONS)?,
    };
    Ok((image, schedule))
}

/// Runs the soak of a number to its end.
fn run(alloc: Global, number: u32, ticks: Ticks) -> Result<Machine> {
    let (image, schedule) = soak(alloc, number, ticks)?;
    let mut machine = Machine::load(alloc, &image, schedule)?;
    let _outcome = machine.run();
    Ok(machine)
}

/// What a plan does by beats: the ticks of all lines but those of W.
fn by_beats(planned: &Schedule) -> Beats {
    let mut sum = Beats::default();
    for k in 0..planned.lines() {
        let line = planned.line(k);
        if line.letters.as_slice() != b"W".as_slice() {
            let (count, letters) = (u64::from(line.count), line.letters.len() as u64);
            sum.ticks = sum.ticks.saturating_add(count);
            sum.beats = sum.beats.saturating_add(count.saturating_mul(letters));
        }
    }
    sum
}

/// Tells how dense the plan of a soak is: how many ticks an instruction takes that is done by beats, of which it has four. Alone it takes a tick
/// for each, and no schedule of two beats a tick takes fewer than two.
fn density_text(alloc: Global, number: u32) -> Result<String> {
    let (_image, planned) = soak(alloc, number, Ticks::Planned)?;
    let Beats { beats, ticks } = by_beats(&planned);
    let instructions = beats / 4;
    ensure!(instructions > 0, "no instruction is done by beats");
    let hundredths = ticks.saturating_mul(100) / instructions;
    let (whole, part) = (hundredths / 100, hundredths % 100);
    Ok(format!(in alloc;
        "by beats {instructions} in {ticks} ticks, {whole}.{part:02} each; alone 4.00, at best 2.00"
    )?)
}

/// How the ticks of a run are given, by a word.
fn ticks_of(word: &str) -> Result<Ticks> {
    match word {
        "overlapped" => Ok(Ticks::Overlapped),
        "plain" => Ok(Ticks::Plain),
        "planned" => Ok(Ticks::Planned),
        _ => bail!("overlapped, plain or planned is wanted"),
    }
}

/// Writes what a run did.
fn write_done<W: Write>(out: &mut W, machine: &Machine) -> Result<()> {
    let (instructions, steps, done) = (machine.retired(), machine.older_steps(), machine.ticks());
    writeln!(
        out,
        "instructions {instructions} steps {steps} ticks {done}"
    )?;
    Ok(())
}

/// Does so many runs of the soak of a number, and writes what the last one did.
fn write_last<W: Write>(
    out: &mut W,
    alloc: Global,
    number: u32,
    ticks: Ticks,
    times: u32,
) -> Result<()> {
    for time in 1..=times {
        let machine = run(alloc, number, ticks)?;
        if time == times {
            write_done(out, &machine)?;
        }
    }
    Ok(())
}

/// The number of a soak, and behind a colon how often it is run.
fn numbers_of(text: &str) -> Result<(u32, u32)> {
    let (number, times) = text.split_once(':').context("how often is wanted")?;
    let number = number.parse::<u32>().context("no number")?;
    let times = times.parse::<u32>().context("no number")?;
    Ok((number, times))
}

/// Does as many runs as are asked for, and writes what the last one did: overlapped, plain or planned, the number, how many, with colons between. Of a
/// plan it writes first how dense it is.
pub fn write_soak<W: Write>(out: &mut W, alloc: Global, asked: &str) -> Result<()> {
    let (ticks, numbers) = asked.split_once(':').context("a number is wanted")?;
    let ticks = ticks_of(ticks)?;
    let (number, times) = numbers_of(numbers)?;
    if let Ticks::Planned = ticks {
        writeln!(out, "{}", density_text(alloc, number)?)?;
    }
    write_last(out, alloc, number, ticks, times)
}
