//! What lines of a file are done on.

use crate::accesses::{actor, blank, checked, loaded, stored};
use crate::runs::{bytes_text, has_line, schedule_text, shown, started, taint_text};
use crate::tapes::taped;
use crate::vectors::{overlapped, refused, touched};
use crate::words::{add_lines, read_number};
use anyhow::{Context, Result, bail};
use hm_isa::{Below, Instr, S18, Scalar, width};
use hm_machine::Machine;
use hm_mem::Mem;
use std::alloc::{AllocError, Global};
use std::str::SplitWhitespace;

/// What lines set up, for the lines that follow.
#[derive(Drop)]
pub struct Bench {
    /// The name of the run.
    run: String,
    /// The source of the image.
    source: Vec<u8>,
    /// The first lines of schedules.
    head: Vec<u8>,
    /// The schedule of the machine.
    schedule: Vec<u8>,
    machine: Option<Machine>,
    /// What a machine showed that others are compared with.
    kept: Vec<u8>,
    memory: Option<Mem>,
}

/// The text of a yes or a no.
fn yes_or_no(alloc: Global, is: bool) -> Result<String> {
    Ok(String::from_str(alloc, if is { "yes" } else { "no" })?)
}

/// How many bytes a breakpoint of a number has.
fn breakpoint_width(alloc: Global, words: &mut SplitWhitespace<'_>) -> Result<String> {
    let i = Below::of(read_number(words)?).context("no number of a breakpoint")?;
    let width = width(&Instr::Scalar(Scalar::S18(S18 { i })));
    Ok(width.to_string(alloc)?)
}

/// A number that is below 8, and `none` for others.
fn below_eight(alloc: Global, words: &mut SplitWhitespace<'_>) -> Result<String> {
    match Below::<8>::of(read_number(words)?) {
        Some(below) => Ok(below.get().to_string(alloc)?),
        None => Ok(String::from_str(alloc, "none")?),
    }
}

/// What instructions answer, whose texts stand before numbers.
fn instruction_answer(
    alloc: Global,
    ask: &str,
    text: &str,
    memory: Option<&Mem>,
) -> Result<String> {
    let (instructions, numbers) = text.split_once(": ").context("no numbers")?;
    let words = &mut numbers.split_whitespace();
    match ask {
        "touch" => touched(alloc, instructions, words),
        "refused" => refused(alloc, instructions, words),
        _ => overlapped(alloc, instructions, words, memory.context("no memory")?),
    }
}

/// How a tick of a machine or its run ends, or how it has ended.
fn end_text(alloc: Global, ask: &str, machine: &mut Machine) -> Result<String, AllocError> {
    match ask {
        "tick" => format!(in alloc; "{:?}", machine.tick()),
        "end" => format!(in alloc; "{:?}", machine.run()),
        _ => format!(in alloc; "{:?}", machine.outcome()),
    }
}

/// A number that a machine tells of its run.
fn number_of(ask: &str, machine: &Machine) -> Option<u64> {
    match ask {
        "ticks" => Some(machine.ticks() as u64),
        "retired" => Some(machine.retired()),
        "older_steps" => Some(machine.older_steps()),
        "output" => Some(machine.output().len() as u64),
        _ => None,
    }
}

/// What a machine answers.
fn machine_answer(
    alloc: Global,
    ask: &str,
    words: &mut SplitWhitespace<'_>,
    machine: &mut Machine,
) -> Result<String> {
    match ask {
        "bytes" => bytes_text(alloc, words, machine),
        "tainted" => taint_text(alloc, words, machine),
        "tick" | "end" | "outcome" => Ok(end_text(alloc, ask, machine)?),
        "memory_file" => Ok(machine.memory_file(alloc)?.len().to_string(alloc)?),
        _ => {
            let number = number_of(ask, machine).context("no question")?;
            Ok(number.to_string(alloc)?)
        }
    }
}

/// Takes the lines of a text in place of those before.
fn take_lines(text: &str, lines: &mut Vec<u8>) -> Result<()> {
    lines.clear();
    add_lines(text, lines)?;
    Ok(())
}

/// Does so many ticks.
fn do_ticks(machine: &mut Machine, count: u32) {
    for _ in 0..count {
        let _turn = machine.tick();
    }
}

impl Bench {
    /// Nothing is set up.
    pub fn new(alloc: Global) -> Bench {
        Bench {
            run: String::new(alloc),
            source: Vec::new(alloc),
            head: Vec::new(alloc),
            schedule: Vec::new(alloc),
            machine: None,
            kept: Vec::new(alloc),
            memory: None,
        }
    }

    /// From now on is the run of this name. What is set up stays.
    pub fn begin(&mut self, name: &str) -> Result<()> {
        self.run.clear();
        self.run.push_str(name)?;
        Ok(())
    }

    /// The name of the run.
    pub fn run(&self) -> &str {
        &self.run
    }

    /// The first lines of a schedule, and these.
    fn schedule(&self, alloc: Global, ticks: &str) -> Result<Vec<u8>, AllocError> {
        let mut text = self.head.as_slice().to_vec(alloc)?;
        if !ticks.is_empty() {
            add_lines(ticks, &mut text)?;
        }
        Ok(text)
    }

    /// Sets up a machine, which runs under these lines.
    fn start(&mut self, alloc: Global, ticks: &str) -> Result<()> {
        self.schedule = self.schedule(alloc, ticks)?;
        self.machine = Some(started(alloc, &self.source, &self.schedule)?);
        Ok(())
    }

    /// Lets the machine run to its end, or for some ticks, or keeps what it shows.
    fn go_on(&mut self, alloc: Global, deed: &str, text: &str) -> Result<()> {
        let machine = self.machine.as_mut().context("no machine")?;
        match deed {
            "go" => {
                let _outcome = machine.run();
            }
            "step" => do_ticks(machine, text.parse::<u32>().context("no number of ticks")?),
            _ => self.kept = shown(alloc, machine)?,
        }
        Ok(())
    }

    /// Sets up a memory.
    fn lay_out(&mut self, alloc: Global, text: &str) -> Result<()> {
        self.memory = Some(blank(alloc, &mut text.split_whitespace())?);
        Ok(())
    }

    /// Lets another access the memory, or sets SYST_CSR.
    fn set_memory(&mut self, deed: &str, text: &str) -> Result<()> {
        let memory = self.memory.as_mut().context("no memory")?;
        let words = &mut text.split_whitespace();
        match deed {
            "actor" => memory.set_actor(actor(words)?),
            _ => memory.dev_mut().csr = read_number(words)?,
        }
        Ok(())
    }

    /// Does what a line says that is no question.
    pub fn obey(&mut self, alloc: Global, line: &str) -> Result<()> {
        let (deed, text) = line.split_once(' ').unwrap_or((line, ""));
        match deed {
            "source" => take_lines(text, &mut self.source),
            "asm" => Ok(add_lines(text, &mut self.source)?),
            "head" => take_lines(text, &mut self.head),
            "start" => self.start(alloc, text),
            "go" | "step" | "keep" => self.go_on(alloc, deed, text),
            "blank" => self.lay_out(alloc, text),
            "actor" | "csr" => self.set_memory(deed, text),
            _ => bail!("nothing to do"),
        }
    }

    /// What the machine answers, its report, or all that it shows.
    fn run_answer(&mut self, alloc: Global, ask: &str, text: &str) -> Result<String> {
        let machine = self.machine.as_mut().context("no machine, or no question")?;
        match ask {
            "shows" => yes_or_no(alloc, has_line(&machine.report(alloc)?, text)),
            "alike" => yes_or_no(alloc, shown(alloc, machine)? == self.kept),
            _ => machine_answer(alloc, ask, &mut text.split_whitespace(), machine),
        }
    }

    /// What the memory answers.
    fn memory_answer(&mut self, alloc: Global, ask: &str, text: &str) -> Result<String> {
        let memory = self.memory.as_mut().context("no memory")?;
        let words = &mut text.split_whitespace();
        match ask {
            "check_load" => checked(alloc, words, memory, false),
            "check_store" => checked(alloc, words, memory, true),
            "load" => loaded(alloc, words, memory),
            _ => stored(alloc, words, memory),
        }
    }

    /// What a question is answered.
    pub fn answer(&mut self, alloc: Global, question: &str) -> Result<String> {
        let (ask, text) = question.split_once(' ').unwrap_or((question, ""));
        match ask {
            "touch" | "refused" | "overlap" => {
                instruction_answer(alloc, ask, text, self.memory.as_ref())
            }
            "check_load" | "check_store" | "load" | "store" => self.memory_answer(alloc, ask, text),
            "schedule" => schedule_text(alloc, &self.schedule(alloc, text)?),
            "tape" => taped(alloc, text, &self.source, &self.schedule),
            "breakpoint_width" => breakpoint_width(alloc, &mut text.split_whitespace()),
            "below_8" => below_eight(alloc, &mut text.split_whitespace()),
            _ => self.run_answer(alloc, ask, text),
        }
    }
}
