//! The tests of a file, as they are read.

use crate::register::{Register, set_core, set_registers};
use anyhow::{Context, Result, ensure};
use hm_isa::Below;
use hm_mem::Actor;
use hm_regs::Regs;
use std::alloc::Global;
use std::fmt::Write;

/// Where the code of a test stands, if it tells no other place.
const CODE_START: u32 = 0x400;

/// Bytes that stand at an address.
#[derive(Drop)]
pub struct Segment {
    pub addr: u32,
    pub bytes: Vec<u8>,
}

/// A test: what stands before it, the code, and what stands after it.
#[derive(Drop)]
pub struct Case {
    /// The line at which it begins, from 1.
    pub line: usize,
    /// The row of the code, or MIX, MIXS or MIXM for a short program.
    pub row: String,
    pub code: Vec<u8>,
    /// The address behind the code.
    pub behind: u32,
    /// How many instructions are done; else they are done until the program counter stands behind the code.
    pub steps: Option<u32>,
    /// The first beat that is done of a vector instruction.
    pub first_beat: Below<4>,
    /// The beat behind the last one that is done.
    pub past_beat: Below<5>,
    pub actor: Actor,
    pub before: Regs,
    /// The bytes of flash and SRAM that stand there before.
    pub loaded: Vec<Segment>,
    /// The bytes of SRAM that are tainted before.
    pub tainted: Vec<u32>,
    /// How it ends, in words; nothing where all is done.
    pub ends: String,
    pub after: Regs,
    /// The bytes of SRAM that are others afterwards.
    pub written: Vec<Segment>,
    /// Bytes that are tainted afterwards, and bytes that are not.
    pub still_tainted: Vec<u32>,
    pub clean: Vec<u32>,
    /// The bits of the registers that are not compared.
    pub open: u32,
    /// Lines of what the first beat touches, and of the family of the instruction.
    pub touched: String,
}

/// The first word of a line, and what stands behind it.
fn front(text: &str) -> (&str, &str) {
    text.split_once(' ').unwrap_or((text, ""))
}

/// A hexadecimal number that is all of a text.
fn number(text: &str) -> Option<u32> {
    u32::from_str_radix(text.trim(), 16).ok()
}

/// Adds the hexadecimal numbers of a text.
fn add_numbers(text: &str, all: &mut Vec<u32>) -> Result<()> {
    for word in text.split_whitespace() {
        all.push(number(word).context("no number")?)?;
    }
    Ok(())
}

/// An address and the bytes that stand there.
fn read_segment(alloc: Global, text: &str) -> Result<Segment> {
    let (start, digits) = text
        .trim()
        .split_once(' ')
        .context("an address and bytes are wanted")?;
    let addr = number(start).context("no address")?;
    let bytes = hex::decode(alloc, digits.trim()).context("no bytes")?;
    Ok(Segment { addr, bytes })
}

/// Adds an address and the bytes that stand there.
fn add_segment(alloc: Global, text: &str, all: &mut Vec<Segment>) -> Result<()> {
    all.push(read_segment(alloc, text)?)?;
    Ok(())
}

/// The address behind code.
fn behind(start: u32, code: &[u8]) -> Option<u32> {
    start.checked_add(u32::try_from(code.len()).ok()?)
}

impl Case {
    /// A test that begins at a line, of which nothing else is told.
    fn new(alloc: Global, line: usize) -> Case {
        let mut before = Regs::start(0, CODE_START);
        before.fpca = true;
        Case {
            line,
            row: String::new(alloc),
            code: Vec::new(alloc),
            behind: CODE_START,
            steps: None,
            first_beat: Below::new(0),
            past_beat: Below::new(4),
            actor: Actor::Thread,
            before,
            loaded: Vec::new(alloc),
            tainted: Vec::new(alloc),
            ends: String::new(alloc),
            after: before,
            written: Vec::new(alloc),
            still_tainted: Vec::new(alloc),
            clean: Vec::new(alloc),
            open: 0,
            touched: String::new(alloc),
        }
    }

    /// Takes the row and the halfwords of the code.
    fn begin(&mut self, text: &str) -> Result<()> {
        let (row, code) = text.split_once(' ').context("a row and code are wanted")?;
        self.row.push_str(row)?;
        for word in code.split_whitespace() {
            let half = u16::from_str_radix(word, 16).context("no halfword")?;
            self.code.extend_from_slice(&half.to_le_bytes())?;
        }
        self.move_to(CODE_START).context("too much code")
    }

    /// Takes another address of the code.
    fn move_to(&mut self, start: u32) -> Option<()> {
        self.before.pc = start;
        self.behind = behind(start, &self.code)?;
        self.after.pc = self.behind;
        Some(())
    }

    /// Takes a line that tells a number.
    fn take_number(&mut self, name: &str, text: &str) -> Option<()> {
        let number = number(text)?;
        match name {
            "at" => self.move_to(number)?,
            "steps" => self.steps = Some(number),
            "beat" => self.first_beat = Below::of(number)?,
            "last" => self.past_beat = Below::of(number.checked_add(1)?)?,
            "handler" => self.actor = Actor::Handler { frame: number },
            _ => return None,
        }
        Some(())
    }

    /// Takes what stands in r0 to r12, sp and lr before, and also afterwards where nothing else is told.
    fn take_core(&mut self, text: &str) -> Option<()> {
        set_core(text, &mut self.before)?;
        set_core(text, &mut self.after)
    }

    /// Takes what stands in registers before, and also afterwards where nothing else is told.
    fn take_registers(&mut self, text: &str) -> Option<()> {
        set_registers(text, &mut self.before)?;
        set_registers(text, &mut self.after)
    }

    /// Takes what is another afterwards: bytes of memory, their taint, or registers.
    fn change(&mut self, alloc: Global, text: &str) -> Result<()> {
        let (name, rest) = front(text);
        match name {
            "bytes" => add_segment(alloc, rest, &mut self.written),
            "tainted" => add_numbers(rest, &mut self.still_tainted),
            "clean" => add_numbers(rest, &mut self.clean),
            _ => set_registers(text, &mut self.after).context("no registers"),
        }
    }

    /// Takes registers that are not compared.
    fn leave_open(&mut self, names: &str) -> Option<()> {
        for name in names.split_whitespace() {
            self.open |= Register::of(name)?.flag();
        }
        Some(())
    }

    /// Takes how it ends.
    fn take_ending(&mut self, ending: &str) -> Result<()> {
        ensure!(!ending.is_empty(), "an ending is wanted");
        self.ends.clear();
        self.ends.push_str(ending)?;
        Ok(())
    }

    /// Takes a line of what the first beat touches.
    fn touch(&mut self, text: &str) -> Result<()> {
        writeln!(self.touched, "{text}")?;
        Ok(())
    }

    /// Takes a line of numbers or registers.
    fn take_numbers(&mut self, name: &str, rest: &str, text: &str) -> Option<()> {
        match name {
            "at" | "steps" | "beat" | "last" | "handler" => self.take_number(name, rest),
            "regs" => self.take_core(rest),
            "any" => self.leave_open(rest),
            "end" if rest.is_empty() => Some(()),
            _ => self.take_registers(text),
        }
    }

    /// Takes a line.
    fn take(&mut self, alloc: Global, text: &str) -> Result<()> {
        let (name, rest) = front(text);
        match name {
            "code" => self.begin(rest),
            "bytes" => add_segment(alloc, rest, &mut self.loaded),
            "tainted" => add_numbers(rest, &mut self.tainted),
            "then" => self.change(alloc, rest),
            "ends" => self.take_ending(rest),
            "reads" | "writes" | "loads" | "stores" | "family" => self.touch(text),
            _ => self
                .take_numbers(name, rest, text)
                .context("no number or register, or a word too many"),
        }
    }
}

/// Reads a line of a file, given its number. A line without words, or whose first is `#`, tells nothing.
fn read_line(alloc: Global, line: usize, text: &str, cases: &mut Vec<Case>) -> Result<()> {
    match front(text).0 {
        "" | "#" => return Ok(()),
        "code" => cases.push(Case::new(alloc, line))?,
        _ => {}
    }
    let case = cases.last_mut().context("no test has begun")?;
    case.take(alloc, text)
}

/// The tests of a file in their order.
pub fn read_cases(alloc: Global, text: &str) -> Result<Vec<Case>> {
    let mut cases = Vec::new(alloc);
    for (line, text) in (1..).zip(text.lines()) {
        read_line(alloc, line, text, &mut cases).context(format_args!("line {line}"))?;
    }
    Ok(cases)
}
