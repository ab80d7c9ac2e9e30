//! The first line of a report: how the run ended.

ghost use Rattle.std.specs.Prelude.{◌≡◌, ◌++◌, IfOk, decimal};
ghost use Rattle.hm_text_base.specs.Texts.{hex8};
ghost use Rattle.hm_run.specs.Report.{kind_text, who_text, address_text, reason_text, register_text, word_text, place_text, slot_text, rule_text, broken_text};
ghost use Rattle.hm_run.specs.Report.{offence_text, halted_text, ended_text, outcome_text, outcome_line};

use hm_base::{Fault, FaultKind, OutOfMemory, Place};
use hm_exc::{Broken, Slot};
use hm_run::{Offence, Outcome, Reason, Who};
use hm_text_base::{decimal, hex8, separator, text};
use hm_window::Rule;
use std::alloc::Global;

/// Adds words and a number.
pub fn number_text(alloc: Global, out: &mut Vec<u8>, name: &[u8], n: u64) -> Result<(), OutOfMemory>
    ensures { IfOk result (λ _. out.new.items ≡ out.old.items ++ name.now ++ decimal n) }
{
    text(out, name)?;
    decimal(alloc, out, n)
}

/// Adds words and a number of eight hexadecimal digits: an address, or what a register has.
fn at_text(out: &mut Vec<u8>, name: &[u8], word: u32) -> Result<(), OutOfMemory>
    ensures { IfOk result (λ _. out.new.items ≡ out.old.items ++ name.now ++ hex8 word) }
{
    text(out, name)?;
    hex8(out, word)
}

/// The word for a kind of fault.
pub fn kind_text(kind: FaultKind) -> &'static [u8]
    ensures { result.now ≡ kind_text kind }
{
    match kind {
        FaultKind::Undefined => b"undefined",
        FaultKind::InvState => b"invstate",
        FaultKind::Fetch => b"fetch",
        FaultKind::Bus => b"bus",
        FaultKind::FlashWrite => b"flashwrite",
        FaultKind::Unaligned => b"unaligned",
        FaultKind::DeviceVector => b"devicevector",
        FaultKind::TimedRead => b"timedread",
        FaultKind::Semihost => b"semihost",
        FaultKind::Vector => b"vector",
    }
}

/// The word for whose fault it is.
pub fn who_text(who: Who) -> &'static [u8]
    ensures { result.now ≡ who_text who }
{
    match who {
        Who::Thread => b"thread",
        Who::Handler => b"handler",
        Who::Entry => b"entry",
    }
}

/// Adds why a program halts.
fn reason_text(alloc: Global, out: &mut Vec<u8>, reason: Reason) -> Result<(), OutOfMemory>
    ensures { IfOk result (λ _. out.new.items ≡ reason_text reason out.old.items) }
{
    match reason {
        Reason::Break(k) => number_text(alloc, out, b"break ", k as u64),
        Reason::Exit(value) => at_text(out, b"exit ", value),
    }
}

/// Adds the program counter and the address of a fault.
fn address_text(out: &mut Vec<u8>, pc: u32, addr: u32) -> Result<(), OutOfMemory>
    ensures { IfOk result (λ _. out.new.items ≡ address_text pc addr out.old.items) }
{
    at_text(out, b" pc ", pc)?;
    at_text(out, b" addr ", addr)
}

/// Adds the name of core register n: 13 is sp, 14 is lr.
fn register_text(alloc: Global, out: &mut Vec<u8>, n: u8) -> Result<(), OutOfMemory>
    ensures { IfOk result (λ _. out.new.items ≡ register_text n out.old.items) }
{
    if n == 13 {
        return text(out, b"sp");
    }
    if n == 14 {
        return text(out, b"lr");
    }
    number_text(alloc, out, b"r", n as u64)
}

/// Adds the name of word k of all vector registers, as a word of one of them: `q1.2` of word 6.
pub fn word_text(alloc: Global, out: &mut Vec<u8>, k: usize) -> Result<(), OutOfMemory>
    ensures { IfOk result (λ _. out.new.items ≡ word_text k out.old.items) }
{
    number_text(alloc, out, b"q", (k / 4) as u64)?;
    number_text(alloc, out, b".", (k % 4) as u64)
}

/// Adds the name of a place: a core register, a word of a vector register, or a part of VPR or FPSCR.
fn place_text(alloc: Global, out: &mut Vec<u8>, place: Place) -> Result<(), OutOfMemory>
    ensures { IfOk result (λ _. out.new.items ≡ place_text place out.old.items) }
{
    match place {
        Place::R(n) => register_text(alloc, out, n),
        Place::QWord(k) => word_text(alloc, out, k as usize),
        Place::P0(b) => number_text(alloc, out, b"p0.", b as u64),
        Place::Mask01 => text(out, b"mask01"),
        Place::Mask23 => text(out, b"mask23"),
        Place::Carry => text(out, b"carry"),
        Place::Ltp => text(out, b"ltpsize"),
        Place::Sticky => text(out, b"qc"),
    }
}

/// Adds the name of what a handler has to leave as it was.
pub fn slot_text(alloc: Global, out: &mut Vec<u8>, slot: Slot) -> Result<(), OutOfMemory>
    ensures { IfOk result (λ _. out.new.items ≡ slot_text slot out.old.items) }
{
    match slot {
        Slot::Reg(place) => place_text(alloc, out, place),
        Slot::Primask => text(out, b"primask"),
        Slot::Psp => text(out, b"psp"),
        Slot::Basepri => text(out, b"basepri"),
    }
}

/// Adds that a tick ended with so many beats done of the older instruction, and of the younger.
fn ending_text(alloc: Global, out: &mut Vec<u8>, a: u8, b: u8) -> Result<(), OutOfMemory>
    ensures { IfOk result (λ _. out.new.items ≡ rule_text (Rule.Ending a b) out.old.items) }
{
    number_text(alloc, out, b"ending ", a as u64)?;
    separator(out)?;
    decimal(alloc, out, b as u64)
}

/// Adds the register at which two steps meet.
fn meeting_text(alloc: Global, out: &mut Vec<u8>, place: Place) -> Result<(), OutOfMemory>
    ensures { IfOk result (λ _. out.new.items ≡ rule_text (Rule.Register place) out.old.items) }
{
    text(out, b"register ")?;
    place_text(alloc, out, place)
}

/// Adds which rule of an overlap was broken.
fn rule_text(alloc: Global, out: &mut Vec<u8>, rule: Rule) -> Result<(), OutOfMemory>
    ensures { IfOk result (λ _. out.new.items ≡ rule_text rule out.old.items) }
{
    match rule {
        Rule::NotVector => text(out, b"notvector"),
        Rule::Order => text(out, b"order"),
        Rule::Register { place } => meeting_text(alloc, out, place),
        Rule::Memory { addr } => at_text(out, b"memory ", addr),
        Rule::YoungerFault => text(out, b"youngerfault"),
        Rule::Ending { a, b } => ending_text(alloc, out, a, b),
    }
}

/// Adds what a handler changed, with its value at the entry and now.
fn differing_text(
    alloc: Global,
    out: &mut Vec<u8>,
    name: Slot,
    entry: u32,
    now: u32,
) -> Result<(), OutOfMemory>
    ensures { IfOk result (λ _. out.new.items ≡ broken_text (Broken.Register name entry now) out.old.items) }
{
    text(out, b"register ")?;
    slot_text(alloc, out, name)?;
    at_text(out, b" entry ", entry)?;
    at_text(out, b" now ", now)
}

/// Adds how a return was broken.
fn broken_text(alloc: Global, out: &mut Vec<u8>, broken: Broken) -> Result<(), OutOfMemory>
    ensures { IfOk result (λ _. out.new.items ≡ broken_text broken out.old.items) }
{
    match broken {
        Broken::ExcReturn { value } => at_text(out, b"return ", value),
        Broken::Register { name, entry, now } => differing_text(alloc, out, name, entry, now),
        Broken::Frame { addr } => at_text(out, b"frame ", addr),
    }
}

/// Adds what a handler did that it may not do.
fn offence_text(alloc: Global, out: &mut Vec<u8>, what: Offence) -> Result<(), OutOfMemory>
    ensures { IfOk result (λ _. out.new.items ≡ offence_text what out.old.items) }
{
    match what {
        Offence::Left(broken) => broken_text(alloc, out, broken),
        Offence::Store { addr } => at_text(out, b"store ", addr),
        Offence::Call { pc } => at_text(out, b"call ", pc),
    }
}

/// Adds why the program halted, and after how many instructions.
pub fn halted_text(
    alloc: Global,
    out: &mut Vec<u8>,
    reason: Reason,
    n: u64,
) -> Result<(), OutOfMemory>
    ensures { IfOk result (λ _. out.new.items ≡ halted_text reason n out.old.items) }
{
    text(out, b"halted ")?;
    reason_text(alloc, out, reason)?;
    number_text(alloc, out, b" after ", n)
}

/// Adds whose fault it was, its kind, where, and after how many instructions.
fn fault_text(
    alloc: Global,
    out: &mut Vec<u8>,
    who: Who,
    fault: Fault,
    pc: u32,
    n: u64,
) -> Result<(), OutOfMemory>
    ensures { IfOk result (λ _. out.new.items ≡ ended_text (Outcome.Fault who fault pc n) out.old.items) }
{
    text(out, b"fault ")?;
    text(out, who_text(who))?;
    separator(out)?;
    text(out, kind_text(fault.kind))?;
    address_text(out, pc, fault.addr)?;
    number_text(alloc, out, b" after ", n)
}

/// Adds the tick and the step at which a rule was broken, and the rule.
fn broken_rule_text(
    alloc: Global,
    out: &mut Vec<u8>,
    tick: u32,
    step: u32,
    rule: Rule,
) -> Result<(), OutOfMemory>
    ensures { IfOk result (λ _. out.new.items ≡ ended_text (Outcome.RuleBroken tick step rule) out.old.items) }
{
    number_text(alloc, out, b"rule tick ", tick as u64)?;
    number_text(alloc, out, b" step ", step as u64)?;
    separator(out)?;
    rule_text(alloc, out, rule)
}

/// Adds the tick at which a handler did what it may not do, and what.
fn handler_text(
    alloc: Global,
    out: &mut Vec<u8>,
    tick: u32,
    what: Offence,
) -> Result<(), OutOfMemory>
    ensures { IfOk result (λ _. out.new.items ≡ ended_text (Outcome.HandlerBroken tick what) out.old.items) }
{
    number_text(alloc, out, b"handler tick ", tick as u64)?;
    separator(out)?;
    offence_text(alloc, out, what)
}

/// Adds the tick of a read of a tainted byte, and where.
fn tainted_text(
    alloc: Global,
    out: &mut Vec<u8>,
    tick: u32,
    pc: u32,
    addr: u32,
) -> Result<(), OutOfMemory>
    ensures { IfOk result (λ _. out.new.items ≡ ended_text (Outcome.TaintedRead tick pc addr) out.old.items) }
{
    number_text(alloc, out, b"tainted tick ", tick as u64)?;
    address_text(out, pc, addr)?;
    Ok(())
}

/// Adds the tick of an entry whose frame had no room, and the stack pointer before it.
fn stack_text(alloc: Global, out: &mut Vec<u8>, tick: u32, sp: u32) -> Result<(), OutOfMemory>
    ensures { IfOk result (λ _. out.new.items ≡ ended_text (Outcome.StackSpent tick sp) out.old.items) }
{
    number_text(alloc, out, b"stack tick ", tick as u64)?;
    at_text(out, b" sp ", sp)
}

/// Adds how a run ended.
fn ended_text(alloc: Global, out: &mut Vec<u8>, outcome: Outcome) -> Result<(), OutOfMemory>
    ensures { IfOk result (λ _. out.new.items ≡ ended_text outcome out.old.items) }
{
    match outcome {
        Outcome::Halted { reason, n } => halted_text(alloc, out, reason, n),
        Outcome::Fault { who, fault, pc, n } => fault_text(alloc, out, who, fault, pc, n),
        Outcome::RuleBroken { tick, step, rule } => broken_rule_text(alloc, out, tick, step, rule),
        Outcome::HandlerBroken { tick, what } => handler_text(alloc, out, tick, what),
        Outcome::TaintedRead { tick, pc, addr } => tainted_text(alloc, out, tick, pc, addr),
        Outcome::StackSpent { tick, sp } => stack_text(alloc, out, tick, sp),
        Outcome::OutputFull { tick } => number_text(alloc, out, b"output tick ", tick as u64),
        Outcome::OutOfTicks => text(out, b"ticks"),
    }
}

/// Adds how a run ended, or that it runs.
fn outcome_text(
    alloc: Global,
    out: &mut Vec<u8>,
    outcome: Option<Outcome>,
) -> Result<(), OutOfMemory>
    ensures { IfOk result (λ _. out.new.items ≡ outcome_text outcome out.old.items) }
{
    match outcome {
        Some(outcome) => ended_text(alloc, out, outcome),
        None => text(out, b"running"),
    }
}

/// The first line of a report.
pub fn outcome_line(alloc: Global, outcome: Option<Outcome>) -> Result<Vec<u8>, OutOfMemory>
    ensures { IfOk result (λ out. out.items ≡ outcome_line outcome) }
{
    let mut out = Vec::new(alloc);
    text(&mut out, b"outcome ")?;
    outcome_text(alloc, &mut out, outcome)?;
    text(&mut out, b"\n")?;
    Ok(out)
}
