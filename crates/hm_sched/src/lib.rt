//! Schedules: what each tick of a run does, and the files that they stand in.
#![tactic(auto)]

ghost use Rattle.std.specs.Prelude.{◌≡◌, ◌+◌, ◌≤◌, ◌<◌, ◌^◌, ◌⊎◌, ◌↔◌, false, [], ◌∷◌, ◌++◌, length, Some, Err, slice_get, IfOk, OnOk, OnErr, IsOkUnless};
ghost use Rattle.std.specs.List.{All};
ghost use Rattle.hm_sched.specs.Schedule.{TickLine, Sched, line_of, most_ticks, total, ticks_of, plain, IsLetter, IsFormat, IsSched, most_irq, first_line};
ghost use Rattle.hm_sched.specs.Words.{number_of};
ghost use Rattle.hm_base.specs.Image.{sram_start, sram_size};

mod errors;
mod laws;
mod printing;
mod reading;
mod tick_text;

use arrayvec::ArrayVec;
pub use errors::{LineKind, SchedErr};
use hm_base::SRAM_START;
pub use laws::file_law;
pub use printing::{has_irq, print, print_tick};
pub use reading::parse;
use std::alloc::Global;
use std::marker::Model;

/// The most ticks that a schedule has.
pub const MOST_TICKS: u32 = 16_777_216;

/// The interrupts that a format names are those below this number.
pub fn most_irq(format: u32) -> u32
    ensures value { result ≡ most_irq format }
    ensures few { result ≤ 240 }
{
    if format == 1 { 32 } else { 240 }
}

/// The number of the first line of ticks in the text of a schedule.
fn first_line(format: u32) -> u32
    ensures value { result ≡ first_line format }
    ensures few { result ≤ 6 }
{
    if format == 1 { 5 } else { 6 }
}

/// One line of a schedule: as many ticks as its count says, all alike.
#[derive(Drop)]
pub struct Line {
    /// How many ticks, 1 or more.
    pub count: u32,
    /// What each tick does, one letter after another: `O` a step of the older instruction, `Y` one of the younger, `W` all that is left of the
    /// older one.
    pub letters: ArrayVec<u8, 8>,
    /// The interrupts that arrive in each tick: bit n % 32 of word n / 32 stands for interrupt n.
    pub irq: [u32; 8],
}

/// What each tick of a run does. It has at most 16,777,216 ticks.
#[derive(Drop)]
pub struct Schedule {
    format: u32,
    entries: bool,
    lo: u32,
    hi: u32,
    floor: u32,
    process: u32,
    lines: Vec<Line>,
    total: u32,
}

impl Model for Schedule {
    ghost use Rattle.hm_sched.specs.Schedule.{Sched};

    ghost Value = { Sched };

    ghost use Rattle.hm_sched.specs.Held.{schedule_view, IsSchedule};

    ghost view = { schedule_view };

    ghost invariant = { IsSchedule };
}

impl Schedule {
    /// A schedule of format 1 with no lines, which takes no memory.
    ///
    /// `entries` says whether exceptions are entered. The bytes of SRAM from `lo` up to `hi` are the region in which a handler may store, and
    /// `floor` is the lowest address of the main stack: of frames there, and of what a handler may store to up to the main stack pointer just after its entry.
    pub fn begin(alloc: Global, entries: bool, lo: u32, hi: u32, floor: u32) -> Schedule
        requires region_start { sram_start ≤ lo }
        requires region_order { lo ≤ hi }
        requires region_end { hi ≤ sram_start + sram_size }
        requires floor_start { sram_start ≤ floor }
        requires floor_end { floor ≤ sram_start + sram_size }
        ensures made { result ≡ record { format = 1; entries = entries; lo = lo; hi = hi; floor = floor; process = floor; lines = [] } }
    {
        Schedule::of_format(alloc, 1, entries, lo, hi, floor, floor)
    }

    /// A schedule of format 2 with no lines, which takes no memory: as of format 1, but that `process` is the lowest address of the process
    /// stack, and that the interrupts are those from 0 to 239.
    pub fn begin2(
        alloc: Global,
        entries: bool,
        lo: u32,
        hi: u32,
        floor: u32,
        process: u32,
    ) -> Schedule
        requires region_start { sram_start ≤ lo }
        requires region_order { lo ≤ hi }
        requires region_end { hi ≤ sram_start + sram_size }
        requires floor_start { sram_start ≤ floor }
        requires floor_end { floor ≤ sram_start + sram_size }
        requires process_start { sram_start ≤ process }
        requires process_end { process ≤ sram_start + sram_size }
        ensures made { result ≡ record { format = 2; entries = entries; lo = lo; hi = hi; floor = floor; process = process; lines = [] } }
    {
        Schedule::of_format(alloc, 2, entries, lo, hi, floor, process)
    }

    /// A schedule of this format with no lines, which takes no memory.
    fn of_format(
        alloc: Global,
        format: u32,
        entries: bool,
        lo: u32,
        hi: u32,
        floor: u32,
        process: u32,
    ) -> Schedule
        requires known { IsFormat format }
        requires region_start { sram_start ≤ lo }
        requires region_order { lo ≤ hi }
        requires region_end { hi ≤ sram_start + sram_size }
        requires floor_start { sram_start ≤ floor }
        requires floor_end { floor ≤ sram_start + sram_size }
        requires process_start { sram_start ≤ process }
        requires process_end { process ≤ sram_start + sram_size }
        requires one_floor { format ≡ 1 → process ≡ floor }
        ensures made { result ≡ record { format = format; entries = entries; lo = lo; hi = hi; floor = floor; process = process; lines = [] } }
    {
        Schedule {
            format,
            entries,
            lo,
            hi,
            floor,
            process,
            lines: Vec::new(alloc),
            total: 0,
        }
    }

    /// Adds a line: `count` ticks of these letters, in each of which the interrupts of `irq` arrive: bit n % 32 of word n / 32 stands for
    /// interrupt n, and each is to be one that the format names. No letters stand for a tick without a step.
    ///
    /// Refuses TooManyTicks, with the number that the line has in the schedule's text, exactly where the ticks would be more than 16,777,216,
    /// and OutOfMemory. A refusal leaves the schedule as it was.
    pub fn add(&mut self, count: u32, letters: &[u8], irq: &[u32; 8]) -> Result<(), SchedErr>
        requires some { 1 ≤ count }
        requires eight_digits { count ≤ 99999999 }
        requires few { length letters.now ≤ 8 }
        requires each_letter { All IsLetter letters.now }
        requires named { number_of irq.now < 2 ^ most_irq self.now.format }
        ensures ok { let line : TickLine = record { count = count; letters = letters.now; irq = irq.now } in
            OnOk result (self.new ≡ record self.old { lines = self.old.lines ++ line ∷ [] }) }
        ensures too_many { (result ≡ Err (SchedErr.TooManyTicks (first_line self.old.format + length self.old.lines)))
            ↔ (most_ticks < total self.old.lines + count) }
        ensures else_memory { total self.old.lines + count ≤ most_ticks → IsOkUnless result SchedErr.OutOfMemory }
        ensures err { OnErr result (self.new ≡ self.old) }
    {
        if count > MOST_TICKS - self.total {
            return Err(SchedErr::TooManyTicks {
                line: first_line(self.format) + self.lines.len() as u32,
            });
        }
        self.lines.push(Line {
            count,
            letters: held(letters),
            irq: *irq,
        })?;
        self.total += count;
        Ok(())
    }

    /// Its format, 1 or 2.
    pub fn format(&self) -> u32
        ensures value { result ≡ self.now.format }
        ensures known { IsFormat result }
    {
        self.format
    }

    /// Whether exceptions are entered.
    pub fn entries(&self) -> bool
        ensures value { result ≡ self.now.entries }
    {
        self.entries
    }

    /// The first address of the region in which handlers may store, and the first one past it.
    pub fn region(&self) -> (u32, u32)
        ensures start { result.0 ≡ self.now.lo }
        ensures end { result.1 ≡ self.now.hi }
        ensures sound { IsSched self.now }
    {
        (self.lo, self.hi)
    }

    /// The lowest address of the main stack: of frames there, and of what handlers may store to outside the region.
    pub fn floor(&self) -> u32
        ensures value { result ≡ self.now.floor }
    {
        self.floor
    }

    /// The lowest address of the process stack, which is that of the main stack in format 1.
    pub fn process(&self) -> u32
        ensures value { result ≡ self.now.process }
    {
        self.process
    }

    /// How many lines it has.
    pub fn lines(&self) -> usize
        ensures count { result ≡ length self.now.lines }
        ensures sound { IsSched self.now }
    {
        self.lines.len()
    }

    /// Line k, from 0 on.
    pub fn line(&self, k: usize) -> &Line
        requires there { k < length self.now.lines }
        ensures value { slice_get self.now.lines k ≡ Some (line_of result.now) }
    {
        &self.lines[k]
    }

    /// How many ticks it has: the sum of the counts of its lines, at most 16,777,216.
    pub fn ticks(&self) -> u32
        ensures sum { result ≡ total self.now.lines }
        ensures each_tick { result ≡ length (ticks_of self.now.lines) }
        ensures most { result ≤ most_ticks }
    {
        self.total
    }
}

/// The letters of a line, as a line holds them.
fn held(letters: &[u8]) -> ArrayVec<u8, 8>
    requires few { length letters.now ≤ 8 }
    ensures same { result.items ≡ letters.now }
{
    ArrayVec::try_from(letters).unwrap()
}

/// The schedule of n ticks of one whole instruction each, with no entries, and with no bytes to which handlers may store.
///
/// Refuses TooManyTicks, with line 5, exactly where n is more than 16,777,216, and OutOfMemory.
pub fn plain(alloc: Global, n: u32) -> Result<Schedule, SchedErr>
    ensures ok { IfOk result (λ s. s ≡ plain n) }
    ensures too_many { (result ≡ Err (SchedErr.TooManyTicks 5)) ↔ (most_ticks < n) }
    ensures else_memory { n ≤ most_ticks → IsOkUnless result SchedErr.OutOfMemory }
{
    if n > MOST_TICKS {
        return Err(SchedErr::TooManyTicks {
            line: first_line(1),
        });
    }
    let mut schedule = Schedule::begin(alloc, false, SRAM_START, SRAM_START, SRAM_START);
    if n > 0 {
        schedule.add(n, b"W", &[0; 8])?;
    }
    Ok(schedule)
}
