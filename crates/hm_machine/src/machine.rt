//! The machine.

ghost use Rattle.std.specs.Prelude.{◌≡◌, ℕ, suc, ◌+◌, ◌-◌, ◌<◌, ◌≤◌, ◌%◌, List, [], ◌∷◌, ◌++◌, length, drop, reverse, None, Some, IsSome, IfOk, IfErr};
ghost use Rattle.std.specs.Prelude.{IfNone, IfSome, OnSome};
ghost use Rattle.hm_base.specs.Image.{Segment, flash_byte};
ghost use Rattle.hm_codes.specs.Listing.{Listing, IsListing, Stands};
ghost use Rattle.hm_isa.specs.declared.Instr.{Instr};
ghost use Rattle.hm_machine.specs.Bares.{IsBare, ShowsGiven, may_pair};
ghost use Rattle.hm_machine.specs.Passing.{Passes};
ghost use Rattle.hm_machine.specs.Shown.{Shows, fixed_of, run_of, timed_of};
ghost use Rattle.hm_machine.specs.Calls.{tick_answer, LoadRefuses};
ghost use Rattle.hm_machine.specs.ShortReport.{is_fault, short_report};
ghost use Rattle.hm_mem.specs.Memory.{flash_at, memory_of, told_at, tainted_at};
ghost use Rattle.hm_run.specs.Bare.{bare, bare_program};
ghost use Rattle.hm_run.specs.Headline.{Headline, PlainReport, Riders};
ghost use Rattle.hm_run.specs.InOrder.{in_order};
ghost use Rattle.hm_run.specs.Report.{report_text, memory_text};
ghost use Rattle.hm_run_laws.specs.Order.{KeepsOrder};
ghost use Rattle.hm_run_laws.specs.Runs.{Pointers, next, run, run_out, tick};
ghost use Rattle.hm_run_laws.specs.Taint.{TaintLies};
ghost use Rattle.hm_run_laws.specs.Position.{StandsInOrder};
ghost use Rattle.hm_sched.specs.Schedule.{Sched, TickLine, line_of, plain, ticks_of, most_ticks, no_irq, IsSched};
ghost use Rattle.hm_state.specs.Start.{reset_pc};
ghost use Rattle.hm_state.specs.State.{Byte, regs_of};

use crate::checkpoint::{Checkpoint, put_acts, put_over};
use crate::cursor::{Cursor, after_tick, line_at};
use crate::load::{LoadErr, flash_word};
use crate::memory_text::memory_text;
use crate::start::Start;
use crate::tick::tick;
use hm_base::{Image, OutOfMemory, SRAM_START};
use hm_cpu::{Cpu, DecodedTable, Letters, OUTPUT, Uncached, ready};
use hm_decode::fetch;
use hm_exc::{Activation, Acts};
use hm_isa::Instr;
use hm_mem::{Mem, Still};
use hm_regs::Regs;
use hm_report_lines::outcome_line;
use hm_run::{Outcome, Turn};
use hm_sched::{Line, MOST_TICKS, Schedule};
use hm_window::Window;
use std::alloc::Global;
use std::marker::Model;

/// A machine in a run: an image in its memory, a schedule, and how far the run is.
#[derive(Drop)]
pub struct Machine {
    cpu: Cpu,
    schedule: Schedule,
    cursor: Cursor,
    ticks: u32,
    entries: u32,
    outcome: Option<Outcome>,
}

impl Model for Machine {
    ghost use Rattle.hm_machine.specs.Shown.{Shown};

    ghost Value = { Shown };

    ghost use Rattle.hm_machine.specs.Machines.{machine_view, IsMachine};

    ghost view = { machine_view };

    ghost invariant = { IsMachine };
}

/// A run of no ticks is over at once.
fn first_outcome(schedule: &Schedule) -> Option<Outcome>
    ensures none { 0 < length (ticks_of schedule.now.lines) → result ≡ None }
    ensures out { length (ticks_of schedule.now.lines) ≡ 0 → result ≡ Some Outcome.OutOfTicks }
    ensures most { length (ticks_of schedule.now.lines) ≤ most_ticks }
    ensures sound { IsSched schedule.now }
{
    let _known = schedule.lines();
    if schedule.ticks() == 0 {
        Some(Outcome::OutOfTicks)
    } else {
        None
    }
}

/// Whether a run ended with a fault.
fn is_fault(outcome: Option<Outcome>) -> bool
    ensures { result ≡ is_fault outcome }
{
    matches!(outcome, Some(Outcome::Fault { .. }))
}

impl Machine {
    ghost use Rattle.hm_machine.specs.Checkpoints.{IsKept, at_checkpoint};
    ghost use Rattle.hm_machine.specs.Starts.{IsStart, SameBounds};

    /// The machine after a reset to this image, at the start of this schedule. It takes all the memory that the run needs.
    /// LoadErr::Reset exactly where bit 0 of the word at 4 is 0 (DDI0553, "Reset": the address of the first instruction).
    pub fn load(alloc: Global, image: &Image, s: Schedule) -> Result<Machine, LoadErr>
        ensures shows { IfOk result (λ m. Shows image.now s 0 m) }
        ensures odd { IfOk result (λ m. reset_pc image.now % 2 ≡ 1) }
        ensures refused { IfErr result (λ e. LoadRefuses image.now e) }
        ensures order { IfOk result (λ m. (listing : Listing) → IsListing (flash_byte image.now) listing
            → KeepsOrder listing image.now s (run_of m (run listing image.now s 0).entries)) }
        // The same in plain words: where the thread stands among whole instructions in order.
        ensures position { IfOk result (λ m. (listing : Listing) → IsListing (flash_byte image.now) listing
            → StandsInOrder listing image.now s (run_of m (run listing image.now s 0).entries)) }
        ensures taint { IfOk result (λ m. (listing : Listing) → IsListing (flash_byte image.now) listing
            → TaintLies s (run listing image.now s 0).entries (timed_of m).config.state) }
    {
        let (lo, hi) = s.region();
        let mem = Mem::new(alloc, image, lo, hi, s.floor(), s.process())?;
        let output = Vec::with_capacity(alloc, OUTPUT)?;
        let sp = flash_word(&mem, 0);
        let pc = flash_word(&mem, 4);
        if pc % 2 == 0 {
            return Err(LoadErr::Reset { value: pc });
        }
        let outcome = first_outcome(&s);
        Ok(Machine {
            cpu: Cpu {
                regs: Regs::start(sp - sp % 4, pc - pc % 2),
                mem,
                output,
                window: Window { a: 0, b: 0 },
                acts: Acts::new(),
                retired: 0,
                older_steps: 0,
            },
            schedule: s,
            cursor: Cursor { line: 0, used: 0 },
            ticks: 0,
            entries: 0,
            outcome,
        })
    }

    /// The machine after a reset to this image, at tick 0 of a schedule without entries, with an empty region and the lowest floor, whose ticks are
    /// still to be given (`extend`). It is refused as by `load`.
    pub fn bare(alloc: Global, image: &Image) -> Result<Machine, LoadErr>
        ensures bare { IfOk result (λ m. IsBare m) }
        ensures shows { IfOk result (λ m. ShowsGiven image.now [] m) }
        ensures running { IfOk result (λ m. m.outcome ≡ None) }
        ensures odd { IfOk result (λ _. reset_pc image.now % 2 ≡ 1) }
        ensures refused { IfErr result (λ e. LoadRefuses image.now e) }
    {
        let schedule = Schedule::begin(alloc, false, SRAM_START, SRAM_START, SRAM_START);
        let mut machine = Machine::load(alloc, image, schedule)?;
        machine.reopen();
        Ok(machine)
    }

    /// A machine under a schedule without ticks, which is over at once, goes on: its ticks are given one by one.
    fn reopen(&mut self)
        requires { (image : List Segment) × Shows image (bare []) 0 self.old }
        ensures value { self.new ≡ record self.old { outcome = None; left = [] } }
    {
        self.outcome = None;
    }

    /// How the run ended; None exactly while it runs.
    pub fn outcome(&self) -> Option<Outcome>
        ensures { result ≡ (timed_of self.now).outcome }
    {
        self.outcome
    }

    /// The registers.
    pub fn regs(&self) -> &Regs
        ensures { result.now ≡ regs_of (timed_of self.now).config.state }
    {
        // the packed words are put together again, since each number fits its type
        self.cpu.regs.in_range();
        &self.cpu.regs
    }

    /// The position: the beats done of the older and of the younger instruction in flight.
    pub fn position(&self) -> Window
        ensures older { result.a ≡ (timed_of self.now).config.a }
        ensures younger { result.b ≡ (timed_of self.now).config.b }
    {
        self.cpu.window
    }

    /// How many ticks were begun, at most 16,777,216.
    pub fn ticks(&self) -> u32
        ensures value { result ≡ (timed_of self.now).ticks }
        ensures most { result ≤ most_ticks }
    {
        self.ticks
    }

    /// How many exceptions entered.
    pub fn entries(&self) -> u32
        ensures value { result ≡ self.now.entries }
        ensures most { result ≤ self.now.ticks }
    {
        self.entries
    }

    /// The instructions of the thread that were retired.
    pub fn retired(&self) -> u64
        ensures { result ≡ (timed_of self.now).config.n }
    {
        self.cpu.retired
    }

    /// The steps of an older instruction of the thread, those inside W too.
    pub fn older_steps(&self) -> u64
        ensures { result ≡ (timed_of self.now).config.steps }
    {
        self.cpu.older_steps
    }

    /// What the program wrote.
    pub fn output(&self) -> &[u8]
        ensures { result.now ≡ (timed_of self.now).config.state.rest.output }
    {
        &self.cpu.output
    }

    /// Its memory, to be read alone.
    pub fn mem(&self) -> &Mem
        ensures value { memory_of result.now ≡ self.now.memory }
    {
        &self.cpu.mem
    }

    /// The byte at an address, whatever its taint; None exactly outside flash and SRAM.
    pub fn byte(&self, addr: u32) -> Option<u8>
        ensures value { result ≡ told_at self.now.memory addr }
        ensures cell { IfSome result (λ x. x ≡ ((timed_of self.now).config.state.cell (Byte addr)).n) }
    {
        self.cpu.mem.byte(addr)
    }

    /// Whether the byte at an address is one of SRAM that an entry or a handler wrote last.
    pub fn tainted(&self, addr: u32) -> bool
        ensures value { result ≡ tainted_at self.now.memory addr }
        ensures cell { result ≡ ((timed_of self.now).config.state.cell (Byte addr)).taint }
    {
        self.cpu.mem.tainted(addr)
    }

    /// Does one tick of a run that goes on, with what it decoded of late.
    #[inline(always)]
    fn advance<L: Letters>(&mut self, decoder: &mut L)
        requires running { self.old.outcome ≡ None }
        requires lines { 0 < length self.old.schedule.lines }
        ensures next { (listing : Listing) (es : List Pointers) → IsListing (flash_at self.old.memory) listing
            → let r = next listing self.old.schedule self.old.left (run_of self.old es) in run_of self.new r.entries ≡ r }
        ensures entries { (listing : Listing) (es : List Pointers) → IsListing (flash_at self.old.memory) listing
            → self.new.entries + length es ≡ self.old.entries + length (next listing self.old.schedule self.old.left (run_of self.old es)).entries }
        ensures left { self.new.outcome ≡ None → self.new.left ≡ drop 1 self.old.left }
        ensures fewer { length self.new.left < length self.old.left }
        ensures once { self.new.ticks ≡ self.old.ticks + 1 }
        ensures flash { flash_at self.new.memory ≡ flash_at self.old.memory }
        ensures plan { self.new.schedule ≡ self.old.schedule }
        ensures fixed { fixed_of self.new ≡ fixed_of self.old }
    {
        self.ticks += 1;
        let cursor = self.cursor;
        let line = line_at(&self.schedule, cursor);
        let may_enter = self.schedule.entries();
        match tick(
            self.ticks,
            line.letters.as_slice(),
            &line.irq,
            may_enter,
            decoder,
            &mut self.cpu,
        ) {
            Err(outcome) => self.outcome = Some(outcome),
            Ok(entered) => {
                self.entries += u32::from(entered);
                match after_tick(&self.schedule, line, cursor) {
                    Some(cursor) => self.cursor = cursor,
                    None => self.outcome = Some(Outcome::OutOfTicks),
                }
            }
        }
    }

    /// Does one tick. An ended machine answers the same again and changes nothing. `decoder` may keep what the run decoded of late, on which nothing depends.
    #[inline(always)]
    fn tick_with<L: Letters>(&mut self, decoder: &mut L) -> Turn
        ensures shows { (image : List Segment) (s : Sched) (t : ℕ) → Shows image s t self.old → Shows image s (suc t) self.new }
        ensures ended { IsSome self.old.outcome → self.new ≡ self.old }
        ensures turn { result ≡ tick_answer self.new.outcome }
        // Under a schedule with lines.
        ensures fewer { self.old.outcome ≡ None → 0 < length self.old.schedule.lines → length self.new.left < length self.old.left }
        ensures once { self.old.outcome ≡ None → 0 < length self.old.schedule.lines → self.new.ticks ≡ self.old.ticks + 1 }
        // Under one without lines, whose ticks were given one by one, the ticks are out.
        ensures out { self.old.outcome ≡ None → length self.old.schedule.lines ≡ 0 → self.new ≡ record self.old { outcome = Some Outcome.OutOfTicks } }
        ensures fixed { fixed_of self.new ≡ fixed_of self.old }
    {
        if let Some(outcome) = self.outcome {
            return Turn::Ended(outcome);
        }
        if self.schedule.lines() == 0 {
            self.outcome = Some(Outcome::OutOfTicks);
            return Turn::Ended(Outcome::OutOfTicks);
        }
        self.advance(decoder);
        match self.outcome {
            Some(outcome) => Turn::Ended(outcome),
            None => Turn::Running,
        }
    }

    /// Does one tick. An ended machine answers the same again and changes nothing. It takes no memory.
    pub fn tick(&mut self) -> Turn
        ensures shows { (image : List Segment) (s : Sched) (t : ℕ) → Shows image s t self.old → Shows image s (suc t) self.new }
        ensures ended { IsSome self.old.outcome → self.new ≡ self.old }
        ensures turn { result ≡ tick_answer self.new.outcome }
        // Under a schedule with lines.
        ensures fewer { self.old.outcome ≡ None → 0 < length self.old.schedule.lines → length self.new.left < length self.old.left }
        ensures once { self.old.outcome ≡ None → 0 < length self.old.schedule.lines → self.new.ticks ≡ self.old.ticks + 1 }
        // Under one without lines, whose ticks were given one by one, the ticks are out.
        ensures out { self.old.outcome ≡ None → length self.old.schedule.lines ≡ 0 → self.new ≡ record self.old { outcome = Some Outcome.OutOfTicks } }
        ensures fixed { fixed_of self.new ≡ fixed_of self.old }
        // Whole instructions in order agree with the thread, and tainted bytes lie where they may.
        ensures order { (image : List Segment) (s : Sched) (t : ℕ) (listing : Listing) → IsListing (flash_byte image) listing → Shows image s t self.old
            → KeepsOrder listing image s (run_of self.new (run listing image s (suc t)).entries) }
        // The same in plain words: where the thread stands among whole instructions in order.
        ensures position { (image : List Segment) (s : Sched) (t : ℕ) (listing : Listing) → IsListing (flash_byte image) listing → Shows image s t self.old
            → StandsInOrder listing image s (run_of self.new (run listing image s (suc t)).entries) }
        ensures taint { (image : List Segment) (s : Sched) (t : ℕ) (listing : Listing) → IsListing (flash_byte image) listing → Shows image s t self.old
            → TaintLies s (run listing image s (suc t)).entries (timed_of self.new).config.state }
    {
        self.tick_with(&mut Uncached)
    }

    /// Does so many ticks, or those until the run ends, with what was decoded of late.
    fn go_on<L: Letters>(&mut self, count: u32, decoder: &mut L)
        ensures passes { Passes count self.old self.new }
    {
        for _k in 0..count {
            if let Turn::Ended(_) = self.tick_with(decoder) {
                return;
            }
        }
    }

    /// The same with a table: apart from `pass`, so that a few ticks leave no room on the stack for one.
    #[inline(never)]
    fn go_on_with_table(&mut self, count: u32)
        ensures passes { Passes count self.old self.new }
    {
        self.go_on(count, &mut DecodedTable::EMPTY);
    }

    /// Does so many ticks; of a run that has ended, none. It takes no memory.
    pub fn pass(&mut self, count: u32)
        // Each is a tick more of the run.
        ensures shows { (image : List Segment) (s : Sched) (t : ℕ) → Shows image s t self.old → Shows image s (t + count) self.new }
        // Flash, where a handler may store, and the schedule stay.
        ensures fixed { fixed_of self.new ≡ fixed_of self.old }
    {
        // to make a table takes as long as some fifty ticks
        if count < 64 {
            self.go_on(count, &mut Uncached);
        } else {
            self.go_on_with_table(count);
        }
    }

    /// Whether the next O and then a Y go on, of a machine that `bare` made: it stands where two beats of the older instruction are done and none of
    /// the younger, the third goes on, and behind it the first of the younger breaks no rule and does not stop. The machine stays as it is.
    pub fn ready(&mut self) -> bool
        requires bare { IsBare self.old }
        ensures value { (listing : Listing) → IsListing (flash_at self.old.memory) listing → result ≡ may_pair (bare_program listing) (run_of self.old []) }
        ensures same { self.new ≡ self.old }
    {
        if self.outcome.is_some() {
            return false;
        }
        let at = self.cpu.window;
        ready(&self.cpu.regs, at, &mut self.cpu.mem)
    }

    /// Does one tick of these letters, of a machine that `bare` made. An ended machine answers as by `tick`. It takes no memory.
    pub fn extend(&mut self, letters: &[u8]) -> Turn
        requires bare { IsBare self.old }
        requires few { length letters.now ≤ 8 }
        requires ticks { self.old.ticks < most_ticks - 1 }
        // One tick more of a run in which nothing enters.
        ensures next { (listing : Listing) (line : TickLine) → IsListing (flash_at self.old.memory) listing → line.letters ≡ letters.now → line.irq ≡ no_irq
            → run_of self.new [] ≡ tick listing (bare []) line (run_of self.old []) }
        ensures shows { (image : List Segment) (given : List TickLine) (line : TickLine) → line.letters ≡ letters.now → line.irq ≡ no_irq
            → ShowsGiven image given self.old → ShowsGiven image (given ++ line ∷ []) self.new }
        ensures bare { IsBare self.new }
        ensures flash { flash_at self.new.memory ≡ flash_at self.old.memory }
        ensures ended { IsSome self.old.outcome → self.new ≡ self.old }
        ensures turn { result ≡ tick_answer self.new.outcome }
    {
        if let Some(outcome) = self.outcome {
            return Turn::Ended(outcome);
        }
        self.ticks += 1;
        match tick(
            self.ticks,
            letters,
            &[0; 8],
            false,
            &mut Uncached,
            &mut self.cpu,
        ) {
            Err(outcome) => {
                self.outcome = Some(outcome);
                Turn::Ended(outcome)
            }
            // under a schedule without entries none entered
            Ok(_entered) => Turn::Running,
        }
    }

    /// Does ticks until the run ends, one for each tick of the schedule at most. It takes no memory.
    pub fn run(&mut self) -> Outcome
        ensures shows { (image : List Segment) (s : Sched) (t : ℕ) → Shows image s t self.old → Shows image s (length (ticks_of s.lines)) self.new }
        ensures outcome { self.new.outcome ≡ Some result }
        ensures ended { IsSome self.old.outcome → self.new ≡ self.old }
        ensures turns { self.new.ticks ≤ self.old.ticks + length self.old.left }
        // Under a schedule without lines, whose ticks were given one by one, the ticks are out.
        ensures out { self.old.outcome ≡ None → length self.old.schedule.lines ≡ 0 → self.new ≡ record self.old { outcome = Some Outcome.OutOfTicks } }
        ensures fixed { fixed_of self.new ≡ fixed_of self.old }
        // Under a plain schedule the report is that of the instructions in order; of a fault the first line.
        ensures plain { (image : List Segment) (n t : ℕ) (listing : Listing) → IsListing (flash_byte image) listing → Shows image (plain n) t self.old
            → PlainReport (timed_of self.new) (in_order listing image n) }
        // Under any schedule, whatever enters and whatever handlers do, where it halts after n instructions of the thread, they halt there in order, with this
        // report and these bytes of memory.
        ensures headline { (image : List Segment) (s : Sched) (t : ℕ) (listing : Listing) → IsListing (flash_byte image) listing → Shows image s t self.old
            → Headline listing image (timed_of self.new) (report_text (timed_of self.new)) (memory_text (timed_of self.new)) }
        // Where the thread has a fault or the output is full, that is the next instruction's in order; where the ticks are out before the
        // n-th instruction in order halts, there were fewer than 4n steps of the older.
        ensures riders { (image : List Segment) (s : Sched) (t : ℕ) (listing : Listing) → IsListing (flash_byte image) listing
            → Shows image s t self.old → Riders listing image (timed_of self.new) }
        // Where the ticks are out: where the thread stands among whole instructions in order.
        ensures position { (image : List Segment) (s : Sched) (t : ℕ) (listing : Listing) → IsListing (flash_byte image) listing → Shows image s t self.old
            → StandsInOrder listing image s (run_of self.new (run_out listing image s).entries) }
        // Every tainted byte lies in the region, or from the floor up and below the main stack pointer at one of the run's entries, or from the
        // process floor up and below the process stack pointer at one of those from that stack.
        ensures taint { (image : List Segment) (s : Sched) (t : ℕ) (listing : Listing) → IsListing (flash_byte image) listing → Shows image s t self.old
            → TaintLies s (run_out listing image s).entries (timed_of self.new).config.state }
    {
        // no schedule has more ticks; where none are left, as without lines, one more turn ends it
        self.go_on_with_table(MOST_TICKS + 1 - self.ticks);
        match self.outcome {
            Some(outcome) => outcome,
            None => unreachable!(),
        }
    }

    /// How many ticks its schedule has.
    pub(crate) fn scheduled(&self) -> u32
        ensures value { result ≡ length (ticks_of self.now.schedule.lines) }
        ensures most { result ≤ most_ticks }
    {
        self.schedule.ticks()
    }

    /// The instruction that stands at an address; None exactly where none does.
    pub fn instr(&self, addr: u32) -> Option<Instr>
        ensures there { IfSome result (λ i. Stands (flash_at self.now.memory) addr i) }
        ensures none { IfNone result ((i : Instr) → ¬ (Stands (flash_at self.now.memory) addr i)) }
    {
        fetch(&self.cpu.mem, addr).ok()
    }

    /// What changes of it in a run, as it stands. OutOfMemory where memory for it was refused.
    pub(crate) fn checkpoint(&self, alloc: Global) -> Result<Checkpoint, OutOfMemory>
        ensures written { IfOk result (λ c. c.written ≡ length self.now.output) }
        ensures kept { IfOk result (λ c. IsKept c (fixed_of self.now) self.now.output) }
        ensures shows { IfOk result (λ c. at_checkpoint c (fixed_of self.now) self.now.output ≡ self.now) }
    {
        let mut still = Still::new(alloc)?;
        let mut acts = Acts::new();
        put_acts(&self.cpu.acts, &mut acts);
        self.cpu.mem.keep(&mut still);
        Ok(Checkpoint {
            regs: self.cpu.regs,
            still,
            written: self.cpu.output.len(),
            window: self.cpu.window,
            acts,
            retired: self.cpu.retired,
            older_steps: self.cpu.older_steps,
            cursor: self.cursor,
            ticks: self.ticks,
            entries: self.entries,
            outcome: self.outcome,
        })
    }

    /// Puts it back to a checkpoint, which lies in a run of this image under this schedule; `output` was written by then. It takes no memory.
    pub(crate) fn back(&mut self, c: &Checkpoint, output: &[u8])
        requires kept { IsKept c.now (fixed_of self.old) output.now }
        ensures shows { self.new ≡ at_checkpoint c.now (fixed_of self.old) output.now }
    {
        put_over(output, &mut self.cpu.output);
        put_acts(&c.acts, &mut self.cpu.acts);
        self.cpu.mem.back(&c.still);
        self.cpu.regs = c.regs;
        self.cpu.window = c.window;
        self.cpu.retired = c.retired;
        self.cpu.older_steps = c.older_steps;
        self.cursor = c.cursor;
        self.ticks = c.ticks;
        self.entries = c.entries;
        self.outcome = c.outcome;
    }

    /// Its start, where it is. OutOfMemory where memory for it was refused.
    pub fn start(&self, alloc: Global) -> Result<Start, OutOfMemory>
        ensures start { IfOk result (λ x. (image : List Segment) (s : Sched) → Shows image s 0 self.now → IsStart image s x) }
    {
        let mut checkpoint = self.checkpoint(alloc)?;
        // kept as over, so that it says nothing of the ticks that are left
        checkpoint.outcome = Some(Outcome::OutOfTicks);
        Ok(Start { checkpoint })
    }

    /// Puts it back to the start of a run of its image, under another schedule with the region and the floors of the one that it has. It takes no memory.
    pub fn again(&mut self, start: &Start, s: Schedule)
        requires start { (image : List Segment) × (t u : Sched) × (k : ℕ) × IsStart image t start.now × Shows image u k self.old × SameBounds u s }
        ensures shows { (image : List Segment) (t u : Sched) (k : ℕ) → IsStart image t start.now → Shows image u k self.old → SameBounds u s
            → Shows image s 0 self.new }
    {
        self.back(&start.checkpoint, &[]);
        self.cursor = Cursor { line: 0, used: 0 };
        self.outcome = first_outcome(&s);
        self.schedule = s;
    }

    /// A copy of what the program wrote. OutOfMemory where memory for it was refused.
    pub(crate) fn copied_output(&self, alloc: Global) -> Result<Vec<u8>, OutOfMemory>
        ensures value { IfOk result (λ v. v.items ≡ self.now.output) }
    {
        Ok(self.cpu.output.to_vec(alloc)?)
    }

    /// What the next tick does; None where this one is the last, or no ticks are given.
    pub fn next_line(&self) -> Option<&Line>
        ensures runs { OnSome result (self.now.outcome ≡ None) }
        ensures first { IfSome result (λ line. self.now.left ≡ line_of line.now ∷ drop 1 self.now.left) }
        ensures none { IfNone result (self.now.outcome ≡ None → self.now.schedule.lines ≡ []) }
    {
        if self.outcome.is_some() {
            return None;
        }
        if self.schedule.lines() == 0 {
            return None;
        }
        Some(line_at(&self.schedule, self.cursor))
    }

    /// What the entries of the exceptions that are active put away, the oldest first.
    pub fn active(&self) -> &[Activation]
        ensures value { reverse result.now ≡ (timed_of self.now).acts }
        ensures count { length result.now ≡ length (timed_of self.now).acts }
    {
        self.cpu.acts.as_slice()
    }

    /// How many exceptions are active.
    fn depth(&self) -> usize
        ensures value { result ≡ length (timed_of self.now).acts }
    {
        self.cpu.acts.len()
    }

    /// The report: how the run ended, the registers, the position and the output.
    pub fn report(&self, alloc: Global) -> Result<Vec<u8>, OutOfMemory>
        ensures { IfOk result (λ out. out.items ≡ report_text (timed_of self.now)) }
    {
        hm_report::report(
            alloc,
            self.outcome,
            self.depth(),
            self.regs(),
            self.cpu.window,
            &self.cpu.output,
        )
    }

    /// The report of a run, of a fault the first line alone.
    pub fn short_report(&self, alloc: Global) -> Result<Vec<u8>, OutOfMemory>
        ensures { IfOk result (λ text. text.items ≡ short_report (timed_of self.now)) }
    {
        let outcome = self.outcome();
        if is_fault(outcome) {
            outcome_line(alloc, outcome)
        } else {
            self.report(alloc)
        }
    }

    /// The memory file: the bytes of SRAM, and then their taint, bit j of byte k that of byte 8k + j.
    pub fn memory_file(&self, alloc: Global) -> Result<Vec<u8>, OutOfMemory>
        ensures { IfOk result (λ out. out.items ≡ memory_text (timed_of self.now)) }
    {
        memory_text(alloc, &self.cpu.mem)
    }
}
