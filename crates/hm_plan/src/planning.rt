//! The plan, tick by tick.

ghost use Rattle.std.specs.Prelude.{◌≡◌, ℕ, ◌+◌, ◌-◌, ◌*◌, ◌%◌, ◌<◌, ◌≤◌, false, true, None, [], ◌∷◌, List, drop, length, IfOk, IfErr, OnOk};
ghost use Rattle.std.specs.Option.{is_some};
ghost use Rattle.hm_base.specs.Image.{Segment, flash_byte};
ghost use Rattle.hm_codes.specs.Listing.{Listing, IsListing};
ghost use Rattle.hm_machine.specs.Bares.{IsBare};
ghost use Rattle.hm_machine.specs.Shown.{run_of};
ghost use Rattle.hm_machine.specs.Calls.{LoadRefuses};
ghost use Rattle.hm_mem.specs.Memory.{flash_at};
ghost use Rattle.hm_plan.specs.Follows.{Follow};
ghost use Rattle.hm_plan_laws.specs.Ends.{DecidedBy, EndsAs, IsGreedyAt, IsPlanEnd};
ghost use Rattle.hm_plan_laws.specs.Greedy.{greedy_at};
ghost use Rattle.hm_plan_laws.specs.Planned.{grown, is_over, plan_line, planned};
ghost use Rattle.hm_run.specs.Bare.{bare, bare_program};
ghost use Rattle.hm_run.specs.InOrder.{in_order};
ghost use Rattle.hm_run.specs.Program.{vector_of};
ghost use Rattle.hm_run_laws.specs.Runs.{run, shown_out, tick};
ghost use Rattle.hm_sched.specs.Schedule.{TickLine, most_ticks, older_letter, ticks_of};
ghost use Rattle.hm_state.specs.Start.{reset_pc};

use crate::lines::{Lines, letters};
use hm_base::{Image, OutOfMemory, SRAM_START};
use hm_isa::Instr;
use hm_machine::{LoadErr, Machine};
use hm_plan_laws::{Greedy, open_runs, plan_in_order};
use hm_sched::Schedule;
use std::alloc::Global;

/// Whether a vector instruction stands at the program counter.
fn has_row(machine: &Machine) -> bool
    ensures value { (listing : Listing) → IsListing (flash_at machine.now.memory) listing
        → result ≡ is_some (vector_of (listing (run_of machine.now []).machine.config.state.pc)) }
{
    match machine.instr(machine.regs().pc) {
        Some(i) => matches!(i, Instr::Vector(_)),
        None => false,
    }
}

/// What the next tick of a plan of n instructions does.
fn greedy(machine: &mut Machine, n: u32) -> Greedy
    requires bare { IsBare machine.old }
    requires goes { is_over n (run_of machine.old []) ≡ false }
    ensures value { (listing : Listing) → IsListing (flash_at machine.old.memory) listing
        → result ≡ greedy_at (bare_program listing) n (run_of machine.old []).machine.config }
    ensures same { machine.new ≡ machine.old }
{
    if !has_row(machine) {
        return Greedy::Whole;
    }
    if !machine.ready() {
        return Greedy::One;
    }
    if machine.retired() + 1 < n as u64 {
        Greedy::Two
    } else {
        Greedy::One
    }
}

/// Does the next tick of a plan of n instructions, and tells what it did.
fn go_on(machine: &mut Machine, n: u32) -> Greedy
    requires bare { IsBare machine.old }
    requires goes { is_over n (run_of machine.old []) ≡ false }
    requires ticks { machine.old.ticks < most_ticks - 1 }
    ensures value { (listing : Listing) → IsListing (flash_at machine.old.memory) listing
        → result ≡ greedy_at (bare_program listing) n (run_of machine.old []).machine.config }
    ensures next { (listing : Listing) → IsListing (flash_at machine.old.memory) listing → run_of machine.new [] ≡ grown listing n (run_of machine.old []) }
    ensures flash { flash_at machine.new.memory ≡ flash_at machine.old.memory }
    ensures bare { IsBare machine.new }
{
    let kind = greedy(machine, n);
    machine.extend(letters(kind));
    kind
}

/// Whether a plan of n instructions is at its end.
fn is_over(machine: &Machine, n: u32) -> bool
    ensures value { result ≡ is_over n (run_of machine.now []) }
{
    machine.outcome().is_some() || machine.retired() >= n as u64
}

/// The plan of n instructions of an image: a schedule without entries whose every tick overlaps two instructions where it may. It is refused as by
/// `Machine::bare`. Its time grows with n alone.
pub fn plan(alloc: Global, image: &Image, n: u32) -> Result<Schedule, LoadErr>
    requires few { n ≤ 262144 }
    ensures planned { IfOk result (λ s. (listing : Listing) → IsListing (flash_byte image.now) listing → s ≡ planned listing image.now n) }
    // Its run ends as the n instructions in order do, exactly, within 4n ticks, and no rule is broken.
    ensures ends { IfOk result (λ s. (listing : Listing) → IsListing (flash_byte image.now) listing
        → EndsAs n (shown_out listing image.now s) (in_order listing image.now n)) }
    ensures exactly { IfOk result (λ s. (listing : Listing) → IsListing (flash_byte image.now) listing
        → DecidedBy n (shown_out listing image.now s) (in_order listing image.now n)) }
    ensures only { IfOk result (λ s. (listing : Listing) → IsListing (flash_byte image.now) listing → IsPlanEnd (shown_out listing image.now s).outcome) }
    ensures few { IfOk result (λ s. length (ticks_of s.lines) ≤ 4 * n) }
    // Each tick does what is greedy in the state before it.
    ensures greedy { IfOk result (λ s. (listing : Listing) → IsListing (flash_byte image.now) listing → (t : ℕ) (line : TickLine) (left : List TickLine)
        → drop t (ticks_of s.lines) ≡ line ∷ left → IsGreedyAt listing image.now n s t line) }
    // Where a tick does a beat of the older alone though a tick of that and of the younger's would go on, the older is the last that is asked for.
    ensures dense { IfOk result (λ s. (listing : Listing) → IsListing (flash_byte image.now) listing → (t : ℕ) (line : TickLine) (left : List TickLine)
        → drop t (ticks_of s.lines) ≡ line ∷ left → line.letters ≡ older_letter ∷ [] → let x = run listing image.now s t in
        (tick listing (bare []) (plan_line 1 Greedy.Two) x).outcome ≡ None → n ≤ x.machine.config.n + 1) }
    ensures odd { IfOk result (λ _. reset_pc image.now % 2 ≡ 1) }
    ensures refused { IfErr result (λ e. LoadRefuses image.now e) }
{
    plan_in_order();
    open_runs();
    build(alloc, image, n)
}

/// Makes the plan, tick by tick; `plan` says besides how its run ends.
fn build(alloc: Global, image: &Image, n: u32) -> Result<Schedule, LoadErr>
    requires few { n ≤ 262144 }
    ensures planned { IfOk result (λ s. (listing : Listing) → IsListing (flash_byte image.now) listing → s ≡ planned listing image.now n) }
    ensures odd { IfOk result (λ _. reset_pc image.now % 2 ≡ 1) }
    ensures refused { IfErr result (λ e. LoadRefuses image.now e) }
{
    let mut machine = Machine::bare(alloc, image)?;
    let schedule = Schedule::begin(alloc, false, SRAM_START, SRAM_START, SRAM_START);
    if is_over(&machine, n) {
        return Ok(schedule);
    }
    let kind = go_on(&mut machine, n);
    let mut lines = Lines {
        schedule,
        kind,
        count: 1,
    };
    fill(&mut lines, &mut machine, n)?;
    lines.write()?;
    Ok(lines.schedule)
}

/// Adds a tick to the lines of a plan of n instructions for each that the machine goes on, up to the plan's end.
fn fill(lines: &mut Lines, machine: &mut Machine, n: u32) -> Result<(), OutOfMemory>
    requires few { n ≤ 262144 }
    requires follow { (image : List Segment) × Follow image n lines.old machine.old }
    ensures follow { OnOk result ((image : List Segment) → Follow image n lines.old machine.old → Follow image n lines.new machine.new) }
    ensures over { OnOk result (is_over n (run_of machine.new []) ≡ true) }
{
    while !is_over(machine, n) {
        let kind = go_on(machine, n);
        lines.push(kind)?;
    }
    Ok(())
}
