//! A machine that runs one image again and again.

ghost use Rattle.std.specs.Prelude.{◌≡◌, ◌≤◌, ◌%◌, IfOk, IfErr, List, map};
ghost use Rattle.std.specs.List.{All};
ghost use Rattle.hm_base.specs.Image.{Segment, flash_byte};
ghost use Rattle.hm_codes.specs.Listing.{IsListing, Listing};
ghost use Rattle.hm_run_laws.specs.Runs.{shown_out};
ghost use Rattle.hm_machine.specs.Calls.{LoadRefuses};
ghost use Rattle.hm_run.specs.Report.{report_text};
ghost use Rattle.hm_sched.specs.Schedule.{Sched, most_irq, most_ticks, total};
ghost use Rattle.hm_shake.specs.Ends.{ended_plain, ended_under, plain_end};
ghost use Rattle.hm_shake.specs.Repeats.{Repeats, StandsOver};
ghost use Rattle.hm_shake_runs.specs.Heads.{bare};
ghost use Rattle.hm_shake_runs.specs.Stretches.{IsStretch, stretch_line, with_stretches};
ghost use Rattle.hm_state.specs.Start.{reset_pc};

use crate::ended::end_of;
use hm_base::{Image, OutOfMemory};
use hm_machine::{LoadErr, Machine, Start};
use hm_sched::MOST_TICKS;
use hm_shake_runs::{Ended, Head, Stretch, schedule_of, whole_ticks};
use std::alloc::Global;

/// A machine that runs an image again and again, each time from its start, under schedules with one head, or by whole instructions.
#[derive(Drop)]
pub struct Repeater {
    pub machine: Machine,
    pub start: Start,
}

impl Repeater {
    /// A machine for runs of an image under schedules with this head, which is loaded once. It is refused as by `Machine::load`.
    pub fn of(alloc: Global, image: &Image, head: Head) -> Result<Repeater, LoadErr>
        ensures repeats { IfOk result (λ x. Repeats image.now head x) }
        ensures odd { IfOk result (λ _. reset_pc image.now % 2 ≡ 1) }
        ensures refused { IfErr result (λ e. LoadRefuses image.now e) }
    {
        let machine = Machine::load(alloc, image, head.begin(alloc))?;
        let start = machine.start(alloc)?;
        Ok(Repeater { machine, start })
    }

    /// Runs the image under these stretches, and tells how it ended.
    pub fn run(
        &mut self,
        alloc: Global,
        head: Head,
        stretches: &[Stretch],
    ) -> Result<Ended, OutOfMemory>
        requires repeats { (image : List Segment) × Repeats image head self.old }
        requires sound { All (IsStretch (most_irq head.format)) stretches.now }
        requires room { total (map stretch_line stretches.now) ≤ most_ticks }
        ensures ended { (image : List Segment) (listing : Listing) → IsListing (flash_byte image) listing → Repeats image head self.old
            → IfOk result (λ e. e ≡ ended_under listing image (with_stretches stretches.now (bare head))) }
        ensures over { (image : List Segment) → Repeats image head self.old
            → IfOk result (λ _. StandsOver image (with_stretches stretches.now (bare head)) self.new) }
        ensures again { (image : List Segment) → Repeats image head self.old → Repeats image head self.new }
    {
        let schedule = schedule_of(alloc, &head, stretches)?;
        self.machine.again(&self.start, schedule);
        Ok(end_of(&mut self.machine))
    }

    /// Runs the image by so many whole instructions, and tells how it ended.
    fn plain_of(&mut self, alloc: Global, head: Head, ticks: u32) -> Result<Ended, OutOfMemory>
        requires repeats { (image : List Segment) × Repeats image head self.old }
        requires few { ticks ≤ most_ticks }
        ensures ended { (image : List Segment) (listing : Listing) → IsListing (flash_byte image) listing → Repeats image head self.old
            → IfOk result (λ e. e ≡ ended_plain listing image ticks) }
        ensures most { IfOk result (λ e. e.ticks ≤ most_ticks) }
        ensures again { (image : List Segment) → Repeats image head self.old → Repeats image head self.new }
    {
        let schedule = whole_ticks(alloc, &head, ticks)?;
        self.machine.again(&self.start, schedule);
        Ok(end_of(&mut self.machine))
    }

    /// Does the plain run, of one whole instruction a tick, without interrupts and entries, up to the limit of ticks, and tells how it ended.
    pub fn plain(&mut self, alloc: Global, head: Head) -> Result<Ended, OutOfMemory>
        requires repeats { (image : List Segment) × Repeats image head self.old }
        ensures ended { (image : List Segment) (listing : Listing) → IsListing (flash_byte image) listing → Repeats image head self.old
            → IfOk result (λ e. e ≡ plain_end listing image) }
        ensures most { IfOk result (λ e. e.ticks ≤ most_ticks) }
        ensures again { (image : List Segment) → Repeats image head self.old → Repeats image head self.new }
    {
        self.plain_of(alloc, head, MOST_TICKS)
    }

    /// The report of the run that it did last.
    pub fn report(&self, alloc: Global) -> Result<Vec<u8>, OutOfMemory>
        ensures report { (image : List Segment) (s : Sched) (listing : Listing) → IsListing (flash_byte image) listing → StandsOver image s self.now
            → IfOk result (λ out. out.items ≡ report_text (shown_out listing image s)) }
    {
        self.machine.report(alloc)
    }
}
