//! The run as a tape: each of its ticks can be shown, in any order.

ghost use Rattle.std.specs.Prelude.{◌≡◌, ℕ, ◌+◌, ◌*◌, ◌/◌, ◌%◌, ◌<◌, ◌≤◌, List, length, slice_get, Some, IfOk, IfErr, OnOk};
ghost use Rattle.std.specs.Borrow.{sem};
ghost use Rattle.hm_base.specs.Image.{Segment};
ghost use Rattle.hm_machine.specs.Shown.{Shown, Shows};
ghost use Rattle.hm_machine.specs.Taped.{Tapes};
ghost use Rattle.hm_machine.specs.Calls.{LoadRefuses};
ghost use Rattle.hm_sched.specs.Schedule.{Sched, ticks_of, most_ticks};
ghost use Rattle.hm_state.specs.Start.{reset_pc};

use crate::checkpoint::Checkpoint;
use crate::load::LoadErr;
use crate::machine::Machine;
use crate::reel::{CHECKPOINTS, bring, filled};
use hm_base::Image;
use hm_sched::Schedule;
use std::alloc::Global;
use std::marker::Model;

/// A tick that no run of the tape reaches: the run begins so many.
#[derive(Clone, Copy)]
pub struct Past {
    pub last: u32,
}

/// A run that was run once, with a machine that can be put to each of its ticks. It keeps at most 64 checkpoints, from which it runs on.
#[derive(Drop)]
pub struct Tape {
    machine: Machine,
    /// At the ticks 0, `apart`, 2 * `apart` and so on.
    kept: Vec<Checkpoint>,
    /// What the whole run writes.
    output: Vec<u8>,
    apart: u32,
    /// The tick at which the machine is.
    place: u32,
    /// The ticks that the run begins.
    last: u32,
}

impl Model for Tape {
    ghost use Rattle.hm_machine.specs.Taped.{Taped};

    ghost Value = { Taped };

    ghost use Rattle.hm_machine.specs.Tapes.{tape_view, IsTape};

    ghost view = { tape_view };

    ghost invariant = { IsTape };
}

impl Tape {
    ghost use Rattle.hm_machine.specs.TapeLending.{TapeStays};

    /// Runs this image under this schedule once. It takes all the memory that the tape needs. It is refused as by `Machine::load`.
    pub fn new(alloc: Global, image: &Image, s: Schedule) -> Result<Tape, LoadErr>
        ensures tapes { IfOk result (λ w. Tapes image.now s w) }
        ensures odd { IfOk result (λ w. reset_pc image.now % 2 ≡ 1) }
        ensures refused { IfErr result (λ e. LoadRefuses image.now e) }
        // Checkpoints lie at tick 0 and each so many ticks as far as the run goes, and there are 64 at most.
        ensures apart { IfOk result (λ w. w.apart ≡ length (ticks_of s.lines) / 64 + 1) }
        ensures lie { IfOk result (λ w. (k : ℕ) (m : Shown) → slice_get w.checkpoints k ≡ Some m → Shows image.now s (k * w.apart) m) }
        ensures reached { IfOk result (λ w. length w.checkpoints ≡ w.last / w.apart + 1) }
        ensures few { IfOk result (λ w. length w.checkpoints ≤ 64) }
    {
        let mut machine = Machine::load(alloc, image, s)?;
        let apart = machine.scheduled() / CHECKPOINTS + 1;
        let kept = filled(alloc, apart, &mut machine)?;
        let _outcome = machine.run();
        let output = machine.copied_output(alloc)?;
        let last = machine.ticks();
        let place = machine.scheduled();
        Ok(Tape {
            machine,
            kept,
            output,
            apart,
            place,
            last,
        })
    }

    /// The machine as it stood at the end of a tick, whatever was asked before; Past exactly where the run begins fewer ticks. It takes no memory.
    pub fn at(&mut self, tick: u32) -> Result<&Machine, Past>
        ensures* stays { sem 𝓛 (TapeStays self.entry) }
        ensures shows { IfOk result (λ m. (image : List Segment) (s : Sched) → Tapes image s self.old → Shows image s tick m.now) }
        ensures begun { OnOk result (tick ≤ self.old.last) }
        ensures past { IfErr result (λ e. (e.last ≡ self.old.last) × (self.old.last < tick)) }
    {
        if tick > self.last {
            return Err(Past { last: self.last });
        }
        bring(
            &self.kept,
            &self.output,
            self.apart,
            self.place,
            tick,
            &mut self.machine,
        );
        self.place = tick;
        Ok(&self.machine)
    }

    /// The number of ticks that the run begins, at most 16,777,216.
    pub fn last(&self) -> u32
        ensures value { result ≡ self.now.last }
        ensures most { result ≤ most_ticks }
    {
        self.last
    }

    /// The number of ticks of its schedule.
    pub fn scheduled(&self) -> u32
        ensures value { result ≡ length (ticks_of self.now.start.schedule.lines) }
        ensures most { result ≤ most_ticks }
    {
        self.machine.scheduled()
    }
}
