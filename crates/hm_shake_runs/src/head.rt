//! What a schedule says beside its ticks.

ghost use Rattle.std.specs.Prelude.{◌≡◌, ◌+◌, ◌≤◌};
ghost use Rattle.hm_base.specs.Image.{sram_size, sram_start};

use hm_sched::Schedule;
use std::alloc::Global;

/// What a schedule says beside its ticks: its format, whether exceptions are entered, the region in which handlers may store, and the floors of the
/// main and of the process stack.
#[derive(Clone, Copy)]
pub struct Head {
    pub format: u32,
    pub entries: bool,
    pub lo: u32,
    pub hi: u32,
    pub floor: u32,
    pub process: u32,
    pub ghost format_start: { 1 ≤ format },
    pub ghost format_end: { format ≤ 2 },
    pub ghost region_start: { sram_start ≤ lo },
    pub ghost region_order: { lo ≤ hi },
    pub ghost region_end: { hi ≤ sram_start + sram_size },
    pub ghost floor_start: { sram_start ≤ floor },
    pub ghost floor_end: { floor ≤ sram_start + sram_size },
    pub ghost process_start: { sram_start ≤ process },
    pub ghost process_end: { process ≤ sram_start + sram_size },
    pub ghost one_floor: { format ≡ 1 → process ≡ floor },
}

impl Head {
    ghost use Rattle.std.specs.Prelude.{[]};
    ghost use Rattle.hm_shake_runs.specs.Heads.{bare};

    /// What a schedule says beside its ticks.
    pub fn of(s: &Schedule) -> Head
        ensures value { bare result ≡ record s.now { lines = [] } }
    {
        let (lo, hi) = s.region();
        Head {
            format: s.format(),
            entries: s.entries(),
            lo,
            hi,
            floor: s.floor(),
            process: s.process(),
        }
    }

    /// A schedule that says this and has no ticks yet, which takes no memory.
    pub fn begin(&self, alloc: Global) -> Schedule
        ensures made { result ≡ bare self.now }
    {
        if self.format == 1 {
            Schedule::begin(alloc, self.entries, self.lo, self.hi, self.floor)
        } else {
            Schedule::begin2(
                alloc,
                self.entries,
                self.lo,
                self.hi,
                self.floor,
                self.process,
            )
        }
    }
}
