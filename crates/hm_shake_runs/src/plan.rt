//! From what the schedules of a shake are made.

ghost use Rattle.std.specs.Prelude.{◌≤◌};
ghost use Rattle.hm_sched.specs.Schedule.{most_ticks};

/// From what runs are made: a seed, how many runs there are, and how many ticks the plain run begins.
#[derive(Clone, Copy)]
pub struct Plan {
    pub seed: u32,
    pub runs: u32,
    pub ticks: u32,
    pub ghost some: { 1 ≤ runs },
    pub ghost few: { runs ≤ 1000000 },
    pub ghost begun: { ticks ≤ most_ticks },
}
