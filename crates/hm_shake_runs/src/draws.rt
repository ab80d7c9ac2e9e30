//! What the draws of a run begin with, and what they say.

ghost use Rattle.std.specs.Prelude.{◌≡◌, ◌<◌};
ghost use Rattle.hm_shake_runs.specs.Draws.{first, part};

use hm_base::draw;

/// What is drawn from in a run, by its number and the seed.
pub fn first(seed: u32, run: u32) -> u32
    ensures value { result ≡ first seed run }
{
    draw(draw(seed).wrapping_add(run.wrapping_mul(2_654_435_769)))
}

/// A number below `n`, by a draw: the high bits of it count most.
pub fn part(x: u32, n: u32) -> u32
    requires some { 0 < n }
    ensures value { result ≡ part x n }
    ensures below { result < n }
{
    (u64::from(x) * u64::from(n) / 0x1_0000_0000) as u32
}
