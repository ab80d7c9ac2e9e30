//! Numbers that are drawn, each from the one before.

ghost use Rattle.std.specs.Prelude.{◌≡◌};
ghost use Rattle.hm_base.specs.Draws.{draw};

/// The draw behind x, a number of 32 bits: 1664525 * x + 1013904223 modulo 2^32.
pub fn draw(x: u32) -> u32
    ensures value { result ≡ draw x }
{
    x.wrapping_mul(1_664_525).wrapping_add(1_013_904_223)
}
