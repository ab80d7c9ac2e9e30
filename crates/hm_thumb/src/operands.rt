//! Registers as operands and as bases of addresses.

ghost use Rattle.std.specs.Prelude.{◌≡◌, ℕ, ◌<◌};
ghost use Rattle.hm_thumb.specs.RegisterRows.{base_of, operand};

use hm_base::Place;
use hm_regs::Regs;

/// A register as an operand: pc is the address behind the next instruction of 16 bits.
pub fn operand(n: u32, regs: &Regs) -> u32
    requires { n < 16 }
    ensures value { result ≡ operand n regs.now }
{
    if n == 15 {
        regs.pc.wrapping_add(4)
    } else {
        regs.get(Place::R(n as u8))
    }
}

/// A register as a base: pc is rounded down to a word.
pub fn base_of(n: u32, regs: &Regs) -> u32
    requires { n < 16 }
    ensures value { result ≡ base_of n regs.now }
{
    let x = operand(n, regs);
    if n == 15 { x - x % 4 } else { x }
}
