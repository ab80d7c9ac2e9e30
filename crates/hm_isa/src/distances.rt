//! How far branches go, in bytes from the address of the instruction plus 4, modulo 2^32.

ghost use Rattle.std.specs.Prelude.{◌≡◌};
ghost use Rattle.hm_isa.specs.Distances.{always_distance, conditional_distance, wide_always_distance, wide_conditional_distance};

use crate::jumps::{WideAlways, WideConditional};
use crate::narrow::{Always, Conditional};
use crate::words::sign_extended;

impl Conditional {
    /// S25: how far a branch of one halfword under a condition goes, which is `i:0` with its sign: DDI0553, "B", encoding T1.
    pub fn distance(&self) -> u32
        ensures value { result ≡ conditional_distance self.now }
    {
        sign_extended(9, 2 * self.i.get())
    }
}

impl Always {
    /// S25: how far a branch of one halfword under no condition goes, which is `i:0` with its sign: DDI0553, "B", encoding T2.
    pub fn distance(&self) -> u32
        ensures value { result ≡ always_distance self.now }
    {
        sign_extended(12, 2 * self.i.get())
    }
}

impl WideConditional {
    /// T16: how far a branch of two halfwords under a condition goes, which is `s:j2:j1:i6:i11:0` with its sign: DDI0553, "B", encoding T3.
    pub fn distance(&self) -> u32
        ensures value { result ≡ wide_conditional_distance self.now }
    {
        let high = self.s.get() * 0x10_0000 + self.j2.get() * 0x8_0000 + self.j1.get() * 0x4_0000;
        sign_extended(21, high + self.i6.get() * 0x1000 + self.i11.get() * 2)
    }
}

impl WideAlways {
    /// T16: how far a branch of two halfwords under no condition goes, which is `s:I1:I2:i10:i11:0` with its sign: DDI0553, "B", encoding T4,
    /// and "BL", encoding T1.
    pub fn distance(&self) -> u32
        ensures value { result ≡ wide_always_distance self.now }
    {
        let high = self.s.get() * 0x100_0000
            + u32::from(self.j1.get() == self.s.get()) * 0x80_0000
            + u32::from(self.j2.get() == self.s.get()) * 0x40_0000;
        sign_extended(25, high + self.i10.get() * 0x1000 + self.i11.get() * 2)
    }
}
