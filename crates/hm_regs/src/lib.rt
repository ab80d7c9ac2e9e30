//! The registers of the processor, read and written by place.
#![tactic(auto)]

ghost use Rattle.std.specs.Prelude.{ℕ, ◌≡◌, ◌≢◌, ◌+◌, ◌-◌, ◌^◌, ◌<◌, ◌≤◌, slice_index};
ghost use Rattle.hm_base.specs.declared.Place.{Place};
ghost use Rattle.hm_base.specs.Bits.{put_field};
ghost use Rattle.hm_base.specs.Place.{IsPlace, fit, range_of};
ghost use Rattle.hm_regs.specs.Place.{Counted, InRange, SameElsewhere, value_at, with_value};
ghost use Rattle.hm_regs.specs.Stacks.{main_of, process_of, uses_process};
ghost use Rattle.hm_regs.specs.Start.{start_regs};

use hm_base::{Place, bits};

/// The registers of the processor (DDI0553, "Registers", and the register descriptions that are named below).
#[derive(Clone, Copy, PartialEq, Eq)]
pub struct Regs {
    /// r0 to r12.
    pub r: [u32; 13],
    /// The stack pointer in use. Its bits 1:0 are always 0.
    pub sp: u32,
    /// The stack pointer that is not in use. Its bits 1:0 are always 0.
    pub other: u32,
    /// The link register, r14.
    pub lr: u32,
    /// The address of the instruction that is next. Bit 0 is always 0.
    pub pc: u32,
    /// APSR.N, negative.
    pub n: bool,
    /// APSR.Z, zero.
    pub z: bool,
    /// APSR.C, carry.
    pub c: bool,
    /// APSR.V, overflow.
    pub v: bool,
    /// APSR.Q, saturation.
    pub q: bool,
    /// EPSR.IT, the state of an IT block; 0 outside of one.
    pub it: u8,
    /// FPSCR: N, Z, C and V in bits 31:28, QC in bit 27, LTPSIZE in bits 18:16.
    pub fpscr: u32,
    /// VPR: P0 in bits 15:0, MASK01 in bits 19:16, MASK23 in bits 23:20.
    pub vpr: u32,
    /// The vector registers: word k of Qn is `qw[4 * n + k]`, which is also S(4n+k).
    pub qw: [u32; 32],
    /// CONTROL.FPCA: there is a context of the vector registers.
    pub fpca: bool,
    /// PRIMASK: no exception of a configurable priority may enter.
    pub primask: bool,
    /// CONTROL.SPSEL: thread mode uses the process stack.
    pub spsel: bool,
    /// BASEPRI, in bits 7:5: only exceptions more urgent than it may enter; 0 is none.
    pub basepri: u8,
    /// IPSR, the number of the exception that is handled; 0 in thread mode.
    pub ipsr: u16,
}

/// `w` with the low bits of `x` as its bits `hi` to `lo`, where `lo` is at most `hi`, and `hi` at most 31.
pub fn put_bits(w: u32, hi: u32, lo: u32, x: u32) -> u32
    requires order { lo ≤ hi }
    requires top { hi ≤ 31 }
    ensures { result ≡ put_field lo (hi + 1 - lo) x w }
{
    let high = (w as u64 >> (hi + 1)) << (hi + 1);
    let middle = (bits(x, hi - lo, 0) as u64) << lo;
    let low = w as u64 % (1 << lo);
    (high + middle + low) as u32
}

/// Each number of a list of words is a word.
fn words_fit(words: &[u32])
    ensures { (k : ℕ) → slice_index words.now k < 2 ^ 32 }
{}

impl Regs {
    /// The registers after a reset, with this stack pointer and this address of the first instruction:
    /// LR is ffffffff, FPSCR is 00040000 (LTPSIZE is 4), and all else is 0. Bits 1:0 of `sp` and bit 0 of
    /// `pc` are to be 0 (DDI0553, "Reset").
    pub fn start(sp: u32, pc: u32) -> Regs
        ensures { result ≡ start_regs sp pc }
    {
        Regs {
            r: [0; 13],
            sp,
            other: 0,
            lr: 0xffff_ffff,
            pc,
            n: false,
            z: false,
            c: false,
            v: false,
            q: false,
            it: 0,
            fpscr: 0x0004_0000,
            vpr: 0,
            qw: [0; 32],
            fpca: false,
            primask: false,
            spsel: false,
            basepri: 0,
            ipsr: 0,
        }
    }

    /// Whether the stack in use is the process stack: in thread mode, where it was chosen (DDI0553, "CONTROL").
    pub fn uses_process(&self) -> bool
        ensures value { result ≡ uses_process self.now }
    {
        self.ipsr == 0 && self.spsel
    }

    /// The main stack pointer, in use or not.
    pub fn main_pointer(&self) -> u32
        ensures value { result ≡ main_of self.now }
    {
        if self.uses_process() {
            self.other
        } else {
            self.sp
        }
    }

    /// The process stack pointer, in use or not.
    pub fn process_pointer(&self) -> u32
        ensures value { result ≡ process_of self.now }
    {
        if self.uses_process() {
            self.sp
        } else {
            self.other
        }
    }

    /// A law: every number is in the range of its type.
    pub fn in_range(&self)
        ensures range { InRange self.now }
        ensures counted { Counted self.now }
    {
        let _sp = self.sp;
        let _other = self.other;
        let _lr = self.lr;
        let _pc = self.pc;
        let _fpscr = self.fpscr;
        let _vpr = self.vpr;
        self.short_numbers_fit();
        words_fit(&self.r);
        words_fit(&self.qw);
    }

    /// The numbers of fewer than 32 bits.
    fn short_numbers_fit(&self)
        ensures it { self.now.it < 2 ^ 8 }
        ensures basepri { self.now.basepri < 2 ^ 8 }
        ensures ipsr { self.now.ipsr < 2 ^ 16 }
    {
        let _it = self.it;
        let _basepri = self.basepri;
        let _ipsr = self.ipsr;
    }

    /// What stands in a place: a word of a register, four bits of P0, of a mask or of the flags of FPSCR,
    /// the three bits of LTPSIZE, or the bit QC.
    pub fn get(&self, p: Place) -> u32
        requires { IsPlace p }
        ensures value { result ≡ value_at p self.now }
        ensures below { result < range_of p }
    {
        match p {
            Place::R(13) => self.sp,
            Place::R(14) => self.lr,
            Place::R(n) => self.r[n as usize],
            Place::QWord(k) => self.qw[k as usize],
            Place::P0(b) => bits(self.vpr, 4 * b as u32 + 3, 4 * b as u32),
            Place::Mask01 => bits(self.vpr, 19, 16),
            Place::Mask23 => bits(self.vpr, 23, 20),
            Place::Carry => bits(self.fpscr, 31, 28),
            Place::Ltp => bits(self.fpscr, 18, 16),
            Place::Sticky => bits(self.fpscr, 27, 27),
        }
    }

    /// Puts the bits of `x` that fit into a place: the low ones, and for SP all but the bits 1:0. All else stays.
    pub fn set(&mut self, p: Place, x: u32)
        requires { IsPlace p }
        ensures value { self.new ≡ with_value p x self.old }
        ensures held { value_at p self.new ≡ fit p x }
        ensures others { (q : Place) → q ≢ p → IsPlace q → value_at q self.new ≡ value_at q self.old }
        ensures elsewhere { SameElsewhere self.new self.old }
        ensures counted { Counted self.old }
    {
        self.put(p, x);
    }

    /// The same, said by the fields.
    fn put(&mut self, p: Place, x: u32)
        requires { IsPlace p }
        ensures value { self.new ≡ with_value p x self.old }
        ensures counted { Counted self.old }
    {
        match p {
            Place::R(13) => self.sp = x - x % 4,
            Place::R(14) => self.lr = x,
            Place::R(n) => self.r[n as usize] = x,
            Place::QWord(k) => self.qw[k as usize] = x,
            Place::P0(b) => self.vpr = put_bits(self.vpr, 4 * b as u32 + 3, 4 * b as u32, x),
            Place::Mask01 => self.vpr = put_bits(self.vpr, 19, 16, x),
            Place::Mask23 => self.vpr = put_bits(self.vpr, 23, 20, x),
            Place::Carry => self.fpscr = put_bits(self.fpscr, 31, 28, x),
            Place::Ltp => self.fpscr = put_bits(self.fpscr, 18, 16, x),
            Place::Sticky => self.fpscr = put_bits(self.fpscr, 27, 27, x),
        }
    }
}
