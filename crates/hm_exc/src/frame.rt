//! The frame of an entry.

ghost use Rattle.std.specs.Prelude.{ℕ, ◌≡◌, ◌+◌, ◌-◌, ◌*◌, ◌/◌, ◌%◌, ◌^◌, ◌<◌, ◌≤◌, ◌==◌, false, IsTrue, length, slice_index, if◌then◌else◌};
ghost use Rattle.hm_exc.specs.Entry.{CanEnter, FitsEntry, activation, main_after, process_after, return_value, window_in};
ghost use Rattle.hm_exc.specs.Frame.{flags, frame_base, frame_bytes, frame_size, frame_words, is_between, progress, psr_window, xpsr};
ghost use Rattle.hm_mem.specs.Seen.{lies_in_sram};
ghost use Rattle.hm_window.specs.Positions.{may_end};

use crate::types::Activation;
use hm_base::bits;
use hm_regs::Regs;
use hm_window::{Window, eci, window};

/// The flags N, Z, C, V and Q as a number of five bits.
fn flags(r: &Regs) -> u32
    ensures value { result ≡ flags r.now }
    ensures below { result < 32 }
{
    16 * u32::from(r.n)
        + 8 * u32::from(r.z)
        + 4 * u32::from(r.c)
        + 2 * u32::from(r.v)
        + u32::from(r.q)
}

/// Whether no beat is done.
pub fn is_between(w: Window) -> bool
    ensures value { result ≡ is_between w }
{
    w.a == 0 && w.b == 0
}

/// Bits 26:25 and 15:10 of xPSR: IT between two instructions, and ECI inside them.
fn progress(it: u8, w: Window) -> u32
    requires position { IsTrue (may_end w.a w.b) }
    ensures value { result ≡ progress it w }
    ensures below { result < 2 ^ 27 }
{
    if is_between(w) {
        it as u32 % 4 * 0x0200_0000 + it as u32 / 4 * 0x400
    } else {
        eci(w) as u32 * 0x1000
    }
}

/// xPSR as it is stacked (DDI0553, "Combined Program Status Registers" and "Exception entry, context stacking").
#[tactic(auto, unfolding(crate::specs::Frame::xpsr))]
fn xpsr(r: &Regs, w: Window) -> u32
    requires state { CanEnter r.now w }
    ensures value { result ≡ xpsr r.now w }
{
    let flags = flags(r);
    let progress = progress(r.it, w);
    let aligned = r.sp / 4 % 2;
    flags * 0x0800_0000 + progress + 0x0100_0000 + aligned * 0x200 + r.ipsr as u32
}

/// Word `k` of the frame, by rising address; from 8 on there is one only where there is a context.
fn frame_word(r: &Regs, w: Window, k: usize) -> u32
    requires state { CanEnter r.now w }
    requires word { 4 * k < frame_size r.now.fpca }
    ensures value { result ≡ slice_index (frame_words r.now w) k }
{
    r.in_range();
    match k {
        0..=3 => r.r[k],
        4 => r.r[12],
        5 => r.lr,
        6 => r.pc,
        7 => xpsr(r, w),
        8..=23 => r.qw[k - 8],
        24 => r.fpscr,
        _ => r.vpr,
    }
}

/// How many bytes a frame has, with a context and without.
pub fn frame_size(long: bool) -> u32
    ensures value { result ≡ frame_size long }
    ensures most { result ≤ 104 }
{
    if long { 104 } else { 32 }
}

/// Byte `k` of the frame.
fn frame_byte(r: &Regs, w: Window, k: usize) -> u8
    requires state { CanEnter r.now w }
    requires byte { k < frame_size r.now.fpca }
    ensures value { result ≡ slice_index (frame_bytes r.now w) k }
{
    r.in_range();
    let word = frame_word(r, w, k / 4);
    ((word >> (8 * (k % 4))) % 256) as u8
}

/// The bytes of the frame, and 0 past its end.
fn frame_bytes(r: &Regs, w: Window) -> [u8; 104]
    requires state { CanEnter r.now w }
    ensures value { result ≡ (activation r.now w 0).bytes }
{
    r.in_range();
    let mut bytes = [0; 104];
    for k in 0..frame_size(r.fpca) as usize {
        bytes[k] = frame_byte(r, w, k);
    }
    bytes
}

/// The address of the frame's first byte.
fn frame_base(r: &Regs) -> u32
    ensures value { result ≡ frame_base r.now }
{
    let top = r.sp.wrapping_sub(frame_size(r.fpca));
    top - top / 4 % 2 * 4
}

/// EXC_RETURN (DDI0553, "EXC_RETURN").
fn return_value(r: &Regs) -> u32
    ensures value { result ≡ return_value r.now }
{
    if r.ipsr != 0 {
        if r.fpca { 0xffff_ffa0 } else { 0xffff_ffb0 }
    } else if r.spsel {
        if r.fpca { 0xffff_ffac } else { 0xffff_ffbc }
    } else {
        if r.fpca { 0xffff_ffa8 } else { 0xffff_ffb8 }
    }
}

/// The main stack pointer just after the entry of an activation.
pub fn main_after(x: &Activation) -> u32
    ensures value { result ≡ main_after x.now }
{
    if x.regs.uses_process() {
        x.regs.other
    } else {
        x.frame
    }
}

/// The process stack pointer just after the entry of an activation.
pub fn process_after(x: &Activation) -> u32
    ensures value { result ≡ process_after x.now }
{
    if x.regs.uses_process() {
        x.frame
    } else {
        x.regs.other
    }
}

/// What the entry of exception `e` puts away.
pub fn activation(r: &Regs, w: Window, e: u16) -> Activation
    requires state { CanEnter r.now w }
    ensures value { result ≡ activation r.now w e }
    ensures position { window_in (activation r.now w e) ≡ w }
    ensures fits { IsTrue (lies_in_sram (frame_size r.now.fpca) (frame_base r.now)) → FitsEntry (activation r.now w e) }
{
    r.in_range();
    let _it = r.it;
    let _pc = r.pc;
    Activation {
        regs: *r,
        frame: frame_base(r),
        long: r.fpca,
        bytes: frame_bytes(r, w),
        number: e,
        value: return_value(r),
    }
}

/// The position in a stacked xPSR: the one of its ECI (DDI0553, "EPSR, Execution Program Status Register"), where bits 26:25 and 11:10 are 0;
/// between two instructions where these are not, and where ECI names none.
pub fn psr_window(psr: u32) -> Window
    ensures value { result ≡ psr_window psr }
{
    if bits(psr, 26, 25) == 0 && bits(psr, 11, 10) == 0 {
        match window(bits(psr, 15, 12) as u8) {
            Some(at) => at,
            None => Window { a: 0, b: 0 },
        }
    } else {
        Window { a: 0, b: 0 }
    }
}

/// The IT byte in a stacked xPSR, at the position there.
pub fn psr_block(psr: u32, at: Window) -> u8
    ensures value { result ≡ (if is_between at then psr / 2 ^ 25 % 4 + 4 * (psr / 2 ^ 10 % 64) else 0) }
{
    if is_between(at) {
        ((psr >> 25) % 4 + 4 * ((psr >> 10) % 64)) as u8
    } else {
        0
    }
}

/// Bit `n` of a word.
pub fn is_set(w: u32, n: u32) -> bool
    requires { n < 32 }
    ensures value { result ≡ (w / 2 ^ n % 2 == 1) }
{
    (w >> n) % 2 == 1
}
