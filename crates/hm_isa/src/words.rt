//! Words as instructions make them: shifts, signs, and constants of several fields.

ghost use Rattle.std.specs.Prelude.{◌≡◌, ◌*◌, ◌^◌, ◌<◌, ◌≤◌};
ghost use Rattle.hm_isa.specs.Words.{asr_c, expand_imm_c, imm12, imm16, imm5, imm8, is_by_carry, lsl_c, lsr_c, repeats, ror_c, rotated};
ghost use Rattle.hm_isa.specs.Words.{shift_c, shift_number, shift_type, sign_extended, sign_extended_64, zero_as_32};

use crate::fields::{Below, Bit, Byte};

/// The sign bit of a word.
pub const SIGN: u32 = 0x8000_0000;

/// A word that was shifted, and the last bit that was shifted out.
#[derive(Clone, Copy)]
pub struct Shifted {
    pub result: u32,
    pub carry: bool,
}

/// How to shift: DDI0553, "SRType".
#[derive(Clone, Copy)]
pub enum ShiftType {
    Lsl,
    Lsr,
    Asr,
    Ror,
}

/// 32 where five bits are 0, else their number.
pub(crate) fn zero_as_32(bits: u32) -> u32
    ensures value { result ≡ zero_as_32 bits }
{
    if bits == 0 { 32 } else { bits }
}

/// How a register is shifted by a constant, but for RRX, by the number of the type: DDI0553, "DecodeImmShift".
pub fn shift_type(ty: Below<4>) -> ShiftType
    ensures value { result ≡ shift_type ty.value }
{
    match ty.get() {
        0 => ShiftType::Lsl,
        1 => ShiftType::Lsr,
        2 => ShiftType::Asr,
        _ => ShiftType::Ror,
    }
}

/// By how many places a register is shifted by a constant, RRX aside, whose code is `k`, below 32: DDI0553, "DecodeImmShift".
pub fn shift_number(ty: Below<4>, k: u32) -> u32
    ensures value { result ≡ shift_number ty.value k }
{
    if ty.get() == 0 { k } else { zero_as_32(k) }
}

/// Whether a register is shifted through the carry: ROR by 0 is RRX (DDI0553, "DecodeImmShift").
pub fn is_by_carry(ty: Below<4>, k: u32) -> bool
    ensures value { result ≡ is_by_carry ty.value k }
{
    ty.get() == 3 && k == 0
}

/// LSL_C: a word shifted left by `n`, which is not 0, and the last bit that is shifted out (DDI0553, "LSL_C").
#[tactic(auto, using(crate::proofs::FarShifts::far_left, crate::proofs::FarShifts::far_left_bit))]
fn lsl_c(x: u32, n: u32) -> Shifted
    requires { 0 < n }
    ensures value { result ≡ lsl_c x n }
{
    if n > 32 {
        return Shifted {
            result: 0,
            carry: false,
        };
    }
    let wide = (x as u64) << n;
    Shifted {
        result: (wide % 0x1_0000_0000) as u32,
        carry: (wide >> 32) % 2 == 1,
    }
}

/// LSR_C: a word shifted right by `n`, which is not 0, and the last bit that is shifted out (DDI0553, "LSR_C").
#[tactic(auto, using(crate::proofs::FarShifts::far_right))]
fn lsr_c(x: u32, n: u32) -> Shifted
    requires { 0 < n }
    ensures value { result ≡ lsr_c x n }
{
    if n > 32 {
        return Shifted {
            result: 0,
            carry: false,
        };
    }
    Shifted {
        result: (x as u64 >> n) as u32,
        carry: (x >> (n - 1)) % 2 == 1,
    }
}

/// SignExtend(x, 64): a word as the low half of a double word that has its sign (DDI0553, "SignExtend").
pub fn sign_extended_64(x: u32) -> u64
    ensures value { result ≡ sign_extended_64 x }
    ensures below { result < 2 ^ 64 }
{
    if x >= SIGN {
        x as u64 + 0xffff_ffff_0000_0000
    } else {
        x as u64
    }
}

/// ASR_C: a word with its sign shifted right by `n`, which is not 0, and the last bit that is shifted out (DDI0553, "ASR_C").
fn asr_c(x: u32, n: u32) -> Shifted
    requires { 0 < n }
    ensures value { result ≡ asr_c x n }
{
    let m = if n < 32 { n } else { 32 };
    let wide = sign_extended_64(x);
    Shifted {
        result: ((wide >> m) % 0x1_0000_0000) as u32,
        carry: (wide >> (m - 1)) % 2 == 1,
    }
}

/// A word rotated right by `m`, below 32: DDI0553, "ROR".
pub fn rotated(x: u32, m: u32) -> u32
    requires { m < 32 }
    ensures value { result ≡ rotated x m }
{
    let right = (x >> m) as u64;
    let left = (x as u64) << (32 - m);
    ((right + left) % 0x1_0000_0000) as u32
}

/// ROR_C: a word rotated right by `n`, which is not 0, and bit 31 of the result (DDI0553, "ROR_C").
fn ror_c(x: u32, n: u32) -> Shifted
    requires { 0 < n }
    ensures value { result ≡ ror_c x n }
{
    let result = rotated(x, n % 32);
    Shifted {
        result,
        carry: result >= SIGN,
    }
}

/// A word shifted, and the carry: the bit that was shifted out last, or the one given where `n` is 0 (DDI0553, "Shift_C").
pub fn shift_c(kind: ShiftType, x: u32, n: u32, carry: bool) -> Shifted
    ensures value { result ≡ shift_c kind x n carry }
{
    if n == 0 {
        return Shifted { result: x, carry };
    }
    match kind {
        ShiftType::Lsl => lsl_c(x, n),
        ShiftType::Lsr => lsr_c(x, n),
        ShiftType::Asr => asr_c(x, n),
        ShiftType::Ror => ror_c(x, n),
    }
}

/// The low `bits` bits of a number with their sign: DDI0553, "SignExtend".
pub fn sign_extended(bits: u32, x: u32) -> u32
    requires some { 1 ≤ bits }
    requires few { bits < 32 }
    ensures value { result ≡ sign_extended bits x }
{
    let y = x % (1 << bits);
    if y < 1 << (bits - 1) {
        y
    } else {
        y.wrapping_sub(1 << bits)
    }
}

/// The bits `i3` and `i2` of a code, one behind another, a number from 0 to 31: DDI0553, "Data-processing (shifted register)",
/// "SSAT", "SBFX" and "BFI".
pub fn imm5(i3: Below<8>, i2: Below<4>) -> u32
    ensures value { result ≡ imm5 i3.value i2.value }
    ensures below { result < 32 }
{
    4 * i3.get() + i2.get()
}

/// The bits `i`, `i3` and `i8` of a code, one behind another, a number from 0 to 4095: DDI0553, "Data-processing (modified
/// immediate)" and "ADD (immediate)".
pub fn imm12(i: Bit, i3: Below<8>, i8: Byte) -> u32
    ensures value { result ≡ imm12 i.value i3.value i8.value }
    ensures below { result < 4096 }
{
    2048 * i.get() + 256 * i3.get() + i8.get()
}

/// The bits `i4`, `i`, `i3` and `i8` of a code, one behind another, a halfword: DDI0553, "MOV (immediate)" and "MOVT".
pub fn imm16(i4: Below<16>, i: Bit, i3: Below<8>, i8: Byte) -> u32
    ensures value { result ≡ imm16 i4.value i.value i3.value i8.value }
    ensures below { result < 2 ^ 16 }
{
    4096 * i4.get() + imm12(i, i3, i8)
}

/// The bits `i`, `i3` and `i4` of a code, one behind another, a byte: DDI0553, "VMOV (immediate) (vector)".
pub fn imm8(i: Bit, i3: Below<8>, i4: Below<16>) -> u32
    ensures value { result ≡ imm8 i.value i3.value i4.value }
    ensures below { result < 256 }
{
    128 * i.get() + 16 * i3.get() + i4.get()
}

/// A byte at one, two or all places of a word.
fn repeated(byte: u32, k: u32) -> u32
    requires { byte < 256 }
    ensures value { result ≡ byte * repeats k }
{
    match k {
        0 => byte,
        1 => byte * 0x0001_0001,
        2 => byte * 0x0100_0100,
        _ => byte * 0x0101_0101,
    }
}

/// The word that twelve bits stand for, and the carry: bit 31 of a byte that is rotated, or the one given (DDI0553, "T32ExpandImm_C").
pub fn expand_imm_c(x: u32, carry: bool) -> Shifted
    requires { x < 4096 }
    ensures value { result ≡ expand_imm_c x carry }
{
    if x < 0x400 {
        return Shifted {
            result: repeated(x % 0x100, x / 0x100),
            carry,
        };
    }
    shift_c(ShiftType::Ror, 0x80 + x % 0x80, x / 0x80, carry)
}
