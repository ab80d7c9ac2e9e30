//! The rows T1 to T4, read, and the instruction of the rows T1 to T7 that a code has.

ghost use Rattle.std.specs.Prelude.{◌≡◌, ◌+◌, ◌*◌, ◌^◌, IfSome, IfNone};
ghost use Rattle.hm_isa.specs.declared.data.DataName.{DataName};
ghost use Rattle.hm_isa.specs.declared.data.T1.{T1};
ghost use Rattle.hm_isa.specs.declared.data.T2.{T2};
ghost use Rattle.hm_isa.specs.declared.data.T3.{T3};
ghost use Rattle.hm_isa.specs.declared.data.T4.{T4};
ghost use Rattle.hm_isa.specs.DataRules.{is_constant, is_constant_row, is_first, is_result, is_shifted_row, is_stack_move, is_wide_sum};
ghost use Rattle.hm_isa.specs.DataCodes.{data_operation, code_t1, code_t2, code_t3, code_t4};
ghost use Rattle.hm_layout.specs.Wide.{HasWord};
ghost use Rattle.hm_enc32_data.specs.DataRows.{IsNoData};

use crate::decode_fields::{decode_t5, decode_t6, decode_t7};
use hm_code_fields::{bits, is_general};
use hm_isa::{Below, DataName, HalfName, Instr, Scalar, SumName, T1, T2, T3, T4};

/// The operation of the row T1 or T2 with this base whose code without its other fields is `rest`.
fn data_name(base: u32, rest: u32) -> Option<DataName>
    ensures found { IfSome result (λ x. base + data_operation x * 2 ^ 21 ≡ rest) }
    ensures none { IfNone result ((x : DataName) → base + data_operation x * 2 ^ 21 ≡ rest → ⊥) }
{
    if rest < base {
        return None;
    }
    match rest - base {
        0x000_0000 => Some(DataName::And),
        0x020_0000 => Some(DataName::Bic),
        0x040_0000 => Some(DataName::Orr),
        0x060_0000 => Some(DataName::Orn),
        0x080_0000 => Some(DataName::Eor),
        0x100_0000 => Some(DataName::Add),
        0x140_0000 => Some(DataName::Adc),
        0x160_0000 => Some(DataName::Sbc),
        0x1a0_0000 => Some(DataName::Sub),
        0x1c0_0000 => Some(DataName::Rsb),
        _ => None,
    }
}

/// Whether an operation takes this first register.
fn may_be_first(x: DataName, n: u32) -> bool
    ensures { result ≡ is_first x n }
{
    match n {
        13 => matches!(x, DataName::Add | DataName::Sub),
        15 => matches!(x, DataName::Orr | DataName::Orn),
        _ => true,
    }
}

/// Whether an operation with this first register has this register for its result.
fn may_be_result(x: DataName, s: u32, n: u32, d: u32) -> bool
    ensures { result ≡ is_result x s n d }
{
    match d {
        13 => n == 13,
        15 => {
            s == 1
                && matches!(
                    x,
                    DataName::And | DataName::Eor | DataName::Add | DataName::Sub
                )
        }
        _ => true,
    }
}

/// Whether these letters stand for a constant.
fn may_be_constant(i: u32, i3: u32, byte: u32) -> bool
    ensures { result ≡ is_constant i i3 byte }
{
    i == 1 || i3 == 0 || i3 >= 4 || byte > 0
}

/// Whether the row T1 has these letters.
fn may_be_t1(x: DataName, s: u32, n: u32, d: u32, i: u32, i3: u32, byte: u32) -> bool
    ensures { result ≡ is_constant_row x s n d i i3 byte }
{
    if !may_be_first(x, n) || !may_be_result(x, s, n, d) {
        return false;
    }
    may_be_constant(i, i3, byte)
}

/// An operation with a constant, as `and.w rd,rn,#c`
fn decode_t1(w: u32) -> Option<T1>
    ensures found { IfSome result (λ r. code_t1 r ≡ w) }
    ensures none { IfNone result ((r : T1) → code_t1 r ≡ w → ⊥) }
{
    let s = bits(w, 20, 1);
    let n = bits(w, 16, 4);
    let d = bits(w, 8, 4);
    let i = bits(w, 26, 1);
    let i3 = bits(w, 12, 3);
    let byte = bits(w, 0, 8);
    let rest = w - (s << 20) - (n << 16) - (d << 8) - (i << 26) - (i3 << 12) - byte;
    let name = data_name(0xf000_0000, rest)?;
    if !may_be_t1(name, s, n, d, i, i3, byte) {
        return None;
    }
    Some(T1 {
        name,
        s: Below::new(s),
        n: Below::new(n),
        d: Below::new(d),
        i: Below::new(i),
        i3: Below::new(i3),
        i8: Below::new(byte),
    })
}

/// Whether it is `mov.w` of sp or into it, with no shift.
fn may_move_sp(x: DataName, s: u32, n: u32, d: u32, i3: u32, i2: u32, ty: u32, m: u32) -> bool
    ensures { result ≡ is_stack_move x s n d i3 i2 ty m }
{
    if x != DataName::Orr || s != 0 || n != 15 || i3 != 0 || i2 != 0 || ty != 0 {
        return false;
    }
    if d == 13 {
        is_general(m)
    } else {
        d != 15 && m == 13
    }
}

/// Whether the row T2 has these letters.
fn may_be_t2(x: DataName, s: u32, n: u32, d: u32, i3: u32, i2: u32, ty: u32, m: u32) -> bool
    ensures { result ≡ is_shifted_row x s n d i3 i2 ty m }
{
    if may_move_sp(x, s, n, d, i3, i2, ty, m) {
        return true;
    }
    if !may_be_first(x, n) || !may_be_result(x, s, n, d) || !is_general(m) {
        return false;
    }
    d != 13 || (i3 == 0 && ty == 0)
}

/// An operation with a shifted register, as `and.w rd,rn,rm,lsl #k`
fn decode_t2(w: u32) -> Option<T2>
    ensures found { IfSome result (λ r. code_t2 r ≡ w) }
    ensures none { IfNone result ((r : T2) → code_t2 r ≡ w → ⊥) }
{
    let s = bits(w, 20, 1);
    let n = bits(w, 16, 4);
    let d = bits(w, 8, 4);
    let i3 = bits(w, 12, 3);
    let i2 = bits(w, 6, 2);
    let ty = bits(w, 4, 2);
    let m = bits(w, 0, 4);
    let rest = w - (s << 20) - (n << 16) - (d << 8) - (i3 << 12) - (i2 << 6) - (ty << 4) - m;
    let name = data_name(0xea00_0000, rest)?;
    if !may_be_t2(name, s, n, d, i3, i2, ty, m) {
        return None;
    }
    Some(T2 {
        name,
        s: Below::new(s),
        n: Below::new(n),
        d: Below::new(d),
        i3: Below::new(i3),
        i2: Below::new(i2),
        ty: Below::new(ty),
        m: Below::new(m),
    })
}

/// Whether the row T3 has these registers.
fn may_be_t3(n: u32, d: u32) -> bool
    ensures { result ≡ is_wide_sum n d }
{
    is_general(d) || (d == 13 && n == 13)
}

/// `addw`, `subw rd,rn,#i12`
fn decode_t3(w: u32) -> Option<T3>
    ensures found { IfSome result (λ r. code_t3 r ≡ w) }
    ensures none { IfNone result ((r : T3) → code_t3 r ≡ w → ⊥) }
{
    let n = bits(w, 16, 4);
    let d = bits(w, 8, 4);
    let i = bits(w, 26, 1);
    let i3 = bits(w, 12, 3);
    let byte = bits(w, 0, 8);
    let name = match w - (n << 16) - (d << 8) - (i << 26) - (i3 << 12) - byte {
        0xf200_0000 => SumName::Add,
        0xf2a0_0000 => SumName::Sub,
        _ => return None,
    };
    if !may_be_t3(n, d) {
        return None;
    }
    Some(T3 {
        name,
        n: Below::new(n),
        d: Below::new(d),
        i: Below::new(i),
        i3: Below::new(i3),
        i8: Below::new(byte),
    })
}

/// `movw`, `movt rd,#i16`
fn decode_t4(w: u32) -> Option<T4>
    ensures found { IfSome result (λ r. code_t4 r ≡ w) }
    ensures none { IfNone result ((r : T4) → code_t4 r ≡ w → ⊥) }
{
    let d = bits(w, 8, 4);
    let i4 = bits(w, 16, 4);
    let i = bits(w, 26, 1);
    let i3 = bits(w, 12, 3);
    let byte = bits(w, 0, 8);
    let name = match w - (d << 8) - (i4 << 16) - (i << 26) - (i3 << 12) - byte {
        0xf240_0000 => HalfName::Movw,
        0xf2c0_0000 => HalfName::Movt,
        _ => return None,
    };
    if !is_general(d) {
        return None;
    }
    Some(T4 {
        name,
        d: Below::new(d),
        i4: Below::new(i4),
        i: Below::new(i),
        i3: Below::new(i3),
        i8: Below::new(byte),
    })
}

/// The instruction of the rows T1 to T7 whose code is w, with the first halfword in bits 31 to 16, or None exactly where none of them
/// has it: DDI0553, "T32 instruction set encoding", the 32-bit codes.
pub fn find_data(w: u32) -> Option<Instr>
    ensures found { IfSome result (λ i. HasWord i w) }
    ensures none { IfNone result (IsNoData w) }
{
    if let Some(r) = decode_t1(w) {
        return Some(Instr::Scalar(Scalar::T1(r)));
    }
    if let Some(r) = decode_t2(w) {
        return Some(Instr::Scalar(Scalar::T2(r)));
    }
    if let Some(r) = decode_t3(w) {
        return Some(Instr::Scalar(Scalar::T3(r)));
    }
    if let Some(r) = decode_t4(w) {
        return Some(Instr::Scalar(Scalar::T4(r)));
    }
    if let Some(r) = decode_t5(w) {
        return Some(Instr::Scalar(Scalar::T5(r)));
    }
    if let Some(r) = decode_t6(w) {
        return Some(Instr::Scalar(Scalar::T6(r)));
    }
    if let Some(r) = decode_t7(w) {
        return Some(Instr::Scalar(Scalar::T7(r)));
    }
    None
}
