//! The candidate codes of texts of rows T1, T2 and T8: data with a constant or a shifted register, and shifts.

ghost use Rattle.std.specs.Prelude.{◌≡◌, ◌<◌, ◌+◌, ◌^◌, true, false};
ghost use Rattle.hm_isa.specs.declared.arith.T8.{T8};
ghost use Rattle.hm_isa.specs.declared.arith.WideShiftName.{WideShiftName};
ghost use Rattle.hm_isa.specs.declared.data.T1.{T1};
ghost use Rattle.hm_isa.specs.declared.data.T2.{T2};
ghost use Rattle.hm_isa.specs.ArithCodes.{code_t8};
ghost use Rattle.hm_isa.specs.DataCodes.{code_t1, code_t2, data_operation};
ghost use Rattle.hm_isa.specs.Standing.{◌↑◌};
ghost use Rattle.hm_text32_codes.specs.declared.names.DataKind.TheVariants as kinds;
ghost use Rattle.hm_text32_codes.specs.Asked.{IsConstantCode, IsShiftedCode, given, kind_of, kind_operands, letters_t1, letters_t2};
ghost use Rattle.hm_text32_codes.specs.Names.{shift_number_of};

use crate::constants::constant_field;
use crate::fields::{of_three, with_five, with_twelve};
use crate::names::DataKind;
use crate::operands::Operands;
use hm_enc32_data::{base_of_wide_shift, data_operation};
use hm_isa::{DataName, WideShiftName};

/// A row T2 with no registers and no shift, with s where the flags tell the result.
fn data_base(name: DataName, s: u32) -> u64
    ensures value { result ≡ 0xea000000 + data_operation name ↑ 21 + s ↑ 20 }
    ensures small { result < 2 ^ 58 }
{
    0xea00_0000 + (u64::from(data_operation(name)) << 21) + (u64::from(s) << 20)
}

/// A row T1 with the constant c, by the row T2 with its name.
#[tactic(auto, using(crate::proofs::Immediates::field_back))]
fn constant_code(base: u64, n: u32, d: u32, c: u32) -> u64
    requires { base < 2 ^ 58 }
    ensures { IsConstantCode base n d c result }
{
    with_twelve(base + 0x0600_0000, n, d, constant_field(c))
}

/// A row T2 of a register m that is shifted by k, where 32 is 0.
#[tactic(auto, using(crate::proofs::Inverses::number_back))]
fn shifted_code(base: u64, n: u32, d: u32, m: u32, ty: u32, k: u32) -> u64
    requires { base < 2 ^ 58 }
    ensures { IsShiftedCode base n d m ty k result }
{
    with_five(base + (u64::from(ty) << 4), n, d, k % 32, m)
}

/// Rows T1 and T2 with a register for the result and a first one.
fn code_three(base: u64, o: &Operands) -> u64
    requires { base < 2 ^ 58 }
    ensures constant { o.now.third_is_number ≡ true → IsConstantCode base o.now.second o.now.first o.now.third result }
    ensures shifted { o.now.third_is_number ≡ false → IsShiftedCode base o.now.second o.now.first o.now.third o.now.fourth o.now.fifth result }
{
    if o.third_is_number {
        return constant_code(base, o.second, o.first, o.third);
    }
    shifted_code(base, o.second, o.first, o.third, o.fourth, o.fifth)
}

/// Rows T1 and T2 of a register and a constant or a shifted register, with n and d for the others.
fn code_two(base: u64, n: u32, d: u32, o: &Operands) -> u64
    requires { base < 2 ^ 58 }
    ensures constant { o.now.second_is_number ≡ true → IsConstantCode base n d o.now.second result }
    ensures shifted { o.now.second_is_number ≡ false → IsShiftedCode base n d o.now.second o.now.third o.now.fourth result }
{
    if o.second_is_number {
        return constant_code(base, n, d, o.second);
    }
    shifted_code(base, n, d, o.second, o.third, o.fourth)
}

/// Rows T2 that are shifts of this type by k.
fn code_shift(ty: u32, s: u32, o: &Operands, k: u32) -> u64
    ensures { IsShiftedCode (0xea000000 + 2 ↑ 21 + s ↑ 20) 15 o.now.first o.now.second ty k result }
{
    shifted_code(data_base(DataName::Orr, s), 15, o.first, o.second, ty, k)
}

/// The name of a row T8, by the number of the shift.
fn wide_shift_name(ty: u32) -> WideShiftName
    ensures { (name : WideShiftName) → shift_number_of name ≡ ty → result ≡ name }
{
    match ty {
        0 => WideShiftName::Lsl,
        1 => WideShiftName::Lsr,
        2 => WideShiftName::Asr,
        _ => WideShiftName::Ror,
    }
}

/// Rows T8.
fn code_wide_shift(ty: u32, s: u32, o: &Operands) -> u64
    ensures { (i : T8) → shift_number_of i.name ≡ ty → i.s.value ≡ s → o.now ≡ given i.d.value i.n.value i.m.value 0 0 → result ≡ code_t8 i }
{
    let base = u64::from(base_of_wide_shift(wide_shift_name(ty))) + (u64::from(s) << 20);
    of_three(base, o.second, 0, o.first, o.third)
}

/// Rows T1, T2 and T8, whose mnemonic says this.
pub fn kind_code(kind: DataKind, o: &Operands) -> u64
    ensures t1 { (i : T1) → kind ≡ kind_of (letters_t1 i) → o.now ≡ kind_operands (kind_of (letters_t1 i)) (letters_t1 i) → result ≡ code_t1 i }
    ensures t2 { (i : T2) → kind ≡ kind_of (letters_t2 i) → o.now ≡ kind_operands (kind_of (letters_t2 i)) (letters_t2 i) → result ≡ code_t2 i }
    ensures t8 { (i : T8) → kind ≡ kinds.Shift (shift_number_of i.name) i.s.value → o.now ≡ given i.d.value i.n.value i.m.value 0 0 → result ≡ code_t8 i }
{
    match kind {
        DataKind::Three(name, s) => code_three(data_base(name, s), o),
        DataKind::Test(name) => code_two(data_base(name, 1), o.first, 15, o),
        DataKind::Move(name, s) => code_two(data_base(name, s), 15, o.first, o),
        DataKind::Carry(s) => code_shift(3, s, o, 0),
        DataKind::Shift(ty, s) if o.third_is_number => code_shift(ty, s, o, o.third),
        DataKind::Shift(ty, s) => code_wide_shift(ty, s, o),
    }
}
