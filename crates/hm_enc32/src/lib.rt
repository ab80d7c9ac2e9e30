//! The codes of two halfwords that are no vector instructions', read and written.
#![tactic(auto)]

ghost use Rattle.std.specs.Prelude.{◌≡◌, ◌↔◌, IfSome, IfNone};
ghost use Rattle.hm_isa.specs.declared.Instr.{Instr};
ghost use Rattle.hm_isa.specs.declared.widths.WideRow.{WideRow};
ghost use Rattle.hm_isa.specs.Code.{wide_code};
ghost use Rattle.hm_layout.specs.Wide.{IsWide, HasWord};

use hm_enc32_control::{
    encode_t16, encode_t17, encode_t18, encode_t19, encode_t21, encode_t22, encode_t23,
    find_branch, find_system,
};
use hm_enc32_data::{
    encode_t1, encode_t2, encode_t3, encode_t4, encode_t5, encode_t6, encode_t7, encode_t8,
    encode_t9, encode_t10, encode_t11, encode_t20, find_arith, find_data,
};
use hm_enc32_memory::{encode_t12, encode_t13, encode_t14, encode_t15, find_memory};
use hm_isa::{ByWidth, Instr, WideRow, by_width};

/// The instruction of two halfwords whose code is w, or None where none but a vector instruction has it.
fn find(w: u32) -> Option<Instr>
    ensures found { IfSome result (λ i. HasWord i w) }
    ensures none { IfNone result ((r : WideRow) → wide_code r ≡ w → ⊥) }
{
    if let Some(i) = find_data(w) {
        return Some(i);
    }
    if let Some(i) = find_arith(w) {
        return Some(i);
    }
    if let Some(i) = find_memory(w) {
        return Some(i);
    }
    if let Some(i) = find_system(w) {
        return Some(i);
    }
    if let Some(i) = find_branch(w) {
        return Some(i);
    }
    None
}

/// The instruction whose code is w, with the first halfword in bits 31 to 16, or None exactly where none but a vector
/// instruction has it: DDI0553, "T32 instruction set encoding", the 32-bit codes.
pub fn decode32(w: u32) -> Option<Instr>
    ensures found { IfSome result (λ i. HasWord i w) }
    ensures none { IfNone result ((i : Instr) → HasWord i w → ⊥) }
    ensures exact { (i : Instr) → (result ≡ Some i) ↔ HasWord i w }
{
    find(w)
}

/// The code of a row of two halfwords, with the first in bits 31 to 16.
fn wide_code(r: &WideRow) -> u32
    ensures { result ≡ wide_code r.now }
{
    match r {
        WideRow::T1(r) => encode_t1(r),
        WideRow::T2(r) => encode_t2(r),
        WideRow::T3(r) => encode_t3(r),
        WideRow::T4(r) => encode_t4(r),
        WideRow::T5(r) => encode_t5(r),
        WideRow::T6(r) => encode_t6(r),
        WideRow::T7(r) => encode_t7(r),
        WideRow::T8(r) => encode_t8(r),
        WideRow::T9(r) => encode_t9(r),
        WideRow::T10(r) => encode_t10(r),
        WideRow::T11(r) => encode_t11(r),
        WideRow::T12(r) => encode_t12(r),
        WideRow::T13(r) => encode_t13(r),
        WideRow::T14(r) => encode_t14(r),
        WideRow::T15(r) => encode_t15(r),
        WideRow::T16(r) => encode_t16(r),
        WideRow::T17(r) => encode_t17(r),
        WideRow::T18(r) => encode_t18(r),
        WideRow::T19(r) => encode_t19(r),
        WideRow::T20(r) => encode_t20(r),
        WideRow::T21(r) => encode_t21(r),
        WideRow::T22(r) => encode_t22(r),
        WideRow::T23(r) => encode_t23(r),
    }
}

/// The code of an instruction of two halfwords that is no vector instruction, with the first halfword in bits 31 to 16.
/// `decode32` gives the instruction of this code again.
pub fn encode32(i: &Instr) -> u32
    requires wide { IsWide i.now }
    ensures code { HasWord i.now result }
{
    match by_width(i) {
        ByWidth::Wide(r) => wide_code(&r),
        ByWidth::Narrow(_) | ByWidth::Vector(_) => unreachable!(),
    }
}
