//! The kind of each vector row.

ghost use Rattle.std.specs.Prelude.{◌≡◌};
ghost use Rattle.hm_rows.specs.Rows.{kind_of, kind_seen};

use crate::forms::{
    add_form, bitwise_form, compare_form, constant_shift_form, copies_form, doubling_form,
    high_form, long_form, offsets_form, one_form, predicate_form, scalar_form, signed_form,
    sum_form, vector_shift_form,
};
use crate::kinds::Kind;
use crate::moves::{
    addresses_move, contiguous_move, interleaved_move, offsets_move, widening_move,
};
use hm_forms::Form;
use hm_isa::Vector;

/// What kind a vector row is.
pub fn kind(v: &Vector) -> Kind
    ensures { kind_seen result ≡ kind_of v.now }
{
    match v {
        Vector::V1(row) => Kind::Registers(add_form(row)),
        Vector::V2(row) => Kind::Registers(bitwise_form(row)),
        Vector::V3(row) => Kind::Registers(signed_form(row)),
        Vector::V4(row) => Kind::Registers(vector_shift_form(row)),
        Vector::V5(row) => Kind::Registers(doubling_form(row)),
        Vector::V6(row) => Kind::Registers(Form::LongProduct(*row)),
        Vector::V7(row) => Kind::Registers(high_form(row)),
        Vector::V8(row) => Kind::Registers(Form::Carry(*row)),
        Vector::V9(row) => Kind::Registers(Form::ComplexSum(*row)),
        Vector::V10(row) => Kind::Registers(scalar_form(row)),
        Vector::V11(row) => Kind::Registers(constant_shift_form(row)),
        Vector::V12(row) => Kind::Registers(long_form(row)),
        Vector::V13(row) => Kind::Registers(one_form(row)),
        Vector::V14(row) => Kind::Registers(Form::Reversed(*row)),
        Vector::V15(row) => Kind::Registers(Form::Constant(*row)),
        Vector::V16(row) => Kind::Registers(Form::Narrowing(*row)),
        Vector::V17(row) => Kind::Registers(Form::Shift(*row)),
        Vector::V18(row) => Kind::Registers(copies_form(row)),
        Vector::V19(row) => Kind::Registers(offsets_form(row)),
        Vector::V20(row) => Kind::Registers(compare_form(row)),
        Vector::V21(row) => Kind::Registers(predicate_form(row)),
        Vector::V22(row) => Kind::Registers(sum_form(row)),
        Vector::V23(row) => Kind::Registers(Form::Extreme(*row)),
        Vector::V24(row) => Kind::Moves(contiguous_move(row)),
        Vector::V25(row) => Kind::Moves(widening_move(row)),
        Vector::V26(row) => Kind::Moves(offsets_move(row)),
        Vector::V27(row) => Kind::Moves(addresses_move(row)),
        Vector::V28(row) => Kind::Moves(interleaved_move(row)),
    }
}
