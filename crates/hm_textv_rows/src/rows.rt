//! The text of each vector row.

ghost use Rattle.std.specs.Prelude.{◌≡◌, ◌++◌};
ghost use Rattle.hm_isa.specs.declared.Vector.TheVariants as vector;
ghost use Rattle.hm_textv_rows.specs.Rows.{compare_first_word, long_part, shifted, tokens_of};
ghost use Rattle.hm_text_rows.specs.Shapes.{either, q, three};
ghost use Rattle.hm_textv_rows.specs.Mnemonics.{compare_condition, long_move_mnemonic, long_shift_mnemonic};
ghost use Rattle.hm_tokens.specs.Texts.{part_token, text_tokens};
ghost use Rattle.hm_tokens.specs.Tokens.{word};

use crate::memory::{text_v24, text_v25, text_v26, text_v27, text_v28};
use crate::mnemonics::{
    add_mnemonic, bitwise_mnemonic, block_letters, carry_mnemonic, compare_condition,
    complex_sum_mnemonic, constant_merge_mnemonic, constant_move_mnemonic, constant_shift_mnemonic,
    doubling_mnemonic, extreme_mnemonic, high_mnemonic, narrowing_mnemonic, offsets_mnemonic,
    one_mnemonic, reverse_mnemonic, scalar_mnemonic, signed_mnemonic, vector_shift_mnemonic,
    wrapped_mnemonic,
};
use crate::suffixes::{
    by_sign, compare_suffix, complex_sum_suffix, constant_shift_suffix, integer, narrowing_suffix,
    one_suffix, scalar_suffix, signed, size_number, unsigned,
};
use hm_isa::words::imm8;
use hm_isa::{
    Below, Bit, ElementSize, QRegister, V1, V2, V3, V4, V5, V6, V7, V8, V9, V10, V11, V12, V13,
    V14, V15, V16, V17, V18, V19, V20, V21, V22, V23, Vector,
};
use hm_text_rows::{
    alone, and, and_any_shift, and_constant, element_suffix, first, one, or_zero, q, r, three, two,
};
use hm_tokens::{InstrText, Part};

/// The text of a row V1.
fn text_v1(i: &V1) -> InstrText
    ensures { text_tokens result ≡ tokens_of (vector.V1 i.now) }
{
    three(
        add_mnemonic(i.name),
        integer(i.z.get()),
        q(i.d),
        q(i.n),
        q(i.m),
    )
}

/// The text of a row V2.
fn text_v2(i: &V2) -> InstrText
    ensures { text_tokens result ≡ tokens_of (vector.V2 i.now) }
{
    three(bitwise_mnemonic(i.name), "", q(i.d), q(i.n), q(i.m))
}

/// The text of a row V3.
fn text_v3(i: &V3) -> InstrText
    ensures { text_tokens result ≡ tokens_of (vector.V3 i.now) }
{
    three(
        signed_mnemonic(i.name),
        by_sign(i.u, i.z.get()),
        q(i.d),
        q(i.n),
        q(i.m),
    )
}

/// The text of a row V4.
fn text_v4(i: &V4) -> InstrText
    ensures { text_tokens result ≡ tokens_of (vector.V4 i.now) }
{
    three(
        vector_shift_mnemonic(i.name),
        by_sign(i.u, i.z.get()),
        q(i.d),
        q(i.m),
        q(i.n),
    )
}

/// The text of a row V5.
fn text_v5(i: &V5) -> InstrText
    ensures { text_tokens result ≡ tokens_of (vector.V5 i.now) }
{
    three(
        doubling_mnemonic(i.name),
        signed(i.z.get()),
        q(i.d),
        q(i.n),
        q(i.m),
    )
}

/// The text of a row V6.
fn text_v6(i: &V6) -> InstrText
    ensures { text_tokens result ≡ tokens_of (vector.V6 i.now) }
{
    let mnemonic = if i.t.get() == 0 { "vmullb" } else { "vmullt" };
    three(mnemonic, by_sign(i.u, i.z.get()), q(i.d), q(i.n), q(i.m))
}

/// The text of a row V7.
fn text_v7(i: &V7) -> InstrText
    ensures { text_tokens result ≡ tokens_of (vector.V7 i.now) }
{
    three(
        high_mnemonic(i.name),
        by_sign(i.u, i.z.get()),
        q(i.d),
        q(i.n),
        q(i.m),
    )
}

/// The text of a row V8.
fn text_v8(i: &V8) -> InstrText
    ensures { text_tokens result ≡ tokens_of (vector.V8 i.now) }
{
    three(carry_mnemonic(i.name), ".i32", q(i.d), q(i.n), q(i.m))
}

/// The text of a row V9.
fn text_v9(i: &V9) -> InstrText
    ensures { text_tokens result ≡ tokens_of (vector.V9 i.now) }
{
    let angle = if i.t.get() == 0 { 90 } else { 270 };
    and_constant(
        three(
            complex_sum_mnemonic(i.name),
            complex_sum_suffix(i.name, i.z),
            q(i.d),
            q(i.n),
            q(i.m),
        ),
        angle,
    )
}

/// The text of a row V10.
fn text_v10(i: &V10) -> InstrText
    ensures { text_tokens result ≡ tokens_of (vector.V10 i.now) }
{
    three(
        scalar_mnemonic(i.name),
        scalar_suffix(i.name, i.u, i.z),
        q(i.d),
        q(i.n),
        r(i.m.get()),
    )
}

/// The text of a row V14.
fn text_v14(i: &V14) -> InstrText
    ensures { text_tokens result ≡ tokens_of (vector.V14 i.now) }
{
    two(
        reverse_mnemonic(i.name),
        element_suffix(i.z.get()),
        q(i.d),
        q(i.m),
    )
}

/// The text of a row V16.
fn text_v16(i: &V16) -> InstrText
    ensures { text_tokens result ≡ tokens_of (vector.V16 i.now) }
{
    two(
        narrowing_mnemonic(i.name, i.t),
        narrowing_suffix(i.name, i.z),
        q(i.d),
        q(i.m),
    )
}

/// The text of a row V17.
fn text_v17(i: &V17) -> InstrText
    ensures { text_tokens result ≡ tokens_of (vector.V17 i.now) }
{
    and_constant(two("vshlc", "", q(i.d), r(i.m.get())), i.amount())
}

/// The text of a row V18.
fn text_v18(i: &V18) -> InstrText
    ensures { text_tokens result ≡ tokens_of (vector.V18 i.now) }
{
    two(
        "vdup",
        element_suffix(size_number(i.size)),
        q(i.d),
        r(i.t.get()),
    )
}

/// The text of a row V23.
fn text_v23(i: &V23) -> InstrText
    ensures { text_tokens result ≡ tokens_of (vector.V23 i.now) }
{
    two(
        extreme_mnemonic(i.name),
        by_sign(i.u, i.z.get()),
        r(i.t.get()),
        q(i.m),
    )
}

/// The text of a row V11.
fn text_v11(i: &V11) -> InstrText
    ensures { text_tokens result ≡ tokens_of (vector.V11 i.now) }
{
    let suffix = constant_shift_suffix(i.name, i.u, i.element_size().get());
    and_constant(
        two(constant_shift_mnemonic(i.name), suffix, q(i.d), q(i.m)),
        i.amount(),
    )
}

/// `vshllb` or `vshllt`.
fn long_mnemonic(t: Bit) -> &'static str
    ensures { result.now ≡ long_shift_mnemonic t.value }
{
    if t.get() == 0 { "vshllb" } else { "vshllt" }
}

/// `vmovlb` or `vmovlt`.
fn moved_mnemonic(t: Bit) -> &'static str
    ensures { result.now ≡ long_move_mnemonic t.value }
{
    if t.get() == 0 { "vmovlb" } else { "vmovlt" }
}

/// The text of a row V12 by less than the size of its elements.
fn long_text(t: Bit, suffix: &'static str, d: QRegister, m: QRegister, k: u32) -> InstrText
    ensures { text_tokens result ≡ long_part t.value suffix.now d.value m.value k }
{
    if k == 0 {
        two(moved_mnemonic(t), suffix, q(d), q(m))
    } else {
        and_constant(two(long_mnemonic(t), suffix, q(d), q(m)), k)
    }
}

/// The text of a row V12.
fn text_v12(i: &V12) -> InstrText
    ensures { text_tokens result ≡ tokens_of (vector.V12 i.now) }
{
    match i {
        V12::Bytes(i) => long_text(i.t, by_sign(i.u, 0), i.d, i.m, i.k.get()),
        V12::Halves(i) => long_text(i.t, by_sign(i.u, 1), i.d, i.m, i.k.get()),
        V12::Full(i) => {
            let text = two(long_mnemonic(i.t), by_sign(i.u, i.z.get()), q(i.d), q(i.m));
            and_constant(text, if i.z.get() == 0 { 8 } else { 16 })
        }
    }
}

/// The text of a row V13.
fn text_v13(i: &V13) -> InstrText
    ensures { text_tokens result ≡ tokens_of (vector.V13 i.now) }
{
    match i {
        V13::Elements(i) => two(
            one_mnemonic(i.name),
            one_suffix(i.name, i.z),
            q(i.d),
            q(i.m),
        ),
        V13::Not(i) => two("vmvn", "", q(i.d), q(i.m)),
    }
}

/// The text of a row V19.
fn text_v19(i: &V19) -> InstrText
    ensures { text_tokens result ≡ tokens_of (vector.V19 i.now) }
{
    match i {
        V19::Free(i) => {
            let text = two(
                offsets_mnemonic(i.name),
                unsigned(i.z.get()),
                q(i.d),
                r(2 * i.n.get()),
            );
            and_constant(text, 1 << i.k.get())
        }
        V19::Wrapped(i) => {
            let text = three(
                wrapped_mnemonic(i.name),
                unsigned(i.z.get()),
                q(i.d),
                r(2 * i.n.get()),
                r(2 * i.r.get() + 1),
            );
            and_constant(text, 1 << i.k.get())
        }
    }
}

/// The text of a comparison, given its second operand.
fn comparison(k: Below<16>, c: Below<8>, z: ElementSize, n: QRegister, by: Part) -> InstrText
    ensures { text_tokens result ≡ three (compare_first_word k.value c.value z.value) (word (compare_condition c.value)) (q n.value) (part_token by) }
{
    let mnemonic = if k.get() == 0 { "vcmp" } else { "vpt" };
    let text = alone(mnemonic, block_letters(k), compare_suffix(c, z));
    and(and(first(text, Part::Word(compare_condition(c))), q(n)), by)
}

/// The text of a row V20.
fn text_v20(i: &V20) -> InstrText
    ensures { text_tokens result ≡ tokens_of (vector.V20 i.now) }
{
    match i {
        V20::Vectors(i) => comparison(i.k, i.c, i.z, i.n, q(i.m)),
        V20::Scalar(i) => comparison(i.k, i.c, i.z, i.n, or_zero(i.m)),
    }
}

/// The text of a row V21.
fn text_v21(i: &V21) -> InstrText
    ensures { text_tokens result ≡ tokens_of (vector.V21 i.now) }
{
    match i {
        V21::Block(i) => {
            let mnemonic = if i.k.get() == 0 { "vpnot" } else { "vpst" };
            alone(mnemonic, block_letters(i.k), "")
        }
        V21::Select(i) => three("vpsel", "", q(i.d), q(i.n), q(i.m)),
        V21::Tail(i) => one("vctp", element_suffix(i.z.get()), r(i.n.get())),
    }
}

/// One of two mnemonics, by whether a sum goes on from the old value.
pub fn sum_mnemonic(a: Bit, begins: &'static str, goes_on: &'static str) -> &'static str
    ensures value { result.now ≡ either a.value begins.now goes_on.now }
{
    if a.get() == 0 { begins } else { goes_on }
}

/// The text of a row V22.
fn text_v22(i: &V22) -> InstrText
    ensures { text_tokens result ≡ tokens_of (vector.V22 i.now) }
{
    match i {
        V22::Sum(i) => two(
            sum_mnemonic(i.a, "vaddv", "vaddva"),
            by_sign(i.u, i.z.get()),
            r(2 * i.l.get()),
            q(i.m),
        ),
        V22::Dot(i) => three(
            sum_mnemonic(i.a, "vmladav", "vmladava"),
            by_sign(i.u, size_number(i.size)),
            r(2 * i.l.get()),
            q(i.n),
            q(i.m),
        ),
        V22::LongSum(i) => three(
            sum_mnemonic(i.a, "vaddlv", "vaddlva"),
            by_sign(i.u, 2),
            r(2 * i.l.get()),
            r(2 * i.h.get() + 1),
            q(i.m),
        ),
        V22::LongDot(i) => {
            let text = three(
                sum_mnemonic(i.a, "vmlaldav", "vmlaldava"),
                by_sign(i.u, i.s.get() + 1),
                r(2 * i.l.get()),
                r(2 * i.h.get() + 1),
                q(i.n),
            );
            and(text, q(i.m))
        }
    }
}

/// A mnemonic, a vector register, and a constant that is shifted.
fn shifted(
    mnemonic: &'static str,
    suffix: &'static str,
    kind: &'static str,
    n: u32,
    d: QRegister,
    x: u32,
) -> InstrText
    ensures { text_tokens result ≡ shifted (mnemonic.now ++ suffix.now) kind.now n d.value x }
{
    and_any_shift(and_constant(one(mnemonic, suffix, q(d)), x), kind, n)
}

/// The text of a row V15.
fn text_v15(i: &V15) -> InstrText
    ensures { text_tokens result ≡ tokens_of (vector.V15 i.now) }
{
    let x = imm8(i.i, i.i3, i.i4);
    match i.cm.get() {
        0 => shifted(constant_move_mnemonic(i.op), ".i32", "lsl", 0, i.d, x),
        1 => shifted(constant_merge_mnemonic(i.op), ".i32", "lsl", 0, i.d, x),
        2 => shifted(constant_move_mnemonic(i.op), ".i32", "lsl", 8, i.d, x),
        3 => shifted(constant_merge_mnemonic(i.op), ".i32", "lsl", 8, i.d, x),
        4 => shifted(constant_move_mnemonic(i.op), ".i32", "lsl", 16, i.d, x),
        5 => shifted(constant_merge_mnemonic(i.op), ".i32", "lsl", 16, i.d, x),
        6 => shifted(constant_move_mnemonic(i.op), ".i32", "lsl", 24, i.d, x),
        7 => shifted(constant_merge_mnemonic(i.op), ".i32", "lsl", 24, i.d, x),
        8 => shifted(constant_move_mnemonic(i.op), ".i16", "lsl", 0, i.d, x),
        9 => shifted(constant_merge_mnemonic(i.op), ".i16", "lsl", 0, i.d, x),
        10 => shifted(constant_move_mnemonic(i.op), ".i16", "lsl", 8, i.d, x),
        11 => shifted(constant_merge_mnemonic(i.op), ".i16", "lsl", 8, i.d, x),
        12 => shifted(constant_move_mnemonic(i.op), ".i32", "msl", 8, i.d, x),
        13 => shifted(constant_move_mnemonic(i.op), ".i32", "msl", 16, i.d, x),
        _ => and_constant(
            one("vmov", if i.op.get() == 0 { ".i8" } else { ".i64" }, q(i.d)),
            x,
        ),
    }
}

/// The text of a vector row.
pub fn row_text(v: &Vector) -> InstrText
    ensures tokens { text_tokens result ≡ tokens_of v.now }
{
    match v {
        Vector::V1(i) => text_v1(i),
        Vector::V2(i) => text_v2(i),
        Vector::V3(i) => text_v3(i),
        Vector::V4(i) => text_v4(i),
        Vector::V5(i) => text_v5(i),
        Vector::V6(i) => text_v6(i),
        Vector::V7(i) => text_v7(i),
        Vector::V8(i) => text_v8(i),
        Vector::V9(i) => text_v9(i),
        Vector::V10(i) => text_v10(i),
        Vector::V11(i) => text_v11(i),
        Vector::V12(i) => text_v12(i),
        Vector::V13(i) => text_v13(i),
        Vector::V14(i) => text_v14(i),
        Vector::V15(i) => text_v15(i),
        Vector::V16(i) => text_v16(i),
        Vector::V17(i) => text_v17(i),
        Vector::V18(i) => text_v18(i),
        Vector::V19(i) => text_v19(i),
        Vector::V20(i) => text_v20(i),
        Vector::V21(i) => text_v21(i),
        Vector::V22(i) => text_v22(i),
        Vector::V23(i) => text_v23(i),
        Vector::V24(i) => text_v24(i),
        Vector::V25(i) => text_v25(i),
        Vector::V26(i) => text_v26(i),
        Vector::V27(i) => text_v27(i),
        Vector::V28(i) => text_v28(i),
    }
}
