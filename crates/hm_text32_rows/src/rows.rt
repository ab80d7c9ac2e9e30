//! The text of each row.

ghost use Rattle.std.specs.Prelude.{◌≡◌, ◌≤◌, ◌+◌, ◌∷◌, ◌++◌, [], length};
ghost use Rattle.hm_isa.specs.declared.widths.WideRow.TheVariants as wide;
ghost use Rattle.hm_text32_rows.specs.Rows.{and_shifted, constant_in, flags_or, is_unshifted, lane_tokens, loop_end_tokens, moved_tokens};
ghost use Rattle.hm_text32_rows.specs.Rows.{row_tokens, saturated_bits, single_tokens, system_tokens};
ghost use Rattle.hm_text_rows.specs.Shapes.{r};
ghost use Rattle.hm_tokens.specs.Texts.{part_token, text_tokens};
ghost use Rattle.hm_tokens.specs.Tokens.{number, word, close_bracket, comma, open_bracket};

use crate::memory::{text_t12, text_t13, text_t14};
use crate::mnemonics::{
    accumulate_mnemonic, barrier_mnemonic, bits_mnemonic, bits_suffix, carry_mnemonic,
    data_mnemonic, extract_mnemonic, half_mnemonic, long_mnemonic, move_mnemonic,
    operation_mnemonic, read_name, saturate_mnemonic, saturate_shift, select_mnemonic,
    shift_mnemonic, shift_mnemonic_with_flags, stack_mnemonic, test_mnemonic, wide_branch_mnemonic,
    wide_branch_suffix, wide_shift_mnemonic, wide_sum_mnemonic, written_name,
};
use hm_isa::words::{expand_imm_c, imm5, imm12, imm16, is_by_carry, shift_number};
use hm_isa::{
    Below, Bit, Byte, DataName, LaneMoveName, LoopEndName, QRegister, Register, SaturateName,
    SystemMoveName, T1, T2, T3, T4, T5, T6, T7, T8, T9, T10, T11, T15, T16, T17, T18, T19, T20,
    T21, T22, T23, TableName, WideRow,
};
use hm_text_rows::{
    alone, and, and_any_shift, and_constant, and_shift, element_suffix, extend_mnemonic, first,
    four, marked, one, or_zero, q, r, three, two,
};
use hm_tokens::{InstrText, Mark, Part, condition_name, double_name};

/// The constant of a row T1.
fn constant_in(i: Bit, i3: Below<8>, i8: Byte) -> u32
    ensures { result ≡ constant_in i.value i3.value i8.value }
{
    expand_imm_c(imm12(i, i3, i8), false).result
}

/// Whether there is no shift: lsl by 0.
fn is_unshifted(ty: Below<4>, k: u32) -> bool
    ensures { result ≡ is_unshifted ty.value k }
{
    ty.get() == 0 && k == 0
}

/// The text with a shift of the last register: nothing for lsl by 0, and `rrx` for ror by 0.
fn and_shifted(text: InstrText, ty: Below<4>, k: u32) -> InstrText
    requires { length text.operands.items ≤ 30 }
    ensures { text_tokens result ≡ and_shifted (text_tokens text) ty.value k }
{
    if is_by_carry(ty, k) {
        return and(text, Part::Word("rrx"));
    }
    and_shift(text, shift_mnemonic(ty), shift_number(ty, k))
}

/// The text of `mov`, or of a shift as a mnemonic.
fn moved_text(s: Bit, d: Register, m: Register, ty: Below<4>, k: u32) -> InstrText
    ensures { text_tokens result ≡ moved_tokens s.value d.value m.value ty.value k }
{
    if is_by_carry(ty, k) {
        return two(carry_mnemonic(s), "", r(d.get()), r(m.get()));
    }
    if is_unshifted(ty, k) {
        let mnemonic = move_mnemonic(DataName::Orr, s);
        return two(mnemonic, ".w", r(d.get()), r(m.get()));
    }
    let text = two(
        shift_mnemonic_with_flags(ty, s),
        ".w",
        r(d.get()),
        r(m.get()),
    );
    and_constant(text, shift_number(ty, k))
}

/// The text of a row T2 with no first register.
fn single_text(i: &T2, k: u32) -> InstrText
    ensures { text_tokens result ≡ single_tokens i.now.name i.now.s.value i.now.d.value i.now.m.value i.now.ty.value k }
{
    match i.name {
        DataName::Orr => moved_text(i.s, i.d, i.m, i.ty, k),
        DataName::Orn
        | DataName::And
        | DataName::Bic
        | DataName::Eor
        | DataName::Add
        | DataName::Adc
        | DataName::Sbc
        | DataName::Sub
        | DataName::Rsb => {
            let text = two(move_mnemonic(i.name, i.s), ".w", r(i.d.get()), r(i.m.get()));
            and_shifted(text, i.ty, k)
        }
    }
}

/// The text of a row T1.
fn text_t1(i: &T1) -> InstrText
    ensures { text_tokens result ≡ row_tokens (wide.T1 i.now) }
{
    let c = constant_in(i.i, i.i3, i.i8);
    if i.d.get() == 15 {
        return and_constant(one(test_mnemonic(i.name), ".w", r(i.n.get())), c);
    }
    if i.n.get() == 15 {
        let mnemonic = move_mnemonic(i.name, i.s);
        return and_constant(one(mnemonic, ".w", r(i.d.get())), c);
    }
    let mnemonic = data_mnemonic(i.name, i.s);
    and_constant(two(mnemonic, ".w", r(i.d.get()), r(i.n.get())), c)
}

/// The text of a row T2.
fn text_t2(i: &T2) -> InstrText
    ensures { text_tokens result ≡ row_tokens (wide.T2 i.now) }
{
    let k = imm5(i.i3, i.i2);
    if i.d.get() == 15 {
        let text = two(test_mnemonic(i.name), ".w", r(i.n.get()), r(i.m.get()));
        return and_shifted(text, i.ty, k);
    }
    if i.n.get() == 15 {
        return single_text(i, k);
    }
    let mnemonic = data_mnemonic(i.name, i.s);
    let text = three(mnemonic, ".w", r(i.d.get()), r(i.n.get()), r(i.m.get()));
    and_shifted(text, i.ty, k)
}

/// The text of a row T3.
fn text_t3(i: &T3) -> InstrText
    ensures { text_tokens result ≡ row_tokens (wide.T3 i.now) }
{
    let text = two(wide_sum_mnemonic(i.name), "", r(i.d.get()), r(i.n.get()));
    and_constant(text, imm12(i.i, i.i3, i.i8))
}

/// The text of a row T4.
fn text_t4(i: &T4) -> InstrText
    ensures { text_tokens result ≡ row_tokens (wide.T4 i.now) }
{
    let x = imm16(i.i4, i.i, i.i3, i.i8);
    and_constant(one(half_mnemonic(i.name), "", r(i.d.get())), x)
}

/// The number of bits that a row T5 makes a value fit in.
fn saturated_bits(name: SaturateName, s: Below<32>) -> u32
    ensures { result ≡ saturated_bits name s.value }
{
    match name {
        SaturateName::Ssat => s.get() + 1,
        SaturateName::Usat => s.get(),
    }
}

/// The text of a row T5.
fn text_t5(i: &T5) -> InstrText
    ensures { text_tokens result ≡ row_tokens (wide.T5 i.now) }
{
    let text = and_constant(
        one(saturate_mnemonic(i.name), "", r(i.d.get())),
        saturated_bits(i.name, i.s),
    );
    let kind = saturate_shift(i.sh);
    and_any_shift(and(text, r(i.n.get())), kind, imm5(i.i3, i.i2))
}

/// The text of a row T6.
fn text_t6(i: &T6) -> InstrText
    ensures { text_tokens result ≡ row_tokens (wide.T6 i.now) }
{
    let text = two(extract_mnemonic(i.name), "", r(i.d.get()), r(i.n.get()));
    let text = and_constant(text, imm5(i.i3, i.i2));
    and_constant(text, i.w.get() + 1)
}

/// The text of a row T7.
fn text_t7(i: &T7) -> InstrText
    ensures { text_tokens result ≡ row_tokens (wide.T7 i.now) }
{
    let low = imm5(i.i3, i.i2);
    let width = i.e.get() + 1 - low;
    if i.n.get() == 15 {
        let text = one("bfc", "", r(i.d.get()));
        return and_constant(and_constant(text, low), width);
    }
    let text = two("bfi", "", r(i.d.get()), r(i.n.get()));
    and_constant(and_constant(text, low), width)
}

/// The text of a row T8.
fn text_t8(i: &T8) -> InstrText
    ensures { text_tokens result ≡ row_tokens (wide.T8 i.now) }
{
    let mnemonic = wide_shift_mnemonic(i.name, i.s);
    three(mnemonic, ".w", r(i.d.get()), r(i.n.get()), r(i.m.get()))
}

/// The text of a row T9.
fn text_t9(i: &T9) -> InstrText
    ensures { text_tokens result ≡ row_tokens (wide.T9 i.now) }
{
    let text = two(extend_mnemonic(i.name), ".w", r(i.d.get()), r(i.m.get()));
    and_shift(text, "ror", 8 * i.r.get())
}

/// The text of a row T10.
fn text_t10(i: &T10) -> InstrText
    ensures { text_tokens result ≡ row_tokens (wide.T10 i.now) }
{
    two(
        bits_mnemonic(i.name),
        bits_suffix(i.name),
        r(i.d.get()),
        r(i.m.get()),
    )
}

/// The text of a row T11.
fn text_t11(i: &T11) -> InstrText
    ensures { text_tokens result ≡ row_tokens (wide.T11 i.now) }
{
    match i {
        T11::Operation(i) => three(
            operation_mnemonic(i.name),
            "",
            r(i.d.get()),
            r(i.n.get()),
            r(i.m.get()),
        ),
        T11::Accumulate(i) => four(
            accumulate_mnemonic(i.name),
            "",
            r(i.d.get()),
            r(i.n.get()),
            r(i.m.get()),
            r(i.a.get()),
        ),
        T11::Long(i) => four(
            long_mnemonic(i.name),
            "",
            r(i.l.get()),
            r(i.h.get()),
            r(i.n.get()),
            r(i.m.get()),
        ),
    }
}

/// The text of a row T15.
fn text_t15(i: &T15) -> InstrText
    ensures { text_tokens result ≡ row_tokens (wide.T15 i.now) }
{
    let last = i.v.get() + i.k.get() - 1;
    let mut text = first(
        alone(stack_mnemonic(i.name), "", ""),
        Part::Mark(Mark::OpenBrace),
    );
    text.operands.push(Part::Word(double_name(i.v.get())));
    text.operands.push(Part::Mark(Mark::Minus));
    text.operands.push(Part::Word(double_name(last)));
    text.operands.push(Part::Mark(Mark::CloseBrace));
    text
}

/// The text of a row T18.
fn text_t18(i: &T18) -> InstrText
    ensures { text_tokens result ≡ row_tokens (wide.T18 i.now) }
{
    match i {
        T18::Read(i) => two("mrs", "", r(i.d.get()), Part::Word(read_name(i.name))),
        T18::Write(i) => two("msr", "", Part::Word(written_name(i.name)), r(i.n.get())),
    }
}

/// The text of a row T19.
fn text_t19(i: &T19) -> InstrText
    ensures { text_tokens result ≡ row_tokens (wide.T19 i.now) }
{
    match i {
        T19::Nop => alone("nop", "", ".w"),
        T19::Barrier(i) => {
            let mut text = first(
                alone(barrier_mnemonic(i.name), "", ""),
                Part::Mark(Mark::Hash),
            );
            text.operands.push(Part::Number(i.o.get()));
            text
        }
    }
}

/// The text of a row T20.
fn text_t20(i: &T20) -> InstrText
    ensures { text_tokens result ≡ row_tokens (wide.T20 i.now) }
{
    four(
        select_mnemonic(i.name),
        "",
        r(i.d.get()),
        or_zero(i.n),
        or_zero(i.m),
        Part::Word(condition_name(i.c.get())),
    )
}

/// Where FPSCR is read to: 15 is the four flags.
fn flags_or(t: Register) -> Part
    ensures { part_token result ≡ flags_or t.value }
{
    if t.get() == 15 {
        Part::Word("apsr_nzcv")
    } else {
        r(t.get())
    }
}

/// The text of a move of FPSCR, VPR or P0.
fn system_text(name: SystemMoveName, t: Register) -> InstrText
    ensures { text_tokens result ≡ system_tokens name t.value }
{
    match name {
        SystemMoveName::ReadFpscr => two("vmrs", "", flags_or(t), Part::Word("fpscr")),
        SystemMoveName::ReadVpr => two("vmrs", "", r(t.get()), Part::Word("vpr")),
        SystemMoveName::ReadP0 => two("vmrs", "", r(t.get()), Part::Word("p0")),
        SystemMoveName::WriteFpscr => two("vmsr", "", Part::Word("fpscr"), r(t.get())),
        SystemMoveName::WriteVpr => two("vmsr", "", Part::Word("vpr"), r(t.get())),
        SystemMoveName::WriteP0 => two("vmsr", "", Part::Word("p0"), r(t.get())),
    }
}

/// The text of a row T21.
fn text_t21(i: &T21) -> InstrText
    ensures { text_tokens result ≡ row_tokens (wide.T21 i.now) }
{
    system_text(i.name, i.t)
}

/// The text with a lane more: `[x]`.
fn lane(mut text: InstrText, x: u32) -> InstrText
    requires { length text.operands.items ≤ 30 }
    ensures tokens { text_tokens result ≡ text_tokens text ++ open_bracket ∷ number x ∷ close_bracket ∷ [] }
    ensures room { length result.operands.items ≡ length text.operands.items + 3 }
{
    text.operands.push(Part::Mark(Mark::OpenBracket));
    text.operands.push(Part::Number(x));
    text.operands.push(Part::Mark(Mark::CloseBracket));
    text
}

/// The text of a move of lane x.
fn lane_text(name: LaneMoveName, d: QRegister, x: u32, t: Register) -> InstrText
    ensures { text_tokens result ≡ lane_tokens name d.value x t.value }
{
    match name {
        LaneMoveName::ToLane => and(lane(one("vmov", ".32", q(d)), x), r(t.get())),
        LaneMoveName::FromLane => lane(two("vmov", ".32", r(t.get()), q(d)), x),
    }
}

/// The text of a row T22.
fn text_t22(i: &T22) -> InstrText
    ensures { text_tokens result ≡ row_tokens (wide.T22 i.now) }
{
    lane_text(i.name, i.q, i.x.get(), i.t)
}

/// A mnemonic and `[rn,rm`.
fn base_and_index(mnemonic: &'static str, n: Register, m: Register) -> InstrText
    ensures tokens { text_tokens result ≡ word mnemonic.now ∷ open_bracket ∷ r n.value ∷ comma ∷ r m.value ∷ [] }
    ensures room { length result.operands.items ≡ 4 }
{
    let mut text = first(alone(mnemonic, "", ""), Part::Mark(Mark::OpenBracket));
    text.operands.push(r(n.get()));
    and(text, r(m.get()))
}

/// The text of a row T17.
fn text_t17(i: &T17) -> InstrText
    ensures { text_tokens result ≡ row_tokens (wide.T17 i.now) }
{
    match i.name {
        TableName::Tbb => {
            let text = base_and_index("tbb", i.n, i.m);
            marked(text, Mark::CloseBracket)
        }
        TableName::Tbh => {
            let text = and_any_shift(base_and_index("tbh", i.n, i.m), "lsl", 1);
            marked(text, Mark::CloseBracket)
        }
    }
}

/// The mnemonic of a wide branch, and its condition, with their suffix.
fn text_t16(i: &T16) -> InstrText
    ensures { text_tokens result ≡ row_tokens (wide.T16 i.now) }
{
    match i {
        T16::Conditional(i) => alone("b", condition_name(i.c.get()), ".w"),
        T16::Always(i) => alone(wide_branch_mnemonic(i.name), "", wide_branch_suffix(i.name)),
    }
}

/// The end of a loop, before its label.
fn loop_end_text(name: LoopEndName) -> InstrText
    ensures { text_tokens result ≡ loop_end_tokens name }
{
    match name {
        LoopEndName::LeLr => marked(one("le", "", r(14)), Mark::Comma),
        LoopEndName::Letp => marked(one("letp", "", r(14)), Mark::Comma),
        LoopEndName::Le => alone("le", "", ""),
    }
}

/// The text of a row T23; of one with a label, what stands before that.
fn text_t23(i: &T23) -> InstrText
    ensures { text_tokens result ≡ row_tokens (wide.T23 i.now) }
{
    match i {
        T23::Dls(i) => two("dls", "", r(14), r(i.n.get())),
        T23::Wls(i) => marked(two("wls", "", r(14), r(i.n.get())), Mark::Comma),
        T23::Dlstp(i) => two("dlstp", element_suffix(i.z.get()), r(14), r(i.n.get())),
        T23::Wlstp(i) => marked(
            two("wlstp", element_suffix(i.z.get()), r(14), r(i.n.get())),
            Mark::Comma,
        ),
        T23::End(i) => loop_end_text(i.name),
        T23::Lctp => alone("lctp", "", ""),
    }
}

/// The text of a row of two halfwords that is no vector row; of one with a label, what stands before that.
pub fn row_text(row: &WideRow) -> InstrText
    ensures tokens { text_tokens result ≡ row_tokens row.now }
{
    match row {
        WideRow::T1(i) => text_t1(i),
        WideRow::T2(i) => text_t2(i),
        WideRow::T3(i) => text_t3(i),
        WideRow::T4(i) => text_t4(i),
        WideRow::T5(i) => text_t5(i),
        WideRow::T6(i) => text_t6(i),
        WideRow::T7(i) => text_t7(i),
        WideRow::T8(i) => text_t8(i),
        WideRow::T9(i) => text_t9(i),
        WideRow::T10(i) => text_t10(i),
        WideRow::T11(i) => text_t11(i),
        WideRow::T12(i) => text_t12(i),
        WideRow::T13(i) => text_t13(i),
        WideRow::T14(i) => text_t14(i),
        WideRow::T15(i) => text_t15(i),
        WideRow::T16(i) => text_t16(i),
        WideRow::T17(i) => text_t17(i),
        WideRow::T18(i) => text_t18(i),
        WideRow::T19(i) => text_t19(i),
        WideRow::T20(i) => text_t20(i),
        WideRow::T21(i) => text_t21(i),
        WideRow::T22(i) => text_t22(i),
        WideRow::T23(i) => text_t23(i),
    }
}
