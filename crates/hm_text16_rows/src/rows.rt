//! The text of each row; of one with a label, what stands before that.

ghost use Rattle.std.specs.Prelude.{◌≡◌, ℕ, ◌≤◌, ◌<◌, ◌*◌, ◌∷◌, [], codes, length};
ghost use Rattle.hm_isa.specs.Letters.{access_size, plain_access};
ghost use Rattle.hm_isa.specs.declared.widths.NarrowRow.TheVariants as narrow;
ghost use Rattle.hm_text16_rows.specs.Rows.{list_tokens, load_start, row_tokens};
ghost use Rattle.hm_text_rows.specs.Shapes.{r};
ghost use Rattle.hm_tokens.specs.Texts.{text_tokens};
ghost use Rattle.hm_tokens.specs.Tokens.{word, comma, bang};

use crate::mnemonics::{
    block_condition, block_letters, byte_mnemonic, hint_mnemonic, jump_mnemonic, logic_mnemonic,
    masking_mnemonic, plain_mnemonic, shift_mnemonic, stack_sum_mnemonic, sum_mnemonic,
    swap_mnemonic, word_mnemonic, zero_mnemonic,
};
use crate::shapes::{by_number, by_register};
use hm_isa::{
    ListName, NarrowRow, S1, S2, S3, S4, S5, S6, S7, S8, S9, S10, S11, S12, S13, S14, S15, S16,
    S17, S18, S19, S20, S21, S23, S24, S25,
};
use hm_text_rows::{
    access_mnemonic, alone, and_constant, extend_mnemonic, is_listed, marked, one, r, three, two,
    with, with_list,
};
use hm_tokens::{InstrText, Mark, Part, condition_name};

/// The text of a row S1: `lsls`, `lsrs`, `asrs rd,rm,#i`.
fn text_s1(i: &S1) -> InstrText
    ensures { text_tokens result ≡ row_tokens (narrow.S1 i.now) }
{
    let text = two(shift_mnemonic(i.name), "", r(i.d.get()), r(i.m.get()));
    and_constant(text, i.name.amount(i.i.get()))
}

/// The text of a row S2: `adds`, `subs rd,rn,rm`.
fn text_s2(i: &S2) -> InstrText
    ensures { text_tokens result ≡ row_tokens (narrow.S2 i.now) }
{
    three(
        sum_mnemonic(i.name),
        "",
        r(i.d.get()),
        r(i.n.get()),
        r(i.m.get()),
    )
}

/// The text of a row S3: `adds`, `subs rd,rn,#i`.
fn text_s3(i: &S3) -> InstrText
    ensures { text_tokens result ≡ row_tokens (narrow.S3 i.now) }
{
    and_constant(
        two(sum_mnemonic(i.name), "", r(i.d.get()), r(i.n.get())),
        i.i.get(),
    )
}

/// The text of a row S4: `movs`, `cmp`, `adds`, `subs rd,#i`.
fn text_s4(i: &S4) -> InstrText
    ensures { text_tokens result ≡ row_tokens (narrow.S4 i.now) }
{
    and_constant(one(byte_mnemonic(i.name), "", r(i.d.get())), i.i.get())
}

/// The text of a row S5: `ands`, `eors`, `lsls`, `lsrs`, `asrs`, `adcs`, `sbcs`, `rors`, `tst`, `rsbs`, `cmp`, `cmn`, `orrs`, `muls`, `bics` or `mvns` of two
/// registers.
fn text_s5(i: &S5) -> InstrText
    ensures { text_tokens result ≡ row_tokens (narrow.S5 i.now) }
{
    two(logic_mnemonic(i.name), "", r(i.d.get()), r(i.m.get()))
}

/// The text of a row S6: `add rd,rm` of any registers.
fn text_s6(i: &S6) -> InstrText
    ensures { text_tokens result ≡ row_tokens (narrow.S6 i.now) }
{
    two("add", "", r(i.d.get()), r(i.m.get()))
}

/// The text of a row S7: `cmp rd,rm` of higher registers.
fn text_s7(i: &S7) -> InstrText
    ensures { text_tokens result ≡ row_tokens (narrow.S7 i.now) }
{
    two("cmp", "", r(i.d.get()), r(i.m.get()))
}

/// The text of a row S8: `mov rd,rm` of any registers.
fn text_s8(i: &S8) -> InstrText
    ensures { text_tokens result ≡ row_tokens (narrow.S8 i.now) }
{
    two("mov", "", r(i.d.get()), r(i.m.get()))
}

/// The text of a row S9: `add rd,pc,#4i`, `add rd,sp,#4i`.
fn text_s9(i: &S9) -> InstrText
    ensures { text_tokens result ≡ row_tokens (narrow.S9 i.now) }
{
    and_constant(
        two("add", "", r(i.d.get()), r(i.name.register())),
        4 * i.i.get(),
    )
}

/// The text of a row S10: `add sp,#4i`, `sub sp,#4i`.
fn text_s10(i: &S10) -> InstrText
    ensures { text_tokens result ≡ row_tokens (narrow.S10 i.now) }
{
    and_constant(one(stack_sum_mnemonic(i.name), "", r(13)), 4 * i.i.get())
}

/// The text of a row S11: `sxth`, `sxtb`, `uxth`, `uxtb`.
fn text_s11(i: &S11) -> InstrText
    ensures { text_tokens result ≡ row_tokens (narrow.S11 i.now) }
{
    two(extend_mnemonic(i.name), "", r(i.d.get()), r(i.m.get()))
}

/// The text of a row S12: `rev`, `rev16`, `revsh`.
fn text_s12(i: &S12) -> InstrText
    ensures { text_tokens result ≡ row_tokens (narrow.S12 i.now) }
{
    two(swap_mnemonic(i.name), "", r(i.d.get()), r(i.m.get()))
}

/// The text of a row S13: `cpsie i`, `cpsid i`.
fn text_s13(i: &S13) -> InstrText
    ensures { text_tokens result ≡ row_tokens (narrow.S13 i.now) }
{
    one(masking_mnemonic(i.name), "", Part::Word("i"))
}

/// The text of a row S14: `ldr rt,label`.
fn text_s14(i: &S14) -> InstrText
    ensures { text_tokens result ≡ row_tokens (narrow.S14 i.now) }
{
    marked(one("ldr", "", r(i.t.get())), Mark::Comma)
}

/// The text of a row S15: `str`, `strh`, `strb`, `ldrsb`, `ldr`, `ldrh`, `ldrb` or `ldrsh` with `rt,[rn,rm]`.
fn text_s15(i: &S15) -> InstrText
    ensures { text_tokens result ≡ row_tokens (narrow.S15 i.now) }
{
    by_register(access_mnemonic(i.name), i.t.get(), i.n.get(), i.m.get())
}

/// The offset of a row S16 in bytes.
fn plain_offset(i: &S16) -> u32
    ensures { result ≡ access_size (plain_access i.now.name) * i.now.i.value }
{
    i.name.access().size() * i.i.get()
}

/// The text of a row S16: `str`, `ldr`, `strb`, `ldrb`, `strh` or `ldrh` with `rt,[rn,#i]`.
fn text_s16(i: &S16) -> InstrText
    ensures { text_tokens result ≡ row_tokens (narrow.S16 i.now) }
{
    by_number(
        plain_mnemonic(i.name),
        i.t.get(),
        i.n.get(),
        plain_offset(i),
    )
}

/// The text of a row S17: `str`, `ldr rt,[sp,#4i]`.
fn text_s17(i: &S17) -> InstrText
    ensures { text_tokens result ≡ row_tokens (narrow.S17 i.now) }
{
    by_number(word_mnemonic(i.name), i.t.get(), 13, 4 * i.i.get())
}

/// The text of a row S18: `bkpt #i`.
fn text_s18(i: &S18) -> InstrText
    ensures { text_tokens result ≡ row_tokens (narrow.S18 i.now) }
{
    let hash = marked(alone("bkpt", "", ""), Mark::Hash);
    with(hash, Part::Number(i.i.get()))
}

/// The text of a row S19: `nop`, `yield`, `wfe`, `wfi`, `sev`.
fn text_s19(i: &S19) -> InstrText
    ensures { text_tokens result ≡ row_tokens (narrow.S19 i.now) }
{
    alone(hint_mnemonic(i.name), "", "")
}

/// `ldm rn`, and `!` where it is written back.
fn load_start(i: &S20) -> InstrText
    ensures room { length result.operands.items ≤ 3 }
    ensures tokens { text_tokens result ≡ load_start i.now.n.value i.now.list.value }
{
    let start = one("ldm", "", r(i.n.get()));
    if is_listed(i.list.get(), i.n.get()) {
        marked(start, Mark::Comma)
    } else {
        marked(marked(start, Mark::Bang), Mark::Comma)
    }
}

/// `stm rn!,`.
fn store_start(n: u32) -> InstrText
    requires { n < 16 }
    ensures room { length result.operands.items ≡ 3 }
    ensures tokens { text_tokens result ≡ word (codes "stm") ∷ r n ∷ bang ∷ comma ∷ [] }
{
    marked(marked(one("stm", "", r(n)), Mark::Bang), Mark::Comma)
}

/// `push` and its list, with lr where x is 1.
fn push_text(list: u32, x: u32) -> InstrText
    requires { (list < 256) × (x < 2) }
    ensures { (n : ℕ) → text_tokens result ≡ list_tokens ListName.Push x n list }
{
    with_list(alone("push", "", ""), list + x * 0x4000)
}

/// `pop` and its list, with pc where x is 1.
fn pop_text(list: u32, x: u32) -> InstrText
    requires { (list < 256) × (x < 2) }
    ensures { (n : ℕ) → text_tokens result ≡ list_tokens ListName.Pop x n list }
{
    with_list(alone("pop", "", ""), list + x * 0x8000)
}

/// The text of a row S20: `push`, `pop`, `stm`, `ldm`.
fn text_s20(i: &S20) -> InstrText
    ensures { text_tokens result ≡ row_tokens (narrow.S20 i.now) }
{
    let list = i.list.get();
    match i.name {
        ListName::Push => push_text(list, i.x.get()),
        ListName::Pop => pop_text(list, i.x.get()),
        ListName::Stm => with_list(store_start(i.n.get()), list),
        ListName::Ldm => with_list(load_start(i), list),
    }
}

/// The text of a row S21: `it`.
fn text_s21(i: &S21) -> InstrText
    ensures { text_tokens result ≡ row_tokens (narrow.S21 i.now) }
{
    let c = i.c.get();
    let letters = block_letters(c, i.mask.get());
    with(alone("it", letters, ""), Part::Word(block_condition(c)))
}

/// The text of a row S23: `bx`, `blx rm`.
fn text_s23(i: &S23) -> InstrText
    ensures { text_tokens result ≡ row_tokens (narrow.S23 i.now) }
{
    one(jump_mnemonic(i.name), "", r(i.m.get()))
}

/// The text of a row S24: `cbz`, `cbnz rn,label`.
fn text_s24(i: &S24) -> InstrText
    ensures { text_tokens result ≡ row_tokens (narrow.S24 i.now) }
{
    marked(one(zero_mnemonic(i.name), "", r(i.n.get())), Mark::Comma)
}

/// The text of a row S25: a branch under a condition, as `beq label`, or `b label`.
fn text_s25(i: &S25) -> InstrText
    ensures { text_tokens result ≡ row_tokens (narrow.S25 i.now) }
{
    match i {
        S25::Conditional(i) => alone("b", condition_name(i.c.get()), ""),
        S25::Always(_) => alone("b", "", ""),
    }
}

/// The text of a row of one halfword; of one with a label, what stands before that.
pub fn row_text(row: &NarrowRow) -> InstrText
    ensures tokens { text_tokens result ≡ row_tokens row.now }
{
    match row {
        NarrowRow::S1(i) => text_s1(i),
        NarrowRow::S2(i) => text_s2(i),
        NarrowRow::S3(i) => text_s3(i),
        NarrowRow::S4(i) => text_s4(i),
        NarrowRow::S5(i) => text_s5(i),
        NarrowRow::S6(i) => text_s6(i),
        NarrowRow::S7(i) => text_s7(i),
        NarrowRow::S8(i) => text_s8(i),
        NarrowRow::S9(i) => text_s9(i),
        NarrowRow::S10(i) => text_s10(i),
        NarrowRow::S11(i) => text_s11(i),
        NarrowRow::S12(i) => text_s12(i),
        NarrowRow::S13(i) => text_s13(i),
        NarrowRow::S14(i) => text_s14(i),
        NarrowRow::S15(i) => text_s15(i),
        NarrowRow::S16(i) => text_s16(i),
        NarrowRow::S17(i) => text_s17(i),
        NarrowRow::S18(i) => text_s18(i),
        NarrowRow::S19(i) => text_s19(i),
        NarrowRow::S20(i) => text_s20(i),
        NarrowRow::S21(i) => text_s21(i),
        NarrowRow::S23(i) => text_s23(i),
        NarrowRow::S24(i) => text_s24(i),
        NarrowRow::S25(i) => text_s25(i),
    }
}
