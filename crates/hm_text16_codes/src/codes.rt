//! The candidate code of a text: whether the row of this code has the text is asked later.

ghost use Rattle.std.specs.Prelude.{◌≡◌, ℕ, ◌<◌, ◌+◌, ◌-◌, ◌*◌, ◌/◌, ◌%◌, if◌then◌else◌, ◌==◌, map};
ghost use Rattle.hm_isa.specs.Distances.{always_distance, conditional_distance};
ghost use Rattle.hm_isa.specs.Standing.{◌↑◌};
ghost use Rattle.hm_isa.specs.declared.narrow.Always.{Always};
ghost use Rattle.hm_isa.specs.declared.narrow.Conditional.{Conditional};
ghost use Rattle.hm_isa.specs.declared.narrow.S20.{S20};
ghost use Rattle.hm_isa.specs.declared.narrow.S25.TheVariants as s25;
ghost use Rattle.hm_isa.specs.declared.widths.NarrowRow.TheVariants as narrow;
ghost use Rattle.hm_text16_codes.specs.Asked.{IsCodeAt, IsCodeIn, IsCodeOf};
ghost use Rattle.hm_text16_rows.specs.Rows.{tokens_of};
ghost use Rattle.hm_text16_rows.specs.Targets.{literal_target};
ghost use Rattle.hm_text_rows.specs.Labels.{behind};
ghost use Rattle.hm_text_rows.specs.Operands.{first_word};
ghost use Rattle.hm_tokens.specs.Tokens.{Tok, tok};

use crate::names::{
    byte_name, even_mask, hint_name, jump_name, logic_name, masking_name, plain_name, shift_name,
    stack_sum_name, sum_name, swap_name, word_name, zero_name,
};
use crate::operands::{Kind, Operands, read_narrow_operands};
use hm_enc16::{
    base_of_access, base_of_address, base_of_byte, base_of_extend, base_of_hint, base_of_jump,
    base_of_list, base_of_logic, base_of_masking, base_of_plain, base_of_shift, base_of_stack_sum,
    base_of_sum, base_of_swap, base_of_word, base_of_zero,
};
use hm_isa::{BaseName, ListName};
use hm_text_rows::{
    access_name, branch_condition_in, distance, extend_name, first_word, is, named,
};
use hm_tokens::Token;

/// Fields of three and five bits at their places.
fn of_three(base: u32, x: u32, y: u32, z: u32) -> u64
    ensures { result ≡ base + x ↑ 6 + y ↑ 3 + z }
{
    u64::from(base) + (u64::from(x) << 6) + (u64::from(y) << 3) + u64::from(z)
}

/// A register and a number of eight bits at their places.
fn of_byte(base: u32, d: u32, i: u32) -> u64
    ensures { result ≡ base + d ↑ 8 + i }
{
    u64::from(base) + (u64::from(d) << 8) + u64::from(i)
}

/// Two registers of any number at their places.
fn of_high(base: u32, d: u32, m: u32) -> u64
    ensures { result ≡ base + (d / 8) ↑ 7 + m ↑ 3 + d % 8 }
{
    u64::from(base) + (u64::from(d / 8) << 7) + (u64::from(m) << 3) + u64::from(d % 8)
}

/// Rows S1, S3 and S16: a number behind two low registers.
fn code_behind_low(mnemonic: &[u8], o: &Operands) -> Option<u64>
    ensures s1 { IsCodeOf narrow.S1 mnemonic.now o.now result }
    ensures s3 { IsCodeOf narrow.S3 mnemonic.now o.now result }
    ensures s16 { IsCodeOf narrow.S16 mnemonic.now o.now result }
{
    if let Some(name) = shift_name(mnemonic) {
        return Some(of_three(base_of_shift(name), o.third % 32, o.second, o.first));
    }
    if let Some(name) = sum_name(mnemonic) {
        return Some(of_three(base_of_sum(name) + 0x0400, o.third, o.second, o.first));
    }
    let name = plain_name(mnemonic)?;
    let offset = o.third / name.access().size();
    Some(of_three(base_of_plain(name), offset, o.second, o.first))
}

/// Rows S9 and S17: a number behind pc or sp.
fn code_behind_base(mnemonic: &[u8], o: &Operands) -> Option<u64>
    ensures s9 { IsCodeOf narrow.S9 mnemonic.now o.now result }
    ensures s17 { IsCodeOf narrow.S17 mnemonic.now o.now result }
{
    if let Some(name) = word_name(mnemonic) {
        return Some(of_byte(base_of_word(name), o.first, o.third / 4));
    }
    let name = if o.second == 15 {
        BaseName::Pc
    } else {
        BaseName::Sp
    };
    Some(of_byte(base_of_address(name), o.first, o.third / 4))
}

/// Rows S2 and S15: three registers.
fn code_with_register(mnemonic: &[u8], o: &Operands) -> Option<u64>
    ensures s2 { IsCodeOf narrow.S2 mnemonic.now o.now result }
    ensures s15 { IsCodeOf narrow.S15 mnemonic.now o.now result }
{
    if let Some(name) = sum_name(mnemonic) {
        return Some(of_three(base_of_sum(name), o.third, o.second, o.first));
    }
    let name = access_name(mnemonic)?;
    Some(of_three(base_of_access(name), o.third, o.second, o.first))
}

/// Rows S4 and S10: a number behind a register.
fn code_number(mnemonic: &[u8], o: &Operands) -> Option<u64>
    ensures s4 { IsCodeOf narrow.S4 mnemonic.now o.now result }
    ensures s10 { IsCodeOf narrow.S10 mnemonic.now o.now result }
{
    if let Some(name) = byte_name(mnemonic) {
        return Some(of_byte(base_of_byte(name), o.first, o.second));
    }
    let name = stack_sum_name(mnemonic)?;
    Some(u64::from(base_of_stack_sum(name)) + u64::from(o.second / 4))
}

/// Rows S5 to S8, S11 and S12: two registers.
fn code_registers(mnemonic: &[u8], o: &Operands) -> Option<u64>
    ensures s5 { IsCodeOf narrow.S5 mnemonic.now o.now result }
    ensures s6 { IsCodeOf narrow.S6 mnemonic.now o.now result }
    ensures s7 { IsCodeOf narrow.S7 mnemonic.now o.now result }
    ensures s8 { IsCodeOf narrow.S8 mnemonic.now o.now result }
    ensures s11 { IsCodeOf narrow.S11 mnemonic.now o.now result }
    ensures s12 { IsCodeOf narrow.S12 mnemonic.now o.now result }
{
    if is(mnemonic, "add") {
        return Some(of_high(0x4400, o.first, o.second));
    }
    if is(mnemonic, "mov") {
        return Some(of_high(0x4600, o.first, o.second));
    }
    // Of the others CMP alone takes r8 and higher.
    if 8 <= o.first || 8 <= o.second {
        return Some(of_high(0x4500, o.first, o.second));
    }
    if let Some(name) = logic_name(mnemonic) {
        return Some(of_three(base_of_logic(name), 0, o.second, o.first));
    }
    if let Some(name) = extend_name(mnemonic) {
        return Some(of_three(base_of_extend(name), 0, o.second, o.first));
    }
    let name = swap_name(mnemonic)?;
    Some(of_three(base_of_swap(name), 0, o.second, o.first))
}

/// The mask of a block under a condition, by that under one with the low bit 0.
fn block_mask(c: u32, even: u32) -> u32
    requires { even < 16 }
    ensures { result ≡ (if c % 2 == 0 then even else 16 - even) }
{
    if c % 2 == 0 { even } else { 16 - even }
}

/// Row S21.
fn code_block(mnemonic: &[u8], o: &Operands) -> Option<u64>
    ensures s21 { IsCodeOf narrow.S21 mnemonic.now o.now result }
{
    let even = even_mask(mnemonic)?;
    Some(0xbf00 + (u64::from(o.first) << 4) + u64::from(block_mask(o.first, even)))
}

/// Rows S13, S18, S19, S21 and S23: at most one operand.
fn code_single(mnemonic: &[u8], o: &Operands) -> Option<u64>
    ensures s13 { IsCodeOf narrow.S13 mnemonic.now o.now result }
    ensures s18 { IsCodeOf narrow.S18 mnemonic.now o.now result }
    ensures s19 { IsCodeOf narrow.S19 mnemonic.now o.now result }
    ensures s21 { IsCodeOf narrow.S21 mnemonic.now o.now result }
    ensures s23 { IsCodeOf narrow.S23 mnemonic.now o.now result }
{
    if let Some(name) = masking_name(mnemonic) {
        return Some(u64::from(base_of_masking(name)));
    }
    if let Some(name) = hint_name(mnemonic) {
        return Some(u64::from(base_of_hint(name)));
    }
    if let Some(name) = jump_name(mnemonic) {
        return Some(u64::from(base_of_jump(name)) + (u64::from(o.first) << 3));
    }
    if is(mnemonic, "bkpt") {
        return Some(0xbe00 + u64::from(o.first));
    }
    code_block(mnemonic, o)
}

/// The field of a row S14 at `pc` whose label names `a`.
#[tactic(auto, using(crate::proofs::Fields::literal_field))]
fn literal_field(pc: u32, a: u32) -> u32
    ensures { (i : ℕ) → i < 256 → literal_target pc i ≡ a → result ≡ i }
{
    (distance((u64::from(pc) + 4) / 4 * 4, a) / 4 % 256) as u32
}

/// The field of a row S24.
#[tactic(auto, using(crate::proofs::Fields::zero_field))]
fn zero_field(pc: u32, a: u32) -> u32
    ensures small { result < 64 }
    ensures value { (i : ℕ) → i < 64 → behind pc (2 * i) ≡ a → result ≡ i }
{
    (distance(u64::from(pc) + 4, a) / 2 % 64) as u32
}

/// The field of a row S25 with a condition.
#[tactic(auto, using(crate::proofs::Fields::conditional_field))]
fn conditional_field(pc: u32, a: u32) -> u32
    ensures { (i : Conditional) → behind pc (conditional_distance i) ≡ a → result ≡ i.i.value }
{
    (distance(u64::from(pc) + 4, a) / 2 % 256) as u32
}

/// The field of a row S25 without a condition.
#[tactic(auto, using(crate::proofs::Fields::always_field))]
fn always_field(pc: u32, a: u32) -> u32
    ensures { (i : Always) → behind pc (always_distance i) ≡ a → result ≡ i.i.value }
{
    (distance(u64::from(pc) + 4, a) / 2 % 2048) as u32
}

/// A row S24 with a field.
fn zero_code(base: u32, n: u32, i: u32) -> u64
    requires { i < 64 }
    ensures { result ≡ base + (i / 32) ↑ 9 + (i % 32) ↑ 3 + n }
{
    u64::from(base) + (u64::from(i / 32) << 9) + (u64::from(i % 32) << 3) + u64::from(n)
}

/// Rows with a label, and of at most two operands.
#[tactic(auto, using(hm_text_rows::proofs::Branches::condition_back))]
fn code_of_two(mnemonic: &[u8], o: &Operands, pc: u32, a: u32) -> Option<u64>
    ensures s4 { IsCodeOf narrow.S4 mnemonic.now o.now result }
    ensures s5 { IsCodeOf narrow.S5 mnemonic.now o.now result }
    ensures s6 { IsCodeOf narrow.S6 mnemonic.now o.now result }
    ensures s7 { IsCodeOf narrow.S7 mnemonic.now o.now result }
    ensures s8 { IsCodeOf narrow.S8 mnemonic.now o.now result }
    ensures s10 { IsCodeOf narrow.S10 mnemonic.now o.now result }
    ensures s11 { IsCodeOf narrow.S11 mnemonic.now o.now result }
    ensures s12 { IsCodeOf narrow.S12 mnemonic.now o.now result }
    ensures s13 { IsCodeOf narrow.S13 mnemonic.now o.now result }
    ensures s14 { IsCodeAt narrow.S14 mnemonic.now o.now pc a result }
    ensures s18 { IsCodeOf narrow.S18 mnemonic.now o.now result }
    ensures s19 { IsCodeOf narrow.S19 mnemonic.now o.now result }
    ensures s21 { IsCodeOf narrow.S21 mnemonic.now o.now result }
    ensures s23 { IsCodeOf narrow.S23 mnemonic.now o.now result }
    ensures s24 { IsCodeAt narrow.S24 mnemonic.now o.now pc a result }
    ensures conditional { IsCodeAt (λ i. narrow.S25 (s25.Conditional i)) mnemonic.now o.now pc a result }
    ensures always { IsCodeAt (λ i. narrow.S25 (s25.Always i)) mnemonic.now o.now pc a result }
{
    if is(mnemonic, "ldr") {
        return Some(of_byte(0x4800, o.first, literal_field(pc, a)));
    }
    if let Some(name) = zero_name(mnemonic) {
        return Some(zero_code(base_of_zero(name), o.first, zero_field(pc, a)));
    }
    if let Some(c) = branch_condition_in(mnemonic) {
        return Some(of_byte(0xd000, c, conditional_field(pc, a)));
    }
    if is(mnemonic, "b") {
        return Some(0xe000 + u64::from(always_field(pc, a)));
    }
    match o.second_kind {
        Kind::Number => code_number(mnemonic, o),
        Kind::Word => code_registers(mnemonic, o),
        Kind::Missing => code_single(mnemonic, o),
    }
}

/// The name of a row S20.
fn list_name(mnemonic: &[u8]) -> Option<ListName>
    ensures { (i : S20) (t : Tok) → mnemonic.now ≡ first_word (tokens_of (narrow.S20 i) t) → result ≡ Some i.name }
{
    let names = &[
        (ListName::Push, "push"),
        (ListName::Pop, "pop"),
        (ListName::Stm, "stm"),
        (ListName::Ldm, "ldm"),
    ];
    named(names, mnemonic)
}

/// Rows S20.
fn code_list(mnemonic: &[u8], o: &Operands) -> Option<u64>
    ensures { IsCodeOf narrow.S20 mnemonic.now o.now result }
{
    let name = list_name(mnemonic)?;
    let base = base_of_list(name);
    match name {
        ListName::Push => Some(of_byte(base, o.registers / 0x4000 % 2, o.registers % 256)),
        ListName::Pop => Some(of_byte(base, o.registers / 0x8000 % 2, o.registers % 256)),
        ListName::Stm | ListName::Ldm => Some(of_byte(base, o.first, o.registers)),
    }
}

/// All rows.
fn code_of(mnemonic: &[u8], o: &Operands, pc: u32, a: u32) -> Option<u64>
    ensures { IsCodeAt (λ r. r) mnemonic.now o.now pc a result }
{
    if o.registers != 0 {
        return code_list(mnemonic, o);
    }
    match o.third_kind {
        Kind::Number if o.second < 8 => code_behind_low(mnemonic, o),
        Kind::Number => code_behind_base(mnemonic, o),
        Kind::Word => code_with_register(mnemonic, o),
        Kind::Missing => code_of_two(mnemonic, o, pc, a),
    }
}

/// A number for tokens at `pc`, where a label names `a`: the code of the row with these tokens, where there is one; else any, or None.
pub fn code_in(tokens: &[Token<'_>], pc: u32, a: u32) -> Option<u64>
    ensures code { IsCodeIn (map tok tokens.now) pc a result }
{
    code_of(first_word(tokens), &read_narrow_operands(tokens), pc, a)
}
