//! The candidate codes of texts of rows T3 to T7.

ghost use Rattle.std.specs.Prelude.{◌≡◌, ℕ, ◌+◌, ◌-◌, nat_eq};
ghost use Rattle.hm_isa.specs.declared.data.T4.{T4};
ghost use Rattle.hm_isa.specs.declared.data.T5.{T5};
ghost use Rattle.hm_isa.specs.declared.data.T7.{T7};
ghost use Rattle.hm_isa.specs.declared.widths.WideRow.TheVariants as wide;
ghost use Rattle.hm_isa.specs.DataCodes.{code_t4, code_t5, code_t7};
ghost use Rattle.hm_isa.specs.Words.{imm5};
ghost use Rattle.hm_text32_codes.specs.Asked.{NumberCodes, operands_of};
ghost use Rattle.hm_text32_rows.specs.Rows.{saturated_bits};
ghost use Rattle.hm_tokens.specs.Tokens.{comma};

use crate::arith_codes::code_arith;
use crate::fields::{with_five, with_twelve};
use crate::names::{extract_name, half_name, saturate_name, wide_sum_name};
use crate::operands::Operands;
use hm_enc32_data::{base_of_extract, base_of_half, base_of_saturate, base_of_wide_sum};
use hm_isa::{HalfName, SaturateName};
use hm_text_rows::is;

/// A row T4 of this name.
#[tactic(auto, using(crate::proofs::Inverses::sixteen_top, crate::proofs::Inverses::sixteen_rest))]
fn half_code(name: HalfName, o: &Operands) -> u64
    ensures { (i : T4) → i.name ≡ name → o.now ≡ operands_of (wide.T4 i) comma → result ≡ code_t4 i }
{
    let base = u64::from(base_of_half(name));
    with_twelve(base, o.second / 4096, o.first, o.second % 4096)
}

/// What a row T5 codes its number of bits as.
fn coded_bits(name: SaturateName, n: u32) -> u32
    ensures { (s : ℕ) → n ≡ saturated_bits name s → result ≡ s }
{
    match name {
        SaturateName::Ssat => n.saturating_sub(1),
        SaturateName::Usat => n,
    }
}

/// A row T5 of this name.
fn saturate_code(name: SaturateName, o: &Operands) -> u64
    ensures { (i : T5) → i.name ≡ name → o.now ≡ operands_of (wide.T5 i) comma → result ≡ code_t5 i }
{
    let base = u64::from(base_of_saturate(name)) + (u64::from(o.fourth / 2) << 21);
    with_five(base, o.third, o.first, o.fifth, coded_bits(name, o.second))
}

/// A row T7 of a register, or of 15 for none.
#[tactic(auto, using(crate::proofs::Inverses::insert_end))]
fn insert_code(n: u32, d: u32, low: u32, width: u32) -> u64
    ensures { (i : T7) → i.n.value ≡ n → i.d.value ≡ d → low ≡ imm5 i.i3.value i.i2.value
        → width ≡ i.e.value + 1 - imm5 i.i3.value i.i2.value → result ≡ code_t7 i }
{
    let end = (u64::from(low) + u64::from(width)).saturating_sub(1);
    with_five(0xf360_0000 + end, n, d, low, 0)
}

/// A row T7, BFC or BFI.
fn code_insert(is_clear: bool, o: &Operands) -> u64
    ensures { (i : T7) → is_clear ≡ nat_eq i.n.value 15 → o.now ≡ operands_of (wide.T7 i) comma → result ≡ code_t7 i }
{
    if is_clear {
        insert_code(15, o.first, o.second, o.third)
    } else {
        insert_code(o.second, o.first, o.third, o.fourth)
    }
}

/// Rows T3 to T7, and those of `code_arith`.
pub fn code_number(mnemonic: &[u8], o: &Operands) -> Option<u64>
    ensures { NumberCodes mnemonic.now o.now result }
{
    if let Some(name) = wide_sum_name(mnemonic) {
        let base = u64::from(base_of_wide_sum(name));
        return Some(with_twelve(base, o.second, o.first, o.third));
    }
    if let Some(name) = half_name(mnemonic) {
        return Some(half_code(name, o));
    }
    if let Some(name) = saturate_name(mnemonic) {
        return Some(saturate_code(name, o));
    }
    if let Some(name) = extract_name(mnemonic) {
        let base = u64::from(base_of_extract(name));
        return Some(with_five(base, o.second, o.first, o.third, o.fourth.saturating_sub(1)));
    }
    if is(mnemonic, "bfi") {
        return Some(code_insert(false, o));
    }
    if is(mnemonic, "bfc") {
        return Some(code_insert(true, o));
    }
    code_arith(mnemonic, o)
}
