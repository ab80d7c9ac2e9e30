//! The candidate codes of texts of loads and stores: rows T12 to T15.

ghost use Rattle.std.specs.Prelude.{◌≡◌, ◌<◌, ◌+◌, ◌-◌, ◌^◌, ◌/◌};
ghost use Rattle.hm_isa.specs.declared.wide.Indexed.{Indexed};
ghost use Rattle.hm_isa.specs.declared.wide.Literal.{Literal};
ghost use Rattle.hm_isa.specs.declared.wide.Offset.{Offset};
ghost use Rattle.hm_isa.specs.declared.wide.Shifted.{Shifted};
ghost use Rattle.hm_isa.specs.declared.wide.T12.TheVariants as t12;
ghost use Rattle.hm_isa.specs.declared.wide.T14.{T14};
ghost use Rattle.hm_isa.specs.declared.wide.T15.{T15};
ghost use Rattle.hm_isa.specs.declared.widths.WideRow.TheVariants as wide;
ghost use Rattle.hm_isa.specs.Code.{code_t12, code_t14};
ghost use Rattle.hm_isa.specs.Standing.{◌↑◌};
ghost use Rattle.hm_text32_codes.specs.Asked.{MemoryCodes, access_operands, given, operands_of};
ghost use Rattle.hm_tokens.specs.Tokens.{comma};

use crate::names::{pair_name, stack_name, wide_list_name};
use crate::operands::Operands;
use crate::system_codes::code_system;
use hm_enc32_memory::{base_of_pair, base_of_stack, base_of_wide_access, base_of_wide_list};
use hm_isa::{AccessName, WideListName};
use hm_text_rows::access_name;

/// A row T12 with an index.
fn indexed_code(base: u64, o: &Operands) -> u64
    requires { base < 2 ^ 40 }
    ensures { result ≡ base + 0x0800 + o.now.second ↑ 16 + o.now.first ↑ 12 + o.now.before ↑ 10 + o.now.added ↑ 9
        + o.now.back ↑ 8 + o.now.third }
{
    base + 0x0800
        + (u64::from(o.second) << 16)
        + (u64::from(o.first) << 12)
        + (u64::from(o.before) << 10)
        + (u64::from(o.added) << 9)
        + (u64::from(o.back) << 8)
        + u64::from(o.third)
}

/// A row T12 with a register that is shifted left.
fn scaled_code(base: u64, o: &Operands) -> u64
    requires { base < 2 ^ 40 }
    ensures { result ≡ base + o.now.second ↑ 16 + o.now.first ↑ 12 + o.now.fifth ↑ 4 + o.now.third }
{
    base + (u64::from(o.second) << 16)
        + (u64::from(o.first) << 12)
        + (u64::from(o.fifth) << 4)
        + u64::from(o.third)
}

/// A row T12 of this name: with a register, with an offset at pc, with one that is added alone, and else with an index.
#[tactic(auto, using(crate::proofs::Inverses::offset_base, crate::proofs::Inverses::indexed_base, crate::proofs::Inverses::indexed_use))]
fn access_code(name: AccessName, o: &Operands) -> u64
    ensures offset { (i : Offset) → i.name ≡ name → o.now ≡ access_operands (t12.Offset i) → result ≡ code_t12 (t12.Offset i) }
    ensures indexed { (i : Indexed) → i.name ≡ name → o.now ≡ access_operands (t12.Indexed i) → result ≡ code_t12 (t12.Indexed i) }
    ensures shifted { (i : Shifted) → i.name ≡ name → o.now ≡ access_operands (t12.Shifted i) → result ≡ code_t12 (t12.Shifted i) }
    ensures literal { (i : Literal) → i.name ≡ name → o.now ≡ access_operands (t12.Literal i) → result ≡ code_t12 (t12.Literal i) }
{
    let base = u64::from(base_of_wide_access(name));
    if !o.third_is_number {
        return scaled_code(base, o);
    }
    let t = u64::from(o.first) << 12;
    let i = u64::from(o.third);
    if o.back == 0 && o.second == 15 {
        return base + 0x000f_0000 + (u64::from(o.added) << 23) + t + i;
    }
    if o.back == 0 && o.added == 1 {
        return base + 0x0080_0000 + (u64::from(o.second) << 16) + t + i;
    }
    indexed_code(base, o)
}

/// A row T13.
fn pair_code(base: u64, o: &Operands) -> u64
    requires { base < 2 ^ 40 }
    ensures { result ≡ base + o.now.before ↑ 24 + o.now.added ↑ 23 + o.now.back ↑ 21 + o.now.third ↑ 16 + o.now.first ↑ 12
        + o.now.second ↑ 8 + o.now.fourth / 4 }
{
    base + (u64::from(o.before) << 24)
        + (u64::from(o.added) << 23)
        + (u64::from(o.back) << 21)
        + (u64::from(o.third) << 16)
        + (u64::from(o.first) << 12)
        + (u64::from(o.second) << 8)
        + u64::from(o.fourth / 4)
}

/// A row T14, by that of its name with no registers.
fn list_sum(base: u64, o: &Operands) -> u64
    requires { base < 2 ^ 40 }
    ensures { result ≡ base + o.now.bang ↑ 21 + o.now.first ↑ 16 + o.now.registers }
{
    base + (u64::from(o.bang) << 21) + (u64::from(o.first) << 16) + u64::from(o.registers)
}

/// A row T14 of this name.
fn list_code(name: WideListName, o: &Operands) -> u64
    ensures { (i : T14) → i.name ≡ name → o.now ≡ operands_of (wide.T14 i) comma → result ≡ code_t14 i }
{
    list_sum(u64::from(base_of_wide_list(name)), o)
}

/// A row T15 of the first register and the last, by that of its name with no registers.
#[tactic(auto, using(crate::proofs::Inverses::stack_count))]
fn stack_code(base: u64, o: &Operands) -> u64
    requires { base < 2 ^ 40 }
    ensures { (i : T15) → o.now ≡ given i.v.value (i.v.value + i.k.value - 1) 0 0 0 → result ≡ base + i.v.value ↑ 12 + i.k.value ↑ 1 }
{
    let count = (u64::from(o.second) + 1).saturating_sub(u64::from(o.first));
    base + (u64::from(o.first) << 12) + (count << 1)
}

/// Rows T12 to T15, and those of `code_system`.
pub fn code_memory(mnemonic: &[u8], o: &Operands) -> Option<u64>
    ensures { MemoryCodes mnemonic.now o.now result }
{
    if let Some(name) = access_name(mnemonic) {
        return Some(access_code(name, o));
    }
    if let Some(name) = pair_name(mnemonic) {
        return Some(pair_code(u64::from(base_of_pair(name)), o));
    }
    if let Some(name) = wide_list_name(mnemonic) {
        return Some(list_code(name, o));
    }
    if let Some(name) = stack_name(mnemonic) {
        return Some(stack_code(u64::from(base_of_stack(name)), o));
    }
    code_system(mnemonic, o)
}
