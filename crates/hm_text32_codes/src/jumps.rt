//! The candidate codes of texts of rows with a label: T16, and T23 but for DLS, DLSTP and LCTP.

ghost use Rattle.std.specs.Prelude.{◌≡◌, ℕ, ◌<◌, ◌+◌, ◌-◌, ◌*◌, ◌/◌, ◌%◌, ◌^◌, if◌then◌else◌};
ghost use Rattle.hm_isa.specs.declared.jumps.LoopEnd.{LoopEnd};
ghost use Rattle.hm_isa.specs.declared.jumps.LoopEndName.TheVariants as loop_end;
ghost use Rattle.hm_isa.specs.declared.jumps.WideAlways.{WideAlways};
ghost use Rattle.hm_isa.specs.declared.jumps.WideConditional.{WideConditional};
ghost use Rattle.hm_isa.specs.Distances.{alike, wide_always_distance, wide_conditional_distance};
ghost use Rattle.hm_isa.specs.JumpCodes.{code_loop_end, code_wide_always, code_wide_conditional};
ghost use Rattle.hm_isa.specs.Standing.{◌↑◌};
ghost use Rattle.hm_text_rows.specs.Labels.{behind};
ghost use Rattle.hm_text32_codes.specs.Asked.{LabelCodes};

use crate::names::wide_branch_name;
use crate::number_codes::code_number;
use crate::operands::Operands;
use hm_enc32_control::{base_of_loop_end, base_of_wide_branch};
use hm_isa::{LoopEndName, WideBranchName};
use hm_text_rows::{branch_condition_in, distance, is};

/// A row T16 with a condition, at half the distance f, s:j2:j1:i6:i11.
fn conditional_fields(c: u32, f: u64) -> u64
    ensures { result ≡ 0xf0008000 + (f / 2 ^ 19 % 2) ↑ 26 + c ↑ 22 + (f / 2 ^ 11 % 64) ↑ 16 + (f / 2 ^ 17 % 2) ↑ 13
        + (f / 2 ^ 18 % 2) ↑ 11 + f % 2 ^ 11 }
{
    0xf000_8000
        + (f / 0x8_0000 % 2 << 26)
        + (u64::from(c) << 22)
        + (f / 0x800 % 64 << 16)
        + (f / 0x2_0000 % 2 << 13)
        + (f / 0x4_0000 % 2 << 11)
        + f % 0x800
}

/// The row T16 with a condition that stands at `pc`, whose label names `a`.
#[tactic(auto, using(crate::proofs::OnLabels::conditional_back))]
fn conditional_code(c: u32, pc: u32, a: u32) -> u64
    ensures { (i : WideConditional) → i.c.value ≡ c → behind pc (wide_conditional_distance i) ≡ a → result ≡ code_wide_conditional i }
{
    conditional_fields(c, distance(u64::from(pc) + 4, a) / 2)
}

/// A row T16 without a condition, at half the distance f, s:I1:I2:i10:i11.
fn always_fields(base: u64, f: u64) -> u64
    requires { base < 2 ^ 40 }
    ensures { result ≡ base + (f / 2 ^ 23 % 2) ↑ 26 + (f / 2 ^ 11 % 1024) ↑ 16 + alike (f / 2 ^ 22 % 2) (f / 2 ^ 23 % 2) ↑ 13
        + alike (f / 2 ^ 21 % 2) (f / 2 ^ 23 % 2) ↑ 11 + f % 2 ^ 11 }
{
    let s = f / 0x80_0000 % 2;
    base + (s << 26)
        + (f / 0x800 % 1024 << 16)
        + (u64::from(f / 0x40_0000 % 2 == s) << 13)
        + (u64::from(f / 0x20_0000 % 2 == s) << 11)
        + f % 0x800
}

/// The row T16 without a condition that stands at `pc`, whose label names `a`.
#[tactic(auto, using(crate::proofs::OnLabels::always_back))]
fn always_code(name: WideBranchName, pc: u32, a: u32) -> u64
    ensures { (i : WideAlways) → i.name ≡ name → behind pc (wide_always_distance i) ≡ a → result ≡ code_wide_always i }
{
    let base = u64::from(base_of_wide_branch(name));
    always_fields(base, distance(u64::from(pc) + 4, a) / 2)
}

/// A code with half a distance, whose lowest bit stands highest.
fn with_field(base: u64, v: u64) -> u64
    requires { (base < 2 ^ 62) × (v < 2048) }
    ensures { result ≡ base + ((v / 2) ↑ 1 + (v % 2) ↑ 11) }
{
    base + (v / 2 << 1) + (v % 2 << 11)
}

/// The field of a row WLS or WLSTP: half of how far the label is ahead.
#[tactic(auto, using(crate::proofs::OnLabels::ahead_back))]
fn ahead(pc: u32, a: u32) -> u64
    ensures value { (v : ℕ) → v < 2048 → behind pc (2 * v) ≡ a → result ≡ v }
    ensures small { result < 2048 }
{
    distance(u64::from(pc) + 4, a) / 2 % 2048
}

/// The field of a row LE or LETP: half of how far the label is behind.
#[tactic(auto, using(crate::proofs::OnLabels::behind_back))]
fn behind_it(pc: u32, a: u32) -> u64
    ensures value { (v : ℕ) → v < 2048 → behind pc (2 ^ 32 - 2 * v) ≡ a → result ≡ v }
    ensures small { result < 2048 }
{
    (0x1_0000_0000 - distance(u64::from(pc) + 4, a)) / 2 % 2048
}

/// The row WLS or WLSTP with this base and a count in a register.
fn start_code(base: u64, n: u32, pc: u32, a: u32) -> u64
    requires { base < 2 ^ 60 }
    ensures { (v : ℕ) → v < 2048 → behind pc (2 * v) ≡ a → result ≡ base + n ↑ 16 + ((v / 2) ↑ 1 + (v % 2) ↑ 11) }
{
    with_field(base + (u64::from(n) << 16), ahead(pc, a))
}

/// The row LE or LETP of this form.
fn end_code(name: LoopEndName, pc: u32, a: u32) -> u64
    ensures { (i : LoopEnd) → i.name ≡ name → behind pc (2 ^ 32 - 2 * i.v.value) ≡ a → result ≡ code_loop_end i }
{
    with_field(u64::from(base_of_loop_end(name)), behind_it(pc, a))
}

/// The row LE, which is without lr where its label stands alone.
fn le_name(is_single: bool) -> LoopEndName
    ensures { result ≡ (if is_single then loop_end.Le else loop_end.LeLr) }
{
    if is_single {
        LoopEndName::Le
    } else {
        LoopEndName::LeLr
    }
}

/// Rows with a label, and those of `code_number`.
#[tactic(auto, using(hm_text_rows::proofs::Branches::condition_back))]
pub fn code_at_label(mnemonic: &[u8], o: &Operands, pc: u32, a: u32) -> Option<u64>
    ensures { LabelCodes mnemonic.now o.now pc a result }
{
    if let Some(c) = branch_condition_in(mnemonic) {
        return Some(conditional_code(c, pc, a));
    }
    if let Some(name) = wide_branch_name(mnemonic) {
        return Some(always_code(name, pc, a));
    }
    if is(mnemonic, "wls") {
        return Some(start_code(0xf040_c001, o.second, pc, a));
    }
    if is(mnemonic, "wlstp") {
        let base = 0xf000_c001 + (u64::from(o.size) << 20);
        return Some(start_code(base, o.second, pc, a));
    }
    if is(mnemonic, "letp") {
        return Some(end_code(LoopEndName::Letp, pc, a));
    }
    if is(mnemonic, "le") {
        return Some(end_code(le_name(o.is_single), pc, a));
    }
    code_number(mnemonic, o)
}
