//! The candidate codes of texts of rows T17 to T19, T21 and T22, and of T23 with no label.

ghost use Rattle.std.specs.Prelude.{◌≡◌, ◌+◌, ◌/◌, ◌%◌, if◌then◌else◌};
ghost use Rattle.hm_isa.specs.declared.system.T18.TheVariants as t18;
ghost use Rattle.hm_isa.specs.declared.system.T22.{T22};
ghost use Rattle.hm_isa.specs.declared.widths.WideRow.TheVariants as wide;
ghost use Rattle.hm_isa.specs.Standing.{◌↑◌};
ghost use Rattle.hm_isa.specs.SystemCodes.{code_t22, lane_move_base};
ghost use Rattle.hm_text32_codes.specs.Asked.{IsCodeOf, SystemCodes, lane_operands};

use crate::fields::of_three;
use crate::names::{barrier_name, table_name};
use crate::operands::Operands;
use hm_enc32_control::{
    base_of_barrier, base_of_lane_move, base_of_read, base_of_system_move, base_of_table,
    base_of_written,
};
use hm_isa::{LaneMoveName, ReadName, SystemMoveName, WrittenName};
use hm_text_rows::is;

/// A row T22 of a vector register, a lane and a core register.
fn lane_code(name: LaneMoveName, d: u32, x: u32, t: u32) -> u64
    ensures { result ≡ lane_move_base name + (x % 2) ↑ 21 + d ↑ 17 + (x / 2) ↑ 16 + t ↑ 12 }
{
    u64::from(base_of_lane_move(name))
        + (u64::from(x % 2) << 21)
        + (u64::from(d) << 17)
        + (u64::from(x / 2) << 16)
        + (u64::from(t) << 12)
}

/// Rows T22.
fn code_lane(o: &Operands) -> u64
    ensures { (i : T22) → o.now ≡ lane_operands i.name i.q.value i.x.value i.t.value → result ≡ code_t22 i }
{
    if o.is_vector {
        lane_code(LaneMoveName::ToLane, o.first, o.second, o.third)
    } else {
        lane_code(LaneMoveName::FromLane, o.second, o.third, o.first)
    }
}

/// Rows T18 and T21: MRS and MSR by the code of APSR, whose number is 0, VMRS and VMSR by that of FPSCR, whose number is 1.
fn code_special(mnemonic: &[u8], o: &Operands) -> Option<u64>
    ensures read { IsCodeOf (λ i. wide.T18 (t18.Read i)) mnemonic.now o.now result }
    ensures write { IsCodeOf (λ i. wide.T18 (t18.Write i)) mnemonic.now o.now result }
    ensures t21 { IsCodeOf wide.T21 mnemonic.now o.now result }
{
    if is(mnemonic, "mrs") {
        let base = u64::from(base_of_read(ReadName::Apsr));
        return Some(of_three(base, 0, 0, o.first, o.second));
    }
    if is(mnemonic, "msr") {
        let base = u64::from(base_of_written(WrittenName::Apsr));
        return Some(of_three(base, o.second, 0, 0, o.first));
    }
    if is(mnemonic, "vmrs") {
        let base = u64::from(base_of_system_move(SystemMoveName::ReadFpscr)) - (1 << 16);
        return Some(of_three(base, o.second, o.first, 0, 0));
    }
    if is(mnemonic, "vmsr") {
        let base = u64::from(base_of_system_move(SystemMoveName::WriteFpscr)) - (1 << 16);
        return Some(of_three(base, o.first, o.second, 0, 0));
    }
    None
}

/// The option of a barrier: 15 where none is written.
fn barrier_option(o: &Operands) -> u32
    ensures { result ≡ (if o.now.is_bare then 15 else o.now.first) }
{
    if o.is_bare { 15 } else { o.first }
}

/// Rows T17 to T19, T21 and T22, and T23 with no label.
pub fn code_system(mnemonic: &[u8], o: &Operands) -> Option<u64>
    ensures { SystemCodes mnemonic.now o.now result }
{
    if let Some(name) = table_name(mnemonic) {
        let base = u64::from(base_of_table(name));
        return Some(of_three(base, o.first, 0, 0, o.second));
    }
    if let Some(name) = barrier_name(mnemonic) {
        return Some(u64::from(base_of_barrier(name)) + u64::from(barrier_option(o)));
    }
    if is(mnemonic, "nop") {
        return Some(0xf3af_8000);
    }
    if is(mnemonic, "vmov") {
        return Some(code_lane(o));
    }
    if is(mnemonic, "dls") {
        return Some(of_three(0xf040_e001, o.second, 0, 0, 0));
    }
    if is(mnemonic, "dlstp") {
        let base = 0xf000_e001 + (u64::from(o.size) << 20);
        return Some(of_three(base, o.second, 0, 0, 0));
    }
    if is(mnemonic, "lctp") {
        return Some(0xf00f_e001);
    }
    code_special(mnemonic, o)
}
