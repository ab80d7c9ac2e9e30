//! Whether a row has a label, and the address that this names.

ghost use Rattle.std.specs.Prelude.{◌≡◌};
ghost use Rattle.hm_text32_rows.specs.Rows.{has_label, has_label_loop};
ghost use Rattle.hm_text32_rows.specs.Targets.{loop_target, target, wide_target};

use hm_isa::{T16, T23, WideRow};
use hm_text_rows::behind;

/// Whether a row T23 has a label.
fn has_label_loop(i: &T23) -> bool
    ensures { result ≡ has_label_loop i.now }
{
    match i {
        T23::Wls(_) | T23::Wlstp(_) | T23::End(_) => true,
        T23::Dls(_) | T23::Dlstp(_) | T23::Lctp => false,
    }
}

/// Whether the last operand of a row of two halfwords is a label.
pub fn has_label(row: &WideRow) -> bool
    ensures value { result ≡ has_label row.now }
{
    match row {
        WideRow::T16(_) => true,
        WideRow::T23(i) => has_label_loop(i),
        _ => false,
    }
}

/// The target of a row T16.
fn wide_target(i: &T16, pc: u32) -> u32
    ensures { result ≡ wide_target i.now pc }
{
    match i {
        T16::Conditional(i) => behind(pc, u64::from(i.distance())),
        T16::Always(i) => behind(pc, u64::from(i.distance())),
    }
}

/// The target of a row T23: forward into a loop, and backward to its start.
fn loop_target(i: &T23, pc: u32) -> Option<u32>
    ensures { result ≡ loop_target i.now pc }
{
    match i {
        T23::Wls(i) => Some(behind(pc, 2 * u64::from(i.v.get()))),
        T23::Wlstp(i) => Some(behind(pc, 2 * u64::from(i.v.get()))),
        T23::End(i) => Some(behind(pc, 0x1_0000_0000 - 2 * u64::from(i.v.get()))),
        T23::Dls(_) | T23::Dlstp(_) | T23::Lctp => None,
    }
}

/// The address that the label of a row of two halfwords names, where the instruction stands at `pc`; None where it has none.
pub fn target(row: &WideRow, pc: u32) -> Option<u32>
    ensures value { result ≡ target row.now pc }
{
    match row {
        WideRow::T16(i) => Some(wide_target(i, pc)),
        WideRow::T23(i) => loop_target(i, pc),
        _ => None,
    }
}
