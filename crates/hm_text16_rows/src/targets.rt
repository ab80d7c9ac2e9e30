//! Whether a row has a label, and the address that this names.

ghost use Rattle.std.specs.Prelude.{◌≡◌, ◌<◌};
ghost use Rattle.hm_text16_rows.specs.Rows.{has_label};
ghost use Rattle.hm_text16_rows.specs.Targets.{jump_target, literal_target, target};

use hm_isa::{NarrowRow, S25};
use hm_text_rows::behind;

/// Whether the last operand of a row of one halfword is a label.
pub fn has_label(row: &NarrowRow) -> bool
    ensures value { result ≡ has_label row.now }
{
    match row {
        NarrowRow::S14(_) | NarrowRow::S24(_) | NarrowRow::S25(_) => true,
        _ => false,
    }
}

/// The target of a branch S25.
fn jump_target(i: &S25, pc: u32) -> u32
    ensures { result ≡ jump_target i.now pc }
{
    match i {
        S25::Conditional(i) => behind(pc, u64::from(i.distance())),
        S25::Always(i) => behind(pc, u64::from(i.distance())),
    }
}

/// The address of a literal: i words behind the address plus 4, rounded down to a word.
fn literal(pc: u32, i: u32) -> u32
    requires { i < 256 }
    ensures { result ≡ literal_target pc i }
{
    (((u64::from(pc) + 4) / 4 * 4 + 4 * u64::from(i)) % 0x1_0000_0000) as u32
}

/// The address that the label of a row of one halfword names, where the instruction stands at `pc`; None where it has none.
pub fn target(row: &NarrowRow, pc: u32) -> Option<u32>
    ensures value { result ≡ target row.now pc }
{
    match row {
        NarrowRow::S14(i) => Some(literal(pc, i.i.get())),
        NarrowRow::S24(i) => Some(behind(pc, 2 * u64::from(i.i.get()))),
        NarrowRow::S25(i) => Some(jump_target(i, pc)),
        _ => None,
    }
}
