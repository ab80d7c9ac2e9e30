//! The texts of all rows: whether one is a row's, printed, and read where the address that its label names is known.
#![tactic(auto)]

ghost use Rattle.std.specs.Prelude.{◌≡◌, ℕ, ◌%◌, List, Option};
ghost use Rattle.hm_isa.specs.Code.{width_of};
ghost use Rattle.hm_text_tables.specs.Tables.{printed_text};
ghost use Rattle.hm_text_tables.specs.Texts.{HasWidth, IsTextOf};

mod labels;
mod laws;
mod named;
mod reading;
mod tables;
mod texts;

use arrayvec::ArrayString;
use hm_isa::{ByWidth, Instr, by_width};
use hm_textv::print_v;
pub use laws::text_law;
pub use named::address_in;
pub use reading::Shape;
pub use tables::{row_at, row_shape};
use texts::{print_narrow, print_wide};

/// The text of an instruction that stands at `pc`: the first word, a space, and the operands with commas between them, numbers in
/// decimal, and for a label the address that it names as `0x` and eight digits. `parse_instr` of hm_text gives the instruction again, at
/// the same `pc` and with any labels, and `shape` its width.
pub fn print_instr(i: &Instr, pc: u32) -> ArrayString<96>
    requires even { pc % 2 ≡ 0 }
    ensures text { result.bytes ≡ printed_text i.now pc }
    ensures read { (labels : List ℕ → Option ℕ) → IsTextOf result.bytes pc labels i.now }
    ensures width { HasWidth result.bytes (width_of i.now) }
{
    match by_width(i) {
        ByWidth::Narrow(row) => print_narrow(&row, pc),
        ByWidth::Wide(row) => print_wide(&row, pc),
        ByWidth::Vector(row) => print_v(&row),
    }
}
