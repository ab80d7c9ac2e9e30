//! The other spelling of a row, where it has one.

ghost use Rattle.std.specs.Prelude.{◌≡◌, option_map};
ghost use Rattle.hm_text32_rows.specs.Rows.{other_barrier, other_tokens};
ghost use Rattle.hm_tokens.specs.Texts.{text_tokens};

use crate::mnemonics::barrier_mnemonic;
use hm_isa::{T19, WideRow};
use hm_text_rows::alone;
use hm_tokens::InstrText;

/// `dsb`, `dmb` and `isb` alone, where they are those of 15.
fn barrier_text(i: &T19) -> Option<InstrText>
    ensures { option_map text_tokens result ≡ other_barrier i.now }
{
    match i {
        T19::Nop => None,
        T19::Barrier(i) => {
            if i.o.get() == 15 {
                Some(alone(barrier_mnemonic(i.name), "", ""))
            } else {
                None
            }
        }
    }
}

/// The text of a row in its other spelling, where it has one.
pub fn other_text(row: &WideRow) -> Option<InstrText>
    ensures tokens { option_map text_tokens result ≡ other_tokens row.now }
{
    match row {
        WideRow::T19(i) => barrier_text(i),
        _ => None,
    }
}
