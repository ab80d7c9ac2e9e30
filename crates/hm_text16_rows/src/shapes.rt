//! The shapes of rows that load and store one register.

ghost use Rattle.std.specs.Prelude.{◌≡◌, ◌<◌};
ghost use Rattle.hm_text16_rows.specs.Rows.{by_number, by_register};
ghost use Rattle.hm_tokens.specs.Texts.{text_tokens};

use hm_isa::Below;
use hm_text_rows::{and, inside, marked, one, open, r};
use hm_tokens::{InstrText, Mark};

/// `rt,[rn,rm]` behind a mnemonic.
pub fn by_register(mnemonic: &'static str, t: u32, n: u32, m: u32) -> InstrText
    requires { (t < 16) × (n < 16) × (m < 16) }
    ensures tokens { text_tokens result ≡ by_register mnemonic.now t n m }
{
    let opened = open(one(mnemonic, "", r(t)), r(n));
    marked(and(opened, r(m)), Mark::CloseBracket)
}

/// `rt,[rn,#k]` behind a mnemonic.
pub fn by_number(mnemonic: &'static str, t: u32, n: u32, k: u32) -> InstrText
    requires { (t < 16) × (n < 16) }
    ensures tokens { text_tokens result ≡ by_number mnemonic.now t n k }
{
    inside(
        one(mnemonic, "", r(t)),
        r(n),
        Below::new(1),
        Below::new(0),
        k,
    )
}
