//! Addresses of texts: a base, and an offset or an index.

ghost use Rattle.std.specs.Prelude.{◌≡◌, ◌≤◌, ◌<◌, ◌+◌, ◌++◌, ◌∷◌, [], length};
ghost use Rattle.hm_tokens.specs.Tokens.{comma, open_bracket};
ghost use Rattle.hm_text_rows.specs.Shapes.{back, indexed, inside, offset, outside, scaled};
ghost use Rattle.hm_tokens.specs.Texts.{part_token, text_tokens};

use crate::shapes::{and, and_any_shift, marked, r, with};
use hm_isa::Bit;
use hm_tokens::{InstrText, Mark, Part};

/// How an offset is used.
#[derive(Clone, Copy)]
pub struct Index {
    /// Whether it goes to the address of the access.
    pub p: Bit,
    /// Whether it is added.
    pub a: Bit,
    /// Whether the base gets the address with it.
    pub w: Bit,
}

/// The text with `!` where an address is written back.
pub fn back(text: InstrText, w: Bit) -> InstrText
    requires { length text.operands.items ≤ 30 }
    ensures tokens { text_tokens result ≡ text_tokens text ++ back w.value }
{
    if w.get() == 0 {
        return text;
    }
    marked(text, Mark::Bang)
}

/// The text with an offset more, behind a comma, and a minus sign where it is taken away.
fn offset(text: InstrText, a: Bit, n: u32) -> InstrText
    requires { length text.operands.items ≤ 20 }
    ensures tokens { text_tokens result ≡ text_tokens text ++ offset a.value n }
    ensures room { length result.operands.items ≤ length text.operands.items + 4 }
{
    let begun = marked(marked(text, Mark::Comma), Mark::Hash);
    if a.get() == 0 {
        return with(marked(begun, Mark::Minus), Part::Number(n));
    }
    with(begun, Part::Number(n))
}

/// The text with a base more, behind a comma and `[`.
pub fn open(text: InstrText, base: Part) -> InstrText
    requires { length text.operands.items ≤ 20 }
    ensures tokens { text_tokens result ≡ text_tokens text ++ comma ∷ open_bracket ∷ part_token base ∷ [] }
    ensures room { length result.operands.items ≡ length text.operands.items + 3 }
{
    with(marked(marked(text, Mark::Comma), Mark::OpenBracket), base)
}

/// The text with `[base,#n]` more, and `!` where the address is written back.
pub fn inside(text: InstrText, base: Part, a: Bit, w: Bit, n: u32) -> InstrText
    requires { length text.operands.items ≤ 10 }
    ensures { text_tokens result ≡ text_tokens text ++ comma ∷ inside a.value w.value (part_token base) n }
{
    let opened = open(text, base);
    let given = offset(opened, a, n);
    let closed = marked(given, Mark::CloseBracket);
    back(closed, w)
}

/// The text with `[base],#n` more.
fn outside(text: InstrText, base: Part, a: Bit, n: u32) -> InstrText
    requires { length text.operands.items ≤ 10 }
    ensures { text_tokens result ≡ text_tokens text ++ comma ∷ outside a.value (part_token base) n }
{
    let opened = open(text, base);
    let closed = marked(opened, Mark::CloseBracket);
    offset(closed, a, n)
}

/// The text with an address more that is a base and an offset.
pub fn indexed(text: InstrText, index: Index, base: Part, n: u32) -> InstrText
    requires { length text.operands.items ≤ 10 }
    ensures { text_tokens result ≡ text_tokens text ++ comma ∷ indexed index.p.value index.a.value index.w.value (part_token base) n }
{
    if index.p.get() == 0 {
        return outside(text, base, index.a, n);
    }
    inside(text, base, index.a, index.w, n)
}

/// The text with an address more that is a base and an index: `[rn,rm,lsl #k]`.
pub fn scaled(text: InstrText, n: u32, m: u32, k: u32) -> InstrText
    requires room { length text.operands.items ≤ 10 }
    requires registers { (n < 16) × (m < 16) }
    ensures { text_tokens result ≡ text_tokens text ++ comma ∷ scaled n m k }
{
    let given = and_any_shift(and(open(text, r(n)), r(m)), "lsl", k);
    marked(given, Mark::CloseBracket)
}
