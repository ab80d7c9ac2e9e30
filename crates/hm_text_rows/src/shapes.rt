//! The shapes that texts of rows have.

ghost use Rattle.std.specs.Prelude.{◌≡◌, ◌≤◌, ◌<◌, ◌+◌, ◌++◌, ◌∷◌, [], length};
ghost use Rattle.hm_text_rows.specs.Shapes.{and_constant, and_operand, constant, and_shift, and_any_shift, four, one, or_zero, q, r, three, two};
ghost use Rattle.hm_tokens.specs.Texts.{part_token, text_tokens};
ghost use Rattle.hm_tokens.specs.Tokens.{mark_token, word, comma};

use arrayvec::ArrayVec;
use hm_isa::{QRegister, Register};
use hm_tokens::{InstrText, Mark, Part, register_name, vector_name};

/// A vector register.
pub fn q(n: QRegister) -> Part
    ensures { part_token result ≡ q n.value }
{
    Part::Word(vector_name(n.get()))
}

/// A core register.
pub fn r(n: u32) -> Part
    requires { n < 16 }
    ensures { part_token result ≡ r n }
{
    Part::Word(register_name(n))
}

/// A core register, or zero where it is 15.
pub fn or_zero(n: Register) -> Part
    ensures { part_token result ≡ or_zero n.value }
{
    if n.get() == 15 {
        Part::Word("zr")
    } else {
        r(n.get())
    }
}

/// A first word with no operands: a mnemonic, letters behind it, and a suffix.
pub fn alone(mnemonic: &'static str, letters: &'static str, suffix: &'static str) -> InstrText
    ensures tokens { text_tokens result ≡ word (mnemonic.now ++ (letters.now ++ suffix.now)) ∷ [] }
    ensures room { length result.operands.items ≡ 0 }
    ensures pieces { (result.mnemonic.now ≡ mnemonic.now) × (result.letters.now ≡ letters.now) × (result.suffix.now ≡ suffix.now) }
{
    InstrText {
        mnemonic,
        letters,
        suffix,
        operands: ArrayVec::new(),
    }
}

/// The text with a word, a number or a mark more.
pub fn with(mut text: InstrText, part: Part) -> InstrText
    requires { length text.operands.items ≤ 38 }
    ensures tokens { text_tokens result ≡ text_tokens text ++ part_token part ∷ [] }
    ensures room { length result.operands.items ≡ length text.operands.items + 1 }
{
    text.operands.push(part);
    text
}

/// The text with a mark more.
pub fn marked(text: InstrText, which: Mark) -> InstrText
    requires { length text.operands.items ≤ 38 }
    ensures tokens { text_tokens result ≡ text_tokens text ++ mark_token which ∷ [] }
    ensures room { length result.operands.items ≡ length text.operands.items + 1 }
{
    with(text, Part::Mark(which))
}

/// The text with a first operand.
pub fn first(mut text: InstrText, operand: Part) -> InstrText
    requires { length text.operands.items ≡ 0 }
    ensures tokens { text_tokens result ≡ word (text.mnemonic.now ++ (text.letters.now ++ text.suffix.now)) ∷ part_token operand ∷ [] }
    ensures room { length result.operands.items ≡ 1 }
{
    text.operands.push(operand);
    text
}

/// A first word and one operand.
pub fn one(mnemonic: &'static str, suffix: &'static str, a: Part) -> InstrText
    ensures tokens { text_tokens result ≡ one (mnemonic.now ++ suffix.now) (part_token a) }
    ensures room { length result.operands.items ≡ 1 }
{
    first(alone(mnemonic, "", suffix), a)
}

/// The text with one operand more, behind a comma.
pub fn and(text: InstrText, operand: Part) -> InstrText
    requires { length text.operands.items ≤ 30 }
    ensures tokens { text_tokens result ≡ and_operand (text_tokens text) (part_token operand) }
    ensures room { length result.operands.items ≡ length text.operands.items + 2 }
{
    with(marked(text, Mark::Comma), operand)
}

/// The text with a constant more, with no comma before it.
fn with_constant(text: InstrText, n: u32) -> InstrText
    requires { length text.operands.items ≤ 37 }
    ensures tokens { text_tokens result ≡ text_tokens text ++ constant n }
    ensures room { length result.operands.items ≡ length text.operands.items + 2 }
{
    with(marked(text, Mark::Hash), Part::Number(n))
}

/// The text with a constant more, behind a comma.
pub fn and_constant(text: InstrText, n: u32) -> InstrText
    requires { length text.operands.items ≤ 30 }
    ensures tokens { text_tokens result ≡ and_constant (text_tokens text) n }
    ensures room { length result.operands.items ≡ length text.operands.items + 3 }
{
    with_constant(marked(text, Mark::Comma), n)
}

/// A first word and two operands.
pub fn two(mnemonic: &'static str, suffix: &'static str, a: Part, b: Part) -> InstrText
    ensures tokens { text_tokens result ≡ two (mnemonic.now ++ suffix.now) (part_token a) (part_token b) }
    ensures room { length result.operands.items ≡ 3 }
{
    and(one(mnemonic, suffix, a), b)
}

/// A first word and three operands.
pub fn three(mnemonic: &'static str, suffix: &'static str, a: Part, b: Part, c: Part) -> InstrText
    ensures tokens { text_tokens result ≡ three (mnemonic.now ++ suffix.now) (part_token a) (part_token b) (part_token c) }
    ensures room { length result.operands.items ≡ 5 }
{
    and(two(mnemonic, suffix, a, b), c)
}

/// A first word and four operands.
pub fn four(
    mnemonic: &'static str,
    suffix: &'static str,
    a: Part,
    b: Part,
    c: Part,
    d: Part,
) -> InstrText
    ensures tokens { text_tokens result ≡ four (mnemonic.now ++ suffix.now) (part_token a) (part_token b) (part_token c) (part_token d) }
    ensures room { length result.operands.items ≡ 7 }
{
    and(three(mnemonic, suffix, a, b, c), d)
}

/// The text with a shift more, behind a comma, by 0 too: a word, as `lsl`, and a constant.
pub fn and_any_shift(text: InstrText, kind: &'static str, n: u32) -> InstrText
    requires { length text.operands.items ≤ 30 }
    ensures tokens { text_tokens result ≡ and_any_shift (text_tokens text) kind.now n }
    ensures room { length result.operands.items ≡ length text.operands.items + 4 }
{
    with_constant(and(text, Part::Word(kind)), n)
}

/// The text with a shift more, behind a comma, where it is not by 0.
pub fn and_shift(text: InstrText, kind: &'static str, n: u32) -> InstrText
    requires { length text.operands.items ≤ 30 }
    ensures tokens { text_tokens result ≡ and_shift (text_tokens text) kind.now n }
{
    if n == 0 {
        return text;
    }
    and_any_shift(text, kind, n)
}
