//! The texts of rows that load and store.

ghost use Rattle.std.specs.Prelude.{◌≡◌, ◌≤◌, ◌<◌, ◌+◌, ◌*◌, ◌^◌, ◌++◌, ◌∷◌, [], length};
ghost use Rattle.hm_isa.specs.declared.Vector.TheVariants as vector;
ghost use Rattle.hm_textv_rows.specs.Rows.{at_offsets, registers, scale, tokens_of};
ghost use Rattle.hm_text_rows.specs.Shapes.{back, q};
ghost use Rattle.hm_tokens.specs.Texts.{part_token, text_tokens};
ghost use Rattle.hm_tokens.specs.Tokens.{word, close_bracket, comma, open_bracket};

use crate::mnemonics::{access_mnemonic, pair_mnemonic, quad_mnemonic};
use crate::suffixes::access_suffix;
use hm_isa::{Below, Bit, QRegister, V24, V25, V26, V27, V28};
use hm_text_rows::{
    Index, alone, and, and_any_shift, back, element_suffix, indexed, inside, marked, one, open, q,
    r, with,
};
use hm_tokens::{InstrText, Mark, Part, vector_name};

/// A vector register by its number.
fn vector(n: u32) -> Part
    requires { n < 8 }
    ensures { part_token result ≡ q n }
{
    Part::Word(vector_name(n))
}

/// An offset of i elements that have the size y in memory, in bytes.
fn in_bytes(i: Below<128>, y: u32) -> u32
    requires { y < 3 }
    ensures { result ≡ i.value * 2 ^ y }
{
    match y {
        0 => i.get(),
        1 => i.get() * 2,
        _ => i.get() * 4,
    }
}

/// The text of a row V24.
pub fn text_v24(i: &V24) -> InstrText
    ensures { text_tokens result ≡ tokens_of (vector.V24 i.now) }
{
    let suffix = access_suffix(i.l, Below::new(1), i.z.get());
    let text = one(access_mnemonic(i.l, i.z.get()), suffix, q(i.d));
    let index = Index {
        p: i.p,
        a: i.a,
        w: i.w,
    };
    indexed(text, index, r(i.n.get()), in_bytes(i.i, i.z.get()))
}

/// The text of a row V25.
pub fn text_v25(i: &V25) -> InstrText
    ensures { text_tokens result ≡ tokens_of (vector.V25 i.now) }
{
    let suffix = access_suffix(i.l, i.u, i.z.get());
    let text = one(access_mnemonic(i.l, i.h.get()), suffix, q(i.d));
    let index = Index {
        p: i.p,
        a: i.a,
        w: i.w,
    };
    indexed(text, index, r(i.n.get()), in_bytes(i.i, i.h.get()))
}

/// The text with the scale of offsets more, where they are in elements of the size y.
fn scale(text: InstrText, o: Bit, y: u32) -> InstrText
    requires { length text.operands.items ≤ 20 }
    ensures tokens { text_tokens result ≡ text_tokens text ++ scale o.value y }
    ensures room { length result.operands.items ≤ length text.operands.items + 4 }
{
    if o.get() == 0 {
        return text;
    }
    and_any_shift(text, "uxtw", y)
}

/// The text with an address more that is a base and a vector of offsets.
fn at_offsets(text: InstrText, base: Part, m: QRegister, o: Bit, y: u32) -> InstrText
    requires { length text.operands.items ≤ 10 }
    ensures { text_tokens result ≡ text_tokens text ++ comma ∷ at_offsets (part_token base) m.value o.value y }
{
    let opened = open(text, base);
    let given = and(opened, q(m));
    let scaled = scale(given, o, y);
    marked(scaled, Mark::CloseBracket)
}

/// The text of a row V26.
pub fn text_v26(i: &V26) -> InstrText
    ensures { text_tokens result ≡ tokens_of (vector.V26 i.now) }
{
    let suffix = access_suffix(i.l, i.u, i.z.get());
    let text = one(access_mnemonic(i.l, i.y.get()), suffix, q(i.d));
    at_offsets(text, r(i.n.get()), i.m, i.o, i.y.get())
}

/// The text of a row V27.
pub fn text_v27(i: &V27) -> InstrText
    ensures { text_tokens result ≡ tokens_of (vector.V27 i.now) }
{
    let suffix = access_suffix(i.l, Below::new(1), 2);
    let text = one(access_mnemonic(i.l, 2), suffix, q(i.d));
    inside(text, q(i.m), i.a, i.w, 4 * i.i.get())
}

/// A mnemonic and the two registers from d on, in braces.
fn pair(mnemonic: &'static str, suffix: &'static str, d: u32) -> InstrText
    requires { d < 7 }
    ensures tokens { text_tokens result ≡ word (mnemonic.now ++ suffix.now) ∷ registers 0 d }
    ensures room { length result.operands.items ≡ 5 }
{
    let text = with(
        marked(alone(mnemonic, "", suffix), Mark::OpenBrace),
        vector(d),
    );
    marked(and(text, vector(d + 1)), Mark::CloseBrace)
}

/// A mnemonic and the four registers from d on, in braces.
fn quad(mnemonic: &'static str, suffix: &'static str, d: u32) -> InstrText
    requires { d < 5 }
    ensures tokens { text_tokens result ≡ word (mnemonic.now ++ suffix.now) ∷ registers 1 d }
    ensures room { length result.operands.items ≡ 9 }
{
    let text = with(
        marked(alone(mnemonic, "", suffix), Mark::OpenBrace),
        vector(d),
    );
    let text = and(and(text, vector(d + 1)), vector(d + 2));
    marked(and(text, vector(d + 3)), Mark::CloseBrace)
}

/// The text of a row V28.
pub fn text_v28(i: &V28) -> InstrText
    ensures { text_tokens result ≡ tokens_of (vector.V28 i.now) }
{
    let suffix = element_suffix(i.z.get());
    let base = r(i.n.get());
    if i.f.get() == 0 {
        let listed = pair(pair_mnemonic(i.l, i.p), suffix, i.d.get());
        return at_base(listed, base, i.w);
    }
    let listed = quad(quad_mnemonic(i.l, i.p), suffix, i.d.get());
    at_base(listed, base, i.w)
}

/// The text with `[base]` more, and `!` where the base moves on.
fn at_base(text: InstrText, base: Part, w: Bit) -> InstrText
    requires { length text.operands.items ≤ 10 }
    ensures { text_tokens result ≡ text_tokens text ++ comma ∷ open_bracket ∷ part_token base ∷ close_bracket ∷ back w.value }
{
    let opened = open(text, base);
    let closed = marked(opened, Mark::CloseBracket);
    back(closed, w)
}
