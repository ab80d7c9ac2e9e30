//! The texts of rows that load and store.

ghost use Rattle.std.specs.Prelude.{◌≡◌, ◌≤◌, ◌<◌, ◌++◌, length};
ghost use Rattle.hm_isa.specs.declared.widths.WideRow.TheVariants as wide;
ghost use Rattle.hm_isa.specs.declared.wide.T12.TheVariants as t12;
ghost use Rattle.hm_text32_rows.specs.Rows.{access_tokens, list_start, row_tokens};
ghost use Rattle.hm_tokens.specs.Texts.{text_tokens};

use crate::mnemonics::{pair_mnemonic, wide_list_mnemonic, wide_list_suffix};
use hm_isa::{Below, Bit, Indexed, Literal, Offset, Shifted, T12, T13, T14};
use hm_text_rows::{Index, access_mnemonic, and, indexed, marked, one, r, scaled, with_list};
use hm_tokens::{InstrText, Mark};

/// The text of a row T12 with an offset: `[rn,#i]`.
fn offset_text(i: &Offset) -> InstrText
    ensures { text_tokens result ≡ access_tokens (t12.Offset i.now) }
{
    let index = Index {
        p: Below::new(1),
        a: Below::new(1),
        w: Below::new(0),
    };
    let text = one(access_mnemonic(i.name), ".w", r(i.t.get()));
    indexed(text, index, r(i.n.get()), i.i.get())
}

/// The text of a row T12 with an offset that is taken away or written back.
fn indexed_text(i: &Indexed) -> InstrText
    ensures { text_tokens result ≡ access_tokens (t12.Indexed i.now) }
{
    let index = Index {
        p: i.p,
        a: i.u,
        w: i.w,
    };
    let text = one(access_mnemonic(i.name), ".w", r(i.t.get()));
    indexed(text, index, r(i.n.get()), i.i.get())
}

/// The text of a row T12 with a register that is shifted.
fn shifted_text(i: &Shifted) -> InstrText
    ensures { text_tokens result ≡ access_tokens (t12.Shifted i.now) }
{
    let text = one(access_mnemonic(i.name), ".w", r(i.t.get()));
    scaled(text, i.n.get(), i.m.get(), i.i.get())
}

/// The text of a row T12 at an offset from pc.
fn literal_text(i: &Literal) -> InstrText
    ensures { text_tokens result ≡ access_tokens (t12.Literal i.now) }
{
    let index = Index {
        p: Below::new(1),
        a: i.u,
        w: Below::new(0),
    };
    let text = one(access_mnemonic(i.name), ".w", r(i.t.get()));
    indexed(text, index, r(15), i.i.get())
}

/// The text of a row T12.
pub fn text_t12(i: &T12) -> InstrText
    ensures { text_tokens result ≡ row_tokens (wide.T12 i.now) }
{
    match i {
        T12::Offset(i) => offset_text(i),
        T12::Indexed(i) => indexed_text(i),
        T12::Shifted(i) => shifted_text(i),
        T12::Literal(i) => literal_text(i),
    }
}

/// The text of a row T13.
pub fn text_t13(i: &T13) -> InstrText
    ensures { text_tokens result ≡ row_tokens (wide.T13 i.now) }
{
    let index = Index {
        p: i.p,
        a: i.add,
        w: i.w,
    };
    let text = and(one(pair_mnemonic(i.name), "", r(i.t.get())), r(i.u.get()));
    indexed(text, index, r(i.n.get()), 4 * i.i.get())
}

/// `rn`, and `!` where it is written back.
fn list_start(mnemonic: &'static str, suffix: &'static str, w: Bit, n: u32) -> InstrText
    requires { n < 16 }
    ensures tokens { text_tokens result ≡ list_start (mnemonic.now ++ suffix.now) w.value n }
    ensures room { length result.operands.items ≤ 3 }
{
    let text = one(mnemonic, suffix, r(n));
    if w.get() == 0 {
        return marked(text, Mark::Comma);
    }
    marked(marked(text, Mark::Bang), Mark::Comma)
}

/// The text of a row T14.
pub fn text_t14(i: &T14) -> InstrText
    ensures { text_tokens result ≡ row_tokens (wide.T14 i.now) }
{
    let mnemonic = wide_list_mnemonic(i.name);
    let start = list_start(mnemonic, wide_list_suffix(i.name), i.w, i.n.get());
    with_list(start, i.list.get())
}
