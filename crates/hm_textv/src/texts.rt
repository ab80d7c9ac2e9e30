//! The texts of a row: as it is printed, and in its other spelling.

ghost use Rattle.std.specs.Prelude.{◌≡◌, ◌↔◌, IsTrue, map, option_map};
ghost use Rattle.hm_isa.specs.declared.Vector.TheVariants as vector;
ghost use Rattle.hm_textv_rows.specs.Rows.{HasTokens, other_tokens};
ghost use Rattle.hm_tokens.specs.Texts.{text_tokens};
ghost use Rattle.hm_tokens.specs.Tokens.{tok};

use hm_isa::{BitwiseName, V2, V22, Vector};
use hm_text_rows::{q, r, three, two};
use hm_textv_rows::{by_sign, row_text, size_number, sum_mnemonic};
use hm_tokens::{InstrText, Token};

/// `vmov qd,qm`, where a row V2 moves a register.
fn move_text(i: &V2) -> Option<InstrText>
    ensures { option_map text_tokens result ≡ other_tokens (vector.V2 i.now) }
{
    match i.name {
        BitwiseName::Orr => {
            if i.n.get() == i.m.get() {
                Some(two("vmov", "", q(i.d), q(i.m)))
            } else {
                None
            }
        }
        BitwiseName::And | BitwiseName::Bic | BitwiseName::Orn | BitwiseName::Eor => None,
    }
}

/// `vmlav` and `vmlava`, which are `vmladav` and `vmladava`.
fn dot_text(i: &V22) -> Option<InstrText>
    ensures { option_map text_tokens result ≡ other_tokens (vector.V22 i.now) }
{
    match i {
        V22::Dot(i) => Some(three(
            sum_mnemonic(i.a, "vmlav", "vmlava"),
            by_sign(i.u, size_number(i.size)),
            r(2 * i.l.get()),
            q(i.n),
            q(i.m),
        )),
        V22::Sum(_) | V22::LongSum(_) | V22::LongDot(_) => None,
    }
}

/// The text of a row in its other spelling, where it has one.
fn other_text(v: &Vector) -> Option<InstrText>
    ensures { option_map text_tokens result ≡ other_tokens v.now }
{
    match v {
        Vector::V2(i) => move_text(i),
        Vector::V22(i) => dot_text(i),
        Vector::V1(_)
        | Vector::V3(_)
        | Vector::V4(_)
        | Vector::V5(_)
        | Vector::V6(_)
        | Vector::V7(_)
        | Vector::V8(_)
        | Vector::V9(_)
        | Vector::V10(_)
        | Vector::V11(_)
        | Vector::V12(_) => None,
        Vector::V13(_)
        | Vector::V14(_)
        | Vector::V15(_)
        | Vector::V16(_)
        | Vector::V17(_)
        | Vector::V18(_)
        | Vector::V19(_)
        | Vector::V20(_)
        | Vector::V21(_)
        | Vector::V23(_) => None,
        Vector::V24(_) | Vector::V25(_) | Vector::V26(_) | Vector::V27(_) | Vector::V28(_) => None,
    }
}

/// Whether tokens are one of a row's texts.
pub fn is_text_of(v: &Vector, tokens: &[Token<'_>]) -> bool
    ensures { IsTrue result ↔ HasTokens v.now (map tok tokens.now) }
{
    if row_text(v).has(tokens) {
        return true;
    }
    match other_text(v) {
        Some(text) => text.has(tokens),
        None => false,
    }
}
