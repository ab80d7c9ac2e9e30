//! Labels of rows, and what they name.

ghost use Rattle.std.specs.Prelude.{◌≡◌, ◌<◌, ◌^◌, ◌↔◌, ◌++◌, ◌∷◌, [], IsTrue, IfNone, IfSome, map};
ghost use Rattle.hm_text_rows.specs.Labels.{IsLabel, behind, distance};
ghost use Rattle.hm_tokens.specs.Tokens.{tok};

use hm_tokens::{Token, is_label_name};

/// Whether a token may stand where a row has a label.
pub fn is_label(token: Token<'_>) -> bool
    ensures is { IsTrue result ↔ IsLabel (tok token.entry) }
{
    match token {
        Token::Word(name) => is_label_name(name),
        Token::Number(n) => n <= 0xffff_ffff,
        Token::Mark(_) => false,
    }
}

/// The tokens before the last, and the last.
pub fn split_last<'a, 'b>(tokens: &'b [Token<'a>]) -> Option<(&'b [Token<'a>], Token<'a>)>
    ensures some { IfSome result (λ s. map tok tokens.now ≡ map tok s.0.now ++ tok s.1 ∷ []) }
    ensures none { IfNone result (map tok tokens.now ≡ []) }
{
    match tokens {
        [front @ .., last] => Some((front, *last)),
        [] => None,
    }
}

/// The address that is so far behind the address plus 4.
pub fn behind(pc: u32, n: u64) -> u32
    requires small { n < 2 ^ 33 }
    ensures value { result ≡ behind pc n }
{
    ((u64::from(pc) + 4 + n) % 0x1_0000_0000) as u32
}

/// How far the address `a` is behind another, modulo 2^32.
#[tactic(auto, unfolding(crate::specs::Labels::distance))]
pub fn distance(from: u64, a: u32) -> u64
    requires near { from < 2 ^ 33 }
    ensures value { result ≡ distance from a }
    ensures small { result < 2 ^ 32 }
{
    (u64::from(a) + 0x2_0000_0000 - from) % 0x1_0000_0000
}
