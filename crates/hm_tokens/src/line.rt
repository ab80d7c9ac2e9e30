//! The tokens of an instruction's text.

ghost use Rattle.std.specs.Prelude.{◌≡◌, ◌≤◌, ◌∷◌, length, map, List, IfSome, Some, option_map};
ghost use Rattle.hm_text_base.specs.Reading.{ReadsSome};
ghost use Rattle.hm_tokens.specs.Lines.{IsLineOf, is_gap};
ghost use Rattle.hm_tokens.specs.Steps.{line_in, tokens_from};
ghost use Rattle.hm_tokens.specs.Tokens.{Tok, tok};

use crate::token::{Token, skip, token_at};
use arrayvec::ArrayVec;

/// The tokens of the text of an instruction; no row has more.
pub type Tokens<'a> = ArrayVec<Token<'a>, 40>;

/// The tokens of a text behind a first one.
fn more_tokens<'a>(first: Token<'a>, text: &'a [u8]) -> Option<Tokens<'a>>
    ensures read { ReadsSome (λ v. map tok v.items) result (option_map (λ ts. tok first.entry ∷ ts) (tokens_from 39 text.entry.now)) }
{
    let mut tokens = ArrayVec::new();
    tokens.push(first);
    let mut rest = text;
    while !rest.is_empty() {
        if tokens.is_full() {
            return None;
        }
        let (token, after) = token_at(rest)?;
        tokens.push(token);
        rest = skip(after);
    }
    Some(tokens)
}

/// Whether a text is empty or begins with a space.
fn is_gap(rest: &[u8]) -> bool
    ensures value { result ≡ is_gap rest.now }
{
    rest.is_empty() || rest[0] == b' '
}

/// The tokens of a text, where they are at most 40 and the first stands apart.
#[tactic(auto, unfolding(crate::specs::Steps::line_in))]
fn line_tokens(text: &[u8]) -> Option<Tokens<'_>>
    ensures read { ReadsSome (λ v. map tok v.items) result (line_in text.now) }
{
    let (first, after) = token_at(skip(text))?;
    if !is_gap(after) {
        return None;
    }
    more_tokens(first, skip(after))
}

/// The tokens of a line: None where its bytes are no tokens, where no space stands behind the first and
/// something else does, and where there are more than 40.
pub fn read_tokens(text: &[u8]) -> Option<Tokens<'_>>
    ensures found { IfSome result (λ v. IsLineOf text.now (map tok v.items)) }
    ensures only { (ts : List Tok) → IsLineOf text.now ts → length ts ≤ 40 → option_map (λ v. map tok v.items) result ≡ Some ts }
{
    line_tokens(text)
}
