//! The first tokens of a text.

ghost use Rattle.std.specs.Prelude.{◌≡◌, ◌<◌, ℕ, List, [], ◌∷◌, length, IfSome, IsSomeAnd};
ghost use Rattle.hm_line.specs.Fronts.{AreFront, behind_mark, word_in_front};
ghost use Rattle.hm_text_base.specs.Reading.{ReadsSome};
ghost use Rattle.hm_tokens.specs.Marks.{mark_byte};
ghost use Rattle.hm_tokens.specs.Tokens.{mark, number, skip, tok, token_at, word};

use hm_tokens::{Mark, Token, skip, token_at};

/// The first token of a text, and what stands behind it.
pub fn next_token(text: &[u8]) -> Option<(Token<'_>, &[u8])>
    ensures read { ReadsSome (λ x. (tok x.0, x.1.now)) result (token_at (skip text.now)) }
    ensures shorter { IfSome result (λ x. length x.1.now < length text.now) }
{
    token_at(skip(text))
}

/// A word at the front of a text, and what stands behind it.
pub fn word_in_front(text: &[u8]) -> Option<(&[u8], &[u8])>
    ensures read { ReadsSome (λ x. (x.0.now, x.1.now)) result (word_in_front text.now) }
    ensures found { IfSome result (λ x. AreFront text.now (word x.0.now ∷ []) x.1.now) }
    ensures only { (w rest : List ℕ) → AreFront text.now (word w ∷ []) rest → IsSomeAnd result (λ x. (x.0.now ≡ w) × (x.1.now ≡ rest)) }
    ensures shorter { IfSome result (λ x. length x.1.now < length text.now) }
{
    let (token, rest) = next_token(text)?;
    match token {
        Token::Word(name) => Some((name, rest)),
        Token::Number(_) | Token::Mark(_) => None,
    }
}

/// A number at the front of a text, and what stands behind it.
pub fn number_at(text: &[u8]) -> Option<(u64, &[u8])>
    ensures found { IfSome result (λ x. AreFront text.now (number x.0 ∷ []) x.1.now) }
    ensures only { (n : ℕ) (rest : List ℕ) → AreFront text.now (number n ∷ []) rest → IsSomeAnd result (λ x. (x.0 ≡ n) × (x.1.now ≡ rest)) }
    ensures shorter { IfSome result (λ x. length x.1.now < length text.now) }
{
    let (token, rest) = next_token(text)?;
    match token {
        Token::Number(n) => Some((n, rest)),
        Token::Word(_) | Token::Mark(_) => None,
    }
}

/// What stands behind a mark at the front of a text.
pub fn behind_mark(wanted: Mark, text: &[u8]) -> Option<&[u8]>
    ensures read { ReadsSome (λ x. x.now) result (behind_mark wanted text.now) }
    ensures found { IfSome result (λ rest. AreFront text.now (mark (mark_byte wanted) ∷ []) rest.now) }
    ensures only { (rest : List ℕ) → AreFront text.now (mark (mark_byte wanted) ∷ []) rest → IsSomeAnd result (λ x. x.now ≡ rest) }
    ensures shorter { IfSome result (λ rest. length rest.now < length text.now) }
{
    let (token, rest) = next_token(text)?;
    match token {
        Token::Mark(found) => { if found == wanted { Some(rest) } else { None } }
        Token::Word(_) | Token::Number(_) => None,
    }
}
