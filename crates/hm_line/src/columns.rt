//! The columns of operands.

ghost use Rattle.std.specs.Prelude.{◌≡◌, ◌<◌, ◌-◌, ℕ, List, IfSome, Some, if◌then◌else◌};
ghost use Rattle.hm_line.specs.Columns.{IsOperand, is_between, is_inside};
ghost use Rattle.hm_line.specs.Kinds.{kind};
ghost use Rattle.hm_line.specs.Texts.{column};
ghost use Rattle.hm_tokens.specs.Tokens.{skip, tok};

use crate::reading::column;
use crate::tokens::next_token;
use hm_tokens::{Mark, Token, skip};

/// Whether what stands behind a token stands in brackets or braces.
fn is_inside(inside: bool, token: Token<'_>) -> bool
    ensures value { result ≡ is_inside inside (kind (tok token.entry)) }
{
    match token {
        Token::Mark(Mark::OpenBracket) | Token::Mark(Mark::OpenBrace) => true,
        Token::Mark(Mark::CloseBracket) | Token::Mark(Mark::CloseBrace) => false,
        Token::Mark(_) | Token::Word(_) | Token::Number(_) => inside,
    }
}

/// Whether a token is a comma between two operands.
fn is_between(inside: bool, token: Token<'_>) -> bool
    ensures value { result ≡ is_between inside (kind (tok token.entry)) }
{
    match token {
        Token::Mark(Mark::Comma) => !inside,
        Token::Mark(_) | Token::Word(_) | Token::Number(_) => false,
    }
}

/// How many commas are left behind a token.
fn left_behind(left: u32, inside: bool, token: Token<'_>) -> u32
    requires some { 0 < left }
    ensures value { result ≡ (if is_between inside (kind (tok token.entry)) then left - 1 else left) }
{
    if is_between(inside, token) {
        left - 1
    } else {
        left
    }
}

/// The column, from 1, of operand n of a text, counted from 0. None where there are not so many commas.
pub fn operand_column(text: &[u8], n: u32) -> Option<u32>
    ensures found { IfSome result (λ c. (here : List ℕ) × IsOperand text.now n here × (c ≡ column text.now (skip here))) }
    ensures only { (here : List ℕ) → IsOperand text.now n here → result ≡ Some (column text.now (skip here)) }
{
    let (_first_word, behind) = next_token(text)?;
    let mut left = n;
    let mut inside = false;
    let mut rest = behind;
    while left > 0 {
        let (token, after) = next_token(rest)?;
        left = left_behind(left, inside, token);
        inside = is_inside(inside, token);
        rest = after;
    }
    Some(column(text, skip(rest)))
}
