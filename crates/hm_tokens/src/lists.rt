//! Registers in braces: a range, as `r0-r3`, stands for each of them.

ghost use Rattle.std.specs.Prelude.{◌≡◌, ◌<◌, ◌≤◌, ◌+◌, ◌++◌, ◌∷◌, [], true, false, length, map, IfNone, IfSome};
ghost use Rattle.hm_tokens.specs.Ranges.{is_inside, is_rising, last_register, normal, range_tokens, register_of, rising, singles};
ghost use Rattle.hm_tokens.specs.Tokens.{tok};

use crate::line::Tokens;
use crate::marks::Mark;
use crate::names::{read_register, register_name};
use crate::token::{Token, is_the_mark};
use arrayvec::ArrayVec;

/// The register that a token names.
fn register_of(token: Token<'_>) -> Option<u32>
    ensures value { result ≡ register_of (tok token.entry) }
    ensures below { IfSome result (λ n. n < 16) }
{
    match token {
        Token::Word(name) => read_register(name),
        Token::Number(_) | Token::Mark(_) => None,
    }
}

/// The register behind a `-`.
fn last_register(tokens: &[Token<'_>]) -> Option<u32>
    ensures value { result ≡ last_register (map tok tokens.now) }
    ensures below { IfSome result (λ n. n < 16) }
{
    match tokens {
        [] => None,
        [_] => None,
        [first, second, ..] => {
            if is_the_mark(*first, Mark::Minus) {
                register_of(*second)
            } else {
                None
            }
        }
    }
}

/// The range that begins with a token: its first register, and how many are behind it.
fn range(token: Token<'_>, rest: &[Token<'_>]) -> Option<(u32, u32)>
    ensures rises { IfSome result (λ x. is_rising (register_of (tok token.entry)) (last_register (map tok rest.now)) ≡ true) }
    ensures tokens { IfSome result (λ x. range_tokens (register_of (tok token.entry)) (last_register (map tok rest.now)) ≡ rising x.0 x.1) }
    ensures below { IfSome result (λ x. x.0 + x.1 < 16) }
    ensures none { IfNone result (is_rising (register_of (tok token.entry)) (last_register (map tok rest.now)) ≡ false) }
{
    let first = register_of(token)?;
    let last = last_register(rest)?;
    if first < last {
        Some((first, last - first))
    } else {
        None
    }
}

/// Whether what stands behind a token stands in braces.
fn is_inside(inside: bool, token: Token<'_>) -> bool
    ensures value { result ≡ is_inside inside (tok token.entry) }
{
    match token {
        Token::Mark(Mark::OpenBrace) => true,
        Token::Mark(Mark::CloseBrace) => false,
        Token::Mark(_) | Token::Word(_) | Token::Number(_) => inside,
    }
}

/// Adds a token, where there is room.
fn push<'a>(out: &mut Tokens<'a>, token: Token<'a>) -> Option<()>
    ensures pushed { IfSome result (λ _. map tok out.new.items ≡ map tok out.old.items ++ tok token.entry ∷ []) }
    ensures longer { IfSome result (λ _. length out.new.items ≡ length out.old.items + 1) }
    ensures full { IfNone result (40 ≤ length out.old.items) }
{
    if out.is_full() {
        return None;
    }
    out.push(token);
    Some(())
}

/// Adds register k and the n behind it, where there is room.
#[tactic(auto, unfolding(crate::specs::Ranges::rising))]
fn push_rising<'a>(out: &mut Tokens<'a>, k: u32, n: u32) -> Option<()>
    requires { k + n < 16 }
    ensures pushed { IfSome result (λ _. map tok out.new.items ≡ map tok out.old.items ++ rising k n) }
    ensures longer { IfSome result (λ _. length out.new.items ≡ length out.old.items + length (rising k n)) }
    ensures full { IfNone result (40 < length out.old.items + length (rising k n)) }
{
    push(out, Token::Word(register_name(k).as_bytes()))?;
    if n == 0 {
        return Some(());
    }
    push(out, Token::Mark(Mark::Comma))?;
    push_rising(out, k + 1, n - 1)
}

/// Adds tokens with single registers in place of ranges, but for the first `over`, where there is room.
#[tactic(auto, unfolding(crate::specs::Ranges::singles))]
fn push_singles<'a>(
    out: &mut Tokens<'a>,
    over: u32,
    inside: bool,
    tokens: &[Token<'a>],
) -> Option<()>
    ensures pushed { IfSome result (λ _. map tok out.new.items ≡ map tok out.old.items ++ singles over inside (map tok tokens.now)) }
    ensures full { IfNone result (40 < length out.old.items + length (singles over inside (map tok tokens.now))) }
{
    match tokens {
        [] => Some(()),
        [token, rest @ ..] => {
            if over > 0 {
                return push_singles(out, over - 1, inside, rest);
            }
            if inside {
                if let Some((first, behind)) = range(*token, rest) {
                    push_rising(out, first, behind)?;
                    return push_singles(out, 2, inside, rest);
                }
            }
            push(out, *token)?;
            push_singles(out, 0, is_inside(inside, *token), rest)
        }
    }
}

/// The tokens of a text with single registers in place of the ranges that stand in braces: `{r0-r3,lr}` is `{r0,r1,r2,r3,lr}`.
/// None where there are more than 40 then.
pub fn single_registers<'a>(tokens: &[Token<'a>]) -> Option<Tokens<'a>>
    ensures found { IfSome result (λ v. map tok v.items ≡ normal (map tok tokens.now)) }
    ensures none { IfNone result (40 < length (normal (map tok tokens.now))) }
{
    let mut out = ArrayVec::new();
    push_singles(&mut out, 0, false, tokens)?;
    Some(out)
}
