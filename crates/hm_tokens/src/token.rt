//! Tokens: the longest that stands at the front of a text.

ghost use Rattle.std.specs.Prelude.{◌≡◌, ◌≤◌, ◌^◌, ◌+◌, length, IfSome, Some};
ghost use Rattle.hm_tokens.specs.declared.token.Class.TheVariants as classes;
ghost use Rattle.hm_tokens.specs.Tokens.{Tok, tok, is_in, run, digit, value, skip, is_hex, is_number, is_the_mark, number_token, word_token, token_at};
ghost use Rattle.hm_text_base.specs.Reading.{ReadsSome};

use crate::marks::Mark;

/// A word, a number, or a mark. All numbers from 2^32 on are one, since they fit nowhere.
#[derive(Clone, Copy)]
pub enum Token<'a> {
    Word(&'a [u8]),
    Number(u64),
    Mark(Mark),
}

/// The bytes of words, of decimal and hexadecimal numbers, and spaces.
#[derive(Clone, Copy)]
pub enum Class {
    Word,
    Decimal,
    Hex,
    Space,
}

/// The number that stands for all that fit nowhere.
const CAP: u64 = 0x1_0000_0000;

/// Whether a byte is of a class.
fn is_in(class: Class, c: u8) -> bool
    ensures value { result ≡ is_in class c }
{
    match class {
        Class::Word => matches!(c, b'a'..=b'z' | b'0'..=b'9' | b'_' | b'.'),
        Class::Decimal => matches!(c, b'0'..=b'9'),
        Class::Hex => matches!(c, b'0'..=b'9' | b'a'..=b'f'),
        Class::Space => c == b' ',
    }
}

/// The longest front of bytes of the class, and the rest.
#[tactic(auto, using(crate::proofs::Runs::run_is))]
fn run(class: Class, text: &[u8]) -> (&[u8], &[u8])
    ensures parts { (result.0.now, result.1.now) ≡ run class text.now }
    ensures lengths { length result.0.now + length result.1.now ≡ length text.now }
{
    let mut at = 0;
    while at < text.len() && is_in(class, text[at]) {
        at += 1;
    }
    text.split_at(at)
}

/// The value of a digit, and of another byte some number.
fn digit(c: u8) -> u8
    ensures value { result ≡ digit c }
    ensures small { result ≤ 255 }
{
    if c >= b'a' {
        c - b'a' + 10
    } else if c >= b'0' {
        c - b'0'
    } else {
        0
    }
}

/// The number that digits write, or 2^32 where it is not below.
#[tactic(auto, using(crate::proofs::Runs::value_more, crate::proofs::Runs::value_all))]
fn value(base: u8, digits: &[u8]) -> u64
    ensures value { result ≡ value base 0 digits.now }
{
    let mut n = 0u64;
    for c in digits {
        n = (n * u64::from(base) + u64::from(digit(*c))).min(CAP);
    }
    n
}

/// The text without the spaces at its front.
pub fn skip(text: &[u8]) -> &[u8]
    ensures rest { result.now ≡ skip text.now }
    ensures shorter { length result.now ≤ length text.now }
{
    let (_spaces, rest) = run(Class::Space, text);
    rest
}

/// Whether a hexadecimal number begins here.
fn is_hex(text: &[u8]) -> bool
    ensures value { result ≡ is_hex text.now }
{
    text.len() > 2 && text[0] == b'0' && text[1] == b'x' && is_in(Class::Hex, text[2])
}

/// The number that the digits at the front write to this base, and the rest.
fn number_at(class: Class, base: u8, text: &[u8]) -> (Token<'_>, &[u8])
    ensures read { Some (tok result.0, result.1.now) ≡ number_token base (run class text.now) }
{
    let (digits, rest) = run(class, text);
    (Token::Number(value(base, digits)), rest)
}

/// The word at the front, and the rest.
fn word_at(text: &[u8]) -> (Token<'_>, &[u8])
    ensures read { Some (tok result.0, result.1.now) ≡ word_token (run classes.Word text.now) }
{
    let (word, rest) = run(Class::Word, text);
    (Token::Word(word), rest)
}

/// The longest token at the front, and the rest.
#[tactic(auto, unfolding(crate::specs::Tokens::token_at))]
pub fn token_at(text: &[u8]) -> Option<(Token<'_>, &[u8])>
    ensures read { ReadsSome (λ x. (tok x.0, x.1.now)) result (token_at text.now) }
{
    if text.is_empty() {
        return None;
    }
    let c = text[0];
    if is_hex(text) {
        return Some(number_at(Class::Hex, 16, &text[2..]));
    }
    if is_in(Class::Decimal, c) {
        return Some(number_at(Class::Decimal, 10, text));
    }
    if is_in(Class::Word, c) {
        return Some(word_at(text));
    }
    match Mark::of(c) {
        Some(mark) => Some((Token::Mark(mark), &text[1..])),
        None => None,
    }
}

/// Whether a token is a number.
pub fn is_number(token: Token<'_>) -> bool
    ensures value { result ≡ is_number (tok token.entry) }
{
    match token {
        Token::Number(_) => true,
        Token::Word(_) | Token::Mark(_) => false,
    }
}

/// Whether a token is this mark.
pub fn is_the_mark(token: Token<'_>, mark: Mark) -> bool
    ensures value { result ≡ is_the_mark mark (tok token.entry) }
{
    match token {
        Token::Mark(which) => which == mark,
        Token::Word(_) | Token::Number(_) => false,
    }
}

impl Default for Token<'_> {
    fn default() -> Self {
        Token::Mark(Mark::Comma)
    }
}
