//! What a text gives numbers for, read without a refusal, since the row that is found is asked for its text.

ghost use Rattle.std.specs.Prelude.{◌≡◌, ◌≤◌, ℕ, List, bytes_eq, map};
ghost use Rattle.hm_text_rows.specs.Operands.{added, back_in, before, bit_in, bits_of, braced, branch_condition_in, first_of, first_word};
ghost use Rattle.hm_text_rows.specs.Operands.{is_vector, is_vector_name, operand, size_of, token_behind, token_bit, value_by};
ghost use Rattle.hm_tokens.specs.Tokens.{tok};

use hm_tokens::{Mark, Token, is_the_mark, read_condition, read_register, read_vector};

/// Whether a word is this one.
pub fn is(word: &[u8], name: &str) -> bool
    ensures same { result ≡ bytes_eq word.now name.now }
{
    word == name.as_bytes()
}

/// The condition of a branch: what stands behind the `b` of its first word, as in `beq`.
pub fn branch_condition_in(word: &[u8]) -> Option<u32>
    ensures value { result ≡ branch_condition_in word.now }
{
    match word {
        [] => None,
        [first, rest @ ..] => {
            if *first == b'b' {
                read_condition(rest)
            } else {
                None
            }
        }
    }
}

/// Whether a word is the name of a vector register.
#[tactic(auto, unfolding(crate::specs::Operands::is_vector_name))]
fn is_vector_name(name: &[u8]) -> bool
    ensures value { result ≡ is_vector_name name.now }
{
    match read_vector(name) {
        Some(_) => true,
        None => false,
    }
}

/// Whether a token is the name of a vector register.
pub fn is_vector(token: Token<'_>) -> bool
    ensures value { result ≡ is_vector (tok token.entry) }
{
    match token {
        Token::Word(name) => is_vector_name(name),
        Token::Number(_) | Token::Mark(_) => false,
    }
}

/// The number that a token stands for, by that of a word: a number itself, at most 2^32 - 1, and 0 of a mark.
pub fn value_by<F: Fn(&[u8]) -> u32>(of_word: F, token: Token<'_>) -> u32
    requires { F.IsAlwaysCallable of_word }
    ensures value { (value : List ℕ → ℕ) → ((w : _) (n : ℕ) → F.post of_word w n → n ≡ value w.now) → result ≡ value_by value (tok token.entry) }
{
    match token {
        Token::Word(name) => of_word(name),
        Token::Number(n) => n.min(0xffff_ffff) as u32,
        Token::Mark(_) => 0,
    }
}

/// Operand k, counted from 0 and without the marks; a comma where there is none.
pub fn operand<'a>(tokens: &[Token<'a>], k: u32) -> Token<'a>
    ensures value { tok result ≡ operand k (map tok tokens.now) }
{
    match tokens {
        [] => Token::Mark(Mark::Comma),
        [token, rest @ ..] => match *token {
            Token::Mark(_) => operand(rest, k),
            Token::Word(_) | Token::Number(_) => {
                if k == 0 { *token } else { operand(rest, k - 1) }
            }
        },
    }
}

/// The number of the element size that a suffix ends in: 0, 1, 2 and 3 are 8, 16, 32 and 64 bits.
#[tactic(auto, unfolding(crate::specs::Operands::size_of))]
pub fn size_of(suffix: &[u8]) -> u32
    ensures value { result ≡ size_of suffix.now }
{
    if suffix.is_empty() {
        return 0;
    }
    match suffix[suffix.len() - 1] {
        b'6' => 1,
        b'2' => 2,
        b'4' => 3,
        _ => 0,
    }
}

/// The first of tokens, where that is a word, and else none.
pub fn first_word<'a>(tokens: &[Token<'a>]) -> &'a [u8]
    ensures value { result.now ≡ first_word (map tok tokens.now) }
{
    match tokens {
        [Token::Word(name), ..] => name,
        _ => b"",
    }
}

/// The first of tokens; a number where there is none.
pub fn first_of<'a>(tokens: &[Token<'a>]) -> Token<'a>
    ensures value { tok result ≡ first_of (map tok tokens.now) }
{
    match tokens {
        [] => Token::Number(0),
        [token, ..] => *token,
    }
}

/// The token behind the first of these marks; a number where there is none.
pub fn token_behind<'a>(tokens: &[Token<'a>], mark: Mark) -> Token<'a>
    ensures value { tok result ≡ token_behind mark (map tok tokens.now) }
{
    match tokens {
        [] => Token::Number(0),
        [token, rest @ ..] => {
            if is_the_mark(*token, mark) {
                first_of(rest)
            } else {
                token_behind(rest, mark)
            }
        }
    }
}

/// 0 where a minus sign stands behind `#`, and else 1.
pub fn added(tokens: &[Token<'_>]) -> u32
    ensures value { result ≡ added (map tok tokens.now) }
{
    if is_the_mark(token_behind(tokens, Mark::Hash), Mark::Minus) {
        0
    } else {
        1
    }
}

/// 0 where a comma stands behind `]`, and else 1.
pub fn before(tokens: &[Token<'_>]) -> u32
    ensures value { result ≡ before (map tok tokens.now) }
{
    if is_the_mark(token_behind(tokens, Mark::CloseBracket), Mark::Comma) {
        0
    } else {
        1
    }
}

/// 1 where a comma or `!` stands behind `]`, and else 0.
pub fn back_in(tokens: &[Token<'_>]) -> u32
    ensures value { result ≡ back_in (map tok tokens.now) }
{
    let next = token_behind(tokens, Mark::CloseBracket);
    if is_the_mark(next, Mark::Comma) {
        return 1;
    }
    if is_the_mark(next, Mark::Bang) { 1 } else { 0 }
}

/// The bit of a register in a list.
#[tactic(auto, unfolding(crate::specs::Operands::bit_in))]
fn bit_in(name: &[u8]) -> u32
    ensures value { result ≡ bit_in name.now }
    ensures small { result ≤ 0x8000 }
{
    match read_register(name) {
        Some(n) => 1 << n,
        None => 0,
    }
}

/// The bit of a token in a list.
fn token_bit(token: Token<'_>) -> u32
    ensures value { result ≡ token_bit (tok token.entry) }
    ensures small { result ≤ 0x8000 }
{
    match token {
        Token::Word(name) => bit_in(name),
        Token::Number(_) | Token::Mark(_) => 0,
    }
}

/// The bits of all registers that are named: bit k is register k.
#[tactic(auto, unfolding(crate::specs::Operands::bits_of))]
fn bits_of(tokens: &[Token<'_>]) -> u32
    ensures value { result ≡ bits_of (map tok tokens.now) }
    ensures small { result ≤ 0xffff }
{
    match tokens {
        [] => 0,
        [token, rest @ ..] => (token_bit(*token) + bits_of(rest)).min(0xffff),
    }
}

/// The bits of the registers behind the first `{`: bit k is register k.
#[tactic(auto, unfolding(crate::specs::Operands::braced, crate::specs::Operands::bits_of))]
pub fn braced_bits(tokens: &[Token<'_>]) -> u32
    ensures value { result ≡ bits_of (braced (map tok tokens.now)) }
{
    match tokens {
        [] => 0,
        [token, rest @ ..] => {
            if is_the_mark(*token, Mark::OpenBrace) {
                bits_of(rest)
            } else {
                braced_bits(rest)
            }
        }
    }
}
