//! What a text gives numbers for, read without a refusal, since the row that is found is asked for its text.

ghost use Rattle.std.specs.Prelude.{◌≡◌, map};
ghost use Rattle.hm_textv_codes.specs.Operands.{compare_condition_in, kind_of, other_vector_word_value, read_vector_operands, sign_of};
ghost use Rattle.hm_textv_codes.specs.Operands.{vector_value, vector_word_value};
ghost use Rattle.hm_tokens.specs.Tokens.{tok};

use hm_text_rows::{
    added, back_in, before, is_vector, named, operand, size_of, token_behind, value_by,
};
use hm_tokens::{Mark, Token, read_register, read_vector};

/// What an operand is.
#[derive(Clone, Copy)]
pub enum Kind {
    /// There is none.
    Missing,
    /// A word that names no vector register.
    Word,
    Number,
    /// A vector register.
    Vector,
}

/// What stands behind a mnemonic, as numbers.
#[derive(Clone, Copy)]
pub struct Operands {
    /// Whether the first word has no point.
    pub is_bare: bool,
    /// 1 where the elements are unsigned.
    pub sign: u32,
    /// The size of the elements: 0, 1, 2 and 3 are 8, 16, 32 and 64 bits.
    pub size: u32,
    pub third_kind: Kind,
    pub first: u32,
    pub second: u32,
    pub third: u32,
    pub fourth: u32,
    pub fifth: u32,
    /// 0 where an offset is taken away: a minus sign stands behind `#`.
    pub added: u32,
    /// 0 where an offset stands behind the brackets.
    pub before: u32,
    /// 1 where an address is written back.
    pub back: u32,
    /// What stands behind `[`; a number where there is no address.
    pub base_kind: Kind,
}

/// The number of the condition of a row V20 that a word names, 0 to 7 for eq, ne, cs, hi, ge, lt, gt and le; None where it names none.
fn read_compare_condition(name: &[u8]) -> Option<u32>
    ensures { result ≡ compare_condition_in name.now }
{
    let conditions = &[
        (0, "eq"),
        (1, "ne"),
        (2, "cs"),
        (3, "hi"),
        (4, "ge"),
        (5, "lt"),
        (6, "gt"),
        (7, "le"),
    ];
    named(conditions, name)
}

/// The number of zero, of a shift that brings in ones, and of an offset that is scaled.
fn other_vector_word_value(name: &[u8]) -> u32
    ensures { result ≡ other_vector_word_value name.now }
{
    match name {
        b"zr" => 15,
        b"msl" => 1,
        b"uxtw" => 1,
        _ => 0,
    }
}

/// The number that a word stands for: of a vector, else of a core register, else of a condition, else of another word.
#[tactic(auto, unfolding(crate::specs::Operands::vector_word_value))]
fn vector_word_value(name: &[u8]) -> u32
    ensures { result ≡ vector_word_value name.now }
{
    if let Some(n) = read_vector(name) {
        return n;
    }
    if let Some(n) = read_register(name) {
        return n;
    }
    if let Some(n) = read_compare_condition(name) {
        return n;
    }
    other_vector_word_value(name)
}

/// The number that a token stands for.
fn vector_value(token: Token<'_>) -> u32
    ensures { result ≡ vector_value (tok token.entry) }
{
    value_by(vector_word_value, token)
}

/// What a token is as an operand.
fn kind_of(token: Token<'_>) -> Kind
    ensures { result ≡ kind_of (tok token.entry) }
{
    if is_vector(token) {
        return Kind::Vector;
    }
    match token {
        Token::Word(_) => Kind::Word,
        Token::Number(_) => Kind::Number,
        Token::Mark(_) => Kind::Missing,
    }
}

/// 1 where the letter behind the point is u.
#[tactic(auto, unfolding(crate::specs::Operands::sign_of))]
fn sign_of(suffix: &[u8]) -> u32
    ensures { result ≡ sign_of suffix.now }
{
    if suffix.len() > 1 && suffix[1] == b'u' {
        1
    } else {
        0
    }
}

/// What tokens stand for, the first being a mnemonic with this suffix, which begins with the point.
pub fn read_vector_operands(suffix: &[u8], tokens: &[Token<'_>]) -> Operands
    ensures { result ≡ read_vector_operands suffix.now (map tok tokens.now) }
{
    Operands {
        is_bare: suffix.is_empty(),
        sign: sign_of(suffix),
        size: size_of(suffix),
        third_kind: kind_of(operand(tokens, 3)),
        first: vector_value(operand(tokens, 1)),
        second: vector_value(operand(tokens, 2)),
        third: vector_value(operand(tokens, 3)),
        fourth: vector_value(operand(tokens, 4)),
        fifth: vector_value(operand(tokens, 5)),
        added: added(tokens),
        before: before(tokens),
        back: back_in(tokens),
        base_kind: kind_of(token_behind(tokens, Mark::OpenBracket)),
    }
}
