//! What a text gives numbers for, read without a refusal, since the row that is found is asked for its text.

ghost use Rattle.std.specs.Prelude.{◌≡◌, map};
ghost use Rattle.hm_text16_codes.specs.Operands.{kind_of, read_narrow_operands, narrow_value, narrow_word_value};
ghost use Rattle.hm_tokens.specs.Tokens.{tok};

use hm_text_rows::{braced_bits, operand, value_by};
use hm_tokens::{Token, read_condition, read_register};

/// What an operand is.
#[derive(Clone, Copy)]
pub enum Kind {
    /// There is none.
    Missing,
    Word,
    Number,
}

/// What stands behind a mnemonic, as numbers.
#[derive(Clone, Copy)]
pub struct Operands {
    pub first: u32,
    pub second: u32,
    pub third: u32,
    pub second_kind: Kind,
    pub third_kind: Kind,
    /// The registers behind a brace: bit k is register k.
    pub registers: u32,
}

/// The number that a word stands for: a register's or a condition's.
#[tactic(auto, unfolding(crate::specs::Operands::narrow_word_value))]
fn narrow_word_value(name: &[u8]) -> u32
    ensures { result ≡ narrow_word_value name.now }
{
    if let Some(n) = read_register(name) {
        return n;
    }
    if let Some(n) = read_condition(name) {
        return n;
    }
    match name {
        b"al" => 14,
        _ => 0,
    }
}

/// The number that a token stands for.
fn narrow_value(token: Token<'_>) -> u32
    ensures { result ≡ narrow_value (tok token.entry) }
{
    value_by(narrow_word_value, token)
}

/// What a token is as an operand.
fn kind_of(token: Token<'_>) -> Kind
    ensures { result ≡ kind_of (tok token.entry) }
{
    match token {
        Token::Word(_) => Kind::Word,
        Token::Number(_) => Kind::Number,
        Token::Mark(_) => Kind::Missing,
    }
}

/// What stands behind the mnemonic of tokens, which is their first word.
pub fn read_narrow_operands(tokens: &[Token<'_>]) -> Operands
    ensures { result ≡ read_narrow_operands (map tok tokens.now) }
{
    Operands {
        first: narrow_value(operand(tokens, 1)),
        second: narrow_value(operand(tokens, 2)),
        third: narrow_value(operand(tokens, 3)),
        second_kind: kind_of(operand(tokens, 2)),
        third_kind: kind_of(operand(tokens, 3)),
        registers: braced_bits(tokens),
    }
}
