//! What a text gives numbers for, read without a refusal, since the row that is found is asked for its text.

ghost use Rattle.std.specs.Prelude.{◌≡◌, map};
ghost use Rattle.hm_text32_codes.specs.Operands.{other_wide_word_value, read_wide_operands, second_bang, shift_in, special_in, wide_value, wide_word_value};
ghost use Rattle.hm_tokens.specs.Tokens.{tok};

use hm_text_rows::{
    added, back_in, before, braced_bits, first_of, is_vector, named, operand, size_of, value_by,
};
use hm_tokens::{
    Mark, Token, is_number, is_the_mark, read_condition, read_double, read_register, read_vector,
};

/// What stands behind a mnemonic, as numbers.
#[derive(Clone, Copy)]
pub struct Operands {
    /// Whether there are no operands.
    pub is_bare: bool,
    /// Whether one token alone stands behind the mnemonic.
    pub is_single: bool,
    /// The size of the elements: 0, 1, 2 and 3 are 8, 16, 32 and 64 bits.
    pub size: u32,
    /// Whether the first operand is a vector register.
    pub is_vector: bool,
    /// Whether the second operand is a number.
    pub second_is_number: bool,
    /// Whether the third operand is a number.
    pub third_is_number: bool,
    pub first: u32,
    pub second: u32,
    pub third: u32,
    pub fourth: u32,
    pub fifth: u32,
    /// 0 where an offset is taken away: a minus sign stands behind `#`.
    pub added: u32,
    /// 0 where an offset stands behind the brackets.
    pub before: u32,
    /// 1 where an address is written back.
    pub back: u32,
    /// 1 where `!` stands behind the first operand.
    pub bang: u32,
    /// The registers behind a brace: bit k is register k.
    pub registers: u32,
}

/// The number of a shift; that through the carry is a rotation by 0.
fn read_shift(name: &[u8]) -> Option<u32>
    ensures { result ≡ shift_in name.now }
{
    let shifts = &[(0, "lsl"), (1, "lsr"), (2, "asr"), (3, "ror"), (3, "rrx")];
    named(shifts, name)
}

/// The number of a special register.
fn read_special(name: &[u8]) -> Option<u32>
    ensures { result ≡ special_in name.now }
{
    let registers = &[
        (0, "apsr"),
        (5, "ipsr"),
        (8, "msp"),
        (9, "psp"),
        (16, "primask"),
        (17, "basepri"),
        (20, "control"),
    ];
    named(registers, name)
}

/// The number of zero, and of what is named beside a core register in rows T21.
fn other_wide_word_value(name: &[u8]) -> u32
    ensures { result ≡ other_wide_word_value name.now }
{
    let others = &[
        (15, "zr"),
        (1, "fpscr"),
        (12, "vpr"),
        (13, "p0"),
        (15, "apsr_nzcv"),
    ];
    named(others, name).unwrap_or(0)
}

/// The number that a word stands for.
#[tactic(auto, unfolding(crate::specs::Operands::wide_word_value))]
fn wide_word_value(name: &[u8]) -> u32
    ensures { result ≡ wide_word_value name.now }
{
    if let Some(n) = read_register(name) {
        return n;
    }
    if let Some(n) = read_vector(name) {
        return n;
    }
    if let Some(n) = read_condition(name) {
        return n;
    }
    if let Some(n) = read_double(name) {
        return n;
    }
    if let Some(n) = read_shift(name) {
        return n;
    }
    if let Some(n) = read_special(name) {
        return n;
    }
    other_wide_word_value(name)
}

/// The number that a token stands for.
fn wide_value(token: Token<'_>) -> u32
    ensures { result ≡ wide_value (tok token.entry) }
{
    value_by(wide_word_value, token)
}

/// 1 where `!` stands behind the second token.
fn second_bang(tokens: &[Token<'_>]) -> u32
    ensures { result ≡ second_bang (map tok tokens.now) }
{
    match tokens {
        [] => 0,
        [_] => 0,
        [_mnemonic, _first, rest @ ..] => {
            if is_the_mark(first_of(rest), Mark::Bang) {
                1
            } else {
                0
            }
        }
    }
}

/// What tokens stand for, the first being a mnemonic with this suffix, which begins with the point.
pub fn read_wide_operands(suffix: &[u8], tokens: &[Token<'_>]) -> Operands
    ensures { result ≡ read_wide_operands suffix.now (map tok tokens.now) }
{
    Operands {
        is_bare: tokens.len() == 1,
        is_single: tokens.len() == 2,
        size: size_of(suffix),
        is_vector: is_vector(operand(tokens, 1)),
        second_is_number: is_number(operand(tokens, 2)),
        third_is_number: is_number(operand(tokens, 3)),
        first: wide_value(operand(tokens, 1)),
        second: wide_value(operand(tokens, 2)),
        third: wide_value(operand(tokens, 3)),
        fourth: wide_value(operand(tokens, 4)),
        fifth: wide_value(operand(tokens, 5)),
        added: added(tokens),
        before: before(tokens),
        back: back_in(tokens),
        bang: second_bang(tokens),
        registers: braced_bits(tokens),
    }
}
