//! The text of an instruction, as what it is printed from.

ghost use Rattle.std.specs.Prelude.{◌≡◌, ◌<◌, ◌≤◌, ◌+◌, ◌++◌, ◌∷◌, [], ◌↔◌, IsTrue, length, map, decimal, option_map};
ghost use Rattle.arrayvec.specs.ArrayString.{array_string_len};
ghost use Rattle.hm_text_base.specs.Texts.{hex_digit};
ghost use Rattle.hm_tokens.specs.Lines.{address, gap, is_hash, is_word, printed, printed_at, spelled};
ghost use Rattle.hm_tokens.specs.Texts.{behind, is_pieces, first_word_of, part_token, text_tokens};
ghost use Rattle.hm_tokens.specs.Tokens.{spell, tok, word};

use crate::marks::Mark;
use crate::token::Token;
use arrayvec::{ArrayString, ArrayVec};
use itoa::Buffer;

/// The hexadecimal digits, in the order of their values.
const HEX_DIGITS: [&str; 16] = [
    "0", "1", "2", "3", "4", "5", "6", "7", "8", "9", "a", "b", "c", "d", "e", "f",
];

/// A word, a number or a mark of an instruction's text.
#[derive(Clone, Copy)]
pub enum Part {
    Word(&'static str),
    Number(u32),
    Mark(Mark),
}

impl Default for Part {
    fn default() -> Self {
        Part::Mark(Mark::Comma)
    }
}

/// The text of an instruction: its first word in three pieces, and its operands with the marks between them.
#[derive(Drop)]
pub struct InstrText {
    /// What the manual calls the mnemonic, without condition, size and `.w`.
    pub mnemonic: &'static str,
    /// The letters of a block, or none.
    pub letters: &'static str,
    /// What stands behind the point, with it, or nothing.
    pub suffix: &'static str,
    pub operands: ArrayVec<Part, 39>,
}

/// What stands in a word behind a piece at its front; None where another front stands there.
fn behind<'a>(word: &'a [u8], piece: &str) -> Option<&'a [u8]>
    ensures rest { option_map (λ rest. rest.now) result ≡ behind piece.now word.now }
{
    word.strip_prefix(piece.as_bytes())
}

/// Whether a token is this part.
fn is_part(token: Token<'_>, part: Part) -> bool
    ensures same { IsTrue result ↔ (tok token.entry ≡ part_token part) }
{
    match (token, part) {
        (Token::Word(x), Part::Word(y)) => x == y.as_bytes(),
        (Token::Number(x), Part::Number(y)) => x == u64::from(y),
        (Token::Mark(x), Part::Mark(y)) => x == y,
        _ => false,
    }
}

/// Whether tokens are these parts.
fn are_parts(tokens: &[Token<'_>], parts: &[Part]) -> bool
    ensures same { IsTrue result ↔ (map tok tokens.now ≡ map part_token parts.now) }
{
    match tokens {
        [] => parts.is_empty(),
        [token, tokens @ ..] => match parts {
            [part, parts @ ..] => is_part(*token, *part) && are_parts(tokens, parts),
            [] => false,
        },
    }
}

/// Adds a number in decimal.
fn push_number(out: &mut ArrayString<96>, n: u32)
    requires room { array_string_len out.old + length (decimal n) ≤ 96 }
    ensures bytes { out.new.bytes ≡ out.old.bytes ++ decimal n }
{
    let mut buffer = Buffer::new();
    out.push_str(buffer.format(n));
}

/// Adds a part.
fn push_part(out: &mut ArrayString<96>, part: Part)
    requires room { array_string_len out.old + length (spell (part_token part)) ≤ 96 }
    ensures bytes { out.new.bytes ≡ out.old.bytes ++ spell (part_token part) }
{
    match part {
        Part::Word(word) => out.push_str(word),
        Part::Number(n) => push_number(out, n),
        Part::Mark(mark) => out.push_str(mark.text()),
    }
}

/// Whether a part is a word.
fn is_word(part: Part) -> bool
    ensures value { result ≡ is_word (part_token part) }
{
    match part {
        Part::Word(_) => true,
        Part::Number(_) | Part::Mark(_) => false,
    }
}

/// Whether a part is `#`.
fn is_hash(part: Part) -> bool
    ensures value { result ≡ is_hash (part_token part) }
{
    match part {
        Part::Mark(Mark::Hash) => true,
        Part::Mark(_) | Part::Word(_) | Part::Number(_) => false,
    }
}

/// What stands before a part: between a word and `#` a space.
fn gap(after_word: bool, part: Part) -> &'static str
    ensures text { result.now ≡ gap after_word (part_token part) }
{
    if after_word && is_hash(part) { " " } else { "" }
}

/// Adds what stands before a part.
fn push_gap(out: &mut ArrayString<96>, after_word: bool, part: Part)
    requires room { array_string_len out.old + length (gap after_word (part_token part)) ≤ 96 }
    ensures bytes { out.new.bytes ≡ out.old.bytes ++ gap after_word (part_token part) }
{
    out.push_str(gap(after_word, part));
}

/// Adds parts one behind another.
fn push_parts(out: &mut ArrayString<96>, parts: &[Part])
    requires room { array_string_len out.old + length (spelled (map part_token parts.now)) ≤ 96 }
    ensures bytes { out.new.bytes ≡ out.old.bytes ++ spelled (map part_token parts.now) }
{
    let mut after_word = false;
    for part in parts {
        push_gap(out, after_word, *part);
        push_part(out, *part);
        after_word = is_word(*part);
    }
}

/// Adds a space.
fn push_space(out: &mut ArrayString<96>)
    requires room { array_string_len out.old + 1 ≤ 96 }
    ensures bytes { out.new.bytes ≡ out.old.bytes ++ 32 ∷ [] }
    ensures len { array_string_len out.new ≡ array_string_len out.old + 1 }
{
    let space = " ";
    out.push_str(space);
}

/// A hexadecimal digit, of a number below 16.
fn hex_digit(d: u32) -> &'static str
    requires { d < 16 }
    ensures text { result.now ≡ hex_digit d ∷ [] }
{
    HEX_DIGITS[d as usize]
}

/// Adds four hexadecimal digits.
fn push_digits(out: &mut ArrayString<96>, a: u32, b: u32, c: u32, d: u32)
    requires room { array_string_len out.old + 4 ≤ 96 }
    requires below { (a < 16) × (b < 16) × (c < 16) × (d < 16) }
    ensures bytes { out.new.bytes ≡ out.old.bytes ++ hex_digit a ∷ hex_digit b ∷ hex_digit c ∷ hex_digit d ∷ [] }
    ensures len { array_string_len out.new ≡ array_string_len out.old + 4 }
{
    out.push_str(hex_digit(a));
    out.push_str(hex_digit(b));
    out.push_str(hex_digit(c));
    out.push_str(hex_digit(d));
}

/// Adds an address: `0x` and eight digits.
fn push_address(out: &mut ArrayString<96>, a: u32)
    requires room { array_string_len out.old + 10 ≤ 96 }
    ensures bytes { out.new.bytes ≡ out.old.bytes ++ address a }
{
    out.push_str("0x");
    push_digits(
        out,
        a / 0x1000_0000 % 16,
        a / 0x100_0000 % 16,
        a / 0x10_0000 % 16,
        a / 0x1_0000 % 16,
    );
    push_digits(out, a / 0x1000 % 16, a / 0x100 % 16, a / 0x10 % 16, a % 16);
}

impl InstrText {
    /// Whether a word is its first.
    fn is_first_word(&self, word: &[u8]) -> bool
        ensures value { result ≡ is_pieces self.now.mnemonic.now self.now.letters.now self.now.suffix.now word.now }
    {
        match behind(word, self.mnemonic) {
            Some(rest) => match behind(rest, self.letters) {
                Some(rest) => rest == self.suffix.as_bytes(),
                None => false,
            },
            None => false,
        }
    }

    /// Whether a token is its first word.
    fn is_first(&self, token: Token<'_>) -> bool
        ensures same { IsTrue result ↔ (tok token.entry ≡ word (first_word_of self.now)) }
    {
        match token {
            Token::Word(name) => self.is_first_word(name),
            Token::Number(_) | Token::Mark(_) => false,
        }
    }

    /// Whether these tokens are its.
    pub fn has(&self, tokens: &[Token<'_>]) -> bool
        ensures same { IsTrue result ↔ (map tok tokens.now ≡ text_tokens self.now) }
    {
        match tokens {
            [first, operands @ ..] => {
                self.is_first(*first) && are_parts(operands, self.operands.as_slice())
            }
            [] => false,
        }
    }

    /// What it is printed as: its first word, and behind a space its operands.
    pub fn print(&self) -> ArrayString<96>
        requires { length (printed (text_tokens self.now)) ≤ 96 }
        ensures bytes { result.bytes ≡ printed (text_tokens self.now) }
    {
        let mut out = ArrayString::new();
        out.push_str(self.mnemonic);
        out.push_str(self.letters);
        out.push_str(self.suffix);
        if self.operands.is_empty() {
            return out;
        }
        out.push_str(" ");
        push_parts(&mut out, self.operands.as_slice());
        out
    }

    /// What it is printed as with an address for its last operand, in hexadecimal: behind a space where it has no other.
    #[tactic(auto, using(crate::proofs::Spaces::alone_at, crate::proofs::Spaces::many_at, crate::proofs::Spaces::alone_room, crate::proofs::Spaces::many_room))]
    pub fn print_at(&self, address: u32) -> ArrayString<96>
        requires { length (printed_at (text_tokens self.now) address) ≤ 96 }
        ensures bytes { result.bytes ≡ printed_at (text_tokens self.now) address }
    {
        let mut out = self.print();
        if self.operands.is_empty() {
            push_space(&mut out);
            push_address(&mut out, address);
            return out;
        }
        push_address(&mut out, address);
        out
    }
}
