//! Words: parts of a line that one space separates.

ghost use Rattle.std.specs.Prelude.{◌≡◌, ◌<◌, ◌≤◌, ◌^◌, ◌∷◌, length};
ghost use Rattle.std.specs.Char.{is_ascii_alphanumeric, is_ascii_digit};
ghost use Rattle.std.specs.List.{list_all};
ghost use Rattle.hm_kernel_text.specs.Words.{op_in, is_name, is_numeral, number_below, words_behind, words_of};

use hm_kernel_lang::text::Op;
use hm_text_base::{read_word, span};

/// The first word of a text, and the text from the first space on.
pub fn first_word(text: &[u8]) -> (&[u8], &[u8])
    ensures words { words_of text.now ≡ result.0.now ∷ words_behind result.1.now }
{
    span(b' ', text)
}

/// The first word behind the space with which a text begins, and the text from the next space on.
pub fn next_word(text: &[u8]) -> (&[u8], &[u8])
    requires some { 0 < length text.now }
    ensures words { words_behind text.now ≡ result.0.now ∷ words_behind result.1.now }
    ensures shorter { length result.1.now < length text.now }
{
    span(b' ', &text[1..])
}

/// The operation that a word is.
#[tactic(auto, unfolding(crate::specs::Words::op_in))]
pub fn read_op(word: &[u8]) -> Option<Op>
    ensures value { result ≡ op_in word.now }
{
    if word == b"add".as_slice() {
        return Some(Op::Add);
    }
    if word == b"sub".as_slice() {
        return Some(Op::Sub);
    }
    if word == b"mul".as_slice() {
        return Some(Op::Mul);
    }
    if word == b"min".as_slice() {
        return Some(Op::Min);
    }
    if word == b"max".as_slice() {
        return Some(Op::Max);
    }
    if word == b"and".as_slice() {
        return Some(Op::And);
    }
    if word == b"or".as_slice() {
        return Some(Op::Or);
    }
    if word == b"xor".as_slice() {
        return Some(Op::Xor);
    }
    None
}

/// Whether a word has letters of either case and digits alone.
fn is_alphanumeric(word: &[u8]) -> bool
    ensures value { result ≡ list_all is_ascii_alphanumeric word.now }
{
    word.iter().all(|c| c.is_ascii_alphanumeric())
}

/// Whether a word has digits alone.
fn is_digits(word: &[u8]) -> bool
    ensures value { result ≡ list_all is_ascii_digit word.now }
{
    word.iter().all(|c| c.is_ascii_digit())
}

/// Whether a word is a name: a lower-case letter, then letters and digits, and no operation's word.
#[tactic(auto, unfolding(crate::specs::Words::is_name))]
pub fn is_name(word: &[u8]) -> bool
    ensures value { result ≡ is_name word.now }
{
    if word.is_empty() || !word[0].is_ascii_lowercase() {
        return false;
    }
    if !is_alphanumeric(word) {
        return false;
    }
    read_op(word).is_none()
}

/// Whether a word is a number of any size: decimal digits with no leading zero.
#[tactic(auto, unfolding(crate::specs::Words::is_numeral))]
pub fn is_numeral(word: &[u8]) -> bool
    ensures value { result ≡ is_numeral word.now }
{
    if word.is_empty() || !is_digits(word) {
        return false;
    }
    if word.len() == 1 {
        return true;
    }
    word[0] != b'0'
}

/// The number of a numeral, where it is below a limit of at most 2^32.
pub fn number_below(limit: u64, word: &[u8]) -> Option<u32>
    ensures value { result ≡ number_below limit word.now }
{
    let n = read_word(word)?;
    if u64::from(n) < limit { Some(n) } else { None }
}
