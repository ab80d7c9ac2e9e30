//! Reading numbers.

ghost use Rattle.std.specs.Prelude.{◌≡◌, ◌<◌, ◌≤◌, ◌^◌, IfSome};
ghost use Rattle.hm_text_base.specs.Numbers.{digit_in, digits_up_to, hex8_in, number_in, word_in};

/// The number of a hexadecimal digit in lower case.
fn read_digit(c: u8) -> Option<u8>
    ensures value { result ≡ digit_in c }
    ensures below { IfSome result (λ d. d < 16) }
{
    match c {
        b'0'..=b'9' => Some(c - b'0'),
        b'a'..=b'f' => Some(c - b'a' + 10),
        _ => None,
    }
}

/// The word that eight hexadecimal digits give.
#[tactic(auto, using(crate::proofs::NumberSteps::hex_more, crate::proofs::NumberSteps::hex_all))]
pub fn read_hex8(text: &[u8]) -> Option<u32>
    ensures value { result ≡ hex8_in text.now }
{
    if text.len() != 8 {
        return None;
    }
    let mut n = 0;
    for c in text {
        let digit = read_digit(*c)?;
        n = n * 16 + u32::from(digit);
    }
    Some(n)
}

/// The number that decimal digits give, at most `most` and at most ten of them, with no leading zero.
#[tactic(auto, using(crate::proofs::NumberSteps::digits_more, crate::proofs::NumberSteps::digits_all))]
fn read_digits(most: usize, text: &[u8]) -> Option<u64>
    requires { most ≤ 10 }
    ensures value { result ≡ digits_up_to most text.now }
    ensures below { IfSome result (λ n. n < 10 ^ most) }
{
    if text.is_empty() || text.len() > most || (text.len() > 1 && text[0] == b'0') {
        return None;
    }
    let mut n = 0;
    for c in text {
        if !c.is_ascii_digit() {
            return None;
        }
        n = n * 10 + u64::from(*c - b'0');
    }
    Some(n)
}

/// The number that one to eight decimal digits give, with no leading zero.
pub fn read_number(text: &[u8]) -> Option<u32>
    ensures value { result ≡ number_in text.now }
{
    let n = read_digits(8, text)?;
    Some(n as u32)
}

/// The number below 2^32 that decimal digits give, with no leading zero.
pub fn read_word(text: &[u8]) -> Option<u32>
    ensures value { result ≡ word_in text.now }
{
    let n = read_digits(10, text)?;
    u32::try_from(n).ok()
}
