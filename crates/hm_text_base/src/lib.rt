//! What all formats of text share: cutting at a mark, and numbers as they are read and written. All hexadecimal text is in lower case.
#![tactic(auto)]

ghost use Rattle.std.specs.Prelude.{◌≡◌, ℕ, ◌++◌, ◌<◌, List, IfOk};
ghost use Rattle.std.specs.Fmt.{decimal};
ghost use Rattle.hex.specs.Hex.{encode_lower};
ghost use Rattle.hm_text_base.specs.Texts.{separator, hex_digit, hex2, hex8, binary_digit};

mod numbers;
mod spans;

use hm_base::OutOfMemory;
pub use numbers::{read_hex8, read_number, read_word};
pub use spans::span;
use std::alloc::Global;

/// A digit, of a number below 16.
fn hex_digit(d: u32) -> u8
    requires { d < 16 }
    ensures { result ≡ hex_digit d }
{
    if d < 10 {
        b'0' + d as u8
    } else {
        b'a' + (d - 10) as u8
    }
}

/// Adds a text.
pub fn text(out: &mut Vec<u8>, more: &[u8]) -> Result<(), OutOfMemory>
    ensures { IfOk result (λ _. out.new.items ≡ out.old.items ++ more.now) }
{
    out.extend_from_slice(more)?;
    Ok(())
}

/// Adds the space between two parts of a line.
pub fn separator(out: &mut Vec<u8>) -> Result<(), OutOfMemory>
    ensures { IfOk result (λ _. out.new.items ≡ out.old.items ++ separator) }
{
    text(out, b" ")
}

/// Adds a byte in two hexadecimal digits.
pub fn hex2(out: &mut Vec<u8>, x: u8) -> Result<(), OutOfMemory>
    ensures { IfOk result (λ _. out.new.items ≡ out.old.items ++ hex2 x) }
{
    let x = x as u32;
    text(out, &[hex_digit(x / 16 % 16), hex_digit(x % 16)])
}

/// Adds a word in eight hexadecimal digits.
pub fn hex8(out: &mut Vec<u8>, x: u32) -> Result<(), OutOfMemory>
    ensures { IfOk result (λ _. out.new.items ≡ out.old.items ++ hex8 x) }
{
    text(
        out,
        &[
            hex_digit(x / 0x1000_0000 % 16),
            hex_digit(x / 0x100_0000 % 16),
            hex_digit(x / 0x10_0000 % 16),
            hex_digit(x / 0x1_0000 % 16),
            hex_digit(x / 0x1000 % 16),
            hex_digit(x / 0x100 % 16),
            hex_digit(x / 0x10 % 16),
            hex_digit(x % 16),
        ],
    )
}

/// Adds bytes in two hexadecimal digits each.
pub fn hex_bytes(alloc: Global, out: &mut Vec<u8>, bytes: &[u8]) -> Result<(), OutOfMemory>
    ensures { IfOk result (λ _. out.new.items ≡ out.old.items ++ encode_lower bytes.now) }
{
    let digits = hex::encode(alloc, bytes)?;
    text(out, digits.as_bytes())
}

/// Adds a truth value as the digit 0 or 1.
pub fn binary_digit(out: &mut Vec<u8>, b: bool) -> Result<(), OutOfMemory>
    ensures { IfOk result (λ _. out.new.items ≡ out.old.items ++ binary_digit b) }
{
    text(out, &[if b { b'1' } else { b'0' }])
}

/// Adds a number in decimal digits, with no leading zero.
pub fn decimal(alloc: Global, out: &mut Vec<u8>, n: u64) -> Result<(), OutOfMemory>
    ensures { IfOk result (λ _. out.new.items ≡ out.old.items ++ decimal n) }
{
    let digits = n.to_string(alloc)?;
    text(out, digits.as_bytes())
}
