//! The constants of rows T1.

ghost use Rattle.std.specs.Prelude.{◌≡◌, ◌≤◌};
ghost use Rattle.hm_text32_codes.specs.Constants.{constant_field, rotated_field, shift_of};

/// How far a byte is shifted left that has its highest bit, by at most n.
fn shift_of(n: u32, c: u32) -> u32
    ensures value { result ≡ shift_of n c }
    ensures most { result ≤ n }
{
    if n == 0 {
        return 0;
    }
    if c < 256 {
        return 0;
    }
    1 + shift_of(n - 1, c / 2)
}

/// The field of a byte that is shifted left by k.
fn rotated_field(c: u32, k: u32) -> u32
    requires { k ≤ 24 }
    ensures { result ≡ rotated_field c k }
{
    (32 - k) * 128 + (c >> k) % 128
}

/// The twelve bits that stand for a constant: a byte at one, two or four places, or one that is rotated.
#[tactic(auto, unfolding(crate::specs::Constants::constant_field))]
pub fn constant_field(c: u32) -> u32
    ensures { result ≡ constant_field c }
{
    if c < 256 {
        return c;
    }
    if c == c % 256 * 0x0001_0001 {
        return 0x100 + c % 256;
    }
    if c == c / 256 % 256 * 0x0100_0100 {
        return 0x200 + c / 256 % 256;
    }
    if c == c % 256 * 0x0101_0101 {
        return 0x300 + c % 256;
    }
    rotated_field(c, shift_of(24, c))
}
