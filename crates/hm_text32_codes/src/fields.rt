//! Codes of rows by the fields that several of them have.

ghost use Rattle.std.specs.Prelude.{◌≡◌, ℕ, ◌<◌, ◌+◌, ◌/◌, ◌%◌, ◌^◌};
ghost use Rattle.hm_isa.specs.Standing.{◌↑◌};
ghost use Rattle.hm_isa.specs.Words.{imm12, imm5};

/// Fields of a row of up to four registers.
pub fn of_three(base: u64, n: u32, a: u32, d: u32, m: u32) -> u64
    requires { base < 2 ^ 62 }
    ensures { result ≡ base + n ↑ 16 + a ↑ 12 + d ↑ 8 + m }
{
    base + (u64::from(n) << 16) + (u64::from(a) << 12) + (u64::from(d) << 8) + u64::from(m)
}

/// A row with a number x of twelve bits behind two registers.
pub fn with_twelve(base: u64, n: u32, d: u32, x: u32) -> u64
    requires { base < 2 ^ 60 }
    ensures fields { result ≡ base + (x / 2048) ↑ 26 + n ↑ 16 + (x / 256 % 8) ↑ 12 + d ↑ 8 + x % 256 }
    ensures number { (i i3 i8 : ℕ) → i < 2 → i3 < 8 → i8 < 256 → x ≡ imm12 i i3 i8 → result ≡ base + i ↑ 26 + n ↑ 16 + i3 ↑ 12 + d ↑ 8 + i8 }
{
    of_three(
        base + (u64::from(x / 2048) << 26),
        n,
        x / 256 % 8,
        d,
        x % 256,
    )
}

/// A row with a number x of five bits behind two registers, and with m at its lowest bits.
pub fn with_five(base: u64, n: u32, d: u32, x: u32, m: u32) -> u64
    requires { base < 2 ^ 61 }
    ensures fields { result ≡ base + (x % 4) ↑ 6 + n ↑ 16 + (x / 4) ↑ 12 + d ↑ 8 + m }
    ensures number { (j l : ℕ) → l < 4 → x ≡ imm5 j l → result ≡ base + n ↑ 16 + j ↑ 12 + d ↑ 8 + l ↑ 6 + m }
{
    of_three(base + (u64::from(x % 4) << 6), n, x / 4, d, m)
}
