//! The mnemonics of names that rows of one halfword and of two share: of loads, stores and extensions; the sizes of elements.

ghost use Rattle.std.specs.Prelude.{◌≡◌, ◌<◌};
ghost use Rattle.hm_text_rows.specs.Mnemonics.{access_mnemonic, element_suffix, extend_mnemonic};

use hm_isa::{AccessName, ExtendName};

/// Of rows S11 and T9.
pub fn extend_mnemonic(name: ExtendName) -> &'static str
    ensures { result.now ≡ extend_mnemonic name }
{
    match name {
        ExtendName::Sxth => "sxth",
        ExtendName::Sxtb => "sxtb",
        ExtendName::Uxth => "uxth",
        ExtendName::Uxtb => "uxtb",
    }
}

/// Of rows S15 and T12.
pub fn access_mnemonic(name: AccessName) -> &'static str
    ensures { result.now ≡ access_mnemonic name }
{
    match name {
        AccessName::Str => "str",
        AccessName::Strh => "strh",
        AccessName::Strb => "strb",
        AccessName::Ldrsb => "ldrsb",
        AccessName::Ldr => "ldr",
        AccessName::Ldrh => "ldrh",
        AccessName::Ldrb => "ldrb",
        AccessName::Ldrsh => "ldrsh",
    }
}

/// The suffix of elements of any kind, by the number of their size: 0, 1, 2 and 3 are 8, 16, 32 and 64 bits.
pub fn element_suffix(z: u32) -> &'static str
    requires { z < 4 }
    ensures { result.now ≡ element_suffix z }
{
    match z {
        0 => ".8",
        1 => ".16",
        2 => ".32",
        _ => ".64",
    }
}
