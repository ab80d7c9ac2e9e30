//! Names of rows, by their mnemonics.

ghost use Rattle.std.specs.Prelude.{◌≡◌, option_map};
ghost use Rattle.hm_text_rows.specs.Mnemonics.{access_mnemonic, extend_mnemonic};
ghost use Rattle.hm_text_rows.specs.Names.{access_names, extend_names, named};

use crate::operands::is;
use hm_isa::{AccessName, ExtendName};

/// The first of some names, each with its mnemonic, whose mnemonic a word is; None where it is the mnemonic of none.
pub fn named<Name: Copy>(names: &[(Name, &str)], word: &[u8]) -> Option<Name>
    ensures value { result ≡ option_map (λ p. p.0) (named (λ p. p.1.now) names.now word.now) }
{
    for (name, mnemonic) in names {
        if is(word, mnemonic) {
            return Some(*name);
        }
    }
    None
}

/// The name of a row S11 or T9 with this mnemonic, SXTH, SXTB, UXTH or UXTB; None where it is another (DDI0553, "SXTH", "SXTB", "UXTH" and "UXTB").
pub fn extend_name(mnemonic: &[u8]) -> Option<ExtendName>
    ensures value { result ≡ named extend_mnemonic extend_names mnemonic.now }
{
    let names = &[
        (ExtendName::Sxth, "sxth"),
        (ExtendName::Sxtb, "sxtb"),
        (ExtendName::Uxth, "uxth"),
        (ExtendName::Uxtb, "uxtb"),
    ];
    named(names, mnemonic)
}

/// The name of a row S15 or T12 with this mnemonic, STR, STRH, STRB, LDRSB, LDR, LDRH, LDRB or LDRSH; None where it is another
/// (DDI0553, the immediate and register form of each, and the literal form of each load, as "LDR (immediate)", "LDR (register)" and "LDR (literal)").
pub fn access_name(mnemonic: &[u8]) -> Option<AccessName>
    ensures value { result ≡ named access_mnemonic access_names mnemonic.now }
{
    let names = &[
        (AccessName::Str, "str"),
        (AccessName::Strh, "strh"),
        (AccessName::Strb, "strb"),
        (AccessName::Ldrsb, "ldrsb"),
        (AccessName::Ldr, "ldr"),
        (AccessName::Ldrh, "ldrh"),
        (AccessName::Ldrb, "ldrb"),
        (AccessName::Ldrsh, "ldrsh"),
    ];
    named(names, mnemonic)
}
