//! The texts of vector rows: printed, and read.
#![tactic(auto)]

ghost use Rattle.std.specs.Prelude.{◌≡◌, IfSome, Some, map};
ghost use Rattle.hm_isa.specs.declared.Vector.{Vector};
ghost use Rattle.hm_textv_rows.specs.Rows.{HasTokens, IsTextOf, tokens_of};
ghost use Rattle.hm_tokens.specs.Lines.{printed};
ghost use Rattle.hm_tokens.specs.Tokens.{tok};

mod texts;

use arrayvec::ArrayString;
use hm_encv::decodev;
use hm_isa::Vector;
use hm_textv_codes::code_in;
use hm_textv_rows::row_text;
use hm_tokens::{Token, read_tokens};
use texts::is_text_of;

/// The text of a vector row: the first word, a space, and the operands with commas between them, numbers in decimal. `parse_v` gives
/// the row of this text again.
pub fn print_v(v: &Vector) -> ArrayString<96>
    ensures text { result.bytes ≡ printed (tokens_of v.now) }
    ensures read { IsTextOf result.bytes v.now }
{
    row_text(v).print()
}

/// The row that has these tokens: that of the code that they are given, if it has them.
fn row_with(tokens: &[Token<'_>]) -> Option<Vector>
    ensures found { IfSome result (λ v. HasTokens v (map tok tokens.now)) }
    ensures only { (v : Vector) → HasTokens v (map tok tokens.now) → result ≡ Some v }
{
    let given = code_in(tokens)?;
    let code = u32::try_from(given).ok()?;
    let v = decodev(code)?;
    if is_text_of(&v, tokens) {
        return Some(v);
    }
    None
}

/// The vector row that a text is one of: as `print_v` writes it, with spaces anywhere between tokens, and numbers in hexadecimal
/// too; and `vmov qd,qm` for `vorr qd,qm,qm`, `vmlav` for `vmladav`, `vmlava` for `vmladava`. None where no row has the text.
pub fn parse_v(text: &[u8]) -> Option<Vector>
    ensures found { IfSome result (IsTextOf text.now) }
    ensures only { (v : Vector) → IsTextOf text.now v → result ≡ Some v }
{
    let tokens = read_tokens(text)?;
    row_with(tokens.as_slice())
}
