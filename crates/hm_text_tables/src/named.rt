//! What a label names.

ghost use Rattle.std.specs.Prelude.{MatchOption, option_map};
ghost use Rattle.std.specs.FinMap as map;
ghost use Rattle.hm_text_tables.specs.Named.{IsUnknown, IsUnknownGiven, NamesGiven};
ghost use Rattle.hm_text_rows.specs.Labels.{Names};
ghost use Rattle.hm_tokens.specs.Tokens.{tok};

use hm_line::Labels;
use hm_tokens::Token;

/// The address that a label names, if it names one.
fn address_of(label: Token<'_>, labels: &Labels) -> Option<u32>
    ensures named { MatchOption result (IsUnknown (map.get labels.now) (tok label.entry)) (λ a. Names (map.get labels.now) (tok label.entry) a) }
{
    match label {
        Token::Word(name) => labels.get(name),
        Token::Number(n) => {
            if n <= 0xffff_ffff {
                Some(n as u32)
            } else {
                None
            }
        }
        Token::Mark(_) => None,
    }
}

/// The address that a label names, where a row has one; else some address. None exactly where the name is not known or the number is past 0xffffffff.
pub fn address_in(label: Option<Token<'_>>, labels: &Labels) -> Option<u32>
    ensures named { MatchOption result (IsUnknownGiven (map.get labels.now) (option_map tok label.entry))
        (λ a. NamesGiven (map.get labels.now) (option_map tok label.entry) a) }
{
    match label {
        Some(label) => address_of(label, labels),
        None => Some(0),
    }
}
