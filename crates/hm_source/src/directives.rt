//! Directives: what a text asks for whose first word begins with `.`.

ghost use Rattle.std.specs.Prelude.{◌≡◌, ◌<◌, ◌^◌, ℕ, List, [], ◌∷◌, length, IfSome, IfNone, IsSomeAnd};
ghost use Rattle.hm_source.specs.Directives.{Directed, IsDirective, list_name, multiple_of};
ghost use Rattle.hm_source.specs.Shown.{ShowsDirected};
ghost use Rattle.hm_line.specs.Fronts.{AreFront};
ghost use Rattle.hm_tokens.specs.Lines.{AreTokensOf};
ghost use Rattle.hm_tokens.specs.Tokens.{number, word};

use crate::values::{DatumSize, Values, read_values};
use hm_line::{number_at, word_in_front};
use hm_tokens::skip;

/// What `.align` fills up to.
#[derive(Clone, Copy)]
pub enum Multiple {
    Two,
    Four,
    Eight,
}

impl Multiple {
    /// The number of which it is a multiple.
    pub fn bytes(self) -> u32
        ensures value { result ≡ multiple_of self }
        ensures some { 0 < result }
    {
        match self {
            Multiple::Two => 2,
            Multiple::Four => 4,
            Multiple::Eight => 8,
        }
    }
}

/// What a directive asks for.
#[derive(Clone, Copy)]
pub enum Directive<'a> {
    /// That bytes go on at an address.
    Org(u32),
    /// Zero bytes up to a multiple.
    Align(Multiple),
    /// So many zero bytes.
    Space(u32),
    /// Values.
    Values(Values<'a>),
}

/// The number that a text consists of, below 2^32.
fn number_alone(text: &[u8]) -> Option<u32>
    ensures found { IfSome result (λ n. AreTokensOf text.now (number n ∷ [])) }
    ensures only { (n : ℕ) → AreTokensOf text.now (number n ∷ []) → n < 2 ^ 32 → IsSomeAnd result (λ m. m ≡ n) }
{
    let (number, rest) = number_at(text)?;
    if number > 0xffff_ffff || !skip(rest).is_empty() {
        return None;
    }
    Some(number as u32)
}

/// The multiple that a text names.
fn multiple_alone(text: &[u8]) -> Option<Multiple>
    ensures found { IfSome result (λ m. AreTokensOf text.now (number (multiple_of m) ∷ [])) }
    ensures only { (m : Multiple) → AreTokensOf text.now (number (multiple_of m) ∷ []) → IsSomeAnd result (λ n. n ≡ m) }
{
    match number_alone(text)? {
        2 => Some(Multiple::Two),
        4 => Some(Multiple::Four),
        8 => Some(Multiple::Eight),
        _ => None,
    }
}

/// The size of the values of a list, by the name of its directive.
fn list_size(name: &[u8]) -> Option<DatumSize>
    ensures found { IfSome result (λ s. name.now ≡ list_name s) }
    ensures only { (s : DatumSize) → name.now ≡ list_name s → IsSomeAnd result (λ t. t ≡ s) }
{
    if name == b".word".as_slice() {
        return Some(DatumSize::Word);
    }
    if name == b".half".as_slice() {
        return Some(DatumSize::Half);
    }
    if name == b".byte".as_slice() {
        return Some(DatumSize::Byte);
    }
    None
}

/// What a directive asks for, by its name and what stands behind that.
fn asked_of<'a>(name: &'a [u8], behind: &'a [u8]) -> Option<Directive<'a>>
    requires small { length behind.now < 2 ^ 31 }
    ensures found { (text : List ℕ) → AreFront text (word name.entry.now ∷ []) behind.entry.now
        → IfSome result (λ d. (asked : Directed) × IsDirective text asked × ShowsDirected text d asked) }
    ensures none { (text : List ℕ) → AreFront text (word name.entry.now ∷ []) behind.entry.now
        → IfNone result ((asked : Directed) → IsDirective text asked → ⊥) }
    ensures only { (text : List ℕ) (asked : Directed) → AreFront text (word name.entry.now ∷ []) behind.entry.now → IsDirective text asked
        → IsSomeAnd result (λ d. ShowsDirected text d asked) }
{
    if let Some(size) = list_size(name) {
        let values = read_values(size, behind)?;
        return Some(Directive::Values(values));
    }
    if name == b".org".as_slice() {
        return Some(Directive::Org(number_alone(behind)?));
    }
    if name == b".align".as_slice() {
        return Some(Directive::Align(multiple_alone(behind)?));
    }
    if name == b".space".as_slice() {
        return Some(Directive::Space(number_alone(behind)?));
    }
    None
}

/// What a text asks for, if it is that of a directive.
pub fn read_directive(text: &[u8]) -> Option<Directive<'_>>
    requires small { length text.now < 2 ^ 31 }
    ensures found { IfSome result (λ d. (asked : Directed) × IsDirective text.now asked × ShowsDirected text.now d asked) }
    ensures only { (asked : Directed) → IsDirective text.now asked → IsSomeAnd result (λ d. ShowsDirected text.now d asked) }
    ensures none { IfNone result ((asked : Directed) → IsDirective text.now asked → ⊥) }
{
    let (name, behind) = word_in_front(text)?;
    asked_of(name, behind)
}
