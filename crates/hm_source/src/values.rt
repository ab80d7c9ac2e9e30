//! Lists of values, as directives have them.

ghost use Rattle.std.specs.Prelude.{◌≡◌, ◌<◌, ◌≤◌, ◌*◌, ◌^◌, ◌↔◌, true, ℕ, List, [], ◌∷◌, length, IsTrue, IfSome, IfNone, IsSomeAnd};
ghost use Rattle.hm_source.specs.Directives.{Datum, Fits, bytes_each, datum_tokens};
ghost use Rattle.hm_source.specs.Shown.{AreListed, EndsHere, datum};
ghost use Rattle.hm_line.specs.Fronts.{AreFront};
ghost use Rattle.hm_tokens.specs.Names.{is_label_name};
ghost use Rattle.hm_tokens.specs.Tokens.{word};

use hm_line::{behind_mark, next_token, number_at};
use hm_tokens::{Mark, Token, is_label_name, skip};

/// The size of the values of a list.
#[derive(Clone, Copy)]
pub enum DatumSize {
    Byte,
    Half,
    Word,
}

impl DatumSize {
    /// How many bytes each value has.
    pub fn bytes(self) -> u32
        ensures value { result ≡ bytes_each self }
        ensures few { result ≤ 4 }
    {
        match self {
            DatumSize::Byte => 1,
            DatumSize::Half => 2,
            DatumSize::Word => 4,
        }
    }

    /// 2 to the number of its bits.
    pub fn limit(self) -> u64
        ensures value { result ≡ 2 ^ (8 * bytes_each self) }
    {
        match self {
            DatumSize::Byte => 0x100,
            DatumSize::Half => 0x1_0000,
            DatumSize::Word => 0x1_0000_0000,
        }
    }
}

/// What stands in a list.
#[derive(Clone, Copy)]
pub enum Item<'a> {
    /// A number, and whether `-` stands before it.
    Literal { minus: bool, number: u64 },
    /// A name.
    Name(&'a [u8]),
    /// A name and a number more.
    Beyond(&'a [u8], u64),
}

/// The values of a list: their size, how many they are, and the text of the list.
#[derive(Clone, Copy)]
pub struct Values<'a> {
    pub size: DatumSize,
    pub count: u32,
    pub list: &'a [u8],
}

/// The item that begins with a name, and what stands behind it.
fn named_at<'a>(name: &'a [u8], behind: &'a [u8]) -> Option<(Item<'a>, &'a [u8])>
    ensures found { (text : List ℕ) → AreFront text (word name.entry.now ∷ []) behind.entry.now
        → IfSome result (λ x. AreFront text (datum_tokens (datum x.0)) x.1.now) }
    ensures only { (text rest : List ℕ) (d : Datum) → AreFront text (word name.entry.now ∷ []) behind.entry.now → AreFront text (datum_tokens d) rest
        → EndsHere rest → IsSomeAnd result (λ x. (datum x.0 ≡ d) × (x.1.now ≡ rest)) }
    ensures shorter { IfSome result (λ x. length x.1.now ≤ length behind.entry.now) }
{
    match behind_mark(Mark::Plus, behind) {
        Some(from) => {
            let (number, rest) = number_at(from)?;
            Some((Item::Beyond(name, number), rest))
        }
        None => Some((Item::Name(name), behind)),
    }
}

/// An item at the front of a text, and what stands behind it.
pub fn item_at(text: &[u8]) -> Option<(Item<'_>, &[u8])>
    ensures found { IfSome result (λ x. AreFront text.now (datum_tokens (datum x.0)) x.1.now) }
    ensures only { (d : Datum) (rest : List ℕ) → AreFront text.now (datum_tokens d) rest → EndsHere rest
        → IsSomeAnd result (λ x. (datum x.0 ≡ d) × (x.1.now ≡ rest)) }
    ensures shorter { IfSome result (λ x. length x.1.now < length text.now) }
{
    let (token, behind) = next_token(text)?;
    match token {
        Token::Number(number) => Some((
            Item::Literal {
                minus: false,
                number,
            },
            behind,
        )),
        Token::Word(name) => named_at(name, behind),
        Token::Mark(Mark::Minus) => {
            let (number, rest) = number_at(behind)?;
            let minus = true;
            Some((Item::Literal { minus, number }, rest))
        }
        Token::Mark(_) => None,
    }
}

/// Whether a name may stand in a list: it is one that labels have, and the values are words.
fn may_name(size: DatumSize, name: &[u8]) -> bool
    ensures value { IsTrue result ↔ ((size ≡ DatumSize.Word) × (is_label_name name.now ≡ true)) }
{
    size == DatumSize::Word && is_label_name(name)
}

/// Whether an item is in the range of values of a size.
pub fn fits(size: DatumSize, item: Item<'_>) -> bool
    ensures value { IsTrue result ↔ Fits size (datum item.entry) }
{
    match item {
        Item::Literal { minus, number } => {
            if minus {
                number <= size.limit() / 2
            } else {
                number < size.limit()
            }
        }
        Item::Name(name) => may_name(size, name),
        Item::Beyond(name, number) => may_name(size, name) && number < DatumSize::Word.limit(),
    }
}

/// How many values of a size a text lists, if it is a list of them.
fn count_values(size: DatumSize, text: &[u8]) -> Option<u32>
    requires small { length text.now < 2 ^ 31 }
    ensures found { IfSome result (λ n. (d : Datum) × (ds : List Datum) × AreListed size text.now d ds × (n ≡ length (d ∷ ds))) }
    ensures only { (d : Datum) (ds : List Datum) → AreListed size text.now d ds → IsSomeAnd result (λ n. n ≡ length (d ∷ ds)) }
    ensures none { IfNone result ((d : Datum) (ds : List Datum) → AreListed size text.now d ds → ⊥) }
{
    let mut rest = text;
    let mut count = 0;
    loop {
        let (item, behind) = item_at(rest)?;
        if !fits(size, item) {
            return None;
        }
        count += 1;
        if skip(behind).is_empty() {
            return Some(count);
        }
        rest = behind_mark(Mark::Comma, behind)?;
    }
}

/// The values of a size that a text lists, if it is a list of them.
pub fn read_values(size: DatumSize, list: &[u8]) -> Option<Values<'_>>
    requires small { length list.now < 2 ^ 31 }
    ensures found { IfSome result (λ v. (d : Datum) × (ds : List Datum) × AreListed size list.now d ds × (v.count ≡ length (d ∷ ds))) }
    ensures only { (d : Datum) (ds : List Datum) → AreListed size list.now d ds → IsSomeAnd result (λ v. v.count ≡ length (d ∷ ds)) }
    ensures parts { IfSome result (λ v. (v.size ≡ size) × (v.list.now ≡ list.now)) }
    ensures none { IfNone result ((d : Datum) (ds : List Datum) → AreListed size list.now d ds → ⊥) }
{
    let count = count_values(size, list)?;
    Some(Values { size, count, list })
}
