//! The instructions that the code of a text is made of.

use crate::text::Op;

/// A kind of instructions that go on to the next. Three core registers have the offset of the elements that are next, an address or a constant, and
/// the number of elements; vector registers go by their numbers.
#[derive(Clone, Copy)]
pub enum Kind {
    /// The offset is 0.
    Clear,
    /// An address or a constant is this number of 16 bits.
    Low(u32),
    /// The high halfword of an address or a constant is this number, and the low one stays.
    High(u32),
    /// The number of elements is this number of 16 bits.
    LowLength(u32),
    /// The high halfword of the number of elements is this number, and the low one stays.
    HighLength(u32),
    /// The offset is added to the address.
    Offset,
    /// Each element of a vector register is the constant.
    Splat(u32),
    /// A vector register is loaded from the address.
    Load(u32),
    /// A vector register is stored to the address.
    Store(u32),
    /// An operation on a vector register and the one behind it, in the first.
    Do(Op, u32),
    /// The offset goes on by a vector.
    Further,
}

/// An instruction of a text's code.
#[derive(Clone, Copy)]
pub enum Item {
    /// It goes on to the next.
    Plain(Kind),
    /// It begins a loop that has so many halfwords behind it.
    Begin(u32),
    /// It ends a loop, back over so many halfwords.
    Again(u32),
    /// It ends the code.
    Stop,
}
