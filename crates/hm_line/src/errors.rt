//! Why assembly text is refused.

/// The kind of a refusal.
#[derive(Clone, Copy, Debug, PartialEq, Eq)]
pub enum AsmKind {
    /// The tokens are not of the form of a line.
    Syntax,
    /// No row has this text, or a number is out of its range.
    Row,
    /// A name is not defined.
    Missing,
    /// The label is defined already.
    Double,
    /// A target is odd or too far, or an address is not a multiple of 4.
    Offset,
    /// What the line gives has no place in memory.
    Place,
}

/// A refusal of a line of text.
#[derive(Clone, Copy, Debug, PartialEq, Eq)]
pub struct TextErr {
    /// The byte of the line that is told, counted from 1.
    pub column: u32,
    pub kind: AsmKind,
}
