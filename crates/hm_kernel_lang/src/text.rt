//! Texts of the language.

ghost use Rattle.std.specs.Prelude.{◌≡◌, ◌≤◌};
ghost use Rattle.hm_kernel_lang.specs.Language.{bytes};

/// The type of the elements of all arrays.
#[derive(Clone, Copy)]
pub enum ElementType {
    U8,
    S8,
    U16,
    S16,
    U32,
    S32,
}

impl ElementType {
    /// How many bytes an element has: 1, 2 or 4.
    pub fn bytes(self) -> u32
        ensures value { result ≡ bytes self }
        ensures few { result ≤ 4 }
        ensures some { 1 ≤ result }
    {
        match self {
            ElementType::U8 | ElementType::S8 => 1,
            ElementType::U16 | ElementType::S16 => 2,
            ElementType::U32 | ElementType::S32 => 4,
        }
    }
}

/// An operation on two elements.
#[derive(Clone, Copy)]
pub enum Op {
    Add,
    Sub,
    Mul,
    Min,
    Max,
    And,
    Or,
    Xor,
}

/// An expression: an array by its number, a number, or an operation on two.
#[derive(Drop)]
pub enum Expr {
    Name(u8),
    Number(u32),
    Apply(Op, Box<Expr>, Box<Expr>),
}

/// An array of a text.
///
/// `name` is its ASCII name, `addr` the address of its first element in SRAM, and `values` the values that its first elements
/// are given, each below 2 to the power of the element's size in bits; the other elements start as zero.
#[derive(Drop)]
pub struct Array {
    pub name: Vec<u8>,
    pub addr: u32,
    pub values: Vec<u32>,
}

/// A line that sets an array: each element of the array, which is given by its number from 0 on, gets the value of the expression.
#[derive(Drop)]
pub struct Line {
    pub array: u8,
    pub expr: Expr,
}

/// A text of the language: the type and number of the elements of every array, the arrays, and the lines that set them, in order.
#[derive(Drop)]
pub struct Text {
    pub element: ElementType,
    pub count: u32,
    pub arrays: Vec<Array>,
    pub lines: Vec<Line>,
}
