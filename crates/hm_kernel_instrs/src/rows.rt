//! The instructions of a text's code, as values, item by item.

ghost use Rattle.std.specs.Prelude.{◌≡◌, ◌+◌, ◌<◌, cond};
ghost use Rattle.hm_code_bytes.specs.Instructions.{IsAddRow, IsDuplicateRow, IsSignedRow};
ghost use Rattle.hm_isa.specs.declared.vectors.AddName.{AddName};
ghost use Rattle.hm_isa.specs.declared.vectors.SignedName.{SignedName};
ghost use Rattle.hm_kernel_instrs.specs.Instructions.{IsAgainRow, IsBeginRow, IsItem, IsKind, IsMoveRow, IsOperation, IsSumRow, element_name};
ghost use Rattle.hm_kernel_instrs.specs.Ranges.{ItemFits, KindFits};
ghost use Rattle.hm_kernel_lang.specs.Language.{is_signed};
ghost use Rattle.hm_kernel_lang.specs.Machine.{size_code};

use hm_code_bytes::rows;
use hm_code_bytes::rows::{bitwise_row, breakpoint_row, byte_row, half_row};
use hm_isa::{
    AddName, Below, BitwiseName, Branch, ByteName, Element, HalfName, Instr, LoopEnd, LoopEndName,
    S6, Scalar, SignedName, T23, V24, Vector, Wlstp,
};
use hm_kernel_lang::machine::{Item, Kind};
use hm_kernel_lang::text::{ElementType, Op};

/// The register with the offset of the elements that are next.
const OFFSET: u32 = 4;

/// The register with an address or a number.
const SCRATCH: u32 = 5;

/// The register with the number of elements.
const LENGTH: u32 = 6;

/// The size of a type's elements, as rows have it that name it by a number.
fn size_of(t: ElementType) -> u32
    ensures value { result ≡ size_code t }
    ensures in_range { result < 3 }
{
    match t {
        ElementType::U8 | ElementType::S8 => 0,
        ElementType::U16 | ElementType::S16 => 1,
        ElementType::U32 | ElementType::S32 => 2,
    }
}

/// The size of a type's elements, as rows have it that name it.
fn element_of(t: ElementType) -> Element
    ensures value { result ≡ element_name t }
{
    match t {
        ElementType::U8 | ElementType::S8 => Element::Bytes,
        ElementType::U16 | ElementType::S16 => Element::Halves,
        ElementType::U32 | ElementType::S32 => Element::Words,
    }
}

/// 1 for a type whose numbers have no sign, else 0.
fn unsigned_of(t: ElementType) -> u32
    ensures value { result ≡ cond (is_signed t) 0 1 }
    ensures in_range { result < 2 }
{
    match t {
        ElementType::U8 | ElementType::U16 | ElementType::U32 => 1,
        ElementType::S8 | ElementType::S16 | ElementType::S32 => 0,
    }
}

/// `add r5,r4`: the address of the elements that are next, from that of the array.
fn add_offset() -> Instr
    ensures row { IsSumRow 5 4 result }
{
    let row = S6 {
        d: Below::new(SCRATCH),
        m: Below::new(OFFSET),
    };
    Instr::Scalar(Scalar::S6(row))
}

/// `vdup qd,r5`.
fn splat(t: ElementType, d: u32) -> Instr
    requires register { d < 8 }
    ensures row { IsDuplicateRow (element_name t) d 5 result }
{
    rows::duplicate_row(element_of(t), d, SCRATCH)
}

/// A load of qd from the address in r5 where l is 1, and a store of it there where l is 0.
fn transfer(t: ElementType, l: u32, d: u32) -> Instr
    requires way { l < 2 }
    requires register { d < 8 }
    ensures row { IsMoveRow t l d 5 result }
{
    let row = V24 {
        p: Below::new(1),
        a: Below::new(1),
        w: Below::new(0),
        l: Below::new(l),
        n: Below::new(SCRATCH),
        d: Below::new(d),
        z: Below::new(size_of(t)),
        i: Below::new(0),
    };
    Instr::Vector(Vector::V24(row))
}

/// The sum, the difference or the product of qd and the register behind it, in qd.
fn add_row(t: ElementType, name: AddName, d: u32) -> Instr
    requires register { d + 1 < 8 }
    ensures row { IsAddRow (size_code t) name d d (d + 1) result }
{
    rows::add_row(size_of(t), name, d, d, d + 1)
}

/// The greater or the lesser of qd and the register behind it, in qd.
fn signed_row(t: ElementType, name: SignedName, d: u32) -> Instr
    requires register { d + 1 < 8 }
    ensures row { IsSignedRow (cond (is_signed t) 0 1) (size_code t) name d d (d + 1) result }
{
    rows::signed_row(unsigned_of(t), size_of(t), name, d, d, d + 1)
}

/// An operation on qd and the register behind it, in qd.
fn operation(t: ElementType, op: Op, d: u32) -> Instr
    requires register { d + 1 < 8 }
    ensures row { IsOperation t op d result }
{
    match op {
        Op::Add => add_row(t, AddName::Add, d),
        Op::Sub => add_row(t, AddName::Sub, d),
        Op::Mul => add_row(t, AddName::Mul, d),
        Op::Min => signed_row(t, SignedName::Min, d),
        Op::Max => signed_row(t, SignedName::Max, d),
        Op::And => bitwise_row(BitwiseName::And, d, d, d + 1),
        Op::Or => bitwise_row(BitwiseName::Orr, d, d, d + 1),
        Op::Xor => bitwise_row(BitwiseName::Eor, d, d, d + 1),
    }
}

/// `wlstp lr,r6`, past so many halfwords where there is nothing to do.
fn begin_loop(t: ElementType, halves: u32) -> Instr
    requires near { halves < 2048 }
    ensures row { IsBeginRow t halves result }
{
    let row = Wlstp {
        z: Below::new(size_of(t)),
        n: Below::new(LENGTH),
        v: Below::new(halves),
    };
    Instr::Branch(Branch::T23(T23::Wlstp(row)))
}

/// `letp lr`, back over so many halfwords where there is more to do.
fn end_loop(halves: u32) -> Instr
    requires near { halves < 2048 }
    ensures row { IsAgainRow halves result }
{
    let row = LoopEnd {
        name: LoopEndName::Letp,
        v: Below::new(halves),
    };
    Instr::Branch(Branch::T23(T23::End(row)))
}

/// The instruction of a kind.
fn plain(t: ElementType, kind: Kind) -> Instr
    requires fits { KindFits kind }
    ensures row { IsKind t kind result }
{
    match kind {
        Kind::Clear => byte_row(ByteName::Mov, OFFSET, 0),
        Kind::Low(n) => half_row(HalfName::Movw, SCRATCH, n),
        Kind::High(n) => half_row(HalfName::Movt, SCRATCH, n),
        Kind::LowLength(n) => half_row(HalfName::Movw, LENGTH, n),
        Kind::HighLength(n) => half_row(HalfName::Movt, LENGTH, n),
        Kind::Offset => add_offset(),
        Kind::Splat(q) => splat(t, q),
        Kind::Load(q) => transfer(t, 1, q),
        Kind::Store(q) => transfer(t, 0, q),
        Kind::Do(op, q) => operation(t, op, q),
        Kind::Further => byte_row(ByteName::Add, OFFSET, 16),
    }
}

/// The instruction of an item whose numbers are in their ranges.
pub fn instr_of(t: ElementType, item: Item) -> Instr
    requires fits { ItemFits item }
    ensures row { IsItem t item result }
{
    match item {
        Item::Plain(kind) => plain(t, kind),
        Item::Begin(halves) => begin_loop(t, halves),
        Item::Again(halves) => end_loop(halves),
        Item::Stop => breakpoint_row(0),
    }
}
