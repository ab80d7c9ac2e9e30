//! Reading a text.

ghost use Rattle.std.specs.Prelude.{◌≡◌, ◌+◌, ◌≤◌, [], ℕ, All, length, Ok, IfOk};
ghost use Rattle.hm_text_base.specs.Reading.{Reads};
ghost use Rattle.hm_text_base.specs.Spans.{lines_of};
ghost use Rattle.hm_kernel_lang.specs.Texts.{IsSet, IsText};
ghost use Rattle.hm_kernel_text.specs.Held.{written};
ghost use Rattle.hm_kernel_text.specs.Written.{IsKernel, Written};
ghost use Rattle.hm_kernel_text.specs.ReadFile.{Gives, first_written, kernel_in, length_in, line_at, lines_in, on_line, type_in};

use crate::errors::{KernelErr, KernelKind};
use crate::lines::{add_line, refused};
use crate::words::{is_numeral, number_below};
use hm_kernel_lang::text::{ElementType, Text};
use hm_text_base::span;
use std::alloc::Global;

/// The most elements of an array.
const MOST_ELEMENTS: u64 = 65_536;

/// The next line, which should be there and have an end, and what follows it.
#[tactic(auto, using(hm_text_base::proofs::LineLaws::lines_span))]
fn next_line(text: &[u8], line: u32) -> Result<(&[u8], &[u8]), KernelErr>
    ensures line { Reads (λ x. (x.0.now, lines_of x.1.now)) result (line_at line (lines_of text.now)) }
    ensures shorter { IfOk result (λ x. length x.1.now + 1 ≤ length text.now) }
{
    let (said, from) = span(b'\n', text);
    if from.is_empty() {
        return Err(refused(line, KernelKind::Syntax));
    }
    Ok((said, &from[1..]))
}

/// The type of elements.
#[tactic(auto, unfolding(crate::specs::ReadFile::type_in))]
fn read_type(text: &[u8]) -> Option<ElementType>
    ensures value { result ≡ type_in text.now }
{
    if text == b"type u8".as_slice() {
        return Some(ElementType::U8);
    }
    if text == b"type s8".as_slice() {
        return Some(ElementType::S8);
    }
    if text == b"type u16".as_slice() {
        return Some(ElementType::U16);
    }
    if text == b"type s16".as_slice() {
        return Some(ElementType::S16);
    }
    if text == b"type u32".as_slice() {
        return Some(ElementType::U32);
    }
    if text == b"type s32".as_slice() {
        return Some(ElementType::S32);
    }
    None
}

/// How many elements each array has.
#[tactic(auto, unfolding(crate::specs::ReadFile::length_in))]
fn read_length(text: &[u8]) -> Result<u32, KernelKind>
    ensures value { Reads (λ n. n) result (length_in text.now) }
{
    let Some(word) = text.strip_prefix(b"length ") else {
        return Err(KernelKind::Syntax);
    };
    if !is_numeral(word) {
        return Err(KernelKind::Syntax);
    }
    match number_below(MOST_ELEMENTS + 1, word) {
        Some(count) => Ok(count),
        None => Err(KernelKind::Range),
    }
}

/// How many elements each array has, in the third line.
fn read_count(text: &[u8]) -> Result<u32, KernelErr>
    ensures value { Reads (λ n. n) result (on_line 3 (length_in text.now)) }
{
    match read_length(text) {
        Ok(count) => Ok(count),
        Err(kind) => Err(refused(3, kind)),
    }
}

/// A text that has neither arrays nor lines, with those that the lines from the fourth on say.
fn with_lines(alloc: Global, x: Text, text: &[u8]) -> Result<Text, KernelErr>
    requires arrays { x.arrays.items ≡ [] }
    requires lines { x.lines.items ≡ [] }
    ensures read { Gives written result (lines_in 4 (written x) (lines_of text.now).0 (lines_of text.now).1) }
    ensures sets { IfOk result (λ y. All (IsSet y.element (length y.arrays.items)) y.lines.items) }
{
    let mut x = x;
    let mut rest = text;
    let mut line = 4;
    while !rest.is_empty() {
        let (said, after) = next_line(rest, line)?;
        add_line(alloc, &mut x, said, line)?;
        line += 1;
        rest = after;
    }
    if x.lines.is_empty() {
        return Err(refused(line, KernelKind::Syntax));
    }
    Ok(x)
}

/// What the bytes of a text say.
#[tactic(auto, unfolding(crate::specs::ReadFile::kernel_in))]
fn read_text(alloc: Global, text: &[u8]) -> Result<Text, KernelErr>
    ensures read { Gives written result (kernel_in text.now) }
    ensures sets { IfOk result (λ y. All (IsSet y.element (length y.arrays.items)) y.lines.items) }
{
    let (first, rest) = next_line(text, 1)?;
    if first != b"kernel 1".as_slice() {
        return Err(refused(1, KernelKind::Syntax));
    }
    let (second, rest) = next_line(rest, 2)?;
    let element = read_type(second).ok_or(refused(2, KernelKind::Syntax))?;
    let (third, rest) = next_line(rest, 3)?;
    let count = read_count(third)?;
    let x = Text {
        element,
        count,
        arrays: Vec::new(alloc),
        lines: Vec::new(alloc),
    };
    with_lines(alloc, x, rest)
}

/// What the bytes of a text say, in time and memory that are linear in them.
///
/// Refuses Line at the first bad line, with its number from 1 on and the first of these that is bad in it. Syntax: it is missing, has no end, or is
/// not of the form that is asked for at its place; where the text ends early that is the line behind the last. Large: it is the 17th array or the
/// 17th line that sets one, or its expression has more than 64 names and numbers. Name: an array's name is there already, or a name of a line that
/// sets an array is not. Range: a number or an address is out of its bounds, or there are more values than elements. Overlap: the elements of an
/// array share a byte with those of an earlier one. Deep: the expression needs more than eight registers. And OutOfMemory.
pub fn read_kernel(alloc: Global, text: &[u8]) -> Result<Text, KernelErr>
    // What is read is written so.
    ensures found { IfOk result (λ x. IsKernel text.now (written x)) }
    // It may be compiled.
    ensures sound { IfOk result IsText }
    // What is written so is read, unless memory was wanted.
    ensures only { (w : Written) → IsKernel text.now w → Gives written result (Ok w) }
    // Which refusal it is.
    ensures exact { Gives written result (kernel_in text.now) }
{
    read_text(alloc, text)
}
