//! The items of lines: a loop each, whose last round does what is left.

ghost use Rattle.std.specs.Prelude.{◌≡◌, ◌++◌, ◌∷◌, [], length, map, IfOk};
ghost use Rattle.hm_kernel_lang.specs.declared.machine.Item.TheVariants.{Plain, Begin, Again};
ghost use Rattle.hm_kernel_lang.specs.Code.{code, end_code, head_code, line_code};
ghost use Rattle.hm_kernel_lang.specs.Language.{address};
ghost use Rattle.hm_kernel_lang.specs.Texts.{IsSet, IsText};

use crate::expressions::add_expression;
use crate::parts::loop_halves;
use hm_base::OutOfMemory;
use hm_kernel_lang::machine::{Item, Kind};
use hm_kernel_lang::text::{Line, Text};
use std::alloc::Global;

/// Appends the items that begin the loop over so many elements.
fn add_begin(out: &mut Vec<Item>, count: u32, halves: u32) -> Result<(), OutOfMemory>
    ensures items { IfOk result (λ _. out.new.items ≡ out.old.items ++ (map Plain (head_code count) ++ Begin halves ∷ [])) }
{
    let begin = [
        Item::Plain(Kind::Clear),
        Item::Plain(Kind::LowLength(count % 65536)),
        Item::Plain(Kind::HighLength(count / 65536)),
        Item::Begin(halves),
    ];
    out.extend_from_slice(&begin)?;
    Ok(())
}

/// Appends the items that store register 0 to the array at an address, and end the loop.
fn add_end(out: &mut Vec<Item>, addr: u32, halves: u32) -> Result<(), OutOfMemory>
    ensures items { IfOk result (λ _. out.new.items ≡ out.old.items ++ (map Plain (end_code addr) ++ Again halves ∷ [])) }
{
    let end = [
        Item::Plain(Kind::Low(addr % 65536)),
        Item::Plain(Kind::High(addr / 65536)),
        Item::Plain(Kind::Offset),
        Item::Plain(Kind::Store(0)),
        Item::Plain(Kind::Further),
        Item::Again(halves),
    ];
    out.extend_from_slice(&end)?;
    Ok(())
}

/// Appends the items of a line of a text.
fn add_line(out: &mut Vec<Item>, text: &Text, line: &Line) -> Result<(), OutOfMemory>
    requires set { IsSet text.now.element (length text.now.arrays.items) line.now }
    ensures items { IfOk result (λ _. out.new.items ≡ out.old.items ++ line_code (address text.now.arrays.items) text.now.count line.now) }
{
    let halves = loop_halves(&line.expr);
    add_begin(out, text.count, halves)?;
    add_expression(out, text, &line.expr, 0)?;
    add_end(out, text.arrays[line.array as usize].addr, halves)
}

/// The items of a text's code.
pub fn code_of(alloc: Global, text: &Text) -> Result<Vec<Item>, OutOfMemory>
    requires text { IsText text.now }
    ensures items { IfOk result (λ items. items.items ≡ code text.now) }
{
    let mut out = Vec::new(alloc);
    for line in text.lines.iter() {
        add_line(&mut out, text, line)?;
    }
    out.push(Item::Stop)?;
    Ok(out)
}
