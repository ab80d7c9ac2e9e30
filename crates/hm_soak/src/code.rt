//! The code of a soak, from its draws.

ghost use Rattle.std.specs.Prelude.{◌≡◌, ◌/◌, ◌%◌, ◌<◌, [], ◌∷◌, IfOk};
ghost use Rattle.hm_base.specs.Draws.{drawn};
ghost use Rattle.hm_soak.specs.Adding.{AddsCodes};
ghost use Rattle.hm_soak_laws.specs.Soak.{Bkpt, Movt, Movw, code, fill, filled, handler, head, many, operations};

use crate::rows::{branch_to_link, no_operation, operation, store};
use hm_base::{OutOfMemory, draw};
use hm_code_bytes::add_code;
use hm_code_bytes::rows::{breakpoint_row, byte_row, duplicate_row, half_row};
use hm_isa::{ByteName, Element, HalfName};

/// How many operations on lanes a soak has.
pub const OPERATIONS: u32 = 4096;

/// The device word of which a store of 1 enables interrupt 0.
const INTERRUPT_ENABLES: u32 = 0xe000_e100;

/// Adds the instructions that put a word into a register below 13.
fn add_constant(out: &mut Vec<u8>, d: u32, word: u32) -> Result<(), OutOfMemory>
    requires register { d < 13 }
    ensures codes { IfOk result (λ _. AddsCodes (Movw d (word % 65536) ∷ Movt d (word / 65536) ∷ []) out.old.items out.new.items) }
{
    add_code(out, &half_row(HalfName::Movw, d, word % 65536))?;
    add_code(out, &half_row(HalfName::Movt, d, word / 65536))
}

/// Adds the instructions that enable interrupt 0.
fn add_head(out: &mut Vec<u8>) -> Result<(), OutOfMemory>
    ensures codes { IfOk result (λ _. AddsCodes head out.old.items out.new.items) }
{
    add_constant(out, 2, INTERRUPT_ENABLES)?;
    add_code(out, &byte_row(ByteName::Mov, 3, 1))?;
    add_code(out, &store(3, 2))
}

/// Adds the instructions that put v into each lane of q(4 + j).
fn add_filled(out: &mut Vec<u8>, j: u32, v: u32) -> Result<(), OutOfMemory>
    requires vector { j < 4 }
    ensures codes { IfOk result (λ _. AddsCodes (filled j v) out.old.items out.new.items) }
{
    add_constant(out, 1, v)?;
    add_code(out, &duplicate_row(Element::Words, 4 + j, 1))
}

/// Adds the instructions that fill q4 to q7 with the first four draws, and gives the fourth.
fn add_fill(out: &mut Vec<u8>, number: u32) -> Result<u32, OutOfMemory>
    ensures codes { IfOk result (λ _. AddsCodes (fill 4 0 number) out.old.items out.new.items) }
    ensures last { IfOk result (λ x. x ≡ drawn 4 number) }
{
    let mut x = number;
    for j in 0..4u32 {
        x = draw(x);
        add_filled(out, j, x)?;
    }
    Ok(x)
}

/// Adds the operations on lanes, each of a draw, where `last` was drawn last.
fn add_operations(out: &mut Vec<u8>, last: u32) -> Result<(), OutOfMemory>
    ensures codes { IfOk result (λ _. AddsCodes (operations many 0 last) out.old.items out.new.items) }
{
    let mut x = last;
    for k in 0..OPERATIONS {
        x = draw(x);
        add_code(out, &operation(k, x))?;
    }
    Ok(())
}

/// Adds the breakpoint, and behind it the handler.
fn add_end(out: &mut Vec<u8>) -> Result<(), OutOfMemory>
    ensures codes { IfOk result (λ _. AddsCodes (Bkpt 0 ∷ handler) out.old.items out.new.items) }
{
    add_code(out, &breakpoint_row(0))?;
    add_code(out, &byte_row(ByteName::Mov, 0, 7))?;
    add_code(out, &no_operation())?;
    add_code(out, &branch_to_link())
}

/// Adds the instructions of the soak of a number.
pub fn add_instructions(out: &mut Vec<u8>, number: u32) -> Result<(), OutOfMemory>
    ensures codes { IfOk result (λ _. AddsCodes (code number) out.old.items out.new.items) }
{
    add_head(out)?;
    let last = add_fill(out, number)?;
    add_operations(out, last)?;
    add_end(out)
}
