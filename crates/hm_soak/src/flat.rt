//! The image of a soak: one segment, in flash from 0 on.

ghost use Rattle.std.specs.Prelude.{◌≡◌, IfOk};
ghost use Rattle.hm_soak_laws.specs.Image.{IsSoak, vectors};

use crate::code::{OPERATIONS, add_instructions};
use hm_base::{Image, OutOfMemory};
use hm_code_bytes::{add_word, flat_image};
use std::alloc::Global;

/// The stack pointer at the reset.
const STACK: u32 = 0x2001_0000;

/// Where the first instruction stands: behind the vectors.
const FIRST: u32 = 0x44;

/// Where the handler stands: behind the head, the four registers that are filled, the operations and the breakpoint.
const HANDLER: u32 = FIRST + 12 + 4 * 12 + OPERATIONS * 4 + 2;

/// The vectors: the stack pointer, the first instruction, those of exceptions that never come, and that of interrupt 0.
const VECTORS: [u32; 17] = [
    STACK,
    FIRST + 1,
    0,
    0,
    0,
    0,
    0,
    0,
    0,
    0,
    0,
    0,
    0,
    0,
    0,
    0,
    HANDLER + 1,
];

/// The bytes of the vectors.
fn vector_bytes(alloc: Global) -> Result<Vec<u8>, OutOfMemory>
    ensures value { IfOk result (λ bytes. bytes.items ≡ vectors) }
{
    let mut bytes = Vec::new(alloc);
    for word in VECTORS {
        add_word(&mut bytes, word)?;
    }
    Ok(bytes)
}

/// The image of the soak of a number.
pub fn soak_image(alloc: Global, number: u32) -> Result<Image, OutOfMemory>
    ensures soak { IfOk result (λ image. IsSoak number image) }
{
    let mut bytes = vector_bytes(alloc)?;
    add_instructions(&mut bytes, number)?;
    flat_image(alloc, bytes)
}
