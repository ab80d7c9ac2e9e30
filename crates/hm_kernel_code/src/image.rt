//! The image of a text: one segment in flash, and one for each array that is given values.

ghost use Rattle.std.specs.Prelude.{◌≡◌, ◌<◌, ◌≤◌, List, length, IfOk};
ghost use Rattle.hm_base.specs.Image.{Segment, IsApart, IsImage, IsPlaced, flash_byte, word_at};
ghost use Rattle.hm_kernel_code.specs.Images.{HasItems, IsImageOf, IsMade};
ghost use Rattle.hm_kernel_code.specs.Segments.{AllApart, AllPlaced, array_segment, with_array, with_arrays};
ghost use Rattle.hm_kernel_instrs.specs.Ranges.{ItemsFit};
ghost use Rattle.hm_kernel_lang.specs.declared.text.Text.{Text};
ghost use Rattle.hm_kernel_lang.specs.Texts.{IsText};

use crate::lines::code_of;
use crate::values::value_bytes;
use hm_base::{Image, ImageErr, OutOfMemory};
use hm_code_bytes::{add_code, add_word, flat_image};
use hm_kernel_instrs::instr_of;
use hm_kernel_lang::machine::Item;
use hm_kernel_lang::text::{Array, ElementType, Text};
use std::alloc::Global;

/// The stack pointer at the reset: the end of SRAM.
const STACK: u32 = 0x2004_0000;

/// The address of the first instruction, with the bit of Thumb code.
const FIRST: u32 = 9;

/// The bytes of flash that have the codes of items.
fn flash_bytes(alloc: Global, t: ElementType, items: &[Item]) -> Result<Vec<u8>, OutOfMemory>
    requires fit { ItemsFit items.now }
    ensures bytes { IfOk result (λ bytes. HasItems t items.now bytes.items) }
{
    let mut bytes = Vec::new(alloc);
    add_word(&mut bytes, STACK)?;
    add_word(&mut bytes, FIRST)?;
    for item in items {
        add_code(&mut bytes, &instr_of(t, *item))?;
    }
    Ok(bytes)
}

/// Adds the values of an array to an image, if it is given any.
fn add_array(
    alloc: Global,
    image: &mut Image,
    t: ElementType,
    array: &Array,
) -> Result<(), OutOfMemory>
    requires placed { 0 < length array.now.values.items → IsPlaced (array_segment t array.now) }
    requires apart { IsApart (array_segment t array.now) image.old }
    ensures added { IfOk result (λ _. image.new ≡ with_array t array.now image.old) }
{
    if array.values.is_empty() {
        return Ok(());
    }
    let bytes = value_bytes(alloc, t, &array.values)?;
    match image.add(array.addr, bytes) {
        Ok(()) => Ok(()),
        Err(ImageErr::OutOfMemory) => Err(OutOfMemory),
        Err(_) => unreachable!(),
    }
}

/// Adds the values of arrays to an image, those of the last one first.
fn add_arrays(
    alloc: Global,
    image: &mut Image,
    t: ElementType,
    arrays: &[Array],
) -> Result<(), OutOfMemory>
    requires placed { AllPlaced t arrays.now }
    requires apart { AllApart t arrays.now image.old }
    ensures added { IfOk result (λ _. image.new ≡ with_arrays t arrays.now image.old) }
{
    match arrays.split_first() {
        None => Ok(()),
        Some((first, others)) => {
            add_arrays(alloc, image, t, others)?;
            add_array(alloc, image, t, first)
        }
    }
}

/// The image of a text. Nothing but want of memory is refused.
pub fn image_of(alloc: Global, text: &Text) -> Result<Image, OutOfMemory>
    requires text { IsText text.now }
    ensures made { IfOk result (λ image. IsMade text.now image) }
{
    let items = code_of(alloc, text)?;
    let bytes = flash_bytes(alloc, text.element, &items)?;
    let mut image = flat_image(alloc, bytes)?;
    add_arrays(alloc, &mut image, text.element, &text.arrays)?;
    Ok(image)
}

/// Every text has an image. It has the text's code and its first memory, its segments lie in flash and SRAM and overlap nowhere, it begins
/// with the end of SRAM as the stack pointer, and it has at most 17 segments.
pub fn image_law()
    ensures image { (x : Text) (image : List Segment) → IsText x → IsMade x image → IsImageOf x image }
    ensures sound { (x : Text) (image : List Segment) → IsText x → IsMade x image → IsImage image }
    ensures first { (x : Text) (image : List Segment) → IsText x → IsMade x image → word_at (flash_byte image) 0 ≡ 0x20040000 }
    ensures few { (x : Text) (image : List Segment) → IsText x → IsMade x image → length image ≤ 17 }
    ensures some { (x : Text) → IsText x → (image : List Segment) × IsMade x image }
{}
