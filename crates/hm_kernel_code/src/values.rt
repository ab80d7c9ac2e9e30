//! The values of an array as the bytes of its elements.

ghost use Rattle.std.specs.Prelude.{◌≡◌, ◌++◌, length, slice_index, IfOk};
ghost use Rattle.hm_kernel_lang.specs.Language.{bytes};
ghost use Rattle.hm_kernel_lang.specs.Values.{element_bytes, number_bytes};

use hm_base::OutOfMemory;
use hm_kernel_lang::text::ElementType;
use std::alloc::Global;

/// Appends the bytes of an element.
fn add_element(out: &mut Vec<u8>, t: ElementType, value: u32) -> Result<(), OutOfMemory>
    ensures added { IfOk result (λ _. out.new.items ≡ out.old.items ++ number_bytes (bytes t) 0 value) }
{
    let size = t.bytes() as usize;
    out.extend_from_slice(&value.to_le_bytes()[..size])?;
    Ok(())
}

/// The bytes of elements that have these values.
pub fn value_bytes(alloc: Global, t: ElementType, values: &[u32]) -> Result<Vec<u8>, OutOfMemory>
    ensures bytes { IfOk result (λ bytes. bytes.items ≡ element_bytes t (length values.now) (λ j. slice_index values.now j)) }
{
    let mut out = Vec::new(alloc);
    for value in values {
        add_element(&mut out, t, *value)?;
    }
    Ok(out)
}
