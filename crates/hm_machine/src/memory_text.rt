//! The memory file of a run.

ghost use Rattle.std.specs.Prelude.{◌≡◌, ◌++◌, ◌+◌, ◌<◌, ◌≤◌, IfOk};
ghost use Rattle.hm_base.specs.Image.{sram_start, sram_size};
ghost use Rattle.hm_mem.specs.Memory.{memory_of, byte_at, tainted_at};
ghost use Rattle.hm_state.specs.State.{byte_of_bits, listed};

use hm_base::{OutOfMemory, SRAM_SIZE, SRAM_START};
use hm_mem::Mem;
use std::alloc::Global;

/// A byte of SRAM.
fn sram_byte(mem: &Mem, k: u32) -> u8
    requires { k < sram_size }
    ensures { result ≡ byte_at (memory_of mem.now) (sram_start + k) }
{
    mem.byte(SRAM_START + k).unwrap_or(0)
}

/// Adds the first `count` bytes of SRAM.
fn bytes_onto(out: &mut Vec<u8>, mem: &Mem, count: u32) -> Result<(), OutOfMemory>
    requires { count ≤ sram_size }
    ensures { IfOk result (λ _. out.new.items ≡ out.old.items ++ listed count (λ k. byte_at (memory_of mem.now) (sram_start + k))) }
{
    for k in 0..count {
        out.push(sram_byte(mem, k))?;
    }
    Ok(())
}

/// Adds the taint of SRAM.
fn taint_onto(out: &mut Vec<u8>, mem: &Mem) -> Result<(), OutOfMemory>
    ensures { IfOk result (λ _. out.new.items ≡ out.old.items ++ listed 0x8000 (byte_of_bits (λ j. tainted_at (memory_of mem.now) (sram_start + j)))) }
{
    mem.sized();
    let marks = mem.marks();
    out.extend_from_slice(marks)?;
    Ok(())
}

/// The bytes of SRAM, and then their taint, bit j of byte k that of byte 8k + j.
pub fn memory_text(alloc: Global, mem: &Mem) -> Result<Vec<u8>, OutOfMemory>
    ensures { IfOk result (λ out. out.items ≡ listed sram_size (λ k. byte_at (memory_of mem.now) (sram_start + k))
        ++ listed 0x8000 (byte_of_bits (λ j. tainted_at (memory_of mem.now) (sram_start + j)))) }
{
    let mut out = Vec::new(alloc);
    bytes_onto(&mut out, mem, SRAM_SIZE)?;
    taint_onto(&mut out, mem)?;
    Ok(out)
}
