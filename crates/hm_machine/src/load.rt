//! Making a machine of an image.

ghost use Rattle.std.specs.Prelude.{◌≡◌, ◌+◌, ◌≤◌, ◌%◌};
ghost use Rattle.hm_base.specs.Image.{flash_size, word_at};
ghost use Rattle.hm_mem.specs.Memory.{memory_of, flash_at};

use hm_base::OutOfMemory;
use hm_mem::Mem;
use std::alloc::AllocError;
use thiserror::Error;

/// Why there is no machine.
#[derive(Clone, Copy, Debug, Error)]
pub enum LoadErr {
    /// Bit 0 of the word at 4, the address of the first instruction, is 0; `value` is that word.
    #[error("bit 0 of the reset address is not set")]
    Reset { value: u32 },
    /// Memory that the machine needs was refused.
    #[error("out of memory")]
    OutOfMemory,
}

impl From<OutOfMemory> for LoadErr {
    ghost use Rattle.hm_machine.specs.declared.load.LoadErr.TheVariants as load_err;

    ghost from_gives = { λ _ e. e ≡ load_err.OutOfMemory };

    fn from(_: OutOfMemory) -> Self {
        LoadErr::OutOfMemory
    }
}

impl From<AllocError> for LoadErr {
    ghost use Rattle.hm_machine.specs.declared.load.LoadErr.TheVariants as load_err;

    ghost from_gives = { λ _ e. e ≡ load_err.OutOfMemory };

    fn from(_: AllocError) -> Self {
        LoadErr::OutOfMemory
    }
}

/// The little-endian word at an even address of flash.
pub fn flash_word(mem: &Mem, addr: u32) -> u32
    requires even { addr % 2 ≡ 0 }
    requires inside { addr + 4 ≤ flash_size }
    ensures { result ≡ word_at (flash_at (memory_of mem.now)) addr }
{
    match (mem.half(addr), mem.half(addr + 2)) {
        (Some(low), Some(high)) => low as u32 + 0x1_0000 * high as u32,
        _ => 0,
    }
}
