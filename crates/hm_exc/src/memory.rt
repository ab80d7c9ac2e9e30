//! Bytes and words of memory, read whatever their taint.

ghost use Rattle.std.specs.Prelude.{◌≡◌, ◌+◌, ◌-◌, ◌*◌, ◌^◌, ◌%◌, ◌<◌, ◌≤◌, ◌&&◌, nat_le, IsTrue};
ghost use Rattle.hm_base.specs.Image.{word_at};
ghost use Rattle.hm_exc.specs.Frame.{is_vector};
ghost use Rattle.hm_mem.specs.Memory.{byte_at, memory_of};
ghost use Rattle.hm_mem.specs.Seen.{lies_in_memory};

use hm_mem::{Mem, lies_in_memory};

/// The byte at an address; 0 outside flash and SRAM.
pub fn byte(m: &Mem, addr: u32) -> u8
    ensures value { result ≡ byte_at (memory_of m.now) addr }
{
    m.byte(addr).unwrap_or(0)
}

/// The little-endian word at an address; it lies whole in flash or whole in SRAM.
pub fn word(m: &Mem, addr: u32) -> u32
    requires whole { IsTrue (lies_in_memory 4 addr) }
    ensures value { result ≡ word_at (byte_at (memory_of m.now)) addr }
{
    byte(m, addr) as u32
        + 0x100 * byte(m, addr + 1) as u32
        + 0x1_0000 * byte(m, addr + 2) as u32
        + 0x100_0000 * byte(m, addr + 3) as u32
}

/// Whether there is a vector at an address: a word of memory with bit 0 set.
pub fn is_vector(m: &Mem, addr: u32) -> bool
    ensures value { result ≡ is_vector (byte_at (memory_of m.now)) addr }
{
    lies_in_memory(4, addr) && word(m, addr) % 2 == 1
}
