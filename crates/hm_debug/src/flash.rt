//! Lines of the listing.

ghost use Rattle.std.specs.Prelude.{◌≡◌, ◌%◌, ◌≤◌, ◌++◌, IfOk};
ghost use Rattle.hm_base.specs.Image.{flash_size};
ghost use Rattle.hm_codes.specs.Listing.{IsListing, Listing};
ghost use Rattle.hm_debug.specs.Lines.{listing_lines};
ghost use Rattle.hm_mem.specs.Memory.{flash_at};

use hm_base::{FLASH_SIZE, OutOfMemory};
use hm_listing::add_line;
use hm_machine::Machine;

/// Adds so many lines from an address on, up to the end of flash.
pub fn add_listing(
    out: &mut Vec<u8>,
    machine: &Machine,
    addr: u32,
    count: u32,
) -> Result<(), OutOfMemory>
    requires even { addr % 2 ≡ 0 }
    requires within { addr ≤ flash_size }
    ensures added { (listing : Listing) → IsListing (flash_at machine.now.memory) listing
        → IfOk result (λ _. out.new.items ≡ out.old.items ++ listing_lines (flash_at machine.now.memory) listing addr count) }
{
    let mut at = addr;
    'lines: for _line in 0..count {
        if at == FLASH_SIZE {
            return Ok(());
        }
        at = add_line(out, machine.mem(), at, FLASH_SIZE)?;
    }
    Ok(())
}
