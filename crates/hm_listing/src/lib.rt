//! The listing of an image: the instructions that stand in a range of its flash, as text.
#![tactic(auto)]

ghost use Rattle.std.specs.Prelude.{◌≡◌, ◌≤◌, ◌+◌, ◌%◌, IfOk};
ghost use Rattle.hm_base.specs.Image.{flash_byte, flash_size};
ghost use Rattle.hm_codes.specs.Listing.{Stands};
ghost use Rattle.hm_isa.specs.declared.Instr.{Instr};
ghost use Rattle.hm_listing.specs.Listings.{IsListed, entry_line, shown};
ghost use Rattle.hm_isa.specs.Code.{width_of};

mod entry;
mod laws;
mod lines;

use hm_base::{Image, OutOfMemory, SRAM_START};
use hm_mem::Mem;
pub use laws::listing_law;
pub use lines::add_line;
use lines::add_lines;
use std::alloc::Global;

/// The listing of an image's flash from `lo` up to `hi`, both even and `hi` at most 00100000.
///
/// Each instruction has a line: its address, its halfwords and its text, with spaces between them. A halfword at which no instruction
/// stands, or one whose code passes `hi`, has a line of its own with `.half 0xhhhh` for its text. It takes time that is linear in the
/// range, and 26 MiB at most beside the image. It is refused only where memory was wanted.
pub fn listing(alloc: Global, image: &Image, lo: u32, hi: u32) -> Result<Vec<u8>, OutOfMemory>
    requires even { (lo % 2 ≡ 0) × (hi % 2 ≡ 0) }
    requires order { lo ≤ hi }
    requires within { hi ≤ flash_size }
    ensures text { IfOk result (λ bytes. IsListed (flash_byte image.now) lo hi bytes.items) }
    // The range of an instruction is listed as its one line.
    ensures own { (i : Instr) → Stands (flash_byte image.now) lo i → hi ≡ lo + width_of i → IfOk result (λ bytes. bytes.items ≡ entry_line lo (shown i)) }
{
    // The listing reads flash alone: no handler stores.
    let m = Mem::new(alloc, image, SRAM_START, SRAM_START, SRAM_START, SRAM_START)?;
    // a line of one halfword has 48 bytes at most
    let mut out = Vec::with_capacity(alloc, (hi - lo) as usize / 2 * 48)?;
    add_lines(&mut out, &m, lo, hi)?;
    Ok(out)
}
