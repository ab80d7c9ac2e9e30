//! Flash and SRAM as cells, each given a byte or not.

ghost use Rattle.std.specs.Prelude.{◌≡◌, ◌+◌, ◌<◌, Some, None, IfOk, length, if◌then◌else◌};
ghost use Rattle.hm_base.specs.Image.{flash_size, sram_size};
ghost use Rattle.hm_ihex.specs.Cells.{is_free, no_cells, put_in};

use hm_base::{FLASH_SIZE, OutOfMemory, SRAM_SIZE, SRAM_START};
use std::alloc::Global;

/// The cells of flash and of SRAM.
#[derive(Drop)]
pub struct Areas {
    pub flash: Vec<Option<u8>>,
    pub sram: Vec<Option<u8>>,
    pub ghost flash_whole: { length flash.items ≡ flash_size },
    pub ghost sram_whole: { length sram.items ≡ sram_size },
}

/// So many cells that are not given.
#[tactic(auto, unfolding(crate::specs::Cells::no_cells))]
fn free_cells(alloc: Global, count: usize) -> Result<Vec<Option<u8>>, OutOfMemory>
    ensures value { IfOk result (λ v. v.items ≡ no_cells count) }
    ensures size { IfOk result (λ v. length v.items ≡ count) }
{
    let cells = vec![in alloc; None; count]?;
    Ok(cells)
}

/// Whether a cell is there, and is not given.
fn is_free(cells: &[Option<u8>], at: usize) -> bool
    ensures value { result ≡ is_free at cells.now }
{
    at < cells.len() && cells[at].is_none()
}

/// Gives bytes to the cells from number `at` on. False where one is not there or is given already; the cells are then of no use.
#[tactic(auto, using(crate::proofs::Loops::put_more, crate::proofs::Loops::put_all))]
fn put(cells: &mut Vec<Option<u8>>, at: usize, bytes: &[u8]) -> bool
    requires room { at + length bytes.now < 18446744073709551616 }
    ensures put { put_in at bytes.now cells.old.items ≡ (if result then Some cells.new.items else None) }
    ensures size { length cells.new.items ≡ length cells.old.items }
{
    let mut next = at;
    for byte in bytes {
        if !is_free(cells, next) {
            return false;
        }
        cells[next] = Some(*byte);
        next += 1;
    }
    true
}

impl Areas {
    ghost use Rattle.hm_ihex.specs.Cells.{first_cells, with_data};
    ghost use Rattle.hm_ihex.specs.Meant.{cells_of};

    /// Flash and SRAM without a byte.
    pub fn free(alloc: Global) -> Result<Areas, OutOfMemory>
        ensures cells { IfOk result (λ a. cells_of a ≡ first_cells) }
    {
        let flash = free_cells(alloc, FLASH_SIZE as usize)?;
        let sram = free_cells(alloc, SRAM_SIZE as usize)?;
        Ok(Areas { flash, sram })
    }

    /// Gives bytes to the cells from an address on. False where they lie not whole in flash or whole in SRAM, or where one is given already.
    pub fn add(&mut self, address: u64, bytes: &[u8]) -> bool
        requires room { address + length bytes.now < 18446744073709551616 }
        ensures added { with_data address bytes.now (cells_of self.old) ≡ (if result then Some (cells_of self.new) else None) }
    {
        let sram = SRAM_START as u64;
        if address >= sram {
            put(&mut self.sram, (address - sram) as usize, bytes)
        } else {
            put(&mut self.flash, address as usize, bytes)
        }
    }
}
