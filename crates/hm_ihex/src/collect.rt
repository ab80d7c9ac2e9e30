//! The segments that given cells make.

ghost use Rattle.std.specs.Prelude.{◌≡◌, ◌⊎◌, ◌+◌, ◌<◌, ◌≤◌, ◌++◌, ◌∷◌, ℕ, All, List, [], Some, IfOk, OnOk, length, drop};
ghost use Rattle.hm_base.specs.Image.{Segment, segment, IsPlaced, flash_size, sram_start, sram_size};
ghost use Rattle.hm_ihex.specs.Cells.{front_of, image_of, runs};
ghost use Rattle.hm_ihex.specs.Meant.{cells_of};

use crate::areas::Areas;
use hm_base::{Image, ImageErr, OutOfMemory, SRAM_START};
use std::alloc::Global;

/// The bytes of the given cells in front.
fn front(alloc: Global, cells: &[Option<u8>]) -> Result<Vec<u8>, OutOfMemory>
    ensures bytes { IfOk result (λ v. v.items ≡ front_of cells.now) }
{
    let mut bytes = Vec::new(alloc);
    for cell in cells {
        match cell {
            Some(byte) => bytes.push(*byte)?,
            None => return Ok(bytes),
        }
    }
    Ok(bytes)
}

/// Adds a segment behind all others.
fn add_behind(image: &mut Image, address: u32, bytes: Vec<u8>) -> Result<(), OutOfMemory>
    requires placed { IsPlaced (segment address bytes.items) }
    requires behind { All (λ s. s.addr + length s.bytes ≤ address) image.old }
    ensures added { OnOk result (image.new ≡ image.old ++ segment address bytes.items ∷ []) }
{
    match image.add(address, bytes) {
        Ok(()) => Ok(()),
        Err(ImageErr::OutOfMemory) => Err(OutOfMemory),
        Err(_) => unreachable!(),
    }
}

/// Adds the runs of cells, of which the first is at an address, behind all others.
fn add_runs(
    alloc: Global,
    image: &mut Image,
    start: u32,
    cells: &[Option<u8>],
) -> Result<(), OutOfMemory>
    requires behind { All (λ s. s.addr + length s.bytes ≤ start) image.old }
    requires area { (start + length cells.now ≤ flash_size) ⊎ ((sram_start ≤ start) × (start + length cells.now ≤ sram_start + sram_size)) }
    ensures added { OnOk result (image.new ≡ image.old ++ runs start cells.now) }
    ensures behind { OnOk result (All (λ s. s.addr + length s.bytes ≤ start + length cells.now) image.new) }
{
    let mut at = 0;
    while at < cells.len() {
        if cells[at].is_none() {
            at += 1;
        } else {
            let bytes = front(alloc, &cells[at..])?;
            let count = bytes.len();
            add_behind(image, start + at as u32, bytes)?;
            at += count;
        }
    }
    Ok(())
}

/// The image of given cells.
pub fn image_of(alloc: Global, areas: &Areas) -> Result<Image, OutOfMemory>
    ensures image { IfOk result (λ i. i ≡ image_of (cells_of areas.now)) }
{
    let mut image = Image::new(alloc);
    add_runs(alloc, &mut image, 0, &areas.flash)?;
    add_runs(alloc, &mut image, SRAM_START, &areas.sram)?;
    Ok(image)
}
