//! What stands in flash and SRAM before a test and after it.

use crate::case::{Case, Segment};
use anyhow::{Context, Result};
use hm_base::{FLASH_SIZE, Image, SRAM_SIZE, SRAM_START};
use hm_mem::{Access, Actor, Mem};
use std::alloc::Global;

/// A handler may store to the bytes from here on, up to those from `REGION_END` on, and from `STACK_FLOOR` up to its frame.
const REGION_START: u32 = 0x2000_1000;

const REGION_END: u32 = 0x2000_1004;

const STACK_FLOOR: u32 = 0x2000_f000;

/// Flash with `nop` everywhere.
pub fn blank_flash(alloc: Global) -> Result<Vec<u8>> {
    let mut flash = Vec::with_capacity(alloc, FLASH_SIZE as usize)?;
    for _ in 0..FLASH_SIZE / 2 {
        flash.extend_from_slice(&[0x00, 0xbf])?;
    }
    Ok(flash)
}

/// Lays bytes over others, from an index on; None where there is no room for them.
fn lay(target: &mut [u8], at: usize, bytes: &[u8]) -> Option<()> {
    let end = at.checked_add(bytes.len())?;
    target.get_mut(at..end)?.copy_from_slice(bytes);
    Some(())
}

/// Lays the segments that begin in flash over it.
fn lay_in_flash(flash: &mut [u8], segments: &[Segment]) -> Option<()> {
    for segment in segments {
        if segment.addr < FLASH_SIZE {
            lay(flash, segment.addr as usize, &segment.bytes)?;
        }
    }
    Some(())
}

/// Lays the segments that begin in SRAM, or behind it, over it.
fn lay_in_sram(sram: &mut [u8], segments: &[Segment]) -> Option<()> {
    for segment in segments {
        if let Some(at) = segment.addr.checked_sub(SRAM_START) {
            lay(sram, at as usize, &segment.bytes)?;
        }
    }
    Some(())
}

/// Flash before a test, given flash with `nop` everywhere.
fn flash_before(alloc: Global, blank: &[u8], case: &Case) -> Result<Vec<u8>> {
    let mut flash = blank.to_vec(alloc)?;
    lay(&mut flash, case.before.pc as usize, &case.code).context("code past flash")?;
    lay_in_flash(&mut flash, &case.loaded).context("bytes past flash")?;
    Ok(flash)
}

/// SRAM before a test.
fn sram_before(alloc: Global, case: &Case) -> Result<Vec<u8>> {
    let mut sram = vec![in alloc; 0; SRAM_SIZE as usize]?;
    lay_in_sram(&mut sram, &case.loaded).context("bytes past SRAM")?;
    Ok(sram)
}

/// SRAM after a test.
pub fn sram_after(alloc: Global, case: &Case) -> Result<Vec<u8>> {
    let mut sram = sram_before(alloc, case)?;
    lay_in_sram(&mut sram, &case.written).context("bytes past SRAM")?;
    Ok(sram)
}

/// Has bytes of SRAM tainted.
fn taint(mem: &mut Mem, addresses: &[u32]) -> Option<()> {
    mem.set_actor(Actor::Entry);
    for addr in addresses {
        let byte = mem.byte(*addr)?;
        mem.store(*addr, 1, byte as u32, Access::Scalar).ok()?;
    }
    Some(())
}

/// Flash and SRAM before a test, given flash with `nop` everywhere.
fn image_before(alloc: Global, blank: &[u8], case: &Case) -> Result<Image> {
    let mut image = Image::new(alloc);
    image.add(0, flash_before(alloc, blank, case)?)?;
    image.add(SRAM_START, sram_before(alloc, case)?)?;
    Ok(image)
}

/// The memory before a test, given flash with `nop` everywhere.
pub fn memory_before(alloc: Global, blank: &[u8], case: &Case) -> Result<Mem> {
    let image = image_before(alloc, blank, case)?;
    let mut mem = Mem::new(
        alloc,
        &image,
        REGION_START,
        REGION_END,
        STACK_FLOOR,
        STACK_FLOOR,
    )?;
    taint(&mut mem, &case.tainted).context("no SRAM there")?;
    mem.set_actor(case.actor);
    Ok(mem)
}
