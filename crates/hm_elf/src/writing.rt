//! Writing an image as an ELF file.

ghost use Rattle.std.specs.Prelude.{◌≡◌, ◌↔◌, ◌++◌, ◌^◌, ◌<◌, ◌≤◌, length, Err, IfOk, IsOkUnless};
ghost use Rattle.std.specs.List.{flat_map};
ghost use Rattle.hm_base.specs.Image.{segment};
ghost use Rattle.hm_elf.specs.Elf.{IsImageFile};
ghost use Rattle.hm_elf.specs.WriteImage.{half_bytes, word_bytes, file_header, program_header, program_headers, all_bytes, elf_file};

use hm_base::{Image, ImageErr, OutOfMemory};
use hm_text_base::text;
use std::alloc::Global;

/// The most segments that are written.
const MOST_SEGMENTS: usize = 64;

/// Adds a number in two bytes.
fn half(out: &mut Vec<u8>, n: u16) -> Result<(), OutOfMemory>
    ensures { IfOk result (λ _. out.new.items ≡ out.old.items ++ half_bytes n) }
{
    text(out, &n.to_le_bytes())
}

/// Adds numbers in four bytes each.
fn words(out: &mut Vec<u8>, numbers: &[u32]) -> Result<(), OutOfMemory>
    ensures { IfOk result (λ _. out.new.items ≡ out.old.items ++ flat_map word_bytes numbers.now) }
{
    for number in numbers {
        text(out, &number.to_le_bytes())?;
    }
    Ok(())
}

/// Adds the file header, with the number of program headers.
fn file_header(out: &mut Vec<u8>, count: u16) -> Result<(), OutOfMemory>
    ensures { IfOk result (λ _. out.new.items ≡ out.old.items ++ file_header count) }
{
    // Of 32 bits, the least significant byte first, version 1; an executable file for Arm, version 1.
    text(
        out,
        b"\x7fELF\x01\x01\x01\0\0\0\0\0\0\0\0\0\x02\0\x28\0\x01\0\0\0",
    )?;
    // No entry; program headers at 52; no section headers, no flags; headers of 52 and of 32 bytes.
    text(out, b"\0\0\0\0\x34\0\0\0\0\0\0\0\0\0\0\0\x34\0\x20\0")?;
    half(out, count)?;
    text(out, b"\0\0\0\0\0\0")
}

/// Adds the program header of bytes that begin at `offset` in the file.
fn program_header(
    out: &mut Vec<u8>,
    offset: u32,
    address: u32,
    bytes: &[u8],
) -> Result<(), OutOfMemory>
    requires { length bytes.now < 2 ^ 32 }
    ensures { IfOk result (λ _. out.new.items ≡ out.old.items ++ program_header offset (segment address bytes.now)) }
{
    let size = bytes.len() as u32;
    words(out, &[1, offset, address, address, size, size, 7, 1])
}

/// Adds the program headers of segments whose bytes lie one after another from `start` on.
#[tactic(auto, using(crate::proofs::WriteLaws::headers_done, crate::proofs::WriteLaws::placed_short))]
fn program_headers(out: &mut Vec<u8>, image: &Image, start: u32) -> Result<(), OutOfMemory>
    requires few { length image.now ≤ 64 }
    requires near { start ≤ 0x1000 }
    ensures { IfOk result (λ _. out.new.items ≡ out.old.items ++ program_headers start image.now) }
{
    let mut offset = start;
    for k in 0..image.len() {
        let (address, bytes) = image.segment(k);
        program_header(out, offset, address, bytes)?;
        offset += bytes.len() as u32;
    }
    Ok(())
}

/// Adds the bytes of the segments.
#[tactic(auto, using(crate::proofs::WriteLaws::bytes_done))]
fn contents(out: &mut Vec<u8>, image: &Image) -> Result<(), OutOfMemory>
    ensures { IfOk result (λ _. out.new.items ≡ out.old.items ++ all_bytes image.now) }
{
    for k in 0..image.len() {
        let (_address, bytes) = image.segment(k);
        text(out, bytes)?;
    }
    Ok(())
}

/// The ELF file of an image of at most 64 segments.
fn elf_file(alloc: Global, image: &Image) -> Result<Vec<u8>, OutOfMemory>
    requires few { length image.now ≤ 64 }
    ensures { IfOk result (λ bytes. bytes.items ≡ elf_file image.now) }
{
    let mut out = Vec::new(alloc);
    let count = image.len() as u16;
    file_header(&mut out, count)?;
    program_headers(&mut out, image, 52 + 32 * count as u32)?;
    contents(&mut out, image)?;
    Ok(out)
}

/// The ELF file of an image: the file header, a program header for each segment, and their bytes in order without gaps.
///
/// Refuses TooMany, exactly where the image has more than 64 segments, and OutOfMemory.
pub fn write_image(alloc: Global, image: &Image) -> Result<Vec<u8>, ImageErr>
    ensures file { IfOk result (λ bytes. bytes.items ≡ elf_file image.now) }
    // So `read_image` reads it back.
    ensures read_back { IfOk result (λ bytes. IsImageFile bytes.items image.now) }
    ensures small { IfOk result (λ bytes. length bytes.items < 2 ^ 31) }
    ensures too_many { (result ≡ Err ImageErr.TooMany) ↔ (64 < length image.now) }
    ensures else_memory { length image.now ≤ 64 → IsOkUnless result ImageErr.OutOfMemory }
{
    if image.len() > MOST_SEGMENTS {
        return Err(ImageErr::TooMany);
    }
    match elf_file(alloc, image) {
        Ok(bytes) => Ok(bytes),
        Err(_) => Err(ImageErr::OutOfMemory),
    }
}
