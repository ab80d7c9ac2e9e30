//! Reading the file of an image.

ghost use Rattle.std.specs.Prelude.{◌≡◌, ◌+◌, ◌*◌, ◌^◌, ◌<◌, ◌≤◌, List, [], length, take, drop, Some, Ok, Err, IfOk};
ghost use Rattle.hm_base.specs.Image.{Segment, segment};
ghost use Rattle.hm_base.specs.Results.{GivesImage};
ghost use Rattle.hm_elf.specs.Elf.{half, word, header_at, headers_in, loads, IsImageFile};
ghost use Rattle.hm_elf.specs.ReadImage.{first_checks, first_failing, flat_checks, header_checks, place_in, load_in, loads_in, elf_in, flat_in, image_in};

use hm_base::{FLASH_SIZE, Image, ImageErr};
use std::alloc::{AllocError, Global};

/// The bytes of the shortest flat image: those of a vector table's first two words.
const SHORTEST: usize = 8;

/// The bytes of the longest flat image: those of flash.
const LONGEST: usize = FLASH_SIZE as usize;

/// The bytes of an ELF file's header.
const HEADER_SIZE: usize = 52;

/// The bytes of a program header.
const ENTRY_SIZE: usize = 32;

/// The most program headers that are read.
const MOST_HEADERS: u16 = 64;

/// The number of the two bytes that begin at a place.
fn half(bytes: &[u8], at: usize) -> u16
    requires { at + 2 ≤ length bytes.now }
    ensures { result ≡ half bytes.now at }
{
    u16::from_le_bytes([bytes[at], bytes[at + 1]])
}

/// The number of the four bytes that begin at a place.
fn word(bytes: &[u8], at: usize) -> u32
    requires { at + 4 ≤ length bytes.now }
    ensures { result ≡ word bytes.now at }
{
    u32::from_le_bytes([bytes[at], bytes[at + 1], bytes[at + 2], bytes[at + 3]])
}

/// What is read of a program header.
#[derive(Clone, Copy)]
pub struct ProgramHeader {
    /// 1 for bytes that are loaded.
    pub kind: u32,
    /// Where its bytes begin in the file.
    pub offset: u32,
    /// The physical address that they are loaded at.
    pub address: u32,
    /// How many bytes the file has of it.
    pub file_size: u32,
    /// How many bytes it has in memory.
    pub memory_size: u32,
}

impl ProgramHeader {
    /// Whether it loads bytes of the file.
    fn loads(&self) -> bool
        ensures { result ≡ loads self.now }
    {
        self.kind == 1 && self.file_size > 0
    }
}

/// The program header at the front of a table.
fn program_header(table: &[u8]) -> ProgramHeader
    requires { 32 ≤ length table.now }
    ensures { result ≡ header_at table.now }
{
    ProgramHeader {
        kind: word(table, 0),
        offset: word(table, 4),
        address: word(table, 12),
        file_size: word(table, 16),
        memory_size: word(table, 20),
    }
}

/// Which check of the file header fails first.
fn header_refusal(bytes: &[u8]) -> Option<ImageErr>
    requires small { length bytes.now < 2 ^ 31 }
    ensures { result ≡ first_failing (header_checks bytes.now) }
{
    let at = bytes.len() as u32;
    if bytes.len() < HEADER_SIZE {
        return Some(ImageErr::Truncated { at });
    }
    if bytes[4] != 1 {
        return Some(ImageErr::Class);
    }
    if bytes[5] != 1 {
        return Some(ImageErr::Order);
    }
    if half(bytes, 16) != 2 {
        return Some(ImageErr::Kind);
    }
    if half(bytes, 18) != 40 {
        return Some(ImageErr::Machine);
    }
    let count = half(bytes, 44);
    if count != 0 && half(bytes, 42) as usize != ENTRY_SIZE {
        return Some(ImageErr::Header);
    }
    if count > MOST_HEADERS {
        return Some(ImageErr::TooMany);
    }
    if word(bytes, 28) as usize + ENTRY_SIZE * count as usize > bytes.len() {
        return Some(ImageErr::Truncated { at });
    }
    None
}

/// The image with one more segment, which program header `number` asks for.
fn with_segment(image: Image, number: u32, address: u32, bytes: Vec<u8>) -> Result<Image, ImageErr>
    ensures { GivesImage result (place_in number (segment address bytes.items) image) }
{
    let mut image = image;
    match image.add(address, bytes) {
        Ok(()) => Ok(image),
        Err(ImageErr::Segment { .. }) => Err(ImageErr::Segment { index: number }),
        Err(_) => Err(ImageErr::OutOfMemory),
    }
}

/// A copy of `size` bytes from `start` on.
fn part(alloc: Global, bytes: &[u8], start: usize, size: usize) -> Result<Vec<u8>, AllocError>
    requires { start + size ≤ length bytes.now }
    ensures { IfOk result (λ part. part.items ≡ take size (drop start bytes.now)) }
{
    bytes[start..start + size].to_vec(alloc)
}

/// The image with what program header `number` loads.
fn load(
    alloc: Global,
    bytes: &[u8],
    number: u32,
    header: &ProgramHeader,
    image: Image,
) -> Result<Image, ImageErr>
    requires small { length bytes.now < 2 ^ 31 }
    ensures { GivesImage result (load_in bytes.now number header.now image) }
{
    if !header.loads() {
        return Ok(image);
    }
    let start = header.offset as usize;
    let size = header.file_size as usize;
    if start + size > bytes.len() {
        let at = bytes.len() as u32;
        return Err(ImageErr::Truncated { at });
    }
    if header.memory_size < header.file_size {
        return Err(ImageErr::Segment { index: number });
    }
    let Ok(part) = part(alloc, bytes, start, size) else {
        return Err(ImageErr::OutOfMemory);
    };
    with_segment(image, number, header.address, part)
}

/// What the program headers of a table load.
fn load_all(alloc: Global, bytes: &[u8], table: &[u8], count: u16) -> Result<Image, ImageErr>
    requires small { length bytes.now < 2 ^ 31 }
    requires whole { 32 * count ≤ length table.now }
    ensures { GivesImage result (loads_in bytes.now 0 (headers_in count table.now) []) }
{
    let mut image = Image::new(alloc);
    for number in 0..count {
        let header = program_header(&table[ENTRY_SIZE * number as usize..]);
        image = load(alloc, bytes, number as u32, &header, image)?;
    }
    Ok(image)
}

/// The image that an ELF file loads.
fn read_elf(alloc: Global, bytes: &[u8]) -> Result<Image, ImageErr>
    requires small { length bytes.now < 2 ^ 31 }
    ensures value { GivesImage result (elf_in bytes.now) }
    ensures refused { (e : ImageErr) → first_failing (header_checks bytes.now) ≡ Some e → result ≡ Err e }
{
    match header_refusal(bytes) {
        Some(refusal) => Err(refusal),
        None => {
            let table = &bytes[word(bytes, 28) as usize..];
            load_all(alloc, bytes, table, half(bytes, 44))
        }
    }
}

/// The image of bytes that lie in flash from 0 on.
#[tactic(auto, unfolding(crate::specs::ReadImage::flat_in))]
fn read_flat(alloc: Global, bytes: &[u8]) -> Result<Image, ImageErr>
    ensures value { GivesImage result (flat_in bytes.now) }
    ensures refused { (e : ImageErr) → first_failing (flat_checks bytes.now) ≡ Some e → result ≡ Err e }
{
    if bytes.len() < SHORTEST {
        return Err(ImageErr::Short);
    }
    if bytes.len() > LONGEST {
        return Err(ImageErr::Long);
    }
    let Ok(copy) = bytes.to_vec(alloc) else {
        return Err(ImageErr::OutOfMemory);
    };
    let mut image = Image::new(alloc);
    image.add(0, copy)?;
    Ok(image)
}

/// The image of a file, by its first bytes.
#[tactic(auto, unfolding(crate::specs::ReadImage::image_in))]
fn read_file(alloc: Global, bytes: &[u8]) -> Result<Image, ImageErr>
    requires small { length bytes.now < 2 ^ 31 }
    ensures value { GivesImage result (image_in bytes.now) }
    ensures refused { (e : ImageErr) → first_failing (first_checks bytes.now) ≡ Some e → result ≡ Err e }
{
    if bytes.starts_with(b"\x7fELF") {
        read_elf(alloc, bytes)
    } else {
        read_flat(alloc, bytes)
    }
}

/// The image that the bytes of a file hold, fewer than 2^31 of them: an ELF file where they begin with 7f 45 4c 46, else a flat image.
///
/// A flat image lies in flash from 0 on; it has at least 8 bytes, else Short, and at most 1,048,576, else Long. An ELF file is refused by the
/// first of these checks that fails: the file header is whole (Truncated), of 32 bits (Class), the least significant byte first (Order), of an
/// executable file (Kind) for Arm (Machine), whose program headers, if any, have 32 bytes (Header); there are at most 64 (TooMany), and they lie
/// in the file (Truncated). Then each program header that loads bytes is taken, in order: its bytes lie in the file (Truncated), it has room for
/// them in memory, and they lie whole in flash or in SRAM, at its physical address, and overlap none before (Segment, with its number from 0).
/// Truncated has the file's length. And OutOfMemory. It takes time that is linear in the file.
pub fn read_image(alloc: Global, bytes: &[u8]) -> Result<Image, ImageErr>
    requires small { length bytes.now < 2 ^ 31 }
    // What is read is what the file holds.
    ensures found { IfOk result (λ image. IsImageFile bytes.now image) }
    // What the file holds is read, unless memory was wanted.
    ensures only { (image : List Segment) → IsImageFile bytes.now image → GivesImage result (Ok image) }
    // Which refusal it is.
    ensures exact { GivesImage result (image_in bytes.now) }
    // What is refused before a segment is looked at wants no memory.
    ensures refused { (e : ImageErr) → first_failing (first_checks bytes.now) ≡ Some e → result ≡ Err e }
{
    read_file(alloc, bytes)
}
