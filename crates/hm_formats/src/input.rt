//! What a question is asked of, where that is more than the bytes of its line.

use anyhow::{Context, Result, bail};
use hm_base::Image;
use std::alloc::{AllocError, Global};
use std::str::SplitWhitespace;

/// The next word, a decimal number.
fn count(words: &mut SplitWhitespace<'_>) -> Result<usize> {
    let word = words.next().context("a number is wanted")?;
    word.parse::<usize>().context("no number")
}

/// The next word, a hexadecimal number.
pub fn hexadecimal(words: &mut SplitWhitespace<'_>) -> Result<u32> {
    let word = words.next().context("a number is wanted")?;
    u32::from_str_radix(word, 16).context("no number")
}

/// The bytes of three slices, one behind the other.
fn joined(alloc: Global, front: &[u8], middle: &[u8], end: &[u8]) -> Result<Vec<u8>, AllocError> {
    let mut bytes = Vec::from_slice(alloc, front)?;
    bytes.extend_from_slice(middle)?;
    bytes.extend_from_slice(end)?;
    Ok(bytes)
}

/// What stands before a place, and what stands behind so many bytes from there on.
fn around(base: &[u8], at: usize, length: usize) -> Option<(&[u8], &[u8])> {
    Some((base.get(..at)?, base.get(at.checked_add(length)?..)?))
}

/// Bytes with others so many times behind them.
fn repeated(alloc: Global, base: &[u8], count: usize, input: &[u8]) -> Result<Vec<u8>, AllocError> {
    let mut bytes = Vec::from_slice(alloc, base)?;
    for _ in 0..count {
        bytes.extend_from_slice(input)?;
    }
    Ok(bytes)
}

/// The bytes of a line alone, or what words make of them and of the base: `behind` it, `at` a place of it, behind its `first` ones,
/// or so many `times` behind it.
pub fn made(
    alloc: Global,
    base: &[u8],
    words: &mut SplitWhitespace<'_>,
    input: &[u8],
) -> Result<Vec<u8>> {
    let bytes = match words.next() {
        None => joined(alloc, b"", input, b""),
        Some("behind") => joined(alloc, base, input, b""),
        Some("times") => repeated(alloc, base, count(words)?, input),
        Some("first") => {
            let front = base.get(..count(words)?).context("too few bytes")?;
            joined(alloc, front, input, b"")
        }
        Some("at") => {
            let (front, end) = around(base, count(words)?, input.len()).context("no such place")?;
            joined(alloc, front, input, end)
        }
        Some(_) => bail!("no such way"),
    };
    Ok(bytes?)
}

/// Bytes as text.
pub fn text(input: &[u8]) -> Result<&str> {
    std::str::from_utf8(input).context("no text")
}

/// Adds a segment to an image: its address and its bytes.
fn add_segment(alloc: Global, image: &mut Image, segment: &str) -> Result<()> {
    let (address, digits) = segment.split_once(' ').context("no bytes")?;
    let address = u32::from_str_radix(address, 16).context("no address")?;
    image.add(address, hex::decode(alloc, digits).context("no digits")?)?;
    Ok(())
}

/// The image of a text: for each segment its address and its bytes, with commas between them.
pub fn image_of(alloc: Global, input: &[u8]) -> Result<Image> {
    let mut image = Image::new(alloc);
    if input.is_empty() {
        return Ok(image);
    }
    for segment in text(input)?.split(',') {
        add_segment(alloc, &mut image, segment)?;
    }
    Ok(image)
}
