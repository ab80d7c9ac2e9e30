//! Images, and the files that they stand in.

use crate::input::image_of;
use anyhow::{Result, ensure};
use hm_base::Image;
use hm_elf::{read_image, write_image};
use std::alloc::{AllocError, Global};
use std::fmt::Write;

/// The most bytes that a file may have here.
const LONGEST: usize = 16_777_216;

/// The most bytes of a segment that are shown.
const MOST: usize = 64;

/// Adds a segment: its address and its bytes, or how many these are.
fn add_segment(
    alloc: Global,
    out: &mut String,
    address: u32,
    bytes: &[u8],
) -> Result<(), AllocError> {
    let count = bytes.len();
    if count > MOST {
        return write!(out, "{address:x} ({count} bytes)");
    }
    let digits = hex::encode(alloc, bytes)?;
    write!(out, "{address:x} {digits}")
}

/// The segments of an image, with commas between them.
pub fn segments(alloc: Global, image: &Image) -> Result<String, AllocError> {
    if image.len() == 0 {
        return String::from_str(alloc, "empty");
    }
    let mut out = String::new(alloc);
    for k in 0..image.len() {
        if k > 0 {
            out.push(',')?;
        }
        let (address, bytes) = image.segment(k);
        add_segment(alloc, &mut out, address, bytes)?;
    }
    Ok(out)
}

/// The image of a file, or what it is refused for.
pub fn read(alloc: Global, file: &[u8]) -> Result<String> {
    ensure!(file.len() <= LONGEST, "the file is too long");
    let text = match read_image(alloc, file) {
        Ok(image) => segments(alloc, &image),
        Err(e) => format!(in alloc; "{e:?}"),
    };
    Ok(text?)
}

/// The ELF file of an image, or what it is refused for.
pub fn written(alloc: Global, input: &[u8]) -> Result<String> {
    let text = match write_image(alloc, &image_of(alloc, input)?) {
        Ok(file) => hex::encode(alloc, &file),
        Err(e) => format!(in alloc; "{e:?}"),
    };
    Ok(text?)
}

/// How many bytes the ELF file of an image has, and the image that is read of it.
pub fn read_back(alloc: Global, input: &[u8]) -> Result<String> {
    let file = write_image(alloc, &image_of(alloc, input)?)?;
    let count = file.len();
    let image = read(alloc, &file)?;
    Ok(format!(in alloc; "{count} bytes: {image}")?)
}
