//! Sources of assembly and listings of images.

use crate::images::segments;
use crate::input::{hexadecimal, image_of};
use anyhow::{Result, bail, ensure};
use hm_asm::{AsmErr, AsmKind, assemble};
use hm_base::{FLASH_SIZE, OutOfMemory};
use hm_listing::listing;
use hm_sched::{LineKind, SchedErr};
use std::alloc::Global;
use std::str::SplitWhitespace;

/// The most bytes that a source may have here.
const LONGEST: usize = 16_777_216;

/// The image of a source, or what it is refused for.
pub fn assembled(alloc: Global, input: &[u8]) -> Result<String> {
    ensure!(input.len() <= LONGEST, "the source is too long");
    let text = match assemble(alloc, input) {
        Ok(image) => segments(alloc, &image),
        Err(AsmErr::Line { line, column, kind }) => format!(in alloc;
            "{kind:?} at {line}:{column}"
        ),
        Err(AsmErr::OutOfMemory) => bail!("out of memory"),
    };
    Ok(text?)
}

/// The listing of an image between two addresses.
pub fn listed(alloc: Global, words: &mut SplitWhitespace<'_>, input: &[u8]) -> Result<String> {
    let lo = hexadecimal(words)?;
    let hi = hexadecimal(words)?;
    ensure!(lo % 2 == 0 && hi % 2 == 0, "an address is odd");
    ensure!(lo <= hi && hi <= FLASH_SIZE, "no such range");
    let image = image_of(alloc, input)?;
    let lines = listing(alloc, &image, lo, hi)?;
    Ok(format!(in alloc; "\"{}\"", lines.escape_ascii())?)
}

/// The words of a refusal.
pub fn refusal(alloc: Global, input: &[u8]) -> Result<String> {
    let line = 1;
    let column = 2;
    let kind = AsmKind::Row;
    let text = match input {
        b"source" => AsmErr::Line { line, column, kind }.to_string(alloc),
        b"memory" => AsmErr::from(OutOfMemory).to_string(alloc),
        b"ticks" => SchedErr::TooManyTicks { line: 5 }.to_string(alloc),
        b"schedule" => {
            let kind = LineKind::Steps;
            SchedErr::Line { line: 5, kind }.to_string(alloc)
        }
        _ => bail!("no such refusal"),
    };
    Ok(text?)
}
