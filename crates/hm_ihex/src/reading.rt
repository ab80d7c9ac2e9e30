//! Files of Intel HEX.

ghost use Rattle.std.specs.Prelude.{◌≡◌, ◌+◌, ◌<◌, ◌≤◌, ◌^◌, ℕ, List, Ok, Some, ◌∷◌, length, IfOk};
ghost use Rattle.hm_base.specs.Image.{Segment};
ghost use Rattle.hm_base.specs.Results.{GivesImage};
ghost use Rattle.hm_text_base.specs.Spans.{lines_of};
ghost use Rattle.hm_ihex.specs.Files.{all_lines, ended_by, first_reading, hex_in, without_return};
ghost use Rattle.hm_ihex.specs.HexFile.{IsHexFile};
ghost use Rattle.hm_ihex.specs.Meant.{IfData, IsNext, cells_of, reading_of, record_meant};
ghost use Rattle.hm_ihex.specs.Records.{line_in};

use crate::areas::Areas;
use crate::collect::image_of;
use crate::record::{Record, read_bytes, read_record};
use hm_base::{Image, ImageErr, OutOfMemory};
use hm_text_base::span;
use std::alloc::Global;

/// A line, and what stands behind it. The last line may have no end.
struct Cut<'a> {
    line: &'a [u8],
    rest: &'a [u8],
}

/// A line without the CR that may stand before its LF.
fn without_return(line: &[u8]) -> &[u8]
    ensures value { result.now ≡ without_return line.now }
{
    if !line.is_empty() && line[line.len() - 1] == b'\r' {
        &line[..line.len() - 1]
    } else {
        line
    }
}

/// The first line of a text that is not empty.
fn first_line(text: &[u8]) -> Cut<'_>
    requires some { 0 < length text.now }
    ensures lines { all_lines (lines_of text.now) ≡ result.line.now ∷ all_lines (lines_of result.rest.now) }
    ensures shorter { length result.rest.now < length text.now }
{
    let (line, rest) = span(b'\n', text);
    if rest.is_empty() {
        return Cut { line, rest };
    }
    Cut {
        line: without_return(line),
        rest: &rest[1..],
    }
}

/// What is known behind some lines: the base, the cells, and how many data records there were.
#[derive(Drop)]
pub struct State {
    base: u32,
    areas: Areas,
    count: u32,
}

/// What follows a line.
#[derive(Clone, Copy)]
pub enum Next {
    /// Other lines.
    More,
    /// Nothing.
    End,
}

/// Takes in what a record says.
fn take_in(said: Record<'_>, state: &mut State) -> Result<Next, ImageErr>
    requires few { state.old.count < 4294967295 }
    requires short { IfData (λ bytes. length bytes < 4294967296) (record_meant said) }
    ensures next { (k : ℕ) → IsNext k (reading_of state.old) (reading_of state.new) (Some (record_meant said.entry)) result }
    ensures count { state.new.count ≤ state.old.count + 1 }
{
    match said {
        Record::Data { offset, bytes } => {
            let address = u64::from(state.base) + u64::from(offset);
            let count = state.count;
            if !state.areas.add(address, bytes) {
                return Err(ImageErr::Segment { index: count });
            }
            state.count = count + 1;
            Ok(Next::More)
        }
        Record::End => Ok(Next::End),
        Record::Base { address } => {
            state.base = address;
            Ok(Next::More)
        }
        Record::Start => Ok(Next::More),
    }
}

/// Reads a line, and takes in what it says.
fn follow(alloc: Global, line: &[u8], number: u32, state: &mut State) -> Result<Next, ImageErr>
    requires few { state.old.count < 4294967295 }
    ensures next { IsNext number (reading_of state.old) (reading_of state.new) (line_in line.now) result }
    ensures count { state.new.count ≤ state.old.count + 1 }
{
    let Some(digits) = line.strip_prefix(b":") else {
        return Err(ImageErr::Hex { line: number });
    };
    let bytes = match read_bytes(alloc, digits) {
        Ok(Some(bytes)) => bytes,
        Ok(None) => return Err(ImageErr::Hex { line: number }),
        Err(_) => return Err(ImageErr::OutOfMemory),
    };
    match read_record(&bytes) {
        Some(record) => take_in(record, state),
        None => Err(ImageErr::Hex { line: number }),
    }
}

/// The image of cells behind the end record, or the refusal of the line that follows it.
fn finish(alloc: Global, areas: &Areas, rest: &[u8], number: u32) -> Result<Image, ImageErr>
    requires few { number < 4294967295 }
    ensures value { GivesImage result (ended_by number (cells_of areas.now) (all_lines (lines_of rest.now))) }
{
    if !rest.is_empty() {
        return Err(ImageErr::Hex { line: number + 1 });
    }
    match image_of(alloc, areas) {
        Ok(image) => Ok(image),
        Err(_) => Err(ImageErr::OutOfMemory),
    }
}

/// The state before the first line.
fn first_state(alloc: Global) -> Result<State, OutOfMemory>
    ensures value { IfOk result (λ s. reading_of s ≡ first_reading) }
    ensures none { IfOk result (λ s. s.count ≡ 0) }
{
    let areas = Areas::free(alloc)?;
    Ok(State {
        base: 0,
        areas,
        count: 0,
    })
}

/// Reads the lines of a file in turn.
fn read_lines(alloc: Global, bytes: &[u8]) -> Result<Image, ImageErr>
    requires short { length bytes.now < 2 ^ 31 }
    ensures exact { GivesImage result (hex_in bytes.now) }
{
    let Ok(mut state) = first_state(alloc) else {
        return Err(ImageErr::OutOfMemory);
    };
    let mut rest = bytes;
    let mut number = 1;
    while !rest.is_empty() {
        let Cut { line, rest: more } = first_line(rest);
        match follow(alloc, line, number, &mut state) {
            Ok(Next::More) => {}
            Ok(Next::End) => return finish(alloc, &state.areas, more, number),
            Err(e) => return Err(e),
        }
        rest = more;
        number += 1;
    }
    Err(ImageErr::Hex { line: number })
}

/// The image of a file of Intel HEX: records of kinds 00 to 05, of which 03 and 05 are not read.
///
/// Its segments are the longest runs of given bytes, parted at the end of flash, however the records lie and in whatever order they come.
/// Hex is refused at the first line that is no record, or that follows the end record, or at one past the last line where the end record is
/// missing; Segment at the first data record that lies not whole in flash or whole in SRAM, or that gives a byte already given, by its number
/// among the data records. The first such line is answered. It takes a time that grows with the bytes of the file, beside that of the 1,310,720 bytes
/// that an image may have.
pub fn read_hex(alloc: Global, bytes: &[u8]) -> Result<Image, ImageErr>
    requires short { length bytes.now < 2 ^ 31 }
    // What is read is what the file holds.
    ensures found { IfOk result (λ image. IsHexFile bytes.now image) }
    // What the file holds is read, unless memory was wanted.
    ensures only { (image : List Segment) → IsHexFile bytes.now image → GivesImage result (Ok image) }
    // Which refusal it is.
    ensures exact { GivesImage result (hex_in bytes.now) }
{
    read_lines(alloc, bytes)
}
