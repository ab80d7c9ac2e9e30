//! Images written as Intel HEX.

ghost use Rattle.std.specs.Prelude.{◌≡◌, ◌⊎◌, ◌+◌, ◌*◌, ◌/◌, ◌%◌, ◌<◌, ◌≤◌, ◌++◌, ◌∷◌, ℕ, List, [], Ok, IfOk, OnOk, length};
ghost use Rattle.std.specs.List.{AllByRecursion, flat_map};
ghost use Rattle.hm_base.specs.Image.{IsPlaced, Segment, segment};
ghost use Rattle.hm_text_base.specs.Spans.{line};
ghost use Rattle.hm_ihex.specs.Files.{hex_in};
ghost use Rattle.hm_ihex.specs.Written.{base_lines, check_of, data_text, digit, digits_of, end_text, hex_file, joined, pieces, record_text, room_at, text_of};

use crate::record::sum;
use hm_base::{Image, OutOfMemory};
use hm_text_base::text;
use std::alloc::Global;

/// A hexadecimal digit in upper case.
fn digit(d: u8) -> u8
    requires { d < 16 }
    ensures value { result ≡ digit d }
{
    if d < 10 { b'0' + d } else { b'A' - 10 + d }
}

/// Adds two digits for each byte.
#[tactic(auto, using(crate::proofs::WrittenLines::digits_more, crate::proofs::WrittenLines::digits_all))]
fn add_digits(out: &mut Vec<u8>, bytes: &[u8]) -> Result<(), OutOfMemory>
    ensures added { OnOk result (out.new.items ≡ out.old.items ++ digits_of bytes.now) }
{
    for byte in bytes {
        text(out, &[digit(*byte / 16), digit(*byte % 16)])?;
    }
    Ok(())
}

/// The check byte of a record, of which the bytes are given in two parts.
fn check(head: &[u8], bytes: &[u8]) -> u8
    ensures value { result ≡ check_of (head.now ++ bytes.now) }
{
    let total = (sum(head) + sum(bytes)) % 256;
    ((256 - total) % 256) as u8
}

/// Adds the line of a record, of which the bytes are given in two parts.
fn add_record(out: &mut Vec<u8>, head: &[u8], bytes: &[u8]) -> Result<(), OutOfMemory>
    ensures added { OnOk result (out.new.items ≡ out.old.items ++ line (record_text (head.now ++ bytes.now))) }
{
    text(out, b":")?;
    add_digits(out, head)?;
    add_digits(out, bytes)?;
    add_digits(out, &[check(head, bytes)])?;
    text(out, b"\n")?;
    Ok(())
}

/// Adds the line of data at an address.
fn add_data(out: &mut Vec<u8>, address: u32, bytes: &[u8]) -> Result<(), OutOfMemory>
    requires few { length bytes.now < 256 }
    ensures added { OnOk result (out.new.items ≡ out.old.items ++ line (data_text (address % 65536) bytes.now)) }
{
    let offset = address % 65_536;
    let head = [
        bytes.len() as u8,
        (offset / 256) as u8,
        (offset % 256) as u8,
        0,
    ];
    add_record(out, &head, bytes)
}

/// Adds the line of a new base, where the upper half of an address is not the last one.
fn add_base(out: &mut Vec<u8>, last: u32, address: u32) -> Result<(), OutOfMemory>
    ensures added { OnOk result (out.new.items ≡ out.old.items ++ flat_map line (base_lines last address)) }
{
    let upper = address / 65_536;
    if upper == last {
        return Ok(());
    }
    add_record(
        out,
        &[2, 0, 0, 4],
        &[(upper / 256) as u8, (upper % 256) as u8],
    )
}

/// Adds the lines of a piece: that of a new base, where there is one, and that of its data.
fn add_piece(out: &mut Vec<u8>, last: u32, address: u32, bytes: &[u8]) -> Result<(), OutOfMemory>
    requires few { length bytes.now < 256 }
    ensures added { OnOk result (out.new.items
        ≡ (out.old.items ++ flat_map line (base_lines last address)) ++ line (data_text (address % 65536) bytes.now)) }
{
    add_base(out, last, address)?;
    add_data(out, address, bytes)
}

/// How many bytes a record from an address on may have.
fn room_at(address: u32) -> usize
    ensures value { result ≡ room_at address }
    ensures some { (1 ≤ result) × (result ≤ 16) }
{
    (65_536 - address % 65_536).min(16) as usize
}

/// Where a piece ends that begins at a byte and has so much room.
fn piece_end(count: usize, at: usize, room: usize) -> usize
    requires within { at < count }
    requires few { (1 ≤ room) × (room ≤ 16) }
    ensures end { ((at + room ≤ count) × (result ≡ at + room)) ⊎ ((count < at + room) × (result ≡ count)) }
    ensures some { at < result }
    ensures last { result ≤ count }
    ensures short { result ≤ at + 16 }
{
    at + room.min(count - at)
}

/// Adds the lines of the pieces of a segment, behind a base with this upper half. The answer is the upper half behind them.
fn add_segment(out: &mut Vec<u8>, last: u32, address: u32, bytes: &[u8]) -> Result<u32, OutOfMemory>
    requires within { address + length bytes.now ≤ 4294967296 }
    ensures added { IfOk result (λ upper. (rest : List Segment)
        → out.new.items ++ text_of upper rest ≡ out.old.items ++ text_of last (pieces (length bytes.now) address bytes.now ++ rest)) }
    ensures bytes { IfOk result (λ _. AllByRecursion (λ b. b < 256) bytes.now) }
{
    let mut upper = last;
    let mut at = 0;
    while at < bytes.len() {
        let start = address + at as u32;
        let end = piece_end(bytes.len(), at, room_at(start));
        add_piece(out, upper, start, &bytes[at..end])?;
        upper = start / 65_536;
        at = end;
    }
    Ok(upper)
}

/// The one file of Intel HEX of an image: upper-case digits, each segment from its first byte in records of 16 bytes, a shorter one at its end or
/// at a multiple of 65,536, a record of kind 04 where the upper half of an address changes, and the end record. Read again, it gives the image,
/// those segments that touch made one.
pub fn write_hex(alloc: Global, image: &Image) -> Result<Vec<u8>, OutOfMemory>
    ensures text { IfOk result (λ v. v.items ≡ hex_file image.now) }
    ensures read_back { IfOk result (λ v. hex_in v.items ≡ Ok (joined image.now)) }
{
    let mut out = Vec::new(alloc);
    let mut upper = 0;
    for k in 0..image.len() {
        let (address, bytes) = image.segment(k);
        upper = add_segment(&mut out, upper, address, bytes)?;
    }
    text(&mut out, b":00000001FF\n")?;
    Ok(out)
}
