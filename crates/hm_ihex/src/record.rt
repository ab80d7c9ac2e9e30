//! A line of Intel HEX as a record.

ghost use Rattle.std.specs.Prelude.{◌≡◌, ◌+◌, ◌<◌, ◌≤◌, ◌%◌, option_map, IfOk, IfSome, length};
ghost use Rattle.hm_ihex.specs.Records.{byte_in, bytes_in, digit_in, record_in, record_of, sum_of};
ghost use Rattle.hm_ihex.specs.Meant.{record_meant};

use hm_base::OutOfMemory;
use std::alloc::Global;

/// What a record says.
#[derive(Clone, Copy)]
pub enum Record<'a> {
    /// Bytes at an offset from the base.
    Data { offset: u32, bytes: &'a [u8] },
    /// The file ends.
    End,
    /// A new base.
    Base { address: u32 },
    /// A start address, which is not read.
    Start,
}

/// The number of a hexadecimal digit, of either case.
fn read_digit(c: u8) -> Option<u8>
    ensures value { result ≡ digit_in c }
    ensures below { IfSome result (λ d. d < 16) }
{
    match c {
        b'0'..=b'9' => Some(c - b'0'),
        b'A'..=b'F' => Some(c - b'A' + 10),
        b'a'..=b'f' => Some(c - b'a' + 10),
        _ => None,
    }
}

/// The byte of two digits.
fn read_byte(high: u8, low: u8) -> Option<u8>
    ensures value { result ≡ byte_in high low }
{
    let high = read_digit(high)?;
    let low = read_digit(low)?;
    Some(16 * high + low)
}

/// The bytes of digits, two for each; None where a digit is none, or stands alone.
#[tactic(auto, using(crate::proofs::Loops::bytes_end, crate::proofs::Loops::bytes_alone))]
pub fn read_bytes(alloc: Global, digits: &[u8]) -> Result<Option<Vec<u8>>, OutOfMemory>
    ensures value { IfOk result (λ bytes. option_map (λ v. v.items) bytes ≡ bytes_in digits.now) }
{
    let mut bytes = Vec::new(alloc);
    let mut rest = digits;
    while rest.len() >= 2 {
        let Some(byte) = read_byte(rest[0], rest[1]) else {
            return Ok(None);
        };
        bytes.push(byte)?;
        rest = &rest[2..];
    }
    if rest.is_empty() {
        Ok(Some(bytes))
    } else {
        Ok(None)
    }
}

/// The sum of bytes, modulo 256.
#[tactic(auto, using(crate::proofs::Loops::sum_more, crate::proofs::Loops::sum_all))]
pub fn sum(bytes: &[u8]) -> u32
    ensures value { result ≡ sum_of bytes.now % 256 }
{
    let mut total = 0;
    for byte in bytes {
        total = (total + u32::from(*byte)) % 256;
    }
    total
}

/// The record of a kind.
fn record_of(kind: u8, offset: u32, bytes: &[u8]) -> Option<Record<'_>>
    requires offset { offset < 65536 }
    ensures value { option_map record_meant result ≡ record_of kind offset bytes.now }
{
    match kind {
        0 if offset as usize + bytes.len() <= 65_536 => Some(Record::Data { offset, bytes }),
        1 if bytes.is_empty() => Some(Record::End),
        2 if bytes.len() == 2 => Some(Record::Base {
            address: 16 * (256 * u32::from(bytes[0]) + u32::from(bytes[1])),
        }),
        4 if bytes.len() == 2 => Some(Record::Base {
            address: 65_536 * (256 * u32::from(bytes[0]) + u32::from(bytes[1])),
        }),
        3 | 5 if bytes.len() == 4 => Some(Record::Start),
        _ => None,
    }
}

/// The record that bytes are.
pub fn read_record(bytes: &[u8]) -> Option<Record<'_>>
    ensures value { option_map record_meant result ≡ record_in bytes.now }
{
    if bytes.len() < 5 || bytes.len() != bytes[0] as usize + 5 || sum(bytes) != 0 {
        return None;
    }
    let offset = 256 * u32::from(bytes[1]) + u32::from(bytes[2]);
    record_of(bytes[3], offset, &bytes[4..bytes.len() - 1])
}
