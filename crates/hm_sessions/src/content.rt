//! How lines say what bytes are.

use crate::named::{Named, find, read_number};
use anyhow::{Context, Result};
use hm_host::MemHost;
use std::alloc::Global;

/// The bytes of hexadecimal words.
fn hex_bytes(alloc: Global, text: &str) -> Result<Vec<u8>> {
    let mut bytes = Vec::new(alloc);
    for word in text.split_whitespace() {
        let some = hex::decode(alloc, word).context("no bytes")?;
        bytes.extend_from_slice(&some)?;
    }
    Ok(bytes)
}

/// A line of text with its end.
fn line_bytes(alloc: Global, text: &str) -> Result<Vec<u8>> {
    let mut bytes = text.as_bytes().to_vec(alloc)?;
    bytes.push(b'\n')?;
    Ok(bytes)
}

/// A number and the bytes of a name.
fn counted<'a>(named: &'a [Named], text: &str) -> Result<(usize, &'a [u8])> {
    let mut words = text.split_whitespace();
    let count = read_number(words.next())?;
    let all = find(named, words.next().context("a name is wanted")?)?;
    Ok((count, all))
}

/// The first bytes of some that have a name, behind how many they are.
fn front_bytes(alloc: Global, named: &[Named], text: &str) -> Result<Vec<u8>> {
    let (count, all) = counted(named, text)?;
    Ok(all.get(..count).context("too few bytes")?.to_vec(alloc)?)
}

/// The bytes behind the first of some that have a name, behind how many these are.
fn other_bytes(alloc: Global, named: &[Named], text: &str) -> Result<Vec<u8>> {
    let (count, all) = counted(named, text)?;
    Ok(all.get(count..).context("too few bytes")?.to_vec(alloc)?)
}

/// The bytes of some that have a name, again and again, behind how often.
fn repeated_bytes(alloc: Global, named: &[Named], text: &str) -> Result<Vec<u8>> {
    let (count, all) = counted(named, text)?;
    let mut bytes = Vec::new(alloc);
    for _time in 0..count {
        bytes.extend_from_slice(all)?;
    }
    Ok(bytes)
}

/// The bytes that a line has itself; None where it is no such line.
fn own_content(alloc: Global, word: &str, text: &str) -> Result<Option<Vec<u8>>> {
    let bytes = match word {
        "|" => line_bytes(alloc, text)?,
        "text" => text.as_bytes().to_vec(alloc)?,
        "hex" => hex_bytes(alloc, text)?,
        "zeros" => vec![in alloc; 0; read_number(Some(text))?]?,
        _ => return Ok(None),
    };
    Ok(Some(bytes))
}

/// The bytes that a line makes of those of a name; None where it is no such line.
fn named_content(
    alloc: Global,
    named: &[Named],
    word: &str,
    text: &str,
) -> Result<Option<Vec<u8>>> {
    let bytes = match word {
        "add" => find(named, text)?.to_vec(alloc)?,
        "front" => front_bytes(alloc, named, text)?,
        "times" => repeated_bytes(alloc, named, text)?,
        "behind" => other_bytes(alloc, named, text)?,
        _ => return Ok(None),
    };
    Ok(Some(bytes))
}

/// The bytes that a host has; None where a line asks for none.
fn host_content(alloc: Global, host: &MemHost, word: &str, text: &str) -> Result<Option<Vec<u8>>> {
    let bytes = match word {
        "written" => host.file(text).context("no such file")?,
        "printed" => host.printed(),
        _ => return Ok(None),
    };
    Ok(Some(bytes.to_vec(alloc)?))
}

/// The bytes that a line says by its first word and the text behind it; None where it is no such line.
pub fn content(
    alloc: Global,
    named: &[Named],
    host: &MemHost,
    word: &str,
    text: &str,
) -> Result<Option<Vec<u8>>> {
    if let Some(bytes) = own_content(alloc, word, text)? {
        return Ok(Some(bytes));
    }
    if let Some(bytes) = host_content(alloc, host, word, text)? {
        return Ok(Some(bytes));
    }
    named_content(alloc, named, word, text)
}

/// Puts a byte in the place of another: where it stands, and the byte.
pub fn put(bytes: &mut [u8], text: &str) -> Result<()> {
    let (at, byte) = text.split_once(' ').context("a byte is wanted")?;
    let place = bytes
        .get_mut(read_number(Some(at))?)
        .context("no such place")?;
    *place = u8::from_str_radix(byte, 16).context("no byte")?;
    Ok(())
}
