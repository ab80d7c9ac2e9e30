//! Bytes that have names.

use anyhow::{Context, Result};
use std::alloc::Global;

/// Bytes and their name.
#[derive(Drop)]
pub struct Named {
    pub name: String,
    pub bytes: Vec<u8>,
}

impl Named {
    /// Bytes of this name.
    pub fn new(alloc: Global, name: &str, bytes: Vec<u8>) -> Result<Named> {
        Ok(Named {
            name: String::from_str(alloc, name)?,
            bytes,
        })
    }
}

/// The bytes that were last given the name.
pub fn find<'a>(all: &'a [Named], name: &str) -> Result<&'a [u8]> {
    for named in all.iter().rev() {
        if named.name.as_str() == name {
            return Ok(&named.bytes);
        }
    }
    anyhow::bail!("no bytes {name}")
}

/// A decimal number.
pub fn read_number(word: Option<&str>) -> Result<usize> {
    let word = word.context("a number is wanted")?;
    word.parse::<usize>().context("no number")
}
