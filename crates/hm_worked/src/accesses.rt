//! Accesses of a memory, one by one.

ghost use Rattle.std.specs.Prelude.{◌≡◌, ◌≤◌};

use crate::words::{Stopped, alignment, length, read_number};
use anyhow::{Result, bail, ensure};
use hm_base::{Image, Stop};
use hm_mem::{Access, Actor, Mem};
use std::alloc::{AllocError, Global};
use std::str::SplitWhitespace;

/// A memory of a blank image: where handlers may store from, up to where, and the floor.
pub fn blank(alloc: Global, words: &mut SplitWhitespace<'_>) -> Result<Mem> {
    let lo = read_number(words)?;
    let hi = read_number(words)?;
    let floor = read_number(words)?;
    ensure!(
        0x2000_0000 <= lo && lo <= hi && hi <= 0x2004_0000,
        "no region"
    );
    ensure!(0x2000_0000 <= floor && floor <= 0x2004_0000, "no floor");
    Ok(Mem::new(alloc, &Image::new(alloc), lo, hi, floor, floor)?)
}

/// Who accesses from now on: the thread, or a handler with its frame.
pub fn actor(words: &mut SplitWhitespace<'_>) -> Result<Actor> {
    match words.next() {
        Some("thread") => Ok(Actor::Thread),
        Some("handler") => Ok(Actor::Handler {
            frame: read_number(words)?,
        }),
        _ => bail!("nobody"),
    }
}

/// How an access ended that gives nothing.
fn ended(alloc: Global, end: Result<(), Stop>) -> Result<String, AllocError> {
    match end {
        Ok(()) => String::from_str(alloc, "done"),
        Err(stop) => Stopped(stop).to_string(alloc),
    }
}

/// What an access would stop for: how it is aligned, the address and how many bytes.
pub fn checked(
    alloc: Global,
    words: &mut SplitWhitespace<'_>,
    mem: &Mem,
    write: bool,
) -> Result<String> {
    let how = alignment(words)?;
    let addr = read_number(words)?;
    let len = length(words)?;
    Ok(ended(alloc, mem.check(addr, len, how, write))?)
}

/// What a load gives: the address and how many bytes.
pub fn loaded(alloc: Global, words: &mut SplitWhitespace<'_>, mem: &mut Mem) -> Result<String> {
    let addr = read_number(words)?;
    let len = length(words)?;
    match mem.load(addr, len, Access::Scalar) {
        Ok(value) => Ok(format!(in alloc; "{value:08x}")?),
        Err(stop) => Ok(Stopped(stop).to_string(alloc)?),
    }
}

/// How a store ends: the address, how many bytes and the value.
pub fn stored(alloc: Global, words: &mut SplitWhitespace<'_>, mem: &mut Mem) -> Result<String> {
    let addr = read_number(words)?;
    let len = length(words)?;
    let value = read_number(words)?;
    Ok(ended(alloc, mem.store(addr, len, value, Access::Scalar))?)
}
