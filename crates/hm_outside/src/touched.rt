//! What a beat touches, in words.

use hm_base::{Places, Spans};
use hm_beat::Touch;
use std::alloc::AllocError;
use std::fmt::Write;

/// Adds a line of places.
fn add_places(name: &str, places: &Places, lines: &mut String) -> Result<(), AllocError> {
    lines.push_str(name)?;
    for k in 0..places.len() {
        write!(lines, " {:?}", places.at(k))?;
    }
    lines.push('\n')
}

/// Adds a line of bytes of memory.
fn add_spans(name: &str, spans: &Spans, lines: &mut String) -> Result<(), AllocError> {
    lines.push_str(name)?;
    for span in spans.as_slice() {
        write!(lines, " {:08x}+{}", span.addr, span.len)?;
    }
    lines.push('\n')
}

/// Adds what a beat reads, writes, loads and stores, a line each.
pub fn add_touch(touch: &Touch, lines: &mut String) -> Result<(), AllocError> {
    add_places("reads", &touch.reads, lines)?;
    add_places("writes", &touch.writes, lines)?;
    add_spans("loads", &touch.loads, lines)?;
    add_spans("stores", &touch.stores, lines)
}
