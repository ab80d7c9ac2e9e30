//! The cases of a file of instructions, and what they stand on.
//!
//! A line is one of these, where numbers but columns are hexadecimal, and `#` begins a comment behind the last word or alone:
//!
//! - `code ADDRESS CODE "TEXT"`: the code at the address is printed as the text, which is read as the code
//! - `read ADDRESS CODE "TEXT"`: the text, another spelling, is read as the code
//! - `none CODE`: no instruction has the code
//! - `table TABLE "TEXT"`: rows of this table alone have the text: narrow, wide, vector or none
//! - `refused KIND COLUMN ADDRESS "TEXT"`: the text at the address is refused so
//! - `labels NAME=ADDRESS ..`: the labels from here on
//! - `bytes ADDRESS BYTES`: bytes that stand in flash from here on
//! - `fetch ADDRESS CODE`: this code's instruction stands at the address
//! - `fault ADDRESS KIND`: none does, for this reason

use crate::input::hexadecimal;
use crate::instructions::{
    check_code, check_none, check_printed, check_read, check_refused, check_table, code_of,
};
use crate::words::{column, fault_kind, parts, refusal_kind, word};
use anyhow::{Context, Result, bail, ensure};
use hm_base::{Fault, Image, SRAM_START};
use hm_decode::fetch;
use hm_mem::Mem;
use hm_text::{Labels, TextErr};
use std::alloc::Global;
use std::io::Write;
use std::str::SplitWhitespace;

/// What the cases stand on.
#[derive(Drop)]
pub struct Setting {
    alloc: Global,
    labels: Labels,
    image: Image,
}

impl Setting {
    /// Neither labels nor bytes.
    pub fn new(alloc: Global) -> Setting {
        Setting {
            alloc,
            labels: Labels::new(alloc),
            image: Image::new(alloc),
        }
    }

    /// Takes a label.
    fn add_label(&mut self, text: &str) -> Result<()> {
        let (name, address) = text.split_once('=').context("no label")?;
        let address = u32::from_str_radix(address, 16).context("no address")?;
        ensure!(self.labels.add(name.as_bytes(), address)?, "twice a label");
        Ok(())
    }

    /// Takes labels in place of those before.
    fn set_labels(&mut self, words: &mut SplitWhitespace<'_>) -> Result<()> {
        self.labels = Labels::new(self.alloc);
        for word in words {
            self.add_label(word)?;
        }
        Ok(())
    }

    /// Takes bytes that stand in flash.
    fn add_bytes(&mut self, words: &mut SplitWhitespace<'_>) -> Result<()> {
        let address = hexadecimal(words)?;
        let bytes = hex::decode(self.alloc, word(words)?).context("no bytes")?;
        self.image.add(address, bytes)?;
        Ok(())
    }

    /// A memory with the bytes.
    fn memory(&self) -> Result<Mem> {
        Ok(Mem::new(
            self.alloc,
            &self.image,
            SRAM_START,
            SRAM_START,
            SRAM_START,
            SRAM_START,
        )?)
    }

    /// Checks which instruction stands at an address.
    fn check_fetch(&self, address: u32, code: u32) -> Result<()> {
        match fetch(&self.memory()?, address) {
            Ok(i) => check_code(&i, code),
            Err(fault) => bail!("here {fault:?}"),
        }
    }

    /// The fault at an address, where no instruction stands.
    fn fault_at(&self, address: u32) -> Result<Fault> {
        match fetch(&self.memory()?, address) {
            Ok(i) => bail!("here {:04x}", code_of(&i)),
            Err(fault) => Ok(fault),
        }
    }

    /// Checks why no instruction stands at an address.
    fn check_fault(&self, addr: u32, words: &mut SplitWhitespace<'_>) -> Result<()> {
        let kind = fault_kind(word(words)?).context("no kind")?;
        let here = self.fault_at(addr)?;
        ensure!(here == Fault { kind, addr }, "here {here:?}");
        Ok(())
    }

    /// Checks how a text is refused.
    fn check_refusal(&self, words: &mut SplitWhitespace<'_>, text: &str) -> Result<()> {
        let kind = refusal_kind(word(words)?).context("no kind")?;
        let column = column(words)?;
        let address = hexadecimal(words)?;
        check_refused(&self.labels, address, text, TextErr { column, kind })
    }

    /// Checks a text and a code at an address: both ways, or only that it is read so.
    fn check_text(
        &self,
        words: &mut SplitWhitespace<'_>,
        text: &str,
        is_printed: bool,
    ) -> Result<()> {
        let address = hexadecimal(words)?;
        let code = hexadecimal(words)?;
        if is_printed {
            check_printed(address, code, text)?;
        }
        check_read(&self.labels, address, code, text)
    }

    /// Checks a case with a text.
    fn check_quoted(&self, name: &str, words: &mut SplitWhitespace<'_>, text: &str) -> Result<()> {
        match name {
            "code" => self.check_text(words, text, true),
            "read" => self.check_text(words, text, false),
            "table" => check_table(word(words)?, text),
            "refused" => self.check_refusal(words, text),
            _ => bail!("no such case"),
        }
    }

    /// Checks a case without a text.
    fn check_plain(&self, name: &str, words: &mut SplitWhitespace<'_>) -> Result<()> {
        let first = hexadecimal(words)?;
        match name {
            "none" => check_none(first),
            "fetch" => self.check_fetch(first, hexadecimal(words)?),
            "fault" => self.check_fault(first, words),
            _ => bail!("no such case"),
        }
    }

    /// Takes a line without a text.
    fn take_plain(&mut self, name: &str, words: &mut SplitWhitespace<'_>) -> Result<()> {
        match name {
            "labels" => self.set_labels(words),
            "bytes" => self.add_bytes(words),
            _ => self.check_plain(name, words),
        }
    }

    /// Takes a line, and answers whether it is a case. A case that is otherwise than told is refused, with what is here.
    pub fn take(&mut self, line: &str) -> Result<bool> {
        if line.is_empty() || line.starts_with('#') {
            return Ok(false);
        }
        let (mut words, text) = parts(line)?;
        let name = word(&mut words)?;
        match text {
            Some(text) => self.check_quoted(name, &mut words, text)?,
            None => self.take_plain(name, &mut words)?,
        }
        if let Some(word) = words.next() {
            ensure!(word.starts_with('#'), "{word} is one word too many");
        }
        Ok(!matches!(name, "labels" | "bytes"))
    }
}

/// Writes a line for each case of a file that is otherwise than told, and how many cases there are and are so.
pub fn write_instructions<W: Write>(
    out: &mut W,
    alloc: Global,
    name: &str,
    text: &str,
) -> Result<()> {
    let mut setting = Setting::new(alloc);
    let mut cases = 0_u32;
    let mut differ = 0_u32;
    for (line, text) in (1_u32..).zip(text.lines()) {
        match setting.take(text) {
            Ok(is_case) => cases = cases.saturating_add(is_case as u32),
            Err(e) => {
                cases = cases.saturating_add(1);
                differ = differ.saturating_add(1);
                writeln!(out, "{name}:{line}: {text}: {e}")?;
            }
        }
    }
    writeln!(out, "{name}: {cases} cases, {differ} differ")?;
    Ok(())
}
