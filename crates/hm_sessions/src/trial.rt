//! A command line that is tried on many files, each a little other than the last.

use crate::cut::{files_of, same_file, words_of};
use crate::named::{Named, read_number};
use anyhow::{Context, Result};
use hm_commands::{Status, helium};
use hm_host::{FailList, MemHost};
use std::alloc::Global;

/// How a command line is to end.
#[derive(Clone, Copy)]
struct End<'a> {
    status: usize,
    /// The first line that it prints; a # stands for how many bytes the tried file has.
    line: &'a str,
}

/// The number at the front of a text, and what stands behind it.
fn numbered(text: &str) -> Result<(usize, &str)> {
    let (word, rest) = text.split_once(' ').unwrap_or((text, ""));
    Ok((read_number(Some(word))?, rest))
}

impl<'a> End<'a> {
    /// From a status and a line.
    fn parse(text: &'a str) -> Result<End<'a>> {
        let (status, line) = numbered(text)?;
        Ok(End { status, line })
    }

    /// The line, over a file of so many bytes.
    fn line_of(&self, alloc: Global, length: usize) -> Result<String> {
        match self.line.split_once('#') {
            Some((before, behind)) => Ok(format!(in alloc; "{before}{length}{behind}")?),
            None => Ok(String::from_str(alloc, self.line)?),
        }
    }
}

/// A byte that is put in the place of another, and how the command line is to end then.
#[derive(Clone, Copy)]
struct Put<'a> {
    byte: u8,
    end: End<'a>,
}

impl<'a> Put<'a> {
    /// From a byte, a status and a line.
    fn parse(text: &'a str) -> Result<Put<'a>> {
        let (digits, text) = text.split_once(' ').context("a byte is wanted")?;
        let byte = u8::from_str_radix(digits, 16).context("no byte")?;
        let end = End::parse(text)?;
        Ok(Put { byte, end })
    }
}

/// A command line, the file that is tried, and the name of its bytes.
#[derive(Drop)]
pub struct Trial {
    words: Vec<String>,
    file: String,
    pub name: String,
}

impl Trial {
    /// From the file, the name of its bytes and, behind a colon, the command line.
    pub fn new(alloc: Global, text: &str) -> Result<Trial> {
        let (head, line) = text.split_once(':').context("a command is wanted")?;
        let (file, name) = head.split_once(' ').context("bytes are wanted")?;
        Ok(Trial {
            words: words_of(alloc, line)?,
            file: String::from_str(alloc, file)?,
            name: String::from_str(alloc, name)?,
        })
    }

    /// A host with these files and the tried one.
    fn host(&self, alloc: Global, given: &[Named], bytes: &[u8]) -> Result<MemHost> {
        let mut files = files_of(alloc, given)?;
        files.add(&self.file, bytes.to_vec(alloc)?)?;
        Ok(MemHost::new(alloc, files, FailList::new(alloc)))
    }

    /// Whether the host that was left printed this line first; refused, that line alone, with each file that the command line names as before.
    fn is_left(&self, before: &MemHost, host: &MemHost, status: Status, line: &[u8]) -> bool {
        let printed = host.printed();
        let first = printed.split(|byte| *byte == b'\n').next();
        if first != Some(line) {
            return false;
        }
        let is_line = printed.strip_suffix(b"\n") == Some(line);
        let mut names = self.words.iter();
        let stays = names.all(|word| same_file(before, host, word));
        status != Status::Refused || is_line && stays
    }

    /// Whether the command line ends on a host with this status and this line. `before` is another host, with the same files.
    fn ends_on(
        &self,
        alloc: Global,
        before: &MemHost,
        host: &mut MemHost,
        status: usize,
        line: &[u8],
    ) -> bool {
        let ended = helium(alloc, &self.words, host);
        ended.code() as usize == status && self.is_left(before, host, ended, line)
    }

    /// Whether the command line ends over these bytes on a new host with this status and this line.
    fn ends_with(
        &self,
        alloc: Global,
        given: &[Named],
        bytes: &[u8],
        status: usize,
        line: &[u8],
    ) -> Result<bool> {
        let before = self.host(alloc, given, bytes)?;
        let mut host = self.host(alloc, given, bytes)?;
        Ok(self.ends_on(alloc, &before, &mut host, status, line))
    }

    /// Whether the command line ends over these bytes as an end says.
    fn ends(&self, alloc: Global, given: &[Named], bytes: &[u8], end: End<'_>) -> Result<bool> {
        let line = end.line_of(alloc, bytes.len())?;
        self.ends_with(alloc, given, bytes, end.status, line.as_bytes())
    }

    /// Whether the command line ends so over these bytes with another in the place of one.
    fn ends_on_put(
        &self,
        alloc: Global,
        given: &[Named],
        bytes: &[u8],
        at: usize,
        put: Put<'_>,
    ) -> Result<bool> {
        let mut changed = bytes.to_vec(alloc)?;
        *changed.get_mut(at).context("no such place")? = put.byte;
        self.ends(alloc, given, &changed, put.end)
    }

    /// Whether the command line ends so over these bytes.
    pub fn ends_on_whole(
        &self,
        alloc: Global,
        given: &[Named],
        bytes: &[u8],
        text: &str,
    ) -> Result<bool> {
        let end = End::parse(text)?;
        self.ends(alloc, given, bytes, end)
    }

    /// Whether the command line ends so over the first of these bytes, from so many on to so many.
    pub fn ends_on_fronts(
        &self,
        alloc: Global,
        given: &[Named],
        bytes: &[u8],
        text: &str,
    ) -> Result<bool> {
        let (from, text) = numbered(text)?;
        let (to, text) = numbered(text)?;
        let end = End::parse(text)?;
        for count in from..=to {
            let front = bytes.get(..count).context("too few bytes")?;
            if !self.ends(alloc, given, front, end)? {
                return Ok(false);
            }
        }
        Ok(true)
    }

    /// Whether the command line ends so over these bytes with another in the place of one, from one place on to one.
    pub fn ends_on_puts(
        &self,
        alloc: Global,
        given: &[Named],
        bytes: &[u8],
        text: &str,
    ) -> Result<bool> {
        let (from, text) = numbered(text)?;
        let (to, text) = numbered(text)?;
        let put = Put::parse(text)?;
        for at in from..=to {
            if !self.ends_on_put(alloc, given, bytes, at, put)? {
                return Ok(false);
            }
        }
        Ok(true)
    }
}
