//! What the lines of a file give, do and say.

use crate::content::{content, put};
use crate::cut::{CommandLine, each_call_fails, host_of, words_of};
use crate::named::{Named, find, read_number};
use crate::trial::Trial;
use anyhow::{Context, Result, bail, ensure};
use hm_commands::helium;
use hm_host::{FailList, Files, Host, HostErr, MemHost, OsHost};
use std::alloc::Global;
use std::str::SplitWhitespace;

/// What a line is.
#[derive(Clone, Copy)]
pub enum Taken {
    /// It gives something, or is empty.
    Nothing,
    /// It begins a case.
    Case,
    /// It says what something comes to, and whether that holds.
    Fact { holds: bool },
}

/// What has been given so far, and the hosts.
#[derive(Drop)]
pub struct Session {
    alloc: Global,
    /// All bytes that have a name.
    named: Vec<Named>,
    /// The files that a new host has.
    files: Vec<Named>,
    /// The command line that is tried.
    trial: Option<Trial>,
    /// The host in memory, as the last command or call left it.
    host: MemHost,
    system: OsHost,
}

/// The calls that are to fail: none, or the numbers behind `failing`.
fn failing(alloc: Global, words: &mut SplitWhitespace<'_>) -> Result<FailList> {
    let mut list = FailList::new(alloc);
    if let Some(word) = words.next() {
        ensure!(word == "failing", "not failing but {word}");
    }
    for word in words {
        list.add(read_number(Some(word))? as u64)?;
    }
    Ok(list)
}

/// The word for an error of a host.
fn error_word(e: HostErr) -> &'static str {
    match e {
        HostErr::Failed => "failed",
        HostErr::TooLarge => "large",
        HostErr::OutOfMemory => "memory",
    }
}

/// The word for what a host answers.
fn answer_word(answer: Result<(), HostErr>) -> &'static str {
    match answer {
        Ok(()) => "ok",
        Err(e) => error_word(e),
    }
}

/// The bytes that the next word names.
fn next_bytes<'a>(named: &'a [Named], words: &mut SplitWhitespace<'_>) -> Result<&'a [u8]> {
    find(named, words.next().context("bytes are wanted")?)
}

/// Whether a host reads these bytes, or answers so.
fn reads<H: Host>(
    alloc: Global,
    host: &mut H,
    named: &[Named],
    told: &str,
    words: &mut SplitWhitespace<'_>,
) -> Result<bool> {
    let name = words.next().context("a file is wanted")?;
    match host.read(alloc, name) {
        Ok(bytes) => {
            if told != "ok" {
                return Ok(false);
            }
            let expected = next_bytes(named, words)?;
            Ok(bytes.as_slice() == expected)
        }
        Err(e) => Ok(told == error_word(e)),
    }
}

/// Whether a host answers so where it is to write a file.
fn writes<H: Host>(
    alloc: Global,
    host: &mut H,
    named: &[Named],
    told: &str,
    words: &mut SplitWhitespace<'_>,
) -> Result<bool> {
    let name = words.next().context("a file is wanted")?;
    let bytes = next_bytes(named, words)?;
    Ok(told == answer_word(host.write(alloc, name, bytes)))
}

/// Makes a call on a host, and says whether it answers what the line says.
fn answers<H: Host>(
    alloc: Global,
    host: &mut H,
    named: &[Named],
    call: &str,
    text: &str,
) -> Result<bool> {
    let mut words = text.split_whitespace();
    let told = words.next().context("an answer is wanted")?;
    match call {
        "read" => reads(alloc, host, named, told, &mut words),
        "write" => writes(alloc, host, named, told, &mut words),
        "print" => {
            let bytes = next_bytes(named, &mut words)?;
            Ok(told == answer_word(host.print(alloc, bytes)))
        }
        _ => bail!("no such call: {call}"),
    }
}

/// Whether a text has a line.
fn has_line(text: &[u8], line: &[u8]) -> bool {
    text.split(|byte| *byte == b'\n').any(|piece| piece == line)
}

/// Whether bytes stand in others, from an index on.
fn stands_at(bytes: &[u8], at: usize, part: &[u8]) -> bool {
    match bytes.get(at..) {
        Some(others) => others.starts_with(part),
        None => false,
    }
}

/// Whether the bytes that the words name stand in these, from the index on that they give.
fn have_named_part(named: &[Named], bytes: &[u8], words: &mut SplitWhitespace<'_>) -> Result<bool> {
    let at = read_number(words.next())?;
    let expected = next_bytes(named, words)?;
    Ok(stands_at(bytes, at, expected))
}

impl Session {
    /// Nothing is given.
    pub fn new(alloc: Global, system: OsHost) -> Session {
        Session {
            alloc,
            named: Vec::new(alloc),
            files: Vec::new(alloc),
            trial: None,
            host: MemHost::new(alloc, Files::new(alloc), FailList::new(alloc)),
            system,
        }
    }

    /// Gives a new host from now on a file, with bytes that have a name.
    fn give(&mut self, text: &str) -> Result<()> {
        let (file, name) = text.split_once(' ').context("bytes are wanted")?;
        let bytes = find(&self.named, name)?.to_vec(self.alloc)?;
        self.files.push(Named::new(self.alloc, file, bytes)?)?;
        Ok(())
    }

    /// Takes a new host in memory, whose calls of these numbers fail.
    fn renew(&mut self, words: &mut SplitWhitespace<'_>) -> Result<()> {
        let failing = failing(self.alloc, words)?;
        self.host = host_of(self.alloc, &self.files, failing)?;
        Ok(())
    }

    /// Does a command line on a new host, and says whether it ends with the status before it.
    fn ends(&mut self, text: &str) -> Result<bool> {
        let (head, line) = text.split_once(':').context("a command is wanted")?;
        let mut head = head.split_whitespace();
        let status = read_number(head.next())?;
        self.renew(&mut head)?;
        let words = words_of(self.alloc, line)?;
        let ended = helium(self.alloc, &words, &mut self.host);
        Ok(ended.code() as usize == status)
    }

    /// Whether each call of a command line fails as it should, and there are so many.
    fn each_fails(&self, text: &str) -> Result<bool> {
        let (head, line) = text.split_once(':').context("a command is wanted")?;
        let mut head = head.split_whitespace();
        let count = read_number(head.next())?;
        let words = words_of(self.alloc, line)?;
        let command = CommandLine {
            given: &self.files,
            words: &words,
            written: head.next().unwrap_or(""),
        };
        each_call_fails(self.alloc, command, count)
    }

    /// Whether the command line that is tried ends over each file of the line as it says.
    fn tries(&self, fact: &str, text: &str) -> Result<bool> {
        let trial = self.trial.as_ref().context("no command is tried")?;
        let bytes = find(&self.named, &trial.name)?;
        match fact {
            "fronts" => trial.ends_on_fronts(self.alloc, &self.files, bytes, text),
            "puts" => trial.ends_on_puts(self.alloc, &self.files, bytes, text),
            _ => trial.ends_on_whole(self.alloc, &self.files, bytes, text),
        }
    }

    /// Whether a file is as the line says.
    fn holds_in_file(&self, fact: &str, text: &str) -> Result<bool> {
        let mut words = text.split_whitespace();
        let name = words.next().context("a file is wanted")?;
        let Some(bytes) = self.host.file(name) else {
            return Ok(fact == "absent");
        };
        match fact {
            "absent" => Ok(false),
            "size" => Ok(bytes.len() == read_number(words.next())?),
            "holds" => Ok(bytes == next_bytes(&self.named, &mut words)?),
            "part" => have_named_part(&self.named, bytes, &mut words),
            _ => bail!("no such line: {fact}"),
        }
    }

    /// Whether what a line says holds.
    fn holds(&mut self, fact: &str, text: &str) -> Result<bool> {
        match fact {
            "ends" => self.ends(text),
            "each" => self.each_fails(text),
            "fronts" | "puts" | "whole" => self.tries(fact, text),
            "calls" => Ok(self.host.calls() == Some(read_number(Some(text))?)),
            "prints" => Ok(self.host.printed() == find(&self.named, text)?),
            "says" => Ok(self.host.printed().strip_suffix(b"\n") == Some(text.as_bytes())),
            "line" => Ok(has_line(self.host.printed(), text.as_bytes())),
            "read" | "write" | "print" => {
                answers(self.alloc, &mut self.host, &self.named, fact, text)
            }
            "system" => {
                let (call, text) = text.split_once(' ').context("a call is wanted")?;
                answers(self.alloc, &mut self.system, &self.named, call, text)
            }
            _ => self.holds_in_file(fact, text),
        }
    }

    /// Adds the bytes that a line says to the last that were given a name; false where it says none.
    fn extends(&mut self, word: &str, text: &str) -> Result<bool> {
        let Some(bytes) = content(self.alloc, &self.named, &self.host, word, text)? else {
            return Ok(false);
        };
        let last = self.named.last_mut().context("no bytes have begun")?;
        last.bytes.extend_from_slice(&bytes)?;
        Ok(true)
    }

    /// Begins bytes that have a name.
    fn begin_bytes(&mut self, name: &str) -> Result<()> {
        let none = Vec::new(self.alloc);
        self.named.push(Named::new(self.alloc, name, none)?)?;
        Ok(())
    }

    /// Takes what a line gives; an empty line and a comment give nothing. False where it is no such line.
    fn gives(&mut self, word: &str, text: &str) -> Result<bool> {
        match word {
            "" | "#" => {}
            "bytes" => self.begin_bytes(text)?,
            "put" => {
                let last = self.named.last_mut().context("no bytes have begun")?;
                put(&mut last.bytes, text)?;
            }
            "file" => self.give(text)?,
            "tries" => self.trial = Some(Trial::new(self.alloc, text)?),
            "host" => self.renew(&mut text.split_whitespace())?,
            _ => return Ok(false),
        }
        Ok(true)
    }

    /// Begins a case: no files are given, and no command line is tried.
    fn begin_case(&mut self) -> Result<()> {
        self.files.clear();
        self.trial = None;
        self.renew(&mut "".split_whitespace())
    }

    /// Takes a line.
    pub fn take(&mut self, line: &str) -> Result<Taken> {
        let (word, text) = line.split_once(' ').unwrap_or((line, ""));
        if word == "case" {
            self.begin_case()?;
            return Ok(Taken::Case);
        }
        if self.extends(word, text)? || self.gives(word, text)? {
            return Ok(Taken::Nothing);
        }
        let holds = self.holds(word, text)?;
        Ok(Taken::Fact { holds })
    }
}
