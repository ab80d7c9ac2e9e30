//! What a line of a script says.

ghost use Rattle.std.specs.Prelude.{◌≡◌, ◌<◌, ◌++◌, ◌^◌, ◌↔◌, ℕ, codes, IfNone, IfSome, IsTrue, Some};
ghost use Rattle.hm_debug.specs.Commands.{Fits, IsNoPlain, IsRead, Says, range_text};
ghost use Rattle.hm_debug.specs.declared.command.Command.{Command};

use hm_base::FLASH_SIZE;
use hm_sched::MOST_TICKS;
use hm_text_base::{read_hex8, read_number, span};

/// The most bytes of memory that one command shows.
const MOST_BYTES: u32 = 4_096;

/// The most lines of the listing that one command shows.
const MOST_LISTED: u32 = 1_000;

/// A command of a script. A tick is the number of ticks done, from 0 on; the place is the tick at which the script stands.
#[derive(Clone, Copy)]
pub enum Command {
    /// To a tick, or to the last one where the run has fewer.
    Goto { tick: u32 },
    /// To the next tick.
    Step,
    /// To the tick before, from 0 to 0.
    Back,
    /// To the next later tick at whose end the thread stands between two instructions, the next one at this address.
    Until { addr: u32 },
    /// The report.
    Show,
    /// So many bytes of memory.
    Memory { addr: u32, len: u32 },
    /// So many lines of the listing.
    Listing { addr: u32, count: u32 },
}

/// Whether the numbers of a command are some that it may have.
fn fits(command: Command) -> bool
    ensures judged { IsTrue result ↔ Fits command }
{
    match command {
        Command::Goto { tick } => tick <= MOST_TICKS,
        Command::Step | Command::Back | Command::Until { .. } | Command::Show => true,
        Command::Memory { addr, len } => {
            len != 0 && len <= MOST_BYTES && u64::from(addr) + u64::from(len) <= 1 << 32
        }
        Command::Listing { addr, count } => {
            addr % 2 == 0 && addr < FLASH_SIZE && count != 0 && count <= MOST_LISTED
        }
    }
}

/// An address and how many are asked for from there on: eight hexadecimal digits, a space, and at most eight decimal digits.
fn read_range(text: &[u8]) -> Option<(u32, u32)>
    ensures reads { IfSome result (λ p. text.now ≡ range_text p.0 p.1) }
    ensures finds { (a n : ℕ) → a < 2 ^ 32 → n < 10 ^ 8 → text.now ≡ range_text a n → result ≡ Some (a, n) }
{
    let (first, from) = span(b' ', text);
    if from.is_empty() {
        return None;
    }
    let addr = read_hex8(first)?;
    let n = read_number(&from[1..])?;
    Some((addr, n))
}

/// What stands behind `goto `.
fn read_goto(text: &[u8]) -> Option<Command>
    ensures read { IsRead (codes "goto " ++ text.now) result }
{
    let tick = read_number(text)?;
    Some(Command::Goto { tick })
}

/// What stands behind `until `.
fn read_until(text: &[u8]) -> Option<Command>
    ensures read { IsRead (codes "until " ++ text.now) result }
{
    let addr = read_hex8(text)?;
    Some(Command::Until { addr })
}

/// What stands behind `mem `.
fn read_memory(text: &[u8]) -> Option<Command>
    ensures read { IsRead (codes "mem " ++ text.now) result }
{
    let (addr, len) = read_range(text)?;
    Some(Command::Memory { addr, len })
}

/// What stands behind `dis `.
fn read_listing(text: &[u8]) -> Option<Command>
    ensures read { IsRead (codes "dis " ++ text.now) result }
{
    let (addr, count) = read_range(text)?;
    Some(Command::Listing { addr, count })
}

/// The command of a word alone that a line is.
fn read_plain(text: &[u8]) -> Option<Command>
    ensures some { IfSome result (λ c. IsRead text.now (Some c)) }
    ensures none { IfNone result (IsNoPlain text.now) }
{
    if text == b"step".as_slice() {
        return Some(Command::Step);
    }
    if text == b"back".as_slice() {
        return Some(Command::Back);
    }
    if text == b"show".as_slice() {
        return Some(Command::Show);
    }
    None
}

/// What a line that is no word alone is read as, by its first word and the numbers behind it.
fn read_numbered(text: &[u8]) -> Option<Command>
    requires other { IsNoPlain text.now }
    ensures read { IsRead text.now result }
{
    if let Some(rest) = text.strip_prefix(b"goto ") {
        return read_goto(rest);
    }
    if let Some(rest) = text.strip_prefix(b"until ") {
        return read_until(rest);
    }
    if let Some(rest) = text.strip_prefix(b"mem ") {
        return read_memory(rest);
    }
    if let Some(rest) = text.strip_prefix(b"dis ") {
        return read_listing(rest);
    }
    None
}

/// What a line is read as by its first word.
fn read_words(text: &[u8]) -> Option<Command>
    ensures read { IsRead text.now result }
{
    match read_plain(text) {
        Some(command) => Some(command),
        None => read_numbered(text),
    }
}

/// What a line says, where it says a command.
pub fn read_command(text: &[u8]) -> Option<Command>
    ensures found { IfSome result (λ c. Says text.now c) }
    ensures only { (c : Command) → Says text.now c → result ≡ Some c }
{
    let command = read_words(text)?;
    if !fits(command) {
        return None;
    }
    Some(command)
}
