//! The words of a command, by position.

ghost use Rattle.std.specs.Prelude.{◌≡◌, ℕ, List, option_map, map, string_bytes};
ghost use Rattle.hm_words.specs.Words.{number_of, every_of, range_in, range_of, source_of, source_meant, run_form, seq_form, dis_form, asm_form, soak_form};
ghost use Rattle.hm_words.specs.Words.{debug_form, journal_form, replay_form, migrate_form, plan_form, hex_form, kernel_form, form_of, meant, most};
ghost use Rattle.hm_words.specs.Words.{most_planned};

use crate::command::{Command, Source};
use crate::numbers::{Every, Planned, Range, Ticks};
use hm_base::FLASH_SIZE;
use hm_text_base::{read_hex8, read_number, read_word};

/// The largest number of ticks that a word may give.
const MOST_TICKS: u32 = 16_777_216;

/// The largest number of instructions that may be planned.
const MOST_PLANNED: u32 = 262_144;

/// A number of ticks: one to eight decimal digits without a leading zero.
fn read_ticks(word: &[u8]) -> Option<Ticks>
    ensures value { option_map (λ ticks. ticks.count) result ≡ number_of most word.now }
{
    let count = read_number(word)?;
    if count > MOST_TICKS {
        return None;
    }
    Some(Ticks { count })
}

/// A distance in ticks, at least 1.
fn read_every(word: &[u8]) -> Option<Every>
    ensures value { option_map (λ every. every.ticks) result ≡ every_of word.now }
{
    let ticks = read_number(word)?;
    if ticks > MOST_TICKS {
        return None;
    }
    if ticks == 0 {
        return None;
    }
    Some(Every { ticks })
}

/// A number of instructions to be planned.
fn read_planned(word: &[u8]) -> Option<Planned>
    ensures value { option_map (λ planned. planned.count) result ≡ number_of most_planned word.now }
{
    let count = read_number(word)?;
    if count > MOST_PLANNED {
        return None;
    }
    Some(Planned { count })
}

/// The schedule of a run: `plain:N`, or the name of a file.
pub fn read_source(word: &str) -> Option<Source<'_>>
    ensures value { option_map source_meant result ≡ source_of word.now }
{
    match word.as_bytes().strip_prefix(b"plain:") {
        Some(digits) => {
            let ticks = read_ticks(digits)?;
            Some(Source::Plain(ticks))
        }
        None => Some(Source::File(word)),
    }
}

/// The words behind `run`: an image, a schedule, and the file that its memory is written to.
fn run_command<'a>(words: &'a [String]) -> Option<Command<'a>>
    ensures value { option_map meant result ≡ run_form (map string_bytes words.now) }
{
    match words {
        [image, schedule, memory] => {
            let schedule = read_source(schedule)?;
            Some(Command::Run {
                image,
                schedule,
                memory,
            })
        }
        _ => None,
    }
}

/// The words behind `seq`: an image, and a number of instructions.
fn seq_command<'a>(words: &'a [String]) -> Option<Command<'a>>
    ensures value { option_map meant result ≡ seq_form (map string_bytes words.now) }
{
    match words {
        [image, count] => {
            let ticks = read_ticks(count.as_bytes())?;
            Some(Command::Seq { image, ticks })
        }
        _ => None,
    }
}

/// A range of flash.
fn make_range(lo: u32, hi: u32) -> Option<Range>
    ensures value { option_map (λ range. (range.lo, range.hi)) result ≡ range_of lo hi }
{
    if lo % 2 == 0 && hi % 2 == 0 && lo <= hi && hi <= FLASH_SIZE {
        Some(Range { lo, hi })
    } else {
        None
    }
}

/// The range of flash that two words give, each of eight hexadecimal digits.
fn read_range(lo: &[u8], hi: &[u8]) -> Option<Range>
    ensures value { option_map (λ range. (range.lo, range.hi)) result ≡ range_in lo.now hi.now }
{
    let lo = read_hex8(lo)?;
    let hi = read_hex8(hi)?;
    make_range(lo, hi)
}

/// The words behind `dis`: an image, and the two ends of a range of flash.
fn dis_command<'a>(words: &'a [String]) -> Option<Command<'a>>
    ensures value { option_map meant result ≡ dis_form (map string_bytes words.now) }
{
    match words {
        [image, lo, hi] => {
            let range = read_range(lo.as_bytes(), hi.as_bytes())?;
            Some(Command::Dis { image, range })
        }
        _ => None,
    }
}

/// The words behind `asm`: a source, and the file that its image is written to.
fn asm_command<'a>(words: &'a [String]) -> Option<Command<'a>>
    ensures value { option_map meant result ≡ asm_form (map string_bytes words.now) }
{
    match words {
        [source, out] => Some(Command::Asm { source, out }),
        _ => None,
    }
}

/// The words behind `soak`: its number.
fn soak_command<'a>(words: &'a [String]) -> Option<Command<'a>>
    ensures value { option_map meant result ≡ soak_form (map string_bytes words.now) }
{
    match words {
        [number] => {
            let number = read_word(number.as_bytes())?;
            Some(Command::Soak { number })
        }
        _ => None,
    }
}

/// The words behind `debug`: an image, a schedule, and a script.
fn debug_command<'a>(words: &'a [String]) -> Option<Command<'a>>
    ensures value { option_map meant result ≡ debug_form (map string_bytes words.now) }
{
    match words {
        [image, schedule, script] => {
            let schedule = read_source(schedule)?;
            Some(Command::Debug {
                image,
                schedule,
                script,
            })
        }
        _ => None,
    }
}

/// The words behind `journal`: an image, a schedule, a distance in ticks, and the file that the journal is written to.
fn journal_command<'a>(words: &'a [String]) -> Option<Command<'a>>
    ensures value { option_map meant result ≡ journal_form (map string_bytes words.now) }
{
    match words {
        [image, schedule, every, out] => {
            let schedule = read_source(schedule)?;
            let every = read_every(every.as_bytes())?;
            Some(Command::Journal {
                image,
                schedule,
                every,
                out,
            })
        }
        _ => None,
    }
}

/// The words behind `replay`: an image, a schedule, a journal, and the tick whose report is printed.
fn replay_command<'a>(words: &'a [String]) -> Option<Command<'a>>
    ensures value { option_map meant result ≡ replay_form (map string_bytes words.now) }
{
    match words {
        [image, schedule, journal, tick] => {
            let schedule = read_source(schedule)?;
            let tick = read_ticks(tick.as_bytes())?;
            Some(Command::Replay {
                image,
                schedule,
                journal,
                tick,
            })
        }
        _ => None,
    }
}

/// The words behind `migrate`: an image, a schedule, a journal, and the file that the run's journal is written to.
fn migrate_command<'a>(words: &'a [String]) -> Option<Command<'a>>
    ensures value { option_map meant result ≡ migrate_form (map string_bytes words.now) }
{
    match words {
        [image, schedule, journal, out] => {
            let schedule = read_source(schedule)?;
            Some(Command::Migrate {
                image,
                schedule,
                journal,
                out,
            })
        }
        _ => None,
    }
}

/// The words behind `plan`: an image, a number of instructions, and the file that the schedule is written to.
fn plan_command<'a>(words: &'a [String]) -> Option<Command<'a>>
    ensures value { option_map meant result ≡ plan_form (map string_bytes words.now) }
{
    match words {
        [image, count, out] => {
            let count = read_planned(count.as_bytes())?;
            Some(Command::Plan { image, count, out })
        }
        _ => None,
    }
}

/// The words behind `hex`: an image, and the file that it is written to.
fn hex_command<'a>(words: &'a [String]) -> Option<Command<'a>>
    ensures value { option_map meant result ≡ hex_form (map string_bytes words.now) }
{
    match words {
        [image, out] => Some(Command::Hex { image, out }),
        _ => None,
    }
}

/// The words behind `kernel`: a text of the array language, and the file that its image is written to.
fn kernel_command<'a>(words: &'a [String]) -> Option<Command<'a>>
    ensures value { option_map meant result ≡ kernel_form (map string_bytes words.now) }
{
    match words {
        [source, out] => Some(Command::Kernel { source, out }),
        _ => None,
    }
}

/// The command that the words give, which is named by the first.
pub fn parse<'a>(words: &'a [String]) -> Option<Command<'a>>
    ensures value { option_map meant result ≡ form_of (map string_bytes words.now) }
{
    let (name, others) = words.split_first()?;
    let name = name.as_bytes();
    if name == b"run".as_slice() {
        return run_command(others);
    }
    if name == b"seq".as_slice() {
        return seq_command(others);
    }
    if name == b"dis".as_slice() {
        return dis_command(others);
    }
    if name == b"asm".as_slice() {
        return asm_command(others);
    }
    if name == b"soak".as_slice() {
        return soak_command(others);
    }
    if name == b"debug".as_slice() {
        return debug_command(others);
    }
    if name == b"journal".as_slice() {
        return journal_command(others);
    }
    if name == b"replay".as_slice() {
        return replay_command(others);
    }
    if name == b"migrate".as_slice() {
        return migrate_command(others);
    }
    if name == b"plan".as_slice() {
        return plan_command(others);
    }
    if name == b"hex".as_slice() {
        return hex_command(others);
    }
    if name == b"kernel".as_slice() {
        return kernel_command(others);
    }
    None
}
