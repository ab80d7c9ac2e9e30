//! The words of the command line.

ghost use Rattle.std.specs.Prelude.{◌≡◌, map, option_map, string_bytes, IfOk};
ghost use Rattle.helium_trace.specs.Words.{asked_in, asked_of, meant, range_in, range_meant, range_of, reads_of};

use hm_sched::MOST_TICKS;
use hm_text_base::read_number;
use hm_trace::Ticks;
use hm_words::{Source, read_source, run_reads};
use std::alloc::{AllocError, Global};

/// The most ticks that one call shows.
const MOST_SHOWN: u32 = 10_000;

/// What the words ask for: to show ticks of the run of an image under a schedule, as lines that are printed, or as a page that is written to a file.
#[derive(Clone, Copy)]
pub struct Command<'a> {
    pub image: &'a str,
    pub schedule: Source<'a>,
    pub ticks: Ticks,
    pub page: Option<&'a str>,
}

/// The ticks from one to another, where these are some that one call shows.
fn make_range(first: u32, last: u32) -> Option<Ticks>
    ensures value { option_map range_meant result ≡ range_of first last }
{
    if first == 0 || last < first || last > MOST_TICKS || last - first >= MOST_SHOWN {
        return None;
    }
    Some(Ticks { first, last })
}

/// The ticks that two words give.
fn read_range(first: &[u8], last: &[u8]) -> Option<Ticks>
    ensures value { option_map range_meant result ≡ range_in first.now last.now }
{
    let first = read_number(first)?;
    let last = read_number(last)?;
    make_range(first, last)
}

/// What four words ask for, with a file for the page where there is one.
fn command_in<'a>(
    image: &'a str,
    schedule: &'a str,
    first: &'a str,
    last: &'a str,
    page: Option<&'a str>,
) -> Option<Command<'a>>
    ensures value { option_map meant result ≡ asked_in image.now schedule.now first.now last.now (option_map (λ out. out.now) page.entry) }
{
    let schedule = read_source(schedule)?;
    let ticks = read_range(first.as_bytes(), last.as_bytes())?;
    Some(Command {
        image,
        schedule,
        ticks,
        page,
    })
}

/// What the words ask for.
pub fn parse<'a>(words: &'a [String]) -> Option<Command<'a>>
    ensures value { option_map meant result ≡ asked_of (map string_bytes words.now) }
{
    match words {
        [image, schedule, first, last] => command_in(image, schedule, first, last, None),
        [image, schedule, first, last, option, out] => {
            if option.as_bytes() == b"--html".as_slice() {
                command_in(image, schedule, first, last, Some(out))
            } else {
                None
            }
        }
        _ => None,
    }
}

impl<'a> Command<'a> {
    /// The files that are read, in order.
    pub fn reads(&self, alloc: Global) -> Result<Vec<&'a str>, AllocError>
        ensures names { IfOk result (λ names. map (λ name. name.now) names.items ≡ reads_of (meant self.now)) }
    {
        run_reads(alloc, self.image, &self.schedule)
    }
}
