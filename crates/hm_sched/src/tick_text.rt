//! Reading a line of ticks.

ghost use Rattle.std.specs.Prelude.{◌≡◌, ◌+◌, ◌<◌, ◌≤◌, ◌^◌, ◌==◌};
ghost use Rattle.std.specs.List.{list_all, slice_split};
ghost use Rattle.hm_text_base.specs.Reading.{Reads, ReadsSome};
ghost use Rattle.hm_sched.specs.Words.{number_of};
ghost use Rattle.hm_sched.specs.ReadLine.{said, is_letter, count_in, steps_in, numbers_in, irq_in, ticks_in};

use crate::errors::LineKind;
use hm_text_base::{read_number, span};

/// What a line of ticks says, as the line of a schedule.
#[derive(Clone, Copy)]
pub struct Ticks<'a> {
    pub count: u32,
    pub letters: &'a [u8],
    pub irq: [u32; 8],
}

/// The count before the first star, or 1 where there is no star, and what follows.
#[tactic(auto, unfolding(crate::specs::ReadLine::count_in))]
fn read_count(text: &[u8]) -> Result<(u32, &[u8]), LineKind>
    ensures { Reads (λ x. (x.0, x.1.now)) result (count_in text.now) }
{
    let (front, from) = span(b'*', text);
    match from {
        [] => Ok((1, text)),
        [_, after @ ..] => match read_number(front) {
            None | Some(0) => Err(LineKind::Count),
            Some(n) => Ok((n, after)),
        },
    }
}

/// Whether a byte is a letter of a step.
fn is_letter(c: u8) -> bool
    ensures { result ≡ is_letter c }
{
    c == b'O' || c == b'Y' || c == b'W'
}

/// Whether all bytes are letters of steps.
fn are_letters(text: &[u8]) -> bool
    ensures { result ≡ list_all is_letter text.now }
{
    text.iter().all(|c| is_letter(*c))
}

/// One to eight letters, or none for `-`.
#[tactic(auto, unfolding(crate::specs::ReadLine::steps_in))]
fn read_steps(text: &[u8]) -> Option<&[u8]>
    ensures { ReadsSome (λ letters. letters.now) result (steps_in text.now) }
{
    if text == b"-".as_slice() {
        return Some(&[]);
    }
    if text.is_empty() || text.len() > 8 || !are_letters(text) {
        return None;
    }
    Some(text)
}

/// The words with bit n too, where each bit that they have is below it.
fn with_bit(bits: &[u32; 8], n: u32) -> [u32; 8]
    requires there { n < 256 }
    requires above { number_of bits.now < 2 ^ n }
    ensures value { number_of result ≡ number_of bits.now + 2 ^ n }
{
    let mut all = *bits;
    all[n as usize / 32] += 1 << (n % 32);
    all
}

/// A bit for each number, which is to be `least` or more and below `most`, beside those that are set already.
#[tactic(auto, unfolding(crate::specs::ReadLine::numbers_in), using(crate::proofs::TickSteps::numbers_split))]
fn read_numbers(most: u32, least: u32, bits: &[u32; 8], words: &[u8]) -> Option<[u32; 8]>
    requires eight { most ≤ 256 }
    requires rising { least ≤ most }
    requires earlier { number_of bits.now < 2 ^ least }
    ensures { ReadsSome number_of result (numbers_in most least (number_of bits.now) (slice_split (λ b. b == 32) words.now)) }
{
    let (word, from) = span(b' ', words);
    let n = read_number(word)?;
    if n < least || n >= most {
        return None;
    }
    let bits = with_bit(bits, n);
    match from {
        [] => Some(bits),
        [_, after @ ..] => read_numbers(most, n + 1, &bits, after),
    }
}

/// The interrupts that arrive, each of which is to be below `most`.
#[tactic(auto, unfolding(crate::specs::ReadLine::irq_in))]
fn read_irq(most: u32, text: &[u8]) -> Option<[u32; 8]>
    requires eight { most ≤ 256 }
    ensures { ReadsSome number_of result (irq_in most text.now) }
{
    if text.is_empty() {
        return Some([0; 8]);
    }
    read_numbers(most, 0, &[0; 8], text.strip_prefix(b" irq ")?)
}

/// What the text of a line of ticks says, where interrupts are below `most`, or what of it is bad first: the count, the steps or the interrupts.
#[tactic(auto, unfolding(crate::specs::ReadLine::ticks_in))]
pub fn read_ticks(most: u32, text: &[u8]) -> Result<Ticks<'_>, LineKind>
    requires eight { most ≤ 256 }
    ensures reads { Reads said result (ticks_in most text.now) }
{
    let (count, rest) = read_count(text)?;
    let (steps, rest) = span(b' ', rest);
    let Some(letters) = read_steps(steps) else {
        return Err(LineKind::Steps);
    };
    let Some(irq) = read_irq(most, rest) else {
        return Err(LineKind::Irq);
    };
    Ok(Ticks {
        count,
        letters,
        irq,
    })
}
