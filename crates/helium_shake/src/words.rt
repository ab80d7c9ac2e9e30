//! The words of the command line.

ghost use Rattle.std.specs.Prelude.{◌≡◌, ◌≤◌, IfSome, map, option_and_then, option_map, string_bytes};
ghost use Rattle.hm_text_base.specs.Numbers.{number_in};
ghost use Rattle.helium_shake.specs.Words.{asked_in, asked_of, meant, runs_of};

use crate::command::Command;
use hm_text_base::{read_number, read_word};

/// The most runs of one call.
const MOST_RUNS: u32 = 1_000_000;

/// A number of runs.
fn read_runs(word: &[u8]) -> Option<u32>
    ensures value { result ≡ option_and_then runs_of (number_in word.now) }
    ensures range { IfSome result (λ runs. (1 ≤ runs) × (runs ≤ 1000000)) }
{
    let runs = read_number(word)?;
    if runs == 0 || runs > MOST_RUNS {
        return None;
    }
    Some(runs)
}

/// What four words ask for.
fn command_in<'a>(
    image: &'a str,
    schedule: &'a str,
    runs: &'a str,
    seed: &'a str,
) -> Option<Command<'a>>
    ensures value { option_map meant result ≡ asked_in image.now schedule.now runs.now seed.now }
{
    let runs = read_runs(runs.as_bytes())?;
    let seed = read_word(seed.as_bytes())?;
    Some(Command {
        image,
        schedule,
        runs,
        seed,
    })
}

/// What the words ask for.
pub fn parse<'a>(words: &'a [String]) -> Option<Command<'a>>
    ensures value { option_map meant result ≡ asked_of (map string_bytes words.now) }
{
    match words {
        [image, schedule, runs, seed] => command_in(image, schedule, runs, seed),
        _ => None,
    }
}
