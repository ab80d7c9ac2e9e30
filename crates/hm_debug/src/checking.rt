//! A script is read whole before its first command is done.

ghost use Rattle.std.specs.Prelude.{◌≡◌, ◌+◌, ◌≤◌, ◌<◌, false, nat_lt, [], ◌∷◌, length, List, IfSome, IfNone, IfErr, OnOk};
ghost use Rattle.hm_text_base.specs.Spans.{lines_of};
ghost use Rattle.hm_debug.specs.Scripts.{IsScript, SayAll, ScriptRefuses, lines_in, most_lines};
ghost use Rattle.hm_debug.specs.declared.command.Command.{Command};

use crate::command::read_command;
use crate::errors::ScriptErr;
use hm_text_base::span;

/// The most lines of a script.
const MOST_LINES: usize = 1_000;

/// The first line, where it is ended, and what stands behind it.
#[tactic(auto, using(hm_text_base::proofs::LineLaws::lines_span))]
pub fn next_line(text: &[u8]) -> Option<(&[u8], &[u8])>
    ensures ended { IfSome result (λ x. lines_of text.now ≡ (x.0.now ∷ (lines_of x.1.now).0, (lines_of x.1.now).1)) }
    ensures unended { IfNone result (lines_of text.now ≡ ([], text.now)) }
    ensures shorter { IfSome result (λ x. length x.1.now + 1 ≤ length text.now) }
{
    let (line, from) = span(b'\n', text);
    if from.is_empty() {
        return None;
    }
    Some((line, &from[1..]))
}

/// How many lines there are, an unended last one counted.
fn line_count(text: &[u8]) -> usize
    ensures count { result ≡ lines_in (lines_of text.now) }
{
    let mut rest = text;
    let mut count = 0;
    while let Some((_line, after)) = next_line(rest) {
        count += 1;
        rest = after;
    }
    if rest.is_empty() { count } else { count + 1 }
}

/// Whether each line says a command, and the last is ended; else the first that does not.
fn check_lines(text: &[u8]) -> Result<(), ScriptErr>
    requires few { nat_lt most_lines (lines_in (lines_of text.now)) ≡ false }
    ensures fine { OnOk result ((cs : List Command) × SayAll (lines_of text.now) cs) }
    ensures refused { IfErr result (λ e. ScriptRefuses text.now e) }
{
    let mut rest = text;
    let mut line = 1_u32;
    while let Some((words, after)) = next_line(rest) {
        if read_command(words).is_none() {
            return Err(ScriptErr::Line { line });
        }
        line += 1;
        rest = after;
    }
    if rest.is_empty() {
        return Ok(());
    }
    Err(ScriptErr::Line { line })
}

/// Whether a text is a script: at most 1,000 lines, an unended last one counted, each ended by a line feed, and each a command.
///
/// Ok exactly where it is one, and else the first refusal: TooManyLines before any line is judged, then Line with the number of the
/// first line that is no command or is not ended. It takes no memory, and does no command.
pub fn check_script(text: &[u8]) -> Result<(), ScriptErr>
    ensures fine { OnOk result ((cs : List Command) × IsScript text.now cs) }
    ensures refused { IfErr result (λ e. ScriptRefuses text.now e) }
{
    if line_count(text) > MOST_LINES {
        return Err(ScriptErr::TooManyLines);
    }
    check_lines(text)
}
