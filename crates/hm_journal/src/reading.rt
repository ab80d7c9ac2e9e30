//! A journal read from text.

ghost use Rattle.std.specs.Prelude.{◌≡◌, ◌↔◌, ℕ, ◌<◌, ◌≤◌, ◌^◌, length, List, map, None, Some, IfOk, IfErr, IfNone, IfSome, IsTrue, option_map};
ghost use Rattle.std.specs.Prelude.{option_and_then};
ghost use Rattle.serde_json.specs.Find.{as_array, get};
ghost use Rattle.serde_json.specs.Data.{depth};
ghost use Rattle.serde_json.specs.Errors.{IsMemory};
ghost use Rattle.serde_json.specs.Read.{max_depth};
ghost use Rattle.serde_json.specs.View.{items_view, view};
ghost use Rattle.hm_journal.specs.Journals.{AreSmall, AreTicks, HasFormat, IsFormat, IsJournal, IsJournalFile, number_at, ReportAt, Journaled, journal_data};
ghost use Rattle.hm_journal.specs.Journals.{checkpoint_data, most_checkpoints};
ghost use Rattle.hm_journal.specs.Outcomes.{IsReadErr, IsValueErr};
ghost use Rattle.hm_journal.specs.Views.{checkpoint_of, drafted};

use crate::journal::{Checkpoint, Journal, JournalErr, MOST_CHECKPOINTS};
use crate::writing::journal_text;
use hm_sched::MOST_TICKS;
use serde_json::{Error, Value};
use std::alloc::{AllocError, Global};

/// What stands where a journal's parts stand, before it is known that there is such a journal and that nothing else stands there.
#[derive(Drop)]
pub struct Draft {
    pub format: u32,
    pub every: u32,
    pub checkpoints: Vec<Checkpoint>,
}

/// The number under a key, where it fits.
fn number_at(value: &Value, key: &str) -> Option<u32>
    ensures { (n : ℕ) → n < 2 ^ 32 → number_at key.now (view value.now) ≡ Some n → result ≡ Some n }
{
    let n = value.get(key).and_then(Value::as_u64)?;
    u32::try_from(n).ok()
}

/// A tick and its report, where the value is theirs.
fn checkpoint_in(alloc: Global, value: &Value) -> Result<Option<Checkpoint>, AllocError>
    ensures { IfOk result (λ o. (x : ReportAt) → x.tick < 2 ^ 32 → view value.now ≡ checkpoint_data x → option_map checkpoint_of o ≡ Some x) }
{
    let Some(tick) = number_at(value, "tick") else {
        return Ok(None);
    };
    let Some(report) = value.get("report").and_then(Value::as_str) else {
        return Ok(None);
    };
    let report = String::from_str(alloc, report)?;
    Ok(Some(Checkpoint { tick, report }))
}

/// Ticks and their reports, where the values are theirs.
fn checkpoints_in(alloc: Global, values: &[Value]) -> Result<Option<Vec<Checkpoint>>, AllocError>
    ensures { IfOk result (λ o. (xs : List ReportAt) → AreSmall xs → map view values.now ≡ map checkpoint_data xs
        → option_map (λ v. map checkpoint_of v.items) o ≡ Some xs) }
{
    let mut checkpoints = Vec::new(alloc);
    for value in values {
        match checkpoint_in(alloc, value)? {
            Some(x) => checkpoints.push(x)?,
            None => return Ok(None),
        }
    }
    Ok(Some(checkpoints))
}

/// The values of the array under a key.
fn values_at<'v>(value: &'v Value, key: &str) -> Option<&'v Vec<Value>>
    ensures { option_map (λ v. items_view v.now.items) result ≡ option_and_then as_array (get key.now (view value.now)) }
{
    value.get(key).and_then(Value::as_array)
}

/// A journal of a format, where the value is its.
fn draft_in(alloc: Global, value: &Value, format: u32) -> Result<Option<Draft>, AllocError>
    ensures draft { IfOk result (λ o. (j : Journaled) → IsJournal j → j.format ≡ format → view value.now ≡ journal_data j → option_map drafted o ≡ Some j) }
    ensures format { IfOk result (λ o. IfSome o (λ d. d.format ≡ format)) }
{
    let Some(every) = number_at(value, "every") else {
        return Ok(None);
    };
    let Some(values) = values_at(value, "checkpoints") else {
        return Ok(None);
    };
    match checkpoints_in(alloc, values)? {
        Some(checkpoints) => Ok(Some(Draft {
            format,
            every,
            checkpoints,
        })),
        None => Ok(None),
    }
}

/// Whether the checkpoints lie at the ticks 0, `every`, twice that and so on.
fn has_ticks(d: &Draft) -> bool
    requires { length d.now.checkpoints.items ≤ most_checkpoints }
    ensures { IsTrue result ↔ AreTicks (drafted d.now) }
{
    let mut tick = 0_u64;
    for x in &d.checkpoints {
        if x.tick as u64 != tick {
            return false;
        }
        tick += d.every as u64;
    }
    true
}

/// Whether there is such a journal, of a format that there is.
fn is_journal(d: &Draft) -> bool
    requires { IsFormat d.now.format }
    ensures { IsTrue result ↔ IsJournal (drafted d.now) }
{
    !d.checkpoints.is_empty()
        && d.checkpoints.len() <= MOST_CHECKPOINTS as usize
        && 0 < d.every
        && d.every <= MOST_TICKS
        && has_ticks(d)
}

/// The format that the value says it has, where there is such a format.
fn format_in(value: &Value) -> Option<u32>
    ensures some { IfSome result (λ n. HasFormat (view value.now) n) }
    ensures none { IfNone result ((n : ℕ) → ¬ (HasFormat (view value.now) n)) }
{
    let n = value.get("format").and_then(Value::as_u64)?;
    match n {
        1 => Some(1),
        2 => Some(2),
        _ => None,
    }
}

/// Whether a draft is a journal, and the value that journal's JSON.
fn is_written(alloc: Global, value: &Value, d: &Draft) -> Result<bool, AllocError>
    requires nests { depth (view value.now) ≤ max_depth }
    requires format { IsFormat d.now.format }
    ensures told { IfOk result (λ b. IsTrue b ↔ (IsJournal (drafted d.now) × (view value.now ≡ journal_data (drafted d.now)))) }
{
    if !is_journal(d) {
        return Ok(false);
    }
    let text = value.to_string(alloc)?;
    let own = journal_text(alloc, d.format, d.every, &d.checkpoints)?;
    Ok(text.as_bytes() == own.as_bytes())
}

/// The journal whose JSON a value is.
fn journal_in(alloc: Global, value: &Value) -> Result<Journal, JournalErr>
    requires nests { depth (view value.now) ≤ max_depth }
    ensures found { IfOk result (λ j. IsJournal j × (view value.now ≡ journal_data j)) }
    ensures refused { IfErr result (λ e. IsValueErr (view value.now) e) }
{
    let Some(format) = format_in(value) else {
        return Err(JournalErr::Format);
    };
    let Some(d) = draft_in(alloc, value, format)? else {
        return Err(JournalErr::Shape);
    };
    if !is_written(alloc, value, &d)? {
        return Err(JournalErr::Shape);
    }
    Ok(Journal {
        format: d.format,
        every: d.every,
        checkpoints: d.checkpoints,
    })
}

/// Reads a journal. Json exactly where the bytes have no reading as JSON, else Format exactly where `format` is neither the number 1 nor the number
/// 2, and else Shape exactly where no journal has this value.
pub fn read_journal(alloc: Global, bytes: &[u8]) -> Result<Journal, JournalErr>
    ensures found { IfOk result (λ j. IsJournalFile bytes.now j) }
    ensures refused { IfErr result (λ e. IsReadErr bytes.now e) }
{
    match Value::from_slice(alloc, bytes) {
        Ok(value) => journal_in(alloc, &value),
        Err(e) => Err(refusal(&e)),
    }
}

/// What an error of the reader is here.
fn refusal(e: &Error) -> JournalErr
    ensures memory { IsMemory e.now → result ≡ JournalErr.OutOfMemory }
    ensures json { ¬ (IsMemory e.now) → result ≡ JournalErr.Json }
{
    if e.is_memory() {
        JournalErr::OutOfMemory
    } else {
        JournalErr::Json
    }
}
