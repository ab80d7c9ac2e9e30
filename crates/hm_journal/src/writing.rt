//! A journal as text.

ghost use Rattle.std.specs.Prelude.{◌≡◌, codes, map, Some, IfOk, string_bytes};
ghost use Rattle.serde_json.specs.Data.{array, member, no_members, number, object, unsigned};
ghost use Rattle.serde_json.specs.Read.{read};
ghost use Rattle.serde_json.specs.View.{items_view, view};
ghost use Rattle.hm_journal.specs.Journals.{checkpoint_data, journal_data, journal_text};
ghost use Rattle.hm_journal.specs.Views.{checkpoint_of, journal_with};

use crate::journal::Checkpoint;
use serde_json::{Value, json};
use std::alloc::{AllocError, Global};

/// A tick and its report as JSON.
fn checkpoint_value(alloc: Global, x: &Checkpoint) -> Result<Value, AllocError>
    ensures { IfOk result (λ v. view v ≡ checkpoint_data (checkpoint_of x.now)) }
{
    json!(in alloc; {"report": x.report.as_str(), "tick": x.tick})
}

/// Ticks and their reports as JSON.
fn checkpoint_values(alloc: Global, checkpoints: &[Checkpoint]) -> Result<Vec<Value>, AllocError>
    ensures { IfOk result (λ vs. map view vs.items ≡ map checkpoint_data (map checkpoint_of checkpoints.now)) }
{
    let mut values = Vec::new(alloc);
    for x in checkpoints {
        values.push(checkpoint_value(alloc, x)?)?;
    }
    Ok(values)
}

/// A journal of such values as JSON.
fn whole_value(
    alloc: Global,
    format: u32,
    every: u32,
    list: Vec<Value>,
) -> Result<Value, AllocError>
    ensures { IfOk result (λ v. view v ≡ object (member (codes "checkpoints") (array (items_view list.items))
        (member (codes "every") (number (unsigned every)) (member (codes "format") (number (unsigned format)) no_members)))) }
{
    json!(in alloc; {"checkpoints": Value::Array(list), "every": every, "format": format})
}

/// A journal as JSON.
fn journal_value(
    alloc: Global,
    format: u32,
    every: u32,
    checkpoints: &[Checkpoint],
) -> Result<Value, AllocError>
    ensures { IfOk result (λ v. view v ≡ journal_data (journal_with format every checkpoints.now)) }
{
    let list = checkpoint_values(alloc, checkpoints)?;
    whole_value(alloc, format, every, list)
}

/// The compact text of a journal, which reads as the journal.
pub fn journal_text(
    alloc: Global,
    format: u32,
    every: u32,
    checkpoints: &[Checkpoint],
) -> Result<String, AllocError>
    ensures text { IfOk result (λ s. string_bytes s ≡ journal_text (journal_with format every checkpoints.now)) }
    ensures reads_back { IfOk result (λ s. read (string_bytes s) ≡ Some (journal_data (journal_with format every checkpoints.now))) }
{
    let value = journal_value(alloc, format, every, checkpoints)?;
    value.to_string(alloc)
}
