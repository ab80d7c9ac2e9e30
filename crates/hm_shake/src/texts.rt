//! The texts of what was found.

ghost use Rattle.std.specs.Prelude.{◌≡◌, IfOk};
ghost use Rattle.hm_shake.specs.Kinds.{kind_text};
ghost use Rattle.hm_shake.specs.Texts.{count_line, counts_text, plain_line};

use hm_base::{FaultKind, OutOfMemory};
use hm_report_lines::{halted_text, kind_text, slot_text, who_text};
use hm_run::Who;
use hm_shake_runs::{Found, Kind};
use hm_text_base::{decimal, separator, text};
use std::alloc::Global;

/// Adds a fault.
fn add_fault(out: &mut Vec<u8>, who: Who, kind: FaultKind) -> Result<(), OutOfMemory>
    ensures added { IfOk result (λ _. out.new.items ≡ kind_text (Kind.Fault who kind) out.old.items) }
{
    text(out, b"fault ")?;
    text(out, who_text(who))?;
    separator(out)?;
    text(out, kind_text(kind))
}

/// Adds the text of a kind.
pub fn add_kind(alloc: Global, out: &mut Vec<u8>, kind: Kind) -> Result<(), OutOfMemory>
    ensures added { IfOk result (λ _. out.new.items ≡ kind_text kind out.old.items) }
{
    match kind {
        Kind::Halted { reason, n } => halted_text(alloc, out, reason, n),
        Kind::Fault { who, kind } => add_fault(out, who, kind),
        Kind::Rule => text(out, b"rule"),
        Kind::Register { name } => {
            text(out, b"handler register ")?;
            slot_text(alloc, out, name)
        }
        Kind::Frame => text(out, b"handler frame"),
        Kind::Return => text(out, b"handler return"),
        Kind::Store => text(out, b"handler store"),
        Kind::Call => text(out, b"handler call"),
        Kind::Tainted => text(out, b"tainted"),
        Kind::Stack => text(out, b"stack"),
        Kind::Output => text(out, b"output"),
        Kind::Ticks => text(out, b"ticks"),
    }
}

/// Adds the line of the plain run.
fn add_plain_line(alloc: Global, out: &mut Vec<u8>, kind: Kind) -> Result<(), OutOfMemory>
    ensures added { IfOk result (λ _. out.new.items ≡ plain_line kind out.old.items) }
{
    text(out, b"plain ")?;
    add_kind(alloc, out, kind)?;
    text(out, b"\n")
}

/// Adds the line of a kind that came, with how often it did.
fn add_count_line(alloc: Global, out: &mut Vec<u8>, found: &Found) -> Result<(), OutOfMemory>
    ensures added { IfOk result (λ _. out.new.items ≡ count_line found.now out.old.items) }
{
    add_kind(alloc, out, found.kind)?;
    text(out, b": ")?;
    decimal(alloc, out, u64::from(found.count))?;
    text(out, b"\n")
}

/// The lines of the plain run, and of each kind that came with how often it did.
pub fn counts_text(alloc: Global, plain: Kind, kinds: &[Found]) -> Result<Vec<u8>, OutOfMemory>
    ensures text { IfOk result (λ out. out.items ≡ counts_text plain kinds.now) }
{
    let mut out = Vec::new(alloc);
    add_plain_line(alloc, &mut out, plain)?;
    for found in kinds {
        add_count_line(alloc, &mut out, found)?;
    }
    Ok(out)
}
