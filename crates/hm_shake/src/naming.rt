//! The names of kinds of outcomes, by which files are called.

ghost use Rattle.std.specs.Prelude.{◌≡◌, ◌++◌, IfOk, map};
ghost use Rattle.std.specs.List.{All};
ghost use Rattle.hm_shake.specs.Kinds.{joined, kind_name};
ghost use Rattle.hm_shake.specs.Numbers.{HasNumbers, PlaceFits, ReasonFits, SlotFits};

use crate::filing::Written;
use crate::texts::add_kind;
use hm_base::{OutOfMemory, Place};
use hm_exc::Slot;
use hm_run::Reason;
use hm_shake_runs::Kind;
use std::alloc::Global;

/// A minus in place of a space.
fn joined(byte: u8) -> u8
    ensures value { result ≡ joined byte }
{
    if byte == b' ' { b'-' } else { byte }
}

/// Adds words with a minus in place of each space.
fn add_joined(out: &mut Vec<u8>, words: &[u8]) -> Result<(), OutOfMemory>
    ensures added { IfOk result (λ _. out.new.items ≡ out.old.items ++ map joined words.now) }
{
    for byte in words {
        out.push(joined(*byte))?;
    }
    Ok(())
}

/// Adds the name of a kind: its text with a minus between its words. No other kind has it (`names_law`).
pub fn add_name(alloc: Global, out: &mut Vec<u8>, kind: Kind) -> Result<(), OutOfMemory>
    ensures added { IfOk result (λ _. out.new.items ≡ out.old.items ++ kind_name kind) }
{
    let mut words = Vec::new(alloc);
    add_kind(alloc, &mut words, kind)?;
    add_joined(out, &words)
}

/// The number of a reason fits its type.
fn reason_fits(reason: Reason)
    ensures fits { ReasonFits reason }
{
    match reason {
        Reason::Break(k) => {
            let _k = k;
        }
        Reason::Exit(r) => {
            let _r = r;
        }
    }
}

/// The number of a place fits its type.
fn place_fits(place: Place)
    ensures fits { PlaceFits place }
{
    match place {
        Place::R(n) => {
            let _n = n;
        }
        Place::QWord(k) => {
            let _k = k;
        }
        Place::P0(b) => {
            let _b = b;
        }
        Place::Mask01 | Place::Mask23 | Place::Carry | Place::Ltp | Place::Sticky => {}
    }
}

/// The number of what a handler has to leave fits its type.
fn slot_fits(slot: Slot)
    ensures fits { SlotFits slot }
{
    match slot {
        Slot::Reg(place) => place_fits(place),
        Slot::Primask | Slot::Psp | Slot::Basepri => {}
    }
}

/// The numbers of a halt fit their types.
fn halt_fits(reason: Reason, n: u64)
    ensures fits { HasNumbers (Kind.Halted reason n) }
{
    let _n = n;
    reason_fits(reason);
}

/// The numbers of a kind fit their types.
fn kind_fits(kind: Kind)
    ensures fits { HasNumbers kind }
{
    match kind {
        Kind::Halted { reason, n } => halt_fits(reason, n),
        Kind::Register { name } => slot_fits(name),
        Kind::Fault { .. }
        | Kind::Rule
        | Kind::Frame
        | Kind::Return
        | Kind::Store
        | Kind::Call
        | Kind::Tainted
        | Kind::Stack
        | Kind::Output
        | Kind::Ticks => {}
    }
}

/// The numbers of the kinds of files fit their types, so files of kinds that differ have names that differ.
pub fn files_fit(files: &[Written])
    ensures fit { All (λ w. HasNumbers w.kind) files.now }
{
    for file in files {
        kind_fits(file.kind);
    }
}

/// Two kinds of outcomes that have one name are one, so each has a file of its own.
pub fn names_law(a: Kind, b: Kind)
    ensures apart { kind_name a ≡ kind_name b → a ≡ b }
{
    kind_fits(a);
    kind_fits(b);
}
