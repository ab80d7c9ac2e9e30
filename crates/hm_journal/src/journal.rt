//! What a journal holds.

ghost use Rattle.std.specs.Prelude.{◌≡◌, ◌≤◌};

use hm_base::OutOfMemory;
use std::alloc::{AllocError, AllocFailed};
use std::marker::Model;
use thiserror::Error;

/// The format in which journals are written.
pub const FORMAT: u32 = 2;

/// The format whose reports have no line of the system.
pub const FIRST_FORMAT: u32 = 1;

/// A journal has no more checkpoints.
pub const MOST_CHECKPOINTS: u32 = 64;

/// A tick, and the report there.
#[derive(Drop)]
pub struct Checkpoint {
    pub tick: u32,
    pub report: String,
}

/// A journal: the reports of a run at tick 0, and from there on at each so many ticks.
#[derive(Drop)]
pub struct Journal {
    /// The format of its text.
    pub(crate) format: u32,
    pub(crate) every: u32,
    pub(crate) checkpoints: Vec<Checkpoint>,
}

impl Model for Journal {
    ghost use Rattle.hm_journal.specs.Journals.{Journaled};

    ghost Value = { Journaled };

    ghost use Rattle.hm_journal.specs.Views.{journal_view, IsSound};

    ghost view = { journal_view };

    ghost invariant = { IsSound };
}

impl Journal {
    /// The ticks from one checkpoint to the next.
    pub fn every(&self) -> u32
        ensures value { result ≡ self.now.every }
        ensures some { 1 ≤ result }
    {
        self.every
    }
}

/// Why there is no journal, or why it is not the run's.
#[derive(Clone, Copy, Debug, Error)]
pub enum JournalErr {
    /// The schedule has so many ticks that there would be more than 64 checkpoints.
    #[error("the journal would have more than 64 checkpoints")]
    TooMany,
    /// The bytes are not read as JSON.
    #[error("the journal is no JSON text")]
    Json,
    /// The JSON is not that of a journal.
    #[error("the JSON is not a journal's")]
    Shape,
    /// The JSON does not say that its format is 1 or 2.
    #[error("the journal's format is neither 1 nor 2")]
    Format,
    /// The first checkpoint that is past the run, or whose report is not the run's.
    #[error("the journal differs from the run")]
    Differs { tick: u32 },
    /// Memory was wanted and refused.
    #[error("out of memory")]
    OutOfMemory,
}

impl From<AllocError> for JournalErr {
    ghost use Rattle.hm_journal.specs.declared.journal.JournalErr.TheVariants as journal_err;

    ghost from_gives = { λ _ e. e ≡ journal_err.OutOfMemory };

    fn from(_: AllocError) -> Self {
        JournalErr::OutOfMemory
    }
}

impl<T: Drop> From<AllocFailed<T>> for JournalErr {
    ghost use Rattle.hm_journal.specs.declared.journal.JournalErr.TheVariants as journal_err;

    ghost from_gives = { λ _ e. e ≡ journal_err.OutOfMemory };

    fn from(_: AllocFailed<T>) -> Self {
        JournalErr::OutOfMemory
    }
}

impl From<OutOfMemory> for JournalErr {
    ghost use Rattle.hm_journal.specs.declared.journal.JournalErr.TheVariants as journal_err;

    ghost from_gives = { λ _ e. e ≡ journal_err.OutOfMemory };

    fn from(_: OutOfMemory) -> Self {
        JournalErr::OutOfMemory
    }
}
