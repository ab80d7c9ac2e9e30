//! Laws of the definitions. The functions do nothing, and their clauses are what is proved.

ghost use Rattle.std.specs.Prelude.{◌≡◌, ◌≤◌, ◌+◌, ◌/◌, ℕ, List, Result, length};
ghost use Rattle.hm_base.specs.Image.{Segment};
ghost use Rattle.hm_codes.specs.Listing.{Listing};
ghost use Rattle.hm_run.specs.Timed.{Timed};
ghost use Rattle.hm_sched.specs.Schedule.{Sched, most_ticks, ticks_of};
ghost use Rattle.hm_journal.specs.Journals.{IsJournal, Journaled, ReportAt, most_checkpoints};
ghost use Rattle.hm_journal.specs.Outcomes.{IsReading};
ghost use Rattle.hm_journal.specs.Runs.{AreOfRun, IsComparison, IsWithoutLine, journal_of};
ghost use Rattle.hm_journal.specs.declared.journal.JournalErr.{JournalErr};

/// Bytes are exactly one journal's, or are refused in exactly one way.
pub fn journal_law()
    ensures one { (bytes : List ℕ) (q r : Result Journaled JournalErr) → IsReading bytes q → IsReading bytes r → q ≡ r }
    ensures some { (bytes : List ℕ) → (r : Result Journaled JournalErr) × IsReading bytes r }
{}

/// Checkpoints are all a run's, or there is a first that is not, and one alone.
pub fn comparison_law()
    ensures one { (listing : Listing) (image : List Segment) (s : Sched) (format : ℕ) (xs : List ReportAt) (q r : Result Unit JournalErr)
        → IsComparison listing image s format xs q → IsComparison listing image s format xs r → q ≡ r }
    ensures some { (listing : Listing) (image : List Segment) (s : Sched) (format : ℕ) (xs : List ReportAt)
        → (r : Result Unit JournalErr) × IsComparison listing image s format xs r }
{}

/// The journal of a run is the run's, and where the schedule's ticks allow no more than `MOST_CHECKPOINTS` checkpoints there is such a journal.
pub fn own_journal_law()
    ensures own { (listing : Listing) (image : List Segment) (s : Sched) (every : ℕ)
        → AreOfRun listing image s (journal_of listing image s every).format (journal_of listing image s every).checkpoints }
    ensures sound { (listing : Listing) (image : List Segment) (s : Sched) (every : ℕ) → 1 ≤ every → every ≤ most_ticks
        → length (ticks_of s.lines) / every + 1 ≤ most_checkpoints → IsJournal (journal_of listing image s every) }
{}

/// What a journal of format 1 has of a report is the report without the system's line: what stands before that line, and what stands behind it.
pub fn first_format_law()
    ensures line { (x : Timed) → IsWithoutLine x }
{}
