//! Laws of the definitions. The functions do nothing, and their clauses are what is proved.

ghost use Rattle.std.specs.Prelude.{◌≡◌, ◌⊎◌, ◌↔◌, ◌++◌, List, [], ℕ, take};
ghost use Rattle.hm_base.specs.Image.{Segment, flash_size};
ghost use Rattle.hm_codes.specs.Listing.{IsListing, Listing};
ghost use Rattle.hm_debug.specs.Answers.{IsAnswered};
ghost use Rattle.hm_debug.specs.Films.{Film};
ghost use Rattle.hm_debug.specs.Lines.{listing_lines};
ghost use Rattle.hm_debug.specs.Scripts.{IsScript, ScriptRefuses};
ghost use Rattle.hm_debug.specs.declared.command.Command.{Command};
ghost use Rattle.hm_debug.specs.declared.errors.ScriptErr.{ScriptErr};
ghost use Rattle.hm_run_laws.specs.Runs.{run};
ghost use Rattle.hm_listing.specs.Listings.{AreEntries, Entry, lines_from};
ghost use Rattle.hm_sched.specs.Schedule.{Sched};

/// A text is a script, and then of one list of commands, or it is refused, and then in one way.
pub fn script_law()
    ensures some { (text : List ℕ) → ((cs : List Command) × IsScript text cs) ⊎ ((e : ScriptErr) × ScriptRefuses text e) }
    ensures one { (text : List ℕ) (cs ds : List Command) → IsScript text cs → IsScript text ds → cs ≡ ds }
    ensures one_refusal { (text : List ℕ) (d e : ScriptErr) → ScriptRefuses text d → ScriptRefuses text e → d ≡ e }
    ensures not_both { (text : List ℕ) (cs : List Command) (e : ScriptErr) → IsScript text cs → ¬ (ScriptRefuses text e) }
{}

/// A script has one text of answers on each run, and that of a script that begins with another one begins with that one's.
pub fn answer_law()
    ensures some { (f : Film) (text : List ℕ) (cs : List Command) → IsScript text cs → (x : List ℕ) × IsAnswered f text x }
    ensures one { (f : Film) (text x y : List ℕ) → IsAnswered f text x → IsAnswered f text y → x ≡ y }
    ensures grows { (f : Film) (text more x y : List ℕ) → IsAnswered f text x → IsAnswered f (text ++ more) y → (rest : List ℕ) × (y ≡ x ++ rest) }
    // Its lines of the listing are the first of those from the address up to the end of flash.
    ensures listing { (f : Film) (a n : ℕ) (es : List Entry) → IsListing f.flash f.listing → AreEntries f.flash a flash_size es
        → listing_lines f.flash f.listing a n ≡ lines_from a (take n es) }
{}

/// At each tick, also at one that ended the run, the exception number is 0 exactly where no exception is active: `until` looks at thread mode as a
/// report tells it.
pub fn thread_law()
    ensures thread { (listing : Listing) (image : List Segment) (s : Sched) (t : ℕ) → let x = run listing image s t in
        (x.machine.config.state.rest.ipsr ≡ 0) ↔ (x.machine.acts ≡ []) }
{}
