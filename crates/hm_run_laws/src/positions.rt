//! What holds of the thread after each tick of a run, in the words of instructions in order and of the beats of rows, what comes next of runs and
//! of orders, and plain runs, which do one whole instruction a tick.

ghost use Rattle.std.specs.Prelude.{◌≡◌, ℕ, ◌+◌, List, drop, take, ◌≤◌, false, Some};
ghost use Rattle.hm_base.specs.Image.{Segment};
ghost use Rattle.hm_codes.specs.Listing.{Listing};
ghost use Rattle.hm_run_laws.specs.Runs.{begin, closed, run, shown_out};
ghost use Rattle.hm_run.specs.InOrder.{InOrder, Running, in_order};
ghost use Rattle.hm_sched.specs.Schedule.{Sched, ticks_of, plain, plain_lines};
ghost use Rattle.hm_state.specs.State.{State};
ghost use Rattle.hm_run_laws.specs.Next.{Begins, SameSoFar, SameTicks, after_ticks, counted_from, more};
ghost use Rattle.hm_run_laws.specs.Position.{StandsInOrder};
ghost use Rattle.hm_run_laws.specs.Ends.{GoesOn};
ghost use Rattle.hm_run.specs.Headline.{PlainReport};
ghost use Rattle.hm_run_laws.specs.Plain.{EndsPlainly, plain_end};

/// What holds after each tick of any schedule while the run goes on, and where its ticks are out: the position of the thread, where a handler
/// runs that of the oldest activation with the present memory, devices and output.
pub fn thread_position()
    ensures every { (listing : Listing) (image : List Segment) (s : Sched) (t : ℕ) → StandsInOrder listing image s (run listing image s t) }
{}

/// The run after t ticks is what its first t ticks leave, and whether a tick is left after them says whether it is out of ticks.
pub fn run_by_ticks()
    ensures taken { (listing : Listing) (image : List Segment) (s : Sched) (t : ℕ)
        → run listing image s t ≡ closed (drop t (ticks_of s.lines)) (after_ticks listing s (take t (ticks_of s.lines)) (begin image s)) }
    // So two schedules with the same settings and the same first t ticks have one run so far.
    ensures alike { (listing : Listing) (image : List Segment) (s u : Sched) (t : ℕ) → SameTicks s u t
        → SameSoFar (run listing image s t) (run listing image u t) }
{}

/// The output of a run only grows: what it is after t ticks it begins with after more.
pub fn output_grows()
    ensures every { (listing : Listing) (image : List Segment) (s : Sched) (t k : ℕ)
        → Begins (run listing image s t).machine.config.state.rest.output (run listing image s (t + k)).machine.config.state.rest.output }
{}

/// Whole instructions in order: n and then k more are n + k, from wherever they begin; and k from a state are the same whatever was done
/// before, but for their numbers.
pub fn order_from_anywhere()
    ensures more { (listing : Listing) (image : List Segment) (n k : ℕ) → in_order listing image (n + k) ≡ more listing n k (in_order listing image n) }
    ensures again { (listing : Listing) (n j k : ℕ) (y : InOrder) → more listing n (j + k) y ≡ more listing (n + j) k (more listing n j y) }
    ensures counted { (listing : Listing) (n k : ℕ) (s : State) → more listing n k (Running s) ≡ counted_from n (more listing 0 k (Running s)) }
{}

/// A run of n plain ticks ends as the first n instructions in order come to, and reports that; of a fault the first line.
pub fn plain_in_order()
    ensures report { (listing : Listing) (image : List Segment) (n : ℕ) → PlainReport (shown_out listing image (plain n)) (in_order listing image n) }
    ensures ends { (listing : Listing) (image : List Segment) (n : ℕ)
        → (shown_out listing image (plain n)).outcome ≡ Some (plain_end (in_order listing image n)) }
    // While it goes on each tick retires one instruction.
    ensures retired { (listing : Listing) (image : List Segment) (n t : ℕ) → t ≤ n → let x = run listing image (plain n) t in
        GoesOn x.outcome → (x.machine.config.n ≡ t) × (x.machine.config.a ≡ 0) }
    // The same ticks without entries end so under every region and all floors, and as many are begun as the instructions in order want.
    ensures under { (listing : Listing) (image : List Segment) (s : Sched) (n : ℕ) → s.entries ≡ false → s.lines ≡ plain_lines n
        → EndsPlainly n (shown_out listing image s) (in_order listing image n) }
{}
