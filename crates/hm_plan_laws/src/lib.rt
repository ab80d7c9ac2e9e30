//! The plan of an image: the schedule without entries that overlaps instructions wherever it may, and how its run ends. There is no code here.
//! Each function is a law, and its clauses are what is proved of the definitions.
#![tactic(auto)]

ghost use Rattle.std.specs.Prelude.{◌≡◌, ◌↔◌, ℕ, ◌*◌, ◌≤◌, true, List, ◌∷◌, ◌++◌, drop, length};
ghost use Rattle.hm_base.specs.Image.{Segment};
ghost use Rattle.hm_codes.specs.Listing.{Listing};
ghost use Rattle.hm_plan_laws.specs.Ends.{DecidedBy, EndsAs, IsGreedyAt, IsPlanEnd};
ghost use Rattle.hm_plan_laws.specs.Greedy.{IsReady};
ghost use Rattle.hm_plan_laws.specs.Planned.{planned};
ghost use Rattle.hm_run_laws.specs.Next.{after_ticks};
ghost use Rattle.hm_run.specs.InOrder.{in_order};
ghost use Rattle.hm_run_laws.specs.Runs.{begin, run, shown_out};
ghost use Rattle.hm_order.specs.Machine.{Config};
ghost use Rattle.hm_run.specs.Program.{Program};
ghost use Rattle.hm_run.specs.Ready.{is_ready};
ghost use Rattle.hm_sched.specs.Schedule.{Sched, TickLine, ticks_of};
ghost use Rattle.hm_state.specs.State.{State};

/// What a tick of a plan does.
#[derive(Clone, Copy)]
pub enum Greedy {
    /// The whole of an instruction that has no beats.
    Whole,
    /// The next beat of the older instruction.
    One,
    /// That, and the first beat of the younger.
    Two,
}

/// Under the plan of n instructions a run ends as the n instructions in order do, within 4n ticks. So no rule is broken.
pub fn plan_in_order()
    ensures ends { (listing : Listing) (image : List Segment) (n : ℕ)
        → EndsAs n (shown_out listing image (planned listing image n)) (in_order listing image n) }
    ensures only { (listing : Listing) (image : List Segment) (n : ℕ) → IsPlanEnd (shown_out listing image (planned listing image n)).outcome }
    ensures exactly { (listing : Listing) (image : List Segment) (n : ℕ)
        → DecidedBy n (shown_out listing image (planned listing image n)) (in_order listing image n) }
    // Its ticks are greedy, each in the state before it.
    ensures greedy { (listing : Listing) (image : List Segment) (n t : ℕ) (line : TickLine) (left : List TickLine) → let s = planned listing image n in
        drop t (ticks_of s.lines) ≡ line ∷ left → IsGreedyAt listing image n s t line }
    ensures few { (listing : Listing) (image : List Segment) (n : ℕ) → length (ticks_of (planned listing image n).lines) ≤ 4 * n }
{}

/// What readiness means, and what a machine shows to which more ticks may be added: the run of the ticks that it has done, under a schedule
/// with more that are not yet done.
pub fn open_runs()
    ensures ready { (M : Program) (c : Config State) → (is_ready M c ≡ true) ↔ IsReady M c }
    ensures given { (listing : Listing) (image : List Segment) (s : Sched) (given : List TickLine) (line : TickLine) (left : List TickLine)
        → ticks_of s.lines ≡ given ++ (line ∷ left)
        → run listing image s (length given) ≡ after_ticks listing s given (begin image s) }
{}
