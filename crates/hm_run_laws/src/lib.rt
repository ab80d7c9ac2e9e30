//! Runs: what the beat machine is under a schedule, with its entries and handlers, what its runs owe to the instructions in order, where the thread
//! stands after each tick, and what plain runs are. There is no code here. Each function is a law, and its clauses are what is proved of the definitions.
#![tactic(auto)]

ghost use Rattle.std.specs.Prelude.{◌≡◌, ℕ, ◌<◌, ◌≤◌, true, false, List, [], length, None, Some, IfOk};
ghost use Rattle.hm_base.specs.Image.{Segment};
ghost use Rattle.hm_codes.specs.Listing.{Listing};
ghost use Rattle.hm_exc.specs.Entry.{CanEnter, entry_refusal};
ghost use Rattle.hm_order.specs.InFlight.{InFlight};
ghost use Rattle.hm_run_laws.specs.Ends.{GoesOn, HasEnded};
ghost use Rattle.hm_run_laws.specs.Readings.{ShownInOrder};
ghost use Rattle.hm_run.specs.Headline.{Headline, Riders};
ghost use Rattle.hm_run.specs.declared.Outcome.{Outcome};
ghost use Rattle.hm_run.specs.declared.Outcome.TheVariants.{Halted};
ghost use Rattle.hm_run.specs.declared.Reason.{Reason};
ghost use Rattle.hm_run.specs.Report.{memory_text, report_text};
ghost use Rattle.hm_run.specs.Timed.{bounds_of};
ghost use Rattle.hm_sched.specs.Schedule.{Sched, TickLine, ticks_of};
ghost use Rattle.hm_state.specs.State.{regs_of};
ghost use Rattle.hm_whole.specs.Whole.{seen_in};
ghost use Rattle.hm_window.specs.Positions.{may_end};
ghost use Rattle.hm_run_laws.specs.Alike.{HaltAlike};
ghost use Rattle.hm_run_laws.specs.Entries.{entered, position_of};
ghost use Rattle.hm_run_laws.specs.Nested.{Nested, letters, step};
ghost use Rattle.hm_run_laws.specs.Order.{KeepsOrder, thread_of};
ghost use Rattle.hm_run_laws.specs.Runs.{Run, after_count, begin, next, picks, run, run_out, shown_out};
ghost use Rattle.hm_run_laws.specs.Sound.{IsSound};
ghost use Rattle.hm_sys.specs.Exceptions.{IsException};
ghost use Rattle.hm_run_laws.specs.Taint.{TaintLies};

mod in_order;
mod kept;
mod positions;

pub use in_order::{core_laws, one_order, orders_end, shown_alike};
pub use kept::{priorities_keep, rows_keep, steps_keep};
pub use positions::{
    order_from_anywhere, output_grows, plain_in_order, run_by_ticks, thread_position,
};

/// After each tick of any schedule, with its entries and whatever its handlers do, whole instructions in order agree with the thread.
pub fn thread_in_order()
    ensures order { (listing : Listing) (image : List Segment) (s : Sched) (t : ℕ) → KeepsOrder listing image s (run listing image s t) }
    // Where the thread stands between two instructions, its registers, the output, the device words that it may read and the bytes without
    // taint are those of the instructions in order.
    ensures between { (listing : Listing) (image : List Segment) (s : Sched) (t : ℕ) → let x = run listing image s t in
        let c = thread_of x.machine.config x.machine.acts in
        GoesOn x.outcome → c.a ≡ 0 → ShownInOrder listing image x.machine.config.n c.state }
{}

/// Where a run halts, under whatever schedule and with whatever handlers, what is printed after it and its memory file are those of the
/// instructions in order, which halt there.
pub fn headline()
    ensures every { (listing : Listing) (image : List Segment) (s : Sched) (report file : List ℕ)
        → report ≡ report_text (shown_out listing image s) → file ≡ memory_text (shown_out listing image s)
        → Headline listing image (shown_out listing image s) report file }
{}

/// Where it does not halt: a fault of the thread and a full output are those of the next instruction in order, and a run that is out of
/// ticks, where the instructions in order halt at the n-th, had fewer than 4n steps of the older.
pub fn riders()
    ensures every { (listing : Listing) (image : List Segment) (s : Sched) → Riders listing image (shown_out listing image s) }
    // After each tick every tainted byte lies in the region, or from the floor up and below the main stack pointer at one of the entries, or from the
    // process floor up and below the process stack pointer at one of those from that stack.
    ensures taint { (listing : Listing) (image : List Segment) (s : Sched) (t : ℕ) → let x = run listing image s t in
        TaintLies s x.entries x.machine.config.state }
{}

/// Two runs of one image that halt, under any two schedules and with whatever handlers, halt for one reason after as many instructions, with one
/// report, and with one memory where neither taints it.
pub fn halts_alike()
    ensures every { (listing : Listing) (image : List Segment) (s u : Sched) (r q : Reason) (n m : ℕ)
        → (run_out listing image s).outcome ≡ Some (Halted r n) → (run_out listing image u).outcome ≡ Some (Halted q m)
        → HaltAlike (shown_out listing image s) (shown_out listing image u) r q n m }
{}

/// Under a schedule without entries nothing is interrupted: no handler is active, and no exception entered.
pub fn without_entries()
    ensures none { (listing : Listing) (image : List Segment) (s : Sched) (t : ℕ) → s.entries ≡ false → let x = run listing image s t in
        (x.machine.acts ≡ []) × (x.entries ≡ []) }
{}

/// A run ends with its last tick at the latest, and an ended run stays as it is, however many ticks it is given.
pub fn runs_end()
    ensures ends { (listing : Listing) (image : List Segment) (s : Sched) → HasEnded (run_out listing image s).outcome }
    ensures stays { (listing : Listing) (image : List Segment) (s : Sched) (o : Outcome) (t u : ℕ) → t ≤ u → (run listing image s t).outcome ≡ Some o
        → run listing image s u ≡ run listing image s t }
    ensures past { (listing : Listing) (image : List Segment) (s : Sched) (t : ℕ) → length (ticks_of s.lines) ≤ t
        → run listing image s t ≡ run_out listing image s }
{}

/// What an entry and a return need to know holds always: who accesses the memory, priorities of three bits, the exception number, that a handler uses
/// the main stack, a sound IT byte that is 0 inside an instruction, where there is a context, activations that entries made, each more urgent than
/// those that it interrupted. So whatever exception is picked may enter where a tick may end, at most eight are active, and the newest activation
/// fits.
pub fn sound()
    ensures start { (image : List Segment) (s : Sched) → IsSound s (begin image s).machine }
    ensures step { (listing : Listing) (s : Sched) (t : InFlight) (x : Nested) → IsSound s x → IfOk (step listing s t x) (IsSound s) }
    ensures letters { (listing : Listing) (s : Sched) (k : ℕ) (ls : List ℕ) (x : Nested) → IsSound s x → IfOk (letters listing s k ls x) (IsSound s) }
    ensures counted { (s : Sched) (line : TickLine) (x : Run) → IsSound s x.machine → IsSound s (after_count line x).machine }
    // The registers and the position that an exception may enter at, its number, and room for its activation.
    ensures can_enter { (s : Sched) (x : Nested) → IsSound s x → may_end x.config.a x.config.b ≡ true
        → CanEnter (regs_of x.config.state) (position_of x.config) }
    ensures picked { (s : Sched) (x : Run) (e : ℕ) → IsSound s x.machine → picks x ≡ Some e → IsException e × (length x.machine.acts < 8) }
    ensures few { (s : Sched) (x : Nested) → IsSound s x → length x.acts ≤ 8 }
    ensures entered { (s : Sched) (x : Run) (e : ℕ) → IsSound s x.machine → picks x ≡ Some e → may_end x.machine.config.a x.machine.config.b ≡ true
        → entry_refusal (bounds_of s) (regs_of x.machine.config.state) (seen_in x.machine.config.state) e ≡ None → IsSound s (entered s e x.machine) }
    // While a run goes on its machine is sound, after each tick and after the next.
    ensures next { (listing : Listing) (s : Sched) (left : List TickLine) (x : Run) → (x.outcome ≡ None → IsSound s x.machine)
        → (next listing s left x).outcome ≡ None → IsSound s (next listing s left x).machine }
    ensures always { (listing : Listing) (image : List Segment) (s : Sched) (t : ℕ) → let x = run listing image s t in x.outcome ≡ None → IsSound s x.machine }
{}
