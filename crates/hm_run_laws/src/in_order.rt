//! Whole instructions in order, and the machine that overlaps their beats: what the definitions of both have to do with one another.

ghost use Rattle.std.specs.Prelude.{◌≡◌, ◌↔◌, ℕ, ◌+◌, ◌≤◌, List, Ok};
ghost use Rattle.hm_base.specs.Image.{Segment};
ghost use Rattle.hm_base.specs.declared.Fault.{Fault};
ghost use Rattle.hm_codes.specs.Listing.{Listing};
ghost use Rattle.hm_mem.specs.Memory.{Around};
ghost use Rattle.hm_mem.specs.declared.Actor.TheVariants.{Thread};
ghost use Rattle.hm_order.specs.Beats.{Live};
ghost use Rattle.hm_order.specs.Machine.{CoreLaws, seq};
ghost use Rattle.hm_run.specs.declared.Reason.{Reason};
ghost use Rattle.hm_run.specs.InOrder.{Running, Halted, Full, Faulted, in_order};
ghost use Rattle.hm_run.specs.Program.{core};
ghost use Rattle.hm_whole.specs.Watched.{view};
ghost use Rattle.hm_run.specs.Stops as why;
ghost use Rattle.hm_state.specs.Start.{start};
ghost use Rattle.hm_state.specs.State.{State};
ghost use Rattle.hm_run_laws.specs.Readings.{ShownAlike};
ghost use Rattle.hm_run_laws.specs.Sequence.{StopsFrom, FaultsAt};
ghost use Rattle.hm_run_laws.specs.Stopped.{HasStopped, StaysStopped};

/// Instructions in order that have stopped did so at the instruction whose number they tell, and more of them come to
/// the same.
pub fn orders_end()
    ensures stays { (listing : Listing) (image : List Segment) (n : ℕ) → StaysStopped listing image (in_order listing image n) }
    ensures later { (listing : Listing) (image : List Segment) (n m : ℕ) → n ≤ m → HasStopped (in_order listing image n)
        → in_order listing image m ≡ in_order listing image n }
{}

/// Whole instructions in order, in the two words for them: as the machine that overlaps beats has them, and as the image does. They
/// go on alike, and they stop alike: at a halt, where the output has no room, and at a fault.
pub fn one_order()
    ensures running { (listing : Listing) (image : List Segment) (around : Around) (n : ℕ) (s : State)
        → (seq (core listing around) n (start image) ≡ Ok s) ↔ (in_order listing image n ≡ Running s) }
    ensures halted { (listing : Listing) (image : List Segment) (around : Around) (n : ℕ) (reason : Reason) (s : State)
        → StopsFrom (core listing around) (start image) n s (why.Halt reason) ↔ (in_order listing image (n + 1) ≡ Halted reason (n + 1) s) }
    ensures full { (listing : Listing) (image : List Segment) (around : Around) (n : ℕ) (s : State)
        → StopsFrom (core listing around) (start image) n s why.Full ↔ (in_order listing image (n + 1) ≡ Full (n + 1) s) }
    ensures faulted { (listing : Listing) (image : List Segment) (around : Around) (n : ℕ) (f : Fault) (pc : ℕ)
        → FaultsAt (core listing around) (start image) n f pc ↔ (in_order listing image (n + 1) ≡ Faulted f.kind pc f.addr n) }
{}

/// A state that agrees with that of the order in each cell that is not dead, in the sticky flag, in what is watched beside and in
/// pc, shows the same registers and output, and its bytes without taint are the order's.
pub fn shown_alike()
    ensures { (s t : State) → Live view s t → s.pc ≡ t.pc → ShownAlike s t }
{}

/// The machine of a program, where the thread accesses the memory, is one of those that may overlap beats: its rows and
/// its other instructions keep the laws.
pub fn core_laws()
    ensures kept { (listing : Listing) (around : Around) → around.actor ≡ Thread → CoreLaws (core listing around) }
{}
