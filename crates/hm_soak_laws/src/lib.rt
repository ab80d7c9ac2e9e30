//! The soak: straight code in order, the soak's image and its schedule. There is no code here. Each function is a law, and
//! its clauses are what is proved of the definitions.
#![tactic(auto)]

ghost use Rattle.std.specs.Prelude.{◌≡◌, ◌+◌, ℕ, false, true, List, Ok, Some, length};
ghost use Rattle.hm_base.specs.Image.{Segment, flash_byte};
ghost use Rattle.hm_codes.specs.Listing.{IsListing, Listing};
ghost use Rattle.hm_run_laws.specs.Runs.{run_out};
ghost use Rattle.hm_sched.specs.Schedule.{IsSched, Sched, total};
ghost use Rattle.hm_state.specs.Start.{reset_pc};
ghost use Rattle.hm_isa.specs.declared.Instr.{Instr};
ghost use Rattle.hm_isa.specs.declared.Instr.TheVariants as instr;
ghost use Rattle.hm_isa.specs.declared.Scalar.TheVariants as scalar;
ghost use Rattle.hm_isa.specs.declared.Vector.{Vector};
ghost use Rattle.hm_isa.specs.declared.data.T4.{T4};
ghost use Rattle.hm_isa.specs.declared.narrow.S4.{S4};
ghost use Rattle.hm_isa.specs.declared.narrow.S18.{S18};
ghost use Rattle.hm_forms.specs.declared.form.Form.{Form};
ghost use Rattle.hm_rows.specs.Rows.{Registers, kind_of, writes_lr};
ghost use Rattle.hm_run.specs.declared.Reason.{Reason};
ghost use Rattle.hm_run.specs.declared.Reason.TheVariants.{Break};
ghost use Rattle.hm_run.specs.declared.Outcome.TheVariants as outcome;
ghost use Rattle.hm_run.specs.InOrder.{Halted, in_order};
ghost use Rattle.hm_run.specs.Program.{asks};
ghost use Rattle.hm_soak_laws.specs.Image.{HandlerStands, IsSoak, handler_address};
ghost use Rattle.hm_soak_laws.specs.Schedule.{schedule};
ghost use Rattle.hm_soak_laws.specs.Summary.{EndsAlike, HaltsInOrder, IsSoakLine, IsSummary, entered, scheduled, summary_text};
ghost use Rattle.hm_soak_laws.specs.Straight.{AllGoOn, AlwaysGoesOn, ComesTo, StandFrom, widths};

/// Instructions that stand one behind another, each of which always goes on, are all done, and a breakpoint behind them halts there. A
/// vector row that touches registers alone and does not write lr always goes on, and so do `movw`, `movt` and `movs`.
pub fn straight_law()
    ensures passes { (listing : Listing) (image : List Segment) (is : List Instr) (n a : ℕ) → ComesTo listing image n a → StandFrom listing a is → AllGoOn is
        → ComesTo listing image (n + length is) (a + widths is) }
    ensures halts { (listing : Listing) (image : List Segment) (r : S18) (k n a : ℕ) (h : ComesTo listing image n a)
        → listing a ≡ Ok (instr.Scalar (scalar.S18 r)) → r.i.value ≡ k
        → asks k ≡ false → in_order listing image (n + 1) ≡ Halted (Break k) (n + 1) h.state }
    ensures vector { (v : Vector) (f : Form) → kind_of v ≡ Registers f → writes_lr v ≡ false → AlwaysGoesOn (instr.Vector v) }
    ensures half { (r : T4) → AlwaysGoesOn (instr.Scalar (scalar.T4 r)) }
    ensures byte { (r : S4) → AlwaysGoesOn (instr.Scalar (scalar.S4 r)) }
{}

/// The image of a soak halts by its breakpoint, as instruction 4113 in order, whatever is drawn. So every run of it that halts, under the
/// schedule of the soak or any other, shows what the plain run of 4113 ticks does, and its summary says `equal`.
pub fn soak_law()
    ensures halts { (number : ℕ) (image : List Segment) (listing : Listing) → IsSoak number image → IsListing (flash_byte image) listing
        → HaltsInOrder listing image 4113 }
    ensures alike { (number : ℕ) (image : List Segment) (listing : Listing) (r : Reason) (n : ℕ) → IsSoak number image → IsListing (flash_byte image) listing
        → (scheduled listing image).outcome ≡ Some (outcome.Halted r n) → EndsAlike listing image 4113 schedule r n }
    ensures equal { (number : ℕ) (image : List Segment) (listing : Listing) (r : Reason) (n : ℕ) (text : List ℕ) → IsSoak number image
        → IsListing (flash_byte image) listing
        → (scheduled listing image).outcome ≡ Some (outcome.Halted r n) → IsSummary number listing image text
        → text ≡ (let x = scheduled listing image in summary_text number 4113 x.ticks (entered listing image schedule x.ticks) true) }
    // The handler's instructions stand where the vector of interrupt 0 says.
    ensures handler { (number : ℕ) (image : List Segment) (listing : Listing) → IsSoak number image → IsListing (flash_byte image) listing
        → HandlerStands listing handler_address }
    // The schedule is one, of 8398 ticks.
    ensures lawful { IsSched schedule }
    ensures ticks { total schedule.lines ≡ 8398 }
    // The same of any image whose instructions in order halt by a breakpoint as the n-th, and any schedule.
    ensures any { (listing : Listing) (image : List Segment) (n : ℕ) (s : Sched) (r : Reason) (k : ℕ) → HaltsInOrder listing image n
        → (run_out listing image s).outcome ≡ Some (outcome.Halted r k) → EndsAlike listing image n s r k }
{}

/// A run that halts after n instructions, under whatever schedule and with whatever handlers, has retired n.
pub fn halted_law()
    ensures retired { (listing : Listing) (image : List Segment) (s : Sched) (r : Reason) (n : ℕ)
        → (run_out listing image s).outcome ≡ Some (outcome.Halted r n) → (run_out listing image s).machine.config.n ≡ n }
{}

/// Every number has a soak: one image, whose reset address is odd, and one line.
pub fn line_law()
    ensures some_image { (number : ℕ) → (image : List Segment) × IsSoak number image }
    ensures one_image { (number : ℕ) (a b : List Segment) → IsSoak number a → IsSoak number b → a ≡ b }
    ensures reset { (number : ℕ) (image : List Segment) → IsSoak number image → reset_pc image ≡ 0x45 }
    ensures some { (number : ℕ) → (text : List ℕ) × IsSoakLine number text }
    ensures one { (number : ℕ) (a b : List ℕ) → IsSoakLine number a → IsSoakLine number b → a ≡ b }
    // It is the summary of whatever image is the soak's, by whatever listing of it.
    ensures every { (number : ℕ) (image : List Segment) (listing : Listing) (text : List ℕ) → IsSoak number image → IsListing (flash_byte image) listing
        → IsSoakLine number text → IsSummary number listing image text }
    // It never says `differ` where the run under the schedule halts.
    ensures equal { (number : ℕ) (image : List Segment) (listing : Listing) (r : Reason) (n : ℕ) (text : List ℕ) → IsSoak number image
        → IsListing (flash_byte image) listing
        → (scheduled listing image).outcome ≡ Some (outcome.Halted r n) → IsSoakLine number text
        → text ≡ (let x = scheduled listing image in summary_text number 4113 x.ticks (entered listing image schedule x.ticks) true) }
{}
