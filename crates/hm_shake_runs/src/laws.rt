//! Laws of the definitions. The functions do nothing, and their clauses are what is proved.

ghost use Rattle.std.specs.Prelude.{◌≡◌, ◌≢◌, ◌<◌, ◌≤◌, ℕ, List, Some, length, map};
ghost use Rattle.std.specs.List.{All};
ghost use Rattle.hm_base.specs.Image.{Segment};
ghost use Rattle.hm_codes.specs.Listing.{Listing};
ghost use Rattle.hm_run_laws.specs.Runs.{run_out, shown_out};
ghost use Rattle.hm_run.specs.Report.{report_text};
ghost use Rattle.hm_run.specs.declared.Outcome.TheVariants.{Halted, RuleBroken};
ghost use Rattle.hm_run.specs.declared.Reason.{Reason};
ghost use Rattle.hm_sched.specs.Schedule.{IsSched, Sched, most_irq, plain, total};
ghost use Rattle.hm_shake_runs.specs.Heads.{bare, whole_ticks};
ghost use Rattle.hm_shake_runs.specs.Runs.{AreOlder};
ghost use Rattle.hm_shake_runs.specs.Shaken.{shaken_schedule};
ghost use Rattle.hm_shake_runs.specs.Stretches.{cut, stretch_line, with_stretches};
ghost use Rattle.hm_shake_runs.specs.declared.head.Head.{Head};
ghost use Rattle.hm_shake_runs.specs.declared.plan.Plan.{Plan};
ghost use Rattle.hm_shake_runs.specs.declared.stretches.Stretch.{Stretch};
ghost use Rattle.hm_window.specs.declared.rule.Rule.{Rule};

/// Schedules of letters O alone break no rule of overlap, whatever the image, and each run's schedule is one, of the grammar.
pub fn letters_law()
    ensures letters { (p : Plan) (h : Head) (irqs : List ℕ) (run : ℕ) → AreOlder (shaken_schedule p h irqs run) }
    ensures sched { (p : Plan) (h : Head) (irqs : List ℕ) (run : ℕ) → 0 < length irqs → All (λ n. n < most_irq h.format) irqs
        → IsSched (shaken_schedule p h irqs run) }
    ensures no_rule { (image : List Segment) (listing : Listing) (s : Sched) (t step : ℕ) (r : Rule) → AreOlder s
        → (run_out listing image s).outcome ≢ Some (RuleBroken t step r) }
{}

/// All runs of an image that halt show one report, and halt alike.
pub fn reports_law()
    ensures report { (image : List Segment) (listing : Listing) (s t : Sched) (r q : Reason) (n m : ℕ)
        → (run_out listing image s).outcome ≡ Some (Halted r n) → (run_out listing image t).outcome ≡ Some (Halted q m)
        → report_text (shown_out listing image s) ≡ report_text (shown_out listing image t) }
    ensures alike { (image : List Segment) (listing : Listing) (s t : Sched) (r q : Reason) (n m : ℕ)
        → (run_out listing image s).outcome ≡ Some (Halted r n) → (run_out listing image t).outcome ≡ Some (Halted q m) → (r ≡ q) × (n ≡ m) }
{}

/// A run under the ticks that it began, and no more, is the same run, and it begins no more than there are.
pub fn cut_law()
    ensures same { (image : List Segment) (listing : Listing) (h : Head) (xs : List Stretch) → let x = run_out listing image (with_stretches xs (bare h)) in
        run_out listing image (with_stretches (cut x.ticks xs) (bare h)) ≡ x }
    ensures few { (image : List Segment) (listing : Listing) (h : Head) (xs : List Stretch)
        → (run_out listing image (with_stretches xs (bare h))).ticks ≤ total (map stretch_line xs) }
{}

/// Whole instructions in order end alike under every head, where no exception enters, and begin as many ticks: so one machine does the plain run too.
pub fn whole_law()
    ensures outcome { (image : List Segment) (listing : Listing) (h : Head) (n : ℕ)
        → (run_out listing image (whole_ticks h n)).outcome ≡ (run_out listing image (plain n)).outcome }
    ensures ticks { (image : List Segment) (listing : Listing) (h : Head) (n : ℕ)
        → (run_out listing image (whole_ticks h n)).ticks ≡ (run_out listing image (plain n)).ticks }
{}
