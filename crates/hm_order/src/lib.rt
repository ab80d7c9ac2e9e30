//! Overlapped, interrupted beats give what whole instructions in order give: the theorem, for any program that keeps
//! the laws. There is no code here. Each function is a law, and its clauses say what holds of every program.
#![tactic(auto)]

ghost use Rattle.std.specs.Prelude.{◌≡◌, ℕ, ◌*◌, ◌<◌, suc, false, Ok, Err};
ghost use Rattle.hm_order.specs.Beats.{View, Action, ActionLaws, Apart, Same};
ghost use Rattle.hm_order.specs.Machine.{
  Clean,
  Core,
  CoreLaws,
  Config,
  Stopped,
  Restores,
  StopsInOrder,
  InOrder,
  at_start,
  older,
  younger,
  interrupted,
};
ghost use Rattle.hm_order.specs.Position.{Holds, StopsAt, SamePosition, Agrees};

/// Two beats that meet on no cell: where they do not stop in this order, they do not stop in the
/// other, and leave the same state.
pub fn exchange<S, C, V, E>()
    ensures same { (view : View S C V) (x y : Action S C E) → ActionLaws view x → ActionLaws view y → (s t v : S)
        → Apart x y s → x.run s ≡ Ok t → y.run t ≡ Ok v
        → (u : S) × (w : S) × (y.run s ≡ Ok u) × (x.run u ≡ Ok w) × Same view w v }
{}

/// Before the first instruction the machine agrees with the instructions in order, of which none is done.
pub fn starts<S, I, C, V, E, W, B>()
    ensures holds { (M : Core S I C V E W B) (first : S) → Clean M first → Holds M first (at_start first) }
{}

/// A step of the older instruction keeps what holds at the machine's positions. Where it stops, it does
/// at a tainted cell or for the reason for which the next instruction stops in order.
pub fn older_step<S, I, C, V, E, W, B>()
    ensures agrees { (M : Core S I C V E W B) → CoreLaws M → (first : S) (c : Config S)
        → Holds M first c → Agrees M first (older M c) }
{}

/// So does a step of the younger instruction, where it breaks no rule.
pub fn younger_step<S, I, C, V, E, W, B>()
    ensures agrees { (M : Core S I C V E W B) → CoreLaws M → (first : S) (c : Config S)
        → Holds M first c → Agrees M first (younger M c) }
{}

/// An interrupt keeps it too, wherever it comes, if it restores the program counter and what it leaves
/// changed is dead.
pub fn interrupt<S, I, C, V, E, W, B>()
    ensures holds { (M : Core S I C V E W B) → CoreLaws M → (first : S) (c : Config S) (t : S)
        → Restores M c.state t → Holds M first c → Holds M first (interrupted M c t) }
{}

/// What follows where the machine stops. A stop that is not at a tainted cell is that of the next
/// instruction in order. Between two instructions the state before it is that of the instructions in order, and what
/// stays is that state with the context that was made.
pub fn stops<S, I, C, V, E, W, B>()
    ensures order { (M : Core S I C V E W B) (first : S) (c : Config S) (e : E)
        → Agrees M first (Err (Stopped c e)) → M.rows.tainted e ≡ false
        → (w : W) × (M.stop_of w ≡ e) × StopsInOrder M first c.n w }
    // The stop of a whole instruction is never at a tainted cell.
    ensures reason { (M : Core S I C V E W B) → CoreLaws M → (first : S) (c : Config S) (w : W)
        → Agrees M first (Err (Stopped c (M.stop_of w)))
        → (x : W) × (M.stop_of x ≡ M.stop_of w) × StopsInOrder M first c.n x }
    ensures state { (M : Core S I C V E W B) (first : S) (c : Config S)
        → Holds M first c → c.a ≡ 0 → InOrder M first c.n c.state }
    ensures position { (M : Core S I C V E W B) → CoreLaws M → (first : S) (d : Config S) (e : E)
        (h : StopsAt M first d e) → SamePosition M d h.before }
    ensures before { (M : Core S I C V E W B) (first : S) (d : Config S) (e : E)
        (h : StopsAt M first d e) → d.a ≡ 0 → InOrder M first d.n h.before.state }
    ensures made { (M : Core S I C V E W B) (first : S) (d : Config S) (e : E)
        (h : StopsAt M first d e) → d.a ≡ 0 → d.state ≡ M.made h.before.state }
    // where the instruction makes no context
    ensures unmade { (M : Core S I C V E W B) (first : S) (d : Config S) (e : E)
        (h : StopsAt M first d e) → d.a ≡ 0 → M.made h.before.state ≡ h.before.state → InOrder M first d.n d.state }
{}

/// Where instruction `n + 1` in order stops, a machine that goes on has had fewer than four steps of
/// the older for each of the `n + 1`.
pub fn few_steps<S, I, C, V, E, W, B>()
    ensures below { (M : Core S I C V E W B) (first : S) (c : Config S) (n : ℕ) (w : W)
        → Holds M first c → StopsInOrder M first n w → c.steps < 4 * suc n }
{}
