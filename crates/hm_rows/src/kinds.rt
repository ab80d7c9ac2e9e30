//! The kinds of vector rows.

ghost use Rattle.std.specs.Prelude.{◌≡◌, ℕ, ◌<◌, List};
ghost use Rattle.hm_mem.specs.Memory.{Memory, memory_of};
ghost use Rattle.hm_mem.specs.Seen.{IsSameElsewhere};
ghost use Rattle.hm_beat.specs.Laws.{AnswersBeat, Checks, run};
ghost use Rattle.hm_beat.specs.Touches.{loads_in, reads_in, spanned, stores_in, writes_in};

use hm_base::Stop;
use hm_beat::Touch;
use hm_forms::Form;
use hm_mem::Mem;
use hm_moves::{Move, beat_move, check_move, touch_move};
use hm_regs::Regs;

/// What kind a vector row is.
#[derive(Clone, Copy)]
pub enum Kind {
    /// It touches registers alone.
    Registers(Form),
    /// It loads or stores.
    Moves(Move),
}

impl Kind {
    ghost use Rattle.hm_rows.specs.Rows.{kind_seen, kind_writes_lr, tree_of};

    /// Whether one of its beats writes lr.
    pub fn writes_lr(&self) -> bool
        ensures { result ≡ kind_writes_lr (kind_seen self.now) }
    {
        match self {
            Kind::Registers(form) => form.writes_lr(),
            Kind::Moves(row) => row.writes_lr(),
        }
    }

    /// What beat `b` touches. `b` is below 4.
    pub fn touch(&self, b: u8, r: &Regs) -> Touch
        requires { b < 4 }
        ensures reads { (m : Memory) (output : List ℕ) → result.reads ≡ reads_in (tree_of (kind_seen self.now) m.around b) r.now m output }
        ensures writes { (m : Memory) (output : List ℕ) → result.writes ≡ writes_in (tree_of (kind_seen self.now) m.around b) r.now m output }
        ensures loads { (m : Memory) (output : List ℕ) → spanned result.loads.items ≡ loads_in (tree_of (kind_seen self.now) m.around b) r.now m output }
        ensures stores { (m : Memory) (output : List ℕ) → spanned result.stores.items ≡ stores_in (tree_of (kind_seen self.now) m.around b) r.now m output }
    {
        match self {
            Kind::Registers(form) => form.touch(b, r),
            Kind::Moves(row) => touch_move(row, b, r),
        }
    }

    /// The stop that beat `b` would have, and nothing else. `b` is below 4.
    pub fn check(&self, b: u8, r: &Regs, m: &Mem) -> Result<(), Stop>
        requires { b < 4 }
        ensures { (output : List ℕ) → let x = memory_of m.now in Checks (run (tree_of (kind_seen self.now) x.around b) r.now x output) result }
    {
        match self {
            Kind::Registers(_) => Ok(()),
            Kind::Moves(row) => check_move(row, b, r, m),
        }
    }

    /// Does beat `b`, or stops and changes nothing. `b` is below 4.
    pub fn beat(&self, b: u8, r: &mut Regs, m: &mut Mem) -> Result<(), Stop>
        requires { b < 4 }
        ensures done { (output : List ℕ) → let x = memory_of m.old in
            AnswersBeat (run (tree_of (kind_seen self.now) x.around b) r.old x output) result r.old x r.new (memory_of m.new) output }
        ensures kept { IsSameElsewhere (memory_of m.old) (memory_of m.new) }
        ensures context { r.new.fpca ≡ r.old.fpca }
    {
        match self {
            Kind::Registers(form) => {
                form.beat(b, r);
                Ok(())
            }
            Kind::Moves(row) => beat_move(row, b, r, m),
        }
    }
}
