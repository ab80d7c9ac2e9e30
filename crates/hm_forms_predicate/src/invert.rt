//! `vpnot`.

ghost use Rattle.std.specs.Prelude.{◌≡◌, ℕ, ◌<◌, List, [], Ok};
ghost use Rattle.hm_mem.specs.Memory.{Memory};
ghost use Rattle.hm_state.specs.State.{state_of};
ghost use Rattle.hm_beat.specs.Laws.{run};
ghost use Rattle.hm_beat.specs.Touches.{reads_in, writes_in};
ghost use Rattle.hm_kinds.specs.Row.{row_tree};
ghost use Rattle.hm_forms_predicate.specs.Forms.{invert_row, negated};

use hm_base::Places;
use hm_beat::Touch;
use hm_kinds::{Shape, active, finish_row, touch_row};
use hm_lane_fns::{both, nibble, slice, truths};
use hm_regs::Regs;

/// Each truth value negated.
fn negated(p: [bool; 4]) -> [bool; 4]
    ensures { result ≡ negated p }
{
    let [p0, p1, p2, p3] = p;
    [!p0, !p1, !p2, !p3]
}

/// What beat `b` of `vpnot` touches: DDI0553, "VPNOT". `b` is below 4.
pub fn touch_invert(b: u8, r: &Regs) -> Touch
    requires { b < 4 }
    ensures reads { (m : Memory) (output : List ℕ) → result.reads ≡ reads_in (row_tree invert_row b) r.now m output }
    ensures writes { (m : Memory) (output : List ℕ) → result.writes ≡ writes_in (row_tree invert_row b) r.now m output }
    ensures loads { result.loads.items ≡ [] }
    ensures stores { result.stores.items ≡ [] }
{
    let shape = Shape {
        reads_slice: true,
        slice: true,
        mask: false,
        marks: false,
    };
    touch_row(Places::new(), None, None, shape, b, r)
}

/// Does beat `b` of `vpnot`: DDI0553, "VPNOT". `b` is below 4.
pub fn beat_invert(b: u8, r: &mut Regs)
    requires { b < 4 }
    ensures done { (m : Memory) (output : List ℕ) → run (row_tree invert_row b) r.old m output ≡ Ok (state_of r.new m output) }
    ensures context { r.new.fpca ≡ r.old.fpca }
{
    let p = slice(r, b);
    let new = nibble(both(negated(truths(p)), active(r, b)));
    finish_row(r, None, None, Some(new), None, false, b);
}
