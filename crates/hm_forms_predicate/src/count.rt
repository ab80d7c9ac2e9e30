//! `vctp`.

ghost use Rattle.std.specs.Prelude.{◌≡◌, ℕ, ◌<◌, List, [], Ok, ◌*◌, ◌^◌, ◌∷◌, ltb};
ghost use Rattle.hm_mem.specs.Memory.{Memory};
ghost use Rattle.hm_state.specs.State.{state_of};
ghost use Rattle.hm_beat.specs.Laws.{run};
ghost use Rattle.hm_beat.specs.Touches.{reads_in, writes_in};
ghost use Rattle.hm_kinds.specs.Row.{row_tree};
ghost use Rattle.hm_forms_predicate.specs.Forms.{count_row, counted};

use hm_base::{Place, Places, note};
use hm_beat::Touch;
use hm_isa::Tail;
use hm_kinds::{Shape, active, finish_row, read, touch_row};
use hm_lane_fns::{both, nibble};
use hm_regs::Regs;

/// The bytes of word `b` that the first `n` elements have.
fn counted(z: u32, n: u32, b: u8) -> [bool; 4]
    requires size { z < 4 }
    requires beat { b < 4 }
    ensures { result ≡ counted z n b }
{
    let bytes = (n as u64) << z;
    let k = 4 * b as u64;
    [k < bytes, k + 1 < bytes, k + 2 < bytes, k + 3 < bytes]
}

/// What beat `b` of `vctp` touches: DDI0553, "VCTP". `b` is below 4.
pub fn touch_count(row: &Tail, b: u8, r: &Regs) -> Touch
    requires { b < 4 }
    ensures reads { (m : Memory) (output : List ℕ) → result.reads ≡ reads_in (row_tree (count_row row.now) b) r.now m output }
    ensures writes { (m : Memory) (output : List ℕ) → result.writes ≡ writes_in (row_tree (count_row row.now) b) r.now m output }
    ensures loads { result.loads.items ≡ [] }
    ensures stores { result.stores.items ≡ [] }
{
    let mut sources = Places::new();
    note(&mut sources, Place::R(row.n.get() as u8));
    let shape = Shape {
        reads_slice: false,
        slice: true,
        mask: false,
        marks: false,
    };
    touch_row(sources, None, None, shape, b, r)
}

/// Does beat `b` of `vctp`: DDI0553, "VCTP". `b` is below 4.
pub fn beat_count(row: &Tail, b: u8, r: &mut Regs)
    requires { b < 4 }
    ensures done { (m : Memory) (output : List ℕ) → run (row_tree (count_row row.now) b) r.old m output ≡ Ok (state_of r.new m output) }
    ensures context { r.new.fpca ≡ r.old.fpca }
{
    let n = read(r, Place::R(row.n.get() as u8));
    let slice = nibble(both(counted(row.z.get(), n, b), active(r, b)));
    finish_row(r, None, None, Some(slice), None, false, b);
}
