//! How a beat ends that writes one word.

ghost use Rattle.std.specs.Prelude.{◌≡◌, ℕ, ◌<◌, ◌≤◌, List, [], Ok, Some, None, true, false, length};
ghost use Rattle.hm_base.specs.Place.{IsPlace, listed};
ghost use Rattle.hm_mem.specs.Memory.{Memory};
ghost use Rattle.hm_state.specs.State.{state_of};
ghost use Rattle.hm_beat.specs.Laws.{run};
ghost use Rattle.hm_beat.specs.Touches.{reads_in, writes_in};
ghost use Rattle.hm_kinds.specs.Coded.{Gives, Shaped};
ghost use Rattle.hm_kinds.specs.Row.{Row, is_body, row_tree};

use hm_base::{Place, Places};
use hm_beat::Touch;
use hm_kinds::{Shape, Written, finish_row, touch_row};
use hm_regs::Regs;

/// What beat `b` touches of a row that reads `sources`, at most 16 places, writes one word, and may set QC. `b` is below 4.
pub fn touch_word(sources: Places, word: Place, marks: bool, b: u8, r: &Regs) -> Touch
    requires placed { IsPlace word }
    requires beat { b < 4 }
    requires room { length sources ≤ 16 }
    ensures reads { (i : Row) (m : Memory) (output : List ℕ) → i.always_slice ≡ false → sources ≡ listed (i.reads b)
        → result.reads ≡ reads_in (row_tree i b) r.now m output }
    ensures writes { (i : Row) (m : Memory) (output : List ℕ) → Shaped i b (Some word) None false false marks
        → result.writes ≡ writes_in (row_tree i b) r.now m output }
    ensures loads { result.loads.items ≡ [] }
    ensures stores { result.stores.items ≡ [] }
{
    let shape = Shape {
        reads_slice: false,
        slice: false,
        mask: false,
        marks,
    };
    touch_row(sources, Some(word), None, shape, b, r)
}

/// Ends beat `b` of a row that writes one word, and sets QC where `marks` says so. `b` is below 4.
#[inline(always)]
pub fn finish_word(r: &mut Regs, word: Place, value: u32, marks: bool, b: u8)
    requires placed { IsPlace word }
    requires body { is_body word ≡ true }
    requires beat { b < 4 }
    ensures done { (i : Row) (m : Memory) (output : List ℕ)
        → Gives i b (state_of r.old m output) (Some (record { place = word; value = value })) None None None marks
        → run (row_tree i b) r.old m output ≡ Ok (state_of r.new m output) }
    ensures context { r.new.fpca ≡ r.old.fpca }
{
    let written = Written { place: word, value };
    finish_row(r, Some(written), None, None, None, marks, b);
}
