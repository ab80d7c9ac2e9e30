//! `vpsel`.

ghost use Rattle.std.specs.Prelude.{◌≡◌, ℕ, ◌<◌, List, [], Ok};
ghost use Rattle.hm_mem.specs.Memory.{Memory};
ghost use Rattle.hm_state.specs.State.{state_of};
ghost use Rattle.hm_beat.specs.Laws.{run};
ghost use Rattle.hm_beat.specs.Touches.{reads_in, writes_in};
ghost use Rattle.hm_kinds.specs.Row.{row_tree};
ghost use Rattle.hm_forms_elements.specs.Forms.{select_row};

use crate::words::finish_word;
use hm_base::{Places, note};
use hm_beat::Touch;
use hm_isa::Select;
use hm_kinds::{Shape, read, touch_row};
use hm_lane_fns::{merge, merge_active, slice, truths, word_place};
use hm_regs::Regs;

/// What beat `b` of `vpsel` touches: DDI0553, "VPSEL". `b` is below 4.
pub fn touch_select(row: &Select, b: u8, r: &Regs) -> Touch
    requires { b < 4 }
    ensures reads { (m : Memory) (output : List ℕ) → result.reads ≡ reads_in (row_tree (select_row row.now) b) r.now m output }
    ensures writes { (m : Memory) (output : List ℕ) → result.writes ≡ writes_in (row_tree (select_row row.now) b) r.now m output }
    ensures loads { result.loads.items ≡ [] }
    ensures stores { result.stores.items ≡ [] }
{
    let word = word_place(&row.d, b);
    let mut sources = Places::new();
    note(&mut sources, word_place(&row.m, b));
    note(&mut sources, word_place(&row.n, b));
    note(&mut sources, word);
    let shape = Shape {
        reads_slice: true,
        slice: false,
        mask: false,
        marks: false,
    };
    touch_row(sources, Some(word), None, shape, b, r)
}

/// Does beat `b` of `vpsel`: DDI0553, "VPSEL". `b` is below 4.
pub fn beat_select(row: &Select, b: u8, r: &mut Regs)
    requires { b < 4 }
    ensures done { (m : Memory) (output : List ℕ) → run (row_tree (select_row row.now) b) r.old m output ≡ Ok (state_of r.new m output) }
    ensures context { r.new.fpca ≡ r.old.fpca }
{
    let place = word_place(&row.d, b);
    let old = read(r, place);
    let x = read(r, word_place(&row.n, b));
    let y = read(r, word_place(&row.m, b));
    let new = merge(truths(slice(r, b)), y, x);
    finish_word(r, place, merge_active(r, b, old, new), false, b);
}
