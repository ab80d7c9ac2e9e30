//! `vrev`.

ghost use Rattle.std.specs.Prelude.{◌≡◌, ℕ, ◌<◌, List, [], Ok, true, reverse};
ghost use Rattle.hm_base.specs.Place.{IsPlace};
ghost use Rattle.hm_mem.specs.Memory.{Memory};
ghost use Rattle.hm_state.specs.State.{state_of};
ghost use Rattle.hm_beat.specs.Laws.{run};
ghost use Rattle.hm_beat.specs.Touches.{reads_in, writes_in};
ghost use Rattle.hm_beat.specs.Rows.{word_place};
ghost use Rattle.hm_kinds.specs.Row.{is_body, row_tree};
ghost use Rattle.hm_lane.specs.Lanes.{bytes_of, lanes, unlanes, word_of};
ghost use Rattle.hm_forms_elements.specs.Forms.{reversed_at, reversed_row, reversed_word};

use crate::complex_sum::other_word;
use crate::words::{finish_word, touch_word};
use hm_base::{Place, Places, note};
use hm_beat::Touch;
use hm_isa::{ReverseName, V14};
use hm_kinds::read;
use hm_lane::{Size, bytes, word};
use hm_lane_fns::{merge_active, size, word_place};
use hm_regs::Regs;

/// A word with its elements in reverse.
fn in_reverse(z: Size, x: u32) -> u32
    ensures { result ≡ word_of (unlanes z (reverse (lanes z (bytes_of x)))) }
{
    let [a, b, c, d] = bytes(x);
    match z {
        Size::Byte => word([d, c, b, a]),
        Size::Half => word([c, d, a, b]),
        Size::Word => x,
    }
}

/// A word with its elements in reverse, or with the bytes of each pair exchanged.
fn reversed_word(name: ReverseName, z: Size, x: u32) -> u32
    ensures { result ≡ reversed_word name z x }
{
    match name {
        ReverseName::Rev16 => {
            let [a, b, c, d] = bytes(x);
            word([b, a, d, c])
        }
        _ => in_reverse(z, x),
    }
}

/// The operands of beat `b`, which is below 4.
fn source(row: &V14, b: u8) -> Place
    requires { b < 4 }
    ensures value { result ≡ word_place row.now.m.value (reversed_at row.now.name b) }
    ensures placed { IsPlace result }
    ensures body { is_body result ≡ true }
{
    match row.name {
        ReverseName::Rev64 => word_place(&row.m, other_word(b)),
        _ => word_place(&row.m, b),
    }
}

/// What beat `b` of `vrev64`, `vrev32` or `vrev16` touches: DDI0553, "VREV64", "VREV32" and "VREV16". `b` is below 4.
pub fn touch_reversed(row: &V14, b: u8, r: &Regs) -> Touch
    requires { b < 4 }
    ensures reads { (m : Memory) (output : List ℕ) → result.reads ≡ reads_in (row_tree (reversed_row row.now) b) r.now m output }
    ensures writes { (m : Memory) (output : List ℕ) → result.writes ≡ writes_in (row_tree (reversed_row row.now) b) r.now m output }
    ensures loads { result.loads.items ≡ [] }
    ensures stores { result.stores.items ≡ [] }
{
    let word = word_place(&row.d, b);
    let mut sources = Places::new();
    note(&mut sources, source(row, b));
    note(&mut sources, word);
    touch_word(sources, word, false, b, r)
}

/// Does beat `b` of `vrev64`, `vrev32` or `vrev16`: DDI0553, "VREV64", "VREV32" and "VREV16". `b` is below 4.
pub fn beat_reversed(row: &V14, b: u8, r: &mut Regs)
    requires { b < 4 }
    ensures done { (m : Memory) (output : List ℕ) → run (row_tree (reversed_row row.now) b) r.old m output ≡ Ok (state_of r.new m output) }
    ensures context { r.new.fpca ≡ r.old.fpca }
{
    let place = word_place(&row.d, b);
    let old = read(r, place);
    let x = read(r, source(row, b));
    let new = reversed_word(row.name, size(&row.z), x);
    finish_word(r, place, merge_active(r, b, old, new), false, b);
}
