//! What a beat of a row that loads or stores touches.

ghost use Rattle.std.specs.Prelude.{◌≡◌, ℕ, ◌+◌, ◌<◌, ◌≤◌, ◌||◌, not, cond, false, List, [], length, map, All};
ghost use Rattle.hm_base.specs.Place.{IsPlace, noted_all};
ghost use Rattle.hm_lane.specs.Predicate.{advance_places};
ghost use Rattle.hm_mem.specs.Memory.{Memory};
ghost use Rattle.hm_regs.specs.Writes.{places_of};
ghost use Rattle.hm_state.specs.State.{at, state_of};
ghost use Rattle.hm_beat.specs.Touches.{loads_in, reads_in, spanned, stores_in, writes_in};
ghost use Rattle.hm_moves.specs.Coded.{begun_in};
ghost use Rattle.hm_moves.specs.Moves.{bytes_of_elements, elements_at, sources_at};
ghost use Rattle.hm_moves.specs.Ways.{move_tree, moves_of, way_back, way_of, way_predicated, way_sources, way_words};

use crate::elements::{Elements, spans};
use crate::found::{find_elements, is_predicated};
use crate::words::{Words, list_words, written_back};
use crate::{Move, Way};
use hm_base::{Place, Places, Spans, note};
use hm_beat::{Touch, note_advance, note_predicate};
use hm_lane::mask_at;
use hm_regs::Regs;

/// Notes places, the last one first.
fn note_all(places: &mut Places, list: &[Place])
    requires placed { All IsPlace list.now }
    requires room { length places.old + length list.now ≤ 20 }
    ensures value { places.new ≡ noted_all list.now places.old }
    ensures grown { length places.new ≤ length places.old + length list.now }
{
    for k in (0..list.len()).rev() {
        note(places, list[k]);
    }
}

/// Notes the words of beat `b`, where they are read or written. `b` is below 4.
fn note_words(places: &mut Places, row: &Move, b: u8, touched: bool)
    requires beat { b < 4 }
    requires room { length places.old ≤ 16 }
    ensures value { places.new ≡ noted_all (cond touched (way_words row.now.register (way_of row.now.way) b) []) places.old }
    ensures grown { length places.new ≤ length places.old + 4 }
{
    if touched {
        let mut list = Words::new();
        list_words(&mut list, &row.way, row.register, b);
        note_all(places, list.as_slice());
    }
}

/// Notes what the addresses of beat `b` are made of. `b` is below 4.
fn note_sources(places: &mut Places, way: &Way, b: u8)
    requires beat { b < 4 }
    requires room { length places.old ≤ 16 }
    ensures value { places.new ≡ noted_all (way_sources (way_of way.now) b) places.old }
    ensures grown { length places.new ≤ length places.old + 2 }
{
    match way {
        Way::Contiguous(w) => note(places, Place::R(w.n)),
        Way::Offsets(w) => {
            note(places, Place::QWord(4 * w.m + b));
            note(places, Place::R(w.n));
        }
        Way::Addresses(w) => note(places, Place::QWord(4 * w.m + b)),
        Way::Interleaved(w) => note(places, Place::R(w.n)),
    }
}

/// Notes the mask, and the slice of P0 where the advance inverts it.
fn note_mask(places: &mut Places, b: u8, r: &Regs)
    requires beat { b < 4 }
    requires room { length places.old ≤ 20 }
    ensures value { places.new ≡ noted_all (begun_in false b r.now) places.old }
    ensures grown { length places.new ≤ length places.old + 2 }
{
    let place = mask_at(b);
    if r.get(place) > 8 {
        note(places, Place::P0(b));
    }
    note(places, place);
}

/// Notes what says which elements are active, and how the masks advance. `b` is below 4.
fn note_begun(places: &mut Places, predicated: bool, b: u8, r: &Regs)
    requires beat { b < 4 }
    requires room { length places.old ≤ 20 }
    ensures value { places.new ≡ noted_all (begun_in predicated b r.now) places.old }
{
    if predicated {
        note_predicate(places, false, b, r)
    } else {
        note_mask(places, b, r)
    }
}

/// Notes what beat `b` writes back. `b` is below 4.
fn note_back(places: &mut Places, way: &Way, b: u8, r: &Regs)
    requires beat { b < 4 }
    requires room { length places.old ≤ 16 }
    ensures value { (m : Memory) (output : List ℕ)
        → places.new
        ≡ noted_all (places_of (way_back (way_of way.now) b (map (λ p. at p (state_of r.now m output)) (way_sources (way_of way.now) b)))) places.old }
    ensures grown { length places.new ≤ length places.old + 1 }
{
    if let Some(w) = written_back(way, b, r) {
        note(places, w.place);
    }
}

/// Whether the words of a beat are read: by stores, and by loads that leave some of a word.
fn reads_words(row: &Move) -> bool
    ensures { result ≡ (row.now.store || not (way_predicated (way_of row.now.way))) }
{
    row.store || !is_predicated(&row.way)
}

/// The places that beat `b` reads. `b` is below 4.
fn reads(row: &Move, b: u8, r: &Regs) -> Places
    requires { b < 4 }
    ensures { (m : Memory) (output : List ℕ) → result ≡ reads_in (move_tree row.now m.around b) r.now m output }
{
    let mut places = Places::new();
    note_words(&mut places, row, b, reads_words(row));
    note_sources(&mut places, &row.way, b);
    note_begun(&mut places, is_predicated(&row.way), b, r);
    places
}

/// The places that beat `b` writes. `b` is below 4.
fn writes(row: &Move, b: u8, r: &Regs) -> Places
    requires { b < 4 }
    ensures { (m : Memory) (output : List ℕ) → result ≡ writes_in (move_tree row.now m.around b) r.now m output }
{
    let mut places = Places::new();
    note_advance(&mut places, b, r);
    note_back(&mut places, &row.way, b, r);
    note_words(&mut places, row, b, !row.store);
    places
}

/// The bytes that beat `b` loads or stores, where it does. `b` is below 4.
fn moved_spans(row: &Move, b: u8, r: &Regs, touched: bool) -> Spans
    requires { b < 4 }
    ensures { (m : Memory) (output : List ℕ)
        → spanned result.items ≡ cond touched (bytes_of_elements row.now.memory (elements_at (moves_of row.now) b (state_of r.now m output))) [] }
{
    if touched {
        let mut es = Elements::new();
        find_elements(&mut es, row, b, r);
        spans(es.as_slice(), row.memory)
    } else {
        Spans::new()
    }
}

/// What beat `b` touches. `b` is below 4.
pub fn touch_move(row: &Move, b: u8, r: &Regs) -> Touch
    requires { b < 4 }
    ensures reads { (m : Memory) (output : List ℕ) → result.reads ≡ reads_in (move_tree row.now m.around b) r.now m output }
    ensures writes { (m : Memory) (output : List ℕ) → result.writes ≡ writes_in (move_tree row.now m.around b) r.now m output }
    ensures loads { (m : Memory) (output : List ℕ) → spanned result.loads.items ≡ loads_in (move_tree row.now m.around b) r.now m output }
    ensures stores { (m : Memory) (output : List ℕ) → spanned result.stores.items ≡ stores_in (move_tree row.now m.around b) r.now m output }
{
    Touch {
        reads: reads(row, b, r),
        writes: writes(row, b, r),
        loads: moved_spans(row, b, r, !row.store),
        stores: moved_spans(row, b, r, row.store),
    }
}
