//! What a beat of a row that loads or stores does.

ghost use Rattle.std.specs.Prelude.{◌≡◌, ℕ, ◌+◌, ◌<◌, ◌≤◌, true, false, List, [], ◌∷◌, ◌++◌, length, map, None, Ok};
ghost use Rattle.std.specs.Prelude.{All, IfSome, IsOk};
ghost use Rattle.hm_base.specs.Place.{IsPlace};
ghost use Rattle.hm_lane.specs.Predicate.{advance_of, mask_of};
ghost use Rattle.hm_mem.specs.Memory.{Memory, memory_of};
ghost use Rattle.hm_mem.specs.Seen.{IsSameElsewhere, marks, seen};
ghost use Rattle.hm_regs.specs.Place.{value_at};
ghost use Rattle.hm_regs.specs.Writes.{apply};
ghost use Rattle.hm_state.specs.State.{AreCells, cells, into, state_of};
ghost use Rattle.hm_state.specs.Store.{put_all};
ghost use Rattle.hm_beat.specs.Laws.{AnswersBeat, Checks, run};
ghost use Rattle.hm_beat.specs.Rows.{word_place};
ghost use Rattle.hm_kinds.specs.Coded.{puts};
ghost use Rattle.hm_kinds.specs.Row.{is_body};
ghost use Rattle.hm_moves.specs.Coded.{Fit, IsSingle, first_stop, loads_of, old_word, puts_of, word_puts};
ghost use Rattle.hm_moves.specs.Moves.{all_bytes_from, elements_at, loaded_at, stored_at, byte_count};
ghost use Rattle.hm_moves.specs.Ways.{move_tree, moves_of, way_of, way_predicated, way_words};

use crate::Move;
use crate::elements::{Element, Elements, check_all, filled, store_all};
use crate::found::{find_elements, is_predicated, only_element};
use crate::words::{Words, list_words, single, written_back};
use arrayvec::ArrayVec;
use hm_base::{Place, Stop};
use hm_kinds::{Written, put_mask, put_slice, put_some};
use hm_lane::{is_unpredicated, mask_at};
use hm_mem::Mem;
use hm_regs::Regs;

/// Words and what they are filled with, at most four.
type Writes = ArrayVec<Written, 4>;

/// The stop that beat `b` would have, and nothing else. `b` is below 4.
pub fn check_move(row: &Move, b: u8, r: &Regs, m: &Mem) -> Result<(), Stop>
    requires { b < 4 }
    ensures { (output : List ℕ) → let x = memory_of m.now in Checks (run (move_tree row.now x.around b) r.now x output) result }
{
    let mut es = Elements::new();
    find_elements(&mut es, row, b, r);
    check_all(es.as_slice(), row.memory, row.store, m)
}

/// Reads what stands in places, at most four. `xs` is empty before.
fn read_values(xs: &mut ArrayVec<u32, 4>, list: &[Place], r: &Regs)
    requires empty { xs.old.items ≡ [] }
    requires few { length list.now ≤ 4 }
    requires placed { All IsPlace list.now }
    ensures value { xs.new.items ≡ map (λ p. value_at p r.now) list.now }
{
    for p in list {
        xs.push(r.get(*p));
    }
}

/// How a word begins to be filled: as zero, or as it stands.
fn old_word(row: &Move, p: Place, r: &Regs) -> u32
    requires { IsPlace p }
    ensures { result ≡ old_word (moves_of row.now) r.now p }
{
    if is_predicated(&row.way) { 0 } else { r.get(p) }
}

/// Fills words with the elements that are loaded, none of which stops. `ws` is empty before.
fn fill_words(ws: &mut Writes, row: &Move, list: &[Place], es: &[Element], r: &Regs, m: &Mem)
    requires empty { ws.old.items ≡ [] }
    requires few { length list.now ≤ 4 }
    requires placed { All IsPlace list.now }
    requires fit { Fit row.now.register es.now }
    requires free { let m = memory_of m.now in first_stop m.around false (byte_count row.now.memory) es.now (seen m) ≡ None }
    ensures value { puts_of ws.new.items ≡ word_puts (moves_of row.now) 0 es.now list.now (old_word (moves_of row.now) r.now) (seen (memory_of m.now)) }
    ensures written { All (λ w. IsPlace w.place) ws.new.items }
{
    for j in 0..list.len() {
        let place = list[j];
        let value = filled(row, j, es, old_word(row, place, r), m);
        ws.push(Written { place, value });
    }
}

/// Writes places.
fn put_each(r: &mut Regs, ws: &[Written])
    requires { All (λ w. IsPlace w.place) ws.now }
    ensures value { r.new ≡ apply (puts_of ws.now) r.old }
    ensures context { r.new.fpca ≡ r.old.fpca }
{
    for w in ws {
        r.set(w.place, w.value);
    }
}

/// Fills word `b` of register `q` with the elements that are loaded, none of which stops, and its other bytes with zeros. `b` is below 4.
#[inline(always)]
fn load_word(row: &Move, q: u8, b: u8, es: &[Element], r: &mut Regs, m: &Mem)
    requires register { q < 8 }
    requires predicated { way_predicated (way_of row.now.way) ≡ true }
    requires beat { b < 4 }
    requires fit { Fit row.now.register es.now }
    requires free { let m = memory_of m.now in first_stop m.around false (byte_count row.now.memory) es.now (seen m) ≡ None }
    ensures value { let s = seen (memory_of m.now) in
        r.new ≡ apply (word_puts (moves_of row.now) 0 es.now (word_place q b ∷ []) (old_word (moves_of row.now) r.old) s) r.old }
    ensures placed { All IsPlace (word_place q b ∷ []) }
    ensures context { r.new.fpca ≡ r.old.fpca }
{
    let place = Place::QWord(4 * q + b);
    let value = filled(row, 0, es, 0, m);
    r.set(place, value);
}

/// Fills the words of beat `b` with the elements that are loaded, none of which stops. `b` is below 4.
#[inline(never)]
fn load_words(row: &Move, b: u8, es: &[Element], r: &mut Regs, m: &Mem)
    requires beat { b < 4 }
    requires fit { Fit row.now.register es.now }
    requires free { let m = memory_of m.now in first_stop m.around false (byte_count row.now.memory) es.now (seen m) ≡ None }
    ensures value { let s = seen (memory_of m.now) in let ps = way_words row.now.register (way_of row.now.way) b in
        r.new ≡ apply (word_puts (moves_of row.now) 0 es.now ps (old_word (moves_of row.now) r.old) s) r.old }
    ensures placed { All IsPlace (way_words row.now.register (way_of row.now.way) b) }
    ensures context { r.new.fpca ≡ r.old.fpca }
{
    let mut list = Words::new();
    list_words(&mut list, &row.way, row.register, b);
    let mut ws = Writes::new();
    fill_words(&mut ws, row, list.as_slice(), es, r, m);
    put_each(r, ws.as_slice());
}

/// Loads the elements that beat `b` moves, none of which stops. `one` is what `single` says of the way, and `b` below 4.
#[inline(always)]
fn load(row: &Move, one: Option<u8>, b: u8, es: &[Element], r: &mut Regs, m: &Mem)
    requires register { IsSingle (way_of row.now.way) one }
    requires beat { b < 4 }
    requires fit { Fit row.now.register es.now }
    requires free { let m = memory_of m.now in first_stop m.around false (byte_count row.now.memory) es.now (seen m) ≡ None }
    ensures value { let s = seen (memory_of m.now) in let ps = way_words row.now.register (way_of row.now.way) b in
        r.new ≡ apply (word_puts (moves_of row.now) 0 es.now ps (old_word (moves_of row.now) r.old) s) r.old }
    ensures placed { All IsPlace (way_words row.now.register (way_of row.now.way) b) }
    ensures context { r.new.fpca ≡ r.old.fpca }
{
    match one {
        Some(q) => load_word(row, q, b, es, r, m),
        None => load_words(row, b, es, r, m),
    }
}

/// Stores the elements from word `b` of register `q`, none of which stops. `b` is below 4.
#[inline(always)]
fn store_word(row: &Move, q: u8, b: u8, es: &[Element], r: &Regs, m: &mut Mem)
    requires register { q < 8 }
    requires beat { b < 4 }
    requires fit { Fit row.now.register es.now }
    requires free { let m = memory_of m.old in first_stop m.around true (byte_count row.now.memory) es.now (seen m) ≡ None }
    ensures state { (output : List ℕ) → let x = memory_of m.old in let xs = map (λ p. value_at p r.now) (word_place q b ∷ []) in
        state_of r.now (memory_of m.new) output
        ≡ put_all cells (all_bytes_from (marks x.around.actor) row.now.memory es.now xs) (state_of r.now x output) }
    ensures placed { All IsPlace (word_place q b ∷ []) }
    ensures kept { IsSameElsewhere (memory_of m.old) (memory_of m.new) }
{
    let word = [r.get(Place::QWord(4 * q + b))];
    store_all(row, es, &word, m)
}

/// Stores the elements from the words of beat `b`, none of which stops. `b` is below 4.
#[inline(never)]
fn store_words(row: &Move, b: u8, es: &[Element], r: &Regs, m: &mut Mem)
    requires beat { b < 4 }
    requires fit { Fit row.now.register es.now }
    requires free { let m = memory_of m.old in first_stop m.around true (byte_count row.now.memory) es.now (seen m) ≡ None }
    ensures state { (output : List ℕ) → let x = memory_of m.old in
        let xs = map (λ p. value_at p r.now) (way_words row.now.register (way_of row.now.way) b) in
        state_of r.now (memory_of m.new) output
        ≡ put_all cells (all_bytes_from (marks x.around.actor) row.now.memory es.now xs) (state_of r.now x output) }
    ensures placed { All IsPlace (way_words row.now.register (way_of row.now.way) b) }
    ensures kept { IsSameElsewhere (memory_of m.old) (memory_of m.new) }
{
    let mut list = Words::new();
    list_words(&mut list, &row.way, row.register, b);
    let mut xs = ArrayVec::new();
    read_values(&mut xs, list.as_slice(), r);
    store_all(row, es, xs.as_slice(), m)
}

/// Stores the elements that beat `b` moves, none of which stops. `one` is what `single` says of the way, and `b` below 4.
#[inline(always)]
fn store(row: &Move, one: Option<u8>, b: u8, es: &[Element], r: &Regs, m: &mut Mem)
    requires register { IsSingle (way_of row.now.way) one }
    requires beat { b < 4 }
    requires fit { Fit row.now.register es.now }
    requires free { let m = memory_of m.old in first_stop m.around true (byte_count row.now.memory) es.now (seen m) ≡ None }
    ensures state { (output : List ℕ) → let x = memory_of m.old in
        let xs = map (λ p. value_at p r.now) (way_words row.now.register (way_of row.now.way) b) in
        state_of r.now (memory_of m.new) output
        ≡ put_all cells (all_bytes_from (marks x.around.actor) row.now.memory es.now xs) (state_of r.now x output) }
    ensures placed { All IsPlace (way_words row.now.register (way_of row.now.way) b) }
    ensures kept { IsSameElsewhere (memory_of m.old) (memory_of m.new) }
{
    match one {
        Some(q) => store_word(row, q, b, es, r, m),
        None => store_words(row, b, es, r, m),
    }
}

/// Loads or stores the elements that beat `b` moves, none of which stops. `one` is what `single` says of the way, and `b` below 4.
#[inline(always)]
fn transfer(row: &Move, one: Option<u8>, b: u8, es: &[Element], r: &mut Regs, m: &mut Mem)
    requires register { IsSingle (way_of row.now.way) one }
    requires beat { b < 4 }
    requires fit { Fit row.now.register es.now }
    requires free { let m = memory_of m.old in first_stop m.around row.now.store (byte_count row.now.memory) es.now (seen m) ≡ None }
    ensures loads { r.new ≡ apply (loads_of (moves_of row.now) b es.now r.old (seen (memory_of m.old))) r.old }
    ensures cells { AreCells (loads_of (moves_of row.now) b es.now r.old (seen (memory_of m.old))) }
    ensures loaded { (output : List ℕ) → let s = state_of r.old (memory_of m.old) output in
        es.now ≡ elements_at (moves_of row.now) b s
        → map into (loads_of (moves_of row.now) b es.now r.old (seen (memory_of m.old))) ≡ loaded_at (moves_of row.now) b s }
    ensures stored { (output : List ℕ) → let x = memory_of m.old in let s = state_of r.old x output in
        es.now ≡ elements_at (moves_of row.now) b s
        → state_of r.old (memory_of m.new) output ≡ put_all cells (stored_at (moves_of row.now) (marks x.around.actor) b s) s }
    ensures kept { IsSameElsewhere (memory_of m.old) (memory_of m.new) }
    ensures context { r.new.fpca ≡ r.old.fpca }
{
    if row.store {
        store(row, one, b, es, r, m)
    } else {
        load(row, one, b, es, r, m)
    }
}

/// Writes what is written back, and advances the masks from what stood in the mask and the slice of beat `b`, which is below 4.
#[inline(always)]
fn finish(r: &mut Regs, back: Option<Written>, b: u8, mask: u32, slice: u32)
    requires back { IfSome back (λ w. IsPlace w.place) }
    requires beat { b < 4 }
    requires mask { mask < 16 }
    requires slice { slice < 16 }
    ensures value { r.new ≡ apply (puts back ++ advance_of b mask slice) r.old }
    ensures context { r.new.fpca ≡ r.old.fpca }
{
    put_some(r, back);
    put_slice(r, b, mask, slice, None);
    put_mask(r, b, mask, None);
}

/// Does beat `b`, by the elements that it moves and the mask of its half, or stops and changes nothing. `b` is below 4.
#[inline(always)]
fn beat_elements(
    row: &Move,
    b: u8,
    mask: u32,
    es: &[Element],
    r: &mut Regs,
    m: &mut Mem,
) -> Result<(), Stop>
    requires beat { b < 4 }
    requires mask { mask ≡ mask_of b r.old }
    requires small { mask < 16 }
    requires fit { Fit row.now.register es.now }
    requires moved { (x : Memory) (output : List ℕ) → es.now ≡ elements_at (moves_of row.now) b (state_of r.old x output) }
    ensures done { (output : List ℕ) → let x = memory_of m.old in
        AnswersBeat (run (move_tree row.now x.around b) r.old x output) result r.old x r.new (memory_of m.new) output }
    ensures kept { IsSameElsewhere (memory_of m.old) (memory_of m.new) }
    ensures context { r.new.fpca ≡ r.old.fpca }
{
    r.in_range();
    // Which register, and what is written back, is read before memory is looked at: a compiler takes the row for changed then.
    let one = single(&row.way);
    let back = written_back(&row.way, b, r);
    let slice = r.get(Place::P0(b));
    if let Err(stop) = check_all(es, row.memory, row.store, m) {
        return Err(stop);
    }
    transfer(row, one, b, es, r, m);
    finish(r, back, b, mask, slice);
    Ok(())
}

/// Does beat `b`, by a list of its elements, or stops and changes nothing. `b` is below 4.
#[inline(never)]
fn beat_listed(row: &Move, b: u8, r: &mut Regs, m: &mut Mem) -> Result<(), Stop>
    requires { b < 4 }
    ensures done { (output : List ℕ) → let x = memory_of m.old in
        AnswersBeat (run (move_tree row.now x.around b) r.old x output) result r.old x r.new (memory_of m.new) output }
    ensures kept { IsSameElsewhere (memory_of m.old) (memory_of m.new) }
    ensures context { r.new.fpca ≡ r.old.fpca }
{
    let mut es = Elements::new();
    find_elements(&mut es, row, b, r);
    beat_elements(row, b, r.get(mask_at(b)), es.as_slice(), r, m)
}

/// Does beat `b`, whatever masks there are, or stops and changes nothing. `b` is below 4.
#[inline(never)]
fn beat_under_masks(row: &Move, b: u8, r: &mut Regs, m: &mut Mem) -> Result<(), Stop>
    requires { b < 4 }
    ensures done { (output : List ℕ) → let x = memory_of m.old in
        AnswersBeat (run (move_tree row.now x.around b) r.old x output) result r.old x r.new (memory_of m.new) output }
    ensures kept { IsSameElsewhere (memory_of m.old) (memory_of m.new) }
    ensures context { r.new.fpca ≡ r.old.fpca }
{
    match only_element(row, b, r) {
        Some(e) => beat_elements(row, b, r.get(mask_at(b)), &[e], r, m),
        None => beat_listed(row, b, r, m),
    }
}

/// The one element that beat `b` moves where nothing is predicated and it has one. `b` is below 4.
#[inline(always)]
fn unpredicated_element(row: &Move, b: u8, r: &Regs) -> Option<Element>
    requires beat { b < 4 }
    ensures value { (m : Memory) (output : List ℕ) → IfSome result (λ e. elements_at (moves_of row.now) b (state_of r.now m output) ≡ e ∷ []) }
    ensures fit { IfSome result (λ e. e.lane + byte_count row.now.register ≤ 4) }
    ensures mask { IfSome result (λ e. mask_of b r.now ≡ 0) }
{
    if is_unpredicated(r) {
        only_element(row, b, r)
    } else {
        None
    }
}

/// Does beat `b`, or stops and changes nothing. `b` is below 4. A beat of one element where nothing is predicated has a way of its own, in which
/// the mask is the constant 0, so that a compiler leaves out what tests it.
pub fn beat_move(row: &Move, b: u8, r: &mut Regs, m: &mut Mem) -> Result<(), Stop>
    requires { b < 4 }
    ensures done { (output : List ℕ) → let x = memory_of m.old in
        AnswersBeat (run (move_tree row.now x.around b) r.old x output) result r.old x r.new (memory_of m.new) output }
    ensures kept { IsSameElsewhere (memory_of m.old) (memory_of m.new) }
    ensures context { r.new.fpca ≡ r.old.fpca }
{
    match unpredicated_element(row, b, r) {
        Some(e) => beat_elements(row, b, 0, &[e], r, m),
        None => beat_under_masks(row, b, r, m),
    }
}
