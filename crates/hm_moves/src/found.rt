//! Where a beat finds its elements.

ghost use Rattle.std.specs.Prelude.{◌≡◌, ℕ, ◌+◌, ◌-◌, ◌*◌, ◌/◌, ◌%◌, ◌^◌, ◌<◌, ◌≤◌, List, [], ◌∷◌, ◌++◌, cond, get_or, length, map, All, IfSome};
ghost use Rattle.hm_base.specs.Bits.{field};
ghost use Rattle.hm_base.specs.Place.{IsPlace};
ghost use Rattle.hm_mem.specs.Memory.{Memory};
ghost use Rattle.hm_state.specs.State.{at, state_of};
ghost use Rattle.hm_beat.specs.Rows.{active_at, word_place};
ghost use Rattle.hm_kinds.specs.Coded.{those};
ghost use Rattle.hm_kinds.specs.Row.{is_body};
ghost use Rattle.hm_moves.specs.Coded.{Fit, active_of};
ghost use Rattle.hm_moves.specs.Moves.{active_ones, elements_at, every_byte, byte_count};
ghost use Rattle.hm_lane.specs.Lanes.{per_word};
ghost use Rattle.hm_moves.specs.Ways.{each_from, moves_of, registers, start, stream, way_element, way_of, way_predicated, way_sources};
ghost use Rattle.hm_moves.specs.declared.ways.Way.TheVariants as way;

use crate::elements::{Element, Elements, byte_count};
use crate::{Addresses, Contiguous, Interleaved, Move, Offsets, Way};
use hm_base::{Place, bits};
use hm_beat::read_word;
use hm_kinds::{active, read};
use hm_lane::{Size, per_word};
use hm_regs::Regs;

/// So many words in elements.
fn times_count(z: Size, k: u32) -> u32
    requires { k < 16 }
    ensures value { result ≡ per_word z * k }
    ensures at_most { result ≤ 60 }
    ensures within { (n : ℕ) → k < n → result + per_word z ≤ per_word z * n }
{
    match z {
        Size::Byte => 4 * k,
        Size::Half => 2 * k,
        Size::Word => k,
    }
}

/// The lowest byte of element `j` of a word.
fn lane(z: Size, j: u32) -> u8
    requires { j < per_word z }
    ensures value { result ≡ byte_count z * j }
    ensures fit { result + byte_count z ≤ 4 }
{
    match z {
        Size::Byte => j as u8,
        Size::Half => 2 * j as u8,
        Size::Word => 0,
    }
}

/// The lowest byte, in its word, of element `k` of a register.
fn lane_in_word(z: Size, k: u32) -> u8
    requires { k ≤ 64 }
    ensures value { result ≡ byte_count z * k % 4 }
    ensures fit { result + byte_count z ≤ 4 }
{
    match z {
        Size::Byte => (k % 4) as u8,
        Size::Half => (2 * k % 4) as u8,
        Size::Word => 0,
    }
}

/// Element `j` of a word.
fn lane_number(z: Size, j: u32, word: u32) -> u32
    requires { j < per_word z }
    ensures { result ≡ field (8 * (byte_count z * j)) (8 * byte_count z) word }
{
    let lo = 8 * lane(z, j) as u32;
    bits(word, lo + (8 * byte_count(z) - 1), lo)
}

/// Where elements that stand one behind another begin.
fn start(w: &Contiguous, base: u32) -> u32
    ensures { result ≡ start w.now.before w.now.offset base }
{
    if w.before {
        base.wrapping_add(w.offset)
    } else {
        base
    }
}

/// Element `j` of beat `b` of those that stand one behind another. `b` is below 4.
fn contiguous_element(w: &Contiguous, y: Size, z: Size, b: u8, base: u32, j: u32) -> Element
    requires beat { b < 4 }
    requires index { j < per_word z }
    ensures value { (n : ℕ) → result ≡ way_element y z (way_of (way.Contiguous w.now)) b (base ∷ n ∷ []) j }
    ensures fit { result.lane + byte_count z ≤ 4 }
{
    let index = times_count(z, b as u32) + j;
    Element {
        addr: start(w, base).wrapping_add(index * byte_count(y)),
        word: 0,
        lane: lane(z, j),
    }
}

/// The address at the offset that element `j` of a word is.
fn offset_address(w: &Offsets, z: Size, base: u32, word: u32, j: u32) -> u32
    requires { j < per_word z }
    ensures { result ≡ (base + field (8 * (byte_count z * j)) (8 * byte_count z) word * 2 ^ w.now.scale) % 2 ^ 32 }
{
    base.wrapping_add(lane_number(z, j, word) << w.scale)
}

/// How many registers take elements in turn.
pub fn registers(w: &Interleaved) -> u32
    ensures value { result ≡ registers w.now.four }
    ensures some { 2 ≤ result }
    ensures at_most { result ≤ 4 }
{
    if w.four { 4 } else { 2 }
}

/// The number in the stream of the first element of beat `b`, which is below 4.
pub fn stream(w: &Interleaved, z: Size, b: u8) -> u32
    requires { b < 4 }
    ensures value { result ≡ stream w.now.part z b }
    ensures at_most { result ≤ 60 }
    ensures within { result + per_word z ≤ 4 * per_word z * registers w.now.four }
{
    times_count(z, 4 * w.part as u32 + b as u32)
}

/// Element `j` of beat `b` of interleaved ones. `b` is below 4.
fn interleaved_element(w: &Interleaved, y: Size, z: Size, b: u8, base: u32, j: u32) -> Element
    requires beat { b < 4 }
    requires index { j < per_word z }
    ensures value { (n : ℕ) → result ≡ way_element y z (way_of (way.Interleaved w.now)) b (base ∷ n ∷ []) j }
    ensures fit { result.lane + byte_count z ≤ 4 }
{
    let count = registers(w);
    let index = stream(w, z, b) + j;
    Element {
        addr: base.wrapping_add(index * byte_count(y)),
        word: (j % count) as u8,
        lane: lane_in_word(z, index / count),
    }
}

/// Element `j` of beat `b`, by the two numbers that stand in the sources. `b` is below 4.
fn element(row: &Move, b: u8, first: u32, second: u32, j: u32) -> Element
    requires beat { b < 4 }
    requires index { j < per_word row.now.register }
    ensures value { result ≡ way_element row.now.memory row.now.register (way_of row.now.way) b (first ∷ second ∷ []) j }
    ensures fit { result.lane + byte_count row.now.register ≤ 4 }
{
    let y = row.memory;
    let z = row.register;
    match &row.way {
        Way::Contiguous(w) => contiguous_element(w, y, z, b, first, j),
        Way::Offsets(w) => Element {
            addr: offset_address(w, z, first, second, j),
            word: 0,
            lane: lane(z, j),
        },
        Way::Addresses(w) => Element {
            addr: first.wrapping_add(w.offset),
            word: 0,
            lane: lane(z, j),
        },
        Way::Interleaved(w) => interleaved_element(w, y, z, b, first, j),
    }
}

/// What the first source of beat `b` holds. `b` is below 4.
fn first_source(way: &Way, b: u8, r: &Regs) -> u32
    requires { b < 4 }
    ensures { (m : Memory) (output : List ℕ) → result ≡ get_or (map (λ p. at p (state_of r.now m output)) (way_sources (way_of way.now) b)) 0 0 }
{
    match way {
        Way::Contiguous(w) => read(r, Place::R(w.n)),
        Way::Offsets(w) => read(r, Place::R(w.n)),
        Way::Addresses(w) => read_word(r, w.m, b),
        Way::Interleaved(w) => read(r, Place::R(w.n)),
    }
}

/// What the second one holds, where there are two. `b` is below 4.
fn second_source(way: &Way, b: u8, r: &Regs) -> u32
    requires { b < 4 }
    ensures { (m : Memory) (output : List ℕ) → result ≡ get_or (map (λ p. at p (state_of r.now m output)) (way_sources (way_of way.now) b)) 1 0 }
{
    match way {
        Way::Offsets(w) => read_word(r, w.m, b),
        _ => 0,
    }
}

/// Whether a row is under the predicate.
pub fn is_predicated(way: &Way) -> bool
    ensures { result ≡ way_predicated (way_of way.now) }
{
    match way {
        Way::Interleaved(_) => false,
        _ => true,
    }
}

/// The active bytes of beat `b`. `b` is below 4.
fn active_bytes(row: &Move, b: u8, r: &Regs) -> [bool; 4]
    requires { b < 4 }
    ensures { (m : Memory) (output : List ℕ) → result ≡ active_of (moves_of row.now) b (state_of r.now m output) }
{
    if is_predicated(&row.way) {
        active(r, b)
    } else {
        [true; 4]
    }
}

/// The element of beat `b` of contiguous words, where it is active. `b` is below 4.
#[inline(always)]
fn word_element(row: &Move, w: &Contiguous, b: u8, r: &Regs) -> Option<Element>
    requires beat { b < 4 }
    requires way { row.now.way ≡ way.Contiguous w.now }
    requires word { per_word row.now.register ≡ 1 }
    ensures value { (m : Memory) (output : List ℕ) → IfSome result (λ e. elements_at (moves_of row.now) b (state_of r.now m output) ≡ e ∷ []) }
    ensures fit { IfSome result (λ e. e.lane + byte_count row.now.register ≤ 4) }
{
    if active(r, b)[0] {
        Some(contiguous_element(w, row.memory, row.register, b, read(r, Place::R(w.n)), 0))
    } else {
        None
    }
}

/// The element of beat `b`, where it is known to move one alone: a word of those that stand one behind another. `b` is below 4.
#[inline(always)]
pub fn only_element(row: &Move, b: u8, r: &Regs) -> Option<Element>
    requires beat { b < 4 }
    ensures value { (m : Memory) (output : List ℕ) → IfSome result (λ e. elements_at (moves_of row.now) b (state_of r.now m output) ≡ e ∷ []) }
    ensures fit { IfSome result (λ e. e.lane + byte_count row.now.register ≤ 4) }
{
    match (&row.way, row.register) {
        (Way::Contiguous(w), Size::Word) => word_element(row, w, b, r),
        _ => None,
    }
}

/// Puts an element behind others, where it is active.
fn push_active(es: &mut Elements, e: Element, active: bool)
    requires room { length es.old.items < 4 }
    ensures value { es.new.items ≡ es.old.items ++ cond active (e ∷ []) [] }
    ensures few { length es.new.items ≤ length es.old.items + 1 }
    ensures fit { (w : ℕ) → All (λ x. x.lane + w ≤ 4) es.old.items → e.lane + w ≤ 4 → All (λ x. x.lane + w ≤ 4) es.new.items }
{
    if active {
        es.push(e);
    }
}

/// Finds the active ones of the elements of beat `b` that stand one behind another, by the number in the base register.
/// `b` is below 4, and `es` is empty before.
#[inline(always)]
fn find_contiguous(
    es: &mut Elements,
    w: &Contiguous,
    y: Size,
    z: Size,
    b: u8,
    base: u32,
    active: [bool; 4],
)
    requires beat { b < 4 }
    requires empty { es.old.items ≡ [] }
    ensures value { (n : ℕ) → es.new.items ≡ active_ones active
        (each_from (way_element y z (way_of (way.Contiguous w.now)) b (base ∷ n ∷ [])) 0 (per_word z)) }
    ensures few { length es.new.items ≤ 4 }
    ensures fit { Fit z es.new.items }
{
    for j in 0..per_word(z) {
        let found = contiguous_element(w, y, z, b, base, j);
        push_active(es, found, active[found.lane as usize]);
    }
}

/// Finds the active ones of the elements of beat `b` of any row, by the two numbers that stand in the sources. `b` is below 4, and `es` is empty before.
#[inline(never)]
fn find_each(es: &mut Elements, row: &Move, b: u8, first: u32, second: u32, active: [bool; 4])
    requires beat { b < 4 }
    requires empty { es.old.items ≡ [] }
    ensures value { es.new.items ≡ active_ones active
        (each_from (way_element row.now.memory row.now.register (way_of row.now.way) b (first ∷ second ∷ [])) 0 (per_word row.now.register)) }
    ensures few { length es.new.items ≤ 4 }
    ensures fit { Fit row.now.register es.new.items }
{
    for j in 0..per_word(row.register) {
        let e = element(row, b, first, second, j);
        push_active(es, e, active[e.lane as usize]);
    }
}

/// Finds the active ones of the elements of beat `b`, by the two numbers that stand in the sources. `b` is below 4, and `es` is empty before.
#[inline(always)]
fn find_active(es: &mut Elements, row: &Move, b: u8, first: u32, second: u32, active: [bool; 4])
    requires beat { b < 4 }
    requires empty { es.old.items ≡ [] }
    ensures value { es.new.items ≡ active_ones active
        (each_from (way_element row.now.memory row.now.register (way_of row.now.way) b (first ∷ second ∷ [])) 0 (per_word row.now.register)) }
    ensures few { length es.new.items ≤ 4 }
    ensures fit { Fit row.now.register es.new.items }
{
    match &row.way {
        Way::Contiguous(w) => find_contiguous(es, w, row.memory, row.register, b, first, active),
        _ => find_each(es, row, b, first, second, active),
    }
}

/// Finds the elements that beat `b` moves. `b` is below 4, and `es` is empty before.
#[inline(always)]
pub fn find_elements(es: &mut Elements, row: &Move, b: u8, r: &Regs)
    requires beat { b < 4 }
    requires empty { es.old.items ≡ [] }
    ensures value { (m : Memory) (output : List ℕ) → es.new.items ≡ elements_at (moves_of row.now) b (state_of r.now m output) }
    ensures few { length es.new.items ≤ 4 }
    ensures fit { Fit row.now.register es.new.items }
{
    let first = first_source(&row.way, b, r);
    let second = second_source(&row.way, b, r);
    find_active(es, row, b, first, second, active_bytes(row, b, r))
}
