//! The words that a beat fills or stores from, and what it writes back.

ghost use Rattle.std.specs.Prelude.{◌≡◌, ℕ, ◌+◌, ◌-◌, ◌*◌, ◌/◌, ◌%◌, ◌^◌, ◌<◌, ◌≤◌, ◌&&◌, eqb, cond, List, [], ◌∷◌, ltb, length, map, true, All, IfSome};
ghost use Rattle.hm_base.specs.Place.{IsPlace};
ghost use Rattle.hm_base.specs.declared.Place.TheVariants.{R};
ghost use Rattle.hm_mem.specs.Memory.{Memory};
ghost use Rattle.hm_regs.specs.Writes.{write};
ghost use Rattle.hm_state.specs.State.{at, state_of};
ghost use Rattle.hm_beat.specs.Rows.{word_place};
ghost use Rattle.hm_kinds.specs.Coded.{puts};
ghost use Rattle.hm_kinds.specs.Row.{is_body};
ghost use Rattle.hm_moves.specs.Coded.{IsSingle};
ghost use Rattle.hm_moves.specs.Moves.{byte_count};
ghost use Rattle.hm_lane.specs.Lanes.{per_word};
ghost use Rattle.hm_moves.specs.Ways.{each_from, registers, stream, way_back, way_of, way_sources, way_words};

use crate::found::{registers, stream};
use crate::{Interleaved, Way};
use arrayvec::ArrayVec;
use hm_base::Place;
use hm_beat::read_word;
use hm_kinds::{Written, read};
use hm_lane::{Size, per_word};
use hm_regs::Regs;

/// At most four words. A list is filled in place: one that is handed on by value is copied each time.
pub type Words = ArrayVec<Place, 4>;

/// Which element of its register element `k` of the stream is.
fn quotient(w: &Interleaved, k: u32) -> u32
    ensures value { result ≡ k / registers w.now.four }
    ensures below { (n : ℕ) → k < n * registers w.now.four → result < n }
{
    if w.four { k / 4 } else { k / 2 }
}

/// The register that element `k` of the stream goes to.
fn register_of(w: &Interleaved, k: u32) -> u8
    ensures value { result ≡ w.now.d + k % registers w.now.four }
    ensures below { result < 8 }
{
    if w.four {
        w.d + (k % 4) as u8
    } else {
        w.d + (k % 2) as u8
    }
}

/// The word of a register that its element `k` is of.
fn word_of(z: Size, k: u32) -> u8
    requires { k < 4 * per_word z }
    ensures value { result ≡ byte_count z * k / 4 }
    ensures below { result < 4 }
{
    match z {
        Size::Byte => (k / 4) as u8,
        Size::Half => (2 * k / 4) as u8,
        Size::Word => k as u8,
    }
}

/// The word that element `k` of the stream is of, one of those that all parts move.
fn interleaved_word(w: &Interleaved, z: Size, k: u32) -> Place
    requires { k < 4 * per_word z * registers w.now.four }
    ensures value { result ≡ word_place (w.now.d + k % registers w.now.four) (byte_count z * (k / registers w.now.four) / 4) }
    ensures placed { IsPlace result }
{
    Place::QWord(4 * register_of(w, k) + word_of(z, quotient(w, k)))
}

/// Lists the words of interleaved elements. `b` is below 4, and `list` is empty before.
fn list_interleaved(list: &mut Words, w: &Interleaved, z: Size, b: u8)
    requires beat { b < 4 }
    requires empty { list.old.items ≡ [] }
    ensures value { list.new.items ≡ each_from
        (λ i. let k = stream w.now.part z b + i in word_place (w.now.d + k % registers w.now.four) (byte_count z * (k / registers w.now.four) / 4)) 0
        (cond (ltb (per_word z) (registers w.now.four)) (per_word z) (registers w.now.four)) }
    ensures placed { All IsPlace list.new.items }
    ensures few { length list.new.items ≤ 4 }
{
    let first = stream(w, z, b);
    for i in 0..per_word(z).min(registers(w)) {
        list.push(interleaved_word(w, z, first + i));
    }
}

/// Lists one word of a register. `list` is empty before.
fn list_word(list: &mut Words, q: u8, b: u8)
    requires register { q < 8 }
    requires beat { b < 4 }
    requires empty { list.old.items ≡ [] }
    ensures value { list.new.items ≡ word_place q b ∷ [] }
    ensures placed { All IsPlace list.new.items }
    ensures few { length list.new.items ≤ 4 }
{
    list.push(Place::QWord(4 * q + b));
}

/// The register of which a beat fills or stores a word, where it is of one alone.
#[inline(always)]
pub fn single(way: &Way) -> Option<u8>
    ensures { IsSingle (way_of way.now) result }
{
    match way {
        Way::Contiguous(w) => Some(w.d),
        Way::Offsets(w) => Some(w.d),
        Way::Addresses(w) => Some(w.d),
        Way::Interleaved(_) => None,
    }
}

/// Lists the words that beat `b` fills or stores from. `b` is below 4, and `list` is empty before.
pub fn list_words(list: &mut Words, way: &Way, z: Size, b: u8)
    requires beat { b < 4 }
    requires empty { list.old.items ≡ [] }
    ensures value { list.new.items ≡ way_words z (way_of way.now) b }
    ensures placed { All IsPlace list.new.items }
    ensures few { length list.new.items ≤ 4 }
{
    match way {
        Way::Contiguous(w) => list_word(list, w.d, b),
        Way::Offsets(w) => list_word(list, w.d, b),
        Way::Addresses(w) => list_word(list, w.d, b),
        Way::Interleaved(w) => list_interleaved(list, w, z, b),
    }
}

/// The base register and its new value on the last beat, where it is written: what it holds and so much more.
fn base_back(back: bool, n: u8, b: u8, more: u32, r: &Regs) -> Option<Written>
    requires { n ≤ 14 }
    ensures value { (m : Memory) (output : List ℕ)
        → puts result ≡ cond (back && eqb b 3) (write (R n) ((at (R n) (state_of r.now m output) + more) % 2 ^ 32) ∷ []) [] }
    ensures placed { IfSome result (λ w. IsPlace w.place) }
    ensures body { IfSome result (λ w. is_body w.place ≡ true) }
{
    if back && b == 3 {
        let place = Place::R(n);
        Some(Written {
            place,
            value: read(r, place).wrapping_add(more),
        })
    } else {
        None
    }
}

/// A word with addresses and its new value, where it is written: what it holds and so much more.
fn word_back(back: bool, q: u8, b: u8, more: u32, r: &Regs) -> Option<Written>
    requires register { q < 8 }
    requires beat { b < 4 }
    ensures value { (m : Memory) (output : List ℕ)
        → puts result ≡ cond back (write (word_place q b) ((at (word_place q b) (state_of r.now m output) + more) % 2 ^ 32) ∷ []) [] }
    ensures placed { IfSome result (λ w. IsPlace w.place) }
    ensures body { IfSome result (λ w. is_body w.place ≡ true) }
{
    if back {
        Some(Written {
            place: Place::QWord(4 * q + b),
            value: read_word(r, q, b).wrapping_add(more),
        })
    } else {
        None
    }
}

/// What beat `b` writes back, by what stands in its first source, which is read only where something is written back. `b` is below 4.
pub fn written_back(way: &Way, b: u8, r: &Regs) -> Option<Written>
    requires { b < 4 }
    ensures value { (m : Memory) (output : List ℕ)
        → puts result ≡ way_back (way_of way.now) b (map (λ p. at p (state_of r.now m output)) (way_sources (way_of way.now) b)) }
    ensures placed { IfSome result (λ w. IsPlace w.place) }
    ensures body { IfSome result (λ w. is_body w.place ≡ true) }
{
    match way {
        Way::Contiguous(w) => base_back(w.back, w.n, b, w.offset, r),
        Way::Offsets(_) => None,
        Way::Addresses(w) => word_back(w.back, w.m, b, w.offset, r),
        Way::Interleaved(w) => base_back(w.back, w.n, b, 16 * registers(w), r),
    }
}
