//! The predicate of the registers, and what each beat does to the masks.

ghost use Rattle.std.specs.Prelude.{ℕ, ◌≡◌, ◌≤◌, ◌<◌, ◌+◌, ◌*◌, ◌==◌, if◌then◌else◌, eqb, ltb, true, IsTrue, [], ◌∷◌};
ghost use Rattle.std.specs.Int.{bit_at};
ghost use Rattle.hm_base.specs.Place.{IsPlace, range_of};
ghost use Rattle.hm_regs.specs.Writes.{apply};
ghost use Rattle.hm_lane.specs.Lanes.{bytes_of, word_of, merged};
ghost use Rattle.hm_lane.specs.Predicate.{active_word, advance_writes, bits_of_word, finish_writes, in_tail, is_unpredicated, mask_bit};
ghost use Rattle.hm_lane.specs.Predicate.{mask_of, mask_place, predicate_of, truths_of, with_context};

use crate::lanes::{bytes, word};
use hm_base::{Place, bits};
use hm_regs::Regs;

/// The new bytes of word `b` where the predicate `p` is true, and the old ones elsewhere. `b` is below 4.
pub fn merge(old: u32, new: u32, p: u16, b: u8) -> u32
    requires { b < 4 }
    ensures { result ≡ word_of (merged (bits_of_word p b) (bytes_of old) (bytes_of new)) }
{
    let [x0, x1, x2, x3] = bytes(old);
    let [y0, y1, y2, y3] = bytes(new);
    let first = 4 * b;
    let z0 = if (p >> first) % 2 == 1 { y0 } else { x0 };
    let z1 = if (p >> (first + 1)) % 2 == 1 { y1 } else { x1 };
    let z2 = if (p >> (first + 2)) % 2 == 1 { y2 } else { x2 };
    let z3 = if (p >> (first + 3)) % 2 == 1 { y3 } else { x3 };
    word([z0, z1, z2, z3])
}

/// How many bytes the elements that are left have, at most 16.
fn tail(r: &Regs) -> u32
    ensures at_most { result ≤ 16 }
    ensures within { (k : ℕ) → k < 16 → ltb k result ≡ in_tail r.now k }
{
    let left = r.get(Place::R(14));
    let size = r.get(Place::Ltp);
    if size < 4 && left <= 1 << (4 - size) {
        left << size
    } else {
        16
    }
}

/// The eight bits of a half, which are ones without a mask.
fn half_bits(mask: u32, bits: u32) -> u32
    ensures { result ≡ (if mask == 0 then 255 else bits) }
{
    if mask == 0 { 255 } else { bits }
}

/// The bits of P0, and ones for a half without a mask.
fn mask_bits(r: &Regs) -> u32
    ensures below { result < 65536 }
    ensures each { (b j : ℕ) → b < 4 → j < 4 → eqb (bit_at result (4 * b + j)) 1 ≡ mask_bit r.now b j }
{
    let low = half_bits(r.get(Place::Mask01), bits(r.vpr, 7, 0));
    let high = half_bits(r.get(Place::Mask23), bits(r.vpr, 15, 8));
    (high << 8) + low
}

/// The predicate, with a bit for each byte of a vector register, the first one lowest. A byte is active where its
/// half has no mask or its bit of P0 is set, and where it is one of the elements that lr and LTPSIZE say are left
/// (DDI0553, "MVE predication" and "Tail predication").
pub fn predicate(r: &Regs) -> u16
    ensures value { truths_of result ≡ predicate_of r.now }
    ensures words { (b : ℕ) → b < 4 → bits_of_word result b ≡ active_word r.now b }
{
    (mask_bits(r) % (1 << tail(r))) as u16
}

/// Whether nothing is predicated: no half has a mask, and no elements are counted (DDI0553, "MVE predication"). Then all bytes are active,
/// and no mask advances; where something is predicated, all may be active all the same.
#[inline(always)]
pub fn is_unpredicated(r: &Regs) -> bool
    ensures value { result ≡ is_unpredicated r.now }
    ensures active { IsTrue result → (b : ℕ) → active_word r.now b ≡ true ∷ true ∷ true ∷ true ∷ [] }
    ensures masks { IsTrue result → (b : ℕ) → mask_of b r.now ≡ 0 }
{
    r.get(Place::Mask01) == 0 && r.get(Place::Mask23) == 0 && r.get(Place::Ltp) >= 4
}

/// The place of the mask for word `b`.
pub fn mask_at(b: u8) -> Place
    ensures place { result ≡ mask_place b }
    ensures proper { IsPlace result }
    ensures range { range_of result ≡ 16 }
{
    if b < 2 { Place::Mask01 } else { Place::Mask23 }
}

/// Advances the masks after beat `b`, which is below 4: where the mask of the half is greater than 8 the beat's four
/// bits of P0 are inverted, and after the second beat of a half its mask is shifted left by one within four bits
/// (DDI0553, "VPT block predication").
pub fn advance(r: &mut Regs, b: u8)
    requires { b < 4 }
    ensures { r.new ≡ apply (advance_writes b r.old) r.old }
{
    let place = mask_at(b);
    let mask = r.get(place);
    if mask > 8 {
        let slice = r.get(Place::P0(b));
        r.set(Place::P0(b), 15 - slice);
    }
    if b % 2 == 1 && mask != 0 {
        r.set(place, 2 * mask);
    }
}

/// Merges a word into word `b` of vector register `d` under the predicate, and then advances the masks. `d` is below 8
/// and `b` below 4.
pub fn finish(r: &mut Regs, d: u8, b: u8, new: u32)
    requires register { d < 8 }
    requires beat { b < 4 }
    ensures { r.new ≡ apply (finish_writes d b new r.old) r.old }
{
    let place = Place::QWord(4 * d + b);
    let p = predicate(r);
    let old = r.get(place);
    r.set(place, merge(old, new, p, b));
    advance(r, b);
}

/// Makes the context of the vector registers where there is none: no mask, no flag, and all of a vector is worked on
/// (DDI0553, "FPCA" and "ExecuteFPCheck").
pub fn context(r: &mut Regs)
    ensures { r.new ≡ with_context r.old }
{
    if !r.fpca {
        r.fpca = true;
        r.vpr = 0;
        r.fpscr = 0x0004_0000;
    }
}
