//! Elements that a beat moves between memory and words of vector registers.

ghost use Rattle.std.specs.Prelude.{◌≡◌, ℕ, ◌+◌, ◌-◌, ◌*◌, ◌^◌, ◌<◌, ◌≤◌, true, false, get_or, length, None, List};
ghost use Rattle.std.specs.Result.{result_err};
ghost use Rattle.hm_beat.specs.Touches.{spanned};
ghost use Rattle.hm_mem.specs.Devices.{IsLen};
ghost use Rattle.hm_mem.specs.Memory.{memory_of};
ghost use Rattle.hm_mem.specs.Seen.{IsSameElsewhere, marks, seen};
ghost use Rattle.hm_regs.specs.declared.Regs.{Regs};
ghost use Rattle.hm_state.specs.State.{cells, state_of};
ghost use Rattle.hm_state.specs.Store.{put_all};
ghost use Rattle.hm_moves.specs.Coded.{Fit, filled_in, first_stop};
ghost use Rattle.hm_moves.specs.Moves.{all_bytes_from, bytes_of_elements, as_loaded, laid, byte_count};
ghost use Rattle.hm_moves.specs.Ways.{moves_of};

use crate::Move;
use arrayvec::ArrayVec;
use hm_base::{Span, Spans, Stop};
use hm_lane::Size;
use hm_mem::{Access, Mem};
use hm_regs::put_bits;

/// An element that a beat moves.
#[derive(Clone, Copy, Default)]
pub struct Element {
    /// The address of its first byte.
    pub addr: u32,
    /// Which of the beat's words it is of.
    pub word: u8,
    /// Its lowest byte in that word.
    pub lane: u8,
}

/// The elements of a beat, at most four. A list is filled in place: one that is handed on by value is copied each time.
pub type Elements = ArrayVec<Element, 4>;

/// How many bytes an element has.
pub fn byte_count(z: Size) -> u32
    ensures value { result ≡ byte_count z }
    ensures len { IsLen result }
{
    match z {
        Size::Byte => 1,
        Size::Half => 2,
        Size::Word => 4,
    }
}

/// The bytes of elements.
pub fn spans(es: &[Element], z: Size) -> Spans
    requires few { length es.now ≤ 4 }
    ensures { spanned result.items ≡ bytes_of_elements z es.now }
{
    let mut spans = Spans::new();
    for e in es {
        spans.push(Span {
            addr: e.addr,
            len: byte_count(z),
        });
    }
    spans
}

/// The stop of the first element that has one.
#[inline(always)]
pub fn check_all(es: &[Element], z: Size, store: bool, m: &Mem) -> Result<(), Stop>
    ensures value { let m = memory_of m.now in result_err result ≡ first_stop m.around store (byte_count z) es.now (seen m) }
{
    for e in es {
        if let Err(stop) = m.check(e.addr, byte_count(z), Access::Vector, store) {
            return Err(stop);
        }
    }
    Ok(())
}

/// The highest bit of an element.
fn top_bit(z: Size) -> u32
    ensures { result ≡ 2 ^ (8 * byte_count z - 1) }
{
    match z {
        Size::Byte => 0x80,
        Size::Half => 0x8000,
        Size::Word => 0x8000_0000,
    }
}

/// All bits of a word that an element does not have.
fn bits_above(z: Size) -> u32
    ensures { result ≡ 2 ^ 32 - 2 ^ (8 * byte_count z) }
{
    match z {
        Size::Byte => 0xffff_ff00,
        Size::Half => 0xffff_0000,
        Size::Word => 0,
    }
}

/// A number that was loaded, extended as the row says.
fn as_loaded(row: &Move, x: u32) -> u32
    ensures { result ≡ as_loaded (moves_of row.now) x }
{
    if row.signed && top_bit(row.memory) <= x {
        x.wrapping_add(bits_above(row.memory))
    } else {
        x
    }
}

/// Word `j` with an element laid into it, where it is of that word.
fn laid(row: &Move, j: usize, e: &Element, x: u32, w: u32) -> u32
    requires { e.now.lane + byte_count row.now.register ≤ 4 }
    ensures { result ≡ laid (moves_of row.now) j e.now x w }
{
    if e.word as usize == j {
        let lo = 8 * e.lane as u32;
        put_bits(
            w,
            lo + (8 * byte_count(row.register) - 1),
            lo,
            as_loaded(row, x),
        )
    } else {
        w
    }
}

/// Word `j` with the elements that are loaded, none of which stops.
#[inline(always)]
pub fn filled(row: &Move, j: usize, es: &[Element], old: u32, m: &Mem) -> u32
    requires fit { Fit row.now.register es.now }
    requires free { let m = memory_of m.now in first_stop m.around false (byte_count row.now.memory) es.now (seen m) ≡ None }
    ensures value { result ≡ filled_in (moves_of row.now) j es.now old (seen (memory_of m.now)) }
{
    let mut word = old;
    // The definition lays the first element last, over the others.
    for k in (0..es.len()).rev() {
        let x = m.peek(es[k].addr, byte_count(row.memory), Access::Vector);
        word = laid(row, j, &es[k], x, word);
    }
    word
}

/// The number of this index; 0 where there is none.
fn number_at(xs: &[u32], k: u8) -> u32
    ensures { result ≡ get_or xs.now k 0 }
{
    match xs.get(k as usize) {
        Some(x) => *x,
        None => 0,
    }
}

/// Stores elements of words, none of which stops.
#[inline(always)]
pub fn store_all(row: &Move, es: &[Element], words: &[u32], m: &mut Mem)
    requires fit { Fit row.now.register es.now }
    requires free { let m = memory_of m.old in first_stop m.around true (byte_count row.now.memory) es.now (seen m) ≡ None }
    ensures state { (r : Regs) (output : List ℕ) → let x = memory_of m.old in
        state_of r (memory_of m.new) output ≡ put_all cells (all_bytes_from (marks x.around.actor) row.now.memory es.now words.now) (state_of r x output) }
    ensures kept { IsSameElsewhere (memory_of m.old) (memory_of m.new) }
{
    for e in es {
        let x = number_at(words, e.word) >> (8 * e.lane as u32);
        m.put(e.addr, byte_count(row.memory), Access::Vector, x);
    }
}
