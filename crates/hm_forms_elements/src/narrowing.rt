//! `vmovnb`, `vmovnt`, `vqmovnb`, `vqmovnt`, `vqmovunb` and `vqmovunt`.

ghost use Rattle.std.specs.Prelude.{◌≡◌, ℕ, ◌<◌, List, [], Ok, Bool};
ghost use Rattle.hm_mem.specs.Memory.{Memory};
ghost use Rattle.hm_state.specs.State.{state_of};
ghost use Rattle.hm_beat.specs.Laws.{run};
ghost use Rattle.hm_beat.specs.Touches.{reads_in, writes_in};
ghost use Rattle.hm_kinds.specs.Row.{row_tree};
ghost use Rattle.hm_lane.specs.Lanes.{bytes_of, modulus, word_of};
ghost use Rattle.hm_forms_elements.specs.Forms.{gives_unsigned, narrowed, narrowing_bytes, narrowing_outside, narrowing_row, narrowing_saturates};
ghost use Rattle.hm_forms_elements.specs.Forms.{narrowing_tests, takes_unsigned};

use crate::words::{finish_word, touch_word};
use hm_base::{Places, note};
use hm_beat::Touch;
use hm_isa::{NarrowingName, V16};
use hm_kinds::{active, read};
use hm_lane::{Size, bytes, word};
use hm_lane_fns::{any_both, clamped, cut, is_outside, lane_value, merge_active, word_place};
use hm_regs::Regs;

/// Whether the operation saturates.
fn saturates(f: NarrowingName) -> bool
    ensures { result ≡ narrowing_saturates f }
{
    match f {
        NarrowingName::Plain => false,
        _ => true,
    }
}

/// Whether it takes elements without a sign.
fn takes_unsigned(f: NarrowingName) -> bool
    ensures { result ≡ takes_unsigned f }
{
    match f {
        NarrowingName::Unsigned => true,
        _ => false,
    }
}

/// Whether it gives elements without a sign.
fn gives_unsigned(f: NarrowingName) -> bool
    ensures { result ≡ gives_unsigned f }
{
    match f {
        NarrowingName::Unsigned | NarrowingName::ToUnsigned => true,
        _ => false,
    }
}

/// The narrow element of a wide one.
fn narrowed(f: NarrowingName, wide: Size, small: Size, x: u32) -> u32
    requires { x < modulus wide }
    ensures value { result ≡ narrowed f wide small x }
    ensures below { result < modulus small }
{
    let v = lane_value(takes_unsigned(f), wide, x);
    if saturates(f) {
        cut(small, clamped(gives_unsigned(f), small, v))
    } else {
        cut(small, v)
    }
}

/// Whether it saturates.
fn outside(f: NarrowingName, wide: Size, small: Size, x: u32) -> bool
    requires { x < modulus wide }
    ensures { result ≡ narrowing_outside f wide small x }
{
    is_outside(
        gives_unsigned(f),
        small,
        lane_value(takes_unsigned(f), wide, x),
    )
}

/// Narrow elements in the lower or the upper part of the wide ones' places.
fn narrowing_word(wide: bool, top: bool, f: NarrowingName, old: u32, x: u32) -> u32
    ensures { result ≡ word_of (narrowing_bytes wide top f (bytes_of old) (bytes_of x)) }
{
    let [a, b, c, d] = bytes(old);
    if wide {
        let n = narrowed(f, Size::Word, Size::Half, x);
        let low = (n % 256) as u8;
        let high = (n >> 8) as u8;
        if top {
            word([a, b, low, high])
        } else {
            word([low, high, c, d])
        }
    } else {
        let low = narrowed(f, Size::Half, Size::Byte, x % 65536) as u8;
        let high = narrowed(f, Size::Half, Size::Byte, x >> 16) as u8;
        if top {
            word([a, low, c, high])
        } else {
            word([low, b, high, d])
        }
    }
}

/// Where they saturate.
fn narrowing_tests(wide: bool, top: bool, f: NarrowingName, x: u32) -> [bool; 4]
    ensures { result ≡ narrowing_tests wide top f (bytes_of x) }
{
    if wide {
        let n = outside(f, Size::Word, Size::Half, x);
        if top {
            [false, false, n, false]
        } else {
            [n, false, false, false]
        }
    } else {
        let low = outside(f, Size::Half, Size::Byte, x % 65536);
        let high = outside(f, Size::Half, Size::Byte, x >> 16);
        if top {
            [false, low, false, high]
        } else {
            [low, false, high, false]
        }
    }
}

/// What beat `b` of `vmovnb`, `vmovnt`, `vqmovnb`, `vqmovnt`, `vqmovunb` or `vqmovunt` touches: DDI0553, "VMOVN", "VQMOVN" and "VQMOVUN".
/// `b` is below 4.
pub fn touch_narrowing(row: &V16, b: u8, r: &Regs) -> Touch
    requires { b < 4 }
    ensures reads { (m : Memory) (output : List ℕ) → result.reads ≡ reads_in (row_tree (narrowing_row row.now) b) r.now m output }
    ensures writes { (m : Memory) (output : List ℕ) → result.writes ≡ writes_in (row_tree (narrowing_row row.now) b) r.now m output }
    ensures loads { result.loads.items ≡ [] }
    ensures stores { result.stores.items ≡ [] }
{
    let word = word_place(&row.d, b);
    let mut sources = Places::new();
    note(&mut sources, word_place(&row.m, b));
    note(&mut sources, word);
    touch_word(sources, word, saturates(row.name), b, r)
}

/// Does beat `b` of `vmovnb`, `vmovnt`, `vqmovnb`, `vqmovnt`, `vqmovunb` or `vqmovunt`: DDI0553, "VMOVN", "VQMOVN" and "VQMOVUN". `b` is below 4.
pub fn beat_narrowing(row: &V16, b: u8, r: &mut Regs)
    requires { b < 4 }
    ensures done { (m : Memory) (output : List ℕ) → run (row_tree (narrowing_row row.now) b) r.old m output ≡ Ok (state_of r.new m output) }
    ensures context { r.new.fpca ≡ r.old.fpca }
{
    let place = word_place(&row.d, b);
    let old = read(r, place);
    let x = read(r, word_place(&row.m, b));
    let wide = row.z.get() == 1;
    let top = row.t.get() == 1;
    let new = narrowing_word(wide, top, row.name, old, x);
    let marks = saturates(row.name)
        && any_both(active(r, b), narrowing_tests(wide, top, row.name, x));
    finish_word(r, place, merge_active(r, b, old, new), marks, b);
}
