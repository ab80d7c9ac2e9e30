//! `vcadd` and `vhcadd`.

ghost use Rattle.std.specs.Prelude.{◌≡◌, ℕ, ◌<◌, ◌≤ℤ◌, ◌<ℤ◌, ◌+ℤ◌, ◌-ℤ◌, pos, cond, List, [], Ok, true};
ghost use Rattle.hm_base.specs.Place.{IsPlace};
ghost use Rattle.hm_mem.specs.Memory.{Memory};
ghost use Rattle.hm_state.specs.State.{state_of};
ghost use Rattle.hm_beat.specs.Laws.{run};
ghost use Rattle.hm_beat.specs.Touches.{reads_in, writes_in};
ghost use Rattle.hm_beat.specs.Rows.{word_place};
ghost use Rattle.hm_lane.specs.Lanes.{modulus};
ghost use Rattle.hm_lane.specs.declared.lanes.Size.TheVariants as size;
ghost use Rattle.hm_lane_fns.specs.LaneFns.{halved};
ghost use Rattle.hm_kinds.specs.Row.{is_body, row_tree};
ghost use Rattle.hm_lane_fns.specs.Words.{size_of};
ghost use Rattle.hm_forms_elements.specs.Forms.{begins_even, halves, other_word, takes_away, complex_sum_at, complex_sum_lane, complex_sum_row};
ghost use Rattle.hm_forms_elements.specs.Forms.{complex_sum_word};

use crate::words::{finish_word, touch_word};
use hm_base::{Place, Places, note};
use hm_beat::Touch;
use hm_isa::{ComplexSumName, V9};
use hm_kinds::read;
use hm_lane::{Size, bytes, word};
use hm_lane_fns::{cut, halved, lane_value, merge_active, size, word_place};
use hm_regs::Regs;

/// The other word of a pair; `b` is below 4.
pub fn other_word(b: u8) -> u8
    requires { b < 4 }
    ensures value { result ≡ other_word b }
    ensures below { result < 4 }
{
    if b % 2 == 0 { b + 1 } else { b - 1 }
}

/// Whether the neighbour is taken away.
fn takes_away(row: &V9, even: bool) -> bool
    ensures { result ≡ takes_away row.now even }
{
    if row.t.get() == 0 { even } else { !even }
}

/// The sum or the difference of two numbers.
fn signed_sum(minus: bool, a: i64, b: i64) -> i64
    requires a_low { (pos 0 -ℤ pos 2147483648) ≤ℤ a }
    requires b_low { (pos 0 -ℤ pos 2147483648) ≤ℤ b }
    requires a_high { a <ℤ pos 4294967296 }
    requires b_high { b <ℤ pos 4294967296 }
    ensures { result ≡ cond minus (a -ℤ b) (a +ℤ b) }
{
    if minus { a - b } else { a + b }
}

/// Whether results are halved.
fn halves(name: ComplexSumName) -> bool
    ensures { result ≡ halves name }
{
    match name {
        ComplexSumName::Cadd => false,
        ComplexSumName::Hcadd => true,
    }
}

/// The half, where it is wanted.
fn half_of(halves: bool, v: i64) -> i64
    ensures { result ≡ cond halves (halved v) v }
{
    if halves { halved(v) } else { v }
}

/// A lane of the result.
fn complex_sum_lane(row: &V9, z: Size, even: bool, x: u32, y: u32) -> u32
    requires first { x < modulus z }
    requires second { y < modulus z }
    ensures value { result ≡ complex_sum_lane row.now z even x y }
    ensures below { result < modulus z }
{
    let minus = takes_away(row, even);
    let a = lane_value(false, z, x);
    let b = lane_value(false, z, y);
    let sum = signed_sum(minus, a, b);
    let v = half_of(halves(row.name), sum);
    cut(z, v)
}

/// The new word of bytes, of whose first it is said whether its number is even.
fn byte_sums(row: &V9, even: bool, x: u32, y: u32) -> u32
    ensures { result ≡ complex_sum_word row.now size.Byte even x y }
{
    let [x0, x1, x2, x3] = bytes(x);
    let [y0, y1, y2, y3] = bytes(y);
    let odd = !even;
    let third = !odd;
    let c0 = complex_sum_lane(row, Size::Byte, even, x0 as u32, y1 as u32);
    let c1 = complex_sum_lane(row, Size::Byte, odd, x1 as u32, y0 as u32);
    let c2 = complex_sum_lane(row, Size::Byte, third, x2 as u32, y3 as u32);
    let c3 = complex_sum_lane(row, Size::Byte, !third, x3 as u32, y2 as u32);
    word([c0 as u8, c1 as u8, c2 as u8, c3 as u8])
}

/// The new word of halfwords, of whose first it is said whether its number is even.
fn half_sums(row: &V9, even: bool, x: u32, y: u32) -> u32
    ensures { result ≡ complex_sum_word row.now size.Half even x y }
{
    let low = complex_sum_lane(row, Size::Half, even, x % 65536, y >> 16);
    let high = complex_sum_lane(row, Size::Half, !even, x >> 16, y % 65536);
    low + (high << 16)
}

/// The new word, of whose first element it is said whether its number is even.
fn complex_sum_word(row: &V9, z: Size, even: bool, x: u32, y: u32) -> u32
    ensures { result ≡ complex_sum_word row.now z even x y }
{
    match z {
        Size::Byte => byte_sums(row, even, x, y),
        Size::Half => half_sums(row, even, x, y),
        Size::Word => complex_sum_lane(row, z, even, x, y),
    }
}

/// The second operands of beat `b`, which is below 4.
fn second_word(row: &V9, b: u8) -> Place
    requires { b < 4 }
    ensures value { result ≡ word_place row.now.m.value (complex_sum_at row.now b) }
    ensures placed { IsPlace result }
    ensures body { is_body result ≡ true }
{
    if row.z.get() == 2 {
        word_place(&row.m, other_word(b))
    } else {
        word_place(&row.m, b)
    }
}

/// Whether the number of the first element of word `b` is even.
fn begins_even(row: &V9, b: u8) -> bool
    ensures { result ≡ begins_even row.now b }
{
    row.z.get() != 2 || b % 2 == 0
}

/// What beat `b` of `vcadd` or `vhcadd` touches: DDI0553, "VCADD" and "VHCADD". `b` is below 4.
pub fn touch_complex_sum(row: &V9, b: u8, r: &Regs) -> Touch
    requires { b < 4 }
    ensures reads { (m : Memory) (output : List ℕ) → result.reads ≡ reads_in (row_tree (complex_sum_row row.now) b) r.now m output }
    ensures writes { (m : Memory) (output : List ℕ) → result.writes ≡ writes_in (row_tree (complex_sum_row row.now) b) r.now m output }
    ensures loads { result.loads.items ≡ [] }
    ensures stores { result.stores.items ≡ [] }
{
    let word = word_place(&row.d, b);
    let mut sources = Places::new();
    note(&mut sources, second_word(row, b));
    note(&mut sources, word_place(&row.n, b));
    note(&mut sources, word);
    touch_word(sources, word, false, b, r)
}

/// Does beat `b` of `vcadd` or `vhcadd`: DDI0553, "VCADD" and "VHCADD". `b` is below 4.
pub fn beat_complex_sum(row: &V9, b: u8, r: &mut Regs)
    requires { b < 4 }
    ensures done { (m : Memory) (output : List ℕ) → run (row_tree (complex_sum_row row.now) b) r.old m output ≡ Ok (state_of r.new m output) }
    ensures context { r.new.fpca ≡ r.old.fpca }
{
    let place = word_place(&row.d, b);
    let old = read(r, place);
    let x = read(r, word_place(&row.n, b));
    let y = read(r, second_word(row, b));
    let new = complex_sum_word(row, size(&row.z), begins_even(row, b), x, y);
    finish_word(r, place, merge_active(r, b, old, new), false, b);
}
