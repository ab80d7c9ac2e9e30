//! `vmullb` and `vmullt`.

ghost use Rattle.std.specs.Prelude.{◌≡◌, ℕ, ◌*◌, ◌%◌, ◌^◌, ◌-◌, ◌<◌, List, [], Ok, cond, true, eqb, ◌/◌};
ghost use Rattle.hm_base.specs.Place.{IsPlace};
ghost use Rattle.hm_mem.specs.Memory.{Memory};
ghost use Rattle.hm_state.specs.State.{state_of};
ghost use Rattle.hm_beat.specs.Laws.{run};
ghost use Rattle.hm_beat.specs.Touches.{reads_in, writes_in};
ghost use Rattle.hm_beat.specs.Rows.{word_place};
ghost use Rattle.hm_lane.specs.declared.lanes.Size.TheVariants as size;
ghost use Rattle.hm_lane.specs.Lanes.{modulus};
ghost use Rattle.hm_kinds.specs.Row.{is_body, row_tree};
ghost use Rattle.hm_lane_fns.specs.Words.{size_of};
ghost use Rattle.hm_forms_elements.specs.Forms.{long_product_at, long_product_row, long_product_word, product, products};

use crate::words::{finish_word, touch_word};
use hm_base::{Place, Places, note};
use hm_beat::Touch;
use hm_isa::{QRegister, V6};
use hm_kinds::read;
use hm_lane::{Size, bytes};
use hm_lane_fns::{lane_product, merge_active, size, word_place};
use hm_regs::Regs;

/// The product of two lanes.
fn product(row: &V6, x: u32, y: u32) -> u64
    requires first { x < modulus (size_of row.now.z.value) }
    requires second { y < modulus (size_of row.now.z.value) }
    ensures { result ≡ product row.now x y }
{
    lane_product(row.u.get() == 1, size(&row.z), x, y)
}

/// One of two.
pub fn picked(odd: bool, x: u32, y: u32) -> u32
    ensures { result ≡ cond odd y x }
{
    if odd { y } else { x }
}

/// Products of bytes.
fn byte_products(row: &V6, x: u32, y: u32) -> u32
    requires { size_of row.now.z.value ≡ size.Byte }
    ensures { result ≡ products row.now size.Byte size.Half x y }
{
    let odd = row.t.get() == 1;
    let [x0, x1, x2, x3] = bytes(x);
    let [y0, y1, y2, y3] = bytes(y);
    let low = product(
        row,
        picked(odd, x0 as u32, x1 as u32),
        picked(odd, y0 as u32, y1 as u32),
    ) % 65536;
    let high = product(
        row,
        picked(odd, x2 as u32, x3 as u32),
        picked(odd, y2 as u32, y3 as u32),
    ) % 65536;
    low as u32 + ((high as u32) << 16)
}

/// The product of halves.
fn half_products(row: &V6, x: u32, y: u32) -> u32
    requires { size_of row.now.z.value ≡ size.Half }
    ensures { result ≡ products row.now size.Half size.Word x y }
{
    let odd = row.t.get() == 1;
    let a = picked(odd, x % 65536, x >> 16);
    let b = picked(odd, y % 65536, y >> 16);
    (product(row, a, b) % 0x1_0000_0000) as u32
}

/// The low or the high word of a product.
fn part(b: u8, p: u64) -> u32
    ensures { result ≡ cond (eqb (b % 2) 0) (p % 2 ^ 32) (p / 2 ^ 32) }
{
    if b % 2 == 0 {
        (p % 0x1_0000_0000) as u32
    } else {
        (p >> 32) as u32
    }
}

/// The new word of beat `b`.
fn long_product_word(row: &V6, b: u8, x: u32, y: u32) -> u32
    ensures { result ≡ long_product_word row.now (size_of row.now.z.value) b x y }
{
    match size(&row.z) {
        Size::Byte => byte_products(row, x, y),
        Size::Half => half_products(row, x, y),
        Size::Word => part(b, product(row, x, y)),
    }
}

/// The word of a register that the elements of beat `b` stand in; `b` is below 4.
fn source(row: &V6, q: &QRegister, b: u8) -> Place
    requires { b < 4 }
    ensures value { result ≡ word_place q.now.value (long_product_at row.now b) }
    ensures placed { IsPlace result }
    ensures body { is_body result ≡ true }
{
    if row.z.get() == 2 {
        word_place(q, 2 * (b / 2) + row.t.get() as u8)
    } else {
        word_place(q, b)
    }
}

/// What beat `b` of `vmullb` or `vmullt` touches: DDI0553, "VMULL (integer)". `b` is below 4.
pub fn touch_long_product(row: &V6, b: u8, r: &Regs) -> Touch
    requires { b < 4 }
    ensures reads { (m : Memory) (output : List ℕ) → result.reads ≡ reads_in (row_tree (long_product_row row.now) b) r.now m output }
    ensures writes { (m : Memory) (output : List ℕ) → result.writes ≡ writes_in (row_tree (long_product_row row.now) b) r.now m output }
    ensures loads { result.loads.items ≡ [] }
    ensures stores { result.stores.items ≡ [] }
{
    let word = word_place(&row.d, b);
    let mut sources = Places::new();
    note(&mut sources, source(row, &row.m, b));
    note(&mut sources, source(row, &row.n, b));
    note(&mut sources, word);
    touch_word(sources, word, false, b, r)
}

/// Does beat `b` of `vmullb` or `vmullt`: DDI0553, "VMULL (integer)". `b` is below 4.
pub fn beat_long_product(row: &V6, b: u8, r: &mut Regs)
    requires { b < 4 }
    ensures done { (m : Memory) (output : List ℕ) → run (row_tree (long_product_row row.now) b) r.old m output ≡ Ok (state_of r.new m output) }
    ensures context { r.new.fpca ≡ r.old.fpca }
{
    let place = word_place(&row.d, b);
    let old = read(r, place);
    let x = read(r, source(row, &row.n, b));
    let y = read(r, source(row, &row.m, b));
    let new = long_product_word(row, b, x, y);
    finish_word(r, place, merge_active(r, b, old, new), false, b);
}
