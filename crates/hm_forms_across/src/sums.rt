//! `vaddv`, `vaddva`, `vmladav` and `vmladava`.

ghost use Rattle.std.specs.Prelude.{◌≡◌, ℕ, ◌<◌, List, [], Ok, ◌*◌, ◌^◌, ◌&&◌, cond, eqb, not, true};
ghost use Rattle.hm_mem.specs.Memory.{Memory};
ghost use Rattle.hm_state.specs.State.{state_of};
ghost use Rattle.hm_beat.specs.Laws.{run};
ghost use Rattle.hm_beat.specs.Touches.{reads_in, writes_in};
ghost use Rattle.hm_kinds.specs.Row.{is_body, row_tree};
ghost use Rattle.hm_base.specs.Place.{IsPlace};
ghost use Rattle.hm_beat.specs.Rows.{word_place};
ghost use Rattle.hm_lane.specs.Lanes.{bytes_of, firsts, lanes};
ghost use Rattle.hm_forms_across.specs.Forms.{added, sum_row, term};

use crate::terms::{Terms, sum_word};
use hm_base::{Place, Places, note};
use hm_beat::Touch;
use hm_isa::{Below, QRegister};
use hm_kinds::{Shape, Written, active, finish_row, read, touch_row};
use hm_lane_fns::word_place;
use hm_regs::Regs;

/// A sum of elements, or of products of elements, into a register, V22, by `vaddv`, `vaddva`, `vmladav` or `vmladava`: DDI0553, "VADDV" and
/// "VMLADAV".
#[derive(Clone, Copy)]
pub struct Sums {
    pub terms: Terms,
    /// Whether the sum goes on from the old value.
    pub goes_on: bool,
    /// The sum is in r(2l).
    pub l: Below<8>,
    /// The register of the first operands; `m` again where there are no products.
    pub n: QRegister,
    pub m: QRegister,
}

/// A sum of 32 bits with the terms of a word.
fn sum_low(terms: Terms, active: [bool; 4], x: u32, y: u32, sum: u32) -> u32
    ensures { result ≡ added (2 ^ 32) (term terms) (firsts terms.z active) (lanes terms.z (bytes_of x)) (lanes terms.z (bytes_of y)) sum }
{
    (sum_word(terms, active, x, y, sum as u64) % 0x1_0000_0000) as u32
}

/// What the sum of beat `b` begins with.
fn start(row: &Sums, b: u8, old: u32) -> u32
    ensures { result ≡ cond (not row.now.goes_on && eqb b 0) 0 old }
{
    if !row.goes_on && b == 0 { 0 } else { old }
}

/// What beat `b` of `vaddv`, `vaddva`, `vmladav` or `vmladava` touches: DDI0553, "VADDV" and "VMLADAV". `b` is below 4.
pub fn touch_sum(row: &Sums, b: u8, r: &Regs) -> Touch
    requires { b < 4 }
    ensures reads { (m : Memory) (output : List ℕ) → result.reads ≡ reads_in (row_tree (sum_row row.now) b) r.now m output }
    ensures writes { (m : Memory) (output : List ℕ) → result.writes ≡ writes_in (row_tree (sum_row row.now) b) r.now m output }
    ensures loads { result.loads.items ≡ [] }
    ensures stores { result.stores.items ≡ [] }
{
    let register = Place::R(2 * (row.l.get() as u8));
    let mut sources = Places::new();
    note(&mut sources, word_place(&row.m, b));
    note(&mut sources, word_place(&row.n, b));
    note(&mut sources, register);
    touch_row(sources, Some(register), None, Shape::PLAIN, b, r)
}

/// Does beat `b` of `vaddv`, `vaddva`, `vmladav` or `vmladava`: DDI0553, "VADDV" and "VMLADAV". `b` is below 4.
pub fn beat_sum(row: &Sums, b: u8, r: &mut Regs)
    requires { b < 4 }
    ensures done { (m : Memory) (output : List ℕ) → run (row_tree (sum_row row.now) b) r.old m output ≡ Ok (state_of r.new m output) }
    ensures context { r.new.fpca ≡ r.old.fpca }
{
    let register = Place::R(2 * (row.l.get() as u8));
    let old = read(r, register);
    let x = read(r, word_place(&row.n, b));
    let y = read(r, word_place(&row.m, b));
    let active = active(r, b);
    let value = sum_low(row.terms, active, x, y, start(row, b, old));
    let sum = Written {
        place: register,
        value,
    };
    finish_row(r, Some(sum), None, None, None, false, b);
}
