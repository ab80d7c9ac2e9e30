//! `vaddlv`, `vaddlva`, `vmlaldav` and `vmlaldava`.

ghost use Rattle.std.specs.Prelude.{◌≡◌, ℕ, ◌+◌, ◌*◌, ◌^◌, ◌<◌, ◌&&◌, cond, eqb, not, true, List, [], Ok};
ghost use Rattle.hm_base.specs.Place.{IsPlace};
ghost use Rattle.hm_mem.specs.Memory.{Memory};
ghost use Rattle.hm_state.specs.State.{state_of};
ghost use Rattle.hm_beat.specs.Laws.{run};
ghost use Rattle.hm_beat.specs.Rows.{word_place};
ghost use Rattle.hm_beat.specs.Touches.{reads_in, writes_in};
ghost use Rattle.hm_kinds.specs.Row.{is_body, row_tree};
ghost use Rattle.hm_forms_across.specs.Forms.{long_row};

use crate::terms::{Terms, sum_word};
use hm_base::{Place, Places, note};
use hm_beat::Touch;
use hm_isa::{Below, QRegister};
use hm_kinds::{Shape, Written, active, finish_row, read, touch_row};
use hm_lane_fns::word_place;
use hm_regs::Regs;

/// A sum of elements, or of products of elements, into two registers, V22, by `vaddlv`, `vaddlva`, `vmlaldav` or `vmlaldava`: DDI0553,
/// "VADDLV" and "VMLALDAV".
#[derive(Clone, Copy)]
pub struct LongSums {
    pub terms: Terms,
    /// Whether the sum goes on from the old value.
    pub goes_on: bool,
    /// The low word of the sum is in r(2l).
    pub l: Below<8>,
    /// The high word of the sum is in r(2h + 1).
    pub h: Below<6>,
    /// The register of the first operands; `m` again where there are no products.
    pub n: QRegister,
    pub m: QRegister,
}

/// What the sum of beat `b` begins with.
fn start(row: &LongSums, b: u8, low: u32, high: u32) -> u64
    ensures { result ≡ cond (not row.now.goes_on && eqb b 0) 0 (low + 2 ^ 32 * high) }
{
    if !row.goes_on && b == 0 {
        0
    } else {
        low as u64 + 0x1_0000_0000 * (high as u64)
    }
}

/// What beat `b` of `vaddlv`, `vaddlva`, `vmlaldav` or `vmlaldava` touches: DDI0553, "VADDLV" and "VMLALDAV". `b` is below 4.
pub fn touch_long(row: &LongSums, b: u8, r: &Regs) -> Touch
    requires { b < 4 }
    ensures reads { (m : Memory) (output : List ℕ) → result.reads ≡ reads_in (row_tree (long_row row.now) b) r.now m output }
    ensures writes { (m : Memory) (output : List ℕ) → result.writes ≡ writes_in (row_tree (long_row row.now) b) r.now m output }
    ensures loads { result.loads.items ≡ [] }
    ensures stores { result.stores.items ≡ [] }
{
    let low = Place::R(2 * (row.l.get() as u8));
    let high = Place::R(2 * (row.h.get() as u8) + 1);
    let mut sources = Places::new();
    note(&mut sources, word_place(&row.m, b));
    note(&mut sources, word_place(&row.n, b));
    note(&mut sources, high);
    note(&mut sources, low);
    touch_row(sources, Some(low), Some(high), Shape::PLAIN, b, r)
}

/// Does beat `b` of `vaddlv`, `vaddlva`, `vmlaldav` or `vmlaldava`: DDI0553, "VADDLV" and "VMLALDAV". `b` is below 4.
pub fn beat_long(row: &LongSums, b: u8, r: &mut Regs)
    requires { b < 4 }
    ensures done { (m : Memory) (output : List ℕ) → run (row_tree (long_row row.now) b) r.old m output ≡ Ok (state_of r.new m output) }
    ensures context { r.new.fpca ≡ r.old.fpca }
{
    let low = Place::R(2 * (row.l.get() as u8));
    let high = Place::R(2 * (row.h.get() as u8) + 1);
    let old_low = read(r, low);
    let old_high = read(r, high);
    let x = read(r, word_place(&row.n, b));
    let y = read(r, word_place(&row.m, b));
    let active = active(r, b);
    let sum = sum_word(row.terms, active, x, y, start(row, b, old_low, old_high));
    let first = Written {
        place: low,
        value: (sum % 0x1_0000_0000) as u32,
    };
    let second = Written {
        place: high,
        value: (sum >> 32) as u32,
    };
    finish_row(r, Some(first), Some(second), None, None, false, b);
}
