//! `vshlc`.

ghost use Rattle.std.specs.Prelude.{◌≡◌, ℕ, ◌<◌, List, [], Ok, ◌+◌, ◌-◌, ◌/◌, ◌%◌, ◌*◌, ◌^◌, ◌≤◌, cond};
ghost use Rattle.hm_mem.specs.Memory.{Memory};
ghost use Rattle.hm_state.specs.State.{state_of};
ghost use Rattle.hm_beat.specs.Laws.{run};
ghost use Rattle.hm_beat.specs.Touches.{reads_in, writes_in};
ghost use Rattle.hm_kinds.specs.Row.{row_tree};
ghost use Rattle.hm_forms_elements.specs.Forms.{shift_row};

use crate::carry::first_of;
use hm_base::{Place, Places, note};
use hm_beat::Touch;
use hm_isa::V17;
use hm_kinds::{Shape, Written, active, finish_row, read, touch_row};
use hm_lane_fns::{merge, word_place};
use hm_regs::Regs;

/// The shifted word, with bits of the register in its lower part.
fn shifted(c: u32, m: u32, k: u32) -> u32
    requires some { 1 ≤ k }
    requires at_most { k ≤ 32 }
    ensures { result ≡ c * 2 ^ k % 2 ^ 32 + m % 2 ^ k }
{
    let low = ((c as u64) << k) % 0x1_0000_0000;
    (low + m as u64 % (1_u64 << k)) as u32
}

/// The bits that are shifted out.
fn carried(active: bool, c: u32, m: u32, k: u32) -> u32
    requires some { 1 ≤ k }
    requires at_most { k ≤ 32 }
    ensures { result ≡ cond active (c / 2 ^ (32 - k)) m }
{
    if active { c >> (32 - k) } else { m }
}

/// What beat `b` of `vshlc` touches: DDI0553, "VSHLC". `b` is below 4.
pub fn touch_shift(row: &V17, b: u8, r: &Regs) -> Touch
    requires { b < 4 }
    ensures reads { (m : Memory) (output : List ℕ) → result.reads ≡ reads_in (row_tree (shift_row row.now) b) r.now m output }
    ensures writes { (m : Memory) (output : List ℕ) → result.writes ≡ writes_in (row_tree (shift_row row.now) b) r.now m output }
    ensures loads { result.loads.items ≡ [] }
    ensures stores { result.stores.items ≡ [] }
{
    let word = word_place(&row.d, b);
    let register = Place::R(row.m.get() as u8);
    let mut sources = Places::new();
    note(&mut sources, register);
    note(&mut sources, word);
    touch_row(sources, Some(register), Some(word), Shape::PLAIN, b, r)
}

/// Does beat `b` of `vshlc`: DDI0553, "VSHLC". `b` is below 4.
pub fn beat_shift(row: &V17, b: u8, r: &mut Regs)
    requires { b < 4 }
    ensures done { (m : Memory) (output : List ℕ) → run (row_tree (shift_row row.now) b) r.old m output ≡ Ok (state_of r.new m output) }
    ensures context { r.new.fpca ≡ r.old.fpca }
{
    let place = word_place(&row.d, b);
    let register = Place::R(row.m.get() as u8);
    let c = read(r, place);
    let m = read(r, register);
    let active = active(r, b);
    let k = row.amount();
    let next = Written {
        place: register,
        value: carried(first_of(active), c, m, k),
    };
    let word = Written {
        place,
        value: merge(active, c, shifted(c, m, k)),
    };
    finish_row(r, Some(next), Some(word), None, None, false, b);
}
