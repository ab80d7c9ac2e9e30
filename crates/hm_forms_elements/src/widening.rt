//! `vshllb`, `vshllt`, `vmovlb` and `vmovlt`.

ghost use Rattle.std.specs.Prelude.{◌≡◌, ℕ, ◌<◌, List, [], Ok};
ghost use Rattle.hm_mem.specs.Memory.{Memory};
ghost use Rattle.hm_state.specs.State.{state_of};
ghost use Rattle.hm_beat.specs.Laws.{run};
ghost use Rattle.hm_beat.specs.Touches.{reads_in, writes_in};
ghost use Rattle.hm_lane.specs.declared.lanes.Size.TheVariants as size;
ghost use Rattle.hm_lane.specs.Lanes.{modulus};
ghost use Rattle.hm_kinds.specs.Row.{row_tree};
ghost use Rattle.hm_forms_elements.specs.Forms.{widened, long_lanes, widening_row, widening_word};

use crate::long_product::picked;
use crate::words::{finish_word, touch_word};
use hm_base::{Places, note};
use hm_beat::Touch;
use hm_isa::QRegister;
use hm_kinds::read;
use hm_lane::{Size, bytes};
use hm_lane_fns::{extended_lane, merge_active, word_place};
use hm_regs::Regs;

/// Elements widened and shifted, V12, by `vshllb`, `vshllt`, `vmovlb` or `vmovlt`: DDI0553, "VSHLL" and "VMOVL".
#[derive(Clone, Copy)]
pub struct Widening {
    /// Whether elements of 16 bits become 32, or else 8 bits 16.
    pub halves: bool,
    pub unsigned: bool,
    /// Whether the elements with odd numbers are taken.
    pub odd: bool,
    /// 2 to the power of the shift.
    pub factor: u32,
    /// The register that gets the result.
    pub d: QRegister,
    /// The register of the operand.
    pub m: QRegister,
}

/// A lane widened and shifted.
fn widened(row: &Widening, z: Size, x: u32) -> u64
    requires { x < modulus z }
    ensures { result ≡ widened row.now z x }
{
    extended_lane(row.unsigned, z, x).wrapping_mul(row.factor as u64)
}

/// Bytes made halves.
fn widening_bytes(row: &Widening, x: u32) -> u32
    ensures { result ≡ long_lanes row.now size.Byte size.Half x }
{
    let [a, b, c, d] = bytes(x);
    let low = widened(row, Size::Byte, picked(row.odd, a as u32, b as u32)) % 65536;
    let high = widened(row, Size::Byte, picked(row.odd, c as u32, d as u32)) % 65536;
    low as u32 + ((high as u32) << 16)
}

/// A half made a word.
fn widening_half(row: &Widening, x: u32) -> u32
    ensures { result ≡ long_lanes row.now size.Half size.Word x }
{
    (widened(row, Size::Half, picked(row.odd, x % 65536, x >> 16)) % 0x1_0000_0000) as u32
}

/// The new word.
fn widening_word(row: &Widening, x: u32) -> u32
    ensures { result ≡ widening_word row.now x }
{
    if row.halves {
        widening_half(row, x)
    } else {
        widening_bytes(row, x)
    }
}

/// What beat `b` of `vshllb`, `vshllt`, `vmovlb` or `vmovlt` touches: DDI0553, "VSHLL" and "VMOVL". `b` is below 4.
pub fn touch_widening(row: &Widening, b: u8, r: &Regs) -> Touch
    requires { b < 4 }
    ensures reads { (m : Memory) (output : List ℕ) → result.reads ≡ reads_in (row_tree (widening_row row.now) b) r.now m output }
    ensures writes { (m : Memory) (output : List ℕ) → result.writes ≡ writes_in (row_tree (widening_row row.now) b) r.now m output }
    ensures loads { result.loads.items ≡ [] }
    ensures stores { result.stores.items ≡ [] }
{
    let word = word_place(&row.d, b);
    let mut sources = Places::new();
    note(&mut sources, word_place(&row.m, b));
    note(&mut sources, word);
    touch_word(sources, word, false, b, r)
}

/// Does beat `b` of `vshllb`, `vshllt`, `vmovlb` or `vmovlt`: DDI0553, "VSHLL" and "VMOVL". `b` is below 4.
pub fn beat_widening(row: &Widening, b: u8, r: &mut Regs)
    requires { b < 4 }
    ensures done { (m : Memory) (output : List ℕ) → run (row_tree (widening_row row.now) b) r.old m output ≡ Ok (state_of r.new m output) }
    ensures context { r.new.fpca ≡ r.old.fpca }
{
    let place = word_place(&row.d, b);
    let old = read(r, place);
    let x = read(r, word_place(&row.m, b));
    let new = widening_word(row, x);
    finish_word(r, place, merge_active(r, b, old, new), false, b);
}
