//! Lanes of two operands.

ghost use Rattle.std.specs.Prelude.{◌≡◌, ℕ, ◌<◌, List, [], Ok};
ghost use Rattle.hm_mem.specs.Memory.{Memory};
ghost use Rattle.hm_state.specs.State.{state_of};
ghost use Rattle.hm_beat.specs.Laws.{run};
ghost use Rattle.hm_beat.specs.Touches.{reads_in, writes_in};
ghost use Rattle.hm_kinds.specs.Row.{row_tree};
ghost use Rattle.hm_forms_elements.specs.Forms.{lanes_row};

use crate::words::{finish_word, touch_word};
use hm_base::{Places, note};
use hm_beat::Touch;
use hm_isa::QRegister;
use hm_kinds::{active, read};
use hm_lane::Size;
use hm_lane_fns::{
    LaneFn, Operand, any_both, lanes_saturate, lanes_word, merge_active, note_operand,
    operand_word, saturates, word_place,
};
use hm_regs::Regs;

/// A row on the lanes of two operands and of the old word.
///
/// V1 to V5, V7, V10, V11, V13 and V18 are such rows; their types in hm_isa name the sections of DDI0553.
#[derive(Clone, Copy)]
pub struct Lanes {
    pub f: LaneFn,
    pub unsigned: bool,
    pub z: Size,
    /// The register that gets the result.
    pub d: QRegister,
    /// The register of the first operands.
    pub n: QRegister,
    /// The second operands.
    pub by: Operand,
}

/// What beat `b` of a row of lanes touches: DDI0553, the sections named at the types of `Lanes`' rows. `b` is below 4.
pub fn touch_lanes(l: &Lanes, b: u8, r: &Regs) -> Touch
    requires { b < 4 }
    ensures reads { (m : Memory) (output : List ℕ) → result.reads ≡ reads_in (row_tree (lanes_row l.now) b) r.now m output }
    ensures writes { (m : Memory) (output : List ℕ) → result.writes ≡ writes_in (row_tree (lanes_row l.now) b) r.now m output }
    ensures loads { result.loads.items ≡ [] }
    ensures stores { result.stores.items ≡ [] }
{
    let word = word_place(&l.d, b);
    let mut sources = Places::new();
    note_operand(&mut sources, &l.by, b);
    note(&mut sources, word_place(&l.n, b));
    note(&mut sources, word);
    touch_word(sources, word, saturates(l.f), b, r)
}

/// Does beat `b` of a row of lanes: DDI0553, the sections named at the types of `Lanes`' rows. `b` is below 4.
pub fn beat_lanes(l: &Lanes, b: u8, r: &mut Regs)
    requires { b < 4 }
    ensures done { (m : Memory) (output : List ℕ) → run (row_tree (lanes_row l.now) b) r.old m output ≡ Ok (state_of r.new m output) }
    ensures context { r.new.fpca ≡ r.old.fpca }
{
    let word = word_place(&l.d, b);
    let old = read(r, word);
    let x = read(r, word_place(&l.n, b));
    let y = operand_word(l.z, &l.by, b, r);
    let new = lanes_word(l.f, l.unsigned, l.z, old, x, y);
    let marks = saturates(l.f)
        && any_both(
            active(r, b),
            lanes_saturate(l.f, l.unsigned, l.z, old, x, y),
        );
    finish_word(r, word, merge_active(r, b, old, new), marks, b);
}
