//! `vcmp` and `vpt`.

ghost use Rattle.std.specs.Prelude.{◌≡◌, ℕ, ◌<◌, List, [], Ok, Option};
ghost use Rattle.hm_mem.specs.Memory.{Memory};
ghost use Rattle.hm_state.specs.State.{state_of};
ghost use Rattle.hm_beat.specs.Laws.{run};
ghost use Rattle.hm_beat.specs.Touches.{reads_in, writes_in};
ghost use Rattle.hm_kinds.specs.Row.{row_tree};
ghost use Rattle.hm_lane.specs.Lanes.{bytes_of, lanes, modulus, paired_tests};
ghost use Rattle.hm_forms_predicate.specs.Forms.{block_mask, compare_row, compares};
ghost use Rattle.hm_lane_fns.specs.Words.{filled};

use hm_base::{Places, note};
use hm_beat::Touch;
use hm_isa::{Below, QRegister};
use hm_kinds::{Shape, active, finish_row, read, touch_row};
use hm_lane::{Size, bytes};
use hm_lane_fns::{Operand, both, lane_value, nibble, note_operand, operand_word, word_place};
use hm_regs::Regs;

/// Comparisons of the elements of two operands, V20, by `vcmp` or `vpt`: DDI0553, "VCMP (vector)" and "VPT".
#[derive(Clone, Copy)]
pub struct Comparison {
    /// The condition: eq, ne, cs, hi, ge, lt, gt, le.
    pub c: Below<8>,
    pub z: Size,
    /// The register of the first operands.
    pub n: QRegister,
    /// The second operands.
    pub by: Operand,
    /// The mask of a block that begins; 0 where none does.
    pub k: Below<16>,
}

/// The comparison of two lanes.
fn compares(c: u32, z: Size, x: u32, y: u32) -> bool
    requires condition { c < 8 }
    requires first { x < modulus z }
    requires second { y < modulus z }
    ensures { result ≡ compares c z x y }
{
    match c {
        0 => x == y,
        1 => x != y,
        2 => y <= x,
        3 => y < x,
        4 => !(lane_value(false, z, x) < lane_value(false, z, y)),
        5 => lane_value(false, z, x) < lane_value(false, z, y),
        6 => lane_value(false, z, y) < lane_value(false, z, x),
        _ => !(lane_value(false, z, y) < lane_value(false, z, x)),
    }
}

/// The comparison of the lanes of two words, at each byte.
fn compare_word(c: u32, z: Size, x: u32, y: u32) -> [bool; 4]
    requires { c < 8 }
    ensures { result ≡ filled z (paired_tests (compares c z) (lanes z (bytes_of x)) (lanes z (bytes_of y))) }
{
    match z {
        Size::Byte => {
            let [x0, x1, x2, x3] = bytes(x);
            let [y0, y1, y2, y3] = bytes(y);
            let c0 = compares(c, z, x0 as u32, y0 as u32);
            let c1 = compares(c, z, x1 as u32, y1 as u32);
            let c2 = compares(c, z, x2 as u32, y2 as u32);
            let c3 = compares(c, z, x3 as u32, y3 as u32);
            [c0, c1, c2, c3]
        }
        Size::Half => {
            let low = compares(c, z, x % 65536, y % 65536);
            let high = compares(c, z, x >> 16, y >> 16);
            [low, low, high, high]
        }
        Size::Word => {
            let one = compares(c, z, x, y);
            [one, one, one, one]
        }
    }
}

/// The mask of a block, where the row begins one.
fn block_mask(k: u32) -> Option<u32>
    ensures { result ≡ block_mask k }
{
    if k == 0 { None } else { Some(k) }
}

/// What beat `b` of `vcmp` or `vpt` touches: DDI0553, "VCMP (vector)" and "VPT". `b` is below 4.
pub fn touch_compare(row: &Comparison, b: u8, r: &Regs) -> Touch
    requires { b < 4 }
    ensures reads { (m : Memory) (output : List ℕ) → result.reads ≡ reads_in (row_tree (compare_row row.now) b) r.now m output }
    ensures writes { (m : Memory) (output : List ℕ) → result.writes ≡ writes_in (row_tree (compare_row row.now) b) r.now m output }
    ensures loads { result.loads.items ≡ [] }
    ensures stores { result.stores.items ≡ [] }
{
    let mut sources = Places::new();
    note_operand(&mut sources, &row.by, b);
    note(&mut sources, word_place(&row.n, b));
    let shape = Shape {
        reads_slice: false,
        slice: true,
        mask: row.k.get() != 0,
        marks: false,
    };
    touch_row(sources, None, None, shape, b, r)
}

/// Does beat `b` of `vcmp` or `vpt`: DDI0553, "VCMP (vector)" and "VPT". `b` is below 4.
pub fn beat_compare(row: &Comparison, b: u8, r: &mut Regs)
    requires { b < 4 }
    ensures done { (m : Memory) (output : List ℕ) → run (row_tree (compare_row row.now) b) r.old m output ≡ Ok (state_of r.new m output) }
    ensures context { r.new.fpca ≡ r.old.fpca }
{
    let x = read(r, word_place(&row.n, b));
    let y = operand_word(row.z, &row.by, b, r);
    let active = active(r, b);
    let slice = nibble(both(compare_word(row.c.get(), row.z, x, y), active));
    finish_row(
        r,
        None,
        None,
        Some(slice),
        block_mask(row.k.get()),
        false,
        b,
    );
}
