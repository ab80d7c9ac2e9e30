//! `vmaxv` and `vminv`.

ghost use Rattle.std.specs.Prelude.{◌≡◌, ℕ, ◌<◌, List, [], ◌∷◌, Ok, ◌%◌, ◌≤ℤ◌, ◌<ℤ◌, ◌-ℤ◌, pos, cond, map};
ghost use Rattle.hm_mem.specs.Memory.{Memory};
ghost use Rattle.hm_state.specs.State.{state_of};
ghost use Rattle.hm_beat.specs.Laws.{run};
ghost use Rattle.hm_beat.specs.Touches.{reads_in, writes_in};
ghost use Rattle.hm_kinds.specs.Row.{row_tree};
ghost use Rattle.std.specs.Int.{int_max, int_min};
ghost use Rattle.hm_lane.specs.declared.lanes.Size.TheVariants.{Word};
ghost use Rattle.hm_lane.specs.Lanes.{bytes_of, firsts, lanes, modulus};
ghost use Rattle.hm_lane_fns.specs.Words.{size_of};
ghost use Rattle.hm_forms_across.specs.Forms.{best, better, extreme_next, extreme_row};
ghost use Rattle.hm_lane_fns.specs.LaneFns.{cut, lane_value};

use hm_base::{Place, Places, note};
use hm_beat::Touch;
use hm_isa::{ExtremeName, V23};
use hm_kinds::{Shape, Written, active, finish_row, read, touch_row};
use hm_lane::{Size, bytes};
use hm_lane_fns::{cut, lane_value, size, word_place};
use hm_regs::Regs;

/// The better of two numbers, where the second is active.
fn better(name: ExtremeName, active: bool, v: i64, x: i64) -> i64
    ensures { result ≡ cond active (better name v x) v }
{
    if active {
        match name {
            ExtremeName::Max => v.max(x),
            ExtremeName::Min => v.min(x),
        }
    } else {
        v
    }
}

/// The low bits of a register that make a lane.
fn low_bits(z: Size, t: u32) -> u32
    ensures value { result ≡ t % modulus z }
    ensures below { result < modulus z }
{
    match z {
        Size::Byte => t % 256,
        Size::Half => t % 65536,
        Size::Word => t,
    }
}

/// The best of a number and of the active lanes of a word.
fn best(name: ExtremeName, unsigned: bool, z: Size, active: [bool; 4], x: u32, v: i64) -> i64
    ensures { result ≡ best name (firsts z active) (map (lane_value unsigned z) (lanes z (bytes_of x))) v }
{
    let [p0, p1, p2, p3] = active;
    match z {
        Size::Byte => {
            let [x0, x1, x2, x3] = bytes(x);
            let n0 = lane_value(unsigned, z, x0 as u32);
            let n1 = lane_value(unsigned, z, x1 as u32);
            let n2 = lane_value(unsigned, z, x2 as u32);
            let n3 = lane_value(unsigned, z, x3 as u32);
            let v0 = better(name, p0, v, n0);
            let v1 = better(name, p1, v0, n1);
            let v2 = better(name, p2, v1, n2);
            better(name, p3, v2, n3)
        }
        Size::Half => {
            let low = lane_value(unsigned, z, x % 65536);
            let high = lane_value(unsigned, z, x >> 16);
            let first = better(name, p0, v, low);
            better(name, p2, first, high)
        }
        Size::Word => {
            let only = lane_value(unsigned, z, x);
            better(name, p0, v, only)
        }
    }
}

/// The new value of the register.
fn extreme(row: &V23, active: [bool; 4], t: u32, x: u32) -> u32
    ensures { result ≡ extreme_next row.now active (t ∷ x ∷ []) }
{
    let z = size(&row.z);
    let unsigned = row.u.get() == 1;
    let v = lane_value(unsigned, z, low_bits(z, t));
    let extreme = best(row.name, unsigned, z, active, x, v);
    cut(Size::Word, extreme)
}

/// What beat `b` of `vmaxv` or `vminv` touches: DDI0553, "VMAXV, VMAXAV" and "VMINV, VMINAV". `b` is below 4.
pub fn touch_extreme(row: &V23, b: u8, r: &Regs) -> Touch
    requires { b < 4 }
    ensures reads { (m : Memory) (output : List ℕ) → result.reads ≡ reads_in (row_tree (extreme_row row.now) b) r.now m output }
    ensures writes { (m : Memory) (output : List ℕ) → result.writes ≡ writes_in (row_tree (extreme_row row.now) b) r.now m output }
    ensures loads { result.loads.items ≡ [] }
    ensures stores { result.stores.items ≡ [] }
{
    let register = Place::R(row.t.get() as u8);
    let mut sources = Places::new();
    note(&mut sources, word_place(&row.m, b));
    note(&mut sources, register);
    touch_row(sources, Some(register), None, Shape::PLAIN, b, r)
}

/// Does beat `b` of `vmaxv` or `vminv`: DDI0553, "VMAXV, VMAXAV" and "VMINV, VMINAV". `b` is below 4.
pub fn beat_extreme(row: &V23, b: u8, r: &mut Regs)
    requires { b < 4 }
    ensures done { (m : Memory) (output : List ℕ) → run (row_tree (extreme_row row.now) b) r.old m output ≡ Ok (state_of r.new m output) }
    ensures context { r.new.fpca ≡ r.old.fpca }
{
    let register = Place::R(row.t.get() as u8);
    let t = read(r, register);
    let x = read(r, word_place(&row.m, b));
    let value = extreme(row, active(r, b), t, x);
    let written = Written {
        place: register,
        value,
    };
    finish_row(r, Some(written), None, None, None, false, b);
}
