//! `vmov`, `vmvn`, `vorr` and `vbic` with an immediate.

ghost use Rattle.std.specs.Prelude.{◌≡◌, ℕ, ◌<◌, List, [], Ok, ◌+◌, ◌*◌, ◌^◌};
ghost use Rattle.hm_mem.specs.Memory.{Memory};
ghost use Rattle.hm_state.specs.State.{state_of};
ghost use Rattle.hm_beat.specs.Laws.{run};
ghost use Rattle.hm_beat.specs.Touches.{reads_in, writes_in};
ghost use Rattle.hm_kinds.specs.Row.{row_tree};
ghost use Rattle.hm_forms_elements.specs.Constants.{constant_op, constant_word, imm_word, immediate, ones_where};
ghost use Rattle.hm_forms_elements.specs.Forms.{constant_row};

use crate::words::{finish_word, touch_word};
use hm_base::{Places, note};
use hm_beat::Touch;
use hm_isa::V15;
use hm_isa::words::imm8;
use hm_kinds::read;
use hm_lane::{Size, word};
use hm_lane_fns::{merge_active, splat, word_place};
use hm_regs::Regs;

/// The eight bits of the immediate.
fn immediate(row: &V15) -> u32
    ensures value { result ≡ immediate row.now }
    ensures below { result < 256 }
{
    imm8(row.i, row.i3, row.i4)
}

/// A word with `x` as its byte `k`.
fn in_byte(x: u32, k: u32) -> u32
    requires byte { x < 256 }
    requires place { k < 4 }
    ensures { result ≡ x * 2 ^ (8 * k) }
{
    x << (8 * k)
}

/// A byte of ones where bit `j` of `x` is set, and else of zeros.
fn ones_where(x: u32, j: u32) -> u8
    requires { j < 8 }
    ensures { result ≡ ones_where x j }
{
    if (x >> j) % 2 == 1 { 0xff } else { 0 }
}

/// Four such bytes, for the bits of `x` from `j` on.
fn spread_bits(x: u32, j: u32) -> u32
    requires { j < 5 }
    ensures { result ≡ ones_where x j + ones_where x (j + 1) * 2 ^ 8 + ones_where x (j + 2) * 2 ^ 16 + ones_where x (j + 3) * 2 ^ 24 }
{
    word([
        ones_where(x, j),
        ones_where(x, j + 1),
        ones_where(x, j + 2),
        ones_where(x, j + 3),
    ])
}

/// Word `b` of the constant.
fn constant(row: &V15, b: u8) -> u32
    ensures { result ≡ imm_word row.now b }
{
    let x = immediate(row);
    match row.cm.get() {
        cm @ 0..=7 => in_byte(x, cm / 2),
        cm @ 8..=11 => splat(Size::Half, in_byte(x, cm / 2 - 4)),
        12 => (x << 8) + 0xff,
        13 => (x << 16) + 0xffff,
        _ => {
            if row.op.get() == 0 {
                splat(Size::Byte, x)
            } else {
                spread_bits(x, 4 * (b as u32 % 2))
            }
        }
    }
}

/// The operation on a word and one of the constant.
fn constant_op(row: &V15, old: u32, constant: u32) -> u32
    ensures { result ≡ constant_op row.now old constant }
{
    let cm = row.cm.get();
    let op = row.op.get();
    if cm < 12 && cm % 2 == 1 {
        if op == 0 {
            old | constant
        } else {
            old & !constant
        }
    } else if op == 1 && cm < 14 {
        !constant
    } else {
        constant
    }
}

/// What beat `b` of `vmov`, `vmvn`, `vorr` or `vbic` with a constant touches: DDI0553, "VMOV (immediate) (vector)", "VMVN (immediate)",
/// "VORR (immediate)" and "VBIC (immediate)". `b` is below 4.
pub fn touch_constant(row: &V15, b: u8, r: &Regs) -> Touch
    requires { b < 4 }
    ensures reads { (m : Memory) (output : List ℕ) → result.reads ≡ reads_in (row_tree (constant_row row.now) b) r.now m output }
    ensures writes { (m : Memory) (output : List ℕ) → result.writes ≡ writes_in (row_tree (constant_row row.now) b) r.now m output }
    ensures loads { result.loads.items ≡ [] }
    ensures stores { result.stores.items ≡ [] }
{
    let word = word_place(&row.d, b);
    let mut sources = Places::new();
    note(&mut sources, word);
    touch_word(sources, word, false, b, r)
}

/// Does beat `b` of `vmov`, `vmvn`, `vorr` or `vbic` with a constant: DDI0553, "VMOV (immediate) (vector)", "VMVN (immediate)",
/// "VORR (immediate)" and "VBIC (immediate)". `b` is below 4.
pub fn beat_constant(row: &V15, b: u8, r: &mut Regs)
    requires { b < 4 }
    ensures done { (m : Memory) (output : List ℕ) → run (row_tree (constant_row row.now) b) r.old m output ≡ Ok (state_of r.new m output) }
    ensures context { r.new.fpca ≡ r.old.fpca }
{
    let word = word_place(&row.d, b);
    let old = read(r, word);
    let new = constant_op(row, old, constant(row, b));
    finish_word(r, word, merge_active(r, b, old, new), false, b);
}
