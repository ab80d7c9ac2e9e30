//! `vadc`, `vadci`, `vsbc` and `vsbci`.

ghost use Rattle.std.specs.Prelude.{◌≡◌, ℕ, ◌<◌, List, [], Ok, ◌+◌, ◌-◌, ◌/◌, ◌%◌, ◌*◌, ◌^◌, ◌&&◌, ◌∷◌, map, cond, eqb, length, ◌≤◌};
ghost use Rattle.hm_mem.specs.Memory.{Memory};
ghost use Rattle.hm_state.specs.State.{state_of};
ghost use Rattle.hm_beat.specs.Laws.{run};
ghost use Rattle.hm_beat.specs.Touches.{reads_in, writes_in};
ghost use Rattle.hm_kinds.specs.Row.{row_tree};
ghost use Rattle.hm_base.specs.Place.{noted_all};
ghost use Rattle.hm_base.specs.declared.Place.TheVariants.{Carry};
ghost use Rattle.hm_lane.specs.Predicate.{first};
ghost use Rattle.hm_state.specs.State.{At};
ghost use Rattle.hm_kinds.specs.Row.{numbers};
ghost use Rattle.hm_forms_elements.specs.Forms.{begins, carry_places, carry_row, flags_before, subtracts};

use hm_base::{Place, Places, note};
use hm_beat::Touch;
use hm_isa::{CarryName, V8};
use hm_kinds::{Shape, Written, active, finish_row, read, touch_row};
use hm_lane_fns::{merge, word_place};
use hm_regs::Regs;

/// Whether the second operand is taken away.
fn subtracts(name: CarryName) -> bool
    ensures { result ≡ subtracts name }
{
    matches!(name, CarryName::Sbc | CarryName::Sbci)
}

/// Whether the first word begins with a carry of its own.
fn begins(name: CarryName) -> bool
    ensures { result ≡ begins name }
{
    matches!(name, CarryName::Adci | CarryName::Sbci)
}

/// The flags that the carry of beat `b` is read from, or those that the row begins with.
fn flags_before(name: CarryName, b: u8, r: &Regs) -> u32
    ensures value { (m : Memory) (output : List ℕ)
        → result ≡ flags_before name (numbers (map (state_of r.now m output).cell (map At (carry_places name b)))) }
    ensures below { result < 16 }
{
    if begins(name) && b == 0 {
        if subtracts(name) { 2 } else { 0 }
    } else {
        read(r, Place::Carry)
    }
}

/// The sum of two words and the carry.
fn sum(subtracts: bool, x: u32, y: u32, flags: u32) -> u64
    ensures value { result ≡ x + cond subtracts (0xffffffff - y) y + flags / 2 % 2 }
    ensures below { result < 2 ^ 33 }
{
    let second = if subtracts { 0xffff_ffff - y } else { y };
    x as u64 + second as u64 + ((flags / 2) % 2) as u64
}

/// Whether the lowest byte is active.
pub fn first_of(active: [bool; 4]) -> bool
    ensures { result ≡ first active }
{
    let [p, _, _, _] = active;
    p
}

/// The flags after a word.
fn flags_after(active: bool, sum: u64, flags: u32) -> u32
    requires { sum < 2 ^ 33 }
    ensures { result ≡ cond active (2 * (sum / 2 ^ 32)) flags }
{
    if active {
        2 * ((sum >> 32) as u32)
    } else {
        flags
    }
}

/// Notes the carry, but at the beginning of a row that begins with one of its own.
fn note_carry(places: &mut Places, own: bool)
    requires room { length places.old ≤ 16 }
    ensures value { places.new ≡ noted_all (cond own [] (Carry ∷ [])) places.old }
    ensures grown { length places.new ≤ length places.old + 1 }
{
    if !own {
        note(places, Place::Carry);
    }
}

/// What beat `b` of `vadc`, `vadci`, `vsbc` or `vsbci` touches: DDI0553, "VADC" and "VSBC". `b` is below 4.
pub fn touch_carry(row: &V8, b: u8, r: &Regs) -> Touch
    requires { b < 4 }
    ensures reads { (m : Memory) (output : List ℕ) → result.reads ≡ reads_in (row_tree (carry_row row.now) b) r.now m output }
    ensures writes { (m : Memory) (output : List ℕ) → result.writes ≡ writes_in (row_tree (carry_row row.now) b) r.now m output }
    ensures loads { result.loads.items ≡ [] }
    ensures stores { result.stores.items ≡ [] }
{
    let word = word_place(&row.d, b);
    let mut sources = Places::new();
    note_carry(&mut sources, begins(row.name) && b == 0);
    note(&mut sources, word_place(&row.m, b));
    note(&mut sources, word_place(&row.n, b));
    note(&mut sources, word);
    touch_row(sources, Some(Place::Carry), Some(word), Shape::PLAIN, b, r)
}

/// Does beat `b` of `vadc`, `vadci`, `vsbc` or `vsbci`: DDI0553, "VADC" and "VSBC". `b` is below 4.
pub fn beat_carry(row: &V8, b: u8, r: &mut Regs)
    requires { b < 4 }
    ensures done { (m : Memory) (output : List ℕ) → run (row_tree (carry_row row.now) b) r.old m output ≡ Ok (state_of r.new m output) }
    ensures context { r.new.fpca ≡ r.old.fpca }
{
    let place = word_place(&row.d, b);
    let old = read(r, place);
    let x = read(r, word_place(&row.n, b));
    let y = read(r, word_place(&row.m, b));
    let flags = flags_before(row.name, b, r);
    let active = active(r, b);
    let sum = sum(subtracts(row.name), x, y, flags);
    let carry = Written {
        place: Place::Carry,
        value: flags_after(first_of(active), sum, flags),
    };
    let new = (sum % 0x1_0000_0000) as u32;
    let word = Written {
        place,
        value: merge(active, old, new),
    };
    finish_row(r, Some(carry), Some(word), None, None, false, b);
}
