//! `vidup`, `vddup`, `viwdup` and `vdwdup`.

ghost use Rattle.std.specs.Prelude.{◌≡◌, ℕ, ◌+◌, ◌*◌, ◌<◌, ◌≤◌, List, [], ◌∷◌, Ok, cond, eqb, length, true, map, IfSome};
ghost use Rattle.hm_base.specs.Place.{IsPlace, noted_all};
ghost use Rattle.hm_base.specs.declared.Place.TheVariants.{R};
ghost use Rattle.hm_regs.specs.Writes.{write};
ghost use Rattle.hm_mem.specs.Memory.{Memory};
ghost use Rattle.hm_state.specs.State.{state_of};
ghost use Rattle.hm_beat.specs.Laws.{run};
ghost use Rattle.hm_beat.specs.Touches.{reads_in, writes_in};
ghost use Rattle.hm_lane.specs.Lanes.{per_word, unlanes, word_of};
ghost use Rattle.hm_state.specs.State.{At};
ghost use Rattle.hm_kinds.specs.Coded.{those, puts};
ghost use Rattle.hm_kinds.specs.Row.{is_body, numbers, row_tree};
ghost use Rattle.hm_forms_elements.specs.Forms.{offset_after, offsets_from, offsets_row, round_of, round_places, next_offset, stepped};
ghost use Rattle.hm_isa.specs.declared.vectors.OffsetsName.TheVariants as way;

use hm_base::{Place, Places, note};
use hm_beat::Touch;
use hm_isa::{Below, OffsetsName, QRegister};
use hm_kinds::{Shape, Written, finish_row, read, touch_row};
use hm_lane::{Size, per_word, word};
use hm_lane_fns::{merge_active, word_place};
use hm_regs::Regs;

/// Offsets from a register, V19, by `vidup`, `viwdup`, `vddup` or `vdwdup`: DDI0553, "VIDUP, VIWDUP" and "VDDUP, VDWDUP".
#[derive(Clone, Copy)]
pub struct Steps {
    pub name: OffsetsName,
    pub z: Size,
    /// The first offset is in r(2n).
    pub n: Below<8>,
    /// The register that gets the result.
    pub d: QRegister,
    /// The step is 2 to this power.
    pub k: Below<4>,
    /// Offsets go round at r(2r + 1), where there is an r.
    pub round: Option<Below<6>>,
}

/// The register at which offsets go round.
fn round_place(r: Below<6>) -> Place
    ensures value { result ≡ R (2 * r.value + 1) }
    ensures placed { IsPlace result }
    ensures body { is_body result ≡ true }
{
    Place::R(2 * (r.get() as u8) + 1)
}

/// Where offsets go round.
fn round(row: &Steps, r: &Regs) -> Option<u32>
    ensures { (m : Memory) (output : List ℕ) → result ≡ round_of (numbers (map (state_of r.now m output).cell (map At (round_places row.now.round)))) }
{
    match row.round {
        Some(n) => Some(read(r, round_place(n))),
        None => None,
    }
}

/// Notes the register at which offsets go round, where they do.
fn note_round(places: &mut Places, row: &Steps)
    requires room { length places.old ≤ 16 }
    ensures value { places.new ≡ noted_all (round_places row.now.round) places.old }
    ensures grown { length places.new ≤ length places.old + 1 }
{
    match row.round {
        Some(r) => note(places, round_place(r)),
        None => {}
    }
}

/// The next offset upwards, which is 0 at the end.
fn step_up(by: u32, end: Option<u32>, o: u32) -> u32
    ensures { result ≡ stepped way.Up by end o }
{
    let next = o.wrapping_add(by);
    match end {
        Some(m) => { if next == m { 0 } else { next } }
        None => next,
    }
}

/// The next offset downwards, which from 0 is that before the end.
fn step_down(by: u32, end: Option<u32>, o: u32) -> u32
    ensures { result ≡ stepped way.Down by end o }
{
    match end {
        Some(m) => {
            if o == 0 {
                m.wrapping_sub(by)
            } else {
                o.wrapping_sub(by)
            }
        }
        None => o.wrapping_sub(by),
    }
}

/// The next offset.
fn step(row: &Steps, m: Option<u32>, o: u32) -> u32
    ensures { result ≡ next_offset row.now m o }
{
    let by = 1 << row.k.get();
    match row.name {
        OffsetsName::Up => step_up(by, m, o),
        OffsetsName::Down => step_down(by, m, o),
    }
}

/// The offset after `n` steps.
fn offset_after(row: &Steps, m: Option<u32>, n: u32, o: u32) -> u32
    ensures { result ≡ offset_after row.now m n o }
{
    let mut offset = o;
    for _step in 0..n {
        offset = step(row, m, offset);
    }
    offset
}

/// The word of the offsets from one on.
fn offsets_word(row: &Steps, m: Option<u32>, o: u32) -> u32
    ensures { result ≡ word_of (unlanes row.now.z (offsets_from row.now m (per_word row.now.z) o)) }
{
    match row.z {
        Size::Byte => {
            let o1 = step(row, m, o);
            let o2 = step(row, m, o1);
            let o3 = step(row, m, o2);
            word([
                (o % 256) as u8,
                (o1 % 256) as u8,
                (o2 % 256) as u8,
                (o3 % 256) as u8,
            ])
        }
        Size::Half => {
            let o1 = step(row, m, o);
            o % 65536 + ((o1 % 65536) << 16)
        }
        Size::Word => o,
    }
}

/// The register of the first offset.
fn first_place(row: &Steps) -> Place
    ensures value { result ≡ R (2 * row.now.n.value) }
    ensures placed { IsPlace result }
    ensures body { is_body result ≡ true }
{
    Place::R(2 * (row.n.get() as u8))
}

/// The register that the last beat writes.
fn last_place(row: &Steps, b: u8) -> Option<Place>
    ensures value { those result ≡ cond (eqb b 3) (R (2 * row.now.n.value) ∷ []) [] }
    ensures placed { IfSome result IsPlace }
{
    if b == 3 { Some(first_place(row)) } else { None }
}

/// What the last beat writes into it: the offset after all elements of the register.
fn last_written(row: &Steps, b: u8, m: Option<u32>, first: u32) -> Option<Written>
    ensures value { puts result ≡ cond (eqb b 3) (write (R (2 * row.now.n.value)) (offset_after row.now m (4 * per_word row.now.z) first) ∷ []) [] }
    ensures placed { IfSome result (λ w. IsPlace w.place) }
    ensures body { IfSome result (λ w. is_body w.place ≡ true) }
{
    if b == 3 {
        Some(Written {
            place: first_place(row),
            value: offset_after(row, m, 4 * per_word(row.z), first),
        })
    } else {
        None
    }
}

/// What beat `b` of `vidup`, `viwdup`, `vddup` or `vdwdup` touches: DDI0553, "VIDUP, VIWDUP" and "VDDUP, VDWDUP". `b` is below 4.
pub fn touch_offsets(row: &Steps, b: u8, r: &Regs) -> Touch
    requires { b < 4 }
    ensures reads { (m : Memory) (output : List ℕ) → result.reads ≡ reads_in (row_tree (offsets_row row.now) b) r.now m output }
    ensures writes { (m : Memory) (output : List ℕ) → result.writes ≡ writes_in (row_tree (offsets_row row.now) b) r.now m output }
    ensures loads { result.loads.items ≡ [] }
    ensures stores { result.stores.items ≡ [] }
{
    let word = word_place(&row.d, b);
    let mut sources = Places::new();
    note_round(&mut sources, row);
    note(&mut sources, first_place(row));
    note(&mut sources, word);
    touch_row(sources, Some(word), last_place(row, b), Shape::PLAIN, b, r)
}

/// Does beat `b` of `vidup`, `viwdup`, `vddup` or `vdwdup`: DDI0553, "VIDUP, VIWDUP" and "VDDUP, VDWDUP". `b` is below 4.
pub fn beat_offsets(row: &Steps, b: u8, r: &mut Regs)
    requires { b < 4 }
    ensures done { (m : Memory) (output : List ℕ) → run (row_tree (offsets_row row.now) b) r.old m output ≡ Ok (state_of r.new m output) }
    ensures context { r.new.fpca ≡ r.old.fpca }
{
    let place = word_place(&row.d, b);
    let old = read(r, place);
    let first = read(r, first_place(row));
    let m = round(row, r);
    let before = per_word(row.z) * b as u32;
    let new = offsets_word(row, m, offset_after(row, m, before, first));
    let written = Written {
        place,
        value: merge_active(r, b, old, new),
    };
    finish_row(
        r,
        Some(written),
        last_written(row, b, m, first),
        None,
        None,
        false,
        b,
    );
}
