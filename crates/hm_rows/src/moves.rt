//! What the rows that load or store move.

ghost use Rattle.std.specs.Prelude.{◌≡◌, ◌<◌};
ghost use Rattle.hm_isa.specs.declared.Vector.TheVariants as vector;
ghost use Rattle.hm_moves.specs.Ways.{transfer_of};
ghost use Rattle.hm_rows.specs.Rows.{Moves, kind_of, offset_of};

use hm_isa::{V24, V25, V26, V27, V28};
use hm_lane::Size;
use hm_lane_fns::size;
use hm_moves::{Addresses, Contiguous, Interleaved, Move, Offsets, Way, byte_count};

/// An offset of so many elements, added or taken away.
fn offset(added: bool, i: u32, z: Size) -> u32
    requires { i < 128 }
    ensures { result ≡ offset_of added i z }
{
    let bytes = i * byte_count(z);
    if added {
        bytes
    } else {
        0_u32.wrapping_sub(bytes)
    }
}

/// What a row V24 moves.
pub fn contiguous_move(row: &V24) -> Move
    ensures { Moves (transfer_of result) ≡ kind_of (vector.V24 row.now) }
{
    let z = size(&row.z);
    Move {
        store: row.l.get() == 0,
        memory: z,
        register: z,
        signed: false,
        way: Way::Contiguous(Contiguous {
            d: row.d.get() as u8,
            n: row.n.get() as u8,
            offset: offset(row.a.get() == 1, row.i.get(), z),
            before: row.p.get() == 1,
            back: row.w.get() == 1,
        }),
    }
}

/// What a row V25 moves.
pub fn widening_move(row: &V25) -> Move
    ensures { Moves (transfer_of result) ≡ kind_of (vector.V25 row.now) }
{
    let memory = if row.h.get() == 1 {
        Size::Half
    } else {
        Size::Byte
    };
    Move {
        store: row.l.get() == 0,
        memory,
        register: size(&row.z),
        signed: row.u.get() == 0,
        way: Way::Contiguous(Contiguous {
            d: row.d.get() as u8,
            n: row.n.get() as u8,
            offset: offset(row.a.get() == 1, row.i.get(), memory),
            before: row.p.get() == 1,
            back: row.w.get() == 1,
        }),
    }
}

/// What a row V26 moves.
pub fn offsets_move(row: &V26) -> Move
    ensures { Moves (transfer_of result) ≡ kind_of (vector.V26 row.now) }
{
    let scale = if row.o.get() == 1 { row.y.get() } else { 0 };
    Move {
        store: row.l.get() == 0,
        memory: size(&row.y),
        register: size(&row.z),
        signed: row.u.get() == 0,
        way: Way::Offsets(Offsets {
            d: row.d.get() as u8,
            n: row.n.get() as u8,
            m: row.m.get() as u8,
            scale: scale as u8,
        }),
    }
}

/// What a row V27 moves.
pub fn addresses_move(row: &V27) -> Move
    ensures { Moves (transfer_of result) ≡ kind_of (vector.V27 row.now) }
{
    Move {
        store: row.l.get() == 0,
        memory: Size::Word,
        register: Size::Word,
        signed: false,
        way: Way::Addresses(Addresses {
            d: row.d.get() as u8,
            m: row.m.get() as u8,
            offset: offset(row.a.get() == 1, row.i.get(), Size::Word),
            back: row.w.get() == 1,
        }),
    }
}

/// What a row V28 moves.
pub fn interleaved_move(row: &V28) -> Move
    ensures { Moves (transfer_of result) ≡ kind_of (vector.V28 row.now) }
{
    let z = size(&row.z);
    Move {
        store: row.l.get() == 0,
        memory: z,
        register: z,
        signed: false,
        way: Way::Interleaved(Interleaved {
            d: row.d.get() as u8,
            n: row.n.get() as u8,
            four: row.f.get() == 1,
            part: row.p.get() as u8,
            back: row.w.get() == 1,
        }),
    }
}
