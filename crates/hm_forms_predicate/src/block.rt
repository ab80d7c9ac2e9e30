//! `vpst`.

ghost use Rattle.std.specs.Prelude.{◌≡◌, ℕ, ◌<◌, List, [], Ok};
ghost use Rattle.hm_mem.specs.Memory.{Memory};
ghost use Rattle.hm_state.specs.State.{state_of};
ghost use Rattle.hm_beat.specs.Laws.{run};
ghost use Rattle.hm_beat.specs.Touches.{reads_in, writes_in};
ghost use Rattle.hm_forms_predicate.specs.Blocks.{block_tree};

use arrayvec::ArrayVec;
use hm_base::{Places, note};
use hm_beat::Touch;
use hm_isa::Block;
use hm_lane::mask_at;
use hm_regs::Regs;

/// What beat `b` of `vpst` touches: DDI0553, "VPST". `b` is below 4.
pub fn touch_block(row: &Block, b: u8, r: &Regs) -> Touch
    requires { b < 4 }
    ensures reads { (m : Memory) (output : List ℕ) → result.reads ≡ reads_in (block_tree row.now.k.value b) r.now m output }
    ensures writes { (m : Memory) (output : List ℕ) → result.writes ≡ writes_in (block_tree row.now.k.value b) r.now m output }
    ensures loads { result.loads.items ≡ [] }
    ensures stores { result.stores.items ≡ [] }
{
    let mut writes = Places::new();
    if b % 2 == 1 {
        note(&mut writes, mask_at(b));
    }
    Touch {
        reads: Places::new(),
        writes,
        loads: ArrayVec::new(),
        stores: ArrayVec::new(),
    }
}

/// Does beat `b` of `vpst`: DDI0553, "VPST". `b` is below 4.
pub fn beat_block(row: &Block, b: u8, r: &mut Regs)
    requires { b < 4 }
    ensures done { (m : Memory) (output : List ℕ) → run (block_tree row.now.k.value b) r.old m output ≡ Ok (state_of r.new m output) }
    ensures context { r.new.fpca ≡ r.old.fpca }
{
    r.in_range();
    if b % 2 == 1 {
        r.set(mask_at(b), row.k.get());
    }
}
