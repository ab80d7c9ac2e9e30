//! What of a machine changes in a run, kept beside it.

ghost use Rattle.std.specs.Prelude.{◌≡◌, ◌≤◌, length};
ghost use Rattle.std.specs.Vec.{vec_capacity};
ghost use Rattle.hm_exc.specs.Entry.{newest_first};

use crate::cursor::Cursor;
use hm_exc::Acts;
use hm_mem::Still;
use hm_regs::Regs;
use hm_run::Outcome;
use hm_window::Window;

/// What changes of a machine: all but flash, where a handler may store, and the schedule. Of the output, which only grows, how long it is.
#[derive(Drop)]
pub struct Checkpoint {
    pub regs: Regs,
    pub still: Still,
    pub written: usize,
    pub window: Window,
    pub acts: Acts,
    pub retired: u64,
    pub older_steps: u64,
    pub cursor: Cursor,
    pub ticks: u32,
    pub entries: u32,
    pub outcome: Option<Outcome>,
}

/// Lays bytes down in place of others, for which there is room.
pub fn put_over(bytes: &[u8], out: &mut Vec<u8>)
    requires { length bytes.now ≤ vec_capacity out.old }
    ensures items { out.new.items ≡ bytes.now }
    ensures capacity { vec_capacity out.new ≡ vec_capacity out.old }
{
    out.clear();
    for b in bytes {
        out.push_reserved(*b);
    }
}

/// Puts activations in place of others.
pub fn put_acts(acts: &Acts, out: &mut Acts)
    ensures { newest_first out.new ≡ newest_first acts.now }
{
    out.clear();
    for x in acts.as_slice() {
        out.push(*x);
    }
}
