//! How runs end.

ghost use Rattle.std.specs.Prelude.{◌≡◌, ◌≢◌, ◌≤◌, false, List, length, true};
ghost use Rattle.hm_base.specs.Image.{Segment, flash_byte};
ghost use Rattle.hm_codes.specs.Listing.{IsListing, Listing};
ghost use Rattle.hm_machine.specs.Shown.{Shows};
ghost use Rattle.hm_sched.specs.Schedule.{Sched, most_ticks, ticks_of};
ghost use Rattle.hm_shake.specs.Ends.{ended_under};
ghost use Rattle.hm_shake.specs.Kinds.{is_halt};

use hm_machine::Machine;
use hm_shake_runs::{Ended, Kind, kind_of};

/// Runs a machine to its end.
pub fn end_of(machine: &mut Machine) -> Ended
    ensures ended { (image : List Segment) (s : Sched) (listing : Listing) → Shows image s 0 machine.old → IsListing (flash_byte image) listing
        → result ≡ ended_under listing image s }
    ensures shows { (image : List Segment) (s : Sched) → Shows image s 0 machine.old → Shows image s (length (ticks_of s.lines)) machine.new }
    ensures most { result.ticks ≤ most_ticks }
{
    let outcome = machine.run();
    Ended {
        kind: kind_of(outcome),
        ticks: machine.ticks(),
    }
}

/// Whether two kinds of outcomes are one.
pub fn same_kind(a: Kind, b: Kind) -> bool
    ensures same { result ≡ true → a ≡ b }
    ensures other { result ≡ false → a ≢ b }
{
    a == b
}

/// Whether a run of this kind halts.
pub fn is_halted(kind: Kind) -> bool
    ensures value { result ≡ is_halt kind }
{
    matches!(kind, Kind::Halted { .. })
}
