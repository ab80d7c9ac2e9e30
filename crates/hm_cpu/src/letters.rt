//! What does the letters of a schedule, with a table of what was decoded of late or without one.

ghost use Rattle.std.specs.Prelude.{◌≡◌, ◌+◌, ◌^◌, ◌<◌, ◌≤◌, OnOk};
ghost use Rattle.std.specs.Vec.{vec_capacity};
ghost use Rattle.hm_codes.specs.Listing.{IsListing, Listing};
ghost use Rattle.hm_cpu.specs.Cpus.{nested_of, stepped, IsPosition, IsSoundUnder, IsSoundUnderSome, KeepsFlash};
ghost use Rattle.hm_run_laws.specs.Nested.{letter};
ghost use Rattle.hm_mem.specs.Memory.{memory_of, flash_at};
ghost use Rattle.hm_run.specs.Program.{most_output};
ghost use Rattle.hm_sched.specs.Schedule.{Sched};

use crate::cpu::Cpu;
use crate::running::letter;
use crate::step_ends::LetterEnd;
use hm_recent::Cached;

/// A table has so many places.
const PLACES: usize = 1024;

/// What does the letters of a schedule, and may keep instructions that it decoded of late, on which nothing depends. Who hands it on knows no type of an
/// instruction.
pub trait Letters {
    /// What a letter of a schedule does, of the thread or of the newest handler: `O` is a step of the older instruction, its next beat or the whole
    /// of one without beats, `Y` the next beat of the younger, and any other letter, as `W`, does the older to its end, in four steps at most
    /// (DDI0553, "Beat-wise execution" and "Exception return").
    ///
    /// Err tells why it does not go on; the machine then stands as that step left it. Of the thread's instructions alone it is counted how many
    /// were retired and how many steps were done, in `x.retired` and `x.older_steps`.
    fn letter(&mut self, l: u8, x: &mut Cpu) -> Result<(), LetterEnd>
        requires count { (x.old.retired < 2 ^ 61) × (x.old.older_steps < 2 ^ 61) }
        requires position { IsPosition x.old }
        requires room { vec_capacity x.old.output ≡ most_output }
        requires sound { IsSoundUnderSome x.old }
        ensures value { (listing : Listing) (s : Sched) → IsListing (flash_at (memory_of x.old.mem)) listing → IsSoundUnder s x.old
            → stepped result x.new ≡ letter listing s l (nested_of x.old) }
        ensures sound { (s : Sched) → IsSoundUnder s x.old → OnOk result (IsSoundUnder s x.new) }
        ensures moves { KeepsFlash x.old x.new }
        ensures position { OnOk result (IsPosition x.new) }
        ensures count { (x.new.retired ≤ x.old.retired + 4) × (x.new.older_steps ≤ x.old.older_steps + 4) };
}

/// Keeps nothing from one letter to the next: each decodes its instructions anew.
#[derive(Drop)]
pub struct Uncached;

/// A table of 1,024 places (98 KB). Each address has one of them, which it shares with others.
#[derive(Drop)]
pub struct DecodedTable {
    places: [Cached; PLACES],
}

impl DecodedTable {
    /// One where nothing was decoded yet.
    pub const EMPTY: DecodedTable = DecodedTable {
        places: [Cached::EMPTY; PLACES],
    };
}

impl Letters for Uncached {
    fn letter(&mut self, l: u8, x: &mut Cpu) -> Result<(), LetterEnd> {
        letter(l, &mut [Cached::EMPTY], x)
    }
}

impl Letters for DecodedTable {
    #[inline(always)]
    fn letter(&mut self, l: u8, x: &mut Cpu) -> Result<(), LetterEnd> {
        letter(l, &mut self.places, x)
    }
}
