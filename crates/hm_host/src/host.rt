//! What a program may ask of the outside, and what it may rely on.

use std::alloc::Global;
use thiserror::Error;

/// The bytes of the longest file that is read.
pub const LONGEST: usize = 16_777_216;

/// Why a call of a host did not succeed.
#[derive(Clone, Copy, Debug, Error)]
pub enum HostErr {
    /// The host failed, as at a file that is not there.
    #[error("the host failed")]
    Failed,
    /// The file has more than 16,777,216 bytes.
    #[error("the file is too large")]
    TooLarge,
    /// Memory was wanted and refused.
    #[error("out of memory")]
    OutOfMemory,
}

/// Files, a place to print, and a count of faults that never falls.
///
/// A host may tell its files and its printed bytes, and one that does goes on telling them. It may tell the calls made on it too, and
/// goes on until a call answers `OutOfMemory`; one that tells them no more never tells them again. `Failed` comes only where the count rose in that
/// call, or stands at its last value; all else leaves the count.
/// `OutOfMemory` leaves the files and what was printed.
pub trait Host {
    ghost use Rattle.hm_host.specs.Host.{HostState, Stays, EndsForGood, Counts, Makes, Reads, Writes, Prints, read, write, print};

    /// What it tells: its files, its printed bytes, the calls made on it and its count of faults.
    ghost state: { Self → HostState };

    /// The whole bytes of a file. `TooLarge` only where it has more than 16,777,216.
    ///
    /// Of such a file it answers `Failed`, `TooLarge` or `OutOfMemory`, whichever comes first. The files and what was
    /// printed stay, whatever it answers.
    fn read(&mut self, alloc: Global, name: &str) -> Result<Vec<u8>, HostErr>
        ensures answer { Reads (state self.old).files name.now (λ bytes. bytes.items) result }
        ensures files { Stays (state self.old).files (state self.new).files }
        ensures printed { Stays (state self.old).printed (state self.new).printed }
        ensures calls { Makes (read name.now) (state self.old).calls (state self.new).calls result }
        ensures for_good { EndsForGood (state self.old).calls (state self.new).calls }
        ensures count { Counts (state self.old).faults (state self.new).faults result };

    /// Gives a file these bytes, whatever it had. The other files and what was printed stay.
    ///
    /// Where it fails nothing is told of the named file.
    fn write(&mut self, alloc: Global, name: &str, bytes: &[u8]) -> Result<(), HostErr>
        ensures files { Writes name.now bytes.now (state self.old).files (state self.new).files result }
        ensures printed { Stays (state self.old).printed (state self.new).printed }
        ensures calls { Makes (write name.now bytes.now) (state self.old).calls (state self.new).calls result }
        ensures for_good { EndsForGood (state self.old).calls (state self.new).calls }
        ensures count { Counts (state self.old).faults (state self.new).faults result };

    /// Adds a piece to what was printed, or where it fails a prefix of the piece. The files stay.
    fn print(&mut self, alloc: Global, bytes: &[u8]) -> Result<(), HostErr>
        ensures printed { Prints bytes.now (state self.old).printed (state self.new).printed result }
        ensures files { Stays (state self.old).files (state self.new).files }
        ensures calls { Makes (print bytes.now) (state self.old).calls (state self.new).calls result }
        ensures for_good { EndsForGood (state self.old).calls (state self.new).calls }
        ensures count { Counts (state self.old).faults (state self.new).faults result };
}
