//! A host in memory. It tells its files, what was printed, and its calls until memory for one of them is wanted.

ghost use Rattle.std.specs.Prelude.{◌≡◌, ◌⊎◌, ◌↔◌, ◌<◌, ◌≤◌, [], length, Some, None, IfOk, IfErr, IsErrOf, IsTrue, option_map};
ghost use Rattle.std.specs.FinMap as map_of;
ghost use Rattle.hm_host.specs.Host.{Stays, EndsForGood, Counts, Makes, Reads, Writes, Prints, longest, read, write, print};
ghost use Rattle.hm_host.specs.MemHost.{mem_state, mem_files, mem_printed, mem_calls, mem_faults, planned, IsNextToFail, FailsAtRead, IsTooLong, counted};
ghost use Rattle.hm_host.specs.MemHost.{after_call};

use crate::calls::Calls;
use crate::host::LONGEST;
use crate::{FailList, Files, Host, HostErr};
use std::alloc::Global;

/// Files and printed bytes in memory, and the calls that were made.
///
/// A call fails where its number, from 0, is listed, and a read where there is no file of the name. It tells its calls until memory for
/// one of them is wanted: that one answers `OutOfMemory`, whether it was to fail or not.
#[derive(Drop)]
pub struct MemHost {
    files: Files,
    failing: FailList,
    printed: Vec<u8>,
    next: u64,
    calls: Calls,
    faults: u64,
}

/// The next number, or the last of the counter.
fn next(n: u64) -> u64
    ensures value { result ≡ counted n }
{
    if n < u64::MAX { n + 1 } else { n }
}

/// The bytes of a file that is not too long.
fn whole(alloc: Global, bytes: &[u8]) -> Result<Vec<u8>, HostErr>
    ensures ok { IfOk result (λ copy. (copy.items ≡ bytes.now) × (length bytes.now ≤ longest)) }
    ensures err { IfErr result (λ e. ((e ≡ HostErr.TooLarge) × (longest < length bytes.now)) ⊎ ((e ≡ HostErr.OutOfMemory) × (length bytes.now ≤ longest))) }
{
    if bytes.len() > LONGEST {
        return Err(HostErr::TooLarge);
    }
    match bytes.to_vec(alloc) {
        Ok(copy) => Ok(copy),
        Err(_) => Err(HostErr::OutOfMemory),
    }
}

impl MemHost {
    /// A host with these files, nothing printed, and no call made yet.
    pub fn new(alloc: Global, files: Files, failing: FailList) -> MemHost
        ensures state { mem_state result ≡ record { files = Some files; printed = Some []; calls = Some []; faults = 0 } }
        ensures plan { planned result ≡ record { failing = failing; next = 0 } }
    {
        MemHost {
            files,
            failing,
            printed: Vec::new(alloc),
            next: 0,
            calls: Calls::new(alloc),
            faults: 0,
        }
    }

    /// The bytes of a file, `None` exactly where there is none of that name.
    pub fn file(&self, name: &str) -> Option<&[u8]>
        ensures value { option_map (λ bytes. bytes.now) result ≡ map_of.get (mem_files self.now) name.now }
    {
        self.files.file(name)
    }

    /// What was printed.
    pub fn printed(&self) -> &[u8]
        ensures value { result.now ≡ mem_printed self.now }
    {
        &self.printed
    }

    /// How many calls were made, `None` exactly where it tells them no more.
    pub fn calls(&self) -> Option<usize>
        ensures value { result ≡ option_map length (mem_calls self.now) }
    {
        self.calls.count()
    }

    /// Counts a fault.
    fn fault(&mut self)
        ensures state { mem_state self.new ≡ record (mem_state self.old) { faults = counted (mem_faults self.old) } }
        ensures plan { planned self.new ≡ planned self.old }
    {
        self.faults = next(self.faults);
    }

    /// Counts a call, and says whether it fails by its number.
    fn begin(&mut self) -> bool
        ensures state { mem_state self.new ≡ mem_state self.old }
        ensures plan { planned self.new ≡ after_call (planned self.old) }
        ensures fails { IsTrue result ↔ IsNextToFail self.old }
    {
        let fails = self.failing.has(self.next);
        self.next = next(self.next);
        fails
    }
}

impl Host for MemHost {
    ghost state = { mem_state };

    fn read(&mut self, alloc: Global, name: &str) -> Result<Vec<u8>, HostErr>
        ensures answer { Reads (mem_state self.old).files name.now (λ bytes. bytes.items) result }
        ensures files { Stays (mem_state self.old).files (mem_state self.new).files }
        ensures printed { Stays (mem_state self.old).printed (mem_state self.new).printed }
        ensures calls { Makes (read name.now) (mem_state self.old).calls (mem_state self.new).calls result }
        ensures for_good { EndsForGood (mem_state self.old).calls (mem_state self.new).calls }
        ensures count { Counts (mem_state self.old).faults (mem_state self.new).faults result }
        ensures plan { planned self.new ≡ after_call (planned self.old) }
        ensures failed { ¬ IsErrOf result HostErr.OutOfMemory → (IsErrOf result HostErr.Failed ↔ FailsAtRead self.old name.now) }
        ensures large { ¬ IsErrOf result HostErr.OutOfMemory
            → (IsErrOf result HostErr.TooLarge ↔ (¬ IsNextToFail self.old × IsTooLong (mem_files self.old) name.now)) }
    {
        let listed = self.begin();
        let failed = listed || self.files.file(name).is_none();
        if self.calls.add_read(name, failed).is_err() {
            return Err(HostErr::OutOfMemory);
        }
        match self.files.file(name) {
            Some(bytes) if !listed => whole(alloc, bytes),
            _ => {
                self.fault();
                Err(HostErr::Failed)
            }
        }
    }

    fn write(&mut self, alloc: Global, name: &str, bytes: &[u8]) -> Result<(), HostErr>
        ensures files { Writes name.now bytes.now (mem_state self.old).files (mem_state self.new).files result }
        ensures printed { Stays (mem_state self.old).printed (mem_state self.new).printed }
        ensures calls { Makes (write name.now bytes.now) (mem_state self.old).calls (mem_state self.new).calls result }
        ensures for_good { EndsForGood (mem_state self.old).calls (mem_state self.new).calls }
        ensures count { Counts (mem_state self.old).faults (mem_state self.new).faults result }
        ensures plan { planned self.new ≡ after_call (planned self.old) }
        ensures failed { ¬ IsErrOf result HostErr.OutOfMemory → (IsErrOf result HostErr.Failed ↔ IsNextToFail self.old) }
    {
        let failed = self.begin();
        if self.calls.add_write(name, bytes, failed).is_err() {
            return Err(HostErr::OutOfMemory);
        }
        if failed {
            self.fault();
            return Err(HostErr::Failed);
        }
        let Ok(bytes) = bytes.to_vec(alloc) else {
            return Err(HostErr::OutOfMemory);
        };
        match self.files.add(name, bytes) {
            Ok(()) => Ok(()),
            Err(_) => Err(HostErr::OutOfMemory),
        }
    }

    fn print(&mut self, _alloc: Global, bytes: &[u8]) -> Result<(), HostErr>
        ensures printed { Prints bytes.now (mem_state self.old).printed (mem_state self.new).printed result }
        ensures files { Stays (mem_state self.old).files (mem_state self.new).files }
        ensures calls { Makes (print bytes.now) (mem_state self.old).calls (mem_state self.new).calls result }
        ensures for_good { EndsForGood (mem_state self.old).calls (mem_state self.new).calls }
        ensures count { Counts (mem_state self.old).faults (mem_state self.new).faults result }
        ensures plan { planned self.new ≡ after_call (planned self.old) }
        ensures failed { ¬ IsErrOf result HostErr.OutOfMemory → (IsErrOf result HostErr.Failed ↔ IsNextToFail self.old) }
    {
        let failed = self.begin();
        if self.calls.add_print(bytes, failed).is_err() {
            return Err(HostErr::OutOfMemory);
        }
        if failed {
            self.fault();
            return Err(HostErr::Failed);
        }
        match self.printed.extend_from_slice(bytes) {
            Ok(()) => Ok(()),
            Err(_) => Err(HostErr::OutOfMemory),
        }
    }
}
