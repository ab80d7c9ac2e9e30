//! The system's files and standard output. Of their content nothing is told.

ghost use Rattle.std.specs.Prelude.{◌≡◌, ◌≤◌, None, IfOk, vec_len};
ghost use Rattle.hm_host.specs.Host.{Rose};
ghost use Rattle.hm_host.specs.OsHost.{os_state};

use crate::host::LONGEST;
use crate::{Host, HostErr};
use std::alloc::Global;
use std::io::{Read, Write};
use std::{fs, io};

/// The system's files and standard output. It tells nothing of their content.
#[derive(Drop)]
pub struct OsHost {
    rt: HostRuntime,
    faults: u64,
}

/// All the bytes that a reader has left, where they are not too many.
fn read_to_limit<R: Read>(alloc: Global, from: &mut R) -> Result<Vec<u8>, HostErr>
    ensures size { IfOk result (λ bytes. vec_len bytes ≤ 16777216) }
{
    let mut bytes = Vec::new(alloc);
    let mut piece = [0; 4096];
    for _ in 0..u64::MAX {
        let Ok(n) = from.read(&mut piece) else {
            return Err(HostErr::Failed);
        };
        if n == 0 {
            return Ok(bytes);
        }
        if n > LONGEST - bytes.len() {
            return Err(HostErr::TooLarge);
        }
        if bytes.extend_from_slice(&piece[..n]).is_err() {
            return Err(HostErr::OutOfMemory);
        }
    }
    Err(HostErr::Failed)
}

/// Writes a piece, and says whether it went whole. A write that takes no byte is a failure.
fn is_written<W: Write>(to: &mut W, bytes: &[u8]) -> bool {
    let mut left = bytes;
    while !left.is_empty() {
        match to.write(left) {
            Ok(0) | Err(_) => return false,
            Ok(n) => left = &left[n..],
        }
    }
    to.flush().is_ok()
}

impl OsHost {
    /// A host that has not failed yet.
    pub fn new(rt: HostRuntime) -> OsHost
        ensures state { os_state result ≡ record { files = None; printed = None; calls = None; faults = 0 } }
    {
        OsHost { rt, faults: 0 }
    }

    /// Counts a failure, up to the counter's last value.
    fn count_fault(&mut self)
        ensures risen { Rose self.old.faults self.new.faults }
    {
        if self.faults < u64::MAX {
            self.faults += 1;
        }
    }
}

impl Host for OsHost {
    ghost state = { os_state };

    fn read(&mut self, alloc: Global, name: &str) -> Result<Vec<u8>, HostErr> {
        let answer = match fs::open(&self.rt, name) {
            Ok(mut file) => read_to_limit(alloc, &mut file),
            Err(_) => Err(HostErr::Failed),
        };
        match answer {
            Err(HostErr::Failed) => {
                self.count_fault();
                Err(HostErr::Failed)
            }
            answer => answer,
        }
    }

    fn write(&mut self, _alloc: Global, name: &str, bytes: &[u8]) -> Result<(), HostErr> {
        if let Ok(mut file) = fs::create(&self.rt, name) {
            if is_written(&mut file, bytes) {
                return Ok(());
            }
        }
        self.count_fault();
        Err(HostErr::Failed)
    }

    fn print(&mut self, _alloc: Global, bytes: &[u8]) -> Result<(), HostErr> {
        if is_written(&mut io::writer(&self.rt), bytes) {
            return Ok(());
        }
        self.count_fault();
        Err(HostErr::Failed)
    }
}
