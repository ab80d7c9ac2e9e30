//! The calls that were made on a host in memory.

ghost use Rattle.std.specs.Prelude.{◌≡◌, [], ◌∷◌, ◌++◌, length, None, Some, OnOk, OnErr, option_map};
ghost use Rattle.hm_host.specs.Host.{read, write, print};

use hm_base::OutOfMemory;
use std::alloc::Global;
use std::marker::Model;

/// A call, with the name and the bytes that it was given.
#[derive(Drop)]
enum Call {
    Read { name: String },
    Write { name: String, bytes: Vec<u8> },
    Print { bytes: Vec<u8> },
}

/// A call that was made, and whether it answered `Failed`.
#[derive(Drop)]
struct Kept {
    call: Call,
    failed: bool,
}

/// The calls that were made. Contracts see their list, or None once memory for one of them was wanted.
#[derive(Drop)]
pub struct Calls {
    alloc: Global,
    kept: Option<Vec<Kept>>,
}

impl Model for Calls {
    ghost use Rattle.std.specs.Prelude.{Option, List, map, option_map};
    ghost use Rattle.hm_host.specs.Host.{Made};

    ghost Value = { Option (List Made) };

    ghost use Rattle.hm_host.specs.Calls.{made_of};

    ghost view = { λ a. option_map (λ kept. map made_of kept.items) a.kept };
}

impl Calls {
    /// No call.
    pub fn new(alloc: Global) -> Calls
        ensures empty { result ≡ Some [] }
    {
        Calls {
            alloc,
            kept: Some(Vec::new(alloc)),
        }
    }

    /// How many calls there are.
    pub fn count(&self) -> Option<usize>
        ensures value { result ≡ option_map length self.now }
    {
        match &self.kept {
            Some(kept) => Some(kept.len()),
            None => None,
        }
    }

    /// Adds a read.
    pub fn add_read(&mut self, name: &str, failed: bool) -> Result<(), OutOfMemory>
        ensures ok { OnOk result (self.new ≡ option_map (λ made. made ++ record { call = read name.now; failed = failed } ∷ []) self.old) }
        ensures err { OnErr result (self.new ≡ None) }
    {
        let Some(mut kept) = self.kept.take() else {
            return Ok(());
        };
        let name = String::from_str(self.alloc, name)?;
        let call = Call::Read { name };
        kept.push(Kept { call, failed })?;
        self.kept = Some(kept);
        Ok(())
    }

    /// Adds a write.
    pub fn add_write(&mut self, name: &str, bytes: &[u8], failed: bool) -> Result<(), OutOfMemory>
        ensures ok { OnOk result (self.new ≡ option_map (λ made. made ++ record { call = write name.now bytes.now; failed = failed } ∷ []) self.old) }
        ensures err { OnErr result (self.new ≡ None) }
    {
        let Some(mut kept) = self.kept.take() else {
            return Ok(());
        };
        let name = String::from_str(self.alloc, name)?;
        let bytes = bytes.to_vec(self.alloc)?;
        let call = Call::Write { name, bytes };
        kept.push(Kept { call, failed })?;
        self.kept = Some(kept);
        Ok(())
    }

    /// Adds a print.
    pub fn add_print(&mut self, bytes: &[u8], failed: bool) -> Result<(), OutOfMemory>
        ensures ok { OnOk result (self.new ≡ option_map (λ made. made ++ record { call = print bytes.now; failed = failed } ∷ []) self.old) }
        ensures err { OnErr result (self.new ≡ None) }
    {
        let Some(mut kept) = self.kept.take() else {
            return Ok(());
        };
        let bytes = bytes.to_vec(self.alloc)?;
        let call = Call::Print { bytes };
        kept.push(Kept { call, failed })?;
        self.kept = Some(kept);
        Ok(())
    }
}
