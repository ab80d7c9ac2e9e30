//! Files in memory, and numbers of calls that are to fail.

ghost use Rattle.std.specs.Prelude.{◌≡◌, [], ◌∷◌, ◌++◌, OnOk, OnErr, IsTrue, Contains, ◌↔◌, option_map};
ghost use Rattle.std.specs.FinMap as map;

use hm_base::OutOfMemory;
use std::alloc::Global;
use std::collections::VecDeque;
use std::marker::Model;

/// A file: its name and its bytes.
#[derive(Drop)]
struct Stored {
    name: String,
    bytes: Vec<u8>,
}

/// Files in memory. Contracts see a finite map from names to bytes.
#[derive(Drop)]
pub struct Files {
    alloc: Global,
    newest_first: VecDeque<Stored>,
}

impl Model for Files {
    ghost use Rattle.std.specs.Coded.{coded_ℕ, coded_list};
    ghost use Rattle.std.specs.FinMap as map;
    ghost use Rattle.hm_host.specs.Host.{FileMap};

    ghost Value = { FileMap };

    ghost coded = { map.code (coded_list coded_ℕ) (coded_list coded_ℕ) };

    ghost use Rattle.hm_host.specs.Files.{files_of};

    ghost view = { λ a. files_of a.newest_first.items };
}

impl Files {
    /// No file.
    pub fn new(alloc: Global) -> Files
        ensures empty { result ≡ map.empty }
    {
        Files {
            alloc,
            newest_first: VecDeque::new(alloc),
        }
    }

    /// Gives the name these bytes, whatever it had. A refusal changes nothing.
    pub fn add(&mut self, name: &str, bytes: Vec<u8>) -> Result<(), OutOfMemory>
        ensures ok { OnOk result (self.new ≡ map.insert self.old name.now bytes.items) }
        ensures err { OnErr result (self.new ≡ self.old) }
    {
        let name = String::from_str(self.alloc, name)?;
        self.newest_first.push_front(Stored { name, bytes })?;
        Ok(())
    }

    /// The bytes of a file, `None` exactly where there is none of that name.
    pub fn file(&self, name: &str) -> Option<&[u8]>
        ensures value { option_map (λ bytes. bytes.now) result ≡ map.get self.now name.now }
    {
        for stored in &self.newest_first {
            if name == stored.name.as_str() {
                return Some(&stored.bytes);
            }
        }
        None
    }
}

/// Numbers of calls that are to fail, from 0. Contracts see their list.
#[derive(Drop)]
pub struct FailList {
    numbers: Vec<u64>,
}

impl Model for FailList {
    ghost use Rattle.std.specs.Prelude.{List, ℕ};

    ghost Value = { List ℕ };

    ghost view = { λ a. a.numbers.items };
}

impl FailList {
    /// No number.
    pub fn new(alloc: Global) -> FailList
        ensures empty { result ≡ [] }
    {
        FailList {
            numbers: Vec::new(alloc),
        }
    }

    /// Adds a number. A refusal changes nothing.
    pub fn add(&mut self, call: u64) -> Result<(), OutOfMemory>
        ensures ok { OnOk result (self.new ≡ self.old ++ call ∷ []) }
        ensures err { OnErr result (self.new ≡ self.old) }
    {
        self.numbers.push(call)?;
        Ok(())
    }

    /// Whether a number is among them.
    pub fn has(&self, call: u64) -> bool
        ensures found { IsTrue result ↔ Contains self.now call }
    {
        self.numbers.contains(&call)
    }
}
