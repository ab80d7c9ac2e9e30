//! The labels of a source, with their addresses.

ghost use Rattle.std.specs.Prelude.{◌≡◌, IfOk, OnErr, is_none, if◌then◌else◌};
ghost use Rattle.std.specs.FinMap as map;

use hm_base::OutOfMemory;
use std::alloc::Global;
use std::collections::BTreeMap;
use std::marker::Model;

/// Labels with their addresses. Contracts see a finite map from names to addresses.
#[derive(Drop)]
pub struct Labels {
    alloc: Global,
    addresses: BTreeMap<Vec<u8>, u32>,
}

impl Model for Labels {
    ghost use Rattle.std.specs.Coded.{coded_ℕ, coded_list};
    ghost use Rattle.std.specs.FinMap as map;
    ghost use Rattle.hm_line.specs.Labels.{LabelMap, labels_of};

    ghost Value = { LabelMap };

    ghost coded = { map.code (coded_list coded_ℕ) coded_ℕ };

    ghost view = { λ a. labels_of a.addresses.entries };
}

impl Labels {
    /// No label.
    pub fn new(alloc: Global) -> Labels
        ensures empty { result ≡ map.empty }
    {
        Labels {
            alloc,
            addresses: BTreeMap::new(alloc),
        }
    }

    /// Gives a name its address, where the name is not there; else answers false and changes nothing. A refusal changes
    /// nothing either.
    pub fn add(&mut self, name: &[u8], addr: u32) -> Result<bool, OutOfMemory>
        ensures told { IfOk result (λ new. new ≡ is_none (map.get self.old name.now)) }
        ensures added { IfOk result (λ new. self.new ≡ (if new then map.insert self.old name.now addr else self.old)) }
        ensures err { OnErr result (self.new ≡ self.old) }
    {
        if self.addresses.contains_key(name) {
            return Ok(false);
        }
        let name = name.to_vec(self.alloc)?;
        self.addresses.insert(name, addr)?;
        Ok(true)
    }

    /// The address of a name, None exactly where the name is not there.
    pub fn get(&self, name: &[u8]) -> Option<u32>
        ensures value { result ≡ map.get self.now name.now }
    {
        self.addresses.get(name).copied()
    }
}
