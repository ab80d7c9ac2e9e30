//! How often each kind of outcome came, and in which run of the fewest ticks.

ghost use Rattle.std.specs.Prelude.{◌≡◌, ◌≢◌, ◌≤◌, ◌<◌, ◌+◌, [], IfOk, IfSome, None, length};
ghost use Rattle.std.specs.List.{All, AllWithin, HoldsAt};
ghost use Rattle.hm_shake_runs.specs.Found.{IsNoted, counted};

use crate::kinds::{Ended, Kind};
use hm_base::OutOfMemory;
use std::alloc::Global;

/// A kind of outcome that came: how often, and the run of the fewest ticks in which it did, the first of these.
#[derive(Clone, Copy)]
pub struct Found {
    pub kind: Kind,
    pub count: u32,
    pub run: u32,
    pub ticks: u32,
}

/// The kinds of outcomes that came, in the order in which they came first.
#[derive(Drop)]
pub struct Tally {
    pub kinds: Vec<Found>,
}

/// The same, with one run more.
fn with_one(found: Found, ended: Ended, run: u32) -> Found
    requires few { found.count ≤ 1000000 }
    ensures value { result ≡ counted found ended run }
{
    if ended.ticks < found.ticks {
        return Found {
            kind: found.kind,
            count: found.count + 1,
            run,
            ticks: ended.ticks,
        };
    }
    Found {
        kind: found.kind,
        count: found.count + 1,
        run: found.run,
        ticks: found.ticks,
    }
}

impl Tally {
    /// No runs yet.
    pub fn new(alloc: Global) -> Tally
        ensures empty { result.kinds.items ≡ [] }
    {
        Tally {
            kinds: Vec::new(alloc),
        }
    }

    /// Where a kind stands among those that came.
    fn place(&self, kind: Kind) -> Option<usize>
        ensures within { IfSome result (λ k. k < length self.now.kinds.items) }
        ensures there { IfSome result (λ k. HoldsAt (λ x. x.kind ≡ kind) self.now.kinds.items k) }
        ensures first { IfSome result (λ k. AllWithin (λ x. x.kind ≢ kind) self.now.kinds.items 0 k) }
        ensures none { result ≡ None → All (λ x. x.kind ≢ kind) self.now.kinds.items }
    {
        for k in 0..self.kinds.len() {
            if self.kinds[k].kind == kind {
                return Some(k);
            }
        }
        None
    }

    /// Counts a run, before which there were no more than 1,000,000.
    pub fn note(&mut self, ended: Ended, run: u32) -> Result<(), OutOfMemory>
        requires before { All (λ x. x.count ≤ run) self.old.kinds.items }
        requires runs { All (λ x. x.run < run) self.old.kinds.items }
        requires few { run ≤ 1000000 }
        ensures noted { IfOk result (λ _. IsNoted ended run self.old.kinds.items self.new.kinds.items) }
        ensures after { IfOk result (λ _. All (λ x. x.count ≤ run + 1) self.new.kinds.items) }
        ensures runs { IfOk result (λ _. All (λ x. x.run < run + 1) self.new.kinds.items) }
    {
        match self.place(ended.kind) {
            Some(k) => self.kinds[k] = with_one(self.kinds[k], ended, run),
            None => self.kinds.push(Found {
                kind: ended.kind,
                count: 1,
                run,
                ticks: ended.ticks,
            })?,
        }
        Ok(())
    }
}
