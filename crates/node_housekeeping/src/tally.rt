//! What is counted at a node.
ghost use Rattle.std.specs.Prelude.{◌≡◌};

use std::snapshot::Snapshot;
use std::sync::{Mutex, Wait};

/// What was counted at a node. Each number stays at its type's last value.
#[derive(Clone, Copy)]
pub struct Tally {
    /// Receipts that were looked for in the journal.
    pub receipts: u64,
    /// Those of them that the journal doesn't have.
    pub disagreeing: u64,
    /// Messages that didn't come to the place that they were sent to.
    pub lost: u64,
    /// Device keys whose erase failed, or for which there was no memory to wait in.
    pub unerased: u64,
}

/// That so many messages were counted as lost. Counting alone makes one.
#[derive(Drop)]
pub struct CountedLost {
    messages: u64,
}

/// That receipts were looked for and counted. Only `Tallies::looked_for` makes one. Clauses see how many they were, and of how many of them the
/// journal doesn't have the entry. Takes no bytes.
#[derive(Drop)]
pub struct LookedFor {
    receipts: Snapshot<u64>,
    disagreeing: Snapshot<u64>,
}

/// The counts of a node.
#[derive(Drop)]
pub struct Tallies {
    tally: Mutex<Tally>,
}

impl Tallies {
    /// Nothing was counted.
    pub fn new() -> Tallies {
        Tallies {
            tally: Mutex::new(Tally {
                receipts: 0,
                disagreeing: 0,
                lost: 0,
                unerased: 0,
            }),
        }
    }

    /// What was counted.
    pub fn now<R: Wait>(&self, rt: &R) -> Tally {
        *self.tally.lock(rt)
    }

    /// So many receipts were looked for, and the journal doesn't have the entries of so many of them.
    pub fn looked_for<R: Wait>(&self, rt: &R, receipts: u64, missing: u64) -> LookedFor
        ensures receipts { result.receipts.value ≡ receipts }
        ensures disagreeing { result.disagreeing.value ≡ missing }
    {
        if receipts > 0 {
            let mut tally = self.tally.lock(rt);
            tally.receipts = tally.receipts.saturating_add(receipts);
            tally.disagreeing = tally.disagreeing.saturating_add(missing);
        }
        LookedFor {
            receipts: Snapshot::of(&receipts),
            disagreeing: Snapshot::of(&missing),
        }
    }

    /// So many messages were lost.
    pub fn lost<R: Wait>(&self, rt: &R, lost: u64) -> CountedLost
        ensures { result.messages ≡ lost }
    {
        if lost > 0 {
            let mut tally = self.tally.lock(rt);
            tally.lost = tally.lost.saturating_add(lost);
        }
        CountedLost { messages: lost }
    }

    /// So many keys were not erased.
    pub fn unerased<R: Wait>(&self, rt: &R, failed: u64) {
        if failed > 0 {
            let mut tally = self.tally.lock(rt);
            tally.unerased = tally.unerased.saturating_add(failed);
        }
    }
}
