//! What steps gave out to be erased, in a list that one caller at a time may change.
ghost use Rattle.std.specs.Prelude.{◌≡◌, ◌<◌, ◌++◌, ◌∷◌, []};

use memory_growth::lists;
use std::alloc::Global;
use std::mem;
use std::snapshot::Snapshot;

/// That what a step gave out is left to be erased: it waits with the others, it has no keys, or it found no memory. Clauses see what was given
/// out, and how many keys were said to be in it.
#[derive(Drop)]
pub struct LeftToErase<E> {
    of: Snapshot<E>,
    keys: Snapshot<u64>,
}

impl<E> LeftToErase<E> {
    /// What has no keys is left as soon as it is let go.
    pub fn without_keys(step: &E) -> LeftToErase<E>
        ensures of { result.of.value ≡ step.now }
        ensures keys { result.keys.value ≡ 0 }
    {
        LeftToErase {
            of: Snapshot::of(step),
            keys: Snapshot::of(&0),
        }
    }
}

/// What became of the keys of a step.
#[derive(Drop)]
pub struct Added<E> {
    pub left: LeftToErase<E>,
    /// Whether any keys wait now.
    pub wait: bool,
    /// How many of the keys found no memory to wait in: these are never erased.
    pub lost: u64,
}

/// What steps gave out to be erased, and how many keys that is.
#[derive(Drop)]
pub struct Given<E> {
    steps: Vec<E>,
    keys: u64,
}

impl<E: Drop> Given<E> {
    /// No key waits.
    pub fn new(alloc: Global) -> Given<E> {
        Given {
            steps: Vec::new(alloc),
            keys: 0,
        }
    }

    /// Lets the keys of a step wait, of which there are so many, after those that wait already. Without memory for it they are lost, and the
    /// others stay.
    pub fn add(&mut self, step: E, keys: u64) -> Added<E>
        ensures of { result.left.of.value ≡ step }
        ensures keys { result.left.keys.value ≡ keys }
        ensures wait { result.lost ≡ 0 → 0 < keys → self.new.steps.items ≡ self.old.steps.items ++ step ∷ [] }
        ensures lost { 0 < result.lost → (result.lost ≡ keys) × (self.new.steps.items ≡ self.old.steps.items) }
    {
        let left = LeftToErase {
            of: Snapshot::of(&step),
            keys: Snapshot::of(&keys),
        };
        match lists::push(&mut self.steps, step) {
            Ok(()) => {
                self.keys = self.keys.saturating_add(keys);
                Added {
                    left,
                    wait: true,
                    lost: 0,
                }
            }
            Err(_) => Added {
                left,
                wait: self.keys > 0,
                lost: keys,
            },
        }
    }

    /// What waits, which waits no longer.
    pub fn take(&mut self, alloc: Global) -> Vec<E>
        ensures taken { result.items ≡ self.old.steps.items }
        ensures empty { self.new.steps.items ≡ [] }
    {
        self.keys = 0;
        mem::replace(&mut self.steps, Vec::new(alloc))
    }

    /// How many keys wait.
    pub fn count(&self) -> u64
        ensures { result ≡ self.now.keys }
    {
        self.keys
    }
}
