//! The device keys of a node that wait to be erased.
ghost use Rattle.std.specs.Prelude.{◌≡◌};

use crate::given_keys::{Added, Given, LeftToErase};
use std::alloc::Global;
use std::sync::{Mutex, Wait};

/// Keys that wait to be erased, each as the step gave it out with its others. Nobody who adds them can have made them up.
#[derive(Drop)]
pub struct WaitingKeys<E> {
    alloc: Global,
    given: Mutex<Given<E>>,
}

impl<E: Drop> WaitingKeys<E> {
    /// No key waits.
    pub fn new(alloc: Global) -> WaitingKeys<E> {
        WaitingKeys {
            alloc,
            given: Mutex::new(Given::new(alloc)),
        }
    }

    /// Lets the keys of a step wait, of which there are so many. Of none nothing is locked.
    pub fn add<R: Wait>(&self, rt: &R, step: E, keys: u64) -> Added<E>
        ensures of { result.left.of.value ≡ step }
        ensures keys { result.left.keys.value ≡ keys }
    {
        if keys == 0 {
            return Added {
                left: LeftToErase::without_keys(&step),
                wait: false,
                lost: 0,
            };
        }
        self.given.lock(rt).add(step, keys)
    }

    /// What waits, which waits no longer.
    pub fn take<R: Wait>(&self, rt: &R) -> Vec<E> {
        self.given.lock(rt).take(self.alloc)
    }

    /// How many keys wait.
    pub fn count<R: Wait>(&self, rt: &R) -> u64 {
        self.given.lock(rt).count()
    }
}
