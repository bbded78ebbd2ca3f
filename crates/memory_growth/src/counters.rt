//! Counts of things that were there.
ghost use Rattle.std.specs.Prelude.{◌≡◌, ◌+◌, ◌<◌, ◌≤◌, ◌^◌, length, IsOk, IfOk, OnOk, OnErr};

use crate::OutOfMemory;
use std::marker::Model;

/// A count that has come to its end, at 2^60 things. Only a count makes it.
#[derive(Debug, Drop)]
pub struct CountEnded {
    ended: (),
}

/// A step that can't be counted is answered as one without memory: no other answer is meant for it.
impl From<CountEnded> for OutOfMemory {
    fn from(_ended: CountEnded) -> OutOfMemory {
        OutOfMemory::new()
    }
}

/// How many things there were. It begins at none, and rises by one or by the items of a list. So only 2^60 things bring it to its end.
#[derive(Debug, Drop)]
pub struct Counter {
    count: u64,
}

impl Model for Counter {
    ghost use Rattle.std.specs.Prelude.{ℕ};

    ghost Value = { ℕ };

    ghost view = { λ c. c.count };
}

impl Counter {
    /// None yet.
    pub fn new() -> Counter
        ensures { result ≡ 0 }
    {
        Counter { count: 0 }
    }

    /// How many they are.
    pub fn value(&self) -> u64
        ensures { result ≡ self.now }
    {
        self.count
    }

    /// The count after the items of a list.
    pub fn after<T>(&self, items: &[T]) -> Result<Counter, CountEnded>
        ensures ok { IfOk result (λ counter. counter ≡ self.now + length items.now) }
        ensures range { OnOk result (self.now + length items.now < 2 ^ 60) }
        ensures succeeds { self.now + length items.now < 2 ^ 60 → IsOk result }
        ensures ended { OnErr result (2 ^ 60 ≤ self.now + length items.now) }
    {
        match self.count.checked_add(items.len() as u64) {
            Some(count) if count < 1 << 60 => Ok(Counter { count }),
            _ => Err(CountEnded { ended: () }),
        }
    }

    /// The count after one more.
    pub fn next(&self) -> Result<Counter, CountEnded>
        ensures ok { IfOk result (λ counter. counter ≡ self.now + 1) }
        ensures range { OnOk result (self.now + 1 < 2 ^ 60) }
        ensures succeeds { self.now + 1 < 2 ^ 60 → IsOk result }
        ensures ended { OnErr result (2 ^ 60 ≤ self.now + 1) }
    {
        match self.count.checked_add(1) {
            Some(count) if count < 1 << 60 => Ok(Counter { count }),
            _ => Err(CountEnded { ended: () }),
        }
    }
}
