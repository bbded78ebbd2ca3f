//! Growth of sets that keep the order of their keys.
ghost use Rattle.std.specs.Prelude.{◌≡◌, ◌+◌, ◌<◌, ◌≤◌, not, true, false, IsOk, IfOk, OnOk, OnErr, if◌then◌else◌};
ghost use Rattle.indexmap.specs.IndexSet.{index_set_len, spare, hasher_of, contains, insert_key, IsUnique, IsUnchanged, Updates};

use crate::OutOfMemory;
use indexmap::IndexSet;
use std::hash::Hash;

/// Adds a key, and says whether it is new. A refusal leaves the set as it was.
pub fn insert<T: Hash + Eq + Drop>(set: &mut IndexSet<T>, key: T) -> Result<bool, OutOfMemory>
    ensures added { IfOk result (λ added. added ≡ not (contains T.eq set.old key)) }
    ensures updates { OnOk result (Updates T.eq set.old set.new key true) }
    ensures keys { IfOk result (λ added. set.new.keys ≡ insert_key T.eq set.old.keys key) }
    ensures len { IfOk result (λ added. index_set_len set.new ≡ index_set_len set.old + (if added then 1 else 0)) }
    ensures err { OnErr result (IsUnchanged set.old set.new) }
    ensures absent { OnErr result (contains T.eq set.old key ≡ false) }
    ensures succeeds { 0 < spare set.old → IsOk result }
    ensures spare { spare set.old ≤ spare set.new + 1 }
    ensures hasher { hasher_of set.new ≡ hasher_of set.old }
    ensures unique { IsUnique T.eq set.new }
{
    match set.insert(key) {
        Ok(added) => Ok(added),
        Err(_) => Err(OutOfMemory::new()),
    }
}
