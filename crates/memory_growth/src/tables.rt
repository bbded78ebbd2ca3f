//! Growth of tables that keep the order of their entries.
ghost use Rattle.std.specs.Prelude.{◌≡◌, ◌+◌, ◌<◌, ◌≤◌, is_some, Some, None, IsOk, IfOk, OnOk, OnErr, if◌then◌else◌};
ghost use Rattle.indexmap.specs.IndexMap.{index_map_len, spare, hasher_of, get, insert_entry, IsUnique, IsUnchanged, KeepsRoom, Updates};

use crate::OutOfMemory;
use indexmap::IndexMap;
use std::hash::Hash;

/// Room for so many more entries, at most `MOST_ROOM`. The entries stay, whatever the answer.
pub fn reserve<K: Hash + Eq, V>(
    table: &mut IndexMap<K, V>,
    additional: usize,
) -> Result<(), OutOfMemory>
    requires { additional ≤ 268435456 }
    ensures entries { IsUnchanged table.old table.new }
    ensures ok { OnOk result (additional ≤ spare table.new) }
    ensures succeeds { additional ≤ spare table.old → IsOk result }
    ensures room { KeepsRoom table.old table.new }
    ensures unique { IsUnique K.eq table.new }
{
    match table.reserve(additional) {
        Ok(()) => Ok(()),
        Err(_) => Err(OutOfMemory::new()),
    }
}

/// Room for so many more entries, whatever their number: for messages that a step may send, of which no constant says how many they are.
/// The entries stay, whatever the answer.
pub fn reserve_any<K: Hash + Eq, V>(
    table: &mut IndexMap<K, V>,
    additional: usize,
) -> Result<(), OutOfMemory>
    ensures entries { IsUnchanged table.old table.new }
    ensures ok { OnOk result (additional ≤ spare table.new) }
    ensures succeeds { additional ≤ spare table.old → IsOk result }
    ensures room { KeepsRoom table.old table.new }
    ensures unique { IsUnique K.eq table.new }
{
    match table.reserve(additional) {
        Ok(()) => Ok(()),
        Err(_) => Err(OutOfMemory::new()),
    }
}

/// Sets the value of a key and returns its old one. A refusal leaves the table as it was.
pub fn insert<K: Hash + Eq + Drop, V: Drop>(
    table: &mut IndexMap<K, V>,
    key: K,
    value: V,
) -> Result<Option<V>, OutOfMemory>
    ensures old { IfOk result (λ old. old ≡ get K.eq table.old key) }
    ensures updates { OnOk result (Updates K.eq table.old table.new key (Some value)) }
    ensures entries { OnOk result (table.new.entries ≡ insert_entry K.eq table.old.entries key value) }
    ensures len { IfOk result (λ old. index_map_len table.new ≡ index_map_len table.old + (if is_some old then 0 else 1)) }
    ensures err { OnErr result (IsUnchanged table.old table.new) }
    ensures absent { OnErr result (get K.eq table.old key ≡ None) }
    ensures succeeds { 0 < spare table.old → IsOk result }
    ensures spare { spare table.old ≤ spare table.new + 1 }
    ensures hasher { hasher_of table.new ≡ hasher_of table.old }
    ensures unique { IsUnique K.eq table.new }
{
    match table.insert(key, value) {
        Ok(old) => Ok(old),
        Err(_) => Err(OutOfMemory::new()),
    }
}
