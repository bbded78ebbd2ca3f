//! Growth of maps that are in the order of their keys.
ghost use Rattle.std.specs.Prelude.{◌≡◌, ◌+◌, is_some, IsSome, Some, None, IfOk, OnOk, OnErr, if◌then◌else◌};
ghost use Rattle.std.specs.BTreeMap.{keys, btree_map_len, get, insert_entry, IsOrdered, IsUnchanged, Updates};

use crate::OutOfMemory;
use std::collections::BTreeMap;

/// Sets the value of a key and returns its old one. A refusal leaves the map as it was.
pub fn insert<K: Ord + Drop, V: Drop>(
    map: &mut BTreeMap<K, V>,
    key: K,
    value: V,
) -> Result<Option<V>, OutOfMemory>
    ensures old { IfOk result (λ old. old ≡ get K.cmp map.old key) }
    ensures updates { OnOk result (Updates K.cmp map.old map.new key (Some value)) }
    ensures entries { OnOk result (map.new.entries ≡ insert_entry K.cmp map.old.entries key value) }
    ensures keys_stay { IfOk result (λ old. IsSome old → keys map.new ≡ keys map.old) }
    ensures len { IfOk result (λ old. btree_map_len map.new ≡ btree_map_len map.old + (if is_some old then 0 else 1)) }
    ensures absent { OnErr result (get K.cmp map.old key ≡ None) }
    ensures err { OnErr result (IsUnchanged map.old map.new) }
    ensures ordered { IsOrdered K.cmp map.new }
    ensures was_ordered { IsOrdered K.cmp map.old }
{
    match map.insert(key, value) {
        Ok(old) => Ok(old),
        Err(_) => Err(OutOfMemory::new()),
    }
}
