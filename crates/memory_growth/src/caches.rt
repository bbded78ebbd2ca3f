//! Growth of caches that keep the order of use.
ghost use Rattle.std.specs.Prelude.{◌≡◌, ◌-◌, ◌<◌, ◌^◌, [], length, IsSome, IsOk, IfOk, OnOk, OnErr};
ghost use Rattle.std.specs.Map.{lookup};
ghost use Rattle.lru.specs.LruCache.{lru_cache, put_entries, IsValid};

use crate::OutOfMemory;
use lru::LruCache;
use std::alloc::Global;
use std::hash::Hash;

/// An empty cache without a bound.
pub fn unbounded<K: Hash + Eq + Drop, V: Drop>(alloc: Global) -> Result<LruCache<K, V>, OutOfMemory>
    ensures { IfOk result (λ cache. cache ≡ lru_cache [] (2 ^ 64 - 1)) }
{
    match LruCache::unbounded(alloc) {
        Ok(cache) => Ok(cache),
        Err(_) => Err(OutOfMemory::new()),
    }
}

/// Sets the value of a key, which is then the most recently used, and returns its old one. A refusal leaves the cache as it was.
pub fn put<K: Hash + Eq + Drop, V: Drop>(
    cache: &mut LruCache<K, V>,
    key: K,
    value: V,
) -> Result<Option<V>, OutOfMemory>
    ensures old { IfOk result (λ old. old ≡ lookup (K.eq key) cache.old.entries) }
    ensures entries { OnOk result (cache.new ≡ lru_cache (put_entries K.eq cache.old key value) cache.old.cap) }
    ensures err { OnErr result (cache.new ≡ cache.old) }
{
    match cache.put(key, value) {
        Ok(old) => Ok(old),
        Err(_) => Err(OutOfMemory::new()),
    }
}

/// That a cache is one that a memory can hold: it has fewer than 2^60 entries. Another would be refused as its growth should have been.
pub fn check_countable<K: Hash + Eq, V>(cache: &LruCache<K, V>) -> Result<(), OutOfMemory>
    ensures fewer { OnOk result (length cache.now.entries < 2 ^ 60) }
    ensures succeeds { length cache.now.entries < 2 ^ 60 → IsOk result }
    ensures valid { IsValid K.eq cache.now }
{
    if cache.len() < 1 << 60 {
        return Ok(());
    }
    Err(OutOfMemory::new())
}
