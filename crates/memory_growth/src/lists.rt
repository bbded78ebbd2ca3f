//! Growth of lists.
ghost use Rattle.std.specs.Prelude.{◌≡◌, ℕ, ◌+◌, ◌-◌, ◌<◌, ◌≤◌, ◌^◌, [], ◌∷◌, ◌++◌, length, List, ⊤, take, replicate, MatchResult, is_ok, IsOk, IfOk, OnOk, OnErr, if◌then◌else◌, slice_index_or, vec_len, vec_capacity};
ghost use Rattle.std.specs.List.{SameBelow, insert};
ghost use Rattle.std.specs.Iterator.{IsFinite, DrainsIf};

use crate::OutOfMemory;
use std::alloc::Global;

/// An empty list with room for so many items, at most `MOST_ROOM`.
pub fn with_capacity<T>(alloc: Global, capacity: usize) -> Result<Vec<T>, OutOfMemory>
    requires { capacity ≤ 268435456 }
    ensures items { IfOk result (λ list. list.items ≡ []) }
    ensures len { IfOk result (λ list. vec_len list ≡ 0) }
    ensures capacity { IfOk result (λ list. capacity ≤ vec_capacity list) }
    ensures exact { IfOk result (λ list. vec_capacity list ≡ capacity) }
    ensures succeeds { capacity ≡ 0 → IsOk result }
{
    match Vec::with_capacity(alloc, capacity) {
        Ok(list) => Ok(list),
        Err(_) => Err(OutOfMemory::new()),
    }
}

/// An empty list with room for as many items as another list has.
pub fn with_room_for<T, U>(alloc: Global, others: &[U]) -> Result<Vec<T>, OutOfMemory>
    ensures items { IfOk result (λ list. list.items ≡ []) }
    ensures len { IfOk result (λ list. vec_len list ≡ 0) }
    ensures capacity { IfOk result (λ list. length others.now ≤ vec_capacity list) }
    ensures exact { IfOk result (λ list. vec_capacity list ≡ length others.now) }
    ensures succeeds { length others.now ≡ 0 → IsOk result }
{
    match Vec::with_capacity(alloc, others.len()) {
        Ok(list) => Ok(list),
        Err(_) => Err(OutOfMemory::new()),
    }
}

/// An empty list with room for as many items as two other lists have together.
pub fn with_room_for_both<T, U, V>(
    alloc: Global,
    first: &[U],
    second: &[V],
) -> Result<Vec<T>, OutOfMemory>
    ensures items { IfOk result (λ list. list.items ≡ []) }
    ensures len { IfOk result (λ list. vec_len list ≡ 0) }
    ensures capacity { IfOk result (λ list. length first.now + length second.now ≤ vec_capacity list) }
{
    let Some(capacity) = first.len().checked_add(second.len()) else {
        return Err(OutOfMemory::new());
    };
    match Vec::with_capacity(alloc, capacity) {
        Ok(list) => Ok(list),
        Err(_) => Err(OutOfMemory::new()),
    }
}

/// Room for so many more items, at most `MOST_ROOM`. The items stay, whatever the answer.
pub fn reserve<T>(list: &mut Vec<T>, additional: usize) -> Result<(), OutOfMemory>
    requires { additional ≤ 268435456 }
    ensures items { list.new.items ≡ list.old.items }
    ensures len { vec_len list.new ≡ vec_len list.old }
    ensures ok { OnOk result (vec_len list.new + additional ≤ vec_capacity list.new) }
    ensures capacity { vec_capacity list.old ≤ vec_capacity list.new }
    ensures succeeds { vec_len list.old + additional ≤ vec_capacity list.old → IsOk result }
    ensures full { OnErr result (vec_capacity list.old < vec_len list.old + additional) }
    ensures err { OnErr result (vec_capacity list.new ≡ vec_capacity list.old) }
{
    match list.reserve(additional) {
        Ok(()) => Ok(()),
        Err(_) => Err(OutOfMemory::new()),
    }
}

/// Room for as many more items as another list has. The items stay, whatever the answer.
pub fn reserve_for<T, U>(list: &mut Vec<T>, others: &[U]) -> Result<(), OutOfMemory>
    ensures items { list.new.items ≡ list.old.items }
    ensures len { vec_len list.new ≡ vec_len list.old }
    ensures ok { OnOk result (vec_len list.new + length others.now ≤ vec_capacity list.new) }
    ensures capacity { vec_capacity list.old ≤ vec_capacity list.new }
    ensures succeeds { vec_len list.old + length others.now ≤ vec_capacity list.old → IsOk result }
    ensures full { OnErr result (vec_capacity list.old < vec_len list.old + length others.now) }
    ensures err { OnErr result (vec_capacity list.new ≡ vec_capacity list.old) }
{
    match list.reserve(others.len()) {
        Ok(()) => Ok(()),
        Err(_) => Err(OutOfMemory::new()),
    }
}

/// Adds an item at the end. A refusal leaves the list as it was.
pub fn push<T: Drop>(list: &mut Vec<T>, item: T) -> Result<(), OutOfMemory>
    ensures items { list.new.items ≡ (if is_ok result then list.old.items ++ item ∷ [] else list.old.items) }
    ensures len { vec_len list.new ≡ (if is_ok result then vec_len list.old + 1 else vec_len list.old) }
    ensures capacity { vec_capacity list.old ≤ vec_capacity list.new }
    ensures succeeds { vec_len list.old < vec_capacity list.old → IsOk result }
    ensures lower_bound { vec_len list.old ≤ vec_len list.new }
    ensures upper_bound { vec_len list.new ≤ vec_len list.old + 1 }
    ensures full { OnErr result (vec_capacity list.old ≤ vec_len list.old) }
    ensures by_index { SameBelow list.old.items list.new.items (vec_len list.old) × ((d : T) → IsOk result → slice_index_or list.new.items (vec_len list.old) d ≡ item) }
{
    match list.push(item) {
        Ok(()) => Ok(()),
        Err(_) => Err(OutOfMemory::new()),
    }
}

/// Puts an item at a place. A refusal leaves the list as it was.
pub fn insert<T: Drop>(list: &mut Vec<T>, index: usize, item: T) -> Result<(), OutOfMemory>
    requires { index ≤ vec_len list.old }
    ensures items { list.new.items ≡ (if is_ok result then insert list.old.items index item else list.old.items) }
    ensures len { vec_len list.new ≡ (if is_ok result then vec_len list.old + 1 else vec_len list.old) }
    ensures capacity { vec_capacity list.old ≤ vec_capacity list.new }
    ensures succeeds { vec_len list.old < vec_capacity list.old → IsOk result }
    ensures full { OnErr result (vec_capacity list.old ≤ vec_len list.old) }
    ensures by_index { ((d : T) → IsOk result → slice_index_or list.new.items index d ≡ item) × SameBelow list.old.items list.new.items index × ((k : ℕ) (d : T) → IsOk result → index < k → slice_index_or list.new.items k d ≡ slice_index_or list.old.items (k - 1) d) }
{
    match list.insert(index, item) {
        Ok(()) => Ok(()),
        Err(_) => Err(OutOfMemory::new()),
    }
}

/// Adds items at the end. A refusal leaves the list as it was.
pub fn extend_from_slice<T: Copy>(list: &mut Vec<T>, others: &[T]) -> Result<(), OutOfMemory>
    ensures items { list.new.items ≡ (if is_ok result then list.old.items ++ others.now else list.old.items) }
    ensures len { vec_len list.new ≡ (if is_ok result then vec_len list.old + length others.now else vec_len list.old) }
    ensures capacity { vec_capacity list.old ≤ vec_capacity list.new }
    ensures succeeds { vec_len list.old + length others.now ≤ vec_capacity list.old → IsOk result }
    ensures full { OnErr result (vec_capacity list.old < vec_len list.old + length others.now) }
    ensures by_index { SameBelow list.old.items list.new.items (vec_len list.old) × ((k : ℕ) (d : T) → IsOk result → vec_len list.old ≤ k → slice_index_or list.new.items k d ≡ slice_index_or others.now (k - vec_len list.old) d) }
{
    match list.extend_from_slice(others) {
        Ok(()) => Ok(()),
        Err(_) => Err(OutOfMemory::new()),
    }
}

/// Cuts a list to a number of items, or fills it up to it, to at most `MOST_ROOM`. A refusal leaves the list as it was.
pub fn resize<T: Copy>(list: &mut Vec<T>, n: usize, item: T) -> Result<(), OutOfMemory>
    requires { n ≤ 268435456 }
    ensures items { list.new.items ≡ (if is_ok result then take n list.old.items ++ replicate (n - vec_len list.old) item else list.old.items) }
    ensures len { vec_len list.new ≡ (if is_ok result then n else vec_len list.old) }
    ensures capacity { vec_capacity list.old ≤ vec_capacity list.new }
    ensures succeeds { n ≤ vec_capacity list.old → IsOk result }
    ensures full { OnErr result (vec_capacity list.old < n) }
    ensures by_index { ((k : ℕ) (d : T) → k < n → k < vec_len list.old → slice_index_or list.new.items k d ≡ slice_index_or list.old.items k d) × ((k : ℕ) (d : T) → IsOk result → vec_len list.old ≤ k → k < n → slice_index_or list.new.items k d ≡ item) }
{
    match list.resize(n, item) {
        Ok(()) => Ok(()),
        Err(_) => Err(OutOfMemory::new()),
    }
}

/// A copy of a list.
pub fn copied<T: Copy>(alloc: Global, items: &[T]) -> Result<Vec<T>, OutOfMemory>
    ensures items { IfOk result (λ list. list.items ≡ items.now) }
    ensures len { IfOk result (λ list. vec_len list ≡ length items.now) }
{
    match Vec::from_slice(alloc, items) {
        Ok(list) => Ok(list),
        Err(_) => Err(OutOfMemory::new()),
    }
}

/// A list of so many items that are the same, at most `MOST_ROOM`.
pub fn filled<T: Copy>(alloc: Global, item: T, len: usize) -> Result<Vec<T>, OutOfMemory>
    requires { len ≤ 268435456 }
    ensures { IfOk result (λ list. list.items ≡ replicate len item) }
{
    let mut list = with_capacity(alloc, len)?;
    resize(&mut list, len, item)?;
    Ok(list)
}

/// All that an iterator gives, in order.
pub fn collected<I: Iterator>(alloc: Global, iterator: I) -> Result<Vec<I::Item>, OutOfMemory>
where
    I: Drop,
    I::Item: Drop,
    requires can { I.can_next iterator }
    requires finite { IsFinite (I.remaining iterator) }
    ensures ran { MatchResult result (λ list. (items : List I.Item) × DrainsIf I.next_gives ⊤ iterator items × ((list.items ≡ items) × (vec_len list ≡ length items))) (λ _. ⊤) }
{
    match iterator.collect(alloc) {
        Ok(list) => Ok(list),
        Err(_) => Err(OutOfMemory::new()),
    }
}
