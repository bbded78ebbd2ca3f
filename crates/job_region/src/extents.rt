//! The extents of a window by rising offset, and beside them the buffer of each.
ghost use Rattle.std.specs.Prelude.{◌≡◌, ◌≢◌, ◌+◌, ◌^◌, ◌<◌, ◌≤◌, [], Some, true, false, nat_eq, OnOk, IsSome, IsSomeAnd, unwrap_or, length, vec_capacity, find, slice_index_or};
ghost use Rattle.std.specs.List.Sorted.{IsNonDecreasingBy};
ghost use Rattle.obj_id.specs.declared.works.Extent.{Extent};
ghost use Rattle.std.specs.Map.{lookup, remove_entry, set_value};
ghost use Rattle.private_store.specs.rules.Contents.{overwritten};
ghost use Rattle.job_region.specs.Region.{put_in};
ghost use Rattle.job_region.specs.Layout.{LaidFrom, AreFilled, zipped, LiesBefore, After, gap, gap_among, staying, put_extent, without_extent, last_end, first_start};

use crate::buffer::Buffer;
use crate::spent::Spent;
use bytes::Bytes;
use hashed_bytes::Hashed;
use memory_growth::{OutOfMemory, lists};
use obj_id::Extent;
use std::alloc::Global;

/// How many extents begin before an offset.
pub(crate) fn place_of(extents: &[Extent], offset: u64) -> usize
    requires { IsNonDecreasingBy (λ (e : Extent). e.offset) extents.now }
    ensures within { result ≤ length extents.now }
    ensures before { LiesBefore offset extents.now result }
    ensures after { After offset extents.now result }
{
    extents.partition_point(|e| e.offset < offset)
}

/// Whether the extent at a place begins at an offset.
fn is_at(extents: &[Extent], place: usize, offset: u64) -> bool
    ensures yes { result ≡ true → (place < length extents.now) × ((d : Extent) → (slice_index_or extents.now place d).offset ≡ offset) }
    ensures no { result ≡ false → place < length extents.now → (d : Extent) → (slice_index_or extents.now place d).offset ≢ offset }
{
    match extents.get(place) {
        Some(extent) => extent.offset == offset,
        None => false,
    }
}

/// Makes room for one extent more, with its buffer.
pub(crate) fn reserve_places(
    extents: &mut Vec<Extent>,
    buffers: &mut Vec<Buffer>,
) -> Result<(), OutOfMemory>
    ensures extents { extents.new.items ≡ extents.old.items }
    ensures buffers { buffers.new.items ≡ buffers.old.items }
    ensures ok { OnOk result ((length extents.new.items < vec_capacity extents.new) × (length buffers.new.items < vec_capacity buffers.new)) }
{
    lists::reserve(extents, 1)?;
    lists::reserve(buffers, 1)?;
    Ok(())
}

/// Puts an extent in its place, with its buffer.
pub(crate) fn put(
    extents: &mut Vec<Extent>,
    buffers: &mut Vec<Buffer>,
    extent: Extent,
    buffer: Buffer,
)
    requires rising { IsNonDecreasingBy (λ (e : Extent). e.offset) extents.old.items }
    requires filled { AreFilled extents.old.items buffers.old.items }
    requires fits { length buffer ≡ extent.length }
    requires room { (length extents.old.items < vec_capacity extents.old) × (length buffers.old.items < vec_capacity buffers.old) }
    ensures extents { extents.new.items ≡ put_extent extent extents.old.items }
    ensures filled { AreFilled extents.new.items buffers.new.items }
    ensures placed { zipped extents.new.items buffers.new.items ≡ put_in (extent.offset, buffer) (zipped extents.old.items buffers.old.items) }
{
    let at = place_of(extents, extent.offset);
    lists::insert(extents, at, extent).unwrap();
    lists::insert(buffers, at, buffer).unwrap();
}

/// Takes out the extent at an offset, if there is one. Its buffer is kept apart.
pub(crate) fn take_out(
    extents: &mut Vec<Extent>,
    buffers: &mut Vec<Buffer>,
    spent: &mut Spent,
    offset: u64,
) -> Option<Extent>
    requires rising { IsNonDecreasingBy (λ (e : Extent). e.offset) extents.old.items }
    requires filled { AreFilled extents.old.items buffers.old.items }
    ensures left { extents.new.items ≡ without_extent offset extents.old.items }
    ensures taken { result ≡ find (λ e. nat_eq offset e.offset) extents.old.items }
    ensures capacity { vec_capacity extents.new ≡ vec_capacity extents.old }
    ensures filled { AreFilled extents.new.items buffers.new.items }
    ensures placed { zipped extents.new.items buffers.new.items ≡ remove_entry (nat_eq offset) (zipped extents.old.items buffers.old.items) }
    ensures room { vec_capacity buffers.new ≡ vec_capacity buffers.old }
{
    let at = place_of(extents, offset);
    if !is_at(extents, at, offset) {
        return None;
    }
    let extent = extents.remove(at);
    spent.keep(buffers.remove(at));
    Some(extent)
}

/// The buffer of the extent at an offset.
pub(crate) fn buffer_at<'a>(extents: &[Extent], buffers: &'a Vec<Buffer>, offset: u64) -> &'a Buffer
    requires rising { IsNonDecreasingBy (λ (e : Extent). e.offset) extents.now }
    requires filled { AreFilled extents.now buffers.now.items }
    requires there { IsSome (lookup (nat_eq offset) (zipped extents.now buffers.now.items)) }
    ensures { lookup (nat_eq offset) (zipped extents.now buffers.now.items) ≡ Some result.now }
{
    let at = place_of(extents, offset);
    &buffers[at]
}

/// Freezes it.
pub(crate) fn freeze_at(extents: &[Extent], buffers: &mut Vec<Buffer>, offset: u64, alloc: Global)
    requires rising { IsNonDecreasingBy (λ (e : Extent). e.offset) extents.now }
    requires filled { AreFilled extents.now buffers.old.items }
    requires there { IsSome (lookup (nat_eq offset) (zipped extents.now buffers.old.items)) }
    ensures { buffers.new.items ≡ buffers.old.items }
{
    let at = place_of(extents, offset);
    buffers[at].freeze(alloc);
}

/// Takes bytes with their digest for it.
pub(crate) fn expect_at(extents: &[Extent], buffers: &mut Vec<Buffer>, offset: u64, hashed: Hashed)
    requires rising { IsNonDecreasingBy (λ (e : Extent). e.offset) extents.now }
    requires filled { AreFilled extents.now buffers.old.items }
    requires there { IsSome (lookup (nat_eq offset) (zipped extents.now buffers.old.items)) }
    ensures { buffers.new.items ≡ buffers.old.items }
{
    let at = place_of(extents, offset);
    buffers[at].expect(hashed);
}

/// Compares the next part of them.
pub(crate) fn compare_at(extents: &[Extent], buffers: &mut Vec<Buffer>, offset: u64) -> bool
    requires rising { IsNonDecreasingBy (λ (e : Extent). e.offset) extents.now }
    requires filled { AreFilled extents.now buffers.old.items }
    requires there { IsSome (lookup (nat_eq offset) (zipped extents.now buffers.old.items)) }
    ensures { buffers.new.items ≡ buffers.old.items }
{
    let at = place_of(extents, offset);
    buffers[at].compare()
}

/// Lets it have these bytes, and gives what was its own.
pub(crate) fn adopt_at(
    extents: &[Extent],
    buffers: &mut Vec<Buffer>,
    offset: u64,
    alloc: Global,
    bytes: Bytes,
) -> Option<Vec<u8>>
    requires rising { IsNonDecreasingBy (λ (e : Extent). e.offset) extents.now }
    requires filled { AreFilled extents.now buffers.old.items }
    requires there { IsSomeAnd (lookup (nat_eq offset) (zipped extents.now buffers.old.items)) (λ old. length bytes ≡ length old) }
    ensures filled { AreFilled extents.now buffers.new.items }
    ensures placed { zipped extents.now buffers.new.items ≡ set_value (nat_eq offset) (zipped extents.now buffers.old.items) bytes }
{
    let at = place_of(extents, offset);
    buffers[at].adopt(alloc, bytes)
}

/// Writes bytes into it, from an offset in it on.
pub(crate) fn write_at(
    extents: &[Extent],
    buffers: &mut Vec<Buffer>,
    offset: u64,
    off: usize,
    bytes: &[u8],
)
    requires rising { IsNonDecreasingBy (λ (e : Extent). e.offset) extents.now }
    requires filled { AreFilled extents.now buffers.old.items }
    requires there { IsSomeAnd (lookup (nat_eq offset) (zipped extents.now buffers.old.items)) (λ old. off + length bytes.now ≤ length old) }
    ensures filled { AreFilled extents.now buffers.new.items }
    ensures placed { zipped extents.now buffers.new.items ≡ set_value (nat_eq offset) (zipped extents.now buffers.old.items) (overwritten (unwrap_or (lookup (nat_eq offset) (zipped extents.now buffers.old.items)) []) off bytes.now) }
{
    let at = place_of(extents, offset);
    buffers[at].write(off, bytes);
}

/// Where the last of these extents ends, or `at` if there is none.
pub(crate) fn end_of_last(at: u64, extents: &[Extent]) -> u64
    requires { last_end at extents.now < 2 ^ 64 }
    ensures { result ≡ last_end at extents.now }
{
    match extents.last() {
        Some(last) => last.offset + last.length,
        None => at,
    }
}

/// Where the first of these extents begins, or the quota if there is none.
pub(crate) fn start_of_first(extents: &[Extent], quota: u64) -> u64
    ensures { result ≡ first_start quota extents.now }
{
    match extents.first() {
        Some(first) => first.offset,
        None => quota,
    }
}

/// Where so many bytes go once these extents are gone, if they go to `found` before. Only what the extents
/// that go join is looked at.
pub(crate) fn least_without(
    extents: &[Extent],
    found: Option<u64>,
    gone: &[Extent],
    need: u64,
    quota: u64,
) -> Option<u64>
    requires laid { LaidFrom quota 0 extents.now }
    requires small { quota < 2 ^ 29 }
    requires rising { IsNonDecreasingBy (λ (e : Extent). e.offset) gone.now }
    requires found { found ≡ gap quota need 0 extents.now }
    ensures { result ≡ gap quota need 0 (staying gone.now extents.now) }
{
    let mut least = found;
    // Where the free bytes begin that end at the next extent that stays.
    let mut start = 0;
    let mut next = 0;
    for e in gone {
        let rest = &extents[next..];
        let passed = place_of(rest, e.offset);
        if !is_at(rest, passed, e.offset) {
            continue;
        }
        start = end_of_last(start, &rest[..passed]);
        next = next + passed + 1;
        let end = start_of_first(&extents[next..], quota);
        least = with_gap(least, start, end, need);
    }
    least
}

/// The lesser of the least place so far and `start`, if so many bytes fit from there to `end`.
fn with_gap(least: Option<u64>, start: u64, end: u64, need: u64) -> Option<u64>
    requires { start ≤ end }
    ensures { result ≡ gap_among least start end need }
{
    if end - start < need {
        return least;
    }
    match least {
        Some(offset) => Some(offset.min(start)),
        None => Some(start),
    }
}
