//! The shortest beginning of a walk without which the bytes fit.
ghost use Rattle.std.specs.Prelude.{◌≡◌, ◌-◌, ◌≤◌, take, length, true, false, IfOk, OnOk, IfSome, IfNone};
ghost use Rattle.std.specs.Option.{option_map};
ghost use Rattle.std.specs.List.Sorted.{IsPermutation, IsNonDecreasingBy};
ghost use Rattle.obj_id.specs.declared.works.Extent.{Extent};
ghost use Rattle.private_store.specs.rules.Room.{shortest as shortest_beginning};
ghost use Rattle.lru_evictor.specs.declared.search.Leaving.{Leaving};
ghost use Rattle.use_tree.specs.declared.classes.VictimClass.TheVariants.{Evictable};
ghost use Rattle.lru_evictor.specs.Facts.{chosen, passes_at, extent_at, gone_of, fits_without as is_room_without};
ghost use Rattle.lru_evictor.specs.Searches.{AreEnough};
ghost use Rattle.lru_evictor.specs.Leavings.{leaving_of as all_leaving, firsts, fits_first as is_room_first};

use crate::candidates::Candidates;
use crate::facts::CopyLookup;
use job_region::Window;
use memory_growth::{OutOfMemory, lists};
use obj_id::{Extent, ObjectId};
use std::alloc::Global;

/// Whether the copy of the id may be evicted, if there is one.
fn is_evictable<C: CopyLookup>(copies: &C, id: &ObjectId) -> bool
    ensures { result ≡ passes_at (C.facts copies.now) Evictable id.now }
{
    match copies.facts(id) {
        Some(facts) => facts.evictable,
        None => false,
    }
}

/// Where the copy of the id lies, if there is one and it is resident.
pub(crate) fn extent_of<C: CopyLookup>(copies: &C, id: &ObjectId) -> Option<Extent>
    ensures { result ≡ extent_at (C.facts copies.now) id.now }
{
    copies.facts(id)?.extent
}

/// The extents of resident copies, in the order of the ids.
fn extents_of<C: CopyLookup>(
    alloc: Global,
    copies: &C,
    ids: &[ObjectId],
) -> Result<Vec<Extent>, OutOfMemory>
    ensures { IfOk result (λ v. v.items ≡ gone_of (C.facts copies.now) ids.now) }
{
    let mut extents = Vec::new(alloc);
    for id in ids {
        if let Some(extent) = extent_of(copies, id) {
            lists::push(&mut extents, extent)?;
        }
    }
    Ok(extents)
}

/// The extents of resident copies, by rising offset.
pub fn extents_by_offset<C: CopyLookup>(
    alloc: Global,
    copies: &C,
    ids: &[ObjectId],
) -> Result<Vec<Extent>, OutOfMemory>
    ensures permutation { IfOk result (λ v. IsPermutation (gone_of (C.facts copies.now) ids.now) v.items) }
    ensures rising { IfOk result (λ v. IsNonDecreasingBy (λ (e : Extent). e.offset) v.items) }
{
    let mut extents = extents_of(alloc, copies, ids)?;
    sort_extents(&mut extents);
    Ok(extents)
}

/// The extents by rising offset.
fn sort_extents(extents: &mut Vec<Extent>)
    ensures permutation { IsPermutation extents.old.items extents.new.items }
    ensures rising { IsNonDecreasingBy (λ (e : Extent). e.offset) extents.new.items }
{
    extents.sort_unstable_by_key(|e| e.offset);
}

/// The extent of a copy that may go, and the copy's place in the order in which they go.
#[derive(Clone, Copy, Debug)]
struct Leaving {
    extent: Extent,
    place: usize,
}

/// The extents of resident copies in the order of the ids, each with its copy's place in that.
fn leaving_of<C: CopyLookup>(
    alloc: Global,
    copies: &C,
    ids: &[ObjectId],
) -> Result<Vec<Leaving>, OutOfMemory>
    ensures { IfOk result (λ v. v.items ≡ all_leaving (C.facts copies.now) 0 ids.now) }
{
    let mut leaving = Vec::new(alloc);
    let mut place = 0;
    for id in ids {
        if let Some(extent) = extent_of(copies, id) {
            lists::push(&mut leaving, Leaving { extent, place })?;
        }
        place += 1;
    }
    Ok(leaving)
}

/// The extents by rising offset.
fn sort_leaving(leaving: &mut Vec<Leaving>)
    ensures permutation { IsPermutation leaving.old.items leaving.new.items }
    ensures rising { IsNonDecreasingBy (λ (l : Leaving). l.extent.offset) leaving.new.items }
{
    leaving.sort_unstable_by_key(|l| l.extent.offset);
}

/// The extents of the first `count` copies, in the order in which all are given.
fn first_extents(
    alloc: Global,
    leaving: &[Leaving],
    count: usize,
) -> Result<Vec<Extent>, OutOfMemory>
    ensures { IfOk result (λ v. v.items ≡ firsts count leaving.now) }
{
    let mut extents = Vec::new(alloc);
    for l in leaving {
        if l.place < count {
            lists::push(&mut extents, l.extent)?;
        }
    }
    Ok(extents)
}

/// Whether so many bytes would fit if the first `count` copies were not there. Takes no look-up and no sort.
fn fits_first(
    alloc: Global,
    window: &Window,
    leaving: &[Leaving],
    count: usize,
    len: u32,
) -> Result<bool, OutOfMemory>
    requires { IsNonDecreasingBy (λ (l : Leaving). l.extent.offset) leaving.now }
    ensures { IfOk result (λ b. b ≡ is_room_first window.now len leaving.now count) }
{
    let gone = first_extents(alloc, leaving, count)?;
    Ok(window.fits_without(&gone, len).is_some())
}

/// How many copies have to go for so many bytes to fit, if the first `few` are too few and the first
/// `enough` are enough. Takes a test for each time that the distance is halved.
fn bisect(
    alloc: Global,
    window: &Window,
    leaving: &[Leaving],
    few: usize,
    enough: usize,
    len: u32,
) -> Result<usize, OutOfMemory>
    requires by_offset { IsNonDecreasingBy (λ (l : Leaving). l.extent.offset) leaving.now }
    requires rising { few ≤ enough }
    requires few { is_room_first window.now len leaving.now few ≡ false }
    requires enough { is_room_first window.now len leaving.now enough ≡ true }
    ensures { IfOk result (λ k. (k ≤ enough) × (is_room_first window.now len leaving.now k ≡ true) × (is_room_first window.now len leaving.now (k - 1) ≡ false)) }
{
    let (mut few, mut enough) = (few, enough);
    while enough - few > 1 {
        let middle = few + (enough - few) / 2;
        if fits_first(alloc, window, leaving, middle, len)? {
            enough = middle;
        } else {
            few = middle;
        }
    }
    Ok(enough)
}

/// How many of these copies have to go for so many bytes to fit, if the first `few` are too few, or
/// `None` if all of them are. Takes one look-up for each and one sort, however many tests it takes.
fn needed<C: CopyLookup>(
    alloc: Global,
    window: &Window,
    copies: &C,
    ids: &[ObjectId],
    few: usize,
    len: u32,
) -> Result<Option<usize>, OutOfMemory>
    requires within { few ≤ length ids.now }
    requires few { is_room_without window.now (C.facts copies.now) len (take few ids.now) ≡ false }
    ensures found { IfOk result (λ r. IfSome r (AreEnough window.now (C.facts copies.now) len ids.now)) }
    ensures none { IfOk result (λ r. IfNone r (is_room_without window.now (C.facts copies.now) len ids.now ≡ false)) }
{
    let mut leaving = leaving_of(alloc, copies, ids)?;
    sort_leaving(&mut leaving);
    let all = ids.len();
    if fits_first(alloc, window, &leaving, all, len)? {
        let count = bisect(alloc, window, &leaving, few, all, len)?;
        Ok(Some(count))
    } else {
        Ok(None)
    }
}

/// The shortest beginning of the copies that may be evicted without which so many bytes fit; `None` if all of them are too few.
///
/// Looks at one chosen copy, two, four and so on, each time with one look-up of each and one sort, and if these
/// are enough finds how many are by bisection, which takes neither.
pub(crate) fn shortest<C: CopyLookup>(
    alloc: Global,
    candidates: Candidates<'_>,
    window: &Window,
    copies: &C,
    len: u32,
) -> Result<Option<Vec<ObjectId>>, OutOfMemory>
    ensures { IfOk result (λ r. option_map (λ v. v.items) r ≡ shortest_beginning (is_room_without window.now (C.facts copies.now) len) (chosen (C.facts copies.now) Evictable candidates.entry)) }
{
    let mut ids = Vec::new(alloc);
    if window.fits_without(&[], len).is_some() {
        return Ok(Some(ids));
    }
    let mut few = 0;
    // How many more are chosen before the next test.
    let mut left = 1;
    for id in candidates {
        if !is_evictable(copies, &id) {
            continue;
        }
        lists::push(&mut ids, id)?;
        left -= 1;
        if left == 0 {
            if let Some(count) = needed(alloc, window, copies, &ids, few, len)? {
                ids.truncate(count);
                return Ok(Some(ids));
            }
            few = ids.len();
            left = few;
        }
    }
    let count = needed(alloc, window, copies, &ids, few, len)?;
    Ok(beginning(ids, count))
}

/// The first so many of these.
fn beginning(ids: Vec<ObjectId>, count: Option<usize>) -> Option<Vec<ObjectId>>
    ensures { option_map (λ v. v.items) result ≡ option_map (λ k. take k ids.items) count }
{
    let mut ids = ids;
    ids.truncate(count?);
    Some(ids)
}
