//! Where an object goes in the window if some copies are not there.
ghost use Rattle.std.specs.List.Sorted.{IsPermutation, IsNonDecreasingBy};
ghost use Rattle.obj_id.specs.declared.works.Extent.{Extent};
ghost use Rattle.std.specs.Prelude.{◌≡◌, ◌++◌, ◌≤◌, if◌then◌else◌, None, is_some, take, false, IfOk, IfSome, IfNone, OnOk};
ghost use Rattle.std.specs.Option.{option_map};
ghost use Rattle.obj_id.specs.declared.ids.ObjectId.{ObjectId};
ghost use Rattle.private_store.specs.rules.Tables.{is_among as is_among_lem};
ghost use Rattle.private_store.specs.rules.Copies.{extent_of as extent_of_lem};
ghost use Rattle.private_store.specs.rules.Limits.{widest_window};
ghost use Rattle.private_store.specs.rules.Room.{offset_without, shortest as shortest_lem};
ghost use Rattle.plain_store.specs.Fits.{extents_left as extents_left_lem, is_room_without, IsBracket};

use crate::copies::PlainCopy;
use crate::first_fit::first;
use crate::store::PlainStore;
use memory_growth::{OutOfMemory, lists};
use obj_id::{Extent, ObjectId};
use std::alloc::Global;
use std::collections::BTreeMap;

/// Whether the id is one of these.
pub(crate) fn is_among(ids: &[ObjectId], id: ObjectId) -> bool
    ensures { result ≡ is_among_lem ids.now id }
{
    ids.contains(&id)
}

/// The extent of a resident copy that is none of those that are out.
fn extent_left(out: &[ObjectId], id: ObjectId, copy: &PlainCopy) -> Option<Extent>
    ensures { result ≡ (if is_among_lem out.now id then None else extent_of_lem copy.now) }
{
    if is_among(out, id) {
        return None;
    }
    copy.extent_of()
}

/// The extents of the copies but for those that are out, in order of id.
fn extents_left(
    alloc: Global,
    copies: &BTreeMap<ObjectId, PlainCopy>,
    out: &[ObjectId],
) -> Result<Vec<Extent>, OutOfMemory>
    ensures { IfOk result (λ extents. extents.items ≡ extents_left_lem out.now copies.now.entries) }
{
    let mut extents = Vec::new(alloc);
    for (id, copy) in copies {
        if let Some(extent) = extent_left(out, *id, copy) {
            lists::push(&mut extents, extent)?;
        }
    }
    Ok(extents)
}

/// The extents by rising offset. Takes no memory.
fn sort_extents(extents: &mut Vec<Extent>)
    ensures permutation { IsPermutation extents.old.items extents.new.items }
    ensures rising { IsNonDecreasingBy (λ (e : Extent). e.offset) extents.new.items }
{
    extents.sort_unstable_by_key(|extent| extent.offset);
}

/// How many of a list have to go: fewer than `least` are too few, and the first `most` are enough.
struct Bracket {
    least: usize,
    most: usize,
}

impl PlainStore {
    /// Where an object of `length` bytes would go if these copies were not there. Takes a walk over the copies with one
    /// over `out` each, a sort, and memory for the extents. The error is out of memory.
    pub(crate) fn offset_without(
        &self,
        alloc: Global,
        length: u32,
        out: &[ObjectId],
    ) -> Result<Option<u32>, OutOfMemory>
        requires { self.now.shape.quota.window ≤ widest_window }
        ensures { IfOk result (λ offset. offset ≡ offset_without self.now.shape length out.now) }
    {
        let mut extents = extents_left(alloc, &self.copies, out)?;
        sort_extents(&mut extents);
        Ok(first(&extents, self.quota.window, length))
    }

    /// Whether an object of `length` bytes would have room if these copies were not there, and these. The error is out of memory.
    fn has_room_without(
        &self,
        alloc: Global,
        length: u32,
        out: &[ObjectId],
        ids: &[ObjectId],
    ) -> Result<bool, OutOfMemory>
        requires { self.now.shape.quota.window ≤ widest_window }
        ensures { IfOk result (λ has. has ≡ is_room_without self.now.shape length out.now ids.now) }
    {
        let mut gone = lists::copied(alloc, out)?;
        lists::extend_from_slice(&mut gone, ids)?;
        let offset = self.offset_without(alloc, length, &gone)?;
        Ok(offset.is_some())
    }

    /// How many of the ids have to go, beside those that are out already, for an object of `length` bytes to have room. `None` if all of them
    /// are too few. Tries none, one, three, and so on. The error is out of memory.
    fn bracket(
        &self,
        alloc: Global,
        length: u32,
        out: &[ObjectId],
        ids: &[ObjectId],
    ) -> Result<Option<Bracket>, OutOfMemory>
        requires { self.now.shape.quota.window ≤ widest_window }
        ensures some { IfOk result (λ found. IfSome found (λ b. IsBracket self.now.shape length out.now ids.now b.least b.most)) }
        ensures none { IfOk result (λ found. IfNone found (is_room_without self.now.shape length out.now ids.now ≡ false)) }
    {
        let (mut least, mut most) = (0, 0);
        while most < ids.len() {
            if self.has_room_without(alloc, length, out, &ids[..most])? {
                return Ok(Some(Bracket { least, most }));
            }
            least = most + 1;
            most = (most + most + 1).min(ids.len());
        }
        if self.has_room_without(alloc, length, out, ids)? {
            Ok(Some(Bracket {
                least,
                most: ids.len(),
            }))
        } else {
            Ok(None)
        }
    }

    /// The same, with no doubt left. Tries as often as the doubt can be halved. The error is out of memory.
    fn bisect(
        &self,
        alloc: Global,
        length: u32,
        out: &[ObjectId],
        ids: &[ObjectId],
        bracket: Bracket,
    ) -> Result<usize, OutOfMemory>
        requires window { self.now.shape.quota.window ≤ widest_window }
        requires bracket { IsBracket self.now.shape length out.now ids.now bracket.least bracket.most }
        ensures { IfOk result (λ count. IsBracket self.now.shape length out.now ids.now count count) }
    {
        let Bracket {
            mut least,
            mut most,
        } = bracket;
        while least < most {
            let middle = least + (most - least) / 2;
            if self.has_room_without(alloc, length, out, &ids[..middle])? {
                most = middle;
            } else {
                least = middle + 1;
            }
        }
        Ok(most)
    }

    /// The shortest beginning of the ids without which, and without those that are out already, an object of `length`
    /// bytes has room. `None` if there is none. If few have to go, few are tried: with more gone there is room, too. The error is out of memory.
    pub(crate) fn shortest(
        &self,
        alloc: Global,
        length: u32,
        out: &[ObjectId],
        ids: &[ObjectId],
    ) -> Result<Option<Vec<ObjectId>>, OutOfMemory>
        requires { self.now.shape.quota.window ≤ widest_window }
        ensures { IfOk result (λ taken. option_map (λ v. v.items) taken ≡ shortest_lem (is_room_without self.now.shape length out.now) ids.now) }
    {
        let Some(bracket) = self.bracket(alloc, length, out, ids)? else {
            return Ok(None);
        };
        let count = self.bisect(alloc, length, out, ids, bracket)?;
        Ok(Some(lists::copied(alloc, &ids[..count])?))
    }
}
