//! The copies of a job, by their ids.
ghost use Rattle.std.specs.Option.{option_copied, option_map_or};
ghost use Rattle.std.specs.Borrow.{MutBor};
ghost use Rattle.private_store.specs.rules.Tables.{ById, at, with_entry, without_entry};
ghost use Rattle.job_row.specs.Entries.{changed, all_changed, each_changed};
ghost use Rattle.row_copy.specs.CopyViews.{after_release, after_leave, spill_begun_if, after_borrow, CopyView};
ghost use Rattle.row_copy.specs.Marks.{marked_by, CanTake};
ghost use Rattle.private_store.specs.rules.Marks.{without_borrower};
ghost use Rattle.private_store.specs.rules.Copies.{in_scope};
ghost use Rattle.job_row.specs.Evicting.{has_secondary, evicted_one, all_evicted};
ghost use Rattle.obj_id.specs.declared.refusals.Refusal.{Refusal};
ghost use Rattle.memory_growth.specs.declared.OutOfMemory.{OutOfMemory};
ghost use Rattle.obj_id.specs.declared.refusals.Failure.TheVariants.{Refused, Memory};
ghost use Rattle.job_row.specs.Checks.{release_check, borrow_check};
ghost use Rattle.job_row.specs.Dropping.{is_over_at, settled_copies, over_copy};
ghost use Rattle.job_row.specs.Scope.{removal_notice_at};
ghost use Rattle.job_row.specs.EndingTasks.{copies_ungranted, is_doomed_at, borrows_at};
ghost use Rattle.job_row.specs.Holding.{IsHeldAt, IsUnreadyAt, IsHoldRefusedAt};
ghost use Rattle.std.specs.Prelude.{◌≡◌, ◌<◌, ◌^◌, [], false, Some, None, OnOk, OnErr, IsOk, IsErrOf, IfOk, IfErr, IfSome, IfNone, map, length, is_some, IsTrue};
ghost use Rattle.std.specs.FinMap.{is_sorted};
ghost use Rattle.obj_id.specs.Ids.{id_cmp};
ghost use Rattle.row_copy.specs.Usages.{own_item_of, window_bytes as window_bytes_lem, device_bytes as device_bytes_lem, doomed_one};
ghost use Rattle.job_row.specs.Usages.{total};
ghost use Rattle.job_row.specs.InSync.{facts_in, InSync, NoneIsGone, KeepPlaces};
ghost use Rattle.lru_evictor.specs.Facts.{info_at};
ghost use Rattle.lru_evictor.specs.Orders.{order_ids};
ghost use Rattle.row_copy.specs.Arriving.{after_located, asks, fills, lacks_only};

use crate::footprint::{Footprint, to_u64};
use crate::standing::{AfterChange, Held, Settled, after_change, borrow, facts, hold, release};
use indexmap::IndexMap;
use lru_evictor::{CopyFacts, CopyLookup, EvictionInfo, UseOrder};
use memory_growth::{OutOfMemory, lists, tables};
use obj_id::{
    ChunkIndex, DirectoryMessage, Failure, FetchNo, ItemList, Location, NodeNo, ObjectId, OwnItem,
    Refusal, TaskNo,
};
use row_copy::{Mark, RowCopy};
use std::alloc::Global;
use std::marker::Model;

/// What a chunk that came is to a copy.
#[derive(Clone, Copy, Drop)]
pub struct ChunkFit {
    /// Whether it fills a gap.
    pub fills: bool,
    /// Whether no other chunk is missing.
    pub last: bool,
}

/// The copies of a job. A contract sees them by rising id.
#[derive(Drop)]
pub struct Copies {
    // in no order, so that a look-up costs the same whatever their number
    by_id: IndexMap<ObjectId, RowCopy>,
    // what they take together, counted at each change, so that nobody walks over them for it
    taken: Footprint,
}

impl Model for Copies {
    ghost use Rattle.private_store.specs.rules.Tables.{ById};
    ghost use Rattle.job_row.specs.Entries.{by_rising_id};
    ghost use Rattle.row_copy.specs.CopyViews.{CopyView};
    ghost use Rattle.std.specs.Prelude.{◌≡◌};
    ghost use Rattle.job_row.specs.Counted.{footprint_of};

    ghost Value = { ById CopyView };

    ghost view = { λ c. by_rising_id c.by_id.entries };

    ghost invariant = { λ c. c.taken ≡ footprint_of c.by_id.entries };
}

impl CopyLookup for Copies {
    ghost use Rattle.std.specs.Option.{option_map};
    ghost use Rattle.private_store.specs.rules.Tables.{at};
    ghost use Rattle.job_row.specs.RowFacts.{row_facts_of};

    ghost facts = { λ copies id. option_map row_facts_of (at copies id) };

    fn facts(&self, id: &ObjectId) -> Option<CopyFacts> {
        let copy = self.get(id)?;
        Some(facts(copy))
    }
}

impl Copies {
    /// No copies. Takes no memory.
    pub fn new(alloc: Global) -> Copies
        ensures { result ≡ [] }
    {
        Copies {
            by_id: IndexMap::new(alloc),
            taken: Footprint::nothing(),
        }
    }

    /// How many there are.
    pub fn len(&self) -> usize
        ensures len { result ≡ length self.now }
        ensures small { result < 2 ^ 63 }
    {
        self.by_id.len()
    }

    /// The copy of the id, if there is one.
    pub fn get(&self, id: &ObjectId) -> Option<&RowCopy>
        ensures { option_copied result ≡ at self.now id.now }
    {
        self.by_id.get(id)
    }

    /// The copies as List shows them, by rising id. Takes a walk over them, a sort, and memory for each.
    pub fn items(&self, alloc: Global) -> Result<ItemList<OwnItem>, OutOfMemory>
        ensures items { IfOk result (λ items. items ≡ map own_item_of self.now) }
        ensures rising { IfOk result (λ _. IsTrue (is_sorted id_cmp self.now)) }
    {
        let mut items = Vec::new(alloc);
        for (id, copy) in &self.by_id {
            lists::push(&mut items, copy.item(id))?;
        }
        items.sort_unstable_by_key(|item| item.id);
        Ok(ItemList::from_vec(items))
    }

    /// The bytes that they take in the window, or `u64::MAX` if they are more. Takes no walk over them.
    pub fn window_bytes(&self) -> u64
        ensures { result ≡ total window_bytes_lem self.now }
    {
        // that no id is there twice is what the proof needs
        let _count = self.by_id.len();
        to_u64(self.taken.window)
    }

    /// The device bytes that count for them, or `u64::MAX` if they are more. Takes no walk over them.
    pub fn device_bytes(&self) -> u64
        ensures { result ≡ total device_bytes_lem self.now }
    {
        // as for `window_bytes`
        let _count = self.by_id.len();
        to_u64(self.taken.device)
    }

    /// Where the copy of the id lies, and the classes of victims that it is in; nowhere and in none if there is no copy.
    pub fn eviction_info(&self, id: &ObjectId) -> EvictionInfo
        ensures { result ≡ info_at (facts_in self.now) id.now }
    {
        let Some(copy) = self.get(id) else {
            return EvictionInfo::nowhere();
        };
        facts(copy).eviction_info()
    }

    /// After changes of any of them, where none is gone, and each lies where it lay, or nowhere any more: the order of use
    /// follows. Takes a walk over them, and no memory.
    pub fn sync_all(&self, order: &mut UseOrder)
        ensures ids { order_ids order.new ≡ order_ids order.old }
        ensures infos { (before : ById CopyView) → NoneIsGone before self.now → KeepPlaces before self.now → InSync before order.old → InSync self.now order.new }
    {
        for (id, _) in &self.by_id {
            order.set_info(id, self.eviction_info(id));
        }
    }

    /// How many of them are doomed. Takes a walk over them.
    pub fn doomed_count(&self) -> u64
        ensures { result ≡ total doomed_one self.now }
    {
        let mut count: u64 = 0;
        for (_, copy) in &self.by_id {
            count = count.saturating_add(copy.doomed_one());
        }
        count
    }

    /// The copy under its id, in place of what was there. If the map is full, it moves to a larger one. A
    /// failure changes nothing.
    pub fn insert(&mut self, id: ObjectId, copy: RowCopy) -> Result<(), OutOfMemory>
        ensures ok { OnOk result (self.new ≡ with_entry self.old id copy) }
        ensures err { OnErr result (self.new ≡ self.old) }
    {
        // so many copies take no more than 128 bits have room for
        let _count = self.by_id.len();
        let after = Footprint::by(&copy);
        let replaced = tables::insert(&mut self.by_id, id, copy)?;
        let before = Footprint::by_any(replaced.as_ref());
        self.taken = self.taken.exchanged(before, after);
        Ok(())
    }

    /// The copy of the id is removed, if there is one. Takes no memory.
    pub fn remove(&mut self, id: &ObjectId)
        ensures { self.new ≡ without_entry self.old id.now }
    {
        self.take(id);
    }

    /// The copy of the id is removed and given, if there is one. Takes no memory.
    pub fn take(&mut self, id: &ObjectId) -> Option<RowCopy>
        ensures copies { self.new ≡ without_entry self.old id.now }
        ensures taken { result ≡ at self.old id.now }
    {
        // as for `insert`
        let _count = self.by_id.len();
        let copy = self.by_id.swap_remove(id);
        let before = Footprint::by_any(copy.as_ref());
        self.taken = self.taken.exchanged(before, Footprint::nothing());
        copy
    }

    /// Does this to the copy, if it is there, and counts what it takes anew. Answers what the copy is then: where there is
    /// none, it lies nowhere.
    fn update<F: FnOnce(&mut RowCopy)>(&mut self, id: &ObjectId, change: F) -> AfterChange
        requires { (p : MutBor CopyView) → at self.old id.now ≡ Some p.now → F.pre change p }
        ensures copies { (f : CopyView → CopyView) → ((p q : MutBor CopyView) → F.post change p tt q → q.now ≡ f p.now) → self.new ≡ changed f self.old id.now }
        ensures eviction_info { result.eviction_info ≡ info_at (facts_in self.new) id.now }
        ensures over { result.over ≡ is_over_at self.new id.now }
    {
        // as for `insert`
        let _count = self.by_id.len();
        let Some(copy) = self.by_id.get_mut(id) else {
            return AfterChange {
                eviction_info: EvictionInfo::nowhere(),
                over: false,
            };
        };
        let before = Footprint::by(copy);
        change(copy);
        let after = Footprint::by(copy);
        let response = after_change(copy);
        self.taken = self.taken.exchanged(before, after);
        response
    }

    /// This happens to the copy, if it is there. Answers what the copy is then. Takes no memory.
    pub fn apply(&mut self, id: &ObjectId, mark: Mark) -> AfterChange
        requires { (k : CopyView) → at self.old id.now ≡ Some k → CanTake mark k }
        ensures copies { self.new ≡ changed (marked_by mark) self.old id.now }
        ensures eviction_info { result.eviction_info ≡ info_at (facts_in self.new) id.now }
        ensures over { result.over ≡ is_over_at self.new id.now }
    {
        self.update(id, move |copy| copy.apply(mark))
    }

    /// This happens to the copy, if it is there, and it is removed if nothing keeps it then. Answers what the copy is then. Looks it up
    /// once, and takes no memory.
    pub fn settle(&mut self, id: &ObjectId, mark: Mark) -> Settled
        requires { (k : CopyView) → at self.old id.now ≡ Some k → CanTake mark k }
        ensures copies { self.new ≡ settled_copies (changed (marked_by mark) self.old id.now) id.now }
        ensures eviction_info { result.eviction_info ≡ info_at (facts_in self.new) id.now }
        ensures removed { result.removed ≡ over_copy (changed (marked_by mark) self.old id.now) id.now }
    {
        // as for `insert`
        let _count = self.by_id.len();
        let Some(index) = self.by_id.get_index_of(id) else {
            return Settled {
                eviction_info: EvictionInfo::nowhere(),
                removed: None,
            };
        };
        let Some(copy) = self.by_id.get_index_mut(index) else {
            unreachable!()
        };
        let before = Footprint::by(copy);
        copy.apply(mark);
        let after = Footprint::by(copy);
        let response = after_change(copy);
        self.taken = self.taken.exchanged(before, after);
        if !response.over {
            return Settled {
                eviction_info: response.eviction_info,
                removed: None,
            };
        }
        let Some((_id, copy)) = self.by_id.swap_remove_index(index) else {
            unreachable!()
        };
        self.taken = self.taken.exchanged(after, Footprint::nothing());
        Settled {
            eviction_info: EvictionInfo::nowhere(),
            removed: Some(copy),
        }
    }

    /// Whether there is a copy of the id.
    pub fn has(&self, id: &ObjectId) -> bool
        ensures { result ≡ is_some (at self.now id.now) }
    {
        self.get(id).is_some()
    }

    /// Whether the copy is removed as soon as it is looked at; not if there is none.
    pub fn is_over(&self, id: &ObjectId) -> bool
        ensures { result ≡ is_over_at self.now id.now }
    {
        let Some(copy) = self.get(id) else {
            return false;
        };
        copy.is_over()
    }

    /// Whether there is a copy of the id that a transfer made.
    pub fn has_secondary(&self, id: &ObjectId) -> bool
        ensures { result ≡ has_secondary self.now id.now }
    {
        match self.get(id) {
            Some(copy) => !copy.kind().is_primary(),
            None => false,
        }
    }

    /// The copy is evicted, if there is one: a secondary is removed, and a primary stays without a place.
    fn evict(&mut self, id: &ObjectId)
        ensures { self.new ≡ evicted_one self.old id.now }
    {
        if self.has_secondary(id) {
            self.remove(id);
        } else {
            self.apply(id, Mark::Unplaced);
        }
    }

    /// The copies of these ids are evicted, as far as they are there. Takes no memory.
    pub fn evict_all(&mut self, ids: &[ObjectId])
        ensures { self.new ≡ all_evicted ids.now self.old }
    {
        for id in ids {
            self.evict(id);
        }
    }

    /// One more hold of the session on the copy, if it is there, sealed and not doomed, and what the copy is then. `None`
    /// if it isn't. `TooMany` at 64 holds; out of memory comes last, and a failure changes nothing.
    pub fn hold(&mut self, id: &ObjectId, session: u32) -> Result<Option<Held>, Failure>
        ensures some { IfOk result (λ o. IfSome o (λ held. IsHeldAt self.old session id.now held self.new)) }
        ensures none { IfOk result (λ o. IfNone o (IsUnreadyAt self.old id.now self.new)) }
        ensures refused { IfErr result (λ failure. IsHoldRefusedAt self.old id.now failure self.new) }
    {
        let Some(copy) = self.by_id.get_mut(id) else {
            return Ok(None);
        };
        hold(copy, session)
    }

    /// One hold of the session on the copy less, and what the copy is then. `Absent`, `NotHeld` if it has none; a refusal
    /// changes nothing. Takes no memory.
    pub fn release(&mut self, id: &ObjectId, session: u32) -> Result<AfterChange, Refusal>
        ensures ok { OnOk result (self.new ≡ changed (after_release session) self.old id.now) }
        ensures eviction_info { IfOk result (λ r. r.eviction_info ≡ info_at (facts_in (changed (after_release session) self.old id.now)) id.now) }
        ensures over { IfOk result (λ r. r.over ≡ is_over_at (changed (after_release session) self.old id.now) id.now) }
        ensures passed { IsOk result → release_check self.old session id.now ≡ None }
        ensures refused { (r : Refusal) → IsErrOf result r → release_check self.old session id.now ≡ Some r }
        ensures err { OnErr result (self.new ≡ self.old) }
    {
        let Some(copy) = self.by_id.get_mut(id) else {
            return Err(Refusal::Absent);
        };
        release(copy, session)
    }

    /// No hold of the session on any copy. Takes a walk over them, and no memory.
    pub fn leave_all(&mut self, session: u32)
        ensures { self.new ≡ all_changed (after_leave session) self.old }
    {
        self.by_id.retain(|_, copy| {
            copy.apply(Mark::Left(session));
            true
        });
    }

    /// Whether the fetch of the copy has this number and asks this source; not if there is none.
    pub fn asks(&self, id: &ObjectId, number: FetchNo, from: NodeNo) -> bool
        ensures { result ≡ option_map_or (asks number from) (at self.now id.now) false }
    {
        let Some(copy) = self.get(id) else {
            return false;
        };
        copy.asks(number, from)
    }

    /// What a chunk of `len` bytes is to the copy: nothing if there is none.
    pub fn chunk_fit(
        &self,
        id: &ObjectId,
        number: FetchNo,
        index: ChunkIndex,
        from: NodeNo,
        len: usize,
    ) -> ChunkFit
        ensures fills { result.fills ≡ option_map_or (fills number from index len) (at self.now id.now) false }
        ensures last { result.last ≡ option_map_or (lacks_only index) (at self.now id.now) false }
    {
        let Some(copy) = self.get(id) else {
            return ChunkFit {
                fills: false,
                last: false,
            };
        };
        ChunkFit {
            fills: copy.is_filled_by(number, index, from, len),
            last: copy.lacks_only(index),
        }
    }

    /// The directory's answer at this node, which counts for the copy's fetch of this number while its source isn't
    /// known. Answers what the copy is then.
    pub fn locate(
        &mut self,
        id: &ObjectId,
        node: NodeNo,
        number: FetchNo,
        entries: &[Location],
    ) -> AfterChange
        ensures copies { self.new ≡ changed (after_located node number entries.now) self.old id.now }
        ensures eviction_info { result.eviction_info ≡ info_at (facts_in self.new) id.now }
        ensures over { result.over ≡ is_over_at self.new id.now }
    {
        self.update(id, |copy| copy.locate(node, number, entries))
    }

    /// The task borrows the copy, as the last one, and what the copy is then. `Absent`, also if it is doomed, `NotOwner`, `Exists`, `TooMany`,
    /// and out of memory last; a failure changes nothing.
    pub fn borrow(&mut self, id: &ObjectId, task: TaskNo) -> Result<AfterChange, Failure>
        ensures ok { OnOk result (self.new ≡ changed (after_borrow task) self.old id.now) }
        ensures eviction_info { IfOk result (λ after. after.eviction_info ≡ info_at (facts_in (changed (after_borrow task) self.old id.now)) id.now) }
        ensures over { IfOk result (λ after. after.over ≡ is_over_at (changed (after_borrow task) self.old id.now) id.now) }
        ensures passed { IsOk result → borrow_check self.old id.now task ≡ None }
        ensures refused { (r : Refusal) → IsErrOf result (Refused r) → borrow_check self.old id.now task ≡ Some r }
        ensures memory { (m : OutOfMemory) → IsErrOf result (Memory m) → borrow_check self.old id.now task ≡ None }
        ensures err { OnErr result (self.new ≡ self.old) }
    {
        let Some(copy) = self.by_id.get_mut(id) else {
            return Err(Failure::Refused(Refusal::Absent));
        };
        if copy.doomed() {
            return Err(Failure::Refused(Refusal::Absent));
        }
        borrow(copy, task)
    }

    /// No grant stands any more of the copies of the task's objects. Takes a walk over the copies, and no memory.
    pub fn end_grants(&mut self, task: TaskNo)
        ensures { self.new ≡ copies_ungranted task self.old }
    {
        self.by_id.retain(|id, copy| {
            copy.end_grants(id, task);
            true
        });
    }

    /// Whether the copy is doomed; not if there is none.
    pub fn is_doomed(&self, id: &ObjectId) -> bool
        ensures { result ≡ is_doomed_at self.now id.now }
    {
        let Some(copy) = self.get(id) else {
            return false;
        };
        copy.doomed()
    }

    /// Whether the task borrows the copy; not if there is none.
    pub fn borrows(&self, id: &ObjectId, task: TaskNo) -> bool
        ensures { result ≡ borrows_at task self.now id.now }
    {
        let Some(copy) = self.get(id) else {
            return false;
        };
        copy.borrows(task)
    }

    /// Whether the copy would be in scope if the task borrowed it no longer; not if there is none.
    pub fn in_scope_without(&self, id: &ObjectId, task: TaskNo) -> bool
        ensures { result ≡ option_map_or (λ k. in_scope (without_borrower k.copy task)) (at self.now id.now) false }
    {
        let Some(copy) = self.get(id) else {
            return false;
        };
        copy.in_scope_without(task)
    }

    /// What the directory is sent of the copy if it is doomed now: nothing, unless it was sealed.
    pub fn removal_notice(&self, node: u32, id: &ObjectId, dooms: bool) -> Option<DirectoryMessage>
        ensures { result ≡ removal_notice_at node self.now id.now dooms }
    {
        self.get(id)?.removal_notice(node, *id, dooms)
    }

    /// Writes of these copies are in flight, if they can be.
    pub fn begin_spills(&mut self, ids: &[ObjectId])
        ensures { self.new ≡ each_changed spill_begun_if self.old ids.now }
    {
        for id in ids {
            self.apply(id, Mark::SpillBegun);
        }
    }
}
