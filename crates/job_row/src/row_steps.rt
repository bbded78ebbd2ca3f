//! What happens to the copies of a row.
ghost use Rattle.std.specs.Prelude.{◌≡◌, ◌+◌, ◌^◌, ◌≤◌, ◌<◌, length, true, false, Some, None, IfOk, IfErr, IfSome, IfNone, OnOk, OnErr, IsOk, IsErrOf, option_to_list};
ghost use Rattle.obj_id.specs.declared.works.Extent.{Extent};
ghost use Rattle.obj_id.specs.declared.refusals.Refusal.{Refusal};
ghost use Rattle.memory_growth.specs.declared.OutOfMemory.{OutOfMemory};
ghost use Rattle.obj_id.specs.declared.refusals.Failure.TheVariants.{Refused, Memory};
ghost use Rattle.private_store.specs.rules.Tables.{at, with_entry, is_among};
ghost use Rattle.std.specs.Option.{option_map_or};
ghost use Rattle.job_row.specs.Answering.{written_row, refilled, lost_row};
ghost use Rattle.lru_evictor.specs.Orders.{last_used};
ghost use Rattle.job_row.specs.Entries.{changed, all_changed, each_changed};
ghost use Rattle.row_copy.specs.CopyViews.{CopyView, after_release, after_leave, spill_begun_if, fetched_copy_view, after_borrow, new_copy_view, waits_for_place, after_placing, after_restore, CanAwait};
ghost use Rattle.row_copy.specs.Marks.{marked_by, CanTake, lies_still};
ghost use Rattle.row_copy.specs.declared.marks.Mark.TheVariants.{FetchFailed, Written, Restored, Lost};
ghost use Rattle.job_row.specs.Checks.{release_check, borrow_check};
ghost use Rattle.job_row.specs.Scope.{with_copy};
ghost use Rattle.job_row.specs.Row.{place_of, ArePlaced};
ghost use Rattle.job_row.specs.Dropping.{dropped, is_over_at, settled_row, keys_settled};
ghost use Rattle.job_row.specs.Holding.{IsUnreadyAt, IsHoldRefusedAt, IsRowHeld};
ghost use Rattle.job_row.specs.Evicting.{IsPlacement, IsReplaced};
ghost use Rattle.row_copy.specs.Arriving.{after_located};
ghost use Rattle.job_row.specs.Arriving.{unfetched_row};

use crate::placement::Placement;
use crate::row::JobRow;
use crate::standing::{AfterChange, extent_of_any};
use crate::syncing::{evict_for, sync_each};
use bytes::Bytes;
use extent_tree::SpareNode;
use memory_growth::OutOfMemory;
use obj_id::{
    DeviceKey, Extent, Failure, FetchNo, Kind, Location, NodeNo, ObjectId, Refusal, TaskNo,
};
use private_store::{Fault, FetchFault};
use row_copy::{Awaited, Mark, RowCopy};
use std::alloc::Global;

impl JobRow {
    /// This happens to the copy, if it is there, and it lies where it lay. Answers what the copy is then. Looks the copy up once, and takes
    /// no memory.
    pub fn apply(&mut self, id: &ObjectId, mark: Mark) -> AfterChange
        requires lies { lies_still mark ≡ true }
        requires can { (k : CopyView) → at self.old.copies id.now ≡ Some k → CanTake mark k }
        ensures row { self.new ≡ with_copy (marked_by mark) self.old id.now }
        ensures place { result.eviction_info.extent ≡ place_of self.new.copies id.now }
        ensures over { result.over ≡ is_over_at self.new.copies id.now }
        ensures placed { ArePlaced self.new.window.placed (place_of self.new.copies) }
    {
        let after = self.copies.apply(id, mark);
        self.order.set_info(id, after.eviction_info);
        after
    }

    /// One more hold of the session on the copy, if it is there, sealed and not doomed, which is the most recently used
    /// now, and its length in bytes. `None` if it isn't. `TooMany` at 64 holds; out of memory comes last, and a
    /// failure changes nothing. Looks the copy up once.
    pub fn hold_copy(&mut self, id: &ObjectId, session: u32) -> Result<Option<u32>, Failure>
        ensures some { IfOk result (λ o. IfSome o (λ n. IsRowHeld self.old session id.now n self.new)) }
        ensures none { IfOk result (λ o. IfNone o (IsUnreadyAt self.old.copies id.now self.new.copies)) }
        ensures same { IfOk result (λ o. IfNone o (self.new ≡ self.old)) }
        ensures refused { IfErr result (λ failure. IsHoldRefusedAt self.old.copies id.now failure self.new.copies) }
        ensures err { OnErr result (self.new ≡ self.old) }
    {
        let Some(held) = self.copies.hold(id, session)? else {
            return Ok(None);
        };
        self.order.touch(*id, held.eviction_info);
        Ok(Some(held.length))
    }

    /// One hold of the session on the copy less, and whether nothing keeps the copy any more. `Absent`, `NotHeld` if it has
    /// none; a refusal changes nothing. Looks the copy up once, and takes no memory.
    pub fn release_copy(&mut self, id: &ObjectId, session: u32) -> Result<bool, Refusal>
        ensures ok { OnOk result (self.new ≡ record self.old { copies = changed (after_release session) self.old.copies id.now }) }
        ensures over { IfOk result (λ over. over ≡ is_over_at self.new.copies id.now) }
        ensures placed { ArePlaced self.new.window.placed (place_of self.new.copies) }
        ensures passed { IsOk result → release_check self.old.copies session id.now ≡ None }
        ensures refused { (r : Refusal) → IsErrOf result r → release_check self.old.copies session id.now ≡ Some r }
        ensures err { OnErr result (self.new ≡ self.old) }
    {
        let released = self.copies.release(id, session)?;
        self.order.set_info(id, released.eviction_info);
        Ok(released.over)
    }

    /// The task borrows the copy, as the last one. `Absent`, also if it is doomed, `NotOwner`, `Exists`, `TooMany`,
    /// and out of memory last; a failure changes nothing.
    pub fn borrow_copy(&mut self, id: &ObjectId, task: TaskNo) -> Result<(), Failure>
        ensures ok { OnOk result (self.new ≡ with_copy (after_borrow task) self.old id.now) }
        ensures passed { IsOk result → borrow_check self.old.copies id.now task ≡ None }
        ensures refused { (r : Refusal) → IsErrOf result (Refused r) → borrow_check self.old.copies id.now task ≡ Some r }
        ensures memory { (m : OutOfMemory) → IsErrOf result (Memory m) → borrow_check self.old.copies id.now task ≡ None }
        ensures err { OnErr result (self.new ≡ self.old) }
    {
        let after = self.copies.borrow(id, task)?;
        self.order.set_info(id, after.eviction_info);
        Ok(())
    }

    /// No hold of the session on any copy. Takes no memory.
    pub fn leave_copies(&mut self, session: u32)
        ensures { self.new ≡ record self.old { copies = all_changed (after_leave session) self.old.copies } }
    {
        self.copies.leave_all(session);
        self.copies.sync_all(&mut self.order);
    }

    /// A copy that is on its way, under this number, and the most recently used. The error is out of
    /// memory, and then nothing has changed.
    pub fn enter_fetch(
        &mut self,
        alloc: Global,
        id: &ObjectId,
        number: FetchNo,
    ) -> Result<(), OutOfMemory>
        requires { at self.old.copies id.now ≡ None }
        ensures ok { OnOk result (self.new ≡ record self.old { copies = with_entry self.old.copies id.now (fetched_copy_view number); order = last_used id.now self.old.order; fetches_begun = number }) }
        ensures err { OnErr result (self.new ≡ self.old) }
    {
        self.copies.insert(*id, RowCopy::fetching(alloc, number))?;
        if let Err(error) = self.order.enter(*id) {
            self.copies.remove(id);
            return Err(error);
        }
        self.fetches_begun = number.0;
        Ok(())
    }

    /// The victims of the placement, which are other copies, are evicted, and the job has a copy of the object to be written, in this
    /// place for its `len` bytes, of zeros; it is the most recently used one, but stays where it is in the order of use if that has it
    /// already. The error is out of memory, and then nothing has changed.
    pub fn replace_copies(
        &mut self,
        alloc: Global,
        id: &ObjectId,
        kind: Kind,
        len: u32,
        placement: &Placement,
    ) -> Result<Extent, OutOfMemory>
        requires some { 0 < len }
        requires absent { at self.old.copies id.now ≡ None }
        requires stays { is_among placement.now.victims id.now ≡ false }
        requires place { IsPlacement self.old len placement.now }
        ensures placed { OnOk result (ArePlaced self.old.window.placed (place_of self.old.copies)) }
        ensures ok { IfOk result (λ e. is_among self.old.order id.now ≡ false → IsReplaced self.old (Some id.now) id.now (new_copy_view kind len) len placement.now.victims e self.new) }
        ensures listed { IfOk result (λ e. is_among self.old.order id.now ≡ true → IsReplaced self.old None id.now (new_copy_view kind len) len placement.now.victims e self.new) }
        ensures small { IfOk result (λ e. e.offset + e.length < 2 ^ 32) }
        ensures err { OnErr result (self.new ≡ self.old) }
    {
        let room = SpareNode::new(alloc)?;
        let copy = RowCopy::created(alloc, kind, len, placement.offset);
        self.copies.insert(*id, copy)?;
        // it lies nowhere, as far as the order knows, until the victims have gone
        let entered = match self.order.enter_new(*id) {
            Ok(entered) => entered,
            Err(error) => {
                self.copies.remove(id);
                return Err(error);
            }
        };
        match self
            .window
            .replace(alloc, &placement.gone, len, placement.offset)
        {
            Err(error) => {
                self.copies.remove(id);
                if entered {
                    self.order.forget(*id);
                }
                Err(error)
            }
            Ok(extent) => {
                let victims = placement.victims.as_slice();
                evict_for(&mut self.order, &mut self.copies, victims, id, room, extent);
                Ok(extent)
            }
        }
    }

    /// The victims of the placement, which are other copies, are evicted, and the copy of the id, which has no place, takes this one
    /// for its `len` bytes: of zeros, and it waits for this there. The error is out of memory, and then nothing has changed.
    pub fn place_copy(
        &mut self,
        alloc: Global,
        id: &ObjectId,
        len: u32,
        placement: &Placement,
        awaited: Awaited,
    ) -> Result<Extent, OutOfMemory>
        requires some { 0 < len }
        requires stays { is_among placement.now.victims id.now ≡ false }
        requires place { IsPlacement self.old len placement.now }
        requires waits { option_map_or (waits_for_place len) (at self.old.copies id.now) false ≡ true }
        requires awaits { (k : CopyView) → at self.old.copies id.now ≡ Some k → CanAwait awaited k }
        ensures placed { OnOk result (ArePlaced self.old.window.placed (place_of self.old.copies)) }
        ensures ok { IfOk result (λ e. (k : CopyView) → at self.old.copies id.now ≡ Some k → IsReplaced self.old None id.now (λ offset. after_placing awaited offset k) len placement.now.victims e self.new) }
        ensures err { OnErr result (self.new ≡ self.old) }
    {
        let room = SpareNode::new(alloc)?;
        let extent = self
            .window
            .replace(alloc, &placement.gone, len, placement.offset)?;
        let offset = extent.offset;
        self.copies.apply(id, Mark::Placed { offset, awaited });
        let victims = placement.victims.as_slice();
        evict_for(&mut self.order, &mut self.copies, victims, id, room, extent);
        Ok(extent)
    }

    /// The directory's answer at this node, which counts for the copy's fetch of this number while its source isn't
    /// known. Takes no memory.
    pub fn locate_copy(
        &mut self,
        id: &ObjectId,
        node: NodeNo,
        number: FetchNo,
        entries: &[Location],
    )
        ensures { self.new ≡ with_copy (after_located node number entries.now) self.old id.now }
    {
        let after = self.copies.locate(id, node, number, entries);
        self.order.set_info(id, after.eviction_info);
    }

    /// The fetch of the copy is over without it: its place is free, and the next Get answers why. Takes no memory.
    pub fn fail_fetch(&mut self, id: &ObjectId, fault: FetchFault)
        requires { (k : CopyView) → at self.old.copies id.now ≡ Some k → CanTake (FetchFailed fault) k }
        ensures row { self.new ≡ unfetched_row fault self.old id.now }
        ensures placed { ArePlaced self.old.window.placed (place_of self.old.copies) }
    {
        let gone = self.place(id);
        self.window.give_back_all(gone.as_slice());
        let after = self.copies.apply(id, Mark::FetchFailed(fault));
        self.order.set_info(id, after.eviction_info);
    }

    /// Writes of these copies are in flight, if they can be. Takes no memory.
    pub fn spill_copies(&mut self, ids: &[ObjectId])
        ensures { self.new ≡ record self.old { copies = each_changed spill_begun_if self.old.copies ids.now } }
    {
        self.copies.begin_spills(ids);
        sync_each(&mut self.order, &self.copies, ids);
    }

    /// The write of the copy under this number ended: its bytes are on the device; or it failed, and the next one that
    /// waits for room by spilling answers so. Takes no memory.
    pub fn end_spill(&mut self, id: &ObjectId, number: u64, failed: bool)
        requires { (k : CopyView) → at self.old.copies id.now ≡ Some k → CanTake (Written number failed) k }
        ensures { self.new ≡ written_row number failed self.old id.now }
    {
        self.spill_failed = failed || self.spill_failed;
        self.apply(id, Mark::Written { number, failed });
    }

    /// The read of the copy ended, and brought these bytes: it is sealed again, with the bytes in its place. They are left out if it isn't
    /// resident, or they pass the end of its extent. Takes no memory.
    pub fn end_restore(&mut self, id: &ObjectId, bytes: &Bytes)
        requires { (k : CopyView) → at self.old.copies id.now ≡ Some k → CanTake Restored k }
        ensures absent { place_of self.old.copies id.now ≡ None → self.new ≡ with_copy after_restore self.old id.now }
        ensures outside { (e : Extent) → place_of self.old.copies id.now ≡ Some e → e.length < length bytes.now → self.new ≡ with_copy after_restore self.old id.now }
        ensures row { (e : Extent) → place_of self.old.copies id.now ≡ Some e → length bytes.now ≤ e.length → self.new ≡ refilled e bytes.now self.old id.now }
    {
        self.put_all_bytes(id, bytes);
        self.apply(id, Mark::Restored);
    }

    /// The read of the copy ended without its bytes: it is away again with this fault, and its place is free. Takes no
    /// memory.
    pub fn lose(&mut self, id: &ObjectId, fault: Fault)
        requires { (k : CopyView) → at self.old.copies id.now ≡ Some k → CanTake (Lost fault) k }
        ensures { self.new ≡ lost_row fault self.old id.now }
    {
        let gone = self.place(id);
        self.window.give_back_all(gone.as_slice());
        let after = self.copies.apply(id, Mark::Lost(fault));
        self.order.set_info(id, after.eviction_info);
    }

    /// The copy is removed, and its place is free. Answers the copy, if there was one. Looks it up once, and takes no memory.
    pub fn drop_copy(&mut self, id: &ObjectId) -> Option<RowCopy>
        ensures copy { result ≡ at self.old.copies id.now }
        ensures row { self.new ≡ dropped self.old id.now }
        ensures placed { ArePlaced self.old.window.placed (place_of self.old.copies) }
    {
        let copy = self.copies.take(id);
        let gone = extent_of_any(copy.as_ref());
        self.window.give_back_all(gone.as_slice());
        self.order.forget(*id);
        copy
    }

    /// The copy is removed if it is doomed and nothing keeps it any more, which the caller knows. Answers the device key
    /// that is then to be erased, if it has one. Takes no memory, and no look-up unless the copy is removed.
    pub fn settle(&mut self, id: &ObjectId, over: bool) -> Option<DeviceKey>
        requires { over ≡ is_over_at self.old.copies id.now }
        ensures row { self.new ≡ settled_row self.old id.now }
        ensures keys { option_to_list result ≡ keys_settled self.old id.now }
        ensures placed { ArePlaced self.old.window.placed (place_of self.old.copies) }
    {
        let job = self.job;
        if !over {
            return None;
        }
        let number = self.drop_copy(id)?.backed()?;
        Some(DeviceKey { job, number })
    }

    /// This happens to the copy, if it is there, and it lies where it lay; it is removed if nothing keeps it then. Answers the device key
    /// that is then to be erased, if it has one. Looks the copy up once, and takes no memory.
    pub fn apply_and_settle(&mut self, id: &ObjectId, mark: Mark) -> Option<DeviceKey>
        requires lies { lies_still mark ≡ true }
        requires can { (k : CopyView) → at self.old.copies id.now ≡ Some k → CanTake mark k }
        ensures row { self.new ≡ settled_row (with_copy (marked_by mark) self.old id.now) id.now }
        ensures keys { option_to_list result ≡ keys_settled (with_copy (marked_by mark) self.old id.now) id.now }
        ensures placed { ArePlaced self.old.window.placed (place_of (changed (marked_by mark) self.old.copies id.now)) }
    {
        let job = self.job;
        let settled = self.copies.settle(id, mark);
        let Some(copy) = settled.removed else {
            self.order.set_info(id, settled.eviction_info);
            return None;
        };
        let gone = copy.extent();
        self.window.give_back_all(gone.as_slice());
        self.order.forget(*id);
        let number = copy.backed()?;
        Some(DeviceKey { job, number })
    }
}
