//! A copy that is away is read back.
ghost use Rattle.std.specs.Prelude.{◌≡◌, ◌+◌, ◌^◌, ◌<◌, true, false, is_ok, Some, IfOk, OnOk};
ghost use Rattle.obj_id.specs.declared.refusals.Refusal.TheVariants.{Absent};
ghost use Rattle.private_store.specs.rules.Tables.{at};
ghost use Rattle.private_store.specs.rules.Limits.{is_quota};
ghost use Rattle.private_store.specs.laws.Listed.{IsReplayStateKept};
ghost use Rattle.private_store.specs.rules.Shape.{Copy};
ghost use Rattle.private_store.specs.rules.Copies.{is_sealed};
ghost use Rattle.private_store.specs.rules.Events.{is_live};
ghost use Rattle.private_store.specs.rules.Room.{make_room};
ghost use Rattle.private_store.specs.rules.Change.{needing};
ghost use Rattle.private_store.specs.rules.Commands.{restore};
ghost use Rattle.plain_store.specs.Checks.{restore_checks, restored};
ghost use Rattle.private_store.specs.rules.Shared.{first_refusal};

use crate::marks::Mark;
use crate::planning::Plan;
use crate::response::Response;
use crate::store::PlainStore;
use memory_growth::OutOfMemory;
use obj_id::{ObjectId, Refusal};
use std::alloc::Global;

impl PlainStore {
    /// Whether there would be room for an object of `length` bytes at once. Takes what `plan` takes. The error is out of
    /// memory.
    fn has_room(&self, alloc: Global, length: u32) -> Result<bool, OutOfMemory>
        requires { is_quota self.now.shape.quota ≡ true }
        ensures { IfOk result (λ has. has ≡ is_ok (make_room self.now.order self.now.shape length).offset) }
    {
        match self.plan(alloc, length)? {
            Plan::Fits => Ok(self.offset_without(alloc, length, &[])?.is_some()),
            Plan::Evict(ids) => Ok(self.offset_without(alloc, length, &ids)?.is_some()),
            Plan::Wait | Plan::Full | Plan::Busy | Plan::Spill(_) => Ok(false),
        }
    }

    /// Why a copy of `length` bytes can't be restored, before there is room for it. The error is out of memory.
    fn restore_check(&self, alloc: Global, length: u32) -> Result<Option<Refusal>, OutOfMemory>
        requires { is_quota self.now.shape.quota ≡ true }
        ensures { IfOk result (λ refusal. refusal ≡ first_refusal (restore_checks self.now.order self.now.shape length)) }
    {
        if self.works_left() == 0 {
            return Ok(Some(Refusal::Busy));
        }
        if !self.has_numbers(1) && self.has_room(alloc, length)? {
            return Ok(Some(Refusal::TooMany));
        }
        Ok(None)
    }

    /// The copy, if there is one, is at the offset again, and its bytes are asked for. The error is out of memory.
    fn begin_restore(&mut self, id: ObjectId, offset: u32) -> Result<(), OutOfMemory>
        requires { self.old.shape.works_asked + 1 < 2 ^ 64 }
        ensures { OnOk result (self.new ≡ record self.old { shape = restored self.old.shape id offset }) }
    {
        let Some(copy) = self.copy_mut(id) else {
            return Ok(());
        };
        copy.apply(Mark::Restoring(offset));
        self.ask(false, id)
    }

    /// A copy that is away is read back, if there is room for it: the answer is `Pending` then. `Busy` at 8 works, `TooMany`
    /// if no numbers of works are left, `Absent` if there is no copy, and as `make_room`. The error is out of memory.
    #[tactic(auto, using(crate::proofs::RoomLeaves::room_leaves, crate::proofs::RoomLeaves::room_numbers, crate::proofs::RoomLeaves::quota_kept), unfolding(private_store::specs::rules::Change::checked, private_store::specs::rules::Change::needing, private_store::specs::rules::Change::in_room, private_store::specs::rules::Change::sending))]
    pub(crate) fn restore(&mut self, alloc: Global, id: ObjectId) -> Result<Response, OutOfMemory>
        requires kept { IsReplayStateKept self.old }
        requires live { is_live self.old.shape ≡ true }
        requires unsealed { (copy : Copy) → at self.old.shape.copies id ≡ Some copy → is_sealed copy.state ≡ false }
        ensures reply { IfOk result (λ response. response.reply ≡ (needing self.old.shape (at self.old.shape.copies id) Absent (restore self.old.order self.old.shape id)).reply) }
        ensures used { IfOk result (λ response. response.used ≡ (needing self.old.shape (at self.old.shape.copies id) Absent (restore self.old.order self.old.shape id)).used) }
        ensures store { OnOk result (self.new ≡ record self.old { shape = (needing self.old.shape (at self.old.shape.copies id) Absent (restore self.old.order self.old.shape id)).shape }) }
    {
        let Some(copy) = self.copy(id) else {
            return Ok(Response::refused(Refusal::Absent));
        };
        let length = copy.length;
        if let Some(refusal) = self.restore_check(alloc, length)? {
            return Ok(Response::refused(refusal));
        }
        let offset = match self.make_room(alloc, length)? {
            Ok(offset) => offset,
            Err(refusal) => return Ok(Response::refused(refusal)),
        };
        self.begin_restore(id, offset)?;
        Ok(Response::refused(Refusal::Pending))
    }
}
