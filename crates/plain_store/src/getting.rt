//! Get: a hold on a copy that is here, and otherwise what brings it here.
ghost use Rattle.std.specs.Prelude.{◌≡◌, ◌+◌, ◌<◌, ◌^◌, true, false, Some, IfOk, OnOk};
ghost use Rattle.obj_id.specs.declared.refusals.Refusal.TheVariants.{Absent};
ghost use Rattle.private_store.specs.rules.Tables.{at};
ghost use Rattle.private_store.specs.rules.Limits.{has_numbers};
ghost use Rattle.private_store.specs.laws.Listed.{IsReplayStateKept};
ghost use Rattle.private_store.specs.rules.Shape.{Copy};
ghost use Rattle.private_store.specs.rules.Copies.{is_sealed};
ghost use Rattle.private_store.specs.rules.Events.{is_live};
ghost use Rattle.private_store.specs.rules.Change.{needing};
ghost use Rattle.private_store.specs.rules.Commands.{holds_of, fetched_copy as fetched_copy_lem, begin_fetch, get_sealed, get_away, get};
ghost use Rattle.plain_store.specs.Checks.{held_more};

use crate::copies::{FetchPhase, PlainCopy, PlainFetch};
use crate::marks::Mark;
use crate::response::Response;
use crate::store::PlainStore;
use memory_growth::OutOfMemory;
use obj_id::{CopyState, FetchNo, Kind, ObjectId, Refusal, Reply};
use std::alloc::Global;

impl PlainStore {
    /// Whether another number of a fetch is left.
    fn has_fetch_number(&self) -> bool
        ensures { result ≡ has_numbers self.now.shape.fetches_begun 1 }
    {
        self.fetches_begun < u64::MAX
    }

    /// A copy that isn't here is fetched: the answer is `Pending`. `TooMany` at 1,024 copies, and if no number of a fetch is
    /// left. The error is out of memory.
    #[tactic(auto, unfolding(private_store::specs::rules::Change::checked, private_store::specs::rules::Change::sending))]
    fn begin_fetch(&mut self, alloc: Global, id: ObjectId) -> Result<Response, OutOfMemory>
        ensures reply { IfOk result (λ response. response.reply ≡ (begin_fetch self.old.shape id).reply) }
        ensures used { IfOk result (λ response. response.used ≡ (begin_fetch self.old.shape id).used) }
        ensures store { OnOk result (self.new ≡ record self.old { shape = (begin_fetch self.old.shape id).shape }) }
    {
        if self.is_full_of_copies() || !self.has_fetch_number() {
            return Ok(Response::refused(Refusal::TooMany));
        }
        let number = self.fetches_begun + 1;
        self.insert(id, fetched_copy(alloc, FetchNo(number)))?;
        self.fetches_begun = number;
        Ok(Response {
            reply: Reply::Refused(Refusal::Pending),
            used: Some(id),
        })
    }

    /// One more hold of the session on the copy, if there is one. The error is out of memory.
    fn hold(&mut self, id: ObjectId, session: u32) -> Result<(), OutOfMemory>
        requires { (copy : Copy) → at self.old.shape.copies id ≡ Some copy → holds_of copy session + 1 < 2 ^ 32 }
        ensures { OnOk result (self.new ≡ record self.old { shape = held_more self.old.shape id session }) }
    {
        let Some(copy) = self.copy_mut(id) else {
            return Ok(());
        };
        copy.hold(session)
    }

    /// Get of a sealed copy: one more hold of the session, and the copy is the most recently used one. `TooMany` at 64 holds,
    /// `Absent` if there is no copy. The error is out of memory.
    #[tactic(auto, using(crate::proofs::RoomLeaves::holds_fit), unfolding(private_store::specs::rules::Change::checked, private_store::specs::rules::Change::needing, private_store::specs::rules::Change::sending))]
    fn get_sealed(&mut self, session: u32, id: ObjectId) -> Result<Response, OutOfMemory>
        ensures reply { IfOk result (λ response. response.reply ≡ (needing self.old.shape (at self.old.shape.copies id) Absent (get_sealed self.old.shape session id)).reply) }
        ensures used { IfOk result (λ response. response.used ≡ (needing self.old.shape (at self.old.shape.copies id) Absent (get_sealed self.old.shape session id)).used) }
        ensures store { OnOk result (self.new ≡ record self.old { shape = (needing self.old.shape (at self.old.shape.copies id) Absent (get_sealed self.old.shape session id)).shape }) }
    {
        let Some(copy) = self.copy(id) else {
            return Ok(Response::refused(Refusal::Absent));
        };
        if copy.has_most_holds() {
            return Ok(Response::refused(Refusal::TooMany));
        }
        let length = copy.length;
        self.hold(id, session)?;
        Ok(Response {
            reply: Reply::Got(length),
            used: Some(id),
        })
    }

    /// Get of a copy that is away: its fault is the answer, once; otherwise it is read back. `DeviceFailed`, `Damaged`, and as
    /// `restore`. The error is out of memory.
    #[tactic(auto, unfolding(private_store::specs::rules::Change::needing))]
    fn get_away(&mut self, alloc: Global, id: ObjectId) -> Result<Response, OutOfMemory>
        requires kept { IsReplayStateKept self.old }
        requires live { is_live self.old.shape ≡ true }
        requires unsealed { (copy : Copy) → at self.old.shape.copies id ≡ Some copy → is_sealed copy.state ≡ false }
        ensures reply { IfOk result (λ response. response.reply ≡ (needing self.old.shape (at self.old.shape.copies id) Absent (get_away self.old.order self.old.shape id)).reply) }
        ensures used { IfOk result (λ response. response.used ≡ (needing self.old.shape (at self.old.shape.copies id) Absent (get_away self.old.order self.old.shape id)).used) }
        ensures store { OnOk result (self.new ≡ record self.old { shape = (needing self.old.shape (at self.old.shape.copies id) Absent (get_away self.old.order self.old.shape id)).shape }) }
    {
        let Some(copy) = self.copy(id) else {
            return Ok(Response::refused(Refusal::Absent));
        };
        match copy.fault {
            Some(fault) => {
                self.apply(id, Mark::FaultTold);
                Ok(Response::refused(fault.refusal()))
            }
            None => self.restore(alloc, id),
        }
    }

    /// Get: a hold on a copy that is here, and otherwise what brings it here. `Gone`, `Absent`, `NotSealed`, `Pending`,
    /// `TooMany`, and as `get_fetching` and `get_away`. The error is out of memory.
    #[tactic(auto, unfolding(private_store::specs::rules::Change::checked, private_store::specs::rules::Change::needing))]
    pub(crate) fn get(
        &mut self,
        alloc: Global,
        session: u32,
        id: ObjectId,
    ) -> Result<Response, OutOfMemory>
        requires kept { IsReplayStateKept self.old }
        requires live { is_live self.old.shape ≡ true }
        ensures reply { IfOk result (λ response. response.reply ≡ (get self.old.order self.old.shape session id).reply) }
        ensures used { IfOk result (λ response. response.used ≡ (get self.old.order self.old.shape session id).used) }
        ensures store { OnOk result (self.new ≡ record self.old { shape = (get self.old.order self.old.shape session id).shape }) }
    {
        if self.has_ended(id.task()) {
            return Ok(Response::refused(Refusal::Gone));
        }
        let Some(copy) = self.copy(id) else {
            return self.begin_fetch(alloc, id);
        };
        if copy.doomed {
            return Ok(Response::refused(Refusal::Absent));
        }
        match copy.state {
            CopyState::Created => Ok(Response::refused(Refusal::NotSealed)),
            CopyState::Sealed => self.get_sealed(session, id),
            CopyState::Restoring => Ok(Response::refused(Refusal::Pending)),
            CopyState::Fetching => self.get_fetching(alloc, id),
            CopyState::Away => self.get_away(alloc, id),
        }
    }
}

/// A copy that is on its way, its source not known yet. Takes no memory.
fn fetched_copy(alloc: Global, number: FetchNo) -> PlainCopy
    ensures { result ≡ fetched_copy_lem number }
{
    PlainCopy {
        state: CopyState::Fetching,
        kind: Kind::Secondary,
        length: 0,
        offset: None,
        pinned: false,
        borrowers: Vec::new(alloc),
        holds: Vec::new(alloc),
        backed: None,
        doomed: false,
        fault: None,
        fetch: Some(PlainFetch {
            number,
            phase: FetchPhase::Locating,
        }),
    }
}
