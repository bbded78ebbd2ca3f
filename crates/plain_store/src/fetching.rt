//! Get of a copy that is on its way.
ghost use Rattle.std.specs.Prelude.{◌≡◌, true, false, Some, IfOk, OnOk};
ghost use Rattle.obj_id.specs.declared.refusals.Refusal.TheVariants.{Absent};
ghost use Rattle.private_store.specs.rules.Tables.{at};
ghost use Rattle.private_store.specs.laws.Listed.{IsReplayStateKept};
ghost use Rattle.private_store.specs.rules.Shape.{Copy};
ghost use Rattle.private_store.specs.rules.Marks.{chunk_count as chunk_count_lem, counted};
ghost use Rattle.private_store.specs.rules.Copies.{is_sealed};
ghost use Rattle.private_store.specs.rules.Events.{is_live};
ghost use Rattle.private_store.specs.rules.Change.{needing};
ghost use Rattle.private_store.specs.rules.Commands.{fetch_refusal as fetch_refusal_lem};
ghost use Rattle.plain_store.specs.Parts.{plain_phase_of};
ghost use Rattle.plain_store.specs.Fetches.{next_step_of, get_fetch, get_sized, pulled, pulled_copy};

use crate::copies::{FetchPhase, PlainCopy};
use crate::response::Response;
use crate::store::PlainStore;
use memory_growth::{OutOfMemory, lists};
use obj_id::limits::CHUNK_SIZE;
use obj_id::{NodeNo, ObjectId, Refusal};
use private_store::FetchFault;
use std::alloc::Global;

/// What the next Get of a fetch does.
enum NextStep {
    Wait,
    Pull(NodeNo),
    Tell(FetchFault),
}

impl PlainCopy {
    /// The extent is taken at the offset, and the fetch, if there is one, waits for the missing chunks from the source.
    fn begin_pull(&mut self, source: NodeNo, offset: u32, missing: Vec<u32>)
        ensures { missing.items ≡ counted 0 (chunk_count_lem self.old.length) → self.new ≡ pulled_copy self.old source offset }
    {
        let Some(fetch) = &mut self.fetch else {
            return;
        };
        fetch.phase = FetchPhase::Pulling(source, missing);
        self.offset = Some(u64::from(offset));
    }
}

impl PlainStore {
    /// The copy of the id, if there is one, is pulled from the source to the offset. The error is out of memory.
    fn pull_to(
        &mut self,
        alloc: Global,
        id: ObjectId,
        source: NodeNo,
        offset: u32,
    ) -> Result<(), OutOfMemory>
        ensures { OnOk result (self.new ≡ record self.old { shape = pulled self.old.shape id source offset }) }
    {
        let Some(copy) = self.copy_mut(id) else {
            return Ok(());
        };
        let missing = all_chunks(alloc, copy.length)?;
        copy.begin_pull(source, offset, missing);
        Ok(())
    }

    /// Get of a copy whose source is known: its extent is taken, if there is room, and its chunks asked for, so that the
    /// answer is `Pending`. `BadSize` of an object that the window can't have, `Absent` if there is no copy, and as
    /// `make_room`. The error is out of memory.
    #[tactic(auto, using(crate::proofs::RoomLeaves::room_leaves, crate::proofs::RoomLeaves::quota_kept), unfolding(private_store::specs::rules::Change::checked, private_store::specs::rules::Change::needing, private_store::specs::rules::Change::in_room, private_store::specs::rules::Change::sending))]
    fn get_sized(
        &mut self,
        alloc: Global,
        id: ObjectId,
        source: NodeNo,
    ) -> Result<Response, OutOfMemory>
        requires kept { IsReplayStateKept self.old }
        requires live { is_live self.old.shape ≡ true }
        requires unsealed { (copy : Copy) → at self.old.shape.copies id ≡ Some copy → is_sealed copy.state ≡ false }
        ensures reply { IfOk result (λ response. response.reply ≡ (needing self.old.shape (at self.old.shape.copies id) Absent (get_sized self.old.order self.old.shape id source)).reply) }
        ensures used { IfOk result (λ response. response.used ≡ (needing self.old.shape (at self.old.shape.copies id) Absent (get_sized self.old.order self.old.shape id source)).used) }
        ensures store { OnOk result (self.new ≡ record self.old { shape = (needing self.old.shape (at self.old.shape.copies id) Absent (get_sized self.old.order self.old.shape id source)).shape }) }
    {
        let Some(copy) = self.copy(id) else {
            return Ok(Response::refused(Refusal::Absent));
        };
        if copy.fetch.is_none() {
            return Ok(Response::refused(Refusal::Absent));
        }
        let length = copy.length;
        if !self.is_length(length) {
            return Ok(Response::refused(Refusal::BadSize));
        }
        let offset = match self.make_room(alloc, length)? {
            Ok(offset) => offset,
            Err(refusal) => return Ok(Response::refused(refusal)),
        };
        self.pull_to(alloc, id, source, offset)?;
        Ok(Response::refused(Refusal::Pending))
    }

    /// Get of a copy that is on its way: its fetch goes one step on, or what it came to is the answer, and then it is
    /// removed. `Pending`, `Absent`, `Damaged`, and as `get_sized`. The error is out of memory.
    #[tactic(auto, unfolding(private_store::specs::rules::Change::checked, private_store::specs::rules::Change::needing, private_store::specs::rules::Change::sending))]
    pub(crate) fn get_fetching(
        &mut self,
        alloc: Global,
        id: ObjectId,
    ) -> Result<Response, OutOfMemory>
        requires kept { IsReplayStateKept self.old }
        requires live { is_live self.old.shape ≡ true }
        requires unsealed { (copy : Copy) → at self.old.shape.copies id ≡ Some copy → is_sealed copy.state ≡ false }
        ensures reply { IfOk result (λ response. response.reply ≡ (needing self.old.shape (at self.old.shape.copies id) Absent (get_fetch self.old.order self.old.shape id)).reply) }
        ensures used { IfOk result (λ response. response.used ≡ (needing self.old.shape (at self.old.shape.copies id) Absent (get_fetch self.old.order self.old.shape id)).used) }
        ensures store { OnOk result (self.new ≡ record self.old { shape = (needing self.old.shape (at self.old.shape.copies id) Absent (get_fetch self.old.order self.old.shape id)).shape }) }
    {
        let Some(copy) = self.copy(id) else {
            return Ok(Response::refused(Refusal::Absent));
        };
        let Some(fetch) = &copy.fetch else {
            return Ok(Response::refused(Refusal::Absent));
        };
        match next_step(&fetch.phase) {
            NextStep::Wait => Ok(Response::refused(Refusal::Pending)),
            NextStep::Pull(source) => self.get_sized(alloc, id, source),
            NextStep::Tell(fault) => {
                self.remove(id);
                Ok(Response::refused(fetch_refusal(fault)))
            }
        }
    }
}

/// What the next Get does in the phase.
fn next_step(phase: &FetchPhase) -> NextStep
    ensures { result ≡ next_step_of (plain_phase_of phase.now) }
{
    match phase {
        FetchPhase::Locating | FetchPhase::Pulling(_, _) => NextStep::Wait,
        FetchPhase::Sized(source) => NextStep::Pull(*source),
        FetchPhase::Failed(fault) => NextStep::Tell(*fault),
    }
}

/// How many chunks `length` bytes have.
fn chunk_count(length: u32) -> u32
    ensures { result ≡ chunk_count_lem length }
{
    let bytes = u64::from(length) + u64::from(CHUNK_SIZE - 1);
    (bytes / u64::from(CHUNK_SIZE)) as u32
}

/// The indexes of all chunks of `length` bytes. The error is out of memory.
fn all_chunks(alloc: Global, length: u32) -> Result<Vec<u32>, OutOfMemory>
    ensures { IfOk result (λ chunks. chunks.items ≡ counted 0 (chunk_count_lem length)) }
{
    let count = chunk_count(length);
    let mut chunks = Vec::new(alloc);
    for index in 0..count {
        lists::push(&mut chunks, index)?;
    }
    Ok(chunks)
}

/// The refusal that answers a fetch that failed.
fn fetch_refusal(fault: FetchFault) -> Refusal
    ensures { result ≡ fetch_refusal_lem fault }
{
    match fault {
        FetchFault::Absent => Refusal::Absent,
        FetchFault::Damaged => Refusal::Damaged,
    }
}
