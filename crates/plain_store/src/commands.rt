//! The commands of a session on its job's own objects.
#![tactic(auto, unfolding(private_store::specs::rules::Change::checked, private_store::specs::rules::Change::needing, private_store::specs::rules::Change::sending))]

ghost use Rattle.std.specs.Prelude.{◌≡◌, IfOk, OnOk};
ghost use Rattle.private_store.specs.rules.Commands.{borrow, delete, give_up, is_unsealed as is_unsealed_lem, read, release, seal, unpin, write};

use crate::marks::Mark;
use crate::predicates::{is_created, same_task};
use crate::store::PlainStore;
use memory_growth::{OutOfMemory, lists};
use obj_id::limits::{MOST_BORROWERS, MOST_BYTES};
use obj_id::{CopyState, ObjectId, Refusal, Reply, TaskNo};

/// Whether no sealed bytes were ever here.
fn is_unsealed(state: CopyState) -> bool
    ensures { result ≡ is_unsealed_lem state }
{
    matches!(state, CopyState::Created | CopyState::Fetching)
}

impl PlainStore {
    /// Write of `count` bytes from an offset on, which changes nothing here.
    pub(crate) fn write(&self, id: ObjectId, offset: u32, count: u64) -> Reply<u64>
        ensures reply { result ≡ (write self.now.shape id offset count).reply }
        ensures store { (write self.now.shape id offset count).shape ≡ self.now.shape }
        ensures used { (write self.now.shape id offset count).used ≡ None }
    {
        if count > MOST_BYTES as u64 {
            return Reply::Refused(Refusal::BadSize);
        }
        let Some(copy) = self.visible(id) else {
            return Reply::Refused(Refusal::Absent);
        };
        if !is_created(copy.state) {
            return Reply::Refused(Refusal::AlreadySealed);
        }
        if u64::from(copy.length) < u64::from(offset) + count {
            return Reply::Refused(Refusal::OutOfBounds);
        }
        Reply::Ok
    }

    /// Seal: the copy is immutable from now on. Takes no memory.
    pub(crate) fn seal(&mut self, id: ObjectId) -> Reply<u64>
        ensures reply { result ≡ (seal self.old.shape id).reply }
        ensures store { self.new ≡ record self.old { shape = (seal self.old.shape id).shape } }
        ensures used { (seal self.old.shape id).used ≡ None }
    {
        let Some(copy) = self.visible(id) else {
            return Reply::Refused(Refusal::Absent);
        };
        if !is_created(copy.state) {
            return Reply::Refused(Refusal::AlreadySealed);
        }
        self.apply(id, Mark::Sealed);
        Reply::Ok
    }

    /// Read of `count` bytes of a copy that the session holds, which changes nothing.
    pub(crate) fn read(&self, session: u32, id: ObjectId, offset: u32, count: u32) -> Reply<u64>
        ensures reply { result ≡ (read self.now.shape session id offset count).reply }
        ensures store { (read self.now.shape session id offset count).shape ≡ self.now.shape }
        ensures used { (read self.now.shape session id offset count).used ≡ None }
    {
        if count as usize > MOST_BYTES {
            return Reply::Refused(Refusal::BadSize);
        }
        let Some(copy) = self.copy(id) else {
            return Reply::Refused(Refusal::Absent);
        };
        if is_unsealed(copy.state) {
            return Reply::Refused(Refusal::NotSealed);
        }
        if copy.holds_of(session) == 0 {
            return Reply::Refused(Refusal::NotHeld);
        }
        if u64::from(copy.length) < u64::from(offset) + u64::from(count) {
            return Reply::Refused(Refusal::OutOfBounds);
        }
        Reply::Bytes(u64::from(count))
    }

    /// Release: one hold of the session less. The error is out of memory.
    pub(crate) fn release(&mut self, session: u32, id: ObjectId) -> Result<Reply<u64>, OutOfMemory>
        ensures reply { IfOk result (λ reply. reply ≡ (release self.old.shape session id).reply) }
        ensures store { OnOk result (self.new ≡ record self.old { shape = (release self.old.shape session id).shape }) }
        ensures used { (release self.old.shape session id).used ≡ None }
    {
        let Some(copy) = self.copy(id) else {
            return Ok(Reply::Refused(Refusal::Absent));
        };
        let held = copy.holds_of(session);
        if held == 0 {
            return Ok(Reply::Refused(Refusal::NotHeld));
        }
        self.set_holds(id, session, held - 1)?;
        self.settled(id);
        Ok(Reply::Ok)
    }

    /// Unpin: the owner task keeps its primary no longer. Takes no memory.
    pub(crate) fn unpin(&mut self, id: ObjectId, task: TaskNo) -> Reply<u64>
        ensures reply { result ≡ (unpin self.old.shape id task).reply }
        ensures store { self.new ≡ record self.old { shape = (unpin self.old.shape id task).shape } }
        ensures used { (unpin self.old.shape id task).used ≡ None }
    {
        let Some(copy) = self.visible(id) else {
            return Reply::Refused(Refusal::Absent);
        };
        if !(copy.kind.is_primary() && same_task(&task, &id.task())) {
            return Reply::Refused(Refusal::NotOwner);
        }
        if !copy.pinned {
            return Reply::Refused(Refusal::NotHeld);
        }
        self.apply_scoped(id, Mark::Unpinned);
        Reply::Ok
    }

    /// Borrow: the task refers to the object. The error is out of memory.
    pub(crate) fn borrow(&mut self, id: ObjectId, task: TaskNo) -> Result<Reply<u64>, OutOfMemory>
        ensures reply { IfOk result (λ reply. reply ≡ (borrow self.old.shape id task).reply) }
        ensures store { OnOk result (self.new ≡ record self.old { shape = (borrow self.old.shape id task).shape }) }
        ensures used { (borrow self.old.shape id task).used ≡ None }
    {
        if self.has_ended(id.task()) || self.has_ended(task) {
            return Ok(Reply::Refused(Refusal::Gone));
        }
        let Some(copy) = self.visible(id) else {
            return Ok(Reply::Refused(Refusal::Absent));
        };
        if !copy.kind.is_primary() {
            return Ok(Reply::Refused(Refusal::NotOwner));
        }
        if copy.has_borrower(task) {
            return Ok(Reply::Refused(Refusal::Exists));
        }
        if copy.borrowers.len() >= MOST_BORROWERS {
            return Ok(Reply::Refused(Refusal::TooMany));
        }
        if let Some(copy) = self.copy_mut(id) {
            lists::push(&mut copy.borrowers, task)?;
        }
        Ok(Reply::Ok)
    }

    /// GiveUp: the task refers to the object no longer. Takes no memory.
    pub(crate) fn give_up(&mut self, id: ObjectId, task: TaskNo) -> Reply<u64>
        ensures reply { result ≡ (give_up self.old.shape id task).reply }
        ensures store { self.new ≡ record self.old { shape = (give_up self.old.shape id task).shape } }
        ensures used { (give_up self.old.shape id task).used ≡ None }
    {
        let Some(copy) = self.visible(id) else {
            return Reply::Refused(Refusal::Absent);
        };
        if !copy.kind.is_primary() {
            return Reply::Refused(Refusal::NotOwner);
        }
        if !copy.has_borrower(task) {
            return Reply::Refused(Refusal::Absent);
        }
        self.apply_scoped(id, Mark::GivenUp(task));
        Reply::Ok
    }

    /// Delete: the copy is doomed, whoever refers to it. Takes no memory.
    pub(crate) fn delete(&mut self, id: ObjectId) -> Reply<u64>
        ensures reply { result ≡ (delete self.old.shape id).reply }
        ensures store { self.new ≡ record self.old { shape = (delete self.old.shape id).shape } }
        ensures used { (delete self.old.shape id).used ≡ None }
    {
        if self.visible(id).is_none() {
            return Reply::Refused(Refusal::Absent);
        }
        if self.is_granted(id) {
            return Reply::Refused(Refusal::Granted);
        }
        self.doomed(id);
        Reply::Ok
    }
}
