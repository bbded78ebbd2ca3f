//! Create: an extent of zeros.
ghost use Rattle.std.specs.Prelude.{◌≡◌, ◌∷◌, [], length, not, true, is_some, IfOk, OnOk};
ghost use Rattle.private_store.specs.rules.Tables.{at};
ghost use Rattle.private_store.specs.rules.Limits.{is_quota};
ghost use Rattle.private_store.specs.rules.Change.{has_ended};
ghost use Rattle.private_store.specs.rules.Commands.{is_length, is_full_of_copies, create_checks, new_copy as new_copy_lem, create};
ghost use Rattle.private_store.specs.rules.Shared.{first_refusal};

use crate::copies::PlainCopy;
use crate::predicates::same_task;
use crate::response::Response;
use crate::store::PlainStore;
use memory_growth::OutOfMemory;
use obj_id::limits::{LONGEST_OBJECT, MOST_COPIES};
use obj_id::{CopyState, Kind, ObjectId, Refusal, Reply, TaskNo};
use private_store::rounded;
use std::alloc::Global;

impl PlainStore {
    /// Whether an object of `length` bytes may be in the window.
    pub(crate) fn is_length(&self, length: u32) -> bool
        ensures { result ≡ is_length self.now.shape length }
    {
        length > 0 && length <= LONGEST_OBJECT && rounded(length) <= self.quota.window
    }

    /// Whether there may be no other copy.
    pub(crate) fn is_full_of_copies(&self) -> bool
        ensures { result ≡ is_full_of_copies (length self.now.shape.copies) }
    {
        self.copies.len() >= MOST_COPIES
    }

    /// Why the object can't be created, before there is room for it.
    fn create_check(&self, id: ObjectId, length: u32) -> Option<Refusal>
        ensures { result ≡ first_refusal (create_checks self.now.shape.quota.window self.now.shape.ended_tasks self.now.shape.copies id length) }
    {
        if !self.is_length(length) {
            return Some(Refusal::BadSize);
        }
        if self.has_ended(id.task()) {
            return Some(Refusal::Gone);
        }
        if self.copy(id).is_some() {
            return Some(Refusal::Exists);
        }
        if self.is_full_of_copies() {
            return Some(Refusal::TooMany);
        }
        None
    }

    #[tactic(auto, unfolding(private_store::specs::rules::Change::checked, private_store::specs::rules::Change::in_room, private_store::specs::rules::Change::sending))]
    /// Create: a copy to be written of `length` bytes, and where it lies in the window. `BadSize`, `Gone`, `Exists`,
    /// `TooMany`, and as `make_room`. The error is out of memory.
    pub(crate) fn create(
        &mut self,
        alloc: Global,
        id: ObjectId,
        kind: Kind,
        length: u32,
    ) -> Result<Response, OutOfMemory>
        requires { is_quota self.old.shape.quota ≡ true }
        ensures reply { IfOk result (λ response. response.reply ≡ (create self.old.order self.old.shape id kind length).reply) }
        ensures used { IfOk result (λ response. response.used ≡ (create self.old.order self.old.shape id kind length).used) }
        ensures store { OnOk result (self.new ≡ record self.old { shape = (create self.old.order self.old.shape id kind length).shape }) }
    {
        if let Some(refusal) = self.create_check(id, length) {
            return Ok(Response::refused(refusal));
        }
        let offset = match self.make_room(alloc, length)? {
            Ok(offset) => offset,
            Err(refusal) => return Ok(Response::refused(refusal)),
        };
        self.insert(id, new_copy(alloc, kind, length, offset))?;
        Ok(Response {
            reply: Reply::Placed(offset, rounded(length) as u32),
            used: Some(id),
        })
    }
}

/// A copy to be written; a primary is pinned by the task that owns it. Takes no memory.
fn new_copy(alloc: Global, kind: Kind, length: u32, offset: u32) -> PlainCopy
    ensures { result ≡ new_copy_lem kind length offset }
{
    PlainCopy {
        state: CopyState::Created,
        kind,
        length,
        offset: Some(u64::from(offset)),
        pinned: kind.is_primary(),
        borrowers: Vec::new(alloc),
        holds: Vec::new(alloc),
        backed: None,
        doomed: false,
        fault: None,
        fetch: None,
    }
}
