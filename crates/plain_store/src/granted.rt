//! What others granted to the job.
#![tactic(auto, unfolding(private_store::specs::rules::Change::checked, private_store::specs::rules::Change::needing, private_store::specs::rules::Change::sending))]

ghost use Rattle.std.specs.Prelude.{◌≡◌, ◌&&◌, filter, not, is_some, true, IfOk, OnOk};
ghost use Rattle.std.specs.Borrow.{sem};
ghost use Rattle.std.specs.List.{list_any};
ghost use Rattle.std.specs.Option.{option_copied, option_copied_mut};
ghost use Rattle.private_store.specs.rules.Tables.{at};
ghost use Rattle.private_store.specs.rules.Commands.{oldest};
ghost use Rattle.private_store.specs.rules.Events.{is_child_of, is_the_grant, received, withdrawn, without_grant};
ghost use Rattle.plain_store.specs.Granted.{store_with_seen, without_seen, with_other_grants, without_hanging, forgotten};

use crate::job_grants::{GivenGrant, SeenObject, TakenGrant};
use crate::predicates::same_id;
use crate::store::PlainStore;
use memory_growth::{OutOfMemory, lists, ordered};
use obj_id::{JobNo, ObjectId, Reply};
use std::alloc::Global;

impl TakenGrant {
    /// Whether the grantor gave it at this depth.
    pub(crate) fn is_the_grant(&self, grantor: JobNo, depth: u32) -> bool
        ensures { result ≡ is_the_grant grantor.0 depth self.now }
    {
        self.grantor.0 == grantor.0 && self.depth == depth
    }
}

impl SeenObject {
    /// Whether the grantor's grant at this depth stands.
    pub(crate) fn has_grant(&self, grantor: JobNo, depth: u32) -> bool
        ensures { result ≡ list_any (is_the_grant grantor.0 depth) self.now.grants }
    {
        self.grants
            .iter()
            .any(|grant| grant.is_the_grant(grantor, depth))
    }

    /// Whether another grant stands.
    pub(crate) fn has_other_grant(&self, grantor: JobNo, depth: u32) -> bool
        ensures { result ≡ list_any (λ grant. not (is_the_grant grantor.0 depth grant)) self.now.grants }
    {
        self.grants
            .iter()
            .any(|grant| !grant.is_the_grant(grantor, depth))
    }

    /// The grantor's grants at this depth end. Takes no memory.
    pub(crate) fn remove_grant(&mut self, grantor: JobNo, depth: u32)
        ensures { self.new ≡ with_other_grants self.old grantor.0 depth }
    {
        self.grants
            .retain(|grant| !grant.is_the_grant(grantor, depth));
    }
}

impl GivenGrant {
    /// Whether it is a grant of the object that hangs on one by the grantor.
    pub(crate) fn is_child_of(&self, id: ObjectId, grantor: JobNo) -> bool
        ensures { result ≡ is_child_of id grantor.0 self.now }
    {
        same_id(&id, &self.id)
            && match self.parent {
                Some(job) => job.0 == grantor.0,
                None => false,
            }
    }
}

impl PlainStore {
    ghost use Rattle.plain_store.specs.Lending.{LendsSeen};

    /// What others granted of the object, if anything. Takes a look-up.
    pub(crate) fn seen(&self, id: ObjectId) -> Option<&SeenObject>
        ensures { option_copied result ≡ at self.now.shape.received id }
    {
        self.received.get(&id)
    }

    /// The oldest standing grant of the object that was given to the job.
    pub(crate) fn oldest(&self, id: ObjectId) -> Option<&TakenGrant>
        ensures { option_copied result ≡ oldest self.now.shape id }
    {
        self.seen(id)?.grants.first()
    }

    /// What others granted of the object, to be changed. Takes a look-up.
    pub(crate) fn seen_mut(&mut self, id: ObjectId) -> Option<&mut SeenObject>
        ensures* writes_back { sem 𝓛 (LendsSeen self.entry id result) }
        ensures value { option_copied_mut result ≡ at self.old.shape.received id }
    {
        self.received.get_mut(&id)
    }

    /// The object as it is seen, in place of what was seen of it. The error is out of memory.
    pub(crate) fn insert_seen(&mut self, id: ObjectId, seen: SeenObject) -> Result<(), OutOfMemory>
        ensures { OnOk result (self.new ≡ store_with_seen self.old id seen) }
    {
        ordered::insert(&mut self.received, id, seen)?;
        Ok(())
    }

    /// The object is seen no longer. Takes no memory.
    pub(crate) fn remove_seen(&mut self, id: ObjectId)
        ensures { self.new ≡ without_seen self.old id }
    {
        // a map says of its `len` that its keys rise
        let _count = self.received.len();
        self.received.remove(&id);
    }

    /// Received: another grant of the object, the youngest, and the object's length. The error is out of memory.
    pub(crate) fn received(
        &mut self,
        alloc: Global,
        id: ObjectId,
        length: u32,
        grantor: JobNo,
        depth: u32,
    ) -> Result<Reply<u64>, OutOfMemory>
        ensures reply { IfOk result (λ reply. reply ≡ (received self.old.shape id length grantor.0 depth).reply) }
        ensures store { OnOk result (self.new ≡ record self.old { shape = (received self.old.shape id length grantor.0 depth).shape }) }
        ensures used { (received self.old.shape id length grantor.0 depth).used ≡ None }
    {
        let grant = TakenGrant { grantor, depth };
        if let Some(seen) = self.seen_mut(id) {
            seen.add(grant, length)?;
            return Ok(Reply::Ok);
        }
        let mut grants = Vec::new(alloc);
        lists::push(&mut grants, grant)?;
        self.insert_seen(id, SeenObject { length, grants })?;
        Ok(Reply::Ok)
    }

    /// The grantor's grant of the object at this depth ends, if it stands. Takes no memory.
    fn forget_grant(&mut self, id: ObjectId, grantor: JobNo, depth: u32)
        ensures { self.new ≡ forgotten self.old id grantor.0 depth }
    {
        let Some(seen) = self.seen(id) else {
            return;
        };
        if !seen.has_other_grant(grantor, depth) {
            self.remove_seen(id);
            return;
        }
        if let Some(seen) = self.seen_mut(id) {
            seen.remove_grant(grantor, depth);
        }
    }

    /// The given grants end that hang on the grantor's grant of the object. Takes no memory.
    fn drop_hanging(&mut self, id: ObjectId, grantor: JobNo)
        ensures { self.new ≡ without_hanging self.old id grantor.0 }
    {
        self.given.retain(|grant| !grant.is_child_of(id, grantor));
    }

    /// Withdrawn: a grant that stands ends, and with it those given here that hang on it. Takes no memory.
    pub(crate) fn withdrawn(&mut self, id: ObjectId, grantor: JobNo, depth: u32) -> Reply<u64>
        ensures reply { result ≡ (withdrawn self.old.shape id grantor.0 depth).reply }
        ensures store { self.new ≡ record self.old { shape = (withdrawn self.old.shape id grantor.0 depth).shape } }
        ensures used { (withdrawn self.old.shape id grantor.0 depth).used ≡ None }
    {
        let Some(seen) = self.seen(id) else {
            return Reply::Ok;
        };
        if !seen.has_grant(grantor, depth) {
            return Reply::Ok;
        }
        self.forget_grant(id, grantor, depth);
        self.drop_hanging(id, grantor);
        Reply::Ok
    }
}
