//! The grants that a job gives, and what others granted to it.
#![tactic(auto, unfolding(private_store::specs::rules::Change::checked, private_store::specs::rules::Change::needing, private_store::specs::rules::Change::sending))]

ghost use Rattle.std.specs.Prelude.{◌≡◌, ◌++◌, ◌∷◌, [], filter, not, option_map, ◌&&◌, ◌==◌, IfOk, OnOk};
ghost use Rattle.obj_id.specs.Ids.{same_id as same_id_lem};
ghost use Rattle.private_store.specs.rules.Commands.{grant, grant_foreign, grant_own, has_given, is_sealed_primary, peek, withdraw};

use crate::copies::PlainCopy;
use crate::job_grants::GivenGrant;
use crate::predicates::{is_sealed, same_id};
use crate::store::PlainStore;
use memory_growth::{OutOfMemory, lists};
use obj_id::limits::{GREATEST_DEPTH, MOST_BYTES, MOST_GRANTS};
use obj_id::{JobNo, ObjectId, Refusal, Reply};

impl PlainCopy {
    /// Whether it is a sealed primary in memory.
    pub(crate) fn is_sealed_primary(&self) -> bool
        ensures { result ≡ is_sealed_primary self.now }
    {
        self.kind.is_primary() && is_sealed(self.state)
    }
}

impl PlainStore {
    /// Whether the job gave the target this object.
    pub(crate) fn has_given(&self, id: ObjectId, target: JobNo) -> bool
        ensures { result ≡ has_given self.now.shape id target.0 }
    {
        self.given.iter().any(|grant| same_id(&id, &grant.id) && grant.target.0 == target.0)
    }

    /// The grant is given, as the youngest. The error is out of memory.
    fn give(
        &mut self,
        id: ObjectId,
        target: JobNo,
        parent: Option<JobNo>,
    ) -> Result<(), OutOfMemory>
        ensures { OnOk result (self.new ≡ record self.old { shape = record self.old.shape { given = self.old.shape.given ++ record { id = id; target = target.0; parent = option_map (λ grantor. grantor.0) parent } ∷ [] } }) }
    {
        lists::push(&mut self.given, GivenGrant { id, target, parent })?;
        Ok(())
    }

    /// Grant of the job's own object. The error is out of memory.
    pub(crate) fn grant_own(
        &mut self,
        id: ObjectId,
        target: JobNo,
    ) -> Result<Reply<u64>, OutOfMemory>
        ensures reply { IfOk result (λ reply. reply ≡ (grant_own self.old.shape id target.0).reply) }
        ensures store { OnOk result (self.new ≡ record self.old { shape = (grant_own self.old.shape id target.0).shape }) }
        ensures used { (grant_own self.old.shape id target.0).used ≡ None }
    {
        if target.0 == 0 || target.0 == self.job.0 {
            return Ok(Reply::Refused(Refusal::BadId));
        }
        if self.has_ended(id.task()) {
            return Ok(Reply::Refused(Refusal::Gone));
        }
        let Some(copy) = self.visible(id) else {
            return Ok(Reply::Refused(Refusal::Absent));
        };
        if !copy.is_sealed_primary() {
            return Ok(Reply::Refused(Refusal::NotResident));
        }
        if self.has_given(id, target) {
            return Ok(Reply::Refused(Refusal::Exists));
        }
        if self.given.len() >= MOST_GRANTS {
            return Ok(Reply::Refused(Refusal::TooMany));
        }
        self.give(id, target, None)?;
        Ok(Reply::Ok)
    }

    /// Grant that hands on another job's object. The error is out of memory.
    pub(crate) fn grant_foreign(
        &mut self,
        id: ObjectId,
        target: JobNo,
    ) -> Result<Reply<u64>, OutOfMemory>
        ensures reply { IfOk result (λ reply. reply ≡ (grant_foreign self.old.shape id target.0).reply) }
        ensures store { OnOk result (self.new ≡ record self.old { shape = (grant_foreign self.old.shape id target.0).shape }) }
        ensures used { (grant_foreign self.old.shape id target.0).used ≡ None }
    {
        if target.0 == 0 || target.0 == self.job.0 || target.0 == id.job().0 {
            return Ok(Reply::Refused(Refusal::BadId));
        }
        let Some(grant) = self.oldest(id) else {
            return Ok(Reply::Refused(Refusal::NotGranted));
        };
        if self.has_given(id, target) {
            return Ok(Reply::Refused(Refusal::Exists));
        }
        if grant.depth >= GREATEST_DEPTH || self.given.len() >= MOST_GRANTS {
            return Ok(Reply::Refused(Refusal::TooMany));
        }
        let grantor = grant.grantor;
        self.give(id, target, Some(grantor))?;
        Ok(Reply::Ok)
    }

    /// Grant: the target may peek, whether or not it lives. The error is out of memory.
    pub(crate) fn grant(&mut self, id: ObjectId, target: JobNo) -> Result<Reply<u64>, OutOfMemory>
        ensures reply { IfOk result (λ reply. reply ≡ (grant self.old.shape id target.0).reply) }
        ensures store { OnOk result (self.new ≡ record self.old { shape = (grant self.old.shape id target.0).shape }) }
        ensures used { (grant self.old.shape id target.0).used ≡ None }
    {
        if id.job().0 == self.job.0 {
            self.grant_own(id, target)
        } else {
            self.grant_foreign(id, target)
        }
    }

    /// The grant ends that was given to the target. Takes no memory.
    fn take_back(&mut self, id: ObjectId, target: JobNo)
        ensures { self.new ≡ record self.old { shape = record self.old.shape { given = filter (λ grant. not (same_id_lem id grant.id && grant.target == target.0)) self.old.shape.given } } }
    {
        self.given.retain(|grant| !(same_id(&id, &grant.id) && grant.target.0 == target.0));
    }

    /// Withdraw: the grant ends. Takes no memory.
    pub(crate) fn withdraw(&mut self, id: ObjectId, target: JobNo) -> Reply<u64>
        ensures reply { result ≡ (withdraw self.old.shape id target.0).reply }
        ensures store { self.new ≡ record self.old { shape = (withdraw self.old.shape id target.0).shape } }
        ensures used { (withdraw self.old.shape id target.0).used ≡ None }
    {
        if !self.has_given(id, target) {
            return Reply::Refused(Refusal::NotGranted);
        }
        self.take_back(id, target);
        self.settled(id);
        Reply::Ok
    }

    /// Peek at `count` bytes of an object that another job granted, which changes nothing.
    pub(crate) fn peek(&self, id: ObjectId, offset: u32, count: u32) -> Reply<u64>
        ensures reply { result ≡ (peek self.now.shape id offset count).reply }
        ensures store { (peek self.now.shape id offset count).shape ≡ self.now.shape }
        ensures used { (peek self.now.shape id offset count).used ≡ None }
    {
        if id.job().0 == self.job.0 {
            return Reply::Refused(Refusal::NotGranted);
        }
        let Some(seen) = self.seen(id) else {
            return Reply::Refused(Refusal::NotGranted);
        };
        if count as usize > MOST_BYTES {
            return Reply::Refused(Refusal::BadSize);
        }
        if u64::from(seen.length) < u64::from(offset) + u64::from(count) {
            return Reply::Refused(Refusal::OutOfBounds);
        }
        Reply::Bytes(u64::from(count))
    }
}
