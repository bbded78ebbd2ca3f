//! Admission, change of quota and end, and the answers of the device.
#![tactic(auto, unfolding(private_store::specs::rules::Change::checked, private_store::specs::rules::Change::needing, private_store::specs::rules::Change::sending))]

ghost use Rattle.std.specs.Prelude.{◌≡◌, ◌≤◌, length, option_map, IfOk};
ghost use Rattle.std.specs.Option.{option_copied};
ghost use Rattle.private_store.specs.rules.Limits.{is_quota as is_quota_lem, most_copies};
ghost use Rattle.private_store.specs.rules.Events.{begin, is_live, over, requota, without_work, work_of};
ghost use Rattle.private_store.specs.rules.Marks.{read_mark as read_mark_lem};
ghost use Rattle.plain_store.specs.Marks.{mark_of};
ghost use Rattle.private_store.specs.rules.Events.{answer, written};

use crate::copies::PlainWork;
use crate::marks::Mark;
use crate::store::{Life, PlainStore};
use obj_id::limits::{GREATEST_DEVICE_QUOTA, UNIT, WIDEST_WINDOW};
use obj_id::{Quota, Refusal, Reply};
use private_store::{Fault, WorkVerdict};
use std::alloc::Global;

/// Whether both quotas are within their ranges.
fn is_quota(quota: Quota) -> bool
    ensures { result ≡ is_quota_lem quota }
{
    quota.window >= UNIT
        && quota.window <= WIDEST_WINDOW
        && quota.window % UNIT == 0
        && quota.device <= GREATEST_DEVICE_QUOTA
}

/// What the answer of its read makes of a copy.
fn read_mark(verdict: WorkVerdict) -> Mark
    ensures { mark_of result ≡ read_mark_lem verdict }
{
    match verdict {
        WorkVerdict::Fine => Mark::Restored,
        WorkVerdict::Failed => Mark::Lost(Fault::DeviceFailed),
        WorkVerdict::Damaged => Mark::Lost(Fault::Damaged),
    }
}

impl PlainStore {
    /// Whether the job lives here.
    pub(crate) fn is_live(&self) -> bool
        ensures { result ≡ is_live self.now.shape }
    {
        matches!(self.life, Life::Live)
    }

    /// Begin: a job begins once at a node. Takes no memory.
    pub(crate) fn begin(&mut self, quota: Quota) -> Reply<u64>
        ensures reply { result ≡ (begin self.old.shape quota).reply }
        ensures store { self.new ≡ record self.old { shape = (begin self.old.shape quota).shape } }
        ensures used { (begin self.old.shape quota).used ≡ None }
    {
        if self.has_begun() {
            return Reply::Refused(Refusal::Stale);
        }
        if !is_quota(quota) {
            return Reply::Refused(Refusal::BadSize);
        }
        self.life = Life::Live;
        self.quota = quota;
        Reply::Ok
    }

    /// Requota: the quota is another, if what is used is within it. Takes no memory.
    pub(crate) fn requota(&mut self, quota: Quota) -> Reply<u64>
        requires { length self.old.shape.copies ≤ most_copies }
        ensures reply { result ≡ (requota self.old.shape quota).reply }
        ensures store { self.new ≡ record self.old { shape = (requota self.old.shape quota).shape } }
        ensures used { (requota self.old.shape quota).used ≡ None }
    {
        if !is_quota(quota) {
            return Reply::Refused(Refusal::BadSize);
        }
        if !self.fits_quota(quota) {
            return Reply::Refused(Refusal::Full);
        }
        self.quota = quota;
        Reply::Ok
    }

    /// What is left of a store that has ended: what others granted. The order of use stays. Takes no memory.
    pub(crate) fn over(self, alloc: Global) -> PlainStore
        ensures { result ≡ record self { shape = over self.shape } }
    {
        PlainStore {
            life: Life::Ended,
            received: self.received,
            order: self.order,
            ..PlainStore::new(alloc, self.job)
        }
    }

    /// The work in flight of this number, if there is one. Takes a walk over the works.
    pub(crate) fn work_of(&self, number: u64) -> Option<&PlainWork>
        ensures { option_copied result ≡ work_of self.now.shape number }
    {
        self.works.iter().find(|work| work.number == number)
    }

    /// The work of this number is in flight no longer. Takes no memory.
    pub(crate) fn without_work(&mut self, number: u64)
        ensures { self.new ≡ record self.old { shape = without_work self.old.shape number } }
    {
        self.works.retain(|work| work.number != number);
    }

    /// A device's answer: the work ends. Takes no memory.
    pub(crate) fn answer(&mut self, number: u64, verdict: WorkVerdict) -> Reply<u64>
        ensures reply { result ≡ (answer self.old.shape number verdict).reply }
        ensures store { self.new ≡ record self.old { shape = (answer self.old.shape number verdict).shape } }
        ensures used { (answer self.old.shape number verdict).used ≡ None }
    {
        let Some(work) = self.work_of(number) else {
            return Reply::Refused(Refusal::Stale);
        };
        let (id, number_of_write, writes) = (work.id, work.number, work.writes);
        if self.copy(id).is_none() {
            return Reply::Refused(Refusal::Stale);
        }
        self.without_work(number);
        if !writes {
            self.apply(id, read_mark(verdict));
        } else if verdict == WorkVerdict::Failed {
            self.spill_failed = true;
        } else {
            self.apply(id, Mark::Backed(number_of_write));
        }
        self.settled(id);
        Reply::Ok
    }
}
