//! The live jobs of a node: their quotas, their keys, their windows in the node's memory, and the numbers of
//! their sessions. A contract sees them in the order of their admission, each with the offset of its window.
#![tactic(auto)]

ghost use Rattle.std.specs.Prelude.{◌≡◌, ◌≢◌, ◌↔◌, ◌+◌, ◌^◌, ◌<◌, ◌≤◌, ◌&&◌, [], Some, None, true, false, not, nat_le, find, IfOk, IfErr, OnOk, OnErr, IsErrOf, IsOk, is_ok, IsTrue, IsSomeAnd, is_some, option_map, length, map, filter};
ghost use Rattle.std.specs.List.{list_all};
ghost use Rattle.obj_id.specs.declared.ids.JobNo.{JobNo};
ghost use Rattle.obj_id.specs.declared.refusals.Refusal.{Refusal};
ghost use Rattle.obj_id.specs.declared.refusals.Refusal.TheVariants.{NotAdmitted};
ghost use Rattle.obj_id.specs.declared.refusals.Failure.TheVariants.{Refused, Memory};
ghost use Rattle.memory_growth.specs.declared.OutOfMemory.{OutOfMemory};
ghost use Rattle.private_store.specs.rules.Jobs.{same_job};
ghost use Rattle.private_store.specs.rules.Limits.{is_window, is_quota as is_quota_lem};
ghost use Rattle.private_store.specs.rules.Extents.{is_apart as is_apart_lem, end_of};
ghost use Rattle.private_store.specs.rules.Shared.{job_is, widened, admitted as admitted_lem, windows_without};
ghost use Rattle.job_admission.specs.Admissions.{largest_memory, live_at, window_of, lives_of, windows, window_place_for, admit_check as admit_check_lem, with_admitted, resize_check as resize_check_lem, resized, enter_check as enter_check_lem, sessions_entered as sessions_entered_lem, entered, finished, AreAdmissionsKept};

use indexmap::IndexMap;
use memory_growth::tables;
use obj_id::limits::{GREATEST_DEVICE_QUOTA, MOST_LIVE_JOBS, UNIT, WIDEST_WINDOW};
use obj_id::{Extent, Failure, JobKey, JobNo, Quota, Refusal};
use std::alloc::Global;
use std::marker::Model;

/// A live job.
#[derive(Clone, Copy, Debug)]
pub struct Live {
    /// What it may use.
    pub quota: Quota,
    /// What its sessions must show.
    pub key: JobKey,
    /// Where its window begins in the node's memory, in bytes.
    pub offset: u64,
    /// How many session numbers were given for it.
    pub entered: u32,
}

impl Live {
    /// Its window in the node's memory.
    pub fn window(&self) -> Extent
        ensures { result ≡ window_of self.now }
    {
        Extent {
            offset: self.offset,
            length: self.quota.window,
        }
    }
}

/// The live jobs of a node, and the bytes of its memory.
pub struct Admission {
    memory: u64,
    greatest: u32,
    live: IndexMap<JobNo, Live>,
}

// By hand, so that it is proved here and not in each crate above.
impl Drop for Admission {
    fn drop(self) {
        let Admission {
            memory: _memory,
            greatest: _greatest,
            live: _live,
        } = self;
    }
}

impl Model for Admission {
    ghost use Rattle.job_admission.specs.Admissions.{Admissions, AreAdmissionsKept};

    ghost Value = { Admissions };

    ghost view = { λ a. record { memory = a.memory; greatest = a.greatest; live = a.live.entries } };

    ghost invariant = { λ a. AreAdmissionsKept (record { memory = a.memory; greatest = a.greatest; live = a.live.entries }) };
}

impl Admission {
    /// A node with so many bytes of memory and no live job. Takes no memory.
    pub fn new(alloc: Global, memory: u64) -> Admission
        requires { memory ≤ largest_memory }
        ensures { result ≡ record { memory = memory; greatest = 0; live = [] } }
    {
        Admission {
            memory,
            greatest: 0,
            live: IndexMap::new(alloc),
        }
    }

    /// Why the job can't be admitted with this quota, if there is memory for it: `BadId`, `BadSize`,
    /// `Exists`, `NoRoom`, or nothing.
    pub fn admit_check(&self, job: JobNo, quota: Quota) -> Option<Refusal>
        ensures { result ≡ admit_check_lem self.now job quota }
    {
        self.placed(job, quota).err()
    }

    /// Admits a job. Its window goes to the least multiple of 16 in the node's memory at which it meets no
    /// live job's.
    ///
    /// `BadId` for job 0, `BadSize` if the quota is out of its limits, `Exists` for a number that isn't
    /// above all that were admitted here, `NoRoom` if 64 jobs are live or no place is free, out of memory
    /// last. A refusal changes nothing.
    pub fn admit(&mut self, job: JobNo, quota: Quota, key: JobKey) -> Result<(), Failure>
        ensures ok { OnOk result (self.new ≡ with_admitted self.old job quota key) }
        ensures lives { OnOk result (lives_of self.new.live ≡ admitted_lem self.old.memory job.0 quota.window (lives_of self.old.live)) }
        ensures passed { IsOk result → admit_check_lem self.old job quota ≡ None }
        ensures refused { (r : Refusal) → IsErrOf result (Refused r) → admit_check_lem self.old job quota ≡ Some r }
        ensures memory { (m : OutOfMemory) → IsErrOf result (Memory m) → admit_check_lem self.old job quota ≡ None }
        ensures err { OnErr result (self.new ≡ self.old) }
    {
        let offset = self.placed(job, quota)?;
        let live = Live {
            quota,
            key,
            offset,
            entered: 0,
        };
        tables::insert(&mut self.live, job, live)?;
        self.greatest = job.0;
        Ok(())
    }

    /// The job lives no longer, and the bytes of its window are free. `NotAdmitted` if it isn't live;
    /// then nothing changes. Takes no memory.
    pub fn finish_job(&mut self, job: JobNo) -> Result<(), Refusal>
        ensures ok { OnOk result (self.new ≡ finished self.old job) }
        ensures lives { OnOk result (lives_of self.new.live ≡ filter (λ live. not (job_is job.0 live)) (lives_of self.old.live)) }
        ensures live { is_ok result ≡ is_some (live_at self.old job) }
        ensures refused { (r : Refusal) → IsErrOf result r → r ≡ NotAdmitted }
        ensures err { OnErr result (self.new ≡ self.old) }
    {
        if self.live.shift_remove(&job).is_none() {
            return Err(Refusal::NotAdmitted);
        }
        Ok(())
    }

    /// Why the job can't have this quota, as far as the node's memory goes: `NotAdmitted`, `BadSize`,
    /// `NoRoom`, or nothing.
    pub fn resize_check(&self, job: JobNo, quota: Quota) -> Option<Refusal>
        ensures { result ≡ resize_check_lem self.now job quota }
    {
        let Some(live) = self.live.get(&job) else {
            return Some(Refusal::NotAdmitted);
        };
        if !is_quota(quota) {
            return Some(Refusal::BadSize);
        }
        let wide = Extent {
            offset: live.offset,
            length: quota.window,
        };
        if self.has_place_beside(job, wide) {
            None
        } else {
            Some(Refusal::NoRoom)
        }
    }

    /// Gives a live job another quota; its window stays where it lies. Takes no memory.
    ///
    /// `NotAdmitted` if it isn't live, `BadSize` if the quota is out of its limits, `NoRoom` if
    /// the bytes after its window are another job's or not there. A refusal changes nothing.
    pub fn resize(&mut self, job: JobNo, quota: Quota) -> Result<(), Refusal>
        ensures ok { OnOk result (self.new ≡ resized self.old job quota) }
        ensures lives { OnOk result (lives_of self.new.live ≡ map (widened job.0 quota.window) (lives_of self.old.live)) }
        ensures passed { IsOk result → resize_check_lem self.old job quota ≡ None }
        ensures refused { (r : Refusal) → IsErrOf result r → resize_check_lem self.old job quota ≡ Some r }
        ensures err { OnErr result (self.new ≡ self.old) }
    {
        if let Some(refusal) = self.resize_check(job, quota) {
            return Err(refusal);
        }
        let Some(live) = self.live.get_mut(&job) else {
            return Err(Refusal::NotAdmitted);
        };
        live.quota = quota;
        Ok(())
    }

    /// The number of the job's next session, from 1. Takes no memory.
    ///
    /// `NotAdmitted` if the job isn't live or the key isn't its own, which are answered alike, `TooMany`
    /// if 4,294,967,295 numbers were given. A refusal changes nothing and uses no number.
    pub fn enter(&mut self, job: JobNo, key: &JobKey) -> Result<u32, Refusal>
        ensures number { IfOk result (λ number. number ≡ sessions_entered_lem self.old job + 1) }
        ensures count { IfOk result (λ number. sessions_entered_lem self.new job ≡ number) }
        ensures ok { OnOk result (self.new ≡ entered self.old job) }
        ensures others { (other : JobNo) → same_job job other ≡ false → live_at self.new other ≡ live_at self.old other }
        ensures passed { IsOk result → enter_check_lem self.old job key.now ≡ None }
        ensures refused { (r : Refusal) → IsErrOf result r → enter_check_lem self.old job key.now ≡ Some r }
        ensures err { OnErr result (self.new ≡ self.old) }
    {
        if let Some(refusal) = self.enter_check(job, key) {
            return Err(refusal);
        }
        let Some(live) = self.live.get_mut(&job) else {
            return Err(Refusal::NotAdmitted);
        };
        live.entered += 1;
        Ok(live.entered)
    }

    /// Whether the job is live and this is its key.
    pub fn key_fits(&self, job: JobNo, key: &JobKey) -> bool
        ensures { IsTrue result ↔ IsSomeAnd (live_at self.now job) (λ live. live.key ≡ key.now) }
    {
        match self.live.get(&job) {
            Some(live) => are_equal(&live.key.0, &key.0),
            None => false,
        }
    }

    /// Whether the job is live.
    pub fn is_live(&self, job: JobNo) -> bool
        ensures { result ≡ is_some (live_at self.now job) }
    {
        self.live.contains_key(&job)
    }

    /// What a live job may use.
    pub fn quota(&self, job: JobNo) -> Option<Quota>
        ensures { result ≡ option_map (λ live. live.quota) (live_at self.now job) }
    {
        self.live.get(&job).map(|live| live.quota)
    }

    /// A live job's window in the node's memory.
    pub fn window(&self, job: JobNo) -> Option<Extent>
        ensures { result ≡ option_map window_of (live_at self.now job) }
    {
        self.live.get(&job).map(|live| live.window())
    }

    /// How many jobs are live, at most 64.
    pub fn live_jobs(&self) -> usize
        ensures count { result ≡ length self.now.live }
        ensures kept { AreAdmissionsKept self.now }
    {
        self.live.len()
    }

    /// Why no session enters the job with this key: `NotAdmitted`, `TooMany`, or nothing.
    fn enter_check(&self, job: JobNo, key: &JobKey) -> Option<Refusal>
        ensures { result ≡ enter_check_lem self.now job key.now }
    {
        if !self.key_fits(job, key) {
            return Some(Refusal::NotAdmitted);
        }
        if self.sessions_entered(job) == u32::MAX {
            return Some(Refusal::TooMany);
        }
        None
    }

    /// How many session numbers were given for the job; 0 if it isn't live.
    fn sessions_entered(&self, job: JobNo) -> u32
        ensures { result ≡ sessions_entered_lem self.now job }
    {
        match self.live.get(&job) {
            Some(live) => live.entered,
            None => 0,
        }
    }

    /// Where the job's window goes, or why the job isn't admitted.
    fn placed(&self, job: JobNo, quota: Quota) -> Result<u64, Refusal>
        ensures ok { IfOk result (λ offset. window_place_for self.now quota.window ≡ Some offset) }
        ensures passed { IsOk result → admit_check_lem self.now job quota ≡ None }
        ensures err { IfErr result (λ refusal. admit_check_lem self.now job quota ≡ Some refusal) }
    {
        if job.0 == 0 {
            return Err(Refusal::BadId);
        }
        if !is_quota(quota) {
            return Err(Refusal::BadSize);
        }
        if job.0 <= self.greatest {
            return Err(Refusal::Exists);
        }
        if self.live.len() >= MOST_LIVE_JOBS {
            return Err(Refusal::NoRoom);
        }
        self.free_place(quota.window).ok_or(Refusal::NoRoom)
    }

    /// The least multiple of 16 at which so many bytes meet no live window. Behind a window that is in the
    /// way the search goes on: at each offset before its end it would be in the way again.
    fn free_place(&self, length: u64) -> Option<u64>
        requires { is_window length ≡ true }
        ensures { result ≡ window_place_for self.now length }
    {
        let mut offset = 0;
        while offset + length <= self.memory {
            let Some(window) = self.window_in_the_way(Extent { offset, length }) else {
                return Some(offset);
            };
            offset = window.offset + window.length;
        }
        None
    }

    /// The first live window that isn't apart from these bytes of the memory.
    fn window_in_the_way(&self, bytes: Extent) -> Option<Extent>
        requires { end_of bytes ≤ self.now.memory }
        ensures { result ≡ find (λ window. not (is_apart_lem bytes window)) (windows self.now.live) }
    {
        for live in self.live.values() {
            let window = live.window();
            if !is_apart(bytes, window) {
                return Some(window);
            }
        }
        None
    }

    /// Whether these bytes lie in the memory, and apart from the windows of all other jobs.
    fn has_place_beside(&self, job: JobNo, bytes: Extent) -> bool
        requires { end_of bytes < 2 ^ 64 }
        ensures { result ≡ (nat_le (end_of bytes) self.now.memory && list_all (is_apart_lem bytes) (windows_without job.0 (lives_of self.now.live))) }
    {
        if bytes.offset + bytes.length > self.memory {
            return false;
        }
        for (other, live) in self.live.iter() {
            if *other != job && !is_apart(bytes, live.window()) {
                return false;
            }
        }
        true
    }
}

/// Whether window and device bytes are both within their limits.
fn is_quota(quota: Quota) -> bool
    ensures { result ≡ is_quota_lem quota }
{
    let window = quota.window;
    window >= UNIT
        && window <= WIDEST_WINDOW
        && window % UNIT == 0
        && quota.device <= GREATEST_DEVICE_QUOTA
}

/// Whether no byte lies in both.
fn is_apart(a: Extent, b: Extent) -> bool
    requires first { end_of a < 2 ^ 64 }
    requires second { end_of b < 2 ^ 64 }
    ensures { result ≡ is_apart_lem a b }
{
    a.offset + a.length <= b.offset || b.offset + b.length <= a.offset
}

/// Whether two keys' bytes are equal. Each of them is looked at whatever the first difference, so that the
/// time taken doesn't tell how much of a key was guessed.
fn are_equal(key: &[u8; 32], shown: &[u8; 32]) -> bool
    ensures { IsTrue result ↔ (key.now ≡ shown.now) }
{
    let mut differences = 0;
    for i in 0..32 {
        differences |= key[i] ^ shown[i];
    }
    differences == 0
}
