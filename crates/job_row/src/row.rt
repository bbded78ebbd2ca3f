//! The row of one job.
ghost use Rattle.std.specs.Prelude.{◌≡◌, ◌↔◌, ℕ, ◌+◌, ◌^◌, ◌≤◌, ◌<◌, [], length, true, false, None, IfOk, OnOk, OnErr, IsErr, IsErrOf};
ghost use Rattle.obj_id.specs.declared.refusals.Refusal.{Refusal};
ghost use Rattle.obj_id.specs.declared.refusals.Failure.TheVariants.{Refused};
ghost use Rattle.obj_id.specs.declared.refusals.Refusal.TheVariants.{BadSize};
ghost use Rattle.private_store.specs.rules.Limits.{is_window, most_works};
ghost use Rattle.job_region.specs.Region.{region_resize_check};
ghost use Rattle.lru_evictor.specs.Facts.{fits_without as is_room_without};
ghost use Rattle.private_store.specs.laws.Invariants.{is_remembered};
ghost use Rattle.lru_evictor.specs.Orders.{order_ids};
ghost use Rattle.job_row.specs.InSync.{InSync, AreListed, facts_in};
ghost use Rattle.private_store.specs.rules.Shape.{Shape};
ghost use Rattle.private_store.specs.rules.Room.{plan as room_plan};
ghost use Rattle.lru_evictor.specs.Plans.{IsDescribed, plan_kind_of};
ghost use Rattle.job_row.specs.Quotas.{requoted};
ghost use Rattle.job_row.specs.Row.{new_row, place_of, ArePlaced};
ghost use Rattle.job_row.specs.EndingTasks.{task_row};
ghost use Rattle.lru_evictor.specs.declared.facts.Plan.TheVariants as plan_kind;

use crate::copies::Copies;
use bytes::Bytes;
use hashed_bytes::Hashed;
use indexmap::IndexSet;
use job_region::Window;
use lru_evictor::{DeviceRoom, Plan, UseOrder};
use memory_growth::{OutOfMemory, lists, sets};
use obj_id::{Extent, Failure, ItemList, JobNo, ObjectId, Quota, TaskNo};
use std::alloc::Global;
use std::marker::Model;

/// What a node keeps of one live job. A contract sees the job's store without contents in it, and the
/// contents that it shows.
pub struct JobRow {
    pub(crate) job: JobNo,
    pub(crate) window: Window,
    // what the job may have on the device, in bytes
    pub(crate) device_quota: u64,
    pub(crate) copies: Copies,
    pub(crate) order: UseOrder,
    // the last number that a fetch had
    pub(crate) fetches_begun: u64,
    // whether a spill failed since room was last refused for it
    pub(crate) spill_failed: bool,
    // in the order in which they ended
    pub(crate) ended_tasks: IndexSet<TaskNo>,
    // bytes of which a step may want the digest
    pub(crate) hashed: Option<Hashed>,
    // bytes that may fill an extent
    pub(crate) filled: Option<Bytes>,
}

// By hand, so that it is proved here and not in each crate above.
impl Drop for JobRow {
    fn drop(self) {
        let JobRow {
            job: _job,
            window: _window,
            device_quota: _device_quota,
            copies: _copies,
            order: _order,
            fetches_begun: _fetches_begun,
            spill_failed: _spill_failed,
            ended_tasks: _ended_tasks,
            hashed: _hashed,
            filled: _filled,
        } = self;
    }
}

impl Model for JobRow {
    ghost use Rattle.job_row.specs.Row.{Row, place_of, ArePlaced};
    ghost use Rattle.job_row.specs.InSync.{InSync};
    ghost use Rattle.lru_evictor.specs.Orders.{order_ids};

    ghost Value = { Row };

    ghost view = { λ r. record { job = r.job.0; window = r.window; device = r.device_quota; copies = r.copies; order = order_ids r.order; fetches_begun = r.fetches_begun; spill_failed = r.spill_failed; ended_tasks = r.ended_tasks.keys } };

    ghost invariant = { λ r. ArePlaced r.window.placed (place_of r.copies) × InSync r.copies r.order };
}

impl JobRow {
    /// The row of a job that was admitted now: no copies, and a window of zeros. `BadSize` unless the
    /// window's size is one; out of memory comes last.
    pub fn new(alloc: Global, job: JobNo, quota: Quota) -> Result<JobRow, Failure>
        ensures ok { IfOk result (λ r. r ≡ new_row job.0 quota) }
        ensures size { IsErrOf result (Refused BadSize) ↔ (is_window quota.window ≡ false) }
        ensures refused { (r : Refusal) → IsErrOf result (Refused r) → r ≡ BadSize }
    {
        let window = Window::new(alloc, quota.window)?;
        Ok(JobRow {
            job,
            window,
            device_quota: quota.device,
            copies: Copies::new(alloc),
            order: UseOrder::new(alloc),
            fetches_begun: 0,
            spill_failed: false,
            ended_tasks: IndexSet::new(alloc),
            hashed: None,
            filled: None,
        })
    }

    /// The job's number.
    pub fn job(&self) -> JobNo
        ensures { result ≡ record { 0 = self.now.job } }
    {
        self.job
    }

    /// What it may have in its window and on the device, in bytes.
    pub fn quota(&self) -> Quota
        ensures { result ≡ record { window = self.now.window.quota; device = self.now.device } }
    {
        Quota {
            window: self.window.quota(),
            device: self.device_quota,
        }
    }

    /// The job may have so many bytes in its window and on the device. The error is out of memory, which a narrower window
    /// never is, and then nothing has changed.
    pub fn set_quota(&mut self, quota: Quota) -> Result<(), OutOfMemory>
        requires { region_resize_check self.old.window quota.window ≡ None }
        ensures ok { OnOk result (self.new ≡ requoted self.old quota) }
        ensures memory { IsErr result → self.old.window.quota < quota.window }
        ensures err { OnErr result (self.new ≡ self.old) }
    {
        match self.window.resize(quota.window) {
            Err(Failure::Memory(error)) => Err(error),
            Err(Failure::Refused(_)) => unreachable!(),
            Ok(()) => {
                self.device_quota = quota.device;
                Ok(())
            }
        }
    }

    /// Its copies.
    pub fn copies(&self) -> &Copies
        ensures copies { result.now ≡ self.now.copies }
        ensures placed { ArePlaced self.now.window.placed (place_of self.now.copies) }
    {
        &self.copies
    }

    /// How many copies it has.
    pub fn copy_count(&self) -> usize
        ensures count { result ≡ length self.now.copies }
        ensures small { result < 2 ^ 63 }
    {
        self.copies.len()
    }

    /// Its window.
    pub fn window(&self) -> &Window
        ensures { result.now ≡ self.now.window }
    {
        &self.window
    }

    /// What the job may have on the device, in bytes.
    pub fn device_quota(&self) -> u64
        ensures { result ≡ self.now.device }
    {
        self.device_quota
    }

    /// The order of use of its copies, with where each lies and the classes of victims that it is in.
    pub fn use_order(&self) -> &UseOrder
        ensures ids { order_ids result.now ≡ self.now.order }
        ensures infos { InSync self.now.copies result.now }
        ensures placed { ArePlaced self.now.window.placed (place_of self.now.copies) }
    {
        &self.order
    }

    /// How room for an object of `len` bytes is made in the window by the rule of room, if the device has this of the job. Takes no
    /// memory, and changes nothing in the end.
    pub fn plan(&mut self, len: u32, device: DeviceRoom) -> Plan
        ensures plan { (store : Shape) → AreListed self.old.copies self.old.order → IsDescribed store self.old.window device (facts_in self.old.copies)
            → result ≡ plan_kind_of (room_plan self.old.order store len) }
        ensures room { result ≡ plan_kind.Fits → is_room_without self.old.window (facts_in self.old.copies) len [] ≡ true }
        ensures left { (k : ℕ) → result ≡ plan_kind.Spill k → k + device.works ≤ most_works }
        ensures same { self.new ≡ self.old }
        ensures placed { ArePlaced self.old.window.placed (place_of self.old.copies) }
    {
        self.order.plan(len, device, &self.window, &self.copies)
    }

    /// Where the copy lies in the window, if it is there and resident.
    pub fn place(&self, id: &ObjectId) -> Option<Extent>
        ensures { result ≡ place_of self.now.copies id.now }
    {
        self.copies.get(id)?.extent()
    }

    /// The last number that a fetch had.
    pub fn fetches_begun(&self) -> u64
        ensures { result ≡ self.now.fetches_begun }
    {
        self.fetches_begun
    }

    /// Whether a spill failed since room was last refused for it.
    pub fn spill_failed(&self) -> bool
        ensures { result ≡ self.now.spill_failed }
    {
        self.spill_failed
    }

    /// That a spill failed has been answered.
    pub fn forget_failed_spill(&mut self)
        ensures { self.new ≡ record self.old { spill_failed = false } }
    {
        self.spill_failed = false;
    }

    /// Whether a spill failed since room was last refused for it, put back after a step that isn't to tell of it.
    pub fn put_spill_failed(&mut self, spill_failed: bool)
        ensures { self.new ≡ record self.old { spill_failed = spill_failed } }
    {
        self.spill_failed = spill_failed;
    }

    /// Whether the task has ended here. Looks it up once.
    pub fn has_ended(&self, task: TaskNo) -> bool
        ensures { result ≡ is_remembered self.now.ended_tasks task }
    {
        self.ended_tasks.contains(&task)
    }

    /// The tasks that have ended here, in the order in which they ended. Takes a walk over them, and memory for each.
    pub fn ended_tasks(&self, alloc: Global) -> Result<ItemList<TaskNo>, OutOfMemory>
        ensures { IfOk result (λ tasks. tasks ≡ self.now.ended_tasks) }
    {
        let mut tasks = Vec::new(alloc);
        for task in &self.ended_tasks {
            lists::push(&mut tasks, *task)?;
        }
        Ok(ItemList::from_vec(tasks))
    }

    /// How many tasks have ended here.
    pub(crate) fn ended_count(&self) -> usize
        ensures { result ≡ length self.now.ended_tasks }
    {
        self.ended_tasks.len()
    }

    /// The task is remembered as the last one that ended, and no grant of its objects stands any more. The error is
    /// out of memory, and then nothing has changed.
    pub fn remember_end(&mut self, task: TaskNo) -> Result<(), OutOfMemory>
        requires { is_remembered self.old.ended_tasks task ≡ false }
        ensures ok { OnOk result (self.new ≡ task_row task self.old) }
        ensures placed { OnOk result (ArePlaced self.old.window.placed (place_of self.old.copies)) }
        ensures err { OnErr result (self.new ≡ self.old) }
    {
        sets::insert(&mut self.ended_tasks, task)?;
        self.copies.end_grants(task);
        self.copies.sync_all(&mut self.order);
        Ok(())
    }
}
