//! The device works of all jobs of a node: numbered for each job, handed out in the order in which they
//! were asked for, and answered. A contract sees them as the line of all works and the numbers used by
//! each job; what one job sees of it is told beside, and what the others see stays.
#![tactic(auto)]

ghost use Rattle.std.specs.Prelude.{◌≡◌, ◌≢◌, ◌+◌, ◌≤◌, ◌==◌, if◌then◌else◌, [], map, Some, None, IsSome, IfOk, OnOk, OnErr, IsOk, IsErrOf, true, length};
ghost use Rattle.std.specs.Map.{lookup, set_value, remove_entry};
ghost use Rattle.indexmap.specs.IndexMap.{insert_entry, Updates};
ghost use Rattle.obj_id.specs.declared.refusals.Refusal.{Refusal};
ghost use Rattle.obj_id.specs.declared.refusals.Failure.TheVariants.{Refused, Memory};
ghost use Rattle.memory_growth.specs.declared.OutOfMemory.{OutOfMemory};
ghost use Rattle.spill_work.specs.Line.{WorkLine, same_work_job, shown, works_of, used_by, in_flight as in_flight_lem, works_taken_by, room_for as room_for_lem, ask_check as ask_check_lem, AsksWork, TakesBack, AsksAll, front_of, Takes, MarksTaken, finish_check as finish_check_lem, Finishes, Drops};
ghost use Rattle.spill_work.specs.Numbers.{entry_of};

mod by_job;
mod queue;
mod row;

use by_job::ByJob;
use indexmap::IndexMap;
use memory_growth::{OutOfMemory, tables};
use obj_id::limits::MOST_WORKS;
use obj_id::{Failure, ItemList, JobNo, ObjectId, Refusal, WorkKind};
pub use queue::{IoRequest, Queued};
use std::alloc::Global;
use std::marker::Model;

/// The works in flight of all jobs.
pub struct Works {
    line: ByJob,
    // the last number that a work of the job had
    used: IndexMap<JobNo, u64>,
}

// By hand, so that it is proved here and not in each crate above.
impl Drop for Works {
    fn drop(self) {
        let Works {
            line: _line,
            used: _used,
        } = self;
    }
}

impl Model for Works {
    ghost use Rattle.spill_work.specs.Line.{WorkLine};
    ghost use Rattle.spill_work.specs.Numbers.{AreWorksNumbered};

    ghost Value = { WorkLine };

    ghost view = { λ w. record { works = w.line; used = w.used.entries } };

    ghost invariant = { λ w. AreWorksNumbered w.line w.used.entries };
}

impl Works {
    /// No works.
    pub fn new(alloc: Global) -> Works
        ensures { result ≡ record { works = []; used = [] } }
    {
        Works {
            line: ByJob::new(alloc),
            used: IndexMap::new(alloc),
        }
    }

    /// How many works of the job are in flight.
    pub fn in_flight(&self, job: JobNo) -> usize
        ensures { result ≡ in_flight_lem self.now job }
    {
        self.line.count_of(job)
    }

    /// How many works of the job were taken and not answered. Takes a walk over its works.
    pub fn taken(&self, job: JobNo) -> usize
        ensures { result ≡ works_taken_by self.now job }
    {
        self.line.taken_of(job)
    }

    /// The job's works in flight, in the order asked. Takes a walk over them, and memory for each.
    pub fn asked_of(&self, job: JobNo) -> Result<ItemList<IoRequest>, OutOfMemory>
        ensures { IfOk result (λ asked. map shown asked ≡ works_of self.now job) }
    {
        Ok(self.line.asked_of(job)?)
    }

    /// The last number that a work of the job had, or 0 if none was asked for.
    pub fn asked(&self, job: JobNo) -> u64
        ensures last { result ≡ used_by self.now job }
        ensures fresh { result ≡ 0 → lookup (same_work_job job) self.now.used ≡ None }
    {
        self.used.get(&job).copied().unwrap_or(0)
    }

    /// Whether `n` works more of the job may be asked for.
    pub fn room_for(&self, job: JobNo, n: usize) -> bool
        ensures { result ≡ room_for_lem self.now job n }
    {
        n <= MOST_WORKS
            && self.in_flight(job) <= MOST_WORKS - n
            && self.asked(job) <= u64::MAX - n as u64
    }

    /// Asks for a work of the job on the object, under the job's next number, which it gives. `Busy` at
    /// 8 works in flight, `TooMany` if no number is left, out of memory last. A refusal uses no number
    /// and changes nothing.
    pub fn ask(&mut self, job: JobNo, id: ObjectId, kind: WorkKind) -> Result<u64, Failure>
        ensures ok { IfOk result (λ number. AsksWork self.old (record { job = job; number = number; id = id; kind = kind }) self.new) }
        ensures passed { IsOk result → ask_check_lem self.old job ≡ None }
        ensures refused { (r : Refusal) → IsErrOf result (Refused r) → ask_check_lem self.old job ≡ Some r }
        ensures memory { (m : OutOfMemory) → IsErrOf result (Memory m) → ask_check_lem self.old job ≡ None }
        ensures err { OnErr result (self.new ≡ self.old) }
    {
        if let Some(refusal) = self.ask_check(job) {
            return Err(Failure::Refused(refusal));
        }
        let number = self.asked(job) + 1;
        self.append(job, &[id], kind)?;
        Ok(number)
    }

    /// Takes back the job's last work, which was asked for under the number: it leaves the line, and its
    /// number is the job's next again. With a number that isn't the job's last nothing changes. Takes no
    /// memory.
    pub fn take_back(&mut self, job: JobNo, number: u64)
        ensures { TakesBack self.old job number self.new }
    {
        if number == 0 || self.asked(job) != number {
            return;
        }
        self.line.take_out(job, number);
        count_back(&mut self.used, job, number - 1);
    }

    /// Asks for a work of the job on each of these objects, in their order and under the job's next
    /// numbers. The error is out of memory, and then nothing has changed; to ask for none takes none.
    pub fn ask_all(
        &mut self,
        _alloc: Global,
        job: JobNo,
        ids: &[ObjectId],
        kind: WorkKind,
    ) -> Result<(), OutOfMemory>
        requires { room_for_lem self.old job (length ids.now) ≡ true }
        ensures ok { OnOk result (AsksAll self.old job kind ids.now self.new) }
        ensures succeeds { ids.now ≡ [] → IsOk result }
        ensures err { OnErr result (self.new ≡ self.old) }
    {
        if ids.is_empty() {
            return Ok(());
        }
        self.append(job, ids, kind)
    }

    /// Why no work of the job can be asked for: `Busy`, `TooMany`, or nothing.
    pub fn ask_check(&self, job: JobNo) -> Option<Refusal>
        ensures { result ≡ ask_check_lem self.now job }
    {
        if self.in_flight(job) >= MOST_WORKS {
            return Some(Refusal::Busy);
        }
        if self.asked(job) < u64::MAX {
            None
        } else {
            Some(Refusal::TooMany)
        }
    }

    /// The work that is handed out next: of all jobs' the first that nobody has taken.
    pub fn front(&self) -> Option<IoRequest>
        ensures { result ≡ front_of self.now.works }
    {
        self.line.front()
    }

    /// Marks a job's work as taken, if there is one under the number. Takes no memory.
    pub fn mark_taken(&mut self, job: JobNo, number: u64)
        ensures { MarksTaken self.old job number self.new }
    {
        self.line.mark(job, number);
    }

    /// Hands out the front and marks it as taken. Takes no memory.
    pub fn take(&mut self) -> Option<IoRequest>
        ensures { Takes self.old result self.new }
    {
        let asked = self.front()?;
        self.mark_taken(asked.job, asked.number);
        Some(asked)
    }

    /// A worker answered the work: it leaves the line. `Stale` if the job has no such work in flight
    /// or nobody took it, and then nothing changes. Takes no memory.
    pub fn finish(&mut self, job: JobNo, number: u64) -> Result<IoRequest, Refusal>
        ensures ok { IfOk result (λ asked. Finishes self.old job number asked self.new) }
        ensures passed { IsOk result → finish_check_lem self.old job number ≡ None }
        ensures refused { (r : Refusal) → IsErrOf result r → finish_check_lem self.old job number ≡ Some r }
        ensures err { OnErr result (self.new ≡ self.old) }
    {
        match self.line.work_at(job, number) {
            Some(work) if work.taken => {
                self.line.take_out(job, number);
                Ok(work.asked)
            }
            _ => Err(Refusal::Stale),
        }
    }

    /// The job ends: its works leave the line, and its numbers are forgotten. Takes no memory.
    pub fn drop_job(&mut self, job: JobNo)
        ensures { Drops self.old job self.new }
    {
        self.line.take_out_all(job);
        self.used.shift_remove(&job);
    }

    /// A work on each of these objects comes last in the line, under the job's next numbers. A failure
    /// changes nothing.
    fn append(&mut self, job: JobNo, ids: &[ObjectId], kind: WorkKind) -> Result<(), OutOfMemory>
        requires room { room_for_lem self.old job (length ids.now) ≡ true }
        requires some { 1 ≤ length ids.now }
        ensures ok { OnOk result (AsksAll self.old job kind ids.now self.new) }
        ensures used { OnOk result (self.new.used ≡ insert_entry same_work_job self.old.used job (used_by self.old job + length ids.now)) }
        ensures err { OnErr result (self.new ≡ self.old) }
    {
        let last = self.asked(job);
        // nothing after the line's growth can fail
        tables::reserve(&mut self.used, 1)?;
        self.line.ask(job, kind, last, ids)?;
        self.used.insert(job, last + ids.len() as u64).unwrap();
        Ok(())
    }
}

/// The last number that a work of the job had is this; with 0 the job's entry is removed.
fn count_back(used: &mut IndexMap<JobNo, u64>, job: JobNo, last: u64)
    requires { IsSome (lookup (same_work_job job) used.old.entries) }
    ensures entries { used.new.entries ≡ (if last == 0 then remove_entry (same_work_job job) used.old.entries else set_value (same_work_job job) used.old.entries last) }
    ensures updates { Updates same_work_job used.old used.new job (entry_of last) }
{
    if last == 0 {
        used.shift_remove(&job);
    } else if let Some(number) = used.get_mut(&job) {
        *number = last;
    }
}
