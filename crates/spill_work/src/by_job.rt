//! The works of all jobs, found by their job.
ghost use Rattle.std.specs.Prelude.{◌≡◌, ◌+◌, ◌<◌, ◌^◌, ◌++◌, [], None, not, find, filter, map, length, IfOk, OnOk, OnErr};
ghost use Rattle.spill_work.specs.Line.{is_of, is_at, front_of, numbered};
ghost use Rattle.spill_work.specs.Turns.{marked_at, with_row, all_of, front_from};

use crate::queue::{IoRequest, Queued};
use crate::row::{Row, Timed};
use indexmap::IndexMap;
use memory_growth::counters::Counter;
use memory_growth::{OutOfMemory, tables};
use obj_id::{ItemList, JobNo, ObjectId, WorkKind};
use std::alloc::Global;
use std::marker::Model;

/// The works of all jobs. A contract sees them in the order asked; a call looks at its own job's alone, but for
/// `front`.
#[derive(Drop)]
pub(crate) struct ByJob {
    alloc: Global,
    rows: IndexMap<JobNo, Row>,
    // Of the work that is asked for next: what was asked for earlier has an earlier one.
    turn: Counter,
}

impl Model for ByJob {
    ghost use Rattle.std.specs.Prelude.{List};
    ghost use Rattle.spill_work.specs.declared.queue.Queued.{Queued};
    ghost use Rattle.spill_work.specs.Turns.{works_in, AreRows};

    ghost Value = { List Queued };

    ghost view = { λ b. works_in b.rows.entries };

    ghost invariant = { λ b. AreRows b.rows.entries b.turn };
}

impl ByJob {
    /// No works. Takes no memory.
    pub(crate) fn new(alloc: Global) -> ByJob
        ensures { result ≡ [] }
    {
        ByJob {
            alloc,
            rows: IndexMap::new(alloc),
            turn: Counter::new(),
        }
    }

    /// How many works the job has.
    pub(crate) fn count_of(&self, job: JobNo) -> usize
        ensures { result ≡ length (filter (is_of job) self.now) }
    {
        match self.rows.get(&job) {
            Some(row) => row.len(),
            None => 0,
        }
    }

    /// How many of the job's works were taken.
    pub(crate) fn taken_of(&self, job: JobNo) -> usize
        ensures { result ≡ length (filter (λ work. work.taken) (filter (is_of job) self.now)) }
    {
        match self.rows.get(&job) {
            Some(row) => row.taken(),
            None => 0,
        }
    }

    /// What the job's works ask, in their order. Takes a walk over them, and memory for each.
    pub(crate) fn asked_of(&self, job: JobNo) -> Result<ItemList<IoRequest>, OutOfMemory>
        ensures { IfOk result (λ asked. asked ≡ map (λ work. work.asked) (filter (is_of job) self.now)) }
    {
        match self.rows.get(&job) {
            Some(row) => Ok(row.asked(self.alloc)?),
            None => Ok(ItemList::new(self.alloc)),
        }
    }

    /// The job's work under the number.
    pub(crate) fn work_at(&self, job: JobNo, number: u64) -> Option<Queued>
        ensures { result ≡ find (is_at job number) self.now }
    {
        match self.rows.get(&job) {
            Some(row) => row.work_at(number),
            None => None,
        }
    }

    /// Of all jobs' works the first that nobody has taken.
    pub(crate) fn front(&self) -> Option<IoRequest>
        ensures { result ≡ front_of self.now }
    {
        let first = front(&self.rows)?;
        Some(first.work.asked)
    }

    /// Marks what the job has under the number as taken.
    pub(crate) fn mark(&mut self, job: JobNo, number: u64)
        ensures { self.new ≡ map (marked_at job number) self.old }
    {
        let Some(row) = self.rows.get_mut(&job) else {
            return;
        };
        row.mark(number);
    }

    /// Takes out what the job has under the number; the others keep their order.
    pub(crate) fn take_out(&mut self, job: JobNo, number: u64)
        ensures { self.new ≡ filter (λ work. not (is_at job number work)) self.old }
    {
        let Some(row) = self.rows.get_mut(&job) else {
            return;
        };
        row.take_out(number);
    }

    /// Takes out all works of the job; the others keep their order.
    pub(crate) fn take_out_all(&mut self, job: JobNo)
        ensures { self.new ≡ filter (λ work. not (is_of job work)) self.old }
    {
        // What the count says of the rows is what the proof needs.
        let _count = self.rows.len();
        self.rows.shift_remove(&job);
    }

    /// A work of the job on each of these objects comes last, under the numbers that come next. A failure
    /// changes nothing.
    pub(crate) fn ask(
        &mut self,
        job: JobNo,
        kind: WorkKind,
        last: u64,
        ids: &[ObjectId],
    ) -> Result<(), OutOfMemory>
        requires { last + length ids.now < 2 ^ 64 }
        ensures ok { OnOk result (self.new ≡ self.old ++ numbered job kind last ids.now) }
        ensures err { OnErr result (self.new ≡ self.old) }
    {
        let turn = self.turn.after(ids)?;
        enter(&mut self.rows, self.alloc, job)?;
        let Some(row) = self.rows.get_mut(&job) else {
            unreachable!()
        };
        row.ask(job, kind, last, self.turn.value(), ids)?;
        self.turn = turn;
        Ok(())
    }
}

/// Of all rows' works the first that nobody has taken.
fn front(rows: &IndexMap<JobNo, Row>) -> Option<Timed>
    ensures { result ≡ front_from None (all_of rows.now.entries) }
{
    let mut first = None;
    for (_, row) in rows {
        first = row.front(first);
    }
    first
}

/// The job has a row, with nothing in it if it is new. A failure changes nothing.
fn enter(rows: &mut IndexMap<JobNo, Row>, alloc: Global, job: JobNo) -> Result<(), OutOfMemory>
    ensures ok { OnOk result (rows.new.entries ≡ with_row job rows.old.entries) }
    ensures err { OnErr result (rows.new.entries ≡ rows.old.entries) }
{
    if !rows.contains_key(&job) {
        tables::insert(rows, job, Row::new(alloc))?;
    }
    Ok(())
}
