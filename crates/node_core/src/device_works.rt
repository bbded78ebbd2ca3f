//! The works that a node's device workers take and answer.
ghost use Rattle.std.specs.Prelude.{◌≡◌, [], IfOk, OnErr, option_map, is_some};
ghost use Rattle.private_store.specs.declared.schedules.Event.TheVariants as event;
ghost use Rattle.private_store.specs.rules.Contents.{View, judge};
ghost use Rattle.spill_work.specs.Line.{front_of, works_taken_by};
ghost use Rattle.row_steps.specs.Outcomes.{row_given_of};
ghost use Rattle.node_core.specs.Hosted.{Shows};
ghost use Rattle.node_core.specs.MemoryLast.{IsFront};
ghost use Rattle.node_core.specs.Steps.{job_in_turn as job_in_turn_lem};
ghost use Rattle.node_core.specs.OneJob.{event_input_of, NodeStepOne};

use crate::Node;
use crate::judged::if_ok;
use memory_growth::OutOfMemory;
use obj_id::{DeviceAnswer, JobNo, Refusal, Reply};
use private_store::Judged;

impl Node {
    /// Whether a work waits that nobody has taken. No event: nothing changes. Takes no memory.
    pub fn has_work(&self) -> bool
        ensures { result ≡ is_some (front_of self.now.works.works) }
    {
        self.works.front().is_some()
    }

    /// The job whose work a Take gives next: 0 if none waits. No event: nothing changes. Takes no memory.
    pub fn job_in_turn(&self) -> JobNo
        ensures { result.0 ≡ job_in_turn_lem self.now.works.works }
    {
        match self.works.front() {
            Some(asked) => asked.job,
            None => JobNo(0),
        }
    }

    /// How many works of the job were taken and not answered. No event: nothing changes. Takes no memory, and a walk over the
    /// job's works.
    pub fn taken(&self, job: JobNo) -> usize
        ensures { result ≡ works_taken_by self.now.works job }
    {
        self.works.taken(job)
    }

    /// A worker asks for a work: of all jobs' the first that nobody has taken, with a write's bytes. `NoWork` if there is
    /// none. The error is out of memory, and then nobody has taken the work.
    pub(crate) fn take(&mut self) -> Result<row_steps::RowOutcome, OutOfMemory>
        ensures ok { IfOk result (λ o. NodeStepOne self.old event.Take (row_given_of o) self.new) }
        ensures silent { IfOk result (λ o. o.messages ≡ []) }
        ensures memory_last { OnErr result (IsFront self.old) }
        ensures err { OnErr result (self.new ≡ self.old) }
    {
        let Some(asked) = self.works.front() else {
            return Ok(row_steps::RowOutcome::only(self.alloc, Reply::NoWork));
        };
        let Some(row) = self.rows.get(&asked.job) else {
            return Ok(row_steps::RowOutcome::only(self.alloc, Reply::NoWork));
        };
        let Some(work) = row_commands::work(row, self.alloc, &asked)? else {
            return Ok(row_steps::RowOutcome::only(self.alloc, Reply::NoWork));
        };
        self.works.mark_taken(asked.job, asked.number);
        Ok(row_steps::RowOutcome::only(self.alloc, Reply::Work(work)))
    }

    /// A worker answers a work that it was given: the work leaves the line, and its job takes the step. Answers what it was
    /// to the job as well. `Stale` if the job isn't live, or nobody has taken such a work of it, and then it was nothing,
    /// and nothing changes. Takes no memory; hashes the bytes once.
    pub(crate) fn finish(
        &mut self,
        job: JobNo,
        number: u64,
        answer: &DeviceAnswer,
    ) -> (row_steps::RowOutcome, Option<Judged>)
        ensures ok { NodeStepOne self.old (event.Finish job number answer.now) (row_given_of result.0) self.new }
        ensures silent { result.0.messages ≡ [] }
        ensures judged { (view : View) → Shows self.old job.0 view → option_map (judge self.old.number view) (event_input_of (event.Finish job number answer.now) result.0.reply) ≡ result.1 }
    {
        let Some(row) = self.rows.get_mut(&job) else {
            let reply = Reply::Refused(Refusal::Stale);
            return (row_steps::RowOutcome::only(self.alloc, reply), None);
        };
        let answered = row_commands::finish(row, self.alloc, &mut self.works, number, answer);
        let judged = if_ok(
            &answered.outcome.reply,
            Judged::Answer(number, answered.verdict),
        );
        (answered.outcome, judged)
    }
}
