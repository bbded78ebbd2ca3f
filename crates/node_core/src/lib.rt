//! One node: the stores of many jobs, each as if it were alone.
#![tactic(auto)]

ghost use Rattle.std.specs.Prelude.{◌≡◌, ◌↔◌, ℕ, ◌+◌, ◌≤◌, true, false, [], length, map, Some, None, IfOk, IfErr, OnOk, OnErr, IsErrOf, IsOk, is_ok, is_some};
ghost use Rattle.std.specs.Option.{option_copied};
ghost use Rattle.obj_id.specs.declared.ids.JobNo.{JobNo};
ghost use Rattle.obj_id.specs.declared.commands.Reply.TheVariants as reply;
ghost use Rattle.obj_id.specs.declared.refusals.Refusal.{Refusal};
ghost use Rattle.obj_id.specs.declared.refusals.Refusal.TheVariants.{NotAdmitted};
ghost use Rattle.private_store.specs.declared.schedules.Event.TheVariants as event;
ghost use Rattle.private_store.specs.rules.Jobs.{same_job};
ghost use Rattle.private_store.specs.rules.Contents.{View};
ghost use Rattle.private_store.specs.rules.Commands.{usage_of};
ghost use Rattle.private_store.specs.rules.Private.{view_of, no_store};
ghost use Rattle.job_admission.specs.Admissions.{largest_memory, live_at, admit_check, sessions_entered, enter_check, entered};
ghost use Rattle.row_steps.specs.Outcomes.{row_given_of};
ghost use Rattle.row_steps.specs.Shown.{only};
ghost use Rattle.private_store.specs.declared.schedules.NodeEvent.TheVariants as node_event;
ghost use Rattle.node_core.specs.Calls.{is_of_row, takes_no_memory, needs_no_memory};
ghost use Rattle.node_core.specs.GrantMoves.{event_of, moves_grants};
ghost use Rattle.node_core.specs.Hosted.{Shows, row_at};
ghost use Rattle.node_core.specs.Borrowed.{borrowed_check, IsBorrowed};
ghost use Rattle.node_core.specs.Steps.{NodeStep};
ghost use Rattle.node_core.specs.MemoryLast.{IsCallUnrefused, IsEventUnrefused, IsMemoryLast};
ghost use Rattle.node_core.specs.OneJob.{NodeStepOne};
ghost use Rattle.node_core.specs.Outcomes.{node_given_of};
ghost use Rattle.node_core.specs.Foreseen.{most_by_command, most_messages, AreTakers};
ghost use Rattle.node_core.specs.Judged.{is_finish, judged_as, GivesFew, IsJudged, SeesFew, IsSmall};

mod arrivals;
mod calls;
mod device_works;
mod foreseen;
mod grant_move;
mod granting;
mod job_ends;
mod judged;
mod listing;
mod outcome;
mod peeking;
mod preparing;
mod quotas;
mod task_ends;

use bytes::Bytes;
pub use foreseen::Foreseen;
use grant_move::GrantMove;
use grants::Grants;
use indexmap::IndexMap;
use job_admission::Admission;
pub use job_row::{JobRow, Prepared};
use memory_growth::{OutOfMemory, tables};
use obj_id::{Command, Failure, JobKey, JobNo, ObjectId, Quota, Refusal, Reply, Usage};
pub use outcome::{NodeOutcome, Note};
use private_store::Event;
pub use row_steps::Erase;
use spill_work::Works;
use std::alloc::Global;
use std::marker::Model;

/// A node of a cluster.
pub struct Node {
    alloc: Global,
    number: u32,
    admission: Admission,
    works: Works,
    // those that stand
    grants: Grants,
    // of the live jobs
    rows: IndexMap<JobNo, JobRow>,
    // of the job that ended last, until it is taken away: to free all its bytes takes long
    gone: Option<JobRow>,
}

// By hand, so that it is proved here and not in each crate above.
impl Drop for Node {
    fn drop(self) {
        let Node {
            alloc: _alloc,
            number: _number,
            admission: _admission,
            works: _works,
            grants: _grants,
            rows: _rows,
            gone: _gone,
        } = self;
    }
}

impl Model for Node {
    ghost use Rattle.node_core.specs.Hosted.{Hosted, IsHosted};

    ghost Value = { Hosted };

    ghost view = { λ n. record { number = n.number; admissions = n.admission; works = n.works; grants = n.grants; rows = n.rows.entries } };

    ghost invariant = { λ n. IsHosted n.admission n.grants n.rows.entries };
}

impl Node {
    /// A node of this number, with so many bytes of memory and no job: 0 to 17,179,869,184.
    pub fn new(alloc: Global, number: u32, memory: u64) -> Node
        requires { memory ≤ largest_memory }
        ensures number { result.number ≡ number }
        ensures admissions { result.admissions ≡ record { memory = memory; greatest = 0; live = [] } }
        ensures works { result.works ≡ record { works = []; used = [] } }
        ensures grants { result.grants ≡ [] }
        ensures shows { (job : ℕ) → Shows result job (view_of (no_store job)) }
    {
        Node {
            alloc,
            number,
            admission: Admission::new(alloc, memory),
            works: Works::new(alloc),
            grants: Grants::new(alloc),
            rows: IndexMap::new(alloc),
            gone: None,
        }
    }

    /// Steps the node by one event of a schedule.
    ///
    /// For every job number, live or not, the view that the node shows of the job afterwards is what the private steps
    /// make of the view before, on the list of inputs that the event is to that job. The error is out of memory, and then nothing
    /// has changed: it never stands in for a refusal that is known before anything grows. A Finish and the commands Write,
    /// Release and Usage take no memory, nor does Leave while no copy is doomed. It sends no more messages than
    /// `foresee` says, tells of grants the jobs that `grantees` says, and says what it was to its own job. The reply to a command
    /// has a frame.
    ///
    /// `room` is what came of the caller's growth to keep the messages. If that was refused, a step that sends some is out of memory, and
    /// any other is taken.
    pub fn apply(
        &mut self,
        event: &Event,
        room: Result<(), OutOfMemory>,
    ) -> Result<NodeOutcome, OutOfMemory>
        ensures ok { IfOk result (λ o. NodeStep self.old (node_event.Own event.now) (node_given_of o) self.new) }
        ensures memory_last { OnErr result (IsMemoryLast self.old (node_event.Own event.now)) }
        ensures bounded { IfOk result (λ o. length o.messages ≤ most_messages self.old event.now) }
        ensures unsent { IfOk result (λ o. is_ok room ≡ false → o.messages ≡ []) }
        ensures judged { IfOk result (λ o. IsJudged self.old event.now o.reply o.judged) }
        ensures grantees { IfOk result (λ o. AreTakers self.old.grants event.now o.reply (map (λ note. note.job) o.notes)) }
        ensures small { IfOk result (λ o. IsSmall self.old event.now o.reply) }
        ensures without_memory { needs_no_memory self.old event.now ≡ true → IsOk result }
        ensures err { OnErr result (self.new ≡ self.old) }
    {
        self.received_bound();
        if let Event::Finish {
            job,
            number,
            answer,
        } = event
        {
            let (outcome, judged) = self.finish(*job, *number, answer);
            return Ok(NodeOutcome::of_row(self.alloc, outcome, judged));
        }
        if let Some(grant_move) = GrantMove::of(event) {
            return self.move_grants(grant_move, room);
        }
        let outcome = self.step_one(event, room)?;
        let judged = judged::judged_as(event, &outcome.reply);
        Ok(NodeOutcome::of_row(self.alloc, outcome, judged))
    }

    /// A law of every node: at most 63 other live jobs granted something to a live job, each no more than 64 objects.
    fn received_bound(&self)
        ensures { SeesFew self.now }
    {
        let _ = self.admission.live_jobs();
    }

    /// A law of every node: each of at most 64 live jobs gave at most 64 grants that stand, and nobody else gave one.
    pub(crate) fn few_stand(&self)
        ensures { GivesFew self.now }
    {
        let _ = self.admission.live_jobs();
    }

    /// A step of what may end grants or give one.
    fn move_grants(
        &mut self,
        grant_move: GrantMove,
        room: Result<(), OutOfMemory>,
    ) -> Result<NodeOutcome, OutOfMemory>
        ensures ok { IfOk result (λ o. NodeStep self.old (node_event.Own (event_of grant_move)) (node_given_of o) self.new) }
        ensures bounded { IfOk result (λ o. length o.messages ≤ most_messages self.old (event_of grant_move)) }
        ensures unsent { IfOk result (λ o. is_ok room ≡ false → o.messages ≡ []) }
        ensures judged { IfOk result (λ o. o.judged ≡ judged_as (event_of grant_move) o.reply) }
        ensures grantees { IfOk result (λ o. AreTakers self.old.grants (event_of grant_move) o.reply (map (λ note. note.job) o.notes)) }
        ensures memory_last { OnErr result (IsEventUnrefused self.old (event_of grant_move)) }
        ensures err { OnErr result (self.new ≡ self.old) }
    {
        match grant_move {
            GrantMove::JobEnd(job) => self.end_job(job, room),
            GrantMove::EndTask { job, session, task } => self.end_task(job, session, task, room),
            GrantMove::Grant {
                job,
                session,
                id,
                target,
            } => self.grant(job, session, &id, target),
            GrantMove::Withdraw {
                job,
                session,
                id,
                target,
            } => self.withdraw(job, session, &id, target),
        }
    }

    /// A step of all else but a Finish.
    fn step_one(
        &mut self,
        event: &Event,
        room: Result<(), OutOfMemory>,
    ) -> Result<row_steps::RowOutcome, OutOfMemory>
        requires other { is_finish event.now ≡ false }
        requires lasting { moves_grants event.now ≡ false }
        ensures ok { IfOk result (λ o. NodeStepOne self.old event.now (row_given_of o) self.new) }
        ensures bounded { IfOk result (λ o. length o.messages ≤ most_messages self.old event.now) }
        ensures unsent { IfOk result (λ o. is_ok room ≡ false → o.messages ≡ []) }
        ensures memory_last { OnErr result (IsEventUnrefused self.old event.now) }
        ensures without_memory { needs_no_memory self.old event.now ≡ true → IsOk result }
        ensures err { OnErr result (self.new ≡ self.old) }
    {
        match event {
            Event::Admit { job, quota, key } => self.admit(*job, *quota, *key),
            Event::Requota(job, quota) => self.requota(*job, *quota),
            Event::Take => self.take(),
            Event::Call {
                job,
                session,
                command,
            } => self.call(*job, *session, command, room),
            Event::JobEnd(_) | Event::Finish { .. } => unreachable!(),
        }
    }

    /// The number of the job's next session, from 1. `NotAdmitted` if the job isn't live or the key isn't
    /// the whole of its own, which are answered alike; `TooMany` if 4,294,967,295 numbers were given. A
    /// refusal changes nothing and uses no number. No event: no job's view changes. Takes no memory.
    pub fn enter(&mut self, job: JobNo, key: &JobKey) -> Result<u32, Refusal>
        ensures number { IfOk result (λ number. number ≡ sessions_entered self.old.admissions job + 1) }
        ensures count { IfOk result (λ number. sessions_entered self.new.admissions job ≡ number) }
        ensures ok { OnOk result (self.new ≡ record self.old { admissions = entered self.old.admissions job }) }
        ensures others { (other : JobNo) → same_job job other ≡ false → live_at self.new.admissions other ≡ live_at self.old.admissions other }
        ensures views { (q : ℕ) (view : View) → Shows self.new q view ↔ Shows self.old q view }
        ensures passed { IsOk result → enter_check self.old.admissions job key.now ≡ None }
        ensures refused { (r : Refusal) → IsErrOf result r → enter_check self.old.admissions job key.now ≡ Some r }
        ensures err { OnErr result (self.new ≡ self.old) }
    {
        self.admission.enter(job, key)
    }

    /// The job's row, if the job is live. Takes no memory.
    pub fn row(&self, job: JobNo) -> Option<&JobRow>
        ensures { option_copied result ≡ row_at self.now job }
    {
        self.rows.get(&job)
    }

    /// The works of all jobs. Takes no memory.
    pub fn works(&self) -> &Works
        ensures { result.now ≡ self.now.works }
    {
        &self.works
    }

    /// The grants that stand, of all jobs. Takes no memory.
    pub fn grants(&self) -> &Grants
        ensures { result.now ≡ self.now.grants }
    {
        &self.grants
    }

    /// A job's quotas and what is used of them, in bytes and in numbers. `NotAdmitted` if the job isn't
    /// live. No event: nothing changes. Takes no memory.
    pub fn usage(&self, job: JobNo) -> Result<Usage, Refusal>
        ensures response { IfOk result (λ response. (view : View) → Shows self.now job.0 view → response ≡ usage_of view.shape) }
        ensures live { is_ok result ≡ is_some (live_at self.now.admissions job) }
        ensures refused { (r : Refusal) → IsErrOf result r → r ≡ NotAdmitted }
    {
        match self.rows.get(&job) {
            Some(row) => Ok(row_commands::usage(row, &self.works)),
            None => Err(Refusal::NotAdmitted),
        }
    }

    /// The bytes of an object that the session holds, all of them, lent without a copy.
    ///
    /// `NotAdmitted` if the job isn't live, `NotGranted` for another job's object, `Absent` if there
    /// is no copy, `NotSealed` while it is being written or fetched, `NotHeld` if the session has no
    /// hold. No event: nothing changes. Takes no memory.
    pub fn read_borrowed(&self, job: JobNo, session: u32, id: &ObjectId) -> Result<&[u8], Refusal>
        ensures ok { IfOk result (λ bytes. (view : View) → Shows self.now job.0 view → IsBorrowed view session id.now bytes.now) }
        ensures refused { IfErr result (λ refusal. (view : View) → Shows self.now job.0 view → borrowed_check view.shape session id.now ≡ Some refusal) }
    {
        let Some(row) = self.rows.get(&job) else {
            return Err(Refusal::NotAdmitted);
        };
        if id.job().0 != job.0 {
            return Err(Refusal::NotGranted);
        }
        row_commands::lend(row, session, id)
    }

    /// A session's command that ends no grant and gives none: its job's row carries it out, but for List and Peek, which
    /// read other rows too. `NotAdmitted` if the job isn't live.
    fn call(
        &mut self,
        job: JobNo,
        session: u32,
        command: &Command<Bytes>,
        room: Result<(), OutOfMemory>,
    ) -> Result<row_steps::RowOutcome, OutOfMemory>
        requires lasting { moves_grants (event.Call job session command.now) ≡ false }
        ensures ok { IfOk result (λ o. NodeStepOne self.old (event.Call job session command.now) (row_given_of o) self.new) }
        ensures bounded { IfOk result (λ o. length o.messages ≤ most_by_command (row_at self.old job) command.now) }
        ensures unsent { IfOk result (λ o. is_ok room ≡ false → o.messages ≡ []) }
        ensures memory_last { OnErr result (IsCallUnrefused self.old job session command.now) }
        ensures without_memory { takes_no_memory (row_at self.old job) command.now ≡ true → IsOk result }
        ensures err { OnErr result (self.new ≡ self.old) }
    {
        if calls::is_of_row(command) {
            return self.call_row(job, session, command, room);
        }
        match command {
            Command::List => self.list(job, session),
            Command::Peek {
                id,
                offset,
                count: len,
            } => self.peek(job, session, id, *offset, *len),
            // each other is a GrantMove
            _ => unreachable!(),
        }
    }

    /// The same of a command that a row carries out.
    fn call_row(
        &mut self,
        job: JobNo,
        session: u32,
        command: &Command<Bytes>,
        room: Result<(), OutOfMemory>,
    ) -> Result<row_steps::RowOutcome, OutOfMemory>
        requires { is_of_row command.now ≡ true }
        ensures ok { IfOk result (λ o. NodeStepOne self.old (event.Call job session command.now) (row_given_of o) self.new) }
        ensures bounded { IfOk result (λ o. length o.messages ≤ most_by_command (row_at self.old job) command.now) }
        ensures unsent { IfOk result (λ o. is_ok room ≡ false → o.messages ≡ []) }
        ensures memory_last { OnErr result (IsCallUnrefused self.old job session command.now) }
        ensures without_memory { takes_no_memory (row_at self.old job) command.now ≡ true → IsOk result }
        ensures err { OnErr result (self.new ≡ self.old) }
    {
        let Some(row) = self.rows.get_mut(&job) else {
            let reply = Reply::Refused(Refusal::NotAdmitted);
            return Ok(row_steps::RowOutcome::only(self.alloc, reply));
        };
        calls::carry_out(
            self.alloc,
            room,
            self.number,
            job,
            row,
            &mut self.works,
            session,
            command,
        )
    }

    /// The operator admits a job.
    fn admit(
        &mut self,
        job: JobNo,
        quota: Quota,
        key: JobKey,
    ) -> Result<row_steps::RowOutcome, OutOfMemory>
        ensures ok { IfOk result (λ o. NodeStepOne self.old (event.Admit job quota key) (row_given_of o) self.new) }
        ensures silent { IfOk result (λ o. o.messages ≡ []) }
        ensures memory_last { OnErr result (admit_check self.old.admissions job quota ≡ None) }
        ensures err { OnErr result (self.new ≡ self.old) }
    {
        if let Some(refusal) = self.admission.admit_check(job, quota) {
            return Ok(row_steps::RowOutcome::only(self.alloc, Reply::Refused(refusal)));
        }
        self.add_row(job, quota, key)?;
        Ok(row_steps::RowOutcome::only(self.alloc, Reply::Ok))
    }

    /// The job is live from now on, with an empty row. All growth comes before the first change.
    fn add_row(&mut self, job: JobNo, quota: Quota, key: JobKey) -> Result<(), OutOfMemory>
        requires { admit_check self.old.admissions job quota ≡ None }
        ensures ok { OnOk result (NodeStepOne self.old (event.Admit job quota key) (only reply.Ok) self.new) }
        ensures err { OnErr result (self.new ≡ self.old) }
    {
        let row = match JobRow::new(self.alloc, job, quota) {
            Ok(row) => row,
            Err(Failure::Memory(error)) => return Err(error),
            Err(Failure::Refused(_)) => unreachable!(),
        };
        tables::reserve(&mut self.rows, 1)?;
        match self.admission.admit(job, quota, key) {
            Ok(()) => {}
            Err(Failure::Memory(error)) => return Err(error),
            Err(Failure::Refused(_)) => unreachable!(),
        }
        tables::insert(&mut self.rows, job, row)?;
        Ok(())
    }
}
