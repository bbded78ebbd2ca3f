//! Grant and Withdraw, and what they are to those to whom objects are granted.
ghost use Rattle.std.specs.Prelude.{◌≡◌, ℕ, [], None, map, IfOk, OnErr};
ghost use Rattle.obj_id.specs.declared.commands.Command.TheVariants as command;
ghost use Rattle.obj_id.specs.declared.commands.Reply.TheVariants as reply;
ghost use Rattle.private_store.specs.declared.schedules.Event.TheVariants as event;
ghost use Rattle.private_store.specs.declared.schedules.NodeEvent.TheVariants as node_event;
ghost use Rattle.row_steps.specs.Outcomes.{row_given_of};
ghost use Rattle.node_core.specs.Foreseen.{AreTakers};
ghost use Rattle.node_core.specs.Granting.{grant_refusal as grant_refusal_lem, TakesGrant, TakesWithdraw};
ghost use Rattle.node_core.specs.Judged.{judged_as};
ghost use Rattle.node_core.specs.MemoryLast.{IsCallUnrefused};
ghost use Rattle.node_core.specs.Outcomes.{node_given_of};
ghost use Rattle.node_core.specs.Steps.{NodeStep};

use crate::Node;
use crate::outcome::NodeOutcome;
use job_row::JobRow;
use memory_growth::{OutOfMemory, lists};
use obj_id::{Command, Failure, JobNo, ObjectId, Refusal, Reply};
use private_store::Judged;
use std::alloc::Global;

impl Node {
    /// Grants an object, the job's own or one that it was granted, to the target, live or not: the target is notified.
    /// `NotAdmitted` if the job isn't live; of an own object `BadId`, `Gone`, `Absent`, `NotResident`, `Exists` or
    /// `TooMany`, of another's `BadId`, `NotGranted`, `Exists` or `TooMany`. The error is out of memory, and then nothing
    /// has changed.
    pub(crate) fn grant(
        &mut self,
        job: JobNo,
        session: u32,
        id: &ObjectId,
        target: JobNo,
    ) -> Result<NodeOutcome, OutOfMemory>
        ensures ok { IfOk result (λ o. NodeStep self.old (node_event.Own (event.Call job session (command.Grant id.now target))) (node_given_of o) self.new) }
        ensures silent { IfOk result (λ o. o.messages ≡ []) }
        ensures judged { IfOk result (λ o. o.judged ≡ judged_as (event.Call job session (command.Grant id.now target)) o.reply) }
        ensures grantees { IfOk result (λ o. AreTakers self.old.grants (event.Call job session (command.Grant id.now target)) o.reply (map (λ note. note.job) o.notes)) }
        ensures memory_last { OnErr result (IsCallUnrefused self.old job session (command.Grant id.now target)) }
        ensures err { OnErr result (self.new ≡ self.old) }
    {
        let judged = Some(Judged::Call(session, Command::Grant(*id, target)));
        let length = self.granted_length(id);
        let Some(row) = self.rows.get_mut(&job) else {
            return Ok(NodeOutcome::refused(self.alloc, Refusal::NotAdmitted, judged));
        };
        let table = self.grants.grant_check(job, *id, target);
        if let Some(refusal) = grant_refusal(row, job, id, target, table) {
            return Ok(NodeOutcome::refused(self.alloc, refusal, judged));
        }
        let notes = lists::with_capacity(self.alloc, 1)?;
        let made = match self.grants.grant(job, *id, target) {
            Ok(made) => made,
            Err(Failure::Memory(error)) => return Err(error),
            Err(Failure::Refused(_)) => unreachable!(),
        };
        let outcome = give(self.alloc, job, row, id, target, table);
        Ok(NodeOutcome::with_given(outcome, notes, &made, length, judged))
    }

    /// Takes back from the target an object that the job granted to it: the grant ends, with all that hang on it, and
    /// each grantee is notified. `NotAdmitted` if the job isn't live, `NotGranted` if no such grant stands. The error is
    /// out of memory, and then nothing has changed.
    pub(crate) fn withdraw(
        &mut self,
        job: JobNo,
        session: u32,
        id: &ObjectId,
        target: JobNo,
    ) -> Result<NodeOutcome, OutOfMemory>
        ensures ok { IfOk result (λ o. NodeStep self.old (node_event.Own (event.Call job session (command.Withdraw id.now target))) (node_given_of o) self.new) }
        ensures silent { IfOk result (λ o. o.messages ≡ []) }
        ensures judged { IfOk result (λ o. o.judged ≡ judged_as (event.Call job session (command.Withdraw id.now target)) o.reply) }
        ensures grantees { IfOk result (λ o. AreTakers self.old.grants (event.Call job session (command.Withdraw id.now target)) o.reply (map (λ note. note.job) o.notes)) }
        ensures memory_last { OnErr result (IsCallUnrefused self.old job session (command.Withdraw id.now target)) }
        ensures err { OnErr result (self.new ≡ self.old) }
    {
        let judged = Some(Judged::Call(session, Command::Withdraw(*id, target)));
        let Some(row) = self.rows.get_mut(&job) else {
            return Ok(NodeOutcome::refused(self.alloc, Refusal::NotAdmitted, judged));
        };
        if !self.grants.has_given(job, *id, target) {
            return Ok(NodeOutcome::refused(self.alloc, Refusal::NotGranted, judged));
        }
        let notes = lists::with_room_for(self.alloc, self.grants.as_slice())?;
        let ended = match self.grants.withdraw(job, *id, target) {
            Ok(ended) => ended,
            Err(Failure::Memory(error)) => return Err(error),
            Err(Failure::Refused(_)) => unreachable!(),
        };
        let granted = self.grants.is_granted(*id);
        let outcome = let_go(self.alloc, job, row, id, target, granted);
        Ok(NodeOutcome::with_ends(outcome, notes, ended.as_slice(), judged))
    }
}

/// Why the job of this row can't grant the object to the target, if this is what the table of grants says. Of another
/// job's object the table alone decides.
fn grant_refusal(
    row: &JobRow,
    job: JobNo,
    id: &ObjectId,
    target: JobNo,
    table: Option<Refusal>,
) -> Option<Refusal>
    ensures { result ≡ grant_refusal_lem row.now job.0 id.now target.0 table }
{
    if id.job().0 == job.0 {
        return row_commands::grant_check(row, id, target, table);
    }
    table
}

/// The step of the job's row by a Grant that nothing refuses. Takes no memory.
fn give(
    alloc: Global,
    job: JobNo,
    row: &mut JobRow,
    id: &ObjectId,
    target: JobNo,
    table: Option<Refusal>,
) -> row_steps::RowOutcome
    requires { grant_refusal_lem row.now job.0 id.now target.0 table ≡ None }
    ensures step { (session : ℕ) → TakesGrant row.old job.0 session id.now target (row_given_of result) row.new }
    ensures reply { result.reply ≡ reply.Ok }
    ensures silent { result.messages ≡ [] }
{
    if id.job().0 == job.0 {
        return row_commands::grant(row, alloc, id, target, table);
    }
    row_steps::RowOutcome::only(alloc, Reply::Ok)
}

/// The step of the job's row by a Withdraw of a grant that stood, if grants of the object from its own job are left or
/// none. Takes no memory.
fn let_go(
    alloc: Global,
    job: JobNo,
    row: &mut JobRow,
    id: &ObjectId,
    target: JobNo,
    granted: bool,
) -> row_steps::RowOutcome
    ensures step { (session : ℕ) → TakesWithdraw row.old job.0 session id.now target granted (row_given_of result) row.new }
    ensures reply { result.reply ≡ reply.Ok }
    ensures silent { result.messages ≡ [] }
{
    if id.job().0 == job.0 {
        return row_commands::withdraw(row, alloc, id, target, granted);
    }
    row_steps::RowOutcome::only(alloc, Reply::Ok)
}
