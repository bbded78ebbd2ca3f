//! The end of a task, and what it is to those to whom its job granted the task's objects.
ghost use Rattle.std.specs.Prelude.{◌≡◌, ◌≤◌, length, map, IfOk, OnErr, is_ok, false, []};
ghost use Rattle.obj_id.specs.declared.commands.Command.TheVariants as command;
ghost use Rattle.private_store.specs.declared.schedules.Event.TheVariants as event;
ghost use Rattle.private_store.specs.declared.schedules.NodeEvent.TheVariants as node_event;
ghost use Rattle.node_core.specs.Foreseen.{most_by_command, AreTakers};
ghost use Rattle.node_core.specs.Hosted.{row_at};
ghost use Rattle.node_core.specs.Judged.{judged_as};
ghost use Rattle.node_core.specs.MemoryLast.{task_refusal as task_refusal_lem, IsCallUnrefused};
ghost use Rattle.node_core.specs.Outcomes.{node_given_of};
ghost use Rattle.node_core.specs.Steps.{NodeStep};

use crate::Node;
use crate::outcome::NodeOutcome;
use memory_growth::{OutOfMemory, lists};
use obj_id::{Command, JobNo, Refusal, Reply, TaskNo};
use private_store::Judged;

impl Node {
    /// A session ends a task of its job: the row doesn't take the task's commands from then on, and what the job granted
    /// of the task's objects ends, with all that hangs on it: the grantees are notified in the order of the ends. All growth
    /// comes first. The error is out of memory, and then nothing has changed.
    pub(crate) fn end_task(
        &mut self,
        job: JobNo,
        session: u32,
        task: TaskNo,
        room: Result<(), OutOfMemory>,
    ) -> Result<NodeOutcome, OutOfMemory>
        ensures ok { IfOk result (λ o. NodeStep self.old (node_event.Own (event.Call job session (command.EndTask task))) (node_given_of o) self.new) }
        ensures bounded { IfOk result (λ o. length o.messages ≤ most_by_command (row_at self.old job) (command.EndTask task)) }
        ensures unsent { IfOk result (λ o. is_ok room ≡ false → o.messages ≡ []) }
        ensures judged { IfOk result (λ o. o.judged ≡ judged_as (event.Call job session (command.EndTask task)) o.reply) }
        ensures grantees { IfOk result (λ o. AreTakers self.old.grants (event.Call job session (command.EndTask task)) o.reply (map (λ note. note.job) o.notes)) }
        ensures memory_last { OnErr result (IsCallUnrefused self.old job session (command.EndTask task)) }
        ensures err { OnErr result (self.new ≡ self.old) }
    {
        let judged = Some(Judged::Call(session, Command::EndTask(task)));
        if let Some(refusal) = self.task_refusal(job, task) {
            let outcome = row_steps::RowOutcome::only(self.alloc, Reply::Refused(refusal));
            return Ok(NodeOutcome::of_row(self.alloc, outcome, judged));
        }
        let ends = self.grants.ends_with_task(job, task)?;
        let notes = lists::with_room_for(self.alloc, ends.grants())?;
        let Some(row) = self.rows.get_mut(&job) else {
            unreachable!()
        };
        let outcome = row_commands::end_task(row, self.alloc, room, self.number, task)?;
        self.grants.take_out(&ends);
        Ok(NodeOutcome::with_ends(outcome, notes, ends.grants(), judged))
    }

    /// Why the task can't end: `NotAdmitted` if its job isn't live, `Gone` if it has ended already, `TooMany` at 1,024
    /// ended tasks, or nothing.
    fn task_refusal(&self, job: JobNo, task: TaskNo) -> Option<Refusal>
        ensures { result ≡ task_refusal_lem (row_at self.now job) task }
    {
        match self.rows.get(&job) {
            Some(row) => row.end_task_check(task),
            None => Some(Refusal::NotAdmitted),
        }
    }
}
