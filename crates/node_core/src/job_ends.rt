//! The end of a job, and what it is to those to whom the job granted objects.
ghost use Rattle.std.specs.Prelude.{◌≡◌, ◌≤◌, None, true, length, map, is_some, IfOk, OnErr, is_ok, false, []};
ghost use Rattle.private_store.specs.declared.schedules.Event.TheVariants as event;
ghost use Rattle.private_store.specs.declared.schedules.NodeEvent.TheVariants as node_event;
ghost use Rattle.private_store.specs.rules.Grants.{is_given_by};
ghost use Rattle.grants.specs.Table.{ends_found};
ghost use Rattle.job_admission.specs.Admissions.{live_at};
ghost use Rattle.row_steps.specs.Outcomes.{row_given_of};
ghost use Rattle.node_core.specs.Foreseen.{AreTakers};
ghost use Rattle.node_core.specs.JobEnds.{IsOwnEnd, LetsJobGo};
ghost use Rattle.node_core.specs.Judged.{judged_as};
ghost use Rattle.node_core.specs.Outcomes.{node_given_of};
ghost use Rattle.node_core.specs.Steps.{NodeStep, end_check};

use crate::Node;
use crate::outcome::NodeOutcome;
use grants::EndingGrants;
use memory_growth::{OutOfMemory, lists};
use obj_id::{DirectoryMessage, Endpoint, JobNo, Message, Refusal, Reply};
use private_store::Judged;

impl Node {
    /// The operator ends a job: nothing is left of it here, the directory is notified, the device keys of its copies are to be
    /// erased, and what it granted ends, with all that hangs on it: the grantees are notified in the order of the ends. The error
    /// is out of memory, and then nothing has changed.
    pub(crate) fn end_job(
        &mut self,
        job: JobNo,
        room: Result<(), OutOfMemory>,
    ) -> Result<NodeOutcome, OutOfMemory>
        ensures ok { IfOk result (λ o. NodeStep self.old (node_event.Own (event.JobEnd job)) (node_given_of o) self.new) }
        ensures bounded { IfOk result (λ o. length o.messages ≤ 1) }
        ensures unsent { IfOk result (λ o. is_ok room ≡ false → o.messages ≡ []) }
        ensures judged { IfOk result (λ o. o.judged ≡ judged_as (event.JobEnd job) o.reply) }
        ensures grantees { IfOk result (λ o. AreTakers self.old.grants (event.JobEnd job) o.reply (map (λ note. note.job) o.notes)) }
        ensures memory_last { OnErr result (end_check self.old.admissions job ≡ None) }
        ensures err { OnErr result (self.new ≡ self.old) }
    {
        if !self.admission.is_live(job) {
            return Ok(NodeOutcome::refused(self.alloc, Refusal::NotAdmitted, None));
        }
        let ends = self.grants.ends_with_job(job)?;
        let notes = lists::with_room_for(self.alloc, ends.grants())?;
        let outcome = self.own_end(job, room)?;
        self.let_job_go(job, &ends);
        let judged = Some(Judged::End);
        Ok(NodeOutcome::with_ends(outcome, notes, ends.grants(), judged))
    }

    /// What the end of a live job gives to the job itself, before anything changes.
    fn own_end(
        &self,
        job: JobNo,
        room: Result<(), OutOfMemory>,
    ) -> Result<row_steps::RowOutcome, OutOfMemory>
        requires { is_some (live_at self.now.admissions job) ≡ true }
        ensures ok { IfOk result (λ o. IsOwnEnd self.now job (row_given_of o)) }
        ensures unsent { IfOk result (λ o. is_ok room ≡ false → o.messages ≡ []) }
    {
        let Some(row) = self.rows.get(&job) else {
            unreachable!()
        };
        let erase = row_commands::device_keys(row, self.alloc)?;
        let message = Message::ToDirectory(DirectoryMessage::EndJob(self.number));
        let messages = row_steps::RowOutcome::one_message(
            self.alloc,
            room,
            Endpoint::Directory,
            message,
        )?;
        Ok(row_steps::RowOutcome {
            reply: Reply::Ok,
            messages,
            erase,
        })
    }

    /// Nothing of a live job is left here, nor of the grants that end with it. Takes no memory.
    fn let_job_go(&mut self, job: JobNo, ends: &EndingGrants)
        requires live { is_some (live_at self.old.admissions job) ≡ true }
        requires found { ends.now ≡ ends_found (is_given_by job.0) self.old.grants }
        ensures { LetsJobGo self.old job self.new }
    {
        let Ok(()) = self.admission.finish_job(job) else {
            unreachable!()
        };
        self.grants.take_out(ends);
        self.works.drop_job(job);
        self.gone = self.rows.shift_remove(&job);
    }
}
