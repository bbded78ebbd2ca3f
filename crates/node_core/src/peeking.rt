//! Peek: bytes of an object that another job granted.
ghost use Rattle.std.specs.Prelude.{◌≡◌, [], IfOk, IfSome, OnErr};
ghost use Rattle.std.specs.List.{list_any};
ghost use Rattle.obj_id.specs.declared.commands.Command.TheVariants as command;
ghost use Rattle.private_store.specs.declared.schedules.Event.TheVariants as event;
ghost use Rattle.grants.specs.Table.{shows};
ghost use Rattle.row_commands.specs.Granting.{peek_check as peek_check_lem};
ghost use Rattle.row_steps.specs.Outcomes.{row_given_of};
ghost use Rattle.node_core.specs.Hosted.{bytes_here};
ghost use Rattle.node_core.specs.MemoryLast.{IsCallUnrefused};
ghost use Rattle.node_core.specs.OneJob.{NodeStepOne};

use crate::Node;
use job_row::Lent;
use memory_growth::OutOfMemory;
use obj_id::limits::MOST_BYTES;
use obj_id::{JobNo, ObjectId, Refusal, Reply};

impl Node {
    /// Peek: bytes of an object that another job granted, as they lie in the window of its own job. `NotAdmitted` if the
    /// job isn't live, `NotGranted`, `BadSize` for more than 65,536 bytes, `OutOfBounds`. The error is out of memory.
    /// Changes nothing.
    pub(crate) fn peek(
        &self,
        job: JobNo,
        session: u32,
        id: &ObjectId,
        offset: u32,
        len: u32,
    ) -> Result<row_steps::RowOutcome, OutOfMemory>
        ensures ok { IfOk result (λ o. NodeStepOne self.now (event.Call job session (command.Peek id.now offset len)) (row_given_of o) self.now) }
        ensures silent { IfOk result (λ o. o.messages ≡ []) }
        ensures memory_last { OnErr result (IsCallUnrefused self.now job session (command.Peek id.now offset len)) }
    {
        let Some(_row) = self.rows.get(&job) else {
            let reply = Reply::Refused(Refusal::NotAdmitted);
            return Ok(row_steps::RowOutcome::only(self.alloc, reply));
        };
        let lent = self.granted_bytes(id);
        if let Some(refusal) = self.peek_check(job, id, lent.bytes.len(), offset, len) {
            return Ok(row_steps::RowOutcome::only(self.alloc, Reply::Refused(refusal)));
        }
        let bytes = lent.part(self.alloc, offset, len)?;
        Ok(row_steps::RowOutcome::only(self.alloc, Reply::Bytes(bytes)))
    }

    /// Why the job can't peek at so many bytes from the offset on of an object of this length.
    fn peek_check(
        &self,
        job: JobNo,
        id: &ObjectId,
        whole: usize,
        offset: u32,
        len: u32,
    ) -> Option<Refusal>
        ensures { result ≡ peek_check_lem self.now.grants job.0 id.now whole offset len }
    {
        if id.job().0 == job.0 {
            return Some(Refusal::NotGranted);
        }
        if !self.sees(job, id) {
            return Some(Refusal::NotGranted);
        }
        if len as usize > MOST_BYTES {
            return Some(Refusal::BadSize);
        }
        if offset as usize + len as usize > whole {
            return Some(Refusal::OutOfBounds);
        }
        None
    }

    /// Whether a grant of the object to the job stands.
    fn sees(&self, job: JobNo, id: &ObjectId) -> bool
        ensures { result ≡ list_any (shows id.now job.0) self.now.grants }
    {
        self.grants.seen_by(job, *id).is_some()
    }

    /// The bytes of an object of which a grant stands, lent by the row of its own job.
    fn granted_bytes(&self, id: &ObjectId) -> Lent<'_>
        ensures bytes { result.bytes.now ≡ bytes_here self.now.rows id.now }
        ensures same { IfSome result.shared (λ shared. shared ≡ result.bytes.now) }
    {
        let Some(row) = self.rows.get(&id.job()) else {
            return Lent::nothing();
        };
        row_commands::lend_granted(row, id)
    }
}
