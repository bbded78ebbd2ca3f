//! Changes of the quotas of a node's jobs.
ghost use Rattle.std.specs.Prelude.{◌≡◌, [], None, IfOk, OnErr};
ghost use Rattle.private_store.specs.declared.schedules.Event.TheVariants as event;
ghost use Rattle.private_store.specs.rules.Contents.{View};
ghost use Rattle.row_steps.specs.Outcomes.{row_given_of};
ghost use Rattle.node_core.specs.Hosted.{Shows};
ghost use Rattle.node_core.specs.OneJob.{NodeStepOne};
ghost use Rattle.node_core.specs.Quotas.{requota_refusal};
ghost use Rattle.node_core.specs.Steps.{requota_check as requota_check_lem};

use crate::Node;
use memory_growth::OutOfMemory;
use obj_id::{Failure, JobNo, Quota, Refusal, Reply};

impl Node {
    /// Why the job can't have this quota: `NotAdmitted`, `BadSize`, `Full` if what it uses isn't within it, `NoRoom` if its
    /// window would meet a neighbour's or the memory's end, or nothing. Takes no walk over the job's copies.
    fn requota_check(&self, job: JobNo, quota: Quota) -> Option<Refusal>
        ensures refusal { result ≡ requota_refusal self.now job quota }
        ensures shown { (view : View) → Shows self.now job.0 view → result ≡ requota_check_lem self.now.admissions view job quota }
    {
        let Some(row) = self.rows.get(&job) else {
            return Some(Refusal::NotAdmitted);
        };
        if let Some(refusal) = row_commands::requota_check(row, quota) {
            return Some(refusal);
        }
        self.admission.resize_check(job, quota)
    }

    /// The operator changes a job's quota: its copies keep their places.
    pub(crate) fn requota(
        &mut self,
        job: JobNo,
        quota: Quota,
    ) -> Result<row_steps::RowOutcome, OutOfMemory>
        ensures ok { IfOk result (λ o. NodeStepOne self.old (event.Requota job quota) (row_given_of o) self.new) }
        ensures silent { IfOk result (λ o. o.messages ≡ []) }
        ensures memory_last { OnErr result ((view : View) → Shows self.old job.0 view → requota_check_lem self.old.admissions view job quota ≡ None) }
        ensures err { OnErr result (self.new ≡ self.old) }
    {
        if let Some(refusal) = self.requota_check(job, quota) {
            return Ok(row_steps::RowOutcome::only(self.alloc, Reply::Refused(refusal)));
        }
        let Some(own_row) = self.rows.get_mut(&job) else {
            unreachable!()
        };
        match row_commands::requota(own_row, quota) {
            Ok(()) => {}
            Err(Failure::Memory(error)) => return Err(error),
            Err(Failure::Refused(_)) => unreachable!(),
        }
        let Ok(()) = self.admission.resize(job, quota) else {
            unreachable!()
        };
        Ok(row_steps::RowOutcome::only(self.alloc, Reply::Ok))
    }
}
