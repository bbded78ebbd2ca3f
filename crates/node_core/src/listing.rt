//! What a job is shown of its copies and of what others granted to it.
ghost use Rattle.std.specs.Prelude.{◌≡◌, [], length, map, IfOk, OnErr};
ghost use Rattle.obj_id.specs.declared.commands.Command.TheVariants as command;
ghost use Rattle.private_store.specs.declared.schedules.Event.TheVariants as event;
ghost use Rattle.row_steps.specs.Outcomes.{row_given_of};
ghost use Rattle.node_core.specs.Granted.{granted_item as granted_item_lem, granted_here};
ghost use Rattle.node_core.specs.Hosted.{bytes_here};
ghost use Rattle.node_core.specs.MemoryLast.{IsCallUnrefused};
ghost use Rattle.node_core.specs.OneJob.{NodeStepOne};

use crate::Node;
use grants::StandingGrant;
use memory_growth::{OutOfMemory, lists};
use obj_id::{GrantedItem, ItemList, JobNo, ObjectId, Refusal, Reply};

impl Node {
    /// List: the job's own copies by rising id, and the objects that others granted to it. `NotAdmitted` if the job
    /// isn't live. The error is out of memory. Changes nothing.
    pub(crate) fn list(
        &self,
        job: JobNo,
        session: u32,
    ) -> Result<row_steps::RowOutcome, OutOfMemory>
        ensures ok { IfOk result (λ o. NodeStepOne self.now (event.Call job session command.List) (row_given_of o) self.now) }
        ensures silent { IfOk result (λ o. o.messages ≡ []) }
        ensures memory_last { OnErr result (IsCallUnrefused self.now job session command.List) }
    {
        let Some(row) = self.rows.get(&job) else {
            let reply = Reply::Refused(Refusal::NotAdmitted);
            return Ok(row_steps::RowOutcome::only(self.alloc, reply));
        };
        let granted = self.granted(job)?;
        let reply = row_commands::list(row, self.alloc, granted)?;
        Ok(row_steps::RowOutcome::only(self.alloc, reply))
    }

    /// The objects that others granted to the job, by rising id, each with the depth of its oldest grant.
    fn granted(&self, job: JobNo) -> Result<ItemList<GrantedItem>, OutOfMemory>
        ensures { IfOk result (λ items. items ≡ granted_here self.now job.0) }
    {
        let seen = self.grants.seen(job)?;
        self.granted_items(seen.as_slice())
    }

    /// The objects of these grants.
    fn granted_items(&self, grants: &[StandingGrant]) -> Result<ItemList<GrantedItem>, OutOfMemory>
        ensures { IfOk result (λ items. items ≡ map (granted_item_lem self.now.rows) grants.now) }
    {
        let mut items = Vec::new(self.alloc);
        for grant in grants {
            lists::push(&mut items, self.granted_item(grant))?;
        }
        Ok(ItemList::from_vec(items))
    }

    /// The object of a grant.
    fn granted_item(&self, grant: &StandingGrant) -> GrantedItem
        ensures { result ≡ granted_item_lem self.now.rows grant.now }
    {
        GrantedItem {
            id: grant.id(),
            length: self.granted_length(&grant.id()),
            depth: grant.depth(),
        }
    }

    /// The length of an object of which a grant stands, as the row of its own job has it. Takes no memory.
    pub fn granted_length(&self, id: &ObjectId) -> u32
        ensures { result ≡ length (bytes_here self.now.rows id.now) }
    {
        match self.rows.get(&id.job()) {
            Some(row) => row_commands::granted_length(row, id),
            None => 0,
        }
    }
}
