//! What the operator is shown of a node that serves, and how its sessions are ended. None of it makes an entry or changes a job's store.
ghost use Rattle.std.specs.Prelude.{◌≡◌, IfOk, IfErr};
ghost use Rattle.obj_id.specs.declared.refusals.Refusal.TheVariants.{NotAdmitted};
ghost use Rattle.shared_nodes.specs.Looking.{AreLiveAt, IsUsageAt};

use crate::SharedNode;
use memory_growth::OutOfMemory;
use node_gate::{JournaledNode, LiveJob};
use node_housekeeping::{Count, CountedSessions, ListedSession, NodeCounts, Pause};
use obj_id::{JobNo, Refusal, Usage};
use std::sync::Wait;
use std::time::Clock;

impl<K: JournaledNode, P: Pause> SharedNode<K, P> {
    /// A job's quotas and what is used of them. `NotAdmitted` if the job isn't live. Takes no memory.
    pub fn usage<R: Wait>(&self, rt: &R, job: JobNo) -> Result<Usage, Refusal>
        ensures shown { IsUsageAt K.node_number K.shows_usage self.now.number job result }
        ensures refusal { IfErr result (λ refusal. refusal ≡ NotAdmitted) }
    {
        self.lock(rt).usage(job)
    }

    /// The live jobs, by rising number. The error is out of memory.
    pub fn live_jobs<R: Wait>(&self, rt: &R) -> Result<Vec<LiveJob>, OutOfMemory>
        ensures { IfOk result (λ live. AreLiveAt K.node_number K.shows_live self.now.number live.items) }
    {
        self.lock(rt).live_jobs(self.housekeeping.upkeep.alloc)
    }

    /// How many sessions are open.
    pub fn open_sessions<R: Wait>(&self, rt: &R) -> CountedSessions
        ensures { result.node ≡ self.now.number }
    {
        self.housekeeping.upkeep.sessions.count(rt, self.number())
    }

    /// The open sessions whose Hello was taken, in any order. The error is out of memory.
    pub fn listed_sessions<R: Wait + Clock>(
        &self,
        rt: &R,
    ) -> Result<Vec<ListedSession>, OutOfMemory> {
        self.housekeeping
            .upkeep
            .streams
            .listed(rt, self.housekeeping.upkeep.alloc)
    }

    /// What was counted of its sessions and of its lock.
    pub fn node_counts(&self) -> NodeCounts {
        self.housekeeping.upkeep.counts.of_node()
    }

    /// What was counted of a live job: nothing of another, or of one for which there was no memory when it was admitted. The error is out of
    /// memory.
    pub fn job_counts<R: Wait>(&self, rt: &R, job: JobNo) -> Result<Vec<Count>, OutOfMemory> {
        let alloc = self.housekeeping.upkeep.alloc;
        match self.housekeeping.upkeep.counts.of(rt, job) {
            Some(counts) => counts.counted(alloc),
            None => Ok(Vec::new(alloc)),
        }
    }

    /// Shuts down the stream of this job's session, if it is open: whether it is. The session then ends as if its client had gone.
    pub fn kick<R: Wait>(&self, rt: &R, job: JobNo, session: u32) -> bool {
        self.housekeeping
            .upkeep
            .streams
            .shut_session(rt, job, session)
    }

    /// Waits for the open sessions to end.
    pub fn await_sessions<R: Wait>(&self, rt: &R) {
        self.housekeeping.upkeep.sessions.wait_for_all(rt);
    }
}
