//! What the operator is shown of a node's live jobs.
ghost use Rattle.std.specs.Prelude.{◌≡◌, ◌++◌, ◌∷◌, [], All, IfOk, OnOk, filter, map};
ghost use Rattle.node_journal.specs.Looking.{AreLive, IsUsageShown, is_live_now};
ghost use Rattle.node_gate.specs.declared.journaled.LiveJob.{LiveJob};

use crate::Kept;
use memory_growth::{OutOfMemory, lists};
use node_core::Node;
use node_gate::LiveJob;
use obj_id::JobNo;
use std::alloc::Global;
use std::sync::ledger::Ledger;

/// The live jobs among those that the journal has, by rising number. The error is out of memory.
pub(crate) fn live_jobs_of<L: Ledger>(
    alloc: Global,
    kept: &Kept<L>,
) -> Result<Vec<LiveJob>, OutOfMemory>
    ensures { IfOk result (λ live. AreLive kept.now.node kept.now.logs live.items) }
{
    let jobs = kept.jobs()?;
    let mut live = Vec::new(alloc);
    for job in jobs.as_slice() {
        add_live(kept.node(), *job, &mut live)?;
    }
    Ok(live)
}

/// Adds the job, if it is live. The error is out of memory.
fn add_live(node: &Node, job: JobNo, live: &mut Vec<LiveJob>) -> Result<(), OutOfMemory>
    ensures listed { OnOk result (map (λ (l : LiveJob). l.job) live.new.items ≡ map (λ (l : LiveJob). l.job) live.old.items ++ filter (is_live_now node.now) (job ∷ [])) }
    ensures used { OnOk result (All (IsUsageShown node.now) live.old.items → All (IsUsageShown node.now) live.new.items) }
{
    let Ok(usage) = node.usage(job) else {
        return Ok(());
    };
    lists::push(live, LiveJob { job, usage })?;
    Ok(())
}
