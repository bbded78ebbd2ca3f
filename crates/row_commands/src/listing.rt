//! The commands that tell of a row: List and Usage.
ghost use Rattle.std.specs.Prelude.{◌≡◌, ℕ, List, IfOk};
ghost use Rattle.obj_id.specs.declared.ids.ObjectId.{ObjectId};
ghost use Rattle.obj_id.specs.declared.commands.Command.TheVariants as command;
ghost use Rattle.private_store.specs.declared.inputs.Input.TheVariants as input;
ghost use Rattle.private_store.specs.rules.Commands.{usage_of, granted_items};
ghost use Rattle.private_store.specs.rules.Contents.{Contents};
ghost use Rattle.private_store.specs.rules.Grants.{StandingGrant};
ghost use Rattle.row_steps.specs.Shown.{IsShown, RowStep, only};
ghost use Rattle.row_steps.specs.Beside.{SharedTables, beside_of, shape_of};
ghost use Rattle.row_steps.specs.RowUsage.{used};

use bytes::Bytes;
use job_row::JobRow;
use memory_growth::OutOfMemory;
use obj_id::{GrantedItem, ItemList, ObjectId, OwnItem, Reply, Usage};
use row_copy::RowCopy;
use spill_work::Works;
use std::alloc::Global;

/// List: the own copies by rising id, and these objects, which are those that others granted. Takes a walk
/// over the job's copies and memory for each. Changes nothing; the error is out of memory.
pub fn list(
    row: &JobRow,
    alloc: Global,
    granted: ItemList<GrantedItem>,
) -> Result<Reply<Bytes>, OutOfMemory>
    ensures { IfOk result (λ response. (node session : ℕ) (beside : SharedTables) (contents : Contents) → IsShown row.now beside contents
        → granted ≡ granted_items (shape_of row.now beside)
        → RowStep node row.now beside contents (input.Call session command.List) (only response) row.now beside) }
{
    let own = row.copies().items(alloc)?;
    Ok(Reply::List(own, granted))
}

/// The job's quotas and what is used of them, in bytes and in numbers. Takes no walk, as all is counted,
/// one look-up of the job among the works, and no memory. A sum that passes `u64::MAX` is shown as that,
/// which no row of a node has.
pub fn usage(row: &JobRow, works: &Works) -> Usage
    ensures response { result ≡ used row.now works.now }
    ensures shown { (grants : List StandingGrant) (bytes : ObjectId → List ℕ) (contents : Contents) → IsShown row.now (beside_of works.now grants bytes row.now.job) contents
        → result ≡ usage_of (shape_of row.now (beside_of works.now grants bytes row.now.job)) }
{
    let quota = row.quota();
    Usage {
        window: quota.window,
        window_used: row.copies().window_bytes(),
        device: quota.device,
        device_used: row.copies().device_bytes(),
        copies: row.copies().len() as u64,
        works: works.in_flight(row.job()) as u64,
    }
}

/// Usage: what `usage` says. Changes nothing, and takes no memory.
pub fn tell_usage(row: &JobRow, works: &Works) -> Reply<Bytes>
    ensures { (node session : ℕ) (grants : List StandingGrant) (bytes : ObjectId → List ℕ) (contents : Contents) → IsShown row.now (beside_of works.now grants bytes row.now.job) contents
        → RowStep node row.now (beside_of works.now grants bytes row.now.job) contents (input.Call session command.Usage) (only result) row.now (beside_of works.now grants bytes row.now.job) }
{
    Reply::Usage(usage(row, works))
}
