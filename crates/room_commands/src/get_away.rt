//! Get of a copy that is on the device alone.
ghost use Rattle.std.specs.Prelude.{◌≡◌, ◌==◌, ℕ, ◌+◌, ◌≤◌, List, length, true, false, Ok, Some, IfOk, OnOk, OnErr, is_ok, []};
ghost use Rattle.obj_id.specs.declared.ids.JobNo.{JobNo};
ghost use Rattle.obj_id.specs.declared.commands.CopyState.TheVariants.{Away};
ghost use Rattle.obj_id.specs.declared.commands.Command.TheVariants as command;
ghost use Rattle.private_store.specs.declared.inputs.Input.TheVariants as input;
ghost use Rattle.private_store.specs.rules.Tables.{at};
ghost use Rattle.private_store.specs.laws.Invariants.{is_remembered};
ghost use Rattle.private_store.specs.rules.Grants.{StandingGrant};
ghost use Rattle.private_store.specs.rules.Contents.{Contents};
ghost use Rattle.spill_work.specs.Line.{same_work_job, IsSameFor};
ghost use Rattle.room_commands.specs.Asked.{HasAsked};
ghost use Rattle.job_row.specs.Checks.{visible_state};
ghost use Rattle.row_steps.specs.MemoryLast.{IsDueMore};
ghost use Rattle.row_steps.specs.Outcomes.{row_given_of};
ghost use Rattle.row_steps.specs.Shown.{IsShown, RowStep};
ghost use Rattle.row_steps.specs.Beside.{beside_of};

use crate::get_command::refuse;
use crate::restore::restore;
use job_row::JobRow;
use memory_growth::OutOfMemory;
use obj_id::ObjectId;
use row_copy::Mark;
use row_steps::RowOutcome;
use spill_work::Works;
use std::alloc::Global;

/// Get of a copy that is away: what its last restore came to is answered, once; otherwise it is read back. `DeviceFailed`,
/// `Damaged`, and as `restore`.
pub(crate) fn get_away(
    row: &mut JobRow,
    alloc: Global,
    room: Result<(), OutOfMemory>,
    node: u32,
    works: &mut Works,
    id: &ObjectId,
) -> Result<RowOutcome, OutOfMemory>
    requires alive { is_remembered row.old.ended_tasks id.now.task ≡ false }
    requires visible { visible_state (at row.old.copies id.now) ≡ Ok (Some Away) }
    ensures ok { IfOk result (λ o. (session : ℕ) (grants : List StandingGrant) (bytes : ObjectId → List ℕ) (contents : Contents) → (id.now.job.0 == row.old.job) ≡ true → IsShown row.old (beside_of works.old grants bytes row.old.job) contents
        → RowStep node row.old (beside_of works.old grants bytes row.old.job) contents (input.Call session (command.Get id.now)) (row_given_of o) row.new (beside_of works.new grants bytes row.old.job)) }
    ensures bounded { IfOk result (λ o. length o.messages ≤ length row.old.copies + 1) }
    ensures unsent { IfOk result (λ o. is_ok room ≡ false → o.messages ≡ []) }
    ensures line { OnOk result (HasAsked works.old id.now.job works.new) }
    ensures memory_last { OnErr result ((id.now.job.0 == row.old.job) ≡ true → IsDueMore node row.old works.old (command.Get id.now)) }
    ensures others { (other : JobNo) → same_work_job id.now.job other ≡ false → IsSameFor other works.old works.new }
    ensures err { OnErr result (row.new ≡ row.old) }
    ensures works { OnErr result (works.new ≡ works.old) }
{
    match row.copies().fault(id) {
        Some(fault) => {
            row.apply(id, Mark::FaultTold);
            refuse(alloc, fault.refusal())
        }
        None => restore(row, alloc, room, node, works, id.job(), id),
    }
}
