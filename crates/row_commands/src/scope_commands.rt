//! The commands that say what keeps an object in scope: Unpin, Borrow, GiveUp and Delete.
ghost use Rattle.std.specs.Prelude.{◌≡◌, ◌==◌, ◌||◌, ℕ, ◌≤◌, [], length, true, None, IfOk, OnErr, is_ok, false};
ghost use Rattle.obj_id.specs.declared.commands.Command.TheVariants as command;
ghost use Rattle.private_store.specs.declared.inputs.Input.TheVariants as input;
ghost use Rattle.private_store.specs.rules.Contents.{Contents};
ghost use Rattle.private_store.specs.laws.Invariants.{is_remembered};
ghost use Rattle.job_row.specs.Checks.{unpin_check as unpin_check_lem, row_borrow_check, give_up_check as give_up_check_lem, delete_check as delete_check_lem};
ghost use Rattle.row_steps.specs.Outcomes.{row_given_of};
ghost use Rattle.row_steps.specs.Shown.{IsShown, RowStep};
ghost use Rattle.row_steps.specs.Beside.{SharedTables};

use job_row::JobRow;
use memory_growth::OutOfMemory;
use obj_id::{Failure, ObjectId, Refusal, Reply, TaskNo};
use row_copy::Mark;
use row_steps::RowOutcome;
use std::alloc::Global;

/// Unpin: the owner task keeps its primary no longer, which is doomed unless a task borrows it. `Absent`, `NotOwner`
/// if it is a secondary or another task asks, `NotHeld` if it isn't pinned. The error is out of memory, and then
/// nothing has changed.
pub fn unpin(
    row: &mut JobRow,
    alloc: Global,
    room: Result<(), OutOfMemory>,
    node: u32,
    id: &ObjectId,
    task: TaskNo,
) -> Result<RowOutcome, OutOfMemory>
    ensures ok { IfOk result (λ o. (session : ℕ) (beside : SharedTables) (contents : Contents) → (id.now.job.0 == row.old.job) ≡ true → IsShown row.old beside contents
        → RowStep node row.old beside contents (input.Call session (command.Unpin id.now task)) (row_given_of o) row.new beside) }
    ensures bounded { IfOk result (λ o. length o.messages ≤ 1) }
    ensures unsent { IfOk result (λ o. is_ok room ≡ false → o.messages ≡ []) }
    ensures memory_last { OnErr result (unpin_check_lem row.old.copies id.now task ≡ None) }
    ensures err { OnErr result (row.new ≡ row.old) }
{
    let message = match row.copies().unpin_farewell(node, id, task) {
        Err(refusal) => return Ok(RowOutcome::only(alloc, Reply::Refused(refusal))),
        Ok(message) => message,
    };
    let messages = RowOutcome::to_directory(alloc, room, message)?;
    let erased = row.apply_and_settle(id, Mark::Unpinned);
    Ok(RowOutcome::done(messages, erased))
}

/// Borrow: the task refers to the object, and keeps its primary. `Gone` if the object's task or this one has ended,
/// `Absent`, `NotOwner` if it is a secondary, `Exists` if the task borrows it already, `TooMany` at 64 borrowers.
/// The error is out of memory, and then nothing has changed.
pub fn borrow(
    row: &mut JobRow,
    alloc: Global,
    id: &ObjectId,
    task: TaskNo,
) -> Result<RowOutcome, OutOfMemory>
    ensures ok { IfOk result (λ o. (node session : ℕ) (beside : SharedTables) (contents : Contents) → (id.now.job.0 == row.old.job) ≡ true → IsShown row.old beside contents
        → RowStep node row.old beside contents (input.Call session (command.Borrow id.now task)) (row_given_of o) row.new beside) }
    ensures silent { IfOk result (λ o. o.messages ≡ []) }
    ensures memory_last { OnErr result (row_borrow_check row.old id.now task ≡ None) }
    ensures err { OnErr result (row.new ≡ row.old) }
{
    if has_either_ended(row, id.task(), task) {
        return Ok(RowOutcome::only(alloc, Reply::Refused(Refusal::Gone)));
    }
    match row.borrow_copy(id, task) {
        Ok(()) => Ok(RowOutcome::only(alloc, Reply::Ok)),
        Err(Failure::Memory(error)) => Err(error),
        Err(Failure::Refused(refusal)) => Ok(RowOutcome::only(alloc, Reply::Refused(refusal))),
    }
}

/// GiveUp: the task refers to the object no longer, whose primary is doomed unless it is pinned or another task
/// borrows it. `Absent`, also if the task doesn't borrow it, `NotOwner` if it is a secondary. The error is out of
/// memory, and then nothing has changed.
pub fn give_up(
    row: &mut JobRow,
    alloc: Global,
    room: Result<(), OutOfMemory>,
    node: u32,
    id: &ObjectId,
    task: TaskNo,
) -> Result<RowOutcome, OutOfMemory>
    ensures ok { IfOk result (λ o. (session : ℕ) (beside : SharedTables) (contents : Contents) → (id.now.job.0 == row.old.job) ≡ true → IsShown row.old beside contents
        → RowStep node row.old beside contents (input.Call session (command.GiveUp id.now task)) (row_given_of o) row.new beside) }
    ensures bounded { IfOk result (λ o. length o.messages ≤ 1) }
    ensures unsent { IfOk result (λ o. is_ok room ≡ false → o.messages ≡ []) }
    ensures memory_last { OnErr result (give_up_check_lem row.old.copies id.now task ≡ None) }
    ensures err { OnErr result (row.new ≡ row.old) }
{
    let message = match row.copies().give_up_farewell(node, id, task) {
        Err(refusal) => return Ok(RowOutcome::only(alloc, Reply::Refused(refusal))),
        Ok(message) => message,
    };
    let messages = RowOutcome::to_directory(alloc, room, message)?;
    let erased = row.apply_and_settle(id, Mark::GivenUp(task));
    Ok(RowOutcome::done(messages, erased))
}

/// Delete: the copy is doomed, whoever refers to it, and removed once nothing keeps it. `Absent`, `Granted` if a
/// grant of it stands that the job gave. The error is out of memory, and then nothing has changed.
pub fn delete(
    row: &mut JobRow,
    alloc: Global,
    room: Result<(), OutOfMemory>,
    node: u32,
    id: &ObjectId,
) -> Result<RowOutcome, OutOfMemory>
    ensures ok { IfOk result (λ o. (session : ℕ) (beside : SharedTables) (contents : Contents) → (id.now.job.0 == row.old.job) ≡ true → IsShown row.old beside contents
        → RowStep node row.old beside contents (input.Call session (command.Delete id.now)) (row_given_of o) row.new beside) }
    ensures bounded { IfOk result (λ o. length o.messages ≤ 1) }
    ensures unsent { IfOk result (λ o. is_ok room ≡ false → o.messages ≡ []) }
    ensures memory_last { OnErr result (delete_check_lem row.old.copies id.now ≡ None) }
    ensures err { OnErr result (row.new ≡ row.old) }
{
    let message = match row.copies().delete_farewell(node, id) {
        Err(refusal) => return Ok(RowOutcome::only(alloc, Reply::Refused(refusal))),
        Ok(message) => message,
    };
    let messages = RowOutcome::to_directory(alloc, room, message)?;
    let erased = row.apply_and_settle(id, Mark::Doomed);
    Ok(RowOutcome::done(messages, erased))
}

/// Whether one of these tasks has ended here.
fn has_either_ended(row: &JobRow, one: TaskNo, other: TaskNo) -> bool
    ensures { result ≡ is_remembered row.now.ended_tasks one || is_remembered row.now.ended_tasks other }
{
    row.has_ended(one) || row.has_ended(other)
}
