//! Get: a hold on a copy that is here, and otherwise what brings it here.
ghost use Rattle.std.specs.Prelude.{◌≡◌, [], ◌==◌, ℕ, ◌+◌, ◌≤◌, List, length, true, false, None, IsOk, IfOk, IfSome, IfNone, OnOk, OnErr, is_ok};
ghost use Rattle.std.specs.Option.{option_map_or};
ghost use Rattle.obj_id.specs.declared.ids.JobNo.{JobNo};
ghost use Rattle.obj_id.specs.declared.refusals.Refusal.TheVariants.{Pending};
ghost use Rattle.obj_id.specs.declared.commands.Command.TheVariants as command;
ghost use Rattle.obj_id.specs.declared.commands.Reply.TheVariants as reply;
ghost use Rattle.private_store.specs.declared.inputs.Input.TheVariants as input;
ghost use Rattle.private_store.specs.rules.Tables.{at};
ghost use Rattle.private_store.specs.laws.Invariants.{is_remembered};
ghost use Rattle.private_store.specs.rules.Contents.{Contents};
ghost use Rattle.private_store.specs.rules.Private.{to_directory};
ghost use Rattle.obj_id.specs.declared.messages.DirectoryMessage.TheVariants.{Locate};
ghost use Rattle.private_store.specs.rules.Grants.{StandingGrant};
ghost use Rattle.spill_work.specs.Line.{WorkLine, same_work_job, IsSameFor};
ghost use Rattle.room_commands.specs.Asked.{HasAsked};
ghost use Rattle.row_copy.specs.CopyViews.{is_ready};
ghost use Rattle.row_steps.specs.MemoryLast.{IsDueMore};
ghost use Rattle.row_steps.specs.Outcomes.{row_given_of};
ghost use Rattle.row_steps.specs.Shown.{IsShown, RowStep, only};
ghost use Rattle.row_steps.specs.Beside.{SharedTables, beside_of};

use crate::get_away::get_away;
use crate::get_fetching::get_fetching;
use bytes::Bytes;
use job_row::JobRow;
use memory_growth::OutOfMemory;
use obj_id::{
    CopyState, DirectoryMessage, Endpoint, Failure, FetchNo, ItemList, Message, ObjectId, Refusal,
    Reply,
};
use row_steps::{Erase, RowOutcome};
use spill_work::Works;
use std::alloc::Global;

/// Get of a sealed copy: one more hold of the session, and the copy is the most recently used one.
/// `TooMany` at 64 holds. `None` if there is no sealed copy, and then nothing has changed.
fn get_sealed(
    row: &mut JobRow,
    session: u32,
    id: &ObjectId,
) -> Result<Option<Reply<Bytes>>, OutOfMemory>
    requires { is_remembered row.old.ended_tasks id.now.task ≡ false }
    ensures some { IfOk result (λ o. IfSome o (λ reply. (node : ℕ) (beside : SharedTables) (contents : Contents) → (id.now.job.0 == row.old.job) ≡ true → IsShown row.old beside contents
        → RowStep node row.old beside contents (input.Call session (command.Get id.now)) (only reply) row.new beside)) }
    ensures none { IfOk result (λ o. IfNone o (option_map_or (λ k. is_ready k.copy) (at row.old.copies id.now) false ≡ false)) }
    ensures same { IfOk result (λ o. IfNone o (row.new ≡ row.old)) }
    ensures memory_last { OnErr result ((node : ℕ) (line : WorkLine) → (id.now.job.0 == row.old.job) ≡ true → IsDueMore node row.old line (command.Get id.now)) }
    ensures err { OnErr result (row.new ≡ row.old) }
{
    match row.hold_copy(id, session) {
        Ok(None) => Ok(None),
        Ok(Some(length)) => Ok(Some(Reply::Got(length))),
        Err(Failure::Memory(error)) => Err(error),
        Err(Failure::Refused(refusal)) => Ok(Some(Reply::Refused(refusal))),
    }
}

/// Get of an object that isn't here: its fetch begins, under the job's next number, and its source is
/// asked for. `TooMany` at 1,024 copies, and if no number is left; otherwise the answer is `Pending`.
fn begin_fetch(
    row: &mut JobRow,
    alloc: Global,
    room: Result<(), OutOfMemory>,
    node: u32,
    id: &ObjectId,
) -> Result<RowOutcome, OutOfMemory>
    requires alive { is_remembered row.old.ended_tasks id.now.task ≡ false }
    requires none { at row.old.copies id.now ≡ None }
    ensures ok { IfOk result (λ o. (session : ℕ) (beside : SharedTables) (contents : Contents) → (id.now.job.0 == row.old.job) ≡ true → IsShown row.old beside contents
        → RowStep node row.old beside contents (input.Call session (command.Get id.now)) (row_given_of o) row.new beside) }
    ensures bounded { IfOk result (λ o. length o.messages ≤ 1) }
    ensures unsent { IfOk result (λ o. is_ok room ≡ false → o.messages ≡ []) }
    ensures memory_last { OnErr result ((line : WorkLine) → (id.now.job.0 == row.old.job) ≡ true → IsDueMore node row.old line (command.Get id.now)) }
    ensures err { OnErr result (row.new ≡ row.old) }
{
    let begun = row.fetches_begun();
    if let Some(refusal) = row.copies().fetch_check(begun) {
        return Ok(RowOutcome::only(alloc, Reply::Refused(refusal)));
    }
    let number = FetchNo(begun + 1);
    let messages = locate(alloc, room, node, *id, number)?;
    row.enter_fetch(alloc, id, number)?;
    Ok(pending(messages))
}

/// Get of what isn't here as a sealed copy: what brings it here, or what its fetch or its restore came to. `Absent` if
/// it is doomed, `NotSealed`, `Pending`, `TooMany`, and as `get_fetching` and `get_away`.
fn get_unsealed(
    row: &mut JobRow,
    alloc: Global,
    room: Result<(), OutOfMemory>,
    node: u32,
    works: &mut Works,
    id: &ObjectId,
) -> Result<RowOutcome, OutOfMemory>
    requires alive { is_remembered row.old.ended_tasks id.now.task ≡ false }
    requires unready { option_map_or (λ k. is_ready k.copy) (at row.old.copies id.now) false ≡ false }
    ensures ok { IfOk result (λ o. (session : ℕ) (grants : List StandingGrant) (bytes : ObjectId → List ℕ) (contents : Contents) → (id.now.job.0 == row.old.job) ≡ true → IsShown row.old (beside_of works.old grants bytes row.old.job) contents
        → RowStep node row.old (beside_of works.old grants bytes row.old.job) contents (input.Call session (command.Get id.now)) (row_given_of o) row.new (beside_of works.new grants bytes row.old.job)) }
    ensures bounded { IfOk result (λ o. length o.messages ≤ length row.old.copies + 1) }
    ensures unsent { IfOk result (λ o. is_ok room ≡ false → o.messages ≡ []) }
    ensures line { OnOk result (HasAsked works.old id.now.job works.new) }
    ensures memory_last { OnErr result ((id.now.job.0 == row.old.job) ≡ true → IsDueMore node row.old works.old (command.Get id.now)) }
    ensures others { (other : JobNo) → same_work_job id.now.job other ≡ false → IsSameFor other works.old works.new }
    ensures err { OnErr result (row.new ≡ row.old) }
    ensures works { OnErr result (works.new ≡ works.old) }
{
    let state = match row.copies().visible_state(id) {
        Err(refusal) => return refuse(alloc, refusal),
        Ok(None) => return begin_fetch(row, alloc, room, node, id),
        Ok(Some(state)) => state,
    };
    match state {
        CopyState::Fetching => get_fetching(row, alloc, room, node, works, id),
        CopyState::Created => refuse(alloc, Refusal::NotSealed),
        CopyState::Restoring => refuse(alloc, Refusal::Pending),
        CopyState::Away => get_away(row, alloc, room, node, works, id),
        CopyState::Sealed => unreachable!(),
    }
}

/// Get: a hold on a copy that is here, and otherwise what brings it here. `Gone`, `Absent`, `NotSealed`, `Pending`,
/// `TooMany`; `BadSize` of an object that the window can't have; once after its restore failed `DeviceFailed` or
/// `Damaged`, and after its fetch failed `Absent` or `Damaged`, and then it isn't here any more. The error is out
/// of memory: no other refusal was due then, and nothing has changed. The works that it asks for come last in the line,
/// and those before them stay.
/// It sends at most one message more than the job has copies.
pub fn get(
    row: &mut JobRow,
    alloc: Global,
    room: Result<(), OutOfMemory>,
    node: u32,
    works: &mut Works,
    session: u32,
    id: &ObjectId,
) -> Result<RowOutcome, OutOfMemory>
    ensures ok { IfOk result (λ o. (grants : List StandingGrant) (bytes : ObjectId → List ℕ) (contents : Contents) → (id.now.job.0 == row.old.job) ≡ true → IsShown row.old (beside_of works.old grants bytes row.old.job) contents
        → RowStep node row.old (beside_of works.old grants bytes row.old.job) contents (input.Call session (command.Get id.now)) (row_given_of o) row.new (beside_of works.new grants bytes row.old.job)) }
    ensures bounded { IfOk result (λ o. length o.messages ≤ length row.old.copies + 1) }
    ensures unsent { IfOk result (λ o. is_ok room ≡ false → o.messages ≡ []) }
    ensures line { OnOk result (HasAsked works.old id.now.job works.new) }
    ensures memory_last { OnErr result ((id.now.job.0 == row.old.job) ≡ true → IsDueMore node row.old works.old (command.Get id.now)) }
    ensures others { (other : JobNo) → same_work_job id.now.job other ≡ false → IsSameFor other works.old works.new }
    ensures err { OnErr result (row.new ≡ row.old) }
    ensures works { OnErr result (works.new ≡ works.old) }
{
    if row.has_ended(id.task()) {
        return refuse(alloc, Refusal::Gone);
    }
    if let Some(reply) = get_sealed(row, session, id)? {
        return Ok(RowOutcome::only(alloc, reply));
    }
    get_unsealed(row, alloc, room, node, works, id)
}

/// A refusal, and nothing else.
pub(crate) fn refuse(alloc: Global, refusal: Refusal) -> Result<RowOutcome, OutOfMemory>
    ensures ok { IfOk result (λ o. row_given_of o ≡ only (reply.Refused refusal)) }
    ensures response { IsOk result }
{
    Ok(RowOutcome::only(alloc, Reply::Refused(refusal)))
}

/// The answer `Pending`, and these messages.
pub(crate) fn pending(messages: ItemList<(Endpoint, Message)>) -> RowOutcome
    ensures { row_given_of result ≡ record { reply = reply.Refused Pending; posts = messages; erased = [] } }
{
    RowOutcome {
        reply: Reply::Refused(Refusal::Pending),
        messages,
        erase: Erase::NoKey,
    }
}

/// The question where copies of the object are.
pub(crate) fn locate(
    alloc: Global,
    room: Result<(), OutOfMemory>,
    node: u32,
    id: ObjectId,
    number: FetchNo,
) -> Result<ItemList<(Endpoint, Message)>, OutOfMemory>
    ensures ok { IfOk result (λ messages. messages ≡ to_directory (Locate id node number)) }
    ensures unsent { IfOk result (λ messages. is_ok room ≡ false → messages ≡ []) }
{
    let message = Message::ToDirectory(DirectoryMessage::Locate {
        id,
        node,
        number: number.0,
    });
    RowOutcome::one_message(alloc, room, Endpoint::Directory, message)
}
