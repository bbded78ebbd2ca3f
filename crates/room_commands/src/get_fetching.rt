//! Get of a copy that is on its way.
ghost use Rattle.std.specs.Prelude.{◌≡◌, ◌==◌, ℕ, ◌+◌, ◌≤◌, List, length, true, false, Ok, Some, IfOk, OnOk, OnErr, ◌∷◌, [], unwrap_or, is_ok};
ghost use Rattle.obj_id.specs.declared.ids.JobNo.{JobNo};
ghost use Rattle.obj_id.specs.declared.commands.CopyState.TheVariants.{Fetching};
ghost use Rattle.obj_id.specs.declared.commands.Command.TheVariants as command;
ghost use Rattle.private_store.specs.declared.inputs.Input.TheVariants as input;
ghost use Rattle.private_store.specs.rules.Tables.{at};
ghost use Rattle.private_store.specs.laws.Invariants.{is_remembered};
ghost use Rattle.private_store.specs.rules.Grants.{StandingGrant};
ghost use Rattle.private_store.specs.rules.Contents.{Contents};
ghost use Rattle.spill_work.specs.Line.{same_work_job, IsSameFor};
ghost use Rattle.room_commands.specs.Asked.{HasAsked};
ghost use Rattle.job_row.specs.Checks.{visible_state};
ghost use Rattle.row_copy.specs.Checks.{IsInPhase};
ghost use Rattle.row_steps.specs.MemoryLast.{IsDueMore};
ghost use Rattle.row_steps.specs.Outcomes.{row_given_of};
ghost use Rattle.row_steps.specs.Shown.{IsShown, RowStep};
ghost use Rattle.obj_id.specs.declared.messages.PeerMessage.TheVariants.{Pull};
ghost use Rattle.private_store.specs.rules.Shape.{sized, pulling, failed};
ghost use Rattle.private_store.specs.rules.Contents.{no_digest};
ghost use Rattle.private_store.specs.rules.Private.{to_peer};
ghost use Rattle.fetch_core.specs.Fetching.{missing_of};
ghost use Rattle.row_copy.specs.CopyViews.{CopyView, store_fetch_of};
ghost use Rattle.row_steps.specs.Beside.{SharedTables, beside_of};

use crate::begin_pull::begin_pull;
use crate::get_command::{locate, pending, refuse};
use fetch_core::{FetchIn, Stage};
use job_row::JobRow;
use memory_growth::{OutOfMemory, lists};
use obj_id::{Endpoint, ItemList, Message, NodeNo, ObjectId, PeerMessage, Refusal, Reply};
use private_store::FetchFault;
use row_copy::RowCopy;
use row_steps::RowOutcome;
use spill_work::Works;
use std::alloc::Global;

/// Get of an object that is on its way: its fetch goes one step on, and the answer is `Pending`. What it came to if it
/// failed, `Absent` or `Damaged`, and then the copy is removed; and as `get_sized`.
pub(crate) fn get_fetching(
    row: &mut JobRow,
    alloc: Global,
    room: Result<(), OutOfMemory>,
    node: u32,
    works: &mut Works,
    id: &ObjectId,
) -> Result<RowOutcome, OutOfMemory>
    requires alive { is_remembered row.old.ended_tasks id.now.task ≡ false }
    requires visible { visible_state (at row.old.copies id.now) ≡ Ok (Some Fetching) }
    ensures ok { IfOk result (λ o. (session : ℕ) (grants : List StandingGrant) (bytes : ObjectId → List ℕ) (contents : Contents) → (id.now.job.0 == row.old.job) ≡ true → IsShown row.old (beside_of works.old grants bytes row.old.job) contents
        → RowStep node row.old (beside_of works.old grants bytes row.old.job) contents (input.Call session (command.Get id.now)) (row_given_of o) row.new (beside_of works.new grants bytes row.old.job)) }
    ensures bounded { IfOk result (λ o. length o.messages ≤ length row.old.copies + 1) }
    ensures unsent { IfOk result (λ o. is_ok room ≡ false → o.messages ≡ []) }
    ensures line { OnOk result (HasAsked works.old id.now.job works.new) }
    ensures memory_last { OnErr result ((id.now.job.0 == row.old.job) ≡ true → IsDueMore node row.old works.old (command.Get id.now)) }
    ensures others { (other : JobNo) → same_work_job id.now.job other ≡ false → IsSameFor other works.old works.new }
    ensures err { OnErr result (row.new ≡ row.old) }
    ensures works { OnErr result (works.new ≡ works.old) }
{
    let Some(copy) = row.copies().get(id) else {
        unreachable!()
    };
    let Some(fetch) = copy.fetch() else {
        return refuse(alloc, Refusal::Absent);
    };
    let len = copy.length();
    match fetch.stage() {
        Stage::Locating => Ok(pending(locate(alloc, room, node, *id, fetch.number())?)),
        Stage::Pulling(source) => Ok(pending(pull(alloc, room, *id, copy, fetch, source)?)),
        Stage::Sized(_) => get_sized(row, alloc, room, node, works, id, len),
        Stage::Failed(fault) => Ok(tell_failed(row, alloc, id, fault)),
    }
}

/// Get of an object of `len` bytes whose source is known: its bytes are asked for. `BadSize` if the window can't have
/// it, and as `begin_pull`.
fn get_sized(
    row: &mut JobRow,
    alloc: Global,
    room: Result<(), OutOfMemory>,
    node: u32,
    works: &mut Works,
    id: &ObjectId,
    len: u32,
) -> Result<RowOutcome, OutOfMemory>
    requires alive { is_remembered row.old.ended_tasks id.now.task ≡ false }
    requires visible { visible_state (at row.old.copies id.now) ≡ Ok (Some Fetching) }
    requires sized { (k : CopyView) → at row.old.copies id.now ≡ Some k → (source : ℕ) × IsInPhase k.copy (sized source) }
    requires length { (k : CopyView) → at row.old.copies id.now ≡ Some k → len ≡ k.copy.length }
    ensures ok { IfOk result (λ o. (session : ℕ) (grants : List StandingGrant) (bytes : ObjectId → List ℕ) (contents : Contents) → (id.now.job.0 == row.old.job) ≡ true → IsShown row.old (beside_of works.old grants bytes row.old.job) contents
        → RowStep node row.old (beside_of works.old grants bytes row.old.job) contents (input.Call session (command.Get id.now)) (row_given_of o) row.new (beside_of works.new grants bytes row.old.job)) }
    ensures bounded { IfOk result (λ o. length o.messages ≤ length row.old.copies + 1) }
    ensures unsent { IfOk result (λ o. is_ok room ≡ false → o.messages ≡ []) }
    ensures line { OnOk result (HasAsked works.old id.now.job works.new) }
    ensures memory_last { OnErr result ((id.now.job.0 == row.old.job) ≡ true → IsDueMore node row.old works.old (command.Get id.now)) }
    ensures others { (other : JobNo) → same_work_job id.now.job other ≡ false → IsSameFor other works.old works.new }
    ensures err { OnErr result (row.new ≡ row.old) }
    ensures works { OnErr result (works.new ≡ works.old) }
{
    if !row.window().may_have(len) {
        return refuse(alloc, Refusal::BadSize);
    }
    begin_pull(row, alloc, room, node, works, id)
}

/// Get of an object whose fetch failed: what it came to is answered, and the copy is removed.
fn tell_failed(row: &mut JobRow, alloc: Global, id: &ObjectId, fault: FetchFault) -> RowOutcome
    requires alive { is_remembered row.old.ended_tasks id.now.task ≡ false }
    requires visible { visible_state (at row.old.copies id.now) ≡ Ok (Some Fetching) }
    requires failed { (k : CopyView) → at row.old.copies id.now ≡ Some k → IsInPhase k.copy (failed fault) }
    ensures step { (node session : ℕ) (beside : SharedTables) (contents : Contents) → (id.now.job.0 == row.old.job) ≡ true → IsShown row.old beside contents
        → RowStep node row.old beside contents (input.Call session (command.Get id.now)) (row_given_of result) row.new beside }
    ensures silent { result.messages ≡ [] }
{
    row.drop_copy(id);
    RowOutcome::only(alloc, Reply::Refused(fault.refusal()))
}

/// The question for the chunks that are still missing, at the source.
fn pull(
    alloc: Global,
    room: Result<(), OutOfMemory>,
    id: ObjectId,
    copy: &RowCopy,
    fetch: &FetchIn,
    source: NodeNo,
) -> Result<ItemList<(Endpoint, Message)>, OutOfMemory>
    requires own { copy.now.copy.fetch ≡ Some (store_fetch_of fetch.now) }
    requires pulled { fetch.now.phase ≡ pulling source (missing_of fetch.now.phase) }
    ensures ok { IfOk result (λ messages. messages ≡ to_peer source (Pull id fetch.now.number copy.now.copy.length (unwrap_or copy.now.digest no_digest) (missing_of fetch.now.phase)) ∷ []) }
    ensures unsent { IfOk result (λ messages. is_ok room ≡ false → messages ≡ []) }
{
    let Some(digest) = copy.digest() else {
        unreachable!()
    };
    let mut indexes = Vec::new(alloc);
    lists::extend_from_slice(&mut indexes, fetch.missing())?;
    let message = Message::ToPeer(PeerMessage::Pull {
        id,
        number: fetch.number().0,
        length: copy.length(),
        digest,
        indexes: ItemList::from_vec(indexes),
    });
    RowOutcome::one_message(alloc, room, Endpoint::Node(source.0), message)
}
