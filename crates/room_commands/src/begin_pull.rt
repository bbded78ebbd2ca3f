//! The bytes of an object are asked for at their source.
ghost use Rattle.std.specs.Prelude.{◌≡◌, ◌==◌, ℕ, ◌+◌, ◌≤◌, List, length, true, false, Ok, Some, IfOk, OnOk, OnErr, is_ok, []};
ghost use Rattle.obj_id.specs.declared.ids.JobNo.{JobNo};
ghost use Rattle.obj_id.specs.declared.commands.CopyState.TheVariants.{Fetching};
ghost use Rattle.obj_id.specs.declared.commands.Command.TheVariants as command;
ghost use Rattle.private_store.specs.declared.inputs.Input.TheVariants as input;
ghost use Rattle.private_store.specs.rules.Tables.{at};
ghost use Rattle.private_store.specs.laws.Invariants.{is_remembered};
ghost use Rattle.private_store.specs.rules.Grants.{StandingGrant};
ghost use Rattle.private_store.specs.rules.Marks.{chunk_count, counted};
ghost use Rattle.private_store.specs.rules.Contents.{Contents};
ghost use Rattle.spill_work.specs.Line.{same_work_job, IsSameFor};
ghost use Rattle.room_commands.specs.Asked.{HasAsked};
ghost use Rattle.job_row.specs.Checks.{can_pull_at, visible_state};
ghost use Rattle.row_steps.specs.Outcomes.{row_given_of};
ghost use Rattle.std.specs.Option.{option_map_or};
ghost use Rattle.std.specs.Prelude.{unwrap_or};
ghost use Rattle.obj_id.specs.declared.messages.PeerMessage.TheVariants.{Pull};
ghost use Rattle.job_row.specs.Evicting.{IsPlacement, MayGo};
ghost use Rattle.private_store.specs.rules.Contents.{no_digest};
ghost use Rattle.private_store.specs.rules.Private.{to_peer};
ghost use Rattle.private_store.specs.rules.Room.{make_room};
ghost use Rattle.private_store.specs.rules.Shape.{Fetch, sized};
ghost use Rattle.row_copy.specs.CopyViews.{CopyView, is_unasked, waits_for_place};
ghost use Rattle.row_steps.specs.MemoryLast.{IsDueMore};
ghost use Rattle.room_commands.specs.RoomPlans.{MakesPlace};
ghost use Rattle.row_steps.specs.Shown.{IsShown, RowStep};
ghost use Rattle.row_steps.specs.Beside.{SharedTables, beside_of, shape_of};

use crate::create_command::removals;
use crate::get_command::{pending, refuse};
use crate::room::{MadeRoom, room_for};
use fetch_core::{Stage, all_chunks};
use job_row::{JobRow, Placement};
use memory_growth::OutOfMemory;
use obj_id::{Endpoint, ItemList, Message, ObjectId, PeerMessage};
use row_copy::{Awaited, RowCopy};
use row_steps::RowOutcome;
use spill_work::Works;
use std::alloc::Global;

/// Get of an object whose source is known, and that the window may have: room is made for it, and then all its chunks
/// are asked for at the source; the answer is `Pending`. If there is no room the answer is that of Create. The error
/// is out of memory: no other refusal was due then, and nothing has changed. The works that it asks for come last in
/// the line.
pub(crate) fn begin_pull(
    row: &mut JobRow,
    alloc: Global,
    room: Result<(), OutOfMemory>,
    node: u32,
    works: &mut Works,
    id: &ObjectId,
) -> Result<RowOutcome, OutOfMemory>
    requires alive { is_remembered row.old.ended_tasks id.now.task ≡ false }
    requires visible { visible_state (at row.old.copies id.now) ≡ Ok (Some Fetching) }
    requires sized { can_pull_at row.old id.now ≡ true }
    ensures ok { IfOk result (λ o. (session : ℕ) (grants : List StandingGrant) (bytes : ObjectId → List ℕ) (contents : Contents) → (id.now.job.0 == row.old.job) ≡ true → IsShown row.old (beside_of works.old grants bytes row.old.job) contents
        → RowStep node row.old (beside_of works.old grants bytes row.old.job) contents (input.Call session (command.Get id.now)) (row_given_of o) row.new (beside_of works.new grants bytes row.old.job)) }
    ensures bounded { IfOk result (λ o. length o.messages ≤ length row.old.copies + 1) }
    ensures unsent { IfOk result (λ o. is_ok room ≡ false → o.messages ≡ []) }
    ensures line { OnOk result (HasAsked works.old id.now.job works.new) }
    ensures memory_last { OnErr result ((id.now.job.0 == row.old.job) ≡ true → IsDueMore node row.old works.old (command.Get id.now)) }
    ensures others { (other : JobNo) → same_work_job id.now.job other ≡ false → IsSameFor other works.old works.new }
    ensures err { OnErr result (row.new ≡ row.old) }
    ensures works { OnErr result (works.new ≡ works.old) }
{
    let Some(copy) = row.copies().get(id) else {
        unreachable!()
    };
    // that it has no place yet is what the proof needs
    let _place = copy.offset();
    let len = copy.length();
    match room_for(row, alloc, works, id.job(), len)? {
        MadeRoom::Place(placement) => pull_in_place(row, alloc, room, node, id, len, &placement),
        MadeRoom::Refused(refusal) => refuse(alloc, refusal),
    }
}

/// The place is taken, the directory is notified of the victims, and the bytes are asked for.
fn pull_in_place(
    row: &mut JobRow,
    alloc: Global,
    room: Result<(), OutOfMemory>,
    node: u32,
    id: &ObjectId,
    len: u32,
    placement: &Placement,
) -> Result<RowOutcome, OutOfMemory>
    requires alive { is_remembered row.old.ended_tasks id.now.task ≡ false }
    requires visible { visible_state (at row.old.copies id.now) ≡ Ok (Some Fetching) }
    requires sized { can_pull_at row.old id.now ≡ true }
    requires waits { option_map_or (waits_for_place len) (at row.old.copies id.now) false ≡ true }
    requires may_go { MayGo row.old.copies placement.now.victims }
    requires place { IsPlacement row.old len placement.now }
    ensures ok { IfOk result (λ o. (session : ℕ) (beside : SharedTables) (contents : Contents) → (id.now.job.0 == row.old.job) ≡ true → IsShown row.old beside contents
        → MakesPlace (make_room row.old.order (shape_of row.old beside) len) (shape_of row.old beside) len placement.now.victims
        → RowStep node row.old beside contents (input.Call session (command.Get id.now)) (row_given_of o) row.new beside) }
    ensures bounded { IfOk result (λ o. length o.messages ≤ length row.old.copies + 1) }
    ensures unsent { IfOk result (λ o. is_ok room ≡ false → o.messages ≡ []) }
    ensures err { OnErr result (row.new ≡ row.old) }
{
    room?;
    let victims = placement.victims.as_slice();
    let mut messages = removals(alloc, node, row.copies(), victims)?;
    messages.push(question(row, alloc, id)?)?;
    let missing = all_chunks(alloc, len)?;
    let awaited = Awaited::Chunks(missing);
    row.place_copy(alloc, id, len, placement, awaited)?;
    Ok(pending(messages))
}

/// The question for all chunks of the object, at the source of its fetch.
fn question(row: &JobRow, alloc: Global, id: &ObjectId) -> Result<(Endpoint, Message), OutOfMemory>
    requires visible { visible_state (at row.now.copies id.now) ≡ Ok (Some Fetching) }
    requires sized { can_pull_at row.now id.now ≡ true }
    ensures { IfOk result (λ message. (k : CopyView) (f : Fetch) (source : ℕ) → at row.now.copies id.now ≡ Some k → k.copy.fetch ≡ Some f → f.phase ≡ sized source
        → message ≡ to_peer source (Pull id.now f.number k.copy.length (unwrap_or k.digest no_digest) (counted 0 (chunk_count k.copy.length)))) }
{
    let Some(copy) = row.copies().get(id) else {
        unreachable!()
    };
    question_of(alloc, *id, copy)
}

/// The question for all chunks of the object, at the source of its fetch.
fn question_of(
    alloc: Global,
    id: ObjectId,
    copy: &RowCopy,
) -> Result<(Endpoint, Message), OutOfMemory>
    requires { option_map_or (λ f. is_unasked f.phase) copy.now.copy.fetch false ≡ true }
    ensures { IfOk result (λ message. (f : Fetch) (source : ℕ) → copy.now.copy.fetch ≡ Some f → f.phase ≡ sized source
        → message ≡ to_peer source (Pull id f.number copy.now.copy.length (unwrap_or copy.now.digest no_digest) (counted 0 (chunk_count copy.now.copy.length)))) }
{
    let Some(fetch) = copy.fetch() else {
        unreachable!()
    };
    let Stage::Sized(source) = fetch.stage() else {
        unreachable!()
    };
    let Some(digest) = copy.digest() else {
        unreachable!()
    };
    let indexes = all_chunks(alloc, copy.length())?;
    let message = Message::ToPeer(PeerMessage::Pull {
        id,
        number: fetch.number().0,
        length: copy.length(),
        digest,
        indexes: ItemList::from_vec(indexes),
    });
    Ok((Endpoint::Node(source.0), message))
}
