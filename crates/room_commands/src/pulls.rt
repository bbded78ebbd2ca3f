//! A Pull that arrives: another node asks for chunks of a copy.
ghost use Rattle.std.specs.Prelude.{◌≡◌, ℕ, ◌+◌, ◌≤◌, List, [], ◌∷◌, map, take, length, false, Ok, Some, None, IfOk, OnOk, OnErr, is_ok};
ghost use Rattle.std.specs.Option.{option_map_or};
ghost use Rattle.obj_id.specs.declared.ids.JobNo.{JobNo};
ghost use Rattle.obj_id.specs.declared.commands.CopyState.TheVariants.{Away};
ghost use Rattle.obj_id.specs.declared.commands.Reply.TheVariants as reply;
ghost use Rattle.obj_id.specs.declared.messages.Arrival.TheVariants as arrival;
ghost use Rattle.obj_id.specs.declared.messages.Digest.{Digest};
ghost use Rattle.obj_id.specs.declared.messages.PeerMessage.TheVariants as peer;
ghost use Rattle.obj_id.specs.declared.works.Extent.{Extent};
ghost use Rattle.private_store.specs.declared.inputs.Input.TheVariants as input;
ghost use Rattle.private_store.specs.rules.Tables.{at};
ghost use Rattle.private_store.specs.rules.Contents.{Contents, pull_matches};
ghost use Rattle.private_store.specs.rules.Copies.{extent_of};
ghost use Rattle.private_store.specs.rules.Grants.{StandingGrant};
ghost use Rattle.private_store.specs.rules.Private.{to_peer};
ghost use Rattle.job_region.specs.Region.{region_bytes_at as placed_bytes};
ghost use Rattle.spill_work.specs.Line.{same_work_job, IsSameFor};
ghost use Rattle.room_commands.specs.Asked.{HasAsked};
ghost use Rattle.job_row.specs.Checks.{fault_at, visible_state};
ghost use Rattle.row_copy.specs.CopyViews.{CopyView, was_sealed_with};
ghost use Rattle.row_steps.specs.Outcomes.{row_given_of};
ghost use Rattle.room_commands.specs.Serving.{row_pull_answer as pull_answer_lem, chunks_to};
ghost use Rattle.row_steps.specs.Shown.{seen, IsShown, RowStep};
ghost use Rattle.room_commands.specs.declared.pulls.PullAnswer.TheVariants as pull;
ghost use Rattle.row_steps.specs.Beside.{SharedTables, beside_of};

use crate::restore::restore;
use fetch_core::chunks_asked;
use job_row::{Copies, JobRow};
use memory_growth::{OutOfMemory, lists};
use obj_id::{CopyState, Digest, Endpoint, ItemList, Message, ObjectId, PeerMessage, Reply};
use row_copy::RowCopy;
use row_steps::{Erase, RowOutcome};
use spill_work::Works;
use std::alloc::Global;

/// What a Pull comes to.
#[derive(Clone, Copy, Drop)]
pub enum PullAnswer {
    /// There is no such copy, and the asker is answered so.
    NotHere,
    /// The chunks that were asked for are sent.
    Chunks,
    /// The bytes are being read back, and nothing is sent.
    Nothing,
    /// The bytes are on the device alone, and are to be read back.
    Restore,
}

/// What a Pull comes to that asks for the copy by its length and digest.
fn copy_pull_answer(copy: &RowCopy, length: u32, digest: &Digest) -> PullAnswer
    ensures { result ≡ pull_answer_lem length digest.now (Some copy.now) }
{
    if copy.doomed() || !copy.was_sealed_with(length, digest) {
        return PullAnswer::NotHere;
    }
    match copy.state() {
        CopyState::Sealed => PullAnswer::Chunks,
        CopyState::Restoring => PullAnswer::Nothing,
        CopyState::Away if copy.fault().is_none() => PullAnswer::Restore,
        _ => PullAnswer::NotHere,
    }
}

/// What a Pull comes to that asks for the object by its length and digest.
pub(crate) fn pull_answer(
    copies: &Copies,
    id: &ObjectId,
    length: u32,
    digest: &Digest,
) -> PullAnswer
    ensures { result ≡ pull_answer_lem length digest.now (at copies.now id.now) }
{
    match copies.get(id) {
        None => PullAnswer::NotHere,
        Some(copy) => copy_pull_answer(copy, length, digest),
    }
}

/// Whether there is a copy that was sealed with this length and digest.
fn has_sealed(copies: &Copies, id: &ObjectId, length: u32, digest: &Digest) -> bool
    ensures { result ≡ option_map_or (was_sealed_with length digest.now) (at copies.now id.now) false }
{
    match copies.get(id) {
        None => false,
        Some(copy) => copy.was_sealed_with(length, digest),
    }
}

/// Whether a copy here was sealed with this length and digest, as a Pull asks for it, doomed or faulty as it may be. Takes
/// no memory.
pub fn pull_matches(row: &JobRow, id: &ObjectId, length: u32, digest: &Digest) -> bool
    ensures { (beside : SharedTables) (contents : Contents) → IsShown row.now beside contents → result ≡ pull_matches (seen row.now beside contents) id.now length digest.now }
{
    has_sealed(row.copies(), id, length, digest)
}

/// A Pull: a node asks, for its fetch of this number, for chunks of the object of this length and digest. The chunks
/// that there are of those asked for are sent to it, in the order asked. `NotHere` is sent if no copy is shown that
/// was sealed with that length and digest, or if it is away with a fault; nothing, while it is being read back. A
/// copy that is away without a fault is read back as by Get, but no answer says that a spill failed.
///
/// The reply is Ok. The error is out of memory, and then nothing has changed. The works that it asks for come last in
/// the line. It sends at most as many messages as the job has copies and indexes are asked for, and one.
pub fn serve_pull(
    row: &mut JobRow,
    alloc: Global,
    room: Result<(), OutOfMemory>,
    node: u32,
    works: &mut Works,
    from: u32,
    id: &ObjectId,
    number: u64,
    len: u32,
    digest: &Digest,
    indexes: &[u32],
) -> Result<RowOutcome, OutOfMemory>
    ensures ok { IfOk result (λ o. (grants : List StandingGrant) (bytes : ObjectId → List ℕ) (contents : Contents) → IsShown row.old (beside_of works.old grants bytes row.old.job) contents
        → RowStep node row.old (beside_of works.old grants bytes row.old.job) contents (input.Arrive (arrival.FromPeer from (peer.Pull id.now number len digest.now indexes.now))) (row_given_of o) row.new (beside_of works.new grants bytes row.old.job)) }
    ensures response { IfOk result (λ o. o.reply ≡ reply.Ok) }
    ensures bounded { IfOk result (λ o. length o.messages ≤ length row.old.copies + length indexes.now + 1) }
    ensures unsent { IfOk result (λ o. is_ok room ≡ false → o.messages ≡ []) }
    ensures line { OnOk result (HasAsked works.old (record { 0 = row.old.job }) works.new) }
    ensures others { (other : JobNo) → same_work_job (record { 0 = row.old.job }) other ≡ false → IsSameFor other works.old works.new }
    ensures err { OnErr result (row.new ≡ row.old) }
    ensures works { OnErr result (works.new ≡ works.old) }
{
    match pull_answer(row.copies(), id, len, digest) {
        PullAnswer::NotHere => Ok(answered(tell_not_here(alloc, room, from, id, number)?)),
        PullAnswer::Chunks => Ok(answered(chunk_messages(
            row, alloc, room, from, id, number, indexes,
        )?)),
        PullAnswer::Nothing => Ok(RowOutcome::only(alloc, Reply::Ok)),
        PullAnswer::Restore => restore_quietly(row, alloc, room, node, works, id),
    }
}

/// The chunks that there are of those asked for, to the node, in the order asked; none of a copy that isn't resident.
fn chunk_messages(
    row: &JobRow,
    alloc: Global,
    room: Result<(), OutOfMemory>,
    from: u32,
    id: &ObjectId,
    number: u64,
    indexes: &[u32],
) -> Result<ItemList<(Endpoint, Message)>, OutOfMemory>
    ensures ok { IfOk result (λ messages. (k : CopyView) (e : Extent) → at row.now.copies id.now ≡ Some k → extent_of k.copy ≡ Some e
        → messages ≡ chunks_to (take k.copy.length (placed_bytes e row.now.window.placed)) from id.now number indexes.now) }
    ensures bounded { IfOk result (λ messages. length messages ≤ length indexes.now) }
    ensures unsent { IfOk result (λ messages. is_ok room ≡ false → messages ≡ []) }
{
    room?;
    let bytes = row.lent(id).whole(alloc)?;
    let chunks = chunks_asked(alloc, &bytes, *id, number, indexes)?;
    Ok(all_to_peer(alloc, from, chunks)?)
}

/// The copy, which is away, is read back as by Get. Nobody is answered that a spill failed: the next one that waits for
/// room by spilling still is. The error is out of memory, and then nothing has changed.
fn restore_quietly(
    row: &mut JobRow,
    alloc: Global,
    room: Result<(), OutOfMemory>,
    node: u32,
    works: &mut Works,
    id: &ObjectId,
) -> Result<RowOutcome, OutOfMemory>
    requires visible { visible_state (at row.old.copies id.now) ≡ Ok (Some Away) }
    requires sound { fault_at row.old.copies id.now ≡ None }
    ensures ok { IfOk result (λ o. (from number n : ℕ) (digest : Digest) (indexes : List ℕ) (grants : List StandingGrant) (bytes : ObjectId → List ℕ) (contents : Contents)
        → pull_answer_lem n digest (at row.old.copies id.now) ≡ pull.Restore → IsShown row.old (beside_of works.old grants bytes row.old.job) contents
        → RowStep node row.old (beside_of works.old grants bytes row.old.job) contents (input.Arrive (arrival.FromPeer from (peer.Pull id.now number n digest indexes))) (row_given_of o) row.new (beside_of works.new grants bytes row.old.job)) }
    ensures response { IfOk result (λ o. o.reply ≡ reply.Ok) }
    ensures bounded { IfOk result (λ o. length o.messages ≤ length row.old.copies + 1) }
    ensures unsent { IfOk result (λ o. is_ok room ≡ false → o.messages ≡ []) }
    ensures line { OnOk result (HasAsked works.old (record { 0 = row.old.job }) works.new) }
    ensures others { (other : JobNo) → same_work_job (record { 0 = row.old.job }) other ≡ false → IsSameFor other works.old works.new }
    ensures err { OnErr result (row.new ≡ row.old) }
    ensures works { OnErr result (works.new ≡ works.old) }
{
    let spill_failed = row.spill_failed();
    let job = row.job();
    let outcome = restore(row, alloc, room, node, works, job, id)?;
    row.put_spill_failed(spill_failed);
    Ok(answered(outcome.messages))
}

/// Ok, and these messages.
fn answered(messages: ItemList<(Endpoint, Message)>) -> RowOutcome
    ensures { row_given_of result ≡ record { reply = reply.Ok; posts = messages; erased = [] } }
{
    RowOutcome {
        reply: Reply::Ok,
        messages,
        erase: Erase::NoKey,
    }
}

/// That there is no such copy, to the node that asked for it.
fn tell_not_here(
    alloc: Global,
    room: Result<(), OutOfMemory>,
    from: u32,
    id: &ObjectId,
    number: u64,
) -> Result<ItemList<(Endpoint, Message)>, OutOfMemory>
    ensures ok { IfOk result (λ messages. messages ≡ to_peer from (peer.NotHere id.now number) ∷ []) }
    ensures unsent { IfOk result (λ messages. is_ok room ≡ false → messages ≡ []) }
{
    let message = Message::ToPeer(PeerMessage::NotHere(*id, number));
    RowOutcome::one_message(alloc, room, Endpoint::Node(from), message)
}

/// The messages, each to the node.
fn all_to_peer(
    alloc: Global,
    node: u32,
    messages: Vec<PeerMessage>,
) -> Result<ItemList<(Endpoint, Message)>, OutOfMemory>
    ensures { IfOk result (λ posts. posts ≡ map (to_peer node) messages.items) }
{
    let mut posts = lists::with_room_for(alloc, messages.as_slice())?;
    for message in messages {
        lists::push(&mut posts, (Endpoint::Node(node), Message::ToPeer(message)))?;
    }
    Ok(ItemList::from_vec(posts))
}
