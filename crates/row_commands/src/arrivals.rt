//! Messages that arrive for a copy that is on its way: the directory's answer, and that the source has no such copy.
ghost use Rattle.std.specs.Prelude.{◌≡◌, ◌≤◌, ℕ, length, IfOk, OnErr, is_ok, false, []};
ghost use Rattle.obj_id.specs.declared.commands.Reply.TheVariants as reply;
ghost use Rattle.obj_id.specs.declared.messages.Arrival.TheVariants as arrival;
ghost use Rattle.obj_id.specs.declared.messages.PeerMessage.TheVariants as peer;
ghost use Rattle.private_store.specs.declared.inputs.Input.TheVariants as input;
ghost use Rattle.private_store.specs.rules.Contents.{Contents};
ghost use Rattle.row_steps.specs.Outcomes.{row_given_of};
ghost use Rattle.row_steps.specs.Shown.{IsShown, RowStep, only};
ghost use Rattle.row_steps.specs.Beside.{SharedTables};

use job_row::JobRow;
use memory_growth::OutOfMemory;
use obj_id::{DirectoryMessage, FetchNo, Location, NodeNo, ObjectId, Reply};
use private_store::FetchFault;
use row_steps::{Erase, RowOutcome};
use std::alloc::Global;

/// The directory's answer to a fetch of this number: the first entry of another node is its source, and without one
/// it has failed. It counts while the source isn't known; otherwise nothing changes. The reply is Ok. Takes no memory.
pub fn located(row: &mut JobRow, node: NodeNo, id: &ObjectId, number: FetchNo, entries: &[Location])
    ensures { (beside : SharedTables) (contents : Contents) → IsShown row.old beside contents
        → RowStep node row.old beside contents (input.Arrive (arrival.Located id.now number entries.now)) (only reply.Ok) row.new beside }
{
    row.locate_copy(id, node, number, entries);
}

/// A node says that it has no such copy: if a fetch of this number asks that node, it has failed, its place is given
/// back, and the directory is asked to forget the node; otherwise nothing changes. The error is out of memory, and then
/// nothing has changed.
pub fn not_here(
    row: &mut JobRow,
    alloc: Global,
    room: Result<(), OutOfMemory>,
    from: NodeNo,
    id: &ObjectId,
    number: FetchNo,
) -> Result<RowOutcome, OutOfMemory>
    ensures ok { IfOk result (λ o. (node : ℕ) (beside : SharedTables) (contents : Contents) → IsShown row.old beside contents
        → RowStep node row.old beside contents (input.Arrive (arrival.FromPeer from (peer.NotHere id.now number))) (row_given_of o) row.new beside) }
    ensures response { IfOk result (λ o. o.reply ≡ reply.Ok) }
    ensures bounded { IfOk result (λ o. length o.messages ≤ 1) }
    ensures unsent { IfOk result (λ o. is_ok room ≡ false → o.messages ≡ []) }
    ensures err { OnErr result (row.new ≡ row.old) }
{
    if !row.copies().asks(id, number, from) {
        return Ok(RowOutcome::only(alloc, Reply::Ok));
    }
    let message = DirectoryMessage::RemoveLocation(*id, from.0);
    let messages = RowOutcome::to_directory(alloc, room, Some(message))?;
    row.fail_fetch(id, FetchFault::Absent);
    Ok(RowOutcome {
        reply: Reply::Ok,
        messages,
        erase: Erase::NoKey,
    })
}
