//! Create: a copy to be written, in a place that is made for it.
ghost use Rattle.std.specs.Prelude.{◌≡◌, ◌==◌, ℕ, ◌≤◌, List, length, true, false, None, IfOk, OnOk, OnErr, is_ok, []};
ghost use Rattle.obj_id.specs.declared.ids.JobNo.{JobNo};
ghost use Rattle.obj_id.specs.declared.commands.Command.TheVariants as command;
ghost use Rattle.private_store.specs.declared.inputs.Input.TheVariants as input;
ghost use Rattle.private_store.specs.rules.Contents.{Contents};
ghost use Rattle.private_store.specs.rules.Room.{make_room};
ghost use Rattle.private_store.specs.rules.Grants.{StandingGrant};
ghost use Rattle.spill_work.specs.Line.{same_work_job, IsSameFor};
ghost use Rattle.room_commands.specs.Asked.{HasAsked};
ghost use Rattle.job_row.specs.Checks.{create_check as create_check_lem};
ghost use Rattle.job_row.specs.Evicting.{IsPlacement, MayGo, removals as removals_lem};
ghost use Rattle.row_steps.specs.MemoryLast.{IsDueMore};
ghost use Rattle.row_steps.specs.Outcomes.{row_given_of};
ghost use Rattle.room_commands.specs.RoomPlans.{MakesPlace};
ghost use Rattle.row_steps.specs.Shown.{IsShown, RowStep};
ghost use Rattle.row_steps.specs.Beside.{SharedTables, beside_of, shape_of};

use crate::get_command::refuse;
use crate::room::{MadeRoom, room_for};
use job_row::{Copies, JobRow, Placement};
use memory_growth::OutOfMemory;
use obj_id::{DirectoryMessage, Endpoint, ItemList, Kind, Message, ObjectId, Reply};
use row_steps::{Erase, RowOutcome};
use spill_work::Works;
use std::alloc::Global;

/// Create: a copy of zeros to be written, of `len` bytes, if the window has room or room is made:
/// by evicting the job's least recently used copies that may go, and otherwise by asking for the writes of
/// those that may be spilled, which is answered `Pending`. `BadSize`, `Gone`, `Exists`, `TooMany`,
/// `Pending`, `Full`, `Busy`, and once after a spill failed `DeviceFailed`. The error is out
/// of memory: no other refusal was due then, and nothing has changed. The works that it asks for come last in the line,
/// and those before them stay.
/// It sends no more messages than the job has copies.
pub fn create(
    row: &mut JobRow,
    alloc: Global,
    room: Result<(), OutOfMemory>,
    node: u32,
    works: &mut Works,
    id: &ObjectId,
    kind: Kind,
    len: u32,
) -> Result<RowOutcome, OutOfMemory>
    ensures ok { IfOk result (λ o. (session : ℕ) (grants : List StandingGrant) (bytes : ObjectId → List ℕ) (contents : Contents) → (id.now.job.0 == row.old.job) ≡ true → IsShown row.old (beside_of works.old grants bytes row.old.job) contents
        → RowStep node row.old (beside_of works.old grants bytes row.old.job) contents (input.Call session (command.Create id.now kind len)) (row_given_of o) row.new (beside_of works.new grants bytes row.old.job)) }
    ensures bounded { IfOk result (λ o. length o.messages ≤ length row.old.copies) }
    ensures unsent { IfOk result (λ o. is_ok room ≡ false → o.messages ≡ []) }
    ensures line { OnOk result (HasAsked works.old id.now.job works.new) }
    ensures memory_last { OnErr result ((id.now.job.0 == row.old.job) ≡ true → IsDueMore node row.old works.old (command.Create id.now kind len)) }
    ensures others { (other : JobNo) → same_work_job id.now.job other ≡ false → IsSameFor other works.old works.new }
    ensures err { OnErr result (row.new ≡ row.old) }
    ensures works { OnErr result (works.new ≡ works.old) }
{
    if let Some(refusal) = row.create_check(id, len) {
        return refuse(alloc, refusal);
    }
    match room_for(row, alloc, works, id.job(), len)? {
        MadeRoom::Place(placement) => {
            create_in_place(row, alloc, room, node, id, kind, len, &placement)
        }
        MadeRoom::Refused(refusal) => refuse(alloc, refusal),
    }
}

/// The new copy in its place. The directory is notified of the victims.
fn create_in_place(
    row: &mut JobRow,
    alloc: Global,
    room: Result<(), OutOfMemory>,
    node: u32,
    id: &ObjectId,
    kind: Kind,
    len: u32,
    placement: &Placement,
) -> Result<RowOutcome, OutOfMemory>
    requires checked { create_check_lem row.old id.now len ≡ None }
    requires may_go { MayGo row.old.copies placement.now.victims }
    requires place { IsPlacement row.old len placement.now }
    ensures ok { IfOk result (λ o. (session : ℕ) (beside : SharedTables) (contents : Contents) → (id.now.job.0 == row.old.job) ≡ true → IsShown row.old beside contents
        → MakesPlace (make_room row.old.order (shape_of row.old beside) len) (shape_of row.old beside) len placement.now.victims
        → RowStep node row.old beside contents (input.Call session (command.Create id.now kind len)) (row_given_of o) row.new beside) }
    ensures bounded { IfOk result (λ o. length o.messages ≤ length row.old.copies) }
    ensures unsent { IfOk result (λ o. is_ok room ≡ false → o.messages ≡ []) }
    ensures err { OnErr result (row.new ≡ row.old) }
{
    room?;
    let victims = placement.victims.as_slice();
    let messages = removals(alloc, node, row.copies(), victims)?;
    let extent = row.replace_copies(alloc, id, kind, len, placement)?;
    Ok(RowOutcome {
        reply: Reply::Placed(extent.offset as u32, extent.length as u32),
        messages,
        erase: Erase::NoKey,
    })
}

/// What the directory is sent of evictions: that a secondary is no longer at the node.
pub(crate) fn removals(
    alloc: Global,
    node: u32,
    copies: &Copies,
    ids: &[ObjectId],
) -> Result<ItemList<(Endpoint, Message)>, OutOfMemory>
    ensures { IfOk result (λ messages. messages ≡ removals_lem node copies.now ids.now) }
{
    let mut messages = ItemList::new(alloc);
    for id in ids {
        if copies.has_secondary(id) {
            let message = Message::ToDirectory(DirectoryMessage::RemoveLocation(*id, node));
            messages.push((Endpoint::Directory, message))?;
        }
    }
    Ok(messages)
}
