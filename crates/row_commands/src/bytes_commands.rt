//! The commands that move bytes, Write, Seal and Read; and bytes that are lent.
ghost use Rattle.std.specs.Prelude.{◌≡◌, ◌≤◌, length, ◌==◌, ℕ, true, Some, None, take, IfOk, IfErr, IsOk, OnErr, is_ok, false, []};
ghost use Rattle.obj_id.specs.declared.works.Extent.{Extent};
ghost use Rattle.private_store.specs.rules.Tables.{at};
ghost use Rattle.private_store.specs.rules.Copies.{extent_of};
ghost use Rattle.obj_id.specs.declared.commands.Command.TheVariants as command;
ghost use Rattle.private_store.specs.declared.inputs.Input.TheVariants as input;
ghost use Rattle.private_store.specs.rules.Contents.{Contents, digest_of};
ghost use Rattle.job_region.specs.Region.{region_bytes_at as placed_bytes};
ghost use Rattle.job_row.specs.Checks.{lend_check, read_check as read_check_lem, seal_check as seal_check_lem};
ghost use Rattle.row_copy.specs.CopyViews.{CopyView};
ghost use Rattle.row_steps.specs.Outcomes.{row_given_of};
ghost use Rattle.job_row.specs.Row.{copies_of};
ghost use Rattle.row_steps.specs.Shown.{IsShown, IsLent, RowStep, only};
ghost use Rattle.row_steps.specs.Beside.{SharedTables};

use bytes::Bytes;
use job_row::JobRow;
use memory_growth::OutOfMemory;
use obj_id::{DirectoryMessage, Endpoint, Location, Message, ObjectId, Refusal, Reply};
use row_copy::Mark;
use row_steps::{Erase, RowOutcome};
use std::alloc::Global;

/// Write: the bytes are replaced from the offset on, while the copy is being written. `BadSize` for
/// more than 65,536 bytes, `Absent`, `AlreadySealed`, `OutOfBounds`; a refusal changes nothing.
/// Takes no memory.
pub fn write(row: &mut JobRow, id: &ObjectId, offset: u32, bytes: &[u8]) -> Reply<Bytes>
    ensures { (node session : ℕ) (beside : SharedTables) (contents : Contents) → (id.now.job.0 == row.old.job) ≡ true → IsShown row.old beside contents
        → RowStep node row.old beside contents (input.Call session (command.Write id.now offset bytes.now)) (only result) row.new beside }
{
    if let Some(refusal) = row.copies().write_check(id, offset, bytes.len()) {
        return Reply::Refused(refusal);
    }
    row.put_bytes(id, offset, bytes);
    Reply::Ok
}

/// Seal: the copy is immutable from now on, and the directory is notified of its node. `Absent`,
/// `AlreadySealed`; a refusal changes nothing. The error is out of memory, and then nothing has
/// changed.
pub fn seal(
    row: &mut JobRow,
    alloc: Global,
    room: Result<(), OutOfMemory>,
    node: u32,
    id: &ObjectId,
) -> Result<RowOutcome, OutOfMemory>
    ensures ok { IfOk result (λ o. (session : ℕ) (beside : SharedTables) (contents : Contents) → (id.now.job.0 == row.old.job) ≡ true → IsShown row.old beside contents
        → RowStep node row.old beside contents (input.Call session (command.Seal id.now)) (row_given_of o) row.new beside) }
    ensures bounded { IfOk result (λ o. length o.messages ≤ 1) }
    ensures unsent { IfOk result (λ o. is_ok room ≡ false → o.messages ≡ []) }
    ensures memory_last { OnErr result (seal_check_lem row.old.copies id.now ≡ None) }
    ensures err { OnErr result (row.new ≡ row.old) }
{
    let entry = match sealing(row, node, id) {
        Err(refusal) => return Ok(RowOutcome::only(alloc, Reply::Refused(refusal))),
        Ok(entry) => entry,
    };
    let message = Message::ToDirectory(DirectoryMessage::AddLocation(*id, entry));
    let messages = RowOutcome::one_message(alloc, room, Endpoint::Directory, message)?;
    let after = row.apply(id, Mark::Sealed(entry.digest));
    row.freeze_at(after.eviction_info.extent);
    Ok(RowOutcome {
        reply: Reply::Ok,
        messages,
        erase: Erase::NoKey,
    })
}

/// Read: bytes of a copy that the session holds. `BadSize` for more than 65,536 bytes, `Absent`,
/// `NotSealed`, `NotHeld`, `OutOfBounds`. Changes nothing; the error is out of memory.
pub fn read(
    row: &JobRow,
    alloc: Global,
    session: u32,
    id: &ObjectId,
    offset: u32,
    len: u32,
) -> Result<Reply<Bytes>, OutOfMemory>
    ensures ok { IfOk result (λ response. (node : ℕ) (beside : SharedTables) (contents : Contents) → (id.now.job.0 == row.now.job) ≡ true → IsShown row.now beside contents
        → RowStep node row.now beside contents (input.Call session (command.Read id.now offset len)) (only response) row.now beside) }
    ensures memory_last { OnErr result (read_check_lem row.now.copies session id.now offset len ≡ None) }
{
    if let Some(refusal) = row.copies().read_check(session, id, offset, len) {
        return Ok(Reply::Refused(refusal));
    }
    let bytes = row.lent(id).part(alloc, offset, len)?;
    Ok(Reply::Bytes(bytes))
}

/// The bytes of an object that the session holds, all of them, lent without a copy. `Absent`,
/// `NotSealed`, `NotHeld`. Changes nothing, and takes no memory.
pub fn lend<'a>(row: &'a JobRow, session: u32, id: &ObjectId) -> Result<&'a [u8], Refusal>
    ensures ok { IfOk result (λ bytes. (beside : SharedTables) (contents : Contents) → IsShown row.now beside contents → IsLent (copies_of row.now.copies) contents session id.now bytes.now) }
    ensures refused { IfErr result (λ refusal. lend_check (copies_of row.now.copies) session id.now ≡ Some refusal) }
{
    if let Some(refusal) = row.copies().lend_check(session, id) {
        return Err(refusal);
    }
    Ok(row.bytes(id))
}

/// The copy as the directory is to know it once it is sealed. `Absent`, `AlreadySealed` if it can't be.
fn sealing(row: &JobRow, node: u32, id: &ObjectId) -> Result<Location, Refusal>
    ensures node { IfOk result (λ entry. entry.node ≡ node) }
    ensures length { IfOk result (λ entry. (k : CopyView) → at row.now.copies id.now ≡ Some k → entry.length ≡ k.copy.length) }
    ensures digest { IfOk result (λ entry. (k : CopyView) (e : Extent) → at row.now.copies id.now ≡ Some k → extent_of k.copy ≡ Some e
        → entry.digest ≡ digest_of (take k.copy.length (placed_bytes e row.now.window.placed))) }
    ensures passed { IsOk result → seal_check_lem row.now.copies id.now ≡ None }
    ensures refused { IfErr result (λ refusal. seal_check_lem row.now.copies id.now ≡ Some refusal) }
{
    let Some(copy) = row.copies().get(id) else {
        return Err(Refusal::Absent);
    };
    if let Some(refusal) = copy.seal_check() {
        return Err(refusal);
    }
    Ok(Location {
        node,
        length: copy.length(),
        digest: row.digest(copy),
    })
}
