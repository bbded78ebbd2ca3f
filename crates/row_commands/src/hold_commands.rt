//! The commands that give holds up: Release and Leave.
ghost use Rattle.std.specs.Prelude.{◌≡◌, ◌==◌, ℕ, [], true, map, fold, IfOk, IsOk, OnOk, OnErr, ◌++◌, ◌+◌, ◌<◌, ◌≤◌, option_to_list, vec_len, vec_capacity};
ghost use Rattle.obj_id.specs.declared.commands.Command.TheVariants as command;
ghost use Rattle.private_store.specs.declared.inputs.Input.TheVariants as input;
ghost use Rattle.private_store.specs.rules.Contents.{Contents};
ghost use Rattle.job_row.specs.Dropping.{left_row, keys_left};
ghost use Rattle.row_steps.specs.Outcomes.{row_given_of};
ghost use Rattle.job_row.specs.Usages.{total};
ghost use Rattle.row_copy.specs.Usages.{doomed_one};
ghost use Rattle.row_steps.specs.Shown.{IsShown, RowStep};
ghost use Rattle.row_steps.specs.Beside.{SharedTables};

use job_row::JobRow;
use memory_growth::{OutOfMemory, lists};
use obj_id::{DeviceKey, ItemList, ObjectId, OwnItem, Reply};
use row_copy::Mark;
use row_steps::{Erase, RowOutcome};
use std::alloc::Global;

/// Release: one hold of the session on the copy less, which is removed if it is doomed and nothing else keeps it.
/// `Absent`, `NotHeld`; a refusal changes nothing. Takes no memory.
pub fn release(row: &mut JobRow, alloc: Global, session: u32, id: &ObjectId) -> RowOutcome
    ensures step { (node : ℕ) (beside : SharedTables) (contents : Contents) → (id.now.job.0 == row.old.job) ≡ true → IsShown row.old beside contents
        → RowStep node row.old beside contents (input.Call session (command.Release id.now)) (row_given_of result) row.new beside }
    ensures silent { result.messages ≡ [] }
{
    match row.release_copy(id, session) {
        Ok(over) => RowOutcome::done(ItemList::new(alloc), row.settle(id, over)),
        Err(refusal) => RowOutcome::only(alloc, Reply::Refused(refusal)),
    }
}

/// Leave: no hold of the session on any copy, and a doomed one that nothing else keeps is removed. Takes two walks
/// over the job's copies. The error is out of memory, which only a job with a doomed copy takes, and then nothing has
/// changed.
pub fn leave(row: &mut JobRow, alloc: Global, session: u32) -> Result<RowOutcome, OutOfMemory>
    ensures ok { IfOk result (λ o. (node : ℕ) (beside : SharedTables) (contents : Contents) → IsShown row.old beside contents
        → RowStep node row.old beside contents (input.Call session command.Leave) (row_given_of o) row.new beside) }
    ensures silent { IfOk result (λ o. o.messages ≡ []) }
    ensures without_memory { total doomed_one row.old.copies ≡ 0 → IsOk result }
    ensures err { OnErr result (row.new ≡ row.old) }
{
    if row.copies().doomed_count() == 0 {
        row.leave_copies(session);
        return Ok(RowOutcome::only(alloc, Reply::Ok));
    }
    let items = row.copies().items(alloc)?;
    let keys = leave_each(row, alloc, session, items.as_slice())?;
    Ok(RowOutcome {
        reply: Reply::Ok,
        messages: ItemList::new(alloc),
        erase: Erase::Many(keys),
    })
}

/// No hold of the session on any of these copies, one after another, and those that are over are removed. Answers
/// the device keys that are to be erased. The error is out of memory, and then nothing has changed.
fn leave_each(
    row: &mut JobRow,
    alloc: Global,
    session: u32,
    items: &[OwnItem],
) -> Result<ItemList<DeviceKey>, OutOfMemory>
    ensures keys { IfOk result (λ keys. keys ≡ keys_left session row.old (map (λ item. item.id) items.now)) }
    ensures row { OnOk result (row.new ≡ fold (left_row session) row.old (map (λ item. item.id) items.now)) }
    ensures err { OnErr result (row.new ≡ row.old) }
{
    let mut keys = lists::with_room_for(alloc, items)?;
    for item in items {
        let key = row.apply_and_settle(&item.id, Mark::Left(session));
        push_key(&mut keys, key);
    }
    Ok(ItemList::from_vec(keys))
}

/// The key comes last, if there is one. There is room for it.
pub(crate) fn push_key(keys: &mut Vec<DeviceKey>, key: Option<DeviceKey>)
    requires { vec_len keys.old < vec_capacity keys.old }
    ensures items { keys.new.items ≡ keys.old.items ++ option_to_list key }
    ensures len { vec_len keys.new ≤ vec_len keys.old + 1 }
    ensures capacity { vec_capacity keys.old ≤ vec_capacity keys.new }
{
    if let Some(key) = key {
        lists::push(keys, key).unwrap();
    }
}
