//! EndTask: a task of the job ends.
ghost use Rattle.std.specs.Prelude.{◌≡◌, ℕ, None, map, fold, length, IfOk, OnErr, ◌++◌, ◌+◌, ◌*◌, ◌≤◌, ◌<◌, vec_len, vec_capacity, option_to_list, option_map, is_ok, false, []};
ghost use Rattle.std.specs.Option.{option_map_or};
ghost use Rattle.obj_id.specs.declared.commands.Command.TheVariants as command;
ghost use Rattle.obj_id.specs.declared.commands.Reply.TheVariants as reply;
ghost use Rattle.private_store.specs.declared.inputs.Input.TheVariants as input;
ghost use Rattle.private_store.specs.rules.Contents.{Contents};
ghost use Rattle.job_row.specs.Checks.{end_task_check as end_task_check_lem};
ghost use Rattle.job_row.specs.EndingTasks.{doomed_row, doom_posts, given_up_row, give_up_posts, posts_of_each, keys_of_copies, gone_key, gone_keys as gone_keys_lem};
ghost use Rattle.job_row.specs.Ending.{key_at};
ghost use Rattle.row_steps.specs.Outcomes.{row_given_of};
ghost use Rattle.job_row.specs.Scope.{notice_posts};
ghost use Rattle.row_steps.specs.Shown.{IsShown, RowStep};
ghost use Rattle.row_steps.specs.Beside.{SharedTables, beside_after};

use crate::ending::device_key;
use crate::hold_commands::push_key;
use job_row::JobRow;
use memory_growth::{OutOfMemory, lists};
use obj_id::{
    DeviceKey, DirectoryMessage, Endpoint, ItemList, Message, ObjectId, OwnItem, Reply, TaskNo,
};
use row_copy::Mark;
use row_steps::{Erase, RowOutcome};
use std::alloc::Global;

/// EndTask: the task is remembered, the grants of its own objects end, its copies are doomed, and its borrows given
/// up. `Gone` if it has ended already, `TooMany` at 1,024 ended tasks. Takes walks over the job's copies, a sort,
/// and memory for each copy. The error is out of memory, and then nothing has changed.
pub fn end_task(
    row: &mut JobRow,
    alloc: Global,
    room: Result<(), OutOfMemory>,
    node: u32,
    task: TaskNo,
) -> Result<RowOutcome, OutOfMemory>
    ensures ok { IfOk result (λ o. (session : ℕ) (beside : SharedTables) (contents : Contents) → IsShown row.old beside contents
        → RowStep node row.old beside contents (input.Call session (command.EndTask task)) (row_given_of o) row.new (beside_after row.old task beside)) }
    ensures reply { IfOk result (λ o. o.reply ≡ option_map_or reply.Refused (end_task_check_lem row.old task) reply.Ok) }
    ensures bounded { IfOk result (λ o. length o.messages ≤ 2 * length row.old.copies) }
    ensures unsent { IfOk result (λ o. is_ok room ≡ false → o.messages ≡ []) }
    ensures memory_last { OnErr result (end_task_check_lem row.old task ≡ None) }
    ensures err { OnErr result (row.new ≡ row.old) }
{
    if let Some(refusal) = row.end_task_check(task) {
        return Ok(RowOutcome::only(alloc, Reply::Refused(refusal)));
    }
    room?;
    let items = row.copies().items(alloc)?;
    let keys = keys_with_ids(row, alloc, items.as_slice())?;
    let mut messages = lists::with_room_for_both(alloc, items.as_slice(), items.as_slice())?;
    let mut erased = lists::with_room_for(alloc, keys.as_slice())?;
    row.remember_end(task)?;
    doom_each(row, node, task, items.as_slice(), &mut messages);
    give_up_each(row, node, task, items.as_slice(), &mut messages);
    push_gone(row, keys.as_slice(), &mut erased);
    Ok(RowOutcome {
        reply: Reply::Ok,
        messages: ItemList::from_vec(messages),
        erase: Erase::Many(ItemList::from_vec(erased)),
    })
}

/// The device keys of those of these copies that are backed, each with its id. The error is out of memory.
fn keys_with_ids(
    row: &JobRow,
    alloc: Global,
    items: &[OwnItem],
) -> Result<ItemList<(ObjectId, DeviceKey)>, OutOfMemory>
    ensures { IfOk result (λ keys. keys ≡ keys_of_copies row.now (map (λ item. item.id) items.now)) }
{
    let mut keys = lists::with_room_for(alloc, items)?;
    for item in items {
        push_last(&mut keys, key_with_id(row, &item.id));
    }
    Ok(ItemList::from_vec(keys))
}

/// The id and the device key of the copy, if it is backed.
fn key_with_id(row: &JobRow, id: &ObjectId) -> Option<(ObjectId, DeviceKey)>
    ensures { result ≡ option_map (λ key. (id.now, key)) (key_at row.now id.now) }
{
    let key = device_key(row, id)?;
    Some((*id, key))
}

/// The key, if its copy is gone.
fn key_if_gone(row: &JobRow, entry: &(ObjectId, DeviceKey)) -> Option<DeviceKey>
    ensures { option_to_list result ≡ gone_key row.now entry.now }
{
    let (id, key) = entry;
    if row.copies().has(id) {
        return None;
    }
    Some(*key)
}

/// The keys of those of these copies that are gone come last. There is room for all.
fn push_gone(row: &JobRow, keys: &[(ObjectId, DeviceKey)], erased: &mut Vec<DeviceKey>)
    requires { vec_len erased.old + length keys.now ≤ vec_capacity erased.old }
    ensures { erased.new.items ≡ erased.old.items ++ gone_keys_lem row.now keys.now }
{
    for item in keys {
        push_key(erased, key_if_gone(row, item));
    }
}

/// Those of these copies that are the task's are doomed, one after another, and what the directory is sent of them
/// comes last. There is room for a message of each.
fn doom_each(
    row: &mut JobRow,
    node: u32,
    task: TaskNo,
    items: &[OwnItem],
    messages: &mut Vec<(Endpoint, Message)>,
)
    requires { vec_len messages.old + length items.now ≤ vec_capacity messages.old }
    ensures row { row.new ≡ fold (doomed_row task) row.old (map (λ item. item.id) items.now) }
    ensures sent { messages.new.items ≡ messages.old.items ++ posts_of_each (doomed_row task) (doom_posts node task) row.old (map (λ item. item.id) items.now) }
    ensures len { vec_len messages.new ≤ vec_len messages.old + length items.now }
    ensures capacity { vec_capacity messages.old ≤ vec_capacity messages.new }
{
    for item in items {
        doom_one(row, node, task, &item.id, messages);
    }
}

/// The task's borrows of these copies are given up, one after another, and what the directory is sent of those that
/// are doomed by it comes last. There is room for a message of each.
fn give_up_each(
    row: &mut JobRow,
    node: u32,
    task: TaskNo,
    items: &[OwnItem],
    messages: &mut Vec<(Endpoint, Message)>,
)
    requires { vec_len messages.old + length items.now ≤ vec_capacity messages.old }
    ensures row { row.new ≡ fold (given_up_row task) row.old (map (λ item. item.id) items.now) }
    ensures sent { messages.new.items ≡ messages.old.items ++ posts_of_each (given_up_row task) (give_up_posts node task) row.old (map (λ item. item.id) items.now) }
    ensures len { vec_len messages.new ≤ vec_len messages.old + length items.now }
    ensures capacity { vec_capacity messages.old ≤ vec_capacity messages.new }
{
    for item in items {
        give_up_one(row, node, task, &item.id, messages);
    }
}

/// The copy is doomed if it is the task's, and removed if nothing keeps it. There is room for a message.
fn doom_one(
    row: &mut JobRow,
    node: u32,
    task: TaskNo,
    id: &ObjectId,
    messages: &mut Vec<(Endpoint, Message)>,
)
    requires { vec_len messages.old < vec_capacity messages.old }
    ensures row { row.new ≡ doomed_row task row.old id.now }
    ensures sent { messages.new.items ≡ messages.old.items ++ doom_posts node task row.old id.now }
    ensures len { vec_len messages.new ≤ vec_len messages.old + 1 }
    ensures capacity { vec_capacity messages.old ≤ vec_capacity messages.new }
{
    let own = task == id.task();
    if !own {
        return;
    }
    let copies = row.copies();
    push_message(
        messages,
        copies.removal_notice(node, id, !copies.is_doomed(id)),
    );
    row.apply_and_settle(id, Mark::Doomed);
}

/// The task's borrow of the copy is given up, if it has one: a copy that isn't in scope then is doomed, and removed
/// if nothing keeps it. There is room for a message.
fn give_up_one(
    row: &mut JobRow,
    node: u32,
    task: TaskNo,
    id: &ObjectId,
    messages: &mut Vec<(Endpoint, Message)>,
)
    requires { vec_len messages.old < vec_capacity messages.old }
    ensures row { row.new ≡ given_up_row task row.old id.now }
    ensures sent { messages.new.items ≡ messages.old.items ++ give_up_posts node task row.old id.now }
    ensures len { vec_len messages.new ≤ vec_len messages.old + 1 }
    ensures capacity { vec_capacity messages.old ≤ vec_capacity messages.new }
{
    if row.copies().is_doomed(id) {
        row.apply(id, Mark::GivenUp(task));
        return;
    }
    if !row.copies().borrows(id, task) {
        return;
    }
    let stays = row.copies().in_scope_without(id, task);
    push_message(messages, row.copies().removal_notice(node, id, !stays));
    row.apply_and_settle(id, Mark::GivenUp(task));
}

/// The message to the directory comes last, if there is one. There is room for it.
fn push_message(messages: &mut Vec<(Endpoint, Message)>, message: Option<DirectoryMessage>)
    requires { vec_len messages.old < vec_capacity messages.old }
    ensures items { messages.new.items ≡ messages.old.items ++ notice_posts message }
    ensures len { vec_len messages.new ≤ vec_len messages.old + 1 }
    ensures capacity { vec_capacity messages.old ≤ vec_capacity messages.new }
{
    if let Some(message) = message {
        let post = (Endpoint::Directory, Message::ToDirectory(message));
        lists::push(messages, post).unwrap();
    }
}

/// The key with its id comes last, if there is one. There is room for it.
fn push_last(keys: &mut Vec<(ObjectId, DeviceKey)>, key: Option<(ObjectId, DeviceKey)>)
    requires { vec_len keys.old < vec_capacity keys.old }
    ensures items { keys.new.items ≡ keys.old.items ++ option_to_list key }
    ensures len { vec_len keys.new ≤ vec_len keys.old + 1 }
    ensures capacity { vec_capacity keys.old ≤ vec_capacity keys.new }
{
    if let Some(key) = key {
        lists::push(keys, key).unwrap();
    }
}
