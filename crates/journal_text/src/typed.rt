//! What an entry is by the types of its parts. These functions look at it and do nothing; their contracts are what is seen.
ghost use Rattle.std.specs.Prelude.{ℕ, ◌<◌, ◌^◌, All};
ghost use Rattle.obj_id.specs.Ids.{IsId, IsTask};
ghost use Rattle.journal_text.specs.Locations.{IsDigest};
ghost use Rattle.journal_text.specs.Typed.{FitsGranted, FitsOwn, IsTyped, IsTypedInput, IsTypedReply};
ghost use Rattle.journal_text.specs.Writable.{FitsCommand, FitsLocation, FitsQuota, FitsUsage};

use crate::entry::{Address, Entry, LineInput};
use obj_id::{
    Command, Digest, GrantedItem, Location, ObjectId, OwnItem, Quota, Reply, TaskNo, Usage,
};

/// Does nothing: an entry is one of a program.
pub(crate) fn typed(entry: &Entry)
    ensures { IsTyped entry.now }
{
    let Address {
        node: _,
        job,
        number,
    } = entry.address;
    fits(job.0);
    fits(number);
    typed_input(&entry.input);
    typed_reply(&entry.reply);
}

/// Does nothing: an input is one of a program.
fn typed_input(input: &LineInput)
    ensures { IsTypedInput input.now }
{
    match input {
        LineInput::Begin(quota) | LineInput::Requota(quota) => typed_quota(*quota),
        LineInput::End => {}
        LineInput::Call(session, command) => {
            fits(*session);
            typed_command(command);
        }
        LineInput::Answer(number, _) => fits_long(*number),
        LineInput::Located {
            id,
            number,
            entries,
        } => {
            typed_id(id);
            fits_long(*number);
            typed_locations(entries.as_slice());
        }
        LineInput::Chunk {
            id,
            number,
            index,
            from,
            ..
        } => {
            typed_id(id);
            fits_long(*number);
            fits(*index);
            fits(*from);
        }
        LineInput::Pull { id, number, .. } => {
            typed_id(id);
            fits_long(*number);
        }
        LineInput::NotHere { id, number, from } => {
            typed_id(id);
            fits_long(*number);
            fits(*from);
        }
        LineInput::Received {
            id,
            length,
            grantor,
            depth,
        } => {
            typed_id(id);
            fits(*length);
            fits(grantor.0);
            fits(*depth);
        }
        LineInput::Withdrawn { id, grantor, depth } => {
            typed_id(id);
            fits(grantor.0);
            fits(*depth);
        }
    }
}

/// Does nothing: a command is one of a program.
fn typed_command(command: &Command<u64>)
    ensures { FitsCommand command.now }
{
    match command {
        Command::Create { id, length, .. } => {
            typed_id(id);
            fits(*length);
        }
        Command::Write {
            id,
            offset,
            bytes: count,
        } => {
            typed_id(id);
            fits(*offset);
            fits_long(*count);
        }
        Command::Read { id, offset, count } | Command::Peek { id, offset, count } => {
            typed_id(id);
            fits(*offset);
            fits(*count);
        }
        Command::Unpin(id, task) | Command::Borrow(id, task) | Command::GiveUp(id, task) => {
            typed_id(id);
            typed_task(*task);
        }
        Command::Seal(id) | Command::Get(id) | Command::Release(id) | Command::Delete(id) => {
            typed_id(id);
        }
        Command::EndTask(task) => typed_task(*task),
        Command::Grant(id, target) | Command::Withdraw(id, target) => {
            typed_id(id);
            fits(target.0);
        }
        Command::List | Command::Usage | Command::Leave => {}
    }
}

/// Does nothing: an answer is one of a program.
fn typed_reply(reply: &Reply<u64>)
    ensures { IsTypedReply reply.now }
{
    match reply {
        Reply::Placed(offset, extent) => {
            fits(*offset);
            fits(*extent);
        }
        Reply::Got(length) => fits(*length),
        Reply::Bytes(count) => fits_long(*count),
        Reply::List(own, granted) => {
            typed_own(own.as_slice());
            typed_granted(granted.as_slice());
        }
        Reply::Usage(usage) => typed_usage(*usage),
        Reply::Ok | Reply::Work(_) | Reply::NoWork | Reply::Refused(_) => {}
    }
}

/// Does nothing: own items are those of a program.
fn typed_own(items: &[OwnItem])
    ensures { All FitsOwn items.now }
{
    for item in items {
        typed_id(&item.id);
        fits(item.length);
    }
}

/// Does nothing: granted items are those of a program.
fn typed_granted(items: &[GrantedItem])
    ensures { All FitsGranted items.now }
{
    for item in items {
        typed_id(&item.id);
        fits(item.length);
        fits(item.depth);
    }
}

/// Does nothing: entries of a directory are those of a program.
fn typed_locations(entries: &[Location])
    ensures { All FitsLocation entries.now }
{
    for entry in entries {
        fits(entry.node);
        fits(entry.length);
        typed_digest(entry.digest);
    }
}

/// Does nothing: quotas have 64 bits.
fn typed_quota(quota: Quota)
    ensures { FitsQuota quota }
{
    fits_long(quota.window);
    fits_long(quota.device);
}

/// Does nothing: what is used has 64 bits.
fn typed_usage(usage: Usage)
    ensures { FitsUsage usage }
{
    fits_long(usage.window);
    fits_long(usage.window_used);
    fits_long(usage.device);
    fits_long(usage.device_used);
    fits_long(usage.copies);
    fits_long(usage.works);
}

/// Does nothing: an id is one of a program.
fn typed_id(id: &ObjectId)
    ensures { IsId id.now }
{
    let _bytes = id.to_bytes();
}

/// Does nothing: a task has 20 bytes.
fn typed_task(task: TaskNo)
    ensures { IsTask task }
{
    let _bytes = task.0;
}

/// Does nothing: a digest has 32 bytes.
fn typed_digest(digest: Digest)
    ensures { IsDigest digest }
{
    let _bytes = digest.0;
}

/// Does nothing: a number of 32 bits.
fn fits(number: u32)
    ensures { number < 2 ^ 32 }
{}

/// Does nothing: a number of 64 bits.
fn fits_long(number: u64)
    ensures { number < 2 ^ 64 }
{}
