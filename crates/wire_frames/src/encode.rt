//! The frames of commands, and how a frame is put together.
ghost use Rattle.std.specs.Prelude.{◌≡◌, ◌<◌, ◌++◌, ◌^◌, ◌+◌, ◌∷◌, IsTrue, IfOk, flat_map, length};
ghost use Rattle.private_store.specs.rules.Frames.{be4, command_body, create_body, frame, is_command_length, item_frame, kind_byte as kind_byte_lem, range_body};
ghost use Rattle.obj_id.specs.Ids.{id_bytes};
ghost use Rattle.wire_frames.specs.Writing.{has_command_frame};

use bytes::Bytes;
use memory_growth::{MOST_ROOM, OutOfMemory, lists};
use obj_id::{Command, Kind, ObjectId};
use private_store::{Awaited, Item};
use std::alloc::Global;

/// The frame of an item. `BadId` has none, and neither has a write of more than 65,567 bytes.
pub fn encode_command(alloc: Global, item: &Item) -> Result<Vec<u8>, OutOfMemory>
    requires { IsTrue (has_command_frame item.now) }
    ensures { IfOk result (λ frame. frame.items ≡ item_frame item.now) }
{
    match item {
        Item::Hello(job, key) => frame_of(alloc, 0x01, &[&job.0.to_be_bytes(), &key.0]),
        Item::Command(command) => command_frame(alloc, command),
        Item::Wait(Awaited::Get(id)) => about(alloc, 0x13, *id, &[]),
        Item::Wait(Awaited::Create { id, kind, length }) => create(
            alloc, 0x14, *id, *kind, *length,
        ),
        Item::BadId => Ok(Vec::new(alloc)),
    }
}

/// The frame of a command.
fn command_frame(alloc: Global, command: &Command<Bytes>) -> Result<Vec<u8>, OutOfMemory>
    requires { IsTrue (is_command_length (length (command_body command.now))) }
    ensures { IfOk result (λ f. f.items ≡ frame (command_body command.now)) }
{
    match command {
        Command::Create { id, kind, length } => create(alloc, 0x02, *id, *kind, *length),
        Command::Write { id, offset, bytes } => write(alloc, *id, *offset, bytes.as_slice()),
        Command::Seal(id) => about(alloc, 0x04, *id, &[]),
        Command::Get(id) => about(alloc, 0x05, *id, &[]),
        Command::Read { id, offset, count } => range(alloc, 0x06, *id, *offset, *count),
        Command::Release(id) => about(alloc, 0x07, *id, &[]),
        Command::Unpin(id, task) => about(alloc, 0x08, *id, &task.0),
        Command::Borrow(id, task) => about(alloc, 0x09, *id, &task.0),
        Command::GiveUp(id, task) => about(alloc, 0x0a, *id, &task.0),
        Command::Delete(id) => about(alloc, 0x0b, *id, &[]),
        Command::EndTask(task) => frame_of(alloc, 0x0c, &[&task.0]),
        Command::Grant(id, target) => about(alloc, 0x0d, *id, &target.0.to_be_bytes()),
        Command::Withdraw(id, target) => about(alloc, 0x0e, *id, &target.0.to_be_bytes()),
        Command::Peek { id, offset, count } => range(alloc, 0x0f, *id, *offset, *count),
        Command::List => frame_of(alloc, 0x10, &[]),
        Command::Usage => frame_of(alloc, 0x11, &[]),
        Command::Leave => frame_of(alloc, 0x12, &[]),
    }
}

/// A frame whose body is an object's id and what stands after it.
fn about(alloc: Global, kind: u8, id: ObjectId, rest: &[u8]) -> Result<Vec<u8>, OutOfMemory>
    requires { length rest.now < 65536 }
    ensures { IfOk result (λ f. f.items ≡ frame (kind ∷ id_bytes id ++ rest.now)) }
{
    frame_of(alloc, kind, &[&id.to_bytes(), rest])
}

/// The frame of written bytes.
fn write(alloc: Global, id: ObjectId, offset: u32, bytes: &[u8]) -> Result<Vec<u8>, OutOfMemory>
    requires { length bytes.now < 65600 }
    ensures { IfOk result (λ f. f.items ≡ frame (0x03 ∷ id_bytes id ++ be4 offset ++ bytes.now)) }
{
    frame_of(alloc, 0x03, &[&id.to_bytes(), &offset.to_be_bytes(), bytes])
}

/// A frame whose body names a part of an object.
fn range(
    alloc: Global,
    kind: u8,
    id: ObjectId,
    offset: u32,
    count: u32,
) -> Result<Vec<u8>, OutOfMemory>
    ensures { IfOk result (λ f. f.items ≡ frame (kind ∷ range_body id offset count)) }
{
    frame_of(
        alloc,
        kind,
        &[&id.to_bytes(), &offset.to_be_bytes(), &count.to_be_bytes()],
    )
}

/// A frame whose body is a copy to be made, of so many bytes.
fn create(
    alloc: Global,
    kind: u8,
    id: ObjectId,
    copy: Kind,
    length: u32,
) -> Result<Vec<u8>, OutOfMemory>
    ensures { IfOk result (λ f. f.items ≡ frame (kind ∷ create_body id copy length)) }
{
    frame_of(
        alloc,
        kind,
        &[&id.to_bytes(), &[kind_byte(copy)], &length.to_be_bytes()],
    )
}

/// The byte of a copy's kind.
pub(crate) fn kind_byte(kind: Kind) -> u8
    ensures { result ≡ kind_byte_lem kind }
{
    match kind {
        Kind::Primary => 0,
        Kind::Secondary => 1,
    }
}

/// The frame of a kind and a body in parts, which are copied once.
pub(crate) fn frame_of(alloc: Global, kind: u8, parts: &[&[u8]]) -> Result<Vec<u8>, OutOfMemory>
    requires { 1 + length (flat_map (λ part. part.now) parts.now) < 2 ^ 32 }
    ensures { IfOk result (λ f. f.items ≡ frame (kind ∷ flat_map (λ part. part.now) parts.now)) }
{
    let size = 1 + total_length(parts);
    let mut frame = lists::with_capacity(alloc, (4 + size).min(MOST_ROOM))?;
    lists::extend_from_slice(&mut frame, &(size as u32).to_be_bytes())?;
    lists::push(&mut frame, kind)?;
    for part in parts {
        lists::extend_from_slice(&mut frame, part)?;
    }
    Ok(frame)
}

/// How many bytes the parts have together.
fn total_length(parts: &[&[u8]]) -> usize
    requires { length (flat_map (λ part. part.now) parts.now) < 2 ^ 32 }
    ensures { result ≡ length (flat_map (λ part. part.now) parts.now) }
{
    let mut total = 0;
    for part in parts {
        total += part.len();
    }
    total
}
