//! What the bodies of frames say.
ghost use Rattle.std.specs.Prelude.{◌≡◌, ◌+◌, ◌≤◌, Some, None, IsTrue, if◌then◌else◌, IfOk, IfSome, length, slice_index};
ghost use Rattle.private_store.specs.rules.Frames.{empty_body as bare_lem, hello as hello_lem, id_at as id_at_lem, is_id, kind_of, number_at as number_at_lem, task_at as task_at_lem};
ghost use Rattle.wire_frames.specs.Kinds.{end_task_item as end_task_lem, fits_kind as fits_lem, read_about, read_command as read_command_lem, read_of, said as said_lem};
ghost use Rattle.wire_frames.specs.Filled.{HasPayload, filled_item, option_filled};

use crate::kinds::FrameKind;
use bytes::Bytes;
use command_kinds::CommandKind;
use memory_growth::{OutOfMemory, shared};
use obj_id::{Command, JobKey, JobNo, Kind, ObjectId, TaskNo};
use private_store::{Awaited, Item};
use std::alloc::Global;

/// How many bytes of a write's body stand before its payload.
const BEFORE_PAYLOAD: usize = 32;

/// What a body says, but for the payload of a write.
#[derive(Debug, Drop)]
pub(crate) enum FrameBody {
    Item(Item),
    /// A write to the object at the offset. Its payload is what the body has after its first 32 bytes.
    Write(ObjectId, u32),
}

impl FrameBody {
    /// The item, with the payload copied out of the body.
    pub(crate) fn copied(self, alloc: Global, body: &[u8]) -> Result<Item, OutOfMemory>
        requires { HasPayload self body.now }
        ensures { IfOk result (λ item. item ≡ filled_item self body.now) }
    {
        match self {
            FrameBody::Item(item) => Ok(item),
            FrameBody::Write(id, offset) => {
                let payload = shared::copied(alloc, &body[BEFORE_PAYLOAD..])?;
                Ok(Item::Command(Command::Write {
                    id,
                    offset,
                    bytes: payload,
                }))
            }
        }
    }

    /// The item. Its payload stays where the body is.
    pub(crate) fn shared(self, mut body: Bytes) -> Item
        requires { HasPayload self body }
        ensures { result ≡ filled_item self body }
    {
        match self {
            FrameBody::Item(item) => item,
            FrameBody::Write(id, offset) => {
                body.advance(BEFORE_PAYLOAD);
                Item::Command(Command::Write {
                    id,
                    offset,
                    bytes: body,
                })
            }
        }
    }
}

/// What a frame of this kind and body says; `None` if the body has another form.
pub(crate) fn read_body(kind: FrameKind, body: &[u8]) -> Option<FrameBody>
    ensures reads { option_filled result body.now ≡ read_of kind body.now }
    ensures payload { IfSome result (λ said. HasPayload said body.now) }
{
    match kind {
        FrameKind::Hello => Some(FrameBody::Item(hello(body)?)),
        FrameKind::Of(kind) => read_command(kind, body),
    }
}

/// The same of a kind of command.
fn read_command(kind: CommandKind, body: &[u8]) -> Option<FrameBody>
    ensures reads { option_filled result body.now ≡ read_command_lem kind body.now }
    ensures payload { IfSome result (λ said. HasPayload said body.now) }
{
    let item = match kind {
        CommandKind::EndTask => end_task(body),
        CommandKind::List => empty_body(Command::List, body),
        CommandKind::Usage => empty_body(Command::Usage, body),
        CommandKind::Leave => empty_body(Command::Leave, body),
        CommandKind::Create
        | CommandKind::Write
        | CommandKind::Seal
        | CommandKind::Get
        | CommandKind::Read
        | CommandKind::Release
        | CommandKind::Unpin
        | CommandKind::Borrow
        | CommandKind::GiveUp
        | CommandKind::Delete
        | CommandKind::Grant
        | CommandKind::Withdraw
        | CommandKind::Peek
        | CommandKind::GetWait
        | CommandKind::CreateWait => return about(kind, body),
    };
    Some(FrameBody::Item(item?))
}

/// A job and its key.
fn hello(body: &[u8]) -> Option<Item>
    ensures { result ≡ hello_lem body.now }
{
    if body.len() != 36 {
        return None;
    }
    let mut key = [0; 32];
    key.copy_from_slice(&body[4..]);
    Some(Item::Hello(JobNo(number_at(body, 0)), JobKey(key)))
}

/// A task.
fn end_task(body: &[u8]) -> Option<Item>
    ensures { result ≡ end_task_lem body.now }
{
    if body.len() != 20 {
        return None;
    }
    Some(Item::Command(Command::EndTask(task_at(body, 0))))
}

/// Nothing but the kind.
fn empty_body(command: Command<Bytes>, body: &[u8]) -> Option<Item>
    ensures { result ≡ bare_lem command body.now }
{
    if body.is_empty() {
        Some(Item::Command(command))
    } else {
        None
    }
}

/// An object's id, and what its kind has after it.
fn about(kind: CommandKind, body: &[u8]) -> Option<FrameBody>
    ensures reads { option_filled result body.now ≡ read_about kind body.now }
    ensures payload { IfSome result (λ said. HasPayload said body.now) }
{
    if !fits(kind, body) {
        return None;
    }
    match id_at(body) {
        None => Some(FrameBody::Item(Item::BadId)),
        Some(id) => Some(about_object(kind, id, body)),
    }
}

/// Whether a body begins with an object's id and has the form of its kind: the right length, and a copy kind that there is.
fn fits(kind: CommandKind, body: &[u8]) -> bool
    ensures { result ≡ fits_lem kind body.now }
{
    match kind {
        CommandKind::Create | CommandKind::CreateWait => body.len() == 33 && body[28] <= 1,
        CommandKind::Write => body.len() >= 32,
        CommandKind::Seal
        | CommandKind::Get
        | CommandKind::Release
        | CommandKind::Delete
        | CommandKind::GetWait => body.len() == 28,
        CommandKind::Grant | CommandKind::Withdraw => body.len() == 32,
        CommandKind::Read | CommandKind::Peek => body.len() == 36,
        CommandKind::Unpin | CommandKind::Borrow | CommandKind::GiveUp => body.len() == 48,
        // they name no object
        CommandKind::EndTask | CommandKind::List | CommandKind::Usage | CommandKind::Leave => false,
    }
}

/// What a body that has the form of its kind says of its object.
fn about_object(kind: CommandKind, id: ObjectId, body: &[u8]) -> FrameBody
    requires { IsTrue (fits_lem kind body.now) }
    ensures reads { filled_item result body.now ≡ said_lem kind id body.now }
    ensures payload { HasPayload result body.now }
{
    match kind {
        CommandKind::Create => {
            let kind = kind_at(body);
            FrameBody::Item(Item::Command(Command::Create {
                id,
                kind,
                length: number_at(body, 29),
            }))
        }
        CommandKind::Write => FrameBody::Write(id, number_at(body, 28)),
        CommandKind::Seal => FrameBody::Item(Item::Command(Command::Seal(id))),
        CommandKind::Get => FrameBody::Item(Item::Command(Command::Get(id))),
        CommandKind::Read => {
            let offset = number_at(body, 28);
            FrameBody::Item(Item::Command(Command::Read {
                id,
                offset,
                count: number_at(body, 32),
            }))
        }
        CommandKind::Release => FrameBody::Item(Item::Command(Command::Release(id))),
        CommandKind::Unpin => FrameBody::Item(Item::Command(Command::Unpin(id, task_at(body, 28)))),
        CommandKind::Borrow => FrameBody::Item(Item::Command(Command::Borrow(
            id,
            task_at(body, 28),
        ))),
        CommandKind::GiveUp => FrameBody::Item(Item::Command(Command::GiveUp(
            id,
            task_at(body, 28),
        ))),
        CommandKind::Delete => FrameBody::Item(Item::Command(Command::Delete(id))),
        CommandKind::Grant => FrameBody::Item(Item::Command(Command::Grant(id, target_at(body)))),
        CommandKind::Withdraw => FrameBody::Item(Item::Command(Command::Withdraw(
            id,
            target_at(body),
        ))),
        CommandKind::Peek => {
            let offset = number_at(body, 28);
            FrameBody::Item(Item::Command(Command::Peek {
                id,
                offset,
                count: number_at(body, 32),
            }))
        }
        CommandKind::GetWait => FrameBody::Item(Item::Wait(Awaited::Get(id))),
        CommandKind::CreateWait => {
            let kind = kind_at(body);
            FrameBody::Item(Item::Wait(Awaited::Create {
                id,
                kind,
                length: number_at(body, 29),
            }))
        }
        CommandKind::EndTask | CommandKind::List | CommandKind::Usage | CommandKind::Leave => {
            unreachable!()
        }
    }
}

/// The object's id at the head of a body.
fn id_at(body: &[u8]) -> Option<ObjectId>
    requires { 28 ≤ length body.now }
    ensures { result ≡ (if is_id (id_at_lem body.now) then Some (id_at_lem body.now) else None) }
{
    let job = JobNo(number_at(body, 20));
    ObjectId::new(task_at(body, 0), job, number_at(body, 24)).ok()
}

/// The 20 bytes of a task.
fn task_at(body: &[u8], at: usize) -> TaskNo
    requires { at + 20 ≤ length body.now }
    ensures { result ≡ task_at_lem body.now at }
{
    let mut task = [0; 20];
    task.copy_from_slice(&body[at..at + 20]);
    TaskNo(task)
}

/// A number of four bytes.
pub(crate) fn number_at(body: &[u8], at: usize) -> u32
    requires { at + 4 ≤ length body.now }
    ensures { result ≡ number_at_lem body.now at }
{
    let mut number = [0; 4];
    number.copy_from_slice(&body[at..at + 4]);
    u32::from_be_bytes(number)
}

/// The job after the id.
fn target_at(body: &[u8]) -> JobNo
    requires { 32 ≤ length body.now }
    ensures { result.0 ≡ number_at_lem body.now 28 }
{
    JobNo(number_at(body, 28))
}

/// The copy kind of a body that creates.
fn kind_at(body: &[u8]) -> Kind
    requires { 29 ≤ length body.now }
    ensures { result ≡ kind_of (slice_index body.now 28) }
{
    if body[28] == 0 {
        Kind::Primary
    } else {
        Kind::Secondary
    }
}
