//! The frames of commands, against what they say.
ghost use Rattle.std.specs.Prelude.{◌≡◌, ◌+◌, ◌++◌, codes, length, map, None, IfOk, IfSome, IsTrue};
ghost use Rattle.std.specs.String.{string_bytes};
ghost use Rattle.hex.specs.Hex.{encode_lower};
ghost use Rattle.private_store.specs.rules.Frames.{command_body, is_command_length, tried};
ghost use Rattle.schedule_text.specs.Fields.{fields_of as fields_of_lem};
ghost use Rattle.wire_frames.specs.Writing.{has_command_frame};
ghost use Rattle.schedules.specs.Vectors.{VectorCalls, IsCommandFrame, IsFrameAlone, IsFrameOf, IsHello, IsJobAndKey, IsReadBack, VectorSays, line_calling};

use crate::digits::{are_digits_of, cut_at};
use crate::vectors::Fault;
use bytes::Bytes;
use memory_growth::{OutOfMemory, text_of};
use obj_id::{Command, JobKey, JobNo, Refusal};
use private_store::{Awaited, Event, Item, Step};
use schedule_text::fields::job;
use schedule_text::{Line, fields_of, read_line};
use std::alloc::Global;
use std::io;
use wire_frames::{Reader, encode_command};

/// What differs between the digits of a command's frame and its text. `None` only if the text spells a command whose
/// frame has these digits, and from the frame comes one item, which has that frame.
pub(crate) fn command_fault(alloc: Global, digits: &str, text: &str) -> io::Result<Option<Fault>>
    ensures { IfOk result (λ fault. fault ≡ None → IsCommandFrame digits.now text.now) }
{
    match item_of(alloc, text)? {
        None => Ok(Some(Fault::Text)),
        Some(item) => item_fault(alloc, digits, &item),
    }
}

/// What differs between these digits and the item's frame, or the item and what is read from its frame.
fn item_fault(alloc: Global, digits: &str, item: &Item) -> io::Result<Option<Fault>>
    ensures { IfOk result (λ fault. fault ≡ None → IsFrameOf digits.now item.now) }
{
    if !is_framed(item) {
        return Ok(Some(Fault::Text));
    }
    let frame = encode_command(alloc, item)?;
    if !are_digits_of(alloc, digits, &frame)? {
        return Ok(Some(Fault::Digits));
    }
    if is_read_back(alloc, &frame)? {
        Ok(None)
    } else {
        Ok(Some(Fault::Reading))
    }
}

/// What a session of job 1 says by a text.
fn item_of(alloc: Global, text: &str) -> Result<Option<Item>, OutOfMemory>
    ensures { IfOk result (λ item. IfSome item (λ item. VectorSays text.now item)) }
{
    if let Some((job, key)) = hello(alloc, text)? {
        return Ok(Some(Item::Hello(job, key)));
    }
    match cut_at(text, "wait ") {
        None => Ok(command_of(alloc, text)?.map(Item::Command)),
        Some((word, rest)) => Ok(awaited(alloc, word, rest)?.map(Item::Wait)),
    }
}

/// `hello JOB KEY`.
fn hello(alloc: Global, text: &str) -> Result<Option<(JobNo, JobKey)>, OutOfMemory>
    ensures { IfOk result (λ hello. IfSome hello (IsHello (fields_of_lem text.now))) }
{
    let fields = fields_of(alloc, text)?;
    hello_of(alloc, &fields)
}

/// The same, by its fields.
fn hello_of(alloc: Global, fields: &[&str]) -> Result<Option<(JobNo, JobKey)>, OutOfMemory>
    ensures { IfOk result (λ hello. IfSome hello (IsHello (map (λ field. field.now) fields.now))) }
{
    let [word, number, digits] = fields else {
        return Ok(None)
    };
    if is_hello(word) {
        job_and_key(alloc, number, digits)
    } else {
        Ok(None)
    }
}

fn is_hello(word: &str) -> bool
    ensures { IsTrue result → word.now ≡ codes "hello" }
{
    word == "hello"
}

/// A job and its key, each in its field.
fn job_and_key(
    alloc: Global,
    number: &str,
    digits: &str,
) -> Result<Option<(JobNo, JobKey)>, OutOfMemory>
    ensures { IfOk result (λ read. IfSome read (IsJobAndKey number.now digits.now)) }
{
    let Some(job) = job(number) else {
        return Ok(None)
    };
    let Some(key) = key(alloc, digits)? else {
        return Ok(None)
    };
    Ok(Some((job, key)))
}

/// A key of 32 bytes.
fn key(alloc: Global, digits: &str) -> Result<Option<JobKey>, OutOfMemory>
    ensures { IfOk result (λ key. IfSome key (λ key. encode_lower key.0 ≡ digits.now)) }
{
    let mut key = [0u8; 32];
    if hex::decode_to_slice(digits, &mut key).is_err() {
        return Ok(None);
    }
    if are_digits_of(alloc, digits, &key)? {
        Ok(Some(JobKey(key)))
    } else {
        Ok(None)
    }
}

/// The command that is tried again, if it is one that can be, by its word and what stands after that.
fn awaited(alloc: Global, word: &str, rest: &str) -> Result<Option<Awaited>, OutOfMemory>
    ensures { IfOk result (λ awaited. IfSome awaited
        (λ awaited. VectorCalls (word.now ++ codes " " ++ rest.now) (tried awaited))) }
{
    let text = text_of!(in alloc; "{word} {rest}")?;
    match command_of(alloc, text.as_str())? {
        None => Ok(None),
        Some(command) => Ok(awaiting(&command)),
    }
}

/// The command, if it can be tried again.
fn awaiting(command: &Command<Bytes>) -> Option<Awaited>
    ensures { IfSome result (λ awaited. tried awaited ≡ command.now) }
{
    match command {
        Command::Get(id) => Some(Awaited::Get(*id)),
        Command::Create { id, kind, length } => Some(Awaited::Create {
            id: *id,
            kind: *kind,
            length: *length,
        }),
        _ => None,
    }
}

/// The command of a schedule's line, in which session 1 of job 1 speaks at node 0.
fn command_of(alloc: Global, text: &str) -> Result<Option<Command<Bytes>>, OutOfMemory>
    ensures { IfOk result (λ command. IfSome command (λ command. VectorCalls text.now command)) }
{
    let line = line_of(alloc, text)?;
    let read = read_line(alloc, line.as_str(), 1)?;
    match read {
        None => Ok(None),
        Some(line) => Ok(called(line)),
    }
}

/// The line of a schedule, without its line feed.
fn line_of(alloc: Global, text: &str) -> Result<String, OutOfMemory>
    ensures { IfOk result (λ line. string_bytes line ≡ codes "cmd 0 1 1 " ++ text.now) }
{
    text_of!(in alloc; "cmd 0 1 1 {text}")
}

/// The command of a line, if the line is one of session 1 of job 1 at node 0.
fn called(line: Line) -> Option<Command<Bytes>>
    ensures { IfSome result (λ command. line ≡ line_calling command) }
{
    match line {
        Line::Step(
            Step::At(
                0,
                Event::Call {
                    job: JobNo(1),
                    session: 1,
                    command,
                },
            ),
        ) => Some(command),
        _ => None,
    }
}

/// Whether an item has a frame: it isn't one of an invalid id, and no longer than a frame may be.
fn is_framed(item: &Item) -> bool
    ensures { IsTrue result → IsTrue (has_command_frame item.now) }
{
    match item {
        Item::Hello(_, key) => fits(4 + key.0.as_slice().len()),
        Item::Command(command) => is_command_framed(command),
        Item::Wait(Awaited::Get(id)) => fits(id.to_bytes().len()),
        Item::Wait(Awaited::Create { id, .. }) => fits(id.to_bytes().len() + 5),
        Item::BadId => false,
    }
}

/// The same, of a command.
fn is_command_framed(command: &Command<Bytes>) -> bool
    ensures { IsTrue result → IsTrue (is_command_length (length (command_body command.now))) }
{
    match command {
        // beside the bytes there are a kind, an id and an offset
        Command::Write { id, bytes, .. } => { bytes.len() <= 65_595 - id.to_bytes().len() },
        Command::Create { id, .. } => fits(id.to_bytes().len() + 5),
        Command::Read { id, .. } | Command::Peek { id, .. } => fits(id.to_bytes().len() + 8),
        Command::Grant(id, _) | Command::Withdraw(id, _) => fits(id.to_bytes().len() + 4),
        Command::Unpin(id, task) | Command::Borrow(id, task) | Command::GiveUp(id, task) => {
            fits(id.to_bytes().len() + task.0.as_slice().len())
        }
        Command::Seal(id) | Command::Get(id) | Command::Release(id) | Command::Delete(id) => {
            fits(id.to_bytes().len())
        }
        Command::EndTask(task) => fits(task.0.as_slice().len()),
        Command::List | Command::Usage | Command::Leave => fits(0),
    }
}

/// Whether so many bytes have room in a command's frame, after its kind.
fn fits(length: usize) -> bool
    ensures { IsTrue result → IsTrue (is_command_length (1 + length)) }
{
    length < 65_600
}

/// Whether one item comes from the bytes, and they are its frame.
fn is_read_back(alloc: Global, frame: &[u8]) -> io::Result<bool>
    ensures { IfOk result (λ same. IsTrue same → IsReadBack frame.now) }
{
    let mut reader = Reader::new(alloc);
    match reader.feed(alloc, frame) {
        Ok(items) => Ok(is_frame_of(alloc, &items, frame)?),
        Err(Refusal::NoMemory) => Err(io::Error::other("no memory to read a frame")),
        Err(_) => Ok(false),
    }
}

/// Whether there is one item, and the bytes are its frame.
fn is_frame_of(alloc: Global, items: &[Item], frame: &[u8]) -> Result<bool, OutOfMemory>
    ensures { IfOk result (λ same. IsTrue same → IsFrameAlone items.now frame.now) }
{
    let [item] = items else { return Ok(false) };
    if !is_framed(item) {
        return Ok(false);
    }
    let again = encode_command(alloc, item)?;
    Ok(again.as_slice() == frame)
}
