//! Commands of sessions, put after a line.
ghost use Rattle.std.specs.Prelude.{◌≡◌, ◌++◌, [], ◌∷◌, codes, decimal, OnOk};
ghost use Rattle.std.specs.String.{string_bytes};
ghost use Rattle.obj_id.specs.Texts.{id_text, task_text};
ghost use Rattle.journal_text.specs.Printing.{command_fields, count_field, create_word as create_word_lem, spaced_text};

use crate::puts::{
    put, put_count, put_object, put_object_number, put_object_numbers, put_object_task, put_task,
};
use memory_growth::{OutOfMemory, text_of};
use obj_id::{Command, JobNo, Kind, ObjectId, TaskNo};
use std::alloc::Global;

/// `sSESSION` and the command.
pub(crate) fn put_call(
    alloc: Global,
    line: &mut String,
    session: u32,
    command: &Command<u64>,
    job: JobNo,
) -> Result<(), OutOfMemory>
    ensures { OnOk result (string_bytes line.new ≡ string_bytes line.old
        ++ spaced_text ((codes "s" ++ decimal session) ∷ command_fields job.0 command.now)) }
{
    let session = text_of!(in alloc; "s{session}")?;
    put(line, &session)?;
    put_command(alloc, line, command, job)
}

/// The fields of a command.
fn put_command(
    alloc: Global,
    line: &mut String,
    command: &Command<u64>,
    job: JobNo,
) -> Result<(), OutOfMemory>
    ensures { OnOk result (string_bytes line.new
        ≡ string_bytes line.old ++ spaced_text (command_fields job.0 command.now)) }
{
    match command {
        Command::Create { id, kind, length } => {
            put_object_number(alloc, line, create_word(*kind), id, job, u64::from(*length))
        }
        Command::Write {
            id,
            offset,
            bytes: count,
        } => put_write(alloc, line, id, job, *offset, *count),
        Command::Seal(id) => put_object(alloc, line, "seal", id, job),
        Command::Get(id) => put_object(alloc, line, "get", id, job),
        Command::Read { id, offset, count } => {
            put_object_numbers(
                alloc,
                line,
                "read",
                id,
                job,
                u64::from(*offset),
                u64::from(*count),
            )
        }
        Command::Release(id) => put_object(alloc, line, "release", id, job),
        Command::Unpin(id, task) => put_object_task(alloc, line, "unpin", id, job, task),
        Command::Borrow(id, task) => put_object_task(alloc, line, "borrow", id, job, task),
        Command::GiveUp(id, task) => put_object_task(alloc, line, "giveup", id, job, task),
        Command::Delete(id) => put_object(alloc, line, "delete", id, job),
        Command::EndTask(task) => put_end_task(alloc, line, task),
        Command::Grant(id, target) => {
            put_object_number(alloc, line, "grant", id, job, u64::from(target.0))
        }
        Command::Withdraw(id, target) => {
            put_object_number(alloc, line, "withdraw", id, job, u64::from(target.0))
        }
        Command::Peek { id, offset, count } => {
            put_object_numbers(
                alloc,
                line,
                "peek",
                id,
                job,
                u64::from(*offset),
                u64::from(*count),
            )
        }
        Command::List => put(line, "list"),
        Command::Usage => put(line, "usage"),
        Command::Leave => put(line, "leave"),
    }
}

/// `write ID OFF #N`.
fn put_write(
    alloc: Global,
    line: &mut String,
    id: &ObjectId,
    job: JobNo,
    offset: u32,
    count: u64,
) -> Result<(), OutOfMemory>
    ensures { OnOk result (string_bytes line.new ≡ string_bytes line.old ++ spaced_text
        (codes "write" ∷ id_text job.0 id.now ∷ decimal offset ∷ count_field count ∷ [])) }
{
    put_object_number(alloc, line, "write", id, job, u64::from(offset))?;
    put_count(alloc, line, count)
}

/// `endtask TASK`.
fn put_end_task(alloc: Global, line: &mut String, task: &TaskNo) -> Result<(), OutOfMemory>
    ensures { OnOk result (string_bytes line.new
        ≡ string_bytes line.old ++ spaced_text (codes "endtask" ∷ task_text task.now ∷ [])) }
{
    put(line, "endtask")?;
    put_task(alloc, line, task)
}

fn create_word(kind: Kind) -> &'static str
    ensures { result.now ≡ create_word_lem kind }
{
    match kind {
        Kind::Primary => "create",
        Kind::Secondary => "copy",
    }
}
