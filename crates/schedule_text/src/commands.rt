//! The commands of sessions.
ghost use Rattle.std.specs.Prelude.{IfOk, map};
ghost use Rattle.schedule_text.specs.Fields.{Reads};
ghost use Rattle.schedule_text.specs.Reading.{IsCommand, IsCommandText, IsPlainCommand};

use crate::fields::{alone, id, id_bytes, id_job, id_number, id_span, id_task, one_task};
use crate::words::Word;
use bytes::Bytes;
use command_kinds::CommandKind;
use memory_growth::OutOfMemory;
use obj_id::{Command, JobNo, Kind};
use std::alloc::Global;

/// The command that a field and those after it spell, for the job that speaks.
pub(crate) fn command(
    alloc: Global,
    first: &str,
    fields: &[&str],
    job: JobNo,
) -> Result<Option<Command<Bytes>>, OutOfMemory>
    ensures { IfOk result (λ command. Reads command
        (IsCommandText job.0 first.now (map (λ field. field.now) fields.now))) }
{
    match Word::read(first) {
        None => Ok(None),
        Some(word) => command_of(alloc, word, fields, job),
    }
}

/// The command that a word and the fields after it spell.
fn command_of(
    alloc: Global,
    word: Word,
    fields: &[&str],
    job: JobNo,
) -> Result<Option<Command<Bytes>>, OutOfMemory>
    ensures { IfOk result (λ command. Reads command
        (IsCommand job.0 word (map (λ field. field.now) fields.now))) }
{
    match word {
        Word::Copy => Ok(command_without_payload(word, fields, job)),
        Word::Of(kind) => match kind {
            CommandKind::Write => Ok(id_bytes(alloc, fields, job)?.map(|(
                (id, offset),
                bytes,
            )| Command::Write { id, offset, bytes })),
            _ => Ok(command_without_payload(word, fields, job)),
        },
    }
}

/// The command that a word and the fields after it spell, if the job speaks, unless it carries
/// bytes: `None` at `write`, whose last field is spelled differently in different texts, and at a
/// kind that waits, which no line has.
pub fn command_without_payload<P: Drop>(
    word: Word,
    fields: &[&str],
    job: JobNo,
) -> Option<Command<P>>
    ensures { Reads result (IsPlainCommand job.0 word (map (λ field. field.now) fields.now)) }
{
    match word {
        Word::Of(CommandKind::Create) => {
            let (id, length) = id_number(fields, job)?;
            Some(Command::Create {
                id,
                kind: Kind::Primary,
                length,
            })
        }
        Word::Copy => {
            let (id, length) = id_number(fields, job)?;
            Some(Command::Create {
                id,
                kind: Kind::Secondary,
                length,
            })
        }
        Word::Of(CommandKind::Write | CommandKind::GetWait | CommandKind::CreateWait) => None,
        Word::Of(CommandKind::Seal) => Some(Command::Seal(id(fields, job)?)),
        Word::Of(CommandKind::Get) => Some(Command::Get(id(fields, job)?)),
        Word::Of(CommandKind::Read) => {
            let ((id, offset), count) = id_span(fields, job)?;
            Some(Command::Read { id, offset, count })
        }
        Word::Of(CommandKind::Release) => Some(Command::Release(id(fields, job)?)),
        Word::Of(CommandKind::Unpin) => {
            let (id, task) = id_task(fields, job)?;
            Some(Command::Unpin(id, task))
        }
        Word::Of(CommandKind::Borrow) => {
            let (id, task) = id_task(fields, job)?;
            Some(Command::Borrow(id, task))
        }
        Word::Of(CommandKind::GiveUp) => {
            let (id, task) = id_task(fields, job)?;
            Some(Command::GiveUp(id, task))
        }
        Word::Of(CommandKind::Delete) => Some(Command::Delete(id(fields, job)?)),
        Word::Of(CommandKind::EndTask) => Some(Command::EndTask(one_task(fields)?)),
        Word::Of(CommandKind::Grant) => {
            let (id, target) = id_job(fields, job)?;
            Some(Command::Grant(id, target))
        }
        Word::Of(CommandKind::Withdraw) => {
            let (id, target) = id_job(fields, job)?;
            Some(Command::Withdraw(id, target))
        }
        Word::Of(CommandKind::Peek) => {
            let ((id, offset), count) = id_span(fields, job)?;
            Some(Command::Peek { id, offset, count })
        }
        Word::Of(CommandKind::List) => alone(fields, Command::List),
        Word::Of(CommandKind::Usage) => alone(fields, Command::Usage),
        Word::Of(CommandKind::Leave) => alone(fields, Command::Leave),
    }
}
