//! The commands of sessions, with the number of written bytes in place of the bytes.
ghost use Rattle.std.specs.Prelude.{map};
ghost use Rattle.schedule_text.specs.Fields.{Reads};
ghost use Rattle.journal_text.specs.Calls.{IsCommandWithoutPayload, IsCommandWithoutPayloadOf, IsCallText, IsIdCount};

use crate::fields::{count, session};
use command_kinds::CommandKind;
use obj_id::{Command, JobNo, ObjectId};
use schedule_text::commands::command_without_payload;
use schedule_text::fields::target;
use schedule_text::words::Word;

/// `sSESSION` and a command.
pub(crate) fn call(first: &str, fields: &[&str], job: JobNo) -> Option<(u32, Command<u64>)>
    ensures { Reads result (IsCallText job.0 first.now (map (λ field. field.now) fields.now)) }
{
    let session = session(first)?;
    let command = command_of_fields(fields, job)?;
    Some((session, command))
}

/// The command that fields spell, if the job speaks.
fn command_of_fields(fields: &[&str], job: JobNo) -> Option<Command<u64>>
    ensures { Reads result (IsCommandWithoutPayload job.0 (map (λ field. field.now) fields.now)) }
{
    let [first, fields @ ..] = fields else {
        return None
    };
    let word = Word::read(first)?;
    command_of(word, fields, job)
}

/// The command that a word and the fields after it spell.
fn command_of(word: Word, fields: &[&str], job: JobNo) -> Option<Command<u64>>
    ensures { Reads result (IsCommandWithoutPayloadOf job.0 word (map (λ field. field.now) fields.now)) }
{
    match word {
        Word::Copy => command_without_payload(word, fields, job),
        Word::Of(kind) => match kind {
            CommandKind::Write => {
                let ((id, offset), count) = id_count(fields, job)?;
                Some(Command::Write {
                    id,
                    offset,
                    bytes: count,
                })
            }
            _ => command_without_payload(word, fields, job),
        },
    }
}

/// `ID OFF #N`.
fn id_count(fields: &[&str], job: JobNo) -> Option<((ObjectId, u32), u64)>
    ensures { Reads result (IsIdCount job.0 (map (λ field. field.now) fields.now)) }
{
    let [id, offset, digits] = fields else {
        return None
    };
    Some((target(id, offset, job)?, count(digits)?))
}
