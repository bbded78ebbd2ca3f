//! What the fields of an input say.
ghost use Rattle.std.specs.Prelude.{◌≡◌, IfOk, map};
ghost use Rattle.schedule_text.specs.Fields.{Reads};
ghost use Rattle.journal_text.specs.Inputs.{IsAnswerInput, IsChunk, IsGrantEnd, IsGrantTo, IsGrantToOf, IsInput, IsInputFrom, IsInputOf, IsInputText, IsNotHere, IsPiece, IsPieceFields, IsPull, IsQuotaAlone, IsReceived, IsRequota, IsWithdrawn, is_call_line as is_call_lem};

use crate::calls::call;
use crate::entry::{LineInput, Version};
use crate::fields::{fetch, grant};
use crate::locations::located;
use crate::words::{InputWord, chunk_verdict, matched, work_verdict};
use memory_growth::OutOfMemory;
use obj_id::{JobNo, ObjectId, Quota};
use private_store::{ChunkVerdict, WorkVerdict};
use schedule_text::fields::{alone, id, id_number, long_number, number, object, target};
use schedule_text::quota;
use std::alloc::Global;

/// The input that fields spell, if the job speaks.
pub(crate) fn input(
    alloc: Global,
    fields: &[&str],
    job: JobNo,
    version: Version,
) -> Result<Option<LineInput>, OutOfMemory>
    ensures { IfOk result (λ input. Reads input
        (IsInput version job.0 (map (λ field. field.now) fields.now))) }
{
    let [first, fields @ ..] = fields else {
        return Ok(None)
    };
    input_from(alloc, first, fields, job, version)
}

/// The input that a field and those after it spell.
fn input_from(
    alloc: Global,
    first: &str,
    fields: &[&str],
    job: JobNo,
    version: Version,
) -> Result<Option<LineInput>, OutOfMemory>
    ensures { IfOk result (λ input. Reads input
        (IsInputFrom version job.0 first.now (map (λ field. field.now) fields.now))) }
{
    if is_call(first.as_bytes()) {
        return Ok(call(first, fields, job).map(|(session, command)| LineInput::Call(
            session, command,
        )));
    }
    input_text(alloc, first, fields, job, version)
}

/// Whether the input that the field begins is a session's: no word of another begins with an `s`.
fn is_call(field: &[u8]) -> bool
    ensures { result ≡ is_call_lem field.now }
{
    matches!(field, [b's', ..])
}

/// The input of no session that a field and those after it spell.
fn input_text(
    alloc: Global,
    first: &str,
    fields: &[&str],
    job: JobNo,
    version: Version,
) -> Result<Option<LineInput>, OutOfMemory>
    ensures { IfOk result (λ input. Reads input
        (IsInputText version job.0 first.now (map (λ field. field.now) fields.now))) }
{
    match InputWord::read(first) {
        None => Ok(None),
        Some(word) => input_of(alloc, word, fields, job, version),
    }
}

/// The input that a word and the fields after it spell.
fn input_of(
    alloc: Global,
    word: InputWord,
    fields: &[&str],
    job: JobNo,
    version: Version,
) -> Result<Option<LineInput>, OutOfMemory>
    ensures { IfOk result (λ input. Reads input
        (IsInputOf version job.0 word (map (λ field. field.now) fields.now))) }
{
    match word {
        InputWord::Begin => Ok(quota_alone(fields).map(LineInput::Begin)),
        InputWord::Quota => Ok(requota(fields, version).map(LineInput::Requota)),
        InputWord::End => Ok(alone(fields, LineInput::End)),
        InputWord::Answer => {
            Ok(answer(fields).map(|(number, verdict)| LineInput::Answer(number, verdict)))
        }
        InputWord::Located => Ok(located(alloc, fields, job)?.map(|((id, number), entries)| {
            LineInput::Located {
                id,
                number,
                entries,
            }
        })),
        InputWord::Chunk => Ok(chunk(fields, job).map(|((id, number), (piece, verdict))| {
            LineInput::Chunk {
                id,
                number,
                index: piece.0,
                from: piece.1,
                verdict,
            }
        })),
        InputWord::Pull => Ok(pull(fields, job).map(|((id, number), matched)| LineInput::Pull {
            id,
            number,
            matches: matched,
        })),
        InputWord::NotHere => Ok(not_here(fields, job).map(|((id, number), from)| {
            LineInput::NotHere { id, number, from }
        })),
        InputWord::Received => Ok(received(fields, job, version)),
        InputWord::Withdrawn => Ok(withdrawn(fields, job, version)),
    }
}

/// `WINDOW DEVICE`, and nothing else.
fn quota_alone(fields: &[&str]) -> Option<Quota>
    ensures { Reads result (IsQuotaAlone (map (λ field. field.now) fields.now)) }
{
    let [window, device] = fields else {
        return None
    };
    quota(window, device)
}

/// `WINDOW DEVICE` of a change, which the earlier versions don't know.
fn requota(fields: &[&str], version: Version) -> Option<Quota>
    ensures { Reads result (IsRequota version (map (λ field. field.now) fields.now)) }
{
    match version {
        Version::One | Version::Two => None,
        Version::Three => quota_alone(fields),
    }
}

/// `NUMBER WORD`, of a device's answer.
fn answer(fields: &[&str]) -> Option<(u64, WorkVerdict)>
    ensures { Reads result (IsAnswerInput (map (λ field. field.now) fields.now)) }
{
    let [number, word] = fields else { return None };
    Some((long_number(number)?, work_verdict(word)?))
}

/// `ID NUMBER INDEX FROM WORD`, of a chunk.
fn chunk(fields: &[&str], job: JobNo) -> Option<((ObjectId, u64), ((u32, u32), ChunkVerdict))>
    ensures { Reads result (IsChunk job.0 (map (λ field. field.now) fields.now)) }
{
    let [id, number, fields @ ..] = fields else {
        return None
    };
    Some((fetch(id, number, job)?, pieces(fields)?))
}

/// `INDEX FROM WORD`.
fn pieces(fields: &[&str]) -> Option<((u32, u32), ChunkVerdict)>
    ensures { Reads result (IsPieceFields (map (λ field. field.now) fields.now)) }
{
    let [index, from, word] = fields else {
        return None
    };
    piece(index, from, word)
}

/// `INDEX FROM WORD`, each in its field.
fn piece(index: &str, from: &str, word: &str) -> Option<((u32, u32), ChunkVerdict)>
    ensures { Reads result (IsPiece index.now from.now word.now) }
{
    let index = number(index)?;
    let from = number(from)?;
    let verdict = chunk_verdict(word)?;
    Some(((index, from), verdict))
}

/// `ID NUMBER WORD`, of a Pull.
fn pull(fields: &[&str], job: JobNo) -> Option<((ObjectId, u64), bool)>
    ensures { Reads result (IsPull job.0 (map (λ field. field.now) fields.now)) }
{
    let [id, number, word] = fields else {
        return None
    };
    Some((fetch(id, number, job)?, matched(word)?))
}

/// `ID NUMBER FROM`.
fn not_here(fields: &[&str], job: JobNo) -> Option<((ObjectId, u64), u32)>
    ensures { Reads result (IsNotHere job.0 (map (λ field. field.now) fields.now)) }
{
    let [id, fetched, from] = fields else {
        return None
    };
    Some((fetch(id, fetched, job)?, number(from)?))
}

/// A grant to this job. In version 1 it is the object's job's own.
fn received(fields: &[&str], job: JobNo, version: Version) -> Option<LineInput>
    ensures { Reads result (IsReceived version job.0 (map (λ field. field.now) fields.now)) }
{
    match version {
        Version::One => id_number(fields, job).map(|(id, length)| LineInput::Received {
            id,
            length,
            grantor: id.job(),
            depth: 1,
        }),
        Version::Two | Version::Three => grant_to(fields, job).map(|((id, length), grant)| {
            LineInput::Received {
                id,
                length,
                grantor: grant.0,
                depth: grant.1,
            }
        }),
    }
}

/// `ID LEN GRANTOR DEPTH`.
fn grant_to(fields: &[&str], job: JobNo) -> Option<((ObjectId, u32), (JobNo, u32))>
    ensures { Reads result (IsGrantTo job.0 (map (λ field. field.now) fields.now)) }
{
    let [id, length, grantor, depth] = fields else {
        return None
    };
    grant_to_of(id, length, grantor, depth, job)
}

/// `ID LEN GRANTOR DEPTH`, each in its field.
fn grant_to_of(
    id: &str,
    length: &str,
    grantor: &str,
    depth: &str,
    job: JobNo,
) -> Option<((ObjectId, u32), (JobNo, u32))>
    ensures { Reads result (IsGrantToOf job.0 id.now length.now grantor.now depth.now) }
{
    Some((target(id, length, job)?, grant(grantor, depth)?))
}

/// The end of a grant to this job. In version 1 it is the object's job's own.
fn withdrawn(fields: &[&str], job: JobNo, version: Version) -> Option<LineInput>
    ensures { Reads result (IsWithdrawn version job.0 (map (λ field. field.now) fields.now)) }
{
    match version {
        Version::One => id(fields, job).map(|id| LineInput::Withdrawn {
            id,
            grantor: id.job(),
            depth: 1,
        }),
        Version::Two | Version::Three => {
            grant_end(fields, job).map(|(id, grant)| LineInput::Withdrawn {
                id,
                grantor: grant.0,
                depth: grant.1,
            })
        }
    }
}

/// `ID GRANTOR DEPTH`.
fn grant_end(fields: &[&str], job: JobNo) -> Option<(ObjectId, (JobNo, u32))>
    ensures { Reads result (IsGrantEnd job.0 (map (λ field. field.now) fields.now)) }
{
    let [id, grantor, depth] = fields else {
        return None
    };
    Some((object(id, job)?, grant(grantor, depth)?))
}
