//! Inputs, put after a line.
ghost use Rattle.std.specs.Prelude.{◌≡◌, ◌++◌, [], ◌∷◌, codes, decimal, IfOk, OnOk, map};
ghost use Rattle.std.specs.String.{string_bytes};
ghost use Rattle.obj_id.specs.Texts.{id_text};
ghost use Rattle.journal_text.specs.Printing.{input_fields, location_field, spaced_text};
ghost use Rattle.journal_text.specs.Words.{chunk_verdict_text, match_text, work_verdict_text};

use crate::entry::LineInput;
use crate::put_calls::put_call;
use crate::puts::{
    put, put_number, put_object, put_object_number, put_object_numbers, put_word_number,
    put_word_numbers,
};
use memory_growth::{OutOfMemory, text_of, texts};
use obj_id::{JobNo, Location, ObjectId};
use private_store::{ChunkVerdict, WorkVerdict};
use std::alloc::Global;

/// The fields of an input.
pub(crate) fn put_input(
    alloc: Global,
    line: &mut String,
    input: &LineInput,
    job: JobNo,
) -> Result<(), OutOfMemory>
    ensures { OnOk result (string_bytes line.new
        ≡ string_bytes line.old ++ spaced_text (input_fields job.0 input.now)) }
{
    match input {
        LineInput::Begin(quota) => put_word_numbers(line, "begin", quota.window, quota.device),
        LineInput::Requota(quota) => put_word_numbers(line, "quota", quota.window, quota.device),
        LineInput::End => put(line, "end"),
        LineInput::Call(session, command) => put_call(alloc, line, *session, command, job),
        LineInput::Answer(number, verdict) => put_answer(line, *number, *verdict),
        LineInput::Located {
            id,
            number,
            entries,
        } => { put_located(alloc, line, id, job, *number, entries.as_slice()) }
        LineInput::Chunk {
            id,
            number,
            index,
            from,
            verdict,
        } => {
            put_object_numbers(alloc, line, "chunk", id, job, *number, u64::from(*index))?;
            put_sent(line, *from, *verdict)
        }
        LineInput::Pull {
            id,
            number,
            matches: matched,
        } => {
            put_object_number(alloc, line, "pull", id, job, *number)?;
            put(line, match_word(*matched))
        }
        LineInput::NotHere { id, number, from } => {
            put_object_numbers(alloc, line, "nothere", id, job, *number, u64::from(*from))
        }
        LineInput::Received {
            id,
            length,
            grantor,
            depth,
        } => {
            put_object_number(alloc, line, "received", id, job, u64::from(*length))?;
            put_grant(line, *grantor, *depth)
        }
        LineInput::Withdrawn { id, grantor, depth } => {
            put_object(alloc, line, "withdrawn", id, job)?;
            put_grant(line, *grantor, *depth)
        }
    }
}

/// `answer NUMBER WORD`.
fn put_answer(line: &mut String, number: u64, verdict: WorkVerdict) -> Result<(), OutOfMemory>
    ensures { OnOk result (string_bytes line.new ≡ string_bytes line.old
        ++ spaced_text (codes "answer" ∷ decimal number ∷ work_verdict_text verdict ∷ [])) }
{
    put_word_number(line, "answer", number)?;
    put(line, work_word(verdict))
}

/// `FROM WORD`.
fn put_sent(line: &mut String, from: u32, verdict: ChunkVerdict) -> Result<(), OutOfMemory>
    ensures { OnOk result (string_bytes line.new ≡ string_bytes line.old
        ++ spaced_text (decimal from ∷ chunk_verdict_text verdict ∷ [])) }
{
    put_number(line, u64::from(from))?;
    put(line, chunk_word(verdict))
}

/// `GRANTOR DEPTH`.
fn put_grant(line: &mut String, grantor: JobNo, depth: u32) -> Result<(), OutOfMemory>
    ensures { OnOk result (string_bytes line.new ≡ string_bytes line.old
        ++ spaced_text (decimal grantor.0 ∷ decimal depth ∷ [])) }
{
    put_number(line, u64::from(grantor.0))?;
    put_number(line, u64::from(depth))
}

/// `located ID NUMBER`, then each entry.
fn put_located(
    alloc: Global,
    line: &mut String,
    id: &ObjectId,
    job: JobNo,
    number: u64,
    entries: &[Location],
) -> Result<(), OutOfMemory>
    ensures { OnOk result (string_bytes line.new ≡ string_bytes line.old ++ spaced_text
        (codes "located" ∷ id_text job.0 id.now ∷ decimal number ∷ map location_field entries.now)) }
{
    let entries = locations_text(alloc, entries)?;
    put_object_number(alloc, line, "located", id, job, number)?;
    texts::push_str(line, &entries)
}

/// Each entry after a space.
fn locations_text(alloc: Global, entries: &[Location]) -> Result<String, OutOfMemory>
    ensures { IfOk result (λ text.
        string_bytes text ≡ spaced_text (map location_field entries.now)) }
{
    let mut text = String::new(alloc);
    for entry in entries {
        let entry = location_text(alloc, entry)?;
        texts::push(&mut text, ' ')?;
        texts::push_str(&mut text, &entry)?;
    }
    Ok(text)
}

/// `NODE:LEN:DIGEST`.
fn location_text(alloc: Global, entry: &Location) -> Result<String, OutOfMemory>
    ensures { IfOk result (λ text. string_bytes text ≡ location_field entry.now) }
{
    let node = entry.node;
    let length = entry.length;
    let digits = texts::encode(alloc, entry.digest.0)?;
    text_of!(in alloc; "{node}:{length}:{digits}")
}

fn work_word(verdict: WorkVerdict) -> &'static str
    ensures { result.now ≡ work_verdict_text verdict }
{
    match verdict {
        WorkVerdict::Fine => "ok",
        WorkVerdict::Failed => "fail",
        WorkVerdict::Damaged => "damage",
    }
}

fn chunk_word(verdict: ChunkVerdict) -> &'static str
    ensures { result.now ≡ chunk_verdict_text verdict }
{
    match verdict {
        ChunkVerdict::Part => "part",
        ChunkVerdict::Whole => "whole",
        ChunkVerdict::Damaged => "damaged",
        ChunkVerdict::Ignored => "ignored",
    }
}

fn match_word(matched: bool) -> &'static str
    ensures { result.now ≡ match_text matched }
{
    if matched { "match" } else { "other" }
}
