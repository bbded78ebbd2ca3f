//! The words of a saved journal.
ghost use Rattle.std.specs.Prelude.{◌≡◌};
ghost use Rattle.schedule_text.specs.Fields.{Reads};
ghost use Rattle.journal_text.specs.Words.{chunk_verdict_text, input_word_text, match_text, reply_word_text, work_verdict_text};

use private_store::{ChunkVerdict, WorkVerdict};

/// What an input begins with, unless it is a session's.
#[derive(Clone, Copy, Debug, PartialEq, Eq)]
pub(crate) enum InputWord {
    Begin,
    Quota,
    End,
    Answer,
    Located,
    Chunk,
    Pull,
    NotHere,
    Received,
    Withdrawn,
}

impl InputWord {
    /// The word that the field is.
    pub(crate) fn read(field: &str) -> Option<InputWord>
        ensures { Reads result (λ word. input_word_text word ≡ field.now) }
    {
        match field {
            "begin" => Some(InputWord::Begin),
            "quota" => Some(InputWord::Quota),
            "end" => Some(InputWord::End),
            "answer" => Some(InputWord::Answer),
            "located" => Some(InputWord::Located),
            "chunk" => Some(InputWord::Chunk),
            "pull" => Some(InputWord::Pull),
            "nothere" => Some(InputWord::NotHere),
            "received" => Some(InputWord::Received),
            "withdrawn" => Some(InputWord::Withdrawn),
            _ => None,
        }
    }
}

/// What an answer begins with.
#[derive(Clone, Copy, Debug, PartialEq, Eq)]
pub(crate) enum ReplyWord {
    Ok,
    Placed,
    Got,
    Bytes,
    List,
    Usage,
    Refused,
}

impl ReplyWord {
    /// The word that the field is.
    pub(crate) fn read(field: &str) -> Option<ReplyWord>
        ensures { Reads result (λ word. reply_word_text word ≡ field.now) }
    {
        match field {
            "ok" => Some(ReplyWord::Ok),
            "placed" => Some(ReplyWord::Placed),
            "got" => Some(ReplyWord::Got),
            "bytes" => Some(ReplyWord::Bytes),
            "list" => Some(ReplyWord::List),
            "usage" => Some(ReplyWord::Usage),
            "refused" => Some(ReplyWord::Refused),
            _ => None,
        }
    }
}

/// What a device's answer was to its work: the verdict that the field is.
pub(crate) fn work_verdict(field: &str) -> Option<WorkVerdict>
    ensures { Reads result (λ verdict. work_verdict_text verdict ≡ field.now) }
{
    match field {
        "ok" => Some(WorkVerdict::Fine),
        "fail" => Some(WorkVerdict::Failed),
        "damage" => Some(WorkVerdict::Damaged),
        _ => None,
    }
}

/// What a chunk was to its fetch: the verdict that the field is.
pub(crate) fn chunk_verdict(field: &str) -> Option<ChunkVerdict>
    ensures { Reads result (λ verdict. chunk_verdict_text verdict ≡ field.now) }
{
    match field {
        "part" => Some(ChunkVerdict::Part),
        "whole" => Some(ChunkVerdict::Whole),
        "damaged" => Some(ChunkVerdict::Damaged),
        "ignored" => Some(ChunkVerdict::Ignored),
        _ => None,
    }
}

/// Whether a copy was there as a Pull asked for it: `match` or `other`.
pub(crate) fn matched(field: &str) -> Option<bool>
    ensures { Reads result (λ matched. match_text matched ≡ field.now) }
{
    match field {
        "match" => Some(true),
        "other" => Some(false),
        _ => None,
    }
}
