//! Lines of a saved journal.
ghost use Rattle.std.specs.Prelude.{◌≡◌, ◌≢◌, ℕ, List, ◌++◌, codes, IfOk, MatchOption, map};
ghost use Rattle.schedule_text.specs.Fields.{Reads};
ghost use Rattle.std.specs.String.{string_bytes};
ghost use Rattle.journal_text.specs.Reading.{answer_in as answer_in_lem, answer_part, IsEntry, IsEntryAt, IsEntryLine, IsHalves, IsInputRead, IsSpaced, cut_at_equals as cut_at_equals_lem, head_text, is_fitting as is_fitting_lem, is_outcome as is_outcome_lem};

use crate::entry::{Address, Entry, LineInput, Version};
use crate::fields::address;
use crate::inputs::input;
use crate::replies::reply;
use memory_growth::{OutOfMemory, lists, texts};
use obj_id::{JobNo, Reply};
use schedule_text::fields_of;
use std::alloc::Global;

/// The form of the journal whose first line this is, without its line feed. `None` if it is the first
/// line of none.
pub fn read_head(text: &str) -> Option<Version>
    ensures { Reads result (λ version. head_text version ≡ text.now) }
{
    match text {
        "journal 1" => Some(Version::One),
        "journal 2" => Some(Version::Two),
        "journal 3" => Some(Version::Three),
        _ => None,
    }
}

/// The entry that a line spells in a journal of this form. The text is the line's without its line
/// feed. `None` if it isn't an entry. Whether its number is the next one is seen from the lines before.
pub fn read_line(alloc: Global, text: &str, version: Version) -> Result<Option<Entry>, OutOfMemory>
    ensures { IfOk result (λ entry. Reads entry (IsEntryLine version text.now)) }
{
    let halves = cut_at_equals(alloc, text)?;
    halves_entry(alloc, &halves, version)
}

/// The answer, as it stands in a line that spells an entry: what comes after the equals sign and a space. Nothing if the line
/// has no such part.
pub fn answer_of(alloc: Global, text: &str) -> Result<String, OutOfMemory>
    ensures { IfOk result (λ answer. string_bytes answer ≡ answer_part text.now) }
{
    let halves = cut_at_equals(alloc, text)?;
    texts::from_str(alloc, answer_in(&halves))
}

/// What comes after the equals sign and a space, if there is one equals sign.
fn answer_in<'a>(halves: &[&'a str]) -> &'a str
    ensures { result.now ≡ answer_in_lem (map (λ half. half.now) halves.now) }
{
    let [_, back] = halves else { return "" };
    match after_space(back) {
        Some(answer) => answer,
        None => "",
    }
}

/// What stands between the equals signs.
fn cut_at_equals(alloc: Global, text: &str) -> Result<Vec<&str>, OutOfMemory>
    ensures { IfOk result (λ parts.
        map (λ part. part.now) parts.items ≡ cut_at_equals_lem text.now) }
{
    lists::collected(alloc, text.split('='))
}

/// The entry of an input and its answer, which stand round the one equals sign.
fn halves_entry(
    alloc: Global,
    halves: &[&str],
    version: Version,
) -> Result<Option<Entry>, OutOfMemory>
    ensures { IfOk result (λ entry. Reads entry
        (IsHalves version (map (λ half. half.now) halves.now))) }
{
    let [front, back] = halves else {
        return Ok(None)
    };
    spaced_entry(alloc, front, back, version)
}

/// The same, with the spaces round the equals sign.
fn spaced_entry(
    alloc: Global,
    front: &str,
    back: &str,
    version: Version,
) -> Result<Option<Entry>, OutOfMemory>
    ensures { IfOk result (λ entry. Reads entry (IsSpaced version front.now back.now)) }
{
    let Some(input) = before_space(front) else {
        return Ok(None)
    };
    let Some(answer) = after_space(back) else {
        return Ok(None)
    };
    let fields = fields_of(alloc, input)?;
    let answer = fields_of(alloc, answer)?;
    entry(alloc, &fields, &answer, version)
}

/// What stands before a space at the end.
fn before_space(text: &str) -> Option<&str>
    ensures { MatchOption result ((front : List ℕ) → text.now ≢ front ++ codes " ")
        (λ front. text.now ≡ front.now ++ codes " ") }
{
    text.strip_suffix(' ')
}

/// What stands after a space at the beginning.
fn after_space(text: &str) -> Option<&str>
    ensures { MatchOption result ((rest : List ℕ) → text.now ≢ codes " " ++ rest)
        (λ rest. text.now ≡ codes " " ++ rest.now) }
{
    text.strip_prefix(' ')
}

/// The entry that the fields of an input and those of its answer spell.
fn entry(
    alloc: Global,
    fields: &[&str],
    answer: &[&str],
    version: Version,
) -> Result<Option<Entry>, OutOfMemory>
    ensures { IfOk result (λ entry. Reads entry (IsEntry version
        (map (λ field. field.now) fields.now) (map (λ field. field.now) answer.now))) }
{
    let [node, job, number, fields @ ..] = fields else {
        return Ok(None)
    };
    match address(node, job, number) {
        None => Ok(None),
        Some(address) => entry_at(alloc, address, fields, answer, version),
    }
}

/// The entry that stands there, by the fields after its address and those of its answer.
fn entry_at(
    alloc: Global,
    address: Address,
    fields: &[&str],
    answer: &[&str],
    version: Version,
) -> Result<Option<Entry>, OutOfMemory>
    ensures { IfOk result (λ entry. Reads entry (IsEntryAt version address
        (map (λ field. field.now) fields.now) (map (λ field. field.now) answer.now))) }
{
    match said(alloc, fields, answer, address.job, version)? {
        None => Ok(None),
        Some((input, reply)) => Ok(Some(Entry {
            address,
            input,
            reply,
        })),
    }
}

/// What the job was told and what it was answered.
fn said(
    alloc: Global,
    fields: &[&str],
    answer: &[&str],
    job: JobNo,
    version: Version,
) -> Result<Option<(LineInput, Reply<u64>)>, OutOfMemory>
    ensures { IfOk result (λ said. Reads said (IsInputRead version job.0
        (map (λ field. field.now) fields.now) (map (λ field. field.now) answer.now))) }
{
    let Some(input) = input(alloc, fields, job, version)? else {
        return Ok(None)
    };
    let Some(reply) = reply(alloc, answer, job, version)? else {
        return Ok(None)
    };
    if is_fitting(&input, &reply) {
        Ok(Some((input, reply)))
    } else {
        Ok(None)
    }
}

/// Whether an input may have such an answer: what isn't a command is answered `ok` or refused.
fn is_fitting(input: &LineInput, reply: &Reply<u64>) -> bool
    ensures { result ≡ is_fitting_lem input.now reply.now }
{
    match input {
        LineInput::Call(..) => true,
        LineInput::Begin(_)
        | LineInput::Requota(_)
        | LineInput::End
        | LineInput::Answer(..)
        | LineInput::Located { .. }
        | LineInput::Chunk { .. }
        | LineInput::Pull { .. }
        | LineInput::NotHere { .. }
        | LineInput::Received { .. }
        | LineInput::Withdrawn { .. } => is_outcome(reply),
    }
}

/// Whether the answer is `ok` or a refusal.
fn is_outcome(reply: &Reply<u64>) -> bool
    ensures { result ≡ is_outcome_lem reply.now }
{
    matches!(reply, Reply::Ok | Reply::Refused(_))
}
