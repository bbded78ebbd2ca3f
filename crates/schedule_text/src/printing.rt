//! The texts of answers.
ghost use Rattle.std.specs.Prelude.{◌≡◌, ◌++◌, codes, decimal, IfOk, OnOk};
ghost use Rattle.std.specs.String.{string_bytes};
ghost use Rattle.schedule_text.specs.Printing.{answer_text as answer_text_lem, bytes_text as bytes_text_lem, line_text, refusal_text as refusal_text_lem, reply_text as reply_text_lem, usage_text as usage_text_lem, work_text as work_text_lem, work_word as work_word_lem};

use crate::Prefix;
use crate::items::list_text;
use crate::prefixes::push_number;
use bytes::Bytes;
use memory_growth::{OutOfMemory, text_of, texts};
use obj_id::{JobNo, Refusal, Reply, Usage, Work, WorkKind};
use private_store::StepAnswer;
use std::alloc::Global;

/// The line of an answered step, with its line feed. A step that found no memory is printed as the
/// refusal `NoMemory`, as a response.
pub fn answer_line(
    alloc: Global,
    prefix: Prefix,
    answer: &StepAnswer,
) -> Result<String, OutOfMemory>
    ensures { IfOk result (λ line. string_bytes line ≡ line_text prefix answer.now) }
{
    let mut line = prefix.text(alloc)?;
    texts::push_str(&mut line, " ")?;
    push_answer(alloc, &mut line, prefix.speaker(), answer)?;
    texts::push_str(&mut line, "\n")?;
    Ok(line)
}

/// The text of an answer, with ids as the job names them.
pub fn answer_text(alloc: Global, job: JobNo, answer: &StepAnswer) -> Result<String, OutOfMemory>
    ensures { IfOk result (λ text. string_bytes text ≡ answer_text_lem job.0 answer.now) }
{
    let mut text = String::new(alloc);
    push_answer(alloc, &mut text, job, answer)?;
    Ok(text)
}

/// Adds the text of an answer.
fn push_answer(
    alloc: Global,
    text: &mut String,
    job: JobNo,
    answer: &StepAnswer,
) -> Result<(), OutOfMemory>
    ensures { OnOk result (string_bytes text.new ≡ string_bytes text.old ++ answer_text_lem job.0 answer.now) }
{
    match answer {
        StepAnswer::Response(reply) => push_reply(alloc, text, job, reply),
        StepAnswer::HandedOver(_) => texts::push_str(text, "ok"),
        StepAnswer::NoMessage => texts::push_str(text, "none"),
    }
}

/// Adds the text of a reply. The commonest ones take no memory of their own.
fn push_reply(
    alloc: Global,
    text: &mut String,
    job: JobNo,
    reply: &Reply<Bytes>,
) -> Result<(), OutOfMemory>
    ensures { OnOk result (string_bytes text.new ≡ string_bytes text.old ++ reply_text_lem job.0 reply.now) }
{
    match reply {
        Reply::Ok => texts::push_str(text, "ok"),
        Reply::Placed(offset, extent) => push_placed(text, *offset, *extent),
        Reply::Got(length) => push_got(text, *length),
        Reply::Bytes(bytes) => texts::push_str(text, &bytes_reply(alloc, bytes)?),
        Reply::List(own, granted) => {
            texts::push_str(
                text,
                &list_text(alloc, job, own.as_slice(), granted.as_slice())?,
            )
        }
        Reply::Usage(usage) => texts::push_str(text, &usage_text(alloc, *usage)?),
        Reply::Work(work) => texts::push_str(text, &work_text(alloc, work)?),
        Reply::NoWork => texts::push_str(text, "none"),
        Reply::Refused(refusal) => texts::push_str(text, &refusal_text(alloc, *refusal)?),
    }
}

/// `placed OFF EXT`.
pub fn placed_text(alloc: Global, offset: u32, extent: u32) -> Result<String, OutOfMemory>
    ensures { IfOk result (λ text. string_bytes text
        ≡ codes "placed " ++ decimal offset ++ codes " " ++ decimal extent) }
{
    let mut text = String::new(alloc);
    push_placed(&mut text, offset, extent)?;
    Ok(text)
}

/// Adds `placed OFF EXT`.
fn push_placed(text: &mut String, offset: u32, extent: u32) -> Result<(), OutOfMemory>
    ensures { OnOk result (string_bytes text.new
        ≡ string_bytes text.old ++ (codes "placed " ++ decimal offset ++ codes " " ++ decimal extent)) }
{
    texts::push_str(text, "placed ")?;
    push_number(text, offset)?;
    texts::push_str(text, " ")?;
    push_number(text, extent)
}

/// Adds `got LEN`.
fn push_got(text: &mut String, length: u32) -> Result<(), OutOfMemory>
    ensures { OnOk result (string_bytes text.new
        ≡ string_bytes text.old ++ (codes "got " ++ decimal length)) }
{
    texts::push_str(text, "got ")?;
    push_number(text, length)
}

/// `refused N Name`.
pub fn refusal_text(alloc: Global, refusal: Refusal) -> Result<String, OutOfMemory>
    ensures { IfOk result (λ text. string_bytes text ≡ refusal_text_lem refusal) }
{
    let number = refusal.number();
    let name = refusal.name();
    text_of!(in alloc; "refused {number} {name}")
}

/// `bytes HEX`, and `bytes -` for none.
fn bytes_reply(alloc: Global, bytes: &Bytes) -> Result<String, OutOfMemory>
    ensures { IfOk result (λ text. string_bytes text ≡ codes "bytes " ++ bytes_text_lem bytes.now) }
{
    if bytes.is_empty() {
        return texts::from_str(alloc, "bytes -");
    }
    let digits = texts::encode(alloc, bytes.as_slice())?;
    text_of!(in alloc; "bytes {digits}")
}

/// `usage` and the six numbers.
pub fn usage_text(alloc: Global, usage: Usage) -> Result<String, OutOfMemory>
    ensures { IfOk result (λ text. string_bytes text ≡ usage_text_lem usage) }
{
    let Usage {
        window,
        window_used,
        device,
        device_used,
        copies,
        works,
    } = usage;
    text_of!(in alloc; "usage {window} {window_used} {device} {device_used} {copies} {works}")
}

/// `work JOB NUMBER write LEN`, or `read`.
fn work_text(alloc: Global, work: &Work<Bytes>) -> Result<String, OutOfMemory>
    ensures { IfOk result (λ text. string_bytes text ≡ work_text_lem work.now) }
{
    let job = work.job.0;
    let number = work.number;
    let word = work_word(work.kind);
    let length = work.length;
    text_of!(in alloc; "work {job} {number} {word} {length}")
}

fn work_word(kind: WorkKind) -> &'static str
    ensures { result.now ≡ work_word_lem kind }
{
    match kind {
        WorkKind::Write => "write",
        WorkKind::Read => "read",
    }
}
