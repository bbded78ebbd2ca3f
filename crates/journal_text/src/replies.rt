//! What the fields of an answer say.
ghost use Rattle.std.specs.Prelude.{IfOk, map};
ghost use Rattle.schedule_text.specs.Fields.{Reads};
ghost use Rattle.journal_text.specs.Replies.{IsCountAlone, IsDevices, IsListReply, IsNumberAlone, IsPair, IsPlaced, IsRefusal, IsRefused, IsReply, IsReplyOf, IsUsage, IsWindows, IsWorks};

use crate::entry::Version;
use crate::fields::count;
use crate::items::listed;
use crate::words::ReplyWord;
use memory_growth::OutOfMemory;
use obj_id::{JobNo, Refusal, Reply, Usage};
use schedule_text::fields::{alone, long_number, number};
use std::alloc::Global;

/// The answer that fields spell, if the job speaks.
pub(crate) fn reply(
    alloc: Global,
    fields: &[&str],
    job: JobNo,
    version: Version,
) -> Result<Option<Reply<u64>>, OutOfMemory>
    ensures { IfOk result (λ reply. Reads reply
        (IsReply version job.0 (map (λ field. field.now) fields.now))) }
{
    let [first, fields @ ..] = fields else {
        return Ok(None)
    };
    match ReplyWord::read(first) {
        None => Ok(None),
        Some(word) => reply_of(alloc, word, fields, job, version),
    }
}

/// The answer that a word and the fields after it spell.
fn reply_of(
    alloc: Global,
    word: ReplyWord,
    fields: &[&str],
    job: JobNo,
    version: Version,
) -> Result<Option<Reply<u64>>, OutOfMemory>
    ensures { IfOk result (λ reply. Reads reply
        (IsReplyOf version job.0 word (map (λ field. field.now) fields.now))) }
{
    match word {
        ReplyWord::Ok => Ok(alone(fields, Reply::Ok)),
        ReplyWord::Placed => Ok(placed(fields).map(|(offset, extent)| Reply::Placed(
            offset, extent,
        ))),
        ReplyWord::Got => Ok(number_alone(fields).map(Reply::Got)),
        ReplyWord::Bytes => Ok(count_alone(fields).map(Reply::Bytes)),
        ReplyWord::List => list_reply(alloc, fields, job, version),
        ReplyWord::Usage => Ok(usage(fields).map(Reply::Usage)),
        ReplyWord::Refused => Ok(refused(fields).map(Reply::Refused)),
    }
}

/// `OFF EXT`.
fn placed(fields: &[&str]) -> Option<(u32, u32)>
    ensures { Reads result (IsPlaced (map (λ field. field.now) fields.now)) }
{
    let [offset, extent] = fields else {
        return None
    };
    Some((number(offset)?, number(extent)?))
}

/// One number, and nothing else.
fn number_alone(fields: &[&str]) -> Option<u32>
    ensures { Reads result (IsNumberAlone (map (λ field. field.now) fields.now)) }
{
    let [field] = fields else { return None };
    number(field)
}

/// `#N`, and nothing else.
fn count_alone(fields: &[&str]) -> Option<u64>
    ensures { Reads result (IsCountAlone (map (λ field. field.now) fields.now)) }
{
    let [field] = fields else { return None };
    count(field)
}

/// The list that fields spell.
fn list_reply(
    alloc: Global,
    fields: &[&str],
    job: JobNo,
    version: Version,
) -> Result<Option<Reply<u64>>, OutOfMemory>
    ensures { IfOk result (λ reply. Reads reply
        (IsListReply version job.0 (map (λ field. field.now) fields.now))) }
{
    match listed(alloc, fields, job, version)? {
        None => Ok(None),
        Some((own, granted)) => Ok(Some(Reply::List(own, granted))),
    }
}

/// The six numbers.
fn usage(fields: &[&str]) -> Option<Usage>
    ensures { Reads result (IsUsage (map (λ field. field.now) fields.now)) }
{
    let (window, (device, work)) = windows(fields)?;
    Some(Usage {
        window: window.0,
        window_used: window.1,
        device: device.0,
        device_used: device.1,
        copies: work.0,
        works: work.1,
    })
}

/// The window and what is used of it, and the four numbers after them.
fn windows(fields: &[&str]) -> Option<((u64, u64), ((u64, u64), (u64, u64)))>
    ensures { Reads result (IsWindows (map (λ field. field.now) fields.now)) }
{
    let [window, used, fields @ ..] = fields else {
        return None
    };
    Some((pair(window, used)?, devices(fields)?))
}

/// The device bytes and what is used of them, and the two numbers after them.
fn devices(fields: &[&str]) -> Option<((u64, u64), (u64, u64))>
    ensures { Reads result (IsDevices (map (λ field. field.now) fields.now)) }
{
    let [device, used, fields @ ..] = fields else {
        return None
    };
    Some((pair(device, used)?, works(fields)?))
}

/// The numbers of copies and of works.
fn works(fields: &[&str]) -> Option<(u64, u64)>
    ensures { Reads result (IsWorks (map (λ field. field.now) fields.now)) }
{
    let [copies, works] = fields else { return None };
    pair(copies, works)
}

/// Two numbers, each in its field.
fn pair(first: &str, second: &str) -> Option<(u64, u64)>
    ensures { Reads result (IsPair first.now second.now) }
{
    Some((long_number(first)?, long_number(second)?))
}

/// `N Name`.
fn refused(fields: &[&str]) -> Option<Refusal>
    ensures { Reads result (IsRefused (map (λ field. field.now) fields.now)) }
{
    let [digits, name] = fields else { return None };
    refusal(digits, name)
}

/// The refusal whose number and name these are, if they belong together.
fn refusal(digits: &str, name: &str) -> Option<Refusal>
    ensures { Reads result (IsRefusal digits.now name.now) }
{
    let refusal = Refusal::from_name(name)?;
    let number = number(digits)?;
    if number == u32::from(refusal.number()) {
        Some(refusal)
    } else {
        None
    }
}
