//! The frames of replies, against what they say.
ghost use Rattle.std.specs.Prelude.{◌≡◌, ◌<◌, ◌^◌, All, None, IfOk, IsTrue, nat_le};
ghost use Rattle.std.specs.List.{AllPass};
ghost use Rattle.private_store.specs.rules.Limits.{greatest_depth};
ghost use Rattle.wire_frames.specs.Replies.{IsGrantedItemBytes, IsOwnItemBytes};
ghost use Rattle.wire_frames.specs.Writing.{has_reply_frame};
ghost use Rattle.schedules.specs.Vectors.{IsReplyFrame};

use crate::digits::are_digits_of;
use crate::vectors::Fault;
use bytes::Bytes;
use journal_text::{Version, read_line};
use memory_growth::{OutOfMemory, text_of};
use obj_id::{GrantedItem, JobNo, OwnItem, Reply};
use private_store::StepAnswer;
use schedule_text::answer_text;
use schedule_text::fields::bytes;
use std::alloc::Global;
use wire_frames::encode_reply;

/// What differs between the digits of a reply's frame and its text. `None` only if the text is that of a reply to job 1
/// whose frame has these digits.
pub(crate) fn reply_fault(
    alloc: Global,
    digits: &str,
    text: &str,
) -> Result<Option<Fault>, OutOfMemory>
    ensures { IfOk result (λ fault. fault ≡ None → IsReplyFrame digits.now text.now) }
{
    let Some(reply) = reply_of(alloc, text)? else {
        return Ok(Some(Fault::Text))
    };
    told_fault(alloc, digits, text, &StepAnswer::Response(reply))
}

/// The same, of the answer that the text is to be.
fn told_fault(
    alloc: Global,
    digits: &str,
    text: &str,
    answer: &StepAnswer,
) -> Result<Option<Fault>, OutOfMemory>
    ensures { IfOk result (λ fault. fault ≡ None → IsReplyFrame digits.now text.now) }
{
    let StepAnswer::Response(reply) = answer else {
        return Ok(Some(Fault::Text))
    };
    if answer_text(alloc, JobNo(1), answer)?.as_str() != text || !is_framed(reply) {
        return Ok(Some(Fault::Text));
    }
    let frame = encode_reply(alloc, reply)?;
    if are_digits_of(alloc, digits, &frame)? {
        Ok(None)
    } else {
        Ok(Some(Fault::Digits))
    }
}

/// A reply that may have this text: it is printed again, so nothing is promised of it. Bytes are spelled as in a schedule,
/// all else also as in a journal.
fn reply_of(alloc: Global, text: &str) -> Result<Option<Reply<Bytes>>, OutOfMemory> {
    if let Some(digits) = text.strip_prefix("bytes ") {
        return Ok(bytes(alloc, digits)?.map(Reply::Bytes));
    }
    let line = text_of!(in alloc; "n0 j1 1 s1 usage = {text}")?;
    match read_line(alloc, line.as_str(), Version::Three)? {
        None => Ok(None),
        Some(entry) => Ok(without_bytes(entry.reply)),
    }
}

/// The reply as it stands, unless it has bytes or is none to a session.
fn without_bytes(reply: Reply<u64>) -> Option<Reply<Bytes>> {
    match reply {
        Reply::Ok => Some(Reply::Ok),
        Reply::Placed(offset, extent) => Some(Reply::Placed(offset, extent)),
        Reply::Got(length) => Some(Reply::Got(length)),
        Reply::List(own, granted) => Some(Reply::List(own, granted)),
        Reply::Usage(usage) => Some(Reply::Usage(usage)),
        Reply::Refused(refusal) => Some(Reply::Refused(refusal)),
        Reply::Bytes(_) | Reply::Work(_) | Reply::NoWork => None,
    }
}

/// Whether a reply is no longer than a store's replies are: then it has a frame.
fn is_framed(reply: &Reply<Bytes>) -> bool
    ensures { IsTrue result → IsTrue (has_reply_frame reply.now) }
{
    match reply {
        Reply::Bytes(bytes) => bytes.len() <= 65_536,
        Reply::List(own, granted) => is_list_framed(own.as_slice(), granted.as_slice()),
        Reply::Work(_) | Reply::NoWork => false,
        Reply::Ok | Reply::Placed(..) | Reply::Got(_) | Reply::Usage(_) | Reply::Refused(_) => true,
    }
}

/// The same, of a list.
#[tactic(auto, using(crate::proofs::Lists::list_framed))]
fn is_list_framed(own: &[OwnItem], granted: &[GrantedItem]) -> bool
    ensures { IsTrue result → IsTrue (has_reply_frame (Reply.List own.now granted.now)) }
{
    if own.len() > 1024 || granted.len() > 4032 {
        return false;
    }
    if !are_shallow(granted) {
        return false;
    }
    own_are_items(own);
    granted_are_items(granted);
    true
}

/// Does nothing: own items are those of a program.
fn own_are_items(items: &[OwnItem])
    ensures { All IsOwnItemBytes items.now }
{
    for item in items {
        let _bytes = item.id.to_bytes();
        fits(item.length);
    }
}

/// Does nothing: granted items are those of a program, if none is deeper than a store's are.
fn granted_are_items(items: &[GrantedItem])
    requires { AllPass (λ i. nat_le i.depth greatest_depth) items.now }
    ensures items { All IsGrantedItemBytes items.now }
    ensures shallow { AllPass (λ i. nat_le i.depth greatest_depth) items.now }
{
    for item in items {
        let _bytes = item.id.to_bytes();
        fits(item.length);
    }
}

/// Whether no granted item is deeper than a store's are.
fn are_shallow(items: &[GrantedItem]) -> bool
    ensures { IsTrue result → AllPass (λ i. nat_le i.depth greatest_depth) items.now }
{
    items.iter().all(|item| item.depth <= 3)
}

/// Does nothing: a number of 32 bits.
fn fits(length: u32)
    ensures { length < 2 ^ 32 }
{}
