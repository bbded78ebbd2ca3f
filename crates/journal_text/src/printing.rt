//! The line of an entry.
ghost use Rattle.std.specs.Prelude.{◌≡◌, ◌++◌, codes, decimal, IfOk};
ghost use Rattle.std.specs.String.{string_bytes};
ghost use Rattle.schedule_text.specs.Printing.{own_items_text};
ghost use Rattle.journal_text.specs.Printing.{address_text as address_text_lem, journal_answer_text, reply_text_without_payload, entry_text, first_answer_text, first_grant_text, first_grants_text};

use crate::entry::{Address, Entry, Version};
use crate::put_inputs::put_input;
use memory_growth::{OutOfMemory, text_of, texts};
use obj_id::{GrantedItem, JobNo, OwnItem, Reply};
use schedule_text::{list_text, placed_text, refusal_text, usage_text};
use std::alloc::Global;

/// The line of the entry in version 3, without its line feed. A Take has no line; of its answers the
/// word alone is written, which isn't read.
pub fn write_line(alloc: Global, entry: &Entry) -> Result<String, OutOfMemory>
    ensures { IfOk result (λ line. string_bytes line ≡ entry_text entry.now) }
{
    let job = entry.address.job;
    let answer = reply_text(alloc, job, &entry.reply)?;
    let mut line = address_text(alloc, entry.address)?;
    put_input(alloc, &mut line, &entry.input, job)?;
    text_of!(in alloc; "{line} = {answer}")
}

/// `nNODE jJOB K`.
fn address_text(alloc: Global, address: Address) -> Result<String, OutOfMemory>
    ensures { IfOk result (λ text. string_bytes text ≡ address_text_lem address) }
{
    let node = address.node;
    let job = address.job.0;
    let number = address.number;
    text_of!(in alloc; "n{node} j{job} {number}")
}

/// The text of an answer, with ids as the job names them.
fn reply_text(alloc: Global, job: JobNo, reply: &Reply<u64>) -> Result<String, OutOfMemory>
    ensures { IfOk result (λ text. string_bytes text ≡ reply_text_without_payload job.0 reply.now) }
{
    match reply {
        Reply::Ok => texts::from_str(alloc, "ok"),
        Reply::Placed(offset, extent) => placed_text(alloc, *offset, *extent),
        Reply::Got(length) => text_of!(in alloc; "got {length}"),
        Reply::Bytes(count) => text_of!(in alloc; "bytes #{count}"),
        Reply::List(own, granted) => list_text(alloc, job, own.as_slice(), granted.as_slice()),
        Reply::Usage(usage) => usage_text(alloc, *usage),
        Reply::Work(_) => texts::from_str(alloc, "work"),
        Reply::NoWork => texts::from_str(alloc, "none"),
        Reply::Refused(refusal) => refusal_text(alloc, *refusal),
    }
}

/// The text of an answer in a journal of this form, with ids as the job names them. Version 1 has no
/// depths of granted items.
pub fn write_answer(
    alloc: Global,
    job: JobNo,
    reply: &Reply<u64>,
    version: Version,
) -> Result<String, OutOfMemory>
    ensures { IfOk result (λ text. string_bytes text ≡ journal_answer_text version job.0 reply.now) }
{
    match version {
        Version::One => first_answer(alloc, job, reply),
        Version::Two | Version::Three => reply_text(alloc, job, reply),
    }
}

/// The same, in version 1.
fn first_answer(alloc: Global, job: JobNo, reply: &Reply<u64>) -> Result<String, OutOfMemory>
    ensures { IfOk result (λ text. string_bytes text ≡ first_answer_text job.0 reply.now) }
{
    match reply {
        Reply::List(own, granted) => first_list(alloc, job, own.as_slice(), granted.as_slice()),
        _ => reply_text(alloc, job, reply),
    }
}

/// The items of a list, in version 1.
fn first_list(
    alloc: Global,
    job: JobNo,
    own: &[OwnItem],
    granted: &[GrantedItem],
) -> Result<String, OutOfMemory>
    ensures { IfOk result (λ text. string_bytes text
        ≡ codes "list" ++ own_items_text job.0 own.now ++ first_grants_text job.0 granted.now) }
{
    let own = list_text(alloc, job, own, &[])?;
    let granted = first_grants(alloc, job, granted)?;
    text_of!(in alloc; "{own}{granted}")
}

/// The granted items without their depths, each after a space.
fn first_grants(alloc: Global, job: JobNo, items: &[GrantedItem]) -> Result<String, OutOfMemory>
    ensures { IfOk result (λ text. string_bytes text ≡ first_grants_text job.0 items.now) }
{
    let mut text = String::new(alloc);
    for item in items {
        let item = first_grant(alloc, job, item)?;
        texts::push(&mut text, ' ')?;
        texts::push_str(&mut text, &item)?;
    }
    Ok(text)
}

/// `ID:granted:LEN`.
fn first_grant(alloc: Global, job: JobNo, item: &GrantedItem) -> Result<String, OutOfMemory>
    ensures { IfOk result (λ text. string_bytes text ≡ first_grant_text job.0 item.now) }
{
    let id = item.id.write(alloc, job)?;
    let length = item.length;
    text_of!(in alloc; "{id}:granted:{length}")
}
