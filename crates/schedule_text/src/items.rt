//! The items of a list.
ghost use Rattle.std.specs.Prelude.{◌≡◌, ◌++◌, codes, decimal, IfOk};
ghost use Rattle.std.specs.String.{string_bytes};
ghost use Rattle.schedule_text.specs.Printing.{granted_item_text, granted_items_text, kind_word as kind_word_lem, own_item_text, own_items_text, state_word as state_word_lem};

use memory_growth::{OutOfMemory, text_of, texts};
use obj_id::{CopyState, GrantedItem, JobNo, Kind, OwnItem};
use std::alloc::Global;

/// `list`, then each item after a space, with ids as the job names them.
pub fn list_text(
    alloc: Global,
    job: JobNo,
    own: &[OwnItem],
    granted: &[GrantedItem],
) -> Result<String, OutOfMemory>
    ensures { IfOk result (λ text. string_bytes text
        ≡ codes "list" ++ own_items_text job.0 own.now ++ granted_items_text job.0 granted.now) }
{
    let own = own_items(alloc, job, own)?;
    let granted = granted_items(alloc, job, granted)?;
    text_of!(in alloc; "list{own}{granted}")
}

/// The job's own items, each after a space.
fn own_items(alloc: Global, job: JobNo, items: &[OwnItem]) -> Result<String, OutOfMemory>
    ensures { IfOk result (λ text. string_bytes text ≡ own_items_text job.0 items.now) }
{
    let mut text = String::new(alloc);
    for item in items {
        let item = own_item(alloc, job, item)?;
        texts::push(&mut text, ' ')?;
        texts::push_str(&mut text, &item)?;
    }
    Ok(text)
}

/// The items granted to the job, each after a space.
fn granted_items(alloc: Global, job: JobNo, items: &[GrantedItem]) -> Result<String, OutOfMemory>
    ensures { IfOk result (λ text. string_bytes text ≡ granted_items_text job.0 items.now) }
{
    let mut text = String::new(alloc);
    for item in items {
        let item = granted_item(alloc, job, item)?;
        texts::push(&mut text, ' ')?;
        texts::push_str(&mut text, &item)?;
    }
    Ok(text)
}

/// `ID:STATE:KIND:LEN`.
fn own_item(alloc: Global, job: JobNo, item: &OwnItem) -> Result<String, OutOfMemory>
    ensures { IfOk result (λ text. string_bytes text ≡ own_item_text job.0 item.now) }
{
    let id = item.id.write(alloc, job)?;
    let state = state_word(item.state);
    let kind = kind_word(item.kind);
    let length = item.length;
    text_of!(in alloc; "{id}:{state}:{kind}:{length}")
}

/// `ID:granted:LEN:DEPTH`.
fn granted_item(alloc: Global, job: JobNo, item: &GrantedItem) -> Result<String, OutOfMemory>
    ensures { IfOk result (λ text. string_bytes text ≡ granted_item_text job.0 item.now) }
{
    let id = item.id.write(alloc, job)?;
    let length = item.length;
    let depth = item.depth;
    text_of!(in alloc; "{id}:granted:{length}:{depth}")
}

fn state_word(state: CopyState) -> &'static str
    ensures { result.now ≡ state_word_lem state }
{
    match state {
        CopyState::Created => "created",
        CopyState::Sealed => "sealed",
        CopyState::Restoring => "restoring",
        CopyState::Fetching => "fetching",
        CopyState::Away => "away",
    }
}

fn kind_word(kind: Kind) -> &'static str
    ensures { result.now ≡ kind_word_lem kind }
{
    match kind {
        Kind::Primary => "primary",
        Kind::Secondary => "secondary",
    }
}
