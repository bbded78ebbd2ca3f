//! The items of a list, as they are read.
ghost use Rattle.std.specs.Prelude.{◌≡◌, IfOk, map};
ghost use Rattle.schedule_text.specs.Fields.{Reads};
ghost use Rattle.schedule_text.specs.Printing.{kind_word, state_word};
ghost use Rattle.journal_text.specs.Each.{IsEach};
ghost use Rattle.journal_text.specs.Items.{IsFirstGrant, IsFirstGrantItem, IsGranted, IsGrantedItem, IsGrantItem, IsItem, IsItemOf, IsItemParts, IsListed, IsOwn, IsOwnItem, IsSorted};

use crate::entry::Version;
use crate::fields::positive;
use crate::locations::parts_of;
use memory_growth::OutOfMemory;
use obj_id::{CopyState, GrantedItem, ItemList, JobNo, Kind, OwnItem};
use schedule_text::fields::{number, object};
use std::alloc::Global;

/// An item of either half of a list.
#[derive(Clone, Copy, Debug, PartialEq, Eq)]
pub(crate) enum Item {
    Own(OwnItem),
    Granted(GrantedItem),
}

/// The items that fields spell, own ones first.
pub(crate) fn listed(
    alloc: Global,
    fields: &[&str],
    job: JobNo,
    version: Version,
) -> Result<Option<(ItemList<OwnItem>, ItemList<GrantedItem>)>, OutOfMemory>
    ensures { IfOk result (λ read. Reads read
        (IsListed version job.0 (map (λ field. field.now) fields.now))) }
{
    let Some(items) = items(alloc, fields, job, version)? else {
        return Ok(None)
    };
    sorted(alloc, items.as_slice())
}

/// An item of each field.
fn items(
    alloc: Global,
    fields: &[&str],
    job: JobNo,
    version: Version,
) -> Result<Option<ItemList<Item>>, OutOfMemory>
    ensures { IfOk result (λ items. Reads items
        (IsEach (IsItem version job.0) (map (λ field. field.now) fields.now))) }
{
    let mut items = ItemList::new(alloc);
    for field in fields {
        let Some(item) = one_item(alloc, field, job, version)? else {
            return Ok(None);
        };
        items.push(item)?;
    }
    Ok(Some(items))
}

/// The two halves of a list, in which no own item stands after a granted one.
fn sorted(
    alloc: Global,
    items: &[Item],
) -> Result<Option<(ItemList<OwnItem>, ItemList<GrantedItem>)>, OutOfMemory>
    ensures { IfOk result (λ read. Reads read (IsSorted items.now)) }
{
    let mut own = ItemList::new(alloc);
    let mut granted = ItemList::new(alloc);
    for item in items {
        match *item {
            Item::Own(item) => {
                if !granted.as_slice().is_empty() {
                    return Ok(None);
                }
                own.push(item)?;
            }
            Item::Granted(item) => granted.push(item)?,
        }
    }
    Ok(Some((own, granted)))
}

/// The item that a field spells.
fn one_item(
    alloc: Global,
    field: &str,
    job: JobNo,
    version: Version,
) -> Result<Option<Item>, OutOfMemory>
    ensures { IfOk result (λ item. Reads item (IsItem version job.0 field.now)) }
{
    let parts = parts_of(alloc, field)?;
    Ok(item_parts(&parts, job, version))
}

/// The item that the parts of a field spell: `granted` is no state.
fn item_parts(parts: &[&str], job: JobNo, version: Version) -> Option<Item>
    ensures { Reads result (IsItemParts version job.0 (map (λ part. part.now) parts.now)) }
{
    let [id, word, parts @ ..] = parts else {
        return None
    };
    item_of(id, word, parts, job, version)
}

/// The item that an id, a word and the parts after them spell.
fn item_of(id: &str, word: &str, parts: &[&str], job: JobNo, version: Version) -> Option<Item>
    ensures { Reads result (IsItemOf version job.0 id.now word.now (map (λ part. part.now) parts.now)) }
{
    if word == "granted" {
        granted(id, parts, job, version).map(Item::Granted)
    } else {
        own(id, word, parts, job).map(Item::Own)
    }
}

/// `KIND:LEN` after ID and STATE.
fn own(id: &str, state: &str, parts: &[&str], job: JobNo) -> Option<OwnItem>
    ensures { Reads result (IsOwn job.0 id.now state.now (map (λ part. part.now) parts.now)) }
{
    let [kind, length] = parts else { return None };
    own_item(id, state, kind, length, job)
}

/// An own item, by its parts.
fn own_item(name: &str, stated: &str, word: &str, bytes: &str, job: JobNo) -> Option<OwnItem>
    ensures { Reads result (IsOwnItem job.0 name.now stated.now word.now bytes.now) }
{
    let id = object(name, job)?;
    let state = state(stated)?;
    let kind = kind(word)?;
    let length = number(bytes)?;
    Some(OwnItem {
        id,
        state,
        kind,
        length,
    })
}

/// `LEN:DEPTH` after ID and `granted`. Version 1 has no depth there: it is 1.
fn granted(id: &str, parts: &[&str], job: JobNo, version: Version) -> Option<GrantedItem>
    ensures { Reads result (IsGranted version job.0 id.now (map (λ part. part.now) parts.now)) }
{
    match version {
        Version::One => first_grant(id, parts, job),
        Version::Two | Version::Three => grant(id, parts, job),
    }
}

/// `LEN` after ID and `granted`.
fn first_grant(name: &str, parts: &[&str], job: JobNo) -> Option<GrantedItem>
    ensures { Reads result (IsFirstGrant job.0 name.now (map (λ part. part.now) parts.now)) }
{
    let [bytes] = parts else { return None };
    first_grant_item(name, bytes, job)
}

/// `LEN:DEPTH` after ID and `granted`.
fn grant(name: &str, parts: &[&str], job: JobNo) -> Option<GrantedItem>
    ensures { Reads result (IsGrantItem job.0 name.now (map (λ part. part.now) parts.now)) }
{
    let [bytes, depth] = parts else { return None };
    granted_item(name, bytes, depth, job)
}

/// A granted item of depth 1, by its parts.
fn first_grant_item(name: &str, bytes: &str, job: JobNo) -> Option<GrantedItem>
    ensures { Reads result (IsFirstGrantItem job.0 name.now bytes.now) }
{
    let id = object(name, job)?;
    let length = number(bytes)?;
    Some(GrantedItem {
        id,
        length,
        depth: 1,
    })
}

/// A granted item, by its parts.
fn granted_item(name: &str, bytes: &str, deep: &str, job: JobNo) -> Option<GrantedItem>
    ensures { Reads result (IsGrantedItem job.0 name.now bytes.now deep.now) }
{
    let id = object(name, job)?;
    let length = number(bytes)?;
    let depth = positive(deep)?;
    Some(GrantedItem { id, length, depth })
}

/// The state that the text is.
fn state(text: &str) -> Option<CopyState>
    ensures { Reads result (λ state. state_word state ≡ text.now) }
{
    match text {
        "created" => Some(CopyState::Created),
        "sealed" => Some(CopyState::Sealed),
        "restoring" => Some(CopyState::Restoring),
        "fetching" => Some(CopyState::Fetching),
        "away" => Some(CopyState::Away),
        _ => None,
    }
}

/// The kind that the text is.
fn kind(text: &str) -> Option<Kind>
    ensures { Reads result (λ kind. kind_word kind ≡ text.now) }
{
    match text {
        "primary" => Some(Kind::Primary),
        "secondary" => Some(Kind::Secondary),
        _ => None,
    }
}
