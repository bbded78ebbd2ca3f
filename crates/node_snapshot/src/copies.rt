//! The copies of a row without their bytes.
ghost use Rattle.std.specs.Prelude.{◌≡◌, IfOk, option_map};
ghost use Rattle.std.specs.Option.{option_copied};
ghost use Rattle.plain_store.specs.Parts.{plain_phase_of};
ghost use Rattle.row_copy.specs.CopyViews.{store_fetch_of};
ghost use Rattle.job_row.specs.Row.{copies_of};

use fetch_core::{FetchIn, Stage};
use job_row::Copies;
use memory_growth::{OutOfMemory, lists};
use obj_id::ObjectId;
use plain_store::{FetchPhase, PlainCopy, PlainFetch, copies_by_id};
use row_copy::RowCopy;
use std::alloc::Global;
use std::collections::BTreeMap;

/// The copies without their bytes. Takes a walk over them, a sort, and memory for each.
pub(crate) fn plain_copies(
    alloc: Global,
    copies: &Copies,
) -> Result<BTreeMap<ObjectId, PlainCopy>, OutOfMemory>
    ensures { IfOk result (λ plain. plain.entries ≡ copies_of copies.now) }
{
    let items = copies.items(alloc)?;
    let mut plain = Vec::new(alloc);
    for item in items.as_slice() {
        if let Some(copy) = copies.get(&item.id) {
            lists::push(&mut plain, (item.id, plain_copy(alloc, copy)?))?;
        }
    }
    copies_by_id(alloc, plain)
}

/// The copy without its bytes. Takes memory for its borrowers, its holds and the chunks that are missing.
fn plain_copy(alloc: Global, copy: &RowCopy) -> Result<PlainCopy, OutOfMemory>
    ensures { IfOk result (λ plain. plain ≡ copy.now.copy) }
{
    let pins = copy.pins();
    let borrowers = pins.borrowers(alloc)?;
    let holds = pins.holds(alloc)?;
    let fetch = plain_fetch(alloc, copy.fetch())?;
    Ok(PlainCopy {
        state: copy.state(),
        kind: copy.kind(),
        length: copy.length(),
        offset: copy.offset(),
        pinned: pins.is_pinned(),
        borrowers: borrowers.into_vec(),
        holds: holds.into_vec(),
        backed: copy.backed(),
        doomed: copy.doomed(),
        fault: copy.fault(),
        fetch,
    })
}

/// How far the fetch is, if there is one.
fn plain_fetch(alloc: Global, fetch: Option<&FetchIn>) -> Result<Option<PlainFetch>, OutOfMemory>
    ensures { IfOk result (λ plain. plain ≡ option_map store_fetch_of (option_copied fetch.entry)) }
{
    let Some(fetch) = fetch else {
        return Ok(None);
    };
    let phase = phase(alloc, fetch)?;
    Ok(Some(PlainFetch {
        number: fetch.number(),
        phase,
    }))
}

/// The fetch's phase.
fn phase(alloc: Global, fetch: &FetchIn) -> Result<FetchPhase, OutOfMemory>
    ensures { IfOk result (λ phase. plain_phase_of phase ≡ fetch.now.phase) }
{
    match fetch.stage() {
        Stage::Locating => Ok(FetchPhase::Locating),
        Stage::Sized(source) => Ok(FetchPhase::Sized(source)),
        Stage::Pulling(source) => {
            let missing = lists::copied(alloc, fetch.missing())?;
            Ok(FetchPhase::Pulling(source, missing))
        }
        Stage::Failed(fault) => Ok(FetchPhase::Failed(fault)),
    }
}
