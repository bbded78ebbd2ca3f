//! What a copy is to the order of use and to a plan for room, and what is told of it after a change.
ghost use Rattle.std.specs.Prelude.{◌≡◌, Some, None, IfOk, IfErr, IfSome, IfNone, OnOk, OnErr, IsErrOf, IsOk};
ghost use Rattle.std.specs.Option.{option_and_then, option_copied};
ghost use Rattle.obj_id.specs.declared.refusals.Refusal.{Refusal};
ghost use Rattle.memory_growth.specs.declared.OutOfMemory.{OutOfMemory};
ghost use Rattle.obj_id.specs.declared.refusals.Failure.TheVariants.{Refused, Memory};
ghost use Rattle.private_store.specs.rules.Copies.{extent_of};
ghost use Rattle.row_copy.specs.CopyViews.{after_release, after_borrow};
ghost use Rattle.row_copy.specs.Checks.{release_check_of as release_check, borrow_check_of};
ghost use Rattle.row_copy.specs.Holding.{IsUnready, IsHoldRefused};
ghost use Rattle.job_row.specs.RowFacts.{row_facts_of};
ghost use Rattle.job_row.specs.Holding.{IsHeldWithInfo};
ghost use Rattle.job_row.specs.Dropping.{after_change as after_change_lem};

use lru_evictor::{CopyFacts, EvictionInfo};
use obj_id::{Extent, Failure, Refusal, TaskNo};
use row_copy::RowCopy;

/// A copy after one more hold of it.
#[derive(Clone, Copy, Drop)]
pub struct Held {
    /// The object's bytes.
    pub length: u32,
    /// Where it lies, and the classes of victims that it is in now.
    pub eviction_info: EvictionInfo,
}

/// A copy after a change of it.
#[derive(Clone, Copy, Drop)]
pub struct AfterChange {
    /// Where it lies, and the classes of victims that it is in now.
    pub eviction_info: EvictionInfo,
    /// Whether nothing keeps it any more: it is doomed, and neither held nor granted nor working.
    pub over: bool,
}

/// A copy after a change of it, where one that nothing keeps is removed.
#[derive(Drop)]
pub struct Settled {
    /// Where it lies, and the classes of victims that it is in now; nowhere and in none if it was removed.
    pub eviction_info: EvictionInfo,
    /// The copy, if it was removed.
    pub removed: Option<RowCopy>,
}

/// What a plan for room reads of the copy.
pub(crate) fn facts(copy: &RowCopy) -> CopyFacts
    ensures { result ≡ row_facts_of copy.now }
{
    CopyFacts {
        extent: copy.extent(),
        bytes: copy.rounded_length(),
        evictable: copy.is_evictable(),
        draining: copy.is_draining(),
        spillable: copy.is_spillable(),
    }
}

/// What the copy is after a change.
pub(crate) fn after_change(copy: &RowCopy) -> AfterChange
    ensures { result ≡ after_change_lem copy.now }
{
    AfterChange {
        eviction_info: facts(copy).eviction_info(),
        over: copy.is_over(),
    }
}

/// One more hold of the session, if the copy is sealed and not doomed, and what the copy is then. `None` if it isn't, and
/// then nothing changes. `TooMany` at 64 holds of all sessions; out of memory comes last, and a failure changes nothing.
pub(crate) fn hold(copy: &mut RowCopy, session: u32) -> Result<Option<Held>, Failure>
    ensures some { IfOk result (λ o. IfSome o (λ held. IsHeldWithInfo copy.old session held copy.new)) }
    ensures none { IfOk result (λ o. IfNone o (IsUnready copy.old copy.new)) }
    ensures refused { IfErr result (λ failure. IsHoldRefused copy.old failure copy.new) }
{
    let Some(length) = copy.hold(session)? else {
        return Ok(None);
    };
    Ok(Some(Held {
        length,
        eviction_info: facts(copy).eviction_info(),
    }))
}

/// One hold of the session less, and what the copy is then. `NotHeld` if it has none, and then nothing changes. Takes
/// no memory.
pub(crate) fn release(copy: &mut RowCopy, session: u32) -> Result<AfterChange, Refusal>
    ensures ok { OnOk result (copy.new ≡ after_release session copy.old) }
    ensures after { IfOk result (λ after. after ≡ after_change_lem (after_release session copy.old)) }
    ensures passed { IsOk result → release_check copy.old session ≡ None }
    ensures refused { (r : Refusal) → IsErrOf result r → release_check copy.old session ≡ Some r }
    ensures err { OnErr result (copy.new ≡ copy.old) }
{
    copy.release(session)?;
    Ok(after_change(copy))
}

/// The task borrows the copy, as the last one, and what the copy is then. `NotOwner` for a secondary, `Exists` if the task borrows it
/// already, `TooMany` at 64 borrowers; out of memory comes last, and a failure changes nothing.
pub(crate) fn borrow(copy: &mut RowCopy, task: TaskNo) -> Result<AfterChange, Failure>
    ensures ok { OnOk result (copy.new ≡ after_borrow task copy.old) }
    ensures after { IfOk result (λ after. after ≡ after_change_lem (after_borrow task copy.old)) }
    ensures passed { IsOk result → borrow_check_of copy.old task ≡ None }
    ensures refused { (r : Refusal) → IsErrOf result (Refused r) → borrow_check_of copy.old task ≡ Some r }
    ensures memory { (m : OutOfMemory) → IsErrOf result (Memory m) → borrow_check_of copy.old task ≡ None }
    ensures err { OnErr result (copy.new ≡ copy.old) }
{
    copy.borrow(task)?;
    Ok(after_change(copy))
}

/// Where the copy lies in the window, if there is one and it is resident.
pub(crate) fn extent_of_any(copy: Option<&RowCopy>) -> Option<Extent>
    ensures { result ≡ option_and_then (λ k. extent_of k.copy) (option_copied copy.entry) }
{
    copy?.extent()
}
