//! What a device worker is given of a work, and what its answer does to the row.
ghost use Rattle.std.specs.Prelude.{◌≡◌, ◌==◌, ℕ, [], true, false, not, Some, None, List, filter, find, take, unwrap_or, if◌then◌else◌, IfOk, IfSome, IsOk};
ghost use Rattle.obj_id.specs.declared.commands.Reply.TheVariants as reply;
ghost use Rattle.obj_id.specs.declared.ids.JobNo.{JobNo};
ghost use Rattle.obj_id.specs.declared.refusals.Refusal.{Refusal};
ghost use Rattle.obj_id.specs.declared.refusals.Refusal.TheVariants.{Stale};
ghost use Rattle.obj_id.specs.declared.works.Extent.{Extent};
ghost use Rattle.private_store.specs.declared.inputs.Input.TheVariants as input;
ghost use Rattle.obj_id.specs.declared.works.WorkKind.TheVariants.{Read};
ghost use Rattle.private_store.specs.rules.Tables.{at};
ghost use Rattle.private_store.specs.rules.Copies.{extent_of};
ghost use Rattle.private_store.specs.laws.Invariants.{is_restoring};
ghost use Rattle.private_store.specs.rules.Contents.{Contents, work_verdict, write_verdict};
ghost use Rattle.private_store.specs.rules.Grants.{StandingGrant};
ghost use Rattle.spill_work.specs.Line.{same_work_job, is_at, IsSameFor, shown, finish_check};
ghost use Rattle.obj_id.specs.Works.{is_write};
ghost use Rattle.row_copy.specs.Answering.{is_in_work, work_verdict_of, view_read_verdict};
ghost use Rattle.job_row.specs.Answering.{written_row, read_row};
ghost use Rattle.object_state.specs.Laws.{has_failed};
ghost use Rattle.job_region.specs.Region.{region_bytes_at as placed_bytes};
ghost use Rattle.row_commands.specs.Handed.{row_work_of};
ghost use Rattle.row_copy.specs.CopyViews.{CopyView};
ghost use Rattle.row_steps.specs.Outcomes.{row_given_of};
ghost use Rattle.job_row.specs.Row.{place_of, ArePlaced};
ghost use Rattle.row_steps.specs.Shown.{seen, only, IsShown, RowStep};
ghost use Rattle.row_copy.specs.Usages.{is_spilling};
ghost use Rattle.row_steps.specs.Beside.{SharedTables, beside_of};
ghost use Rattle.row_commands.specs.EndedWorks.{ended_row};

use bytes::Bytes;
use job_row::JobRow;
use memory_growth::OutOfMemory;
use obj_id::{
    CopyState, DeviceAnswer, DeviceKey, ItemList, ObjectId, Refusal, Reply, Work, WorkKind,
};
use private_store::{Fault, WorkVerdict};
use row_copy::RowCopy;
use row_steps::RowOutcome;
use spill_work::{IoRequest, Works};
use std::alloc::Global;

/// What the answer to a work gave, and what it was to the work.
#[derive(Drop)]
pub struct Answered {
    pub outcome: RowOutcome,
    pub verdict: WorkVerdict,
}

/// Finish: a device answered the work of this number. The write of a copy backs it, unless it failed, which the next
/// one that waits for room is answered; the read of a copy seals it again, if it gave the sealed bytes, and otherwise the copy
/// is away with a fault to tell of. A doomed copy that nothing else keeps is then removed. `Stale` if nobody has taken
/// such a work, and then nothing changes. Takes no memory; hashes the bytes once, if
/// their digest isn't known.
pub fn finish(
    row: &mut JobRow,
    alloc: Global,
    works: &mut Works,
    number: u64,
    answer: &DeviceAnswer,
) -> Answered
    ensures step { finish_check works.old (record { 0 = row.old.job }) number ≡ None → (node : ℕ) (grants : List StandingGrant) (bytes : ObjectId → List ℕ) (contents : Contents) → IsShown row.old (beside_of works.old grants bytes row.old.job) contents
        → RowStep node row.old (beside_of works.old grants bytes row.old.job) contents (input.Answer number answer.now) (row_given_of result.outcome) row.new (beside_of works.new grants bytes row.old.job) }
    ensures verdict { finish_check works.old (record { 0 = row.old.job }) number ≡ None → (grants : List StandingGrant) (bytes : ObjectId → List ℕ) (contents : Contents) → IsShown row.old (beside_of works.old grants bytes row.old.job) contents
        → result.verdict ≡ work_verdict (seen row.old (beside_of works.old grants bytes row.old.job) contents) number answer.now }
    ensures line { finish_check works.old (record { 0 = row.old.job }) number ≡ None → works.new ≡ record works.old { works = filter (λ work. not (is_at (record { 0 = row.old.job }) number work)) works.old.works } }
    ensures others { (other : JobNo) → same_work_job (record { 0 = row.old.job }) other ≡ false → IsSameFor other works.old works.new }
    ensures stale { (r : Refusal) → finish_check works.old (record { 0 = row.old.job }) number ≡ Some r → row_given_of result.outcome ≡ only (reply.Refused Stale) }
    ensures same { (r : Refusal) → finish_check works.old (record { 0 = row.old.job }) number ≡ Some r → row.new ≡ row.old }
    ensures works { (r : Refusal) → finish_check works.old (record { 0 = row.old.job }) number ≡ Some r → works.new ≡ works.old }
    ensures silent { result.outcome.messages ≡ [] }
{
    match works.finish(row.job(), number) {
        Err(_) => Answered {
            outcome: RowOutcome::only(alloc, Reply::Refused(Refusal::Stale)),
            verdict: WorkVerdict::Failed,
        },
        Ok(asked) => {
            let verdict = end_work(row, &asked, answer);
            let over = row.copies().is_over(&asked.id);
            let erased = row.settle(&asked.id, over);
            let outcome = RowOutcome::done(ItemList::new(alloc), erased);
            Answered { outcome, verdict }
        }
    }
}

/// What a worker is given of a work: its key, which is that of the write that backed the copy if it is a read, the
/// length, and a write's bytes. `None` if its copy isn't there. The error is out of memory, which a read never is.
pub fn work(
    row: &JobRow,
    alloc: Global,
    asked: &IoRequest,
) -> Result<Option<Work<Bytes>>, OutOfMemory>
    ensures ok { IfOk result (λ work. (beside : SharedTables) (contents : Contents) → asked.now.job.0 ≡ row.now.job → IsShown row.now beside contents → find (λ w. w.number == asked.now.number) beside.works ≡ Some (shown asked.now)
        → work ≡ row_work_of row.now.job asked.now.number (seen row.now beside contents)) }
    ensures job { IfOk result (λ work. IfSome work (λ w. w.job ≡ asked.now.job)) }
    ensures number { IfOk result (λ work. IfSome work (λ w. w.number ≡ asked.now.number)) }
    ensures without_memory { asked.now.kind ≡ Read → IsOk result }
{
    let Some(copy) = row.copies().get(&asked.id) else {
        return Ok(None);
    };
    Ok(Some(Work {
        job: asked.job,
        number: asked.number,
        kind: asked.kind,
        key: DeviceKey {
            job: asked.job,
            number: key_number(copy, asked),
        },
        length: copy.length(),
        payload: payload(row, alloc, asked)?,
    }))
}

/// A write's bytes, and nothing for a read, which takes no memory.
fn payload(row: &JobRow, alloc: Global, asked: &IoRequest) -> Result<Option<Bytes>, OutOfMemory>
    ensures ok { IfOk result (λ payload. (k : CopyView) (e : Extent) → at row.now.copies asked.now.id ≡ Some k → extent_of k.copy ≡ Some e
        → payload ≡ (if is_write asked.now.kind then Some (take k.copy.length (placed_bytes e row.now.window.placed)) else None)) }
    ensures without_memory { asked.now.kind ≡ Read → IsOk result }
{
    match asked.kind {
        WorkKind::Read => Ok(None),
        WorkKind::Write => Ok(Some(row.lent(&asked.id).whole(alloc)?)),
    }
}

/// The work of a copy ended, if one of its kind is in flight for it. Answers what the answer was to it. Takes no memory.
fn end_work(row: &mut JobRow, asked: &IoRequest, answer: &DeviceAnswer) -> WorkVerdict
    ensures row { (k : CopyView) (e : Extent) → at row.old.copies asked.now.id ≡ Some k → extent_of k.copy ≡ Some e → is_in_work asked.now.kind k ≡ true → row.new ≡ ended_row asked.now e k answer.now row.old }
    ensures verdict { (k : CopyView) → at row.old.copies asked.now.id ≡ Some k → is_in_work asked.now.kind k ≡ true → result ≡ work_verdict_of asked.now.kind k answer.now }
    ensures placed { ArePlaced row.old.window.placed (place_of row.old.copies) }
{
    match asked.kind {
        WorkKind::Write => end_write(row, &asked.id, asked.number, answer),
        WorkKind::Read => end_read(row, &asked.id, answer),
    }
}

/// The write of a copy under this number ended, if there is one. Takes no memory.
fn end_write(row: &mut JobRow, id: &ObjectId, number: u64, answer: &DeviceAnswer) -> WorkVerdict
    ensures row { (k : CopyView) → at row.old.copies id.now ≡ Some k → is_spilling k ≡ true → row.new ≡ written_row number (has_failed (write_verdict answer.now)) row.old id.now }
    ensures verdict { (k : CopyView) → at row.old.copies id.now ≡ Some k → is_spilling k ≡ true → result ≡ write_verdict answer.now }
    ensures placed { ArePlaced row.old.window.placed (place_of row.old.copies) }
{
    let Some(copy) = row.copies().get(id) else {
        return WorkVerdict::Failed;
    };
    if !copy.is_spilling() {
        return WorkVerdict::Failed;
    }
    match answer {
        DeviceAnswer::Failed => {
            row.end_spill(id, number, true);
            WorkVerdict::Failed
        }
        DeviceAnswer::Done | DeviceAnswer::Bytes(_) => {
            row.end_spill(id, number, false);
            WorkVerdict::Fine
        }
    }
}

/// The read of a copy ended, if it is being read back. Takes no memory.
fn end_read(row: &mut JobRow, id: &ObjectId, answer: &DeviceAnswer) -> WorkVerdict
    ensures row { (k : CopyView) (e : Extent) → at row.old.copies id.now ≡ Some k → extent_of k.copy ≡ Some e → is_restoring k.copy.state ≡ true → row.new ≡ read_row e k answer.now row.old id.now }
    ensures verdict { (k : CopyView) → at row.old.copies id.now ≡ Some k → is_restoring k.copy.state ≡ true → result ≡ view_read_verdict k answer.now }
    ensures placed { ArePlaced row.old.window.placed (place_of row.old.copies) }
{
    let Some(copy) = row.copies().get(id) else {
        return WorkVerdict::Failed;
    };
    if !matches!(copy.state(), CopyState::Restoring) {
        return WorkVerdict::Failed;
    }
    match answer {
        DeviceAnswer::Done | DeviceAnswer::Failed => {
            row.lose(id, Fault::DeviceFailed);
            WorkVerdict::Failed
        }
        DeviceAnswer::Bytes(bytes) if copy.has_bytes(bytes, row.hashed()) => {
            row.end_restore(id, bytes);
            WorkVerdict::Fine
        }
        DeviceAnswer::Bytes(_) => {
            row.lose(id, Fault::Damaged);
            WorkVerdict::Damaged
        }
    }
}

/// The number of the write whose key the work has: its own, or that of the write that backed the copy.
fn key_number(copy: &RowCopy, asked: &IoRequest) -> u64
    ensures { result ≡ (if is_write asked.now.kind then asked.now.number else unwrap_or copy.now.copy.backed 0) }
{
    match asked.kind {
        WorkKind::Write => asked.number,
        WorkKind::Read => copy.backed().unwrap_or(0),
    }
}
