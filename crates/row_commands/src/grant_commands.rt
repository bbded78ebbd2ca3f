//! The commands of grants: Grant and Withdraw of the job's own objects, and the bytes that are lent to those who were
//! granted one.
ghost use Rattle.std.specs.Prelude.{◌≡◌, ◌==◌, ℕ, List, [], true, None, IfSome, length};
ghost use Rattle.std.specs.List.{list_any};
ghost use Rattle.std.specs.Option.{option_map_or};
ghost use Rattle.obj_id.specs.declared.ids.ObjectId.{ObjectId};
ghost use Rattle.obj_id.specs.declared.commands.Command.TheVariants as command;
ghost use Rattle.obj_id.specs.declared.commands.Reply.TheVariants as reply;
ghost use Rattle.private_store.specs.declared.inputs.Input.TheVariants as input;
ghost use Rattle.private_store.specs.rules.Contents.{Contents};
ghost use Rattle.private_store.specs.rules.Grants.{StandingGrant, grants_left, is_withdrawn};
ghost use Rattle.grants.specs.Table.{AreGrants, is_first, grant_check as table_check, withdraw_check};
ghost use Rattle.spill_work.specs.Line.{WorkLine};
ghost use Rattle.row_commands.specs.Granting.{row_grant_check as grant_check_lem, grants_made, row_bytes};
ghost use Rattle.row_commands.specs.Notes.{beside_rest};
ghost use Rattle.row_steps.specs.Outcomes.{row_given_of};
ghost use Rattle.row_steps.specs.Shown.{IsShown, RowStep};
ghost use Rattle.row_steps.specs.Beside.{beside_of};

use job_row::{JobRow, Lent};
use obj_id::{ItemList, JobNo, ObjectId, Refusal, Reply};
use row_copy::Mark;
use row_steps::RowOutcome;
use std::alloc::Global;

/// Why the job's own object can't be granted to the target, if this is what the table of grants says: `BadId`,
/// `Gone` if the object's task has ended, `Absent`, `NotResident` unless it is a sealed primary, or that.
pub fn grant_check(
    row: &JobRow,
    id: &ObjectId,
    target: JobNo,
    table: Option<Refusal>,
) -> Option<Refusal>
    ensures { result ≡ grant_check_lem row.now id.now target.0 table }
{
    if target.0 == 0 || target.0 == row.job().0 || target.0 == id.job().0 {
        return Some(Refusal::BadId);
    }
    if row.has_ended(id.task()) {
        return Some(Refusal::Gone);
    }
    match row.copies().get(id) {
        None => Some(Refusal::Absent),
        Some(copy) => copy.grant_check(table),
    }
}

/// Grant of the job's own object, if this is what the table of grants says of it: the copy stays in memory from
/// now on, and the step is whole once the table has the grant. Refused as `grant_check` says, and then nothing has
/// changed. Takes no memory.
pub fn grant(
    row: &mut JobRow,
    alloc: Global,
    id: &ObjectId,
    target: JobNo,
    table: Option<Refusal>,
) -> RowOutcome
    ensures step { (node session : ℕ) (line : WorkLine) (grants : List StandingGrant) (bytes : ObjectId → List ℕ) (contents : Contents) → (id.now.job.0 == row.old.job) ≡ true
        → table ≡ table_check grants row.old.job id.now target.0 → IsShown row.old (beside_of line grants bytes row.old.job) contents
        → RowStep node row.old (beside_of line grants bytes row.old.job) contents (input.Call session (command.Grant id.now target)) (row_given_of result) row.new
        (beside_of line (grants_made (grant_check_lem row.old id.now target.0 table) grants id.now row.old.job target.0) bytes row.old.job) }
    ensures reply { result.reply ≡ option_map_or reply.Refused (grant_check_lem row.old id.now target.0 table) reply.Ok }
    ensures silent { result.messages ≡ [] }
{
    if let Some(refusal) = grant_check(row, id, target, table) {
        return RowOutcome::only(alloc, Reply::Refused(refusal));
    }
    row.apply(id, Mark::Granted(true));
    RowOutcome::only(alloc, Reply::Ok)
}

/// Withdraw of the job's own object, if a grant of it to the target stood, and grants of it from the job are left
/// or none: a doomed copy that nothing else keeps is removed. Takes no memory.
pub fn withdraw(
    row: &mut JobRow,
    alloc: Global,
    id: &ObjectId,
    target: JobNo,
    granted: bool,
) -> RowOutcome
    ensures step { (node session : ℕ) (line : WorkLine) (grants : List StandingGrant) (bytes : ObjectId → List ℕ) (contents : Contents) → AreGrants grants → (id.now.job.0 == row.old.job) ≡ true
        → withdraw_check grants row.old.job id.now target.0 ≡ None → granted ≡ list_any (is_first id.now) (grants_left (is_withdrawn row.old.job id.now target.0) grants)
        → IsShown row.old (beside_of line grants bytes row.old.job) contents
        → RowStep node row.old (beside_of line grants bytes row.old.job) contents (input.Call session (command.Withdraw id.now target)) (row_given_of result) row.new
        (beside_rest line (is_withdrawn row.old.job id.now target.0) grants bytes row.old.job) }
    ensures reply { result.reply ≡ reply.Ok }
    ensures silent { result.messages ≡ [] }
{
    let erased = row.apply_and_settle(id, Mark::Granted(granted));
    RowOutcome::done(ItemList::new(alloc), erased)
}

/// The bytes of an object that the job granted, all of them, lent without a copy: none if it has no place.
pub fn lend_granted<'a>(row: &'a JobRow, id: &ObjectId) -> Lent<'a>
    ensures bytes { result.bytes.now ≡ row_bytes row.now id.now }
    ensures same { IfSome result.shared (λ shared. shared ≡ result.bytes.now) }
{
    if row.place(id).is_none() {
        return Lent::nothing();
    }
    row.lent(id)
}

/// The length of an object that the job granted; 0 if it has no place.
pub fn granted_length(row: &JobRow, id: &ObjectId) -> u32
    ensures { result ≡ length (row_bytes row.now id.now) }
{
    let Some(copy) = row.copies().get(id) else {
        return 0;
    };
    lend_granted(row, id)
        .bytes
        .len()
        .min(copy.length() as usize) as u32
}
