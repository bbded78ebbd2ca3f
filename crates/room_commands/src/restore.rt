//! A copy that is away is read back.
ghost use Rattle.std.specs.Prelude.{◌≡◌, ◌==◌, ℕ, ◌+◌, ◌<◌, ◌≤◌, List, length, true, false, Ok, Some, None, IfOk, OnOk, OnErr, is_ok, []};
ghost use Rattle.obj_id.specs.declared.ids.JobNo.{JobNo};
ghost use Rattle.obj_id.specs.declared.commands.CopyState.TheVariants.{Away};
ghost use Rattle.obj_id.specs.declared.commands.Command.TheVariants as command;
ghost use Rattle.private_store.specs.declared.inputs.Input.TheVariants as input;
ghost use Rattle.private_store.specs.rules.Tables.{at};
ghost use Rattle.private_store.specs.laws.Invariants.{is_remembered};
ghost use Rattle.private_store.specs.rules.Grants.{StandingGrant};
ghost use Rattle.private_store.specs.rules.Contents.{Contents};
ghost use Rattle.spill_work.specs.Line.{AsksWork, ask_check, same_work_job, in_flight, used_by, room_for, IsSameFor};
ghost use Rattle.obj_id.specs.declared.works.WorkKind.TheVariants.{Read};
ghost use Rattle.std.specs.Map.{lookup};
ghost use Rattle.std.specs.Option.{option_map_or};
ghost use Rattle.private_store.specs.rules.Limits.{most_works, has_numbers};
ghost use Rattle.private_store.specs.rules.Room.{make_room};
ghost use Rattle.job_row.specs.Evicting.{IsPlacement, MayGo};
ghost use Rattle.row_copy.specs.CopyViews.{waits_for_place};
ghost use Rattle.row_steps.specs.MemoryLast.{IsDueMore};
ghost use Rattle.room_commands.specs.RoomPlans.{MakesPlace, planned_by, refuses, makes_place};
ghost use Rattle.room_commands.specs.declared.room.RoomPlan.TheVariants.{Fits, Ask};
ghost use Rattle.job_region.specs.Region.{place_for};
ghost use Rattle.room_commands.specs.Asked.{HasAsked};
ghost use Rattle.job_row.specs.Checks.{fault_at, visible_state};
ghost use Rattle.row_steps.specs.Outcomes.{row_given_of};
ghost use Rattle.row_steps.specs.Shown.{IsShown, RowStep};
ghost use Rattle.row_steps.specs.Beside.{beside_of, shape_of};

use crate::create_command::removals;
use crate::get_command::{pending, refuse};
use crate::room::{MadeRoom, RoomPlan, plan_room, room_by};
use job_row::{JobRow, Placement};
use memory_growth::OutOfMemory;
use obj_id::limits::MOST_WORKS;
use obj_id::{Failure, JobNo, ObjectId, Refusal, WorkKind};
use row_copy::Awaited;
use row_steps::RowOutcome;
use spill_work::Works;
use std::alloc::Global;

/// Get of a copy that is away and has no fault to tell of, if the row is this job's: room is made for it, and its bytes are asked
/// for at the device; the answer is `Pending`. `Busy` at 8 works in flight, `TooMany` if the job has no number of works left, and
/// if there is no room the answer is that of Create. The error is out of memory: no other refusal was due then, and
/// nothing has changed. The works that it asks for come last in the line.
pub(crate) fn restore(
    row: &mut JobRow,
    alloc: Global,
    room: Result<(), OutOfMemory>,
    node: u32,
    works: &mut Works,
    job: JobNo,
    id: &ObjectId,
) -> Result<RowOutcome, OutOfMemory>
    requires visible { visible_state (at row.old.copies id.now) ≡ Ok (Some Away) }
    requires sound { fault_at row.old.copies id.now ≡ None }
    ensures ok { IfOk result (λ o. (session : ℕ) (grants : List StandingGrant) (bytes : ObjectId → List ℕ) (contents : Contents) → job ≡ record { 0 = row.old.job } → (id.now.job.0 == row.old.job) ≡ true
        → is_remembered row.old.ended_tasks id.now.task ≡ false → IsShown row.old (beside_of works.old grants bytes row.old.job) contents
        → RowStep node row.old (beside_of works.old grants bytes row.old.job) contents (input.Call session (command.Get id.now)) (row_given_of o) row.new (beside_of works.new grants bytes row.old.job)) }
    ensures bounded { IfOk result (λ o. length o.messages ≤ length row.old.copies + 1) }
    ensures unsent { IfOk result (λ o. is_ok room ≡ false → o.messages ≡ []) }
    ensures line { OnOk result (HasAsked works.old job works.new) }
    ensures memory_last { OnErr result (job ≡ record { 0 = row.old.job } → (id.now.job.0 == row.old.job) ≡ true → is_remembered row.old.ended_tasks id.now.task ≡ false → IsDueMore node row.old works.old (command.Get id.now)) }
    ensures others { (other : JobNo) → same_work_job job other ≡ false → IsSameFor other works.old works.new }
    ensures err { OnErr result (row.new ≡ row.old) }
    ensures works { OnErr result (works.new ≡ works.old) }
{
    if works.in_flight(job) >= MOST_WORKS {
        return refuse(alloc, Refusal::Busy);
    }
    let Some(copy) = row.copies().get(id) else {
        unreachable!()
    };
    // that it has no place is what the proof needs
    let _place = copy.offset();
    let len = copy.length();
    let plan = plan_room(row, works, job, len);
    let asked = works.asked(job);
    // before anything grows
    if plan.makes_place() && asked == u64::MAX {
        return refuse(alloc, Refusal::TooMany);
    }
    restore_by(row, alloc, room, node, works, job, id, len, plan)
}

/// The same by this plan, which is that of the row, where neither works nor numbers are too many.
fn restore_by(
    row: &mut JobRow,
    alloc: Global,
    room: Result<(), OutOfMemory>,
    node: u32,
    works: &mut Works,
    job: JobNo,
    id: &ObjectId,
    len: u32,
    plan: RoomPlan,
) -> Result<RowOutcome, OutOfMemory>
    requires visible { visible_state (at row.old.copies id.now) ≡ Ok (Some Away) }
    requires sound { fault_at row.old.copies id.now ≡ None }
    requires idle { in_flight works.old job < most_works }
    requires waits { option_map_or (waits_for_place len) (at row.old.copies id.now) false ≡ true }
    requires fits { (offset : ℕ) → plan ≡ Fits offset → place_for row.old.window len ≡ Some offset }
    requires asks { (count : ℕ) → plan ≡ Ask count → room_for works.old job count ≡ true }
    requires numbered { makes_place plan ≡ true → has_numbers (used_by works.old job) 1 ≡ true }
    requires fresh { used_by works.old job ≡ 0 → lookup (same_work_job job) works.old.used ≡ None }
    ensures ok { IfOk result (λ o. (session : ℕ) (grants : List StandingGrant) (bytes : ObjectId → List ℕ) (contents : Contents) → job ≡ record { 0 = row.old.job } → (id.now.job.0 == row.old.job) ≡ true
        → is_remembered row.old.ended_tasks id.now.task ≡ false → IsShown row.old (beside_of works.old grants bytes row.old.job) contents
        → plan ≡ planned_by row.old.order (shape_of row.old (beside_of works.old grants bytes row.old.job)) len
        → RowStep node row.old (beside_of works.old grants bytes row.old.job) contents (input.Call session (command.Get id.now)) (row_given_of o) row.new (beside_of works.new grants bytes row.old.job)) }
    ensures bounded { IfOk result (λ o. length o.messages ≤ length row.old.copies + 1) }
    ensures unsent { IfOk result (λ o. is_ok room ≡ false → o.messages ≡ []) }
    ensures line { OnOk result (HasAsked works.old job works.new) }
    ensures memory_last { OnErr result (refuses plan ≡ false) }
    ensures others { (other : JobNo) → same_work_job job other ≡ false → IsSameFor other works.old works.new }
    ensures err { OnErr result (row.new ≡ row.old) }
    ensures works { OnErr result (works.new ≡ works.old) }
{
    match room_by(row, alloc, works, job, len, plan)? {
        MadeRoom::Place(placement) => {
            restore_in_place(row, alloc, room, node, works, job, id, len, &placement)
        }
        MadeRoom::Refused(refusal) => refuse(alloc, refusal),
    }
}

/// The place is taken, the directory is notified of the victims, and the read is asked for.
fn restore_in_place(
    row: &mut JobRow,
    alloc: Global,
    room: Result<(), OutOfMemory>,
    node: u32,
    works: &mut Works,
    job: JobNo,
    id: &ObjectId,
    len: u32,
    placement: &Placement,
) -> Result<RowOutcome, OutOfMemory>
    requires visible { visible_state (at row.old.copies id.now) ≡ Ok (Some Away) }
    requires sound { fault_at row.old.copies id.now ≡ None }
    requires idle { in_flight works.old job < most_works }
    requires waits { option_map_or (waits_for_place len) (at row.old.copies id.now) false ≡ true }
    requires may_go { MayGo row.old.copies placement.now.victims }
    requires place { IsPlacement row.old len placement.now }
    requires numbered { has_numbers (used_by works.old job) 1 ≡ true }
    requires fresh { used_by works.old job ≡ 0 → lookup (same_work_job job) works.old.used ≡ None }
    ensures ok { IfOk result (λ o. (session : ℕ) (grants : List StandingGrant) (bytes : ObjectId → List ℕ) (contents : Contents) → job ≡ record { 0 = row.old.job } → (id.now.job.0 == row.old.job) ≡ true
        → is_remembered row.old.ended_tasks id.now.task ≡ false → IsShown row.old (beside_of works.old grants bytes row.old.job) contents
        → MakesPlace (make_room row.old.order (shape_of row.old (beside_of works.old grants bytes row.old.job)) len) (shape_of row.old (beside_of works.old grants bytes row.old.job)) len placement.now.victims
        → RowStep node row.old (beside_of works.old grants bytes row.old.job) contents (input.Call session (command.Get id.now)) (row_given_of o) row.new (beside_of works.new grants bytes row.old.job)) }
    ensures bounded { IfOk result (λ o. length o.messages ≤ length row.old.copies + 1) }
    ensures unsent { IfOk result (λ o. is_ok room ≡ false → o.messages ≡ []) }
    ensures line { OnOk result (HasAsked works.old job works.new) }
    ensures others { (other : JobNo) → same_work_job job other ≡ false → IsSameFor other works.old works.new }
    ensures err { OnErr result (row.new ≡ row.old) }
    ensures works { OnErr result (works.new ≡ works.old) }
{
    room?;
    let victims = placement.victims.as_slice();
    let messages = removals(alloc, node, row.copies(), victims)?;
    // a copy that is away has some bytes, and the plan found a place for them
    if !row.window().may_have(len) {
        return refuse(alloc, Refusal::Full);
    }
    let number = ask_read(works, job, *id)?;
    match row.place_copy(alloc, id, len, placement, Awaited::Device) {
        Ok(_) => Ok(pending(messages)),
        Err(error) => {
            works.take_back(job, number);
            Err(error)
        }
    }
}

/// Asks for a read of the job, whose works and numbers aren't at their end. The error is out of memory, and then nothing has changed.
fn ask_read(works: &mut Works, job: JobNo, id: ObjectId) -> Result<u64, OutOfMemory>
    requires { ask_check works.old job ≡ None }
    ensures ok { IfOk result (λ number. AsksWork works.old (record { job = job; number = number; id = id; kind = Read }) works.new) }
    ensures err { OnErr result (works.new ≡ works.old) }
{
    match works.ask(job, id, WorkKind::Read) {
        Ok(number) => Ok(number),
        Err(Failure::Memory(error)) => Err(error),
        Err(Failure::Refused(_)) => unreachable!(),
    }
}
