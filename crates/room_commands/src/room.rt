//! How room is made in a row's window.
ghost use Rattle.std.specs.Prelude.{◌≡◌, ◌≢◌, ℕ, ◌≤◌, List, Some, true, false, length, IfOk, OnOk, OnErr};
ghost use Rattle.obj_id.specs.declared.ids.JobNo.{JobNo};
ghost use Rattle.spill_work.specs.Line.{same_work_job, IsSameFor, room_for as room_for_lem};
ghost use Rattle.room_commands.specs.Asked.{HasAsked};
ghost use Rattle.room_commands.specs.MadeRooms.{IsRoomMade, IsPlannedFor, WaitsForPlace, tells_refusal};
ghost use Rattle.job_row.specs.Evicting.{MayGo};
ghost use Rattle.obj_id.specs.declared.ids.ObjectId.{ObjectId};
ghost use Rattle.private_store.specs.rules.Room.{make_room, plan};
ghost use Rattle.private_store.specs.rules.Grants.{StandingGrant};
ghost use Rattle.private_store.specs.rules.Contents.{Contents};
ghost use Rattle.row_steps.specs.Shown.{IsShown};
ghost use Rattle.room_commands.specs.RoomPlans.{AsksWrites, MakesPlace, by_kind, planned_by, refuses, makes_place as makes_place_lem};
ghost use Rattle.lru_evictor.specs.Plans.{listed};
ghost use Rattle.room_commands.specs.declared.room.RoomPlan.TheVariants.{Fits, Evict, Ask};
ghost use Rattle.lru_evictor.specs.declared.facts.Plan.TheVariants as found;
ghost use Rattle.job_region.specs.Region.{place_for};
ghost use Rattle.spill_work.specs.Line.{WorkLine};
ghost use Rattle.row_steps.specs.Beside.{SharedTables, beside_of, shape_of};

use job_row::{JobRow, Placement};
use lru_evictor::{DeviceRoom, Plan, extents_by_offset};
use memory_growth::OutOfMemory;
use obj_id::{Extent, ItemList, JobNo, ObjectId, Refusal, WorkKind};
use spill_work::Works;
use std::alloc::Global;

/// What is to be done for room in a window.
#[derive(Clone, Copy, Debug)]
pub(crate) enum RoomPlan {
    /// Nothing: there is a place as it is, at this offset.
    Fits(u64),
    /// Copies are to be evicted, and then there is a place.
    Evict,
    /// Writes of so many copies are to be asked for, and the answer is `Pending`.
    Ask(usize),
    /// Nothing: `DeviceFailed` is to be answered, since a spill failed, and then forgotten.
    TellFailedSpill,
    /// Nothing: `Pending` if works that are in flight will make room, `Full` if nothing would,
    /// `Busy` if as many works are in flight as may be, `TooMany` if the job has too few numbers of
    /// works left.
    Refuse(Refusal),
}

/// What making room came to.
#[derive(Drop)]
pub(crate) enum MadeRoom {
    /// There is this place. Nothing has changed yet.
    Place(Placement),
    /// There is none: this is to be answered, and nothing else is to be done.
    Refused(Refusal),
}

impl RoomPlan {
    /// Whether there is a place, at once or once copies were evicted.
    pub(crate) fn makes_place(self) -> bool
        ensures { result ≡ makes_place_lem self }
    {
        matches!(self, RoomPlan::Fits(_) | RoomPlan::Evict)
    }
}

/// How room for an object of `len` bytes is made in the window, by the rule of room, if the row is this job's. Takes no memory,
/// and changes nothing in the end. It asks for no more works than the job may.
///
/// If there is a place as it is, takes one descent of the window's tree of holes. Otherwise it
/// takes what `UseOrder::plan` does; what the copies take of the device is counted.
pub(crate) fn plan_room(row: &mut JobRow, works: &Works, job: JobNo, len: u32) -> RoomPlan
    ensures fits { (offset : ℕ) → result ≡ Fits offset → place_for row.old.window len ≡ Some offset }
    ensures plan { (grants : List StandingGrant) (bytes : ObjectId → List ℕ) (contents : Contents) → job ≡ record { 0 = row.old.job } → IsShown row.old (beside_of works.now grants bytes row.old.job) contents
        → result ≡ planned_by row.old.order (shape_of row.old (beside_of works.now grants bytes row.old.job)) len }
    ensures asks { (count : ℕ) → result ≡ Ask count → room_for_lem works.now job count ≡ true }
    ensures same { row.new ≡ row.old }
{
    let device = DeviceRoom {
        quota: row.device_quota(),
        used: row.copies().device_bytes(),
        works: works.in_flight(job),
    };
    if let Some(offset) = row.window().search(len).0 {
        return RoomPlan::Fits(offset);
    }
    let failed = row.spill_failed();
    let plan = row.plan(len, device);
    room_plan(works.asked(job), failed, plan)
}

/// The copies that are to be evicted for an object of `len` bytes, in this order, if that is the plan.
fn victims(row: &JobRow, alloc: Global, len: u32) -> Result<ItemList<ObjectId>, OutOfMemory>
    ensures victims { IfOk result (λ victims. (line : WorkLine) (grants : List StandingGrant) (bytes : ObjectId → List ℕ) (contents : Contents) → IsShown row.now (beside_of line grants bytes row.now.job) contents
        → planned_by row.now.order (shape_of row.now (beside_of line grants bytes row.now.job)) len ≡ Evict → victims ≡ listed (plan row.now.order (shape_of row.now (beside_of line grants bytes row.now.job)) len)) }
    ensures may_go { IfOk result (λ victims. MayGo row.now.copies victims) }
{
    let order = row.use_order();
    order.victims(alloc, len, row.window(), row.copies())
}

/// The first so many copies that may be spilled, the least recently used first.
fn spillable(row: &JobRow, alloc: Global, count: usize) -> Result<ItemList<ObjectId>, OutOfMemory>
    ensures spillable { IfOk result (λ written. (line : WorkLine) (grants : List StandingGrant) (bytes : ObjectId → List ℕ) (contents : Contents) (n : ℕ) → IsShown row.now (beside_of line grants bytes row.now.job) contents
        → planned_by row.now.order (shape_of row.now (beside_of line grants bytes row.now.job)) n ≡ Ask count → written ≡ listed (plan row.now.order (shape_of row.now (beside_of line grants bytes row.now.job)) n)) }
    ensures bounded { IfOk result (λ written. length written ≤ count) }
{
    row.use_order().spillable(alloc, count)
}

/// Room for an object of `len` bytes in the window, if the row is this job's, as far as it can be made without an eviction:
/// the writes that it needs are asked for, and that a spill failed is answered and forgotten. The error is out of
/// memory, and then the plan was no refusal, and nothing has changed. The works that it asks for come last in the
/// line, and those before them stay.
pub(crate) fn room_for(
    row: &mut JobRow,
    alloc: Global,
    works: &mut Works,
    job: JobNo,
    len: u32,
) -> Result<MadeRoom, OutOfMemory>
    ensures ok { IfOk result (λ made. (grants : List StandingGrant) (bytes : ObjectId → List ℕ) (contents : Contents) → job ≡ record { 0 = row.old.job } → IsShown row.old (beside_of works.old grants bytes row.old.job) contents
        → IsRoomMade made row.old (beside_of works.old grants bytes row.old.job) contents len row.new (beside_of works.new grants bytes row.old.job)) }
    ensures place { IfOk result (λ made. WaitsForPlace made row.old works.old len row.new works.new) }
    ensures made { IfOk result (λ made. tells_refusal made ≡ false → job ≡ record { 0 = row.old.job } → IsPlannedFor row.old works.old len) }
    ensures line { OnOk result (HasAsked works.old job works.new) }
    ensures others { (other : JobNo) → same_work_job job other ≡ false → IsSameFor other works.old works.new }
    ensures memory_last { OnErr result (job ≡ record { 0 = row.old.job } → IsPlannedFor row.old works.old len) }
    ensures err { OnErr result (row.new ≡ row.old) }
    ensures works { OnErr result (works.new ≡ works.old) }
{
    let plan = plan_room(row, works, job, len);
    room_by(row, alloc, works, job, len, plan)
}

/// The same by this plan, which is that of the row.
pub(crate) fn room_by(
    row: &mut JobRow,
    alloc: Global,
    works: &mut Works,
    job: JobNo,
    len: u32,
    plan: RoomPlan,
) -> Result<MadeRoom, OutOfMemory>
    requires fits { (offset : ℕ) → plan ≡ Fits offset → place_for row.old.window len ≡ Some offset }
    requires asks { (count : ℕ) → plan ≡ Ask count → room_for_lem works.old job count ≡ true }
    ensures ok { IfOk result (λ made. (grants : List StandingGrant) (bytes : ObjectId → List ℕ) (contents : Contents) → job ≡ record { 0 = row.old.job } → IsShown row.old (beside_of works.old grants bytes row.old.job) contents
        → plan ≡ planned_by row.old.order (shape_of row.old (beside_of works.old grants bytes row.old.job)) len
        → IsRoomMade made row.old (beside_of works.old grants bytes row.old.job) contents len row.new (beside_of works.new grants bytes row.old.job)) }
    ensures place { IfOk result (λ made. WaitsForPlace made row.old works.old len row.new works.new) }
    ensures made { IfOk result (λ made. tells_refusal made ≡ false → makes_place_lem plan ≡ true) }
    ensures line { OnOk result (HasAsked works.old job works.new) }
    ensures others { (other : JobNo) → same_work_job job other ≡ false → IsSameFor other works.old works.new }
    ensures memory_last { OnErr result (refuses plan ≡ false) }
    ensures err { OnErr result (row.new ≡ row.old) }
    ensures works { OnErr result (works.new ≡ works.old) }
{
    match plan {
        RoomPlan::Fits(offset) => Ok(MadeRoom::Place(Placement {
            victims: ItemList::new(alloc),
            gone: Vec::new(alloc),
            offset,
        })),
        RoomPlan::Evict => {
            let victims = victims(row, alloc, len)?;
            place_of_victims(row, alloc, len, victims)
        }
        RoomPlan::Ask(count) => {
            let ids = spillable(row, alloc, count)?;
            ask_writes(row, alloc, job, works, ids.as_slice())
        }
        RoomPlan::TellFailedSpill => {
            row.forget_failed_spill();
            Ok(MadeRoom::Refused(Refusal::DeviceFailed))
        }
        RoomPlan::Refuse(refusal) => Ok(MadeRoom::Refused(refusal)),
    }
}

/// The place that there is for an object of `len` bytes once these copies are evicted, and otherwise `Full`.
fn place_of_victims(
    row: &JobRow,
    alloc: Global,
    len: u32,
    victims: ItemList<ObjectId>,
) -> Result<MadeRoom, OutOfMemory>
    requires { MayGo row.now.copies victims }
    ensures place { IfOk result (λ made. (line : WorkLine) → WaitsForPlace made row.now line len row.now line) }
    ensures ok { IfOk result (λ made. (beside : SharedTables) (contents : Contents) → IsShown row.now beside contents
        → MakesPlace (make_room row.now.order (shape_of row.now beside) len) (shape_of row.now beside) len victims
        → IsRoomMade made row.now beside contents len row.now beside) }
{
    let gone = extents_by_offset(alloc, row.copies(), victims.as_slice())?;
    let Some(offset) = row.window().fits_without(&gone, len) else {
        return Ok(MadeRoom::Refused(Refusal::Full));
    };
    Ok(MadeRoom::Place(Placement {
        victims,
        gone,
        offset,
    }))
}

/// Asks for the job's writes of these copies, which is answered `Pending`.
fn ask_writes(
    row: &mut JobRow,
    alloc: Global,
    job: JobNo,
    works: &mut Works,
    ids: &[ObjectId],
) -> Result<MadeRoom, OutOfMemory>
    requires { room_for_lem works.old job (length ids.now) ≡ true }
    ensures ok { IfOk result (λ made. (grants : List StandingGrant) (bytes : ObjectId → List ℕ) (contents : Contents) (n : ℕ) → job ≡ record { 0 = row.old.job } → IsShown row.old (beside_of works.old grants bytes row.old.job) contents
        → AsksWrites (make_room row.old.order (shape_of row.old (beside_of works.old grants bytes row.old.job)) n) (shape_of row.old (beside_of works.old grants bytes row.old.job)) ids.now
        → IsRoomMade made row.old (beside_of works.old grants bytes row.old.job) contents n row.new (beside_of works.new grants bytes row.old.job)) }
    ensures response { IfOk result (λ made. tells_refusal made ≡ true) }
    ensures line { OnOk result (HasAsked works.old job works.new) }
    ensures others { (other : JobNo) → same_work_job job other ≡ false → IsSameFor other works.old works.new }
    ensures err { OnErr result (row.new ≡ row.old) }
    ensures works { OnErr result (works.new ≡ works.old) }
{
    works.ask_all(alloc, job, ids, WorkKind::Write)?;
    row.spill_copies(ids);
    Ok(MadeRoom::Refused(Refusal::Pending))
}

/// What a plan for an object that doesn't fit as it is is to a job whose works had numbers up to this one, and of which a spill failed
/// or not.
fn room_plan(asked: u64, failed: bool, plan: Plan) -> RoomPlan
    requires { plan ≢ found.Fits }
    ensures { (offset : ℕ) → result ≡ by_kind asked failed offset plan }
{
    match plan {
        Plan::Fits => unreachable!(),
        Plan::Evict => RoomPlan::Evict,
        Plan::Wait => RoomPlan::Refuse(Refusal::Pending),
        Plan::Full => RoomPlan::Refuse(Refusal::Full),
        Plan::Busy => RoomPlan::Refuse(Refusal::Busy),
        Plan::Spill(_) if failed => RoomPlan::TellFailedSpill,
        Plan::Spill(count) if u64::MAX - asked < count as u64 => {
            RoomPlan::Refuse(Refusal::TooMany)
        }
        Plan::Spill(count) => RoomPlan::Ask(count),
    }
}
