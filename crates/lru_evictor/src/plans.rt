//! The plan for room.
ghost use Rattle.std.specs.Prelude.{◌≡◌, ◌≢◌, ◌+◌, ◌<◌, ◌≤◌, ℕ, List, [], take, map, length, true, false, nat_lt, IfOk, IfSome};
ghost use Rattle.std.specs.List.{list_all};
ghost use Rattle.std.specs.Option.{option_map};
ghost use Rattle.use_tree.specs.declared.classes.VictimClass.TheVariants.{Evictable, Spillable};
ghost use Rattle.augmented_tree.specs.Lists.{AllOf};
ghost use Rattle.obj_id.specs.declared.ids.ObjectId.{ObjectId};
ghost use Rattle.private_store.specs.rules.Extents.{rounded as rounded_lem};
ghost use Rattle.private_store.specs.laws.Invariants.{IsOrderOfUse};
ghost use Rattle.private_store.specs.rules.Limits.{most_works};
ghost use Rattle.private_store.specs.rules.Shape.{Shape};
ghost use Rattle.private_store.specs.rules.Room.{plan as room_plan};
ghost use Rattle.job_region.specs.Region.{Region, extents_of};
ghost use Rattle.job_region.specs.Layout.{LaidFrom};
ghost use Rattle.extent_tree.specs.Residents.{extents_staying, span_of, has_gap as has_gap_lem};
ghost use Rattle.lru_evictor.specs.declared.facts.EvictionInfo.{EvictionInfo};
ghost use Rattle.lru_evictor.specs.declared.facts.Plan.TheVariants as found;
ghost use Rattle.lru_evictor.specs.Facts.{Looked, device_bytes_at, spilled_bytes, passes_at, fits_without as is_room_without};
ghost use Rattle.lru_evictor.specs.Indexed.{HasIndex, chosen_ids};
ghost use Rattle.lru_evictor.specs.Orders.{order_ids};
ghost use Rattle.lru_evictor.specs.Plans.{IsDescribed, IsOfCopies, plan_kind_of, listed, spills_here};

use crate::candidates::Candidates;
use crate::facts::{CopyLookup, DeviceRoom, Plan};
use crate::index::Index;
use crate::search::shortest;
use crate::spilling::Gap;
use crate::use_order::UseOrder;
use extent_tree::has_gap;
use job_region::Window;
use memory_growth::{OutOfMemory, lists};
use obj_id::limits::MOST_WORKS;
use obj_id::{ItemList, ObjectId};
use private_store::rounded;
use std::alloc::Global;
use use_tree::VictimClass;

impl UseOrder {
    /// How room for an object of `len` bytes is made in the job's window, by the rule of room over the
    /// job's copies alone, if the order has each of them with its eviction info. Takes no memory, and changes nothing in the end.
    ///
    /// Takes one search of the window if there is room. Otherwise one look at the tree of residents tells whether evictions make
    /// room, whether works in flight do, and whether spilling does. For spills each copy that goes is looked up twice, and marked in
    /// the tree of residents and unmarked, each of which takes a descent or two of a tree.
    pub fn plan<C: CopyLookup>(
        &mut self,
        len: u32,
        device: DeviceRoom,
        window: &Window,
        copies: &C,
    ) -> Plan
        ensures plan { (store : Shape) → IsOfCopies self.old (C.facts copies.now) → IsDescribed store window.now device (C.facts copies.now)
            → result ≡ plan_kind_of (room_plan (order_ids self.old) store len) }
        ensures room { result ≡ found.Fits → is_room_without window.now (C.facts copies.now) len [] ≡ true }
        ensures left { (k : ℕ) → result ≡ found.Spill k → k + device.works ≤ most_works }
        ensures same { self.new ≡ self.old }
    {
        if window.search(len).0.is_some() {
            return Plan::Fits;
        }
        match &mut self.order {
            None => Plan::Full,
            Some(order) => order.plan(len, device, window, copies),
        }
    }

    /// The copies that are to be evicted for an object of `len` bytes, in this order, if that is the plan. The error is out of
    /// memory.
    ///
    /// As many copies are looked up as go, and as many again at most, each found in two descents of a tree; the window is searched as
    /// often as twice the logarithm of how many go.
    pub fn victims<C: CopyLookup>(
        &self,
        alloc: Global,
        len: u32,
        window: &Window,
        copies: &C,
    ) -> Result<ItemList<ObjectId>, OutOfMemory>
        ensures plan { IfOk result (λ ids. (store : Shape) (device : DeviceRoom) → IsOfCopies self.now (C.facts copies.now) → IsDescribed store window.now device (C.facts copies.now)
            → plan_kind_of (room_plan (order_ids self.now) store len) ≡ found.Evict → ids ≡ listed (room_plan (order_ids self.now) store len)) }
        ensures room { IfOk result (λ ids. 0 < length ids → is_room_without window.now (C.facts copies.now) len ids ≡ true) }
        ensures evictable { IfOk result (λ ids. list_all (passes_at (C.facts copies.now) Evictable) ids ≡ true) }
        ensures once { IfOk result (λ ids. IsOrderOfUse ids) }
    {
        let Some(order) = &self.order else {
            return Ok(ItemList::new(alloc));
        };
        victims(order.index(), alloc, len, window, copies)
    }

    /// The first so many copies that may be spilled, the least recently used first. The error is out of memory. Takes a descent of
    /// a tree for each.
    pub fn spillable(&self, alloc: Global, count: usize) -> Result<ItemList<ObjectId>, OutOfMemory>
        ensures listed { IfOk result (λ ids. (store : Shape) (window : Region) (device : DeviceRoom) (facts : Looked) (n : ℕ) → IsOfCopies self.now facts → IsDescribed store window device facts
            → plan_kind_of (room_plan (order_ids self.now) store n) ≡ found.Spill count → ids ≡ listed (room_plan (order_ids self.now) store n)) }
        ensures few { IfOk result (λ ids. length ids ≤ count) }
    {
        let Some(order) = &self.order else {
            return Ok(ItemList::new(alloc));
        };
        spillable(order.index(), alloc, count)
    }
}

/// The plan of a job with copies that has this index, if the object doesn't fit as it is.
pub(crate) fn plan_over<C: CopyLookup>(
    index: &mut Index,
    len: u32,
    device: DeviceRoom,
    window: &Window,
    copies: &C,
) -> Plan
    requires { length index.old.0 < 4611686018427387904 }
    ensures plan { (store : Shape) (order : List (ObjectId × EvictionInfo)) → 0 < len → is_room_without window.now (C.facts copies.now) len [] ≡ false → HasIndex index.old order → IsOfCopies order (C.facts copies.now) → IsDescribed store window.now device (C.facts copies.now)
        → result ≡ plan_kind_of (room_plan (order_ids order) store len) }
    ensures needed { result ≢ found.Fits }
    ensures left { (k : ℕ) → result ≡ found.Spill k → k + device.works ≤ most_works }
    ensures same { index.new ≡ index.old }
{
    if leaves_room(index, VictimClass::Evictable, window, len) {
        return Plan::Evict;
    }
    // most jobs without room have none to spill either
    if !leaves_room(index, VictimClass::Spillable, window, len) {
        return Plan::Full;
    }
    let gap = Gap {
        quota: window.quota(),
        need: rounded(len),
    };
    let count = index.count_spills(copies, gap);
    spilling(index, device, copies, count)
}

/// The plan that spills the first so many copies of those that may be spilled, if that is known: all of them must fit the device
/// quota, and as many as there are works left are asked for.
fn spilling<C: CopyLookup>(
    index: &Index,
    device: DeviceRoom,
    copies: &C,
    count: Option<usize>,
) -> Plan
    requires within { IfSome count (λ k. k ≤ length (chosen_ids Spillable 4611686018427387904 index.now.0)) }
    ensures plan { result ≡ plan_kind_of (spills_here device (C.facts copies.now) (option_map (λ k. take k (chosen_ids Spillable 4611686018427387904 index.now.0)) count)) }
    ensures needed { result ≢ found.Fits }
    ensures left { (k : ℕ) → result ≡ found.Spill k → k + device.works ≤ most_works }
{
    let Some(count) = count else {
        return Plan::Full;
    };
    if count == 0 {
        return Plan::Wait;
    }
    if passes_quota(
        device,
        copies,
        index.candidates(VictimClass::Spillable),
        count,
    ) {
        return Plan::Full;
    }
    if device.works >= MOST_WORKS {
        return Plan::Busy;
    }
    Plan::Spill(count.min(MOST_WORKS - device.works))
}

/// Whether the object would fit if all copies went that the walk chooses, and those before it. One look at the tree.
fn leaves_room(index: &Index, class: VictimClass, window: &Window, len: u32) -> bool
    ensures gap { result ≡ has_gap_lem window.now.quota (rounded_lem len) (span_of (extents_staying class index.now.2)) }
    ensures laid { LaidFrom window.now.quota 0 (extents_of window.now.placed) }
{
    let span = index.residents().span(class);
    has_gap(span, window.quota(), rounded(len))
}

/// Whether spilling the first so many of these copies would pass the device quota.
fn passes_quota<C: CopyLookup>(
    device: DeviceRoom,
    copies: &C,
    candidates: Candidates<'_>,
    count: usize,
) -> bool
    ensures { result ≡ nat_lt device.quota (device.used + spilled_bytes (C.facts copies.now) (take count candidates.entry)) }
{
    if device.used > device.quota {
        return true;
    }
    let mut left = device.quota - device.used;
    let mut more = count;
    for id in candidates {
        if more == 0 {
            return false;
        }
        more -= 1;
        let bytes = bytes_of(copies, &id);
        if bytes > left {
            return true;
        }
        left -= bytes;
    }
    false
}

/// The device bytes that spilling the copy takes.
fn bytes_of<C: CopyLookup>(copies: &C, id: &ObjectId) -> u64
    ensures { result ≡ device_bytes_at (C.facts copies.now) id.now }
{
    match copies.facts(id) {
        Some(facts) => facts.bytes,
        None => 0,
    }
}

/// The copies to be evicted, if evictions make room.
fn victims<C: CopyLookup>(
    index: &Index,
    alloc: Global,
    len: u32,
    window: &Window,
    copies: &C,
) -> Result<ItemList<ObjectId>, OutOfMemory>
    ensures plan { IfOk result (λ ids. (store : Shape) (order : List (ObjectId × EvictionInfo)) (device : DeviceRoom) → HasIndex index.now order → IsOfCopies order (C.facts copies.now) → IsDescribed store window.now device (C.facts copies.now)
        → plan_kind_of (room_plan (order_ids order) store len) ≡ found.Evict → ids ≡ listed (room_plan (order_ids order) store len)) }
    ensures room { IfOk result (λ ids. 0 < length ids → is_room_without window.now (C.facts copies.now) len ids ≡ true) }
    ensures evictable { IfOk result (λ ids. list_all (passes_at (C.facts copies.now) Evictable) ids ≡ true) }
    ensures once { IsOrderOfUse (map (λ u. u.id) index.now.0) → IfOk result (λ ids. IsOrderOfUse ids) }
{
    let candidates = index.candidates(VictimClass::Evictable);
    match shortest(alloc, candidates, window, copies, len)? {
        Some(ids) => Ok(ItemList::from_vec(ids)),
        None => Ok(ItemList::new(alloc)),
    }
}

/// The first so many copies that may be spilled.
fn spillable(index: &Index, alloc: Global, count: usize) -> Result<ItemList<ObjectId>, OutOfMemory>
    ensures all { AllOf (λ u. u.turn < 4611686018427387904) index.now.0 }
    ensures first { IfOk result (λ ids. ids ≡ take count (chosen_ids Spillable 4611686018427387904 index.now.0)) }
    ensures few { IfOk result (λ ids. length ids ≤ count) }
{
    let mut ids = Vec::new(alloc);
    for id in index.candidates(VictimClass::Spillable) {
        if ids.len() == count {
            return Ok(ItemList::from_vec(ids));
        }
        lists::push(&mut ids, id)?;
    }
    Ok(ItemList::from_vec(ids))
}
