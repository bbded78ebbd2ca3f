//! The order of use of a job that has copies.
ghost use Rattle.std.specs.Prelude.{◌≡◌, ◌≢◌, ℕ, ◌+◌, ◌<◌, ◌≤◌, Bool, [], ◌∷◌, true, false, not, map, IfOk, OnOk, OnErr, IsOk, length};
ghost use Rattle.obj_id.specs.declared.ids.ObjectId.{ObjectId};
ghost use Rattle.private_store.specs.laws.Invariants.{IsOrderOfUse};
ghost use Rattle.private_store.specs.rules.Limits.{most_works};
ghost use Rattle.private_store.specs.rules.Tables.{is_among};
ghost use Rattle.lru_evictor.specs.declared.facts.EvictionInfo.{EvictionInfo};
ghost use Rattle.private_store.specs.rules.Shape.{Shape};
ghost use Rattle.private_store.specs.rules.Room.{plan as room_plan};
ghost use Rattle.lru_evictor.specs.Facts.{nowhere, fits_without as is_room_without};
ghost use Rattle.lru_evictor.specs.Indexed.{HasIndex};
ghost use Rattle.lru_evictor.specs.Orders.{order_ids, without_id, last_used, touched, info_in, stood as stood_lem, info_with_resident, AllPass, OthersPass};
ghost use Rattle.lru_evictor.specs.declared.facts.Plan.TheVariants as found;
ghost use Rattle.lru_evictor.specs.Plans.{IsDescribed, IsOfCopies, plan_kind_of};

use crate::facts::{CopyLookup, DeviceRoom, EvictionInfo, Plan, are_same, stood};
use crate::index::{Index, OrderSlot};
use crate::plans::plan_over;
use crate::renumbering::next_turn;
use crate::use_order::Order;
use extent_tree::Resident;
use job_region::Window;
use lru::LruCache;
use memory_growth::{OutOfMemory, caches};
use obj_id::ObjectId;
use std::alloc::Global;
use std::marker::Model;
use use_tree::{SpareNode, Use, VictimClasses};

/// The order of use of a job that has copies. A contract sees their ids, most recently used first, each with its copy's
/// eviction info.
#[derive(Drop)]
pub(crate) struct JobOrder {
    // Unbounded, so that it never pushes an id out: how many copies a job may have is the command's to
    // check, and an id that went unasked would be a copy without a place.
    slots: LruCache<ObjectId, OrderSlot>,
    // Of all in the cache.
    index: Index,
}

impl Model for JobOrder {
    ghost use Rattle.std.specs.Prelude.{◌≡◌, ◌<◌, Bool, ◌-◌, ◌^◌, List, length, map};
    ghost use Rattle.obj_id.specs.declared.ids.ObjectId.{ObjectId};
    ghost use Rattle.lru_evictor.specs.declared.facts.EvictionInfo.{EvictionInfo};
    ghost use Rattle.lru_evictor.specs.Indexed.{IsIndexOf};

    ghost Value = { List (ObjectId × EvictionInfo) };

    ghost view = { λ o. map (λ e. (e.0, e.1.eviction_info)) o.slots.entries };

    ghost invariant = { λ o. (o.slots.cap ≡ 2 ^ 64 - 1) × IsIndexOf o.slots.entries o.index × (length o.slots.entries < 4611686018427387904) };
}

impl JobOrder {
    /// The order of a job with one copy, of which nothing is known.
    pub(crate) fn first(alloc: Global, id: ObjectId) -> Result<JobOrder, OutOfMemory>
        ensures ids { IfOk result (λ o. order_ids o ≡ id ∷ []) }
        ensures infos { IfOk result (λ o. (test : ObjectId → EvictionInfo → Bool) → test id nowhere ≡ true → AllPass test o) }
    {
        let mut order = JobOrder::new(alloc)?;
        order.add(alloc, id)?;
        Ok(order)
    }

    /// The order of a job without copies.
    fn new(alloc: Global) -> Result<JobOrder, OutOfMemory>
        ensures { IfOk result (λ o. o ≡ []) }
    {
        Ok(JobOrder {
            slots: caches::unbounded(alloc)?,
            index: Index::new(),
        })
    }

    /// Makes the id the most recently used, whether or not it was there; its copy lies nowhere, and is in no class of victims.
    pub(crate) fn enter(&mut self, alloc: Global, id: ObjectId) -> Result<(), OutOfMemory>
        ensures ids { OnOk result (order_ids self.new ≡ last_used id (order_ids self.old)) }
        ensures infos { OnOk result ((test : ObjectId → EvictionInfo → Bool) → OthersPass id test self.old → test id nowhere ≡ true → AllPass test self.new) }
        ensures succeeds { is_among (order_ids self.old) id ≡ true → IsOk result }
        ensures err { OnErr result (self.new ≡ self.old) }
    {
        if self.has(&id) {
            self.touch(id, EvictionInfo::nowhere());
            Ok(())
        } else {
            self.add(alloc, id)
        }
    }

    /// Makes the id the most recently used, if it isn't there; its copy lies nowhere, and is in no class of victims. Gives whether it wasn't.
    pub(crate) fn enter_new(&mut self, alloc: Global, id: ObjectId) -> Result<bool, OutOfMemory>
        ensures entered { IfOk result (λ entered. entered ≡ not (is_among (order_ids self.old) id)) }
        ensures ids { IfOk result (λ entered. entered ≡ true → order_ids self.new ≡ last_used id (order_ids self.old)) }
        ensures infos { IfOk result (λ entered. entered ≡ true → (test : ObjectId → EvictionInfo → Bool) → OthersPass id test self.old → test id nowhere ≡ true → AllPass test self.new) }
        ensures same { IfOk result (λ entered. entered ≡ false → self.new ≡ self.old) }
        ensures err { OnErr result (self.new ≡ self.old) }
    {
        if self.has(&id) {
            return Ok(false);
        }
        self.add(alloc, id)?;
        Ok(true)
    }

    /// Adds an id that isn't there, as the most recently used. The error is out of memory.
    fn add(&mut self, alloc: Global, id: ObjectId) -> Result<(), OutOfMemory>
        requires { is_among (order_ids self.old) id ≡ false }
        ensures ids { OnOk result (order_ids self.new ≡ last_used id (order_ids self.old)) }
        ensures infos { OnOk result ((test : ObjectId → EvictionInfo → Bool) → OthersPass id test self.old → test id nowhere ≡ true → AllPass test self.new) }
        ensures err { OnErr result (self.new ≡ self.old) }
    {
        let turn = next_turn(&mut self.slots, &mut self.index);
        caches::check_countable(&self.slots)?;
        let classes = VictimClasses::none();
        let room = SpareNode::new(alloc, Use { turn, id, classes })?;
        let eviction_info = EvictionInfo::nowhere();
        let slot = OrderSlot {
            turn,
            eviction_info,
        };
        caches::put(&mut self.slots, id, slot)?;
        self.index.add(room, id, turn);
        Ok(())
    }

    /// Makes the id the most recently used, if it is there; its copy stands so, but doesn't come to lie anywhere by that.
    pub(crate) fn touch(&mut self, id: ObjectId, eviction_info: EvictionInfo)
        ensures ids { order_ids self.new ≡ touched id (order_ids self.old) }
        ensures infos { (test : ObjectId → EvictionInfo → Bool) → OthersPass id test self.old
            → (is_among (order_ids self.old) id ≡ true → test id (stood_lem (info_in id self.old) eviction_info) ≡ true) → AllPass test self.new }
    {
        let turn = next_turn(&mut self.slots, &mut self.index);
        let _count = self.slots.len();
        let Some(there) = self.slots.get_mut(&id) else {
            return;
        };
        let before = *there;
        let eviction_info = stood(before.eviction_info, eviction_info);
        let after = OrderSlot {
            turn,
            eviction_info,
        };
        *there = after;
        self.index.replace(id, before, after);
    }

    /// The copy of the id stands so, if it is there, but doesn't come to lie anywhere by that.
    pub(crate) fn set_info(&mut self, id: &ObjectId, eviction_info: EvictionInfo)
        ensures ids { order_ids self.new ≡ order_ids self.old }
        ensures infos { (test : ObjectId → EvictionInfo → Bool) → OthersPass id.now test self.old
            → (is_among (order_ids self.old) id.now ≡ true → test id.now (stood_lem (info_in id.now self.old) eviction_info) ≡ true) → AllPass test self.new }
    {
        let _count = self.slots.len();
        let Some(there) = self.slots.peek_mut(id) else {
            return;
        };
        let place = *there;
        let eviction_info = stood(place.eviction_info, eviction_info);
        // most changes of a copy leave it as it is
        if are_same(place.eviction_info, eviction_info) {
            return;
        }
        there.eviction_info = eviction_info;
        self.index.set_info(place, eviction_info);
    }

    /// The copy of the id, if it is in the order and can, takes its place, and is in these classes of victims. Uses the spare node.
    pub(crate) fn insert_resident(
        &mut self,
        room: extent_tree::SpareNode,
        id: &ObjectId,
        resident: Resident,
    )
        ensures ids { order_ids self.new ≡ order_ids self.old }
        ensures infos { (test : ObjectId → EvictionInfo → Bool) → OthersPass id.now test self.old
            → (is_among (order_ids self.old) id.now ≡ true → test id.now (info_with_resident (info_in id.now self.old) resident self.old) ≡ true) → AllPass test self.new }
    {
        let _count = self.slots.len();
        let Some(there) = self.slots.peek_mut(id) else {
            return;
        };
        let place = *there;
        if place.eviction_info.extent.is_some() {
            return;
        }
        if !self.index.insert_resident(room, place, resident) {
            return;
        }
        there.eviction_info = EvictionInfo {
            extent: Some(resident.extent),
            classes: resident.classes,
        };
    }

    /// Takes the id out, if it is there.
    pub(crate) fn forget(&mut self, id: &ObjectId)
        ensures ids { order_ids self.new ≡ without_id id.now (order_ids self.old) }
        ensures infos { (test : ObjectId → EvictionInfo → Bool) → OthersPass id.now test self.old → AllPass test self.new }
    {
        let _count = self.slots.len();
        let Some(place) = self.slots.pop(id) else {
            return;
        };
        self.index.remove(place);
    }

    /// Whether the id is there.
    pub(crate) fn has(&self, id: &ObjectId) -> bool
        ensures { result ≡ is_among (order_ids self.now) id.now }
    {
        self.slots.contains(id)
    }

    /// How many ids there are.
    pub(crate) fn len(&self) -> usize
        ensures { result ≡ length self.now }
    {
        self.slots.len()
    }

    /// The ids, from the least recently used on.
    pub(crate) fn order(&self) -> Order<'_>
        ensures { result ≡ order_ids self.now }
    {
        Order::of(self.slots.iter())
    }

    /// Where the copies lie and how they were used.
    pub(crate) fn index(&self) -> &Index
        ensures index { HasIndex result.now self.now }
        ensures once { IsOrderOfUse (map (λ u. u.id) result.now.0) }
    {
        // that no id is there twice is what the proof needs
        let _count = self.slots.len();
        &self.index
    }

    /// How room for an object of `len` bytes is made, if it doesn't fit as it is.
    pub(crate) fn plan<C: CopyLookup>(
        &mut self,
        len: u32,
        device: DeviceRoom,
        window: &Window,
        copies: &C,
    ) -> Plan
        ensures plan { (store : Shape) → 0 < len → is_room_without window.now (C.facts copies.now) len [] ≡ false → IsOfCopies self.old (C.facts copies.now) → IsDescribed store window.now device (C.facts copies.now)
            → result ≡ plan_kind_of (room_plan (order_ids self.old) store len) }
        ensures needed { result ≢ found.Fits }
        ensures left { (k : ℕ) → result ≡ found.Spill k → k + device.works ≤ most_works }
        ensures same { self.new ≡ self.old }
    {
        plan_over(&mut self.index, len, device, window, copies)
    }
}
