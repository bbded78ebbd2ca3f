//! The order of use of one job's copies.
ghost use Rattle.std.specs.Prelude.{◌≡◌, Bool, [], true, false, not, IfOk, OnOk, OnErr, IsOk, length, reverse};
ghost use Rattle.std.specs.Map.{keys_of};
ghost use Rattle.obj_id.specs.declared.ids.ObjectId.{ObjectId};
ghost use Rattle.private_store.specs.rules.Tables.{is_among};
ghost use Rattle.lru_evictor.specs.declared.facts.EvictionInfo.{EvictionInfo};
ghost use Rattle.lru_evictor.specs.Facts.{nowhere};
ghost use Rattle.lru_evictor.specs.Orders.{order_ids, without_id, last_used, touched, info_in, stood, info_with_resident, AllPass, OthersPass};

use crate::facts::EvictionInfo;
use crate::index::OrderSlot;
use crate::job_order::JobOrder;
use extent_tree::{Resident, SpareNode};
use lru::Iter;
use memory_growth::OutOfMemory;
use obj_id::ObjectId;
use std::alloc::Global;
use std::marker::Model;

/// The order of use of one job's copies. A contract sees their ids, most recently used first, each with its copy's eviction info:
/// where it lies, and the classes of victims that it is in.
pub struct UseOrder {
    alloc: Global,
    // Made with the job's first copy and dropped with its last: a job without copies takes no memory.
    pub(crate) order: Option<JobOrder>,
}

// By hand, so that it is proved here and not in each crate above.
impl Drop for UseOrder {
    fn drop(self) {
        let UseOrder {
            alloc: _alloc,
            order: _order,
        } = self;
    }
}

impl Model for UseOrder {
    ghost use Rattle.std.specs.Prelude.{List, []};
    ghost use Rattle.std.specs.Option.{unwrap_or};
    ghost use Rattle.obj_id.specs.declared.ids.ObjectId.{ObjectId};
    ghost use Rattle.lru_evictor.specs.declared.facts.EvictionInfo.{EvictionInfo};

    ghost Value = { List (ObjectId × EvictionInfo) };

    ghost view = { λ o. unwrap_or o.order [] };
}

impl UseOrder {
    /// The job has no copy. Takes no memory.
    pub fn new(alloc: Global) -> UseOrder
        ensures { result ≡ [] }
    {
        UseOrder { alloc, order: None }
    }

    /// Makes the id the most recently used, whether or not it was there; its copy lies nowhere, and is in no class of victims.
    /// `NoMemory` alone, and then nothing has changed; an id that is there takes no memory.
    pub fn enter(&mut self, id: ObjectId) -> Result<(), OutOfMemory>
        ensures ids { OnOk result (order_ids self.new ≡ last_used id (order_ids self.old)) }
        ensures infos { OnOk result ((test : ObjectId → EvictionInfo → Bool) → OthersPass id test self.old → test id nowhere ≡ true → AllPass test self.new) }
        ensures succeeds { is_among (order_ids self.old) id ≡ true → IsOk result }
        ensures err { OnErr result (self.new ≡ self.old) }
    {
        if let Some(order) = &mut self.order {
            order.enter(self.alloc, id)?;
            return Ok(());
        }
        let order = JobOrder::first(self.alloc, id)?;
        self.order = Some(order);
        Ok(())
    }

    /// Makes the id the most recently used, if it isn't there; its copy lies nowhere, and is in no class of victims. Gives whether it wasn't
    /// there: what is there stays as it is. The error is out of memory, and then nothing has changed.
    pub fn enter_new(&mut self, id: ObjectId) -> Result<bool, OutOfMemory>
        ensures entered { IfOk result (λ entered. entered ≡ not (is_among (order_ids self.old) id)) }
        ensures ids { IfOk result (λ entered. entered ≡ true → order_ids self.new ≡ last_used id (order_ids self.old)) }
        ensures infos { IfOk result (λ entered. entered ≡ true → (test : ObjectId → EvictionInfo → Bool) → OthersPass id test self.old → test id nowhere ≡ true → AllPass test self.new) }
        ensures same { IfOk result (λ entered. entered ≡ false → self.new ≡ self.old) }
        ensures err { OnErr result (self.new ≡ self.old) }
    {
        if let Some(order) = &mut self.order {
            return order.enter_new(self.alloc, id);
        }
        let order = JobOrder::first(self.alloc, id)?;
        self.order = Some(order);
        Ok(true)
    }

    /// Makes the id the most recently used, if it is there. Its copy stands so now, but doesn't come to lie anywhere by that:
    /// if it is said to lie where it didn't lie, it stands as before. Takes no memory.
    pub fn touch(&mut self, id: ObjectId, eviction_info: EvictionInfo)
        ensures ids { order_ids self.new ≡ touched id (order_ids self.old) }
        ensures infos { (test : ObjectId → EvictionInfo → Bool) → OthersPass id test self.old
            → (is_among (order_ids self.old) id ≡ true → test id (stood (info_in id self.old) eviction_info) ≡ true) → AllPass test self.new }
    {
        let Some(order) = &mut self.order else {
            return;
        };
        order.touch(id, eviction_info);
    }

    /// The copy of the id stands so, if it is in the order, but doesn't come to lie anywhere by that: if it is said to lie where it
    /// didn't lie, it stands as before. Takes no memory.
    pub fn set_info(&mut self, id: &ObjectId, eviction_info: EvictionInfo)
        ensures ids { order_ids self.new ≡ order_ids self.old }
        ensures infos { (test : ObjectId → EvictionInfo → Bool) → OthersPass id.now test self.old
            → (is_among (order_ids self.old) id.now ≡ true → test id.now (stood (info_in id.now self.old) eviction_info) ≡ true) → AllPass test self.new }
    {
        let Some(order) = &mut self.order else {
            return;
        };
        order.set_info(id, eviction_info);
    }

    /// The copy of the id, if it is in the order and lay nowhere, lies there, and is in these classes of victims. It stands as before if
    /// another copy begins there, or the widest window hasn't the place: its offset is 2^29 or more, or its length 2^32 or more.
    /// Uses the spare node, and takes no memory.
    pub fn insert_resident(&mut self, room: SpareNode, id: &ObjectId, resident: Resident)
        ensures ids { order_ids self.new ≡ order_ids self.old }
        ensures infos { (test : ObjectId → EvictionInfo → Bool) → OthersPass id.now test self.old
            → (is_among (order_ids self.old) id.now ≡ true → test id.now (info_with_resident (info_in id.now self.old) resident self.old) ≡ true) → AllPass test self.new }
    {
        let Some(order) = &mut self.order else {
            return;
        };
        order.insert_resident(room, id, resident);
    }

    /// Takes the id out, if it is there. Takes no memory.
    pub fn forget(&mut self, id: ObjectId)
        ensures ids { order_ids self.new ≡ without_id id (order_ids self.old) }
        ensures infos { (test : ObjectId → EvictionInfo → Bool) → OthersPass id test self.old → AllPass test self.new }
    {
        let Some(order) = &mut self.order else {
            return;
        };
        order.forget(&id);
        if order.len() == 0 {
            self.order = None;
        }
    }

    /// Whether the id is there.
    pub fn has(&self, id: &ObjectId) -> bool
        ensures { result ≡ is_among (order_ids self.now) id.now }
    {
        match &self.order {
            Some(order) => order.has(id),
            None => false,
        }
    }

    /// The ids, from the least recently used on. Takes no memory.
    pub fn order(&self) -> Order<'_>
        ensures { result ≡ order_ids self.now }
    {
        match &self.order {
            Some(order) => order.order(),
            None => Order::none(),
        }
    }
}

/// The ids of a job, from the least recently used on. A contract sees those that are left.
#[derive(Drop)]
pub struct Order<'a> {
    entries: Option<Iter<'a, ObjectId, OrderSlot>>,
}

impl<'a> Model for Order<'a> {
    ghost use Rattle.std.specs.Prelude.{List, [], reverse};
    ghost use Rattle.std.specs.Map.{keys_of};
    ghost use Rattle.std.specs.Option.{option_map_or};
    ghost use Rattle.obj_id.specs.declared.ids.ObjectId.{ObjectId};

    ghost Value = { List ObjectId };

    ghost view = { λ o. option_map_or (λ es. reverse (keys_of es)) o.entries [] };
}

impl<'a> Order<'a> {
    /// No id.
    pub(crate) fn none() -> Order<'a>
        ensures { result ≡ [] }
    {
        Order { entries: None }
    }

    /// The ids of these entries, from the other end on.
    pub(crate) fn of(entries: Iter<'a, ObjectId, OrderSlot>) -> Order<'a>
        ensures { result ≡ reverse (keys_of entries.entry) }
    {
        Order {
            entries: Some(entries),
        }
    }
}

impl<'a> Iterator for Order<'a> {
    ghost use Rattle.std.specs.Iterator.{at_most};
    ghost use Rattle.std.specs.Map.Iter.{TakesFirst};

    type Item = ObjectId;

    ghost next_gives = { TakesFirst (λ x. x) };

    ghost remaining = { λ s. at_most (length s) };

    fn next(&mut self) -> Option<ObjectId> {
        let entries = self.entries.as_mut()?;
        let (id, _) = entries.next_back()?;
        Some(*id)
    }
}
