//! The order of use, and plans that take memory. Which copies go, and when none does, is a matter of contracts, and of
//! worked schedules.
use assertions::holds;
use extent_tree::{Resident, SpareNode};
use indexmap::IndexMap;
use job_region::Window;
use lru_evictor::{CopyFacts, CopyLookup, DeviceRoom, Plan, UseOrder};
use memory_growth::tables;
use obj_id::{ItemList, JobNo, ObjectId, Refusal, TaskNo};
use std::alloc::Global;
use std::test::Fail;

/// A copy that stays: created, held or granted.
const STAYS: CopyFacts = CopyFacts {
    extent: None,
    bytes: 0,
    evictable: false,
    draining: false,
    spillable: false,
};

const EVICTABLE: CopyFacts = CopyFacts {
    extent: None,
    bytes: 0,
    evictable: true,
    draining: false,
    spillable: false,
};

const SPILLABLE: CopyFacts = CopyFacts {
    extent: None,
    bytes: 0,
    evictable: false,
    draining: false,
    spillable: true,
};

/// A device with room for 64 bytes more.
const DEVICE: DeviceRoom = DeviceRoom {
    quota: 80,
    used: 16,
    works: 0,
};

/// The copies of a job, by their ids.
#[derive(Drop)]
struct Copies {
    by_id: IndexMap<ObjectId, CopyFacts>,
}

impl CopyLookup for Copies {
    ghost use Rattle.indexmap.specs.IndexMap.{get};
    ghost use Rattle.obj_id.specs.Ids.{id_eq};

    ghost facts = { λ copies id. get id_eq copies.by_id id };

    fn facts(&self, id: &ObjectId) -> Option<CopyFacts> {
        self.by_id.get(id).copied()
    }
}

/// A job's window with copies in it, and the order of their use.
#[derive(Drop)]
struct Store {
    window: Window,
    order: UseOrder,
    copies: Copies,
}

impl Store {
    fn new(alloc: Global, quota: u64) -> Result<Store, Refusal> {
        Ok(Store {
            window: Window::new(alloc, quota)?,
            order: UseOrder::new(alloc),
            copies: Copies {
                by_id: IndexMap::new(alloc),
            },
        })
    }

    /// A copy at the first place that is free, used last.
    fn add(
        &mut self,
        alloc: Global,
        index: u32,
        len: u32,
        facts: CopyFacts,
    ) -> Result<(), Refusal> {
        let id = object(index)?;
        let room = SpareNode::new(alloc)?;
        let extent = self.window.place(len)?;
        let facts = CopyFacts {
            extent: Some(extent),
            bytes: extent.length,
            ..facts
        };
        let classes = facts.eviction_info().classes;
        tables::insert(&mut self.copies.by_id, id, facts)?;
        self.order.enter(id)?;
        self.order
            .insert_resident(room, &id, Resident { extent, classes });
        Ok(())
    }

    /// The plan for so many bytes, and the copies that are to go.
    fn plan(&mut self, alloc: Global, len: u32, device: DeviceRoom) -> Result<Planned, Refusal> {
        let plan = self.order.plan(len, device, &self.window, &self.copies);
        let ids = match plan {
            Plan::Evict => self.order.victims(alloc, len, &self.window, &self.copies)?,
            Plan::Spill(count) => self.order.spillable(alloc, count)?,
            _ => ItemList::new(alloc),
        };
        Ok(Planned { plan, ids })
    }
}

/// A plan, and the copies that are to go.
#[derive(Drop)]
struct Planned {
    plan: Plan,
    ids: ItemList<ObjectId>,
}

fn object(index: u32) -> Result<ObjectId, Refusal> {
    ObjectId::new(TaskNo::numbered(7), JobNo(1), index)
}

/// Whether these are the ids of these indexes.
fn are(ids: &[ObjectId], indexes: &[u32]) -> bool {
    ids.len() == indexes.len()
        && ids
            .iter()
            .zip(indexes)
            .all(|(id, index)| id.index() == *index)
}

fn evicts(planned: &Planned, indexes: &[u32]) -> bool {
    matches!(planned.plan, Plan::Evict) && are(planned.ids.as_slice(), indexes)
}

fn spills(planned: &Planned, indexes: &[u32]) -> bool {
    matches!(planned.plan, Plan::Spill(_)) && are(planned.ids.as_slice(), indexes)
}

/// Whether the ids, from the least recently used on, have these indexes.
fn stands(order: &UseOrder, indexes: &[u32]) -> bool {
    let mut left = order.order();
    for index in indexes {
        if left.next().map(|id| id.index()) != Some(*index) {
            return false;
        }
    }
    left.next().is_none()
}

/// Enters ids of these indexes.
fn enter_all(order: &mut UseOrder, indexes: &[u32]) -> Result<(), Refusal> {
    for index in indexes {
        order.enter(object(*index)?)?;
    }
    Ok(())
}

#[test]
fn ids_stand_in_the_order_of_their_use(rt: HostRuntime) -> Result<(), Fail> {
    let mut order = UseOrder::new(rt.alloc());
    enter_all(&mut order, &[4, 1, 2, 3, 5, 6, 7, 8, 9])?;
    holds!(rt; stands(&order, &[4, 1, 2, 3, 5, 6, 7, 8, 9]));
    enter_all(&mut order, &[4])?;
    holds!(rt; stands(&order, &[1, 2, 3, 5, 6, 7, 8, 9, 4]));
    Ok(())
}

/// The plan for so many bytes in a window of so many, with these copies by rising use.
fn plan(
    alloc: Global,
    window: u64,
    copies: &[(u32, CopyFacts)],
    len: u32,
    device: DeviceRoom,
) -> Result<Planned, Refusal> {
    let mut store = Store::new(alloc, window)?;
    let mut index = 1;
    for (bytes, facts) in copies {
        store.add(alloc, index, *bytes, *facts)?;
        index = index.saturating_add(1);
    }
    store.plan(alloc, len, device)
}

#[test]
fn the_shortest_beginning_is_evicted(rt: HostRuntime) -> Result<(), Fail> {
    let held = [(16, EVICTABLE), (16, STAYS), (32, EVICTABLE)];
    let plan = plan(rt.alloc(), 64, &held, 32, DEVICE)?;
    holds!(rt; evicts(&plan, &[1, 3]));
    Ok(())
}

#[test]
fn spills_are_asked_for_if_nothing_may_go(rt: HostRuntime) -> Result<(), Fail> {
    let two = [(32, SPILLABLE), (32, SPILLABLE)];
    let plan = plan(rt.alloc(), 64, &two, 33, DEVICE)?;
    holds!(rt; spills(&plan, &[1, 2]));
    Ok(())
}
