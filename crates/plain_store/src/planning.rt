//! The plan for room: which copies go, and what is asked of the device if none that may go would be enough.
ghost use Rattle.std.specs.Prelude.{◌≡◌, true, false, IfOk};
ghost use Rattle.std.specs.Option.{option_map_or};
ghost use Rattle.private_store.specs.rules.Tables.{at};
ghost use Rattle.private_store.specs.rules.Limits.{is_quota};
ghost use Rattle.private_store.specs.rules.Room.{in_order as in_order_lem, plan as plan_lem};
ghost use Rattle.plain_store.specs.Plans.{chosen_by, shown_plan, evict_plan, works_plan, spill_or_wait};

use crate::store::PlainStore;
use memory_growth::{OutOfMemory, lists};
use obj_id::ObjectId;
use std::alloc::Global;

/// What a walk of the order of use looks for.
#[derive(Clone, Copy, Debug, PartialEq, Eq)]
pub(crate) enum Choice {
    Evictable,
    /// What the end of a work, with nothing else, would let go.
    Passing,
    Spillable,
}

/// How room is made.
#[derive(Debug, Drop)]
pub(crate) enum Plan {
    Fits,
    /// Least recently used first.
    Evict(Vec<ObjectId>),
    /// Works in flight will make room.
    Wait,
    Full,
    /// As many works are in flight as there may be.
    Busy,
    /// Least recently used first.
    Spill(Vec<ObjectId>),
}

impl PlainStore {
    /// Whether the copy of the id is chosen, if there is one. Takes a look-up, and a walk over the works and the grants given.
    fn is_chosen(&self, choice: Choice, id: ObjectId) -> bool
        ensures { result ≡ option_map_or (chosen_by choice self.now.shape id) (at self.now.shape.copies id) false }
    {
        let Some(copy) = self.copy(id) else {
            return false;
        };
        match choice {
            Choice::Evictable => self.is_evictable(id, copy),
            Choice::Passing => self.is_draining(id, copy),
            Choice::Spillable => self.is_spillable(id, copy),
        }
    }

    /// The copies that are chosen, least recently used first. The error is out of memory.
    fn in_order(&self, alloc: Global, choice: Choice) -> Result<Vec<ObjectId>, OutOfMemory>
        ensures { IfOk result (λ ids. ids.items ≡ in_order_lem self.now.shape self.now.order (chosen_by choice self.now.shape)) }
    {
        let mut ids = Vec::new(alloc);
        for id in &self.order {
            if self.is_chosen(choice, *id) {
                lists::push(&mut ids, *id)?;
            }
        }
        Ok(ids)
    }

    /// How room for an object of `length` bytes is made. Takes some twenty tries for each class of victims, and fewer if few have to go; each costs
    /// at most the square of the number of copies. The error is out of memory.
    pub(crate) fn plan(&self, alloc: Global, length: u32) -> Result<Plan, OutOfMemory>
        requires { is_quota self.now.shape.quota ≡ true }
        ensures { IfOk result (λ p. shown_plan p ≡ plan_lem self.now.order self.now.shape length) }
    {
        let evictable = self.in_order(alloc, Choice::Evictable)?;
        let victims = self.shortest(alloc, length, &[], &evictable)?;
        match victims {
            Some(ids) => Ok(evicting(ids)),
            None => self.plan_works(alloc, length, evictable),
        }
    }

    /// How room is made if evicting won't do.
    fn plan_works(
        &self,
        alloc: Global,
        length: u32,
        evictable: Vec<ObjectId>,
    ) -> Result<Plan, OutOfMemory>
        requires quota { is_quota self.now.shape.quota ≡ true }
        requires evictable { evictable.items ≡ in_order_lem self.now.shape self.now.order (chosen_by Choice.Evictable self.now.shape) }
        ensures { IfOk result (λ p. shown_plan p ≡ works_plan self.now.order self.now.shape length) }
    {
        let mut passing = evictable;
        lists::extend_from_slice(&mut passing, &self.in_order(alloc, Choice::Passing)?)?;
        let spillable = self.in_order(alloc, Choice::Spillable)?;
        match self.shortest(alloc, length, &passing, &spillable)? {
            Some(ids) => Ok(self.spilling(ids)),
            None => Ok(Plan::Full),
        }
    }

    /// The plan that spills these copies, if there are any: all of them must fit the device quota, and as many as there are
    /// works left are asked for.
    fn spilling(&self, ids: Vec<ObjectId>) -> Plan
        requires { is_quota self.now.shape.quota ≡ true }
        ensures { shown_plan result ≡ spill_or_wait self.now.shape ids.items }
    {
        if ids.is_empty() {
            return Plan::Wait;
        }
        if self.passes_quota(self.device_used_or_max(), &ids) {
            return Plan::Full;
        }
        let left = self.works_left();
        if left == 0 {
            return Plan::Busy;
        }
        let mut asked = ids;
        asked.truncate(left);
        Plan::Spill(asked)
    }
}

/// The plan that evicts these copies, if there are any.
fn evicting(ids: Vec<ObjectId>) -> Plan
    ensures { shown_plan result ≡ evict_plan ids.items }
{
    if ids.is_empty() {
        return Plan::Fits;
    }
    Plan::Evict(ids)
}
