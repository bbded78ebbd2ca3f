//! Room in the window: what is evicted, and what is asked of the device.
ghost use Rattle.std.specs.Prelude.{◌≡◌, ◌+◌, ◌<◌, ◌≤◌, ◌^◌, fold, length, not, true, false, Err, nat_lt, IfOk, OnOk};
ghost use Rattle.std.specs.Option.{option_map_or};
ghost use Rattle.obj_id.specs.Kinds.{is_primary};
ghost use Rattle.private_store.specs.rules.Tables.{at};
ghost use Rattle.private_store.specs.rules.Limits.{widest_window, has_numbers, is_quota};
ghost use Rattle.private_store.specs.rules.Extents.{rounded as rounded_lem};
ghost use Rattle.private_store.specs.rules.Room.{evicted, asked, evict_room, spill_room, make_room, works_left, bytes_of_copies};

use crate::copies::PlainWork;
use crate::marks::Mark;
use crate::planning::Plan;
use crate::store::PlainStore;
use memory_growth::{OutOfMemory, lists};
use obj_id::limits::MOST_WORKS;
use obj_id::{ObjectId, Refusal};
use private_store::rounded;
use std::alloc::Global;

/// Where an object goes, or why it has no room, unless memory runs out.
pub(crate) type Room = Result<Result<u32, Refusal>, OutOfMemory>;

impl PlainStore {
    /// The copy is evicted, if there is one: a secondary is removed, and a primary is away. Takes two look-ups and no memory.
    pub(crate) fn evict(&mut self, id: ObjectId)
        ensures { self.new ≡ record self.old { shape = evicted self.old.shape id } }
    {
        if self.has_secondary(id) {
            self.remove(id);
        } else {
            self.apply(id, Mark::Evicted);
        }
    }

    /// Whether there is a secondary copy of the id.
    fn has_secondary(&self, id: ObjectId) -> bool
        ensures { result ≡ option_map_or (λ copy. not (is_primary copy.kind)) (at self.now.shape.copies id) false }
    {
        match self.copy(id) {
            Some(copy) => !copy.kind.is_primary(),
            None => false,
        }
    }

    /// These copies are evicted, as far as they are there.
    pub(crate) fn evict_all(&mut self, ids: &[ObjectId])
        ensures { self.new ≡ record self.old { shape = fold evicted self.old.shape ids.now } }
    {
        for id in ids {
            self.evict(*id);
        }
    }

    /// A work for the copy is asked for, under the next number. The error is out of memory.
    pub(crate) fn ask(&mut self, writes: bool, id: ObjectId) -> Result<(), OutOfMemory>
        requires { self.old.shape.works_asked + 1 < 2 ^ 64 }
        ensures { OnOk result (self.new ≡ record self.old { shape = asked writes self.old.shape id }) }
    {
        let number = self.works_asked + 1;
        lists::push(&mut self.works, PlainWork { number, id, writes })?;
        self.works_asked = number;
        Ok(())
    }

    /// Works for these copies are asked for, one after the other. The error is out of memory.
    pub(crate) fn ask_all(&mut self, writes: bool, ids: &[ObjectId]) -> Result<(), OutOfMemory>
        requires { self.old.shape.works_asked + length ids.now < 2 ^ 64 }
        ensures { OnOk result (self.new ≡ record self.old { shape = fold (asked writes) self.old.shape ids.now }) }
    {
        for id in ids {
            self.ask(writes, *id)?;
        }
        Ok(())
    }

    /// These copies are evicted, and where the object then goes.
    fn evict_room(&mut self, alloc: Global, length: u32, ids: &[ObjectId]) -> Room
        requires { self.old.shape.quota.window ≤ widest_window }
        ensures offset { IfOk result (λ offset. offset ≡ (evict_room self.old.shape length ids.now).offset) }
        ensures store { OnOk result (self.new ≡ record self.old { shape = (evict_room self.old.shape length ids.now).shape }) }
    {
        let offset = self.offset_without(alloc, length, ids)?;
        self.evict_all(ids);
        Ok(offset.ok_or(Refusal::Full))
    }

    /// Works that spill these copies are asked for, unless a spill failed since room was last refused for it, or their
    /// numbers run out: and why there is no room yet. The error is out of memory.
    fn spill_room(&mut self, ids: &[ObjectId]) -> Result<Refusal, OutOfMemory>
        ensures refusal { IfOk result (λ refusal. Err refusal ≡ (spill_room self.old.shape ids.now).offset) }
        ensures store { OnOk result (self.new ≡ record self.old { shape = (spill_room self.old.shape ids.now).shape }) }
    {
        if self.spill_failed {
            self.spill_failed = false;
            return Ok(Refusal::DeviceFailed);
        }
        if !self.has_numbers(ids.len()) {
            return Ok(Refusal::TooMany);
        }
        self.ask_all(true, ids)?;
        Ok(Refusal::Pending)
    }

    /// Whether `count` more numbers of works are left.
    pub(crate) fn has_numbers(&self, count: usize) -> bool
        ensures { result ≡ has_numbers self.now.shape.works_asked count }
    {
        self.works_asked.checked_add(count as u64).is_some()
    }

    /// How many works may still be asked for.
    pub(crate) fn works_left(&self) -> usize
        ensures { result ≡ works_left self.now.shape }
    {
        MOST_WORKS.saturating_sub(self.works.len())
    }

    /// The device bytes that spilling the copy takes.
    fn bytes_of_copy(&self, id: ObjectId) -> u64
        ensures { result ≡ option_map_or (λ copy. rounded_lem copy.length) (at self.now.shape.copies id) 0 }
    {
        match self.copy(id) {
            Some(copy) => rounded(copy.length),
            None => 0,
        }
    }

    /// Whether spilling these copies beside `used` bytes would pass the device quota. Takes a look-up each.
    pub(crate) fn passes_quota(&self, used: u64, ids: &[ObjectId]) -> bool
        ensures { result ≡ nat_lt self.now.shape.quota.device (used + bytes_of_copies self.now.shape ids.now) }
    {
        let quota = self.quota.device;
        if used > quota {
            return true;
        }
        let mut left = quota - used;
        for id in ids {
            let bytes = self.bytes_of_copy(*id);
            if bytes > left {
                return true;
            }
            left -= bytes;
        }
        false
    }

    /// Makes room for an object of `length` bytes by the rule of room: copies are evicted, or works that spill some are asked
    /// for. Where the object then goes; `Pending` if works in flight will make room, `Busy` at 8 works, `DeviceFailed` once
    /// after a spill failed, `TooMany` if no numbers of works are left, and otherwise `Full`. The error is out of memory.
    pub(crate) fn make_room(&mut self, alloc: Global, length: u32) -> Room
        requires { is_quota self.old.shape.quota ≡ true }
        ensures offset { IfOk result (λ offset. offset ≡ (make_room self.old.order self.old.shape length).offset) }
        ensures store { OnOk result (self.new ≡ record self.old { shape = (make_room self.old.order self.old.shape length).shape }) }
    {
        match self.plan(alloc, length)? {
            Plan::Fits => self.evict_room(alloc, length, &[]),
            Plan::Evict(ids) => self.evict_room(alloc, length, &ids),
            Plan::Wait => Ok(Err(Refusal::Pending)),
            Plan::Full => Ok(Err(Refusal::Full)),
            Plan::Busy => Ok(Err(Refusal::Busy)),
            Plan::Spill(ids) => Ok(Err(self.spill_room(&ids)?)),
        }
    }
}
