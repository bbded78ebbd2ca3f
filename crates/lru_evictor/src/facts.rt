//! What a plan for room reads, and what it may be.
ghost use Rattle.std.specs.Prelude.{◌≡◌, Option, None, true, false};
ghost use Rattle.obj_id.specs.declared.ids.ObjectId.{ObjectId};
ghost use Rattle.lru_evictor.specs.Facts.{info_of};
ghost use Rattle.lru_evictor.specs.Orders.{may_lie as may_stand_lem, stood as stood_lem};

use obj_id::{Extent, ObjectId};
use use_tree::VictimClasses;

/// Where a copy lies, and the classes of victims that it is in.
#[derive(Clone, Copy, Debug, PartialEq, Eq)]
pub struct EvictionInfo {
    /// Where it lies in the window, if it is resident.
    pub extent: Option<Extent>,
    /// The classes of victims that it is in.
    pub classes: VictimClasses,
}

impl EvictionInfo {
    /// That of a copy that lies nowhere, and is in no class of victims.
    pub fn nowhere() -> EvictionInfo
        ensures { result ≡ record { extent = None; classes = record { evictable = false; draining = false; spillable = false } } }
    {
        EvictionInfo {
            extent: None,
            classes: VictimClasses::none(),
        }
    }
}

/// What the plan reads of a copy.
#[derive(Clone, Copy, Debug)]
pub struct CopyFacts {
    /// Where it lies in the window, if it is resident.
    pub extent: Option<Extent>,
    /// Its length in bytes, rounded up to 16: what spilling it takes of the device.
    pub bytes: u64,
    /// Sealed, idle, and a secondary or backed: it may be evicted.
    pub evictable: bool,
    /// Resident and working, neither held nor granted: it may be evicted once its work has ended.
    pub draining: bool,
    /// A sealed primary that is idle, not backed and not doomed: it may be spilled.
    pub spillable: bool,
}

impl CopyFacts {
    /// Where the copy lies, and the classes of victims that it is in.
    pub fn eviction_info(self) -> EvictionInfo
        ensures { result ≡ info_of self }
    {
        EvictionInfo {
            extent: self.extent,
            classes: VictimClasses {
                evictable: self.evictable,
                draining: self.draining,
                spillable: self.spillable,
            },
        }
    }
}

/// The copies of one job, looked up by their ids.
pub trait CopyLookup {
    ghost use Rattle.lru_evictor.specs.declared.facts.CopyFacts.{CopyFacts};

    ghost facts: { Self → ObjectId → Option CopyFacts };

    /// What the plan reads of the copy of the id, or `None` if there is none.
    fn facts(&self, id: &ObjectId) -> Option<CopyFacts>
        ensures { result ≡ facts self.now id.now };
}

/// What the device has of a job.
#[derive(Clone, Copy, Debug)]
pub struct DeviceRoom {
    /// The bytes that the job may have there.
    pub quota: u64,
    /// The bytes that it has there, those that are being written among them.
    pub used: u64,
    /// How many of its works are in flight.
    pub works: usize,
}

/// How room is made.
#[derive(Clone, Copy, Debug)]
pub enum Plan {
    /// It is there.
    Fits,
    /// Copies are to be evicted: those that `UseOrder::victims` lists.
    Evict,
    /// Once the works in flight have ended there is room.
    Wait,
    /// There is none, or no device bytes for what would have to be spilled.
    Full,
    /// As many works are in flight as may be.
    Busy,
    /// So many copies are to be spilled: those that `UseOrder::spillable` lists.
    Spill(usize),
}

/// Whether these are the same.
pub(crate) fn are_same(a: EvictionInfo, b: EvictionInfo) -> bool
    ensures { result ≡ true → a ≡ b }
{
    a == b
}

/// How a copy stands that stood so, and of which this is said: it can't come to lie anywhere by that.
pub(crate) fn stood(before: EvictionInfo, after: EvictionInfo) -> EvictionInfo
    ensures stood { result ≡ stood_lem before after }
    ensures stands { may_stand_lem before.extent result.extent ≡ true }
{
    if may_stand(before.extent, after.extent) {
        after
    } else {
        before
    }
}

/// Whether a copy that lay there may be said to lie so: where it lay, or nowhere.
fn may_stand(before: Option<Extent>, after: Option<Extent>) -> bool
    ensures { result ≡ may_stand_lem before after }
{
    match (before, after) {
        (_, None) => true,
        (None, Some(_)) => false,
        (Some(b), Some(a)) => b.offset == a.offset && b.length == a.length,
    }
}
