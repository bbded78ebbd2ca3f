//! What a session asks and what it is answered.
ghost use Rattle.std.specs.Prelude.{◌≡◌};
ghost use Rattle.obj_id.specs.Kinds.{is_primary};

use crate::{ItemList, JobNo, ObjectId, Refusal, TaskNo, Work};

/// What a copy is: the first copy of an object, or one made by a transfer.
#[derive(Clone, Copy, Debug, PartialEq, Eq)]
pub enum Kind {
    /// The first copy, kept while the object is in scope.
    Primary,
    /// A copy made by a transfer, which may be evicted.
    Secondary,
}

impl Kind {
    /// Whether it is the first copy.
    pub fn is_primary(self) -> bool
        ensures { result ≡ is_primary self }
    {
        matches!(self, Kind::Primary)
    }
}

/// Where a copy's bytes are.
#[derive(Clone, Copy, Debug, PartialEq, Eq)]
pub enum CopyState {
    /// In the window, being written.
    Created,
    /// In the window, and immutable.
    Sealed,
    /// On the device, and being read back into the window.
    Restoring,
    /// On its way from another node.
    Fetching,
    /// On the device alone.
    Away,
}

/// A command of a session. `P` stands for written bytes: the bytes themselves, or their number.
/// Offsets, lengths and counts are in bytes.
#[derive(Clone, Copy, Debug, PartialEq, Eq, Drop)]
pub enum Command<P> {
    /// A copy of this kind and length, to be written.
    Create {
        id: ObjectId,
        kind: Kind,
        length: u32,
    },
    /// Bytes put into a created copy, from an offset on.
    Write {
        id: ObjectId,
        offset: u32,
        bytes: P,
    },
    /// The copy becomes immutable.
    Seal(ObjectId),
    /// A hold of this session on the copy, which brings it here if it isn't.
    Get(ObjectId),
    /// Bytes of a held copy.
    Read {
        id: ObjectId,
        offset: u32,
        count: u32,
    },
    /// One hold of this session less.
    Release(ObjectId),
    /// The owner task keeps its primary no longer.
    Unpin(ObjectId, TaskNo),
    /// A task refers to the object.
    Borrow(ObjectId, TaskNo),
    /// A task refers to the object no longer.
    GiveUp(ObjectId, TaskNo),
    /// The copy is removed as soon as nothing keeps it.
    Delete(ObjectId),
    /// The task has ended: its objects go, and its borrows.
    EndTask(TaskNo),
    /// Another job may peek at the object.
    Grant(ObjectId, JobNo),
    /// And no longer.
    Withdraw(ObjectId, JobNo),
    /// Bytes of an object that another job granted.
    Peek {
        id: ObjectId,
        offset: u32,
        count: u32,
    },
    /// All copies of the job, and what was granted to it.
    List,
    /// Quotas and what is used of them.
    Usage,
    /// All holds of this session go.
    Leave,
}

/// One of the job's own copies, as `List` shows it. The length of a fetch that isn't sized is 0.
#[derive(Clone, Copy, Debug, PartialEq, Eq)]
pub struct OwnItem {
    pub id: ObjectId,
    pub state: CopyState,
    pub kind: Kind,
    pub length: u32,
}

/// An object granted to the job, as `List` shows it, with the depth of its oldest standing grant.
#[derive(Clone, Copy, Debug, PartialEq, Eq)]
pub struct GrantedItem {
    pub id: ObjectId,
    pub length: u32,
    pub depth: u32,
}

/// A job's quotas at a node and what is used of them, in bytes and in numbers.
#[derive(Clone, Copy, Debug, PartialEq, Eq)]
pub struct Usage {
    pub window: u64,
    pub window_used: u64,
    pub device: u64,
    pub device_used: u64,
    pub copies: u64,
    pub works: u64,
}

/// What is answered. `P` stands for bytes: the bytes themselves, or their number.
#[derive(Debug, PartialEq, Eq, Drop)]
pub enum Reply<P> {
    Ok,
    /// Where a new copy lies in the window: its offset, and how many bytes it takes there.
    Placed(u32, u32),
    /// The length of the object that is held now.
    Got(u32),
    Bytes(P),
    /// The own copies by rising id, and then the granted objects by rising id.
    List(ItemList<OwnItem>, ItemList<GrantedItem>),
    Usage(Usage),
    /// A work for a device worker.
    Work(Work<P>),
    /// No work waits.
    NoWork,
    Refused(Refusal),
}
