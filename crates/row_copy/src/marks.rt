//! What happens to a copy of a job.
ghost use Rattle.std.specs.Prelude.{◌≡◌};
ghost use Rattle.row_copy.specs.CopyViews.{after_placing, CanAwait};
ghost use Rattle.row_copy.specs.Marks.{marked_by, CanTake};

use crate::RowCopy;
use obj_id::{ChunkIndex, Digest, FetchNo, NodeNo, TaskNo};
use private_store::{Fault, FetchFault, WorkVerdict};

/// What happens to a copy, with no answer and no failure. `marked_by` in `specs/Marks.antt` is the table of what each makes of it.
#[derive(Drop)]
pub enum Mark {
    /// The session has no hold of it any more.
    Left(u32),
    /// It is immutable from now on, with this digest of its bytes.
    Sealed(Digest),
    /// The owner task keeps it no longer: it is doomed unless a task borrows it.
    Unpinned,
    /// The task borrows it no longer: it is doomed unless it is pinned or another task borrows it.
    GivenUp(TaskNo),
    /// It is removed as soon as nothing keeps it.
    Doomed,
    /// Grants of it stand that the job gave, or none.
    Granted(bool),
    /// A Get answered the fault of its last restore.
    FaultTold,
    /// A write of it is in flight, if it is a sealed primary that isn't on the device and has no work.
    SpillBegun,
    /// Its write under this number ended: its bytes are on the device, unless that failed.
    Written {
        number: u64,
        failed: bool,
    },
    /// Its read ended, and its bytes are in their place: it is sealed again.
    Restored,
    /// Its read ended without its bytes: it is away again, without a place, and the next Get answers the fault.
    Lost(Fault),
    /// It has a place at the offset in the window, in bytes, and waits for this there.
    Placed {
        offset: u64,
        awaited: Awaited,
    },
    /// It has no place in the window any more, and is away if it is sealed and its bytes are on the device.
    Unplaced,
    /// A chunk of `len` bytes came from this node: the gap that it fills is closed.
    GapClosed {
        number: FetchNo,
        index: ChunkIndex,
        from: NodeNo,
        len: usize,
    },
    /// All bytes of its fetch are there: it is sealed.
    Brought,
    /// Its fetch is over without it: it has no place, and the next Get answers why.
    FetchFailed(FetchFault),
}

/// What a copy that takes a place waits for.
#[derive(Drop)]
pub enum Awaited {
    /// All chunks of its bytes, if its source is known: these are missing.
    Chunks(Vec<u32>),
    /// The read of its bytes from the device.
    Device,
}

impl RowCopy {
    /// This happens to it. Takes no memory.
    pub fn apply(&mut self, mark: Mark)
        requires { CanTake mark self.old }
        ensures { self.new ≡ marked_by mark self.old }
    {
        match mark {
            Mark::Left(session) => self.pins.leave(session),
            Mark::Sealed(digest) => {
                let _ = self.marks.seal(digest);
            }
            Mark::Unpinned => self.unpin(),
            Mark::GivenUp(task) => self.give_up(task),
            Mark::Doomed => self.marks.doom(),
            Mark::Granted(granted) => self.granted = granted,
            Mark::FaultTold => {
                self.marks.take_fault();
            }
            Mark::SpillBegun => self.begin_spill(),
            Mark::Written { number, failed } => self.marks.end_spill(number, failed),
            Mark::Restored => self.marks.end_restore(WorkVerdict::Fine),
            Mark::Lost(fault) => self.lose(fault),
            Mark::Placed { offset, awaited } => self.take_place(offset, awaited),
            Mark::Unplaced => self.give_up_place(),
            Mark::GapClosed {
                number,
                index,
                from,
                len,
            } => self.take_chunk(number, index, from, len),
            Mark::Brought => self.bring(),
            Mark::FetchFailed(fault) => self.fail_fetch(fault),
        }
    }

    /// It has a place at the offset, and waits for this there.
    fn take_place(&mut self, offset: u64, awaited: Awaited)
        requires { CanAwait awaited self.old }
        ensures { self.new ≡ after_placing awaited offset self.old }
    {
        match awaited {
            Awaited::Chunks(missing) => self.begin_pull(offset, missing),
            Awaited::Device => self.begin_restore(offset),
        }
    }
}
