//! What happens to a copy that stays.
ghost use Rattle.std.specs.Prelude.{◌≡◌, Some};
ghost use Rattle.private_store.specs.rules.Marks.{marked};
ghost use Rattle.private_store.specs.rules.Marks as mark;
ghost use Rattle.plain_store.specs.Changing.{store_changed};
ghost use Rattle.plain_store.specs.Parts.{plain_phase_of};
ghost use Rattle.plain_store.specs.Marks.{fetch_under, mark_of};

use crate::copies::{FetchPhase, PlainCopy, PlainFetch};
use crate::store::PlainStore;
use obj_id::{CopyState, FetchNo, NodeNo, ObjectId, TaskNo};
use private_store::{Fault, FetchFault, Source};

/// What happens to a copy that stays, and takes no memory. `mark_of` in `specs/Marks.antt` says which mark of the rules each
/// is, and their `marked` what the copy is then.
#[derive(Drop)]
pub(crate) enum Mark {
    /// It is immutable from now on.
    Sealed,
    /// The session has no hold of it any more.
    Left(u32),
    /// Its owner task keeps it no longer.
    Unpinned,
    /// The task refers to it no longer.
    GivenUp(TaskNo),
    /// It is removed as soon as nothing keeps it.
    Doomed,
    /// It has no extent any more: its bytes are on the device alone.
    Evicted,
    /// The write under this number put its bytes on the device.
    Backed(u64),
    /// It has an extent again, from this offset on, and its bytes are asked for.
    Restoring(u32),
    /// Its bytes were read.
    Restored,
    /// They weren't: it is on the device alone, with a fault for the next Get to tell of.
    Lost(Fault),
    /// The fault of its last restore was the answer of a Get.
    FaultTold,
    /// Its fetch has a source, or there is no copy anywhere.
    Located {
        number: FetchNo,
        source: Option<Source>,
    },
    /// A chunk came from the source, and these are missing.
    Lacking {
        number: FetchNo,
        source: NodeNo,
        missing: Vec<u32>,
    },
    /// The last chunk came.
    Brought,
    /// Its fetch is over without a copy, for the next Get to tell why.
    FetchFailed {
        number: FetchNo,
        fault: FetchFault,
    },
}

impl PlainCopy {
    /// This happens to it. Takes no memory.
    pub(crate) fn apply(&mut self, mark: Mark)
        ensures { self.new ≡ marked (mark_of mark) self.old }
    {
        match mark {
            Mark::Sealed => self.state = CopyState::Sealed,
            Mark::Left(session) => self.remove_holds(session),
            Mark::Unpinned => self.pinned = false,
            Mark::GivenUp(task) => self.remove_borrower(task),
            Mark::Doomed => self.doomed = true,
            Mark::Evicted => self.take_away(),
            Mark::Backed(number) => self.backed = Some(number),
            Mark::Restoring(offset) => self.begin_restore(offset),
            Mark::Restored => self.state = CopyState::Sealed,
            Mark::Lost(fault) => self.lose(fault),
            Mark::FaultTold => self.fault = None,
            Mark::Located { number, source } => self.locate(number, source),
            Mark::Lacking {
                number,
                source,
                missing,
            } => self.set_phase(number, FetchPhase::Pulling(source, missing)),
            Mark::Brought => self.bring(),
            Mark::FetchFailed { number, fault } => self.fail(number, fault),
        }
    }

    /// It is on the device alone.
    fn take_away(&mut self)
        ensures { self.new ≡ marked mark.evicted self.old }
    {
        self.state = CopyState::Away;
        self.offset = None;
    }

    /// Its extent begins at the offset, and its bytes are asked for.
    fn begin_restore(&mut self, offset: u32)
        ensures { self.new ≡ marked (mark.restoring offset) self.old }
    {
        self.state = CopyState::Restoring;
        self.offset = Some(u64::from(offset));
    }

    /// It is on the device alone, with a fault for the next Get to tell of.
    fn lose(&mut self, fault: Fault)
        ensures { self.new ≡ marked (mark.lost fault) self.old }
    {
        self.take_away();
        self.fault = Some(fault);
    }

    /// Its fetch is in this phase.
    fn set_phase(&mut self, number: FetchNo, phase: FetchPhase)
        ensures { self.new ≡ record self.old { fetch = Some (record { number = number; phase = plain_phase_of phase }) } }
    {
        self.fetch = Some(PlainFetch { number, phase });
    }

    /// Its fetch has a source and a length, or there is no copy anywhere.
    fn locate(&mut self, number: FetchNo, source: Option<Source>)
        ensures { self.new ≡ marked (mark.located (fetch_under number) source) self.old }
    {
        match source {
            Some(source) => {
                self.length = source.length;
                self.set_phase(number, FetchPhase::Sized(NodeNo(source.node)));
            }
            None => self.set_phase(number, FetchPhase::Failed(FetchFault::Absent)),
        }
    }

    /// All its chunks are there: it is sealed.
    fn bring(&mut self)
        ensures { self.new ≡ marked mark.brought self.old }
    {
        self.state = CopyState::Sealed;
        self.fetch = None;
    }

    /// Its fetch is over with this fault, and its extent is given back.
    fn fail(&mut self, number: FetchNo, fault: FetchFault)
        ensures { self.new ≡ marked (mark.fetch_failed (fetch_under number) fault) self.old }
    {
        self.offset = None;
        self.set_phase(number, FetchPhase::Failed(fault));
    }
}

impl PlainStore {
    /// This happens to the copy of the id, if there is one. Takes a look-up and no memory.
    pub(crate) fn apply(&mut self, id: ObjectId, mark: Mark)
        ensures { self.new ≡ record self.old { shape = store_changed (marked (mark_of mark)) self.old.shape id } }
    {
        if let Some(copy) = self.copy_mut(id) {
            copy.apply(mark);
        }
    }
}
