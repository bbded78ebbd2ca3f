//! What a node's steps leave to be done, beside the node itself.
ghost use Rattle.std.specs.Prelude.{◌≡◌};
ghost use Rattle.node_housekeeping.specs.DeviceCalls.{IsErasedIf};

use crate::device_calls::erase_all;
use crate::given_keys::{Added, LeftToErase};
use crate::job_locks::JobLocks;
use crate::marked_sessions::MarkedSessions;
use crate::pausing::Pause;
use crate::seals::Seals;
use crate::tally::{Tallies, Tally};
use crate::upkeep::Upkeep;
use crate::waiting::{Waiting, WakeScope};
use crate::waiting_keys::WaitingKeys;
use crate::work_done::WorkDone;
use obj_id::{DeviceKey, JobNo};
use spill_device::SpillDevice;
use std::alloc::Global;
use std::slice;
use std::sync::{Arc, Wait};

/// In how many queues the sessions of a node wait for its lock, by job: of each one session waits there beside those of other queues.
const QUEUES: u32 = 64;

/// How many sessions of a node may have something large that no window counts, 16 MiB each: what they make for a step, until it is made.
const MAKERS: u32 = 16;

/// What a node's steps alone see: the keys that wait, the sessions that are marked, what was counted of receipts, and what pauses a step. With it
/// is what everybody sees who serves the node.
//
// Each has a lock of its own, under which no other is taken, but for a maker's, a queue's and that of the open sessions: under the first a
// queue's and the node's are taken, under the second the node's, under the third that of the marked ones.
#[derive(Drop)]
pub struct Housekeeping<P, E, N> {
    pub upkeep: Upkeep,
    pub tallies: Tallies,
    pub marked: MarkedSessions<N>,
    pub keys: WaitingKeys<E>,
    pub queues: JobLocks,
    pub makers: JobLocks,
    pub seals: Seals,
    pub pause: P,
}

impl<P: Pause, E: Drop, N: Drop> Housekeeping<P, E, N> {
    /// Of a node that has made no step.
    pub fn new(alloc: Global, waiting: Arc<Waiting>, pause: P) -> Housekeeping<P, E, N> {
        Housekeeping {
            upkeep: Upkeep::new(alloc, waiting),
            tallies: Tallies::new(),
            marked: MarkedSessions::new(alloc),
            keys: WaitingKeys::new(alloc),
            queues: JobLocks::new(QUEUES),
            makers: JobLocks::new(MAKERS),
            seals: Seals::new(),
            pause,
        }
    }

    /// A session begins, unless there are as many as may be or there is no memory for its mark: whether it does.
    pub fn begin_session<R: Wait>(&self, rt: &R) -> bool {
        self.upkeep.sessions.begin(rt, &self.marked)
    }

    /// Lets the keys of a step wait, of which there are so many, and wakes the worker, if it has something to do, and who waits for what the
    /// step may have moved for this job. The node is locked, so that nobody is between a look and a wait.
    pub fn after_step<R: Wait>(
        &self,
        rt: &R,
        erase: E,
        keys: u64,
        has_work: bool,
        job: JobNo,
        wake_scope: WakeScope,
    ) -> LeftToErase<E>
        ensures of { result.of.value ≡ erase }
        ensures keys { result.keys.value ≡ keys }
    {
        let Added { left, wait, lost } = self.keys.add(rt, erase, keys);
        self.tallies.unerased(rt, lost);
        if wait || has_work {
            self.upkeep.bell.ask(rt);
        }
        self.upkeep.waiting.note(rt, job, wake_scope);
        left
    }

    /// Erases what was written for a work, if that is no more.
    pub fn erase_stale<R: Wait, D: SpillDevice>(
        &self,
        rt: &R,
        device: &mut D,
        written: Option<DeviceKey>,
        done: WorkDone,
    )
        ensures { IsErasedIf D.erase_gives done device.old written device.new }
    {
        if let (WorkDone::Stale, Some(key)) = (done, written) {
            let failed = erase_all(device, slice::from_ref(&key));
            self.tallies.unerased(rt, failed);
        }
    }

    /// What was counted. Keys that still wait weren't erased.
    pub fn counted<R: Wait>(&self, rt: &R) -> Tally {
        let mut tally = self.tallies.now(rt);
        tally.unerased = tally.unerased.saturating_add(self.keys.count(rt));
        tally
    }
}
