//! How a call waits: until something may have moved for its job, at any node.
ghost use Rattle.std.specs.Prelude.{◌<◌};

use crate::client::is_gone;
use bytes::Bytes;
use command_kinds::{CommandKind, Moved};
use obj_id::{JobNo, Refusal, Reply};
use private_store::{ChunkVerdict, Judged};
use std::array;
use std::os::unix::net::UnixStream;
use std::sync::atomic::{AtomicBool, Ordering};
use std::sync::{Condvar, CondvarTimeouts, Mutex, Wait};
use std::time::{Clock, Duration};

/// How long a call waits until it looks whether its client is still there, and for the next of the chunks that it has asked for until
/// it asks again, in milliseconds: some may be lost.
const PATIENCE: u64 = 2_000;

/// What a step may have moved for the job's calls that wait.
#[derive(Clone, Copy, PartialEq, Eq)]
pub enum WakeScope {
    /// Nothing that a call waits for.
    Nothing,
    /// A chunk came, and its fetch isn't over.
    Chunk,
    /// Room, or a copy that is here.
    Copies,
    /// A fetch, or what another node has of what is fetched.
    Fetches,
    /// What other jobs have, too.
    AllJobs,
}

/// How often the copies of a job moved, how often its fetches did, and how many chunks came beside.
#[derive(Clone, Copy, PartialEq, Eq)]
pub struct Versions {
    pub copies: u64,
    pub fetches: u64,
    pub chunks: u64,
}

/// What moved for the jobs of all nodes, and who waits for it.
#[derive(Drop)]
pub struct Waiting {
    bells: [Bell; 64],
    shut: AtomicBool,
}

/// The counts of a job, and who waits for them: one step wakes the calls of its own job. Jobs that share a bell are woken for one
/// another, and find nothing new.
#[derive(Drop)]
struct Bell {
    moved: Mutex<Versions>,
    // something has moved, or the nodes are shut
    changed: Condvar,
}

impl Waiting {
    /// Nobody waits, and nothing has moved.
    pub fn new() -> Waiting {
        Waiting {
            bells: array::from_fn(|_| Bell::new()),
            shut: AtomicBool::new(false),
        }
    }

    /// The bell of the job.
    fn bell(&self, job: JobNo) -> &Bell {
        &self.bells[place_of(job)]
    }

    /// Whether the nodes are shut.
    pub fn is_shut(&self) -> bool {
        self.shut.load(Ordering::SeqCst)
    }

    /// Shuts the nodes: nobody waits any longer.
    pub fn shut<R: Wait>(&self, rt: &R) {
        self.shut.store(true, Ordering::SeqCst);
        for bell in &self.bells {
            bell.ring(rt);
        }
    }

    /// The counts of the job.
    pub fn seen<R: Wait>(&self, rt: &R, job: JobNo) -> Versions {
        *self.bell(job).moved.lock(rt)
    }

    /// Counts what a step of the job may have moved, and wakes who waits for it.
    pub fn note<R: Wait>(&self, rt: &R, job: JobNo, wake_scope: WakeScope) {
        match wake_scope {
            WakeScope::Nothing => {}
            WakeScope::AllJobs => {
                for bell in &self.bells {
                    bell.count(rt, wake_scope);
                }
            }
            _ => self.bell(job).count(rt, wake_scope),
        }
    }

    /// Waits for what the next try of a call may find, by the counts of the last one, and whether that asked for chunks; no longer than
    /// its client is there.
    pub fn await_next<R: Wait + Clock>(
        &self,
        rt: &R,
        job: JobNo,
        seen: Versions,
        is_pulling: bool,
        client: Option<&UnixStream>,
    ) {
        if is_pulling {
            self.await_chunks(rt, job, seen, client);
        } else {
            self.await_move(rt, job, seen, client);
        }
    }

    /// Waits until something may have moved for the job since these were its counts, the nodes are shut, or the client is gone.
    fn await_move<R: Wait + Clock>(
        &self,
        rt: &R,
        job: JobNo,
        seen: Versions,
        client: Option<&UnixStream>,
    ) {
        for _ in rt.forever() {
            let moved = self.await_copies(rt, job, seen.copies);
            if self.is_shut() || moved.copies != seen.copies || is_gone(client) {
                return;
            }
        }
    }

    /// The same for a fetch that has asked for chunks, which waits no longer than its patience after the last of them that came.
    fn await_chunks<R: Wait + Clock>(
        &self,
        rt: &R,
        job: JobNo,
        seen: Versions,
        client: Option<&UnixStream>,
    ) {
        let mut chunks = seen.chunks;
        for _ in rt.forever() {
            let moved = self.await_fetch(rt, job, seen.fetches);
            if self.is_shut() || moved.fetches != seen.fetches || moved.chunks == chunks {
                return;
            }
            if is_gone(client) {
                return;
            }
            chunks = moved.chunks;
        }
    }

    /// The counts once the job's copies have moved from this count, the nodes are shut, or the patience is over.
    fn await_copies<R: Wait + Clock>(&self, rt: &R, job: JobNo, copies: u64) -> Versions {
        let bell = self.bell(job);
        let moved = bell.moved.lock(rt);
        let patience = Duration::from_millis(PATIENCE);
        let (moved, _) = bell
            .changed
            .wait_timeout_while(rt, moved, patience, |moved| {
                !self.is_shut() && moved.copies == copies
            });
        *moved
    }

    /// The counts once the job's fetches have moved from this count, the nodes are shut, or the patience is over.
    fn await_fetch<R: Wait + Clock>(&self, rt: &R, job: JobNo, fetches: u64) -> Versions {
        let bell = self.bell(job);
        let moved = bell.moved.lock(rt);
        let patience = Duration::from_millis(PATIENCE);
        let (moved, _) = bell
            .changed
            .wait_timeout_while(rt, moved, patience, |moved| {
                !self.is_shut() && moved.fetches == fetches
            });
        *moved
    }
}

impl Bell {
    /// Nothing has moved.
    fn new() -> Bell {
        Bell {
            moved: Mutex::new(Versions {
                copies: 0,
                fetches: 0,
                chunks: 0,
            }),
            changed: Condvar::new(),
        }
    }

    /// Counts what moved, and wakes who waits for it. Nobody is between a look and a wait then.
    fn count<R: Wait>(&self, rt: &R, wake_scope: WakeScope) {
        self.moved.lock(rt).count(wake_scope);
        if wake_scope != WakeScope::Chunk {
            self.changed.notify_all();
        }
    }

    /// Wakes all who wait. Nobody is between a look and a wait then.
    fn ring<R: Wait>(&self, rt: &R) {
        drop(self.moved.lock(rt));
        self.changed.notify_all();
    }
}

impl Versions {
    fn count(&mut self, wake_scope: WakeScope) {
        if wake_scope == WakeScope::Chunk {
            self.chunks = self.chunks.wrapping_add(1);
            return;
        }
        self.copies = self.copies.wrapping_add(1);
        if matches!(wake_scope, WakeScope::Fetches | WakeScope::AllJobs) {
            self.fetches = self.fetches.wrapping_add(1);
        }
    }
}

/// Which bell is the job's.
fn place_of(job: JobNo) -> usize
    ensures { result < 64 }
{
    (job.0 % 64) as usize
}

/// What a step may have moved that was this input to its job, or none, and was answered so.
pub fn wake_scope_of(input: Option<&Judged>, reply: &Reply<Bytes>) -> WakeScope {
    if matches!(reply, Reply::Refused(_)) {
        return WakeScope::Nothing;
    }
    match input {
        None => WakeScope::Nothing,
        Some(Judged::Call(_, command)) => scope_of(CommandKind::of(command).moved()),
        Some(
            Judged::Chunk {
                verdict: ChunkVerdict::Part,
                ..
            },
        ) => WakeScope::Chunk,
        Some(
            Judged::Chunk {
                verdict: ChunkVerdict::Ignored,
                ..
            },
        ) => WakeScope::Nothing,
        Some(Judged::Pull { .. }) => WakeScope::Nothing,
        Some(Judged::Chunk { .. } | Judged::Located { .. } | Judged::NotHere { .. }) =>
            WakeScope::Fetches,
        Some(Judged::Begin(_) | Judged::Answer(..)) => WakeScope::Fetches,
        Some(Judged::End) => WakeScope::AllJobs,
        Some(Judged::Requota(_) | Judged::Received { .. } | Judged::Withdrawn { .. }) =>
            WakeScope::Copies,
    }
}

/// The scope of what a command's step has moved.
fn scope_of(moved: Moved) -> WakeScope {
    match moved {
        Moved::Nothing => WakeScope::Nothing,
        Moved::Copies => WakeScope::Copies,
        Moved::Fetches => WakeScope::Fetches,
    }
}
