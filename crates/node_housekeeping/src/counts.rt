//! What is counted at a node for its operator. Nothing that a session is answered depends on it.
use crate::device_calls::Finishing;
use crate::job_counts::{CountName, JobCounts, JobEvent};
use crate::sent_counts::SentCounts;
use memory_growth::{OutOfMemory, boxes, lists};
use obj_id::{DeviceAnswer, JobNo};
use private_store::Event;
use std::alloc::Global;
use std::sync::atomic::{AtomicU64, Ordering};
use std::sync::{Arc, Mutex, Wait};

/// What was counted of a node's sessions and of its lock.
#[derive(Clone, Copy, Debug, PartialEq, Eq)]
pub struct NodeCounts {
    /// Hellos that were taken.
    pub hellos: u64,
    /// Hellos that were refused.
    pub hellos_refused: u64,
    /// Sessions that ended since what they sent was no frame.
    pub malformed: u64,
    /// How often a thread found the node locked.
    pub lock_waits: u64,
    /// How often it then slept until it wasn't.
    pub lock_sleeps: u64,
    /// Jobs that ended, after whose end the journal was folded.
    pub end_folds: u64,
}

/// The counts of a live job.
#[derive(Drop)]
struct OfJob {
    job: JobNo,
    counts: Arc<JobCounts>,
}

/// The counts of a node: its own, and those of each live job. After its type's last number a count begins again.
#[derive(Drop)]
pub struct Counts {
    alloc: Global,
    hellos: AtomicU64,
    hellos_refused: AtomicU64,
    malformed: AtomicU64,
    lock_waits: AtomicU64,
    lock_sleeps: AtomicU64,
    end_folds: AtomicU64,
    jobs: Mutex<Vec<OfJob>>,
}

impl Counts {
    /// Nothing was counted, and no job is live.
    pub fn new(alloc: Global) -> Counts {
        Counts {
            alloc,
            hellos: AtomicU64::new(0),
            hellos_refused: AtomicU64::new(0),
            malformed: AtomicU64::new(0),
            lock_waits: AtomicU64::new(0),
            lock_sleeps: AtomicU64::new(0),
            end_folds: AtomicU64::new(0),
            jobs: Mutex::new(Vec::new(alloc)),
        }
    }

    /// A Hello was answered: whether it was taken.
    pub fn note_hello(&self, is_taken: bool) {
        let count = if is_taken {
            &self.hellos
        } else {
            &self.hellos_refused
        };
        count.fetch_add(1, Ordering::Relaxed);
    }

    /// A session ended since what it sent was no frame.
    pub fn note_malformed(&self) {
        self.malformed.fetch_add(1, Ordering::Relaxed);
    }

    /// A thread found the node locked.
    pub fn note_lock_wait(&self) {
        self.lock_waits.fetch_add(1, Ordering::Relaxed);
    }

    /// A thread sleeps until the node isn't locked.
    pub fn note_lock_sleep(&self) {
        self.lock_sleeps.fetch_add(1, Ordering::Relaxed);
    }

    /// What was counted of the node itself.
    pub fn of_node(&self) -> NodeCounts {
        NodeCounts {
            hellos: self.hellos.load(Ordering::Relaxed),
            hellos_refused: self.hellos_refused.load(Ordering::Relaxed),
            malformed: self.malformed.load(Ordering::Relaxed),
            lock_waits: self.lock_waits.load(Ordering::Relaxed),
            lock_sleeps: self.lock_sleeps.load(Ordering::Relaxed),
            end_folds: self.end_folds.load(Ordering::Relaxed),
        }
    }

    /// A job was admitted: it is counted from now on. Without memory for that it isn't.
    pub fn begin<R: Wait>(&self, rt: &R, job: JobNo) {
        let _ = self.try_begin(rt, job);
    }

    fn try_begin<R: Wait>(&self, rt: &R, job: JobNo) -> Result<(), OutOfMemory> {
        let counts = boxes::counted(self.alloc, JobCounts::new())?;
        let mut jobs = self.jobs.lock(rt);
        lists::push(&mut jobs, OfJob { job, counts })
    }

    /// A job has ended, and its journal was folded: what was counted of it goes with its last session.
    pub fn end<R: Wait>(&self, rt: &R, job: JobNo) {
        self.end_folds.fetch_add(1, Ordering::Relaxed);
        let mut jobs = self.jobs.lock(rt);
        if let Some(place) = jobs.iter().position(|of| of.job == job) {
            let _ = jobs.swap_remove(place);
        }
    }

    /// The counts of a live job, if it is counted.
    pub fn of<R: Wait>(&self, rt: &R, job: JobNo) -> Option<Arc<JobCounts>> {
        let jobs = self.jobs.lock(rt);
        let of = jobs.iter().find(|of| of.job == job)?;
        boxes::another(&of.counts).ok()
    }

    /// A device was called, and this is what is handed in.
    pub fn note_device_call<R: Wait>(&self, rt: &R, finishing: &Finishing) {
        let Event::Finish { job, answer, .. } = &finishing.event else {
            return;
        };
        let failed = matches!(answer, DeviceAnswer::Failed);
        let event = match (finishing.written.is_some(), failed) {
            (true, false) => JobEvent::Spill,
            (true, true) => JobEvent::SpillFailed,
            (false, false) => JobEvent::Restore,
            (false, true) => JobEvent::RestoreFailed,
        };
        self.note(rt, *job, event);
    }

    /// A step of the node sent this. Takes no lock if none of it is counted.
    pub fn note_sent<R: Wait>(&self, rt: &R, sent: &SentCounts) {
        let Some(job) = sent.job() else {
            return;
        };
        let jobs = self.jobs.lock(rt);
        if let Some(of) = jobs.iter().find(|of| of.job == job) {
            of.counts.note_sent(sent);
        }
    }

    /// This happened to a live job.
    pub fn note<R: Wait>(&self, rt: &R, job: JobNo, event: JobEvent) {
        let jobs = self.jobs.lock(rt);
        if let Some(of) = jobs.iter().find(|of| of.job == job) {
            of.counts.add(CountName::Event(event), 1);
        }
    }
}
