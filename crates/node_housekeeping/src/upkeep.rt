//! What everybody who serves a node sees of its housekeeping.
use crate::counts::Counts;
use crate::open_sessions::OpenSessions;
use crate::open_streams::OpenStreams;
use crate::waiting::Waiting;
use crate::worker_bell::WorkerBell;
use std::alloc::Global;
use std::sync::Arc;

/// The counts of a node, its open sessions and their streams, and whom its steps wake. Nothing that is to be done can be taken out of it.
#[derive(Drop)]
pub struct Upkeep {
    // of what its actors gather
    pub alloc: Global,
    pub counts: Counts,
    pub sessions: OpenSessions,
    pub streams: OpenStreams,
    pub bell: WorkerBell,
    pub waiting: Arc<Waiting>,
}

impl Upkeep {
    /// Of a node that has made no step.
    pub fn new(alloc: Global, waiting: Arc<Waiting>) -> Upkeep {
        Upkeep {
            alloc,
            counts: Counts::new(alloc),
            sessions: OpenSessions::new(),
            streams: OpenStreams::new(alloc),
            bell: WorkerBell::new(),
            waiting,
        }
    }
}
