//! The copies of a job, and the device works on them.
use obj_id::{CopyState, FetchNo, Kind, NodeNo, ObjectId, TaskNo};
use private_store::{Fault, FetchFault};
use std::marker::Model;

/// How far a fetch is.
#[derive(Debug, Drop)]
pub enum FetchPhase {
    /// Its source isn't known.
    Locating,
    /// The node that has the object, which isn't asked for its bytes yet.
    Sized(NodeNo),
    /// The node that is asked, and the indexes of the chunks that are missing.
    Pulling(NodeNo, Vec<u32>),
    /// It is over without a copy, for the next Get to tell why.
    Failed(FetchFault),
}

/// A fetch. A contract sees the private store's.
#[derive(Debug, Drop)]
pub struct PlainFetch {
    pub number: FetchNo,
    pub phase: FetchPhase,
}

impl Model for PlainFetch {
    ghost use Rattle.private_store.specs.rules.Shape.{Fetch};

    ghost Value = { Fetch };

    ghost use Rattle.plain_store.specs.Parts.{plain_phase_of};

    ghost view = { λ f. record { number = f.number; phase = plain_phase_of f.phase } };
}

/// A copy of an object. A contract sees the private store's.
#[derive(Debug, Drop)]
pub struct PlainCopy {
    pub state: CopyState,
    pub kind: Kind,
    /// The object's bytes; of a fetch that isn't sized, 0.
    pub length: u32,
    /// Where its extent begins in the job's window, if it is resident.
    pub offset: Option<u64>,
    /// Whether the owner task keeps it.
    pub pinned: bool,
    /// In the order in which they came.
    pub borrowers: Vec<TaskNo>,
    /// How many holds each session has, by rising session.
    pub holds: Vec<(u32, u32)>,
    /// The number of the write that put its bytes on the device.
    pub backed: Option<u64>,
    /// Whether it is removed as soon as nothing keeps it.
    pub doomed: bool,
    /// Of a restore, what the next Get answers.
    pub fault: Option<Fault>,
    pub fetch: Option<PlainFetch>,
}

impl Model for PlainCopy {
    ghost use Rattle.private_store.specs.rules.Shape.{Copy};

    ghost Value = { Copy };

    ghost view = { λ c. record { state = c.state; kind = c.kind; length = c.length; offset = c.offset; pinned = c.pinned; borrowers = c.borrowers.items; holds = c.holds.items; backed = c.backed; doomed = c.doomed; fault = c.fault; fetch = c.fetch } };
}

/// A device work in flight. A contract sees the private store's.
#[derive(Debug, Drop)]
pub struct PlainWork {
    /// From 1 on.
    pub number: u64,
    pub id: ObjectId,
    /// Whether it spills; otherwise it restores.
    pub writes: bool,
}

impl Model for PlainWork {
    ghost use Rattle.private_store.specs.rules.Shape.{WorkInFlight};

    ghost Value = { WorkInFlight };

    ghost view = { λ w. record { number = w.number; id = w.id; writes = w.writes } };
}
