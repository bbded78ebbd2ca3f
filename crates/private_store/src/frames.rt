//! What a session sends.
use bytes::Bytes;
use obj_id::{Command, JobKey, JobNo, Kind, ObjectId};

/// A command that is tried again while its answer is Pending.
#[derive(Clone, Copy, Debug, PartialEq, Eq)]
pub enum Awaited {
    Get(ObjectId),
    Create {
        id: ObjectId,
        kind: Kind,
        length: u32,
    },
}

/// What one frame of a session says.
#[derive(Debug, Drop)]
pub enum Item {
    /// The session's first word: its job, and the job's key.
    Hello(JobNo, JobKey),
    Command(Command<Bytes>),
    Wait(Awaited),
    /// A command with an id that can't be.
    BadId,
}
