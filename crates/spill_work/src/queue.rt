//! A work, and whether it was taken.
use obj_id::{JobNo, ObjectId, WorkKind};

/// A work that was asked of the device, by the number that it has in its job.
#[derive(Clone, Copy, Debug, PartialEq, Eq)]
pub struct IoRequest {
    pub job: JobNo,
    /// From 1 on.
    pub number: u64,
    pub id: ObjectId,
    pub kind: WorkKind,
}

/// A work in the line, and whether a worker has taken it.
#[derive(Clone, Copy, Debug, PartialEq, Eq)]
pub struct Queued {
    pub asked: IoRequest,
    pub taken: bool,
}
