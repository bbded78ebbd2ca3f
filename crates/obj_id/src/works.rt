//! Quotas, extents and device works.
use crate::JobNo;
use bytes::Bytes;

/// What a job may use at a node, in bytes.
#[derive(Clone, Copy, Debug, PartialEq, Eq)]
pub struct Quota {
    /// Its window in memory: 16 to 268,435,456, a multiple of 16.
    pub window: u64,
    /// Its bytes on the device: 0 to 1,099,511,627,776.
    pub device: u64,
}

/// The secret by which sessions enter a job. It is compared, and nothing more.
#[derive(Clone, Copy, Debug, PartialEq, Eq)]
pub struct JobKey(pub [u8; 32]);

/// Bytes of a window, or of a node's memory: from an offset on, so many.
#[derive(Clone, Copy, Debug, PartialEq, Eq)]
pub struct Extent {
    pub offset: u64,
    pub length: u64,
}

/// The name of an object's bytes on a device: the job, and the number of the work that wrote them.
#[derive(Clone, Copy, Debug, PartialEq, Eq, PartialOrd, Ord, Hash)]
pub struct DeviceKey {
    pub job: JobNo,
    pub number: u64,
}

/// What a device work does.
#[derive(Clone, Copy, Debug, PartialEq, Eq)]
pub enum WorkKind {
    /// Spills a copy.
    Write,
    /// Restores one.
    Read,
}

/// A device work as it is handed out: the length is the object's, in bytes, and the payload a
/// write's bytes. A read's key is that of the write that backed the copy.
#[derive(Debug, PartialEq, Eq, Drop)]
pub struct Work<P> {
    pub job: JobNo,
    pub number: u64,
    pub kind: WorkKind,
    pub key: DeviceKey,
    pub length: u32,
    pub payload: Option<P>,
}

/// What a device answered to a work.
#[derive(Debug, Drop)]
pub enum DeviceAnswer {
    /// The call was made; it gave no bytes.
    Done,
    /// The bytes that were read.
    Bytes(Bytes),
    Failed,
}
