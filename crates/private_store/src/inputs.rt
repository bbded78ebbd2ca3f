//! The inputs of a job's private store at a node, whole and without their contents.
use bytes::Bytes;
use obj_id::{Arrival, Command, DeviceAnswer, JobNo, ObjectId, Quota};

/// An input of a job at a node.
#[derive(Debug, Drop)]
pub enum Input {
    /// The job was admitted here.
    Begin(Quota),
    /// Its quota was changed.
    Requota(Quota),
    /// A session's command.
    Call(u32, Command<Bytes>),
    /// A device answered the work of this number.
    Answer(u64, DeviceAnswer),
    /// A message of the job arrived here.
    Arrive(Arrival),
    /// Another job granted an object: its bytes, the grantor, and the depth of the grant.
    Received {
        id: ObjectId,
        bytes: Bytes,
        grantor: JobNo,
        depth: u32,
    },
    /// A grant to this job ended.
    Withdrawn {
        id: ObjectId,
        grantor: JobNo,
        depth: u32,
    },
    /// The job ended here.
    End,
}

/// An input without its contents, as a saved journal has it: what was judged by comparing bytes
/// stands in one word, and bytes stand as their number.
#[derive(Clone, Copy, Debug, PartialEq, Eq)]
pub enum Judged {
    Begin(Quota),
    Requota(Quota),
    Call(u32, Command<u64>),
    Answer(u64, WorkVerdict),
    /// The number of the fetch, and the first entry of another node, if there is one.
    Located {
        id: ObjectId,
        number: u64,
        source: Option<Source>,
    },
    /// The number of the fetch, the chunk's index, the node that sent it, and what the chunk is to the fetch.
    Chunk {
        id: ObjectId,
        number: u64,
        index: u32,
        from: u32,
        verdict: ChunkVerdict,
    },
    /// The number of the fetch, and whether a copy here has the length and the digest that are asked for.
    Pull {
        id: ObjectId,
        number: u64,
        matches: bool,
    },
    /// The number of the fetch, and the node that has no such copy.
    NotHere {
        id: ObjectId,
        number: u64,
        from: u32,
    },
    Received {
        id: ObjectId,
        length: u32,
        grantor: JobNo,
        depth: u32,
    },
    Withdrawn {
        id: ObjectId,
        grantor: JobNo,
        depth: u32,
    },
    End,
}

/// Where a fetch gets its bytes from: a node, and the length of its copy.
#[derive(Clone, Copy, Debug, PartialEq, Eq)]
pub struct Source {
    pub node: u32,
    pub length: u32,
}

/// What a device's answer is to a work.
#[derive(Clone, Copy, Debug, PartialEq, Eq)]
pub enum WorkVerdict {
    /// The write was made, or the bytes that were read are the sealed ones.
    Fine,
    /// The call failed, or a read gave no bytes.
    Failed,
    /// A read gave other bytes.
    Damaged,
}

/// What a chunk is to the fetch that it names.
#[derive(Clone, Copy, Debug, PartialEq, Eq)]
pub enum ChunkVerdict {
    /// It fills a gap, and others are left.
    Part,
    /// It fills the last gap, and the bytes have the sealed digest.
    Whole,
    /// It fills the last gap, and the bytes have another digest.
    Damaged,
    /// It is none that the fetch waits for.
    Ignored,
}
