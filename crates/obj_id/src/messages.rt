//! What nodes and the directory of owners send one another for a job.
use crate::{ItemList, ObjectId};
use bytes::Bytes;

/// The SHA-256 digest of an object's bytes.
#[derive(Clone, Copy, Debug, PartialEq, Eq)]
pub struct Digest(pub [u8; 32]);

/// A sealed copy that the directory knows of.
#[derive(Clone, Copy, Debug, PartialEq, Eq)]
pub struct Location {
    pub node: u32,
    pub length: u32,
    pub digest: Digest,
}

/// What a node tells or asks the directory.
#[derive(Debug, Drop)]
pub enum DirectoryMessage {
    /// A sealed copy is there: the entry of its node is set.
    AddLocation(ObjectId, Location),
    /// The copy at the node is gone.
    RemoveLocation(ObjectId, u32),
    /// The primary is gone, and with it all entries of the object.
    Free(ObjectId),
    /// The job has ended at the node.
    EndJob(u32),
    /// Where are copies? The node that asks, and the number of its fetch.
    Locate {
        id: ObjectId,
        node: u32,
        number: u64,
    },
}

/// What a node sends another.
#[derive(Debug, Drop)]
pub enum PeerMessage {
    /// Asks for chunks: fetch number, length and digest of the object, and indexes from 0.
    Pull {
        id: ObjectId,
        number: u64,
        length: u32,
        digest: Digest,
        indexes: ItemList<u32>,
    },
    /// One chunk, for the fetch of this number.
    Chunk {
        id: ObjectId,
        number: u64,
        index: u32,
        bytes: Bytes,
    },
    /// There is no such sealed copy: fetch number.
    NotHere(ObjectId, u64),
}

/// What is sent for a job from one place to another.
#[derive(Debug, Drop)]
pub enum Message {
    /// From a node to the directory.
    ToDirectory(DirectoryMessage),
    /// From the directory to the node that asked: the number of its fetch, and entries by rising node.
    Located {
        id: ObjectId,
        number: u64,
        entries: ItemList<Location>,
    },
    /// From a node to another.
    ToPeer(PeerMessage),
}

/// What arrives at a node.
#[derive(Debug, Drop)]
pub enum Arrival {
    /// From the directory: the number of the fetch, and entries by rising node.
    Located {
        id: ObjectId,
        number: u64,
        entries: ItemList<Location>,
    },
    /// From the node of this number.
    FromPeer(u32, PeerMessage),
}

/// Where a message comes from or goes to.
#[derive(Clone, Copy, Debug, PartialEq, Eq, Hash)]
pub enum Endpoint {
    Node(u32),
    Directory,
}
