//! What a line of a saved journal says.
ghost use Rattle.std.specs.Prelude.{◌≡◌};
ghost use Rattle.journal_text.specs.Saved.{journal_place_of};

use obj_id::{Command, ItemList, JobNo, Location, ObjectId, Quota, Reply};
use private_store::{ChunkVerdict, WorkVerdict};
use schedule_text::JobAt;

/// The form of a saved journal: the number in its first line.
#[derive(Clone, Copy, Debug, PartialEq, Eq)]
pub enum Version {
    /// Without changes of quotas; grants without grantor and depth, which are the object's job and 1.
    One,
    /// Without changes of quotas.
    Two,
    /// The form that is written.
    Three,
}

/// Where a line stands.
#[derive(Clone, Copy, Debug, PartialEq, Eq)]
pub struct Address {
    /// From 0 to 7.
    pub node: u32,
    /// At least 1.
    pub job: JobNo,
    /// The line's number among those of the job at the node, from 1.
    pub number: u32,
}

impl Address {
    /// The job at the node that the line is of.
    pub fn place(self) -> JobAt
        ensures { result ≡ journal_place_of self }
    {
        JobAt {
            node: self.node,
            job: self.job,
        }
    }
}

/// What a line says of an input, without contents: written bytes are there as their number.
#[derive(Debug, Drop)]
pub enum LineInput {
    Begin(Quota),
    Requota(Quota),
    End,
    /// Session, and its command.
    Call(u32, Command<u64>),
    /// The number of a work, and what the device's answer was to it.
    Answer(u64, WorkVerdict),
    /// The number of the fetch, and all entries of the directory, as listed.
    Located {
        id: ObjectId,
        number: u64,
        entries: ItemList<Location>,
    },
    /// The number of the fetch, the chunk's index, the node that sent it, and what the chunk was to the fetch.
    Chunk {
        id: ObjectId,
        number: u64,
        index: u32,
        from: u32,
        verdict: ChunkVerdict,
    },
    /// The number of the fetch, and whether a copy here had the length and the digest that were asked for.
    Pull {
        id: ObjectId,
        number: u64,
        matches: bool,
    },
    /// The number of the fetch, and the node that had no such copy.
    NotHere {
        id: ObjectId,
        number: u64,
        from: u32,
    },
    /// Another job granted an object: its length, the grantor, and the depth of the grant.
    Received {
        id: ObjectId,
        length: u32,
        grantor: JobNo,
        depth: u32,
    },
    /// A grant to this job ended.
    Withdrawn {
        id: ObjectId,
        grantor: JobNo,
        depth: u32,
    },
}

/// A line of a saved journal.
#[derive(Debug, Drop)]
pub struct Entry {
    pub address: Address,
    pub input: LineInput,
    /// The answer without contents: bytes as their number.
    pub reply: Reply<u64>,
}
