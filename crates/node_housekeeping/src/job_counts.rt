//! What is counted of a job at a node, for its operator.
use crate::sent_counts::SentCounts;
use bytes::Bytes;
use command_kinds::{COMMAND_KINDS, CommandKind, KINDS, Outline};
use memory_growth::{OutOfMemory, lists};
use obj_id::{Command, Refusal, Reply};
use private_store::Awaited;
use std::alloc::Global;
use std::array;
use std::sync::atomic::{AtomicU64, Ordering};

/// The greatest number of a refusal.
const MOST_REFUSALS: u8 = 24;

/// How many kinds of events there are.
pub(crate) const EVENT_KINDS: usize = 15;

/// What a job's count is of.
#[derive(Clone, Copy, Debug, PartialEq, Eq)]
pub enum CountName {
    /// Commands of this kind that were taken from its sessions, refused ones too.
    Command(CommandKind),
    /// Commands of its sessions that were refused so.
    Refused(Refusal),
    /// Anything else.
    Event(JobEvent),
}

/// What is counted of a job beside its commands and their refusals.
#[derive(Clone, Copy, Debug, PartialEq, Eq)]
pub enum JobEvent {
    /// Bytes that Writes had.
    BytesIn,
    /// Bytes that Reads and Peeks were answered.
    BytesOut,
    /// Writes to the device that were made.
    Spill,
    /// Writes to the device that failed.
    SpillFailed,
    /// Reads from the device that were made.
    Restore,
    /// Reads from the device that failed.
    RestoreFailed,
    /// Askings of another node for an object's chunks.
    Pull,
    /// Messages that arrived, from other nodes and from the directory.
    Arrival,
    /// Askings of the directory where copies of an object are.
    Locate,
    /// Copies that were fetched whole.
    Fetched,
    /// Fetches that ended since the node that was asked has no such copy.
    SourceGone,
    /// Chunks that were sent to nodes that asked for them.
    ChunkSent,
    /// Answers to nodes that asked for chunks: there is no such copy here.
    NotHere,
    /// Secondaries that were removed to make room.
    Evicted,
    /// Sealed copies that the job let go of.
    Removed,
}

const EVENTS: [JobEvent; EVENT_KINDS] = [
    JobEvent::BytesIn,
    JobEvent::BytesOut,
    JobEvent::Spill,
    JobEvent::SpillFailed,
    JobEvent::Restore,
    JobEvent::RestoreFailed,
    JobEvent::Pull,
    JobEvent::Arrival,
    JobEvent::Locate,
    JobEvent::Fetched,
    JobEvent::SourceGone,
    JobEvent::ChunkSent,
    JobEvent::NotHere,
    JobEvent::Evicted,
    JobEvent::Removed,
];

/// A count of a job that isn't 0.
#[derive(Clone, Copy, Debug, PartialEq, Eq)]
pub struct Count {
    pub name: CountName,
    pub number: u64,
}

/// What was counted of a job: in atomics, so that a session that counts waits for nobody. After its type's last number a count begins again.
#[derive(Drop)]
pub struct JobCounts {
    commands: [AtomicU64; COMMAND_KINDS],
    // by their numbers, which begin with 1
    refusals: [AtomicU64; 25],
    events: [AtomicU64; EVENT_KINDS],
}

impl JobCounts {
    /// Nothing was counted.
    pub(crate) fn new() -> JobCounts {
        JobCounts {
            commands: array::from_fn(|_| AtomicU64::new(0)),
            refusals: array::from_fn(|_| AtomicU64::new(0)),
            events: array::from_fn(|_| AtomicU64::new(0)),
        }
    }

    /// A command was taken from a session.
    pub fn note_command(&self, command: &Command<Bytes>) {
        let outline = Outline::of(command);
        self.add(CountName::Command(outline.kind), 1);
        if let Some(bytes) = outline.payload {
            self.add(CountName::Event(JobEvent::BytesIn), bytes.len() as u64);
        }
    }

    /// A command that waits was taken from a session.
    pub fn note_awaited(&self, awaited: &Awaited) {
        self.add(CountName::Command(CommandKind::of_awaited(awaited)), 1);
    }

    /// A session was answered.
    pub fn note_answer(&self, reply: &Reply<Bytes>) {
        match reply {
            Reply::Refused(refusal) => self.add(CountName::Refused(*refusal), 1),
            Reply::Bytes(bytes) => {
                self.add(CountName::Event(JobEvent::BytesOut), bytes.len() as u64);
            }
            _ => {}
        }
    }

    /// A step sent this.
    pub(crate) fn note_sent(&self, sent: &SentCounts) {
        for event in &EVENTS {
            let more = sent.number(*event);
            if more > 0 {
                self.add(CountName::Event(*event), more);
            }
        }
    }

    /// So many more of this.
    pub(crate) fn add(&self, name: CountName, more: u64) {
        if let Some(count) = self.place(name) {
            count.fetch_add(more, Ordering::Relaxed);
        }
    }

    /// Where the count of this is; each has its place.
    fn place(&self, name: CountName) -> Option<&AtomicU64> {
        match name {
            CountName::Command(kind) => self.commands.get(kind as usize),
            CountName::Refused(refusal) => self.refusals.get(usize::from(refusal.number())),
            CountName::Event(event) => self.events.get(event as usize),
        }
    }

    /// The counts that aren't 0: commands, refusals, and the others, each in their order. The error is out of memory.
    pub fn counted(&self, alloc: Global) -> Result<Vec<Count>, OutOfMemory> {
        let mut counts = Vec::new(alloc);
        for kind in &KINDS {
            self.count_into(&mut counts, CountName::Command(*kind))?;
        }
        for number in 1..=MOST_REFUSALS {
            if let Some(refusal) = Refusal::from_number(number) {
                self.count_into(&mut counts, CountName::Refused(refusal))?;
            }
        }
        for event in &EVENTS {
            self.count_into(&mut counts, CountName::Event(*event))?;
        }
        Ok(counts)
    }

    /// Adds the count of this, if it isn't 0.
    fn count_into(&self, counts: &mut Vec<Count>, name: CountName) -> Result<(), OutOfMemory> {
        let number = match self.place(name) {
            Some(count) => count.load(Ordering::Relaxed),
            None => 0,
        };
        if number > 0 {
            lists::push(counts, Count { name, number })?;
        }
        Ok(())
    }
}
