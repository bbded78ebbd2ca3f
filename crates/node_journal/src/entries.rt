//! What a journal keeps, and what a step gives of it.
ghost use Rattle.std.specs.Prelude.{◌≡◌};
ghost use Rattle.private_store.specs.declared.schedules.NodeEvent.TheVariants as node_event;
ghost use Rattle.node_core.specs.Steps.{job_at};
ghost use Rattle.node_journal.specs.Journals.{arrival_name, begins, entry_for, event_name, is_entry, is_some_entry, same_entry, step_of};
ghost use Rattle.node_journal.specs.Replies.{kept_reply};

use bytes::Bytes;
use node_core::{Node, NodeOutcome};
use obj_id::{Arrival, ItemList, JobNo, ObjectId, PeerMessage, Quota, Reply};
use private_store::{Event, Judged, work_without_payload};
use std::alloc::Global;
use std::marker::PhantomData;
use std::snapshot::Snapshot;
use std::sync::ledger::Ledger;

/// Which event an entry is of, without contents. A key isn't kept.
#[derive(Clone, Copy, Debug, PartialEq, Eq)]
pub enum EventName {
    /// The operator admits the job, or changes its quota.
    Admit(Quota),
    Requota(Quota),
    JobEnd,
    Take,
    /// The number of the work.
    Finish(u64),
    /// The number of the session.
    Call(u32),
    /// The directory's answer to the fetch of this number.
    Located {
        id: ObjectId,
        fetch: u64,
    },
    /// From the node of a number, for the fetch of one.
    Pull {
        from: u32,
        id: ObjectId,
        fetch: u64,
    },
    Chunk {
        from: u32,
        id: ObjectId,
        fetch: u64,
        index: u32,
    },
    NotHere {
        from: u32,
        id: ObjectId,
        fetch: u64,
    },
}

/// An entry of a job's journal.
#[derive(Debug, PartialEq, Eq, Drop)]
pub struct Entry {
    /// From 1, over all jobs of the node.
    pub number: u64,
    pub event: EventName,
    /// What the event was to its job, without contents: none if the operator was refused, or a Finish or a message was stale.
    pub input: Option<Judged>,
    /// The answer without contents: bytes as their number, and a list without its items.
    pub reply: Reply<u64>,
}

/// A line of a job's journal.
#[derive(Debug, Drop)]
pub enum Line {
    /// A step that was an event of the job.
    Entry(Entry),
    /// What the step with this entry's number was to the job as the grantee of a grant, without contents. It is always answered
    /// Ok, and a job's own step may be followed by notes of its own.
    Note(u64, Judged),
}

impl Line {
    /// The number of the step that made it.
    pub fn number(&self) -> u64
        ensures { result ≡ step_of self.now }
    {
        match self {
            Line::Entry(entry) => entry.number,
            Line::Note(number, _) => *number,
        }
    }

    /// Whether it is an entry, of any number.
    pub(crate) fn is_some_entry(&self) -> bool
        ensures { result ≡ is_some_entry self.now }
    {
        matches!(self, Line::Entry(_))
    }

    /// Whether it is the entry of this number.
    pub(crate) fn is_entry(&self, number: u64) -> bool
        ensures { result ≡ is_entry number self.now }
    {
        match self {
            Line::Entry(entry) => entry.number == number,
            Line::Note(_, _) => false,
        }
    }

    /// Whether it is an entry with all that this one has.
    pub(crate) fn is_same(&self, entry: &Entry) -> bool
        ensures { result ≡ same_entry entry.now self.now }
    {
        match self {
            Line::Entry(own) => entry == own,
            Line::Note(_, _) => false,
        }
    }

    /// Whether it is of the job's admission.
    pub(crate) fn begins(&self) -> bool
        ensures { result ≡ begins self.now }
    {
        match self {
            Line::Entry(entry) => match &entry.input {
                Some(Judged::Begin(_)) => matches!(entry.reply, Reply::Ok),
                _ => false,
            },
            Line::Note(_, input) => matches!(input, Judged::Begin(_)),
        }
    }
}

/// What a journal answers to a receipt.
#[derive(Clone, Copy, Debug, PartialEq, Eq, Drop)]
pub enum Agreement {
    /// Its entry is there, with its number, event, input and answer.
    Yes,
    /// It is of another node, or its number isn't covered and its entry isn't there.
    No,
    /// Its number is covered: it was folded, if it ever was there.
    Folded,
}

/// The name of one entry in a journal of the ledger `L`: a step makes it, and it isn't copied.
///
/// Clauses also see the whole event, of one that is no arrival, and the whole answer, with all contents. Neither takes any bytes.
#[derive(Drop)]
pub struct Receipt<L: Ledger> {
    pub(crate) node: u32,
    pub(crate) job: JobNo,
    pub(crate) entry: Entry,
    pub(crate) asked: Snapshot<Event>,
    pub(crate) whole: Snapshot<Reply<Bytes>>,
    pub(crate) name: PhantomData<L>,
}

impl<L: Ledger> Receipt<L> {
    /// The number of the node.
    pub fn node(&self) -> u32
        ensures { result ≡ self.now.node }
    {
        self.node
    }

    /// The entry's number at the node, from 1.
    pub fn number(&self) -> u64
        ensures { result ≡ self.now.entry.number }
    {
        self.entry.number
    }

    /// The job under which the entry is kept: a Take's stands under the job whose work it gives, or under 0 if none waits.
    pub fn job(&self) -> JobNo
        ensures { result ≡ self.now.job }
    {
        self.job
    }

    /// Which event the entry is of, without contents.
    pub fn event(&self) -> EventName
        ensures { result ≡ self.now.entry.event }
    {
        self.entry.event
    }

    /// What the event was to its job, without contents: none if the operator was refused, or a Finish or a message was stale.
    pub fn input(&self) -> &Option<Judged>
        ensures { result.now ≡ self.now.entry.input }
    {
        &self.entry.input
    }

    /// The answer without contents: bytes as their number, and a list without its items.
    pub fn reply(&self) -> &Reply<u64>
        ensures { result.now ≡ self.now.entry.reply }
    {
        &self.entry.reply
    }
}

/// The entry of this number, of a step of this event that gave this. Takes no memory.
pub(crate) fn entry_of(
    alloc: Global,
    number: u64,
    event: &EventName,
    outcome: &NodeOutcome,
) -> Entry
    ensures { result ≡ entry_for number event.now outcome.now.judged outcome.now.reply }
{
    Entry {
        number,
        event: *event,
        input: outcome.judged,
        reply: kept_reply_of(alloc, &outcome.reply),
    }
}

/// The reply as a journal keeps it. Takes no memory.
fn kept_reply_of(alloc: Global, reply: &Reply<Bytes>) -> Reply<u64>
    ensures { result ≡ kept_reply reply.now }
{
    match reply {
        Reply::Ok => Reply::Ok,
        Reply::Placed(offset, extent) => Reply::Placed(*offset, *extent),
        Reply::Got(length) => Reply::Got(*length),
        Reply::Bytes(bytes) => Reply::Bytes(bytes.len() as u64),
        Reply::List(_, _) => Reply::List(ItemList::new(alloc), ItemList::new(alloc)),
        Reply::Usage(usage) => Reply::Usage(*usage),
        Reply::Work(work) => Reply::Work(work_without_payload(work)),
        Reply::NoWork => Reply::NoWork,
        Reply::Refused(refusal) => Reply::Refused(*refusal),
    }
}

/// The job that an event is of, or whose work a Take gives: 0 for one of none.
pub(crate) fn job_of(node: &Node, event: &Event) -> JobNo
    ensures { result.0 ≡ job_at node.now.works.works (node_event.Own event.now) }
{
    match event {
        Event::Admit { job, .. } => *job,
        Event::Requota(job, _) => *job,
        Event::JobEnd(job) => *job,
        Event::Take => node.job_in_turn(),
        Event::Finish { job, .. } => *job,
        Event::Call { job, .. } => *job,
    }
}

/// The event's name.
pub(crate) fn name_of(event: &Event) -> EventName
    ensures { result ≡ event_name (node_event.Own event.now) }
{
    match event {
        Event::Admit { quota, .. } => EventName::Admit(*quota),
        Event::Requota(_, quota) => EventName::Requota(*quota),
        Event::JobEnd(_) => EventName::JobEnd,
        Event::Take => EventName::Take,
        Event::Finish { number, .. } => EventName::Finish(*number),
        Event::Call { session, .. } => EventName::Call(*session),
    }
}

/// The name of a message that arrives.
pub(crate) fn name_of_arrival(arrival: &Arrival) -> EventName
    ensures { result ≡ arrival_name arrival.now }
{
    match arrival {
        Arrival::Located {
            id,
            number: fetch,
            ..
        } => EventName::Located {
            id: *id,
            fetch: *fetch,
        },
        Arrival::FromPeer(from, message) => match message {
            PeerMessage::Pull { id, number, .. } => EventName::Pull {
                from: *from,
                id: *id,
                fetch: *number,
            },
            PeerMessage::Chunk {
                id,
                number: fetch,
                index,
                ..
            } => EventName::Chunk {
                from: *from,
                id: *id,
                fetch: *fetch,
                index: *index,
            },
            PeerMessage::NotHere(id, fetch) => EventName::NotHere {
                from: *from,
                id: *id,
                fetch: *fetch,
            },
        },
    }
}
