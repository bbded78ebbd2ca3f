//! What a step of a node sent for its job, as far as it is counted.
use crate::job_counts::{EVENT_KINDS, JobEvent};
use command_kinds::Preparation;
use obj_id::{Command, DirectoryMessage, Endpoint, JobNo, Message, PeerMessage};

/// What sends: it tells why a copy comes or goes.
#[derive(Clone, Copy, Debug, PartialEq, Eq)]
pub enum Sender {
    /// The step of a command that makes room for a copy, and lets go of none otherwise.
    Placing,
    /// The step of a message that arrived. It may seal a copy that was fetched, and makes room for one that is read back.
    Arrival,
    /// Any other step. It evicts nothing.
    Other,
}

impl Sender {
    /// The step of this command: one that may want an extent makes room for it.
    pub fn of_command<P>(command: &Command<P>) -> Sender {
        match Preparation::of(command) {
            Preparation::NewExtent { .. } | Preparation::CopyExtent(_) => Sender::Placing,
            Preparation::Digest(_) | Preparation::Nothing => Sender::Other,
        }
    }

    /// What is counted of a message that was sent from there.
    fn event(self, from: Endpoint, message: &Message) -> Option<JobEvent> {
        match message {
            Message::ToDirectory(message) => self.directory_event(from, message),
            Message::ToPeer(PeerMessage::Pull { .. }) => Some(JobEvent::Pull),
            Message::ToPeer(PeerMessage::Chunk { .. }) => Some(JobEvent::ChunkSent),
            Message::ToPeer(PeerMessage::NotHere(..)) => Some(JobEvent::NotHere),
            Message::Located { .. } => None,
        }
    }

    /// The same of a message to the directory. A node that forgets another one's copy has asked that one in vain.
    fn directory_event(self, from: Endpoint, message: &DirectoryMessage) -> Option<JobEvent> {
        match message {
            DirectoryMessage::Locate { .. } => Some(JobEvent::Locate),
            DirectoryMessage::Free(_) => Some(JobEvent::Removed),
            DirectoryMessage::RemoveLocation(_, node) if from != Endpoint::Node(*node) => {
                Some(JobEvent::SourceGone)
            }
            DirectoryMessage::RemoveLocation(..) => Some(self.removal()),
            DirectoryMessage::AddLocation(..) => self.sealing(),
            DirectoryMessage::EndJob(_) => None,
        }
    }

    /// What the removal of a secondary that was here is.
    fn removal(self) -> JobEvent {
        match self {
            Sender::Placing | Sender::Arrival => JobEvent::Evicted,
            Sender::Other => JobEvent::Removed,
        }
    }

    /// What a copy that was sealed is: those of a Seal are among the commands.
    fn sealing(self) -> Option<JobEvent> {
        match self {
            Sender::Arrival => Some(JobEvent::Fetched),
            Sender::Placing | Sender::Other => None,
        }
    }
}

/// How often a step sent what is counted.
#[derive(Drop)]
pub struct SentCounts {
    // none if it sent nothing of it
    job: Option<JobNo>,
    events: [u64; EVENT_KINDS],
}

impl SentCounts {
    /// Nothing was sent.
    pub fn new() -> SentCounts {
        SentCounts {
            job: None,
            events: [0; EVENT_KINDS],
        }
    }

    /// This was sent for the job, from there. All that a step sends is for one job.
    pub fn count(&mut self, sender: Sender, job: JobNo, from: Endpoint, message: &Message) {
        let Some(event) = sender.event(from, message) else {
            return;
        };
        self.job = Some(job);
        if let Some(number) = self.events.get_mut(event as usize) {
            *number = number.saturating_add(1);
        }
    }

    /// The job, if something was counted.
    pub(crate) fn job(&self) -> Option<JobNo> {
        self.job
    }

    /// How often this was sent.
    pub fn number(&self, event: JobEvent) -> u64 {
        match self.events.get(event as usize) {
            Some(number) => *number,
            None => 0,
        }
    }
}
