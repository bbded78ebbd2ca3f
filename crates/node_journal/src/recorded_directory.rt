//! The directory at its place in the history of its cluster.
ghost use Rattle.std.specs.Prelude.{◌≡◌, [], IfOk, OnErr, is_some, option_map};
ghost use Rattle.node_journal.specs.Posts.{directory_message_in};
ghost use Rattle.node_journal.specs.Recorded.{GoesThrough, HasPassed};
ghost use Rattle.obj_id.specs.declared.messages.Endpoint.TheVariants as place;

use crate::recorded_posts::RecordedPosted;
use bytes::Bytes;
use cluster_history::{ClusterShape, HistoryName, Place, Sight};
use logbook::Plain;
use memory_growth::OutOfMemory;
use memory_growth::counters::Counter;
use obj_id::{Endpoint, JobNo, Message, Reply};
use owner_directory::Directory;
use private_store::Traced;
use std::alloc::Global;
use std::marker::Model;
use std::snapshot::Snapshot;
use std::sync::Wait;
use std::sync::ledger::Ledger;

/// The directory, with its place in the history. Contracts see its locations, the place, and how many messages it took.
pub struct RecordedDirectory<L: HistoryName, S: ClusterShape> {
    directory: Directory,
    place: Place<L, S>,
    count: Counter,
}

impl<L: HistoryName, S: ClusterShape> Model for RecordedDirectory<L, S> {
    ghost use Rattle.std.specs.Prelude.{ℕ, List};
    ghost use Rattle.private_store.specs.declared.schedules.Traced.{Traced};
    ghost use Rattle.owner_directory.specs.Locations.{DirectoryRows};
    ghost use Rattle.node_journal.specs.Recorded.{IsDirectoryRecorded};

    ghost Value = { DirectoryRows × ((ℕ × List Traced) × ℕ) };

    ghost view = { λ d. (d.directory, (d.place, d.count)) };

    ghost invariant = { λ d. IsDirectoryRecorded S.nodes d.directory d.count d.place };
}

// By hand, so that it is proved here and not in each crate above.
impl<L: HistoryName, S: ClusterShape> Drop for RecordedDirectory<L, S> {
    fn drop(self) {
        let RecordedDirectory {
            directory: _directory,
            place: _place,
            count: _count,
        } = self;
    }
}

impl<L: HistoryName, S: ClusterShape> RecordedDirectory<L, S> {
    /// A directory that knows no object, at its place.
    pub(crate) fn new(alloc: Global, place: Place<L, S>) -> RecordedDirectory<L, S>
        requires { place ≡ (S.nodes, []) }
    {
        RecordedDirectory {
            directory: Directory::new(alloc),
            place,
            count: Counter::new(),
        }
    }
}

/// A message that its place has taken: where it was sent, and what the place answered.
#[derive(Drop)]
pub(crate) struct Delivered<L: Ledger + HistoryName, S: ClusterShape> {
    pub(crate) job: JobNo,
    pub(crate) from: Endpoint,
    pub(crate) to: Endpoint,
    pub(crate) message: Snapshot<Message>,
    pub(crate) sight: Sight<L, S>,
    pub(crate) index: Snapshot<usize>,
    pub(crate) reply: Snapshot<Reply<Bytes>>,
}

/// The entry of a message that was delivered.
pub(crate) struct Delivery;

impl<L: Ledger + HistoryName, S: ClusterShape> Plain<Delivered<L, S>, Traced, u64> for Delivery {
    ghost use Rattle.std.specs.Prelude.{None};
    ghost use Rattle.node_journal.specs.Recorded.{delivery_entry};

    ghost ask = { λ d. delivery_entry S.nodes d.job d.from d.to d.message.value d.sight d.index.value d.reply.value };

    ghost state = { λ d. None };
}

impl<L: Ledger + HistoryName, S: ClusterShape> RecordedPosted<L, S> {
    /// Passes it, which is for the directory, through that: what the directory answers is posted too, and the history has an entry more.
    /// The error is out of memory, and then the directory is as it was.
    pub(crate) fn pass_through<R: Wait>(
        self,
        rt: &R,
        directory: &mut RecordedDirectory<L, S>,
    ) -> Result<Option<RecordedPosted<L, S>>, OutOfMemory>
        requires { self.0.to ≡ place.Directory }
        ensures passes { IfOk result (λ answer. HasPassed directory.old.0 directory.new.0 self.0 (option_map (λ p. p.0) answer)) }
        ensures goes_on { IfOk result (λ answer. GoesThrough S.nodes S.memory directory.old.1.0 directory.new.1.0 self.0 self.1 (option_map (λ p. p.1) answer)) }
        ensures same { OnErr result (directory.new ≡ directory.old) }
    {
        let RecordedDirectory {
            directory,
            place,
            count,
        } = directory;
        let (posted, (sight, index)) = self.into_parts();
        // all growth comes before the first change
        let next = count.next()?;
        if !is_for_directory(posted.message()) {
            return Ok(None);
        }
        let delivered = Delivered {
            job: posted.job(),
            from: posted.from(),
            to: Endpoint::Directory,
            message: Snapshot::of(posted.message()),
            sight,
            index,
            reply: Snapshot::of(&Reply::Ok),
        };
        let answer = posted.through(directory)?;
        place.add::<R, Delivered<L, S>, Delivery>(rt, count.value(), &delivered, &delivered.sight);
        *count = next;
        match answer {
            None => Ok(None),
            Some(posted) => Ok(Some(RecordedPosted {
                posted,
                sight: place.sight(),
                index: Snapshot::of(&0),
            })),
        }
    }
}

/// Whether the message tells the directory something.
fn is_for_directory(message: &Message) -> bool
    ensures { result ≡ is_some (directory_message_in message.now) }
{
    matches!(message, Message::ToDirectory(_))
}
