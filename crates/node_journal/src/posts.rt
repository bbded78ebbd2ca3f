//! What a step gives: its answer, its receipt, and the messages that it sends.
ghost use Rattle.std.specs.Prelude.{◌≡◌, IfOk, IfSome, OnErr, option_map};
ghost use Rattle.std.specs.Option.{option_to_list};
ghost use Rattle.obj_id.specs.declared.messages.Endpoint.TheVariants as place;
ghost use Rattle.private_store.specs.rules.Cluster.{arrival_of};
ghost use Rattle.node_journal.specs.Posts.{posts_left, post_of, directory_message_in, PassesOn};

use crate::entries::Receipt;
use bytes::Bytes;
use memory_growth::OutOfMemory;
use node_core::{Erase, NodeOutcome};
use obj_id::{Arrival, Endpoint, JobNo, Message, Reply};
use owner_directory::{Directory, DirectoryReply};
use std::marker::PhantomData;
use std::sync::ledger::Ledger;
use std::vec::IntoIter;

/// A step that was made: what it gave, with the receipt of its entry.
#[derive(Drop)]
pub struct Made<L: Ledger> {
    pub(crate) outcome: NodeOutcome,
    pub(crate) receipt: Receipt<L>,
}

impl<L: Ledger> Made<L> {
    /// The answer, the keys to erase, the messages that the step sends, and the receipt. Takes no memory.
    pub fn into_parts(self) -> node_gate::Made<Receipt<L>, Mail<L>, Erase>
        ensures reply { result.reply ≡ self.outcome.reply }
        ensures erase { result.erase ≡ self.outcome.erase }
        ensures mail { posts_left result.mail ≡ self.outcome.messages }
        ensures sender { (result.mail.job ≡ self.receipt.job) × (result.mail.node ≡ self.receipt.node) × (result.mail.entry ≡ self.receipt.entry.number) }
        ensures receipt { result.receipt ≡ self.receipt }
    {
        let Made { outcome, receipt } = self;
        let NodeOutcome {
            reply,
            messages,
            erase,
            notes: _,
            judged: _,
        } = outcome;
        let mail = Mail {
            job: receipt.job,
            node: receipt.node,
            entry: receipt.entry.number,
            rest: messages.into_vec().into_iter(),
            name: PhantomData,
        };
        node_gate::Made {
            reply,
            erase,
            mail,
            receipt,
        }
    }
}

/// What a step sends, message by message. It isn't copied, and a step alone makes it.
#[derive(Drop)]
pub struct Mail<L: Ledger> {
    pub(crate) job: JobNo,
    pub(crate) node: u32,
    pub(crate) entry: u64,
    pub(crate) rest: IntoIter<(Endpoint, Message)>,
    pub(crate) name: PhantomData<L>,
}

/// Gives each message once, in order, from the node and entry whose step sent it. Takes no memory.
impl<L: Ledger> Iterator for Mail<L> {
    ghost use Rattle.std.specs.Iterator.{at_most};
    ghost use Rattle.std.specs.Vec.Iter.{into_iter_len};
    ghost use Rattle.node_journal.specs.Posts.{DeliversPost};

    type Item = Posted<L>;

    ghost next_gives = { DeliversPost };

    ghost remaining = { λ mail. at_most (into_iter_len mail.rest) };

    fn next(&mut self) -> Option<Posted<L>> {
        match self.rest.next() {
            None => None,
            Some((to, message)) => Some(Posted {
                job: self.job,
                from: Endpoint::Node(self.node),
                to,
                entry: self.entry,
                message,
                name: PhantomData,
            }),
        }
    }
}

/// A message on its way: a step sent it, or the directory as its answer to one that a step sent. It isn't copied, and who
/// hands it in uses it up.
#[derive(Drop)]
pub struct Posted<L: Ledger> {
    pub(crate) job: JobNo,
    pub(crate) from: Endpoint,
    pub(crate) to: Endpoint,
    pub(crate) entry: u64,
    pub(crate) message: Message,
    pub(crate) name: PhantomData<L>,
}

impl<L: Ledger> Posted<L> {
    /// The job that it is sent for.
    pub fn job(&self) -> JobNo
        ensures { result ≡ self.now.job }
    {
        self.job
    }

    /// The place that sent it.
    pub fn from(&self) -> Endpoint
        ensures { result ≡ self.now.from }
    {
        self.from
    }

    /// The place that it is for.
    pub fn to(&self) -> Endpoint
        ensures { result ≡ self.now.to }
    {
        self.to
    }

    /// The number of the entry, at the node whose step sent it or asked the directory for it.
    pub fn entry(&self) -> u64
        ensures { result ≡ self.now.entry }
    {
        self.entry
    }

    /// What it says.
    pub fn message(&self) -> &Message
        ensures { result.now ≡ self.now.message }
    {
        &self.message
    }

    /// Passes it through the directory, by `Directory::apply`: the directory's answer, if it sends one, is posted from it under
    /// the same job and entry. A message that isn't for the directory changes nothing, and has no answer.
    ///
    /// The error is out of memory, and then the directory is as it was.
    pub fn through(self, directory: &mut Directory) -> Result<Option<Posted<L>>, OutOfMemory>
        ensures passes { IfOk result (λ answer. PassesOn directory.old directory.new self.job (directory_message_in self.message) (option_to_list (option_map post_of answer))) }
        ensures sender { IfOk result (λ answer. IfSome answer (λ p. (p.job ≡ self.job) × (p.from ≡ place.Directory) × (p.entry ≡ self.entry))) }
        ensures err { OnErr result (directory.new ≡ directory.old) }
    {
        let Posted {
            job,
            entry,
            message,
            name,
            ..
        } = self;
        let Message::ToDirectory(response) = message else {
            return Ok(None);
        };
        match directory.apply(job, response)? {
            DirectoryReply::Nothing => Ok(None),
            DirectoryReply::Located {
                to,
                id,
                number,
                entries,
            } => Ok(Some(Posted {
                job,
                from: Endpoint::Directory,
                to: Endpoint::Node(to),
                entry,
                message: Message::Located {
                    id,
                    number,
                    entries,
                },
                name,
            })),
        }
    }
}

/// What a node makes of a message from this place, if it is one for a node. Takes no memory.
pub(crate) fn arrival(from: Endpoint, message: Message) -> Option<Arrival>
    ensures { result ≡ arrival_of from message }
{
    match (from, message) {
        (
            Endpoint::Directory,
            Message::Located {
                id,
                number,
                entries,
            },
        ) => {
            Some(Arrival::Located {
                id,
                number,
                entries,
            })
        }
        (Endpoint::Node(node), Message::ToPeer(response)) => Some(Arrival::FromPeer(
            node, response,
        )),
        _ => None,
    }
}
