//! Messages on their way: as they arrive, and what the places make of them.
ghost use Rattle.std.specs.Prelude.{◌≡◌, Some, None, if◌then◌else◌, length, IfOk, IfErr};
ghost use Rattle.private_store.specs.rules.Cluster.{arrival_of, damaged_bytes, damaged_peer};
ghost use Rattle.private_store.specs.rules.Directory.{directory_posts};
ghost use Rattle.owner_directory.specs.Locations.{Locations};
ghost use Rattle.world_core.specs.WorldSteps.{as_damaged, for_directory as for_directory_lem, handed as handed_lem, message_of as message_of_lem};

use bytes::Bytes;
use memory_growth::{OutOfMemory, lists, shared};
use obj_id::{Arrival, DirectoryMessage, Endpoint, ItemList, Message, PeerMessage, Reply};
use private_store::StepAnswer;
use std::alloc::Global;

/// A copy of the message, as it arrives. The bytes of a chunk are shared, unless they are damaged: then the low bit of the
/// first is turned. Nothing else shows damage.
pub(crate) fn as_it_arrives(
    alloc: Global,
    message: &Message,
    damaged: bool,
) -> Result<Message, OutOfMemory>
    ensures { IfOk result (λ m. m ≡ as_damaged damaged message.now) }
{
    match message {
        Message::ToDirectory(response) => Ok(Message::ToDirectory(copy_of(response))),
        Message::Located {
            id,
            number,
            entries,
        } => {
            let copied = lists::copied(alloc, entries.as_slice())?;
            Ok(Message::Located {
                id: *id,
                number: *number,
                entries: ItemList::from_vec(copied),
            })
        }
        Message::ToPeer(response) => Ok(Message::ToPeer(peer_copy(alloc, response, damaged)?)),
    }
}

/// The same of a message between nodes.
fn peer_copy(
    alloc: Global,
    message: &PeerMessage,
    damaged: bool,
) -> Result<PeerMessage, OutOfMemory>
    ensures { IfOk result (λ m. m ≡ (if damaged then damaged_peer message.now else message.now)) }
{
    match message {
        PeerMessage::Pull {
            id,
            number,
            length,
            digest,
            indexes,
        } => Ok(PeerMessage::Pull {
            id: *id,
            number: *number,
            length: *length,
            digest: *digest,
            indexes: ItemList::from_vec(lists::copied(alloc, indexes.as_slice())?),
        }),
        PeerMessage::Chunk {
            id,
            number,
            index,
            bytes,
        } => {
            let arriving = if damaged {
                turned(alloc, bytes)?
            } else {
                shared::again(bytes)?
            };
            Ok(PeerMessage::Chunk {
                id: *id,
                number: *number,
                index: *index,
                bytes: arriving,
            })
        }
        PeerMessage::NotHere(id, number) => Ok(PeerMessage::NotHere(*id, *number)),
    }
}

/// The bytes, with the low bit of the first turned.
fn turned(alloc: Global, bytes: &[u8]) -> Result<Bytes, OutOfMemory>
    ensures { IfOk result (λ b. b ≡ damaged_bytes bytes.now) }
{
    let mut copied = lists::copied(alloc, bytes)?;
    if let Some(first) = copied.first_mut() {
        *first ^= 1;
    }
    shared::from_vec(copied)
}

/// A copy of what the directory is sent. Takes no memory.
fn copy_of(message: &DirectoryMessage) -> DirectoryMessage
    ensures { result ≡ message.now }
{
    match message {
        DirectoryMessage::AddLocation(id, entry) => DirectoryMessage::AddLocation(*id, *entry),
        DirectoryMessage::RemoveLocation(id, node) => DirectoryMessage::RemoveLocation(*id, *node),
        DirectoryMessage::Free(id) => DirectoryMessage::Free(*id),
        DirectoryMessage::EndJob(node) => DirectoryMessage::EndJob(*node),
        DirectoryMessage::Locate { id, node, number } => {
            DirectoryMessage::Locate {
                id: *id,
                node: *node,
                number: *number,
            }
        }
    }
}

/// What the directory is sent by the message, if it is made for the directory. Takes no memory.
pub(crate) fn for_directory(message: &Message) -> Option<DirectoryMessage>
    ensures { result ≡ for_directory_lem message.now }
{
    match message {
        Message::ToDirectory(response) => Some(copy_of(response)),
        Message::Located { .. } | Message::ToPeer(_) => None,
    }
}

/// How many messages the directory sends when it is told this.
pub(crate) fn answers(message: &DirectoryMessage) -> usize
    ensures { (table : Locations) → length (directory_posts table message.now) ≡ result }
{
    match message {
        DirectoryMessage::Locate { .. } => 1,
        DirectoryMessage::AddLocation(..)
        | DirectoryMessage::RemoveLocation(..)
        | DirectoryMessage::Free(_)
        | DirectoryMessage::EndJob(_) => 0,
    }
}

/// What a node makes of the message; the message itself, if it isn't made for a node.
pub(crate) fn arrival(from: Endpoint, message: Message) -> Result<Arrival, Message>
    ensures made { IfOk result (λ a. arrival_of from message ≡ Some a) }
    ensures same { IfErr result (λ m. m ≡ message) }
    ensures none { IfErr result (λ m. arrival_of from message ≡ None) }
{
    match (from, message) {
        (
            Endpoint::Directory,
            Message::Located {
                id,
                number,
                entries,
            },
        ) => {
            Ok(Arrival::Located {
                id,
                number,
                entries,
            })
        }
        (Endpoint::Node(node), Message::ToPeer(response)) => Ok(Arrival::FromPeer(node, response)),
        (_, other) => Err(other),
    }
}

/// The message that the arrival was.
pub(crate) fn message_of(arrival: Arrival) -> Message
    ensures { result ≡ message_of_lem arrival }
{
    match arrival {
        Arrival::Located {
            id,
            number,
            entries,
        } => Message::Located {
            id,
            number,
            entries,
        },
        Arrival::FromPeer(_, response) => Message::ToPeer(response),
    }
}

/// The answer to a delivery, by what the node answers.
pub(crate) fn handed(message: Message, reply: Reply<Bytes>) -> StepAnswer
    ensures { result ≡ handed_lem message reply }
{
    match reply {
        Reply::Ok => StepAnswer::HandedOver(message),
        other => StepAnswer::Response(other),
    }
}
