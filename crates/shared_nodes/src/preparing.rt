//! What takes long is done before a node is locked for the step that wants it, or after it: zeros are made, bytes are hashed, and
//! memory is given back. Whatever becomes of them meanwhile, the step is the same.
ghost use Rattle.std.specs.Prelude.{◌≡◌, ◌⊎◌};

use crate::SharedNode;
use bytes::Bytes;
use hashed_bytes::Hashed;
use memory_growth::{lists, shared};
use node_gate::{JournaledNode, Posted};
use node_housekeeping::Pause;
use obj_id::limits::{CHUNK_SIZE, LONGEST_OBJECT, UNIT};
use obj_id::{
    ChunkIndex, Command, DeviceAnswer, Endpoint, FetchNo, JobNo, Message, NodeNo, ObjectId,
    PeerMessage,
};
use private_store::Event;
use std::alloc::Global;
use std::sync::Wait;

/// A chunk that arrives.
#[derive(Clone, Copy)]
struct Chunk<'a> {
    from: NodeNo,
    id: &'a ObjectId,
    number: FetchNo,
    index: ChunkIndex,
    bytes: &'a Bytes,
}

impl<K: JournaledNode, P: Pause> SharedNode<K, P> {
    /// What a Seal wants: the digest of the copy's bytes. The copy has it once its bytes were compared with those that were hashed, a
    /// part at a time, between which others may lock the node.
    pub(crate) fn prepare_seal<R: Wait>(&self, rt: &R, job: JobNo, id: &ObjectId) {
        let Some(hashed) = self.hash_copy(rt, job, id) else {
            return;
        };
        self.lock(rt).expect(job, id, hashed);
        for _ in 0..LONGEST_OBJECT {
            if !self.lock(rt).compare(job, id) {
                return;
            }
        }
    }

    /// What a command wants that may place a long extent: zeros.
    pub(crate) fn prepare_place<R: Wait>(
        &self,
        rt: &R,
        job: JobNo,
        command: &Command<Bytes>,
    ) -> K::Prepared {
        let wanted = self.lock(rt).extent_wanted(job, command);
        match wanted {
            Some(len) => K::prepared_zeros(self.housekeeping.upkeep.alloc, len),
            None => K::nothing_prepared(),
        }
    }

    /// The bytes of a copy with their digest, which is computed while the node isn't locked.
    fn hash_copy<R: Wait>(&self, rt: &R, job: JobNo, id: &ObjectId) -> Option<Hashed> {
        let bytes = self.lock(rt).share_copy(job, id)?;
        Some(Hashed::new(bytes))
    }

    /// What a message that arrives wants: the last chunk of an object the digest of all its bytes.
    pub(crate) fn prepare_arrival<R: Wait>(&self, rt: &R, posted: &K::Posted) -> K::Prepared {
        match chunk_of(posted) {
            Some(chunk) => K::prepared_bytes(self.hash_with_last(rt, posted.job(), &chunk), None),
            None => K::nothing_prepared(),
        }
    }

    /// The bytes of the object of which no chunk but this one is missing, with their digest.
    fn hash_with_last<R: Wait>(&self, rt: &R, job: JobNo, chunk: &Chunk<'_>) -> Option<Hashed> {
        let len = self.lock(rt).length_with_last(
            job,
            chunk.from,
            chunk.id,
            chunk.number,
            chunk.index,
            chunk.bytes.len(),
        )?;
        if len > LONGEST_OBJECT {
            return None;
        }
        let mut whole = lists::with_capacity(self.housekeeping.upkeep.alloc, len as usize).ok()?;
        for index in 0..len.div_ceil(CHUNK_SIZE) {
            let part = if index == chunk.index.0 {
                shared::again(chunk.bytes).ok()?
            } else {
                self.part_of_copy(rt, job, chunk.id, index)?
            };
            lists::extend_from_slice(&mut whole, part.as_slice()).ok()?;
        }
        Some(Hashed::new(shared::from_vec(whole).ok()?))
    }

    /// The bytes of the chunk of this index. The node is locked for these alone.
    fn part_of_copy<R: Wait>(
        &self,
        rt: &R,
        job: JobNo,
        id: &ObjectId,
        index: u32,
    ) -> Option<Bytes> {
        let offset = index.saturating_mul(CHUNK_SIZE);
        self.lock(rt).copy_part(job, id, offset, CHUNK_SIZE)
    }
}

/// What the Finish of a read wants, which are the digest of the bytes that were read, and they as they fill an extent; and the job
/// whose it is.
pub(crate) fn prepare_finish<K: JournaledNode>(
    alloc: Global,
    event: &Event,
) -> (JobNo, K::Prepared) {
    let Event::Finish {
        job,
        answer: DeviceAnswer::Bytes(bytes),
        ..
    } = event
    else {
        return (JobNo(0), K::nothing_prepared());
    };
    let hashed = shared::again(bytes).ok().map(Hashed::new);
    (*job, K::prepared_bytes(hashed, filled(alloc, bytes)))
}

/// The bytes with zeros up to the end of an extent, if they don't fill one by themselves.
fn filled(alloc: Global, bytes: &Bytes) -> Option<Bytes> {
    let len = bytes.len().next_multiple_of(UNIT as usize);
    if len == bytes.len() || len > LONGEST_OBJECT as usize {
        return None;
    }
    let mut filled = lists::with_capacity(alloc, len).ok()?;
    lists::extend_from_slice(&mut filled, bytes.as_slice()).ok()?;
    lists::resize(&mut filled, len, 0).ok()?;
    shared::from_vec(filled).ok()
}

/// The memory of copies that a step of the job took out, if it may have: to be let go once the node isn't locked. No step, so
/// nothing else changes.
pub(crate) fn spent_by<K: JournaledNode>(
    kept: &mut K,
    job: JobNo,
    removes: bool,
) -> Option<K::Prepared>
    ensures { (kept.new ≡ kept.old) ⊎ K.rests kept.old kept.new }
{
    if removes {
        Some(kept.prepare(job, K::nothing_prepared()))
    } else {
        None
    }
}

/// The chunk that the message is, if it is one.
fn chunk_of<M: Posted>(posted: &M) -> Option<Chunk<'_>> {
    let Endpoint::Node(from) = posted.from() else {
        return None;
    };
    let Message::ToPeer(
        PeerMessage::Chunk {
            id,
            number,
            index,
            bytes,
        },
    ) = posted.message()
    else {
        return None;
    };
    Some(Chunk {
        from: NodeNo(from),
        id,
        number: FetchNo(*number),
        index: ChunkIndex(*index),
        bytes,
    })
}
