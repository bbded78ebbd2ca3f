//! Both ends of a fetch: what the node that fetches an object remembers of it while messages come in any
//! order, never, or often, and the chunks that a node sends which is asked for them. The bytes lie in the
//! windows of the two nodes.
#![tactic(auto)]

ghost use Rattle.std.specs.Prelude.{◌≡◌, ℕ, ◌*◌, not, if◌then◌else◌, OnOk, OnErr, IfOk, IfSome, length, take, drop, filter, is_some, nat_lt, nat_eq};
ghost use Rattle.private_store.specs.declared.faults.FetchFault.TheVariants.{Damaged, Absent};
ghost use Rattle.private_store.specs.rules.Shape.{sized};
ghost use Rattle.private_store.specs.rules.Marks.{chunk_count, counted};
ghost use Rattle.private_store.specs.rules.Events.{is_missing as is_missing_lem};
ghost use Rattle.private_store.specs.rules.Contents.{chunk_length, entry_elsewhere, digest_of as digest_of_lem};
ghost use Rattle.private_store.specs.rules.Private.{chunks_asked as chunks_asked_for};
ghost use Rattle.fetch_core.specs.Stages.{phase_of};
ghost use Rattle.fetch_core.specs.Fetching.{begun, missing_of, fetch_after_located as located_lem, pull_begun, fetch_chunk_taken, fills_one, is_whole, is_pulled_from, failed_with};

pub mod laws;

use bytes::Bytes;
use memory_growth::{OutOfMemory, lists, shared};
use obj_id::limits::CHUNK_SIZE;
use obj_id::{ChunkIndex, Digest, FetchNo, Location, NodeNo, ObjectId, PeerMessage};
use private_store::FetchFault;
use std::alloc::Global;
use std::marker::Model;

/// How far a fetch is.
#[derive(Clone, Copy, Debug, PartialEq, Eq, Drop)]
pub enum Stage {
    /// Its source isn't known.
    Locating,
    /// The node that has the object; length and digest are known.
    Sized(NodeNo),
    /// The node that is asked for chunks.
    Pulling(NodeNo),
    /// It is over without a copy, for the next Get to tell why.
    Failed(FetchFault),
}

/// A fetch at the node that fetches.
pub struct FetchIn {
    number: FetchNo,
    stage: Stage,
    length: u32,
    digest: Option<Digest>,
    // counts while it is Pulling: at most 256 indexes, rising
    missing: Vec<u32>,
}

// By hand, so that it is proved here and not in each crate above.
impl Drop for FetchIn {
    fn drop(self) {
        let FetchIn {
            number: _number,
            stage: _stage,
            length: _length,
            digest: _digest,
            missing: _missing,
        } = self;
    }
}

impl Model for FetchIn {
    ghost use Rattle.fetch_core.specs.Fetching.{Fetching};

    ghost Value = { Fetching };

    ghost use Rattle.fetch_core.specs.Stages.{phase_of};

    ghost view = { λ f. record { number = f.number; phase = phase_of f.stage f.missing.items; length = f.length; digest = f.digest } };
}

impl FetchIn {
    /// A fetch of this number, whose source is asked for. Takes no memory.
    pub fn new(alloc: Global, number: FetchNo) -> FetchIn
        ensures { result ≡ begun number }
    {
        FetchIn {
            number,
            stage: Stage::Locating,
            length: 0,
            digest: None,
            missing: Vec::new(alloc),
        }
    }

    /// The number that messages of this fetch have.
    pub fn number(&self) -> FetchNo
        ensures { result ≡ self.now.number }
    {
        self.number
    }

    /// The object's bytes, as its location told; 0 before that. Nothing is known of its range.
    pub fn length(&self) -> u32
        ensures { result ≡ self.now.length }
    {
        self.length
    }

    /// The object's digest, as its location told; none before that and after a failure.
    pub fn digest(&self) -> Option<Digest>
        ensures { result ≡ self.now.digest }
    {
        self.digest
    }

    /// How far it is.
    pub fn stage(&self) -> Stage
        ensures { phase_of result (missing_of self.now.phase) ≡ self.now.phase }
    {
        self.stage
    }

    /// The indexes of the chunks that are missing while it is Pulling, rising; otherwise none.
    pub fn missing(&self) -> &[u32]
        ensures { result.now ≡ missing_of self.now.phase }
    {
        match self.stage {
            Stage::Pulling(_) => &self.missing,
            _ => &[],
        }
    }

    /// The directory's answer at this node, which counts while the source isn't known: the first entry of
    /// another node is the source. Without one the fetch has failed.
    pub fn located(&mut self, node: NodeNo, number: FetchNo, entries: &[Location])
        ensures { self.new ≡ located_lem node number entries.now self.old }
    {
        if number != self.number || self.stage != Stage::Locating {
            return;
        }
        match elsewhere(node.0, entries) {
            Some(entry) => {
                self.stage = Stage::Sized(NodeNo(entry.node));
                self.length = entry.length;
                self.digest = Some(entry.digest);
            }
            None => self.fail(FetchFault::Absent),
        }
    }

    /// All chunks are missing from now on. Does nothing to a fetch that isn't Sized, and takes no memory then.
    ///
    /// Out of memory leaves it as it was. Takes as many steps as the object has chunks.
    pub fn begin(&mut self, alloc: Global) -> Result<(), OutOfMemory>
        ensures ok { OnOk result (self.new ≡ pull_begun self.old) }
        ensures err { OnErr result (self.new ≡ self.old) }
        ensures grows { OnErr result ((source : ℕ) × (self.old.phase ≡ sized source)) }
    {
        let Stage::Sized(_) = self.stage else {
            return Ok(());
        };
        let missing = all_chunks(alloc, self.length)?;
        self.begin_with(missing);
        Ok(())
    }

    /// The same, if the indexes of all chunks were made before. Takes no memory.
    pub fn begin_with(&mut self, missing: Vec<u32>)
        requires { missing.items ≡ counted 0 (chunk_count self.old.length) }
        ensures { self.new ≡ pull_begun self.old }
    {
        // a pattern over the field itself gets no proof, since the node in it is a number to contracts
        let stage = self.stage;
        let Stage::Sized(source) = stage else {
            return;
        };
        self.missing = missing;
        self.stage = Stage::Pulling(source);
    }

    /// A chunk of `length` bytes came: whether it fills a gap, which is then closed, so that its bytes are
    /// to be written. It must be of this fetch, from its source, missing, and as long as that chunk is.
    pub fn take_chunk(
        &mut self,
        number: FetchNo,
        index: ChunkIndex,
        from: NodeNo,
        length: usize,
    ) -> bool
        ensures response { result ≡ fills_one number from index length self.old }
        ensures kept { self.new ≡ fetch_chunk_taken number from index length self.old }
    {
        let fills = self.fills_one(number, index, from, length);
        if fills {
            close_gap(&mut self.missing, index);
        }
        fills
    }

    /// Whether a chunk of `length` bytes would fill a gap: it is of this fetch, from its source, missing, and as long as that
    /// chunk is.
    pub fn fills_one(&self, number: FetchNo, index: ChunkIndex, from: NodeNo, length: usize) -> bool
        ensures { result ≡ fills_one number from index length self.now }
    {
        match self.stage {
            Stage::Pulling(source) => {
                number == self.number
                    && from == source
                    && is_missing(&self.missing, index)
                    && length == chunk_bytes(self.length, index)
            }
            _ => false,
        }
    }

    /// Whether these are the object's bytes, by length and digest: asked once none is missing. If they
    /// aren't, the fetch has failed. Hashes the bytes once.
    pub fn complete(&mut self, bytes: &[u8]) -> bool
        ensures response { result ≡ is_whole self.old bytes.now }
        ensures kept { self.new ≡ (if is_whole self.old bytes.now then self.old else failed_with self.old Damaged) }
    {
        let whole = bytes.len() == self.length as usize && self.digest == Some(digest_of(bytes));
        if !whole {
            self.fail(FetchFault::Damaged);
        }
        whole
    }

    /// A node says that it has no such copy: whether that is the source that was asked. The fetch has then
    /// failed.
    pub fn not_here(&mut self, number: FetchNo, from: NodeNo) -> bool
        ensures response { result ≡ is_pulled_from number from self.old }
        ensures kept { self.new ≡ (if is_pulled_from number from self.old then failed_with self.old Absent else self.old) }
    {
        let refused = number == self.number && self.stage == Stage::Pulling(from);
        if refused {
            self.fail(FetchFault::Absent);
        }
        refused
    }

    /// The fetch is over without a copy, for the next Get to tell why.
    pub fn fail(&mut self, fault: FetchFault)
        ensures { self.new ≡ failed_with self.old fault }
    {
        self.stage = Stage::Failed(fault);
        self.digest = None;
    }
}

/// The chunks of an object with these bytes that a fetch of this number asked for: one for each index that
/// the object has, in the order asked, and an index asked twice is sent twice.
///
/// Out of memory if the messages can't be made. The chunks share the object's bytes.
pub fn chunks_asked(
    alloc: Global,
    bytes: &Bytes,
    id: ObjectId,
    number: u64,
    indexes: &[u32],
) -> Result<Vec<PeerMessage>, OutOfMemory>
    ensures ok { IfOk result (λ v. v.items ≡ chunks_asked_for bytes.now id number (length bytes.now) indexes.now) }
{
    let mut sent = Vec::new(alloc);
    for index in indexes {
        if let Some(chunk) = chunk_at(bytes, *index)? {
            lists::push(
                &mut sent,
                PeerMessage::Chunk {
                    id,
                    number,
                    index: *index,
                    bytes: chunk,
                },
            )?;
        }
    }
    Ok(sent)
}

/// The first entry of another node, which a fetch at this one gets its bytes from. Takes no memory.
pub fn elsewhere(node: u32, entries: &[Location]) -> Option<Location>
    ensures { result ≡ entry_elsewhere node entries.now }
{
    for entry in entries {
        if entry.node != node {
            return Some(*entry);
        }
    }
    None
}

/// The bytes of the chunk of this index, if there is one, which are shared.
fn chunk_at(bytes: &Bytes, index: u32) -> Result<Option<Bytes>, OutOfMemory>
    ensures there { IfOk result (λ chunk. is_some chunk ≡ nat_lt (65536 * index) (length bytes.now)) }
    ensures bytes { IfOk result (λ chunk. IfSome chunk (λ part. part ≡ take (chunk_length (length bytes.now) index) (drop (65536 * index) bytes.now))) }
{
    let start = index as usize * CHUNK_SIZE as usize;
    if start >= bytes.len() {
        return Ok(None);
    }
    let end = (start + CHUNK_SIZE as usize).min(bytes.len());
    Ok(Some(shared::part(bytes, start, end)?))
}

/// The SHA-256 digest (FIPS 180-4) of the bytes.
fn digest_of(bytes: &[u8]) -> Digest
    ensures { result ≡ digest_of_lem bytes.now }
{
    Digest(fast_sha256::digest(bytes))
}

/// How long the chunk of this index is, in an object of `length` bytes; 0 after its end.
fn chunk_bytes(length: u32, index: ChunkIndex) -> usize
    ensures { result ≡ chunk_length length index }
{
    let start = u64::from(index.0) * u64::from(CHUNK_SIZE);
    u64::from(length)
        .saturating_sub(start)
        .min(u64::from(CHUNK_SIZE)) as usize
}

/// The indexes of all chunks of an object of `length` bytes.
pub fn all_chunks(alloc: Global, length: u32) -> Result<Vec<u32>, OutOfMemory>
    ensures { IfOk result (λ v. v.items ≡ counted 0 (chunk_count length)) }
{
    let count = length.div_ceil(CHUNK_SIZE);
    let mut indexes = Vec::new(alloc);
    for index in 0..count {
        lists::push(&mut indexes, index)?;
    }
    Ok(indexes)
}

/// Whether the index is among these.
fn is_missing(missing: &[u32], index: ChunkIndex) -> bool
    ensures { result ≡ is_missing_lem missing.now index }
{
    missing.contains(&index.0)
}

/// Takes the index out.
fn close_gap(missing: &mut Vec<u32>, index: ChunkIndex)
    ensures { missing.new.items ≡ filter (λ i. not (nat_eq i index)) missing.old.items }
{
    missing.retain(|i| *i != index.0);
}
