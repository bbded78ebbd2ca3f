//! What arrives for a fetch: its source, its chunks, or that its source has no copy.
#![tactic(auto, unfolding(private_store::specs::rules::Change::checked, private_store::specs::rules::Change::needing, private_store::specs::rules::Change::sending))]

ghost use Rattle.std.specs.Prelude.{◌≡◌, ◌==◌, filter, not};
ghost use Rattle.private_store.specs.rules.Events.{chunk_arrived, is_missing as is_missing_lem, located, not_here_arrived};
ghost use Rattle.plain_store.specs.Arrivals.{awaits, awaits_from, changed_if, chunked, filled, awaits_location, located_under, lost};

use crate::copies::{FetchPhase, PlainCopy, PlainFetch};
use crate::marks::Mark;
use crate::store::PlainStore;
use obj_id::{ChunkIndex, FetchNo, NodeNo, ObjectId, Reply};
use private_store::{ChunkVerdict, FetchFault, Source};

impl PlainCopy {
    /// Whether it is in the fetch of this number, whose source isn't known.
    pub(crate) fn is_locating(&self, number: FetchNo) -> bool
        ensures { result ≡ awaits_location number self.now }
    {
        match &self.fetch {
            Some(fetch) => { fetch.number == number && matches!(fetch.phase, FetchPhase::Locating) }
            None => false,
        }
    }

    /// Whether it is in the fetch of this number, which pulls from this node.
    pub(crate) fn awaits_from(&self, number: FetchNo, from: NodeNo) -> bool
        ensures { result ≡ awaits_from number from self.now }
    {
        match &self.fetch {
            Some(fetch) => match &fetch.phase {
                FetchPhase::Pulling(source, _) => fetch.number == number && from == *source,
                _ => false,
            },
            None => false,
        }
    }

    /// Whether it is in the fetch of this number, which pulls from this node and lacks the chunk.
    pub(crate) fn awaits(&self, number: FetchNo, index: ChunkIndex, from: NodeNo) -> bool
        ensures { result ≡ awaits number index from self.now }
    {
        match &self.fetch {
            Some(fetch) => match &fetch.phase {
                FetchPhase::Pulling(source, missing) => {
                    fetch.number == number && from == *source && is_missing(missing, index)
                }
                _ => false,
            },
            None => false,
        }
    }

    /// A chunk of its fetch, if it is pulled.
    pub(crate) fn take_chunk(&mut self, index: ChunkIndex, verdict: ChunkVerdict)
        ensures { self.new ≡ chunked index verdict self.old }
    {
        let Some(PlainFetch { number, phase }) = self.fetch.take() else {
            return;
        };
        match phase {
            FetchPhase::Pulling(source, missing) => {
                let left = without_chunk(missing, index);
                self.fill(number, source, left, verdict);
            }
            phase => self.fetch = Some(PlainFetch { number, phase }),
        }
    }

    /// Its fetch, under this number, has one chunk less to come; the last one seals the copy, or shows that it is
    /// damaged. Takes no memory.
    pub(crate) fn fill(
        &mut self,
        number: FetchNo,
        source: NodeNo,
        missing: Vec<u32>,
        verdict: ChunkVerdict,
    )
        ensures { self.new ≡ filled number source missing.items verdict self.old }
    {
        if verdict == ChunkVerdict::Ignored {
            return;
        }
        if !missing.is_empty() {
            self.apply(Mark::Lacking {
                number,
                source,
                missing,
            });
        } else if verdict == ChunkVerdict::Damaged {
            self.apply(Mark::FetchFailed {
                number,
                fault: FetchFault::Damaged,
            });
        } else {
            self.apply(Mark::Brought);
        }
    }
}

/// The chunks that are missing after this one came. Takes no memory.
fn without_chunk(mut missing: Vec<u32>, index: ChunkIndex) -> Vec<u32>
    ensures { result.items ≡ filter (λ i. not (i == index)) missing.items }
{
    missing.retain(|gap| *gap != index.0);
    missing
}

/// Whether the chunk is missing.
fn is_missing(missing: &Vec<u32>, index: ChunkIndex) -> bool
    ensures { result ≡ is_missing_lem missing.now.items index }
{
    missing.iter().any(|gap| *gap == index.0)
}

impl PlainStore {
    /// The copy's fetch under this number has a source, if its source isn't known. Takes no memory.
    fn locate(&mut self, id: ObjectId, number: FetchNo, source: Option<Source>)
        ensures { self.new ≡ record self.old { shape = changed_if (awaits_location number) (located_under number source) self.old.shape id } }
    {
        let Some(copy) = self.copy(id) else {
            return;
        };
        if !copy.is_locating(number) {
            return;
        }
        self.apply(id, Mark::Located { number, source });
    }

    /// Located: the directory's answer, which counts while the source isn't known. Takes no memory.
    pub(crate) fn located(
        &mut self,
        id: ObjectId,
        number: FetchNo,
        source: Option<Source>,
    ) -> Reply<u64>
        ensures reply { result ≡ (located self.old.shape id number source).reply }
        ensures store { self.new ≡ record self.old { shape = (located self.old.shape id number source).shape } }
        ensures used { (located self.old.shape id number source).used ≡ None }
    {
        self.locate(id, number, source);
        Reply::Ok
    }

    /// The copy's fetch under this number is lost, if it pulls from this node. Takes no memory.
    fn lose(&mut self, id: ObjectId, number: FetchNo, from: NodeNo)
        ensures { self.new ≡ record self.old { shape = changed_if (awaits_from number from) (lost number FetchFault.Absent) self.old.shape id } }
    {
        let Some(copy) = self.copy(id) else {
            return;
        };
        if !copy.awaits_from(number, from) {
            return;
        }
        self.apply(
            id,
            Mark::FetchFailed {
                number,
                fault: FetchFault::Absent,
            },
        );
    }

    /// NotHere: the source has no such copy, and the fetch is over. Takes no memory.
    pub(crate) fn not_here_arrived(
        &mut self,
        id: ObjectId,
        number: FetchNo,
        from: NodeNo,
    ) -> Reply<u64>
        ensures reply { result ≡ (not_here_arrived self.old.shape id number from).reply }
        ensures store { self.new ≡ record self.old { shape = (not_here_arrived self.old.shape id number from).shape } }
        ensures used { (not_here_arrived self.old.shape id number from).used ≡ None }
    {
        self.lose(id, number, from);
        Reply::Ok
    }

    /// The copy's fetch under this number has one chunk less to come, if it lacks the chunk from this node. Takes no
    /// memory.
    fn fill(
        &mut self,
        id: ObjectId,
        number: FetchNo,
        index: ChunkIndex,
        from: NodeNo,
        verdict: ChunkVerdict,
    )
        ensures { self.new ≡ record self.old { shape = changed_if (awaits number index from) (chunked index verdict) self.old.shape id } }
    {
        let Some(copy) = self.copy(id) else {
            return;
        };
        if !copy.awaits(number, index, from) {
            return;
        }
        if let Some(copy) = self.copy_mut(id) {
            copy.take_chunk(index, verdict);
        }
    }

    /// Chunk: it counts if the fetch lacks it and pulls from the node that sent it. Takes no memory.
    pub(crate) fn chunk_arrived(
        &mut self,
        id: ObjectId,
        number: FetchNo,
        index: ChunkIndex,
        from: NodeNo,
        verdict: ChunkVerdict,
    ) -> Reply<u64>
        ensures reply { result ≡ (chunk_arrived self.old.shape id number index from verdict).reply }
        ensures store { self.new ≡ record self.old { shape = (chunk_arrived self.old.shape id number index from verdict).shape } }
        ensures used { (chunk_arrived self.old.shape id number index from verdict).used ≡ None }
    {
        if verdict == ChunkVerdict::Ignored {
            return Reply::Ok;
        }
        self.fill(id, number, index, from, verdict);
        Reply::Ok
    }
}
