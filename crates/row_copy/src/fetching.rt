//! The fetch that brings a copy.
ghost use Rattle.std.specs.Prelude.{◌≡◌, ◌&&◌, ◌==◌, true, is_some, option_map};
ghost use Rattle.std.specs.List.{list_all};
ghost use Rattle.std.specs.Option.{option_copied};
ghost use Rattle.row_copy.specs.CopyViews.{store_fetch_of, after_pull, CanAwait};
ghost use Rattle.row_copy.specs.declared.marks.Awaited.TheVariants.{Chunks};
ghost use Rattle.private_store.specs.laws.Invariants.{is_fetching};
ghost use Rattle.row_copy.specs.Arriving.{awaits_source, after_located, asks, fills, lacks_only, after_chunk, after_last_chunk, after_failed_fetch};

use crate::RowCopy;
use fetch_core::{FetchIn, Stage};
use obj_id::{ChunkIndex, CopyState, FetchNo, Location, NodeNo};
use private_store::FetchFault;

impl RowCopy {
    /// The fetch that brings it, if it is on its way.
    pub fn fetch(&self) -> Option<&FetchIn>
        ensures { option_map store_fetch_of (option_copied result) ≡ self.now.copy.fetch }
    {
        self.fetch.as_ref()
    }

    /// Whether the directory's answer of this number is of its fetch, whose source isn't known.
    pub fn awaits_source(&self, number: FetchNo) -> bool
        ensures { result ≡ awaits_source number self.now }
    {
        let Some(fetch) = self.fetch.as_ref() else {
            return false;
        };
        let is_locating = matches!(fetch.stage(), Stage::Locating);
        self.is_fetching() && self.offset.is_none() && fetch.number() == number && is_locating
    }

    /// The directory's answer at this node: the first entry of another node is the source of its fetch. Without one the
    /// fetch has failed. Does nothing unless it is of this fetch, and the source isn't known.
    pub fn locate(&mut self, node: NodeNo, number: FetchNo, entries: &[Location])
        ensures { self.new ≡ after_located node number entries.now self.old }
    {
        if !self.awaits_source(number) {
            return;
        }
        let Some(fetch) = self.fetch.as_mut() else {
            return;
        };
        fetch.located(node, number, entries);
        match fetch.digest() {
            Some(digest) => self.marks.sized(fetch.length(), digest),
            None => self.marks.fetch_failed(),
        }
    }

    /// Whether its fetch has this number and asks this source.
    pub fn asks(&self, number: FetchNo, from: NodeNo) -> bool
        ensures { result ≡ asks number from self.now }
    {
        let Some(fetch) = self.fetch.as_ref() else {
            return false;
        };
        let is_asked = match fetch.stage() {
            Stage::Pulling(source) => number == fetch.number() && from == source,
            _ => false,
        };
        self.is_fetching() && is_asked
    }

    /// Whether a chunk of `len` bytes fills a gap: it is of its fetch, from its source, missing, and as long as that chunk
    /// is. Then the digest of all bytes is known.
    pub fn is_filled_by(&self, number: FetchNo, index: ChunkIndex, from: NodeNo, len: usize) -> bool
        ensures { result ≡ fills number from index len self.now }
    {
        let Some(fetch) = self.fetch.as_ref() else {
            return false;
        };
        self.is_fetching() && fetch.fills_one(number, index, from, len)
    }

    /// Whether no chunk but this one is missing.
    pub fn lacks_only(&self, index: ChunkIndex) -> bool
        ensures { result ≡ lacks_only index self.now }
    {
        let Some(fetch) = self.fetch.as_ref() else {
            return false;
        };
        are_all(fetch.missing(), index)
    }

    /// Whether it is on its way.
    fn is_fetching(&self) -> bool
        ensures { result ≡ is_fetching self.now.copy.state }
    {
        matches!(self.state(), CopyState::Fetching)
    }

    /// It has a place at the offset, and all chunks of its bytes are missing.
    pub(crate) fn begin_pull(&mut self, offset: u64, missing: Vec<u32>)
        requires { CanAwait (Chunks missing) self.old }
        ensures { self.new ≡ after_pull offset self.old }
    {
        let Some(fetch) = self.fetch.as_mut() else {
            unreachable!()
        };
        fetch.begin_with(missing);
        self.offset = Some(offset);
    }

    /// A chunk of `len` bytes came: the gap that it fills is closed.
    pub(crate) fn take_chunk(
        &mut self,
        number: FetchNo,
        index: ChunkIndex,
        from: NodeNo,
        len: usize,
    )
        ensures { self.new ≡ after_chunk number from index len self.old }
    {
        if let Some(fetch) = self.fetch.as_mut() {
            fetch.take_chunk(number, index, from, len);
        }
    }

    /// All its bytes are there: it is sealed.
    pub(crate) fn bring(&mut self)
        requires { is_fetching self.old.copy.state && is_some self.old.digest ≡ true }
        ensures { self.new ≡ after_last_chunk self.old }
    {
        self.marks.fetched();
        self.fetch = None;
    }

    /// Its fetch is over without it: it has no place, and the next Get answers why.
    pub(crate) fn fail_fetch(&mut self, fault: FetchFault)
        requires { is_fetching self.old.copy.state ≡ true }
        ensures { self.new ≡ after_failed_fetch fault self.old }
    {
        if let Some(fetch) = self.fetch.as_mut() {
            fetch.fail(fault);
        }
        self.marks.fetch_failed();
        self.offset = None;
    }
}

/// Whether these are all this index.
fn are_all(indexes: &[u32], index: ChunkIndex) -> bool
    ensures { result ≡ list_all (λ i. i == index) indexes.now }
{
    indexes.iter().all(|i| *i == index.0)
}
