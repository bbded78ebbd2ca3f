//! One copy of a job at a node: what the node keeps of it, what keeps it, and what happens to it. A copy knows neither its id nor its job.
#![tactic(auto)]

ghost use Rattle.std.specs.Prelude.{◌≡◌, true, false, None, is_some};
ghost use Rattle.std.specs.Option.{option_map_or};
ghost use Rattle.private_store.specs.rules.Copies.{extent_of, is_away, is_held, may_evict, may_drain, may_spill};
ghost use Rattle.private_store.specs.rules.Extents.{rounded as rounded_lem};
ghost use Rattle.row_copy.specs.CopyViews.{new_copy_view, fetched_copy_view, is_unasked, was_sealed_with as was_sealed_with_lem};
ghost use Rattle.private_store.specs.rules.Contents.{is_sized};
ghost use Rattle.row_copy.specs.Usages.{is_spilling as is_spilling_lem};
ghost use Rattle.row_copy.specs.Keeping.{is_over as is_over_lem, is_idle_view};

mod checks;
mod copy_sizes;
mod device;
mod fetching;
mod keeping;
mod marks;

pub use checks::first_refusal;
use fetch_core::FetchIn;
pub use marks::{Awaited, Mark};
use obj_id::{CopyState, Digest, Extent, FetchNo, Kind, WorkKind};
use object_state::ObjectCopy;
use pins_holds::Pins;
use private_store::{Fault, rounded};
use std::alloc::Global;
use std::marker::Model;

/// A copy of a job: its marks, what keeps it, where its bytes lie in the job's window, and the fetch that
/// brings it. A contract sees the store's copy, with its digest and the kind of the work in flight.
#[derive(Drop)]
pub struct RowCopy {
    marks: ObjectCopy,
    pins: Pins,
    // in the window, in bytes, while it is resident
    offset: Option<u64>,
    fetch: Option<FetchIn>,
    // whether a grant of it stands that the job gave
    granted: bool,
}

impl Model for RowCopy {
    ghost use Rattle.row_copy.specs.CopyViews.{CopyView, copy_view_of, PartsAgree};

    ghost Value = { CopyView };

    ghost view = { λ c. copy_view_of c.marks c.pins c.offset c.fetch c.granted };

    ghost invariant = { λ c. PartsAgree c.marks c.pins c.offset c.fetch };
}

impl RowCopy {
    /// A copy to be written, of `len` bytes, at an offset of the window. Takes no memory.
    pub fn created(alloc: Global, kind: Kind, len: u32, offset: u64) -> RowCopy
        ensures { result ≡ new_copy_view kind len offset }
    {
        RowCopy {
            marks: ObjectCopy::created(kind, len),
            pins: Pins::new(alloc, kind),
            offset: Some(offset),
            fetch: None,
            granted: false,
        }
    }

    /// A copy that is fetched under this number. Takes no memory.
    pub fn fetching(alloc: Global, number: FetchNo) -> RowCopy
        ensures { result ≡ fetched_copy_view number }
    {
        RowCopy {
            marks: ObjectCopy::fetching(),
            pins: Pins::new(alloc, Kind::Secondary),
            offset: None,
            fetch: Some(FetchIn::new(alloc, number)),
            granted: false,
        }
    }

    /// Its state.
    pub fn state(&self) -> CopyState
        ensures { result ≡ self.now.copy.state }
    {
        self.marks.state()
    }

    /// Whether it is the object's first copy or one made by a transfer.
    pub fn kind(&self) -> Kind
        ensures { result ≡ self.now.copy.kind }
    {
        self.marks.kind()
    }

    /// The object's bytes; of a fetch that isn't sized, 0.
    pub fn length(&self) -> u32
        ensures { result ≡ self.now.copy.length }
    {
        self.marks.length()
    }

    /// Where its bytes begin in the window, if it is resident.
    pub fn offset(&self) -> Option<u64>
        ensures offset { result ≡ self.now.copy.offset }
        ensures unasked { option_map_or (λ f. is_unasked f.phase) self.now.copy.fetch false ≡ true → result ≡ None }
        ensures away { is_away self.now.copy.state ≡ true → result ≡ None }
    {
        self.offset
    }

    /// Its bytes in the window, in whole units of 16, if it is resident.
    pub fn extent(&self) -> Option<Extent>
        ensures { result ≡ extent_of self.now.copy }
    {
        let offset = self.offset?;
        Some(Extent {
            offset,
            length: self.rounded_length(),
        })
    }

    /// Its length in bytes, in whole units of 16.
    pub fn rounded_length(&self) -> u64
        ensures { result ≡ rounded_lem self.now.copy.length }
    {
        rounded(self.length())
    }

    /// Whether it is removed as soon as nothing keeps it.
    pub fn doomed(&self) -> bool
        ensures { result ≡ self.now.copy.doomed }
    {
        self.marks.doomed()
    }

    /// Whether a work of it is in flight.
    pub fn is_working(&self) -> bool
        ensures { result ≡ is_some self.now.working }
    {
        self.marks.working().is_some()
    }

    /// Whether a write of it is in flight.
    pub fn is_spilling(&self) -> bool
        ensures { result ≡ is_spilling_lem self.now }
    {
        matches!(self.marks.working(), Some(WorkKind::Write))
    }

    /// What the next Get answers of its last restore, if that failed and no Get has answered it since.
    pub fn fault(&self) -> Option<Fault>
        ensures { result ≡ self.now.copy.fault }
    {
        self.marks.fault()
    }

    /// Whether its bytes are on the device.
    pub fn is_backed(&self) -> bool
        ensures { result ≡ is_some self.now.copy.backed }
    {
        self.marks.backed().is_some()
    }

    /// The number of the write that put its bytes on the device, if they are there.
    pub fn backed(&self) -> Option<u64>
        ensures { result ≡ self.now.copy.backed }
    {
        self.marks.backed()
    }

    /// The digest of its bytes: from the seal, or from the source that its fetch chose.
    pub fn digest(&self) -> Option<Digest>
        ensures digest { result ≡ self.now.digest }
        ensures fetched { option_map_or (λ f. is_sized f.phase) self.now.copy.fetch false ≡ true → is_some result ≡ true }
    {
        self.marks.digest()
    }

    /// Whether it was sealed with this length and digest.
    pub fn was_sealed_with(&self, length: u32, digest: &Digest) -> bool
        ensures { result ≡ was_sealed_with_lem length digest.now self.now }
    {
        if !self.marks.was_sealed() {
            return false;
        }
        let Some(own) = self.marks.digest() else {
            unreachable!()
        };
        self.length() == length && *digest == own
    }

    /// Whether a grant of it stands that the job gave.
    pub fn is_granted(&self) -> bool
        ensures { result ≡ self.now.granted }
    {
        self.granted
    }

    /// What keeps it.
    pub fn pins(&self) -> &Pins
        ensures pinned { result.now.pinned ≡ self.now.copy.pinned }
        ensures borrowers { result.now.borrowers ≡ self.now.copy.borrowers }
        ensures holds { result.now.holds ≡ self.now.copy.holds }
        ensures kind { result.now.kind ≡ self.now.copy.kind }
    {
        &self.pins
    }

    /// Whether it is removed as soon as it is looked at: it is doomed, and neither held nor granted nor working.
    pub fn is_over(&self) -> bool
        ensures { result ≡ is_over_lem self.now }
    {
        self.doomed() && !self.is_held() && !self.granted && !self.is_working()
    }

    /// Whether it may be evicted: sealed, idle, and a secondary or backed.
    pub fn is_evictable(&self) -> bool
        ensures { result ≡ may_evict self.now.copy.state self.now.copy.kind self.now.copy.backed (is_idle_view self.now) }
    {
        self.marks.is_evictable(self.is_held(), self.granted)
    }

    /// Whether it may be evicted once its work has ended: resident and working, neither held nor granted.
    pub fn is_draining(&self) -> bool
        ensures { result ≡ may_drain (is_some self.now.working) (is_some self.now.copy.offset) (is_held self.now.copy) self.now.granted }
    {
        self.marks
            .is_draining(self.offset.is_some(), self.is_held(), self.granted)
    }

    /// Whether it may be spilled: a sealed primary that is idle, not backed and not doomed.
    pub fn is_spillable(&self) -> bool
        ensures { result ≡ may_spill self.now.copy.state self.now.copy.kind self.now.copy.backed self.now.copy.doomed (is_idle_view self.now) }
    {
        self.marks.is_spillable(self.is_held(), self.granted)
    }
}
