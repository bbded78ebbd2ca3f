//! The marks of a copy, from its creation to its end on the device: each call is a row of the table of
//! states. A contract sees a copy as the record of its marks; where its extent is, who pins and holds it
//! and how far its fetch is, other crates keep.
#![tactic(auto)]

ghost use Rattle.std.specs.Prelude.{◌≡◌, ◌≢◌, Bool, true, false, Some, None, IfOk, OnOk, OnErr, IsOk, IsErrOf, is_some, is_none};
ghost use Rattle.obj_id.specs.declared.refusals.Refusal.{Refusal};
ghost use Rattle.obj_id.specs.declared.works.WorkKind.TheVariants.{Write, Read};
ghost use Rattle.obj_id.specs.declared.commands.CopyState.TheVariants.{Sealed, Restoring, Away};
ghost use Rattle.obj_id.specs.Kinds.{is_primary};
ghost use Rattle.private_store.specs.rules.Copies.{is_sealed, was_sealed as was_sealed_lem};
ghost use Rattle.private_store.specs.laws.Invariants.{is_fetching, is_restoring};
ghost use Rattle.object_state.specs.Marks.{Marks, IsMarked, is_written, marks_are_idle as is_idle_lem, marks_are_evictable as is_evictable_lem, marks_are_draining as are_draining_lem, marks_are_spillable as is_spillable_lem, marks_are_sized as is_sized_lem, marks_can_spill as can_spill_lem, marks_can_go_away as can_go_away_lem, can_restore as can_restore_lem, new_marks, fetched_marks, marks_seal_check as seal_check_lem, marks_written, marks_read_back};

pub mod laws;

use obj_id::{CopyState, Digest, Kind, Refusal, WorkKind};
use private_store::{Fault, WorkVerdict};
use std::marker::Model;

/// A copy of an object, without what stands on it.
#[derive(Clone, Copy, Debug, PartialEq, Eq)]
pub struct ObjectCopy {
    state: CopyState,
    kind: Kind,
    // in bytes
    len: u32,
    digest: Option<Digest>,
    // the number of the write
    backed: Option<u64>,
    doomed: bool,
    working: Option<WorkKind>,
    fault: Option<Fault>,
}

impl Model for ObjectCopy {
    ghost use Rattle.object_state.specs.Marks.{Marks, IsMarked};

    ghost Value = { Marks };

    ghost view = { λ c. record { state = c.state; kind = c.kind; length = c.len; digest = c.digest; backed = c.backed; doomed = c.doomed; working = c.working; fault = c.fault } };

    ghost invariant = { λ c. IsMarked (record { state = c.state; kind = c.kind; length = c.len; digest = c.digest; backed = c.backed; doomed = c.doomed; working = c.working; fault = c.fault }) };

    ghost inverse = { λ m. record { state = m.state; kind = m.kind; len = m.length; digest = m.digest; backed = m.backed; doomed = m.doomed; working = m.working; fault = m.fault } };
}

impl ObjectCopy {
    /// A copy of `len` bytes that is to be written.
    pub fn created(kind: Kind, len: u32) -> ObjectCopy
        ensures { result ≡ new_marks kind len }
    {
        ObjectCopy {
            state: CopyState::Created,
            kind,
            len,
            digest: None,
            backed: None,
            doomed: false,
            working: None,
            fault: None,
        }
    }

    /// A secondary on its way from another node, its length not known yet.
    pub fn fetching() -> ObjectCopy
        ensures { result ≡ fetched_marks }
    {
        ObjectCopy {
            state: CopyState::Fetching,
            kind: Kind::Secondary,
            len: 0,
            digest: None,
            backed: None,
            doomed: false,
            working: None,
            fault: None,
        }
    }

    /// Where its bytes are.
    pub fn state(&self) -> CopyState
        ensures state { result ≡ self.now.state }
        ensures kept { IsMarked self.now }
    {
        self.state
    }

    /// Whether it is the object's first copy or one made by a transfer.
    pub fn kind(&self) -> Kind
        ensures { result ≡ self.now.kind }
    {
        self.kind
    }

    /// The object's bytes; of a fetch that isn't sized, 0.
    pub fn length(&self) -> u32
        ensures { result ≡ self.now.length }
    {
        self.len
    }

    /// The digest of its bytes: from the seal, or from the source that a fetch chose.
    pub fn digest(&self) -> Option<Digest>
        ensures digest { result ≡ self.now.digest }
        ensures sealed { was_sealed_lem self.now.state ≡ true → is_some result ≡ true }
    {
        self.digest
    }

    /// The number of the write that put its bytes on the device.
    pub fn backed(&self) -> Option<u64>
        ensures { result ≡ self.now.backed }
    {
        self.backed
    }

    /// Whether it is removed as soon as nothing keeps it.
    pub fn doomed(&self) -> bool
        ensures { result ≡ self.now.doomed }
    {
        self.doomed
    }

    /// What the work does that is in flight for it.
    pub fn working(&self) -> Option<WorkKind>
        ensures { result ≡ self.now.working }
    {
        self.working
    }

    /// What the next Get answers of its last restore, if that failed and no Get has answered it since.
    pub fn fault(&self) -> Option<Fault>
        ensures { result ≡ self.now.fault }
    {
        self.fault
    }

    /// Whether it was ever sealed.
    pub fn was_sealed(&self) -> bool
        ensures { result ≡ was_sealed_lem self.now.state }
    {
        match self.state {
            CopyState::Created | CopyState::Fetching => false,
            CopyState::Sealed | CopyState::Restoring | CopyState::Away => true,
        }
    }

    /// Whether it may be evicted: it is sealed and idle, and a secondary or backed.
    pub fn is_evictable(&self, held: bool, granted: bool) -> bool
        ensures { result ≡ is_evictable_lem self.now held granted }
    {
        self.is_sealed()
            && self.is_idle(held, granted)
            && (!self.kind.is_primary() || self.backed.is_some())
    }

    /// Whether it may be spilled: it is a sealed and idle primary that is neither backed nor doomed.
    pub fn is_spillable(&self, held: bool, granted: bool) -> bool
        ensures { result ≡ is_spillable_lem self.now held granted }
    {
        self.is_sealed()
            && self.kind.is_primary()
            && self.backed.is_none()
            && self.is_idle(held, granted)
            && !self.doomed
    }

    /// Whether the end of its work, with nothing else, would let its extent go.
    pub fn is_draining(&self, resident: bool, held: bool, granted: bool) -> bool
        ensures { result ≡ are_draining_lem self.now resident held granted }
    {
        self.working.is_some() && resident && !held && !granted
    }

    /// Whether it is on its way and its digest is known.
    pub fn is_sized(&self) -> bool
        ensures { result ≡ is_sized_lem self.now }
    {
        self.is_fetching() && self.digest.is_some()
    }

    /// Whether a write of it can be begun.
    pub fn can_spill(&self) -> bool
        ensures { result ≡ can_spill_lem self.now }
    {
        self.is_sealed()
            && self.kind.is_primary()
            && self.backed.is_none()
            && self.working.is_none()
    }

    /// Whether its extent can be given up for its bytes on the device.
    pub fn can_go_away(&self) -> bool
        ensures { result ≡ can_go_away_lem self.now }
    {
        self.is_sealed() && self.backed.is_some()
    }

    /// Whether a read of it can be begun.
    pub fn can_restore(&self) -> bool
        ensures { result ≡ can_restore_lem self.now }
    {
        matches!(self.state, CopyState::Away) && self.fault.is_none()
    }

    /// Makes it immutable, with the digest of its bytes. `AlreadySealed` unless it is being written, and
    /// then nothing changes.
    pub fn seal(&mut self, digest: Digest) -> Result<(), Refusal>
        ensures ok { OnOk result (self.new ≡ record self.old { state = Sealed; digest = Some digest }) }
        ensures passed { IsOk result → seal_check_lem self.old ≡ None }
        ensures refused { (r : Refusal) → IsErrOf result r → seal_check_lem self.old ≡ Some r }
        ensures err { OnErr result (self.new ≡ self.old) }
    {
        if let Some(refusal) = self.seal_check() {
            return Err(refusal);
        }
        self.state = CopyState::Sealed;
        self.digest = Some(digest);
        Ok(())
    }

    /// Why it can't be sealed: `AlreadySealed`, or nothing.
    pub fn seal_check(&self) -> Option<Refusal>
        ensures { result ≡ seal_check_lem self.now }
    {
        match self.state {
            CopyState::Created => None,
            _ => Some(Refusal::AlreadySealed),
        }
    }

    /// Its fetch has a source: the length and the digest there.
    pub fn sized(&mut self, len: u32, digest: Digest)
        requires { is_fetching self.old.state ≡ true }
        ensures { self.new ≡ record self.old { length = len; digest = Some digest } }
    {
        self.len = len;
        self.digest = Some(digest);
    }

    /// Its fetch has brought all its bytes.
    pub fn fetched(&mut self)
        requires { is_sized_lem self.old ≡ true }
        ensures { self.new ≡ record self.old { state = Sealed } }
    {
        self.state = CopyState::Sealed;
    }

    /// Its fetch failed. The length stays.
    pub fn fetch_failed(&mut self)
        requires { is_fetching self.old.state ≡ true }
        ensures { self.new ≡ record self.old { digest = None } }
    {
        self.digest = None;
    }

    /// It is removed as soon as nothing keeps it.
    pub fn doom(&mut self)
        ensures { self.new ≡ record self.old { doomed = true } }
    {
        self.doomed = true;
    }

    /// A write of it was asked for.
    pub fn begin_spill(&mut self)
        requires { can_spill_lem self.old ≡ true }
        ensures { self.new ≡ record self.old { working = Some Write } }
    {
        self.working = Some(WorkKind::Write);
    }

    /// The write of this number was answered: it backs the copy, unless it failed.
    pub fn end_spill(&mut self, number: u64, failed: bool)
        requires { is_written self.old ≡ true }
        ensures { self.new ≡ marks_written self.old number failed }
    {
        self.working = None;
        if !failed {
            self.backed = Some(number);
        }
    }

    /// Its extent was given up.
    pub fn mark_away(&mut self)
        requires { can_go_away_lem self.old ≡ true }
        ensures { self.new ≡ record self.old { state = Away } }
    {
        self.state = CopyState::Away;
    }

    /// A read of it was asked for, and an extent is there again.
    pub fn begin_restore(&mut self)
        requires { can_restore_lem self.old ≡ true }
        ensures { self.new ≡ record self.old { state = Restoring; working = Some Read } }
    {
        self.state = CopyState::Restoring;
        self.working = Some(WorkKind::Read);
    }

    /// The read was answered: the copy is sealed again, or away with a fault.
    pub fn end_restore(&mut self, verdict: WorkVerdict)
        requires { is_restoring self.old.state ≡ true }
        ensures { self.new ≡ marks_read_back self.old verdict }
    {
        self.working = None;
        match verdict {
            WorkVerdict::Fine => {
                self.state = CopyState::Sealed;
            }
            WorkVerdict::Failed => {
                self.state = CopyState::Away;
                self.fault = Some(Fault::DeviceFailed);
            }
            WorkVerdict::Damaged => {
                self.state = CopyState::Away;
                self.fault = Some(Fault::Damaged);
            }
        }
    }

    /// The fault of its last restore, which is answered once.
    pub fn take_fault(&mut self) -> Option<Fault>
        ensures fault { result ≡ self.old.fault }
        ensures copy { self.new ≡ record self.old { fault = None } }
    {
        let fault = self.fault;
        self.fault = None;
        fault
    }

    fn is_sealed(&self) -> bool
        ensures { result ≡ is_sealed self.now.state }
    {
        matches!(self.state, CopyState::Sealed)
    }

    fn is_fetching(&self) -> bool
        ensures { result ≡ is_fetching self.now.state }
    {
        matches!(self.state, CopyState::Fetching)
    }

    /// Whether it is neither held nor granted nor working.
    fn is_idle(&self, held: bool, granted: bool) -> bool
        ensures { result ≡ is_idle_lem self.now held granted }
    {
        !held && !granted && self.working.is_none()
    }
}
