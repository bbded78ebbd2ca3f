//! What a work on the device makes of a copy, and a place in the window that it takes or gives back.
ghost use Rattle.std.specs.Prelude.{◌≡◌, true};
ghost use Rattle.private_store.specs.rules.Copies.{was_sealed};
ghost use Rattle.row_copy.specs.CopyViews.{spill_begun_if, after_eviction, after_restore_begun, CanAwait, after_failed_restore};
ghost use Rattle.row_copy.specs.declared.marks.Awaited.TheVariants.{Device};
ghost use Rattle.private_store.specs.laws.Invariants.{is_restoring};
ghost use Rattle.row_copy.specs.Answering.{has_bytes as has_bytes_lem};

use crate::RowCopy;
use hashed_bytes::{Hashed, digest_by};
use private_store::{Fault, WorkVerdict};

impl RowCopy {
    /// Whether these are its bytes, by length and digest. Hashes them once if the length is right and the digest isn't known.
    pub fn has_bytes(&self, bytes: &[u8], hashed: Option<&Hashed>) -> bool
        requires { was_sealed self.now.copy.state ≡ true }
        ensures { result ≡ has_bytes_lem self.now bytes.now }
    {
        let Some(digest) = self.marks.digest() else {
            unreachable!()
        };
        bytes.len() == self.length() as usize && digest_by(bytes, hashed) == digest
    }

    /// A write of it is in flight, if one can be.
    pub(crate) fn begin_spill(&mut self)
        ensures { self.new ≡ spill_begun_if self.old }
    {
        if self.marks.can_spill() {
            self.marks.begin_spill();
        }
    }

    /// It has no place in the window any more, and is away if it is sealed and its bytes are on the device.
    pub(crate) fn give_up_place(&mut self)
        ensures { self.new ≡ after_eviction self.old }
    {
        if self.marks.can_go_away() {
            self.marks.mark_away();
        }
        self.offset = None;
    }

    /// It has a place at the offset again, and the read of its bytes is in flight.
    pub(crate) fn begin_restore(&mut self, offset: u64)
        requires { CanAwait Device self.old }
        ensures { self.new ≡ after_restore_begun offset self.old }
    {
        self.marks.begin_restore();
        self.offset = Some(offset);
    }

    /// Its read ended without its bytes: it is away again, without a place, and the next Get answers the fault.
    pub(crate) fn lose(&mut self, fault: Fault)
        requires { is_restoring self.old.copy.state ≡ true }
        ensures { self.new ≡ after_failed_restore fault self.old }
    {
        self.marks.end_restore(match fault {
            Fault::DeviceFailed => WorkVerdict::Failed,
            Fault::Damaged => WorkVerdict::Damaged,
        });
        self.offset = None;
    }
}
