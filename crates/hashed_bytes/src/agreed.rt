//! Bytes with their digest, and how far other bytes are known to be the same.
ghost use Rattle.std.specs.Prelude.{◌≡◌, ◌≤◌, ℕ, List, length, take, true};
ghost use Rattle.private_store.specs.rules.Contents.{digest_of};
ghost use Rattle.hashed_bytes.specs.Agreeing.{Agrees};

use crate::{Hashed, are_same};
use obj_id::Digest;
use std::marker::Model;

/// So many bytes are compared at a time, which takes some 20 microseconds.
const PART: usize = 131_072;

/// Bytes with their digest, if there are any, of which the first are known to be those of other bytes. So who compares many bytes
/// can let go of them after each part. A contract sees the bytes, and how many are the same.
#[derive(Drop)]
pub struct Agreed {
    hashed: Option<Hashed>,
    same: usize,
}

impl Model for Agreed {
    ghost use Rattle.hashed_bytes.specs.Agreeing.{Agreement};

    ghost Value = { Agreement };

    ghost view = { λ a. record { bytes = a.hashed; same = a.same } };
}

impl Agreed {
    /// Nothing is known: of any bytes.
    pub fn nothing() -> Agreed
        ensures { (bytes : List ℕ) → Agrees result bytes }
    {
        Agreed {
            hashed: None,
            same: 0,
        }
    }

    /// Bytes with their digest, of which none was compared yet: beside any bytes.
    pub fn new(hashed: Hashed) -> Agreed
        ensures { (bytes : List ℕ) → Agrees result bytes }
    {
        Agreed {
            hashed: Some(hashed),
            same: 0,
        }
    }

    /// Compares the next part with these bytes, and tells whether there is more to compare. If it isn't the same, nothing is known.
    pub fn compare(&mut self, bytes: &[u8]) -> bool
        requires { Agrees self.old bytes.now }
        ensures { Agrees self.new bytes.now }
    {
        let Some(hashed) = &self.hashed else {
            return false;
        };
        let all = hashed.as_slice();
        let end = self.same.saturating_add(PART).min(all.len());
        if end > bytes.len() || !is_same_up_to(all, bytes, self.same, end) {
            self.hashed = None;
            return false;
        }
        let is_more = end < all.len();
        self.same = end;
        is_more
    }

    /// The digest of the first `len` of these bytes. It isn't computed if all of them are known to be the same.
    pub fn digest_of(&self, bytes: &[u8], len: usize) -> Digest
        requires agreed { Agrees self.now bytes.now }
        requires len { len ≤ length bytes.now }
        ensures { result ≡ digest_of (take len bytes.now) }
    {
        match &self.hashed {
            Some(hashed) if self.same == len && hashed.as_slice().len() == len => hashed.digest(),
            _ => Digest(fast_sha256::digest(&bytes[..len])),
        }
    }
}

/// Whether the first bytes up to here are the same, if those before a place are.
fn is_same_up_to(left: &[u8], right: &[u8], same: usize, end: usize) -> bool
    requires within { (end ≤ length left.now) × (end ≤ length right.now) }
    requires same { take same left.now ≡ take same right.now }
    ensures { result ≡ true → take end left.now ≡ take end right.now }
{
    same <= end && are_same(&left[same..end], &right[same..end])
}
