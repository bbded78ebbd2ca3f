//! What is made for a step before its node is locked, and what is let go after it.
ghost use Rattle.std.specs.Prelude.{◌≡◌, true, length, IfSome};
ghost use Rattle.private_store.specs.rules.Contents.{overwritten};

use bytes::Bytes;
use hashed_bytes::{Hashed, are_same};
use job_region::{Spent, Zeros};
use memory_growth::shared;

/// What takes long, and is made for a step before its node is locked, or let go after it: whatever it is, and if it is missing, the
/// step is the same, and only takes longer. So a contract sees nothing of it.
#[derive(Drop)]
pub struct Prepared {
    /// For an extent that the step places.
    pub zeros: Option<Zeros>,
    /// Bytes of which the step wants the digest.
    pub hashed: Option<Hashed>,
    /// Bytes that a device gave, with zeros up to the end of an extent.
    pub filled: Option<Bytes>,
    /// Memory of copies that went.
    pub spent: Spent,
}

impl Prepared {
    /// Nothing was made.
    pub fn nothing() -> Prepared {
        Prepared {
            zeros: None,
            hashed: None,
            filled: None,
            spent: Spent::nothing(),
        }
    }
}

/// What lies in an extent once these bytes are written into it from its first byte on: shared, if they fill it, or what was prepared
/// does so with them. Nothing if neither does.
pub(crate) fn filling(lies: &[u8], bytes: &Bytes, filled: Option<&Bytes>) -> Option<Bytes>
    ensures length { IfSome result (λ filling. length filling ≡ length lies.now) }
    ensures bytes { IfSome result (λ filling. filling ≡ overwritten lies.now 0 bytes.now) }
{
    if bytes.len() == lies.len() {
        return shared::again(bytes).ok();
    }
    let filled = filled?;
    if !is_filling(filled, bytes, lies) {
        return None;
    }
    shared::again(filled).ok()
}

/// Whether the first is what lies in an extent once these bytes are written into it from its first byte on.
fn is_filling(filled: &[u8], bytes: &[u8], lies: &[u8]) -> bool
    ensures length { result ≡ true → length filled.now ≡ length lies.now }
    ensures bytes { result ≡ true → filled.now ≡ overwritten lies.now 0 bytes.now }
{
    let len = bytes.len();
    if filled.len() != lies.len() || len > lies.len() {
        return false;
    }
    if !are_same(&filled[..len], bytes) {
        return false;
    }
    are_same(&filled[len..], &lies[len..])
}
