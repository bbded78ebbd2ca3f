//! Bytes whose digest is known, and the digest of bytes for which it may be known.
#![tactic(auto)]

ghost use Rattle.std.specs.Prelude.{◌≡◌, true};
ghost use Rattle.private_store.specs.rules.Contents.{digest_of};

mod agreed;

pub use agreed::Agreed;
use bytes::Bytes;
use fast_sha256::Sha256;
use obj_id::Digest;
use std::marker::Model;
use std::thread;

/// So many bytes, which are whole blocks, are hashed at a time. That takes some twentieth of a millisecond.
const PART: usize = 16_384;

/// Bytes with their SHA-256 digest (FIPS 180-4), which is computed when they are made. A contract sees the bytes alone.
#[derive(Drop)]
pub struct Hashed {
    bytes: Bytes,
    digest: Digest,
}

impl Model for Hashed {
    ghost use Rattle.std.specs.Prelude.{ℕ, List, ◌≡◌};
    ghost use Rattle.private_store.specs.rules.Contents.{digest_of};

    ghost Value = { List ℕ };

    ghost view = { λ h. h.bytes };

    ghost invariant = { λ h. h.digest ≡ digest_of h.bytes };
}

impl Hashed {
    /// Hashes the bytes. Takes a tenth of a second for 16 MiB, and lets other threads run now and then.
    pub fn new(bytes: Bytes) -> Hashed
        ensures { result ≡ bytes }
    {
        let digest = digest_in_parts(bytes.as_slice());
        Hashed { bytes, digest }
    }

    /// Bytes whose digest was computed elsewhere. Hashes nothing.
    pub fn known(bytes: Bytes, digest: Digest) -> Hashed
        requires { digest ≡ digest_of bytes }
        ensures { result ≡ bytes }
    {
        Hashed { bytes, digest }
    }

    /// Their digest. Hashes nothing.
    pub fn digest(&self) -> Digest
        ensures { result ≡ digest_of self.now }
    {
        self.digest
    }

    /// The bytes, lent.
    pub fn as_slice(&self) -> &[u8]
        ensures { result.now ≡ self.now }
    {
        self.bytes.as_slice()
    }
}

/// The digest of the bytes. Who waits for a processor gets it after a part: threads that hash for as long as the system lets them
/// would keep all others waiting for as long.
fn digest_in_parts(bytes: &[u8]) -> Digest
    ensures { result ≡ digest_of bytes.now }
{
    let mut hasher = Sha256::new();
    let count = bytes.len() / PART;
    for i in 0..count {
        let part = &bytes[PART * i..PART * (i + 1)];
        hasher.update_blocks(part);
        thread::yield_now();
    }
    Digest(hasher.finish(&bytes[PART * count..]))
}

/// The digest of these bytes. If they are those of the hint they are only compared, and otherwise hashed.
pub fn digest_by(bytes: &[u8], hint: Option<&Hashed>) -> Digest
    ensures { result ≡ digest_of bytes.now }
{
    match hint {
        Some(hashed) if hashed.as_slice() == bytes => hashed.digest(),
        _ => Digest(fast_sha256::digest(bytes)),
    }
}

/// Whether the bytes are the same.
pub fn are_same(left: &[u8], right: &[u8]) -> bool
    ensures { result ≡ true → left.now ≡ right.now }
{
    left == right
}
