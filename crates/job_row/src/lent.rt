//! Bytes of a copy that are lent, and may be shared.
ghost use Rattle.std.specs.Prelude.{◌≡◌, take, drop, [], None, IfOk, IfSome, option_map};

use bytes::Bytes;
use memory_growth::{OutOfMemory, shared};
use std::alloc::Global;

/// The bytes of a copy, and what shares them without a copy, if they can be shared.
#[derive(Drop)]
pub struct Lent<'a> {
    pub bytes: &'a [u8],
    pub shared: Option<Bytes>,
}

impl<'a> Lent<'a> {
    /// No bytes.
    pub fn nothing() -> Lent<'a>
        ensures bytes { result.bytes.now ≡ [] }
        ensures shared { result.shared ≡ None }
    {
        Lent {
            bytes: &[],
            shared: None,
        }
    }

    /// All of them: shared if they can be, and copied otherwise.
    pub fn whole(self, alloc: Global) -> Result<Bytes, OutOfMemory>
        requires { IfSome self.shared (λ shared. shared ≡ self.bytes.now) }
        ensures { IfOk result (λ whole. whole ≡ self.entry.bytes.now) }
    {
        match self.shared {
            Some(shared) => Ok(shared),
            None => shared::copied(alloc, self.bytes),
        }
    }

    /// `len` of them from the offset on, or as many as there are: shared if they can be, and copied otherwise.
    pub fn part(self, alloc: Global, offset: u32, len: u32) -> Result<Bytes, OutOfMemory>
        requires { IfSome self.shared (λ shared. shared ≡ self.bytes.now) }
        ensures { IfOk result (λ part. part ≡ take len (drop offset self.entry.bytes.now)) }
    {
        match self.shared {
            Some(shared) => Ok(shared_part(shared, offset, len)),
            None => shared::copied(alloc, part_of(self.bytes, offset, len)),
        }
    }
}

/// `len` bytes from the offset on, or as many of them as there are.
fn shared_part(shared: Bytes, offset: u32, len: u32) -> Bytes
    ensures { result ≡ take len (drop offset shared) }
{
    let mut part = shared;
    let start = (offset as usize).min(part.len());
    part.advance(start);
    part.truncate(len as usize);
    part
}

/// `len` bytes from the offset on, or as many of them as there are.
fn part_of(bytes: &[u8], offset: u32, len: u32) -> &[u8]
    ensures { result.now ≡ take len (drop offset bytes.now) }
{
    let start = (offset as usize).min(bytes.len());
    let left = &bytes[start..];
    &left[..(len as usize).min(left.len())]
}

/// The first `len` of bytes that are shared, or all of them if there are fewer.
pub(crate) fn first_shared(shared: Option<Bytes>, len: u32) -> Option<Bytes>
    ensures { result ≡ option_map (take len) shared }
{
    Some(shared_part(shared?, 0, len))
}

/// The first `len` bytes, or all of them if there are fewer.
pub(crate) fn first_bytes(bytes: &[u8], len: u32) -> &[u8]
    ensures { result.now ≡ take len bytes.now }
{
    part_of(bytes, 0, len)
}
