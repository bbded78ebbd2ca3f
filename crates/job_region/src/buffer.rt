//! The bytes of an extent: its own while they are written, and shared once nobody writes them any more.
ghost use Rattle.std.specs.Prelude.{◌≡◌, ◌+◌, ◌≤◌, ◌++◌, [], length, take, replicate, IfOk, IfSome, vec_len, vec_capacity};
ghost use Rattle.private_store.specs.rules.Contents.{digest_of, overwritten};
ghost use Rattle.job_region.specs.Layout.{IsWindowKept};

use crate::zeros::Zeros;
use bytes::Bytes;
use hashed_bytes::{Agreed, Hashed};
use memory_growth::{MOST_ROOM, OutOfMemory, boxes, lists, shared};
use obj_id::Digest;
use std::alloc::Global;
use std::marker::Model;
use std::mem;

/// Fewer bytes are copied and not shared: that takes less time than to count their owners, and less memory than the room for
/// an own copy.
const SHARED_FROM: usize = 32_768;

/// So many bytes are reserved for a buffer of more than a few: the system's allocator then maps them by themselves, so that only
/// those that are written take memory, and all of it goes back once the buffer is freed. Fewer might come from what some thread has
/// freed, which stays with that thread.
const MAPPED: usize = 33_554_432;

/// How many bytes are reserved for a buffer of so many: as far as a window may have them.
pub(crate) fn reserved(len: usize) -> usize
    ensures most { result ≤ 268435456 }
    ensures least { len ≤ 268435456 → len ≤ result }
{
    if len < SHARED_FROM {
        len
    } else {
        len.clamp(MAPPED, MOST_ROOM)
    }
}

/// Room for so many bytes, if there is memory for it and a window may have them.
fn room_for(alloc: Global, len: usize) -> Option<Vec<u8>>
    ensures items { IfSome result (λ room. room.items ≡ []) }
    ensures capacity { IfSome result (λ room. len ≤ vec_capacity room) }
{
    if len > MOST_ROOM {
        return None;
    }
    lists::with_capacity(alloc, reserved(len)).ok()
}

/// The bytes of an extent. A contract sees these alone.
#[derive(Drop)]
pub(crate) struct Buffer {
    // apart, since an extent that comes or goes moves the buffers of all after it
    parts: Box<Parts>,
}

/// What a buffer consists of.
#[derive(Drop)]
struct Parts {
    // its own bytes; or none, and room for a copy of those that are shared, which nobody has touched
    own: Vec<u8>,
    // bytes that others may have too; or none
    shared: Bytes,
    // whose digest is known, as far as they are these
    agreed: Agreed,
}

impl Model for Buffer {
    ghost use Rattle.std.specs.Prelude.{ℕ, List, ◌++◌, vec_len, vec_capacity};
    ghost use Rattle.hashed_bytes.specs.Agreeing.{Agrees};
    ghost use Rattle.job_region.specs.Layout.{IsWindowKept};

    ghost Value = { List ℕ };

    ghost view = { λ b. b.parts.value.own.items ++ b.parts.value.shared };

    ghost invariant = { λ b. IsWindowKept (vec_len b.parts.value.own) (vec_capacity b.parts.value.own) b.parts.value.shared × Agrees b.parts.value.agreed (b.parts.value.own.items ++ b.parts.value.shared) };
}

impl Buffer {
    /// So many zeros: those that were made, if there are as many.
    pub(crate) fn zeros(
        made: Option<Zeros>,
        alloc: Global,
        len: usize,
    ) -> Result<Buffer, OutOfMemory>
        requires { len ≤ 268435456 }
        ensures { IfOk result (λ b. b ≡ replicate len 0) }
    {
        let parts = Parts {
            own: Zeros::or_made(made, alloc, len)?,
            shared: Bytes::new(),
            agreed: Agreed::nothing(),
        };
        Ok(Buffer {
            parts: boxes::boxed(alloc, parts)?,
        })
    }

    /// The bytes, lent.
    pub(crate) fn as_slice(&self) -> &[u8]
        ensures { result.now ≡ self.now }
    {
        let parts = &*self.parts;
        if parts.shared.is_empty() {
            return parts.own.as_slice();
        }
        parts.shared.as_slice()
    }

    /// Makes the bytes such as can be shared, and room for an own copy of them, if there is memory for it and they are not few.
    pub(crate) fn freeze(&mut self, alloc: Global)
        ensures { self.new ≡ self.old }
    {
        let parts = &mut *self.parts;
        if !parts.shared.is_empty() {
            return;
        }
        if parts.own.len() < SHARED_FROM {
            // few bytes are hashed from a copy, which isn't to stay beside them
            parts.agreed = Agreed::nothing();
            return;
        }
        let Some(room) = room_for(alloc, parts.own.len()) else {
            return;
        };
        match shared::from_vec_or_back(mem::replace(&mut parts.own, room)) {
            Ok(shared) => parts.shared = shared,
            Err(own) => parts.own = own,
        }
    }

    /// The bytes without a copy, if they can be shared.
    pub(crate) fn shared(&self) -> Option<Bytes>
        ensures { IfSome result (λ bytes. bytes ≡ self.now) }
    {
        let parts = &*self.parts;
        if parts.shared.is_empty() {
            return None;
        }
        shared::again(&parts.shared).ok()
    }

    /// The bytes become these, which others may have too. Copies none, and gives what was written before.
    pub(crate) fn adopt(&mut self, alloc: Global, bytes: Bytes) -> Option<Vec<u8>>
        requires { length bytes ≡ length self.old }
        ensures { self.new ≡ bytes }
    {
        let parts = &mut *self.parts;
        parts.agreed = Agreed::nothing();
        parts.shared = bytes;
        // room that nobody has touched in place of what was written, if there is memory for it
        match room_for(alloc, parts.shared.len()) {
            Some(room) => Some(mem::replace(&mut parts.own, room)),
            None => {
                parts.own.clear();
                None
            }
        }
    }

    /// Takes bytes with their digest, to be compared with these.
    pub(crate) fn expect(&mut self, hashed: Hashed)
        ensures { self.new ≡ self.old }
    {
        self.parts.agreed = Agreed::new(hashed);
    }

    /// Compares the next part of them with these bytes, and tells whether there is more to compare.
    pub(crate) fn compare(&mut self) -> bool
        ensures { self.new ≡ self.old }
    {
        let parts = &mut *self.parts;
        if parts.shared.is_empty() {
            return parts.agreed.compare(parts.own.as_slice());
        }
        parts.agreed.compare(parts.shared.as_slice())
    }

    /// The digest of the first `len` bytes: what is known of them, if all were compared.
    pub(crate) fn digest_of(&self, len: usize) -> Digest
        requires { len ≤ length self.now }
        ensures { result ≡ digest_of (take len self.now) }
    {
        self.parts.agreed.digest_of(self.as_slice(), len)
    }

    /// Whether giving its memory back takes long.
    pub(crate) fn is_long(&self) -> bool {
        self.as_slice().len() >= SHARED_FROM
    }

    /// Writes bytes from an offset on. What others may have is copied before, into the room for it, and takes no memory.
    pub(crate) fn write(&mut self, offset: usize, bytes: &[u8])
        requires { offset + length bytes.now ≤ length self.old }
        ensures { self.new ≡ overwritten self.old offset bytes.now }
    {
        let parts = &mut *self.parts;
        parts.agreed = Agreed::nothing();
        unshare(&mut parts.own, &mut parts.shared);
        parts.own[offset..offset + bytes.len()].copy_from_slice(bytes);
    }
}

/// Makes shared bytes a buffer's own, by a copy into the room for it. Takes no memory.
fn unshare(own: &mut Vec<u8>, shared: &mut Bytes)
    requires { IsWindowKept (vec_len own.old) (vec_capacity own.old) shared.old }
    ensures own { own.new.items ≡ own.old.items ++ shared.old }
    ensures none { shared.new ≡ [] }
{
    if shared.is_empty() {
        return;
    }
    lists::extend_from_slice(own, shared.as_slice()).unwrap();
    *shared = Bytes::new();
}
