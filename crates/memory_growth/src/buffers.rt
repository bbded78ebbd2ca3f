//! Growth of buffers whose beginning is split off as shared bytes.
ghost use Rattle.std.specs.Prelude.{◌≡◌, ◌≤◌, [], ◌++◌, length, take, drop, IfOk, OnOk, OnErr};
ghost use Rattle.bytes.specs.Filled.{MakesSpare, UsesSpare};

use crate::OutOfMemory;
use bytes::{Bytes, BytesMut};
use std::alloc::Global;

/// An empty buffer with room for so many bytes, at most `MOST_ROOM`.
pub fn with_capacity(alloc: Global, capacity: usize) -> Result<BytesMut, OutOfMemory>
    requires { capacity ≤ 268435456 }
    ensures items { IfOk result (λ buffer. buffer.items ≡ []) }
    ensures spare { IfOk result (λ buffer. capacity ≤ buffer.spare) }
{
    match BytesMut::with_capacity(alloc, capacity) {
        Ok(buffer) => Ok(buffer),
        Err(_) => Err(OutOfMemory::new()),
    }
}

/// Room for so many more bytes, at most `MOST_ROOM`. The bytes stay, whatever the answer.
pub fn reserve(buffer: &mut BytesMut, additional: usize) -> Result<(), OutOfMemory>
    requires { additional ≤ 268435456 }
    ensures items { buffer.new.items ≡ buffer.old.items }
    ensures spare { MakesSpare result buffer.old.spare buffer.new.spare additional }
{
    match buffer.reserve(additional) {
        Ok(()) => Ok(()),
        Err(_) => Err(OutOfMemory::new()),
    }
}

/// Adds bytes at the end. A refusal leaves the buffer as it was.
pub fn extend_from_slice(buffer: &mut BytesMut, more: &[u8]) -> Result<(), OutOfMemory>
    ensures ok { OnOk result (buffer.new.items ≡ buffer.old.items ++ more.now) }
    ensures err { OnErr result (buffer.new.items ≡ buffer.old.items) }
    ensures spare { UsesSpare result buffer.old.spare buffer.new.spare (length more.now) }
{
    match buffer.extend_from_slice(more) {
        Ok(()) => Ok(()),
        Err(_) => Err(OutOfMemory::new()),
    }
}

/// The first `to` bytes, taken out as shared bytes. No byte is copied, and a refusal leaves the buffer as it was.
pub fn freeze_to(buffer: &mut BytesMut, to: usize) -> Result<Bytes, OutOfMemory>
    requires { to ≤ length buffer.old.items }
    ensures front { IfOk result (λ front. front ≡ take to buffer.old.items) }
    ensures rest { OnOk result ((buffer.new.items ≡ drop to buffer.old.items) × (buffer.new.spare ≡ buffer.old.spare)) }
    ensures err { OnErr result (buffer.new ≡ buffer.old) }
{
    match buffer.freeze_to(to) {
        Ok(front) => Ok(front),
        Err(_) => Err(OutOfMemory::new()),
    }
}
