//! Bytes that several may own.
ghost use Rattle.std.specs.Prelude.{◌≡◌, ◌≤◌, length, slice_range, IsOk, IfOk, IfErr};

use crate::OutOfMemory;
use bytes::Bytes;
use std::alloc::Global;

/// A copy of bytes.
pub fn copied(alloc: Global, bytes: &[u8]) -> Result<Bytes, OutOfMemory>
    ensures { IfOk result (λ copy. copy ≡ bytes.now) }
{
    match Bytes::copy_from_slice(alloc, bytes) {
        Ok(copy) => Ok(copy),
        Err(_) => Err(OutOfMemory::new()),
    }
}

/// One more owner of bytes. No byte is copied.
pub fn again(bytes: &Bytes) -> Result<Bytes, OutOfMemory>
    ensures { IfOk result (λ copy. copy ≡ bytes.now) }
{
    match bytes.clone() {
        Ok(copy) => Ok(copy),
        Err(_) => Err(OutOfMemory::new()),
    }
}

/// Bytes that several may own, of a list of bytes. No byte is copied.
pub fn from_vec(bytes: Vec<u8>) -> Result<Bytes, OutOfMemory>
    ensures ok { IfOk result (λ made. made ≡ bytes.items) }
    ensures empty { length bytes.items ≡ 0 → IsOk result }
{
    match Bytes::from_vec(bytes) {
        Ok(made) => Ok(made),
        Err(_) => Err(OutOfMemory::new()),
    }
}

/// The same, and a refusal gives the list back.
pub fn from_vec_or_back(bytes: Vec<u8>) -> Result<Bytes, Vec<u8>>
    ensures ok { IfOk result (λ made. made ≡ bytes.items) }
    ensures back { IfErr result (λ back. back.items ≡ bytes.items) }
    ensures empty { length bytes.items ≡ 0 → IsOk result }
{
    match Bytes::from_vec(bytes) {
        Ok(made) => Ok(made),
        Err(refused) => Err(refused.value),
    }
}

/// A part of bytes that several own, which is one more owner of them. No byte is copied.
pub fn part(bytes: &Bytes, from: usize, to: usize) -> Result<Bytes, OutOfMemory>
    requires { (from ≤ to) × (to ≤ length bytes.now) }
    ensures { IfOk result (λ made. made ≡ slice_range bytes.now from to) }
{
    match bytes.slice(from..to) {
        Ok(made) => Ok(made),
        Err(_) => Err(OutOfMemory::new()),
    }
}
