//! Values on the heap.
ghost use Rattle.std.specs.Prelude.{◌≡◌, IfOk};

use crate::OutOfMemory;
use std::alloc::Global;
use std::sync::Arc;

/// A value on the heap.
pub fn boxed<T: Drop>(alloc: Global, value: T) -> Result<Box<T>, OutOfMemory>
    ensures { IfOk result (λ made. made.value ≡ value) }
{
    match Box::new(alloc, value) {
        Ok(made) => Ok(made),
        Err(_) => Err(OutOfMemory::new()),
    }
}

/// A value on the heap that several may own.
pub fn counted<T: Drop>(alloc: Global, value: T) -> Result<Arc<T>, OutOfMemory>
    ensures { IfOk result (λ made. made.value ≡ value) }
{
    match Arc::new(alloc, value) {
        Ok(made) => Ok(made),
        Err(_) => Err(OutOfMemory::new()),
    }
}

/// One more owner of a value.
pub fn another<T>(owner: &Arc<T>) -> Result<Arc<T>, OutOfMemory>
    ensures { IfOk result (λ other. other.value ≡ owner.now.value) }
{
    match Arc::try_clone(owner) {
        Ok(other) => Ok(other),
        Err(_) => Err(OutOfMemory::new()),
    }
}
