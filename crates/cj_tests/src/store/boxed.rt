use cj_types::Refusal;
use std::alloc::Global;

/// The value on the heap, so that whoever holds it gives up one pointer.
pub fn boxed<T: Drop>(alloc: Global, value: T) -> Result<Box<T, Global>, Refusal> {
    match Box::new(alloc, value) {
        Ok(value) => Ok(value),
        Err(_) => Err(Refusal::OutOfMemory),
    }
}
