use cj_types::Refusal;
use std::alloc::{AllocError, Global};

/// The value on the heap, so that whoever holds it drops one pointer.
pub fn boxed<T: Drop>(alloc: Global, value: T) -> Result<Box<T, Global>, Refusal> {
    let value = Box::new(alloc, value).map_err(AllocError::from)?;
    Ok(value)
}
