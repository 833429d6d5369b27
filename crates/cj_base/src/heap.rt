ghost use Rattle.std.specs.Prelude.{◌≡◌, IfOk, IfErr};
ghost use Rattle.cj_base.specs.declared.refusal.Refusal.TheVariants.{OutOfMemory};

use crate::Refusal;
use std::alloc::{AllocError, Global};
use std::marker::Model;

/// A value on the heap: its owner holds, moves and drops one pointer. Contracts see the value.
pub struct Heap<T> {
    value: Box<T, Global>,
}

impl<T: Drop> Drop for Heap<T> {
    fn drop(self) {
        let Heap { value: _ } = self;
    }
}

impl<T> Model for Heap<T> {
    ghost Value = { T };

    ghost view = { λ h. h.value.value };
}

impl<T: Drop> Heap<T> {
    /// Moves the value to the heap.
    pub fn new(alloc: Global, value: T) -> Result<Heap<T>, Refusal>
        ensures ok { IfOk result (λ h. h ≡ value) }
        ensures err { IfErr result (λ e. e ≡ OutOfMemory) }
    {
        let value = Box::new(alloc, value).map_err(AllocError::from)?;
        Ok(Heap { value })
    }
}

impl<T> Heap<T> {
    /// The value on the heap.
    pub fn get(&self) -> &T
        ensures { result.now ≡ self.now }
    {
        self.value.as_ref()
    }

    /// Moves the value out of the heap.
    pub fn into_inner(self) -> T
        ensures { result ≡ self }
    {
        let Heap { value } = self;
        Box::into_inner(value)
    }
}
