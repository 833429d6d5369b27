ghost use Rattle.std.specs.Prelude.{◌≡◌, IfOk, IfErr};
ghost use Rattle.cj_base.specs.declared.refusal.Refusal.TheVariants.{OutOfMemory};

use crate::{Refusal, Same, TryCopy};
use std::alloc::{AllocError, Global};
use std::fmt;
use std::marker::Model;
use std::ops::Deref;
use std::sync::Arc;

/// A value that never changes and that its copies share: a copy takes no memory. Contracts see the
/// value.
pub struct Shared<T> {
    value: Arc<T, Global>,
}

impl<T: Drop> Drop for Shared<T> {
    fn drop(self) {
        let Shared { value: _ } = self;
    }
}

impl<T> Model for Shared<T> {
    ghost use Rattle.std.specs.Arc.{arc_value};

    ghost Value = { T };

    ghost view = { λ s. arc_value s.value };
}

impl<T: Drop> Shared<T> {
    /// Moves the value to the heap, where its copies share it.
    pub fn new(alloc: Global, value: T) -> Result<Shared<T>, Refusal>
        ensures ok { IfOk result (λ s. s ≡ value) }
        ensures err { IfErr result (λ e. e ≡ OutOfMemory) }
    {
        let value = Arc::new(alloc, value).map_err(AllocError::from)?;
        Ok(Shared { value })
    }
}

impl<T> Shared<T> {
    /// The shared value.
    pub fn get(&self) -> &T
        ensures { result.now ≡ self.now }
    {
        &self.value
    }

    /// Another holder of the value. This takes no memory, and is refused only where there are 2^63
    /// copies.
    pub fn share(&self) -> Result<Shared<T>, Refusal>
        ensures ok { IfOk result (λ s. s ≡ self.now) }
        ensures err { IfErr result (λ e. e ≡ OutOfMemory) }
    {
        let value = Arc::try_clone(&self.value)?;
        Ok(Shared { value })
    }
}

impl<T> Deref for Shared<T> {
    type Target = T;

    ghost deref_gives = { λ s x. x ≡ s };

    fn deref(&self) -> &T
        ensures { result.now ≡ self.now }
    {
        self.get()
    }
}

impl<T> TryCopy for Shared<T> {
    fn try_copy(&self, _alloc: Global) -> Result<Shared<T>, Refusal> {
        self.share()
    }
}

impl<T: Same> Same for Shared<T> {
    fn same(&self, other: &Shared<T>) -> bool {
        self.get().same(other.get())
    }
}

impl<T: fmt::Debug> fmt::Debug for Shared<T> {
    fn fmt<W: fmt::Write>(&self, f: &mut fmt::Formatter<W>) -> fmt::Result {
        self.get().fmt(f)
    }
}
