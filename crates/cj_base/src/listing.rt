ghost use Rattle.std.specs.Prelude.{◌≡◌, IfOk, IfErr};
ghost use Rattle.cj_base.specs.declared.refusal.Refusal.TheVariants.{OutOfMemory};

use crate::{Refusal, Same, Shared, TryCopy, same_all};
use std::alloc::Global;
use std::fmt;
use std::marker::Model;

/// A list that never changes and that its copies share: a copy takes no memory. Contracts see the
/// list.
pub struct Listing<T> {
    items: Shared<Vec<T>>,
}

impl<T: Drop> Drop for Listing<T> {
    fn drop(self) {
        let Listing { items } = self;
        drop(items);
    }
}

impl<T> Model for Listing<T> {
    ghost use Rattle.std.specs.Prelude.{List};

    ghost Value = { List T };

    ghost view = { λ l. l.items.items };
}

impl<T: Drop> Listing<T> {
    /// The list with these values.
    pub fn new(alloc: Global, items: Vec<T>) -> Result<Listing<T>, Refusal>
        ensures ok { IfOk result (λ l. l ≡ items.items) }
        ensures err { IfErr result (λ e. e ≡ OutOfMemory) }
    {
        let items = Shared::new(alloc, items)?;
        Ok(Listing { items })
    }
}

impl<T> Listing<T> {
    /// The values in their order.
    pub fn as_slice(&self) -> &[T]
        ensures { result.now ≡ self.now }
    {
        self.items.get().as_slice()
    }
}

impl<T> TryCopy for Listing<T> {
    fn try_copy(&self, _alloc: Global) -> Result<Listing<T>, Refusal> {
        let items = self.items.share()?;
        Ok(Listing { items })
    }
}

impl<T: Same> Same for Listing<T> {
    fn same(&self, other: &Listing<T>) -> bool {
        same_all(self.as_slice(), other.as_slice())
    }
}

impl<T: fmt::Debug> fmt::Debug for Listing<T> {
    fn fmt<W: fmt::Write>(&self, f: &mut fmt::Formatter<W>) -> fmt::Result {
        self.as_slice().fmt(f)
    }
}
