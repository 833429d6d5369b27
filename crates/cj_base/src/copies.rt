ghost use Rattle.std.specs.Prelude.{◌≡◌, IfOk, IfErr};
ghost use Rattle.cj_base.specs.declared.refusal.Refusal.TheVariants.{OutOfMemory};

use crate::{Refusal, TryCopy};
use std::alloc::Global;

impl<T: TryCopy> TryCopy for Option<T> {
    fn try_copy(&self, alloc: Global) -> Result<Option<T>, Refusal> {
        match self {
            Some(value) => Ok(Some(value.try_copy(alloc)?)),
            None => Ok(None),
        }
    }
}

impl<A: TryCopy + Drop, B: TryCopy> TryCopy for (A, B) {
    fn try_copy(&self, alloc: Global) -> Result<(A, B), Refusal> {
        Ok((self.0.try_copy(alloc)?, self.1.try_copy(alloc)?))
    }
}

/// A copy of each value, in their order.
pub fn copy_all<T: TryCopy + Drop>(alloc: Global, values: &[T]) -> Result<Vec<T>, Refusal>
    ensures ok { IfOk result (λ copies. copies.items ≡ values.now) }
    ensures err { IfErr result (λ e. e ≡ OutOfMemory) }
{
    let mut copies = Vec::with_capacity(alloc, values.len())?;
    for value in values {
        copies
            .push(value.try_copy(alloc)?)
            .map_err(|_| Refusal::OutOfMemory)?;
    }
    Ok(copies)
}
