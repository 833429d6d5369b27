ghost use Rattle.std.specs.Prelude.{◌≡◌, ◌≢◌, Ok, Err, IfOk, IfErr};
ghost use Rattle.cj_base.specs.declared.refusal.Refusal.TheVariants.{OutOfMemory};

use cj_types::{Refusal, Shared};
use std::alloc::Global;

/// The object on the heap, as two shared values: one for the store and one for the answer.
pub(crate) fn placed<T: Drop>(
    alloc: Global,
    made: Result<T, Refusal>,
) -> Result<(Shared<T>, Shared<T>), Refusal>
    ensures ok { IfOk result (λ all. (made ≡ Ok all.0) × (made ≡ Ok all.1)) }
    ensures err { IfErr result (λ e. e ≢ OutOfMemory → made ≡ Err e) }
{
    let value = Shared::new(alloc, made?)?;
    let answer = value.share()?;
    Ok((value, answer))
}
