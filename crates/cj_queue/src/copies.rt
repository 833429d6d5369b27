ghost use Rattle.std.specs.Prelude.{◌≡◌, IfOk, IfErr};
ghost use Rattle.cj_base.specs.declared.refusal.Refusal.TheVariants.{OutOfMemory};

use cj_base::both;
use cj_types::{Key, Refusal, TryCopy};
use std::alloc::Global;

/// Two copies of the key, for two collections that both keep it.
pub fn two_copies(alloc: Global, key: &Key) -> Result<(Key, Key), Refusal>
    ensures one { IfOk result (λ copies. copies.0 ≡ key.now) }
    ensures other { IfOk result (λ copies. copies.1 ≡ key.now) }
    ensures memory { IfErr result (λ e. e ≡ OutOfMemory) }
{
    both(key.try_copy(alloc), key.try_copy(alloc))
}
