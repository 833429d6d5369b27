ghost use Rattle.std.specs.Prelude.{◌≡◌, IfOk, IfErr};
ghost use Rattle.cj_base.specs.declared.refusal.Refusal.TheVariants.{OutOfMemory};

use crate::phases::{InFlight, Phase};
use cj_base::both;
use cj_types::{Heap, Key, Refusal, TryCopy};
use std::alloc::Global;

/// The sync of a worker that holds the key, in the phase.
pub fn sync_in(alloc: Global, key: &Key, phase: Phase) -> Result<Heap<InFlight>, Refusal>
    ensures ok { IfOk result (λ s. s ≡ record { key = key.now; phase = phase }) }
    ensures err { IfErr result (λ e. e ≡ OutOfMemory) }
{
    let (key, phase) = both(key.try_copy(alloc), Ok(phase))?;
    Heap::new(alloc, InFlight { key, phase })
}
