ghost use Rattle.std.specs.Prelude.{◌≡◌, IfOk, IfErr};
ghost use Rattle.cj_base.specs.declared.refusal.Refusal.TheVariants.{OutOfMemory};

use crate::Refusal;
use std::alloc::Global;

/// Copies that may fail for want of memory.
pub trait TryCopy {
    /// A value that is equal to this one in contracts, or `OutOfMemory`.
    fn try_copy(&self, alloc: Global) -> Result<Self, Refusal>
        ensures ok { IfOk result (λ c. c ≡ self.now) }
        ensures err { IfErr result (λ e. e ≡ OutOfMemory) };
}
