ghost use Rattle.std.specs.Prelude.{◌≡◌, IfOk, IfErr};
ghost use Rattle.std.specs.Fmt.{decimal};
ghost use Rattle.cj_base.specs.declared.refusal.Refusal.TheVariants.{OutOfMemory};

use cj_base::{Refusal, Text, Version};
use std::alloc::Global;

/// The version in decimal, as `metadata.resourceVersion` has it.
pub fn version_text(alloc: Global, version: Version) -> Result<Text, Refusal>
    ensures ok { IfOk result (λ t. t ≡ decimal version) }
    ensures err { IfErr result (λ e. e ≡ OutOfMemory) }
{
    let count = version.get();
    Ok(Text::from_string(format!(in alloc; "{count}")?))
}
