// The owners of a Job, in whatever version of its group the server names them.
ghost use Rattle.std.specs.Prelude.{◌≡◌, IfOk, IfErr, map};
ghost use Rattle.cj_base.specs.declared.refusal.Refusal.TheVariants.{OutOfMemory};
ghost use Rattle.cj_cluster.specs.kubectl.Owners.{in_group, stable};

use cj_types::{OwnerRef, OwnerRefs, Refusal, Text, TryCopy};
use std::alloc::Global;

// The version, and `batch/v1` for each of the group `batch`.
fn stable(version: &str) -> &str
    ensures { result.now ≡ stable version.now }
{
    if version.as_bytes().strip_prefix(b"batch/").is_some() {
        "batch/v1"
    } else {
        version
    }
}

fn in_group(alloc: Global, owner: &OwnerRef) -> Result<OwnerRef, Refusal>
    ensures ok { IfOk result (λ o. o ≡ in_group owner.now) }
    ensures err { IfErr result (λ e. e ≡ OutOfMemory) }
{
    Ok(OwnerRef {
        api_version: Text::new(alloc, stable(owner.api_version.as_str()))?,
        kind: owner.kind.try_copy(alloc)?,
        name: owner.name.try_copy(alloc)?,
        uid: owner.uid.try_copy(alloc)?,
        controller: owner.controller,
        block_owner_deletion: owner.block_owner_deletion,
    })
}

/// The owners, with `batch/v1` for each version of the group `batch`.
pub(crate) fn all_in_group(alloc: Global, owners: &[OwnerRef]) -> Result<OwnerRefs, Refusal>
    ensures ok { IfOk result (λ o. o ≡ map in_group owners.now) }
    ensures err { IfErr result (λ e. e ≡ OutOfMemory) }
{
    let mut all = OwnerRefs::new(alloc);
    for owner in owners {
        all.push(in_group(alloc, owner)?)?;
    }
    Ok(all)
}
