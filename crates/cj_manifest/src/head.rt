// The head of a Job, its key and owners. Its spec isn't read: a cluster's Job has whatever spec its
// server accepted.
ghost use Rattle.std.specs.Prelude.{◌≡◌, [], Some, IfOk, IfErr};
ghost use Rattle.serde_json.specs.View.{view};
ghost use Rattle.cj_base.specs.declared.refusal.Refusal.TheVariants.{OutOfMemory};
ghost use Rattle.cj_manifest.specs.declared.kind.ObjectKind.TheVariants as Of;
ghost use Rattle.cj_manifest.specs.Drafts as said;
ghost use Rattle.cj_manifest.specs.Faults as table;
ghost use Rattle.cj_manifest.specs.Reading.{HasFaults, IsNamed};

use crate::draft::{job_key, owner_refs};
use crate::faults::head_faults;
use crate::metadata_fields::metadata;
use crate::read::refuse;
use cj_base::both;
use cj_types::{Key, OwnerRefs, Refusal};
use serde_json::Value;
use std::alloc::Global;

/// The key and the owners of a Job.
#[derive(Debug, Drop)]
pub struct JobHead {
    pub key: Key,
    pub owners: OwnerRefs,
}

fn head_in(alloc: Global, metadata: &Value) -> Result<JobHead, Refusal>
    requires { IsNamed Of.Job (view metadata.now) }
    ensures ok { IfOk result (λ h. h ≡ said.head_in (view metadata.now)) }
    ensures err { IfErr result (λ e. e ≡ OutOfMemory) }
{
    let (key, owners) = both(job_key(alloc, metadata), owner_refs(alloc, metadata))?;
    Ok(JobHead { key, owners })
}

/// The key and the owners of a Job's JSON value, or `Invalid` with every fault of its top and its
/// metadata, in the order of the table of fields. Its spec isn't looked at.
pub fn head_of(alloc: Global, value: &Value) -> Result<JobHead, Refusal>
    ensures sound { IfOk result (λ _. table.head_faults (view value.now) ≡ []) }
    ensures said { IfOk result (λ h. said.job_head (view value.now) ≡ Some h) }
    ensures refused { IfErr result (HasFaults (table.head_faults (view value.now))) }
{
    refuse(head_faults(alloc, value)?)?;
    match metadata(value) {
        Ok(found) => head_in(alloc, found),
        Err(_) => unreachable!(),
    }
}
