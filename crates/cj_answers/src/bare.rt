// Which file of a folder holds no object of Kubernetes.
ghost use Rattle.std.specs.Prelude.{◌≡◌, IfOk, is_some};
ghost use Rattle.serde_json.specs.View.{view};
ghost use Rattle.cj_manifest.specs.Members.{present as member_at};
ghost use Rattle.cj_answers.specs.Bare.{IsBare, is_bare, is_batch};

use crate::items::text_at;
use cj_io::Failure;
use cj_manifest::present;
use cj_scenario::{SceneFault, value_of};
use serde_json::Value;
use std::alloc::Global;

// Whether the value has a member, which isn't null.
fn has(value: &Value, name: &str) -> bool
    ensures { result ≡ is_some (member_at name.now (view value.now)) }
{
    present(value, name).is_some()
}

// Whether its version of the API is one that has CronJobs.
fn is_batch(value: &Value) -> bool
    ensures { result ≡ is_batch (view value.now) }
{
    let version = text_at(value, "apiVersion").unwrap_or("");
    version == "batch/v1" || version == "batch/v1beta1"
}

fn is_bare(value: &Value) -> bool
    ensures { result ≡ is_bare (view value.now) }
{
    let is_unkind = value.is_object() && !has(value, "kind");
    let is_spared = !has(value, "spec") && !is_batch(value);
    is_unkind && is_spared
}

/// Whether these bytes are the JSON of an object that is none of Kubernetes, as the values of a
/// chart: it has no `kind`, and neither a `spec` nor the `apiVersion` of a CronJob, whose kind may
/// have been forgotten.
///
/// # Errors
///
/// `Memory`.
pub fn is_bare_object(alloc: Global, bytes: &[u8]) -> Result<bool, Failure>
    ensures { IfOk result (λ b. IsBare bytes.now b) }
{
    match value_of(alloc, bytes) {
        Ok(value) => Ok(is_bare(&value)),
        Err(SceneFault::Memory) => Err(Failure::Memory),
        Err(_) => Ok(false),
    }
}
