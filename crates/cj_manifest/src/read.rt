// Reading a manifest's bytes.
ghost use Rattle.std.specs.Prelude.{◌≡◌, ◌⊎◌, ◌≤◌, [], IfOk, IfErr, OnOk};
ghost use Rattle.serde_json.specs.Data.{depth};
ghost use Rattle.serde_json.specs.Read.{max_depth};
ghost use Rattle.serde_json.specs.View.{view};
ghost use Rattle.cj_base.specs.declared.refusal.Refusal.TheVariants.{OutOfMemory, Syntax};
ghost use Rattle.cj_types.specs.declared.cron.CronJobDraft.{CronJobDraft};
ghost use Rattle.cj_types.specs.declared.job.JobDraft.{JobDraft};
ghost use Rattle.cj_zone.specs.Table.{zones_of};
ghost use Rattle.cj_json.specs.Parts.{IsKept};
ghost use Rattle.cj_manifest.specs.Drafts as said;
ghost use Rattle.cj_manifest.specs.Either as either;
ghost use Rattle.cj_manifest.specs.Faults as table;
ghost use Rattle.cj_manifest.specs.Reading.{HasFaults, IsNoValue, IsReading, IsRefused, Reads, Says};
ghost use Rattle.cj_manifest.specs.Warnings as warned;
ghost use Rattle.cj_manifest.specs.declared.manifest.Manifest.{Manifest};

use crate::draft::{cron_draft, job_draft};
use crate::faults::{cron_faults, job_faults};
use crate::kind::ObjectKind;
use crate::manifest::Manifest;
use crate::metadata_fields::kind_field;
use crate::warned::{cron_warnings, job_warnings};
use crate::warning::Warning;
use cj_base::{FieldFaults, both};
use cj_types::{CronJobDraft, JobDraft, Refusal};
use cj_zone::ZoneTable;
use serde_json::Value;
use std::alloc::Global;

// The JSON value of the bytes.
fn value_of(alloc: Global, bytes: &[u8]) -> Result<Value, Refusal>
    ensures reads { IfOk result (λ v. Reads bytes.now (view v)) }
    ensures flat { IfOk result (λ v. depth (view v) ≤ max_depth) }
    ensures refused { IfErr result (λ e. (e ≡ OutOfMemory) ⊎ ((e ≡ Syntax) × IsNoValue bytes.now)) }
{
    match Value::from_slice(alloc, bytes) {
        Ok(value) => Ok(value),
        Err(error) if error.is_memory() => Err(Refusal::OutOfMemory),
        Err(_) => Err(Refusal::Syntax),
    }
}

/// `Invalid` with the faults, if there are any.
pub(crate) fn refuse(faults: FieldFaults) -> Result<(), Refusal>
    ensures sound { OnOk result (faults ≡ []) }
    ensures refused { IfErr result (HasFaults faults) }
{
    if faults.as_slice().is_empty() {
        Ok(())
    } else {
        Err(Refusal::Invalid(faults))
    }
}

/// Reads a JSON value as the manifest of a CronJob under the zones of a table, as `read_cronjob`
/// reads its bytes: `Invalid` with every fault, in the order of the table of fields. The value
/// nests at most as deep as JSON is read.
pub fn cron_of(
    alloc: Global,
    value: &Value,
    zones: &ZoneTable,
) -> Result<(CronJobDraft, Vec<Warning>), Refusal>
    requires flat { depth (view value.now) ≤ max_depth }
    ensures said { IfOk result (λ r. Says CronJobDraft
        (table.cron_faults (zones_of zones.now) (view value.now)) (said.cron_draft (view value.now))
        (warned.cron_warnings (view value.now)) r.0 r.1.items) }
    ensures kept { IfOk result (λ r. IsKept r.0.spec.template.spec) }
    ensures refused { IfErr result (HasFaults
        (table.cron_faults (zones_of zones.now) (view value.now))) }
{
    refuse(cron_faults(alloc, zones, value)?)?;
    let (draft, warnings) = both(cron_draft(alloc, value), cron_warnings(alloc, value))?;
    match draft {
        Some(draft) => Ok((draft, warnings)),
        None => unreachable!(),
    }
}

/// Reads a JSON value as the manifest of a Job, as `read_job` reads its bytes: `Invalid` with every
/// fault, in the order of the table of fields. The value nests at most as deep as JSON is read.
pub fn job_of(alloc: Global, value: &Value) -> Result<(JobDraft, Vec<Warning>), Refusal>
    requires flat { depth (view value.now) ≤ max_depth }
    ensures said { IfOk result (λ r. Says JobDraft (table.job_faults (view value.now))
        (said.job_draft (view value.now)) (warned.job_warnings (view value.now)) r.0 r.1.items) }
    ensures kept { IfOk result (λ r. IsKept r.0.spec) }
    ensures refused { IfErr result (HasFaults (table.job_faults (view value.now))) }
{
    refuse(job_faults(alloc, value)?)?;
    let (draft, warnings) = both(job_draft(alloc, value), job_warnings(alloc, value))?;
    match draft {
        Some(draft) => Ok((draft, warnings)),
        None => unreachable!(),
    }
}

// Reads a JSON value as a manifest of either kind.
fn manifest_of(
    alloc: Global,
    value: &Value,
    zones: &ZoneTable,
) -> Result<(Manifest, Vec<Warning>), Refusal>
    requires flat { depth (view value.now) ≤ max_depth }
    ensures said { IfOk result (λ r. Says Manifest
        (either.manifest_faults (zones_of zones.now) (view value.now))
        (either.manifest_draft (view value.now)) (either.manifest_warnings (view value.now)) r.0
        r.1.items) }
    ensures kept { IfOk result (λ r. IsKept (either.spec_of r.0)) }
    ensures refused { IfErr result (HasFaults
        (either.manifest_faults (zones_of zones.now) (view value.now))) }
{
    if kind_field(ObjectKind::Job, value).is_ok() {
        let (draft, warnings) = job_of(alloc, value)?;
        Ok((Manifest::Job(draft), warnings))
    } else {
        let (draft, warnings) = cron_of(alloc, value, zones)?;
        Ok((Manifest::CronJob(draft), warnings))
    }
}

/// Reads the manifest of a CronJob under the zones of a table: its draft, with defaults filled in,
/// and a warning for each member that is dropped. The first warning is of `apiVersion` where that
/// is `batch/v1beta1`, the version before `batch/v1`; the object is stored and written as
/// `batch/v1`.
///
/// `Syntax` where the bytes aren't UTF-8 or no JSON, nest more than 127 deep, or have a number
/// beyond the range of floats. `Invalid` with every fault, in the order of the table of fields;
/// nothing below a faulty object is looked at. A member that is null counts as absent.
pub fn read_cronjob(
    alloc: Global,
    bytes: &[u8],
    zones: &ZoneTable,
) -> Result<(CronJobDraft, Vec<Warning>), Refusal>
    ensures read { IfOk result (λ r. IsReading CronJobDraft (table.cron_faults (zones_of zones.now))
        said.cron_draft warned.cron_warnings bytes.now r.0 r.1.items) }
    ensures kept { IfOk result (λ r. IsKept r.0.spec.template.spec) }
    ensures refused { IfErr result (IsRefused (table.cron_faults (zones_of zones.now)) bytes.now) }
{
    let value = value_of(alloc, bytes)?;
    cron_of(alloc, &value, zones)
}

/// Reads the manifest of a Job, as `read_cronjob` reads a CronJob's; its `apiVersion` must be
/// `batch/v1`.
pub fn read_job(alloc: Global, bytes: &[u8]) -> Result<(JobDraft, Vec<Warning>), Refusal>
    ensures read { IfOk result (λ r. IsReading JobDraft table.job_faults said.job_draft
        warned.job_warnings bytes.now r.0 r.1.items) }
    ensures kept { IfOk result (λ r. IsKept r.0.spec) }
    ensures refused { IfErr result (IsRefused table.job_faults bytes.now) }
{
    let value = value_of(alloc, bytes)?;
    job_of(alloc, &value)
}

/// Reads a manifest of either kind: a Job's where its `kind` is the text `Job`, else a CronJob's.
pub fn read_manifest(
    alloc: Global,
    bytes: &[u8],
    zones: &ZoneTable,
) -> Result<(Manifest, Vec<Warning>), Refusal>
    ensures read { IfOk result (λ r. IsReading Manifest
        (either.manifest_faults (zones_of zones.now)) either.manifest_draft either.manifest_warnings
        bytes.now r.0 r.1.items) }
    ensures kept { IfOk result (λ r. IsKept (either.spec_of r.0)) }
    ensures refused { IfErr result (IsRefused (either.manifest_faults (zones_of zones.now))
        bytes.now) }
{
    let value = value_of(alloc, bytes)?;
    manifest_of(alloc, &value, zones)
}
