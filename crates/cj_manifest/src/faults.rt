// The faults of a manifest, in the order of the table.
ghost use Rattle.std.specs.Prelude.{◌≡◌, ◌++◌, Ok, IfOk, OnOk};
ghost use Rattle.std.specs.Result.{result_err};
ghost use Rattle.serde_json.specs.View.{view};
ghost use Rattle.cj_types.specs.Keys.{fault_of};
ghost use Rattle.cj_zone.specs.Table.{zones_of};
ghost use Rattle.cj_base.specs.declared.field.Field.TheVariants as At;
ghost use Rattle.cj_manifest.specs.declared.kind.ObjectKind.TheVariants as Of;
ghost use Rattle.cj_manifest.specs.Faults as table;
ghost use Rattle.cj_manifest.specs.Table as fields;

use crate::kind::ObjectKind;
use crate::metadata_fields::{
    annotations, api_version, kind_field, labels, metadata, name, namespace, owners,
    resource_version, spec, uid, whole,
};
use crate::pods::{JOB_FIELDS, PodFields, TEMPLATE_FIELDS};
use crate::spec_fields::{
    deadline, failed_limit, job_spec, job_template, pod_spec, pods, policy, restart_policy,
    schedule, successful_limit, suspend, template_metadata, time_zone,
};
use cj_types::{Cause, Field, FieldFault, FieldFaults};
use cj_zone::ZoneTable;
use serde_json::Value;
use std::alloc::{AllocError, Global};

fn note(faults: &mut FieldFaults, field: Field, cause: Option<Cause>) -> Result<(), AllocError>
    ensures { OnOk result (faults.new ≡ faults.old ++ fault_of field cause) }
{
    if let Some(cause) = cause {
        faults.push(FieldFault { field, cause })?;
    }
    Ok(())
}

// Notes the fault of a field that was read, if it has one.
fn note_read<T: Drop>(
    faults: &mut FieldFaults,
    field: Field,
    read: Result<T, Cause>,
) -> Result<(), AllocError>
    ensures { OnOk result (faults.new ≡ faults.old ++ fault_of field (result_err read)) }
{
    note(faults, field, read.err())
}

// `Ok` where both notes were made.
fn noted(first: Result<(), AllocError>, second: Result<(), AllocError>) -> Result<(), AllocError>
    ensures { OnOk result ((first ≡ Ok tt) × (second ≡ Ok tt)) }
{
    match first {
        Ok(()) => second,
        Err(error) => Err(error),
    }
}

// ---- metadata

fn owner_faults(
    faults: &mut FieldFaults,
    kind: ObjectKind,
    metadata: &Value,
) -> Result<(), AllocError>
    ensures { OnOk result (faults.new ≡ faults.old ++ table.owner_faults kind (view metadata.now)) }
{
    match kind {
        ObjectKind::Cron => Ok(()),
        ObjectKind::Job => note_read(faults, Field::OwnerReferences, owners(metadata)),
    }
}

fn metadata_faults(
    faults: &mut FieldFaults,
    kind: ObjectKind,
    metadata: &Value,
) -> Result<(), AllocError>
    ensures { OnOk result (faults.new ≡ faults.old
        ++ table.metadata_faults kind (view metadata.now)) }
{
    let name = note_read(faults, Field::Name, name(kind, metadata));
    let namespace = note_read(faults, Field::Namespace, namespace(metadata));
    let labels = note_read(faults, Field::Labels, labels(metadata));
    let annotations = note_read(faults, Field::Annotations, annotations(metadata));
    let uid = note_read(faults, Field::Uid, uid(metadata));
    let version = note_read(faults, Field::ResourceVersion, resource_version(metadata));
    let owners = owner_faults(faults, kind, metadata);
    let named = noted(name, noted(namespace, noted(labels, annotations)));
    noted(named, noted(uid, noted(version, owners)))
}

fn note_metadata(
    faults: &mut FieldFaults,
    kind: ObjectKind,
    value: &Value,
) -> Result<(), AllocError>
    ensures { OnOk result (faults.new ≡ faults.old
        ++ table.with_fields At.Metadata (table.metadata_faults kind)
        (fields.metadata (view value.now))) }
{
    match metadata(value) {
        Ok(found) => metadata_faults(faults, kind, found),
        Err(cause) => note(faults, Field::Metadata, Some(cause)),
    }
}

// ---- the spec of a Job

fn pods_faults(faults: &mut FieldFaults, named: PodFields, pods: &Value) -> Result<(), AllocError>
    ensures { OnOk result (faults.new ≡ faults.old ++ table.pods_faults named (view pods.now)) }
{
    match pod_spec(pods) {
        Ok(found) => note_read(faults, named.restart_policy, restart_policy(found)),
        Err(cause) => note(faults, named.spec, Some(cause)),
    }
}

fn job_spec_faults(
    faults: &mut FieldFaults,
    named: PodFields,
    job_spec: &Value,
) -> Result<(), AllocError>
    ensures { OnOk result (faults.new ≡ faults.old
        ++ table.job_spec_faults named (view job_spec.now)) }
{
    match pods(job_spec) {
        Ok(found) => pods_faults(faults, named, found),
        Err(cause) => note(faults, named.template, Some(cause)),
    }
}

fn note_job_spec(faults: &mut FieldFaults, value: &Value) -> Result<(), AllocError>
    ensures { OnOk result (faults.new ≡ faults.old
        ++ table.with_fields At.Spec (table.job_spec_faults table.job_fields)
        (fields.spec (view value.now))) }
{
    match spec(value) {
        Ok(found) => job_spec_faults(faults, JOB_FIELDS, found),
        Err(cause) => note(faults, Field::Spec, Some(cause)),
    }
}

// ---- the spec of a CronJob

fn template_metadata_faults(faults: &mut FieldFaults, metadata: &Value) -> Result<(), AllocError>
    ensures { OnOk result (faults.new ≡ faults.old
        ++ table.template_metadata_faults (view metadata.now)) }
{
    let labels = note_read(faults, Field::JobTemplateLabels, labels(metadata));
    let annotations = note_read(faults, Field::JobTemplateAnnotations, annotations(metadata));
    noted(labels, annotations)
}

fn note_template_metadata(faults: &mut FieldFaults, template: &Value) -> Result<(), AllocError>
    ensures { OnOk result (faults.new ≡ faults.old
        ++ table.with_optional_fields At.JobTemplateMetadata table.template_metadata_faults
        (fields.template_metadata (view template.now))) }
{
    match template_metadata(template) {
        Ok(None) => Ok(()),
        Ok(Some(found)) => template_metadata_faults(faults, found),
        Err(cause) => note(faults, Field::JobTemplateMetadata, Some(cause)),
    }
}

fn note_template_spec(faults: &mut FieldFaults, template: &Value) -> Result<(), AllocError>
    ensures { OnOk result (faults.new ≡ faults.old
        ++ table.with_fields At.JobTemplateSpec (table.job_spec_faults table.template_fields)
        (fields.job_spec (view template.now))) }
{
    match job_spec(template) {
        Ok(found) => job_spec_faults(faults, TEMPLATE_FIELDS, found),
        Err(cause) => note(faults, Field::JobTemplateSpec, Some(cause)),
    }
}

fn template_faults(faults: &mut FieldFaults, template: &Value) -> Result<(), AllocError>
    ensures { OnOk result (faults.new ≡ faults.old ++ table.template_faults (view template.now)) }
{
    let metadata = note_template_metadata(faults, template);
    let spec = note_template_spec(faults, template);
    noted(metadata, spec)
}

fn note_template(faults: &mut FieldFaults, spec: &Value) -> Result<(), AllocError>
    ensures { OnOk result (faults.new ≡ faults.old
        ++ table.with_fields At.JobTemplate table.template_faults
        (fields.job_template (view spec.now))) }
{
    match job_template(spec) {
        Ok(found) => template_faults(faults, found),
        Err(cause) => note(faults, Field::JobTemplate, Some(cause)),
    }
}

fn timing_faults(
    faults: &mut FieldFaults,
    zones: &ZoneTable,
    spec: &Value,
) -> Result<(), AllocError>
    ensures { OnOk result (faults.new ≡ faults.old
        ++ table.timing_faults (zones_of zones.now) (view spec.now)) }
{
    let schedule = note_read(faults, Field::ScheduleText, schedule(spec));
    let zone = note_read(faults, Field::TimeZone, time_zone(spec, zones));
    let policy = note_read(faults, Field::ConcurrencyPolicy, policy(spec));
    let suspend = note_read(faults, Field::Suspend, suspend(spec));
    noted(noted(schedule, zone), noted(policy, suspend))
}

fn limit_faults(faults: &mut FieldFaults, spec: &Value) -> Result<(), AllocError>
    ensures { OnOk result (faults.new ≡ faults.old ++ table.limit_faults (view spec.now)) }
{
    let deadline = note_read(faults, Field::StartingDeadlineSeconds, deadline(spec));
    let successful = note_read(
        faults,
        Field::SuccessfulJobsHistoryLimit,
        successful_limit(spec),
    );
    let failed = note_read(faults, Field::FailedJobsHistoryLimit, failed_limit(spec));
    noted(deadline, noted(successful, failed))
}

fn cron_spec_faults(
    faults: &mut FieldFaults,
    zones: &ZoneTable,
    spec: &Value,
) -> Result<(), AllocError>
    ensures { OnOk result (faults.new ≡ faults.old
        ++ table.cron_spec_faults (zones_of zones.now) (view spec.now)) }
{
    let timing = timing_faults(faults, zones, spec);
    let limits = limit_faults(faults, spec);
    let template = note_template(faults, spec);
    noted(timing, noted(limits, template))
}

fn note_cron_spec(
    faults: &mut FieldFaults,
    zones: &ZoneTable,
    value: &Value,
) -> Result<(), AllocError>
    ensures { OnOk result (faults.new ≡ faults.old
        ++ table.with_fields At.Spec (table.cron_spec_faults (zones_of zones.now))
        (fields.spec (view value.now))) }
{
    match spec(value) {
        Ok(found) => cron_spec_faults(faults, zones, found),
        Err(cause) => note(faults, Field::Spec, Some(cause)),
    }
}

// ---- the whole

fn top_faults(faults: &mut FieldFaults, kind: ObjectKind, value: &Value) -> Result<(), AllocError>
    ensures { OnOk result (faults.new ≡ faults.old ++ table.top_faults kind (view value.now)) }
{
    let version = note_read(faults, Field::ApiVersion, api_version(kind, value));
    let named = note_read(faults, Field::Kind, kind_field(kind, value));
    let metadata = note_metadata(faults, kind, value);
    noted(version, noted(named, metadata))
}

fn note_cron(faults: &mut FieldFaults, zones: &ZoneTable, value: &Value) -> Result<(), AllocError>
    ensures { OnOk result (faults.new ≡ faults.old
        ++ table.object_faults Of.Cron (table.cron_spec_faults (zones_of zones.now))
        (view value.now)) }
{
    let top = top_faults(faults, ObjectKind::Cron, value);
    let spec = note_cron_spec(faults, zones, value);
    noted(top, spec)
}

fn note_job(faults: &mut FieldFaults, value: &Value) -> Result<(), AllocError>
    ensures { OnOk result (faults.new ≡ faults.old
        ++ table.object_faults Of.Job (table.job_spec_faults table.job_fields) (view value.now)) }
{
    let top = top_faults(faults, ObjectKind::Job, value);
    let spec = note_job_spec(faults, value);
    noted(top, spec)
}

/// The faults of a CronJob's manifest.
pub(crate) fn cron_faults(
    alloc: Global,
    zones: &ZoneTable,
    value: &Value,
) -> Result<FieldFaults, AllocError>
    ensures { IfOk result (λ f. f ≡ table.cron_faults (zones_of zones.now) (view value.now)) }
{
    let mut faults = FieldFaults::new(alloc);
    let noted = match whole(value) {
        Ok(found) => note_cron(&mut faults, zones, found),
        Err(cause) => note(&mut faults, Field::Whole, Some(cause)),
    };
    noted?;
    Ok(faults)
}

/// The faults of a Job's manifest, except those of its spec.
pub(crate) fn head_faults(alloc: Global, value: &Value) -> Result<FieldFaults, AllocError>
    ensures { IfOk result (λ f. f ≡ table.head_faults (view value.now)) }
{
    let mut faults = FieldFaults::new(alloc);
    let noted = match whole(value) {
        Ok(found) => top_faults(&mut faults, ObjectKind::Job, found),
        Err(cause) => note(&mut faults, Field::Whole, Some(cause)),
    };
    noted?;
    Ok(faults)
}

/// The faults of a Job's manifest.
pub(crate) fn job_faults(alloc: Global, value: &Value) -> Result<FieldFaults, AllocError>
    ensures { IfOk result (λ f. f ≡ table.job_faults (view value.now)) }
{
    let mut faults = FieldFaults::new(alloc);
    let noted = match whole(value) {
        Ok(found) => note_job(&mut faults, found),
        Err(cause) => note(&mut faults, Field::Whole, Some(cause)),
    };
    noted?;
    Ok(faults)
}
