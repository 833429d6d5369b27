// The drafts of manifests without faults.
ghost use Rattle.std.specs.Prelude.{◌≡◌, ◌≤◌, false, option_map, IfOk, IfErr, IfSome};
ghost use Rattle.cj_base.specs.declared.refusal.Refusal.TheVariants.{OutOfMemory};
ghost use Rattle.serde_json.specs.Data.{depth};
ghost use Rattle.serde_json.specs.Read.{max_depth};
ghost use Rattle.serde_json.specs.View.{view};
ghost use Rattle.serde_json.specs.Written.{has_float, compact_text};
ghost use Rattle.cj_json.specs.Parts.{IsKept};
ghost use Rattle.cj_manifest.specs.declared.kind.ObjectKind.TheVariants as Of;
ghost use Rattle.cj_manifest.specs.Drafts as said;
ghost use Rattle.cj_manifest.specs.Reading.{IsNamed, HasNames};

use crate::draft_parts::{given_text, label_map, owner_list};
use crate::kind::ObjectKind;
use crate::metadata_fields::{
    annotations, labels, metadata, name, namespace, owners, resource_version, spec, uid,
};
use crate::spec_fields::{
    deadline, failed_limit, job_spec, job_template, policy, schedule, successful_limit, suspend,
    template_metadata,
};
use crate::values::present;
use cj_base::{all_four, all_three};
use cj_types::{
    CronJobDraft, CronKey, CronSpec, DraftMeta, HistoryLimit, JobDraft, JobTemplate, Key, Labels,
    OwnerRefs, Policy, Refusal, Shared, SpecText, Text,
};
use serde_json::Value;
use std::alloc::Global;

// ---- metadata

fn uid_in(alloc: Global, metadata: &Value) -> Result<Option<Text>, Refusal>
    ensures ok { IfOk result (λ o. o ≡ said.uid_of (view metadata.now)) }
    ensures err { IfErr result (λ e. e ≡ OutOfMemory) }
{
    given_text(alloc, uid(metadata).unwrap_or(None))
}

fn version_in(alloc: Global, metadata: &Value) -> Result<Option<Text>, Refusal>
    ensures ok { IfOk result (λ o. o ≡ said.version_of (view metadata.now)) }
    ensures err { IfErr result (λ e. e ≡ OutOfMemory) }
{
    given_text(alloc, resource_version(metadata).unwrap_or(None))
}

fn labels_in(alloc: Global, metadata: &Value) -> Result<Labels, Refusal>
    ensures ok { IfOk result (λ l. l ≡ said.labels_of (view metadata.now)) }
    ensures err { IfErr result (λ e. e ≡ OutOfMemory) }
{
    label_map(alloc, labels(metadata).unwrap_or(None))
}

fn annotations_in(alloc: Global, metadata: &Value) -> Result<Labels, Refusal>
    ensures ok { IfOk result (λ l. l ≡ said.annotations_of (view metadata.now)) }
    ensures err { IfErr result (λ e. e ≡ OutOfMemory) }
{
    label_map(alloc, annotations(metadata).unwrap_or(None))
}

fn meta(alloc: Global, metadata: &Value) -> Result<DraftMeta, Refusal>
    ensures ok { IfOk result (λ m. m ≡ said.meta_of (view metadata.now)) }
    ensures err { IfErr result (λ e. e ≡ OutOfMemory) }
{
    let (uid, version, labels, annotations) = all_four(
        uid_in(alloc, metadata),
        version_in(alloc, metadata),
        labels_in(alloc, metadata),
        annotations_in(alloc, metadata),
    )?;
    Ok(DraftMeta {
        uid,
        version,
        labels,
        annotations,
    })
}

fn cron_key(alloc: Global, metadata: &Value) -> Result<CronKey, Refusal>
    requires { IsNamed Of.Cron (view metadata.now) }
    ensures ok { IfOk result (λ k. k ≡ said.key_of Of.Cron (view metadata.now)) }
    ensures err { IfErr result (λ e. e ≡ OutOfMemory) }
{
    let namespace = namespace(metadata).unwrap_or("");
    let name = name(ObjectKind::Cron, metadata).unwrap_or("");
    CronKey::new(alloc, namespace, name)
}

pub(crate) fn job_key(alloc: Global, metadata: &Value) -> Result<Key, Refusal>
    requires { IsNamed Of.Job (view metadata.now) }
    ensures ok { IfOk result (λ k. k ≡ said.key_of Of.Job (view metadata.now)) }
    ensures err { IfErr result (λ e. e ≡ OutOfMemory) }
{
    let namespace = namespace(metadata).unwrap_or("");
    let name = name(ObjectKind::Job, metadata).unwrap_or("");
    Key::new(alloc, namespace, name)
}

pub(crate) fn owner_refs(alloc: Global, metadata: &Value) -> Result<OwnerRefs, Refusal>
    ensures ok { IfOk result (λ o. o ≡ said.owners_of (view metadata.now)) }
    ensures err { IfErr result (λ e. e ≡ OutOfMemory) }
{
    owner_list(alloc, owners(metadata).unwrap_or(None))
}

// ---- specs

/// The spec of a Job, kept as its compact text.
fn kept(alloc: Global, value: &Value) -> Result<SpecText, Refusal>
    requires plain { has_float (view value.now) ≡ false }
    requires flat { depth (view value.now) ≤ max_depth }
    ensures ok { IfOk result (λ s. s ≡ compact_text (view value.now)) }
    ensures kept { IfOk result (λ s. IsKept s) }
    ensures err { IfErr result (λ e. e ≡ OutOfMemory) }
{
    let text = value.to_string(alloc)?;
    SpecText::new(alloc, Text::from_string(text))
}

fn template_labels(alloc: Global, metadata: Option<&Value>) -> Result<Labels, Refusal>
    ensures ok { IfOk result (λ l. l ≡ said.template_labels
        (option_map (λ v. view v.now) metadata.entry)) }
    ensures err { IfErr result (λ e. e ≡ OutOfMemory) }
{
    match metadata {
        Some(found) => labels_in(alloc, found),
        None => Ok(Labels::new(alloc)),
    }
}

fn template_annotations(alloc: Global, metadata: Option<&Value>) -> Result<Labels, Refusal>
    ensures ok { IfOk result (λ l. l ≡ said.template_annotations
        (option_map (λ v. view v.now) metadata.entry)) }
    ensures err { IfErr result (λ e. e ≡ OutOfMemory) }
{
    match metadata {
        Some(found) => annotations_in(alloc, found),
        None => Ok(Labels::new(alloc)),
    }
}

fn template(alloc: Global, template: &Value, job_spec: &Value) -> Result<JobTemplate, Refusal>
    requires plain { has_float (view job_spec.now) ≡ false }
    requires flat { depth (view job_spec.now) ≤ max_depth }
    ensures kept { IfOk result (λ t. IsKept t.spec) }
    ensures ok { IfOk result (λ t. t ≡ said.template_of (view template.now) (view job_spec.now)) }
    ensures err { IfErr result (λ e. e ≡ OutOfMemory) }
{
    let metadata = template_metadata(template).unwrap_or(None);
    let (labels, annotations, spec) = all_three(
        template_labels(alloc, metadata),
        template_annotations(alloc, metadata),
        kept(alloc, job_spec),
    )?;
    Ok(JobTemplate {
        labels,
        annotations,
        spec,
    })
}

fn zone_name(alloc: Global, spec: &Value) -> Result<Option<Text>, Refusal>
    ensures ok { IfOk result (λ o. o ≡ said.zone_name (view spec.now)) }
    ensures err { IfErr result (λ e. e ≡ OutOfMemory) }
{
    let Some(found) = present(spec, "timeZone") else {
        return Ok(None);
    };
    let Some(name) = found.as_str() else {
        return Ok(None);
    };
    Ok(Some(Text::new(alloc, name)?))
}

fn schedule_text(alloc: Global, spec: &Value) -> Result<Text, Refusal>
    ensures ok { IfOk result (λ t. t ≡ said.schedule_text (view spec.now)) }
    ensures err { IfErr result (λ e. e ≡ OutOfMemory) }
{
    Text::new(alloc, schedule(spec).unwrap_or(""))
}

fn cron_spec(
    alloc: Global,
    spec: &Value,
    job_template: &Value,
    job_spec: &Value,
) -> Result<CronSpec, Refusal>
    requires plain { has_float (view job_spec.now) ≡ false }
    requires flat { depth (view job_spec.now) ≤ max_depth }
    ensures kept { IfOk result (λ s. IsKept s.template.spec) }
    ensures ok { IfOk result (λ s. s ≡ said.cron_spec_of (view spec.now)
        (said.template_of (view job_template.now) (view job_spec.now))) }
    ensures err { IfErr result (λ e. e ≡ OutOfMemory) }
{
    let (schedule, time_zone, template) = all_three(
        schedule_text(alloc, spec),
        zone_name(alloc, spec),
        template(alloc, job_template, job_spec),
    )?;
    Ok(CronSpec {
        schedule,
        time_zone,
        policy: policy(spec).unwrap_or(Policy::Allow),
        suspend: suspend(spec).unwrap_or(false),
        starting_deadline_seconds: deadline(spec).unwrap_or(None),
        successful_limit: successful_limit(spec).unwrap_or(HistoryLimit::from(0)),
        failed_limit: failed_limit(spec).unwrap_or(HistoryLimit::from(0)),
        template,
    })
}

// The spec, moved to the heap.
fn shared_spec(
    alloc: Global,
    spec: &Value,
    job_template: &Value,
    job_spec: &Value,
) -> Result<Shared<CronSpec>, Refusal>
    requires plain { has_float (view job_spec.now) ≡ false }
    requires flat { depth (view job_spec.now) ≤ max_depth }
    ensures kept { IfOk result (λ s. IsKept s.template.spec) }
    ensures ok { IfOk result (λ s. s ≡ said.cron_spec_of (view spec.now)
        (said.template_of (view job_template.now) (view job_spec.now))) }
    ensures err { IfErr result (λ e. e ≡ OutOfMemory) }
{
    Shared::new(alloc, cron_spec(alloc, spec, job_template, job_spec)?)
}

// ---- drafts

/// The draft of a CronJob's manifest; `None` where an object in it is missing.
pub(crate) fn cron_draft(alloc: Global, value: &Value) -> Result<Option<CronJobDraft>, Refusal>
    requires plain { has_float (view value.now) ≡ false }
    requires flat { depth (view value.now) ≤ max_depth }
    requires named { HasNames Of.Cron (view value.now) }
    ensures ok { IfOk result (λ o. o ≡ said.cron_draft (view value.now)) }
    ensures kept { IfOk result (λ o. IfSome o (λ r. IsKept r.spec.template.spec)) }
    ensures err { IfErr result (λ e. e ≡ OutOfMemory) }
{
    let Ok(metadata) = metadata(value) else {
        return Ok(None);
    };
    let Ok(spec) = spec(value) else {
        return Ok(None);
    };
    let Ok(template) = job_template(spec) else {
        return Ok(None);
    };
    let Ok(job_spec) = job_spec(template) else {
        return Ok(None);
    };
    let (key, meta, spec) = all_three(
        cron_key(alloc, metadata),
        meta(alloc, metadata),
        shared_spec(alloc, spec, template, job_spec),
    )?;
    Ok(Some(CronJobDraft { key, meta, spec }))
}

/// The draft of a Job's manifest; `None` where an object in it is missing.
pub(crate) fn job_draft(alloc: Global, value: &Value) -> Result<Option<JobDraft>, Refusal>
    requires plain { has_float (view value.now) ≡ false }
    requires flat { depth (view value.now) ≤ max_depth }
    requires named { HasNames Of.Job (view value.now) }
    ensures ok { IfOk result (λ o. o ≡ said.job_draft (view value.now)) }
    ensures kept { IfOk result (λ o. IfSome o (λ r. IsKept r.spec)) }
    ensures err { IfErr result (λ e. e ≡ OutOfMemory) }
{
    let Ok(metadata) = metadata(value) else {
        return Ok(None);
    };
    let Ok(spec) = spec(value) else {
        return Ok(None);
    };
    let (key, meta, owners, spec) = all_four(
        job_key(alloc, metadata),
        meta(alloc, metadata),
        owner_refs(alloc, metadata),
        kept(alloc, spec),
    )?;
    Ok(Some(JobDraft {
        key,
        meta,
        owners,
        spec,
    }))
}
