// A CronJob's spec and status.
ghost use Rattle.std.specs.Prelude.{◌≡◌, map, IfOk, IfErr};
ghost use Rattle.cj_base.specs.declared.refusal.Refusal.TheVariants.{OutOfMemory};
ghost use Rattle.serde_json.specs.View.{view, members_view};
ghost use Rattle.cj_json.specs.Objects as object;

use crate::members::{
    put_labels, put_number, put_some_list, put_some_number, put_some_object, put_some_text,
    put_some_time, put_text, put_truth, put_value,
};
use crate::meta::metadata;
use crate::object::object_value;
use crate::values::push_value;
use cj_base::{all_four, all_three, both};
use cj_types::{CronJob, CronSpec, CronStatus, JobTemplate, ObjectName, Refusal};
use serde_json::{Map, Value};
use std::alloc::Global;

fn template_metadata(alloc: Global, template: &JobTemplate) -> Result<Map<String, Value>, Refusal>
    ensures ok { IfOk result (λ m. members_view m.entries ≡ object.template_metadata template.now) }
    ensures err { IfErr result (λ e. e ≡ OutOfMemory) }
{
    let mut members = Map::new(alloc);
    let annotations = put_labels(&mut members, alloc, "annotations", &template.annotations);
    let labels = put_labels(&mut members, alloc, "labels", &template.labels);
    both(annotations, labels)?;
    Ok(members)
}

fn template_value(alloc: Global, template: &JobTemplate, job: Value) -> Result<Value, Refusal>
    ensures ok { IfOk result (λ v. view v ≡ object.template_data template.now (view job)) }
    ensures err { IfErr result (λ e. e ≡ OutOfMemory) }
{
    let mut members = Map::new(alloc);
    let spec = put_value(&mut members, alloc, "spec", job);
    let (metadata, ()) = both(template_metadata(alloc, template), spec)?;
    put_some_object(&mut members, alloc, "metadata", metadata)?;
    Ok(Value::Object(members))
}

fn spec_head(alloc: Global, spec: &CronSpec, template: Value) -> Result<Map<String, Value>, Refusal>
    ensures ok { IfOk result (λ m. members_view m.entries
        ≡ object.spec_head spec.now (view template)) }
    ensures err { IfErr result (λ e. e ≡ OutOfMemory) }
{
    let mut members = Map::new(alloc);
    let template = put_value(&mut members, alloc, "jobTemplate", template);
    let policy = put_text(&mut members, alloc, "concurrencyPolicy", spec.policy.name());
    let limit = put_number(
        &mut members,
        alloc,
        "failedJobsHistoryLimit",
        u64::from(spec.failed_limit.get()),
    );
    let schedule = put_text(&mut members, alloc, "schedule", spec.schedule.as_str());
    all_four(template, policy, limit, schedule)?;
    Ok(members)
}

fn spec_value(alloc: Global, spec: &CronSpec, job: Value) -> Result<Value, Refusal>
    ensures ok { IfOk result (λ v. view v ≡ object.cron_spec_data spec.now (view job)) }
    ensures err { IfErr result (λ e. e ≡ OutOfMemory) }
{
    let template = template_value(alloc, &spec.template, job)?;
    let mut members = spec_head(alloc, spec, template)?;
    let successful = u64::from(spec.successful_limit.get());
    let deadline = spec
        .starting_deadline_seconds
        .map(|deadline| deadline.get());
    let limit = put_number(
        &mut members,
        alloc,
        "successfulJobsHistoryLimit",
        successful,
    );
    let suspend = put_truth(&mut members, alloc, "suspend", spec.suspend);
    let deadline = put_some_number(&mut members, alloc, "startingDeadlineSeconds", deadline);
    let zone = put_some_text(&mut members, alloc, "timeZone", &spec.time_zone);
    all_four(limit, suspend, deadline, zone)?;
    Ok(Value::Object(members))
}

fn active_value(alloc: Global, namespace: &str, name: &str) -> Result<Value, Refusal>
    ensures ok { IfOk result (λ v. view v ≡ object.active_data namespace.now name.now) }
    ensures err { IfErr result (λ e. e ≡ OutOfMemory) }
{
    let mut members = Map::new(alloc);
    let version = put_text(&mut members, alloc, "apiVersion", "batch/v1");
    let kind = put_text(&mut members, alloc, "kind", "Job");
    let name = put_text(&mut members, alloc, "name", name);
    let namespace = put_text(&mut members, alloc, "namespace", namespace);
    all_four(version, kind, name, namespace)?;
    Ok(Value::Object(members))
}

fn active_values(
    alloc: Global,
    namespace: &str,
    names: &[ObjectName],
) -> Result<Vec<Value>, Refusal>
    ensures ok { IfOk result (λ v. map view v.items
        ≡ map (object.active_data namespace.now) names.now) }
    ensures err { IfErr result (λ e. e ≡ OutOfMemory) }
{
    let mut values = Vec::new(alloc);
    for name in names {
        let value = active_value(alloc, namespace, name.as_str())?;
        push_value(&mut values, value)?;
    }
    Ok(values)
}

fn status_members(
    alloc: Global,
    namespace: &str,
    status: &CronStatus,
) -> Result<Map<String, Value>, Refusal>
    ensures ok { IfOk result (λ m. members_view m.entries
        ≡ object.cron_status_members namespace.now status.now) }
    ensures err { IfErr result (λ e. e ≡ OutOfMemory) }
{
    let active = active_values(alloc, namespace, status.active.as_slice())?;
    let mut members = Map::new(alloc);
    let active = put_some_list(&mut members, alloc, "active", active);
    let scheduled = put_some_time(
        &mut members,
        alloc,
        "lastScheduleTime",
        status.last_schedule_time,
    );
    let successful = put_some_time(
        &mut members,
        alloc,
        "lastSuccessfulTime",
        status.last_successful_time,
    );
    all_three(active, scheduled, successful)?;
    Ok(members)
}

/// The JSON object of a CronJob, whose template's spec is given as a value.
pub(crate) fn cron_value(alloc: Global, cron: &CronJob, job: Value) -> Result<Value, Refusal>
    ensures ok { IfOk result (λ v. view v ≡ object.cron_data cron.now (view job)) }
    ensures err { IfErr result (λ e. e ≡ OutOfMemory) }
{
    let key = cron.key.key();
    let (spec, metadata, status) = all_three(
        spec_value(alloc, &cron.spec, job),
        metadata(alloc, key, &cron.meta, &[]),
        status_members(alloc, key.namespace(), &cron.status),
    )?;
    object_value(alloc, "CronJob", metadata, spec, status)
}
