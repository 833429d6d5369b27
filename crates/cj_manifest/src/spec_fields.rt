// The fields of a CronJob's `spec`, and those of a Job's.
ghost use Rattle.std.specs.Prelude.{◌≡◌, option_map};
ghost use Rattle.std.specs.Result.{result_ok, result_err};
ghost use Rattle.serde_json.specs.View.{view};
ghost use Rattle.cj_zone.specs.Table.{zones_of};
ghost use Rattle.cj_manifest.specs.Table as fields;

use crate::values;
use crate::values::{either, object, present, range, required_object, truth};
use cj_types::{Cause, Deadline, HistoryLimit, Policy};
use cj_zone::ZoneTable;
use serde_json::Value;

pub(crate) fn schedule(spec: &Value) -> Result<&str, Cause>
    ensures fault { result_err result ≡ result_err (fields.schedule (view spec.now)) }
    ensures value { option_map (λ s. s.now) (result_ok result)
        ≡ result_ok (fields.schedule (view spec.now)) }
{
    match present(spec, "schedule") {
        Some(found) => values::schedule(found),
        None => Err(Cause::Required),
    }
}

pub(crate) fn time_zone<'v>(spec: &'v Value, zones: &ZoneTable) -> Result<Option<&'v str>, Cause>
    ensures fault { result_err result ≡ result_err
        (fields.time_zone (zones_of zones.now) (view spec.now)) }
    ensures value { option_map (option_map (λ s. s.now)) (result_ok result)
        ≡ result_ok (fields.time_zone (zones_of zones.now) (view spec.now)) }
{
    match present(spec, "timeZone") {
        Some(found) => Ok(Some(values::zone(found, zones)?)),
        None => Ok(None),
    }
}

pub(crate) fn policy(spec: &Value) -> Result<Policy, Cause>
    ensures { result ≡ fields.policy (view spec.now) }
{
    match present(spec, "concurrencyPolicy") {
        Some(found) => values::policy(found),
        None => Ok(Policy::Allow),
    }
}

pub(crate) fn suspend(spec: &Value) -> Result<bool, Cause>
    ensures { result ≡ fields.suspend (view spec.now) }
{
    match present(spec, "suspend") {
        Some(found) => truth(found),
        None => Ok(false),
    }
}

fn seconds(value: &Value) -> Result<Deadline, Cause>
    ensures { result ≡ fields.seconds (view value.now) }
{
    let found = range(value, Deadline::LAST)?;
    Deadline::new(found).ok_or(Cause::Range)
}

pub(crate) fn deadline(spec: &Value) -> Result<Option<Deadline>, Cause>
    ensures { result ≡ fields.deadline (view spec.now) }
{
    match present(spec, "startingDeadlineSeconds") {
        Some(found) => Ok(Some(seconds(found)?)),
        None => Ok(None),
    }
}

fn limit(value: &Value) -> Result<HistoryLimit, Cause>
    ensures { result ≡ fields.limit (view value.now) }
{
    let found = range(value, HistoryLimit::LAST)?;
    HistoryLimit::new(found).ok_or(Cause::Range)
}

pub(crate) fn successful_limit(spec: &Value) -> Result<HistoryLimit, Cause>
    ensures { result ≡ fields.successful_limit (view spec.now) }
{
    match present(spec, "successfulJobsHistoryLimit") {
        Some(found) => limit(found),
        None => Ok(HistoryLimit::from(3)),
    }
}

pub(crate) fn failed_limit(spec: &Value) -> Result<HistoryLimit, Cause>
    ensures { result ≡ fields.failed_limit (view spec.now) }
{
    match present(spec, "failedJobsHistoryLimit") {
        Some(found) => limit(found),
        None => Ok(HistoryLimit::from(1)),
    }
}

pub(crate) fn job_template(spec: &Value) -> Result<&Value, Cause>
    ensures fault { result_err result ≡ result_err (fields.job_template (view spec.now)) }
    ensures value { option_map (λ v. view v.now) (result_ok result)
        ≡ result_ok (fields.job_template (view spec.now)) }
{
    required_object(spec, "jobTemplate")
}

pub(crate) fn template_metadata(template: &Value) -> Result<Option<&Value>, Cause>
    ensures fault { result_err result ≡ result_err (fields.template_metadata (view template.now)) }
    ensures value { option_map (option_map (λ v. view v.now)) (result_ok result)
        ≡ result_ok (fields.template_metadata (view template.now)) }
{
    match present(template, "metadata") {
        Some(found) => Ok(Some(object(found)?)),
        None => Ok(None),
    }
}

pub(crate) fn job_spec(template: &Value) -> Result<&Value, Cause>
    ensures fault { result_err result ≡ result_err (fields.job_spec (view template.now)) }
    ensures value { option_map (λ v. view v.now) (result_ok result)
        ≡ result_ok (fields.job_spec (view template.now)) }
{
    required_object(template, "spec")
}

pub(crate) fn pods(job_spec: &Value) -> Result<&Value, Cause>
    ensures fault { result_err result ≡ result_err (fields.pods (view job_spec.now)) }
    ensures value { option_map (λ v. view v.now) (result_ok result)
        ≡ result_ok (fields.pods (view job_spec.now)) }
{
    required_object(job_spec, "template")
}

pub(crate) fn pod_spec(pods: &Value) -> Result<&Value, Cause>
    ensures fault { result_err result ≡ result_err (fields.pod_spec (view pods.now)) }
    ensures value { option_map (λ v. view v.now) (result_ok result)
        ≡ result_ok (fields.pod_spec (view pods.now)) }
{
    required_object(pods, "spec")
}

pub(crate) fn restart_policy(pod_spec: &Value) -> Result<&str, Cause>
    ensures { result_err result ≡ result_err (fields.restart_policy (view pod_spec.now)) }
{
    match present(pod_spec, "restartPolicy") {
        Some(found) => either(found, "Never", "OnFailure"),
        None => Err(Cause::Required),
    }
}
