// The Jobs of a CronJob, as lists and watches told them.
use crate::machine::reading::{job_row, value_of};
use crate::machine::task::CronRead;
use crate::machine::view::View;
use cj_base::{Refusal, Text};
use cj_control::{ApiVersion, completed_at, parts};
use cj_fence::{At, Job, Ref, Row};
use cj_json::push_value;
use cj_manifest::present;
use cj_types::Key;
use serde_json::{Value, json, put};
use std::alloc::Global;

// A Job with its text.
#[derive(Drop)]
struct JobTold<'a> {
    text: &'a str,
    row: Row<Job>,
}

fn told<'a>(alloc: Global, view: &View<'a>, key: &Key) -> Result<Option<JobTold<'a>>, Refusal> {
    let Some(text) = view.mirror.job(key) else {
        return Ok(None);
    };
    let Some(value) = value_of(alloc, text)? else {
        return Ok(None);
    };
    match job_row(alloc, &value)? {
        Some(row) => Ok(Some(JobTold { text, row })),
        None => Ok(None),
    }
}

fn push_row(rows: &mut Vec<Row<Job>>, row: Row<Job>) -> Result<(), Refusal> {
    rows.push(row).map_err(|_| Refusal::OutOfMemory)
}

/// The Jobs whose controller names the CronJob.
pub(crate) fn rows_of(alloc: Global, view: &View<'_>, key: &Key) -> Result<Vec<Row<Job>>, Refusal> {
    let mut rows = Vec::new(alloc);
    let keys = view.mirror.jobs_of(alloc, key)?;
    for key in &keys {
        if let Some(told) = told(alloc, view, key)? {
            push_row(&mut rows, told.row)?;
        }
    }
    Ok(rows)
}

// When a Job of the CronJob of this uid was completed; 0 where it isn't complete, or of another.
fn success_at(alloc: Global, view: &View<'_>, key: &Key, uid: &Text) -> Result<u64, Refusal> {
    let Some(text) = view.mirror.job(key) else {
        return Ok(0);
    };
    let Some(value) = value_of(alloc, text)? else {
        return Ok(0);
    };
    match job_row(alloc, &value)? {
        Some(row) if row.object.owner.as_str() == uid.as_str() => {
            Ok(completed_at(&value).unwrap_or(0))
        }
        _ => Ok(0),
    }
}

// When one of these Jobs of the CronJob succeeded last, where that is later than what its status
// says; only `batch/v1` has a place for it.
fn success_among(
    alloc: Global,
    view: &View<'_>,
    keys: &[Key],
    at: &At,
) -> Result<Option<u64>, Refusal> {
    if view.options.api != ApiVersion::BatchV1 {
        return Ok(None);
    }
    let mut last = at.cron.success;
    for key in keys {
        last = last.max(success_at(alloc, view, key, &at.cron.uid)?);
    }
    if last > at.cron.success {
        Ok(Some(last))
    } else {
        Ok(None)
    }
}

/// When a Job of the CronJob succeeded last, where that is later than what its status says.
pub(crate) fn later_success(
    alloc: Global,
    view: &View<'_>,
    key: &Key,
    at: &At,
) -> Result<Option<u64>, Refusal> {
    let keys = view.mirror.jobs_of(alloc, key)?;
    success_among(alloc, view, keys.as_slice(), at)
}

fn is_named(key: &Key, names: &[Text]) -> bool {
    names.iter().any(|name| name.as_str() == key.name())
}

// The keys of these names.
fn named_keys(alloc: Global, keys: Vec<Key>, names: &[Text]) -> Result<Vec<Key>, Refusal> {
    let mut found = Vec::new(alloc);
    for key in keys {
        if is_named(&key, names) {
            found.push(key).map_err(|_| Refusal::OutOfMemory)?;
        }
    }
    Ok(found)
}

/// Whether a Job of these names succeeded later than the status says: with it that would be
/// forgotten.
pub(crate) fn loses_success(
    alloc: Global,
    view: &View<'_>,
    key: &Key,
    names: &[Text],
    at: &At,
) -> Result<bool, Refusal> {
    let keys = named_keys(alloc, view.mirror.jobs_of(alloc, key)?, names)?;
    Ok(success_among(alloc, view, keys.as_slice(), at)?.is_some())
}

/// Whether the Job is one of these.
pub(crate) fn is_among(jobs: &[Ref], row: &Row<Job>) -> bool {
    jobs.iter()
        .any(|job| job.uid.as_str() == row.object.uid.as_str())
}

// An object with this value as a member.
fn with_member(alloc: Global, object: &Value, name: &str, value: Value) -> Result<Value, Refusal> {
    match object.clone()? {
        Value::Object(members) => {
            let mut members = members;
            put(&mut members, alloc, name, value)?;
            Ok(Value::Object(members))
        }
        other => Ok(other),
    }
}

// The CronJob, not suspended.
fn awake(alloc: Global, cron: &Value) -> Result<Value, Refusal> {
    let Some(spec) = present(cron, "spec") else {
        return Ok(cron.clone()?);
    };
    let spec = with_member(alloc, spec, "suspend", Value::from(false))?;
    with_member(alloc, cron, "spec", spec)
}

// A reference by its name alone.
fn reference(alloc: Global, job: &Ref) -> Result<Value, Refusal> {
    let (_, name) = parts(job.name.as_str());
    Ok(json!(in alloc; {"name": name})?)
}

fn references(alloc: Global, jobs: &[Ref]) -> Result<Value, Refusal> {
    let mut values = Vec::new(alloc);
    for job in jobs {
        push_value(&mut values, reference(alloc, job)?)?;
    }
    Ok(Value::Array(values))
}

// The CronJob with these Jobs alone in its status.
fn with_active(alloc: Global, cron: &Value, jobs: &[Ref]) -> Result<Value, Refusal> {
    let Some(status) = present(cron, "status") else {
        return Ok(cron.clone()?);
    };
    let status = with_member(alloc, status, "active", references(alloc, jobs)?)?;
    with_member(alloc, cron, "status", status)
}

// The CronJob as it is decided on: where only those with the annotation are looked after,
// `spec.suspend` doesn't count; and references that name no Job don't.
fn decided_on(
    alloc: Global,
    view: &View<'_>,
    cron: &Value,
    nameless: u64,
    alive: &[Ref],
) -> Result<Value, Refusal> {
    let named = if nameless > 0 {
        with_active(alloc, cron, alive)?
    } else {
        cron.clone()?
    };
    if view.options.only_annotated {
        awake(alloc, &named)
    } else {
        Ok(named)
    }
}

// Its text.
fn cron_text(
    alloc: Global,
    view: &View<'_>,
    cron: &CronRead,
    nameless: u64,
    alive: &[Ref],
) -> Result<String, Refusal> {
    if view.options.only_annotated || nameless > 0 {
        if let Some(value) = value_of(alloc, cron.text.as_str())? {
            let value = decided_on(alloc, view, &value, nameless, alive)?;
            return Ok(value.to_string(alloc)?);
        }
    }
    Ok(String::from_str(alloc, cron.text.as_str())?)
}

/// A list of the CronJob, of its Jobs that have finished, and of those of its status that run; so
/// many of its references name no Job.
pub(crate) fn list_text(
    alloc: Global,
    view: &View<'_>,
    cron: &CronRead,
    key: &Key,
    nameless: u64,
    alive: &[Ref],
) -> Result<String, Refusal> {
    let mut text = String::from_str(
        alloc,
        "{\"apiVersion\":\"v1\",\"kind\":\"List\",\"items\":[",
    )?;
    let cron = cron_text(alloc, view, cron, nameless, alive)?;
    text.push_str(cron.as_str())?;
    let keys = view.mirror.jobs_of(alloc, key)?;
    for key in &keys {
        if let Some(told) = told(alloc, view, key)? {
            if told.row.object.finished || is_among(alive, &told.row) {
                text.push_str(",")?;
                text.push_str(told.text)?;
            }
        }
    }
    text.push_str("]}")?;
    Ok(text)
}
