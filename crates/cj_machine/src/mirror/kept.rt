// What a mirror keeps of an object: what a sync reads of it, and nothing that only makes it large.

use crate::source::Source;
use cj_base::{Refusal, Text};
use cj_control::ApiVersion;
use cj_manifest::present;
use serde_json::{Map, Value, json, put};
use std::alloc::{AllocError, Global};

/// The most bytes of a CronJob that are kept with its jobTemplate.
const MOST_BYTES: usize = 65_536;

// What is read of an object's metadata.
const METADATA: &[&str] = &[
    "creationTimestamp",
    "deletionTimestamp",
    "finalizers",
    "name",
    "namespace",
    "ownerReferences",
    "resourceVersion",
    "uid",
];

// The annotations that are read of a CronJob and of a Job.
const ANNOTATIONS: &[&str] = &[
    "batch.kubernetes.io/cronjob-scheduled-timestamp",
    "cronjob.kubernetes.io/instantiate",
    "cronsim/held",
    "cronsim/policy",
    "cronsim/run",
    "cronsim/template",
];

// What is read of a Job's status.
const JOB_STATUS: &[&str] = &["completionTime", "conditions", "startTime"];

/// What is kept of an object.
#[derive(Drop)]
pub(crate) struct Kept {
    pub text: Text,
    /// Whether its jobTemplate was left out.
    pub is_cut: bool,
}

// A copy of a member; null where it isn't there.
fn copy_of(value: &Value, name: &str) -> Result<Value, Refusal> {
    match present(value, name) {
        Some(found) => Ok(found.clone()?),
        None => Ok(Value::Null),
    }
}

// Puts a copy of a member, where it is there.
fn put_copy(
    alloc: Global,
    members: &mut Map<String, Value>,
    value: &Value,
    name: &str,
) -> Result<(), Refusal> {
    if let Some(found) = present(value, name) {
        put(members, alloc, name, found.clone()?)?;
    }
    Ok(())
}

// An object with these members of the value alone; null where it is none.
fn members_of(alloc: Global, value: &Value, names: &[&str]) -> Result<Value, Refusal> {
    if value.as_object().is_none() {
        return Ok(Value::Null);
    }
    let mut members = Map::new(alloc);
    for name in names {
        put_copy(alloc, &mut members, value, name)?;
    }
    Ok(Value::Object(members))
}

// These members of a member.
fn part_of(alloc: Global, value: &Value, name: &str, names: &[&str]) -> Result<Value, Refusal> {
    match present(value, name) {
        Some(found) => members_of(alloc, found, names),
        None => Ok(Value::Null),
    }
}

// The value with this member.
fn with(alloc: Global, value: Value, name: &str, member: Value) -> Result<Value, Refusal> {
    match value {
        Value::Object(members) => {
            let mut members = members;
            put(&mut members, alloc, name, member)?;
            Ok(Value::Object(members))
        }
        other => Ok(other),
    }
}

// What is read of the metadata.
fn metadata(alloc: Global, value: &Value) -> Result<Value, Refusal> {
    let Some(found) = present(value, "metadata") else {
        return Ok(Value::Null);
    };
    let annotations = part_of(alloc, found, "annotations", ANNOTATIONS)?;
    let metadata = members_of(alloc, found, METADATA)?;
    with(alloc, metadata, "annotations", annotations)
}

fn cron_object(
    alloc: Global,
    version: &str,
    metadata: Value,
    spec: Value,
    status: Value,
) -> Result<Value, AllocError> {
    json!(in alloc; {
        "apiVersion": version,
        "kind": "CronJob",
        "metadata": metadata,
        "spec": spec,
        "status": status
    })
}

fn job_object(
    alloc: Global,
    version: &str,
    metadata: Value,
    status: Value,
) -> Result<Value, AllocError> {
    json!(in alloc; {
        "apiVersion": version,
        "kind": "Job",
        "metadata": metadata,
        "status": status
    })
}

// The member at the end of a path.
fn at_path<'v>(value: &'v Value, path: &[&str]) -> Option<&'v Value> {
    let mut found = value;
    for name in path {
        found = present(found, name)?;
    }
    Some(found)
}

fn template_object(alloc: Global, restart_policy: Value) -> Result<Value, AllocError> {
    json!(in alloc; {
        "spec": {"template": {"spec": {"restartPolicy": restart_policy}}}
    })
}

// A jobTemplate with nothing but its restart policy, by which a CronJob is decided on as by its
// own.
fn small_template(alloc: Global, spec: &Value) -> Result<Value, Refusal> {
    let path = ["jobTemplate", "spec", "template", "spec", "restartPolicy"];
    let policy = match at_path(spec, &path) {
        Some(found) => found.clone()?,
        None => Value::Null,
    };
    Ok(template_object(alloc, policy)?)
}

// The spec of a CronJob without its jobTemplate.
fn small_spec(alloc: Global, value: &Value) -> Result<Value, Refusal> {
    let Some(spec) = present(value, "spec") else {
        return Ok(Value::Null);
    };
    let template = small_template(alloc, spec)?;
    with(alloc, spec.clone()?, "jobTemplate", template)
}

fn kept_cron(alloc: Global, version: &str, value: &Value, spec: Value) -> Result<String, Refusal> {
    let metadata = metadata(alloc, value)?;
    let status = copy_of(value, "status")?;
    let kept = cron_object(alloc, version, metadata, spec, status)?;
    Ok(kept.to_string(alloc)?)
}

// The text of a CronJob, without its jobTemplate where it is too large with it.
fn cron_kept(alloc: Global, version: &str, value: &Value) -> Result<Kept, Refusal> {
    let text = kept_cron(alloc, version, value, copy_of(value, "spec")?)?;
    if text.len() <= MOST_BYTES {
        return Ok(Kept {
            text: Text::new(alloc, text.as_str())?,
            is_cut: false,
        });
    }
    let text = kept_cron(alloc, version, value, small_spec(alloc, value)?)?;
    Ok(Kept {
        text: Text::new(alloc, text.as_str())?,
        is_cut: true,
    })
}

fn job_kept(alloc: Global, version: &str, value: &Value) -> Result<Kept, Refusal> {
    let metadata = metadata(alloc, value)?;
    let status = part_of(alloc, value, "status", JOB_STATUS)?;
    let kept = job_object(alloc, version, metadata, status)?;
    let text = kept.to_string(alloc)?;
    // (a copy, which takes no more than it needs)
    Ok(Kept {
        text: Text::new(alloc, text.as_str())?,
        is_cut: false,
    })
}

/// What is kept of an object.
pub(crate) fn kept_of(
    alloc: Global,
    source: Source,
    api: ApiVersion,
    value: &Value,
) -> Result<Kept, Refusal> {
    match source {
        Source::Crons => cron_kept(alloc, source.version(api), value),
        Source::Jobs => job_kept(alloc, source.version(api), value),
    }
}
