// What a sync reads of its CronJob and of Jobs.
use crate::machine::task::{CronRead, FoundJob, Task};
use cj_base::{Refusal, Shared, Text};
use cj_control::{
    ApiVersion, CronParts, Head, HeldBy, annotation, hold_in, is_held, is_text, meta, parts,
    parts_of, read_job, spec,
};
use cj_fence::{Job, Row};
use cj_types::Key;
use serde_json::Value;
use std::alloc::Global;

/// The value of a text that was kept.
pub(crate) fn value_of(alloc: Global, text: &str) -> Result<Option<Value>, Refusal> {
    match Value::from_slice(alloc, text.as_bytes()) {
        Ok(value) => Ok(Some(value)),
        Err(error) if error.is_memory() => Err(Refusal::OutOfMemory),
        Err(_) => Ok(None),
    }
}

/// What the requests of a CronJob need before it is read: its names.
pub(crate) fn parts_before(
    alloc: Global,
    key: &Key,
    api: ApiVersion,
    by: HeldBy,
) -> Result<CronParts, Refusal> {
    Ok(CronParts {
        api,
        by,
        hold: by.hold(),
        head: Head {
            namespace: Text::new(alloc, key.namespace())?,
            name: Text::new(alloc, key.name())?,
            uid: Text::new(alloc, "")?,
            version: Text::new(alloc, "")?,
        },
        template: Shared::new(alloc, Value::Null)?,
        mark: Text::new(alloc, "")?,
    })
}

fn zone_of(alloc: Global, value: &Value) -> Result<Option<Text>, Refusal> {
    let Some(zone) = spec(value, "timeZone") else {
        return Ok(None);
    };
    match zone.as_str() {
        Some(name) => Ok(Some(Text::new(alloc, name)?)),
        None => Ok(None),
    }
}

/// What a sync reads of its CronJob.
pub(crate) fn cron_read(alloc: Global, value: &Value) -> Result<CronRead, Refusal> {
    Ok(CronRead {
        text: value.to_string(alloc)?,
        is_annotated: is_text("true", annotation(value, "cronsim/run")),
        is_deleting: meta(value, "deletionTimestamp").is_some(),
        zone: zone_of(alloc, value)?,
    })
}

/// A sync has read its CronJob; whether it says what a sync needs.
pub(crate) fn take_cron(alloc: Global, task: &mut Task, value: &Value) -> Result<bool, Refusal> {
    let Some(parts) = parts_of(alloc, value, task.parts.api, task.parts.by)? else {
        return Ok(false);
    };
    task.cron = Some(cron_read(alloc, value)?);
    task.parts = parts;
    Ok(true)
}

/// A Job as the protocol sees it; none where it can't be read.
pub(crate) fn job_row(alloc: Global, value: &Value) -> Result<Option<Row<Job>>, Refusal> {
    match read_job(alloc, value) {
        Ok(row) => Ok(Some(row)),
        Err(Refusal::OutOfMemory) => Err(Refusal::OutOfMemory),
        Err(_) => Ok(None),
    }
}

/// Whether a value is the Job of that name.
pub(crate) fn is_job(alloc: Global, value: &Value, name: &Text) -> Result<bool, Refusal> {
    match job_row(alloc, value)? {
        Some(row) => Ok(row.name.as_str() == name.as_str()),
        None => Ok(false),
    }
}

/// The key of NAMESPACE/NAME, where it is one.
pub(crate) fn key_of(alloc: Global, full: &str) -> Result<Option<Key>, Refusal> {
    let (namespace, name) = parts(full);
    match Key::new(alloc, namespace, name) {
        Ok(key) => Ok(Some(key)),
        Err(Refusal::OutOfMemory) => Err(Refusal::OutOfMemory),
        Err(_) => Ok(None),
    }
}

/// Whether a Job is held in a way that this version doesn't know, which a newer one wrote.
pub(crate) fn has_unknown_hold(job: &Value) -> bool {
    is_held(job) && hold_in(job).is_none()
}

/// What the Job under a name that was taken says, beside the CronJob's uid, its template's mark and
/// the time that was to be made.
pub(crate) fn found_job(
    alloc: Global,
    value: &Value,
    parts: &CronParts,
    time: u64,
) -> Result<Option<FoundJob>, Refusal> {
    let Some(row) = job_row(alloc, value)? else {
        return Ok(None);
    };
    let is_its = row.object.owner.as_str() == parts.head.uid.as_str();
    Ok(Some(FoundJob {
        is_deleting: row.object.deleting,
        is_same: is_its && row.object.time == time,
        is_held: row.object.held,
        has_mark: is_text(parts.mark.as_str(), annotation(value, "cronsim/template")),
        has_known_hold: !has_unknown_hold(value),
    }))
}
