// Lines for people.
use crate::machine::driver::Driver;
use crate::machine::events::{EventNote, event_of, note_event, push_event};
use crate::machine::task::Task;
use cj_base::{Refusal, Seconds, Text, both};
use cj_control::{meta, parts};
use cj_fence::Call;
use cj_types::{Key, Reason};
use cj_zone::time_text;
use serde_json::Value;
use std::alloc::Global;

// The time that a sync starts a Job for.
fn time_of(task: &Task) -> Option<u64> {
    match &task.plan {
        Some(plan) => plan.time,
        None => None,
    }
}

fn time(alloc: Global, time: u64) -> Result<String, Refusal> {
    match Seconds::new(time) {
        Some(at) => time_text(alloc, at),
        None => Ok(format!(in alloc; "{time}")?),
    }
}

// What a write does, in words.
fn words(alloc: Global, call: &Call) -> Result<String, Refusal> {
    match call {
        Call::Create(name, job) => {
            let (name, at) = (name.as_str(), time(alloc, job.time)?);
            let at = at.as_str();
            Ok(format!(in alloc;
                "would create job {name} for {at}, claim that time for it, and start it"
            )?)
        }
        Call::Start(job) => {
            let name = job.name.as_str();
            Ok(format!(in alloc; "would start job {name}")?)
        }
        Call::Delete(job) | Call::Expire(job, _, _) => {
            let name = job.name.as_str();
            Ok(format!(in alloc; "would delete job {name}")?)
        }
        Call::Tidy(tidy) if tidy.success.is_some() => Ok(String::from_str(
            alloc,
            "would write its status: status.active, and a later status.lastSuccessfulTime",
        )?),
        _ => Ok(String::from_str(
            alloc,
            "would write status.active without the Jobs that are dead",
        )?),
    }
}

/// Says what would be written.
pub(crate) fn say_would(
    alloc: Global,
    driver: &mut Driver,
    task: &Task,
    call: &Call,
) -> Result<(), Refusal> {
    let (name, words) = (task.name.as_str(), words(alloc, call)?);
    let words = words.as_str();
    let text = format!(in alloc; "cronjob {name}: {words}")?;
    driver.tell(text)
}

/// Says that a Job was started.
pub(crate) fn say_started(
    alloc: Global,
    driver: &mut Driver,
    task: &Task,
    job: &str,
) -> Result<(), Refusal> {
    let name = task.name.as_str();
    let now = driver.now();
    driver.numbers.started(time_of(task), now);
    let text = format!(in alloc; "cronjob {name}: started job {job}")?;
    driver.tell(text)?;
    let (_, short) = parts(job);
    let message = format!(in alloc; "Created job {short}")?;
    note_event(alloc, driver, task, "SuccessfulCreate", false, message)
}

// Since when times are passed by: the last schedule time, or else the CronJob's creation.
fn since_words(alloc: Global, last: u64) -> Result<String, Refusal> {
    if last == 0 {
        return Ok(String::from_str(alloc, "its creation")?);
    }
    time(alloc, last)
}

/// Says how many due times before the one that was claimed get no Job.
pub(crate) fn say_passed(alloc: Global, driver: &mut Driver, task: &Task) -> Result<(), Refusal> {
    let (Some(plan), true) = (&task.plan, task.has_claimed) else {
        return Ok(());
    };
    if plan.passed == 0 {
        return Ok(());
    }
    let (since, latest) = both(since_words(alloc, task.last), time(alloc, task.due))?;
    let (name, count) = (task.name.as_str(), plan.passed);
    let (since, latest) = (since.as_str(), latest.as_str());
    let text = format!(in alloc;
        "cronjob {name}: due times passed by since {since}: {count}; only the latest, {latest}, gets a job"
    )?;
    driver.warn(text)
}

/// Says that a Job was deleted, for this reason.
pub(crate) fn say_deleted(
    alloc: Global,
    driver: &mut Driver,
    task: &Task,
    job: &str,
    is_late: bool,
) -> Result<(), Refusal> {
    let (_, short) = parts(job);
    if is_late {
        let message = format!(in alloc; "Missed the starting deadline of job {short}")?;
        return note_event(alloc, driver, task, "MissSchedule", true, message);
    }
    let message = format!(in alloc; "Deleted job {short}")?;
    note_event(alloc, driver, task, "SuccessfulDelete", false, message)
}

/// Says that a CronJob is left alone, and why.
pub(crate) fn say_left(
    alloc: Global,
    driver: &mut Driver,
    task: &Task,
    reason: &'static str,
    words: &str,
) -> Result<(), Refusal> {
    let name = task.name.as_str();
    let text = format!(in alloc; "cronjob {name}: left alone: {words}")?;
    driver.warn(text)?;
    let message = format!(in alloc; "Left alone: {words}")?;
    note_event(alloc, driver, task, reason, true, message)
}

// What a reason says, in words.
fn why(reason: Reason) -> &'static str {
    match reason {
        Reason::JobAlreadyActive =>
            "Not starting a job, since an earlier one runs and spec.concurrencyPolicy is Forbid",
        Reason::TooManyMissedTimes =>
            "More than 100 times were missed; a job is started for the latest alone",
        Reason::UnknownTimeZone => "Not starting a job, since spec.timeZone names no known zone",
        Reason::FailedCreate => "Not starting a job, since its name is taken",
    }
}

// Tells an Event that no Job is started; without writes, in a line instead.
fn say_skipped(
    alloc: Global,
    driver: &mut Driver,
    task: &Task,
    reason: &'static str,
    is_warning: bool,
    message: String,
) -> Result<(), Refusal> {
    if !driver.options.dry_run {
        return note_event(alloc, driver, task, reason, is_warning, message);
    }
    let (name, words) = (task.name.as_str(), message.as_str());
    driver.tell(format!(in alloc; "cronjob {name}: {words}")?)
}

/// Says why no Job is started.
pub(crate) fn say_why(
    alloc: Global,
    driver: &mut Driver,
    task: &Task,
    reason: Reason,
) -> Result<(), Refusal> {
    let message = String::from_str(alloc, why(reason))?;
    let is_warning = reason != Reason::JobAlreadyActive;
    say_skipped(alloc, driver, task, reason.name(), is_warning, message)
}

/// Says that no Job is started, since one runs, or may still be started, that the status doesn't
/// name.
pub(crate) fn say_held_back(
    alloc: Global,
    driver: &mut Driver,
    task: &Task,
) -> Result<(), Refusal> {
    let message = String::from_str(
        alloc,
        "Not starting a job, since another one, which status.active doesn't name, has not ended",
    )?;
    say_skipped(alloc, driver, task, "JobAlreadyActive", false, message)
}

/// Says that a time was planned and not claimed within a minute.
pub(crate) fn tell_missed(
    alloc: Global,
    driver: &mut Driver,
    task: &Task,
    due: u64,
) -> Result<(), Refusal> {
    let (name, at) = (task.name.as_str(), time(alloc, due)?);
    let at = at.as_str();
    let text = format!(in alloc;
        "cronjob {name}: no replica claimed its time {at} within a minute"
    )?;
    driver.warn(text)?;
    let message = format!(in alloc; "Missed scheduled time to start a job: {at}")?;
    let mut note = event_of(alloc, task, "MissSchedule", true, message)?;
    note.is_common = true;
    push_event(driver, note)
}

/// Says that claims are refused since somebody else writes the CronJob.
pub(crate) fn tell_conflict(
    alloc: Global,
    driver: &mut Driver,
    task: &Task,
    conflicts: u64,
) -> Result<(), Refusal> {
    let name = task.name.as_str();
    let text = format!(in alloc;
        "cronjob {name}: {conflicts} claims in a row were refused since somebody else wrote it (409); reading it and claiming at once"
    )?;
    driver.warn(text)
}

/// Says that references of `status.active` name no Job.
pub(crate) fn tell_nameless(
    alloc: Global,
    driver: &mut Driver,
    task: &Task,
    count: u64,
) -> Result<(), Refusal> {
    let name = task.name.as_str();
    let text = if count == 1 {
        format!(in alloc; "cronjob {name}: status.active has a reference that names no Job")?
    } else {
        format!(in alloc; "cronjob {name}: status.active has {count} references that name no Job")?
    };
    driver.warn(text)
}

/// Says of a Job that it is left to a newer version.
pub(crate) fn tell_left_job(
    alloc: Global,
    driver: &mut Driver,
    task: &Task,
    job: &str,
) -> Result<(), Refusal> {
    let name = task.name.as_str();
    let text = format!(in alloc;
        "cronjob {name}: job {job} is held in a way that this version doesn't know: a newer version of cronsim is to start or remove it"
    )?;
    driver.warn(text)
}

fn text_in(alloc: Global, object: &Value, name: &str) -> Result<Text, Refusal> {
    match meta(object, name) {
        Some(found) => Text::new(alloc, found.as_str().unwrap_or("")),
        None => Text::new(alloc, ""),
    }
}

/// Says that somebody else writes the status of a CronJob.
pub(crate) fn say_other(
    alloc: Global,
    driver: &mut Driver,
    object: &Value,
    key: &Key,
    manager: &str,
) -> Result<(), Refusal> {
    let (namespace, name) = (key.namespace(), key.name());
    let text = format!(in alloc;
        "cronjob {namespace}/{name}: {manager} writes its status too: two controllers look after it"
    )?;
    driver.warn(text)?;
    let message = format!(in alloc;
        "{manager} writes the status too: two controllers look after this CronJob"
    )?;
    let note = EventNote {
        namespace: Text::new(alloc, namespace)?,
        name: Text::new(alloc, name)?,
        uid: text_in(alloc, object, "uid")?,
        reason: "OtherController",
        is_warning: true,
        message,
        cause: None,
        is_common: false,
    };
    push_event(driver, note)
}
