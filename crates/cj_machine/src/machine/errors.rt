// What people are told of calls that the API server refused, or didn't answer as it should.

use crate::machine::driver::Driver;
use crate::machine::events::{event_of, push_event};
use crate::machine::task::Task;
use cj_base::{Refusal, Text};
use cj_control::{parts, text_at};
use cj_fence::Call;
use serde_json::Value;
use std::alloc::Global;

fn verb(call: &Call) -> &'static str {
    match call {
        Call::GetCron(_) => "the GET of the CronJob",
        Call::GetJob(_) => "the GET of a Job",
        Call::Create(_, _) => "the creation of its Job",
        Call::Claim(_) => "the claim in its status",
        Call::Tidy(_) => "the write of its status",
        Call::Start(_) => "the start of its Job",
        Call::Delete(_) => "the deletion of a Job",
        Call::Expire(_, _, _) => "the deletion of a Job",
        Call::CacheCron(_) | Call::CacheJob(_) | Call::ListJobs => "nothing",
    }
}

// The Job that a call is about, as NAMESPACE/NAME; empty where it is about none.
fn job_of(call: &Call) -> &str {
    match call {
        Call::GetJob(name) | Call::Create(name, _) => name.as_str(),
        Call::Claim(claim) => claim.job.name.as_str(),
        Call::Start(job) | Call::Delete(job) | Call::Expire(job, _, _) => job.name.as_str(),
        _ => "",
    }
}

// A text without the name of a Job, of which each minute has another: so errors are compared.
fn without_job(alloc: Global, text: &str, job: &str) -> Result<String, Refusal> {
    let (_, name) = parts(job);
    if name.is_empty() {
        return Ok(String::from_str(alloc, text)?);
    }
    let mut left = String::new(alloc);
    for part in text.split(name) {
        left.push_str(part)?;
    }
    Ok(left)
}

// How often an error came since people were told of it.
fn times_words(alloc: Global, times: u64) -> Result<String, Refusal> {
    match times {
        0 => Ok(String::new(alloc)),
        1 => Ok(String::from_str(alloc, " (once more since the last such line)")?),
        _ => Ok(format!(in alloc; " ({times} times more since the last such line)")?),
    }
}

// Tells people of an error in these words, once an hour; its Job's name doesn't count.
fn warn_once(
    alloc: Global,
    driver: &mut Driver,
    task: &mut Task,
    words: &str,
    job: &str,
) -> Result<(), Refusal> {
    let cause = Text::from_string(without_job(alloc, words, job)?);
    let Some(times) = task.errors.come(cause, driver.hour())? else {
        return Ok(());
    };
    let (name, times) = (task.name.as_str(), times_words(alloc, times)?);
    let times = times.as_str();
    let text = format!(in alloc; "cronjob {name}: {words}{times}")?;
    driver.warn(text)
}

// An Event of an error is to be told; its Job's name doesn't count.
fn note_error(
    alloc: Global,
    driver: &mut Driver,
    task: &Task,
    reason: &'static str,
    message: String,
    job: &str,
) -> Result<(), Refusal> {
    let cause = without_job(alloc, message.as_str(), job)?;
    let mut note = event_of(alloc, task, reason, true, message)?;
    note.cause = Some(cause);
    push_event(driver, note)
}

// Whether a status is a refusal that people should know of.
fn is_told(status: u64) -> bool {
    !matches!(status, 0 | 200 | 201 | 202 | 404 | 409 | 410 | 422)
}

/// Says that the Jobs of a CronJob could not be listed.
pub(crate) fn say_unlisted(
    alloc: Global,
    driver: &mut Driver,
    task: &mut Task,
) -> Result<(), Refusal> {
    if !is_told(task.status) {
        return Ok(());
    }
    let status = task.status;
    let words = format!(in alloc; "the API server answered {status} to the list of its Jobs")?;
    warn_once(alloc, driver, task, words.as_str(), "")
}

/// Says that the list of the Jobs of a CronJob has one that can't be read.
pub(crate) fn say_unread_list(
    alloc: Global,
    driver: &mut Driver,
    task: &mut Task,
) -> Result<(), Refusal> {
    let words = "can't read the API server's list of its Jobs; asking again later";
    warn_once(alloc, driver, task, words, "")
}

/// Says that the API server refused a call, where people should know it.
pub(crate) fn say_refused(
    alloc: Global,
    driver: &mut Driver,
    task: &mut Task,
    call: &Call,
    body: Option<&Value>,
) -> Result<(), Refusal> {
    if !is_told(task.status) {
        return Ok(());
    }
    let (status, what, why) = (task.status, verb(call), server_words(alloc, body)?);
    let why = why.as_str();
    let words = format!(in alloc; "the API server answered {status} to {what}{why}")?;
    warn_once(alloc, driver, task, words.as_str(), job_of(call))
}

// What a server says of a refusal, with a colon before it.
fn server_words(alloc: Global, body: Option<&Value>) -> Result<String, Refusal> {
    match message_in(body) {
        Some(message) => Ok(format!(in alloc; ": {message}")?),
        None => Ok(String::new(alloc)),
    }
}

// What an answer says: an API server's in its message, a proxy's often as an error.
fn message_in(body: Option<&Value>) -> Option<&str> {
    let body = body?;
    text_at(body, "message").or(text_at(body, "error"))
}

// What an answer says, or that it says nothing.
fn words_in(alloc: Global, status: u64, body: Option<&Value>) -> Result<String, Refusal> {
    match message_in(body) {
        Some(message) => Ok(String::from_str(alloc, message)?),
        None => Ok(format!(in alloc; "{status}, and no reason")?),
    }
}

// What a server says to the creation of a Job that it didn't create, or not as it was sent.
fn creation_words(alloc: Global, status: u64, body: Option<&Value>) -> Result<String, Refusal> {
    if status == 201 {
        return Ok(String::from_str(
            alloc,
            "it was created otherwise than it was sent, as by an admission webhook",
        )?);
    }
    words_in(alloc, status, body)
}

/// Says that the creation of a Job was refused, other than by its name: each time by an Event, and
/// in a line once an hour.
pub(crate) fn say_unmade(
    alloc: Global,
    driver: &mut Driver,
    task: &mut Task,
    job: &str,
    body: Option<&Value>,
) -> Result<(), Refusal> {
    driver.numbers.refused_creates = driver.numbers.refused_creates.saturating_add(1);
    let (status, why) = (task.status, creation_words(alloc, task.status, body)?);
    let why = why.as_str();
    let words = format!(in alloc;
        "the API server answered {status} to the creation of its Job: {why}"
    )?;
    warn_once(alloc, driver, task, words.as_str(), job)?;
    let message = format!(in alloc; "Error creating job: {why}")?;
    note_error(alloc, driver, task, "FailedCreate", message, job)
}

// What an answer says to the GET of a Job that it doesn't tell of.
fn reading_words(alloc: Global, status: u64, body: Option<&Value>) -> Result<String, Refusal> {
    if status == 200 {
        return Ok(String::from_str(alloc, "it is no Job of that name")?);
    }
    words_in(alloc, status, body)
}

/// Says that a Job could not be read, so that none is started: each time by an Event, and in a line
/// once an hour.
pub(crate) fn say_unread_job(
    alloc: Global,
    driver: &mut Driver,
    task: &mut Task,
    job: &str,
    body: Option<&Value>,
) -> Result<(), Refusal> {
    let (status, why) = (task.status, reading_words(alloc, task.status, body)?);
    let (why, short) = (why.as_str(), parts(job).1);
    let words = format!(in alloc;
        "the API server answered {status} to the GET of job {job}: {why}; no job starts until that one is read"
    )?;
    warn_once(alloc, driver, task, words.as_str(), job)?;
    let message = format!(in alloc; "Error getting job {short}: {why}")?;
    note_error(alloc, driver, task, "FailedGet", message, job)
}
