// Events that a controller tells (v1, Event).

use crate::machine::driver::Driver;
use crate::machine::event_log::{EventRow, Telling};
use crate::machine::steps;
use crate::machine::task::Task;
use cj_base::{Refusal, Seconds, Text, TryCopy, all_four, all_three, both};
use cj_control::{Ledger, mark_of};
use cj_json::{object_of, text_or_null, time_value};
use serde_json::{Value, json};
use std::alloc::{AllocError, Global};

/// How many requests for Events are sent in a minute at most.
pub(crate) const MOST_EVENTS: u64 = 1_200;

// How many Events may wait to be told.
const MOST_WAITING: usize = 10_000;

/// An Event of a CronJob that is to be told.
pub(crate) struct EventNote {
    pub namespace: Text,
    pub name: Text,
    pub uid: Text,
    pub reason: &'static str,
    pub is_warning: bool,
    pub message: String,
    /// What it is counted by in place of its message, if that differs each time.
    pub cause: Option<String>,
    /// Whether all replicas tell it as one.
    pub is_common: bool,
}

impl Drop for EventNote {
    fn drop(self) {
        let EventNote {
            namespace,
            name,
            uid,
            reason: _,
            is_warning: _,
            message,
            cause,
            is_common: _,
        } = self;
        drop(namespace);
        drop(name);
        drop(uid);
        drop(message);
        drop(cause);
    }
}

fn kind(is_warning: bool) -> &'static str {
    if is_warning { "Warning" } else { "Normal" }
}

fn text_value(alloc: Global, text: &str) -> Result<Value, Refusal> {
    text_or_null(alloc, Some(text))
}

// The names of the members of the object that an Event is of.
const OBJECT_NAMES: &[&str] = &["apiVersion", "kind", "name", "namespace", "uid"];

fn object(alloc: Global, api: &str, note: &EventNote) -> Result<Value, Refusal> {
    let ((api, kind), (name, namespace, uid)) = both(
        both(text_value(alloc, api), text_value(alloc, "CronJob")),
        all_three(
            text_value(alloc, note.name.as_str()),
            text_value(alloc, note.namespace.as_str()),
            text_value(alloc, note.uid.as_str()),
        ),
    )?;
    let values = [api, kind, name, namespace, uid];
    Ok(object_of(alloc, OBJECT_NAMES, values)?)
}

// What an Event is counted by.
fn cause(note: &EventNote) -> &str {
    match &note.cause {
        Some(cause) => cause.as_str(),
        None => note.message.as_str(),
    }
}

// The name of an Event: what it says of which object, and who tells it.
fn event_name(alloc: Global, note: &EventNote, replica: &str) -> Result<Text, Refusal> {
    let (name, uid) = (note.name.as_str(), note.uid.as_str());
    let (reason, cause) = (note.reason, cause(note));
    let replica = if note.is_common { "" } else { replica };
    let said = format!(in alloc; "{uid} {reason} {replica} {cause}")?;
    let mark = mark_of(alloc, said.as_str())?;
    let mark = mark.as_str();
    Ok(Text::from_string(format!(in alloc; "{name}.{mark}")?))
}

fn metadata(alloc: Global, note: &EventNote, name: &str) -> Result<Value, Refusal> {
    Ok(json!(in alloc; {"name": name, "namespace": note.namespace.as_str()})?)
}

fn source(alloc: Global) -> Result<Value, Refusal> {
    Ok(json!(in alloc; {"component": "cronsim-control"})?)
}

// What every Event says: the version of the API, its kind, and who tells it.
fn head_values(alloc: Global) -> Result<(Value, Value, Value), Refusal> {
    all_three(
        text_value(alloc, "v1"),
        text_value(alloc, "Event"),
        source(alloc),
    )
}

// The message, its reason, and the type.
fn word_values(alloc: Global, note: &EventNote) -> Result<(Value, Value, Value), Refusal> {
    all_three(
        text_value(alloc, note.message.as_str()),
        text_value(alloc, note.reason),
        text_value(alloc, kind(note.is_warning)),
    )
}

// The names of an Event's members.
const EVENT_NAMES: &[&str] = &[
    "apiVersion",
    "count",
    "firstTimestamp",
    "involvedObject",
    "kind",
    "lastTimestamp",
    "message",
    "metadata",
    "reason",
    "source",
    "type",
];

fn event_object(
    alloc: Global,
    head: (Value, Value, Value),
    times: (Value, Value),
    about: (Value, Value),
    words: (Value, Value, Value),
) -> Result<Value, AllocError> {
    let (api, kind, source) = head;
    let (first, last) = times;
    let (metadata, object) = about;
    let (message, reason, sort) = words;
    let count = Value::from(1u64);
    let values = [
        api, count, first, object, kind, last, message, metadata, reason, source, sort,
    ];
    object_of(alloc, EVENT_NAMES, values)
}

// The Event, told at a moment.
fn body(
    alloc: Global,
    api: &str,
    note: &EventNote,
    name: &str,
    now: Seconds,
) -> Result<Value, Refusal> {
    let (head, times, about, words) = all_four(
        head_values(alloc),
        both(time_value(alloc, now), time_value(alloc, now)),
        both(metadata(alloc, note, name), object(alloc, api, note)),
        word_values(alloc, note),
    )?;
    Ok(event_object(alloc, head, times, about, words)?)
}

/// An Event is to be told, unless too many wait.
pub(crate) fn push_event(driver: &mut Driver, note: EventNote) -> Result<(), Refusal> {
    if driver.options.dry_run || driver.events.len() >= MOST_WAITING {
        return Ok(());
    }
    driver.events.push(note).map_err(|_| Refusal::OutOfMemory)
}

/// An Event of the sync's CronJob.
pub(crate) fn event_of(
    alloc: Global,
    task: &Task,
    reason: &'static str,
    is_warning: bool,
    message: String,
) -> Result<EventNote, Refusal> {
    Ok(EventNote {
        namespace: task.parts.head.namespace.try_copy(alloc)?,
        name: task.parts.head.name.try_copy(alloc)?,
        uid: task.parts.head.uid.try_copy(alloc)?,
        reason,
        is_warning,
        message,
        cause: None,
        is_common: false,
    })
}

/// An Event of the sync's CronJob is to be told.
pub(crate) fn note_event(
    alloc: Global,
    driver: &mut Driver,
    task: &Task,
    reason: &'static str,
    is_warning: bool,
    message: String,
) -> Result<(), Refusal> {
    let note = event_of(alloc, task, reason, is_warning, message)?;
    push_event(driver, note)
}

// A merge patch with how often an Event came.
fn count_body(alloc: Global, count: u64, now: Seconds) -> Result<Value, Refusal> {
    let last = time_value(alloc, now)?;
    Ok(json!(in alloc; {"count": count, "lastTimestamp": last})?)
}

// The row of an Event that is told now.
fn row_of(alloc: Global, note: &EventNote, name: &Text, now: u64) -> Result<EventRow, Refusal> {
    Ok(EventRow {
        namespace: note.namespace.try_copy(alloc)?,
        name: name.try_copy(alloc)?,
        count: 1,
        written_at: now,
        id: None,
    })
}

// An Event is created, or counted.
fn tell_note(
    ledger: &mut Ledger,
    driver: &mut Driver,
    alloc: Global,
    note: &EventNote,
    now: Seconds,
) -> Result<(), Refusal> {
    let name = event_name(alloc, note, driver.options.replica.as_str())?;
    let (namespace, at) = (note.namespace.as_str(), driver.now());
    match driver.event_log.come(namespace, name.as_str(), at) {
        Telling::Nothing => Ok(()),
        Telling::Count(count) => {
            driver.events_left = driver.events_left.saturating_sub(1);
            let body = count_body(alloc, count, now)?;
            let id = steps::count(ledger, alloc, namespace, name.as_str(), body)?;
            driver.event_log.set_id(namespace, name.as_str(), id);
            Ok(())
        }
        Telling::Create => {
            driver.events_left = driver.events_left.saturating_sub(1);
            let row = row_of(alloc, note, &name, at)?;
            let body = body(alloc, driver.options.api.text(), note, name.as_str(), now)?;
            steps::tell(ledger, alloc, namespace, body)?;
            driver.event_log.add(row)
        }
    }
}

/// An Event is told, where one is to be and this minute has room; whether one was.
pub(crate) fn tell_event(
    ledger: &mut Ledger,
    driver: &mut Driver,
    alloc: Global,
) -> Result<bool, Refusal> {
    if driver.events.is_empty() || driver.events_left == 0 {
        return Ok(false);
    }
    let Some(now) = Seconds::new(driver.now()) else {
        return Ok(false);
    };
    let note = driver.events.remove(0);
    tell_note(ledger, driver, alloc, &note, now)?;
    Ok(true)
}
