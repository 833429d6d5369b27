// What `crontab` prints as JSON.
use crate::crontab::clock::Clocks;
use crate::crontab::command::Command;
use crate::crontab::entries::Entry;
use crate::crontab::line::{Job, Line, Reboot};
use crate::crontab::lines::{fault_words, job_sentence};
use crate::crontab::notes::notes_of;
use crate::crontab::setting::Setting;
use crate::crontab::told::whole_notes;
use cj_answers::value_line;
use cj_base::{all_three, both};
use cj_json::{object_of, push_value, text_or_null};
use cj_types::Refusal;
use serde_json::{Value, json};
use std::alloc::{AllocError, Global};

// Texts as a list.
fn texts_value(alloc: Global, texts: &[String]) -> Result<Value, Refusal> {
    let mut values = Vec::new(alloc);
    for text in texts {
        let value = Value::try_from_str(alloc, text.as_str())?;
        push_value(&mut values, value)?;
    }
    Ok(Value::Array(values))
}

fn number_value(number: usize) -> Value {
    Value::from(number as u64)
}

fn input_value(alloc: Global, input: &Option<String>) -> Result<Value, Refusal> {
    match input {
        Some(text) => text_or_null(alloc, Some(text.as_str())),
        None => Ok(Value::Null),
    }
}

// A command, its input, and who runs it.
fn command_values(
    alloc: Global,
    command: &Command,
    user: Option<&str>,
) -> Result<(Value, Value, Value), Refusal> {
    all_three(
        text_or_null(alloc, Some(command.text.as_str())),
        input_value(alloc, &command.input),
        text_or_null(alloc, user),
    )
}

fn setting_value(
    alloc: Global,
    number: Value,
    notes: Value,
    setting: &Setting<'_>,
) -> Result<Value, AllocError> {
    let Setting { name, value } = *setting;
    json!(in alloc; {
        "kind": "variable",
        "line": number,
        "name": name,
        "notes": notes,
        "value": value
    })
}

// The names of the members of a reboot's line.
const REBOOT_NAMES: &[&str] = &["command", "input", "kind", "line", "notes", "user"];

fn reboot_object(
    alloc: Global,
    kind: Value,
    number: Value,
    notes: Value,
    started: (Value, Value, Value),
) -> Result<Value, AllocError> {
    let (command, input, user) = started;
    let values = [command, input, kind, number, notes, user];
    object_of(alloc, REBOOT_NAMES, values)
}

fn reboot_value(
    alloc: Global,
    number: Value,
    notes: Value,
    reboot: &Reboot<'_>,
) -> Result<Value, Refusal> {
    let (kind, started) = both(
        text_or_null(alloc, Some("reboot")),
        command_values(alloc, &reboot.command, reboot.user),
    )?;
    Ok(reboot_object(alloc, kind, number, notes, started)?)
}

// The schedule of a line as it is written, as Kubernetes takes it, and in a sentence.
fn schedule_values(
    alloc: Global,
    job: &Job<'_>,
    zone: Option<&str>,
) -> Result<(Value, Value, Value), Refusal> {
    let given = Value::String(job.when.given(alloc)?);
    let sentence = Value::String(job_sentence(alloc, job, zone)?);
    let schedule = Value::try_from_str(alloc, job.text.as_str())?;
    Ok((given, schedule, sentence))
}

// The names of the members of a Job's line.
const JOB_NAMES: &[&str] = &[
    "command", "given", "input", "kind", "line", "notes", "schedule", "sentence", "timeZone",
    "user",
];

fn job_object(
    alloc: Global,
    words: (Value, Value),
    number: Value,
    notes: Value,
    when: (Value, Value, Value),
    started: (Value, Value, Value),
) -> Result<Value, AllocError> {
    let (kind, zone) = words;
    let (given, schedule, sentence) = when;
    let (command, input, user) = started;
    let values = [
        command, given, input, kind, number, notes, schedule, sentence, zone, user,
    ];
    object_of(alloc, JOB_NAMES, values)
}

fn job_value(
    alloc: Global,
    number: Value,
    notes: Value,
    job: &Job<'_>,
    zone: Option<&str>,
) -> Result<Value, Refusal> {
    let (words, when, started) = all_three(
        both(text_or_null(alloc, Some("job")), text_or_null(alloc, zone)),
        schedule_values(alloc, job, zone),
        command_values(alloc, &job.command, job.user),
    )?;
    Ok(job_object(alloc, words, number, notes, when, started)?)
}

fn refused_value(alloc: Global, number: Value, words: &str) -> Result<Value, AllocError> {
    json!(in alloc; {
        "kind": "refused",
        "line": number,
        "notes": [],
        "words": words
    })
}

fn entry_value(alloc: Global, clocks: &Clocks<'_>, entry: &Entry<'_>) -> Result<Value, Refusal> {
    let number = number_value(entry.number);
    let notes = notes_of(alloc, clocks, entry)?;
    let notes = texts_value(alloc, notes.as_slice())?;
    match &entry.line {
        Line::Setting(setting) => Ok(setting_value(alloc, number, notes, setting)?),
        Line::Job(job) => job_value(alloc, number, notes, job, entry.zone),
        Line::Reboot(reboot) => reboot_value(alloc, number, notes, reboot),
        Line::Refused(fault) => {
            let words = fault_words(alloc, fault)?;
            Ok(refused_value(alloc, number, words.as_str())?)
        }
    }
}

fn entry_values(
    alloc: Global,
    clocks: &Clocks<'_>,
    entries: &[Entry<'_>],
) -> Result<Vec<Value>, Refusal> {
    let mut values = Vec::new(alloc);
    for entry in entries {
        let value = entry_value(alloc, clocks, entry)?;
        push_value(&mut values, value)?;
    }
    Ok(values)
}

fn whole_value(alloc: Global, file: &str, lines: Value, notes: Value) -> Result<Value, AllocError> {
    json!(in alloc; {"file": file, "lines": lines, "notes": notes})
}

/// The lines that say something and what there is to be said of all, as one JSON value.
pub(crate) fn crontab_json(
    alloc: Global,
    file: &str,
    clocks: &Clocks<'_>,
    entries: &[Entry<'_>],
    bytes: &[u8],
) -> Result<String, Refusal> {
    let lines = Value::Array(entry_values(alloc, clocks, entries)?);
    let notes = whole_notes(alloc, entries, bytes)?;
    let notes = texts_value(alloc, notes.as_slice())?;
    let value = whole_value(alloc, file, lines, notes)?;
    Ok(value_line(alloc, &value)?)
}
