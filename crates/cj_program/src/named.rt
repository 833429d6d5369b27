// The time line of a run's CronJobs that are named.
ghost use Rattle.std.specs.Prelude.{IfOk, option_map, string_bytes};
ghost use Rattle.cj_inspect.specs.Narrowing.{is_everything};
ghost use Rattle.cj_program.specs.Named as said;

use cj_args::RunRequest;
use cj_calls::{Answer, Call, Entry, Reply};
use cj_inspect::{has_no_text, is_called_one, is_everything, is_within, key_text_of, unknown_end};
use cj_report::timeline_text;
use cj_types::{Job, Key, Refusal, TryCopy};
use std::alloc::{AllocError, Global};
use std::collections::BTreeSet;
use std::slice;

// Where the name of its object begins in a line: behind the columns of the time and of the word.
const NAME_AT: usize = 34;

// ---- which CronJobs

// The CronJob that a call names.
fn cron_in(call: &Call) -> Option<&Key> {
    match call {
        Call::CreateCron(draft, _) => Some(draft.get().key.key()),
        Call::UpdateCron(draft) => Some(draft.get().key.key()),
        Call::DeleteCron(key) => Some(key),
        _ => None,
    }
}

// The Job that an answer is.
fn job_in(answer: &Answer) -> Option<&Job> {
    match answer {
        Ok(Reply::Job(job)) => Some(job.get()),
        _ => None,
    }
}

// Whether one of the texts names the CronJob.
fn is_named(
    alloc: Global,
    within: Option<&str>,
    texts: &[&str],
    namespace: &str,
    name: &str,
) -> Result<bool, Refusal> {
    let key = key_text_of(alloc, namespace, name)?;
    let is_within = is_within(within, namespace);
    let is_called = is_called_one(within, texts, key.as_str(), namespace, name);
    Ok(is_within && is_called)
}

// Whether the entry's call names a CronJob that is called one of the texts.
fn is_of(
    alloc: Global,
    within: Option<&str>,
    texts: &[&str],
    entry: &Entry,
) -> Result<bool, Refusal> {
    match cron_in(entry.call()) {
        Some(key) => is_named(alloc, within, texts, key.namespace(), key.name()),
        None => Ok(false),
    }
}

// Whether one of the entries is of a CronJob that is called one of the texts.
fn has_event(
    alloc: Global,
    within: Option<&str>,
    texts: &[&str],
    entries: &[Entry],
) -> Result<bool, Refusal> {
    for entry in entries {
        if is_of(alloc, within, texts, entry)? {
            return Ok(true);
        }
    }
    Ok(false)
}

fn unknown_line(alloc: Global, text: &str) -> Result<String, AllocError> {
    let end = unknown_end();
    format!(in alloc; "--cron: no event is of a CronJob {text}{end}")
}

fn push_unknown(
    alloc: Global,
    lines: &mut String,
    within: Option<&str>,
    text: &&str,
    entries: &[Entry],
) -> Result<(), Refusal> {
    if !has_event(alloc, within, slice::from_ref(text), entries)? {
        let line = unknown_line(alloc, text)?;
        lines.push_str(line.as_str())?;
    }
    Ok(())
}

// A line for each text that no CronJob of the entries is called.
fn unknown_lines(
    alloc: Global,
    within: Option<&str>,
    texts: &[&str],
    entries: &[Entry],
) -> Result<String, Refusal> {
    let mut lines = String::new(alloc);
    for text in texts {
        push_unknown(alloc, &mut lines, within, text, entries)?;
    }
    Ok(lines)
}

/// A line for each CronJob that is named and is in no event, where a time line is asked for.
pub(crate) fn unknown_of(
    alloc: Global,
    run: &RunRequest<'_>,
    entries: &[Entry],
) -> Result<String, Refusal> {
    if run.timeline {
        unknown_lines(alloc, run.namespace, run.crons.as_slice(), entries)
    } else {
        Ok(String::new(alloc))
    }
}

// ---- which objects

fn note_key(alloc: Global, keys: &mut BTreeSet<Key>, key: &Key) -> Result<(), Refusal> {
    let key = key.try_copy(alloc)?;
    match keys.insert(key) {
        Ok(_) => Ok(()),
        Err(_) => Err(Refusal::OutOfMemory),
    }
}

// Adds the key of the CronJob that the entry names, if it is named.
fn note_cron(
    alloc: Global,
    keys: &mut BTreeSet<Key>,
    within: Option<&str>,
    texts: &[&str],
    entry: &Entry,
) -> Result<(), Refusal> {
    let Some(key) = cron_in(entry.call()) else {
        return Ok(());
    };
    if is_named(alloc, within, texts, key.namespace(), key.name())? {
        note_key(alloc, keys, key)?;
    }
    Ok(())
}

// Adds the key of the Job that the entry's answer is, if its owner reference names a CronJob that
// is named.
fn note_job(
    alloc: Global,
    keys: &mut BTreeSet<Key>,
    within: Option<&str>,
    texts: &[&str],
    entry: &Entry,
) -> Result<(), Refusal> {
    let Some(job) = job_in(entry.answer()) else {
        return Ok(());
    };
    let Some(cron) = job.cron_name() else {
        return Ok(());
    };
    if is_named(alloc, within, texts, job.key.namespace(), cron.as_str())? {
        note_key(alloc, keys, &job.key)?;
    }
    Ok(())
}

// The keys of the CronJobs that are named, and of their Jobs.
fn keys_of(
    alloc: Global,
    within: Option<&str>,
    texts: &[&str],
    entries: &[Entry],
) -> Result<BTreeSet<Key>, Refusal> {
    let mut keys = BTreeSet::new(alloc);
    for entry in entries {
        note_cron(alloc, &mut keys, within, texts, entry)?;
        note_job(alloc, &mut keys, within, texts, entry)?;
    }
    Ok(keys)
}

// ---- their lines

// Namespace and name of the object of a line.
fn object_in(line: &str) -> Option<(&str, &str)> {
    let (_, rest) = line.split_at_checked(NAME_AT)?;
    let (name, _) = rest.split_once(' ')?;
    name.split_once('/')
}

fn is_key(
    alloc: Global,
    keys: &BTreeSet<Key>,
    namespace: &str,
    name: &str,
) -> Result<bool, Refusal> {
    match Key::new(alloc, namespace, name) {
        Ok(key) => Ok(keys.contains(&key)),
        Err(Refusal::OutOfMemory) => Err(Refusal::OutOfMemory),
        Err(_) => Ok(false),
    }
}

// Whether the line is the heading, or of an object that is asked about: of one of the keys, or
// where no CronJob is named of any in the namespace.
fn is_kept(
    alloc: Global,
    within: Option<&str>,
    texts: &[&str],
    keys: &BTreeSet<Key>,
    line: &str,
) -> Result<bool, Refusal> {
    if line.starts_with("TIME ") {
        return Ok(true);
    }
    let Some((namespace, name)) = object_in(line) else {
        return Ok(false);
    };
    if !is_within(within, namespace) {
        return Ok(false);
    }
    if has_no_text(texts) {
        return Ok(true);
    }
    is_key(alloc, keys, namespace, name)
}

fn push_line(text: &mut String, line: &str) -> Result<(), AllocError> {
    text.push_str(line)?;
    text.push_str("\n")
}

// Adds the line, or leaves it out.
fn push_kept(
    alloc: Global,
    text: &mut String,
    within: Option<&str>,
    texts: &[&str],
    keys: &BTreeSet<Key>,
    line: &str,
) -> Result<(), Refusal> {
    if is_kept(alloc, within, texts, keys, line)? {
        push_line(text, line)?;
    }
    Ok(())
}

// The lines that are kept of a whole time line.
fn kept_lines(
    alloc: Global,
    within: Option<&str>,
    texts: &[&str],
    keys: &BTreeSet<Key>,
    whole: &str,
) -> Result<String, Refusal> {
    let mut text = String::new(alloc);
    for line in whole.lines() {
        push_kept(alloc, &mut text, within, texts, keys, line)?;
    }
    Ok(text)
}

// The lines of the CronJobs that are named and of their Jobs, or of all objects of a namespace.
fn part_text(
    alloc: Global,
    within: Option<&str>,
    texts: &[&str],
    entries: &[Entry],
) -> Result<String, Refusal> {
    let whole = timeline_text(alloc, entries)?;
    let keys = keys_of(alloc, within, texts, entries)?;
    kept_lines(alloc, within, texts, &keys, whole.as_str())
}

/// The time line of a run: of all objects, or of those that are asked about.
pub(crate) fn asked_timeline(
    alloc: Global,
    run: &RunRequest<'_>,
    entries: &[Entry],
) -> Result<String, Refusal>
    ensures { IfOk result (λ s. said.IsAskedTimeline (is_everything
        (option_map (λ s. s.now) run.now.namespace) run.now.crons.items) entries.now
        (string_bytes s)) }
{
    let texts = run.crons.as_slice();
    if is_everything(run.namespace, texts) {
        timeline_text(alloc, entries)
    } else {
        part_text(alloc, run.namespace, texts, entries)
    }
}
