// What `crontab` prints for people.
use crate::crontab::clock::Clocks;
use crate::crontab::entries::Entry;
use crate::crontab::fault::LineFault;
use crate::crontab::line::{Job, Line};
use crate::crontab::notes::notes_of;
use crate::crontab::told::{Counts, counts_of, whole_notes};
use cj_types::Refusal;
use cj_upcoming::sentence;
use std::alloc::{AllocError, Global};

// The most characters of a command that are shown.
const MOST_SHOWN: usize = 60;

/// A schedule in a sentence, as `describe` says it, without the line end.
pub(crate) fn job_sentence(
    alloc: Global,
    job: &Job<'_>,
    zone: Option<&str>,
) -> Result<String, Refusal> {
    let zone = zone.unwrap_or("its machine");
    let text = sentence(alloc, &job.schedule, zone)?;
    Ok(String::from_str(alloc, text.as_str().trim_ascii_end())?)
}

/// A text up to the most characters that are shown.
fn shown(alloc: Global, text: &str) -> Result<String, AllocError> {
    let mut shown = String::new(alloc);
    for character in text.chars().take(MOST_SHOWN) {
        shown.push(character)?;
    }
    if shown.len() < text.len() {
        shown.push_str("..")?;
    }
    Ok(shown)
}

fn job_words(alloc: Global, job: &Job<'_>, zone: Option<&str>) -> Result<String, Refusal> {
    let sentence = job_sentence(alloc, job, zone)?;
    let command = shown(alloc, job.command.text.as_str())?;
    let (sentence, command) = (sentence.as_str(), command.as_str());
    Ok(format!(in alloc; "{sentence}: {command}")?)
}

fn setting_line(alloc: Global, name: &str, value: &str) -> Result<String, AllocError> {
    let value = shown(alloc, value)?;
    let value = value.as_str();
    format!(in alloc; "{name}={value}")
}

fn reboot_words(alloc: Global, command: &str) -> Result<String, AllocError> {
    let command = shown(alloc, command)?;
    let command = command.as_str();
    format!(in alloc; "When the machine starts: {command}")
}

/// Why a line is refused.
pub(crate) fn fault_words(alloc: Global, fault: &LineFault) -> Result<String, AllocError> {
    let text = format!(in alloc; "{fault}")?;
    String::from_str(alloc, text.as_str().trim_ascii_end())
}

fn refused_words(alloc: Global, fault: &LineFault) -> Result<String, AllocError> {
    let words = fault_words(alloc, fault)?;
    let words = words.as_str();
    format!(in alloc; "refused: {words}")
}

// What a line says.
fn words_of(alloc: Global, entry: &Entry<'_>) -> Result<String, Refusal> {
    match &entry.line {
        Line::Setting(setting) => Ok(setting_line(alloc, setting.name, setting.value)?),
        Line::Job(job) => job_words(alloc, job, entry.zone),
        Line::Reboot(reboot) => Ok(reboot_words(alloc, reboot.command.text.as_str())?),
        Line::Refused(fault) => Ok(refused_words(alloc, fault)?),
    }
}

// The notes on a line, each with its number.
fn push_notes(
    alloc: Global,
    text: &mut String,
    number: usize,
    notes: &[String],
) -> Result<(), AllocError> {
    for note in notes {
        let note = note.as_str();
        let line = format!(in alloc; "line {number}: note: {note}\n")?;
        text.push_str(line.as_str())?;
    }
    Ok(())
}

// The lines on a line of a crontab.
fn push_entry(
    alloc: Global,
    text: &mut String,
    clocks: &Clocks<'_>,
    entry: &Entry<'_>,
) -> Result<(), Refusal> {
    let number = entry.number;
    let words = words_of(alloc, entry)?;
    let words = words.as_str();
    let line = format!(in alloc; "line {number}: {words}\n")?;
    text.push_str(line.as_str())?;
    let notes = notes_of(alloc, clocks, entry)?;
    push_notes(alloc, text, number, notes.as_slice())?;
    Ok(())
}

fn plural(count: usize) -> &'static str {
    if count == 1 { "" } else { "s" }
}

/// How many lines of each kind there are, in a sentence.
pub(crate) fn total_line(alloc: Global, counts: Counts) -> Result<String, AllocError> {
    let Counts {
        jobs,
        reboots,
        refused,
    } = counts;
    let (for_jobs, for_refused) = (plural(jobs), plural(refused));
    let mut text = format!(in alloc;
        "{jobs} cron job{for_jobs}, {refused} line{for_refused} refused"
    )?;
    if reboots > 0 {
        let more = format!(in alloc; ", {reboots} of @reboot left out")?;
        text.push_str(more.as_str())?;
    }
    text.push_str("\n")?;
    Ok(text)
}

// What is said of all lines, and how many there are.
fn push_whole(
    alloc: Global,
    text: &mut String,
    entries: &[Entry<'_>],
    bytes: &[u8],
) -> Result<(), AllocError> {
    let notes = whole_notes(alloc, entries, bytes)?;
    for note in &notes {
        text.push_str("note: ")?;
        text.push_str(note.as_str())?;
        text.push_str("\n")?;
    }
    let total = total_line(alloc, counts_of(entries))?;
    text.push_str(total.as_str())
}

/// A line for each line that says something, with its notes behind it.
pub(crate) fn crontab_text(
    alloc: Global,
    clocks: &Clocks<'_>,
    entries: &[Entry<'_>],
    bytes: &[u8],
) -> Result<String, Refusal> {
    let mut text = String::new(alloc);
    for entry in entries {
        push_entry(alloc, &mut text, clocks, entry)?;
    }
    push_whole(alloc, &mut text, entries, bytes)?;
    Ok(text)
}
