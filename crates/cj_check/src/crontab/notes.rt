// Where a CronJob would do otherwise than cron.
use crate::crontab::clock::{Clocks, push_clock_notes};
use crate::crontab::day_rule::{day_words, has_steps};
use crate::crontab::entries::Entry;
use crate::crontab::line::{Job, Line, Reboot};
use crate::crontab::setting::Setting;
use crate::crontab::when::When;
use cj_types::Refusal;
use std::alloc::{AllocError, Global};

fn push_note(alloc: Global, notes: &mut Vec<String>, note: &str) -> Result<(), AllocError> {
    let note = String::from_str(alloc, note)?;
    notes.push(note).map_err(AllocError::from)
}

// On who runs a command.
fn push_user_note(
    alloc: Global,
    notes: &mut Vec<String>,
    user: Option<&str>,
) -> Result<(), AllocError> {
    let Some(user) = user else {
        return Ok(());
    };
    let note = format!(in alloc;
        "cron runs this as {user}, a CronJob as the user of its image, or of securityContext.runAsUser"
    )?;
    notes.push(note).map_err(AllocError::from)
}

// On the fields of a schedule.
fn push_field_notes(
    alloc: Global,
    notes: &mut Vec<String>,
    job: &Job<'_>,
) -> Result<(), AllocError> {
    let When::Fields(fields) = job.when else {
        return Ok(());
    };
    if let Some(words) = day_words(&fields) {
        push_note(alloc, notes, words)?;
    }
    if has_steps(&fields) {
        push_note(
            alloc,
            notes,
            "cron takes steps behind * and ranges alone, and may take 5/10 for 5; Kubernetes takes it for 5, and every 10th after it",
        )?;
    }
    let given = job.when.given(alloc)?;
    if given.as_str() != job.text.as_str() {
        let text = job.text.as_str();
        let note = format!(in alloc;
            "Kubernetes has Sunday as 0, not as 7: the CronJob's schedule is {text}"
        )?;
        notes.push(note).map_err(AllocError::from)?;
    }
    Ok(())
}

fn job_notes(
    alloc: Global,
    notes: &mut Vec<String>,
    clocks: &Clocks<'_>,
    job: &Job<'_>,
    zone: Option<&str>,
) -> Result<(), Refusal> {
    push_field_notes(alloc, notes, job)?;
    if job.command.input.is_some() {
        push_note(
            alloc,
            notes,
            "what is behind % is the command's input; -o yaml gives it by a here-document",
        )?;
    }
    push_user_note(alloc, notes, job.user)?;
    if let Some(zone) = zone {
        if job.when.is_fixed() {
            push_clock_notes(alloc, notes, clocks, &job.schedule, zone)?;
        }
    }
    Ok(())
}

fn reboot_notes(
    alloc: Global,
    notes: &mut Vec<String>,
    _reboot: &Reboot<'_>,
) -> Result<(), AllocError> {
    push_note(
        alloc,
        notes,
        "a CronJob can't start this: no schedule is due when a machine starts. Use a DaemonSet, or a Deployment",
    )
}

// What a variable means to cron, and what becomes of it.
fn setting_words(setting: &Setting<'_>) -> &'static str {
    match setting.name {
        "MAILTO" if setting.value.is_empty() => {
            "Kubernetes sends no mail either; what a command prints is in the log of its Pod"
        }
        "MAILTO" | "MAILFROM" => {
            "Kubernetes sends no mail; what a command prints is in the log of its Pod"
        }
        "SHELL" => "the commands below are given to this shell, which the image must have",
        "PATH" => "the PATH of the image is replaced by this one",
        "HOME" => "the commands below are started in this folder",
        "CRON_TZ" => "becomes spec.timeZone of the CronJobs below",
        "TZ" => {
            "only for the commands below; cron goes by the clock of CRON_TZ or of its machine"
        }
        "RANDOM_DELAY" => {
            "cron delays each start by up to so many minutes, a CronJob none; sleep in the command"
        }
        _ => "",
    }
}

fn is_first(byte: u8) -> bool {
    byte.is_ascii_alphabetic() || matches!(byte, b'_' | b'-' | b'.')
}

fn is_later(byte: u8) -> bool {
    is_first(byte) || byte.is_ascii_digit()
}

/// Whether a Pod may have a variable of that name (Kubernetes, EnvVar).
pub(crate) fn is_variable(name: &str) -> bool {
    match name.as_bytes() {
        [first, rest @ ..] => is_first(*first) && rest.iter().all(|byte| is_later(*byte)),
        [] => false,
    }
}

fn setting_notes(
    alloc: Global,
    notes: &mut Vec<String>,
    setting: &Setting<'_>,
) -> Result<(), AllocError> {
    let words = setting_words(setting);
    if !words.is_empty() {
        push_note(alloc, notes, words)?;
    }
    if !is_variable(setting.name) {
        push_note(
            alloc,
            notes,
            "left out of the CronJobs: a variable's name is letters, digits, _, - and .",
        )?;
    }
    Ok(())
}

/// What there is to be said of a line.
pub(crate) fn notes_of(
    alloc: Global,
    clocks: &Clocks<'_>,
    entry: &Entry<'_>,
) -> Result<Vec<String>, Refusal> {
    let mut notes = Vec::new(alloc);
    match &entry.line {
        Line::Setting(setting) => setting_notes(alloc, &mut notes, setting)?,
        Line::Job(job) => job_notes(alloc, &mut notes, clocks, job, entry.zone)?,
        Line::Reboot(reboot) => reboot_notes(alloc, &mut notes, reboot)?,
        Line::Refused(_) => {}
    }
    Ok(notes)
}
