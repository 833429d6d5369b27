// What is said of a crontab as a whole.
use crate::crontab::entries::Entry;
use crate::crontab::line::{Job, Line};
use crate::crontab::when::next_word;
use std::alloc::{AllocError, Global};

/// How many lines of each kind there are.
#[derive(Clone, Copy)]
pub(crate) struct Counts {
    pub jobs: usize,
    pub reboots: usize,
    pub refused: usize,
}

/// How many lines of each kind there are.
pub(crate) fn counts_of(entries: &[Entry<'_>]) -> Counts {
    let mut counts = Counts {
        jobs: 0,
        reboots: 0,
        refused: 0,
    };
    for entry in entries {
        match &entry.line {
            Line::Job(_) => counts.jobs = counts.jobs.saturating_add(1),
            Line::Reboot(_) => counts.reboots = counts.reboots.saturating_add(1),
            Line::Refused(_) => counts.refused = counts.refused.saturating_add(1),
            Line::Setting(_) => {}
        }
    }
    counts
}

fn job_in<'e, 'a>(entry: &'e Entry<'a>) -> Option<&'e Job<'a>> {
    match &entry.line {
        Line::Job(job) => Some(job),
        _ => None,
    }
}

// Whether a word is the name of a user that machines have.
fn is_known_user(word: &str) -> bool {
    matches!(
        word,
        "root" | "daemon" | "nobody" | "www-data" | "postgres" | "mysql"
    )
}

fn begins_with_user(entry: &Entry<'_>) -> bool {
    match job_in(entry) {
        Some(job) => job.user.is_none() && is_known_user(next_word(job.command.text.as_str()).0),
        None => true,
    }
}

fn has_job(entries: &[Entry<'_>]) -> bool {
    entries.iter().any(|entry| job_in(entry).is_some())
}

// Whether each command seems to begin with a user.
fn seems_of_system(entries: &[Entry<'_>]) -> bool {
    has_job(entries) && entries.iter().all(|entry| begins_with_user(entry))
}

fn lacks_zone(entry: &Entry<'_>) -> bool {
    job_in(entry).is_some() && entry.zone.is_none()
}

fn push_note(alloc: Global, notes: &mut Vec<String>, note: &str) -> Result<(), AllocError> {
    let note = String::from_str(alloc, note)?;
    notes.push(note).map_err(AllocError::from)
}

/// What there is to be said of all lines.
pub(crate) fn whole_notes(
    alloc: Global,
    entries: &[Entry<'_>],
    bytes: &[u8],
) -> Result<Vec<String>, AllocError> {
    let mut notes = Vec::new(alloc);
    if seems_of_system(entries) {
        push_note(
            alloc,
            &mut notes,
            "each command begins with the name of a user: for /etc/crontab and files of /etc/cron.d give --system",
        )?;
    }
    if entries.iter().any(|entry| lacks_zone(entry)) {
        push_note(
            alloc,
            &mut notes,
            "cron goes by the clock of its machine, a CronJob without spec.timeZone by that of kube-controller-manager, mostly UTC; --time-zone Europe/Berlin says which is meant. If that clock is put forward or back, cron starts a command at fixed times once, a CronJob skips it or starts it twice",
        )?;
    }
    if !matches!(bytes, [] | [.., b'\n']) {
        push_note(
            alloc,
            &mut notes,
            "the last line has no line end, and cron may refuse or ignore it",
        )?;
    }
    Ok(notes)
}
