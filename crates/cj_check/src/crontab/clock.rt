// Where cron and a CronJob differ when a zone's clock is put forward or back.
use cj_schedule::Schedule;
use cj_types::{Refusal, Seconds};
use cj_upcoming::named_changes_text;
use cj_zone::{Zone, ZoneTable};
use std::alloc::{AllocError, Global};

// 366 days.
const YEAR: u64 = 31_622_400;

/// The zones of a crontab, and from when on their clocks are looked at.
#[derive(Clone, Copy)]
pub(crate) struct Clocks<'z> {
    pub zones: &'z ZoneTable,
    pub moment: Option<Seconds>,
}

// The end of a year that begins at a moment.
fn year_after(moment: Seconds) -> Seconds {
    match Seconds::new(moment.get().saturating_add(YEAR)) {
        Some(end) => end,
        None => moment,
    }
}

// What cron does at a change of the clock, and what a CronJob does.
fn change_words(line: &str) -> &'static str {
    if line.contains("is skipped") {
        "; cron starts this once right after it, a CronJob doesn't start it"
    } else {
        "; cron starts this once, a CronJob twice"
    }
}

// The lines, each with these words behind it.
fn push_lines(alloc: Global, notes: &mut Vec<String>, lines: &str) -> Result<(), AllocError> {
    let mut rest = lines;
    while let Some((line, more)) = rest.split_once('\n') {
        let words = change_words(line);
        let note = format!(in alloc; "{line}{words}")?;
        notes.push(note).map_err(AllocError::from)?;
        rest = more;
    }
    Ok(())
}

// The changes of a zone's clock in the year after a moment at which local times that the schedule
// names are skipped or come twice.
fn change_lines(
    alloc: Global,
    schedule: &Schedule,
    zone: &Zone,
    moment: Seconds,
) -> Result<String, Refusal> {
    let utc = ZoneTable::new(alloc)?;
    let end = year_after(moment);
    named_changes_text(alloc, schedule, zone, utc.default_zone(), moment, end)
}

/// A note for each such change, of a command that is started at fixed times.
pub(crate) fn push_clock_notes(
    alloc: Global,
    notes: &mut Vec<String>,
    clocks: &Clocks<'_>,
    schedule: &Schedule,
    zone: &str,
) -> Result<(), Refusal> {
    if let (Some(zone), Some(moment)) = (clocks.zones.get(zone), clocks.moment) {
        let lines = change_lines(alloc, schedule, zone, moment)?;
        push_lines(alloc, notes, lines.as_str())?;
    }
    Ok(())
}
