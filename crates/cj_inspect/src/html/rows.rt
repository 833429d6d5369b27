// A row of the table of CronJobs.
ghost use Rattle.std.specs.Prelude.{◌≡◌, IfErr, Some, codes};
ghost use Rattle.cj_base.specs.declared.refusal.Refusal.TheVariants.{OutOfMemory};
ghost use Rattle.cj_zone.specs.Table.{local_zone, zones_of};
ghost use Rattle.cj_zone.specs.Zones.{utc_zone};

use crate::html::clock::clock_text;
use crate::html::seen::SeenCron;
use crate::html::text::{push_between, push_cell, push_lines, push_text};
use cj_due::Missed;
use cj_schedule::Schedule;
use cj_types::{CronJob, CronSpec, Policy, Refusal, Seconds, Text};
use cj_upcoming::sentence;
use cj_why::{CronRow, zone_of};
use cj_zone::{ZoneTable, local, time_text};
use std::alloc::{AllocError, Global};

/// The name of the zone of a CronJob.
pub(crate) fn zone_name(zone: &Option<Text>) -> &str {
    match zone {
        Some(name) => name.as_str(),
        None => "UTC",
    }
}

/// The name of a CronJob, as the head of its row.
pub(crate) fn push_name(text: &mut String, cron: &CronJob) -> Result<(), AllocError> {
    let key = cron.key.key();
    push_between(text, "<th scope=\"row\">", key.namespace(), "/<wbr>")?;
    push_between(text, "", key.name(), "</th>\n")
}

// The schedule in words; nothing where its text is none.
fn words_of(alloc: Global, spec: &CronSpec) -> Result<String, Refusal>
    ensures err { IfErr result (λ e. e ≡ OutOfMemory) }
{
    match Schedule::parse(spec.schedule.as_str()) {
        Ok(schedule) => sentence(alloc, &schedule, "UTC"),
        Err(_) => Ok(String::new(alloc)),
    }
}

// The schedule in words, and as it is written. The zone has a column of its own.
fn push_schedule(alloc: Global, text: &mut String, spec: &CronSpec) -> Result<(), Refusal>
    ensures err { IfErr result (λ e. e ≡ OutOfMemory) }
{
    let words = words_of(alloc, spec)?;
    let words = words.as_str();
    let words = words
        .split_once(", by the clock of ")
        .unwrap_or((words, ""))
        .0;
    push_between(text, "<td data-column=\"Schedule\">", words, " <code>")?;
    push_between(text, "", spec.schedule.as_str(), "</code></td>\n")?;
    Ok(())
}

fn policy_words(spec: &CronSpec) -> &'static str {
    match (spec.policy, spec.suspend) {
        (Policy::Allow, false) => "Allow",
        (Policy::Forbid, false) => "Forbid",
        (Policy::Replace, false) => "Replace",
        (Policy::Allow, true) => "Allow, suspended",
        (Policy::Forbid, true) => "Forbid, suspended",
        (Policy::Replace, true) => "Replace, suspended",
    }
}

// A time, or that there is none.
fn push_time(
    alloc: Global,
    text: &mut String,
    column: &str,
    time: Option<Seconds>,
) -> Result<(), Refusal>
    ensures err { IfErr result (λ e. e ≡ OutOfMemory) }
{
    let shown = match time {
        Some(time) => time_text(alloc, time)?,
        None => String::from_str(alloc, "none")?,
    };
    Ok(push_cell(text, column, shown.as_str())?)
}

// A time by the clock of the CronJob's zone, where it has one that is known.
fn local_text(
    alloc: Global,
    zones: &ZoneTable,
    zone: &Option<Text>,
    time: Option<Seconds>,
) -> Result<String, AllocError>
    requires { local_zone zones.now ≡ Some (utc_zone (codes "UTC")) }
{
    match (zone_of(zones, zone), time) {
        (Some(zone), Some(time)) => clock_text(alloc, local(zone, time)),
        _ => String::from_str(alloc, "none"),
    }
}

fn push_missed(alloc: Global, text: &mut String, missed: Missed) -> Result<(), AllocError> {
    match missed {
        Missed::None => push_cell(text, "Missed", "0"),
        Missed::Some { count, .. } => {
            let count = format!(in alloc; "{count}")?;
            push_cell(text, "Missed", count.as_str())
        }
        Missed::Many { .. } => {
            text.push_str("<td data-column=\"Missed\" data-order=\"101\">&gt;100</td>\n")
        }
    }
}

// Which of the CronJob's Jobs failed, where some did.
fn push_failed(text: &mut String, failed: &str) -> Result<(), AllocError> {
    if failed.is_empty() {
        return Ok(());
    }
    push_between(text, "\n<p>", failed, "</p>\n")
}

// Why, in a word, and the reasons behind it, of which the first line names the CronJob again; with
// a mark where it needs attention.
fn push_why(text: &mut String, seen: &SeenCron) -> Result<(), AllocError> {
    let open = if seen.wants_look {
        "<td data-column=\"Why\" class=\"look\"><details><summary>"
    } else {
        "<td data-column=\"Why\"><details><summary>"
    };
    let words = seen.row.words.as_str();
    let reasons = words.split_once('\n').unwrap_or(("", words)).1;
    text.push_str(open)?;
    push_text(text, seen.row.verdict.text())?;
    text.push_str("</summary>\n")?;
    push_lines(text, "<p>", reasons, "</p>\n")?;
    text.push_str("</details>")?;
    push_failed(text, seen.failed.as_str())?;
    text.push_str("</td>\n")
}

// The cells on times.
fn push_times(
    alloc: Global,
    text: &mut String,
    zones: &ZoneTable,
    row: &CronRow,
) -> Result<(), Refusal>
    requires { local_zone zones.now ≡ Some (utc_zone (codes "UTC")) }
    ensures err { IfErr result (λ e. e ≡ OutOfMemory) }
{
    let cron = row.cron.get().cron.get();
    push_time(alloc, text, "Last (UTC)", cron.status.last_schedule_time)?;
    push_time(alloc, text, "Next (UTC)", row.next)?;
    let shown = local_text(alloc, zones, &cron.spec.get().time_zone, row.next)?;
    push_cell(text, "Next by its clock", shown.as_str())?;
    Ok(push_missed(alloc, text, row.missed)?)
}

/// The row of a CronJob.
pub(crate) fn push_row(
    alloc: Global,
    text: &mut String,
    zones: &ZoneTable,
    seen: &SeenCron,
) -> Result<(), Refusal>
    requires { local_zone zones.now ≡ Some (utc_zone (codes "UTC")) }
    ensures err { IfErr result (λ e. e ≡ OutOfMemory) }
{
    let cron = seen.row.cron.get().cron.get();
    let spec = cron.spec.get();
    text.push_str("<tr>\n")?;
    push_name(text, cron)?;
    push_schedule(alloc, text, spec)?;
    push_cell(text, "Zone", zone_name(&spec.time_zone))?;
    push_cell(text, "Policy", policy_words(spec))?;
    push_times(alloc, text, zones, &seen.row)?;
    push_why(text, seen)?;
    Ok(text.push_str("</tr>\n")?)
}
