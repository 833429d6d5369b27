// The nights from a week before to a year from then on in which a clock skips local times, or shows
// some twice, that a schedule names.
ghost use Rattle.std.specs.Prelude.{◌≡◌, IfErr, Some, codes};
ghost use Rattle.cj_base.specs.declared.refusal.Refusal.TheVariants.{OutOfMemory};
ghost use Rattle.cj_zone.specs.Table.{local_zone, zones_of};
ghost use Rattle.cj_zone.specs.Zones.{utc_zone};

use crate::html::rows::{push_name, zone_name};
use crate::html::text::push_cell;
use cj_cluster::ClusterCron;
use cj_schedule::Schedule;
use cj_types::{CronJob, Refusal, Seconds, Shared};
use cj_upcoming::named_changes_text;
use cj_why::zone_of;
use cj_zone::ZoneTable;
use std::alloc::{AllocError, Global};

const YEAR: u64 = 366 * 86_400;

const WEEK: u64 = 7 * 86_400;

const HEAD: &str =
    "<div class=\"wide\" tabindex=\"0\" role=\"region\" aria-label=\"Table of the clock changes\">
<table class=\"sorted\">
<caption>From a week before, or --since, to 366 days from then on: a local time that a clock skips starts nothing, and one that it shows twice is due twice, unless spec.concurrencyPolicy keeps a Job from starting.</caption>
<thead>
<tr><th scope=\"col\">CronJob</th><th scope=\"col\">Zone</th><th scope=\"col\">When (UTC)</th><th scope=\"col\">What</th></tr>
</thead>
<tbody>
";

// The end of the year that begins then.
fn year_from(now: Seconds) -> Seconds {
    match Seconds::new(now.get().saturating_add(YEAR)) {
        Some(end) => end,
        None => now,
    }
}

// The moment from which they are looked for: a week before, or an earlier one that is asked for.
fn looked_from(now: Seconds, since: Option<Seconds>) -> Seconds {
    let week = Seconds::new(now.get().saturating_sub(WEEK)).unwrap_or(now);
    match since {
        Some(since) if since.get() < week.get() => since,
        _ => week,
    }
}

fn push_night(text: &mut String, cron: &CronJob, line: &str) -> Result<(), AllocError> {
    let (what, at) = line.split_once(" at ").unwrap_or((line, ""));
    text.push_str("<tr>\n")?;
    push_name(text, cron)?;
    push_cell(text, "Zone", zone_name(&cron.spec.get().time_zone))?;
    push_cell(text, "When (UTC)", at)?;
    push_cell(text, "What", what)?;
    text.push_str("</tr>\n")
}

fn push_nights(text: &mut String, cron: &CronJob, lines: &str) -> Result<(), AllocError> {
    for line in lines.lines() {
        push_night(text, cron, line)?;
    }
    Ok(())
}

// What its clock does with the local times that its schedule names, a line for each change.
fn lines_of(
    alloc: Global,
    zones: &ZoneTable,
    cron: &CronJob,
    from: Seconds,
    now: Seconds,
) -> Result<String, Refusal>
    requires { local_zone zones.now ≡ Some (utc_zone (codes "UTC")) }
    ensures err { IfErr result (λ e. e ≡ OutOfMemory) }
{
    let spec = cron.spec.get();
    let Ok(schedule) = Schedule::parse(spec.schedule.as_str()) else {
        return Ok(String::new(alloc));
    };
    let Some(zone) = zone_of(zones, &spec.time_zone) else {
        return Ok(String::new(alloc));
    };
    let utc = zones.default_zone();
    named_changes_text(alloc, &schedule, zone, utc, from, year_from(now))
}

// The rows of all CronJobs.
fn all_rows(
    alloc: Global,
    zones: &ZoneTable,
    crons: &[Shared<ClusterCron>],
    from: Seconds,
    now: Seconds,
) -> Result<String, Refusal>
    requires { local_zone zones.now ≡ Some (utc_zone (codes "UTC")) }
    ensures err { IfErr result (λ e. e ≡ OutOfMemory) }
{
    let mut rows = String::new(alloc);
    for cron in crons {
        let cron = cron.get().cron.get();
        let lines = lines_of(alloc, zones, cron, from, now)?;
        push_nights(&mut rows, cron, lines.as_str())?;
    }
    Ok(rows)
}

/// The section of the clock changes from a week before, or an earlier moment that is asked for, to
/// a year from then on.
pub(crate) fn push_changes(
    alloc: Global,
    text: &mut String,
    zones: &ZoneTable,
    crons: &[Shared<ClusterCron>],
    now: Seconds,
    since: Option<Seconds>,
) -> Result<(), Refusal>
    requires { local_zone zones.now ≡ Some (utc_zone (codes "UTC")) }
    ensures err { IfErr result (λ e. e ≡ OutOfMemory) }
{
    let rows = all_rows(alloc, zones, crons, looked_from(now, since), now)?;
    text.push_str("<section id=\"nights\">\n<h2>Clock changes</h2>\n")?;
    if rows.is_empty() {
        text.push_str(
            "<p>None: from a week before, or --since, to 366 days from then on no clock skips a local time that a schedule names, or shows one twice.</p>\n",
        )?;
    } else {
        text.push_str(HEAD)?;
        text.push_str(rows.as_str())?;
        text.push_str("</tbody>\n</table>\n</div>\n")?;
    }
    Ok(text.push_str("</section>\n")?)
}
