// The schedule of a CronJob, and what it says.
use cj_cluster::ClusterCron;
use cj_schedule::Schedule;
use cj_types::{CronSpec, Refusal};
use cj_upcoming::sentence;
use cj_zone::{Zone, ZoneTable};
use std::alloc::Global;

/// What the CronJob asks for.
pub(crate) fn spec_of(cron: &ClusterCron) -> &CronSpec {
    cron.cron.get().spec.get()
}

/// The name of the zone whose clock the CronJob goes by.
pub(crate) fn zone_name(spec: &CronSpec) -> &str {
    match &spec.time_zone {
        Some(name) => name.as_str(),
        None => "UTC",
    }
}

/// The schedule of a CronJob and the zone whose clock it goes by, where both can be read.
pub(crate) fn schedule_of<'a>(
    zones: &'a ZoneTable,
    spec: &CronSpec,
) -> Option<(Schedule, &'a Zone)> {
    let schedule = Schedule::parse(spec.schedule.as_str()).ok()?;
    let zone = zones.get(zone_name(spec))?;
    Some((schedule, zone))
}

// What a sentence says before it names the clock.
fn without_clock(sentence: &str) -> &str {
    match sentence.split_once(", by the clock of ") {
        Some((words, _)) => words,
        None => sentence,
    }
}

/// A schedule in words, with the name of its zone, as `At 02:30 (Europe/Berlin)`.
pub(crate) fn schedule_words(
    alloc: Global,
    schedule: &Schedule,
    zone: &str,
) -> Result<String, Refusal> {
    let text = sentence(alloc, schedule, "")?;
    let words = without_clock(text.as_str());
    Ok(format!(in alloc; "{words} ({zone})")?)
}
