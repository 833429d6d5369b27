// What is told of each CronJob that starts something.
use crate::schedules::{schedule_of, schedule_words, spec_of};
use crate::upcoming::sums::{Sum, sum_of};
use cj_cluster::ClusterCron;
use cj_due::next_after;
use cj_schedule::Schedule;
use cj_types::{Refusal, Seconds, Shared};
use cj_upcoming::{Window, standings_text};
use cj_zone::{Zone, ZoneTable};
use std::alloc::Global;
use std::slice;

/// A CronJob that starts something from a window's start on.
#[derive(Drop)]
pub(crate) struct Coming {
    pub cron: Shared<ClusterCron>,
    /// Its starts in the window.
    pub sum: Sum,
    /// Its next start, be it after the window.
    pub next: Option<Seconds>,
    /// Its schedule in words.
    pub words: String,
}

// The first due time from an instant on.
fn due_from(schedule: &Schedule, zone: &Zone, from: Seconds) -> Option<Seconds> {
    let before = Seconds::new(from.get().saturating_sub(1))?;
    next_after(schedule, zone, before)
}

// Whether a CronJob starts something from an instant on, at some time: no line says why it doesn't.
fn comes(
    alloc: Global,
    zones: &ZoneTable,
    from: Seconds,
    cron: &Shared<ClusterCron>,
) -> Result<bool, Refusal> {
    let standing = standings_text(alloc, zones, from, slice::from_ref(cron))?;
    Ok(standing.as_str().is_empty())
}

// What is told of a CronJob, if it starts something.
fn told_of(
    alloc: Global,
    zones: &ZoneTable,
    window: &Window,
    cron: &Shared<ClusterCron>,
) -> Result<Option<Coming>, Refusal> {
    if !comes(alloc, zones, window.from(), cron)? {
        return Ok(None);
    }
    let Some((schedule, zone)) = schedule_of(zones, spec_of(cron.get())) else {
        return Ok(None);
    };
    Ok(Some(Coming {
        cron: cron.share()?,
        sum: sum_of(alloc, zones, window, cron)?,
        next: due_from(&schedule, zone, window.from()),
        words: schedule_words(alloc, &schedule, zone.name())?,
    }))
}

/// What is told of each CronJob that starts something from the window's start on, in the order of
/// the CronJobs.
pub(crate) fn coming_of(
    alloc: Global,
    zones: &ZoneTable,
    window: &Window,
    crons: &[Shared<ClusterCron>],
) -> Result<Vec<Coming>, Refusal> {
    let mut all = Vec::new(alloc);
    for cron in crons {
        if let Some(coming) = told_of(alloc, zones, window, cron)? {
            all.push(coming).map_err(|_| Refusal::OutOfMemory)?;
        }
    }
    Ok(all)
}
