ghost use Rattle.cj_due.specs.Missed.{IsMissed};
ghost use Rattle.cj_due.specs.Window.{window_of};
ghost use Rattle.cj_decide.specs.StartDecisions.{IsNext};

use cj_due::{Missed, missed, next_after, window};
use cj_schedule::Schedule;
use cj_types::{CronJob, Seconds};
use cj_zone::Zone;

/// The times of the CronJob's schedule that were missed up to this moment.
pub fn missed_of(cron: &CronJob, schedule: &Schedule, zone: &Zone, now: Seconds) -> Missed
    ensures { IsMissed schedule.now zone.now (window_of cron.now now) now result }
{
    match window(cron, now) {
        Some(lower) => missed(schedule, zone, lower, now),
        None => Missed::None,
    }
}

/// The least due time after this moment and within 3,000 days.
pub fn next_of(schedule: &Schedule, zone: &Zone, now: Seconds) -> Option<Seconds>
    ensures { IsNext schedule.now zone.now now result }
{
    next_after(schedule, zone, now)
}
