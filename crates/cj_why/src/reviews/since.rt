// How many times a CronJob missed, and since when.
ghost use Rattle.std.specs.Prelude.{◌≡◌, ◌⊎◌, IfOk, IfErr, option_copied, string_bytes};
ghost use Rattle.cj_base.specs.declared.refusal.Refusal.TheVariants.{OutOfMemory};
ghost use Rattle.cj_due.specs.Window.{window_of};
ghost use Rattle.cj_why.specs.reviews.Review.{IsMissedBefore, IsMissedOf, IsMissedSince, IsTextMissed, count_text, head_line};

use cj_due::{Missed, missed, window};
use cj_schedule::Schedule;
use cj_types::{CronJob, Refusal, Seconds};
use cj_zone::{Zone, time_text};
use std::alloc::Global;

/// How many that are: in digits up to 100, else `more`.
pub(crate) fn count_text(alloc: Global, missed: Missed) -> Result<String, Refusal>
    ensures ok { IfOk result (λ s. string_bytes s ≡ count_text missed) }
    ensures err { IfErr result (λ e. e ≡ OutOfMemory) }
{
    match missed {
        Missed::None => Ok(String::from_str(alloc, "0")?),
        Missed::Some { count, .. } => Ok(format!(in alloc; "{count}")?),
        Missed::Many { .. } => Ok(String::from_str(alloc, "more")?),
    }
}

fn times_missed(cron: &CronJob, schedule: &Schedule, zone: &Zone, now: Seconds) -> Missed
    ensures { IsMissedBefore cron.now now result
        ⊎ IsMissedSince cron.now schedule.now zone.now now result }
{
    match window(cron, now) {
        None => Missed::None,
        Some(since) => missed(schedule, zone, since, now),
    }
}

fn text_missed(cron: &CronJob, zone: &Zone, now: Seconds) -> Missed
    ensures { IsTextMissed cron.now zone.now now result }
{
    match Schedule::parse(cron.spec.schedule.as_str()) {
        Ok(schedule) => times_missed(cron, &schedule, zone, now),
        Err(_) => Missed::None,
    }
}

/// The times that the CronJob missed by this moment, as far as a controller asks for them.
pub(crate) fn missed_of(cron: &CronJob, zone: Option<&Zone>, now: Seconds) -> Missed
    ensures { IsMissedOf cron.now (option_copied zone.entry) now result }
{
    match zone {
        Some(zone) => text_missed(cron, zone, now),
        None => Missed::None,
    }
}

/// The lower end of the times that count as missed at this moment.
pub(crate) fn since(cron: &CronJob, now: Seconds) -> Seconds
    ensures { result ≡ window_of cron.now now }
{
    let base = cron.status.last_schedule_time.unwrap_or(cron.meta.created);
    let in_time = match cron.spec.starting_deadline_seconds {
        Some(deadline) => now.get().saturating_sub(deadline.get()),
        None => 0,
    };
    base.max(Seconds::new(in_time).unwrap())
}

/// The line of a CronJob, with how many times it missed.
pub(crate) fn head_line(
    alloc: Global,
    cron: &CronJob,
    count: &str,
    now: Seconds,
) -> Result<String, Refusal>
    ensures ok { IfOk result (λ s. string_bytes s
        ≡ head_line cron.now.key count.now (window_of cron.now now)) }
    ensures err { IfErr result (λ e. e ≡ OutOfMemory) }
{
    let time = time_text(alloc, since(cron, now))?;
    let time = time.as_str();
    let namespace = cron.key.key().namespace();
    let name = cron.key.key().name();
    Ok(format!(in alloc; "cron {namespace}/{name} missed {count} since {time}\n")?)
}
