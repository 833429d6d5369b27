// The times that came too late for a starting deadline.
ghost use Rattle.std.specs.Prelude.{◌≡◌, ◌⊎◌, IfOk, IfErr, option_copied, string_bytes};
ghost use Rattle.cj_base.specs.declared.refusal.Refusal.TheVariants.{OutOfMemory};
ghost use Rattle.cj_why.specs.reviews.Late.{IsInTime, IsLateOf, IsLateSince, IsTextLate, base_of, late_count, late_words};

use crate::reviews::since::since;
use crate::since::base_words;
use cj_due::{Missed, missed};
use cj_schedule::Schedule;
use cj_types::{CronJob, Refusal, Seconds};
use cj_zone::{Zone, time_text};
use std::alloc::{AllocError, Global};

/// The last scheduled time, and the creation before the first.
pub(crate) fn base_of(cron: &CronJob) -> Seconds
    ensures { result ≡ base_of cron.now }
{
    cron.status.last_schedule_time.unwrap_or(cron.meta.created)
}

fn times_late(cron: &CronJob, schedule: &Schedule, zone: &Zone, now: Seconds) -> Missed
    ensures { IsInTime cron.now now result
        ⊎ IsLateSince cron.now schedule.now zone.now now result }
{
    let (base, since) = (base_of(cron), since(cron, now));
    if base < since {
        missed(schedule, zone, base, since)
    } else {
        Missed::None
    }
}

fn text_late(cron: &CronJob, zone: &Zone, now: Seconds) -> Missed
    ensures { IsTextLate cron.now zone.now now result }
{
    match Schedule::parse(cron.spec.schedule.as_str()) {
        Ok(schedule) => times_late(cron, &schedule, zone, now),
        Err(_) => Missed::None,
    }
}

/// The times that the CronJob lost to its starting deadline by this moment: those after its last
/// scheduled time that aren't in time any more.
pub(crate) fn late_of(cron: &CronJob, zone: Option<&Zone>, now: Seconds) -> Missed
    ensures { IsLateOf cron.now (option_copied zone.entry) now result }
{
    match zone {
        Some(zone) => text_late(cron, zone, now),
        None => Missed::None,
    }
}

fn late_count(alloc: Global, count: &str, base: &str, latest: &str) -> Result<String, AllocError>
    ensures { IfOk result (λ s. string_bytes s ≡ late_count count.now base.now latest.now) }
{
    format!(in alloc;
        "too late: {count} since {base}, the latest at {latest}, as spec.startingDeadlineSeconds is past for them\n"
    )
}

/// A line that says how many those times are, and which was the latest, where there are some.
pub(crate) fn late_words(
    alloc: Global,
    last: Option<Seconds>,
    late: Missed,
) -> Result<String, Refusal>
    ensures ok { IfOk result (λ s. string_bytes s ≡ late_words last late) }
    ensures err { IfErr result (λ e. e ≡ OutOfMemory) }
{
    let base = base_words(last);
    match late {
        Missed::None => Ok(String::new(alloc)),
        Missed::Some { count, latest } => {
            let count = format!(in alloc; "{count}")?;
            let latest = time_text(alloc, latest)?;
            Ok(late_count(alloc, count.as_str(), base, latest.as_str())?)
        }
        Missed::Many { latest } => {
            let latest = time_text(alloc, latest)?;
            Ok(late_count(alloc, "more than 100", base, latest.as_str())?)
        }
    }
}
