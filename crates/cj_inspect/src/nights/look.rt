// From when to when changes of clocks are looked for.
ghost use Rattle.std.specs.Prelude.{◌≡◌};
ghost use Rattle.cj_inspect.specs.Nights.{around_after, around_last, look_after, look_last, seen_at};

use cj_types::{CronJob, Seconds};

// 7 days.
const WEEK: u64 = 604_800;

// 31 days.
const MONTH: u64 = 2_678_400;

const LAST_SECOND: u64 = 253_370_764_799;

/// Which changes of clocks are told of.
#[derive(Clone, Copy, Debug, PartialEq, Eq)]
pub enum Look {
    /// Those after one instant and up to another.
    Within(Seconds, Seconds),
    /// The same, but of CronJobs that aren't suspended.
    Ahead(Seconds, Seconds),
    /// Those around a moment: since a CronJob was last due, or a week before, and up to 31 days
    /// behind it.
    Around(Seconds),
}

// When the CronJob was last due, as its status has it; else when it was created.
fn seen_at(cron: &CronJob) -> Seconds
    ensures { result ≡ seen_at cron.now }
{
    match cron.status.last_schedule_time {
        Some(time) => time,
        None => cron.meta.created,
    }
}

fn around_after(now: Seconds, cron: &CronJob) -> Seconds
    ensures { result ≡ around_after now cron.now }
{
    let week_before = now.get().saturating_sub(WEEK);
    let count = seen_at(cron).get().min(week_before);
    match Seconds::new(cron.meta.created.get().max(count)) {
        Some(after) => after,
        None => unreachable!(),
    }
}

fn around_last(now: Seconds) -> Seconds
    ensures { result ≡ around_last now }
{
    match Seconds::new((now.get() + MONTH).min(LAST_SECOND)) {
        Some(last) => last,
        None => unreachable!(),
    }
}

/// The instant behind which changes count for a CronJob.
pub(crate) fn look_after(look: &Look, cron: &CronJob) -> Seconds
    ensures { result ≡ look_after look.now cron.now }
{
    match look {
        Look::Within(after, _) => *after,
        Look::Ahead(after, _) => *after,
        Look::Around(now) => around_after(*now, cron),
    }
}

/// The last instant of those that count.
pub(crate) fn look_last(look: &Look, cron: &CronJob) -> Seconds
    ensures { result ≡ look_last look.now cron.now }
{
    match look {
        Look::Within(_, last) => *last,
        Look::Ahead(after, last) => { if cron.spec.suspend { *after } else { *last } }
        Look::Around(now) => around_last(*now),
    }
}
