// After which instant missed times count.
ghost use Rattle.std.specs.Prelude.{◌≡◌, unwrap_or};
ghost use Rattle.cj_why.specs.Since.{base_words, is_deadline, since_words};

use cj_types::{CronJob, Deadline, Seconds};

/// What that instant is, where no deadline is set.
pub(crate) fn base_words(last: Option<Seconds>) -> &'static str
    ensures { result.now ≡ base_words last }
{
    match last {
        Some(_) => "its last scheduled time",
        None => "its creation",
    }
}

// Whether the earliest moment that is still in time lies behind this instant.
fn is_deadline(deadline: Option<Deadline>, base: Seconds, now: Seconds) -> bool
    ensures { result ≡ is_deadline deadline base now }
{
    match deadline {
        Some(deadline) => base.get() < now.get().saturating_sub(deadline.get()),
        None => false,
    }
}

/// What set the lower end of the times that count as missed at this moment.
pub(crate) fn since_words(cron: &CronJob, now: Seconds) -> &'static str
    ensures { result.now ≡ since_words cron.now now }
{
    let base = cron.status.last_schedule_time.unwrap_or(cron.meta.created);
    if is_deadline(cron.spec.starting_deadline_seconds, base, now) {
        "the moment less its starting deadline"
    } else {
        base_words(cron.status.last_schedule_time)
    }
}
