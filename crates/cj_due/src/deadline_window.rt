ghost use Rattle.std.specs.Prelude.{◌≡◌, ◌↔◌, ◌<◌, IsSome, IfSome};
ghost use Rattle.cj_due.specs.Window.{lower_end_of, window_of};

use crate::instant::instant;
use cj_base::Seconds;
use cj_types::{CronJob, Deadline};

/// The instant after which missed times count: the last schedule time, or the creation time before
/// the first, but not earlier than now minus the starting deadline, if one is set. `None` where
/// that isn't before now.
pub fn lower_end(
    last: Option<Seconds>,
    created: Seconds,
    deadline: Option<Deadline>,
    now: Seconds,
) -> Option<Seconds>
    ensures some { IsSome result ↔ (lower_end_of last created deadline now < now) }
    ensures value { IfSome result (λ t. t ≡ lower_end_of last created deadline now) }
{
    let since = last.unwrap_or(created);
    let in_time = match deadline {
        Some(deadline) => now.get().saturating_sub(deadline.get()),
        None => 0,
    };
    let lower = since.max(instant(in_time));
    if lower < now { Some(lower) } else { None }
}

/// The instant after which a CronJob's missed times count, by `lower_end` of its status and spec.
pub fn window(cron: &CronJob, now: Seconds) -> Option<Seconds>
    ensures some { IsSome result ↔ (window_of cron.now now < now) }
    ensures value { IfSome result (λ t. t ≡ window_of cron.now now) }
{
    lower_end(
        cron.status.last_schedule_time,
        cron.meta.created,
        cron.spec.starting_deadline_seconds,
        now,
    )
}
