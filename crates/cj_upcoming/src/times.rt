// The times at which one schedule is due in a window.
ghost use Rattle.std.specs.Prelude.{◌≡◌, ◌≤◌, ◌<◌, ◌+◌, OnOk, IfErr, IfSome, IsNone, ℕ, false};
ghost use Rattle.cj_due.specs.Due.{due, reach};
ghost use Rattle.cj_due.specs.DueTimes.{due_times};
ghost use Rattle.cj_upcoming.specs.Times.{IsFirstDue, IsDueNone, IsTimeAt};
ghost use Rattle.cj_upcoming.specs.Notes.{Notes, Exceeds};
ghost use Rattle.cj_upcoming.specs.declared.fault.StartsFault.TheVariants.{TooMany};

use crate::fault::StartsFault;
use crate::note::note;
use crate::start::Start;
use crate::window::Window;
use cj_base::Seconds;
use cj_due::{DueTimes, next_after};
use cj_schedule::Schedule;
use cj_zone::{Zone, local};
use std::collections::BTreeSet;

#[tactic(auto, unfolding(cj_due::specs::Due::due))]
fn is_due(schedule: &Schedule, zone: &Zone, time: Seconds) -> bool
    ensures { result ≡ due schedule.now zone.now time }
{
    let is_minute = time.get() % 60 == 0;
    is_minute && schedule.matches(local(zone, time))
}

/// The first due instant from this one on and within 3,000 days; `None` only where there is none.
pub(crate) fn due_from(schedule: &Schedule, zone: &Zone, from: Seconds) -> Option<Seconds>
    ensures some { IfSome result (λ t. IsFirstDue schedule.now zone.now from t) }
    ensures none { IsNone result → IsDueNone schedule.now zone.now from }
{
    if is_due(schedule, zone, from) {
        return Some(from);
    }
    next_after(schedule, zone, from)
}

// The first due instant from this one on, if one is before the end, and the due times after it.
fn first_in<'a>(
    schedule: &'a Schedule,
    zone: &'a Zone,
    from: Seconds,
    end: Seconds,
) -> (Option<Seconds>, DueTimes<'a>)
    requires { end ≤ from + reach }
    ensures first { IfSome result.0 (λ t. IsFirstDue schedule.now zone.now from t) }
    ensures left { IfSome result.0 (λ t. result.1 ≡ due_times schedule.now zone.now t end) }
    ensures none { IsNone result.0 →
        (t : ℕ) → from ≤ t → t < end → due schedule.now zone.now t ≡ false }
{
    let mut times = DueTimes::new(schedule, zone, from, end);
    if is_due(schedule, zone, from) {
        return (Some(from), times);
    }
    let first = times.next();
    (first, times)
}

/// Notes each due instant of the window as a start of the CronJob at a place.
pub(crate) fn note_times(
    schedule: &Schedule,
    zone: &Zone,
    window: &Window,
    cron: usize,
    most: usize,
    starts: &mut BTreeSet<Start>,
) -> Result<(), StartsFault>
    ensures ok { OnOk result (Notes (IsTimeAt window.now schedule.now zone.now cron)
        starts.old starts.new) }
    ensures many { IfErr result (λ e. e ≡ TooMany →
        Exceeds most (IsTimeAt window.now schedule.now zone.now cron) starts.old starts.new) }
{
    let end = window.end();
    let (mut next, mut times) = first_in(schedule, zone, window.from(), end);
    while let Some(time) = next {
        if time >= end {
            return Ok(());
        }
        note(starts, Start { time, cron }, most)?;
        next = times.next();
    }
    Ok(())
}
