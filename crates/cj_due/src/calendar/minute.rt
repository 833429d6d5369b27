ghost use Rattle.std.specs.Prelude.{◌<◌, ◌≤◌, ◌+◌, ◌-◌, ◌*◌, ◌/◌, IfSome, IsNone};
ghost use Rattle.cj_schedule.specs.Next.{IsNext, IsPrevious, NonePasses};
ghost use Rattle.cj_due.specs.calendar.Minutes.{minute_in_day};

use cj_schedule::Schedule;

// The least allowed minute of a day from `from` on, in the same hour.
fn next_in_hour(schedule: &Schedule, from: u64) -> Option<u64>
    requires { from < 1_440 }
    ensures some { IfSome result (λ n. IsNext (minute_in_day schedule.now) from n) }
    ensures below { IfSome result (λ n. n < 1_440) }
    ensures none { IsNone result → NonePasses (minute_in_day schedule.now) from
        (from / 60 * 60 + 59) }
{
    let hour = (from / 60) as u8;
    if !schedule.has_hour(hour) {
        return None;
    }
    let minute = schedule.next_minute((from % 60) as u8)?;
    if minute < 60 {
        Some(hour as u64 * 60 + minute as u64)
    } else {
        None
    }
}

// The least allowed minute of a day from the hour `from` on.
fn next_by_hours(schedule: &Schedule, from: u8) -> Option<u64>
    requires { from ≤ 24 }
    ensures some { IfSome result (λ n. IsNext (minute_in_day schedule.now) (from * 60) n) }
    ensures below { IfSome result (λ n. n < 1_440) }
    ensures none { IsNone result → NonePasses (minute_in_day schedule.now) (from * 60) 1_439 }
{
    let hour = schedule.next_hour(from)?;
    let minute = schedule.next_minute(0)?;
    if hour < 24 && minute < 60 {
        Some(hour as u64 * 60 + minute as u64)
    } else {
        None
    }
}

/// The least allowed minute of a day from `from` on.
pub fn next_minute(schedule: &Schedule, from: u64) -> Option<u64>
    requires { from < 1_440 }
    ensures some { IfSome result (λ n. IsNext (minute_in_day schedule.now) from n) }
    ensures below { IfSome result (λ n. n < 1_440) }
    ensures none { IsNone result → NonePasses (minute_in_day schedule.now) from 1_439 }
{
    if let Some(minute) = next_in_hour(schedule, from) {
        return Some(minute);
    }
    next_by_hours(schedule, (from / 60) as u8 + 1)
}

// The greatest allowed minute of a day up to `upto`, in the same hour.
fn previous_in_hour(schedule: &Schedule, upto: u64) -> Option<u64>
    requires { upto < 1_440 }
    ensures some { IfSome result (λ n. IsPrevious (minute_in_day schedule.now) upto n) }
    ensures none { IsNone result → NonePasses (minute_in_day schedule.now) (upto / 60 * 60) upto }
{
    let hour = (upto / 60) as u8;
    if !schedule.has_hour(hour) {
        return None;
    }
    let minute = schedule.previous_minute((upto % 60) as u8)?;
    Some(hour as u64 * 60 + minute as u64)
}

// The greatest allowed minute of a day before the hour `before`.
fn previous_by_hours(schedule: &Schedule, before: u8) -> Option<u64>
    requires low { 1 ≤ before }
    requires high { before ≤ 24 }
    ensures some { IfSome result (λ n. IsPrevious (minute_in_day schedule.now) (before * 60 - 1)
        n) }
    ensures none { IsNone result → NonePasses (minute_in_day schedule.now) 0 (before * 60 - 1) }
{
    let hour = schedule.previous_hour(before - 1)?;
    let minute = schedule.previous_minute(59)?;
    Some(hour as u64 * 60 + minute as u64)
}

/// The greatest allowed minute of a day up to `upto`.
pub(crate) fn previous_minute(schedule: &Schedule, upto: u64) -> Option<u64>
    requires { upto < 1_440 }
    ensures some { IfSome result (λ n. IsPrevious (minute_in_day schedule.now) upto n) }
    ensures none { IsNone result → NonePasses (minute_in_day schedule.now) 0 upto }
{
    if let Some(minute) = previous_in_hour(schedule, upto) {
        return Some(minute);
    }
    let hour = (upto / 60) as u8;
    if hour == 0 {
        return None;
    }
    previous_by_hours(schedule, hour)
}
