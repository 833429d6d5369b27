ghost use Rattle.std.specs.Prelude.{◌<◌, ◌≤◌, ◌+◌, ◌*◌, ◌/◌, IfSome, IsNone};
ghost use Rattle.cj_schedule.specs.Next.{IsNext, IsPrevious, NonePasses};
ghost use Rattle.cj_due.specs.calendar.Shown.{minute_at};

use crate::calendar::day::{next_day, previous_day};
use crate::calendar::minute::{next_minute, previous_minute};
use cj_schedule::Schedule;

// The first allowed minute of the days from `from` on and up to `last`.
fn next_from_day(schedule: &Schedule, from: u64, last: u64) -> Option<u64>
    requires from { from ≤ 7_304_400 }
    requires last { last ≤ 7_304_400 }
    ensures some { IfSome result (λ n. IsNext (minute_at schedule.now) (from * 1_440) n) }
    ensures within { IfSome result (λ n. n / 1_440 ≤ last) }
    ensures none { IsNone result → NonePasses (minute_at schedule.now) (from * 1_440)
        (last * 1_440 + 1_439) }
{
    let day = next_day(schedule, from, last)?;
    let minute = next_minute(schedule, 0)?;
    Some(day * 1_440 + minute)
}

/// The least allowed minute from `from` on and up to the end of the day `last`, on a clock with no
/// zone. Minutes and days are counted from -9999-01-01T00:00.
pub fn next_shown(schedule: &Schedule, from: u64, last: u64) -> Option<u64>
    requires from { from / 1_440 < 7_304_400 }
    requires last { last ≤ 7_304_400 }
    ensures some { IfSome result (λ n. IsNext (minute_at schedule.now) from n) }
    ensures within { IfSome result (λ n. n / 1_440 ≤ last) }
    ensures none { IsNone result → NonePasses (minute_at schedule.now) from (last * 1_440 + 1_439) }
{
    let day = from / 1_440;
    let first = next_day(schedule, day, last)?;
    if first > day {
        let minute = next_minute(schedule, 0)?;
        return Some(first * 1_440 + minute);
    }
    match next_minute(schedule, from % 1_440) {
        Some(minute) => Some(day * 1_440 + minute),
        None => next_from_day(schedule, day + 1, last),
    }
}

// The last allowed minute of the days up to this one and down to the first.
fn previous_from_day(schedule: &Schedule, upto: u64, first: u64) -> Option<u64>
    requires { upto ≤ 7_304_400 }
    ensures some { IfSome result (λ n. IsPrevious (minute_at schedule.now) (upto * 1_440 + 1_439)
        n) }
    ensures within { IfSome result (λ n. first ≤ n / 1_440) }
    ensures none { IsNone result → NonePasses (minute_at schedule.now) (first * 1_440)
        (upto * 1_440 + 1_439) }
{
    let day = previous_day(schedule, upto, first)?;
    let minute = previous_minute(schedule, 1_439)?;
    Some(day * 1_440 + minute)
}

/// The greatest allowed minute up to `upto` and down to the beginning of the day `first`, on a
/// clock with no zone. Minutes and days are counted from -9999-01-01T00:00.
pub fn previous_shown(schedule: &Schedule, upto: u64, first: u64) -> Option<u64>
    requires { upto / 1_440 < 7_304_400 }
    ensures some { IfSome result (λ n. IsPrevious (minute_at schedule.now) upto n) }
    ensures within { IfSome result (λ n. first ≤ n / 1_440) }
    ensures none { IsNone result → NonePasses (minute_at schedule.now) (first * 1_440) upto }
{
    let day = upto / 1_440;
    let last = previous_day(schedule, day, first)?;
    if last < day {
        let minute = previous_minute(schedule, 1_439)?;
        return Some(last * 1_440 + minute);
    }
    match previous_minute(schedule, upto % 1_440) {
        Some(minute) => Some(day * 1_440 + minute),
        None if day <= first => None,
        None => previous_from_day(schedule, day - 1, first),
    }
}
