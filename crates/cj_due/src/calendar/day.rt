ghost use Rattle.std.specs.Prelude.{◌<◌, ◌≤◌, ◌+◌, ◌-◌, IfSome, IsNone};
ghost use Rattle.jiff_core.specs.Calendar.{days_in_month};
ghost use Rattle.cj_schedule.specs.Next.{IsNext, IsPrevious, NonePasses};
ghost use Rattle.cj_due.specs.calendar.Shown.{day_at};

use crate::calendar::month::{Month, month_of};
use cj_schedule::Schedule;

// The least allowed day of the month from the month's day `from` on.
fn next_in_month(schedule: &Schedule, month: Month, from: u8) -> Option<u64>
    requires first { month.first ≤ 7_304_400 }
    requires low { 1 ≤ from }
    ensures some { IfSome result (λ n. IsNext (day_at schedule.now) (month.first + from - 1) n) }
    ensures none { IsNone result → NonePasses (day_at schedule.now) (month.first + from - 1)
        (month.first + days_in_month month.year month.month - 1) }
{
    if !schedule.has_month(month.month) {
        return None;
    }
    let day = schedule.next_day(month.weekday(), from)?;
    if day <= month.length() {
        Some(month.first + day as u64 - 1)
    } else {
        None
    }
}

/// The least allowed day from `from` on and up to `last`.
pub(crate) fn next_day(schedule: &Schedule, from: u64, last: u64) -> Option<u64>
    requires from { from ≤ 7_304_400 }
    requires last { last ≤ 7_304_400 }
    ensures some { IfSome result (λ n. IsNext (day_at schedule.now) from n) }
    ensures within { IfSome result (λ n. n ≤ last) }
    ensures none { IsNone result → NonePasses (day_at schedule.now) from last }
{
    let (mut month, mut day) = month_of(from);
    while month.first <= last {
        if let Some(found) = next_in_month(schedule, month, day) {
            return if found <= last { Some(found) } else { None };
        }
        month = month.next();
        day = 1;
    }
    None
}

// The greatest allowed day of the month up to the month's day `upto`.
fn previous_in_month(schedule: &Schedule, month: Month, upto: u8) -> Option<u64>
    requires first { month.first ≤ 7_304_400 }
    requires low { 1 ≤ upto }
    requires high { upto ≤ days_in_month month.year month.month }
    ensures some { IfSome result (λ n. IsPrevious (day_at schedule.now) (month.first + upto - 1)
        n) }
    ensures none { IsNone result → NonePasses (day_at schedule.now) month.first
        (month.first + upto - 1) }
{
    if !schedule.has_month(month.month) {
        return None;
    }
    let day = schedule.previous_day(month.weekday(), upto)?;
    Some(month.first + day as u64 - 1)
}

/// The greatest allowed day up to `upto` and down to `first`.
pub(crate) fn previous_day(schedule: &Schedule, upto: u64, first: u64) -> Option<u64>
    requires { upto ≤ 7_304_400 }
    ensures some { IfSome result (λ n. IsPrevious (day_at schedule.now) upto n) }
    ensures within { IfSome result (λ n. first ≤ n) }
    ensures none { IsNone result → NonePasses (day_at schedule.now) first upto }
{
    let (mut month, mut day) = month_of(upto);
    while first < month.first + day as u64 {
        if let Some(found) = previous_in_month(schedule, month, day) {
            return if first <= found { Some(found) } else { None };
        }
        if month.first == 0 {
            return None;
        }
        let (before, last) = month_of(month.first - 1);
        month = before;
        day = last;
    }
    None
}
