ghost use Rattle.std.specs.Prelude.{◌<◌, ◌≤◌, ◌+◌, ◌*◌, ◌/◌, ℕ, IsNone, IfSome};
ghost use Rattle.cj_base.specs.Instant.{last_second};
ghost use Rattle.cj_zone.specs.Offset.{zone_offset};
ghost use Rattle.cj_zone.specs.Interval.{IsOffsetInterval};
ghost use Rattle.cj_due.specs.Budget.{budget};
ghost use Rattle.cj_due.specs.Days.{busy_count};
ghost use Rattle.cj_due.specs.Due.{IsQuiet, IsLeastDue};

use crate::ahead::{base_of, next_by_either};
use crate::instant::{instant, is_due};
use crate::scan::Scan;
use cj_schedule::Schedule;
use cj_zone::{OffsetInterval, Zone, interval_at, steady_from};

// The search up to the first candidate of an interval after `lo`, a minute that one of its two
// clocks shows as allowed, and the instant that it reached: `hi` where the candidate is due or
// there is none, else the candidate.
fn first_candidate(
    schedule: &Schedule,
    zone: &Zone,
    interval: &OffsetInterval,
    lo: u64,
    hi: u64,
) -> (Scan, u64)
    requires in_range { hi ≤ last_second }
    requires ordered { lo ≤ hi }
    requires offsets { IsOffsetInterval (zone_offset zone.now) interval.now.one interval.now.other
        (lo + 1) hi }
    ensures low { lo ≤ result.1 }
    ensures high { result.1 ≤ hi }
    ensures on { lo < hi → lo < result.1 }
    ensures some { IfSome result.0.found (λ t. IsLeastDue schedule.now zone.now lo result.1 t) }
    ensures none { IsNone result.0.found → IsQuiet schedule.now zone.now lo result.1 }
    ensures tested { (first : ℕ) → first ≤ lo / 86_400 →
        budget schedule.now first (lo / 60 + 1)
        + result.0.tested ≤ budget schedule.now first (result.1 / 60 + 1) }
    ensures bounded { lo / 60 + result.0.tested ≤ result.1 / 60 }
{
    let last = hi / 60;
    if last <= lo / 60 {
        return (Scan::none(0), hi);
    }
    let one = base_of(interval.one);
    let other = base_of(interval.other);
    let minute = next_by_either(schedule, one, other, lo / 60 + 1, last);
    if minute > last {
        return (Scan::none(0), hi);
    }
    if is_due(schedule, zone, minute) {
        let found = Some(instant(minute * 60));
        return (Scan { found, tested: 1 }, hi);
    }
    (Scan::none(1), minute * 60)
}

// The search up to the first candidate after a minute that isn't due, within the time in which the
// clock keeps the offset that it has then, and the instant that it reached.
fn next_while_steady(schedule: &Schedule, zone: &Zone, lo: u64, hi: u64) -> (Scan, u64)
    requires in_range { hi ≤ last_second }
    requires ordered { lo ≤ hi }
    ensures low { lo ≤ result.1 }
    ensures high { result.1 ≤ hi }
    ensures some { IfSome result.0.found (λ t. IsLeastDue schedule.now zone.now lo result.1 t) }
    ensures none { IsNone result.0.found → IsQuiet schedule.now zone.now lo result.1 }
    ensures tested { (first : ℕ) → first ≤ lo / 86_400 →
        budget schedule.now first (lo / 60 + 1)
        + result.0.tested ≤ budget schedule.now first (result.1 / 60 + 1) }
    ensures bounded { lo / 60 + result.0.tested ≤ result.1 / 60 }
{
    if lo >= hi {
        return (Scan::none(0), hi);
    }
    let interval = steady_from(zone, instant(lo));
    let end = interval.last.min(hi);
    first_candidate(schedule, zone, &interval, lo, end)
}

// The least due instant after `lo` and up to `hi` in an interval. Candidates are tested one after
// the other; after one that isn't due the next is a minute that the clock shows with the offset
// that it has then.
fn next_in_interval(
    schedule: &Schedule,
    zone: &Zone,
    interval: &OffsetInterval,
    lo: u64,
    hi: u64,
) -> Scan
    requires in_range { hi ≤ last_second }
    requires ordered { lo ≤ hi }
    requires offsets { IsOffsetInterval (zone_offset zone.now) interval.now.one interval.now.other
        (lo + 1) hi }
    ensures some { IfSome result.found (λ t. IsLeastDue schedule.now zone.now lo hi t) }
    ensures none { IsNone result.found → IsQuiet schedule.now zone.now lo hi }
    ensures tested { (first : ℕ) → first ≤ lo / 86_400 →
        budget schedule.now first (lo / 60 + 1)
        + result.tested ≤ budget schedule.now first (hi / 60 + 1) }
    ensures bounded { lo / 60 + result.tested ≤ hi / 60 }
{
    let mut at = lo;
    let mut tested = 0;
    while at < hi {
        let (first, refused) = first_candidate(schedule, zone, interval, at, hi);
        tested += first.tested;
        if first.found.is_some() {
            let found = first.found;
            return Scan { found, tested };
        }
        let (next, end) = next_while_steady(schedule, zone, refused, hi);
        tested += next.tested;
        if next.found.is_some() {
            let found = next.found;
            return Scan { found, tested };
        }
        at = end;
    }
    Scan::none(tested)
}

/// The search for the least due instant after `lo` and up to `hi`, interval by interval.
pub fn next_scan(schedule: &Schedule, zone: &Zone, lo: u64, hi: u64) -> Scan
    requires { hi ≤ last_second }
    ensures some { IfSome result.found (λ t. IsLeastDue schedule.now zone.now lo hi t) }
    ensures none { IsNone result.found → IsQuiet schedule.now zone.now lo hi }
    ensures tested { result.tested ≤ 1_440 * busy_count schedule.now lo hi }
{
    if lo >= hi {
        return Scan::none(0);
    }
    let mut at = lo;
    let mut tested = 0;
    while at < hi {
        let interval = interval_at(zone, instant(at + 1));
        let end = interval.last.min(hi);
        let part = next_in_interval(schedule, zone, &interval, at, end);
        tested += part.tested;
        if part.found.is_some() {
            let found = part.found;
            return Scan { found, tested };
        }
        at = end;
    }
    Scan::none(tested)
}
