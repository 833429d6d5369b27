ghost use Rattle.std.specs.Prelude.{◌≡◌, ◌≤◌, ◌+◌, ℕ, pos, ◌*ℤ◌};
ghost use Rattle.jiff_tz.specs.PosixRule as Posix;
ghost use Rattle.jiff_tz.specs.Tzif as Table;
ghost use Rattle.cj_zone.specs.Clock.{rules_offset};
ghost use Rattle.cj_zone.specs.Offset.{zone_offset};
ghost use Rattle.cj_zone.specs.Steady.{IsSteady, IsSameYear};
ghost use Rattle.cj_zone.specs.Interval.{IsOffsetInterval};

use crate::Zone;
use crate::changes::{is_past, last_before_next, timestamp};
use crate::interval::OffsetInterval;
use crate::rules::Rules;
use cj_base::Seconds;
use jiff::Timestamp;
use jiff::tz::TimeZone;
use jiff_tz::{Tzif, posix};

const DAY: u64 = 86_400;

// The last second of the instant's month in UTC.
fn end_of_month(at: Seconds) -> u64
    ensures low { at ≤ result }
    ensures year { (t : ℕ) → at ≤ t → t ≤ result → IsSameYear at t }
{
    let instant = Timestamp::from_plain(timestamp(at));
    let date = TimeZone::UTC.to_datetime(instant).date();
    let left = (date.days_in_month() - date.day()) as u64;
    (at.get() / DAY + left) * DAY + (DAY - 1)
}

// A second up to which a rule's clock keeps its offset: before its next change, and in the
// instant's month.
fn of_rule(rule: posix::TimeZone, at: Seconds) -> u64
    ensures low { at ≤ result }
    ensures steady { IsSteady (λ t. (Posix.offset_at rule (pos t *ℤ pos 1_000_000_000)).seconds) at
        result }
{
    let zone = TimeZone::from_plain(jiff_tz::TimeZone::Posix(rule));
    let instant = Timestamp::from_plain(timestamp(at));
    let Some(change) = zone.following(instant).next() else {
        return at.get();
    };
    let second = change.timestamp().as_second();
    if second <= at.get() as i64 {
        return at.get();
    }
    end_of_month(at).min(second as u64 - 1)
}

fn of_tables(tables: &Tzif, at: Seconds) -> u64
    ensures low { at ≤ result }
    ensures steady { IsSteady (λ t. (Table.offset_at tables.now
        (pos t *ℤ pos 1_000_000_000)).seconds) at result }
{
    if !is_past(tables, at) {
        return last_before_next(tables, at);
    }
    match tables.posix_tz() {
        Some(rule) => of_rule(rule, at),
        None => at.get(),
    }
}

fn of_rules(rules: &Rules, at: Seconds) -> u64
    ensures low { at ≤ result }
    ensures steady { IsSteady (rules_offset rules.now) at result }
{
    match rules {
        Rules::Utc => at.get(),
        Rules::Posix(rule) => of_rule(*rule, at),
        Rules::Table(tables) => of_tables(tables, at),
    }
}

fn from_rules(rules: &Rules, at: Seconds) -> OffsetInterval
    ensures offsets { IsOffsetInterval (rules_offset rules.now) result.one result.other at
        result.last }
    ensures last { at ≤ result.last }
    ensures begins { result.first ≡ at }
    ensures steady { result.other ≡ result.one }
{
    let offset = rules.offset(at).seconds as i64;
    OffsetInterval {
        one: offset,
        other: offset,
        first: at,
        last: of_rules(rules, at),
    }
}

/// An interval from the instant on in which the clock keeps its offset: up to the next change, or
/// to the end of the instant's month if that is earlier.
pub fn steady_from(zone: &Zone, at: Seconds) -> OffsetInterval
    ensures offsets { IsOffsetInterval (zone_offset zone.now) result.one result.other at
        result.last }
    ensures last { at ≤ result.last }
    ensures begins { result.first ≡ at }
    ensures steady { result.other ≡ result.one }
{
    from_rules(zone.rules(), at)
}
