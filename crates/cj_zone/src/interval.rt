ghost use Rattle.std.specs.Prelude.{◌≡◌, ◌≤◌, ℕ, ℤ, pos, ◌*ℤ◌, vec_len};
ghost use Rattle.jiff_core.specs.Timestamp.{IsOffsetSeconds};
ghost use Rattle.jiff_tz.specs.PosixText.{tz_view};
ghost use Rattle.jiff_tz.specs.Tzif as Table;
ghost use Rattle.cj_base.specs.Instant.{last_second};
ghost use Rattle.cj_zone.specs.Clock.{rules_offset};
ghost use Rattle.cj_zone.specs.Offset.{zone_offset};
ghost use Rattle.cj_zone.specs.Interval.{IsOneOf, IsOffsetInterval, other_seconds};

use crate::Zone;
use crate::changes::{
    epoch, first_since_change, is_past, last_before_next, last_change, offset_of,
};
use crate::rules::Rules;
use cj_base::Seconds;
use jiff_tz::{Tzif, posix};

/// An interval of time in which a clock has one of two UTC offsets, in seconds.
#[derive(Clone, Copy)]
pub struct OffsetInterval {
    pub one: i64,
    pub other: i64,
    pub first: Seconds,
    pub last: u64,
}

fn always(one: i64, other: i64) -> OffsetInterval
    ensures one { result.one ≡ one }
    ensures other { result.other ≡ other }
    ensures first { result.first ≡ 0 }
    ensures last { last_second ≤ result.last }
{
    OffsetInterval {
        one,
        other,
        first: epoch(),
        last: Seconds::LAST,
    }
}

fn of_rule(rule: posix::TimeZone) -> (i64, i64)
    ensures one_in { IsOffsetSeconds result.0 }
    ensures other_in { IsOffsetSeconds result.1 }
    ensures one { result.0 ≡ rule.std_offset.seconds }
    ensures other { result.1 ≡ other_seconds (tz_view rule) }
{
    let standard = rule.std_offset.seconds as i64;
    match rule.dst {
        Some(daylight) => (standard, daylight.offset.seconds as i64),
        None => (standard, standard),
    }
}

// The offsets that the clock has from an instant at or after the last transition.
fn past_offsets(tables: &Tzif, from: Seconds) -> (i64, i64)
    requires { Table.count_at tables.now (pos from) ≡ vec_len tables.now.transitions }
    ensures one { IsOffsetSeconds result.0 }
    ensures other { IsOffsetSeconds result.1 }
    ensures is_one_of { (t : ℕ) → from ≤ t → IsOneOf result.0 result.1
        (Table.offset_at tables.now (pos t *ℤ pos 1_000_000_000)).seconds }
{
    match tables.posix_tz() {
        Some(rule) => of_rule(rule),
        None => {
            let offset = offset_of(tables, from);
            (offset, offset)
        }
    }
}

fn of_tables(tables: &Tzif, at: Seconds) -> OffsetInterval
    ensures one { IsOffsetSeconds result.one }
    ensures other { IsOffsetSeconds result.other }
    ensures is_one_of { (t : ℕ) → result.first ≤ t → t ≤ result.last →
        IsOneOf result.one result.other (Table.offset_at tables.now
        (pos t *ℤ pos 1_000_000_000)).seconds }
    ensures first { result.first ≤ at }
    ensures last { at ≤ result.last }
{
    if is_past(tables, at) {
        let first = last_change(tables, at);
        let (one, other) = past_offsets(tables, first);
        return OffsetInterval {
            one,
            other,
            first,
            last: Seconds::LAST,
        };
    }
    let offset = offset_of(tables, at);
    OffsetInterval {
        one: offset,
        other: offset,
        first: first_since_change(tables, at),
        last: last_before_next(tables, at),
    }
}

fn of_rules(rules: &Rules, at: Seconds) -> OffsetInterval
    ensures offsets { IsOffsetInterval (rules_offset rules.now) result.one result.other result.first
        result.last }
    ensures first { result.first ≤ at }
    ensures last { at ≤ result.last }
{
    match rules {
        Rules::Utc => always(0, 0),
        Rules::Posix(rule) => {
            let (one, other) = of_rule(*rule);
            always(one, other)
        }
        Rules::Table(tables) => of_tables(tables, at),
    }
}

/// An interval of the zone's clock that contains the instant. With UTC or a rule it is all time;
/// with a file, the time between two changes or after the last one.
pub fn interval_at(zone: &Zone, at: Seconds) -> OffsetInterval
    ensures offsets { IsOffsetInterval (zone_offset zone.now) result.one result.other result.first
        result.last }
    ensures first { result.first ≤ at }
    ensures last { at ≤ result.last }
{
    of_rules(zone.rules(), at)
}
