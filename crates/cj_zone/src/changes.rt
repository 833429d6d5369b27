ghost use Rattle.std.specs.Prelude.{◌≡◌, ◌<◌, ◌≤◌, ◌+◌, ℕ, true, false, pos, ◌*ℤ◌, ◌<ℤ◌, ◌≤ℤ◌, vec_len};
ghost use Rattle.jiff_core.specs.Timestamp.{IsOffsetSeconds};
ghost use Rattle.jiff_tz.specs.Tzif as Table;

use cj_base::Seconds;
use jiff::tz::TimeZone;
use jiff_core::Timestamp;
use jiff_tz::Tzif;

/// Whether the instant is at or after the last transition of the tables.
pub(crate) fn is_past(tables: &Tzif, from: Seconds) -> bool
    ensures past { result ≡ true → Table.count_at tables.now (pos from)
        ≡ vec_len tables.now.transitions }
    ensures not_past { result ≡ false → Table.count_at tables.now (pos from) < vec_len
        tables.now.transitions }
{
    match tables.transitions().last() {
        Some(row) => row.second <= from.get() as i64,
        None => true,
    }
}

/// The instant as a timestamp of `jiff`.
pub(crate) fn timestamp(at: Seconds) -> Timestamp
    ensures { result.nanosecond ≡ pos at *ℤ pos 1_000_000_000 }
{
    match jiff::Timestamp::from_second(at.get() as i64) {
        Ok(instant) => instant.to_plain(),
        Err(_) => unreachable!(),
    }
}

fn second_after(at: Seconds) -> Timestamp
    ensures { result.nanosecond ≡ pos (at + 1) *ℤ pos 1_000_000_000 }
{
    match jiff::Timestamp::from_second(at.get() as i64 + 1) {
        Ok(instant) => instant.to_plain(),
        Err(_) => unreachable!(),
    }
}

/// The first second of 1970.
pub(crate) fn epoch() -> Seconds
    ensures { result ≡ 0 }
{
    match Seconds::new(0) {
        Some(epoch) => epoch,
        None => unreachable!(),
    }
}

// A second at or before an instant, or the first of 1970 where it is earlier.
fn since(second: i64, at: Seconds) -> Seconds
    requires { second ≤ℤ pos at }
    ensures above { second ≤ℤ pos result }
    ensures low { result ≤ at }
{
    if second <= 0 {
        return epoch();
    }
    Seconds::new(second as u64).unwrap_or(at)
}

/// The tables' UTC offset at the instant, in seconds.
pub(crate) fn offset_of(tables: &Tzif, at: Seconds) -> i64
    ensures value { result ≡ (Table.offset_at tables.now (pos at *ℤ pos 1_000_000_000)).seconds }
    ensures in_range { IsOffsetSeconds result }
{
    let instant = jiff::Timestamp::from_plain(timestamp(at));
    TimeZone::tzif(tables).to_offset(instant).seconds() as i64
}

/// The last second before the next transition after the instant.
pub(crate) fn last_before_next(tables: &Tzif, from: Seconds) -> u64
    requires { Table.count_at tables.now (pos from) < vec_len tables.now.transitions }
    ensures before { pos result <ℤ (Table.transition_at tables.now
        (Table.count_at tables.now (pos from))).second }
    ensures low { from ≤ result }
{
    let instant = jiff::Timestamp::from_plain(timestamp(from));
    match TimeZone::tzif(tables).following(instant).next() {
        Some(next) => next.timestamp().as_second() as u64 - 1,
        None => unreachable!(),
    }
}

/// The second of the last transition at or before the instant; the first of 1970 where that is
/// earlier or missing.
pub(crate) fn first_since_change(tables: &Tzif, at: Seconds) -> Seconds
    requires { Table.count_at tables.now (pos at) < vec_len tables.now.transitions }
    ensures first { result ≤ at }
    ensures same { (t : ℕ) → result ≤ t → t ≤ at →
        Table.count_at tables.now (pos t) ≡ Table.count_at tables.now (pos at) }
{
    let instant = jiff::Timestamp::from_plain(second_after(at));
    match TimeZone::tzif(tables).preceding(instant).next() {
        Some(change) => since(change.timestamp().as_second(), at),
        None => epoch(),
    }
}

/// The second of the tables' last transition; the first of 1970 where that is earlier or missing.
pub(crate) fn last_change(tables: &Tzif, at: Seconds) -> Seconds
    requires { Table.count_at tables.now (pos at) ≡ vec_len tables.now.transitions }
    ensures first { result ≤ at }
    ensures past { Table.count_at tables.now (pos result) ≡ vec_len tables.now.transitions }
{
    match tables.transitions().last() {
        Some(row) => since(row.second, at),
        None => epoch(),
    }
}
