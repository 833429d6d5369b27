// Moments without an offset, by the clock of a zone.
ghost use Rattle.std.specs.Prelude.{◌≡◌, ◌⊎◌, IfOk, IfSome};
ghost use Rattle.cj_answers.specs.ZoneMoments.{IsZonedMoment, ShowsSame};

use crate::moments::{instant_of, second_of, utc_of};
use cj_base::Refusal;
use cj_types::Seconds;
use cj_zone::{Zone, ZoneTable, interval_at, local};
use std::alloc::Global;

/// What a text without an offset says by the clock of a zone.
#[derive(Clone, Copy, Debug, PartialEq, Eq)]
pub enum ZonedMoment {
    /// The first moment at which the clock shows it.
    At(Seconds),
    /// The clock doesn't show it.
    Skipped,
    /// It has an offset, or is no time.
    Other,
}

const DAY: u64 = 86_400;

// The moment that UTC's clock shows at another, by an offset.
fn behind(at: Seconds, offset: i64) -> Option<Seconds> {
    let second = i64::try_from(at.get()).ok()?;
    second_of(second.checked_sub(offset)?)
}

// The moment, where the zone's clock shows then what that of UTC shows at the other one.
fn same_by(zone: &Zone, utc: &Zone, at: Option<Seconds>, wanted: Seconds) -> Option<Seconds>
    ensures { IfSome result (λ t. ShowsSame zone.now utc.now t wanted) }
{
    let at = at?;
    if local(zone, at) == local(utc, wanted) && at.get() % 60 == wanted.get() % 60 {
        Some(at)
    } else {
        None
    }
}

// The earlier one of two moments, if there is any.
fn earlier(one: Option<Seconds>, other: Option<Seconds>) -> Option<Seconds>
    ensures { (result ≡ one) ⊎ (result ≡ other) }
{
    match (one, other) {
        (Some(one), Some(other)) => {
            if other.get() < one.get() {
                Some(other)
            } else {
                Some(one)
            }
        }
        (Some(one), None) => Some(one),
        (None, other) => other,
    }
}

// The first moment at which the zone's clock shows it by one of the two offsets around a time.
fn shown_around(zone: &Zone, utc: &Zone, around: Seconds, wanted: Seconds) -> Option<Seconds>
    ensures { IfSome result (λ t. ShowsSame zone.now utc.now t wanted) }
{
    let offsets = interval_at(zone, around);
    let one = same_by(zone, utc, behind(wanted, offsets.one), wanted);
    let other = same_by(zone, utc, behind(wanted, offsets.other), wanted);
    earlier(one, other)
}

// The first moment at which the zone's clock shows what that of UTC shows at the one that is given.
// Its offset is one of those of the day before or the day after.
fn shown(zone: &Zone, utc: &Zone, wanted: Seconds) -> Option<Seconds>
    ensures { IfSome result (λ t. ShowsSame zone.now utc.now t wanted) }
{
    let eve = Seconds::new(wanted.get().saturating_sub(DAY)).unwrap_or(wanted);
    let morrow = Seconds::new(wanted.get().saturating_add(DAY)).unwrap_or(wanted);
    let one = shown_around(zone, utc, eve, wanted);
    let other = shown_around(zone, utc, morrow, wanted);
    earlier(one, other)
}

/// The moment that a text without an offset says by the clock of a zone: a time, or a date alone,
/// at whose first moment it is.
pub fn moment_in(alloc: Global, zone: &Zone, text: &str) -> Result<ZonedMoment, Refusal>
    ensures { IfOk result (IsZonedMoment zone.now text.now) }
{
    if instant_of(text).is_some() {
        return Ok(ZonedMoment::Other);
    }
    let Some(wanted) = utc_of(alloc, text)? else {
        return Ok(ZonedMoment::Other);
    };
    let utc = ZoneTable::new(alloc)?;
    match shown(zone, utc.default_zone(), wanted) {
        Some(at) => Ok(ZonedMoment::At(at)),
        None => Ok(ZonedMoment::Skipped),
    }
}
