// What a clock shows: that of a zone, or else UTC.
ghost use Rattle.std.specs.Prelude.{◌≡◌, IfErr};
ghost use Rattle.cj_base.specs.declared.refusal.Refusal.TheVariants.{OutOfMemory};

use cj_base::Civil;
use cj_types::{Refusal, Seconds};
use cj_zone::{Zone, local, steady_from, time_text};
use std::alloc::{AllocError, Global};

/// The clock's UTC offset at a moment, in seconds.
pub(crate) fn offset_at(clock: Option<&Zone>, at: u64) -> i64 {
    match (clock, Seconds::new(at)) {
        (Some(zone), Some(at)) => steady_from(zone, at).one,
        _ => 0,
    }
}

/// A number of seconds that offsets can be added to.
pub(crate) fn signed(seconds: u64) -> i64 {
    i64::try_from(seconds).unwrap_or(i64::MAX)
}

/// How long ago a clock with this UTC offset showed a multiple of the step.
pub(crate) fn past_of(offset: i64, step: u64, at: u64) -> u64 {
    let ahead = offset.checked_rem_euclid(signed(step)).unwrap_or(0);
    let shown = at.saturating_add(u64::try_from(ahead).unwrap_or(0));
    shown.checked_rem(step).unwrap_or(0)
}

fn two(alloc: Global, number: u8) -> Result<String, AllocError> {
    if number < 10 {
        format!(in alloc; "0{number}")
    } else {
        format!(in alloc; "{number}")
    }
}

// A date and a time of the day.
fn civil_text(alloc: Global, civil: Civil) -> Result<String, AllocError> {
    let year = civil.year.unsigned_abs();
    let (month, day) = (two(alloc, civil.month)?, two(alloc, civil.day)?);
    let (hour, minute) = (two(alloc, civil.hour)?, two(alloc, civil.minute)?);
    let (month, day) = (month.as_str(), day.as_str());
    let (hour, minute) = (hour.as_str(), minute.as_str());
    format!(in alloc; "{year}-{month}-{day}T{hour}:{minute}")
}

/// What the clock shows at a moment; `parts` takes it apart.
pub(crate) fn shown_text(alloc: Global, clock: Option<&Zone>, at: u64) -> Result<String, Refusal>
    ensures err { IfErr result (λ e. e ≡ OutOfMemory) }
{
    match (clock, Seconds::new(at)) {
        (Some(zone), Some(at)) => Ok(civil_text(alloc, local(zone, at))?),
        (None, Some(at)) => time_text(alloc, at),
        (_, None) => Ok(String::new(alloc)),
    }
}

/// The date, and the hour and minute, of what a clock shows.
pub(crate) fn parts(shown: &str) -> (&str, &str) {
    let (date, time) = shown.split_once('T').unwrap_or(("", ""));
    (date, time.split_once(":00Z").unwrap_or((time, "")).0)
}
