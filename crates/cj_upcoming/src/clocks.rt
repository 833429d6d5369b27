// Times of the day, dates and spans as people read them.
ghost use Rattle.std.specs.Prelude.{◌≡◌, IfOk, string_bytes};
ghost use Rattle.cj_upcoming.specs.Clocks.{civil_text, clock, days_text, odd_seconds, offset_text, sign, span_text, two};

use cj_base::Civil;
use std::alloc::{AllocError, Global};

// In two digits.
fn two(alloc: Global, number: u64) -> Result<String, AllocError>
    ensures { IfOk result (λ s. string_bytes s ≡ two number) }
{
    if number < 10 {
        format!(in alloc; "0{number}")
    } else {
        format!(in alloc; "{number}")
    }
}

/// A time of the day.
pub(crate) fn clock(alloc: Global, hour: u64, minute: u64) -> Result<String, AllocError>
    ensures { IfOk result (λ s. string_bytes s ≡ clock hour minute) }
{
    let hour = two(alloc, hour)?;
    let minute = two(alloc, minute)?;
    let (hour, minute) = (hour.as_str(), minute.as_str());
    format!(in alloc; "{hour}:{minute}")
}

/// A date and a time of the day.
pub(crate) fn civil_text(alloc: Global, civil: Civil) -> Result<String, AllocError>
    ensures { IfOk result (λ s. string_bytes s ≡ civil_text civil) }
{
    let year = civil.year.unsigned_abs();
    let month = two(alloc, civil.month as u64)?;
    let day = two(alloc, civil.day as u64)?;
    let time = clock(alloc, civil.hour as u64, civil.minute as u64)?;
    let (month, day, time) = (month.as_str(), day.as_str(), time.as_str());
    format!(in alloc; "{year}-{month}-{day}T{time}")
}

fn sign(offset: i64) -> &'static str
    ensures { result.now ≡ sign offset }
{
    if offset < 0 { "-" } else { "+" }
}

// Seconds beyond whole minutes, where there are some.
fn odd_seconds(alloc: Global, seconds: u64) -> Result<String, AllocError>
    ensures { IfOk result (λ s. string_bytes s ≡ odd_seconds seconds) }
{
    if seconds == 0 {
        return Ok(String::new(alloc));
    }
    let seconds = two(alloc, seconds)?;
    let seconds = seconds.as_str();
    format!(in alloc; ":{seconds}")
}

/// How far a clock is ahead of UTC.
pub(crate) fn offset_text(alloc: Global, offset: i64) -> Result<String, AllocError>
    ensures { IfOk result (λ s. string_bytes s ≡ offset_text offset) }
{
    let ahead = offset.unsigned_abs();
    let time = clock(alloc, ahead / 3_600, ahead % 3_600 / 60)?;
    let seconds = odd_seconds(alloc, ahead % 60)?;
    let (sign, time, seconds) = (sign(offset), time.as_str(), seconds.as_str());
    format!(in alloc; "{sign}{time}{seconds}")
}

fn days_text(alloc: Global, days: u64) -> Result<String, AllocError>
    ensures { IfOk result (λ s. string_bytes s ≡ days_text days) }
{
    if days == 0 {
        return Ok(String::new(alloc));
    }
    format!(in alloc; "{days}d ")
}

/// A number of seconds, as people read it.
pub(crate) fn span_text(alloc: Global, span: u64) -> Result<String, AllocError>
    ensures { IfOk result (λ s. string_bytes s ≡ span_text span) }
{
    let days = days_text(alloc, span / 86_400)?;
    let time = clock(alloc, span % 86_400 / 3_600, span % 3_600 / 60)?;
    let seconds = odd_seconds(alloc, span % 60)?;
    let (days, time, seconds) = (days.as_str(), time.as_str(), seconds.as_str());
    format!(in alloc; "{days}{time}{seconds}")
}
