// The next times of a schedule, as JSON.
ghost use Rattle.std.specs.Prelude.{◌≡◌, ◌++◌, ◌∷◌, [], IfOk, IfErr, OnOk, map};
ghost use Rattle.cj_base.specs.declared.refusal.Refusal.TheVariants.{OutOfMemory};
ghost use Rattle.serde_json.specs.View.{view};
ghost use Rattle.cj_upcoming.specs.json.Coming.{AreTimes, changes_along, coming_data, time_object, times_data};

use crate::changes::offset;
use crate::clocks::{civil_text, offset_text};
use crate::json::changes::push_changes;
use crate::part::day_name;
use cj_base::{Refusal, Seconds};
use cj_due::next_after;
use cj_json::{push_value, time_value};
use cj_schedule::Schedule;
use cj_zone::{Zone, local};
use serde_json::{Value, json};
use std::alloc::{AllocError, Global};

fn push_time(times: &mut Vec<Seconds>, time: Seconds) -> Result<(), Refusal>
    ensures ok { OnOk result (times.new.items ≡ times.old.items ++ (time ∷ [])) }
    ensures err { IfErr result (λ e. e ≡ OutOfMemory) }
{
    times.push(time).map_err(AllocError::from)?;
    Ok(())
}

/// The next `count` times of a schedule on a zone's clock, each the least one after the one before;
/// fewer where nothing is due within 3,000 days.
pub fn coming_times(
    alloc: Global,
    schedule: &Schedule,
    zone: &Zone,
    start: Seconds,
    count: u16,
) -> Result<Vec<Seconds>, Refusal>
    ensures ok { IfOk result (λ v. AreTimes schedule.now zone.now start count v.items) }
    ensures memory { IfErr result (λ e. e ≡ OutOfMemory) }
{
    let mut times = Vec::new(alloc);
    let mut at = start;
    for _ in 0..count {
        match next_after(schedule, zone, at) {
            Some(t) => {
                push_time(&mut times, t)?;
                at = t;
            }
            None => return Ok(times),
        }
    }
    Ok(times)
}

fn time_object(
    alloc: Global,
    span: u64,
    day: &str,
    shown: Value,
    ahead: Value,
    utc: Value,
) -> Result<Value, AllocError>
    ensures { IfOk result (λ v. view v
        ≡ time_object span day.now (view shown) (view ahead) (view utc)) }
{
    json!(in alloc; {
        "inSeconds": span,
        "local": shown,
        "offset": ahead,
        "utc": utc,
        "weekday": day
    })
}

fn coming_time(alloc: Global, zone: &Zone, start: Seconds, time: Seconds) -> Result<Value, Refusal>
    ensures ok { IfOk result (λ v. view v ≡ coming_data zone.now start time) }
    ensures err { IfErr result (λ e. e ≡ OutOfMemory) }
{
    let civil = local(zone, time);
    let day = day_name(civil.weekday);
    let shown = Value::String(civil_text(alloc, civil)?);
    let ahead = Value::String(offset_text(alloc, offset(zone, time))?);
    let utc = time_value(alloc, time)?;
    let span = time.get().saturating_sub(start.get());
    Ok(time_object(alloc, span, day, shown, ahead, utc)?)
}

fn time_values(
    alloc: Global,
    zone: &Zone,
    start: Seconds,
    times: &[Seconds],
) -> Result<Vec<Value>, Refusal>
    ensures ok { IfOk result (λ v. map view v.items ≡ map (coming_data zone.now start) times.now) }
    ensures err { IfErr result (λ e. e ≡ OutOfMemory) }
{
    let mut values = Vec::new(alloc);
    for time in times {
        let value = coming_time(alloc, zone, start, *time)?;
        push_value(&mut values, value)?;
    }
    Ok(values)
}

/// These times: how far off each is, the local time, how far the clock is ahead of UTC, the time in
/// UTC, and its day of the week.
pub fn coming_value(
    alloc: Global,
    zone: &Zone,
    start: Seconds,
    times: &[Seconds],
) -> Result<Value, Refusal>
    ensures ok { IfOk result (λ v. view v ≡ times_data zone.now start times.now) }
    ensures memory { IfErr result (λ e. e ≡ OutOfMemory) }
{
    Ok(Value::Array(time_values(alloc, zone, start, times)?))
}

/// What the clock skips or shows twice on the way from an instant to the last of these times.
pub fn coming_changes(
    alloc: Global,
    zone: &Zone,
    start: Seconds,
    times: &[Seconds],
) -> Result<Vec<Value>, Refusal>
    ensures ok { IfOk result (λ v. map view v.items ≡ changes_along zone.now start times.now) }
    ensures memory { IfErr result (λ e. e ≡ OutOfMemory) }
{
    let mut values = Vec::new(alloc);
    let mut after = start;
    for time in times {
        push_changes(alloc, &mut values, zone, after, *time)?;
        after = *time;
    }
    Ok(values)
}
