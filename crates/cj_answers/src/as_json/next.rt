// The next due times as JSON.
ghost use Rattle.std.specs.Prelude.{◌≡◌, map, IfOk, IfErr, string_bytes};
ghost use Rattle.cj_base.specs.declared.refusal.Refusal.TheVariants.{OutOfMemory};
ghost use Rattle.serde_json.specs.View.{view};
ghost use Rattle.cj_json.specs.Values.{time_data};
ghost use Rattle.cj_answers.specs.as_json.Next.{IsNextJson, next_data, next_object, zone_data};

use crate::as_json::forms::value_line;
use cj_args::NextRequest;
use cj_base::{Refusal, Seconds};
use cj_json::{push_value, time_value};
use cj_schedule::Schedule;
use cj_upcoming::coming_times;
use cj_zone::Zone;
use serde_json::{Value, json};
use std::alloc::{AllocError, Global};

/// These times.
pub(crate) fn time_values(alloc: Global, times: &[Seconds]) -> Result<Vec<Value>, Refusal>
    ensures ok { IfOk result (λ v. map view v.items ≡ map time_data times.now) }
    ensures err { IfErr result (λ e. e ≡ OutOfMemory) }
{
    let mut values = Vec::new(alloc);
    for time in times {
        let value = time_value(alloc, *time)?;
        push_value(&mut values, value)?;
    }
    Ok(values)
}

/// The zone, as the words give it.
pub(crate) fn zone_value(
    alloc: Global,
    name: Option<&str>,
    rule: Option<&str>,
) -> Result<Value, AllocError>
    ensures { IfOk result (λ v. view v ≡ zone_data name.entry rule.entry) }
{
    match (name, rule) {
        (Some(name), _) => Value::try_from_str(alloc, name),
        (None, Some(rule)) => Value::try_from_str(alloc, rule),
        (None, None) => Ok(Value::Null),
    }
}

fn next_object(
    alloc: Global,
    schedule: &str,
    after: Value,
    zone: Value,
    times: Value,
) -> Result<Value, AllocError>
    ensures { IfOk result (λ v. view v
        ≡ next_object schedule.now (view after) (view zone) (view times)) }
{
    json!(in alloc; {
        "after": after,
        "schedule": schedule,
        "timeZone": zone,
        "times": times
    })
}

fn next_value(
    alloc: Global,
    next: &NextRequest<'_>,
    after: Seconds,
    times: &[Seconds],
) -> Result<Value, Refusal>
    ensures ok { IfOk result (λ v. view v ≡ next_data next.now after times.now) }
    ensures err { IfErr result (λ e. e ≡ OutOfMemory) }
{
    let after = time_value(alloc, after)?;
    let zone = zone_value(alloc, next.time_zone, next.zone)?;
    let times = Value::Array(time_values(alloc, times)?);
    Ok(next_object(alloc, next.schedule, after, zone, times)?)
}

/// The due times that `next` is asked for, after `after`, as one JSON value.
pub(crate) fn next_json(
    alloc: Global,
    next: &NextRequest<'_>,
    schedule: &Schedule,
    zone: &Zone,
    after: Seconds,
) -> Result<String, Refusal>
    ensures ok { IfOk result (λ s. IsNextJson next.now schedule.now zone.now after
        (string_bytes s)) }
    ensures err { IfErr result (λ e. e ≡ OutOfMemory) }
{
    let times = coming_times(alloc, schedule, zone, after, next.count)?;
    let value = next_value(alloc, next, after, times.as_slice())?;
    Ok(value_line(alloc, &value)?)
}
