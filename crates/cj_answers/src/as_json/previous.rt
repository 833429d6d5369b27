// The last due times as JSON.
ghost use Rattle.std.specs.Prelude.{◌≡◌, IfOk, IfErr, string_bytes};
ghost use Rattle.cj_base.specs.declared.refusal.Refusal.TheVariants.{OutOfMemory};
ghost use Rattle.serde_json.specs.View.{view};
ghost use Rattle.cj_answers.specs.as_json.Previous.{IsPreviousJson, previous_data, previous_object};

use crate::as_json::forms::value_line;
use crate::as_json::next::{time_values, zone_value};
use crate::previous_times::times_before;
use cj_args::PreviousRequest;
use cj_base::{Refusal, Seconds};
use cj_json::time_value;
use cj_schedule::Schedule;
use cj_zone::Zone;
use serde_json::{Value, json};
use std::alloc::{AllocError, Global};

fn previous_object(
    alloc: Global,
    schedule: &str,
    before: Value,
    zone: Value,
    times: Value,
) -> Result<Value, AllocError>
    ensures { IfOk result (λ v. view v
        ≡ previous_object schedule.now (view before) (view zone) (view times)) }
{
    json!(in alloc; {
        "before": before,
        "schedule": schedule,
        "timeZone": zone,
        "times": times
    })
}

fn previous_value(
    alloc: Global,
    previous: &PreviousRequest<'_>,
    before: Seconds,
    times: &[Seconds],
) -> Result<Value, Refusal>
    ensures ok { IfOk result (λ v. view v ≡ previous_data previous.now before times.now) }
    ensures err { IfErr result (λ e. e ≡ OutOfMemory) }
{
    let before = time_value(alloc, before)?;
    let zone = zone_value(alloc, previous.time_zone, previous.zone)?;
    let times = Value::Array(time_values(alloc, times)?);
    Ok(previous_object(alloc, previous.schedule, before, zone, times)?)
}

/// The due times that `previous` is asked for, as one JSON value.
pub(crate) fn previous_json(
    alloc: Global,
    previous: &PreviousRequest<'_>,
    schedule: &Schedule,
    zone: &Zone,
    before: Seconds,
) -> Result<String, Refusal>
    ensures ok { IfOk result (λ s. IsPreviousJson previous.now schedule.now zone.now before
        (string_bytes s)) }
    ensures err { IfErr result (λ e. e ≡ OutOfMemory) }
{
    let times = times_before(alloc, schedule, zone, before, previous.count)?;
    let value = previous_value(alloc, previous, before, times.as_slice())?;
    Ok(value_line(alloc, &value)?)
}
