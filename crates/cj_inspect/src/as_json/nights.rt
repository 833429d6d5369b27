// The local times that clocks skip, or show twice, as JSON.
ghost use Rattle.std.specs.Prelude.{◌≡◌, IfErr, IfOk, map};
ghost use Rattle.cj_base.specs.declared.refusal.Refusal.TheVariants.{OutOfMemory};
ghost use Rattle.serde_json.specs.View.{view};
ghost use Rattle.cj_inspect.specs.Nights.{IsNightData};

use crate::nights::{Look, Night, Parts, nights_of, parts_of};
use cj_base::{all_three, both};
use cj_cluster::ClusterCron;
use cj_json::{object_of, push_value, text_or_null};
use cj_types::{Key, Refusal, Shared};
use cj_zone::ZoneTable;
use serde_json::{Value, json};
use std::alloc::{AllocError, Global};

fn key_value(alloc: Global, key: &Key) -> Result<Value, AllocError> {
    json!(in alloc; {"name": key.name(), "namespace": key.namespace()})
}

fn key_values(alloc: Global, crons: &[Key]) -> Result<Vec<Value>, Refusal>
    ensures { IfErr result (λ e. e ≡ OutOfMemory) }
{
    let mut values = Vec::new(alloc);
    for key in crons {
        let value = key_value(alloc, key)?;
        push_value(&mut values, value)?;
    }
    Ok(values)
}

// What the clock does with the local time.
fn change_word(fate: &str) -> &'static str {
    if fate == "is skipped" {
        "skips"
    } else {
        "repeats"
    }
}

// What the clock does, the local time of which it does so, and the zone.
fn clock_values(
    alloc: Global,
    zone: &str,
    parts: &Parts<'_>,
) -> Result<(Value, Value, Value), Refusal>
    ensures { IfErr result (λ e. e ≡ OutOfMemory) }
{
    all_three(
        text_or_null(alloc, Some(change_word(parts.fate))),
        text_or_null(alloc, Some(parts.named)),
        text_or_null(alloc, Some(zone)),
    )
}

// From where to where the clock goes, and when.
fn span_values(alloc: Global, parts: &Parts<'_>) -> Result<(Value, Value, Value), Refusal>
    ensures { IfErr result (λ e. e ≡ OutOfMemory) }
{
    all_three(
        text_or_null(alloc, Some(parts.from)),
        text_or_null(alloc, Some(parts.to)),
        text_or_null(alloc, Some(parts.time)),
    )
}

// The names of its members.
const NIGHT_NAMES: &[&str] = &[
    "change", "cronJobs", "from", "local", "time", "timeZone", "to",
];

fn night_object(
    alloc: Global,
    clock: (Value, Value, Value),
    span: (Value, Value, Value),
    crons: Value,
) -> Result<Value, AllocError> {
    let (change, local, zone) = clock;
    let (from, to, time) = span;
    let values = [change, crons, from, local, time, zone, to];
    object_of(alloc, NIGHT_NAMES, values)
}

// The value for a local time, with its CronJobs.
fn night_value(alloc: Global, zone: &str, parts: &Parts<'_>, crons: Value) -> Result<Value, Refusal>
    ensures { IfErr result (λ e. e ≡ OutOfMemory) }
{
    let (clock, span) = both(clock_values(alloc, zone, parts), span_values(alloc, parts))?;
    Ok(night_object(alloc, clock, span, crons)?)
}

fn push_night(alloc: Global, values: &mut Vec<Value>, night: &Night) -> Result<(), Refusal>
    ensures { IfErr result (λ e. e ≡ OutOfMemory) }
{
    let Some(parts) = parts_of(night.line.as_str()) else {
        return Ok(());
    };
    let crons = Value::Array(key_values(alloc, night.crons.as_slice())?);
    let value = night_value(alloc, night.zone.as_str(), &parts, crons)?;
    push_value(values, value)
}

fn night_values(alloc: Global, nights: &[Night]) -> Result<Vec<Value>, Refusal>
    ensures { IfErr result (λ e. e ≡ OutOfMemory) }
{
    let mut values = Vec::new(alloc);
    for night in nights {
        push_night(alloc, &mut values, night)?;
    }
    Ok(values)
}

fn array_value(values: Vec<Value>) -> Value
    ensures { IsNightData (view result) }
{
    Value::Array(values)
}

/// The local times that clocks skip, or show twice, and that schedules of these CronJobs name, in
/// the order of time, each with the CronJobs.
pub(crate) fn nights_value(
    alloc: Global,
    zones: &ZoneTable,
    look: &Look,
    crons: &[Shared<ClusterCron>],
) -> Result<Value, Refusal>
    ensures ok { IfOk result (λ v. IsNightData (view v)) }
    ensures err { IfErr result (λ e. e ≡ OutOfMemory) }
{
    let found = nights_of(alloc, zones, look, crons)?;
    Ok(array_value(night_values(alloc, found.nights.as_slice())?))
}
