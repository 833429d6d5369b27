// What starts in a window, as JSON.
ghost use Rattle.std.specs.Prelude.{◌≡◌, ◌++◌, ◌∷◌, [], List, All, IfOk, IfErr, OnOk, map, option_copied, slice_get};
ghost use Rattle.cj_base.specs.declared.refusal.Refusal.TheVariants.{OutOfMemory};
ghost use Rattle.serde_json.specs.View.{view};
ghost use Rattle.cj_upcoming.specs.declared.minute.Minute.{Minute};
ghost use Rattle.cj_upcoming.specs.Minutes.{minutes, IsPeaks, IsWithin};
ghost use Rattle.cj_upcoming.specs.json.Minutes.{cron_at, crons_in, key_data, minute_data, minute_object, minutes_data};

use crate::minute::Minute;
use crate::minutes::minutes_of;
use crate::peaks::peaks;
use crate::start::Start;
use cj_cluster::ClusterCron;
use cj_json::{push_value, time_value};
use cj_types::{Key, Refusal, Shared};
use serde_json::{Value, json};
use std::alloc::{AllocError, Global};

fn key_value(alloc: Global, key: &Key) -> Result<Value, AllocError>
    ensures { IfOk result (λ v. view v ≡ key_data key.now) }
{
    json!(in alloc; {"name": key.name(), "namespace": key.namespace()})
}

fn push_cron(alloc: Global, values: &mut Vec<Value>, cron: &ClusterCron) -> Result<(), AllocError>
    ensures { OnOk result (map view values.new.items
        ≡ map view values.old.items ++ (key_data cron.now.cron.key ∷ [])) }
{
    let value = key_value(alloc, cron.cron.get().key.key())?;
    values.push(value).map_err(AllocError::from)
}

// The CronJob, if there is one.
fn push_some(
    alloc: Global,
    values: &mut Vec<Value>,
    cron: Option<&Shared<ClusterCron>>,
) -> Result<(), AllocError>
    ensures { OnOk result (map view values.new.items
        ≡ map view values.old.items ++ cron_at (option_copied cron.entry)) }
{
    match cron {
        Some(cron) => push_cron(alloc, values, cron.get()),
        None => Ok(()),
    }
}

// The CronJob at a place, if there is one.
fn push_at(
    alloc: Global,
    values: &mut Vec<Value>,
    crons: &[Shared<ClusterCron>],
    place: usize,
) -> Result<(), AllocError>
    ensures { OnOk result (map view values.new.items
        ≡ map view values.old.items ++ cron_at (slice_get crons.now place)) }
{
    push_some(alloc, values, crons.get(place))
}

fn cron_values(
    alloc: Global,
    crons: &[Shared<ClusterCron>],
    starts: &[Start],
) -> Result<Vec<Value>, Refusal>
    ensures ok { IfOk result (λ v. map view v.items ≡ crons_in crons.now starts.now) }
    ensures err { IfErr result (λ e. e ≡ OutOfMemory) }
{
    let mut values = Vec::new(alloc);
    for start in starts {
        push_at(alloc, &mut values, crons, start.cron)?;
    }
    Ok(values)
}

fn minute_object(
    alloc: Global,
    count: usize,
    crons: Value,
    time: Value,
) -> Result<Value, AllocError>
    ensures { IfOk result (λ v. view v ≡ minute_object count (view crons) (view time)) }
{
    json!(in alloc; {"count": count, "cronJobs": crons, "time": time})
}

fn minute_value(
    alloc: Global,
    crons: &[Shared<ClusterCron>],
    starts: &[Start],
    minute: &Minute,
) -> Result<Value, Refusal>
    requires { IsWithin starts.now minute.now }
    ensures ok { IfOk result (λ v. view v ≡ minute_data crons.now starts.now minute.now) }
    ensures err { IfErr result (λ e. e ≡ OutOfMemory) }
{
    let time = time_value(alloc, minute.time)?;
    let crons = Value::Array(cron_values(
        alloc,
        crons,
        &starts[minute.first..minute.first + minute.count],
    )?);
    Ok(minute_object(alloc, minute.count, crons, time)?)
}

fn minute_values(
    alloc: Global,
    crons: &[Shared<ClusterCron>],
    starts: &[Start],
    minutes: &[Minute],
) -> Result<Vec<Value>, Refusal>
    requires { All (IsWithin starts.now) minutes.now }
    ensures ok { IfOk result (λ v. map view v.items
        ≡ map (minute_data crons.now starts.now) minutes.now) }
    ensures err { IfErr result (λ e. e ≡ OutOfMemory) }
{
    let mut values = Vec::new(alloc);
    for minute in minutes {
        let value = minute_value(alloc, crons, starts, minute)?;
        push_value(&mut values, value)?;
    }
    Ok(values)
}

/// Each minute in which something starts, in their order: its time, how many CronJobs start then,
/// and which.
pub fn starts_value(
    alloc: Global,
    crons: &[Shared<ClusterCron>],
    starts: &[Start],
) -> Result<Value, Refusal>
    ensures ok { IfOk result (λ v. view v
        ≡ minutes_data crons.now starts.now (minutes starts.now)) }
    ensures memory { IfErr result (λ e. e ≡ OutOfMemory) }
{
    let minutes = minutes_of(alloc, starts)?;
    Ok(Value::Array(minute_values(alloc, crons, starts, minutes.as_slice())?))
}

/// The fullest minutes, at most `most`, the fullest first. Of two that are as full the earlier
/// comes first.
pub fn peaks_value(
    alloc: Global,
    crons: &[Shared<ClusterCron>],
    starts: &[Start],
    most: usize,
) -> Result<Value, Refusal>
    ensures ok { IfOk result (λ v. (peaks : List Minute)
        × IsPeaks most (minutes starts.now) peaks
        × (view v ≡ minutes_data crons.now starts.now peaks)) }
    ensures memory { IfErr result (λ e. e ≡ OutOfMemory) }
{
    let peaks = peaks(alloc, starts, most)?;
    Ok(Value::Array(minute_values(alloc, crons, starts, peaks.as_slice())?))
}
