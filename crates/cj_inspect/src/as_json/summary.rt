// The starts of each CronJob in a window, as JSON.
ghost use Rattle.std.specs.Prelude.{◌≡◌, IfErr};
ghost use Rattle.cj_base.specs.declared.refusal.Refusal.TheVariants.{OutOfMemory};

use crate::schedules::{spec_of, zone_name};
use crate::upcoming::coming::{Coming, coming_of};
use crate::upcoming::sums::Sum;
use cj_base::{all_three, both};
use cj_cluster::ClusterCron;
use cj_json::{object_of, push_value, text_or_null, time_or_null};
use cj_types::{Refusal, Shared};
use cj_upcoming::Window;
use cj_zone::ZoneTable;
use serde_json::Value;
use std::alloc::{AllocError, Global};

// How many seconds there are, null where none are told.
fn every_value(every: Option<u64>) -> Value {
    match every {
        Some(every) => Value::from(every),
        None => Value::Null,
    }
}

// The first of its starts, the last, and the next one.
fn time_values(alloc: Global, coming: &Coming) -> Result<(Value, Value, Value), Refusal> {
    all_three(
        time_or_null(alloc, coming.sum.first),
        time_or_null(alloc, coming.sum.last),
        time_or_null(alloc, coming.next),
    )
}

// Its name and its namespace.
fn key_values(alloc: Global, coming: &Coming) -> Result<(Value, Value), Refusal> {
    let key = coming.cron.get().cron.get().key.key();
    both(
        text_or_null(alloc, Some(key.name())),
        text_or_null(alloc, Some(key.namespace())),
    )
}

// Its schedule, that in a sentence, and its time zone.
fn schedule_values(alloc: Global, coming: &Coming) -> Result<(Value, Value, Value), Refusal> {
    let spec = spec_of(coming.cron.get());
    all_three(
        text_or_null(alloc, Some(spec.schedule.as_str())),
        text_or_null(alloc, Some(coming.words.as_str())),
        text_or_null(alloc, Some(zone_name(spec))),
    )
}

// The names of its members.
const SUMMARY_NAMES: &[&str] = &[
    "everySeconds",
    "first",
    "last",
    "name",
    "namespace",
    "next",
    "schedule",
    "sentence",
    "starts",
    "timeZone",
];

fn object(
    alloc: Global,
    sum: Sum,
    times: (Value, Value, Value),
    key: (Value, Value),
    words: (Value, Value, Value),
) -> Result<Value, AllocError> {
    let (every, starts) = (every_value(sum.every), Value::from(sum.count));
    let (first, last, next) = times;
    let (name, namespace) = key;
    let (schedule, sentence, zone) = words;
    let values = [
        every, first, last, name, namespace, next, schedule, sentence, starts, zone,
    ];
    object_of(alloc, SUMMARY_NAMES, values)
}

fn value(alloc: Global, coming: &Coming) -> Result<Value, Refusal> {
    let (times, key, words) = all_three(
        time_values(alloc, coming),
        key_values(alloc, coming),
        schedule_values(alloc, coming),
    )?;
    Ok(object(alloc, coming.sum, times, key, words)?)
}

fn values(alloc: Global, all: &[Coming]) -> Result<Vec<Value>, Refusal> {
    let mut values = Vec::new(alloc);
    for coming in all {
        let value = value(alloc, coming)?;
        push_value(&mut values, value)?;
    }
    Ok(values)
}

/// An object for each CronJob that starts something from the window's start on.
pub(crate) fn summary_value(
    alloc: Global,
    zones: &ZoneTable,
    window: &Window,
    crons: &[Shared<ClusterCron>],
) -> Result<Value, Refusal>
    ensures err { IfErr result (λ e. e ≡ OutOfMemory) }
{
    match coming_of(alloc, zones, window, crons) {
        Ok(all) => match values(alloc, all.as_slice()) {
            Ok(values) => Ok(Value::Array(values)),
            Err(_) => Err(Refusal::OutOfMemory),
        },
        Err(_) => Err(Refusal::OutOfMemory),
    }
}
