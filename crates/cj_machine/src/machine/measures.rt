// What a controller tells of itself, for metrics and probes.
ghost use Rattle.std.specs.Prelude.{◌≤◌};

use crate::machine::clock::Difference;
use crate::machine::driver::Driver;
use crate::machine::numbers::{BOUNDS, Numbers};
use crate::source::Source;
use cj_base::{Refusal, Seconds, all_three, both};
use cj_json::{push_value, text_or_null, time_or_null};
use serde_json::{Map, Value, json, put};
use std::alloc::Global;

// After how many seconds without a line a list or a watch counts as dead.
const DEAD_AFTER: u64 = 330;

fn number(count: u64) -> Value {
    Value::from(count)
}

fn number_or_null(count: Option<u64>) -> Value {
    match count {
        Some(count) => Value::from(count),
        None => Value::Null,
    }
}

fn is_dead(driver: &Driver, source: Source) -> bool {
    match driver.feeds.age(source, driver.local()) {
        Some(age) => age > DEAD_AFTER,
        None => false,
    }
}

/// Why the controller isn't to be relied on yet; none where it is.
fn why_not_ready(driver: &Driver) -> Option<&'static str> {
    if driver.by.is_none() {
        return Some("the API server's /version isn't known yet");
    }
    if driver.feeds.is_refused(Source::Crons) {
        return Some("the API server refuses the list or the watch of CronJobs");
    }
    if driver.feeds.is_refused(Source::Jobs) {
        return Some("the API server refuses the list or the watch of Jobs");
    }
    if !driver.feeds.is_synced() {
        return Some("the lists of CronJobs and Jobs have not come to their end yet");
    }
    if driver.numbers.is_storm() {
        return Some("claims are refused by conflicts (409), and no Job was started");
    }
    if driver.is_stopping {
        return Some("it was told to stop");
    }
    None
}

/// Why the controller is to be started anew; none where it works.
fn why_not_healthy(driver: &Driver) -> Option<&'static str> {
    if is_dead(driver, Source::Crons) {
        return Some("no line of the list or the watch of CronJobs has come for long");
    }
    if is_dead(driver, Source::Jobs) {
        return Some("no line of the list or the watch of Jobs has come for long");
    }
    if driver.numbers.is_storm() {
        return Some("claims are refused by conflicts (409), and no Job was started");
    }
    None
}

// A bound of the histogram with its count.
fn bucket(alloc: Global, bound: u64, count: u64) -> Result<Value, Refusal> {
    Ok(json!(in alloc; [bound, count])?)
}

fn buckets(alloc: Global, numbers: &Numbers) -> Result<Value, Refusal> {
    let mut values = Vec::new(alloc);
    for (bound, count) in BOUNDS.iter().zip(numbers.delays.iter()) {
        push_value(&mut values, bucket(alloc, *bound, *count)?)?;
    }
    Ok(Value::Array(values))
}

fn delay(alloc: Global, numbers: &Numbers) -> Result<Value, Refusal> {
    let buckets = buckets(alloc, numbers)?;
    let (count, sum) = (numbers.starts, numbers.delay_sum);
    Ok(json!(in alloc; {"buckets": buckets, "count": count, "sum": sum})?)
}

fn ages(alloc: Global, driver: &Driver) -> Result<Value, Refusal> {
    let now = driver.local();
    let crons = number_or_null(driver.feeds.age(Source::Crons, now));
    let jobs = number_or_null(driver.feeds.age(Source::Jobs, now));
    Ok(json!(in alloc; {"cronjobs": crons, "jobs": jobs})?)
}

fn last_start(alloc: Global, numbers: &Numbers) -> Result<Value, Refusal> {
    let at = match numbers.last_start {
        0 => None,
        at => Seconds::new(at),
    };
    time_or_null(alloc, at)
}

// What was counted.
const COUNTS: &[&str] = &[
    "conflicts",
    "cronJobs",
    "jobs",
    "missed",
    "queued",
    "refusedCreates",
    "starts",
    "syncs",
    "underWay",
];

fn counts(driver: &Driver) -> [Value; 9] {
    let (numbers, mirror) = (&driver.numbers, driver.feeds.mirror());
    [
        number(numbers.conflicts),
        number(mirror.cron_count()),
        number(mirror.job_count()),
        number(numbers.missed),
        number(driver.queue.len() as u64),
        number(numbers.refused_creates),
        number(numbers.starts),
        number(numbers.syncs),
        number(driver.tasks.len() as u64),
    ]
}

// How it is.
const STATES: &[&str] = &["healthy", "ready", "synced", "whyNotHealthy", "whyNotReady"];

fn states(alloc: Global, driver: &Driver) -> Result<[Value; 5], Refusal> {
    let (sick, unready) = (why_not_healthy(driver), why_not_ready(driver));
    let (why_not_healthy, why_not_ready) = both(
        text_or_null(alloc, sick),
        text_or_null(alloc, unready),
    )?;
    Ok([
        Value::from(sick.is_none()),
        Value::from(unready.is_none()),
        Value::from(driver.feeds.is_synced()),
        why_not_healthy,
        why_not_ready,
    ])
}

// By how many seconds the machine's clock is ahead of the server's; negative where it is behind.
fn offset(driver: &Driver) -> Value {
    match driver.clock.difference() {
        Some(Difference::Ahead(seconds)) => Value::from(seconds),
        Some(Difference::Behind(seconds)) => behind(seconds),
        None => Value::from(0_u64),
    }
}

fn behind(seconds: u64) -> Value {
    match i64::try_from(seconds) {
        Ok(seconds) => Value::from(0_i64.saturating_sub(seconds)),
        Err(_) => Value::Null,
    }
}

// Its clocks and times.
const TIMES: &[&str] = &["clockOffset", "delay", "lastStart", "watchAges"];

fn times(alloc: Global, driver: &Driver) -> Result<[Value; 4], Refusal> {
    let (delay, last_start, ages) = all_three(
        delay(alloc, &driver.numbers),
        last_start(alloc, &driver.numbers),
        ages(alloc, driver),
    )?;
    Ok([offset(driver), delay, last_start, ages])
}

// Puts these values under these names.
fn put_values<const N: usize>(
    alloc: Global,
    members: &mut Map<String, Value>,
    names: &[&str],
    values: [Value; N],
) -> Result<(), Refusal>
    requires { N ≤ 64 }
{
    let mut names = names.iter();
    for value in values {
        if let Some(name) = names.next() {
            put(members, alloc, name, value)?;
        }
    }
    Ok(())
}

/// What a controller tells of itself: an object of counts, states and times.
pub(crate) fn measures_of(alloc: Global, driver: &Driver) -> Result<Value, Refusal> {
    let mut members = Map::new(alloc);
    put_values(alloc, &mut members, COUNTS, counts(driver))?;
    put_values(alloc, &mut members, STATES, states(alloc, driver)?)?;
    put_values(alloc, &mut members, TIMES, times(alloc, driver)?)?;
    Ok(Value::Object(members))
}
