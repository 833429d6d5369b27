// What `describe` answers, as JSON.
ghost use Rattle.std.specs.Prelude.{◌≡◌, IfOk, IfErr, string_bytes};
ghost use Rattle.cj_base.specs.declared.refusal.Refusal.TheVariants.{OutOfMemory};
ghost use Rattle.serde_json.specs.Data.{array};
ghost use Rattle.serde_json.specs.View.{items_of, view};
ghost use Rattle.cj_upcoming.specs.Sentence.{sentence};
ghost use Rattle.cj_upcoming.specs.json.Coming.{changes_along};
ghost use Rattle.cj_answers.specs.as_json.Describe.{IsDescribeJson, describe_data, describe_object, first_line};

use crate::as_json::forms::value_line;
use crate::as_json::next::zone_value;
use cj_args::DescribeRequest;
use cj_base::{Refusal, Seconds};
use cj_json::time_value;
use cj_schedule::Schedule;
use cj_upcoming::{coming_changes, coming_times, coming_value, sentence};
use cj_zone::Zone;
use serde_json::{Value, json};
use std::alloc::{AllocError, Global};

// A text up to the end of its first line.
fn first_line(text: &str) -> &str
    ensures { result.now ≡ first_line text.now }
{
    match text.split_once('\n') {
        Some((line, _)) => line,
        None => text,
    }
}

// The first line that `describe` prints.
fn sentence_line(alloc: Global, schedule: &Schedule, zone: &Zone) -> Result<String, Refusal>
    ensures ok { IfOk result (λ s. string_bytes s
        ≡ first_line (sentence schedule.now zone.now.name)) }
    ensures err { IfErr result (λ e. e ≡ OutOfMemory) }
{
    let text = sentence(alloc, schedule, zone.name())?;
    Ok(String::from_str(alloc, first_line(text.as_str()))?)
}

// Where the clock is put on the way from one time to the next.
fn changes_value(
    alloc: Global,
    zone: &Zone,
    start: Seconds,
    times: &[Seconds],
) -> Result<Value, Refusal>
    ensures ok { IfOk result (λ v. view v
        ≡ array (items_of (changes_along zone.now start times.now))) }
    ensures err { IfErr result (λ e. e ≡ OutOfMemory) }
{
    Ok(Value::Array(coming_changes(alloc, zone, start, times)?))
}

fn describe_object(
    alloc: Global,
    after: Value,
    changes: Value,
    schedule: &str,
    sentence: &str,
    zone: Value,
    times: Value,
) -> Result<Value, AllocError>
    ensures { IfOk result (λ v. view v ≡ describe_object (view after) (view changes)
        schedule.now sentence.now (view zone) (view times)) }
{
    json!(in alloc; {
        "after": after,
        "changes": changes,
        "schedule": schedule,
        "sentence": sentence,
        "timeZone": zone,
        "times": times
    })
}

fn describe_value(
    alloc: Global,
    describe: &DescribeRequest<'_>,
    schedule: &Schedule,
    zone: &Zone,
    start: Seconds,
    times: &[Seconds],
) -> Result<Value, Refusal>
    ensures ok { IfOk result (λ v. view v
        ≡ describe_data describe.now schedule.now zone.now start times.now) }
    ensures err { IfErr result (λ e. e ≡ OutOfMemory) }
{
    let after = time_value(alloc, start)?;
    let changes = changes_value(alloc, zone, start, times)?;
    let line = sentence_line(alloc, schedule, zone)?;
    let given = zone_value(alloc, describe.time_zone, describe.zone)?;
    let times = coming_value(alloc, zone, start, times)?;
    Ok(describe_object(
        alloc,
        after,
        changes,
        describe.schedule,
        line.as_str(),
        given,
        times,
    )?)
}

/// The sentence of a schedule and its next times, as one JSON value.
pub(crate) fn describe_json(
    alloc: Global,
    describe: &DescribeRequest<'_>,
    schedule: &Schedule,
    zone: &Zone,
    start: Seconds,
) -> Result<String, Refusal>
    ensures ok { IfOk result (λ s. IsDescribeJson describe.now schedule.now zone.now start
        (string_bytes s)) }
    ensures err { IfErr result (λ e. e ≡ OutOfMemory) }
{
    let times = coming_times(alloc, schedule, zone, start, describe.count)?;
    let value = describe_value(alloc, describe, schedule, zone, start, times.as_slice())?;
    Ok(value_line(alloc, &value)?)
}
