// A Job's status.
ghost use Rattle.std.specs.Prelude.{◌≡◌, IfOk, IfErr};
ghost use Rattle.cj_base.specs.declared.refusal.Refusal.TheVariants.{OutOfMemory};
ghost use Rattle.serde_json.specs.View.{view, members_view};
ghost use Rattle.cj_json.specs.Objects as object;

use crate::members::{put_text, put_time, put_value};
use crate::meta::metadata;
use crate::object::object_value;
use crate::values::push_value;
use cj_base::both;
use cj_types::{Job, Outcome, Refusal, Seconds};
use serde_json::{Map, Value};
use std::alloc::Global;

fn condition(alloc: Global, kind: &str) -> Result<Value, Refusal>
    ensures ok { IfOk result (λ v. view v ≡ object.condition kind.now) }
    ensures err { IfErr result (λ e. e ≡ OutOfMemory) }
{
    let mut members = Map::new(alloc);
    let status = put_text(&mut members, alloc, "status", "True");
    let kind = put_text(&mut members, alloc, "type", kind);
    both(status, kind)?;
    Ok(Value::Object(members))
}

fn one_condition(alloc: Global, kind: &str) -> Result<Map<String, Value>, Refusal>
    ensures ok { IfOk result (λ m. members_view m.entries ≡ object.one_condition kind.now) }
    ensures err { IfErr result (λ e. e ≡ OutOfMemory) }
{
    let condition = condition(alloc, kind)?;
    let mut items = Vec::new(alloc);
    let pushed = push_value(&mut items, condition);
    let mut members = Map::new(alloc);
    let put = put_value(&mut members, alloc, "conditions", Value::Array(items));
    both(pushed, put)?;
    Ok(members)
}

fn complete_members(alloc: Global, time: Seconds) -> Result<Map<String, Value>, Refusal>
    ensures ok { IfOk result (λ m. members_view m.entries ≡ object.complete_members time) }
    ensures err { IfErr result (λ e. e ≡ OutOfMemory) }
{
    let mut members = one_condition(alloc, "Complete")?;
    put_time(&mut members, alloc, "completionTime", time)?;
    Ok(members)
}

fn ended_members(alloc: Global, outcome: Outcome) -> Result<Map<String, Value>, Refusal>
    ensures ok { IfOk result (λ m. members_view m.entries ≡ object.ended_members outcome) }
    ensures err { IfErr result (λ e. e ≡ OutOfMemory) }
{
    match outcome {
        Outcome::Failed => one_condition(alloc, "Failed"),
        Outcome::Complete(time) => complete_members(alloc, time),
    }
}

fn status_members(alloc: Global, outcome: &Option<Outcome>) -> Result<Map<String, Value>, Refusal>
    ensures ok { IfOk result (λ m. members_view m.entries ≡ object.job_status_members outcome.now) }
    ensures err { IfErr result (λ e. e ≡ OutOfMemory) }
{
    match outcome {
        None => Ok(Map::new(alloc)),
        Some(found) => ended_members(alloc, *found),
    }
}

/// The JSON object of a Job, whose spec is given as a value.
pub(crate) fn job_value(alloc: Global, job: &Job, spec: Value) -> Result<Value, Refusal>
    ensures ok { IfOk result (λ v. view v ≡ object.job_data job.now (view spec)) }
    ensures err { IfErr result (λ e. e ≡ OutOfMemory) }
{
    let (metadata, status) = both(
        metadata(alloc, &job.key, &job.meta, job.owners.as_slice()),
        status_members(alloc, &job.outcome),
    )?;
    object_value(alloc, "Job", metadata, spec, status)
}
