// A plan as JSON.
ghost use Rattle.std.specs.Prelude.{◌≡◌, ◌++◌, ◌∷◌, [], map, IfOk, IfErr, OnOk, Some};
ghost use Rattle.cj_base.specs.declared.refusal.Refusal.TheVariants.{OutOfMemory};
ghost use Rattle.cj_types.specs.Printed.{reason_name};
ghost use Rattle.serde_json.specs.Data.{string};
ghost use Rattle.serde_json.specs.View.{view};
ghost use Rattle.cj_why.specs.reviews.PlanJson as json;

use cj_base::{all_four, all_three, both};
use cj_decide::{Claim, JobRef, Steps};
use cj_json::{object_of, push_value, time_or_null, time_value};
use cj_types::{CronStatus, JobDraft, ObjectName, Reason, Refusal, Seconds};
use serde_json::{Value, json};
use std::alloc::{AllocError, Global};

fn text_value(alloc: Global, text: &str) -> Result<Value, Refusal>
    ensures ok { IfOk result (λ v. view v ≡ string text.now) }
    ensures err { IfErr result (λ e. e ≡ OutOfMemory) }
{
    Ok(Value::try_from_str(alloc, text)?)
}

fn name_values(alloc: Global, names: &[ObjectName]) -> Result<Vec<Value>, Refusal>
    ensures ok { IfOk result (λ v. map view v.items ≡ map string names.now) }
    ensures err { IfErr result (λ e. e ≡ OutOfMemory) }
{
    let mut values = Vec::new(alloc);
    for name in names {
        let value = text_value(alloc, name.as_str())?;
        push_value(&mut values, value)?;
    }
    Ok(values)
}

/// Names in their order.
pub(crate) fn names_value(alloc: Global, names: &[ObjectName]) -> Result<Value, Refusal>
    ensures ok { IfOk result (λ v. view v ≡ json.texts_data names.now) }
    ensures err { IfErr result (λ e. e ≡ OutOfMemory) }
{
    Ok(Value::Array(name_values(alloc, names)?))
}

fn job_values(alloc: Global, jobs: &[JobRef]) -> Result<Vec<Value>, Refusal>
    ensures ok { IfOk result (λ v. map view v.items ≡ map (λ job. string job.key.name) jobs.now) }
    ensures err { IfErr result (λ e. e ≡ OutOfMemory) }
{
    let mut values = Vec::new(alloc);
    for job in jobs {
        let value = text_value(alloc, job.key.name())?;
        push_value(&mut values, value)?;
    }
    Ok(values)
}

/// The names of Jobs in their order.
pub(crate) fn jobs_value(alloc: Global, jobs: &[JobRef]) -> Result<Value, Refusal>
    ensures ok { IfOk result (λ v. view v ≡ json.jobs_data jobs.now) }
    ensures err { IfErr result (λ e. e ≡ OutOfMemory) }
{
    Ok(Value::Array(job_values(alloc, jobs)?))
}

fn reason_values(alloc: Global, reasons: &[Reason]) -> Result<Vec<Value>, Refusal>
    ensures ok { IfOk result (λ v. map view v.items
        ≡ map (λ reason. string (reason_name reason)) reasons.now) }
    ensures err { IfErr result (λ e. e ≡ OutOfMemory) }
{
    let mut values = Vec::new(alloc);
    for reason in reasons {
        let value = text_value(alloc, reason.name())?;
        push_value(&mut values, value)?;
    }
    Ok(values)
}

fn reasons_value(alloc: Global, reasons: &[Reason]) -> Result<Value, Refusal>
    ensures ok { IfOk result (λ v. view v ≡ json.reasons_data reasons.now) }
    ensures err { IfErr result (λ e. e ≡ OutOfMemory) }
{
    Ok(Value::Array(reason_values(alloc, reasons)?))
}

fn claim_value(alloc: Global, claim: &Option<Claim>) -> Result<Value, Refusal>
    ensures ok { IfOk result (λ v. view v ≡ json.claim_data claim.now) }
    ensures err { IfErr result (λ e. e ≡ OutOfMemory) }
{
    match claim {
        Some(claim) => time_value(alloc, claim.time),
        None => Ok(Value::Null),
    }
}

fn make_value(alloc: Global, make: &Option<JobDraft>) -> Result<Value, Refusal>
    ensures ok { IfOk result (λ v. view v ≡ json.make_data make.now) }
    ensures err { IfErr result (λ e. e ≡ OutOfMemory) }
{
    match make {
        Some(draft) => text_value(alloc, draft.key.name()),
        None => Ok(Value::Null),
    }
}

fn status_object(
    alloc: Global,
    active: Value,
    scheduled: Value,
    successful: Value,
) -> Result<Value, AllocError>
    ensures { IfOk result (λ v. view v
        ≡ json.status_object (view active) (view scheduled) (view successful)) }
{
    json!(in alloc; {
        "active": active,
        "lastScheduleTime": scheduled,
        "lastSuccessfulTime": successful
    })
}

fn some_status(alloc: Global, status: &CronStatus) -> Result<Value, Refusal>
    ensures ok { IfOk result (λ v. view v ≡ json.status_data (Some status.now)) }
    ensures err { IfErr result (λ e. e ≡ OutOfMemory) }
{
    let (active, scheduled, successful) = all_three(
        names_value(alloc, status.active.as_slice()),
        time_or_null(alloc, status.last_schedule_time),
        time_or_null(alloc, status.last_successful_time),
    )?;
    Ok(status_object(alloc, active, scheduled, successful)?)
}

fn status_value(alloc: Global, status: &Option<CronStatus>) -> Result<Value, Refusal>
    ensures ok { IfOk result (λ v. view v ≡ json.status_data status.now) }
    ensures err { IfErr result (λ e. e ≡ OutOfMemory) }
{
    match status {
        Some(status) => some_status(alloc, status),
        None => Ok(Value::Null),
    }
}

// The names of a plan's members.
const PLAN_NAMES: &[&str] = &[
    "claim", "clean", "drop", "make", "next", "reasons", "status",
];

// The steps up to the Job that is made, that one, and what comes after it.
fn plan_object(
    alloc: Global,
    before: (Value, Value, Value),
    make: Value,
    next: Value,
    reasons: Value,
    status: Value,
) -> Result<Value, AllocError>
    ensures { IfOk result (λ v. view v ≡ json.plan_object (view before.0) (view before.1)
        (view before.2) (view make) (view next) (view reasons) (view status)) }
{
    let (claim, clean, dropped) = before;
    let values = [claim, clean, dropped, make, next, reasons, status];
    object_of(alloc, PLAN_NAMES, values)
}

/// A plan: the claimed time, the Jobs that go before the one that is made and after it, that one,
/// the reasons, the status at the end, and when to look again.
pub fn plan_value(alloc: Global, steps: &Steps) -> Result<Value, Refusal>
    ensures ok { IfOk result (λ v. view v ≡ json.plan_data steps.now) }
    ensures err { IfErr result (λ e. e ≡ OutOfMemory) }
{
    let ((claim, clean, dropped), (make, next, reasons, status)) = both(
        all_three(
            claim_value(alloc, &steps.claim),
            jobs_value(alloc, steps.cleanup.as_slice()),
            jobs_value(alloc, steps.drop_first.as_slice()),
        ),
        all_four(
            make_value(alloc, &steps.make),
            time_or_null(alloc, steps.next),
            reasons_value(alloc, steps.reasons.as_slice()),
            status_value(alloc, &steps.status),
        ),
    )?;
    let before = (claim, clean, dropped);
    Ok(plan_object(alloc, before, make, next, reasons, status)?)
}
