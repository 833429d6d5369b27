// The reasons of a run's syncs, as JSON.
ghost use Rattle.std.specs.Prelude.{◌≡◌, IfOk, IfErr, map};
ghost use Rattle.cj_base.specs.declared.refusal.Refusal.TheVariants.{OutOfMemory};
ghost use Rattle.serde_json.specs.View.{view};
ghost use Rattle.cj_program.specs.as_json.Marks as json;

use cj_json::{push_value, time_or_null};
use cj_report::Mark;
use cj_types::{Key, Refusal};
use serde_json::{Value, json};
use std::alloc::{AllocError, Global};

fn reason_object(alloc: Global, key: &Key, reason: &str, at: Value) -> Result<Value, AllocError>
    ensures { IfOk result (λ v. view v
        ≡ json.reason_object key.now.name key.now.namespace reason.now (view at)) }
{
    let (cron, namespace) = (key.name(), key.namespace());
    json!(in alloc; {
        "cronJob": cron,
        "namespace": namespace,
        "reason": reason,
        "time": at
    })
}

fn mark_value(alloc: Global, mark: &Mark) -> Result<Value, Refusal>
    ensures ok { IfOk result (λ v. view v ≡ json.mark_data mark.now) }
    ensures err { IfErr result (λ e. e ≡ OutOfMemory) }
{
    let at = time_or_null(alloc, mark.at)?;
    Ok(reason_object(alloc, &mark.key, mark.reason.name(), at)?)
}

fn mark_values(alloc: Global, marks: &[Mark]) -> Result<Vec<Value>, Refusal>
    ensures ok { IfOk result (λ v. map view v.items ≡ map json.mark_data marks.now) }
    ensures err { IfErr result (λ e. e ≡ OutOfMemory) }
{
    let mut values = Vec::new(alloc);
    for mark in marks {
        let value = mark_value(alloc, mark)?;
        push_value(&mut values, value)?;
    }
    Ok(values)
}

/// The reasons of syncs, each with the key of its CronJob, and when.
pub(crate) fn marks_value(alloc: Global, marks: &[Mark]) -> Result<Value, Refusal>
    ensures ok { IfOk result (λ v. view v ≡ json.marks_data marks.now) }
    ensures err { IfErr result (λ e. e ≡ OutOfMemory) }
{
    Ok(Value::Array(mark_values(alloc, marks)?))
}
