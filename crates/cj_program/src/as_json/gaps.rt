// The due times of a run that got no Job, as JSON.
ghost use Rattle.std.specs.Prelude.{◌≡◌, IfOk, IfErr, map};
ghost use Rattle.cj_base.specs.declared.refusal.Refusal.TheVariants.{OutOfMemory};
ghost use Rattle.serde_json.specs.View.{view};
ghost use Rattle.cj_program.specs.as_json.Gaps as json;

use cj_history::{Gap, Why};
use cj_json::{push_value, time_value};
use cj_types::{Key, Refusal};
use serde_json::{Value, json};
use std::alloc::{AllocError, Global};

fn cause_name(why: Why) -> &'static str
    ensures { result.now ≡ json.cause_name why }
{
    match why {
        Why::Suspended => "Suspended",
        Why::TooLate => "TooLate",
        Why::Forbidden => "Forbidden",
        Why::Earlier => "Earlier",
        Why::NameTaken => "NameTaken",
        Why::NotMade => "NotMade",
        Why::NeverSynced => "NeverSynced",
    }
}

fn gap_object(alloc: Global, cause: &str, key: &Key, time: Value) -> Result<Value, AllocError>
    ensures { IfOk result (λ v. view v
        ≡ json.gap_object cause.now key.now.name key.now.namespace (view time)) }
{
    let (cron, namespace) = (key.name(), key.namespace());
    json!(in alloc; {
        "cause": cause,
        "cronJob": cron,
        "namespace": namespace,
        "time": time
    })
}

fn gap_value(alloc: Global, gap: &Gap) -> Result<Value, Refusal>
    ensures ok { IfOk result (λ v. view v ≡ json.gap_data gap.now) }
    ensures err { IfErr result (λ e. e ≡ OutOfMemory) }
{
    let time = time_value(alloc, gap.time)?;
    let key = gap.cron.get().key.key();
    Ok(gap_object(alloc, cause_name(gap.why), key, time)?)
}

fn gap_values(alloc: Global, gaps: &[Gap]) -> Result<Vec<Value>, Refusal>
    ensures ok { IfOk result (λ v. map view v.items ≡ map json.gap_data gaps.now) }
    ensures err { IfErr result (λ e. e ≡ OutOfMemory) }
{
    let mut values = Vec::new(alloc);
    for gap in gaps {
        let value = gap_value(alloc, gap)?;
        push_value(&mut values, value)?;
    }
    Ok(values)
}

/// Due times that got no Job, each with its cause and the key of its CronJob.
pub(crate) fn gaps_value(alloc: Global, gaps: &[Gap]) -> Result<Value, Refusal>
    ensures ok { IfOk result (λ v. view v ≡ json.gaps_data gaps.now) }
    ensures err { IfErr result (λ e. e ≡ OutOfMemory) }
{
    Ok(Value::Array(gap_values(alloc, gaps)?))
}
