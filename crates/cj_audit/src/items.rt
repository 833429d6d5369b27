// The items of a list that are neither a CronJob nor a Job, as JSON.
ghost use Rattle.std.specs.Prelude.{◌≡◌, ◌++◌, map, IfOk, IfErr, OnOk};
ghost use Rattle.cj_base.specs.declared.refusal.Refusal.TheVariants.{OutOfMemory};
ghost use Rattle.serde_json.specs.View.{view};
ghost use Rattle.cj_audit.specs.Items as json;

use cj_base::Refusal;
use cj_cluster::{ItemNote, Said};
use cj_json::push_value;
use serde_json::{Value, json};
use std::alloc::{AllocError, Global};

fn kind_value(alloc: Global, place: u64, kind: &str) -> Result<Value, AllocError>
    ensures { IfOk result (λ v. view v ≡ json.kind_data place kind.now) }
{
    json!(in alloc; {"item": place, "kind": kind})
}

fn push_other(alloc: Global, values: &mut Vec<Value>, note: &ItemNote) -> Result<(), Refusal>
    ensures ok { OnOk result (map view values.new.items ≡ map view values.old.items
        ++ json.other_by note.now.place note.now.said) }
    ensures err { IfErr result (λ e. e ≡ OutOfMemory) }
{
    match &note.said {
        Said::Kind(kind) => {
            let value = kind_value(alloc, note.place, kind.as_str())?;
            push_value(values, value)
        }
        Said::Refused(_) | Said::Taken(_, _) => Ok(()),
    }
}

fn other_items(alloc: Global, notes: &[ItemNote]) -> Result<Vec<Value>, Refusal>
    ensures ok { IfOk result (λ v. map view v.items ≡ json.other_items notes.now) }
    ensures err { IfErr result (λ e. e ≡ OutOfMemory) }
{
    let mut values = Vec::new(alloc);
    for note in notes {
        push_other(alloc, &mut values, note)?;
    }
    Ok(values)
}

/// An array of the items that are neither a CronJob nor a Job, each with its place and its kind.
pub fn others_value(alloc: Global, notes: &[ItemNote]) -> Result<Value, Refusal>
    ensures ok { IfOk result (λ v. view v ≡ json.others_data notes.now) }
    ensures err { IfErr result (λ e. e ≡ OutOfMemory) }
{
    Ok(Value::Array(other_items(alloc, notes)?))
}
