// The faults of a manifest as JSON values, each in words.
ghost use Rattle.std.specs.Prelude.{◌≡◌, IfErr, IfOk, map};
ghost use Rattle.cj_base.specs.declared.refusal.Refusal.TheVariants.{OutOfMemory};
ghost use Rattle.serde_json.specs.View.{view};
ghost use Rattle.cj_explain.specs.ToldFaults.{told_data, told_faults, told_object};

use crate::fault::cause_of;
use cj_audit::cause_text;
use cj_base::{FieldFault, Refusal};
use cj_json::push_value;
use serde_json::{Value, json};
use std::alloc::{AllocError, Global};

fn told_object(alloc: Global, cause: &str, field: &str, message: &str) -> Result<Value, AllocError>
    ensures { IfOk result (λ v. view v ≡ told_object cause.now field.now message.now) }
{
    json!(in alloc; {"cause": cause, "field": field, "message": message})
}

fn told_fault(alloc: Global, fault: FieldFault) -> Result<Value, Refusal>
    ensures ok { IfOk result (λ v. view v ≡ told_data fault) }
    ensures err { IfErr result (λ e. e ≡ OutOfMemory) }
{
    let FieldFault { field, cause } = fault;
    let message = cause_of(alloc, field, cause)?;
    let cause = cause_text(alloc, cause)?;
    let path = field.path();
    Ok(told_object(alloc, cause.as_str(), path, message.as_str())?)
}

fn told_list(alloc: Global, faults: &[FieldFault]) -> Result<Vec<Value>, Refusal>
    ensures ok { IfOk result (λ v. map view v.items ≡ map told_data faults.now) }
    ensures err { IfErr result (λ e. e ≡ OutOfMemory) }
{
    let mut values = Vec::new(alloc);
    for fault in faults {
        let value = told_fault(alloc, *fault)?;
        push_value(&mut values, value)?;
    }
    Ok(values)
}

/// An array of the faults in their order, each with its field, its cause and what is wrong.
pub fn told_faults(alloc: Global, faults: &[FieldFault]) -> Result<Value, Refusal>
    ensures ok { IfOk result (λ v. view v ≡ told_faults faults.now) }
    ensures err { IfErr result (λ e. e ≡ OutOfMemory) }
{
    Ok(Value::Array(told_list(alloc, faults)?))
}
