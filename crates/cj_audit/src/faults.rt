// Faults of a manifest as JSON.
ghost use Rattle.std.specs.Prelude.{◌≡◌, ◌++◌, ◌∷◌, [], map, IfOk, IfErr, OnOk, string_bytes};
ghost use Rattle.cj_base.specs.declared.refusal.Refusal.TheVariants.{OutOfMemory};
ghost use Rattle.serde_json.specs.View.{view};
ghost use Rattle.cj_audit.specs.Faults as json;

use cj_base::{Cause, FieldFault, Refusal, ScheduleFault};
use cj_json::push_value;
use serde_json::{Value, json};
use std::alloc::{AllocError, Global};

fn schedule_cause(alloc: Global, fault: ScheduleFault) -> Result<String, AllocError>
    ensures { IfOk result (λ s. string_bytes s ≡ json.schedule_cause fault) }
{
    let ScheduleFault { field, byte, cause } = fault;
    let cause = cause.name();
    format!(in alloc; "Schedule {field} {byte} {cause}")
}

/// A cause by its name, as lines and JSON values have it.
pub fn cause_text(alloc: Global, cause: Cause) -> Result<String, AllocError>
    ensures { IfOk result (λ s. string_bytes s ≡ json.cause_text cause) }
{
    let word = match cause {
        Cause::Required => "Required",
        Cause::WrongType => "Type",
        Cause::NotSupported => "NotSupported",
        Cause::Fraction => "Fraction",
        Cause::TooLong => "TooLong",
        Cause::Format => "Format",
        Cause::Range => "Range",
        Cause::Zone => "Zone",
        Cause::NotAllowed => "NotAllowed",
        Cause::Schedule(fault) => return schedule_cause(alloc, fault),
    };
    String::from_str(alloc, word)
}

fn fault_object(alloc: Global, cause: &str, field: &str) -> Result<Value, AllocError>
    ensures { IfOk result (λ v. view v ≡ json.fault_object cause.now field.now) }
{
    json!(in alloc; {"cause": cause, "field": field})
}

fn fault_value(alloc: Global, fault: FieldFault) -> Result<Value, Refusal>
    ensures ok { IfOk result (λ v. view v ≡ json.fault_data fault) }
    ensures err { IfErr result (λ e. e ≡ OutOfMemory) }
{
    let FieldFault { field, cause } = fault;
    let cause = cause_text(alloc, cause)?;
    Ok(fault_object(alloc, cause.as_str(), field.path())?)
}

fn fault_values(alloc: Global, faults: &[FieldFault]) -> Result<Vec<Value>, Refusal>
    ensures ok { IfOk result (λ v. map view v.items ≡ map json.fault_data faults.now) }
    ensures err { IfErr result (λ e. e ≡ OutOfMemory) }
{
    let mut values = Vec::new(alloc);
    for fault in faults {
        let value = fault_value(alloc, *fault)?;
        push_value(&mut values, value)?;
    }
    Ok(values)
}

/// An array of the faults in their order, each with its field and its cause.
pub fn faults_value(alloc: Global, faults: &[FieldFault]) -> Result<Value, Refusal>
    ensures ok { IfOk result (λ v. view v ≡ json.faults_data faults.now) }
    ensures err { IfErr result (λ e. e ≡ OutOfMemory) }
{
    Ok(Value::Array(fault_values(alloc, faults)?))
}

fn one_object(alloc: Global, cause: &str, field: &str) -> Result<Value, AllocError>
    ensures { IfOk result (λ v. view v ≡ json.one_fault cause.now field.now) }
{
    json!(in alloc; [{"cause": cause, "field": field}])
}

/// An array with one fault, of that cause and at that field.
pub fn one_fault(alloc: Global, cause: &str, field: &str) -> Result<Value, Refusal>
    ensures ok { IfOk result (λ v. view v ≡ json.one_fault cause.now field.now) }
    ensures err { IfErr result (λ e. e ≡ OutOfMemory) }
{
    Ok(one_object(alloc, cause, field)?)
}
