// The items of a list that are refused, as JSON: which object each is, and what is wrong with it.
ghost use Rattle.std.specs.Prelude.{◌≡◌, ◌++◌, Some, None, map, IfOk, IfErr, OnOk};
ghost use Rattle.cj_base.specs.declared.refusal.Refusal.TheVariants.{OutOfMemory};
ghost use Rattle.serde_json.specs.View.{view};
ghost use Rattle.cj_explain.specs.RefusedItems as json;

use crate::taken::taken_message;
use crate::told::told_faults;
use cj_base::{FieldFault, Refusal};
use cj_cluster::{ItemNote, ListedKind, ObjectNamed, Said};
use cj_json::push_value;
use serde_json::{Value, json};
use std::alloc::{AllocError, Global};

fn named_object(
    alloc: Global,
    place: u64,
    object: &ObjectNamed,
    faults: Value,
) -> Result<Value, AllocError>
    ensures { IfOk result (λ v. view v
        ≡ json.item_object place (Some object.now) (view faults)) }
{
    json!(in alloc; {
        "faults": faults,
        "item": place,
        "kind": object.kind.as_str(),
        "name": object.name.as_str(),
        "namespace": object.namespace.as_str()
    })
}

fn nameless_object(alloc: Global, place: u64, faults: Value) -> Result<Value, AllocError>
    ensures { IfOk result (λ v. view v ≡ json.item_object place None (view faults)) }
{
    json!(in alloc; {
        "faults": faults,
        "item": place,
        "kind": null,
        "name": null,
        "namespace": null
    })
}

// An item with its faults, and which object it is, as far as its value says it.
fn item_object(
    alloc: Global,
    place: u64,
    object: &Option<ObjectNamed>,
    faults: Value,
) -> Result<Value, AllocError>
    ensures { IfOk result (λ v. view v ≡ json.item_object place object.now (view faults)) }
{
    match object {
        Some(object) => named_object(alloc, place, object, faults),
        None => nameless_object(alloc, place, faults),
    }
}

fn item_value(
    alloc: Global,
    place: u64,
    object: &Option<ObjectNamed>,
    faults: &[FieldFault],
) -> Result<Value, Refusal>
    ensures ok { IfOk result (λ v. view v ≡ json.item_data place object.now faults.now) }
    ensures err { IfErr result (λ e. e ≡ OutOfMemory) }
{
    let faults = told_faults(alloc, faults)?;
    Ok(item_object(alloc, place, object, faults)?)
}

// The one fault of an item whose name an earlier item of its kind has.
fn taken_faults(alloc: Global, kind: ListedKind, key: &str) -> Result<Value, AllocError>
    ensures { IfOk result (λ v. view v ≡ json.taken_faults kind key.now) }
{
    let message = taken_message(alloc, kind, key)?;
    let message = message.as_str();
    json!(in alloc; [{"cause": "NotAllowed", "field": "metadata.name", "message": message}])
}

fn taken_value(
    alloc: Global,
    place: u64,
    object: &Option<ObjectNamed>,
    kind: ListedKind,
    key: &str,
) -> Result<Value, AllocError>
    ensures { IfOk result (λ v. view v ≡ json.taken_data place object.now kind key.now) }
{
    let faults = taken_faults(alloc, kind, key)?;
    item_object(alloc, place, object, faults)
}

fn push_refused(alloc: Global, values: &mut Vec<Value>, note: &ItemNote) -> Result<(), Refusal>
    ensures ok { OnOk result (map view values.new.items ≡ map view values.old.items
        ++ json.refused_by note.now.place note.now.object note.now.said) }
    ensures err { IfErr result (λ e. e ≡ OutOfMemory) }
{
    match &note.said {
        Said::Kind(_) => Ok(()),
        Said::Refused(faults) => {
            let value = item_value(alloc, note.place, &note.object, faults.as_slice())?;
            push_value(values, value)
        }
        Said::Taken(kind, key) => {
            let value = taken_value(alloc, note.place, &note.object, *kind, key.as_str())?;
            push_value(values, value)
        }
    }
}

fn refused_items(alloc: Global, notes: &[ItemNote]) -> Result<Vec<Value>, Refusal>
    ensures ok { IfOk result (λ v. map view v.items ≡ json.refused_items notes.now) }
    ensures err { IfErr result (λ e. e ≡ OutOfMemory) }
{
    let mut values = Vec::new(alloc);
    for note in notes {
        push_refused(alloc, &mut values, note)?;
    }
    Ok(values)
}

/// An array of the refused items, each with its place, which object it is, and its faults in words.
pub fn refused_value(alloc: Global, notes: &[ItemNote]) -> Result<Value, Refusal>
    ensures ok { IfOk result (λ v. view v ≡ json.refused_data notes.now) }
    ensures err { IfErr result (λ e. e ≡ OutOfMemory) }
{
    Ok(Value::Array(refused_items(alloc, notes)?))
}
