// What `check` finds, as JSON values.
ghost use Rattle.std.specs.Prelude.{◌≡◌, ◌++◌, ◌∷◌, [], IfErr, IfOk, List, OnOk, Some, map, string_bytes, true};
ghost use Rattle.cj_base.specs.declared.refusal.Refusal.TheVariants.{OutOfMemory};
ghost use Rattle.cj_manifest.specs.Either.{key_of, kind_of, manifest_faults};
ghost use Rattle.cj_manifest.specs.Reading.{IsRefused};
ghost use Rattle.cj_zone.specs.Table.{zones_of};
ghost use Rattle.serde_json.specs.Data.{array, string};
ghost use Rattle.serde_json.specs.View.{items_of, view};
ghost use Rattle.cj_audit.specs.Faults.{faults_data};
ghost use Rattle.cj_base.specs.declared.faults.FieldFault.{FieldFault as Fault};
ghost use Rattle.cj_explain.specs.ToldFaults as told;
ghost use Rattle.cj_answers.specs.as_json.Forms.{IsJsonLine};
ghost use Rattle.cj_check.specs.AsJson.{IsFaultyData, IsItemData, check_data, faulty_item, fine_item, item_object, place_data, refused_item, syntax_item, taken_item, unread_line};

use crate::said_object::{home_in, kind_in, meta_in, text_value};
use cj_answers::value_line;
use cj_base::FieldFault;
use cj_explain::told_faults;
use cj_manifest::{Manifest, Warning};
use cj_scenario::{SceneFault, value_of};
use cj_types::{Key, Refusal};
use cj_zone::ZoneTable;
use serde_json::{Value, json};
use std::alloc::{AllocError, Global};

/// The place of an item in its list, from 1.
pub(crate) fn place_value(place: u64) -> Value
    ensures { view result ≡ place_data (Some place) }
{
    Value::from(place)
}

fn item_object(
    alloc: Global,
    place: Value,
    faults: Value,
    kind: Value,
    name: Value,
    namespace: &str,
) -> Result<Value, AllocError>
    ensures { IfOk result (λ v. view v ≡ item_object (view faults) (view place) (view kind)
        (view name) (string namespace.now) (array (items_of []))) }
{
    json!(in alloc; {
        "faults": faults,
        "item": place,
        "kind": kind,
        "name": name,
        "namespace": namespace,
        "warnings": []
    })
}

fn refused_item(alloc: Global, place: Value, faults: Value) -> Result<Value, AllocError>
    ensures { IfOk result (λ v. view v ≡ refused_item (view place) (view faults)) }
{
    json!(in alloc; {
        "faults": faults,
        "item": place,
        "kind": null,
        "name": null,
        "namespace": null,
        "warnings": []
    })
}

fn syntax_item(alloc: Global, place: Value) -> Result<Value, AllocError>
    ensures { IfOk result (λ v. view v ≡ syntax_item (view place)) }
{
    let faults = json!(in alloc; [{
        "cause": "Syntax",
        "field": null,
        "message": "neither JSON nor YAML"
    }])?;
    refused_item(alloc, place, faults)
}

// The value of a manifest with these faults, by what its value says of the object.
fn said_item(alloc: Global, place: Value, said: &Value, faults: Value) -> Result<Value, AllocError>
    ensures { (fs : List Fault) → view faults ≡ told.told_faults fs
        → IfOk result (λ v. view v ≡ faulty_item (view place) (view said.now) fs) }
{
    let kind = text_value(alloc, kind_in(said))?;
    let name = text_value(alloc, meta_in(said, "name"))?;
    item_object(alloc, place, faults, kind, name, home_in(said))
}

fn faulty_item(
    alloc: Global,
    place: Value,
    bytes: &[u8],
    faults: &[FieldFault],
) -> Result<Value, Refusal>
    ensures ok { IfOk result (λ v. IsFaultyData (view place) faults.now bytes.now (view v)) }
    ensures err { IfErr result (λ e. e ≡ OutOfMemory) }
{
    let faults = told_faults(alloc, faults)?;
    match value_of(alloc, bytes) {
        Ok(value) => Ok(said_item(alloc, place, &value, faults)?),
        Err(SceneFault::Memory) => Err(Refusal::OutOfMemory),
        Err(_) => Ok(refused_item(alloc, place, faults)?),
    }
}

fn push_path(alloc: Global, values: &mut Vec<Value>, warning: &Warning) -> Result<(), AllocError>
    ensures { OnOk result (map view values.new.items
        ≡ map view values.old.items ++ (string warning.now ∷ [])) }
{
    let value = Value::try_from_str(alloc, warning.path())?;
    values.push(value).map_err(AllocError::from)
}

fn paths(alloc: Global, warnings: &[Warning]) -> Result<Vec<Value>, AllocError>
    ensures { IfOk result (λ v. map view v.items ≡ map string warnings.now) }
{
    let mut values = Vec::new(alloc);
    for warning in warnings {
        push_path(alloc, &mut values, warning)?;
    }
    Ok(values)
}

fn fine_object(
    alloc: Global,
    place: Value,
    kind: &str,
    key: &Key,
    paths: Value,
) -> Result<Value, AllocError>
    ensures { IfOk result (λ v. view v ≡ item_object (faults_data []) (view place)
        (string kind.now) (string key.now.name) (string key.now.namespace) (view paths)) }
{
    json!(in alloc; {
        "faults": [],
        "item": place,
        "kind": kind,
        "name": key.name(),
        "namespace": key.namespace(),
        "warnings": paths
    })
}

/// The value of a manifest without a fault.
pub(crate) fn fine_item(
    alloc: Global,
    place: Value,
    manifest: &Manifest,
    warnings: &[Warning],
) -> Result<Value, AllocError>
    ensures { IfOk result (λ v. view v
        ≡ fine_item (view place) (kind_of manifest.now) (key_of manifest.now) warnings.now) }
{
    let paths = Value::Array(paths(alloc, warnings)?);
    fine_object(alloc, place, manifest.kind(), manifest.key(), paths)
}

/// The value of bytes that are refused.
pub(crate) fn refused_value(
    alloc: Global,
    place: Value,
    zones: &ZoneTable,
    bytes: &[u8],
    refusal: &Refusal,
) -> Result<Value, Refusal>
    requires { IsRefused (manifest_faults (zones_of zones.now)) bytes.now refusal.now }
    ensures { IfOk result (λ v. IsItemData (zones_of zones.now) (view place) bytes.now (view v)) }
{
    match refusal {
        Refusal::Syntax => Ok(syntax_item(alloc, place)?),
        Refusal::Invalid(faults) => faulty_item(alloc, place, bytes, faults.as_slice()),
        _ => Err(Refusal::OutOfMemory),
    }
}

/// The value of an item whose key an earlier item of its kind has.
pub(crate) fn taken_item(alloc: Global, place: Value) -> Result<Value, AllocError>
    ensures { IfOk result (λ v. view v ≡ taken_item (view place)) }
{
    let faults = json!(in alloc; [{
        "cause": "NotAllowed",
        "field": "metadata.name",
        "message": "an earlier item of this kind has this name"
    }])?;
    refused_item(alloc, place, faults)
}

fn check_value(
    alloc: Global,
    file: &str,
    items: Vec<Value>,
    read: bool,
) -> Result<Value, AllocError>
    ensures { IfOk result (λ v. view v ≡ check_data file.now (map view items.items) read) }
{
    let items = Value::Array(items);
    json!(in alloc; {"file": file, "items": items, "read": read})
}

/// The values of the items of a file, on a line.
pub(crate) fn check_line(alloc: Global, file: &str, items: Vec<Value>) -> Result<String, AllocError>
    ensures { IfOk result (λ s. IsJsonLine (check_data file.now (map view items.items) true)
        (string_bytes s)) }
{
    let value = check_value(alloc, file, items, true)?;
    value_line(alloc, &value)
}

/// The line of a file that can't be read.
pub(crate) fn unread_line(alloc: Global, file: &str) -> Result<String, AllocError>
    ensures { IfOk result (λ s. string_bytes s ≡ unread_line file.now) }
{
    let value = check_value(alloc, file, Vec::new(alloc), false)?;
    value_line(alloc, &value)
}
