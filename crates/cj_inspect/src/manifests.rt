// Lists of manifests: of CronJobs that no server has yet.
ghost use Rattle.std.specs.Prelude.{◌≡◌, IfErr};
ghost use Rattle.cj_base.specs.declared.refusal.Refusal.TheVariants.{OutOfMemory};

use cj_types::Refusal;
use serde_json::{Map, Value};
use std::alloc::Global;

fn text_at<'v>(value: &'v Value, name: &str) -> Option<&'v str> {
    value.get(name)?.as_str()
}

fn is_cron(value: &Value) -> bool {
    text_at(value, "kind") == Some("CronJob")
}

fn has(metadata: &Value, name: &str) -> bool {
    match metadata.get(name) {
        Some(value) => !value.is_null(),
        None => false,
    }
}

// Whether it has nothing that only a server gives.
fn is_bare(value: &Value) -> bool {
    match value.get("metadata") {
        Some(metadata) => !has(metadata, "uid") && !has(metadata, "creationTimestamp"),
        None => false,
    }
}

// Whether a CronJob is a manifest.
fn is_manifest(value: &Value) -> bool {
    is_cron(value) && is_bare(value)
}

// Whether a CronJob is one that a server has.
fn is_kept(value: &Value) -> bool {
    is_cron(value) && !is_bare(value)
}

fn put(
    alloc: Global,
    members: &mut Map<String, Value>,
    name: &str,
    text: &str,
) -> Result<(), Refusal>
    ensures { IfErr result (λ e. e ≡ OutOfMemory) }
{
    let name = String::from_str(alloc, name)?;
    let value = Value::try_from_str(alloc, text)?;
    match members.insert(name, value) {
        Ok(_) => Ok(()),
        Err(_) => Err(Refusal::OutOfMemory),
    }
}

// Adds what a server gives: a uid, here by the place in the list, and the time of its creation,
// which is before all others.
fn serve(alloc: Global, value: &mut Value, place: u64) -> Result<(), Refusal>
    ensures { IfErr result (λ e. e ≡ OutOfMemory) }
{
    let Some(metadata) = value.get_mut("metadata") else {
        return Ok(());
    };
    let Some(members) = metadata.as_object_mut() else {
        return Ok(());
    };
    let uid = format!(in alloc; "manifest {place}")?;
    put(alloc, members, "uid", uid.as_str())?;
    put(alloc, members, "creationTimestamp", "1970-01-01T00:00:00Z")
}

// The items of a list, taken out of it.
fn take_items(list: &mut Value) -> Option<Vec<Value>> {
    match list.get_mut("items")?.take() {
        Value::Array(items) => Some(items),
        _ => None,
    }
}

// Whether the items are manifests: some are, and no CronJob is one that a server has.
fn are_manifests(items: &[Value]) -> bool {
    let has_manifest = items.iter().any(is_manifest);
    let has_kept = items.iter().any(is_kept);
    has_manifest && !has_kept
}

// Makes each manifest what a server would have.
fn serve_all(alloc: Global, items: Vec<Value>) -> Result<Vec<Value>, Refusal>
    ensures { IfErr result (λ e. e ≡ OutOfMemory) }
{
    let mut served = Vec::new(alloc);
    let mut place: u64 = 0;
    for item in items {
        let mut item = item;
        place = place.saturating_add(1);
        if is_manifest(&item) {
            serve(alloc, &mut item, place)?;
        }
        served.push(item).map_err(|_| Refusal::OutOfMemory)?;
    }
    Ok(served)
}

// The text of the list with these items.
fn list_text(alloc: Global, mut list: Value, items: Vec<Value>) -> Result<Vec<u8>, Refusal>
    ensures { IfErr result (λ e. e ≡ OutOfMemory) }
{
    if let Some(place) = list.get_mut("items") {
        *place = Value::Array(items);
    }
    Ok(list.to_string(alloc)?.into_bytes())
}

/// The text of a list of manifests as a server would have it that has just taken them; none of
/// bytes that are no such list, or where a CronJob has what only a server gives.
///
/// # Errors
///
/// `OutOfMemory`.
pub(crate) fn served_text(alloc: Global, bytes: &[u8]) -> Result<Option<Vec<u8>>, Refusal>
    ensures { IfErr result (λ e. e ≡ OutOfMemory) }
{
    let mut list = match Value::from_slice(alloc, bytes) {
        Ok(list) => list,
        Err(error) if error.is_memory() => return Err(Refusal::OutOfMemory),
        Err(_) => return Ok(None),
    };
    let Some(items) = take_items(&mut list) else {
        return Ok(None);
    };
    if !are_manifests(items.as_slice()) {
        return Ok(None);
    }
    let items = serve_all(alloc, items)?;
    Ok(Some(list_text(alloc, list, items)?))
}
