// The names of zones in an input.
ghost use Rattle.std.specs.Prelude.{◌≡◌, ◌++◌, OnOk, IfOk, IfErr};
ghost use Rattle.cj_base.specs.declared.refusal.Refusal.TheVariants.{OutOfMemory};
ghost use Rattle.serde_json.specs.View.{view, items_view, members_view};
ghost use Rattle.cj_io.specs.zone_files.Named.{AreZonesNamed, zone_in, zones_in, zones_in_items, zones_in_members};

use crate::zone_files::name_list::ZoneNames;
use crate::zone_files::pruned::pruned_value;
use cj_base::{Refusal, Text};
use serde_json::{Map, Value};
use std::alloc::Global;

// The text of a member, where that is named `timeZone`.
fn push_zone(alloc: Global, names: &mut ZoneNames, key: &str, member: &Value) -> Result<(), Refusal>
    ensures ok { OnOk result (names.new ≡ names.old ++ zone_in key.now (view member.now)) }
    ensures memory { IfErr result (λ e. e ≡ OutOfMemory) }
{
    if key == "timeZone" {
        if let Some(name) = member.as_str() {
            names.push(Text::new(alloc, name)?)?;
        }
    }
    Ok(())
}

// The names in a value; where memory is wanted, some of them may have been added.
#[cycle(zones)]
fn push_zones(alloc: Global, names: &mut ZoneNames, value: &Value) -> Result<(), Refusal>
    ensures ok { OnOk result (names.new ≡ names.old ++ zones_in (view value.now)) }
    ensures memory { IfErr result (λ e. e ≡ OutOfMemory) }
{
    match value {
        Value::Null => Ok(()),
        Value::Bool(_) => Ok(()),
        Value::Number(_) => Ok(()),
        Value::String(_) => Ok(()),
        Value::Array(items) => push_in_items(alloc, names, items),
        Value::Object(members) => push_in_members(alloc, names, members),
    }
}

#[cycle(zones)]
fn push_in_items(alloc: Global, names: &mut ZoneNames, items: &Vec<Value>) -> Result<(), Refusal>
    ensures ok { OnOk result (names.new
        ≡ names.old ++ zones_in_items (items_view items.now.items)) }
    ensures memory { IfErr result (λ e. e ≡ OutOfMemory) }
{
    for item in items {
        push_zones(alloc, names, item)?;
    }
    Ok(())
}

#[cycle(zones)]
fn push_in_members(
    alloc: Global,
    names: &mut ZoneNames,
    members: &Map<String, Value>,
) -> Result<(), Refusal>
    ensures ok { OnOk result (names.new
        ≡ names.old ++ zones_in_members (members_view members.now.entries)) }
    ensures memory { IfErr result (λ e. e ≡ OutOfMemory) }
{
    for (key, member) in members.iter() {
        push_zone(alloc, names, key.as_str(), member)?;
        push_zones(alloc, names, member)?;
    }
    Ok(())
}

/// The names in a value, in their order. The only error is want of memory.
pub(crate) fn names_in(alloc: Global, value: &Value) -> Result<ZoneNames, Refusal>
    ensures ok { IfOk result (λ names. names ≡ zones_in (view value.now)) }
    ensures memory { IfErr result (λ e. e ≡ OutOfMemory) }
{
    let mut names = ZoneNames::new(alloc);
    push_zones(alloc, &mut names, value)?;
    Ok(names)
}

// Reads the bytes as a whole, as a value.
fn named_whole(alloc: Global, bytes: &[u8]) -> Result<ZoneNames, Refusal>
    ensures named { IfOk result (λ names. AreZonesNamed bytes.now names) }
    ensures memory { IfErr result (λ e. e ≡ OutOfMemory) }
{
    match Value::from_slice(alloc, bytes) {
        Ok(value) => names_in(alloc, &value),
        Err(error) if error.is_memory() => Err(Refusal::OutOfMemory),
        Err(_) => Ok(ZoneNames::new(alloc)),
    }
}

/// The texts of the members named `timeZone`, wherever they stand in the JSON value that the bytes
/// are, in their order there; none where the bytes are no JSON. The only error is want of memory.
pub fn zones_named(alloc: Global, bytes: &[u8]) -> Result<ZoneNames, Refusal>
    ensures named { IfOk result (λ names. AreZonesNamed bytes.now names) }
    ensures memory { IfErr result (λ e. e ≡ OutOfMemory) }
{
    match pruned_value(alloc, bytes) {
        Ok(value) => names_in(alloc, &value),
        Err(Refusal::OutOfMemory) => Err(Refusal::OutOfMemory),
        Err(_) => named_whole(alloc, bytes),
    }
}
