// Members of an object, each inserted by name.
ghost use Rattle.std.specs.Prelude.{◌≡◌, [], ◌∷◌, ◌++◌, map, IfOk, IfErr, OnOk};
ghost use Rattle.cj_base.specs.declared.refusal.Refusal.TheVariants.{OutOfMemory};
ghost use Rattle.serde_json.specs.Data.{boolean, number, string, unsigned, put as with_member, no_members};
ghost use Rattle.serde_json.specs.View.{view, members_view};
ghost use Rattle.cj_json.specs.Parts as part;

use cj_types::{Labels, Refusal, Seconds, Text};
use cj_zone::time_text;
use serde_json::{Map, Value, put};
use std::alloc::Global;

pub(crate) fn put_value(
    members: &mut Map<String, Value>,
    alloc: Global,
    name: &str,
    value: Value,
) -> Result<(), Refusal>
    ensures ok { OnOk result (members_view members.new.entries
        ≡ with_member name.now (view value) (members_view members.old.entries)) }
    ensures err { IfErr result (λ e. e ≡ OutOfMemory) }
{
    put(members, alloc, name, value)?;
    Ok(())
}

pub(crate) fn put_text(
    members: &mut Map<String, Value>,
    alloc: Global,
    name: &str,
    text: &str,
) -> Result<(), Refusal>
    ensures ok { OnOk result (members_view members.new.entries
        ≡ with_member name.now (string text.now) (members_view members.old.entries)) }
    ensures err { IfErr result (λ e. e ≡ OutOfMemory) }
{
    let value = Value::try_from_str(alloc, text)?;
    put_value(members, alloc, name, value)
}

pub(crate) fn put_number(
    members: &mut Map<String, Value>,
    alloc: Global,
    name: &str,
    count: u64,
) -> Result<(), Refusal>
    ensures ok { OnOk result (members_view members.new.entries
        ≡ with_member name.now (number (unsigned count)) (members_view members.old.entries)) }
    ensures err { IfErr result (λ e. e ≡ OutOfMemory) }
{
    put_value(members, alloc, name, Value::from(count))
}

pub(crate) fn put_truth(
    members: &mut Map<String, Value>,
    alloc: Global,
    name: &str,
    truth: bool,
) -> Result<(), Refusal>
    ensures ok { OnOk result (members_view members.new.entries
        ≡ with_member name.now (boolean truth) (members_view members.old.entries)) }
    ensures err { IfErr result (λ e. e ≡ OutOfMemory) }
{
    put_value(members, alloc, name, Value::from(truth))
}

pub(crate) fn put_time(
    members: &mut Map<String, Value>,
    alloc: Global,
    name: &str,
    time: Seconds,
) -> Result<(), Refusal>
    ensures ok { OnOk result (members_view members.new.entries
        ≡ part.put_time name.now time (members_view members.old.entries)) }
    ensures err { IfErr result (λ e. e ≡ OutOfMemory) }
{
    let text = time_text(alloc, time)?;
    put_value(members, alloc, name, Value::String(text))
}

pub(crate) fn put_some_text(
    members: &mut Map<String, Value>,
    alloc: Global,
    name: &str,
    text: &Option<Text>,
) -> Result<(), Refusal>
    ensures ok { OnOk result (members_view members.new.entries
        ≡ part.put_some_text name.now text.now (members_view members.old.entries)) }
    ensures err { IfErr result (λ e. e ≡ OutOfMemory) }
{
    match text {
        Some(found) => put_text(members, alloc, name, found.as_str()),
        None => Ok(()),
    }
}

pub(crate) fn put_some_number(
    members: &mut Map<String, Value>,
    alloc: Global,
    name: &str,
    count: Option<u64>,
) -> Result<(), Refusal>
    ensures ok { OnOk result (members_view members.new.entries
        ≡ part.put_some_number name.now count (members_view members.old.entries)) }
    ensures err { IfErr result (λ e. e ≡ OutOfMemory) }
{
    match count {
        Some(found) => put_number(members, alloc, name, found),
        None => Ok(()),
    }
}

pub(crate) fn put_some_time(
    members: &mut Map<String, Value>,
    alloc: Global,
    name: &str,
    time: Option<Seconds>,
) -> Result<(), Refusal>
    ensures ok { OnOk result (members_view members.new.entries
        ≡ part.put_some_time name.now time (members_view members.old.entries)) }
    ensures err { IfErr result (λ e. e ≡ OutOfMemory) }
{
    match time {
        Some(found) => put_time(members, alloc, name, found),
        None => Ok(()),
    }
}

pub(crate) fn put_some_object(
    members: &mut Map<String, Value>,
    alloc: Global,
    name: &str,
    inner: Map<String, Value>,
) -> Result<(), Refusal>
    ensures ok { OnOk result (members_view members.new.entries
        ≡ part.put_some_object name.now (members_view inner.entries)
        (members_view members.old.entries)) }
    ensures err { IfErr result (λ e. e ≡ OutOfMemory) }
{
    if inner.is_empty() {
        return Ok(());
    }
    put_value(members, alloc, name, Value::Object(inner))
}

pub(crate) fn put_some_list(
    members: &mut Map<String, Value>,
    alloc: Global,
    name: &str,
    items: Vec<Value>,
) -> Result<(), Refusal>
    ensures ok { OnOk result (members_view members.new.entries
        ≡ part.put_some_list name.now (map view items.items) (members_view members.old.entries)) }
    ensures err { IfErr result (λ e. e ≡ OutOfMemory) }
{
    if items.is_empty() {
        return Ok(());
    }
    put_value(members, alloc, name, Value::Array(items))
}

fn label_members(alloc: Global, labels: &[(Text, Text)]) -> Result<Map<String, Value>, Refusal>
    ensures ok { IfOk result (λ m. members_view m.entries
        ≡ part.label_members no_members labels.now) }
    ensures err { IfErr result (λ e. e ≡ OutOfMemory) }
{
    let mut members = Map::new(alloc);
    for label in labels {
        put_text(&mut members, alloc, label.0.as_str(), label.1.as_str())?;
    }
    Ok(members)
}

pub(crate) fn put_labels(
    members: &mut Map<String, Value>,
    alloc: Global,
    name: &str,
    labels: &Labels,
) -> Result<(), Refusal>
    ensures ok { OnOk result (members_view members.new.entries
        ≡ part.put_labels name.now labels.now (members_view members.old.entries)) }
    ensures err { IfErr result (λ e. e ≡ OutOfMemory) }
{
    if labels.is_empty() {
        return Ok(());
    }
    let inner = label_members(alloc, labels.as_slice())?;
    put_value(members, alloc, name, Value::Object(inner))
}
