// The keys of a run's `runs` that no CronJob has.
ghost use Rattle.std.specs.Prelude.{◌≡◌, ◌++◌, IfOk, OnOk, codes, option_map, string_bytes};
ghost use Rattle.serde_json.specs.View.{view, items_view, members_view};
ghost use Rattle.cj_manifest.specs.Owners.{text_at as text_in};
ghost use Rattle.cj_check.specs.Strays.{IsStrays, any_edit, any_has, edit_has, edits_have, has_key, is_used, items_in, key_of, seeds_have, stray_line, strays_in, strays_of, text_or};

use cj_io::Failure;
use cj_manifest::present;
use cj_scenario::{SceneFault, value_of};
use serde_json::{Map, Value};
use std::alloc::{AllocError, Global};

fn text_at<'v>(value: &'v Value, name: &str) -> Option<&'v str>
    ensures { option_map (λ s. s.now) result ≡ text_in name.now (view value.now) }
{
    present(value, name)?.as_str()
}

// A text of an object's metadata, or another where it has none.
fn text_or<'v>(value: &'v Value, name: &str, other: &'v str) -> &'v str
    ensures { result.now ≡ text_or name.now other.now (view value.now) }
{
    match present(value, "metadata") {
        Some(metadata) => text_at(metadata, name).unwrap_or(other),
        None => other,
    }
}

// The key of an object, NAMESPACE/NAME.
fn key_of(alloc: Global, value: &Value) -> Result<String, AllocError>
    ensures { IfOk result (λ s. string_bytes s ≡ key_of (view value.now)) }
{
    let namespace = text_or(value, "namespace", "default");
    let name = text_or(value, "name", "");
    format!(in alloc; "{namespace}/{name}")
}

#[tactic(auto, unfolding(crate::specs::Strays::has_key))]
fn has_key(alloc: Global, key: &str, value: &Value) -> Result<bool, AllocError>
    ensures { IfOk result (λ b. b ≡ has_key key.now (view value.now)) }
{
    let found = key_of(alloc, value)?;
    Ok(key == found.as_str())
}

fn any_has(alloc: Global, key: &str, items: &[Value]) -> Result<bool, AllocError>
    ensures { IfOk result (λ b. b ≡ any_has key.now (items_view items.now)) }
{
    for item in items {
        if has_key(alloc, key, item)? {
            return Ok(true);
        }
    }
    Ok(false)
}

// Whether an edit has an object of the key.
#[tactic(auto, unfolding(crate::specs::Strays::edit_has))]
fn edit_has(alloc: Global, key: &str, edit: &Value) -> Result<bool, AllocError>
    ensures { IfOk result (λ b. b ≡ edit_has key.now (view edit.now)) }
{
    match present(edit, "object") {
        Some(object) => has_key(alloc, key, object),
        None => Ok(false),
    }
}

fn any_edit(alloc: Global, key: &str, edits: &[Value]) -> Result<bool, AllocError>
    ensures { IfOk result (λ b. b ≡ any_edit key.now (items_view edits.now)) }
{
    for edit in edits {
        if edit_has(alloc, key, edit)? {
            return Ok(true);
        }
    }
    Ok(false)
}

fn items_in<'v>(value: &'v Value, name: &str) -> Option<&'v [Value]>
    ensures { option_map (λ vs. items_view vs.now) result ≡ items_in name.now (view value.now) }
{
    Some(present(value, name)?.as_array()?.as_slice())
}

fn seeds_have(alloc: Global, key: &str, value: &Value) -> Result<bool, AllocError>
    ensures { IfOk result (λ b. b ≡ seeds_have key.now
        (items_in (codes "cronJobs") (view value.now))) }
{
    match items_in(value, "cronJobs") {
        Some(items) => any_has(alloc, key, items),
        None => Ok(false),
    }
}

fn edits_have(alloc: Global, key: &str, value: &Value) -> Result<bool, AllocError>
    ensures { IfOk result (λ b. b ≡ edits_have key.now
        (items_in (codes "edits") (view value.now))) }
{
    match items_in(value, "edits") {
        Some(edits) => any_edit(alloc, key, edits),
        None => Ok(false),
    }
}

// Whether a CronJob of the start or of an edit has the key.
#[tactic(auto, unfolding(crate::specs::Strays::is_used))]
fn is_used(alloc: Global, key: &str, value: &Value) -> Result<bool, AllocError>
    ensures { IfOk result (λ b. b ≡ is_used key.now (view value.now)) }
{
    let seeds = seeds_have(alloc, key, value)?;
    let edits = edits_have(alloc, key, value)?;
    Ok(seeds || edits)
}

#[tactic(auto, unfolding(crate::specs::Strays::stray_line))]
fn push_line(text: &mut String, key: &str) -> Result<(), AllocError>
    ensures { OnOk result (string_bytes text.new ≡ string_bytes text.old ++ stray_line key.now) }
{
    text.push_str("runs.")?;
    text.push_str(key)?;
    text.push_str(": no CronJob of cronJobs or of an edit has this key, so it isn't used\n")
}

fn push_strays(
    alloc: Global,
    text: &mut String,
    value: &Value,
    runs: &Map<String, Value>,
) -> Result<(), AllocError>
    ensures { OnOk result (string_bytes text.new
        ≡ string_bytes text.old ++ strays_in (view value.now) (members_view runs.now.entries)) }
{
    for (key, _) in runs.iter() {
        if !is_used(alloc, key.as_str(), value)? {
            push_line(text, key.as_str())?;
        }
    }
    Ok(())
}

fn strays_of(alloc: Global, value: &Value) -> Result<String, AllocError>
    ensures { IfOk result (λ s. string_bytes s ≡ strays_of (view value.now)) }
{
    let mut text = String::new(alloc);
    if let Some(runs) = present(value, "runs") {
        if let Some(runs) = runs.as_object() {
            push_strays(alloc, &mut text, value, runs)?;
        }
    }
    Ok(text)
}

/// A line for each key of a run's `runs` that no CronJob has, of the start or of an edit.
pub(crate) fn strays(alloc: Global, bytes: &[u8]) -> Result<String, Failure>
    ensures { IfOk result (λ s. IsStrays bytes.now (string_bytes s)) }
{
    match value_of(alloc, bytes) {
        Ok(value) => Ok(strays_of(alloc, &value)?),
        Err(SceneFault::Memory) => Err(Failure::Memory),
        Err(_) => Ok(String::new(alloc)),
    }
}
