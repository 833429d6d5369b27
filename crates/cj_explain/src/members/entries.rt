// The members of objects.
ghost use Rattle.std.specs.Prelude.{◌≡◌, ◌≢◌, Ok, Err, IfOk, IfErr, string_bytes};
ghost use Rattle.serde_json.specs.Find.{as_array};
ghost use Rattle.serde_json.specs.View.{view, members_view};
ghost use Rattle.cj_manifest.specs.Members.{unless_null};
ghost use Rattle.cj_explain.specs.declared.members.items.Item.TheVariants.{Run};
ghost use Rattle.cj_explain.specs.declared.members.wrong.Wrong.TheVariants.{Memory};
ghost use Rattle.cj_explain.specs.members.Items as said;

use crate::members::items::{Item, items_of};
use crate::members::member::checked;
use crate::members::want::{Want, Word, is_key};
use crate::members::wrong::{Wrong, told};
use cj_script::present;
use serde_json::{Map, Value};
use std::alloc::{AllocError, Global};

/// What the members of an object are.
#[derive(Clone, Copy, Debug, PartialEq, Eq)]
pub(crate) enum Entry {
    /// The callers of a script, each with its role.
    Caller,
    /// Zones, each with its rule.
    Zone,
    /// Lists of runs, each under the key of a CronJob.
    Runs,
}

fn run_key(alloc: Global, path: &str, key: &str) -> Result<(), Wrong>
    ensures ok { IfOk result (λ _. said.run_key path.now key.now ≡ Ok tt) }
    ensures err { IfErr result (λ e. e ≢ Memory → said.run_key path.now key.now ≡ Err e) }
{
    if is_key(alloc, key)? {
        Ok(())
    } else {
        let wanted = "under the key of a CronJob, NAMESPACE/NAME";
        Err(told(alloc, "", path, ": want ", wanted))
    }
}

fn runs_in(alloc: Global, whole: &Value, path: &str, value: &Value) -> Result<(), Wrong>
    ensures ok { IfOk result (λ _.
        said.items_in Run (view whole.now) path.now (as_array (view value.now)) ≡ Ok tt) }
    ensures err { IfErr result (λ e. e ≢ Memory →
        said.items_in Run (view whole.now) path.now (as_array (view value.now)) ≡ Err e) }
{
    match value.as_array() {
        Some(values) => items_of(alloc, Item::Run, whole, path, values),
        None => Ok(()),
    }
}

fn runs(alloc: Global, whole: &Value, path: &str, key: &str, value: &Value) -> Result<(), Wrong>
    ensures ok { IfOk result (λ _.
        said.runs (view whole.now) path.now key.now (view value.now) ≡ Ok tt) }
    ensures err { IfErr result (λ e. e ≢ Memory →
        said.runs (view whole.now) path.now key.now (view value.now) ≡ Err e) }
{
    run_key(alloc, path, key)?;
    checked(alloc, "", path, Want::List, value)?;
    runs_in(alloc, whole, path, value)
}

fn entry_of(
    alloc: Global,
    kind: Entry,
    whole: &Value,
    path: &str,
    key: &str,
    value: &Value,
) -> Result<(), Wrong>
    ensures ok { IfOk result (λ _.
        said.entry_of kind (view whole.now) path.now key.now (view value.now) ≡ Ok tt) }
    ensures err { IfErr result (λ e. e ≢ Memory →
        said.entry_of kind (view whole.now) path.now key.now (view value.now) ≡ Err e) }
{
    match kind {
        Entry::Caller => checked(alloc, "", path, Want::Text(Word::Role), value),
        Entry::Zone => checked(alloc, "", path, Want::Text(Word::Rule), value),
        Entry::Runs => runs(alloc, whole, path, key, value),
    }
}

fn entry_path(alloc: Global, name: &str, key: &str) -> Result<String, AllocError>
    ensures { IfOk result (λ s. string_bytes s ≡ said.entry_path name.now key.now) }
{
    let mut text = String::from_str(alloc, name)?;
    text.push_str(".")?;
    text.push_str(key)?;
    Ok(text)
}

fn named(
    alloc: Global,
    kind: Entry,
    whole: &Value,
    name: &str,
    key: &str,
    value: &Value,
) -> Result<(), Wrong>
    ensures ok { IfOk result (λ _. said.entry_of kind (view whole.now)
        (said.entry_path name.now key.now) key.now (view value.now) ≡ Ok tt) }
    ensures err { IfErr result (λ e. e ≢ Memory → said.entry_of kind (view whole.now)
        (said.entry_path name.now key.now) key.now (view value.now) ≡ Err e) }
{
    match entry_path(alloc, name, key) {
        Ok(path) => entry_of(alloc, kind, whole, path.as_str(), key, value),
        Err(_) => Err(Wrong::Memory),
    }
}

// One that is null isn't there.
fn entry_by(
    alloc: Global,
    kind: Entry,
    whole: &Value,
    name: &str,
    key: &str,
    value: &Value,
) -> Result<(), Wrong>
    ensures ok { IfOk result (λ _. said.entry_by kind (view whole.now)
        (said.entry_path name.now key.now) key.now (unless_null (view value.now)) ≡ Ok tt) }
    ensures err { IfErr result (λ e. e ≢ Memory → said.entry_by kind (view whole.now)
        (said.entry_path name.now key.now) key.now (unless_null (view value.now)) ≡ Err e) }
{
    match value {
        Value::Null => Ok(()),
        _ => named(alloc, kind, whole, name, key, value),
    }
}

fn entries_of(
    alloc: Global,
    kind: Entry,
    whole: &Value,
    name: &str,
    members: &Map<String, Value>,
) -> Result<(), Wrong>
    ensures ok { IfOk result (λ _. said.entries_from kind (view whole.now) name.now
        (members_view members.now.entries) ≡ Ok tt) }
    ensures err { IfErr result (λ e. e ≢ Memory → said.entries_from kind (view whole.now) name.now
        (members_view members.now.entries) ≡ Err e) }
{
    for (key, value) in members.iter() {
        entry_by(alloc, kind, whole, name, key.as_str(), value)?;
    }
    Ok(())
}

/// The members of a member of the whole, where that is an object.
pub(crate) fn entries(alloc: Global, kind: Entry, whole: &Value, name: &str) -> Result<(), Wrong>
    ensures ok { IfOk result (λ _. said.entries kind (view whole.now) name.now ≡ Ok tt) }
    ensures err { IfErr result (λ e. e ≢ Memory →
        said.entries kind (view whole.now) name.now ≡ Err e) }
{
    let Some(found) = present(whole, name) else {
        return Ok(());
    };
    match found.as_object() {
        Some(members) => entries_of(alloc, kind, whole, name, members),
        None => Ok(()),
    }
}
