// The items of lists.
ghost use Rattle.std.specs.Prelude.{◌≡◌, ◌≢◌, Ok, Err, IfOk, IfErr, string_bytes};
ghost use Rattle.serde_json.specs.View.{view, items_view};
ghost use Rattle.cj_manifest.specs.Members.{unless_null};
ghost use Rattle.cj_explain.specs.declared.members.wrong.Wrong.TheVariants.{Memory};
ghost use Rattle.cj_explain.specs.members.Items as said;

use crate::members::action::{action, caller};
use crate::members::member::{must, other};
use crate::members::want::{Range, Want, Word};
use crate::members::wrong::Wrong;
use cj_script::present;
use serde_json::Value;
use std::alloc::{AllocError, Global};

/// What the items of a list are.
#[derive(Clone, Copy, Debug, PartialEq, Eq)]
pub(crate) enum Item {
    /// The Jobs of a scenario.
    Job,
    /// The steps of a script.
    Step,
    /// What users do in a run.
    Edit,
    /// The runs that the Jobs of a CronJob take.
    Run,
    /// The CronJobs of a run.
    Seed,
}

fn job(alloc: Global, path: &str, value: &Value) -> Result<(), Wrong>
    ensures ok { IfOk result (λ _. said.job path.now (view value.now) ≡ Ok tt) }
    ensures err { IfErr result (λ e. e ≢ Memory → said.job path.now (view value.now) ≡ Err e) }
{
    must(alloc, path, value, "time", Want::Text(Word::Time))?;
    must(alloc, path, value, "outcome", Want::Text(Word::State))
}

fn step(alloc: Global, path: &str, whole: &Value, value: &Value) -> Result<(), Wrong>
    ensures ok { IfOk result (λ _. said.step path.now (view whole.now) (view value.now) ≡ Ok tt) }
    ensures err { IfErr result (λ e. e ≢ Memory →
        said.step path.now (view whole.now) (view value.now) ≡ Err e) }
{
    caller(alloc, path, whole, value)?;
    action(alloc, path, value)
}

fn edit(alloc: Global, path: &str, value: &Value) -> Result<(), Wrong>
    ensures ok { IfOk result (λ _. said.edit path.now (view value.now) ≡ Ok tt) }
    ensures err { IfErr result (λ e. e ≢ Memory → said.edit path.now (view value.now) ≡ Err e) }
{
    must(alloc, path, value, "at", Want::Text(Word::Time))?;
    action(alloc, path, value)
}

fn run(alloc: Global, path: &str, value: &Value) -> Result<(), Wrong>
    ensures ok { IfOk result (λ _. said.run path.now (view value.now) ≡ Ok tt) }
    ensures err { IfErr result (λ e. e ≢ Memory → said.run path.now (view value.now) ≡ Err e) }
{
    must(alloc, path, value, "seconds", Want::Number(Range::Any))?;
    must(alloc, path, value, "outcome", Want::Text(Word::End))
}

fn seed(alloc: Global, path: &str, value: &Value) -> Result<(), Wrong>
    ensures ok { IfOk result (λ _. said.seed_by path.now (unless_null (view value.now)) ≡ Ok tt) }
    ensures err { IfErr result (λ e. e ≢ Memory →
        said.seed_by path.now (unless_null (view value.now)) ≡ Err e) }
{
    match value {
        Value::Null => Err(other(alloc, "", path, Want::Manifest)),
        _ => Ok(()),
    }
}

fn item_of(alloc: Global, kind: Item, whole: &Value, path: &str, value: &Value) -> Result<(), Wrong>
    ensures ok { IfOk result (λ _.
        said.item_of kind (view whole.now) path.now (view value.now) ≡ Ok tt) }
    ensures err { IfErr result (λ e. e ≢ Memory →
        said.item_of kind (view whole.now) path.now (view value.now) ≡ Err e) }
{
    match kind {
        Item::Job => job(alloc, path, value),
        Item::Step => step(alloc, path, whole, value),
        Item::Edit => edit(alloc, path, value),
        Item::Run => run(alloc, path, value),
        Item::Seed => seed(alloc, path, value),
    }
}

fn item_path(alloc: Global, list: &str, number: usize) -> Result<String, AllocError>
    ensures { IfOk result (λ s. string_bytes s ≡ said.item_path list.now number) }
{
    let mut text = String::from_str(alloc, list)?;
    text.push_str("[")?;
    text.push_str(format!(in alloc; "{number}")?.as_str())?;
    text.push_str("]")?;
    Ok(text)
}

fn numbered(
    alloc: Global,
    kind: Item,
    whole: &Value,
    list: &str,
    number: usize,
    value: &Value,
) -> Result<(), Wrong>
    ensures ok { IfOk result (λ _. said.item_of kind (view whole.now)
        (said.item_path list.now number) (view value.now) ≡ Ok tt) }
    ensures err { IfErr result (λ e. e ≢ Memory → said.item_of kind (view whole.now)
        (said.item_path list.now number) (view value.now) ≡ Err e) }
{
    match item_path(alloc, list, number) {
        Ok(path) => item_of(alloc, kind, whole, path.as_str(), value),
        Err(_) => Err(Wrong::Memory),
    }
}

/// The items of the list at a path.
pub(crate) fn items_of(
    alloc: Global,
    kind: Item,
    whole: &Value,
    list: &str,
    values: &Vec<Value>,
) -> Result<(), Wrong>
    ensures ok { IfOk result (λ _. said.items_from kind (view whole.now) list.now 0
        (items_view values.now.items) ≡ Ok tt) }
    ensures err { IfErr result (λ e. e ≢ Memory → said.items_from kind (view whole.now) list.now 0
        (items_view values.now.items) ≡ Err e) }
{
    let mut number = 0;
    for value in values {
        numbered(alloc, kind, whole, list, number, value)?;
        number += 1;
    }
    Ok(())
}

/// The items of a member of the whole, where that is a list.
pub(crate) fn items(alloc: Global, kind: Item, whole: &Value, name: &str) -> Result<(), Wrong>
    ensures ok { IfOk result (λ _. said.items kind (view whole.now) name.now ≡ Ok tt) }
    ensures err { IfErr result (λ e. e ≢ Memory →
        said.items kind (view whole.now) name.now ≡ Err e) }
{
    let Some(found) = present(whole, name) else {
        return Ok(());
    };
    match found.as_array() {
        Some(values) => items_of(alloc, kind, whole, name, values),
        None => Ok(()),
    }
}
