// The runs that a scenario says.
ghost use Rattle.std.specs.Prelude.{◌≡◌, [], option_map, IfOk, IfErr};
ghost use Rattle.std.specs.FinMap as map;
ghost use Rattle.serde_json.specs.View.{view, items_view, members_view};
ghost use Rattle.cj_manifest.specs.Members.{unless_null};
ghost use Rattle.cj_base.specs.declared.refusal.Refusal.TheVariants.{OutOfMemory};
ghost use Rattle.cj_script.specs.simulation.RunLists as said;

use crate::operations::{key_of, number_at, present};
use crate::simulation::run::{Run, RunEnd};
use crate::simulation::runs::Runs;
use cj_base::Refusal;
use cj_types::{Key, Listing};
use serde_json::{Map, Value};
use std::alloc::Global;

fn end_named(word: &str) -> Option<RunEnd>
    ensures { result ≡ said.end_named word.now }
{
    match word {
        "Complete" => Some(RunEnd::Complete),
        "Failed" => Some(RunEnd::Failed),
        _ => None,
    }
}

fn end_at(value: &Value) -> Option<RunEnd>
    ensures { result ≡ said.end_in (view value.now) }
{
    end_named(present(value, "outcome")?.as_str()?)
}

fn run_in(value: &Value) -> Option<Run>
    ensures { result ≡ said.run_in (view value.now) }
{
    let seconds = number_at(value, "seconds")?;
    let end = end_at(value)?;
    Some(Run { seconds, end })
}

// The runs of a list, or none where one of them has another form.
fn runs_of(alloc: Global, items: &Vec<Value>) -> Result<Option<Vec<Run>>, Refusal>
    ensures ok { IfOk result (λ rs. option_map (λ v. v.items) rs
        ≡ said.with_runs [] (items_view items.now.items)) }
    ensures err { IfErr result (λ e. e ≡ OutOfMemory) }
{
    let mut runs = Vec::new(alloc);
    for item in items {
        let Some(run) = run_in(item) else {
            return Ok(None);
        };
        runs.push(run).map_err(|_| Refusal::OutOfMemory)?;
    }
    Ok(Some(runs))
}

// The runs of a member that isn't null, under its key.
fn run_list_of(
    alloc: Global,
    name: &str,
    value: &Value,
) -> Result<Option<(Key, Listing<Run>)>, Refusal>
    ensures ok { IfOk result (λ r. r ≡ said.run_list_of name.now (view value.now)) }
    ensures err { IfErr result (λ e. e ≡ OutOfMemory) }
{
    let Some(key) = key_of(alloc, name)? else {
        return Ok(None);
    };
    let Some(items) = value.as_array() else {
        return Ok(None);
    };
    match runs_of(alloc, items)? {
        Some(runs) => Ok(Some((key, Listing::new(alloc, runs)?))),
        None => Ok(None),
    }
}

// Adds the runs of a member, or answers none where it has another form. A member that is null has
// no runs.
fn add_run_list(
    alloc: Global,
    runs: &mut Runs,
    name: &str,
    value: &Value,
) -> Result<Option<()>, Refusal>
    ensures ok { IfOk result (λ done. option_map (λ _. runs.new) done
        ≡ said.with_run_list runs.old name.now (unless_null (view value.now))) }
    ensures err { IfErr result (λ e. e ≡ OutOfMemory) }
{
    match value {
        Value::Null => Ok(Some(())),
        _ => match run_list_of(alloc, name, value)? {
            Some((key, list)) => {
                runs.put(key, list)?;
                Ok(Some(()))
            }
            None => Ok(None),
        },
    }
}

fn run_lists_of(alloc: Global, members: &Map<String, Value>) -> Result<Option<Runs>, Refusal>
    ensures ok { IfOk result (λ rs. rs ≡ said.with_run_lists map.empty
        (members_view members.now.entries)) }
    ensures err { IfErr result (λ e. e ≡ OutOfMemory) }
{
    let mut runs = Runs::new(alloc);
    for (name, member) in members.iter() {
        if add_run_list(alloc, &mut runs, name.as_str(), member)?.is_none() {
            return Ok(None);
        }
    }
    Ok(Some(runs))
}

/// The runs of a scenario, or none where they have the wrong form; no runs where they are missing.
pub(crate) fn runs_at(alloc: Global, value: &Value) -> Result<Option<Runs>, Refusal>
    ensures ok { IfOk result (λ rs. rs ≡ said.runs_in (view value.now)) }
    ensures err { IfErr result (λ e. e ≡ OutOfMemory) }
{
    let Some(found) = present(value, "runs") else {
        return Ok(Some(Runs::new(alloc)));
    };
    match found.as_object() {
        Some(members) => run_lists_of(alloc, members),
        None => Ok(None),
    }
}
