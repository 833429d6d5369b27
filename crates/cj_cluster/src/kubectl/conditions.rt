// The conditions of a Job, by which it has ended.
ghost use Rattle.std.specs.Prelude.{◌≡◌, option_map};
ghost use Rattle.std.specs.Result.{result_ok, result_err};
ghost use Rattle.serde_json.specs.View.{view, items_view};
ghost use Rattle.cj_cluster.specs.kubectl.Finishes.{finish_of};
ghost use Rattle.cj_cluster.specs.kubectl.Rows as row;

use crate::kubectl::lists::text_at;
use crate::kubectl::status::{member, status_of};
use cj_manifest::present;
use cj_types::Cause;
use serde_json::Value;

/// How a Job ended.
#[derive(Clone, Copy, Debug, PartialEq, Eq)]
pub(crate) enum Ending {
    Success,
    Failure,
}

/// The end of a Job, and the member that says when.
#[derive(Clone, Copy)]
pub(crate) struct FinishAt<'v> {
    pub ending: Ending,
    pub time: Option<&'v Value>,
}

fn ending_named(name: &str) -> Option<Ending>
    ensures { result ≡ row.ending_named name.now }
{
    if name == "Complete" {
        Some(Ending::Success)
    } else if name == "Failed" {
        Some(Ending::Failure)
    } else {
        None
    }
}

// The ending that a condition states, if it holds.
fn ending_in(condition: &Value) -> Option<Ending>
    ensures { result ≡ row.ending_in (view condition.now) }
{
    let Some(holds) = text_at(condition, "status") else {
        return None;
    };
    let Some(name) = text_at(condition, "type") else {
        return None;
    };
    if holds == "True" {
        ending_named(name)
    } else {
        None
    }
}

fn or_else<'v>(first: Option<&'v Value>, other: Option<&'v Value>) -> Option<&'v Value>
    ensures { option_map (λ v. view v.now) result
        ≡ row.or_else (option_map (λ v. view v.now) first.entry)
        (option_map (λ v. view v.now) other.entry) }
{
    match first {
        None => other,
        Some(found) => Some(found),
    }
}

// The end that the first condition with one states.
fn first_finish<'v>(completion: Option<&'v Value>, conditions: &'v [Value]) -> Option<FinishAt<'v>>
    ensures { option_map finish_of result
        ≡ row.first_finish (option_map (λ v. view v.now) completion.entry)
        (items_view conditions.now) }
{
    for condition in conditions {
        if let Some(ending) = ending_in(condition) {
            let time = or_else(completion, present(condition, "lastTransitionTime"));
            return Some(FinishAt { ending, time });
        }
    }
    None
}

fn conditions_row<'v>(
    completion: Option<&'v Value>,
    list: Option<&'v Value>,
) -> Result<Option<FinishAt<'v>>, Cause>
    ensures fault { result_err result
        ≡ result_err (row.conditions_row (option_map (λ v. view v.now) completion.entry)
        (option_map (λ v. view v.now) list.entry)) }
    ensures value { option_map (option_map finish_of) (result_ok result)
        ≡ result_ok (row.conditions_row (option_map (λ v. view v.now) completion.entry)
        (option_map (λ v. view v.now) list.entry)) }
{
    match list {
        None => Ok(None),
        Some(found) => match found.as_array() {
            Some(conditions) => Ok(first_finish(completion, conditions.as_slice())),
            None => Err(Cause::WrongType),
        },
    }
}

/// The end of a Job, where its status states one, or why the conditions are refused.
pub(crate) fn finish_row(value: &Value) -> Result<Option<FinishAt<'_>>, Cause>
    ensures fault { result_err result ≡ result_err (row.finish_row (view value.now)) }
    ensures value { option_map (option_map finish_of) (result_ok result)
        ≡ result_ok (row.finish_row (view value.now)) }
{
    let status = status_of(value);
    conditions_row(
        member(status, "completionTime"),
        member(status, "conditions"),
    )
}
