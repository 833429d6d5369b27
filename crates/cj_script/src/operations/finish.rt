// How a sync ends, and why no Job was started.
ghost use Rattle.std.specs.Prelude.{◌≡◌, [], IfOk, IfErr};
ghost use Rattle.serde_json.specs.View.{view, items_view};
ghost use Rattle.cj_base.specs.declared.refusal.Refusal.TheVariants.{OutOfMemory};
ghost use Rattle.cj_script.specs.operations.Finishes as said;

use crate::operations::instant::time_at;
use crate::operations::member::present;
use crate::operations::operation::Operation;
use cj_calls::{Call, End};
use cj_types::{Millis, Reason, Reasons, Refusal};
use serde_json::Value;
use std::alloc::Global;

fn reason_named(word: &str) -> Option<Reason>
    ensures { result ≡ said.reason_named word.now }
{
    match word {
        "UnknownTimeZone" => Some(Reason::UnknownTimeZone),
        "TooManyMissedTimes" => Some(Reason::TooManyMissedTimes),
        "JobAlreadyActive" => Some(Reason::JobAlreadyActive),
        "FailedCreate" => Some(Reason::FailedCreate),
        _ => None,
    }
}

fn reason_in(item: &Value) -> Option<Reason>
    ensures { result ≡ said.reason_in (view item.now) }
{
    reason_named(item.as_str()?)
}

fn reasons_of(alloc: Global, items: &Vec<Value>) -> Result<Option<Reasons>, Refusal>
    ensures ok { IfOk result (λ r. r ≡ said.with_reasons [] (items_view items.now.items)) }
    ensures err { IfErr result (λ e. e ≡ OutOfMemory) }
{
    let mut reasons = Reasons::new(alloc);
    for item in items {
        match reason_in(item) {
            Some(reason) => reasons.push(reason)?,
            None => return Ok(None),
        }
    }
    Ok(Some(reasons))
}

fn end_at(value: &Value) -> Option<End>
    ensures { result ≡ said.end_in (view value.now) }
{
    let again = match present(value, "retry") {
        None => false,
        Some(found) => found.as_bool()?,
    };
    if again {
        Some(End::Again(Millis::from(time_at(value, "at")?)))
    } else {
        Some(End::Well)
    }
}

fn finished(alloc: Global, end: End, list: &Value) -> Result<Option<Operation>, Refusal>
    ensures ok { IfOk result (λ a. a ≡ said.finished end (view list.now)) }
    ensures err { IfErr result (λ e. e ≡ OutOfMemory) }
{
    let Some(items) = list.as_array() else {
        return Ok(None);
    };
    match reasons_of(alloc, items)? {
        Some(reasons) => Ok(Some(Operation::Calls(Call::Finish(end, reasons)))),
        None => Ok(None),
    }
}

/// The end of a sync: with its reasons where these are given.
pub(crate) fn finish(alloc: Global, value: &Value) -> Result<Option<Operation>, Refusal>
    ensures ok { IfOk result (λ a. a ≡ said.finish (view value.now)) }
    ensures err { IfErr result (λ e. e ≡ OutOfMemory) }
{
    let Some(end) = end_at(value) else {
        return Ok(None);
    };
    match present(value, "reasons") {
        None => Ok(Some(Operation::Closes(end))),
        Some(list) => finished(alloc, end, list),
    }
}
