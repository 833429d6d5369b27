// When a Job was completed.
ghost use Rattle.std.specs.Prelude.{◌≡◌, option_map};
ghost use Rattle.serde_json.specs.View.{view, items_view};
ghost use Rattle.cj_control.specs.Objects as seen;

use crate::objects::members::{is_text, list_of, status, text_at};
use cj_cluster::read_instant;
use serde_json::Value;

// Whether a condition holds and says that the Job is complete.
fn completes(condition: &Value) -> bool
    ensures { result ≡ seen.completes (view condition.now) }
{
    let holds = is_text("True", text_at(condition, "status"));
    holds && is_text("Complete", text_at(condition, "type"))
}

fn has_completed(conditions: &[Value]) -> bool
    ensures { result ≡ seen.has_completed (items_view conditions.now) }
{
    for condition in conditions {
        if completes(condition) {
            return true;
        }
    }
    false
}

fn moment(text: &str) -> Option<u64>
    ensures { seen.IsMoment text.now result }
{
    match read_instant(text) {
        Some(instant) => Some(instant.get()),
        None => None,
    }
}

fn moment_at(value: Option<&Value>) -> Option<u64>
    ensures { seen.IsMomentAt (option_map (λ v. view v.now) value.entry) result }
{
    match value {
        Some(found) => match found.as_str() {
            Some(text) => moment(text),
            None => None,
        },
        None => None,
    }
}

/// When a Job that is complete was completed: `status.completionTime`, in seconds since 1970.
pub fn completed_at(value: &Value) -> Option<u64>
    ensures { seen.IsCompleted (view value.now) result }
{
    let is_complete = has_completed(list_of(status(value, "conditions")));
    if is_complete {
        moment_at(status(value, "completionTime"))
    } else {
        None
    }
}
