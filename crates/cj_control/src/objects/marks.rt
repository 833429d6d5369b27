// What a Job's marks, its status and its metadata say.
ghost use Rattle.std.specs.Prelude.{◌≡◌, ◌+◌, option_map};
ghost use Rattle.serde_json.specs.View.{view, items_view};
ghost use Rattle.cj_control.specs.Objects as seen;

use crate::hold::is_held;
use crate::objects::members::{annotation, is_text, list_of, meta, status, text_at};
use cj_cluster::read_instant;
use cj_fence::Policy;
use serde_json::Value;

/// What a Job says beside its head and its owner.
#[derive(Clone, Copy)]
pub struct JobMarks {
    /// Its scheduled time; 0 where none is written.
    pub time: u64,
    /// The policy under which it was made.
    pub policy: Policy,
    /// Whether something holds it back.
    pub held: bool,
    pub finished: bool,
    /// Whether it has a deletionTimestamp.
    pub deleting: bool,
    /// Whether it has finalizers.
    pub pinned: bool,
}

fn time_mark(text: Option<&str>) -> u64
    ensures { seen.IsTimeMark (option_map (λ s. s.now) text.entry) result }
{
    match text {
        None => 0,
        Some(text) => match read_instant(text) {
            Some(instant) => instant.get(),
            None => 0,
        },
    }
}

fn policy_mark(name: Option<&str>) -> Policy
    ensures { result ≡ seen.policy_mark (option_map (λ s. s.now) name.entry) }
{
    if is_text("Forbid", name) {
        Policy::Forbid
    } else if is_text("Replace", name) {
        Policy::Replace
    } else {
        Policy::Allow
    }
}

// Whether a condition holds and says that the Job has ended.
fn ends(condition: &Value) -> bool
    ensures { result ≡ seen.ends (view condition.now) }
{
    let kind = text_at(condition, "type");
    let ended = is_text("Complete", kind) || is_text("Failed", kind);
    let holds = is_text("True", text_at(condition, "status"));
    holds && ended
}

fn has_ended(conditions: &[Value]) -> bool
    ensures { result ≡ seen.has_ended (items_view conditions.now) }
{
    for condition in conditions {
        if ends(condition) {
            return true;
        }
    }
    false
}

#[tactic(auto, using(crate::proofs::MarkLemmas::are_items))]
fn has_items(list: &[Value]) -> bool
    ensures { result ≡ seen.has_items (items_view list.now) }
{
    !list.is_empty()
}

/// The marks of a Job.
pub(crate) fn marks_of(value: &Value) -> JobMarks
    ensures { seen.AreMarks (view value.now) result }
{
    let time = time_mark(annotation(value, "batch.kubernetes.io/cronjob-scheduled-timestamp"));
    JobMarks {
        time,
        policy: policy_mark(annotation(value, "cronsim/policy")),
        held: is_held(value),
        finished: has_ended(list_of(status(value, "conditions"))),
        deleting: meta(value, "deletionTimestamp").is_some(),
        pinned: has_items(list_of(meta(value, "finalizers"))),
    }
}
