// Held Jobs that nobody starts any more.
use cj_control::{annotation, list_of, meta};
use cj_manifest::present;
use serde_json::Value;

fn is_controller(owner: &Value) -> bool {
    match present(owner, "controller") {
        Some(found) => found.as_bool().unwrap_or(false),
        None => false,
    }
}

fn has_label(value: &Value) -> bool {
    match meta(value, "labels") {
        Some(labels) => present(labels, "cronsim/uid").is_some(),
        None => false,
    }
}

/// Whether an object is a Job that a controller made held, and that no CronJob controls any more:
/// its CronJob was deleted, and its Jobs were not (`kubectl delete cronjob --cascade=orphan`).
pub(crate) fn is_orphan(value: &Value) -> bool {
    let is_held = annotation(value, "cronsim/held").is_some();
    let owners = list_of(meta(value, "ownerReferences"));
    let is_deleting = meta(value, "deletionTimestamp").is_some();
    is_held && has_label(value) && !is_deleting && !owners.iter().any(is_controller)
}
