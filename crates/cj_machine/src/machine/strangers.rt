// Whoever else writes the status of a CronJob (meta/v1, ManagedFieldsEntry).
use cj_cluster::read_instant;
use cj_control::{list_of, meta, text_at};
use cj_manifest::present;
use serde_json::Value;

// The manager that a server notes for what this program writes: what its transport's `User-Agent`
// begins with.
const OURS: &str = "cronsim-control";

// Whether an entry is of the status.
fn is_of_status(entry: &Value) -> bool {
    match present(entry, "fieldsV1") {
        Some(fields) => present(fields, "f:status").is_some(),
        None => false,
    }
}

// Whether an entry was written after a moment.
fn is_after(entry: &Value, moment: u64) -> bool {
    match text_at(entry, "time") {
        Some(text) => match read_instant(text) {
            Some(time) => time.get() > moment,
            None => false,
        },
        None => false,
    }
}

// The manager of an entry, where it is another one that wrote the status after the moment.
fn stranger_in(entry: &Value, moment: u64) -> Option<&str> {
    let manager = text_at(entry, "manager")?;
    let is_other = !manager.as_bytes().starts_with(OURS.as_bytes());
    if is_other && is_of_status(entry) && is_after(entry, moment) {
        Some(manager)
    } else {
        None
    }
}

/// Whoever else wrote the status of an object after a moment, as its `metadata.managedFields` say.
pub(crate) fn stranger(object: &Value, moment: u64) -> Option<&str> {
    for entry in list_of(meta(object, "managedFields")) {
        if let Some(manager) = stranger_in(entry, moment) {
            return Some(manager);
        }
    }
    None
}
