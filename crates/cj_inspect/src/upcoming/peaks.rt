// The lines of the fullest minutes.
use cj_cluster::ClusterCron;
use cj_types::{Refusal, Shared};
use cj_upcoming::{Start, peaks_value};
use serde_json::Value;
use std::alloc::Global;

// A text of an object, nothing where it has none.
fn text_at<'a>(value: &'a Value, member: &str) -> &'a str {
    value.get(member).and_then(Value::as_str).unwrap_or("")
}

// The items of a list.
fn items_of(value: &Value) -> &[Value] {
    match value {
        Value::Array(items) => items.as_slice(),
        _ => &[],
    }
}

fn push_names(alloc: Global, text: &mut String, crons: &[Value]) -> Result<(), Refusal> {
    for cron in crons {
        let (namespace, name) = (text_at(cron, "namespace"), text_at(cron, "name"));
        let word = format!(in alloc; " {namespace}/{name}")?;
        text.push_str(word.as_str())?;
    }
    Ok(())
}

fn push_peak(alloc: Global, text: &mut String, peak: &Value) -> Result<(), Refusal> {
    let time = text_at(peak, "time");
    let count = peak.get("count").and_then(Value::as_u64).unwrap_or(0);
    let head = format!(in alloc; "peak {time} {count}")?;
    text.push_str(head.as_str())?;
    if let Some(crons) = peak.get("cronJobs") {
        push_names(alloc, text, items_of(crons))?;
    }
    text.push_str("\n")?;
    Ok(())
}

/// A line for each of the fullest minutes, at most `most`, the fullest first.
pub(crate) fn peaks_text(
    alloc: Global,
    crons: &[Shared<ClusterCron>],
    starts: &[Start],
    most: usize,
) -> Result<String, Refusal> {
    let peaks = peaks_value(alloc, crons, starts, most)?;
    let mut text = String::new(alloc);
    for peak in items_of(&peaks) {
        push_peak(alloc, &mut text, peak)?;
    }
    Ok(text)
}
