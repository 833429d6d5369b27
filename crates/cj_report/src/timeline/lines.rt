// The time line of a history.
ghost use Rattle.std.specs.Prelude.{◌≡◌, ◌++◌, List, [], Some, IfOk, IfErr, OnOk, option_copied, string_bytes};
ghost use Rattle.cj_base.specs.declared.refusal.Refusal.TheVariants.{OutOfMemory};
ghost use Rattle.cj_calls.specs.Rows.{Told};
ghost use Rattle.cj_report.specs.timeline.Known.{IsRead};
ghost use Rattle.cj_report.specs.timeline.Lines as said;

use crate::called::about;
use crate::columns::{key_word, push_cell};
use crate::objects::moment_text;
use crate::timeline::happenings::{how_text, what_of};
use crate::timeline::reading::Reading;
use crate::timeline::what::What;
use cj_calls::Entry;
use cj_types::{Key, Refusal};
use std::alloc::{AllocError, Global};

// The least number of blanks between two columns.
const GAP: usize = 3;

fn wider(width: usize, key: Option<&Key>) -> usize {
    match key {
        Some(key) => {
            let length = key.namespace().len().saturating_add(key.name().len());
            width.max(length.saturating_add(1 + GAP))
        }
        None => width,
    }
}

// How wide the column of the names is: as wide as the longest of them.
fn width_of(entries: &[Entry]) -> usize {
    let mut width = "NAMESPACE/NAME".len() + GAP;
    for entry in entries {
        width = wider(width, about(entry.call(), entry.answer()));
    }
    width
}

#[tactic(auto, unfolding(crate::specs::timeline::Lines::line_of))]
fn push_line(
    text: &mut String,
    width: usize,
    time: &str,
    what: &str,
    name: &str,
    how: &str,
) -> Result<(), AllocError>
    ensures { OnOk result (string_bytes text.new
        ≡ string_bytes text.old ++ said.line_of width time.now what.now name.now how.now) }
{
    push_cell(text, 23, time)?;
    push_cell(text, 11, what)?;
    push_cell(text, width, name)?;
    text.push_str(how)?;
    text.push_str("\n")
}

// The object of the entry, or else the key that its caller took last.
fn object_at<'a>(reading: &'a Reading, entry: &'a Entry) -> Option<&'a Key>
    ensures { (h : List Told) → IsRead reading.now h →
        option_copied result ≡ said.object_at h entry.now }
{
    match about(entry.call(), entry.answer()) {
        Some(key) => Some(key),
        None => reading.held(entry.caller().number),
    }
}

// The line of an entry in which this happened.
fn push_what(
    alloc: Global,
    text: &mut String,
    width: usize,
    reading: &Reading,
    entry: &Entry,
    after: &[Entry],
    what: What,
) -> Result<(), Refusal>
    ensures ok { OnOk result ((h : List Told) → IsRead reading.now h → string_bytes text.new
        ≡ string_bytes text.old ++ said.line_if width h entry.now after.now (Some what)) }
    ensures err { IfErr result (λ e. e ≡ OutOfMemory) }
{
    let time = moment_text(alloc, reading.moment(entry, after))?;
    let name = key_word(alloc, object_at(reading, entry))?;
    let how = how_text(alloc, reading.running(), entry.call(), entry.answer())?;
    let (time, name, how) = (time.as_str(), name.as_str(), how.as_str());
    Ok(push_line(text, width, time, what.word(), name, how)?)
}

// The line of an entry, if it is worth one.
fn push_entry(
    alloc: Global,
    text: &mut String,
    width: usize,
    reading: &Reading,
    entry: &Entry,
    after: &[Entry],
) -> Result<(), Refusal>
    ensures ok { OnOk result ((h : List Told) → IsRead reading.now h → string_bytes text.new
        ≡ string_bytes text.old ++ said.line_at width h entry.now after.now) }
    ensures err { IfErr result (λ e. e ≡ OutOfMemory) }
{
    match what_of(entry.caller().role, entry.call(), entry.answer()) {
        Some(what) => push_what(alloc, text, width, reading, entry, after, what),
        None => Ok(()),
    }
}

fn push_lines(
    alloc: Global,
    text: &mut String,
    width: usize,
    entries: &[Entry],
) -> Result<(), Refusal>
    ensures ok { OnOk result (string_bytes text.new
        ≡ string_bytes text.old ++ said.lines_after width [] entries.now) }
    ensures err { IfErr result (λ e. e ≡ OutOfMemory) }
{
    let mut reading = Reading::new(alloc);
    for (i, entry) in entries.iter().enumerate() {
        push_entry(alloc, text, width, &reading, entry, &entries[i + 1..])?;
        reading.note(alloc, entry)?;
    }
    Ok(())
}

/// The time line of a history, whose oldest entry comes first: a heading, and a line for each entry
/// that concerns a user, a CronJob or a Job, with its moment, what happened, to which object, and
/// how. Such are a Job that a worker made, its end and its drop; what a user did, or was refused;
/// and why a sync started no Job.
///
/// # Errors
///
/// `OutOfMemory`.
pub fn timeline_text(alloc: Global, entries: &[Entry]) -> Result<String, Refusal>
    ensures ok { IfOk result (λ s. said.IsTimeline entries.now (string_bytes s)) }
    ensures err { IfErr result (λ e. e ≡ OutOfMemory) }
{
    let width = width_of(entries);
    let mut text = String::new(alloc);
    push_line(&mut text, width, "TIME", "WHAT", "NAMESPACE/NAME", "HOW")?;
    push_lines(alloc, &mut text, width, entries)?;
    Ok(text)
}
