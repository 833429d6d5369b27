// A mark for each reason of a sync.
ghost use Rattle.std.specs.Prelude.{◌≡◌, ◌++◌, List, [], ◌∷◌, IfOk, IfErr, OnOk, map, option_copied};
ghost use Rattle.cj_base.specs.declared.refusal.Refusal.TheVariants.{OutOfMemory};
ghost use Rattle.cj_calls.specs.Rows.{Told};
ghost use Rattle.cj_report.specs.timeline.Known.{IsRead};
ghost use Rattle.cj_report.specs.timeline.Marks as said;

use crate::tellings::reasons_told;
use crate::timeline::mark::Mark;
use crate::timeline::reading::Reading;
use cj_calls::Entry;
use cj_types::{Key, Reason, Refusal, Seconds, TryCopy};
use std::alloc::Global;

fn push_mark(
    alloc: Global,
    marks: &mut Vec<Mark>,
    key: &Key,
    at: &Option<Seconds>,
    reason: Reason,
) -> Result<(), Refusal>
    ensures ok { OnOk result (marks.new.items
        ≡ marks.old.items ++ said.mark_of key.now at.now reason ∷ []) }
    ensures err { IfErr result (λ e. e ≡ OutOfMemory) }
{
    let key = key.try_copy(alloc)?;
    let mark = Mark {
        key,
        at: *at,
        reason,
    };
    marks.push(mark).map_err(|_| Refusal::OutOfMemory)
}

fn push_each(
    alloc: Global,
    marks: &mut Vec<Mark>,
    key: &Key,
    at: &Option<Seconds>,
    reasons: &[Reason],
) -> Result<(), Refusal>
    ensures ok { OnOk result (marks.new.items
        ≡ marks.old.items ++ map (said.mark_of key.now at.now) reasons.now) }
    ensures err { IfErr result (λ e. e ≡ OutOfMemory) }
{
    for reason in reasons {
        push_mark(alloc, marks, key, at, *reason)?;
    }
    Ok(())
}

// Adds a mark for each of the reasons, at the key, if there is one.
fn push_marks(
    alloc: Global,
    marks: &mut Vec<Mark>,
    key: Option<&Key>,
    at: Option<Seconds>,
    reasons: &[Reason],
) -> Result<(), Refusal>
    ensures ok { OnOk result (marks.new.items
        ≡ marks.old.items ++ said.marks_of (option_copied key.entry) at reasons.now) }
    ensures err { IfErr result (λ e. e ≡ OutOfMemory) }
{
    match key {
        Some(key) => push_each(alloc, marks, key, &at, reasons),
        None => Ok(()),
    }
}

// Adds the marks of an entry.
fn push_told(
    alloc: Global,
    marks: &mut Vec<Mark>,
    reading: &Reading,
    entry: &Entry,
    after: &[Entry],
) -> Result<(), Refusal>
    ensures ok { OnOk result ((h : List Told) → IsRead reading.now h →
        marks.new.items ≡ marks.old.items ++ said.marks_at h entry.now after.now) }
    ensures err { IfErr result (λ e. e ≡ OutOfMemory) }
{
    let key = reading.held(entry.caller().number);
    let at = reading.moment(entry, after);
    push_marks(alloc, marks, key, at, reasons_told(entry))
}

/// A mark for each reason of a sync: why it started no Job, or that many times were missed. The
/// entries come with the oldest first, and so do the marks.
///
/// # Errors
///
/// `OutOfMemory`.
pub fn marks_of(alloc: Global, entries: &[Entry]) -> Result<Vec<Mark>, Refusal>
    ensures ok { IfOk result (λ ms. ms.items ≡ said.marks entries.now) }
    ensures err { IfErr result (λ e. e ≡ OutOfMemory) }
{
    let mut reading = Reading::new(alloc);
    let mut marks = Vec::new(alloc);
    for (i, entry) in entries.iter().enumerate() {
        push_told(alloc, &mut marks, &reading, entry, &entries[i + 1..])?;
        reading.note(alloc, entry)?;
    }
    Ok(marks)
}
