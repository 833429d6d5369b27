// The lines of the reasons in a history.
ghost use Rattle.std.specs.Prelude.{◌≡◌, List, IfOk, IfErr, string_bytes};
ghost use mathlib.Core.List.{reverse};
ghost use Rattle.cj_base.specs.declared.refusal.Refusal.TheVariants.{OutOfMemory};
ghost use Rattle.cj_calls.specs.Rows.{Told};
ghost use Rattle.cj_report.specs.Reasons as said;
ghost use Rattle.cj_report.specs.Tellings.{Knows, known_of};

use crate::tellings::Tellings;
use cj_calls::Entry;
use cj_types::{CronJob, Key, Reason, Refusal, Shared};
use std::alloc::Global;

// A line for each reason of the key.
fn told_of(
    alloc: Global,
    key: &Key,
    tellings: &Tellings,
    reasons: &[Reason],
) -> Result<Vec<Reason>, Refusal>
    ensures ok { IfOk result (λ r. r.items ≡ known_of key.now tellings.now reasons.now) }
    ensures err { IfErr result (λ e. e ≡ OutOfMemory) }
{
    let mut told = Vec::new(alloc);
    for reason in reasons {
        if tellings.has(key, *reason) {
            told.push(*reason).map_err(|_| Refusal::OutOfMemory)?;
        }
    }
    Ok(told)
}

#[tactic(auto, unfolding(crate::specs::Reasons::reason_line))]
fn reason_line(alloc: Global, key: &Key, word: &str) -> Result<String, Refusal>
    ensures ok { IfOk result (λ s. string_bytes s ≡ said.reason_line key.now word.now) }
    ensures err { IfErr result (λ e. e ≡ OutOfMemory) }
{
    let namespace = key.namespace();
    let name = key.name();
    Ok(format!(in alloc; "reason {namespace}/{name} {word}\n")?)
}

fn each_line(alloc: Global, key: &Key, reasons: &[Reason]) -> Result<String, Refusal>
    ensures ok { IfOk result (λ s. string_bytes s ≡ said.each_line key.now reasons.now) }
    ensures err { IfErr result (λ e. e ≡ OutOfMemory) }
{
    let mut text = String::new(alloc);
    for reason in reasons {
        let line = reason_line(alloc, key, reason.name())?;
        text.push_str(line.as_str())?;
    }
    Ok(text)
}

fn lines_or_none(alloc: Global, key: &Key, reasons: &[Reason]) -> Result<String, Refusal>
    ensures ok { IfOk result (λ s. string_bytes s ≡ said.lines_or_none key.now reasons.now) }
    ensures err { IfErr result (λ e. e ≡ OutOfMemory) }
{
    match reasons {
        [] => reason_line(alloc, key, "none"),
        [_, ..] => each_line(alloc, key, reasons),
    }
}

#[tactic(auto, unfolding(crate::specs::Reasons::key_lines))]
fn key_lines(alloc: Global, key: &Key, tellings: &Tellings) -> Result<String, Refusal>
    ensures ok { IfOk result (λ s. (h : List Told) → Knows tellings.now h →
        string_bytes s ≡ said.key_lines key.now h) }
    ensures err { IfErr result (λ e. e ≡ OutOfMemory) }
{
    let by_name = [
        Reason::FailedCreate,
        Reason::JobAlreadyActive,
        Reason::TooManyMissedTimes,
        Reason::UnknownTimeZone,
    ];
    let told = told_of(alloc, key, tellings, &by_name)?;
    lines_or_none(alloc, key, told.as_slice())
}

/// A line for each reason of each CronJob in the history, by name, or one that says that there is
/// none. A reason is in an accepted Finish of a worker that had taken the CronJob's key.
pub(crate) fn reasons_text(
    alloc: Global,
    crons: &[Shared<CronJob>],
    entries: &[Entry],
) -> Result<String, Refusal>
    ensures ok { IfOk result (λ s. string_bytes s
        ≡ said.reason_lines (reverse entries.now) crons.now) }
    ensures err { IfErr result (λ e. e ≡ OutOfMemory) }
{
    let tellings = Tellings::read(alloc, entries)?;
    let mut text = String::new(alloc);
    for cron in crons {
        let lines = key_lines(alloc, cron.get().key.key(), &tellings)?;
        text.push_str(lines.as_str())?;
    }
    Ok(text)
}
