// What is said to people of a run in which nothing started.
ghost use Rattle.std.specs.Prelude.{◌≡◌, IfOk, IfErr, string_bytes};
ghost use Rattle.cj_base.specs.declared.refusal.Refusal.TheVariants.{OutOfMemory};
ghost use Rattle.cj_program.specs.remarks.Idle as said;
ghost use Rattle.cj_program.specs.remarks.Idle.{any_entry};

use cj_calls::{Call, Entry};
use cj_history::Gap;
use cj_script::Span;
use cj_types::Refusal;
use cj_zone::time_text;
use std::alloc::Global;

// Whether a controller made a Job.
fn makes(entry: &Entry) -> bool
    ensures { result ≡ said.makes entry.now.call entry.now.answer }
{
    matches!((entry.call(), entry.answer()), (Call::MakeNext, Ok(_)))
}

// Whether a CronJob was created.
fn creates(entry: &Entry) -> bool
    ensures { result ≡ said.creates entry.now.call entry.now.answer }
{
    matches!(
        (entry.call(), entry.answer()),
        (Call::CreateCron(_, _), Ok(_))
    )
}

// Whether one was created or updated that isn't suspended.
fn wakes(entry: &Entry) -> bool
    ensures { result ≡ said.wakes entry.now.call entry.now.answer }
{
    match (entry.call(), entry.answer()) {
        (Call::CreateCron(draft, _), Ok(_)) => !draft.get().spec.get().suspend,
        (Call::UpdateCron(draft), Ok(_)) => !draft.get().spec.get().suspend,
        _ => false,
    }
}

fn made_any(entries: &[Entry]) -> bool
    ensures { result ≡ any_entry said.makes entries.now }
{
    entries.iter().any(|entry| makes(entry))
}

fn created_any(entries: &[Entry]) -> bool
    ensures { result ≡ any_entry said.creates entries.now }
{
    entries.iter().any(|entry| creates(entry))
}

fn woke_any(entries: &[Entry]) -> bool
    ensures { result ≡ any_entry said.wakes entries.now }
{
    entries.iter().any(|entry| wakes(entry))
}

#[tactic(auto, unfolding(crate::specs::remarks::Idle::none_due_line))]
fn none_due_line(alloc: Global, span: &Span) -> Result<String, Refusal>
    ensures ok { IfOk result (λ s. string_bytes s ≡ said.none_due_line span.now) }
    ensures err { IfErr result (λ e. e ≡ OutOfMemory) }
{
    let start = time_text(alloc, span.start())?;
    let start = start.as_str();
    Ok(format!(in alloc;
        "No Job was started: no sync found a time due; cronsim next SCHEDULE --after {start} tells when one is\n"
    )?)
}

fn gaps_or_none(alloc: Global, span: &Span, gaps: &[Gap]) -> Result<String, Refusal>
    ensures ok { IfOk result (λ s. string_bytes s ≡ said.gaps_or_none span.now gaps.now) }
    ensures err { IfErr result (λ e. e ≡ OutOfMemory) }
{
    match gaps {
        [] => none_due_line(alloc, span),
        [_, ..] => Ok(String::from_str(
            alloc,
            "No Job was started; why each due time got none:\n",
        )?),
    }
}

/// Why nothing started in a history with these gaps, if nothing did.
pub(crate) fn idle_text(
    alloc: Global,
    span: &Span,
    entries: &[Entry],
    gaps: &[Gap],
) -> Result<String, Refusal>
    ensures ok { IfOk result (λ s. string_bytes s
        ≡ said.idle_words span.now entries.now gaps.now) }
    ensures err { IfErr result (λ e. e ≡ OutOfMemory) }
{
    if made_any(entries) {
        return Ok(String::new(alloc));
    }
    if !created_any(entries) {
        let line = "No Job was started: there was no CronJob\n";
        return Ok(String::from_str(alloc, line)?);
    }
    if !woke_any(entries) {
        let line = "No Job was started: spec.suspend was true of each CronJob all the time\n";
        return Ok(String::from_str(alloc, line)?);
    }
    gaps_or_none(alloc, span, gaps)
}
