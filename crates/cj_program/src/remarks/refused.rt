// What a user of a run asked for and was refused.
ghost use Rattle.std.specs.Prelude.{◌≡◌, ◌++◌, ◌+◌, ◌<◌, ◌≤◌, ◌^◌, IfOk, IfErr, OnOk, string_bytes};
ghost use mathlib.Core.List.{reverse};
ghost use Rattle.cj_base.specs.declared.refusal.Refusal.TheVariants.{OutOfMemory};
ghost use Rattle.cj_run.specs.Turns.{progress_after};
ghost use Rattle.cj_program.specs.remarks.Refused.{line_if, moment, refused_line, refused_lines};

use crate::remarks::calls::{place_text, refusal_words};
use cj_calls::{Call, Entry, Role};
use cj_report::call_word;
use cj_run::Progress;
use cj_script::Span;
use cj_types::{Refusal, Seconds};
use cj_zone::time_text;
use std::alloc::Global;

#[tactic(auto, unfolding(crate::specs::remarks::Refused::refused_line))]
fn refused_line(
    alloc: Global,
    at: Seconds,
    call: &Call,
    refusal: &Refusal,
) -> Result<String, Refusal>
    ensures ok { IfOk result (λ s. string_bytes s ≡ refused_line at call.now refusal.now) }
    ensures err { IfErr result (λ e. e ≡ OutOfMemory) }
{
    let time = time_text(alloc, at)?;
    let time = time.as_str();
    let word = call_word(call);
    let place = place_text(alloc, call)?;
    let place = place.as_str();
    let why = refusal_words(refusal);
    Ok(format!(in alloc; "At {time} {word}{place} was refused: {why}\n")?)
}

// The instant that begins where `begun` instants have begun.
fn moment(span: &Span, begun: u64) -> Seconds
    ensures { result ≡ moment span.now begun }
{
    match span.instant(begun) {
        Some(at) => at,
        None => span.start(),
    }
}

// A line of an entry at that instant, where a user's call was refused.
fn line_if(alloc: Global, at: Seconds, entry: &Entry) -> Result<String, Refusal>
    ensures ok { IfOk result (λ s. string_bytes s
        ≡ line_if at entry.now.caller.role entry.now.call entry.now.answer) }
    ensures err { IfErr result (λ e. e ≡ OutOfMemory) }
{
    match (entry.caller().role, entry.answer()) {
        (Role::User, Err(refusal)) => refused_line(alloc, at, entry.call(), refusal),
        _ => Ok(String::new(alloc)),
    }
}

// Takes in an entry: how far the run is, and what was refused.
fn read_entry(
    alloc: Global,
    span: &Span,
    entry: &Entry,
    progress: &mut Progress,
    text: &mut String,
) -> Result<(), Refusal>
    requires { progress.old.begun + 1 < 2 ^ 64 }
    ensures progress { OnOk result (progress.new
        ≡ progress_after span.now progress.old entry.now.caller.role entry.now.call) }
    ensures text { OnOk result (string_bytes text.new ≡ string_bytes text.old
        ++ line_if (moment span.now progress.old.begun) entry.now.caller.role entry.now.call
        entry.now.answer) }
    ensures short { OnOk result (progress.new.begun ≤ progress.old.begun + 1) }
    ensures err { IfErr result (λ e. e ≡ OutOfMemory) }
{
    let line = line_if(alloc, moment(span, progress.begun), entry)?;
    text.push_str(line.as_str())?;
    *progress = progress.after(span, entry.caller().role, entry.call());
    Ok(())
}

/// A line for each call of a user that was refused, with the instant of the clock, in the order of
/// the entries, of which the oldest is the first.
pub(crate) fn refused_text(alloc: Global, span: &Span, entries: &[Entry]) -> Result<String, Refusal>
    ensures ok { IfOk result (λ s. string_bytes s ≡ refused_lines span.now (reverse entries.now)) }
    ensures err { IfErr result (λ e. e ≡ OutOfMemory) }
{
    let mut progress = Progress::new();
    let mut text = String::new(alloc);
    for entry in entries {
        read_entry(alloc, span, entry, &mut progress, &mut text)?;
    }
    Ok(text)
}
