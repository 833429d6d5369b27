// What a call says beyond the object that it is about.
ghost use Rattle.std.specs.Prelude.{◌≡◌, Some, IfOk, IfErr, string_bytes};
ghost use Rattle.cj_base.specs.declared.refusal.Refusal.TheVariants.{OutOfMemory};
ghost use Rattle.cj_report.specs.history.Fields as said;

use crate::history::fields::word;
use crate::history::names::reasons_word;
use crate::history::plans::plan_fields;
use crate::objects::state_text;
use cj_calls::{Call, End};
use cj_types::{DraftMeta, Max, Millis, Outcome, Reason, Refusal, Text, Uid, Version};
use std::alloc::Global;

fn given(alloc: Global, name: &str, text: &Option<Text>) -> Result<String, Refusal>
    ensures ok { IfOk result (λ s. string_bytes s ≡ said.given name.now text.now) }
    ensures err { IfErr result (λ e. e ≡ OutOfMemory) }
{
    let Some(text) = text else {
        return Ok(String::new(alloc));
    };
    let text = word(text.as_str());
    Ok(format!(in alloc; "{name}{text}")?)
}

// What a draft says of the object that it is for.
fn draft_fields(alloc: Global, meta: &DraftMeta) -> Result<String, Refusal>
    ensures ok { IfOk result (λ s. string_bytes s ≡ said.draft_fields meta.now) }
    ensures err { IfErr result (λ e. e ≡ OutOfMemory) }
{
    let mut text = given(alloc, " if-uid=", &meta.uid)?;
    let version = given(alloc, " if-version=", &meta.version)?;
    text.push_str(version.as_str())?;
    Ok(text)
}

fn ending(alloc: Global, uid: Uid, outcome: Outcome) -> Result<String, Refusal>
    ensures ok { IfOk result (λ s. string_bytes s ≡ said.ending uid outcome) }
    ensures err { IfErr result (λ e. e ≡ OutOfMemory) }
{
    let uid = uid.text(alloc)?;
    let uid = uid.as_str();
    let outcome = state_text(Some(outcome));
    Ok(format!(in alloc; " of={uid} outcome={outcome}")?)
}

fn watching(alloc: Global, version: Version, max: Max) -> Result<String, Refusal>
    ensures ok { IfOk result (λ s. string_bytes s ≡ said.watching version max) }
    ensures err { IfErr result (λ e. e ≡ OutOfMemory) }
{
    let version = version.get();
    let max = max.get();
    Ok(format!(in alloc; " after={version} max={max}")?)
}

fn ticking(alloc: Global, millis: Millis) -> Result<String, Refusal>
    ensures ok { IfOk result (λ s. string_bytes s ≡ said.ticking millis) }
    ensures err { IfErr result (λ e. e ≡ OutOfMemory) }
{
    let millis = millis.get();
    Ok(format!(in alloc; " ms={millis}")?)
}

fn feeding(alloc: Global, max: Max) -> Result<String, Refusal>
    ensures ok { IfOk result (λ s. string_bytes s ≡ said.feeding max) }
    ensures err { IfErr result (λ e. e ≡ OutOfMemory) }
{
    let max = max.get();
    Ok(format!(in alloc; " max={max}")?)
}

fn end_words(alloc: Global, end: End) -> Result<String, Refusal>
    ensures ok { IfOk result (λ s. string_bytes s ≡ said.end_words end) }
    ensures err { IfErr result (λ e. e ≡ OutOfMemory) }
{
    match end {
        End::Well => Ok(String::from_str(alloc, " well")?),
        End::Again(millis) => {
            let millis = millis.get();
            Ok(format!(in alloc; " again ms={millis}")?)
        }
    }
}

fn finishing(alloc: Global, end: End, reasons: &[Reason]) -> Result<String, Refusal>
    ensures ok { IfOk result (λ s. string_bytes s ≡ said.finishing end reasons.now) }
    ensures err { IfErr result (λ e. e ≡ OutOfMemory) }
{
    let end = end_words(alloc, end)?;
    let end = end.as_str();
    let reasons = reasons_word(alloc, reasons)?;
    let reasons = reasons.as_str();
    Ok(format!(in alloc; "{end} reasons={reasons}")?)
}

/// What a call says beyond the object that it is about.
#[tactic(auto, unfolding(crate::specs::history::Fields::asked))]
pub(crate) fn asked(alloc: Global, call: &Call) -> Result<String, Refusal>
    ensures ok { IfOk result (λ s. string_bytes s ≡ said.asked call.now) }
    ensures err { IfErr result (λ e. e ≡ OutOfMemory) }
{
    match call {
        Call::CreateCron(draft, _) => draft_fields(alloc, &draft.get().meta),
        Call::UpdateCron(draft) => draft_fields(alloc, &draft.get().meta),
        Call::CreateJob(draft, _) => draft_fields(alloc, &draft.get().meta),
        Call::UpdateJob(draft) => draft_fields(alloc, &draft.get().meta),
        Call::EndJob(_, uid, outcome, _) => ending(alloc, *uid, *outcome),
        Call::Watch(version, max) => watching(alloc, *version, *max),
        Call::Tick(millis) => ticking(alloc, *millis),
        Call::Feed(max) => feeding(alloc, *max),
        Call::Claim(plan) => plan_fields(alloc, plan.get()),
        Call::Finish(end, reasons) => finishing(alloc, *end, reasons.as_slice()),
        _ => Ok(String::new(alloc)),
    }
}
