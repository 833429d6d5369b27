// What is said of a plan.
ghost use Rattle.std.specs.Prelude.{◌≡◌, IfOk, IfErr, string_bytes};
ghost use Rattle.cj_base.specs.declared.refusal.Refusal.TheVariants.{OutOfMemory};
ghost use Rattle.cj_report.specs.history.Fields as said;

use crate::history::fields::yes_or_no;
use crate::history::names::refs_word;
use crate::objects::moment_text;
use cj_decide::Plan;
use cj_types::{CronJob, JobDraft, Refusal, Shared};
use std::alloc::Global;

// The CronJob that a plan rests on.
fn seen_words(alloc: Global, cron: &Option<Shared<CronJob>>) -> Result<String, Refusal>
    ensures ok { IfOk result (λ s. string_bytes s ≡ said.seen_words cron.now) }
    ensures err { IfErr result (λ e. e ≡ OutOfMemory) }
{
    let Some(cron) = cron else {
        return Ok(String::from_str(alloc, " of=- seen=- policy=-")?);
    };
    let uid = cron.get().meta.uid.text(alloc)?;
    let uid = uid.as_str();
    let version = cron.get().meta.version.get();
    let policy = cron.get().spec.get().policy.name();
    Ok(format!(in alloc; " of={uid} seen={version} policy={policy}")?)
}

fn make_word(draft: &Option<JobDraft>) -> &str
    ensures { result.now ≡ said.make_word draft.now }
{
    match draft {
        Some(draft) => draft.key.name(),
        None => "-",
    }
}

/// The CronJob that a plan rests on, and its steps.
#[tactic(auto, unfolding(crate::specs::history::Fields::plan_fields))]
pub(crate) fn plan_fields(alloc: Global, plan: &Plan) -> Result<String, Refusal>
    ensures ok { IfOk result (λ s. string_bytes s ≡ said.plan_fields plan.now) }
    ensures err { IfErr result (λ e. e ≡ OutOfMemory) }
{
    let seen = seen_words(alloc, plan.cron())?;
    let seen = seen.as_str();
    let steps = plan.steps();
    let drops = refs_word(alloc, steps.drop_first.as_slice())?;
    let drops = drops.as_str();
    let make = make_word(&steps.make);
    let cleanup = refs_word(alloc, steps.cleanup.as_slice())?;
    let cleanup = cleanup.as_str();
    let status = yes_or_no(steps.status.is_some());
    let next = moment_text(alloc, steps.next)?;
    let next = next.as_str();
    Ok(format!(in alloc;
        "{seen} drop={drops} make={make} cleanup={cleanup} status={status} next={next}"
    )?)
}
