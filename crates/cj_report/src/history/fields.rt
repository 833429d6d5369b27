// What is said of an object, as words `NAME=VALUE`.
ghost use Rattle.std.specs.Prelude.{◌≡◌, IfOk, IfErr, option_copied, string_bytes};
ghost use Rattle.cj_base.specs.declared.refusal.Refusal.TheVariants.{OutOfMemory};
ghost use Rattle.cj_report.specs.history.Fields as said;

use crate::history::names::names_word;
use crate::objects::{moment_text, state_text};
use cj_types::{CronJob, Job, OwnerRef, Refusal, Text};
use cj_zone::time_text;
use std::alloc::Global;

fn is_blank(c: u8) -> bool
    ensures { result ≡ said.is_blank c }
{
    c <= 32
}

// Whether there are blanks or controls in a text.
fn has_blank(text: &[u8]) -> bool
    ensures { result ≡ said.has_blank text.now }
{
    for c in text {
        if is_blank(*c) {
            return true;
        }
    }
    false
}

/// A text as it stands in a line, or `-` where it has blanks in it.
pub(crate) fn word(text: &str) -> &str
    ensures { result.now ≡ said.word text.now }
{
    if has_blank(text.as_bytes()) {
        "-"
    } else {
        text
    }
}

fn word_or_none(text: Option<&Text>) -> &str
    ensures { result.now ≡ said.word_or_none (option_copied text.entry) }
{
    match text {
        Some(text) => word(text.as_str()),
        None => "-",
    }
}

pub(crate) fn yes_or_no(yes: bool) -> &'static str
    ensures { result.now ≡ said.yes_or_no yes }
{
    if yes { "yes" } else { "no" }
}

/// The time that a Job is for, as its annotation says it, or `-` where it has none.
pub fn due_word(job: &Job) -> &str
    ensures { result.now ≡ said.due_word job.now }
{
    word_or_none(
        job.meta
            .annotations
            .get("batch.kubernetes.io/cronjob-scheduled-timestamp"),
    )
}

fn owner_words(alloc: Global, owner: Option<&OwnerRef>) -> Result<String, Refusal>
    ensures ok { IfOk result (λ s. string_bytes s ≡ said.owner_words (option_copied owner.entry)) }
    ensures err { IfErr result (λ e. e ≡ OutOfMemory) }
{
    let Some(owner) = owner else {
        return Ok(String::from_str(alloc, " owner=- owner-uid=-")?);
    };
    let name = word(owner.name.as_str());
    let uid = word(owner.uid.as_str());
    Ok(format!(in alloc; " owner={name} owner-uid={uid}")?)
}

#[tactic(auto, unfolding(crate::specs::history::Fields::cron_fields))]
pub(crate) fn cron_fields(alloc: Global, cron: &CronJob) -> Result<String, Refusal>
    ensures ok { IfOk result (λ s. string_bytes s ≡ said.cron_fields cron.now) }
    ensures err { IfErr result (λ e. e ≡ OutOfMemory) }
{
    let uid = cron.meta.uid.text(alloc)?;
    let uid = uid.as_str();
    let policy = cron.spec.get().policy.name();
    let suspend = yes_or_no(cron.spec.get().suspend);
    let last = moment_text(alloc, cron.status.last_schedule_time)?;
    let last = last.as_str();
    let active = names_word(alloc, cron.status.active.as_slice())?;
    let active = active.as_str();
    Ok(format!(in alloc;
        " uid={uid} policy={policy} suspend={suspend} last={last} active={active}"
    )?)
}

#[tactic(auto, unfolding(crate::specs::history::Fields::job_fields))]
pub(crate) fn job_fields(alloc: Global, job: &Job) -> Result<String, Refusal>
    ensures ok { IfOk result (λ s. string_bytes s ≡ said.job_fields job.now) }
    ensures err { IfErr result (λ e. e ≡ OutOfMemory) }
{
    let uid = job.meta.uid.text(alloc)?;
    let uid = uid.as_str();
    let owner = owner_words(alloc, job.owners.controller())?;
    let owner = owner.as_str();
    let due = due_word(job);
    let created = time_text(alloc, job.meta.created)?;
    let created = created.as_str();
    let state = state_text(job.outcome);
    Ok(format!(in alloc; " uid={uid}{owner} due={due} created={created} state={state}")?)
}
