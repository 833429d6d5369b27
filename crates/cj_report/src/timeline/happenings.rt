// Which entries are worth a line of the time line, and in which words.
ghost use Rattle.std.specs.Prelude.{◌≡◌, IfOk, IfErr, option_copied, string_bytes};
ghost use Rattle.cj_base.specs.declared.refusal.Refusal.TheVariants.{OutOfMemory};
ghost use Rattle.cj_report.specs.timeline.Happenings as said;

use crate::called::call_word;
use crate::history::{due_word, reasons_word};
use crate::objects::{owner_text, state_text};
use crate::tellings::is_told;
use crate::timeline::running::dropped_in;
use crate::timeline::what::What;
use crate::words::refusal_name;
use cj_calls::{Answer, Call, Reply, Role};
use cj_table::Table;
use cj_types::{CronJob, Job, Key, Reason, Refusal, Shared};
use std::alloc::Global;

fn dropped_what(key: Option<&Key>) -> Option<What>
    ensures { result ≡ said.dropped_what (option_copied key.entry) }
{
    match key {
        Some(_) => Some(What::Dropped),
        None => None,
    }
}

// What a sync reported.
fn told_what(reasons: &[Reason]) -> Option<What>
    ensures { result ≡ said.told_what reasons.now }
{
    if reasons.is_empty() {
        None
    } else if is_told(Reason::FailedCreate, reasons) {
        Some(What::NotMade)
    } else if is_told(Reason::JobAlreadyActive, reasons)
        || is_told(Reason::UnknownTimeZone, reasons)
    {
        Some(What::Skipped)
    } else {
        Some(What::Behind)
    }
}

// What an accepted call did.
fn done_what(call: &Call, reply: &Reply) -> Option<What>
    ensures { result ≡ said.done_what call.now reply.now }
{
    match call {
        Call::CreateCron(_, _) => Some(What::Created),
        Call::CreateJob(_, _) => Some(What::Created),
        Call::UpdateCron(_) => Some(What::Updated),
        Call::UpdateJob(_) => Some(What::Updated),
        Call::DeleteCron(_) => Some(What::Deleted),
        Call::DeleteJob(_) => Some(What::Deleted),
        Call::EndJob(_, _, _, _) => Some(What::Ended),
        Call::MakeNext => Some(What::Made),
        Call::DropNext => dropped_what(dropped_in(reply)),
        Call::Finish(_, reasons) => told_what(reasons.as_slice()),
        _ => None,
    }
}

fn refused_what(role: Role) -> Option<What>
    ensures { result ≡ said.refused_what role }
{
    match role {
        Role::User => Some(What::Refused),
        _ => None,
    }
}

/// What happened, if it is worth a line.
#[tactic(auto, unfolding(crate::specs::timeline::Happenings::what_of))]
pub(crate) fn what_of(role: Role, call: &Call, answer: &Answer) -> Option<What>
    ensures { result ≡ said.what_of role call.now answer.now }
{
    match answer {
        Ok(reply) => done_what(call, reply),
        Err(_) => refused_what(role),
    }
}

fn text_of(alloc: Global, text: &str) -> Result<String, Refusal>
    ensures ok { IfOk result (λ s. string_bytes s ≡ text.now) }
    ensures err { IfErr result (λ e. e ≡ OutOfMemory) }
{
    Ok(String::from_str(alloc, text)?)
}

fn cron_how(alloc: Global, cron: &CronJob) -> Result<String, Refusal>
    ensures ok { IfOk result (λ s. string_bytes s ≡ said.cron_how cron.now) }
    ensures err { IfErr result (λ e. e ≡ OutOfMemory) }
{
    let policy = cron.spec.get().policy.name();
    let schedule = cron.spec.get().schedule.as_str();
    Ok(format!(in alloc; "CronJob, {policy}, {schedule}")?)
}

fn written_how(alloc: Global, reply: &Reply) -> Result<String, Refusal>
    ensures ok { IfOk result (λ s. string_bytes s ≡ said.written_how reply.now) }
    ensures err { IfErr result (λ e. e ≡ OutOfMemory) }
{
    match reply {
        Reply::Cron(cron) => cron_how(alloc, cron.get()),
        Reply::Job(_) => text_of(alloc, "Job"),
        _ => text_of(alloc, ""),
    }
}

fn job_how(alloc: Global, job: &Job) -> Result<String, Refusal>
    ensures ok { IfOk result (λ s. string_bytes s ≡ said.job_how job.now) }
    ensures err { IfErr result (λ e. e ≡ OutOfMemory) }
{
    let due = due_word(job);
    let owner = owner_text(&job.owners);
    Ok(format!(in alloc; "for {due}, by {owner}")?)
}

fn made_how(alloc: Global, reply: &Reply) -> Result<String, Refusal>
    ensures ok { IfOk result (λ s. string_bytes s ≡ said.made_how reply.now) }
    ensures err { IfErr result (λ e. e ≡ OutOfMemory) }
{
    match reply {
        Reply::Job(job) => job_how(alloc, job.get()),
        _ => text_of(alloc, ""),
    }
}

fn ended_how(reply: &Reply) -> &'static str
    ensures { result.now ≡ said.ended_how reply.now }
{
    match reply {
        Reply::Job(job) => state_text(job.get().outcome),
        _ => "",
    }
}

// Whether the Job went while it ran, or once it had ended.
fn dropped_how(running: &Table<Shared<Job>>, key: Option<&Key>) -> &'static str
    ensures { result.now ≡ said.dropped_how running.now (option_copied key.entry) }
{
    match key {
        None => "",
        Some(key) => {
            if running.contains(key) {
                "while it ran"
            } else {
                "after its end"
            }
        }
    }
}

#[tactic(auto, unfolding(crate::specs::timeline::Happenings::done_how))]
fn done_how(
    alloc: Global,
    running: &Table<Shared<Job>>,
    call: &Call,
    reply: &Reply,
) -> Result<String, Refusal>
    ensures ok { IfOk result (λ s. string_bytes s ≡ said.done_how running.now call.now reply.now) }
    ensures err { IfErr result (λ e. e ≡ OutOfMemory) }
{
    match call {
        Call::CreateCron(_, _) => written_how(alloc, reply),
        Call::CreateJob(_, _) => written_how(alloc, reply),
        Call::UpdateCron(_) => written_how(alloc, reply),
        Call::UpdateJob(_) => written_how(alloc, reply),
        Call::DeleteCron(_) => text_of(alloc, "CronJob"),
        Call::DeleteJob(_) => text_of(alloc, "Job"),
        Call::EndJob(_, _, _, _) => text_of(alloc, ended_how(reply)),
        Call::MakeNext => made_how(alloc, reply),
        Call::DropNext => text_of(alloc, dropped_how(running, dropped_in(reply))),
        Call::Finish(_, reasons) => reasons_word(alloc, reasons.as_slice()),
        _ => text_of(alloc, ""),
    }
}

fn refused_how(alloc: Global, call: &Call, refusal: &Refusal) -> Result<String, Refusal>
    ensures ok { IfOk result (λ s. string_bytes s ≡ said.refused_how call.now refusal.now) }
    ensures err { IfErr result (λ e. e ≡ OutOfMemory) }
{
    let word = call_word(call);
    let name = refusal_name(refusal);
    Ok(format!(in alloc; "{word} {name}")?)
}

/// How it happened, by which Jobs ran then.
pub(crate) fn how_text(
    alloc: Global,
    running: &Table<Shared<Job>>,
    call: &Call,
    answer: &Answer,
) -> Result<String, Refusal>
    ensures ok { IfOk result (λ s. string_bytes s ≡ said.how_text running.now call.now answer.now) }
    ensures err { IfErr result (λ e. e ≡ OutOfMemory) }
{
    match answer {
        Ok(reply) => done_how(alloc, running, call, reply),
        Err(refusal) => refused_how(alloc, call, refusal),
    }
}
