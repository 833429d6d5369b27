// What is printed of the answer to a step.
ghost use Rattle.std.specs.Prelude.{◌≡◌, IfOk, IfErr, string_bytes};
ghost use Rattle.cj_base.specs.declared.refusal.Refusal.TheVariants.{OutOfMemory};
ghost use Rattle.cj_report.specs.Answers as said;

use crate::words::refusal_name;
use cj_calls::{Answer, Reply};
use cj_script::{Plain, Verb};
use cj_types::{Job, Key, Refusal, Seconds, Shared, Version};
use cj_zone::time_text;
use std::alloc::Global;

fn version_text(alloc: Global, version: Version) -> Result<String, Refusal>
    ensures ok { IfOk result (λ s. string_bytes s ≡ said.version_text version) }
    ensures err { IfErr result (λ e. e ≡ OutOfMemory) }
{
    let count = version.get();
    Ok(format!(in alloc; "ok v={count}")?)
}

fn count_text(alloc: Global, count: usize) -> Result<String, Refusal>
    ensures ok { IfOk result (λ s. string_bytes s ≡ said.count_text count) }
    ensures err { IfErr result (λ e. e ≡ OutOfMemory) }
{
    Ok(format!(in alloc; "ok {count}")?)
}

fn plain_text(alloc: Global, text: &str) -> Result<String, Refusal>
    ensures ok { IfOk result (λ s. string_bytes s ≡ text.now) }
    ensures err { IfErr result (λ e. e ≡ OutOfMemory) }
{
    Ok(String::from_str(alloc, text)?)
}

fn key_text(alloc: Global, key: &Key) -> Result<String, Refusal>
    ensures ok { IfOk result (λ s. string_bytes s ≡ said.key_text key.now) }
    ensures err { IfErr result (λ e. e ≡ OutOfMemory) }
{
    let namespace = key.namespace();
    let name = key.name();
    Ok(format!(in alloc; "ok {namespace}/{name}")?)
}

fn named_text(alloc: Global, key: &Key, version: Version) -> Result<String, Refusal>
    ensures ok { IfOk result (λ s. string_bytes s ≡ said.named_text key.now version) }
    ensures err { IfErr result (λ e. e ≡ OutOfMemory) }
{
    let name = key.name();
    let count = version.get();
    Ok(format!(in alloc; "ok {name} v={count}")?)
}

fn claimed_text(alloc: Global, claimed: &Option<(Seconds, Version)>) -> Result<String, Refusal>
    ensures ok { IfOk result (λ s. string_bytes s ≡ said.claimed_text claimed.now) }
    ensures err { IfErr result (λ e. e ≡ OutOfMemory) }
{
    match claimed {
        Some((time, version)) => {
            let time = time_text(alloc, *time)?;
            let time = time.as_str();
            let count = version.get();
            Ok(format!(in alloc; "ok {time} v={count}")?)
        }
        None => plain_text(alloc, "ok none"),
    }
}

fn dropped_text(alloc: Global, dropped: &Option<(Key, Version)>) -> Result<String, Refusal>
    ensures ok { IfOk result (λ s. string_bytes s ≡ said.dropped_text dropped.now) }
    ensures err { IfErr result (λ e. e ≡ OutOfMemory) }
{
    match dropped {
        Some((key, version)) => named_text(alloc, key, *version),
        None => plain_text(alloc, "ok gone"),
    }
}

fn job_text(alloc: Global, verb: Verb, job: &Job) -> Result<String, Refusal>
    ensures ok { IfOk result (λ s. string_bytes s ≡ said.job_text verb job.now) }
    ensures err { IfErr result (λ e. e ≡ OutOfMemory) }
{
    if verb == Verb::Does(Plain::Make) {
        named_text(alloc, &job.key, job.meta.version)
    } else {
        version_text(alloc, job.meta.version)
    }
}

// How many of the Jobs that a live read looked for are there.
fn found(jobs: &[Option<Shared<Job>>]) -> usize
    ensures { result ≡ said.found jobs.now }
{
    let mut count = 0;
    for job in jobs {
        if job.is_some() {
            count += 1;
        }
    }
    count
}

#[tactic(auto, unfolding(crate::specs::Answers::reply_text))]
fn reply_text(alloc: Global, verb: Verb, reply: &Reply) -> Result<String, Refusal>
    ensures ok { IfOk result (λ s. string_bytes s ≡ said.reply_text verb reply.now) }
    ensures err { IfErr result (λ e. e ≡ OutOfMemory) }
{
    match reply {
        Reply::Cron(cron) => version_text(alloc, cron.get().meta.version),
        Reply::Job(job) => job_text(alloc, verb, job.get()),
        Reply::Crons(_, _) => plain_text(alloc, "ok"),
        Reply::Jobs(_, _) => plain_text(alloc, "ok"),
        Reply::Version(version) => version_text(alloc, *version),
        Reply::Events(events) => count_text(alloc, events.as_slice().len()),
        Reply::Done => plain_text(alloc, "ok"),
        Reply::Key(key) => key_text(alloc, key),
        Reply::SeenCron(None) => plain_text(alloc, "ok none"),
        Reply::SeenCron(Some(_)) => plain_text(alloc, "ok"),
        Reply::SeenJobs(jobs) => count_text(alloc, jobs.as_slice().len()),
        Reply::SeenActive(jobs) => count_text(alloc, found(jobs.as_slice())),
        Reply::Claimed(claimed) => claimed_text(alloc, claimed),
        Reply::Dropped(dropped) => dropped_text(alloc, dropped),
    }
}

/// What is printed of the answer to a step with this verb: `ok`, with what there is to say, or the
/// name of the refusal.
pub(crate) fn answer_text(alloc: Global, verb: Verb, answer: &Answer) -> Result<String, Refusal>
    ensures ok { IfOk result (λ s. string_bytes s ≡ said.answer_text verb answer.now) }
    ensures err { IfErr result (λ e. e ≡ OutOfMemory) }
{
    match answer {
        Ok(reply) => reply_text(alloc, verb, reply),
        Err(refusal) => plain_text(alloc, refusal_name(refusal)),
    }
}
