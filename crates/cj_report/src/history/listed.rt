// What is said of listed objects, and what an answer says beyond the line of its step.
ghost use Rattle.std.specs.Prelude.{◌≡◌, ◌++◌, codes, IfOk, IfErr, OnOk, string_bytes};
ghost use Rattle.cj_base.specs.declared.refusal.Refusal.TheVariants.{OutOfMemory};
ghost use Rattle.cj_report.specs.history.Listed as said;

use crate::history::fields::{cron_fields, job_fields};
use cj_calls::Reply;
use cj_types::{CronJob, Event, Job, Key, Object, Refusal, Shared, Version};
use std::alloc::Global;

// `NAMESPACE/NAME@VERSION`
fn item(alloc: Global, key: &Key, version: Version) -> Result<String, Refusal>
    ensures ok { IfOk result (λ s. string_bytes s ≡ said.item key.now version) }
    ensures err { IfErr result (λ e. e ≡ OutOfMemory) }
{
    let namespace = key.namespace();
    let name = key.name();
    let version = version.get();
    Ok(format!(in alloc; "{namespace}/{name}@{version}")?)
}

// Adds an object after a blank.
fn push_item(text: &mut String, item: &str) -> Result<(), Refusal>
    ensures ok { OnOk result (string_bytes text.new
        ≡ string_bytes text.old ++ (codes " " ++ item.now)) }
    ensures err { IfErr result (λ e. e ≡ OutOfMemory) }
{
    text.push_str(" ")?;
    text.push_str(item)?;
    Ok(())
}

fn cron_items(alloc: Global, crons: &[Shared<CronJob>]) -> Result<String, Refusal>
    ensures ok { IfOk result (λ s. string_bytes s ≡ said.cron_items crons.now) }
    ensures err { IfErr result (λ e. e ≡ OutOfMemory) }
{
    let mut text = String::new(alloc);
    for cron in crons {
        let item = item(alloc, cron.get().key.key(), cron.get().meta.version)?;
        push_item(&mut text, item.as_str())?;
    }
    Ok(text)
}

fn job_items(alloc: Global, jobs: &[Shared<Job>]) -> Result<String, Refusal>
    ensures ok { IfOk result (λ s. string_bytes s ≡ said.job_items jobs.now) }
    ensures err { IfErr result (λ e. e ≡ OutOfMemory) }
{
    let mut text = String::new(alloc);
    for job in jobs {
        let item = item(alloc, &job.get().key, job.get().meta.version)?;
        push_item(&mut text, item.as_str())?;
    }
    Ok(text)
}

fn active_item(alloc: Global, job: &Option<Shared<Job>>) -> Result<String, Refusal>
    ensures ok { IfOk result (λ s. string_bytes s ≡ said.active_item job.now) }
    ensures err { IfErr result (λ e. e ≡ OutOfMemory) }
{
    match job {
        Some(job) => item(alloc, &job.get().key, job.get().meta.version),
        None => Ok(String::from_str(alloc, "-")?),
    }
}

fn active_items(alloc: Global, jobs: &[Option<Shared<Job>>]) -> Result<String, Refusal>
    ensures ok { IfOk result (λ s. string_bytes s ≡ said.active_items jobs.now) }
    ensures err { IfErr result (λ e. e ≡ OutOfMemory) }
{
    let mut text = String::new(alloc);
    for job in jobs {
        let item = active_item(alloc, job)?;
        push_item(&mut text, item.as_str())?;
    }
    Ok(text)
}

fn kind_item(alloc: Global, kind: &str, key: &Key, version: Version) -> Result<String, Refusal>
    ensures ok { IfOk result (λ s. string_bytes s ≡ kind.now ++ said.item key.now version) }
    ensures err { IfErr result (λ e. e ≡ OutOfMemory) }
{
    let item = item(alloc, key, version)?;
    let item = item.as_str();
    Ok(format!(in alloc; "{kind}{item}")?)
}

fn object_item(alloc: Global, object: &Object) -> Result<String, Refusal>
    ensures ok { IfOk result (λ s. string_bytes s ≡ said.object_item object.now) }
    ensures err { IfErr result (λ e. e ≡ OutOfMemory) }
{
    match object {
        Object::Cron(cron) => {
            kind_item(
                alloc,
                "CronJob:",
                cron.get().key.key(),
                cron.get().meta.version,
            )
        }
        Object::Job(job) => kind_item(alloc, "Job:", &job.get().key, job.get().meta.version),
    }
}

fn with_kind(alloc: Global, kind: &str, object: &Object) -> Result<String, Refusal>
    ensures ok { IfOk result (λ s. string_bytes s ≡ kind.now ++ said.object_item object.now) }
    ensures err { IfErr result (λ e. e ≡ OutOfMemory) }
{
    let item = object_item(alloc, object)?;
    let item = item.as_str();
    Ok(format!(in alloc; "{kind}{item}")?)
}

// `ADDED:KIND:NAMESPACE/NAME@VERSION`
fn event_item(alloc: Global, event: &Event) -> Result<String, Refusal>
    ensures ok { IfOk result (λ s. string_bytes s ≡ said.event_item event.now) }
    ensures err { IfErr result (λ e. e ≡ OutOfMemory) }
{
    match event {
        Event::Added(object) => with_kind(alloc, "ADDED:", object),
        Event::Modified(object) => with_kind(alloc, "MODIFIED:", object),
        Event::Deleted(object) => with_kind(alloc, "DELETED:", object),
    }
}

fn event_items(alloc: Global, events: &[Event]) -> Result<String, Refusal>
    ensures ok { IfOk result (λ s. string_bytes s ≡ said.event_items events.now) }
    ensures err { IfErr result (λ e. e ≡ OutOfMemory) }
{
    let mut text = String::new(alloc);
    for event in events {
        let item = event_item(alloc, event)?;
        push_item(&mut text, item.as_str())?;
    }
    Ok(text)
}

// An object with its version.
fn at_version(alloc: Global, version: Version, what: &str) -> Result<String, Refusal>
    ensures ok { IfOk result (λ s. string_bytes s ≡ said.at_version version what.now) }
    ensures err { IfErr result (λ e. e ≡ OutOfMemory) }
{
    let version = version.get();
    Ok(format!(in alloc; " v={version}{what}")?)
}

fn crons_at(alloc: Global, crons: &[Shared<CronJob>], version: Version) -> Result<String, Refusal>
    ensures ok { IfOk result (λ s. string_bytes s
        ≡ said.at_version version (said.cron_items crons.now)) }
    ensures err { IfErr result (λ e. e ≡ OutOfMemory) }
{
    let items = cron_items(alloc, crons)?;
    at_version(alloc, version, items.as_str())
}

fn jobs_at(alloc: Global, jobs: &[Shared<Job>], version: Version) -> Result<String, Refusal>
    ensures ok { IfOk result (λ s. string_bytes s
        ≡ said.at_version version (said.job_items jobs.now)) }
    ensures err { IfErr result (λ e. e ≡ OutOfMemory) }
{
    let items = job_items(alloc, jobs)?;
    at_version(alloc, version, items.as_str())
}

fn seen_fields(alloc: Global, cron: &Option<Shared<CronJob>>) -> Result<String, Refusal>
    ensures ok { IfOk result (λ s. string_bytes s ≡ said.seen_fields cron.now) }
    ensures err { IfErr result (λ e. e ≡ OutOfMemory) }
{
    let Some(cron) = cron else {
        return Ok(String::new(alloc));
    };
    let fields = cron_fields(alloc, cron.get())?;
    at_version(alloc, cron.get().meta.version, fields.as_str())
}

/// What an answer says beyond the line of its step.
#[tactic(auto, unfolding(crate::specs::history::Listed::listed))]
pub(crate) fn listed(alloc: Global, reply: &Reply) -> Result<String, Refusal>
    ensures ok { IfOk result (λ s. string_bytes s ≡ said.listed reply.now) }
    ensures err { IfErr result (λ e. e ≡ OutOfMemory) }
{
    match reply {
        Reply::Cron(cron) => cron_fields(alloc, cron.get()),
        Reply::Job(job) => job_fields(alloc, job.get()),
        Reply::Crons(crons, version) => crons_at(alloc, crons.as_slice(), *version),
        Reply::Jobs(jobs, version) => jobs_at(alloc, jobs.as_slice(), *version),
        Reply::Events(events) => event_items(alloc, events.as_slice()),
        Reply::SeenCron(cron) => seen_fields(alloc, cron),
        Reply::SeenJobs(jobs) => job_items(alloc, jobs.as_slice()),
        Reply::SeenActive(jobs) => active_items(alloc, jobs.as_slice()),
        _ => Ok(String::new(alloc)),
    }
}
