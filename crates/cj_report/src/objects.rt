// The lines of the objects at the end.
ghost use Rattle.std.specs.Prelude.{◌≡◌, ◌++◌, IfOk, IfErr, OnOk, string_bytes};
ghost use Rattle.cj_base.specs.declared.refusal.Refusal.TheVariants.{OutOfMemory};
ghost use Rattle.cj_report.specs.Objects as said;

use cj_types::{CronJob, Job, Outcome, OwnerRefs, Refusal, Seconds, Shared};
use cj_zone::time_text;
use std::alloc::Global;

pub(crate) fn moment_text(alloc: Global, time: Option<Seconds>) -> Result<String, Refusal>
    ensures ok { IfOk result (λ s. string_bytes s ≡ said.moment_text time) }
    ensures err { IfErr result (λ e. e ≡ OutOfMemory) }
{
    match time {
        Some(time) => time_text(alloc, time),
        None => Ok(String::from_str(alloc, "-")?),
    }
}

#[tactic(auto, unfolding(crate::specs::Objects::cron_line))]
fn cron_line(alloc: Global, cron: &CronJob) -> Result<String, Refusal>
    ensures ok { IfOk result (λ s. string_bytes s ≡ said.cron_line cron.now) }
    ensures err { IfErr result (λ e. e ≡ OutOfMemory) }
{
    let namespace = cron.key.key().namespace();
    let name = cron.key.key().name();
    let last = moment_text(alloc, cron.status.last_schedule_time)?;
    let last = last.as_str();
    let success = moment_text(alloc, cron.status.last_successful_time)?;
    let success = success.as_str();
    let count = cron.status.active.as_slice().len();
    Ok(format!(in alloc; "cron {namespace}/{name} last {last} success {success} active {count}\n")?)
}

pub(crate) fn owner_text(owners: &OwnerRefs) -> &str
    ensures { result.now ≡ said.owner_text owners.now }
{
    match owners.controller() {
        Some(owner) => owner.name.as_str(),
        None => "-",
    }
}

pub(crate) fn state_text(outcome: Option<Outcome>) -> &'static str
    ensures { result.now ≡ said.state_text outcome }
{
    match outcome {
        None => "Running",
        Some(Outcome::Complete(_)) => "Complete",
        Some(Outcome::Failed) => "Failed",
    }
}

#[tactic(auto, unfolding(crate::specs::Objects::job_line))]
fn job_line(alloc: Global, job: &Job) -> Result<String, Refusal>
    ensures ok { IfOk result (λ s. string_bytes s ≡ said.job_line job.now) }
    ensures err { IfErr result (λ e. e ≡ OutOfMemory) }
{
    let namespace = job.key.namespace();
    let name = job.key.name();
    let owner = owner_text(&job.owners);
    let state = state_text(job.outcome);
    Ok(format!(in alloc; "job {namespace}/{name} {owner} {state}\n")?)
}

fn push_crons(text: &mut String, alloc: Global, crons: &[Shared<CronJob>]) -> Result<(), Refusal>
    ensures ok { OnOk result (string_bytes text.new
        ≡ string_bytes text.old ++ said.cron_lines crons.now) }
    ensures err { IfErr result (λ e. e ≡ OutOfMemory) }
{
    for cron in crons {
        let line = cron_line(alloc, cron.get())?;
        text.push_str(line.as_str())?;
    }
    Ok(())
}

fn push_jobs(text: &mut String, alloc: Global, jobs: &[Shared<Job>]) -> Result<(), Refusal>
    ensures ok { OnOk result (string_bytes text.new
        ≡ string_bytes text.old ++ said.job_lines jobs.now) }
    ensures err { IfErr result (λ e. e ≡ OutOfMemory) }
{
    for job in jobs {
        let line = job_line(alloc, job.get())?;
        text.push_str(line.as_str())?;
    }
    Ok(())
}

/// A line for each CronJob, with its last times and how many Jobs its status names, then one for
/// each Job, with the name in its controller reference and how it stands.
pub(crate) fn objects_text(
    alloc: Global,
    crons: &[Shared<CronJob>],
    jobs: &[Shared<Job>],
) -> Result<String, Refusal>
    ensures ok { IfOk result (λ s. string_bytes s
        ≡ said.cron_lines crons.now ++ said.job_lines jobs.now) }
    ensures err { IfErr result (λ e. e ≡ OutOfMemory) }
{
    let mut text = String::new(alloc);
    push_crons(&mut text, alloc, crons)?;
    push_jobs(&mut text, alloc, jobs)?;
    Ok(text)
}
