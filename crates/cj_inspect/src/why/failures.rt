// The Jobs of CronJobs that failed, as `why` tells people of them.
ghost use Rattle.std.specs.Prelude.{◌≡◌, ◌++◌, IfErr, IfOk, OnOk, filter, option_copied, string_bytes};
ghost use Rattle.cj_base.specs.declared.refusal.Refusal.TheVariants.{OutOfMemory};
ghost use Rattle.cj_status.specs.Mine.{is_failed};
ghost use Rattle.cj_answers.specs.Outcome.{explained, outcome_of};
ghost use Rattle.cj_inspect.specs.Failures.{count_line, failed_line, failed_lines, failures, is_before, is_failure, last_of, later, time_by};

use cj_answers::Answer;
use cj_cluster::{Cluster, ClusterCron, JobTimes};
use cj_types::{Job, Outcome, Refusal, Seconds, Shared};
use std::alloc::{AllocError, Global};

/// Whether the Job failed.
pub(crate) fn is_failed(job: &Job) -> bool
    ensures { result ≡ is_failed job.now }
{
    matches!(job.outcome, Some(Outcome::Failed))
}

fn is_failure(cron: &ClusterCron, job: &Job) -> bool
    ensures { result ≡ is_failure cron.now job.now }
{
    let controls = cron.controls(job);
    let is_failed = is_failed(job);
    controls && is_failed
}

// Those of the Jobs that are the CronJob's and failed.
fn failed_among(
    alloc: Global,
    cron: &ClusterCron,
    jobs: &[Shared<Job>],
) -> Result<Vec<Shared<Job>>, Refusal>
    ensures ok { IfOk result (λ v. v.items ≡ filter (is_failure cron.now) jobs.now) }
    ensures err { IfErr result (λ e. e ≡ OutOfMemory) }
{
    let mut failed = Vec::new(alloc);
    for job in jobs {
        if is_failure(cron, job.get()) {
            failed.push(job.share()?).map_err(|_| Refusal::OutOfMemory)?;
        }
    }
    Ok(failed)
}

/// Those of a cluster's Jobs that are the CronJob's and failed, in the order of their names.
pub(crate) fn failures(
    alloc: Global,
    cluster: &Cluster,
    cron: &ClusterCron,
) -> Result<Vec<Shared<Job>>, Refusal>
    ensures ok { IfOk result (λ v. v.items ≡ failures cluster.now cron.now) }
    ensures err { IfErr result (λ e. e ≡ OutOfMemory) }
{
    let jobs = cluster.jobs_naming(alloc, cron.cron.key.key())?;
    failed_among(alloc, cron, jobs.as_slice())
}

fn time_by(times: Option<&Shared<JobTimes>>) -> Option<Seconds>
    ensures { result ≡ time_by (option_copied times.entry) }
{
    match times {
        Some(times) => times.get().scheduled,
        None => None,
    }
}

fn is_before(one: Option<Seconds>, other: Option<Seconds>) -> bool
    ensures { result ≡ is_before one other }
{
    match (one, other) {
        (Some(one), Some(other)) => one.get() < other.get(),
        (None, Some(_)) => true,
        (_, None) => false,
    }
}

// Of two Jobs in the order of their names the one with the later time, else the second.
fn later<'a>(cluster: &Cluster, last: &'a Shared<Job>, job: &'a Shared<Job>) -> &'a Shared<Job>
    ensures { result.now ≡ later cluster.now.times last.now job.now }
{
    let time = time_by(cluster.times(&job.get().key));
    let last_time = time_by(cluster.times(&last.get().key));
    if is_before(time, last_time) {
        last
    } else {
        job
    }
}

/// The last of these Jobs, which are in the order of their names.
pub(crate) fn last_of<'a>(
    cluster: &Cluster,
    first: &'a Shared<Job>,
    others: &'a [Shared<Job>],
) -> &'a Shared<Job>
    ensures { result.now ≡ last_of cluster.now.times first.now others.now }
{
    let mut last = first;
    for job in others {
        last = later(cluster, last, job);
    }
    last
}

// So many Jobs of a CronJob failed, the last of them of that name.
fn count_line(
    alloc: Global,
    cron: &ClusterCron,
    count: usize,
    last: &str,
) -> Result<String, AllocError>
    ensures { IfOk result (λ s. string_bytes s ≡ count_line cron.now count last.now) }
{
    let key = cron.cron.key.key();
    let (namespace, name) = (key.namespace(), key.name());
    format!(in alloc; "{namespace}/{name}: {count} of its Jobs in the list failed, last {last}\n")
}

/// A line where there are such.
pub(crate) fn failed_line(
    alloc: Global,
    cluster: &Cluster,
    cron: &ClusterCron,
    failed: &[Shared<Job>],
) -> Result<String, AllocError>
    ensures { IfOk result (λ s. string_bytes s
        ≡ failed_line cluster.now.times cron.now failed.now) }
{
    match failed.split_first() {
        Some((first, others)) => {
            let last = last_of(cluster, first, others).get();
            count_line(alloc, cron, failed.len(), last.key.name())
        }
        None => Ok(String::new(alloc)),
    }
}

fn push_line(
    alloc: Global,
    lines: &mut String,
    cluster: &Cluster,
    cron: &ClusterCron,
) -> Result<(), Refusal>
    ensures ok { OnOk result (string_bytes lines.new ≡ string_bytes lines.old
        ++ failed_line cluster.now.times cron.now (failures cluster.now cron.now)) }
    ensures err { IfErr result (λ e. e ≡ OutOfMemory) }
{
    let failed = failures(alloc, cluster, cron)?;
    let line = failed_line(alloc, cluster, cron, failed.as_slice())?;
    lines.push_str(line.as_str())?;
    Ok(())
}

// A line for each CronJob of which some failed.
fn failed_lines(
    alloc: Global,
    cluster: &Cluster,
    crons: &[Shared<ClusterCron>],
) -> Result<String, Refusal>
    ensures ok { IfOk result (λ s. string_bytes s ≡ failed_lines cluster.now crons.now) }
    ensures err { IfErr result (λ e. e ≡ OutOfMemory) }
{
    let mut lines = String::new(alloc);
    for cron in crons {
        push_line(alloc, &mut lines, cluster, cron.get())?;
    }
    Ok(lines)
}

/// An answer, with that behind what it says, where the reasons are told in full.
pub(crate) fn with_failures(
    alloc: Global,
    full: bool,
    cluster: &Cluster,
    crons: &[Shared<ClusterCron>],
    answer: Answer,
) -> Result<Answer, Refusal>
    ensures ok { IfOk result (λ a. outcome_of a
        ≡ explained full (failed_lines cluster.now crons.now) (outcome_of answer)) }
    ensures err { IfErr result (λ e. e ≡ OutOfMemory) }
{
    if full {
        let lines = failed_lines(alloc, cluster, crons)?;
        Ok(answer.explained(true, lines.as_str())?)
    } else {
        Ok(answer)
    }
}
