// What of a cluster is shown, and how clusters are put together.
ghost use Rattle.std.specs.Prelude.{◌≡◌, IfErr};
ghost use Rattle.cj_base.specs.declared.refusal.Refusal.TheVariants.{OutOfMemory};

use cj_audit::{Finding, FindingKind};
use cj_cluster::{Cluster, ClusterCron, JobTimes};
use cj_types::{Job, Refusal, Seconds, Shared, Text, TryCopy};
use std::alloc::Global;

// How many are there already: none or this one.
fn add_cron(alloc: Global, into: &mut Cluster, cron: &ClusterCron) -> Result<usize, Refusal>
    ensures err { IfErr result (λ e. e ≡ OutOfMemory) }
{
    let copy = cron.try_copy(alloc)?;
    if into.cron(copy.cron.key.key()).is_some() {
        return Ok(1);
    }
    into.add_cron(alloc, copy)?;
    Ok(0)
}

fn add_crons(alloc: Global, into: &mut Cluster, from: &Cluster) -> Result<usize, Refusal>
    ensures err { IfErr result (λ e. e ≡ OutOfMemory) }
{
    let mut known: usize = 0;
    let crons = from.crons(alloc)?;
    for cron in crons.as_slice() {
        known = known.saturating_add(add_cron(alloc, into, cron.get())?);
    }
    Ok(known)
}

// From which second on; all of them where nobody says.
fn first_second(since: Option<Seconds>) -> u64 {
    match since {
        Some(since) => since.get(),
        None => 0,
    }
}

// Whether the Job was made or ended from then on, or hasn't ended.
fn is_seen(first: u64, job: &Job, times: &JobTimes) -> bool {
    match times.ended {
        Some(ended) => first <= ended.get() || first <= job.meta.created.get(),
        None => true,
    }
}

// How many are there already: none or this one.
fn add_job(
    alloc: Global,
    into: &mut Cluster,
    first: u64,
    job: &Shared<Job>,
    times: &Shared<JobTimes>,
) -> Result<usize, Refusal>
    ensures err { IfErr result (λ e. e ≡ OutOfMemory) }
{
    if !is_seen(first, job.get(), times.get()) {
        return Ok(0);
    }
    if into.job(&job.get().key).is_some() {
        return Ok(1);
    }
    into.add_job(alloc, job.share()?, times.share()?)?;
    Ok(0)
}

fn add_jobs(alloc: Global, into: &mut Cluster, first: u64, from: &Cluster) -> Result<usize, Refusal>
    ensures err { IfErr result (λ e. e ≡ OutOfMemory) }
{
    let mut known: usize = 0;
    let jobs = from.jobs(alloc)?;
    for job in jobs.as_slice() {
        if let Some(times) = from.times(&job.get().key) {
            known = known.saturating_add(add_job(alloc, into, first, job, times)?);
        }
    }
    Ok(known)
}

/// Adds the objects of a cluster to another, and answers how many are left out, since the other has
/// an object of their name.
///
/// # Errors
///
/// `OutOfMemory`.
pub fn add_cluster(alloc: Global, into: &mut Cluster, from: &Cluster) -> Result<usize, Refusal>
    ensures err { IfErr result (λ e. e ≡ OutOfMemory) }
{
    let crons = add_crons(alloc, into, from)?;
    let jobs = add_jobs(alloc, into, 0, from)?;
    Ok(crons.saturating_add(jobs))
}

/// The CronJobs of the cluster, with those of its Jobs that were made or ended since then or
/// haven't ended.
pub(crate) fn cluster_since(
    alloc: Global,
    since: Option<Seconds>,
    cluster: &Cluster,
) -> Result<Cluster, Refusal>
    ensures err { IfErr result (λ e. e ≡ OutOfMemory) }
{
    let mut seen = Cluster::new(alloc);
    add_crons(alloc, &mut seen, cluster)?;
    add_jobs(alloc, &mut seen, first_second(since), cluster)?;
    Ok(seen)
}

fn name_copy(alloc: Global, name: &Option<Text>) -> Result<Option<Text>, Refusal>
    ensures err { IfErr result (λ e. e ≡ OutOfMemory) }
{
    match name {
        Some(name) => Ok(Some(name.try_copy(alloc)?)),
        None => Ok(None),
    }
}

fn finding_copy(alloc: Global, finding: &Finding) -> Result<Finding, Refusal>
    ensures err { IfErr result (λ e. e ≡ OutOfMemory) }
{
    Ok(Finding {
        namespace: finding.namespace.try_copy(alloc)?,
        cron: finding.cron.try_copy(alloc)?,
        time: finding.time,
        first: finding.first.try_copy(alloc)?,
        second: name_copy(alloc, &finding.second)?,
        kind: finding.kind,
    })
}

/// The findings whose time isn't before then, and every CronJob that is stuck.
pub(crate) fn findings_since(
    alloc: Global,
    since: Option<Seconds>,
    findings: &[Finding],
) -> Result<Vec<Finding>, Refusal>
    ensures err { IfErr result (λ e. e ≡ OutOfMemory) }
{
    let first = first_second(since);
    let mut seen = Vec::new(alloc);
    for finding in findings {
        if first <= finding.time.get() || finding.kind == FindingKind::Stuck {
            seen.push(finding_copy(alloc, finding)?)
                .map_err(|_| Refusal::OutOfMemory)?;
        }
    }
    Ok(seen)
}
