// What is said of a list's Jobs beside its findings.
ghost use Rattle.std.specs.Prelude.{◌≡◌, ◌&&◌, ◌++◌, codes, IfOk, IfErr, length, filter, option_copied, string_bytes};
ghost use Rattle.std.specs.FinMap as map;
ghost use Rattle.std.specs.List.{list_any};
ghost use Rattle.cj_base.specs.declared.refusal.Refusal.TheVariants.{OutOfMemory};
ghost use Rattle.cj_audit.specs.Told.{count_line, has_jobs_alone, is_made, made_count, named_by, timeless_by, times_words};

use crate::manual::is_manual;
use crate::stray::tells_crons;
use cj_cluster::{Cluster, ItemNote, JobTimes};
use cj_types::{Job, Refusal, Shared};
use std::alloc::{AllocError, Global};

// Whether nobody made the Job by hand, and it is of a CronJob.
fn is_made(cluster: &Cluster, job: &Job) -> bool
    ensures { result ≡ is_made cluster.now.times job.now }
{
    let is_of_cron = job.cron_name().is_some();
    let is_manual = is_manual(cluster, job);
    is_of_cron && !is_manual
}

fn has_made(cluster: &Cluster, jobs: &[Shared<Job>]) -> bool
    ensures { result ≡ list_any (is_made cluster.now.times) jobs.now }
{
    jobs.iter().any(|job| is_made(cluster, job.get()))
}

/// Whether the list has Jobs of CronJobs, and no CronJob, not even one that can't be used: then
/// nothing can be said of those Jobs.
pub fn has_jobs_alone(alloc: Global, cluster: &Cluster, notes: &[ItemNote]) -> Result<bool, Refusal>
    ensures ok { IfOk result (λ b. b ≡ has_jobs_alone cluster.now notes.now) }
    ensures memory { IfErr result (λ e. e ≡ OutOfMemory) }
{
    let jobs = cluster.jobs(alloc)?;
    let has_made = has_made(cluster, jobs.as_slice());
    let tells_crons = tells_crons(alloc, cluster, notes)?;
    Ok(has_made && !tells_crons)
}

fn named_by(times: Option<&Shared<JobTimes>>) -> bool
    ensures { result ≡ named_by (option_copied times.entry) }
{
    match times {
        Some(times) => times.get().is_named,
        None => false,
    }
}

fn timeless_by(times: Option<&Shared<JobTimes>>) -> bool
    ensures { result ≡ timeless_by (option_copied times.entry) }
{
    match times {
        Some(times) => times.get().scheduled.is_none(),
        None => false,
    }
}

fn is_named(cluster: &Cluster, job: &Job) -> bool
    ensures { result ≡ (is_made cluster.now.times job.now
        && named_by (map.get cluster.now.times job.now.key)) }
{
    let is_made = is_made(cluster, job);
    let is_named = named_by(cluster.times(&job.key));
    is_made && is_named
}

fn is_timeless(cluster: &Cluster, job: &Job) -> bool
    ensures { result ≡ (is_made cluster.now.times job.now
        && timeless_by (map.get cluster.now.times job.now.key)) }
{
    let is_made = is_made(cluster, job);
    let is_timeless = timeless_by(cluster.times(&job.key));
    is_made && is_timeless
}

fn named_count(cluster: &Cluster, jobs: &[Shared<Job>]) -> usize
    ensures { result ≡ made_count named_by cluster.now.times jobs.now }
{
    let mut count = 0;
    for job in jobs {
        if is_named(cluster, job.get()) {
            count += 1;
        }
    }
    count
}

fn timeless_count(cluster: &Cluster, jobs: &[Shared<Job>]) -> usize
    ensures { result ≡ made_count timeless_by cluster.now.times jobs.now }
{
    let mut count = 0;
    for job in jobs {
        if is_timeless(cluster, job.get()) {
            count += 1;
        }
    }
    count
}

fn count_line(alloc: Global, count: usize, words: &str) -> Result<String, AllocError>
    ensures { IfOk result (λ s. string_bytes s ≡ count_line count words.now) }
{
    if count == 0 {
        Ok(String::new(alloc))
    } else {
        format!(in alloc; "{count}{words}")
    }
}

/// How many Jobs of CronJobs have their scheduled time from their name alone, and how many tell
/// none, where there are such.
pub fn times_text(alloc: Global, cluster: &Cluster) -> Result<String, Refusal>
    ensures ok { IfOk result (λ s. string_bytes s
        ≡ times_words cluster.now.times (map.values cluster.now.jobs)) }
    ensures memory { IfErr result (λ e. e ≡ OutOfMemory) }
{
    let jobs = cluster.jobs(alloc)?;
    let named = named_count(cluster, jobs.as_slice());
    let timeless = timeless_count(cluster, jobs.as_slice());
    let mut text = count_line(
        alloc,
        named,
        " Jobs have no annotation of their scheduled time, as before Kubernetes 1.27; it is taken from their names\n",
    )?;
    let other = count_line(
        alloc,
        timeless,
        " Jobs tell no scheduled time, so only beside and stray are looked for in them\n",
    )?;
    text.push_str(other.as_str())?;
    Ok(text)
}
