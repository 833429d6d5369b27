// The CronJobs at the moment of the page, with what is told of their Jobs that failed.
ghost use Rattle.std.specs.Prelude.{◌≡◌, IfErr, Some, codes};
ghost use Rattle.cj_base.specs.declared.refusal.Refusal.TheVariants.{OutOfMemory};
ghost use Rattle.cj_zone.specs.Table.{local_zone, zones_of};
ghost use Rattle.cj_zone.specs.Zones.{utc_zone};

use crate::html::text::first_line;
use crate::why::failures::{failed_line, failures, is_failed, last_of};
use cj_cluster::{Cluster, ClusterCron, JobTimes};
use cj_types::{Job, Refusal, Seconds, Shared};
use cj_why::{CronRow, cron_rows, is_problem};
use cj_zone::{ZoneTable, time_text};
use std::alloc::Global;

/// A CronJob at the moment of the page.
#[derive(Drop)]
pub(crate) struct SeenCron {
    pub(crate) row: CronRow,
    /// How many of its Jobs failed, the last of them, and when; nothing where none did.
    pub(crate) failed: String,
    /// Whether it needs attention: `why --problems` has it, or its newest finished Job failed.
    pub(crate) wants_look: bool,
}

// The newest finished Job of a CronJob: when it was created, and whether it failed.
#[derive(Clone, Copy)]
struct Newest {
    created: u64,
    failed: bool,
}

// Of two Jobs that were created in one second the second, as their names follow.
fn newer(cron: &ClusterCron, newest: Newest, job: &Job) -> Newest {
    let created = job.meta.created.get();
    let controls = cron.controls(job);
    let is_unfinished = job.is_unfinished();
    if !controls || is_unfinished || created < newest.created {
        return newest;
    }
    Newest {
        created,
        failed: is_failed(job),
    }
}

// Whether the newest of the CronJob's Jobs that finished failed.
fn is_newest_failed(alloc: Global, cluster: &Cluster, cron: &ClusterCron) -> Result<bool, Refusal>
    ensures err { IfErr result (λ e. e ≡ OutOfMemory) }
{
    let jobs = cluster.jobs_naming(alloc, cron.cron.key.key())?;
    let mut newest = Newest {
        created: 0,
        failed: false,
    };
    for job in jobs.as_slice() {
        newest = newer(cron, newest, job.get());
    }
    Ok(newest.failed)
}

fn ended_by(times: Option<&Shared<JobTimes>>) -> Option<Seconds> {
    match times {
        Some(times) => times.get().ended,
        None => None,
    }
}

// When a Job ended, where the list tells it.
fn push_end(alloc: Global, text: &mut String, cluster: &Cluster, job: &Job) -> Result<(), Refusal>
    ensures err { IfErr result (λ e. e ≡ OutOfMemory) }
{
    match ended_by(cluster.times(&job.key)) {
        Some(ended) => {
            let time = time_text(alloc, ended)?;
            text.push_str(", which ended at ")?;
            Ok(text.push_str(time.as_str())?)
        }
        None => Ok(()),
    }
}

// What `why` says of the Jobs that failed, without the CronJob's name.
fn words_of(line: &str) -> &str {
    let line = first_line(line);
    line.split_once(": ").unwrap_or(("", line)).1
}

// How many Jobs failed, the last of them, and when; nothing where there are none.
fn failed_text(
    alloc: Global,
    cluster: &Cluster,
    cron: &ClusterCron,
    failed: &[Shared<Job>],
) -> Result<String, Refusal>
    ensures err { IfErr result (λ e. e ≡ OutOfMemory) }
{
    let line = failed_line(alloc, cluster, cron, failed)?;
    let mut text = String::from_str(alloc, words_of(line.as_str()))?;
    match failed.split_first() {
        Some((first, others)) => {
            let last = last_of(cluster, first, others).get();
            push_end(alloc, &mut text, cluster, last)?;
            Ok(text)
        }
        None => Ok(text),
    }
}

// What is told of the CronJob's Jobs that failed.
fn failed_of(alloc: Global, cluster: &Cluster, cron: &ClusterCron) -> Result<String, Refusal>
    ensures err { IfErr result (λ e. e ≡ OutOfMemory) }
{
    let failed = failures(alloc, cluster, cron)?;
    failed_text(alloc, cluster, cron, failed.as_slice())
}

fn seen_cron(
    alloc: Global,
    cluster: &Cluster,
    now: Seconds,
    row: CronRow,
) -> Result<SeenCron, Refusal>
    ensures err { IfErr result (λ e. e ≡ OutOfMemory) }
{
    let failed = failed_of(alloc, cluster, row.cron.get())?;
    let is_failed = is_newest_failed(alloc, cluster, row.cron.get())?;
    let is_problem = is_problem(row.verdict, now, row.missed);
    Ok(SeenCron {
        row,
        failed,
        wants_look: is_problem || is_failed,
    })
}

/// These CronJobs of a cluster at a moment.
pub(crate) fn seen_crons(
    alloc: Global,
    zones: &ZoneTable,
    cluster: &Cluster,
    crons: &[Shared<ClusterCron>],
    now: Seconds,
) -> Result<Vec<SeenCron>, Refusal>
    requires { local_zone zones.now ≡ Some (utc_zone (codes "UTC")) }
    ensures err { IfErr result (λ e. e ≡ OutOfMemory) }
{
    let rows = cron_rows(alloc, false, true, zones, cluster, crons, now)?;
    let mut seen = Vec::new(alloc);
    for row in rows {
        seen.push(seen_cron(alloc, cluster, now, row)?)
            .map_err(|_| Refusal::OutOfMemory)?;
    }
    Ok(seen)
}

/// How many of them need attention.
pub(crate) fn look_count(seen: &[SeenCron]) -> u64 {
    let mut count: u64 = 0;
    for cron in seen {
        if cron.wants_look {
            count = count.saturating_add(1);
        }
    }
    count
}
