// The time that a cluster's Jobs tell of.
ghost use Rattle.std.specs.Prelude.{◌≡◌, None, IfErr, IfOk, min};
ghost use Rattle.cj_base.specs.Instant.{last_second};
ghost use Rattle.cj_base.specs.declared.refusal.Refusal.TheVariants.{OutOfMemory};
ghost use Rattle.cj_inspect.specs.Nights.{look_in, look_of, widened, with_crons, with_jobs};

use crate::nights::look::Look;
use cj_base::both;
use cj_cluster::{Cluster, ClusterCron};
use cj_types::{Job, Refusal, Seconds, Shared};
use std::alloc::Global;

// A day, in seconds.
const DAY: u64 = 86_400;

// From when to when, in seconds since 1970, with one instant more.
fn widened(bounds: Option<(u64, u64)>, at: Seconds) -> Option<(u64, u64)>
    ensures { result ≡ widened bounds at }
{
    let at = at.get();
    match bounds {
        Some((first, last)) => Some((first.min(at), last.max(at))),
        None => Some((at, at)),
    }
}

// When the Jobs were created.
fn jobs_bounds(jobs: &[Shared<Job>]) -> Option<(u64, u64)>
    ensures { result ≡ with_jobs None jobs.now }
{
    let mut bounds = None;
    for job in jobs {
        bounds = widened(bounds, job.get().meta.created);
    }
    bounds
}

// With when the CronJobs were last due.
fn with_crons(mut bounds: Option<(u64, u64)>, crons: &[Shared<ClusterCron>]) -> Option<(u64, u64)>
    ensures { result ≡ with_crons bounds crons.now }
{
    for cron in crons {
        if let Some(time) = cron.get().cron.get().status.last_schedule_time {
            bounds = widened(bounds, time);
        }
    }
    bounds
}

fn instant(count: u64) -> Seconds
    ensures { result ≡ min count last_second }
{
    match Seconds::new(count.min(Seconds::LAST)) {
        Some(at) => at,
        None => unreachable!(),
    }
}

fn look_at(bounds: Option<(u64, u64)>, since: Option<Seconds>, now: Option<Seconds>) -> Look
    ensures { result ≡ look_in bounds since now }
{
    let (first, last) = bounds.unwrap_or((0, 0));
    let after = since.unwrap_or(instant(first));
    let last = now.unwrap_or(instant(last.saturating_add(DAY)));
    Look::Within(after, last)
}

/// The changes of clocks from when the oldest Job was created, or a CronJob was last due if that is
/// earlier, up to a day behind the last of these; but from then on, and up to now, where people say
/// so.
pub(crate) fn cluster_look(
    alloc: Global,
    cluster: &Cluster,
    since: Option<Seconds>,
    now: Option<Seconds>,
) -> Result<Look, Refusal>
    ensures ok { IfOk result (λ l. l ≡ look_of cluster.now since now) }
    ensures memory { IfErr result (λ e. e ≡ OutOfMemory) }
{
    let (crons, jobs) = both(cluster.crons(alloc), cluster.jobs(alloc))?;
    let bounds = with_crons(jobs_bounds(jobs.as_slice()), crons.as_slice());
    Ok(look_at(bounds, since, now))
}
